//! The rows of a section, one behind another.
ghost use Rattle.std.specs.Prelude.{◌≡◌, ◌≢◌, ◌-◌, ◌<◌, [], IfOk, IfErr, IfSome, IfNone};
ghost use Rattle.wasm_leb.specs.declared.fault.Fault.{Fault};
ghost use Rattle.wasm_leb.specs.Place.{BeginsNoNumber};
ghost use Rattle.wasm_read.specs.Reading.{place_of, ReadsNone, CountRead};

use std::marker::Model;
use wasm_leb::{Fault, ReadError, front_u32};

/// The rows that are left of a vector that fills its body.
#[derive(Drop)]
pub struct Rows<'a> {
    rest: &'a [u8],
    left: u32,
    len: usize,
    count: u32,
}

impl<'a> Model for Rows<'a> {
    ghost use Rattle.wasm_read.specs.Reading.{Standing};

    ghost Value = { Standing };

    ghost view = { λ rows. record { rest = rows.rest.now; left = rows.left; len = rows.len; count = rows.count } };
}

impl<'a> Rows<'a> {
    /// Reads the count.
    pub fn new(body: &'a [u8]) -> Result<Self, Fault>
        ensures ok { IfOk result (λ rows. CountRead body.now rows) }
        ensures err { IfErr result (λ e. ReadsNone e 0 (BeginsNoNumber 128 32 32 body.now)) }
    {
        match front_u32(body) {
            Some((count, rest)) => Ok(Rows {
                rest,
                left: count,
                len: body.len(),
                count,
            }),
            None => Err(Fault::Read(ReadError { at: 0 })),
        }
    }

    /// How many rows the body says it has.
    pub fn count(&self) -> u32
        ensures { result ≡ self.now.count }
    {
        self.count
    }

    /// How many rows are left.
    pub fn left(&self) -> u32
        ensures { result ≡ self.now.left }
    {
        self.left
    }

    /// The place in the body where the next row is due.
    pub fn place(&self) -> usize
        ensures { result ≡ place_of self.now }
    {
        self.len.saturating_sub(self.rest.len())
    }

    /// That nothing is read at this place.
    pub fn refusal(&self) -> Fault
        ensures { result ≡ Fault.Read (record { at = place_of self.now }) }
    {
        Fault::Read(ReadError { at: self.place() })
    }

    /// The bytes where a row is due, or none at the end.
    pub fn due(&self) -> Result<Option<&'a [u8]>, Fault>
        ensures due { IfOk result (λ o. IfSome o (λ bytes.
            (bytes.now ≡ self.now.rest) × (0 < self.now.left))) }
        ensures ended { IfOk result (λ o. IfNone o ((self.now.left ≡ 0) × (self.now.rest ≡ []))) }
        ensures err { IfErr result (λ e.
            ReadsNone e (place_of self.now) ((self.now.left ≡ 0) × (self.now.rest ≢ []))) }
    {
        if self.left > 0 {
            Ok(Some(self.rest))
        } else if self.rest.is_empty() {
            Ok(None)
        } else {
            Err(self.refusal())
        }
    }

    /// A row was read, and these bytes are left behind it.
    pub fn advance(&mut self, rest: &'a [u8])
        requires { 0 < self.old.left }
        ensures { self.new ≡ record {
          rest = rest.now;
          left = self.old.left - 1;
          len = self.old.len;
          count = self.old.count;
        } }
    {
        self.rest = rest;
        self.left -= 1;
    }
}
