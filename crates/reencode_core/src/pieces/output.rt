//! An output that is not yet in one place.
ghost use Rattle.std.specs.Prelude.{◌≡◌, ◌<◌, ◌≤◌, length, slice_get, IfOk, IfSome, IfNone, Some};
ghost use Rattle.reencode_core.specs.Pieces.{kept_total, range};

use crate::pieces::growing::Growing;
use std::alloc::Global;
use std::marker::Model;
use std::ops::Range;
use wasm_leb::NoMemory;

/// An output that was made, and not yet copied to one place: the function bodies that stay as they are in the input are not in
/// it twice.
///
/// Contracts see its bytes.
#[derive(Drop)]
pub struct Output<'a> {
    pieces: Growing<'a>,
}

impl<'a> Model for Output<'a> {
    ghost use Rattle.std.specs.Prelude.{List, ℕ};
    ghost use Rattle.std.specs.Coded.{coded_list, coded_ℕ};

    ghost Value = { List ℕ };

    ghost coded = { coded_list coded_ℕ };

    ghost view = { λ o. o.pieces.bytes };
}

impl<'a> Output<'a> {
    /// The output that these pieces are.
    pub(crate) fn of(pieces: Growing<'a>) -> Output<'a>
        ensures { result ≡ pieces.entry.bytes }
    {
        Output { pieces }
    }

    /// The output that these bytes are.
    pub fn from_vec(alloc: Global, bytes: Vec<u8>) -> Output<'a>
        ensures { result ≡ bytes.items }
    {
        Output {
            pieces: Growing::from_vec(alloc, bytes),
        }
    }

    /// How many bytes it has.
    pub fn len(&self) -> u64
        ensures { result ≡ length self.now }
    {
        self.pieces.len()
    }

    /// Copies it into as much room as it has bytes.
    pub fn copy_to(&self, room: &mut [u8])
        requires { length room.old ≡ length self.now }
        ensures { room.new ≡ self.now }
    {
        self.pieces.copy_to(room);
    }

    /// Its bytes, in the memory of those that were made.
    pub fn into_vec(self) -> Result<Vec<u8>, NoMemory>
        ensures { IfOk result (λ bytes. bytes.items ≡ self.entry) }
    {
        match self.pieces.join() {
            Ok(bytes) => Ok(bytes),
            Err(NoMemory) => Err(NoMemory),
        }
    }
}

/// An output that was made, and not yet copied to one place, and which function bodies stay in it as they are in the input.
///
/// Contracts see the input, the bytes of the output, and the ranges of the input that are kept in it, in order: each is a function
/// body without its size.
#[derive(Drop)]
pub struct KeptOutput<'a> {
    pieces: Growing<'a>,
}

impl<'a> Model for KeptOutput<'a> {
    ghost use Rattle.reencode_core.specs.Pieces.{Grown};

    ghost Value = { Grown };

    ghost view = { λ o. o.pieces };
}

impl<'a> KeptOutput<'a> {
    /// The output that these pieces are.
    pub(crate) fn of(pieces: Growing<'a>) -> KeptOutput<'a>
        ensures { result ≡ pieces.entry }
    {
        KeptOutput { pieces }
    }

    /// How many bytes it has.
    pub fn len(&self) -> u64
        ensures { result ≡ length self.now.bytes }
    {
        self.pieces.len()
    }

    /// How many of its bytes are those of kept function bodies.
    pub fn kept_len(&self) -> u64
        ensures { result ≡ kept_total self.now.kept }
    {
        self.pieces.kept_len()
    }

    /// How many function bodies are kept.
    pub fn bodies(&self) -> usize
        ensures { result ≡ length self.now.kept }
    {
        self.pieces.ranges()
    }

    /// Where a kept function body stands in the input, of these bodies the one of a number, from 0. None exactly where there are not so
    /// many.
    pub fn body(&self, i: usize) -> Option<Range<usize>>
        ensures some { IfSome result (λ r. slice_get self.now.kept i ≡ Some (range r.start r.end)) }
        ensures within { IfSome result (λ r. (r.start < r.end) × (r.end ≤ length self.now.input)) }
        ensures none { IfNone result (length self.now.kept ≤ i) }
    {
        self.pieces.range(i)
    }

    /// The output alone.
    pub fn into_output(self) -> Output<'a>
        ensures { result ≡ self.entry.bytes }
    {
        Output::of(self.pieces)
    }
}
