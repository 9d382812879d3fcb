//! Pieces under construction.
ghost use Rattle.std.specs.Prelude.{◌≡◌, ◌++◌, ◌-◌, ◌<◌, ◌≤◌, ◌^◌, [], length, slice_get, slice_range, OnOk, OnErr, IfOk, IfSome, IfNone, Some};
ghost use Rattle.reencode_core.specs.Pieces.{AreGrown, kept_total, range, with_bytes, with_grown, with_kept};

use crate::pieces::cuts::{
    Cut, add_two, cut_out, drop_room, fill, joined_in_place, last_behind, lengthen_last, raise,
    stand_behind, take_over,
};
use crate::pieces::piece::Pieces;
use std::alloc::Global;
use std::marker::Model;
use std::ops::Range;
use wasm_leb::NoMemory;

/// Pieces under construction over an input.
///
/// Contracts see the input, the bytes that the pieces have so far, and the ranges that are kept.
#[derive(Drop)]
pub(crate) struct Growing<'a> {
    input: &'a [u8],
    // all made bytes, behind so many that are room for what others have in front of them
    made: Vec<u8>,
    front: usize,
    // the ranges that are kept between them, and where the made bytes behind the last of these begin
    cuts: Vec<Cut>,
    last: usize,
    size: u64,
}

impl<'a> Model for Growing<'a> {
    ghost use Rattle.std.specs.Prelude.{drop};
    ghost use Rattle.reencode_core.specs.Pieces.{AreCut, Grown, cut_bytes, cut_ranges};

    ghost Value = { Grown };

    ghost view = { λ g. record {
      input = g.input.now;
      bytes = cut_bytes g.input.now (drop g.front g.made.items) g.cuts.items;
      kept = cut_ranges g.cuts.items;
    } };

    ghost invariant = { λ g. AreCut g.input.now g.made.items g.front g.last g.size g.cuts.items };
}

impl<'a> Growing<'a> {
    /// No pieces. It takes no memory.
    pub fn new(alloc: Global, input: &'a [u8]) -> Growing<'a>
        ensures { result ≡ record { input = input.now; bytes = []; kept = [] } }
    {
        Growing {
            input,
            made: Vec::new(alloc),
            front: 0,
            cuts: Vec::new(alloc),
            last: 0,
            size: 0,
        }
    }

    /// One piece, of these bytes, over an empty input.
    pub fn from_vec(alloc: Global, bytes: Vec<u8>) -> Growing<'a>
        ensures { result ≡ record { input = []; bytes = bytes.items; kept = [] } }
    {
        let size = bytes.len() as u64;
        Growing {
            input: &[],
            made: bytes,
            front: 0,
            cuts: Vec::new(alloc),
            last: 0,
            size,
        }
    }

    /// No pieces, with room for so many bytes in front of them, where there is memory for it.
    pub fn with_room(alloc: Global, input: &'a [u8], front: usize) -> Growing<'a>
        ensures { result ≡ record { input = input.now; bytes = []; kept = [] } }
    {
        let mut made = Vec::new(alloc);
        match made.resize(front, 0) {
            Ok(()) => Growing {
                input,
                made,
                front,
                cuts: Vec::new(alloc),
                last: front,
                size: 0,
            },
            Err(_) => Growing::new(alloc, input),
        }
    }

    /// How many bytes they have.
    pub fn len(&self) -> u64
        ensures { result ≡ length self.now.bytes }
    {
        self.size
    }

    /// The input.
    pub fn input(&self) -> &'a [u8]
        ensures { result.now ≡ self.now.input }
    {
        self.input
    }

    /// How many of its bytes are kept.
    pub fn kept_len(&self) -> u64
        ensures { result ≡ kept_total self.now.kept }
    {
        self.size - (self.made.len() - self.front) as u64
    }

    /// How many ranges are kept.
    pub fn ranges(&self) -> usize
        ensures { result ≡ length self.now.kept }
    {
        self.cuts.len()
    }

    /// The kept range of a number, from 0.
    pub fn range(&self, i: usize) -> Option<Range<usize>>
        ensures some { IfSome result (λ r. slice_get self.now.kept i ≡ Some (range r.start r.end)) }
        ensures within { IfSome result (λ r. (r.start < r.end) × (r.end ≤ length self.now.input)) }
        ensures none { IfNone result (length self.now.kept ≤ i) }
    {
        match self.cuts.get(i) {
            Some(cut) => Some(cut.start..cut.end),
            None => None,
        }
    }

    /// How many made bytes there are, those of room among them.
    pub fn made_len(&self) -> usize {
        self.made.len()
    }

    /// Adds bytes.
    pub fn add(&mut self, bytes: &[u8]) -> Result<(), NoMemory>
        ensures ok { OnOk result (self.new ≡ with_bytes self.old bytes.now) }
        ensures err { OnErr result (self.new ≡ self.old) }
    {
        self.add_both(&[], bytes)
    }

    /// Adds bytes, and others behind them.
    pub fn add_both(&mut self, head: &[u8], bytes: &[u8]) -> Result<(), NoMemory>
        ensures ok { OnOk result (self.new ≡ with_bytes self.old (head.now ++ bytes.now)) }
        ensures err { OnErr result (self.new ≡ self.old) }
    {
        let Some(size) = self.size.checked_add(head.len() as u64) else {
            return Err(NoMemory);
        };
        let Some(size) = size.checked_add(bytes.len() as u64) else {
            return Err(NoMemory);
        };
        match add_two(&mut self.made, head, bytes) {
            Ok(()) => {
                self.size = size;
                Ok(())
            }
            Err(NoMemory) => Err(NoMemory),
        }
    }

    /// Keeps a range of the input that is not empty, behind some bytes.
    pub fn keep(&mut self, head: &[u8], start: usize, end: usize) -> Result<(), NoMemory>
        requires ordered { start < end }
        requires within { end ≤ length self.old.input }
        requires some { 0 < length head.now }
        ensures ok { OnOk result (self.new ≡ with_kept self.old head.now start end) }
        ensures err { OnErr result (self.new ≡ self.old) }
    {
        let Some(size) = self.size.checked_add(head.len() as u64) else {
            return Err(NoMemory);
        };
        let Some(size) = size.checked_add((end - start) as u64) else {
            return Err(NoMemory);
        };
        match self.cuts.reserve(1) {
            Ok(()) => {}
            Err(_) => return Err(NoMemory),
        }
        match self.made.extend_from_slice(head) {
            Ok(()) => {}
            Err(_) => return Err(NoMemory),
        }
        let made = self.made.len() - self.last;
        self.cuts.push_reserved(Cut { made, start, end });
        self.last += made;
        self.size = size;
        Ok(())
    }

    /// Adds bytes, and a range of the input that is not empty behind them. Where both stand in the input right behind the range that
    /// is the last piece, they are added to that range.
    pub fn keep_on(&mut self, head: &[u8], start: usize, end: usize) -> Result<(), NoMemory>
        requires ordered { start < end }
        requires within { end ≤ length self.old.input }
        requires some { 0 < length head.now }
        ensures bytes { OnOk result (self.new.bytes
            ≡ self.old.bytes ++ (head.now ++ slice_range self.old.input start end)) }
        ensures input { self.new.input ≡ self.old.input }
        ensures err { OnErr result (self.new ≡ self.old) }
    {
        if self.made.len() == self.last && stand_behind(self.input, &self.cuts, head, start) {
            let Some(size) = self.size.checked_add(head.len() as u64) else {
                return Err(NoMemory);
            };
            let Some(size) = size.checked_add((end - start) as u64) else {
                return Err(NoMemory);
            };
            lengthen_last(&mut self.cuts, end);
            self.size = size;
            return Ok(());
        }
        self.keep(head, start, end)
    }

    /// Adds bytes, and the pieces of another over the same input behind them.
    ///
    /// Where these have room for just the made bytes in front of them, none of theirs is copied.
    pub fn append(&mut self, head: &[u8], other: Growing<'_>) -> Result<(), NoMemory>
        requires { other.input ≡ self.old.input }
        ensures ok { OnOk result (self.new ≡ with_grown (with_bytes self.old head.now) other.entry) }
        ensures err { OnErr result (self.new ≡ self.old) }
    {
        let Some(size) = self.size.checked_add(head.len() as u64) else {
            return Err(NoMemory);
        };
        let Some(size) = size.checked_add(other.size) else {
            return Err(NoMemory);
        };
        let mut cuts = other.cuts;
        match self.cuts.reserve(cuts.len()) {
            Ok(()) => {}
            Err(_) => return Err(NoMemory),
        }
        let begun = self.made.len();
        match take_over(&mut self.made, head, other.made, other.front) {
            Ok(()) => {}
            Err(NoMemory) => return Err(NoMemory),
        }
        let begun = begun + head.len();
        let last = last_behind(&cuts, self.last, begun, other.last - other.front);
        raise(&mut cuts, begun - self.last);
        self.last = last;
        match self.cuts.append(&mut cuts) {
            Ok(()) => {}
            Err(_) => return Err(NoMemory),
        }
        self.size = size;
        Ok(())
    }

    /// The pieces.
    pub fn finish(self, alloc: Global) -> Result<Pieces, NoMemory>
        ensures { IfOk result (AreGrown self.entry) }
    {
        let size = self.size;
        match cut_out(alloc, self.made, self.front, &self.cuts) {
            Ok(pieces) => Ok(Pieces::of(pieces, size)),
            Err(NoMemory) => Err(NoMemory),
        }
    }

    /// Copies the bytes into as much room.
    pub fn copy_to(&self, room: &mut [u8])
        requires { length room.old ≡ length self.now.bytes }
        ensures { room.new ≡ self.now.bytes }
    {
        fill(room, self.input, &self.made[self.front..], &self.cuts);
    }

    /// The bytes, in the memory of those that were made.
    pub fn join(self) -> Result<Vec<u8>, NoMemory>
        ensures { IfOk result (λ out. out.items ≡ self.entry.bytes) }
    {
        let mut made = self.made;
        drop_room(&mut made, self.front);
        if self.cuts.len() == 0 {
            return Ok(made);
        }
        let Ok(size) = usize::try_from(self.size) else {
            return Err(NoMemory);
        };
        joined_in_place(made, self.last - self.front, self.input, &self.cuts, size)
    }
}
