//! Sources, sinks and shelves in memory that never fail.
ghost use Rattle.std.specs.Prelude.{◌≡◌, ◌<◌, ◌≤◌, ◌++◌, ◌∷◌, [], Some, None, false, length, min, take, IfOk, OnErr, OnOk, IsErrOf, Ok, vec_len};
ghost use Rattle.reencode_run.specs.Memory.{text_of, told_held, written};
ghost use Rattle.reencode_run.specs.Outside.{WhereTold, followed, HasText, IsLonger};

use crate::failing_memory::{Texts, copy_of, give, keep};
use crate::outside::{Failed, Shelf, ShelfFault, Sink, Source};
use std::alloc::Global;
use std::marker::Model;
use wasm_leb::{List, NoMemory};

/// A source in memory that never fails. It tells what is left.
#[derive(Debug, Drop)]
pub struct SureSource {
    bytes: List<u8>,
    at: usize,
    most: usize,
}

impl Model for SureSource {
    ghost use Rattle.std.specs.Prelude.{◌≤◌, drop, length};
    ghost use Rattle.reencode_run.specs.Memory.{Reading};

    ghost Value = { Reading };

    ghost view = { λ s. record { left = drop s.at s.bytes; most = s.most } };

    ghost invariant = { λ s. (s.at ≤ length s.bytes) × (1 ≤ s.most) };
}

impl SureSource {
    /// A source of these bytes. A read gives at most `most` of them.
    pub fn new(bytes: List<u8>, most: usize) -> SureSource
        requires { 1 ≤ most }
        ensures { result ≡ record { left = bytes; most = most } }
    {
        SureSource { bytes, at: 0, most }
    }
}

impl Source for SureSource {
    ghost left = { λ s. Some s.left };

    ghost faults = { λ _. 0 };

    ghost can_read = { λ _. Unit {0} };

    fn read(&mut self, buf: &mut [u8]) -> Result<usize, Failed>
        ensures count { result
            ≡ Ok (min (min (length buf.old) self.old.most) (length self.old.left)) }
        ensures gives { IfOk result (λ n. self.old.left ≡ take n buf.new ++ self.new.left) }
        ensures end { result ≡ Ok 0 → 0 < length buf.old → self.new.left ≡ [] }
        ensures most { self.new.most ≡ self.old.most }
    {
        let rest = &self.bytes.as_slice()[self.at..];
        let n = give(rest, self.most, buf);
        self.at += n;
        Ok(n)
    }
}

/// A sink in memory that never fails. It tells what it holds, until more was written than it has
/// room for.
#[derive(Debug, Drop)]
pub struct SureSink {
    bytes: Vec<u8>,
    room: usize,
    is_past: bool,
}

impl Model for SureSink {
    ghost use Rattle.std.specs.Prelude.{◌≤◌, vec_len, vec_capacity};
    ghost use Rattle.reencode_run.specs.Memory.{Writing};

    ghost Value = { Writing };

    ghost view = { λ s. record { kept = s.bytes.items; room = s.room; is_past = s.is_past } };

    ghost invariant = { λ s. (vec_len s.bytes ≤ s.room) × (s.room ≤ vec_capacity s.bytes) };
}

impl SureSink {
    /// An empty sink that keeps up to `room` bytes, whose memory is taken here. A write past the room
    /// is taken and not kept, and what is held is not told from then on.
    pub fn new(alloc: Global, room: usize) -> Result<SureSink, NoMemory>
        ensures { IfOk result (λ sink. sink ≡ record { kept = []; room = room; is_past = false }) }
    {
        match Vec::with_capacity(alloc, room) {
            Ok(bytes) => Ok(SureSink {
                bytes,
                room,
                is_past: false,
            }),
            Err(_) => Err(NoMemory),
        }
    }

    /// The bytes kept.
    pub fn held(&self) -> &[u8]
        ensures { result.now ≡ self.now.kept }
    {
        self.bytes.as_slice()
    }
}

impl Sink for SureSink {
    ghost held = { told_held };

    ghost faults = { λ _. 0 };

    fn write(&mut self, piece: &[u8]) -> Result<usize, Failed>
        ensures taken { WhereTold (told_held self.new) (followed (told_held self.old) piece.now) }
        ensures count { result ≡ Ok (length piece.now) }
        ensures written { self.new ≡ written self.old piece.now }
    {
        if self.is_past || self.room - self.bytes.len() < piece.len() {
            self.is_past = true;
        } else {
            keep(&mut self.bytes, piece);
        }
        Ok(piece.len())
    }
}

/// A shelf in memory that never fails. It answers an empty text for a name that it does not hold. It
/// tells its texts.
#[derive(Debug, Drop)]
pub struct SureShelf {
    texts: Texts,
}

impl Model for SureShelf {
    ghost use Rattle.std.specs.Prelude.{List};
    ghost use Rattle.reencode_run.specs.Memory.{Named};

    ghost Value = { List Named };

    ghost view = { λ s. s.texts };
}

impl SureShelf {
    /// An empty shelf.
    pub fn new(alloc: Global) -> SureShelf
        ensures { result ≡ [] }
    {
        SureShelf {
            texts: Texts::new(alloc),
        }
    }

    /// Puts a text there, in place of an older one of its name. Where memory runs out, it changes nothing.
    pub fn put(&mut self, name: &str, text: &[u8]) -> Result<(), NoMemory>
        ensures ok { OnOk result
            (self.new ≡ record { name = name.now; bytes = text.now } ∷ self.old) }
        ensures err { OnErr result (self.new ≡ self.old) }
    {
        self.texts.put(name, text)
    }
}

impl Shelf for SureShelf {
    ghost texts = { λ s. Some (text_of s) };

    ghost faults = { λ _. 0 };

    fn fetch(&mut self, alloc: Global, name: &str, most: u32) -> Result<Vec<u8>, ShelfFault>
        ensures kept { self.new ≡ self.old }
        ensures within { IfOk result (λ text. vec_len text ≤ most) }
        ensures text { IfOk result
            (λ text. HasText (Some (text_of self.old)) name.now text.items) }
        ensures too_long { IsErrOf result ShelfFault.TooLong
            → IsLonger (Some (text_of self.old)) name.now most }
        ensures absent { text_of self.old name.now ≡ None → IfOk result (λ text. text.items ≡ []) }
        ensures never { IsErrOf result ShelfFault.Failed → ⊥ }
    {
        match self.texts.find(name) {
            Some(text) => copy_of(alloc, text, most),
            None => Ok(Vec::new(alloc)),
        }
    }
}
