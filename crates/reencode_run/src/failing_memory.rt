//! Sources, sinks and shelves in memory some of whose calls fail.
ghost use Rattle.std.specs.Prelude.{◌||◌, Err, ◌≡◌, ◌-◌, ◌<◌, ◌≤◌, ◌++◌, List, [], Option, Some, None, if◌then◌else◌, drop, length, min, take, IfOk, OnErr, OnOk, IsErrOf, Ok, vec_len, vec_capacity, is_err, ◌+◌, ◌∷◌, map, option_map, string_bytes, IsTrue, ◌⊎◌};
ghost use Rattle.reencode_run.specs.Memory.{fails_next, is_full, one_more, text_of};
ghost use Rattle.reencode_run.specs.Outside.{Rose, HasText, IsLonger};

use crate::outside::{Failed, Shelf, ShelfFault, Sink, Source};
use std::alloc::Global;
use std::marker::Model;
use wasm_leb::{List, NoMemory};

/// Puts a front of the bytes into the front of a buffer, and answers how many: as many as there are,
/// have room, and are not more than `most`.
pub fn give(rest: &[u8], most: usize, buf: &mut [u8]) -> usize
    ensures count { result ≡ min (min (length buf.old) most) (length rest.now) }
    ensures given { take result buf.new ≡ take result rest.now }
{
    let n = buf.len().min(most).min(rest.len());
    buf[..n].copy_from_slice(&rest[..n]);
    n
}

/// A source in memory some of whose calls fail. It tells what is left, and a call that fails takes
/// nothing away.
#[derive(Debug, Drop)]
pub struct MemSource {
    bytes: List<u8>,
    at: usize,
    most: usize,
    fails: List<u64>,
    calls: u64,
    faults: u64,
}

impl Model for MemSource {
    ghost use Rattle.std.specs.Prelude.{◌≤◌, drop, length};
    ghost use Rattle.reencode_run.specs.Memory.{FailingReading};

    ghost Value = { FailingReading };

    ghost view = { λ s. record {
      left = drop s.at s.bytes;
      most = s.most;
      fails = s.fails;
      calls = s.calls;
      faults = s.faults;
    } };

    ghost invariant = { λ s. (s.at ≤ length s.bytes) × (1 ≤ s.most) };
}

impl MemSource {
    /// A source of these bytes. A read gives at most `most` of them. Calls are numbered from 1, and a
    /// call whose number is in `fails` fails.
    pub fn new(bytes: List<u8>, most: usize, fails: List<u64>) -> MemSource
        requires { 1 ≤ most }
        ensures { result
            ≡ record { left = bytes; most = most; fails = fails; calls = 0; faults = 0 } }
    {
        MemSource {
            bytes,
            at: 0,
            most,
            fails,
            calls: 0,
            faults: 0,
        }
    }
}

impl Source for MemSource {
    ghost left = { λ s. Some s.left };

    ghost faults = { λ s. s.faults };

    ghost can_read = { λ _. Unit {0} };

    fn read(&mut self, buf: &mut [u8]) -> Result<usize, Failed>
        ensures rises { self.old.faults ≤ self.new.faults }
        ensures failed { OnErr result (Rose self.old.faults self.new.faults) }
        ensures fails { is_err result ≡ fails_next self.old.fails self.old.calls }
        ensures count { IfOk result
            (λ n. n ≡ min (min (length buf.old) self.old.most) (length self.old.left)) }
        ensures gives { IfOk result (λ n. self.old.left ≡ take n buf.new ++ self.new.left) }
        ensures kept { OnErr result (self.new.left ≡ self.old.left) }
        ensures rules { (self.new.most ≡ self.old.most) × (self.new.fails ≡ self.old.fails) }
        ensures calls { self.new.calls ≡ one_more self.old.calls }
        ensures faults { self.new.faults
            ≡ (if is_err result then one_more self.old.faults else self.old.faults) }
        ensures end { result ≡ Ok 0 → 0 < length buf.old → self.new.left ≡ [] }
    {
        self.calls = self.calls.saturating_add(1);
        if self.fails.as_slice().contains(&self.calls) {
            self.faults = self.faults.saturating_add(1);
            return Err(Failed);
        }
        let rest = &self.bytes.as_slice()[self.at..];
        let n = give(rest, self.most, buf);
        self.at += n;
        Ok(n)
    }
}

/// A sink in memory some of whose calls fail. It tells what it holds.
#[derive(Debug, Drop)]
pub struct MemSink {
    bytes: Vec<u8>,
    room: usize,
    most: usize,
    fails: List<u64>,
    calls: u64,
    faults: u64,
}

impl Model for MemSink {
    ghost use Rattle.std.specs.Prelude.{◌≤◌, vec_len, vec_capacity};
    ghost use Rattle.reencode_run.specs.Memory.{FailingWriting};

    ghost Value = { FailingWriting };

    ghost view = { λ s. record {
      kept = s.bytes.items;
      room = s.room;
      most = s.most;
      fails = s.fails;
      calls = s.calls;
      faults = s.faults;
    } };

    ghost invariant = { λ s. (vec_len s.bytes ≤ s.room) × (s.room ≤ vec_capacity s.bytes) × (1 ≤ s.most) };
}

impl MemSink {
    /// An empty sink that keeps at most `room` bytes, whose memory is taken here. A write takes at
    /// most `most` bytes. Calls are numbered from 1, and a call whose number is in `fails` fails; so
    /// does a write of a piece that is not empty where `room` bytes are kept.
    pub fn new(
        alloc: Global,
        room: usize,
        most: usize,
        fails: List<u64>,
    ) -> Result<MemSink, NoMemory>
        requires { 1 ≤ most }
        ensures { IfOk result (λ sink. sink ≡ record {
          kept = [];
          room = room;
          most = most;
          fails = fails;
          calls = 0;
          faults = 0;
        }) }
    {
        match Vec::with_capacity(alloc, room) {
            Ok(bytes) => Ok(MemSink {
                bytes,
                room,
                most,
                fails,
                calls: 0,
                faults: 0,
            }),
            Err(_) => Err(NoMemory),
        }
    }

    /// The bytes kept.
    pub fn held(&self) -> &[u8]
        ensures { result.now ≡ self.now.kept }
    {
        self.bytes.as_slice()
    }
}

impl Sink for MemSink {
    ghost held = { λ s. Some s.kept };

    ghost faults = { λ s. s.faults };

    fn write(&mut self, piece: &[u8]) -> Result<usize, Failed>
        ensures rises { self.old.faults ≤ self.new.faults }
        ensures failed { OnErr result (Rose self.old.faults self.new.faults) }
        ensures fails { is_err result
            ≡ (fails_next self.old.fails self.old.calls || is_full self.old piece.now) }
        ensures count { IfOk result
            (λ n. n
            ≡ min (min (length piece.now) self.old.most) (self.old.room - length self.old.kept)) }
        ensures taken { IfOk result (λ n. self.new.kept ≡ self.old.kept ++ take n piece.now) }
        ensures kept { OnErr result (self.new.kept ≡ self.old.kept) }
        ensures rules { (self.new.room ≡ self.old.room) × (self.new.most ≡ self.old.most)
            × (self.new.fails ≡ self.old.fails) }
        ensures calls { self.new.calls ≡ one_more self.old.calls }
        ensures faults { self.new.faults
            ≡ (if is_err result then one_more self.old.faults else self.old.faults) }
        ensures some { IfOk result (λ n. 0 < length piece.now → 0 < n) }
    {
        self.calls = self.calls.saturating_add(1);
        let room = self.room - self.bytes.len();
        if self.fails.as_slice().contains(&self.calls) || (room == 0 && !piece.is_empty()) {
            self.faults = self.faults.saturating_add(1);
            return Err(Failed);
        }
        let n = piece.len().min(self.most).min(room);
        keep(&mut self.bytes, &piece[..n]);
        Ok(n)
    }
}

/// Keeps a piece for which there is room.
pub fn keep(bytes: &mut Vec<u8>, piece: &[u8])
    requires { vec_len bytes.old + length piece.now ≤ vec_capacity bytes.old }
    ensures items { bytes.new.items ≡ bytes.old.items ++ piece.now }
    ensures len { vec_len bytes.new ≡ vec_len bytes.old + length piece.now }
    ensures capacity { vec_capacity bytes.old ≤ vec_capacity bytes.new }
{
    match bytes.extend_from_slice(piece) {
        Ok(()) => {}
        Err(_) => unreachable!(),
    }
}

/// A text with its name.
#[derive(Debug, Drop)]
struct Text {
    name: String,
    bytes: Vec<u8>,
}

/// Texts with names, the newest first.
#[derive(Debug, Drop)]
pub struct Texts {
    texts: Vec<Text>,
}

impl Model for Texts {
    ghost use Rattle.std.specs.Prelude.{List, map, string_bytes};
    ghost use Rattle.reencode_run.specs.Memory.{Named};

    ghost Value = { List Named };

    ghost view = { λ t. map (λ text. record { name = string_bytes text.name; bytes = text.bytes.items }) t.texts.items };
}

impl Texts {
    /// No texts.
    pub fn new(alloc: Global) -> Texts
        ensures { result ≡ [] }
    {
        Texts {
            texts: Vec::new(alloc),
        }
    }

    /// Adds a text, in place of an older one of its name. Where memory runs out, it changes nothing.
    pub fn put(&mut self, name: &str, bytes: &[u8]) -> Result<(), NoMemory>
        ensures ok { OnOk result
            (self.new ≡ record { name = name.now; bytes = bytes.now } ∷ self.old) }
        ensures err { OnErr result (self.new ≡ self.old) }
    {
        let alloc = *self.texts.allocator();
        let Ok(name) = String::from_str(alloc, name) else {
            return Err(NoMemory);
        };
        let Ok(bytes) = Vec::from_slice(alloc, bytes) else {
            return Err(NoMemory);
        };
        match self.texts.insert(0, Text { name, bytes }) {
            Ok(()) => Ok(()),
            Err(_) => Err(NoMemory),
        }
    }

    /// The text of a name.
    pub fn find(&self, name: &str) -> Option<&[u8]>
        ensures { option_map (λ text. text.now) result ≡ text_of self.now name.now }
    {
        'texts: for text in &self.texts {
            if text.name.as_str() == name {
                return Some(text.bytes.as_slice());
            }
        }
        None
    }
}

/// A copy of a text that has at most so many bytes.
pub fn copy_of(alloc: Global, text: &[u8], most: u32) -> Result<Vec<u8>, ShelfFault>
    ensures same { IfOk result (λ copy. copy.items ≡ text.now) }
    ensures within { IfOk result (λ copy. vec_len copy ≤ most) }
    ensures too_long { IsErrOf result ShelfFault.TooLong → most < length text.now }
    ensures never { IsErrOf result ShelfFault.Failed → ⊥ }
{
    if text.len() > most as usize {
        return Err(ShelfFault::TooLong);
    }
    match Vec::from_slice(alloc, text) {
        Ok(copy) => Ok(copy),
        Err(_) => Err(ShelfFault::NoMemory),
    }
}

/// A shelf in memory some of whose calls fail; so does one for a name that it does not hold. It tells its
/// texts.
#[derive(Debug, Drop)]
pub struct MemShelf {
    texts: Texts,
    fails: List<u64>,
    calls: u64,
    faults: u64,
}

impl Model for MemShelf {
    ghost use Rattle.reencode_run.specs.Memory.{FailingFetching};

    ghost Value = { FailingFetching };

    ghost view = { λ s. record {
      texts = s.texts;
      fails = s.fails;
      calls = s.calls;
      faults = s.faults;
    } };
}

impl MemShelf {
    /// An empty shelf. Calls are numbered from 1, and a call whose number is in `fails` fails.
    pub fn new(alloc: Global, fails: List<u64>) -> MemShelf
        ensures { result ≡ record { texts = []; fails = fails; calls = 0; faults = 0 } }
    {
        MemShelf {
            texts: Texts::new(alloc),
            fails,
            calls: 0,
            faults: 0,
        }
    }

    /// Puts a text there, in place of an older one of its name. Where memory runs out, it changes nothing.
    pub fn put(&mut self, name: &str, text: &[u8]) -> Result<(), NoMemory>
        ensures ok { OnOk result (self.new ≡ record self.old {
          texts = record { name = name.now; bytes = text.now } ∷ self.old.texts;
        }) }
        ensures err { OnErr result (self.new ≡ self.old) }
    {
        self.texts.put(name, text)
    }
}

impl Shelf for MemShelf {
    ghost texts = { λ s. Some (text_of s.texts) };

    ghost faults = { λ s. s.faults };

    fn fetch(&mut self, alloc: Global, name: &str, most: u32) -> Result<Vec<u8>, ShelfFault>
        ensures rises { self.old.faults ≤ self.new.faults }
        ensures rose { IsErrOf result ShelfFault.Failed → Rose self.old.faults self.new.faults }
        ensures within { IfOk result (λ text. vec_len text ≤ most) }
        ensures text { IfOk result
            (λ text. HasText (Some (text_of self.old.texts)) name.now text.items) }
        ensures too_long { IsErrOf result ShelfFault.TooLong
            → IsLonger (Some (text_of self.old.texts)) name.now most }
        ensures fails { IsErrOf result ShelfFault.Failed
            → IsTrue (fails_next self.old.fails self.old.calls)
            ⊎ (text_of self.old.texts name.now ≡ None) }
        ensures failing { IsTrue (fails_next self.old.fails self.old.calls)
            → result ≡ Err ShelfFault.Failed }
        ensures absent { text_of self.old.texts name.now ≡ None → result ≡ Err ShelfFault.Failed }
        ensures rules { (self.new.texts ≡ self.old.texts) × (self.new.fails ≡ self.old.fails) }
        ensures calls { self.new.calls ≡ one_more self.old.calls }
        ensures counted { IsErrOf result ShelfFault.Failed
            → self.new.faults ≡ one_more self.old.faults }
        ensures uncounted { ¬ IsErrOf result ShelfFault.Failed
            → self.new.faults ≡ self.old.faults }
    {
        self.calls = self.calls.saturating_add(1);
        if self.fails.as_slice().contains(&self.calls) {
            self.faults = self.faults.saturating_add(1);
            return Err(ShelfFault::Failed);
        }
        match self.texts.find(name) {
            Some(text) => copy_of(alloc, text, most),
            None => {
                self.faults = self.faults.saturating_add(1);
                Err(ShelfFault::Failed)
            }
        }
    }
}
