//! The outside of the program: what it reads from, writes to and fetches texts from.
ghost use Rattle.std.specs.Prelude.{◌≡◌, ℕ, ◌<◌, ◌≤◌, List, [], Option, Some, take, length, Ok, IfOk, OnErr, IsErrOf, vec_len};
ghost use Rattle.reencode_run.specs.Outside.{Rose, WhereTold, before, followed, HasText, IsLonger};

use std::alloc::Global;

/// The outside failed in this call.
#[derive(Clone, Copy, Debug, PartialEq, Eq)]
pub struct Failed;

/// Why a shelf gives no text.
#[derive(Clone, Copy, Debug, PartialEq, Eq)]
pub enum ShelfFault {
    /// The outside failed in this call.
    Failed,
    /// The text has more bytes than were asked for.
    TooLong,
    /// Out of memory.
    NoMemory,
}

/// Where bytes are read from.
///
/// `left` are the bytes still to come, where they are told. `faults` counts the failures; it never
/// falls, and stands still at 2^64 - 1. A source is read only while `can_read` holds. Each source says when
/// that is, and keeps it behind a read that gave bytes; so none is read again behind its end or a failure.
/// Those of this crate may always be read.
pub trait Source {
    ghost left: { Self → Option (List ℕ) };

    ghost faults: { Self → ℕ };

    ghost can_read: { Self → Type 0 };

    /// Reads bytes into the front of a buffer, and answers how many. They are taken away from what
    /// is left. 0 for a buffer that is not empty means that nothing is left. What is left after a
    /// failure is for each source to say.
    fn read(&mut self, buf: &mut [u8]) -> Result<usize, Failed>
        requires { can_read self.old }
        ensures rises { faults self.old ≤ faults self.new }
        ensures failed { OnErr result (Rose (faults self.old) (faults self.new)) }
        ensures within { IfOk result (λ n. n ≤ length buf.old) }
        ensures gives { IfOk result (λ n. left self.old ≡ before (take n buf.new) (left self.new)) }
        ensures end { result ≡ Ok 0 → 0 < length buf.old → WhereTold (left self.new) (Some []) }
        ensures more { IfOk result (λ n. 0 < n → can_read self.new) };
}

/// Where bytes are written to.
///
/// `held` are the bytes taken so far, where they are told. `faults` counts the failures; it never
/// falls, and stands still at 2^64 - 1.
pub trait Sink {
    ghost held: { Self → Option (List ℕ) };

    ghost faults: { Self → ℕ };

    /// Takes bytes from the front of a piece, which is not empty, and answers how many: at least 1. A
    /// failure takes none.
    fn write(&mut self, piece: &[u8]) -> Result<usize, Failed>
        requires { 0 < length piece.now }
        ensures rises { faults self.old ≤ faults self.new }
        ensures failed { OnErr result (Rose (faults self.old) (faults self.new)) }
        ensures within { IfOk result (λ n. n ≤ length piece.now) }
        ensures some { IfOk result (λ n. 0 < length piece.now → 0 < n) }
        ensures taken { IfOk result
            (λ n. WhereTold (held self.new) (followed (held self.old) (take n piece.now))) }
        ensures kept { OnErr result (held self.new ≡ held self.old) };
}

/// Where texts are fetched by name.
///
/// `texts` tells the text of each name that is there, where it is told. `faults` counts the
/// failures; it never falls, and stands still at 2^64 - 1.
pub trait Shelf {
    ghost texts: { Self → Option (List ℕ → Option (List ℕ)) };

    ghost faults: { Self → ℕ };

    /// The text of a name, of at most `most` bytes. A name that is not there is for each shelf to
    /// answer.
    fn fetch(&mut self, alloc: Global, name: &str, most: u32) -> Result<Vec<u8>, ShelfFault>
        ensures rises { faults self.old ≤ faults self.new }
        ensures failed { IsErrOf result ShelfFault.Failed
            → Rose (faults self.old) (faults self.new) }
        ensures same { texts self.new ≡ texts self.old }
        ensures within { IfOk result (λ text. vec_len text ≤ most) }
        ensures text { IfOk result (λ text. HasText (texts self.old) name.now text.items) }
        ensures too_long { IsErrOf result ShelfFault.TooLong
            → IsLonger (texts self.old) name.now most };
}
