//! Pieces of an output.
ghost use Rattle.std.specs.Prelude.{◌≡◌, ◌++◌, ◌<◌, ◌≤◌, length, slice_get, OnOk, IfOk, IfSome, IfNone};
ghost use Rattle.std.specs.Option.{option_copied};
ghost use Rattle.reencode_core.specs.Pieces.{Alternate, AreWithin, IsWithin, joined, piece_bytes, total};

use std::alloc::Global;
use std::marker::Model;
use wasm_leb::{List, NoMemory};

/// A piece of an output.
#[derive(Debug, Drop)]
pub enum Piece {
    /// A function body that stands in the output as it stood in the input, without its size: the place of its first byte, and
    /// the place behind its last.
    Kept { start: usize, end: usize },
    /// Bytes that were written.
    Made(List<u8>),
}

/// An output as kept ranges of its input and made bytes.
///
/// Contracts see it as the list of its pieces. Made bytes and kept ranges alternate, made ones begin, and none are empty.
#[derive(Drop)]
pub struct Pieces {
    pieces: Vec<Piece>,
    size: u64,
}

impl Model for Pieces {
    ghost use Rattle.std.specs.Prelude.{◌≡◌, List};
    ghost use Rattle.reencode_core.specs.declared.pieces.piece.Piece.{Piece};
    ghost use Rattle.reencode_core.specs.Pieces.{Alternate, total};

    ghost Value = { List Piece };

    ghost view = { λ p. p.pieces.items };

    ghost invariant = { λ p. (p.size ≡ total p.pieces.items) × Alternate p.pieces.items };
}

/// Appends the bytes of a piece over the input.
#[inline]
fn add_piece(out: &mut Vec<u8>, bytes: &[u8], piece: &Piece) -> Result<(), NoMemory>
    requires { IsWithin (length bytes.now) piece.now }
    ensures { OnOk result (out.new.items ≡ out.old.items ++ piece_bytes bytes.now piece.now) }
{
    let added = match piece {
        Piece::Kept { start, end } => out.extend_from_slice(&bytes[*start..*end]),
        Piece::Made(made) => out.extend_from_slice(made.as_slice()),
    };
    match added {
        Ok(()) => Ok(()),
        Err(_) => Err(NoMemory),
    }
}

impl Pieces {
    /// These pieces.
    pub(crate) fn of(pieces: Vec<Piece>, size: u64) -> Pieces
        requires size { size ≡ total pieces.items }
        requires alternate { Alternate pieces.items }
        ensures { result ≡ pieces.items }
    {
        Pieces { pieces, size }
    }

    /// How many pieces there are.
    pub fn len(&self) -> usize
        ensures { result ≡ length self.now }
    {
        self.pieces.len()
    }

    /// The piece at a place, counted from 0. None exactly where the place is not below the length.
    pub fn piece(&self, i: usize) -> Option<&Piece>
        ensures value { option_copied result ≡ slice_get self.now i }
        ensures some { IfSome result (λ _. i < length self.now) }
        ensures none { IfNone result (length self.now ≤ i) }
    {
        self.pieces.get(i)
    }

    /// How many bytes the pieces have.
    pub fn size(&self) -> u64
        ensures value { result ≡ total self.now }
        ensures alternate { Alternate self.now }
    {
        self.size
    }

    /// The bytes of the pieces, one behind another, over the input. It takes the memory of the output at once.
    pub fn join(&self, alloc: Global, bytes: &[u8]) -> Result<Vec<u8>, NoMemory>
        requires { AreWithin (length bytes.now) self.now }
        ensures { IfOk result (λ out. out.items ≡ joined bytes.now self.now) }
    {
        let Ok(size) = usize::try_from(self.size) else {
            return Err(NoMemory);
        };
        let Ok(mut out) = Vec::with_capacity(alloc, size) else {
            return Err(NoMemory);
        };
        'pieces: for piece in self.pieces.iter() {
            match add_piece(&mut out, bytes, piece) {
                Ok(()) => {}
                Err(NoMemory) => return Err(NoMemory),
            }
        }
        Ok(out)
    }
}
