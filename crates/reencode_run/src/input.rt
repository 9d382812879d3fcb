//! Reading the input to its end.
ghost use Rattle.std.specs.Prelude.{◌≡◌, ◌+◌, ◌<◌, ◌≤◌, ◌++◌, [], Some, take, length, Ok, IfOk, IsErrOf, vec_len};
ghost use Rattle.reencode_run.specs.Outside.{Rose, WhereTold, before, GaveAll, TookMore};

use crate::buffer::zeros;
use crate::outside::{Failed, Source};
use std::alloc::Global;

/// The most bytes that one read asks for: 64 KiB.
const PIECE: usize = 65_536;

/// Why an input was not read to its end.
#[derive(Clone, Copy, Debug, PartialEq, Eq)]
pub enum InputFault {
    /// A read failed.
    Failed,
    /// It has more bytes than it may have.
    TooLong,
    /// Out of memory.
    NoMemory,
}

/// Reads once, and adds what is given to the bytes. It answers how many were given.
fn read_piece<S: Source>(
    input: &mut S,
    piece: &mut [u8],
    bytes: &mut Vec<u8>,
) -> Result<usize, InputFault>
    requires { S.can_read input.old }
    ensures rises { S.faults input.old ≤ S.faults input.new }
    ensures failed { IsErrOf result InputFault.Failed
        → Rose (S.faults input.old) (S.faults input.new) }
    ensures too_long { result ≡ Err InputFault.TooLong → ⊥ }
    ensures within { IfOk result (λ n. n ≤ length piece.old) }
    ensures gives { IfOk result
        (λ n. S.left input.old ≡ before (take n piece.new) (S.left input.new)) }
    ensures added { IfOk result (λ n. bytes.new.items ≡ bytes.old.items ++ take n piece.new) }
    ensures longer { IfOk result (λ n. vec_len bytes.new ≡ vec_len bytes.old + n) }
    ensures end { result ≡ Ok 0 → 0 < length piece.old → WhereTold (S.left input.new) (Some []) }
    ensures more { IfOk result (λ n. 0 < n → S.can_read input.new) }
{
    match input.read(piece) {
        Ok(n) => match bytes.extend_from_slice(&piece[..n]) {
            Ok(()) => Ok(n),
            Err(_) => Err(InputFault::NoMemory),
        },
        Err(Failed) => Err(InputFault::Failed),
    }
}

/// The bytes of a source up to its end, read in pieces.
fn read_pieces<S: Source>(
    alloc: Global,
    input: &mut S,
    most: u32,
    piece: &mut [u8],
) -> Result<Vec<u8>, InputFault>
    requires room { 0 < length piece.old }
    requires can_read { S.can_read input.old }
    ensures rises { S.faults input.old ≤ S.faults input.new }
    ensures all { IfOk result
        (λ bytes. GaveAll most (S.left input.old) (S.left input.new) bytes.items) }
    ensures failed { IsErrOf result InputFault.Failed
        → Rose (S.faults input.old) (S.faults input.new) }
    ensures too_long { IsErrOf result InputFault.TooLong
        → TookMore most (S.left input.old) (S.left input.new) }
{
    let most = most as usize;
    let mut bytes = Vec::new(alloc);
    'pieces: while bytes.len() <= most {
        let room = piece.len().min(most + 1 - bytes.len());
        match read_piece(input, &mut piece[..room], &mut bytes) {
            Ok(0) => return Ok(bytes),
            Ok(_) => {}
            Err(fault) => return Err(fault),
        }
    }
    Err(InputFault::TooLong)
}

/// The bytes of a source up to its end. Of a source that has more than `most` bytes, or does not end, one
/// byte more than that is taken.
pub fn read_all<S: Source>(alloc: Global, input: &mut S, most: u32) -> Result<Vec<u8>, InputFault>
    requires { S.can_read input.old }
    ensures rises { S.faults input.old ≤ S.faults input.new }
    ensures all { IfOk result
        (λ bytes. GaveAll most (S.left input.old) (S.left input.new) bytes.items) }
    ensures failed { IsErrOf result InputFault.Failed
        → Rose (S.faults input.old) (S.faults input.new) }
    ensures too_long { IsErrOf result InputFault.TooLong
        → TookMore most (S.left input.old) (S.left input.new) }
{
    match zeros(alloc, PIECE) {
        Ok(mut piece) => read_pieces(alloc, input, most, piece.as_mut_slice()),
        Err(_) => Err(InputFault::NoMemory),
    }
}
