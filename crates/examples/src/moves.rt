//! A tool's step: where the function bodies stand that stay as they are.
ghost use Rattle.std.specs.Prelude.{◌≡◌, ◌++◌, ◌+◌, ◌<◌, ◌^◌, IfOk, IsTrue, OnOk};
ghost use Rattle.reencode_hooks.specs.Run.{ask};
ghost use Rattle.reencode_core.specs.Pieces.{piece_len};
ghost use Rattle.examples.specs.Moves.{TellsMoves, moved_at, moves_from};

use reencode_core::{Piece, Pieces, Reencode, reencode_pieces};
use reencode_hooks::Error;
use std::alloc::Global;
use wasm_leb::{List, NoMemory};

/// A function body that stays as it stood: the place of its first byte in the input and in the output, and its length.
#[derive(Clone, Copy, Debug, PartialEq)]
pub struct Moved {
    pub from: usize,
    pub to: u64,
    pub len: usize,
}

/// Adds a piece that is kept, and of another nothing. It answers where the next piece stands.
fn add_piece(moves: &mut List<Moved>, to: u64, piece: &Piece) -> Result<u64, NoMemory>
    requires { to + piece_len piece.now < 2 ^ 64 }
    ensures moves { OnOk result (moves.new ≡ moves.old ++ moved_at to piece.now) }
    ensures next { IfOk result (λ n. n ≡ to + piece_len piece.now) }
{
    match piece {
        Piece::Kept { start, end } => {
            let len = end.saturating_sub(*start);
            moves.push(Moved {
                from: *start,
                to,
                len,
            })?;
            Ok(to + len as u64)
        }
        Piece::Made(made) => Ok(to + made.len() as u64),
    }
}

/// Where each function body that is kept stands, in order.
pub fn kept_moves(alloc: Global, pieces: &Pieces) -> Result<List<Moved>, NoMemory>
    ensures { IfOk result (λ moves. moves ≡ moves_from 0 pieces.now) }
{
    let _size = pieces.size();
    let mut moves = List::new(alloc);
    let mut to = 0;
    'pieces: for i in 0..pieces.len() {
        match pieces.piece(i) {
            Some(piece) => to = add_piece(&mut moves, to, piece)?,
            None => {}
        }
    }
    Ok(moves)
}

/// What a reencoder makes of a core module, and where each function body stands that stays as it is.
pub fn reencode_moves<R: Reencode>(
    alloc: Global,
    reencoder: &mut R,
    bytes: &[u8],
) -> Result<(Vec<u8>, List<Moved>), Error<R::Error>>
    ensures { IsTrue R.keeps_defaults → IfOk result (λ made. TellsMoves (ask R.reply R.next)
        bytes.now reencoder.old reencoder.new made.0.items made.1) }
{
    let pieces = reencode_pieces(alloc, reencoder, bytes, u32::MAX)?;
    let moves = kept_moves(alloc, &pieces)?;
    let output = pieces.join(alloc, bytes)?;
    Ok((output, moves))
}
