//! Whole modules in pieces.
use crate::modules::add_refused;
use crate::text::{add, add_bytes, add_word};
use reencode_core::{Piece, Pieces, Reencode, reencode_pieces};
use std::alloc::{AllocError, Global};
use std::fmt::Display;

/// Adds a piece: the places of a kept one, the length of a made one.
fn add_piece(text: &mut String, piece: &Piece) -> Result<(), AllocError> {
    match piece {
        Piece::Kept { start, end } => {
            add_word(text, "kept")?;
            add(text, start)?;
            add(text, end)
        }
        Piece::Made(made) => {
            add_word(text, "made")?;
            add(text, &made.len())
        }
    }
}

/// Adds each piece, and how many bytes they have.
fn add_each(text: &mut String, pieces: &Pieces) -> Result<(), AllocError> {
    for i in 0..pieces.len() {
        if let Some(piece) = pieces.piece(i) {
            add_piece(text, piece)?;
        }
    }
    add_word(text, "size")?;
    add(text, &pieces.size())
}

/// Adds what comes of a module in pieces: the bytes that they are joined, and each piece; or the refusal.
pub fn add_pieces<R: Reencode>(
    alloc: Global,
    text: &mut String,
    reencoder: &mut R,
    bytes: &[u8],
    ceiling: u32,
) -> Result<(), AllocError>
where
    R::Error: Display + Drop,
{
    match reencode_pieces(alloc, reencoder, bytes, ceiling) {
        Ok(pieces) => {
            let Ok(joined) = pieces.join(alloc, bytes) else {
                return Err(AllocError);
            };
            add_bytes(alloc, text, joined.as_slice())?;
            add_each(text, &pieces)
        }
        Err(e) => add_refused(alloc, text, &e),
    }
}
