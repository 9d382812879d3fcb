//! The output of a re-encoding as kept ranges and made bytes.
mod code;
mod cuts;
mod growing;
mod laws;
mod module;
mod output;
mod piece;
mod reencode;

pub use laws::{fill_is_own, kept_is_answered, spelling_is_kept};
pub use output::{KeptOutput, Output};
pub use piece::{Piece, Pieces};
pub use reencode::{reencode_joined, reencode_kept, reencode_output, reencode_pieces};
