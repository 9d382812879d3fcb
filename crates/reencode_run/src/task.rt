//! What a command does once its files are read.
use crate::renamers::Renamers;
use wasm_leb::List;

/// What a command does once its files are read.
#[derive(Drop)]
pub enum Task {
    /// The bytes are re-encoded under these renamers.
    Reencode(Renamers),
    /// A module of so many functions is made and re-encoded, and both lengths are told.
    Generate(u32),
    /// The bytes are re-encoded with no index renamed, and what of them is kept is told.
    KeepReport,
    /// The functions that the bytes define are moved to these places.
    Renumber(List<u32>),
    /// The functions that nothing reaches are removed.
    Prune,
    /// The bytes and these become one module.
    Merge(List<u8>),
}
