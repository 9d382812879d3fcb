//! LEB128 numbers, and what the crates above share: lists and the refusals of readers.
#![tactic(auto)]

mod fault;
mod front;
mod laws;
mod list;
mod minimal;
mod read;
mod write;

pub use fault::{Fault, Kind, NoMemory, ReadError};
pub use front::{front_byte, front_index, front_s32, front_s33, front_s64, front_u32, front_u64};
pub use laws::{
    index_spelling_is_unique, signed_spelling_is_unique, unsigned_spelling_is_unique,
    written_spelling_is_shortest,
};
pub use list::List;
pub use minimal::{is_shortest, is_shortest_signed};
pub use read::{read_s32, read_s33, read_s64, read_u32, read_u64};
pub use write::{len_u32, write_index, write_s32, write_s33, write_s64, write_u32, write_u64};
