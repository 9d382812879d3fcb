//! Operators that go from the input to the output without lists: those that stay as they stand are passed by, run by run, and
//! added as one slice.
//!
//! The hooks of `ReencodeIndices` are asked themselves, so in a reencoder that overrides a method of `ReencodeItems` these calls
//! may pass that method by.
mod classes;
mod fronts;
mod passing;
mod runs;
mod skipping;
mod types;

pub use crate::direct::passing::{Fresh, Next};
pub use crate::direct::runs::pass_run;
pub use crate::direct::skipping::skip_locals;
pub use crate::direct::types::stream_group;
