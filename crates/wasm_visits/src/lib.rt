//! Which indices a re-encoding of a core module asks for, and where the rows begin that they stand in.
#![tactic(auto)]

mod lister;
mod modules;
mod names;
mod rows;

pub use lister::PlacedVisit;
pub use modules::visits_of;
