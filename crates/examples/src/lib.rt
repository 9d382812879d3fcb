//! Reencoders of one's own, to start from.
#![tactic(auto)]

mod behind;
mod below;
mod counter;
mod marks;
mod moves;
mod stripper;
mod widened;

pub use behind::{Behind, TooMany, move_behind};
pub use below::{Below, NotBelow, check_below};
pub use counter::{Counter, count_entries};
pub use marks::{Marks, add_marks};
pub use moves::{Moved, kept_moves, reencode_moves};
pub use stripper::{Stripper, strip};
pub use widened::Widened;
