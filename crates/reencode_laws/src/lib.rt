//! Laws of re-encoding, each the contract of a function that does nothing. A tree is what bytes mean; a reading of some bytes is the
//! tree that they spell.
#![tactic(auto)]

mod chained;
mod filled;
mod own;
mod visited;

pub use chained::{chain_is_both, chain_refuses, chained_walks};
pub use filled::{filled_keeps_leaves, filled_keeps_parts, filled_twice};
pub use own::{own_answers, own_is_normal, own_is_not_longer};
pub use visited::{scopes_are_bracketed, section_visits_are};
