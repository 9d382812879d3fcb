//! The items of a core module, re-encoded through a reencoder's hooks.
#![tactic(auto)]

mod default_bodies;
mod defaults;
pub mod direct;
mod indices;
mod items;
pub mod utils;
mod without_indices;

pub use defaults::DefaultItems;
pub use items::ReencodeItems;
