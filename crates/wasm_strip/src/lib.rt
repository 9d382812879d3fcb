//! Binaries without some of their custom sections.
#![tactic(auto)]

mod choice;
mod component_names;
mod fault;
mod laws;
mod names;
mod rule;
mod sections;
mod sorting;
mod sound;
mod stripping;

pub use choice::Choice;
pub use component_names::are_component_names;
pub use fault::StripFault;
pub use laws::{
    bytes_have_one_reading, kept_sections_read_back, stripping_settles, tidied_sections_read_back,
    unsorted_is_stripped,
};
pub use names::are_names;
pub use rule::{Nothing, StripRule};
pub use sound::without_malformed;
pub use stripping::{strip, tidy};
