//! The re-encoding of a core module (WebAssembly Core Specification 3.0, section 5.5).
#![tactic(auto)]

mod adding;
mod default_bodies;
mod defaults;
pub mod direct;
mod errors;
mod imports;
mod indices;
mod item_lists;
mod laws;
mod names;
mod pieces;
mod reencode;
mod row_sections;
mod rows;
mod rule;
mod sections;
mod subsections;
pub mod utils;

pub use adding::{Adding, SectionRule};
pub use defaults::{DefaultReencode, DefaultSections};
pub use errors::placed;
pub use item_lists::{MapItem, map_items};
pub use laws::{
    accepted_is_answered, fault_gains, fault_is_answered, fault_tells, front_is_one,
    output_is_read, refusal_tells, weave_ends, weave_is_run, weave_of_nothing,
};
pub use names::{indirect_name_map, map_indirect_names, map_names, name_map};
pub use pieces::{
    KeptOutput, Output, Piece, Pieces, fill_is_own, kept_is_answered, reencode_joined,
    reencode_kept, reencode_output, reencode_pieces, spelling_is_kept,
};
pub use reencode::{Reencode, reencode_core};
pub use rule::{check_by_rule, reencode_by_rule};
pub use subsections::written;
