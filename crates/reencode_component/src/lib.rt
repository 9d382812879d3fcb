//! The re-encoding of a component (Component Model, Binary Format), and of any binary by its header.
#![tactic(auto)]

mod adding;
mod answer_visits;
mod by_hooks;
mod canonical;
mod chain;
mod component_methods;
mod component_rows;
mod component_sections;
mod component_types;
pub mod component_utils;
mod component_walk;
mod core_types;
mod default_bodies;
mod defaults;
mod direct;
mod fault_laws;
mod indices;
mod item_lists;
mod items;
mod laws;
mod names;
mod nested;
mod row_bodies;
mod row_sections;
mod rows;
mod scoped_sections;
mod sections;
mod type_bodies;
mod type_utils;
mod types;
mod within;
mod without_indices;

pub use answer_visits::AnswerComponentVisits;
pub use component_methods::ReencodeComponent;
pub use component_rows::ReencodeComponentRows;
pub use defaults::{DefaultComponent, DefaultComponentItems, DefaultComponentRows};
pub use fault_laws::{component_front_is_one, core_module_tells};
pub use indices::ReencodeComponentIndices;
pub use items::ReencodeComponentItems;
pub use laws::{
    binary_error_tells, binary_is_reencoded, component_fault_gains, component_fault_is_answered,
    component_fault_is_one, component_is_answered, component_is_reencoded, component_is_woven,
    component_refusal_tells, module_error_tells, module_is_reencoded, plain_binary_is_made,
    plain_module_is_made, weave_in_is_run, weave_in_of_nothing, woven_component_is_answered,
};
pub use within::{output_within, reencode, reencode_within};
