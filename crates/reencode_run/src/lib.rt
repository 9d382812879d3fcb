//! The programs without their `main`: the top calls `run` and `transform`, over an outside (sources, sinks and shelves) that they are
//! handed.
#![tactic(auto)]

pub mod answer;
pub mod binary_taken;
mod buffer;
pub mod failing_memory;
mod generate;
pub mod hexadecimal;
pub mod index;
pub mod input;
mod job;
mod kept;
pub mod order;
pub mod outside;
mod reencoded;
pub mod renamers;
pub mod renaming;
pub mod report;
pub mod standard;
pub mod sure_memory;
pub mod task;
pub mod tool;
mod tools;
pub mod transform;
pub mod words;
pub mod write;
