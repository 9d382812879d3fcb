//! Sections that are added to a component whole: `component_utils` has them, and the methods call them.
ghost use Rattle.std.specs.Prelude.{◌≤◌};
ghost use Rattle.wasm_shapes.specs.Component.{component_section_tree, unknown_component_tree};
ghost use Rattle.wasm_read_component.specs.ComponentRows.{start_tree};
ghost use Rattle.reencode_component.specs.Clauses.{AddedClauses};

use crate::items::ReencodeComponentItems;
use crate::row_bodies;
use reencode_hooks::{Error, ReencodeIndices};
use std::alloc::Global;
use wasm_read_component as r;
use wasm_write::RawSection;
use wasm_write_component as w;

/// Maps the function that starts a component by `component_func_index`, and then its arguments by `component_value_index`,
/// and adds the section.
pub fn parse_component_start_section<T: ReencodeComponentItems>(
    reencoder: &mut T,
    alloc: Global,
    component: &mut w::Component,
    func: r::ComponentStartFunction,
) -> Result<(), Error<T::Error>>
    ensures { AddedClauses T.ReencodeIndices 9 (component_section_tree 9 (start_tree func))
        reencoder.old component.old reencoder.new component.new result }
{
    let start = row_bodies::start(reencoder, alloc, func)?;
    component.section(&start)?;
    Ok(())
}

/// Adds a section of an id that no table knows, by its bytes.
pub fn parse_unknown_component_section<T: ReencodeIndices>(
    reencoder: &mut T,
    component: &mut w::Component,
    id: u8,
    contents: &[u8],
) -> Result<(), Error<T::Error>>
    requires { id ≤ 127 }
    ensures { AddedClauses T.ReencodeIndices id (unknown_component_tree id contents.now)
        reencoder.old component.old reencoder.new component.new result }
{
    let _ = reencoder;
    component.section(&RawSection { id, contents })?;
    Ok(())
}
