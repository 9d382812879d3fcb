//! Says, of the methods of a reencoder and of their functions, which methods and hooks each asks for an item, a row, a section, a
//! module or a component, in order.
//!
//! A line without a bar is of a method and of its function, which are one text: the method's body is a call of the function, or
//! both bodies are one macro of `default_bodies.rt` or `type_bodies.rt`, with the same arguments. The function is asked, of a
//! reencoder that overrides what it may ask (`all.rt`).
//!
//! A line with a bar between has the list of a method, and behind the bar that of its function, which are two texts: each names
//! for itself what it asks. The method is asked of a reencoder that keeps its default (`kept.rt`). `start_section` and
//! `component_external_index` have no function: their lines, without a bar, are of the method. A line that begins with a bar is of a
//! function alone: one that is no method's, or that of imports over a default below it.
#![tactic(auto)]

mod all;
mod answers;
mod component_items;
mod component_names;
mod component_rows;
mod component_sections;
mod component_values;
mod components_noted;
mod items;
mod items_noted;
mod kept;
mod kept_lines;
mod names;
mod noter;
mod rows;
mod sections;
mod values;

use crate::all::All;
use crate::kept::Kept;
use crate::noter::{Made, Noter, Notes};
use reencode_component::{ReencodeComponent, ReencodeComponentItems};
use reencode_core::Reencode;
use reencode_hooks::Error;
use reencode_items::ReencodeItems;
use std::alloc::Global;
use std::io;

/// What modules and their sections ask.
fn of_modules<N: Reencode + Notes>(of: &mut N, alloc: Global) -> Result<(), Error<N::Error>> {
    sections::modules(of, alloc)?;
    sections::sections(of, alloc)?;
    sections::more_sections(of, alloc)?;
    names::sections(of, alloc)
}

/// What the parts of bodies and segments, and types with lists ask.
fn of_parts<N: ReencodeItems + Notes>(of: &mut N, alloc: Global) -> Result<(), Error<N::Error>> {
    rows::locals(of, alloc, values::BODY)?;
    rows::items(of, alloc)?;
    items::lists(of, alloc)
}

/// What types without lists, immediates and operators ask.
fn of_items<N: ReencodeItems + Notes>(of: &mut N, alloc: Global) -> Result<(), Error<N::Error>> {
    items::types(of)?;
    items::immediates(of, alloc)?;
    items::operators(of, alloc)
}

/// What bodies of sections, and rows, ask.
fn of_bodies<N: Reencode + Notes>(of: &mut N, alloc: Global) -> Result<(), Error<N::Error>> {
    sections::bodies(of, alloc)?;
    rows::rows(of, alloc)?;
    rows::more_rows(of, alloc)?;
    sections::imports(of, alloc)
}

/// What types and operators ask.
fn of_types<N: ReencodeItems + Notes>(of: &mut N, alloc: Global) -> Result<(), Error<N::Error>> {
    items::composites(of, alloc)?;
    items::operator_and_types(of, alloc)?;
    items::heap_types(of)
}

/// What custom sections and names ask.
fn of_names<N: Reencode + Notes>(of: &mut N, alloc: Global) -> Result<(), Error<N::Error>> {
    names::customs(of, alloc)?;
    names::maps(of, alloc)
}

/// What imports, references, block types, lists of types and constant expressions ask.
fn of_others<N: ReencodeItems + Notes>(of: &mut N, alloc: Global) -> Result<(), Error<N::Error>>
where
    N::Error: Drop,
{
    items::entities(of)?;
    items::references(of, alloc)?;
    items::expressions(of, alloc)
}

/// What rows of components ask.
fn of_component_rows<N: ReencodeComponentItems + Notes>(
    of: &mut N,
    alloc: Global,
) -> Result<(), Error<N::Error>> {
    component_rows::exports(of, alloc)?;
    component_rows::component_instances(of, alloc)?;
    component_rows::instances(of, alloc)?;
    component_rows::canonical_functions(of, alloc)
}

/// What types of components ask.
fn of_component_types<N: ReencodeComponent + Notes>(
    of: &mut N,
    alloc: Global,
) -> Result<(), Error<N::Error>> {
    component_rows::functions(of, alloc)?;
    component_rows::values(of, alloc)?;
    component_rows::core_types(of, alloc)?;
    component_rows::declarations(of, alloc)
}

/// What components and their rows ask.
fn of_components<N: ReencodeComponent + Notes>(
    of: &mut N,
    alloc: Global,
) -> Result<(), Error<N::Error>> {
    component_sections::components(of, alloc)?;
    component_names::name_sections(of, alloc)?;
    of_component_rows(of, alloc)?;
    of_component_types(of, alloc)
}

/// What aliases, and sections of components ask.
fn of_component_sections<N: ReencodeComponent + Notes>(
    of: &mut N,
    alloc: Global,
) -> Result<(), Error<N::Error>> {
    component_items::aliases(of)?;
    component_sections::sections(of, alloc)?;
    component_sections::more_sections(of, alloc)?;
    component_sections::core_sections(of, alloc)
}

/// What types with scopes, and custom sections of components ask.
fn of_scopes<N: ReencodeComponent + Notes>(
    of: &mut N,
    alloc: Global,
) -> Result<(), Error<N::Error>> {
    component_sections::scopes(of, alloc)?;
    component_names::custom_sections(of, alloc)
}

/// What items of components ask, and what asks hooks alone.
fn of_component_items<N: ReencodeComponentItems + Notes>(
    of: &mut N,
    alloc: Global,
) -> Result<(), Error<N::Error>> {
    component_items::values(of);
    component_items::references(of)?;
    component_items::kinds_and_options(of)?;
    component_names::sorts(of, alloc)?;
    component_items::whole_sections(of, alloc)
}

/// What is asked of core modules and of their rows. Each function here makes few calls: one with eight cost the check four times
/// as much as two with four.
fn by_modules<N: Reencode + Notes>(of: &mut N, alloc: Global) -> Result<(), Error<N::Error>> {
    of_modules(of, alloc)?;
    of_parts(of, alloc)?;
    of_items(of, alloc)?;
    of_bodies(of, alloc)
}

/// What is asked of items of core modules and of names.
fn by_items<N: Reencode + Notes>(of: &mut N, alloc: Global) -> Result<(), Error<N::Error>>
where
    N::Error: Drop,
{
    of_types(of, alloc)?;
    of_names(of, alloc)?;
    of_others(of, alloc)
}

/// What is asked of components.
fn by_components<N: ReencodeComponent + Notes>(
    of: &mut N,
    alloc: Global,
) -> Result<(), Error<N::Error>> {
    of_components(of, alloc)?;
    of_component_sections(of, alloc)?;
    of_scopes(of, alloc)?;
    of_component_items(of, alloc)
}

/// What is asked of a reencoder that overrides.
fn by_functions<N: ReencodeComponent + Notes>(
    of: &mut N,
    alloc: Global,
) -> Result<(), Error<N::Error>>
where
    N::Error: Drop,
{
    by_modules(of, alloc)?;
    by_items(of, alloc)?;
    by_components(of, alloc)
}

/// What is asked of one that keeps defaults.
fn by_methods<N: Reencode + ReencodeComponentItems + Notes>(
    of: &mut N,
    alloc: Global,
) -> Result<(), Error<N::Error>> {
    kept_lines::sections(of, alloc)?;
    kept_lines::more_sections(of, alloc)?;
    kept_lines::segments(of, alloc)?;
    kept_lines::rows(of, alloc)?;
    kept_lines::indices(of);
    Ok(())
}

/// What the kind is asked that overrides.
fn of_all(alloc: Global, of: &mut Noter<All>) -> Made<()> {
    by_functions(of, alloc)
}

/// What the kind is asked that keeps defaults.
fn of_kept(alloc: Global, of: &mut Noter<Kept>) -> Made<()> {
    by_methods(of, alloc)
}

/// The lines of calls, and why they end where they do.
macro_rules! tell {
    ($rt:ident, $asked:ident) => {
        let mut of = Noter::new($rt.alloc());
        let made = $asked($rt.alloc(), &mut of);
        println!($rt; "{}", of.lines())?;
        if let Err(e) = made {
            println!($rt; "{e}")?;
        }
    };
}

fn main(rt: HostRuntime) -> io::Result<()> {
    tell!(rt, of_all);
    tell!(rt, of_kept);
    Ok(())
}
