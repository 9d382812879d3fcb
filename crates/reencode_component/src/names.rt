//! The subsections of the names of a component (Component Model, Binary Format: the custom section named `component-name`).
ghost use Rattle.std.specs.Prelude.{◌≡◌, IfErr, IsTrue, Ok, true};
ghost use Rattle.wasm_shapes.specs.declared.Visit.TheVariants.{Index};
ghost use Rattle.wasm_shapes.specs.ComponentNames.{has_sort};
ghost use Rattle.wasm_read.specs.Subsections.{Content};
ghost use Rattle.wasm_read_component.specs.declared.types.ComponentName.{ComponentName};
ghost use Rattle.wasm_read_component.specs.ComponentNames.{IsRawName, component_content};
ghost use Rattle.reencode_hooks.specs.Hooks.{Replies};
ghost use Rattle.reencode_hooks.specs.Run.{NeverWants, ask};
ghost use Rattle.reencode_core.specs.Bodies.{KeepsCode};
ghost use Rattle.reencode_core.specs.Clauses.{SubsectionClausesOf};
ghost use Rattle.reencode_core.specs.Leaves.{LeavesMade, subsection_of};
ghost use Rattle.reencode_core.specs.Names.{GivesSubsectionOf};
ghost use Rattle.reencode_core.specs.Sections.{AddsMapped};
ghost use Rattle.wasm_write.specs.Sections.{section_row};
ghost use Rattle.reencode_component.specs.ComponentNames.{component_names};

use crate::indices::ReencodeComponentIndices;
use reencode_core::{map_names, written};
use reencode_hooks::{Error, ReencodeIndices};
use std::alloc::Global;
use wasm_read::NameMap;
use wasm_read_component as r;
use wasm_shapes::Space;
use wasm_write_component as w;
use wasm_write_component::ComponentSection;

/// The new index of what has a sort, by the hook of its space.
#[inline(always)]
fn sorted_index<T: ReencodeComponentIndices>(
    reencoder: &mut T,
    space: Space,
    index: u32,
) -> Result<u32, Error<T::Error>>
    requires { has_sort space ≡ true }
    ensures answer { Replies T.reply T.next reencoder.old reencoder.new (Index space index) result }
    ensures sure { NeverWants T.sure result }
{
    match space {
        Space::Function => reencoder.function_index(index),
        Space::Table => reencoder.table_index(index),
        Space::Memory => reencoder.memory_index(index),
        Space::Global => reencoder.global_index(index),
        Space::Tag => reencoder.tag_index(index),
        Space::Type_ => reencoder.type_index(index),
        Space::Module => Ok(reencoder.module_index(index)),
        Space::Instance => Ok(reencoder.instance_index(index)),
        Space::ComponentFunc => Ok(reencoder.component_func_index(index)),
        Space::ComponentValue => Ok(reencoder.component_value_index(index)),
        Space::ComponentType => Ok(reencoder.component_type_index(index)),
        Space::Component => Ok(reencoder.component_index(index)),
        Space::ComponentInstance => Ok(reencoder.component_instance_index(index)),
        _ => unreachable!(),
    }
}

/// Maps the names of what is of a sort and adds them.
fn parse_sorted_names<T: ReencodeComponentIndices>(
    reencoder: &mut T,
    alloc: Global,
    names: &mut w::ComponentNameSection,
    space: Space,
    map: NameMap<'_>,
) -> Result<(), Error<T::Error>>
    requires { has_sort space ≡ true }
    ensures kept { KeepsCode names.old names.new }
    ensures default { IsTrue T.keeps_defaults → (n : ComponentName)
        → component_content n ≡ Content.direct 1 space map.entry
        → GivesSubsectionOf component_names (ask T.reply T.next) n (reencoder.old, names.old)
        (reencoder.new, names.new) result }
    ensures after_error { IsTrue T.keeps_defaults → (n : ComponentName)
        → component_content n ≡ Content.direct 1 space map.entry
        → LeavesMade T.sure (ask T.reply T.next) (subsection_of component_names n)
        reencoder.old reencoder.new result }
    ensures unchanged { IsTrue T.keeps_defaults → IfErr result (λ _. names.new ≡ names.old) }
{
    match map_names(
        alloc,
        map,
        &mut |index| { sorted_index(reencoder, space, index) },
    ) {
        Ok(map) => written(names.names(space, &map)),
        Err(e) => Err(e),
    }
}

/// Maps a subsection of a component's names and adds it. The indices of a map are mapped by the hook of their space. A
/// `ParseError` holds the place in the map behind the entries that were accepted.
pub fn parse_custom_component_name_subsection<T: ReencodeComponentIndices>(
    reencoder: &mut T,
    alloc: Global,
    names: &mut w::ComponentNameSection,
    section: r::ComponentName<'_>,
) -> Result<(), Error<T::Error>>
    requires { IsRawName section }
    ensures { SubsectionClausesOf component_names T.ReencodeIndices section.entry
        reencoder.old names.old reencoder.new names.new result }
{
    match section {
        r::ComponentName::Component { name } => written(names.component(name)),
        r::ComponentName::CoreFuncs(map) => {
            parse_sorted_names(reencoder, alloc, names, Space::Function, map)
        }
        r::ComponentName::CoreTables(map) => {
            parse_sorted_names(reencoder, alloc, names, Space::Table, map)
        }
        r::ComponentName::CoreMemories(map) => {
            parse_sorted_names(reencoder, alloc, names, Space::Memory, map)
        }
        r::ComponentName::CoreGlobals(map) => {
            parse_sorted_names(reencoder, alloc, names, Space::Global, map)
        }
        r::ComponentName::CoreTags(map) => {
            parse_sorted_names(reencoder, alloc, names, Space::Tag, map)
        }
        r::ComponentName::CoreTypes(map) => {
            parse_sorted_names(reencoder, alloc, names, Space::Type_, map)
        }
        r::ComponentName::CoreModules(map) => {
            parse_sorted_names(reencoder, alloc, names, Space::Module, map)
        }
        r::ComponentName::CoreInstances(map) => {
            parse_sorted_names(reencoder, alloc, names, Space::Instance, map)
        }
        r::ComponentName::Funcs(map) => {
            parse_sorted_names(reencoder, alloc, names, Space::ComponentFunc, map)
        }
        r::ComponentName::Values(map) => {
            parse_sorted_names(reencoder, alloc, names, Space::ComponentValue, map)
        }
        r::ComponentName::Types(map) => {
            parse_sorted_names(reencoder, alloc, names, Space::ComponentType, map)
        }
        r::ComponentName::Components(map) => {
            parse_sorted_names(reencoder, alloc, names, Space::Component, map)
        }
        r::ComponentName::Instances(map) => {
            parse_sorted_names(reencoder, alloc, names, Space::ComponentInstance, map)
        }
        r::ComponentName::Unknown { id, contents } => written(names.raw(id, contents)),
    }
}

/// Adds a section, as what became of it says.
pub(crate) fn add_section<S: ComponentSection, E>(
    component: &mut w::Component,
    section: &S,
) -> Result<(), Error<E>>
    ensures { AddsMapped (section_row (S.Section.number section.now) (S.Section.contents section.now))
        component.old (Ok tt) component.new result }
{
    component.section(section)?;
    Ok(())
}
