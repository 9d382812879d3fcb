//! The default bodies of `ReencodeComponentItems`, `ReencodeComponentRows` and `ReencodeComponent`, as functions of any
//! reencoder.
//!
//! Those whose bodies call no method of the trait are bounded by a trait below, so that an override can call them.
ghost use Rattle.wasm_types.specs.ComponentTrees.{component_val_type_tree, type_ref_tree};
ghost use Rattle.wasm_read_component.specs.Aliases as read;
ghost use Rattle.wasm_write_component.specs.Aliases as write;
ghost use Rattle.reencode_core.specs.Clauses.{CustomClausesOf, NamesClausesOf};
ghost use Rattle.reencode_items.specs.Clauses.{ItemClauses};
ghost use Rattle.reencode_component.specs.Clauses.{ValueClauses};
ghost use Rattle.reencode_component.specs.ComponentNames.{component_custom, component_names};

pub use crate::by_hooks::{canonical_option, type_bounds};
use crate::component_methods::ReencodeComponent;
pub use crate::component_types::{
    component_instance_type, component_type, parse_component_instance_type_declaration,
    parse_component_type, parse_component_type_declaration, parse_component_type_section,
};
pub use crate::component_walk::{
    parse_component, parse_component_payload, parse_component_subcomponent,
};
pub use crate::core_types::parse_component_module_type_declaration;
use crate::items::ReencodeComponentItems;
use crate::names::add_section;
pub use crate::names::parse_custom_component_name_subsection;
pub use crate::nested::parse_component_submodule;
pub use crate::row_sections::{
    parse_component_alias_section, parse_component_canonical_section,
    parse_component_export_section, parse_component_import_section,
    parse_component_instance_section, parse_instance_section,
};
pub use crate::rows::{
    parse_component_canonical, parse_component_export, parse_component_instance, parse_instance,
};
pub use crate::scoped_sections::parse_core_type_section;
pub use crate::sections::{parse_component_start_section, parse_unknown_component_section};
pub use crate::type_utils::{component_module_type, parse_component_core_type};
pub use crate::types::{parse_component_defined_type, parse_component_func_type};
pub use crate::without_indices::{
    component_export_kind, component_outer_alias_kind, component_primitive_val_type,
};
use crate::{by_hooks, default_bodies};
use reencode_core::placed;
use reencode_hooks::Error;
use std::alloc::Global;
use wasm_read::CustomSection;
use wasm_read_component as r;
use wasm_write_component as w;

/// A type of values (Component Model, Binary Format: `valtype`).
pub fn component_val_type<T: ReencodeComponentItems>(
    reencoder: &mut T,
    ty: r::ComponentValType,
) -> w::ComponentValType
    ensures { ValueClauses T.ReencodeIndices
        (component_val_type_tree ty) component_val_type_tree reencoder.old reencoder.new result }
{
    default_bodies::component_val_type!(reencoder, ty)
}

/// The type of what is imported or exported (`externdesc`).
pub fn component_type_ref<T: ReencodeComponentItems>(
    reencoder: &mut T,
    ty: r::ComponentTypeRef,
) -> Result<w::ComponentTypeRef, Error<T::Error>>
    ensures { ItemClauses T.ReencodeIndices
        (type_ref_tree ty) type_ref_tree reencoder.old reencoder.new result }
{
    default_bodies::component_type_ref!(reencoder, ty)
}

/// An alias (`alias`). An outer one asks the outer hook of its sort, and its count stays.
pub fn component_alias<'a, T: ReencodeComponentItems>(
    reencoder: &mut T,
    alias: r::ComponentAlias<'a>,
) -> Result<w::Alias<'a>, Error<T::Error>>
    ensures { ItemClauses T.ReencodeIndices
        (read.alias_tree alias.entry) write.alias_tree reencoder.old reencoder.new result }
{
    default_bodies::component_alias!(reencoder, alias)
}

/// Maps the subsections of a component's names that the reader still has, each by `parse_custom_component_name_subsection`. No
/// subsection that is written may be longer than the ceiling. A `ParseError` holds the place of the subsection in fault.
pub fn custom_component_name_section<T: ReencodeComponent>(
    reencoder: &mut T,
    alloc: Global,
    section: r::ComponentNameSectionReader<'_>,
    ceiling: u32,
) -> Result<w::ComponentNameSection, Error<T::Error>>
    ensures { NamesClausesOf component_names T.ReencodeIndices ceiling section.entry
        reencoder.old reencoder.new result }
{
    default_bodies::custom_component_name_section!(reencoder, alloc, section, ceiling)
}

/// Maps a custom section and adds it: one named `component-name` by `custom_component_name_section`, and any other by
/// `custom_section`. The place of a `ParseError` is in the contents behind the name.
pub fn parse_component_custom_section<T: ReencodeComponent>(
    reencoder: &mut T,
    alloc: Global,
    component: &mut w::Component,
    section: CustomSection<'_>,
) -> Result<(), Error<T::Error>>
    ensures { CustomClausesOf component_custom T.ReencodeIndices section.entry.name.now section.entry.contents.now
        reencoder.old component.old reencoder.new component.new result }
{
    default_bodies::parse_component_custom_section!(reencoder, alloc, component, section)
}
