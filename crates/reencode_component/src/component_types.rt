//! Types of components, what these declare, and sections of them. A type may hold others, in scopes, so these calls go in a cycle,
//! and are functions alone.
ghost use Rattle.wasm_shapes.specs.Component as shapes;
ghost use Rattle.wasm_types.specs.ComponentTrees.{maybe_function};
ghost use Rattle.wasm_read_component.specs.TypeRows.{TypeStands};
ghost use Rattle.wasm_write_component.specs.TypeRows.{scope_tree};
ghost use Rattle.reencode_items.specs.Clauses.{ItemClauses};
ghost use Rattle.reencode_component.specs.DeclarationClauses.{ComponentDeclarationClauses, ComponentRowClauses, ComponentTypeClauses, InstanceDeclarationClauses, InstanceRowClauses, ShallowScopeClauses, TypeRowClauses};
ghost use Rattle.reencode_component.specs.ScopedRows.{ShallowRowsClauses};

use crate::component_methods::ReencodeComponent;
use crate::direct::{add_scoped_type, scoped_type};
use crate::items::ReencodeComponentItems;
use crate::rows::add_row;
use crate::scoped_sections::{MapScopedRow, map_scoped_rows};
use crate::{row_bodies, type_bodies};
use reencode_hooks::Error;
use std::alloc::Global;
use wasm_read_component as r;
use wasm_shapes::component_kinds as kinds;
use wasm_write_component as w;

/// The function that is called with a resource, where there is one, by `function_index`.
fn destructor<T: ReencodeComponentItems>(
    reencoder: &mut T,
    dtor: Option<u32>,
) -> Result<Option<u32>, Error<T::Error>>
    ensures { ItemClauses T.ReencodeIndices (maybe_function dtor) maybe_function
        reencoder.old reencoder.new result }
{
    match dtor {
        Some(index) => Ok(Some(reencoder.function_index(index)?)),
        None => Ok(None),
    }
}

/// A type of a component (Component Model, Binary Format: `deftype`): one of values by `parse_component_defined_type`, one of
/// functions by `parse_component_func_type`, a component type by `component_type` and an instance type by
/// `component_instance_type`. Of a resource the type that stands for it is mapped by `val_type`, and then the function that is
/// called with it by `function_index`.
#[cycle(types)]
pub fn parse_component_type<'a, T: ReencodeComponent>(
    reencoder: &mut T,
    alloc: Global,
    ty: r::ComponentType<'a>,
) -> Result<w::ComponentTypeRow<'a>, Error<T::Error>>
    ensures { ComponentTypeClauses T.ReencodeIndices ty.entry reencoder.old reencoder.new result }
{
    match ty {
        r::ComponentType::Defined(ty) => {
            let ty = reencoder.parse_component_defined_type(alloc, ty)?;
            Ok(w::ComponentTypeRow::Defined(ty))
        }
        r::ComponentType::Func(ty) => {
            let ty = reencoder.parse_component_func_type(alloc, ty)?;
            Ok(w::ComponentTypeRow::Func(ty))
        }
        r::ComponentType::Component(declarations) => {
            let declarations = component_type(reencoder, alloc, declarations)?;
            Ok(w::ComponentTypeRow::Component(declarations))
        }
        r::ComponentType::Instance(declarations) => {
            let declarations = component_instance_type(reencoder, alloc, declarations)?;
            Ok(w::ComponentTypeRow::Instance(declarations))
        }
        r::ComponentType::Resource { rep, dtor } => {
            let rep = reencoder.val_type(rep)?;
            let dtor = destructor(reencoder, dtor)?;
            Ok(w::ComponentTypeRow::Resource { rep, dtor })
        }
    }
}

/// A component type, which is a scope: `push_depth`, then each declaration that the reader still has by
/// `parse_component_type_declaration`, then `pop_depth`, which is not called where one of these is refused.
#[cycle(types)]
pub fn component_type<T: ReencodeComponent>(
    reencoder: &mut T,
    alloc: Global,
    ty: r::ComponentDeclarations<'_>,
) -> Result<w::ComponentType, Error<T::Error>>
    ensures { ShallowScopeClauses T.ReencodeIndices shapes.component_declaration ty.entry (λ t. t) scope_tree
        reencoder.old reencoder.new result }
{
    type_bodies::scope!(reencoder, alloc, ty, made: ComponentType, row => parse_component_type_declaration(reencoder, alloc, &mut made, row))
}

/// An instance type, which is a scope: `push_depth`, then each declaration that the reader still has by
/// `parse_component_instance_type_declaration`, then `pop_depth`, which is not called where one of these is refused.
#[cycle(types)]
pub fn component_instance_type<T: ReencodeComponent>(
    reencoder: &mut T,
    alloc: Global,
    ty: r::InstanceDeclarations<'_>,
) -> Result<w::InstanceType, Error<T::Error>>
    ensures { ShallowScopeClauses T.ReencodeIndices shapes.instance_declaration ty.entry (λ t. t) scope_tree
        reencoder.old reencoder.new result }
{
    type_bodies::scope!(reencoder, alloc, ty, made: InstanceType, row => parse_component_instance_type_declaration(reencoder, alloc, &mut made, row))
}

// What a component type or an instance type declares, and what one of them declares beside.
macro_rules! declaration {
    ($of:ident, $reencoder:ident, $alloc:ident, $decl:ident $(, $import:ident)?) => {
        match $decl {
            r::$of::CoreType(ty) => {
                let ty = $reencoder.parse_component_core_type($alloc, ty)?;
                Ok(w::$of::CoreType(ty))
            }
            r::$of::Type_(ty) => {
                let ty = parse_component_type($reencoder, $alloc, ty)?;
                Ok(w::$of::Type_(ty))
            }
            r::$of::Alias(alias) => {
                let alias = $reencoder.component_alias(alias)?;
                Ok(w::$of::Alias(alias))
            }
            $(
                r::$of::$import(import) => {
                    let import = row_bodies::component_import($reencoder, import)?;
                    Ok(w::$of::$import(import))
                }
            )?
            r::$of::Export { name, ty } => {
                let ty = $reencoder.component_type_ref(ty)?;
                Ok(w::$of::Export { name, ty })
            }
        }
    };
}

/// What a component type declares: core types by `parse_component_core_type`, types by `parse_component_type`, an alias by
/// `component_alias`, and what is imported or exported by `component_type_ref`.
#[cycle(types)]
pub(crate) fn component_declaration<'a, T: ReencodeComponent>(
    reencoder: &mut T,
    alloc: Global,
    decl: r::ComponentTypeDeclaration<'a>,
) -> Result<w::ComponentTypeDeclaration<'a>, Error<T::Error>>
    ensures { ComponentDeclarationClauses T.ReencodeIndices decl.entry
        reencoder.old reencoder.new result }
{
    declaration!(ComponentTypeDeclaration, reencoder, alloc, decl, Import)
}

/// What an instance type declares: core types by `parse_component_core_type`, types by `parse_component_type`, an alias by
/// `component_alias`, and what is exported by `component_type_ref`.
#[cycle(types)]
pub(crate) fn instance_declaration<'a, T: ReencodeComponent>(
    reencoder: &mut T,
    alloc: Global,
    decl: r::InstanceTypeDeclaration<'a>,
) -> Result<w::InstanceTypeDeclaration<'a>, Error<T::Error>>
    ensures { InstanceDeclarationClauses T.ReencodeIndices decl.entry
        reencoder.old reencoder.new result }
{
    declaration!(InstanceTypeDeclaration, reencoder, alloc, decl)
}

/// Maps what a component type declares (`componentdecl`) and adds it: core types by `parse_component_core_type`, types by
/// `parse_component_type`, an alias by `component_alias`, and what is imported or exported by `component_type_ref`.
#[cycle(types)]
pub fn parse_component_type_declaration<T: ReencodeComponent>(
    reencoder: &mut T,
    alloc: Global,
    component: &mut w::ComponentType,
    decl: r::ComponentTypeDeclaration<'_>,
) -> Result<(), Error<T::Error>>
    ensures { ComponentRowClauses T.ReencodeIndices decl.entry
        reencoder.old «component».old reencoder.new «component».new result }
{
    let row = component_declaration(reencoder, alloc, decl);
    add_row(component, row)
}

/// Maps what an instance type declares (`instancedecl`) and adds it: core types by `parse_component_core_type`, types by
/// `parse_component_type`, an alias by `component_alias`, and what is exported by `component_type_ref`.
#[cycle(types)]
pub fn parse_component_instance_type_declaration<T: ReencodeComponent>(
    reencoder: &mut T,
    alloc: Global,
    ty: &mut w::InstanceType,
    decl: r::InstanceTypeDeclaration<'_>,
) -> Result<(), Error<T::Error>>
    ensures { InstanceRowClauses T.ReencodeIndices decl.entry
        reencoder.old ty.old reencoder.new ty.new result }
{
    let row = instance_declaration(reencoder, alloc, decl);
    add_row(ty, row)
}

/// Maps a type by `parse_component_type`, and adds it.
fn add_type<T: ReencodeComponent>(
    reencoder: &mut T,
    alloc: Global,
    types: &mut w::ComponentTypeSection,
    ty: r::ComponentType<'_>,
) -> Result<(), Error<T::Error>>
    ensures { TypeRowClauses T.ReencodeIndices ty.entry
        reencoder.old types.old reencoder.new types.new result }
{
    let row = parse_component_type(reencoder, alloc, ty);
    add_row(types, row)
}

impl<'a, T: ReencodeComponent> MapScopedRow<T, w::Of<kinds::ComponentTypes>, r::ComponentType<'a>>
    for r::Of<kinds::ComponentTypes> {
    ghost read = { TypeStands };

    fn map_row(
        reencoder: &mut T,
        alloc: Global,
        types: &mut w::ComponentTypeSection,
        row: r::ComponentType<'a>,
    ) -> Result<(), Error<T::Error>> {
        match scoped_type(alloc, &row) {
            Some(ty) => add_scoped_type(reencoder, types, &ty),
            None => add_type(reencoder, alloc, types, row),
        }
    }
}

/// Maps the rows that the reader still has, each as by `parse_component_type`, and adds each row once it is mapped. A component type
/// or an instance type goes from the bytes that it stands in to those that it becomes, each declaration in it once.
#[tactic(auto, using(crate::proofs::rows_walked::SectionItems::component_types))]
pub fn parse_component_type_section<T: ReencodeComponent>(
    reencoder: &mut T,
    alloc: Global,
    types: &mut w::ComponentTypeSection,
    section: r::ComponentTypeSectionReader<'_>,
) -> Result<(), Error<T::Error>>
    ensures { ShallowRowsClauses T.ReencodeIndices shapes.component_type section.entry
        reencoder.old types.old reencoder.new types.new result }
{
    map_scoped_rows(reencoder, alloc, types, section)
}
