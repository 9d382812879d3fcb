//! The readers of the sections of types, and of what types declare.
ghost use Rattle.std.specs.Prelude.{true};
ghost use Rattle.wasm_read_component.specs.TypeRows.{ComponentDeclarationBeside, ComponentDeclarationStands, CoreTypeBeside, CoreTypeStands, InstanceDeclarationBeside, InstanceDeclarationStands, TypeBeside, TypeStands, module_declaration_tree};

use crate::core_types::{front_core_type, front_module_declaration};
use crate::declarations::{
    ComponentType, ComponentTypeDeclaration, CoreType, InstanceTypeDeclaration,
    ModuleTypeDeclaration,
};
use crate::scoped_reader::{ReadRowAt, ScopedReader};
use crate::sections::Of;
use crate::type_rows::{
    front_component_declaration, front_component_type, front_instance_declaration,
};
use std::alloc::Global;
use wasm_leb::NoMemory;
use wasm_read::ReadRow;
use wasm_shapes::component_kinds;

/// A reader of the rows of a type section of a component. A row takes memory.
pub type ComponentTypeSectionReader<'a> = ScopedReader<'a, Of<component_kinds::ComponentTypes>>;

impl<'a> ReadRowAt<'a> for Of<component_kinds::ComponentTypes> {
    type Row = ComponentType<'a>;

    ghost stands = { TypeStands };

    ghost beside = { TypeBeside };

    ghost takes_memory = { true };

    #[inline]
    fn front(
        alloc: Global,
        bytes: &'a [u8],
        depth: u32,
    ) -> Result<Option<(ComponentType<'a>, &'a [u8])>, NoMemory> {
        front_component_type(alloc, bytes, depth)
    }
}

/// A reader of the rows of a section of core types. A row takes memory.
pub type CoreTypeSectionReader<'a> = ScopedReader<'a, Of<component_kinds::CoreTypes>>;

impl<'a> ReadRowAt<'a> for Of<component_kinds::CoreTypes> {
    type Row = CoreType<'a>;

    ghost stands = { λ depth ty. CoreTypeStands ty };

    ghost beside = { CoreTypeBeside };

    ghost takes_memory = { true };

    #[inline]
    fn front(
        alloc: Global,
        bytes: &'a [u8],
        depth: u32,
    ) -> Result<Option<(CoreType<'a>, &'a [u8])>, NoMemory> {
        front_core_type(alloc, bytes, depth)
    }
}

impl<'a> ReadRowAt<'a> for Of<component_kinds::ComponentDeclarations> {
    type Row = ComponentTypeDeclaration<'a>;

    ghost stands = { ComponentDeclarationStands };

    ghost beside = { ComponentDeclarationBeside };

    ghost takes_memory = { true };

    #[inline]
    fn front(
        alloc: Global,
        bytes: &'a [u8],
        depth: u32,
    ) -> Result<Option<(ComponentTypeDeclaration<'a>, &'a [u8])>, NoMemory> {
        front_component_declaration(alloc, bytes, depth)
    }
}

impl<'a> ReadRowAt<'a> for Of<component_kinds::InstanceDeclarations> {
    type Row = InstanceTypeDeclaration<'a>;

    ghost stands = { InstanceDeclarationStands };

    ghost beside = { InstanceDeclarationBeside };

    ghost takes_memory = { true };

    #[inline]
    fn front(
        alloc: Global,
        bytes: &'a [u8],
        depth: u32,
    ) -> Result<Option<(InstanceTypeDeclaration<'a>, &'a [u8])>, NoMemory> {
        front_instance_declaration(alloc, bytes, depth)
    }
}

impl<'a> ReadRow<'a> for Of<component_kinds::ModuleDeclarations> {
    type Row = ModuleTypeDeclaration<'a>;

    ghost tree = { module_declaration_tree };

    ghost takes_memory = { true };

    #[inline]
    fn front(
        alloc: Global,
        bytes: &'a [u8],
    ) -> Result<Option<(ModuleTypeDeclaration<'a>, &'a [u8])>, NoMemory> {
        front_module_declaration(alloc, bytes)
    }
}
