//! Types of components and core types as they are read, and what they declare. The declarations of a scope are not read with
//! it: a reader of them borrows their bytes.
use crate::scoped_reader::ScopedReader;
use crate::sections::Of;
use crate::types::{
    ComponentAlias, ComponentDefinedType, ComponentFuncType, ComponentImport, ComponentTypeRef,
    OuterAliasKind,
};
use wasm_read::{Import, RecGroup, SectionReader, TypeRef, ValType};
use wasm_shapes::component_kinds;

/// A reader of the declarations of a component type.
pub type ComponentDeclarations<'a> = ScopedReader<'a, Of<component_kinds::ComponentDeclarations>>;

/// A reader of the declarations of an instance type.
pub type InstanceDeclarations<'a> = ScopedReader<'a, Of<component_kinds::InstanceDeclarations>>;

/// A reader of the declarations of a module type.
pub type ModuleDeclarations<'a> = SectionReader<'a, Of<component_kinds::ModuleDeclarations>>;

/// A type of a component (Component Model, Binary Format: `deftype`).
#[derive(Drop)]
pub enum ComponentType<'a> {
    Defined(ComponentDefinedType<'a>),
    Func(ComponentFuncType<'a>),
    Component(ComponentDeclarations<'a>),
    Instance(InstanceDeclarations<'a>),
    Resource { rep: ValType, dtor: Option<u32> },
}

/// A core type: types of a core module, or the type of one (`core:deftype`).
#[derive(Drop)]
pub enum CoreType<'a> {
    Rec(RecGroup),
    Module(ModuleDeclarations<'a>),
}

/// What a module type declares (`core:moduledecl`).
#[derive(Drop)]
pub enum ModuleTypeDeclaration<'a> {
    Type_(RecGroup),
    Export {
        name: &'a str,
        ty: TypeRef,
    },
    OuterAlias {
        kind: OuterAliasKind,
        count: u32,
        index: u32,
    },
    Import(Import<'a>),
}

/// What an instance type declares (`instancedecl`).
#[derive(Drop)]
pub enum InstanceTypeDeclaration<'a> {
    CoreType(CoreType<'a>),
    Type_(ComponentType<'a>),
    Alias(ComponentAlias<'a>),
    Export { name: &'a str, ty: ComponentTypeRef },
}

/// What a component type declares (`componentdecl`).
#[derive(Drop)]
pub enum ComponentTypeDeclaration<'a> {
    CoreType(CoreType<'a>),
    Type_(ComponentType<'a>),
    Alias(ComponentAlias<'a>),
    Export { name: &'a str, ty: ComponentTypeRef },
    Import(ComponentImport<'a>),
}
