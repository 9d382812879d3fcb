//! Types of components and core types as they are written, and what they declare. What a scope declares is held in its normal
//! spelling, behind its number, so no type holds itself.
use crate::sections::Of;
use crate::types::{
    Alias, ComponentDefinedType, ComponentFuncType, ComponentImport, ComponentTypeRef,
    OuterAliasKind, ValType,
};
use wasm_shapes::component_kinds;
use wasm_write::{EntityType, Import, RecGroup, RowSection};

/// What a component type declares. `add` takes a `ComponentTypeDeclaration`.
pub type ComponentType = RowSection<Of<component_kinds::ComponentDeclarations>>;

/// What an instance type declares. `add` takes an `InstanceTypeDeclaration`.
pub type InstanceType = RowSection<Of<component_kinds::InstanceDeclarations>>;

/// What a module type declares. `add` takes a `ModuleTypeDeclaration`.
pub type ModuleType = RowSection<Of<component_kinds::ModuleDeclarations>>;

/// A type of a component (Component Model, Binary Format: `deftype`).
#[derive(Drop)]
pub enum ComponentTypeRow<'a> {
    Defined(ComponentDefinedType<'a>),
    Func(ComponentFuncType<'a>),
    Component(ComponentType),
    Instance(InstanceType),
    Resource { rep: ValType, dtor: Option<u32> },
}

/// A core type: types of a core module, or the type of one (`core:deftype`).
#[derive(Drop)]
pub enum CoreType {
    Rec(RecGroup),
    Module(ModuleType),
}

/// What a module type declares (`core:moduledecl`).
#[derive(Drop)]
pub enum ModuleTypeDeclaration<'a> {
    Type_(RecGroup),
    Export {
        name: &'a str,
        ty: EntityType,
    },
    OuterAlias {
        kind: OuterAliasKind,
        count: u32,
        index: u32,
    },
    Import(Import<'a>),
}

/// What an instance type declares (`instancedecl`).
#[derive(Drop)]
pub enum InstanceTypeDeclaration<'a> {
    CoreType(CoreType),
    Type_(ComponentTypeRow<'a>),
    Alias(Alias<'a>),
    Export { name: &'a str, ty: ComponentTypeRef },
}

/// What a component type declares (`componentdecl`).
#[derive(Drop)]
pub enum ComponentTypeDeclaration<'a> {
    CoreType(CoreType),
    Type_(ComponentTypeRow<'a>),
    Alias(Alias<'a>),
    Export { name: &'a str, ty: ComponentTypeRef },
    Import(ComponentImport<'a>),
}
