//! What readers and writers of WebAssembly binaries both hold: the types and immediates of a core module, by the kind of
//! their type indices, and the types and rows of a component.
#![tactic(auto)]

mod components;
mod types;

pub use components::{
    Alias, CanonicalFunction, CanonicalOption, ComponentArg, ComponentDefinedType, ComponentExport,
    ComponentExternalKind, ComponentFuncType, ComponentImport, ComponentInstance,
    ComponentOuterAliasKind, ComponentTypeRef, ComponentValType, Instance, InstantiationArg,
    InstantiationArgKind, Operands, OuterAliasKind, PrimitiveValType, TypeBounds, VariantCase,
};
pub use types::{
    AbstractHeapType, Catch, CustomSection, FieldType, FuncType, Handle, HeapType, Ieee32, Ieee64,
    Imm, MemArg, Ordering, RefType, StorageType, StructType, TagKind, TagType, ValType,
};
