//! What the writers take.
use wasm_leb::List;
pub use wasm_types::{
    CanonicalOption, ComponentArg, ComponentDefinedType, ComponentExport,
    ComponentExternalKind as ComponentExportKind, ComponentFuncType, ComponentImport,
    ComponentInstance, ComponentOuterAliasKind, ComponentTypeRef, ComponentValType,
    InstantiationArg, InstantiationArgKind, OuterAliasKind, PrimitiveValType, TypeBounds,
    VariantCase,
};
pub use wasm_write::{Export, ExportKind, ValType};

/// An alias.
pub type Alias<'a> = wasm_types::Alias<'a, ExportKind>;

/// A core instance.
pub type Instance<'a> = wasm_types::Instance<'a, Export<'a>>;

/// A canonical function.
pub type CanonicalFunction = wasm_types::CanonicalFunction<u32>;

/// What stands behind the byte of a canonical function, whose options are borrowed.
pub type Operands<'a> = wasm_types::Operands<u32, &'a List<CanonicalOption>>;
