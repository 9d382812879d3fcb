//! Writers of components. What is added to them is held in its normal spelling.
#![tactic(auto)]

mod aliases;
mod canonical;
mod component;
mod declarations;
mod defined_types;
mod items;
mod names;
mod rows;
mod sections;
mod type_rows;
mod types;
mod value_types;

pub use component::{Component, ComponentSection, ModuleSection, NestedComponentSection};
pub use declarations::{
    ComponentType, ComponentTypeDeclaration, ComponentTypeRow, CoreType, InstanceType,
    InstanceTypeDeclaration, ModuleType, ModuleTypeDeclaration,
};
pub use names::ComponentNameSection;
pub use sections::{
    CanonicalFunctionSection, ComponentAliasSection, ComponentExportSection,
    ComponentImportSection, ComponentInstanceSection, ComponentStartSection, ComponentTypeSection,
    CoreTypeSection, InstanceSection, Of,
};
pub use types::{
    Alias, CanonicalFunction, CanonicalOption, ComponentArg, ComponentDefinedType, ComponentExport,
    ComponentExportKind, ComponentFuncType, ComponentImport, ComponentInstance,
    ComponentOuterAliasKind, ComponentTypeRef, ComponentValType, Export, ExportKind, Instance,
    InstantiationArg, InstantiationArgKind, OuterAliasKind, PrimitiveValType, TypeBounds, ValType,
    VariantCase,
};
