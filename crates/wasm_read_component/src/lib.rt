//! Readers of components. They borrow the bytes, and copy none of them.
#![tactic(auto)]

mod aliases;
mod canonical;
mod core_types;
mod declarations;
mod defined_types;
mod items;
mod names;
mod nested;
mod optional;
mod payloads;
mod rows;
mod scoped_reader;
mod sections;
mod type_rows;
mod type_sections;
mod types;
mod value_items;
mod value_types;

pub use declarations::{
    ComponentDeclarations, ComponentType, ComponentTypeDeclaration, CoreType, InstanceDeclarations,
    InstanceTypeDeclaration, ModuleDeclarations, ModuleTypeDeclaration,
};
pub use names::ComponentNameSectionReader;
pub use payloads::ComponentPayloads;
pub use scoped_reader::{ReadRowAt, ScopedReader};
pub use sections::{
    ComponentAliasSectionReader, ComponentCanonicalSectionReader, ComponentExportSectionReader,
    ComponentImportSectionReader, ComponentInstanceSectionReader, InstanceSectionReader, Of,
    read_start,
};
pub use type_sections::{ComponentTypeSectionReader, CoreTypeSectionReader};
pub use types::{
    CanonicalFunction, CanonicalOption, ComponentAlias, ComponentArg, ComponentDefinedType,
    ComponentExport, ComponentExternalKind, ComponentFuncType, ComponentImport, ComponentInstance,
    ComponentName, ComponentOuterAliasKind, ComponentPayload, ComponentStartFunction,
    ComponentTypeRef, ComponentValType, Instance, InstantiationArg, InstantiationArgKind, Operands,
    OuterAliasKind, PrimitiveValType, TypeBounds, VariantCase,
};
