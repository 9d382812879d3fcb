//! What the readers give.
use wasm_leb::List;
use wasm_read::{CustomSection, Export, ExternalKind, NameMap, UnpackedIndex};
use wasm_shapes::SectionId;
pub use wasm_types::{
    CanonicalOption, ComponentArg, ComponentDefinedType, ComponentExport, ComponentExternalKind,
    ComponentFuncType, ComponentImport, ComponentInstance, ComponentOuterAliasKind,
    ComponentTypeRef, ComponentValType, InstantiationArg, InstantiationArgKind, OuterAliasKind,
    PrimitiveValType, TypeBounds, VariantCase,
};

/// An alias.
pub type ComponentAlias<'a> = wasm_types::Alias<'a, ExternalKind>;

/// A core instance.
pub type Instance<'a> = wasm_types::Instance<'a, Export<'a>>;

/// A canonical function.
pub type CanonicalFunction = wasm_types::CanonicalFunction<UnpackedIndex>;

/// What stands behind the byte of a canonical function.
pub type Operands = wasm_types::Operands<UnpackedIndex, List<CanonicalOption>>;

/// The function that starts a component, its arguments, and how many results it has (`start`).
#[derive(Drop)]
pub struct ComponentStartFunction {
    pub func_index: u32,
    pub arguments: List<u32>,
    pub results: u32,
}

/// A section of a component: of an id by its body, a module, a component, a custom one, or of an id that no table knows. `Core`
/// is a section of a core module, which does not belong there; no reader gives it.
#[derive(Clone, Copy, PartialEq, Debug)]
pub enum ComponentPayload<'a> {
    Core(SectionId),
    Section {
        id: u8,
        at: usize,
        body: &'a [u8],
    },
    Module {
        at: usize,
        bytes: &'a [u8],
    },
    Component {
        at: usize,
        bytes: &'a [u8],
    },
    Custom {
        at: usize,
        section: CustomSection<'a>,
    },
    Unknown {
        at: usize,
        id: u8,
        contents: &'a [u8],
    },
}

/// A subsection of the names of a component (Component Model, Binary Format: the custom section named `component-name`): its
/// own name, names of what is of a sort by their indices, or one that is read by its bytes.
#[derive(Drop)]
pub enum ComponentName<'a> {
    Component { name: &'a str },
    CoreFuncs(NameMap<'a>),
    CoreTables(NameMap<'a>),
    CoreMemories(NameMap<'a>),
    CoreGlobals(NameMap<'a>),
    CoreTags(NameMap<'a>),
    CoreTypes(NameMap<'a>),
    CoreModules(NameMap<'a>),
    CoreInstances(NameMap<'a>),
    Funcs(NameMap<'a>),
    Values(NameMap<'a>),
    Types(NameMap<'a>),
    Components(NameMap<'a>),
    Instances(NameMap<'a>),
    Unknown { id: u8, contents: &'a [u8] },
}
