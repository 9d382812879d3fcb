//! The types and rows of a component, where readers and writers hold the same; by the kind of what differs.
use crate::types::ValType;
use wasm_leb::List;

/// A type of values that names no type (Component Model, Binary Format: `primvaltype`).
#[derive(Clone, Copy, PartialEq, Debug)]
pub enum PrimitiveValType {
    Bool,
    S8,
    U8,
    S16,
    U16,
    S32,
    U32,
    S64,
    U64,
    F32,
    F64,
    Char,
    String,
    ErrorContext,
}

/// A type of values: a primitive one, or one by its index (`valtype`).
#[derive(Clone, Copy, PartialEq, Debug)]
pub enum ComponentValType {
    Primitive(PrimitiveValType),
    Type_(u32),
}

/// What a type that is imported or exported may be (`typebound`).
#[derive(Clone, Copy, PartialEq, Debug)]
pub enum TypeBounds {
    Eq(u32),
    SubResource,
}

/// The type of what is imported or exported (`externdesc`).
#[derive(Clone, Copy, PartialEq, Debug)]
pub enum ComponentTypeRef {
    Module(u32),
    Func(u32),
    Value(ComponentValType),
    Type_(TypeBounds),
    Instance(u32),
    Component(u32),
}

/// A function type: whether it is asynchronous, its parameters, and its result, of which there may be none (`functype`).
#[derive(Drop)]
pub struct ComponentFuncType<'a> {
    pub async_: bool,
    pub params: List<(&'a str, ComponentValType)>,
    pub result: Option<ComponentValType>,
}

/// A case of a variant: its name and its type, of which there may be none (`case`).
#[derive(Clone, Copy, PartialEq, Debug)]
pub struct VariantCase<'a> {
    pub name: &'a str,
    pub ty: Option<ComponentValType>,
}

/// A type of values that is defined (`defvaltype`).
#[derive(Drop)]
pub enum ComponentDefinedType<'a> {
    Primitive(PrimitiveValType),
    Record(List<(&'a str, ComponentValType)>),
    Variant(List<VariantCase<'a>>),
    List(ComponentValType),
    Map(ComponentValType, ComponentValType),
    FixedLengthList(ComponentValType, u32),
    Tuple(List<ComponentValType>),
    Flags(List<&'a str>),
    Enum(List<&'a str>),
    Option(ComponentValType),
    Result {
        ok: Option<ComponentValType>,
        err: Option<ComponentValType>,
    },
    Own(u32),
    Borrow(u32),
    Future(Option<ComponentValType>),
    Stream(Option<ComponentValType>),
}

/// The sort of what a component exports (`sort`).
#[derive(Clone, Copy, PartialEq, Debug)]
pub enum ComponentExternalKind {
    Module,
    Func,
    Value,
    Type_,
    Instance,
    Component,
}

/// The sort of what an alias names further out (`alias`).
#[derive(Clone, Copy, PartialEq, Debug)]
pub enum ComponentOuterAliasKind {
    CoreModule,
    CoreType,
    Type_,
    Component,
}

/// The sort of what an alias in a module type names further out (`core:alias`).
#[derive(Clone, Copy, PartialEq, Debug)]
pub enum OuterAliasKind {
    Type_,
}

/// An alias; `K` is the sort of what core instances export (`alias`).
#[derive(Clone, Copy, PartialEq, Debug)]
pub enum Alias<'a, K> {
    InstanceExport {
        kind: ComponentExternalKind,
        instance_index: u32,
        name: &'a str,
    },
    CoreInstanceExport {
        kind: K,
        instance_index: u32,
        name: &'a str,
    },
    Outer {
        kind: ComponentOuterAliasKind,
        count: u32,
        index: u32,
    },
}

/// What is imported: its name and its type (`import`).
#[derive(Clone, Copy, PartialEq, Debug)]
pub struct ComponentImport<'a> {
    pub name: &'a str,
    pub ty: ComponentTypeRef,
}

/// What is exported: its name, its sort and index, and its type, which may be left out (`export`).
#[derive(Clone, Copy, PartialEq, Debug)]
pub struct ComponentExport<'a> {
    pub name: &'a str,
    pub kind: ComponentExternalKind,
    pub index: u32,
    pub ty: Option<ComponentTypeRef>,
}

/// The sort of what is handed to a core module.
#[derive(Clone, Copy, PartialEq, Debug)]
pub enum InstantiationArgKind {
    Instance,
}

/// What is handed to a core module under a name (`core:instantiatearg`).
#[derive(Clone, Copy, PartialEq, Debug)]
pub struct InstantiationArg<'a> {
    pub name: &'a str,
    pub kind: InstantiationArgKind,
    pub index: u32,
}

/// A core instance: of a module, or of what it exports, each an `E` (`core:instance`).
#[derive(Drop)]
pub enum Instance<'a, E> {
    Instantiate {
        module_index: u32,
        args: List<InstantiationArg<'a>>,
    },
    FromExports(List<E>),
}

/// What is handed to a component under a name, or what an instance exports under it (`instantiatearg`, `inlineexport`).
#[derive(Clone, Copy, PartialEq, Debug)]
pub struct ComponentArg<'a> {
    pub name: &'a str,
    pub kind: ComponentExternalKind,
    pub index: u32,
}

/// An instance: of a component, or of what it exports (`instance`).
#[derive(Drop)]
pub enum ComponentInstance<'a> {
    Instantiate {
        component_index: u32,
        args: List<ComponentArg<'a>>,
    },
    FromExports(List<ComponentArg<'a>>),
}

/// An option of a canonical function (`canonopt`).
#[derive(Clone, Copy, PartialEq, Debug)]
pub enum CanonicalOption {
    UTF8,
    UTF16,
    CompactUTF16,
    Memory(u32),
    Realloc(u32),
    PostReturn(u32),
    Async,
    Callback(u32),
    CoreType(u32),
    Gc,
}

/// A canonical function; `I` is the kind of the type indices of core modules (`canon`).
#[derive(Drop)]
pub enum CanonicalFunction<I> {
    Lift {
        core_func_index: u32,
        type_index: u32,
        options: List<CanonicalOption>,
    },
    Lower {
        func_index: u32,
        options: List<CanonicalOption>,
    },
    ResourceNew {
        resource: u32,
    },
    ResourceDrop {
        resource: u32,
    },
    ResourceRep {
        resource: u32,
    },
    TaskCancel,
    SubtaskCancel {
        async_: bool,
    },
    TaskReturn {
        result: Option<ComponentValType>,
        options: List<CanonicalOption>,
    },
    SubtaskDrop,
    BackpressureInc,
    BackpressureDec,
    ContextGet {
        ty: ValType<I>,
        slot: u32,
    },
    ContextSet {
        ty: ValType<I>,
        slot: u32,
    },
    StreamNew {
        ty: u32,
    },
    StreamRead {
        ty: u32,
        options: List<CanonicalOption>,
    },
    StreamWrite {
        ty: u32,
        options: List<CanonicalOption>,
    },
    StreamCancelRead {
        ty: u32,
        async_: bool,
    },
    StreamCancelWrite {
        ty: u32,
        async_: bool,
    },
    StreamDropReadable {
        ty: u32,
    },
    StreamDropWritable {
        ty: u32,
    },
    FutureNew {
        ty: u32,
    },
    FutureRead {
        ty: u32,
        options: List<CanonicalOption>,
    },
    FutureWrite {
        ty: u32,
        options: List<CanonicalOption>,
    },
    FutureCancelRead {
        ty: u32,
        async_: bool,
    },
    FutureCancelWrite {
        ty: u32,
        async_: bool,
    },
    FutureDropReadable {
        ty: u32,
    },
    FutureDropWritable {
        ty: u32,
    },
    ErrorContextNew {
        options: List<CanonicalOption>,
    },
    ErrorContextDebugMessage {
        options: List<CanonicalOption>,
    },
    ErrorContextDrop,
    WaitableSetNew,
    WaitableSetDrop,
    WaitableJoin,
    ThreadSpawnRef {
        func_ty_index: u32,
    },
    ThreadSpawnIndirect {
        func_ty_index: u32,
        table_index: u32,
    },
    ThreadAvailableParallelism,
}

/// What stands behind the byte of a canonical function, by its form; `I` is the kind of the type indices of core modules, and
/// `O` holds the options.
#[derive(Drop)]
pub enum Operands<I, O> {
    Nothing,
    Lift {
        func: u32,
        options: O,
        ty: u32,
    },
    Lower {
        func: u32,
        options: O,
    },
    Type_ {
        ty: u32,
    },
    TypeAndOptions {
        ty: u32,
        options: O,
    },
    TypeAndAsync {
        ty: u32,
        async_: bool,
    },
    Async {
        async_: bool,
    },
    ResultAndOptions {
        result: Option<ComponentValType>,
        options: O,
    },
    Slot {
        ty: ValType<I>,
        slot: u32,
    },
    Options {
        options: O,
    },
    CoreType {
        ty: u32,
    },
    CoreTypeAndTable {
        ty: u32,
        table: u32,
    },
}

impl<I: Copy> CanonicalFunction<I> {
    ghost use Rattle.std.specs.Prelude.{◌≡◌};
    ghost use Rattle.wasm_types.specs.ComponentTrees.{borrowed_parts, canonical_parts};

    /// The byte that it begins with, and what stands behind it.
    pub fn parts(&self) -> (u8, Operands<I, &List<CanonicalOption>>)
        ensures { borrowed_parts result ≡ canonical_parts self.now }
    {
        match *self {
            CanonicalFunction::Lift {
                core_func_index,
                type_index,
                ref options,
            } => (
                0x00,
                Operands::Lift {
                    func: core_func_index,
                    options,
                    ty: type_index,
                },
            ),
            CanonicalFunction::Lower {
                func_index,
                ref options,
            } => (
                0x01,
                Operands::Lower {
                    func: func_index,
                    options,
                },
            ),
            CanonicalFunction::ResourceNew { resource } => (0x02, Operands::Type_ { ty: resource }),
            CanonicalFunction::ResourceDrop { resource } => (
                0x03,
                Operands::Type_ { ty: resource },
            ),
            CanonicalFunction::ResourceRep { resource } => (0x04, Operands::Type_ { ty: resource }),
            CanonicalFunction::TaskCancel => (0x05, Operands::Nothing),
            CanonicalFunction::SubtaskCancel { async_ } => (0x06, Operands::Async { async_ }),
            CanonicalFunction::TaskReturn {
                result,
                ref options,
            } => (0x09, Operands::ResultAndOptions { result, options }),
            CanonicalFunction::SubtaskDrop => (0x0d, Operands::Nothing),
            CanonicalFunction::BackpressureInc => (0x24, Operands::Nothing),
            CanonicalFunction::BackpressureDec => (0x25, Operands::Nothing),
            CanonicalFunction::ContextGet { ty, slot } => (0x0a, Operands::Slot { ty, slot }),
            CanonicalFunction::ContextSet { ty, slot } => (0x0b, Operands::Slot { ty, slot }),
            CanonicalFunction::StreamNew { ty } => (0x0e, Operands::Type_ { ty }),
            CanonicalFunction::StreamRead { ty, ref options } => (
                0x0f,
                Operands::TypeAndOptions { ty, options },
            ),
            CanonicalFunction::StreamWrite { ty, ref options } => (
                0x10,
                Operands::TypeAndOptions { ty, options },
            ),
            CanonicalFunction::StreamCancelRead { ty, async_ } => (
                0x11,
                Operands::TypeAndAsync { ty, async_ },
            ),
            CanonicalFunction::StreamCancelWrite { ty, async_ } => (
                0x12,
                Operands::TypeAndAsync { ty, async_ },
            ),
            CanonicalFunction::StreamDropReadable { ty } => (0x13, Operands::Type_ { ty }),
            CanonicalFunction::StreamDropWritable { ty } => (0x14, Operands::Type_ { ty }),
            CanonicalFunction::FutureNew { ty } => (0x15, Operands::Type_ { ty }),
            CanonicalFunction::FutureRead { ty, ref options } => (
                0x16,
                Operands::TypeAndOptions { ty, options },
            ),
            CanonicalFunction::FutureWrite { ty, ref options } => (
                0x17,
                Operands::TypeAndOptions { ty, options },
            ),
            CanonicalFunction::FutureCancelRead { ty, async_ } => (
                0x18,
                Operands::TypeAndAsync { ty, async_ },
            ),
            CanonicalFunction::FutureCancelWrite { ty, async_ } => (
                0x19,
                Operands::TypeAndAsync { ty, async_ },
            ),
            CanonicalFunction::FutureDropReadable { ty } => (0x1a, Operands::Type_ { ty }),
            CanonicalFunction::FutureDropWritable { ty } => (0x1b, Operands::Type_ { ty }),
            CanonicalFunction::ErrorContextNew { ref options } => (
                0x1c,
                Operands::Options { options },
            ),
            CanonicalFunction::ErrorContextDebugMessage { ref options } => (
                0x1d,
                Operands::Options { options },
            ),
            CanonicalFunction::ErrorContextDrop => (0x1e, Operands::Nothing),
            CanonicalFunction::WaitableSetNew => (0x1f, Operands::Nothing),
            CanonicalFunction::WaitableSetDrop => (0x22, Operands::Nothing),
            CanonicalFunction::WaitableJoin => (0x23, Operands::Nothing),
            CanonicalFunction::ThreadSpawnRef { func_ty_index } => (
                0x40,
                Operands::CoreType { ty: func_ty_index },
            ),
            CanonicalFunction::ThreadSpawnIndirect {
                func_ty_index,
                table_index,
            } => (
                0x41,
                Operands::CoreTypeAndTable {
                    ty: func_ty_index,
                    table: table_index,
                },
            ),
            CanonicalFunction::ThreadAvailableParallelism => (0x42, Operands::Nothing),
        }
    }
}

impl<I: Drop> CanonicalFunction<I> {
    ghost use Rattle.std.specs.Prelude.{◌≡◌, ◌≢◌, Some, IfSome, IfNone};
    ghost use Rattle.wasm_shapes.specs.Component.{canonical_at, form_of};
    ghost use Rattle.wasm_types.specs.ComponentTrees.{canonical_parts, operands_form};

    /// The canonical function that begins with a byte, with what stands behind it. None exactly where that doesn't stand
    /// behind the byte.
    pub fn of_parts(byte: u8, operands: Operands<I, List<CanonicalOption>>) -> Option<Self>
        ensures some { IfSome result (λ f. canonical_parts f ≡ (byte, operands)) }
        ensures none { IfNone result (form_of (canonical_at byte) ≢ Some (operands_form operands)) }
    {
        match operands {
            Operands::Nothing => match byte {
                0x05 => Some(CanonicalFunction::TaskCancel),
                0x0d => Some(CanonicalFunction::SubtaskDrop),
                0x1e => Some(CanonicalFunction::ErrorContextDrop),
                0x1f => Some(CanonicalFunction::WaitableSetNew),
                0x22 => Some(CanonicalFunction::WaitableSetDrop),
                0x23 => Some(CanonicalFunction::WaitableJoin),
                0x24 => Some(CanonicalFunction::BackpressureInc),
                0x25 => Some(CanonicalFunction::BackpressureDec),
                0x42 => Some(CanonicalFunction::ThreadAvailableParallelism),
                _ => None,
            },
            Operands::Lift { func, options, ty } => match byte {
                0x00 => Some(CanonicalFunction::Lift {
                    core_func_index: func,
                    options,
                    type_index: ty,
                }),
                _ => None,
            },
            Operands::Lower { func, options } => match byte {
                0x01 => Some(CanonicalFunction::Lower {
                    func_index: func,
                    options,
                }),
                _ => None,
            },
            Operands::Type_ { ty } => match byte {
                0x02 => Some(CanonicalFunction::ResourceNew { resource: ty }),
                0x03 => Some(CanonicalFunction::ResourceDrop { resource: ty }),
                0x04 => Some(CanonicalFunction::ResourceRep { resource: ty }),
                0x0e => Some(CanonicalFunction::StreamNew { ty }),
                0x13 => Some(CanonicalFunction::StreamDropReadable { ty }),
                0x14 => Some(CanonicalFunction::StreamDropWritable { ty }),
                0x15 => Some(CanonicalFunction::FutureNew { ty }),
                0x1a => Some(CanonicalFunction::FutureDropReadable { ty }),
                0x1b => Some(CanonicalFunction::FutureDropWritable { ty }),
                _ => None,
            },
            Operands::TypeAndOptions { ty, options } => match byte {
                0x0f => Some(CanonicalFunction::StreamRead { ty, options }),
                0x10 => Some(CanonicalFunction::StreamWrite { ty, options }),
                0x16 => Some(CanonicalFunction::FutureRead { ty, options }),
                0x17 => Some(CanonicalFunction::FutureWrite { ty, options }),
                _ => None,
            },
            Operands::TypeAndAsync { ty, async_ } => match byte {
                0x11 => Some(CanonicalFunction::StreamCancelRead { ty, async_ }),
                0x12 => Some(CanonicalFunction::StreamCancelWrite { ty, async_ }),
                0x18 => Some(CanonicalFunction::FutureCancelRead { ty, async_ }),
                0x19 => Some(CanonicalFunction::FutureCancelWrite { ty, async_ }),
                _ => None,
            },
            Operands::Async { async_ } => match byte {
                0x06 => Some(CanonicalFunction::SubtaskCancel { async_ }),
                _ => None,
            },
            Operands::ResultAndOptions { result, options } => match byte {
                0x09 => Some(CanonicalFunction::TaskReturn { result, options }),
                _ => None,
            },
            Operands::Slot { ty, slot } => match byte {
                0x0a => Some(CanonicalFunction::ContextGet { ty, slot }),
                0x0b => Some(CanonicalFunction::ContextSet { ty, slot }),
                _ => None,
            },
            Operands::Options { options } => match byte {
                0x1c => Some(CanonicalFunction::ErrorContextNew { options }),
                0x1d => Some(CanonicalFunction::ErrorContextDebugMessage { options }),
                _ => None,
            },
            Operands::CoreType { ty } => match byte {
                0x40 => Some(CanonicalFunction::ThreadSpawnRef { func_ty_index: ty }),
                _ => None,
            },
            Operands::CoreTypeAndTable { ty, table } => match byte {
                0x41 => Some(CanonicalFunction::ThreadSpawnIndirect {
                    func_ty_index: ty,
                    table_index: table,
                }),
                _ => None,
            },
        }
    }
}
