//! The types, rows and immediates of a core module, as they are read.
ghost use Rattle.std.specs.Prelude.{◌≡◌, length, false};

use crate::compact::{CompactItems, CompactNames};
use crate::expressions::ConstExpr;
use crate::names::{IndirectNameMap, NameMap};
use wasm_leb::List;
use wasm_shapes::SectionId;
pub use wasm_types::{
    AbstractHeapType, Catch, CustomSection, Handle, Ieee32, Ieee64, MemArg, Ordering, TagKind,
    TagType,
};

/// A type index: one of the module, or one inside the recursion group where it stands.
#[derive(Clone, Copy, PartialEq, Debug)]
pub enum UnpackedIndex {
    Module(u32),
    RecGroup(u32),
}

impl UnpackedIndex {
    ghost use Rattle.std.specs.Prelude.{◌≡◌};
    ghost use Rattle.wasm_read.specs.Types.{module_index};

    /// The index, where it is one of the module. None exactly for one inside a recursion group.
    pub fn as_module_index(&self) -> Option<u32>
        ensures { result ≡ module_index self.now }
    {
        match self {
            UnpackedIndex::Module(index) => Some(*index),
            UnpackedIndex::RecGroup(_) => None,
        }
    }
}

/// What a reference points to (section 5.3.3).
pub type HeapType = wasm_types::HeapType<UnpackedIndex>;

/// A reference type (section 5.3.4).
pub type RefType = wasm_types::RefType<UnpackedIndex>;

/// A value type (section 5.3.5).
pub type ValType = wasm_types::ValType<UnpackedIndex>;

/// The type of a field as it is stored (section 5.3.8).
pub type StorageType = wasm_types::StorageType<UnpackedIndex>;

/// A field of a structure or of an array (section 5.3.8).
pub type FieldType = wasm_types::FieldType<UnpackedIndex>;

/// The parameters and results of a function (section 5.3.8).
pub type FuncType = wasm_types::FuncType<UnpackedIndex>;

/// An array by the type of its elements (section 5.3.8).
#[derive(Clone, Copy, PartialEq, Debug)]
pub struct ArrayType(pub FieldType);

/// A structure by its fields (section 5.3.8).
pub type StructType = wasm_types::StructType<UnpackedIndex>;

/// A continuation by the type of its function.
#[derive(Clone, Copy, PartialEq, Debug)]
pub struct ContType(pub UnpackedIndex);

/// A function, array, structure or continuation type (section 5.3.8).
#[derive(Drop)]
pub enum CompositeInnerType {
    Func(FuncType),
    Array(ArrayType),
    Struct(StructType),
    Cont(ContType),
}

/// A composite type, with the types that describe it and that it describes (section 5.3.8).
#[derive(Drop)]
pub struct CompositeType {
    pub inner: CompositeInnerType,
    pub shared: bool,
    pub descriptor_idx: Option<UnpackedIndex>,
    pub describes_idx: Option<UnpackedIndex>,
}

/// A composite type with its supertypes (section 5.3.9).
#[derive(Drop)]
pub struct SubType {
    pub is_final: bool,
    pub supertype_idxs: List<UnpackedIndex>,
    pub composite_type: CompositeType,
}

/// Types that may refer to each other. One that is not explicit holds exactly one type, and is spelled as that type
/// alone (section 5.3.9).
#[derive(Drop)]
pub struct RecGroup {
    pub explicit: bool,
    pub types: List<SubType>,
    pub ghost bare_holds_one: { explicit ≡ false → length types ≡ 1 },
}

/// A table: its element type and its limits (section 5.3.11).
#[derive(Clone, Copy, PartialEq, Debug)]
pub struct TableType {
    pub element_type: RefType,
    pub table64: bool,
    pub initial: u64,
    pub maximum: Option<u64>,
    pub shared: bool,
}

/// A memory: its limits in pages, and the logarithm of the page size where it is written (section 5.3.12).
#[derive(Clone, Copy, PartialEq, Debug)]
pub struct MemoryType {
    pub memory64: bool,
    pub shared: bool,
    pub initial: u64,
    pub maximum: Option<u64>,
    pub page_size_log2: Option<u32>,
}

/// A global: its type, and whether it may change (section 5.3.13).
#[derive(Clone, Copy, PartialEq, Debug)]
pub struct GlobalType {
    pub content_type: ValType,
    pub mutable: bool,
    pub shared: bool,
}

/// What is imported, by its type (section 5.3.15).
#[derive(Clone, Copy, PartialEq, Debug)]
pub enum TypeRef {
    Func(u32),
    FuncExact(u32),
    Table(TableType),
    Memory(MemoryType),
    Global(GlobalType),
    Tag(TagType),
}

/// The kind of what is imported or exported (section 5.5.10).
#[derive(Clone, Copy, PartialEq, Debug)]
pub enum ExternalKind {
    Func,
    FuncExact,
    Table,
    Memory,
    Global,
    Tag,
}

/// An entry of an import section (section 5.5.5): an import, or imports from one module, with a type each or of one type. It
/// is one row, and an import for each item or name.
#[derive(Drop)]
pub enum Imports<'a> {
    Single(Import<'a>),
    Compact1 {
        module: &'a str,
        items: CompactItems<'a>,
    },
    Compact2 {
        module: &'a str,
        ty: TypeRef,
        names: CompactNames<'a>,
    },
}

/// What is imported from a module that is known: its name and its type.
#[derive(Clone, Copy, PartialEq, Debug)]
pub struct ImportCompact<'a> {
    pub name: &'a str,
    pub ty: TypeRef,
}

/// What is imported: its module, its name and its type (section 5.5.5).
#[derive(Clone, Copy, PartialEq, Debug)]
pub struct Import<'a> {
    pub module: &'a str,
    pub name: &'a str,
    pub ty: TypeRef,
}

/// What is exported: its name, its kind and its index (section 5.5.10).
#[derive(Clone, Copy, PartialEq, Debug)]
pub struct Export<'a> {
    pub name: &'a str,
    pub kind: ExternalKind,
    pub index: u32,
}

/// What a table starts with: null references, or the value of an expression (section 5.5.7).
#[derive(Drop)]
pub enum TableInit<'a> {
    RefNull,
    Expr(ConstExpr<'a>),
}

/// A table and what it starts with (section 5.5.7).
#[derive(Drop)]
pub struct Table<'a> {
    pub ty: TableType,
    pub init: TableInit<'a>,
}

/// A global and what it starts with (section 5.5.9).
#[derive(Drop)]
pub struct Global<'a> {
    pub ty: GlobalType,
    pub init_expr: ConstExpr<'a>,
}

/// What an element segment lists (section 5.5.12).
#[derive(Drop)]
pub enum ElementItems<'a> {
    Functions(List<u32>),
    Expressions(RefType, List<ConstExpr<'a>>),
}

/// Whether an element segment is copied to a table at the start (section 5.5.12).
#[derive(Drop)]
pub enum ElementKind<'a> {
    Active {
        table_index: Option<u32>,
        offset_expr: ConstExpr<'a>,
    },
    Passive,
    Declared,
}

/// An element segment (section 5.5.12).
#[derive(Drop)]
pub struct Element<'a> {
    pub kind: ElementKind<'a>,
    pub items: ElementItems<'a>,
}

/// Whether a data segment is copied to a memory at the start (section 5.5.14).
#[derive(Drop)]
pub enum DataKind<'a> {
    Active {
        memory_index: u32,
        offset_expr: ConstExpr<'a>,
    },
    Passive,
}

/// A data segment (section 5.5.14).
#[derive(Drop)]
pub struct Data<'a> {
    pub kind: DataKind<'a>,
    pub contents: &'a [u8],
}

/// The frame of a function body: its locals and its operators as bytes (section 5.5.13).
#[derive(Clone, Copy, PartialEq, Debug)]
pub struct FunctionBody<'a> {
    pub bytes: &'a [u8],
}

/// The type of a block (section 5.4.1).
#[derive(Clone, Copy, PartialEq, Debug)]
pub enum BlockType {
    Empty,
    Type_(ValType),
    FuncType(u32),
}

/// An immediate of an operator (section 5.4).
pub type Imm<'a> = wasm_types::Imm<'a, BlockType, UnpackedIndex>;

/// A name of an index (section 7.4.1 of the appendix).
#[derive(Clone, Copy, PartialEq, Debug)]
pub struct Naming<'a> {
    pub index: u32,
    pub name: &'a str,
}

/// The names of the indices inside another (section 7.4.1 of the appendix).
#[derive(Drop)]
pub struct IndirectNaming<'a> {
    pub index: u32,
    pub names: NameMap<'a>,
}

/// A subsection of a name section (section 7.4.1 of the appendix).
#[derive(Drop)]
pub enum Name<'a> {
    Module { name: &'a str },
    Function(NameMap<'a>),
    Local(IndirectNameMap<'a>),
    Label(IndirectNameMap<'a>),
    Type_(NameMap<'a>),
    Table(NameMap<'a>),
    Memory(NameMap<'a>),
    Global(NameMap<'a>),
    Element(NameMap<'a>),
    Data(NameMap<'a>),
    Field(IndirectNameMap<'a>),
    Tag(NameMap<'a>),
    Unknown { id: u8, contents: &'a [u8] },
}

/// The frame of a section, and the place of its id in the module (section 5.5.2).
#[derive(Clone, Copy, PartialEq, Debug)]
pub enum Payload<'a> {
    Section {
        id: SectionId,
        at: usize,
        body: &'a [u8],
    },
    Custom {
        at: usize,
        section: CustomSection<'a>,
    },
    Unknown {
        at: usize,
        id: u8,
        contents: &'a [u8],
    },
}
