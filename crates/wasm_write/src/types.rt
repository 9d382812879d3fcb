//! The types and immediates of a core module, as they are written.
ghost use Rattle.std.specs.Prelude.{◌≡◌, length, false};

use crate::expressions::ConstExpr;
use wasm_leb::List;
pub use wasm_types::{
    AbstractHeapType, Catch, CustomSection, Handle, Ieee32, Ieee64, MemArg, Ordering, TagKind,
    TagType,
};

/// What a reference points to (section 5.3.3).
pub type HeapType = wasm_types::HeapType<u32>;

/// A reference type (section 5.3.4).
pub type RefType = wasm_types::RefType<u32>;

/// A value type (section 5.3.5).
pub type ValType = wasm_types::ValType<u32>;

/// The type of a field as it is stored (section 5.3.8).
pub type StorageType = wasm_types::StorageType<u32>;

/// A field of a structure or of an array (section 5.3.8).
pub type FieldType = wasm_types::FieldType<u32>;

/// The parameters and results of a function (section 5.3.8).
pub type FuncType = wasm_types::FuncType<u32>;

/// An array by the type of its elements (section 5.3.8).
#[derive(Clone, Copy, PartialEq, Debug)]
pub struct ArrayType(pub FieldType);

/// A structure by its fields (section 5.3.8).
pub type StructType = wasm_types::StructType<u32>;

/// A continuation by the type of its function.
#[derive(Clone, Copy, PartialEq, Debug)]
pub struct ContType(pub u32);

/// A function, array, structure or continuation type (section 5.3.8).
#[derive(Drop)]
pub enum CompositeInnerType {
    Func(FuncType),
    Array(ArrayType),
    Struct(StructType),
    Cont(ContType),
}

/// A composite type, with the types that describe it and that it describes (section 5.3.8).
#[derive(Drop)]
pub struct CompositeType {
    pub inner: CompositeInnerType,
    pub shared: bool,
    pub descriptor: Option<u32>,
    pub describes: Option<u32>,
}

/// A composite type with its supertypes (section 5.3.9).
#[derive(Drop)]
pub struct SubType {
    pub is_final: bool,
    pub supertype_idxs: List<u32>,
    pub composite_type: CompositeType,
}

/// Types that may refer to each other. One that is not explicit holds exactly one type, and is spelled as that type
/// alone (section 5.3.9).
#[derive(Drop)]
pub struct RecGroup {
    pub explicit: bool,
    pub types: List<SubType>,
    pub ghost bare_holds_one: { explicit ≡ false → length types ≡ 1 },
}

/// A table: its element type and its limits (section 5.3.11).
#[derive(Clone, Copy, PartialEq, Debug)]
pub struct TableType {
    pub element_type: RefType,
    pub table64: bool,
    pub minimum: u64,
    pub maximum: Option<u64>,
    pub shared: bool,
}

/// A memory: its limits in pages, and the logarithm of the page size where it is written (section 5.3.12).
#[derive(Clone, Copy, PartialEq, Debug)]
pub struct MemoryType {
    pub memory64: bool,
    pub shared: bool,
    pub minimum: u64,
    pub maximum: Option<u64>,
    pub page_size_log2: Option<u32>,
}

/// A global: its type, and whether it may change (section 5.3.13).
#[derive(Clone, Copy, PartialEq, Debug)]
pub struct GlobalType {
    pub val_type: ValType,
    pub mutable: bool,
    pub shared: bool,
}

/// What is imported, by its type (section 5.3.15).
#[derive(Clone, Copy, PartialEq, Debug)]
pub enum EntityType {
    Function(u32),
    FunctionExact(u32),
    Table(TableType),
    Memory(MemoryType),
    Global(GlobalType),
    Tag(TagType),
}

/// The kind of what is exported (section 5.5.10).
#[derive(Clone, Copy, PartialEq, Debug)]
pub enum ExportKind {
    Func,
    Table,
    Memory,
    Global,
    Tag,
}

/// A name, and what is exported under it, by its kind and its index (section 5.5.10).
#[derive(Clone, Copy, PartialEq, Debug)]
pub struct Export<'a> {
    pub name: &'a str,
    pub kind: ExportKind,
    pub index: u32,
}

/// An entry of an import section (section 5.5.5): an import, or imports from one module, with a type each or of one type. It
/// is one row, and an import for each item or name.
#[derive(Drop)]
pub enum Imports<'a> {
    Single(Import<'a>),
    Compact1 {
        module: &'a str,
        items: List<ImportCompact<'a>>,
    },
    Compact2 {
        module: &'a str,
        ty: EntityType,
        names: List<&'a str>,
    },
}

/// What is imported from a module that is known: its name and its type.
#[derive(Clone, Copy, PartialEq, Debug)]
pub struct ImportCompact<'a> {
    pub name: &'a str,
    pub ty: EntityType,
}

/// What is imported: its module, its name and its type (section 5.5.5).
#[derive(Clone, Copy, PartialEq, Debug)]
pub struct Import<'a> {
    pub module: &'a str,
    pub name: &'a str,
    pub ty: EntityType,
}

/// What an element segment lists (section 5.5.12).
#[derive(Drop)]
pub enum Elements {
    Functions(List<u32>),
    Expressions(RefType, List<ConstExpr>),
}

/// The type of a block (section 5.4.1).
#[derive(Clone, Copy, PartialEq, Debug)]
pub enum BlockType {
    Empty,
    FunctionType(u32),
    Result(ValType),
}

/// An immediate of an operator (section 5.4).
pub type Imm<'a> = wasm_types::Imm<'a, BlockType, u32>;
