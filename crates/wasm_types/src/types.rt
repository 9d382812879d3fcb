//! The types and immediates of a core module, by the kind `I` of their type indices.
ghost use Rattle.std.specs.Prelude.{◌<◌};

use wasm_leb::List;
use wasm_shapes::Space;

/// A heap type that names no type of the module (WebAssembly Core Specification 3.0, section 5.3.3).
#[derive(Clone, Copy, PartialEq, Debug)]
pub enum AbstractHeapType {
    Func,
    Extern,
    Any,
    None,
    NoExtern,
    NoFunc,
    Eq,
    Struct,
    Array,
    I31,
    Exn,
    NoExn,
    Cont,
    NoCont,
}

/// What a reference points to (section 5.3.3).
#[derive(Clone, Copy, PartialEq, Debug)]
pub enum HeapType<I> {
    Abstract { shared: bool, ty: AbstractHeapType },
    Concrete(I),
    Exact(I),
}

/// A reference type (section 5.3.4).
#[derive(Clone, Copy, PartialEq, Debug)]
pub struct RefType<I> {
    pub nullable: bool,
    pub heap_type: HeapType<I>,
}

/// A value type (section 5.3.5).
#[derive(Clone, Copy, PartialEq, Debug)]
pub enum ValType<I> {
    I32,
    I64,
    F32,
    F64,
    V128,
    Ref(RefType<I>),
}

/// The type of a field as it is stored (section 5.3.8).
#[derive(Clone, Copy, PartialEq, Debug)]
pub enum StorageType<I> {
    I8,
    I16,
    Val(ValType<I>),
}

/// A field of a structure or of an array (section 5.3.8).
#[derive(Clone, Copy, PartialEq, Debug)]
pub struct FieldType<I> {
    pub element_type: StorageType<I>,
    pub mutable: bool,
}

/// The parameters and results of a function (section 5.3.8).
#[derive(Drop)]
pub struct FuncType<I> {
    pub params: List<ValType<I>>,
    pub results: List<ValType<I>>,
}

/// A structure by its fields (section 5.3.8).
#[derive(Drop)]
pub struct StructType<I> {
    pub fields: List<FieldType<I>>,
}

/// What a tag is for (section 5.3.14).
#[derive(Clone, Copy, PartialEq, Debug)]
pub enum TagKind {
    Exception,
}

/// A tag: the index of its function type (section 5.3.14).
#[derive(Clone, Copy, PartialEq, Debug)]
pub struct TagType {
    pub kind: TagKind,
    pub func_type_idx: u32,
}

/// The bits of a floating-point number of 32 bits; in the binary the lowest byte comes first.
#[derive(Clone, Copy, PartialEq, Debug)]
pub struct Ieee32(pub u32);

/// The bits of a floating-point number of 64 bits; in the binary the lowest byte comes first.
#[derive(Clone, Copy, PartialEq, Debug)]
pub struct Ieee64(pub u64);

/// The order of an atomic access.
#[derive(Clone, Copy, PartialEq, Debug)]
pub enum Ordering {
    SeqCst,
    AcqRel,
}

/// Where a memory access goes: the exponent of the alignment, which is below 64, the memory and the offset
/// (section 5.4.6).
#[derive(Clone, Copy, PartialEq, Debug)]
pub struct MemArg {
    pub align: u8,
    pub memory: u32,
    pub offset: u64,
    pub ghost aligned: { align < 64 },
}

/// What a block catches, and the label that it branches to (section 5.4.1).
#[derive(Clone, Copy, PartialEq, Debug)]
pub enum Catch {
    One { tag: u32, label: u32 },
    OneRef { tag: u32, label: u32 },
    All { label: u32 },
    AllRef { label: u32 },
}

/// How a resumed continuation's tag is handled.
#[derive(Clone, Copy, PartialEq, Debug)]
pub enum Handle {
    OnLabel { tag: u32, label: u32 },
    OnSwitch { tag: u32 },
}

/// An immediate of an operator (section 5.4).
#[derive(Drop)]
pub enum Imm<'a, B, I> {
    Block(B),
    Label(u32),
    Labels {
        targets: List<u32>,
        default: u32,
    },
    Index(Space, u32),
    Local(u32),
    Field(u32),
    Size(u32),
    Types(List<ValType<I>>),
    Mem(MemArg),
    S32(i32),
    S64(i64),
    Four(Ieee32),
    Eight(Ieee64),
    Sixteen(&'a [u8]),
    Lanes(&'a [u8]),
    Lane(u8),
    Heap(HeapType<I>),
    Catches(List<Catch>),
    Cast {
        label: u32,
        from: RefType<I>,
        to: RefType<I>,
    },
    Handlers(List<Handle>),
    Zero,
}

/// A custom section: its name and the bytes behind it (section 5.5.3).
#[derive(Clone, Copy, PartialEq, Debug)]
pub struct CustomSection<'a> {
    pub name: &'a str,
    pub contents: &'a [u8],
}
