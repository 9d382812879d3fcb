//! The values that are mapped, one of each composite kind.
ghost use Rattle.std.specs.Prelude.{◌≡◌, ◌∷◌, [], IfOk, IsSome};
ghost use Rattle.wasm_read.specs.Immediates.{imm_kind};
ghost use Rattle.wasm_read.specs.Subsections.{IsRaw};

use reencode_hooks::Error;
use std::alloc::Global;
use wasm_leb::{Fault, List, NoMemory, ReadError};
use wasm_read as r;
use wasm_read::SectionReader;
use wasm_shapes::{CALL, Space};

/// Two types of functions.
pub const TYPES: [u8; 7] = [0x02, 0x60, 0x00, 0x00, 0x60, 0x00, 0x00];

/// The function `a.b` of type 0.
pub const IMPORTS: [u8; 7] = [0x01, 0x01, 0x61, 0x01, 0x62, 0x00, 0x00];

/// A function of type 0.
pub const FUNCTIONS: [u8; 2] = [0x01, 0x00];

/// A table of functions, of length 0.
pub const TABLES: [u8; 4] = [0x01, 0x70, 0x00, 0x00];

/// A memory of length 0.
pub const MEMORIES: [u8; 3] = [0x01, 0x00, 0x00];

/// A global with the value of an expression.
pub const GLOBALS: [u8; 6] = [0x01, 0x7f, 0x00, 0x41, 0x00, 0x0b];

/// The index of a function, or a count.
pub const ITEM: [u8; 1] = [0x00];

/// The function 0 at an offset in a table that is left out.
pub const ELEMENTS: [u8; 7] = [0x01, 0x00, 0x41, 0x00, 0x0b, 0x01, 0x00];

/// No bytes at an offset in a memory.
pub const SEGMENTS: [u8; 6] = [0x01, 0x00, 0x41, 0x00, 0x0b, 0x00];

/// A tag of type 0.
pub const TAGS: [u8; 3] = [0x01, 0x00, 0x00];

/// The function 0 as `a`.
pub const EXPORTS: [u8; 5] = [0x01, 0x01, 0x61, 0x00, 0x00];

/// A body without locals or operators but `end`.
pub const CODE: [u8; 4] = [0x01, 0x02, 0x00, 0x0b];

pub const INDEX: r::UnpackedIndex = r::UnpackedIndex::Module(0);

pub const HEAP: r::HeapType = r::HeapType::Abstract {
    shared: false,
    ty: r::AbstractHeapType::Func,
};

pub const REFERENCE: r::RefType = r::RefType {
    nullable: true,
    heap_type: HEAP,
};

pub const VALUE: r::ValType = r::ValType::Ref(REFERENCE);

pub const FIELD: r::FieldType = r::FieldType {
    element_type: r::StorageType::Val(VALUE),
    mutable: true,
};

pub const TABLE: r::TableType = r::TableType {
    element_type: REFERENCE,
    table64: false,
    initial: 0,
    maximum: None,
    shared: false,
};

pub const MEMORY: r::MemoryType = r::MemoryType {
    memory64: false,
    shared: false,
    initial: 0,
    maximum: None,
    page_size_log2: None,
};

pub const GLOBAL: r::GlobalType = r::GlobalType {
    content_type: VALUE,
    mutable: false,
    shared: false,
};

pub const TAG: r::TagType = r::TagType {
    kind: r::TagKind::Exception,
    func_type_idx: 0,
};

pub const ARRAY: r::ArrayType = r::ArrayType(FIELD);

pub const CONTINUATION: r::ContType = r::ContType(INDEX);

/// A list of one item.
pub fn one<T: Drop>(alloc: Global, item: T) -> Result<List<T>, NoMemory>
    ensures { IfOk result (λ items. items ≡ item ∷ []) }
{
    let mut items = List::with_capacity(alloc, 1)?;
    items.push(item)?;
    Ok(items)
}

/// A function with a parameter and a result.
pub fn function(alloc: Global) -> Result<r::FuncType, NoMemory> {
    Ok(r::FuncType {
        params: one(alloc, VALUE)?,
        results: one(alloc, VALUE)?,
    })
}

/// A structure with a field.
pub fn structure(alloc: Global) -> Result<r::StructType, NoMemory> {
    Ok(r::StructType {
        fields: one(alloc, FIELD)?,
    })
}

/// A composite type that describes a type and is described by one.
pub fn composite(inner: r::CompositeInnerType) -> r::CompositeType {
    r::CompositeType {
        inner,
        shared: false,
        descriptor_idx: Some(INDEX),
        describes_idx: Some(INDEX),
    }
}

/// A continuation with a supertype.
pub fn sub_type(alloc: Global) -> Result<r::SubType, NoMemory> {
    Ok(r::SubType {
        is_final: false,
        supertype_idxs: one(alloc, INDEX)?,
        composite_type: composite(r::CompositeInnerType::Cont(CONTINUATION)),
    })
}

/// The operator `call 0`.
pub fn call<'a, E>(alloc: Global) -> Result<r::Operator<'a>, Error<E>> {
    match r::Operator::new(CALL, one(alloc, r::Imm::Index(Space::Function, 0))?) {
        Some(operator) => Ok(operator),
        None => Err(Error::InvalidConstExpr),
    }
}

pub const ACCESS: r::MemArg = r::MemArg {
    align: 0,
    memory: 0,
    offset: 0,
};

pub const CATCH: r::Catch = r::Catch::One { tag: 0, label: 0 };

pub const HANDLE: r::Handle = r::Handle::OnSwitch { tag: 0 };

pub const CAST: r::Imm<'_> = r::Imm::Cast {
    label: 0,
    from: REFERENCE,
    to: REFERENCE,
};

/// The immediates of each kind that a method maps, by their number.
pub fn immediate<'a>(alloc: Global, number: u32) -> Result<r::Imm<'a>, NoMemory>
    ensures { IfOk result (λ imm. IsSome (imm_kind imm)) }
{
    match number {
        0 => Ok(r::Imm::Block(r::BlockType::Empty)),
        1 => Ok(r::Imm::Types(one(alloc, VALUE)?)),
        2 => Ok(r::Imm::Mem(ACCESS)),
        3 => Ok(r::Imm::Four(r::Ieee32(0))),
        4 => Ok(r::Imm::Eight(r::Ieee64(0))),
        5 => Ok(r::Imm::Heap(HEAP)),
        6 => Ok(r::Imm::Catches(one(alloc, CATCH)?)),
        7 => Ok(CAST),
        8 => Ok(r::Imm::Handlers(one(alloc, HANDLE)?)),
        _ => Ok(r::Imm::Index(Space::Function, 0)),
    }
}

/// The composite types, by the number of what they hold.
pub fn composite_of(alloc: Global, number: u32) -> Result<r::CompositeType, NoMemory> {
    Ok(composite(match number {
        0 => r::CompositeInnerType::Func(function(alloc)?),
        1 => r::CompositeInnerType::Array(ARRAY),
        2 => r::CompositeInnerType::Struct(structure(alloc)?),
        _ => r::CompositeInnerType::Cont(CONTINUATION),
    }))
}

pub const IMPORT: r::Import<'_> = r::Import {
    module: "a",
    name: "b",
    ty: r::TypeRef::Func(0),
};

/// Two imports from one module, with a type each.
pub fn typed_imports<'a>() -> Result<r::Imports<'a>, ReadError> {
    Ok(r::Imports::Compact1 {
        module: "a",
        items: r::CompactItems::new(&[0x02, 0x01, 0x62, 0x00, 0x00, 0x01, 0x63, 0x00, 0x00])?,
    })
}

/// Two imports from one module, of one type.
pub fn named_imports<'a>() -> Result<r::Imports<'a>, ReadError> {
    Ok(r::Imports::Compact2 {
        module: "a",
        ty: r::TypeRef::Func(0),
        names: r::CompactNames::new(&[0x02, 0x01, 0x62, 0x01, 0x63])?,
    })
}

pub const EXPORT: r::Export<'_> = r::Export {
    name: "a",
    kind: r::ExternalKind::Func,
    index: 0,
};

/// A custom section.
pub fn custom<'a>(name: &'a str, contents: &'a [u8]) -> r::CustomSection<'a> {
    r::CustomSection { name, contents }
}

/// The rows of a section's body.
pub fn rows<'a, K>(body: &'a [u8]) -> Result<SectionReader<'a, K>, Fault> {
    SectionReader::new(body)
}

/// The subsections of a name section.
pub fn name_rows<'a>(contents: &'a [u8]) -> Result<r::NameSectionReader<'a>, Fault> {
    r::NameSectionReader::new(contents)
}

/// A name of the index 0.
fn map<'a>() -> r::NameMap<'a> {
    r::NameMap::new(&[0x01, 0x00, 0x01, 0x66])
}

/// A name of the index 0 inside the index 0.
fn indirect<'a>() -> r::IndirectNameMap<'a> {
    r::IndirectNameMap::new(&[0x01, 0x00, 0x01, 0x00, 0x01, 0x66])
}

/// The subsections of each space, by their number.
pub fn names<'a>(number: u32) -> r::Name<'a>
    ensures { IsRaw result }
{
    match number {
        0 => r::Name::Function(map()),
        1 => r::Name::Type_(map()),
        2 => r::Name::Table(map()),
        3 => r::Name::Memory(map()),
        4 => r::Name::Global(map()),
        5 => r::Name::Element(map()),
        6 => r::Name::Data(map()),
        7 => r::Name::Tag(map()),
        8 => r::Name::Local(indirect()),
        9 => r::Name::Label(indirect()),
        _ => r::Name::Field(indirect()),
    }
}

/// A recursive group of two.
pub fn group(alloc: Global) -> Result<r::RecGroup, Fault> {
    let bytes = [0x4e, 0x02, 0x60, 0x00, 0x00, 0x60, 0x00, 0x00];
    let (group, _) = r::read_group(alloc, &bytes, 0)?;
    Ok(group)
}

/// A body with a local and the operators `call 0` and `end`.
pub const BODY: r::FunctionBody<'_> = r::FunctionBody {
    bytes: &[0x01, 0x01, 0x7f, 0x10, 0x00, 0x0b],
};

/// The operators of the body.
pub fn operators<'a>() -> Result<r::OperatorsReader<'a>, Fault> {
    BODY.operators()
}

/// A table that starts with null references.
pub fn table<'a>() -> r::Table<'a> {
    r::Table {
        ty: TABLE,
        init: r::TableInit::RefNull,
    }
}

/// The expression `i32.const 0`.
pub fn expression<'a>() -> Result<r::ConstExpr<'a>, ReadError> {
    r::ConstExpr::new(&[0x41, 0x00, 0x0b])
}

/// A table that starts with the value of an expression.
pub fn table_with_value<'a>() -> Result<r::Table<'a>, ReadError> {
    Ok(r::Table {
        ty: TABLE,
        init: r::TableInit::Expr(expression()?),
    })
}

/// A global.
pub fn global<'a>() -> Result<r::Global<'a>, ReadError> {
    Ok(r::Global {
        ty: GLOBAL,
        init_expr: expression()?,
    })
}

/// One function.
pub fn functions<'a>(alloc: Global) -> Result<r::ElementItems<'a>, NoMemory> {
    Ok(r::ElementItems::Functions(one(alloc, 0)?))
}

/// One expression.
pub fn expressions<'a, E>(alloc: Global) -> Result<r::ElementItems<'a>, Error<E>> {
    Ok(r::ElementItems::Expressions(REFERENCE, one(alloc, expression()?)?))
}

/// A function at an offset in a table that is left out.
pub fn element<'a, E>(alloc: Global) -> Result<r::Element<'a>, Error<E>> {
    Ok(r::Element {
        kind: r::ElementKind::Active {
            table_index: None,
            offset_expr: expression()?,
        },
        items: functions(alloc)?,
    })
}

/// No bytes at an offset in memory 0.
pub fn data_segment<'a>() -> Result<r::Data<'a>, ReadError> {
    Ok(r::Data {
        kind: r::DataKind::Active {
            memory_index: 0,
            offset_expr: expression()?,
        },
        contents: &[],
    })
}
