//! What the functions of items ask.
ghost use Rattle.std.specs.Prelude.{IsSome};
ghost use Rattle.wasm_read.specs.Immediates.{imm_kind};

use crate::noter::{Notes, Way, mapped};
use crate::values as v;
use reencode_hooks::Error;
use reencode_items::{ReencodeItems, utils};
use std::alloc::Global;
use wasm_leb::List;
use wasm_read as r;
use wasm_read::{HeapType, Imm, TypeRef};
use wasm_write as w;

/// A type with its supertypes.
fn sub_type<N: ReencodeItems + Notes>(
    of: &mut N,
    alloc: Global,
    ty: r::SubType,
) -> Result<(), Error<N::Error>> {
    mapped!(of, sub_type(alloc, ty))
}

/// A function type.
fn function<N: ReencodeItems + Notes>(
    of: &mut N,
    alloc: Global,
    ty: r::FuncType,
) -> Result<(), Error<N::Error>> {
    mapped!(of, func_type(alloc, ty))
}

/// A structure type.
fn structure<N: ReencodeItems + Notes>(
    of: &mut N,
    alloc: Global,
    ty: r::StructType,
) -> Result<(), Error<N::Error>> {
    mapped!(of, struct_type(alloc, ty))
}

/// An array type.
fn array<N: ReencodeItems + Notes>(of: &mut N, ty: r::ArrayType) -> Result<(), Error<N::Error>> {
    mapped!(of, array_type(ty))
}

/// A continuation type.
fn continuation<N: ReencodeItems + Notes>(
    of: &mut N,
    ty: r::ContType,
) -> Result<(), Error<N::Error>> {
    mapped!(of, cont_type(ty))
}

/// A type that is stored.
fn storage<N: ReencodeItems + Notes>(
    of: &mut N,
    ty: r::StorageType,
) -> Result<(), Error<N::Error>> {
    mapped!(of, storage_type(ty))
}

/// A table type.
fn table<N: ReencodeItems + Notes>(of: &mut N, ty: r::TableType) -> Result<(), Error<N::Error>> {
    mapped!(of, table_type(ty))
}

/// A global type.
fn global<N: ReencodeItems + Notes>(of: &mut N, ty: r::GlobalType) -> Result<(), Error<N::Error>> {
    mapped!(of, global_type(ty))
}

/// Types with lists.
pub fn lists<N: ReencodeItems + Notes>(of: &mut N, alloc: Global) -> Result<(), Error<N::Error>> {
    sub_type(of, alloc, v::sub_type(alloc)?)?;
    function(of, alloc, v::function(alloc)?)?;
    structure(of, alloc, v::structure(alloc)?)
}

/// Types without lists.
pub fn types<N: ReencodeItems + Notes>(of: &mut N) -> Result<(), Error<N::Error>> {
    array(of, v::ARRAY)?;
    continuation(of, v::CONTINUATION)?;
    storage(of, r::StorageType::Val(v::VALUE))?;
    table(of, v::TABLE)?;
    global(of, v::GLOBAL)
}

/// An immediate.
fn immediate<N: ReencodeItems + Notes>(
    of: &mut N,
    alloc: Global,
    imm: Imm<'_>,
) -> Result<(), Error<N::Error>>
    requires { IsSome (imm_kind imm) }
{
    mapped!(of, immediate(alloc, imm))
}

/// Immediates.
pub fn immediates<N: ReencodeItems + Notes>(
    of: &mut N,
    alloc: Global,
) -> Result<(), Error<N::Error>> {
    for number in 0..10 {
        immediate(of, alloc, v::immediate(alloc, number)?)?;
    }
    Ok(())
}

/// The operator at the front of a body.
fn operator_read<N: ReencodeItems + Notes>(
    of: &mut N,
    alloc: Global,
    reader: &mut r::OperatorsReader<'_>,
) -> Result<(), Error<N::Error>> {
    mapped!(of, parse_instruction(alloc, reader))
}

/// Operators.
pub fn operators<N: ReencodeItems + Notes>(
    of: &mut N,
    alloc: Global,
) -> Result<(), Error<N::Error>> {
    operator_read(of, alloc, &mut v::operators()?)
}

/// A composite type.
fn composite<N: ReencodeItems + Notes>(
    of: &mut N,
    alloc: Global,
    ty: r::CompositeType,
) -> Result<(), Error<N::Error>> {
    mapped!(of, composite_type(alloc, ty))
}

/// Composite types.
pub fn composites<N: ReencodeItems + Notes>(
    of: &mut N,
    alloc: Global,
) -> Result<(), Error<N::Error>> {
    for number in 0..4 {
        composite(of, alloc, v::composite_of(alloc, number)?)?;
    }
    Ok(())
}

/// A field.
fn field<N: ReencodeItems + Notes>(of: &mut N, ty: r::FieldType) -> Result<(), Error<N::Error>> {
    mapped!(of, field_type(ty))
}

/// A type of values.
fn value<N: ReencodeItems + Notes>(of: &mut N, ty: r::ValType) -> Result<(), Error<N::Error>> {
    mapped!(of, val_type(ty))
}

/// An operator.
fn operator<N: ReencodeItems + Notes>(
    of: &mut N,
    alloc: Global,
    ty: r::Operator<'_>,
) -> Result<(), Error<N::Error>> {
    mapped!(of, instruction(alloc, ty))
}

/// A heap type.
fn heap_type<N: ReencodeItems + Notes>(of: &mut N, ty: HeapType) -> Result<(), Error<N::Error>> {
    mapped!(of, heap_type(ty))
}

/// A tag.
fn tag<N: ReencodeItems + Notes>(of: &mut N, ty: r::TagType) -> Result<(), Error<N::Error>> {
    mapped!(of, tag_type(ty))
}

/// Fields, values and operators.
pub fn operator_and_types<N: ReencodeItems + Notes>(
    of: &mut N,
    alloc: Global,
) -> Result<(), Error<N::Error>> {
    field(of, v::FIELD)?;
    value(of, v::VALUE)?;
    operator(of, alloc, v::call(alloc)?)
}

/// Heap types, and a tag.
pub fn heap_types<N: ReencodeItems + Notes>(of: &mut N) -> Result<(), Error<N::Error>> {
    heap_type(of, v::HEAP)?;
    heap_type(of, HeapType::Concrete(v::INDEX))?;
    heap_type(of, HeapType::Exact(v::INDEX))?;
    tag(of, v::TAG)
}

/// The type of what is imported.
fn entity<N: ReencodeItems + Notes>(of: &mut N, ty: TypeRef) -> Result<(), Error<N::Error>> {
    mapped!(of, entity_type(ty))
}

/// What is imported.
pub fn entities<N: ReencodeItems + Notes>(of: &mut N) -> Result<(), Error<N::Error>> {
    for ty in [
        TypeRef::Func(0),
        TypeRef::FuncExact(0),
        TypeRef::Table(v::TABLE),
        TypeRef::Memory(v::MEMORY),
        TypeRef::Global(v::GLOBAL),
        TypeRef::Tag(v::TAG),
    ] {
        entity(of, ty)?;
    }
    Ok(())
}

/// A reference type.
fn reference<N: ReencodeItems + Notes>(of: &mut N, ty: r::RefType) -> Result<(), Error<N::Error>> {
    mapped!(of, ref_type(ty))
}

/// The type of a block.
fn block<N: ReencodeItems + Notes>(of: &mut N, ty: r::BlockType) -> Result<(), Error<N::Error>> {
    mapped!(of, block_type(ty))
}

/// A list of types of values.
fn value_types<N: ReencodeItems + Notes>(
    of: &mut N,
    alloc: Global,
    ty: List<r::ValType>,
) -> Result<(), Error<N::Error>> {
    mapped!(of, val_types(alloc, ty))
}

/// References, blocks, and lists of types.
pub fn references<N: ReencodeItems + Notes>(
    of: &mut N,
    alloc: Global,
) -> Result<(), Error<N::Error>> {
    reference(of, v::REFERENCE)?;
    block(of, r::BlockType::Type_(v::VALUE))?;
    value_types(of, alloc, v::one(alloc, v::VALUE)?)
}

/// What comes of an expression.
fn told<E: Drop>(made: Result<w::ConstExpr, Error<E>>) -> &'static str {
    match made {
        Ok(_) => "Ok",
        Err(Error::InvalidConstExpr) => "InvalidConstExpr",
        Err(_) => "another error",
    }
}

/// A constant expression.
fn expression<N: ReencodeItems + Notes>(of: &mut N, alloc: Global, expression: r::ConstExpr<'_>)
where
    N::Error: Drop,
{
    of.begin("const_expr", "");
    let made = utils::const_expr(of, alloc, expression);
    of.note(told(made));
}

/// One by each way to map its operators.
pub fn expressions<N: ReencodeItems + Notes>(
    of: &mut N,
    alloc: Global,
) -> Result<(), Error<N::Error>>
where
    N::Error: Drop,
{
    for way in [Way::Maps, Way::Ends, Way::PassesBy, Way::Refuses] {
        of.turn(way);
        expression(of, alloc, v::expression()?);
    }
    Ok(())
}
