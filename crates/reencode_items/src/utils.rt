//! The default bodies of `ReencodeItems`, as functions of any reencoder.
//!
//! Those whose bodies call no method of `ReencodeItems` are bounded by `ReencodeIndices` alone, so that an override can call
//! them.
ghost use Rattle.std.specs.Prelude.{IsSome, map};
ghost use Rattle.wasm_read.specs.Expressions.{expr_tree};
ghost use Rattle.wasm_read.specs.Immediates as immediates;
ghost use Rattle.wasm_read.specs.Types as read;
ghost use Rattle.wasm_shapes.specs.Types.{expression_of, vector_tree};
ghost use Rattle.wasm_write.specs.Instructions as instructions;
ghost use Rattle.wasm_write.specs.Types as write;
ghost use Rattle.reencode_items.specs.Clauses.{ImmediateClauses, ItemClauses, ListClauses, OperatorClauses, ValTypesClauses};

pub use crate::indices::{catch, external_index, handle, mem_arg, type_index_unpacked};
use crate::items::ReencodeItems;
pub use crate::without_indices::{
    abstract_heap_type, export_kind, ieee32_arg, ieee64_arg, memory_type, ordering, tag_kind,
};
use crate::{default_bodies, indices};
use reencode_hooks::Error;
use std::alloc::Global;
use wasm_leb::List;
use wasm_read as r;
use wasm_shapes::END;
use wasm_write as w;

/// An array by the type of its elements (section 5.3.8).
pub fn array_type<T: ReencodeItems>(
    reencoder: &mut T,
    array_ty: r::ArrayType,
) -> Result<w::ArrayType, Error<T::Error>>
    ensures { ItemClauses T.ReencodeIndices (read.field_type_tree array_ty.0)
        (λ ty. write.field_type_tree ty.0) reencoder.old reencoder.new result }
{
    default_bodies::array_type!(reencoder, array_ty)
}

/// A continuation by the type of its function.
#[tactic(auto, using(crate::proofs::Parts::walk_signed))]
pub fn cont_type<T: ReencodeItems>(
    reencoder: &mut T,
    cont_ty: r::ContType,
) -> Result<w::ContType, Error<T::Error>>
    ensures { ItemClauses T.ReencodeIndices (read.signed_index cont_ty.0)
        (λ ty. write.signed_index ty.0) reencoder.old reencoder.new result }
{
    default_bodies::cont_type!(reencoder, cont_ty)
}

/// A field of a structure or of an array (section 5.3.8).
pub fn field_type<T: ReencodeItems>(
    reencoder: &mut T,
    field_ty: r::FieldType,
) -> Result<w::FieldType, Error<T::Error>>
    ensures { ItemClauses T.ReencodeIndices (read.field_type_tree field_ty) write.field_type_tree
        reencoder.old reencoder.new result }
{
    default_bodies::field_type!(reencoder, field_ty)
}

/// What a reference points to (section 5.3.3).
#[tactic(auto, using(crate::proofs::Parts::walk_signed))]
pub fn heap_type<T: ReencodeItems>(
    reencoder: &mut T,
    heap_type: r::HeapType,
) -> Result<w::HeapType, Error<T::Error>>
    ensures { ItemClauses T.ReencodeIndices (read.heap_type_tree heap_type) write.heap_type_tree
        reencoder.old reencoder.new result }
{
    default_bodies::heap_type!(reencoder, heap_type)
}

/// A reference type (section 5.3.4).
#[tactic(auto, using(crate::proofs::Parts::references))]
pub fn ref_type<T: ReencodeItems>(
    reencoder: &mut T,
    ref_type: r::RefType,
) -> Result<w::RefType, Error<T::Error>>
    ensures { ItemClauses T.ReencodeIndices (read.ref_type_tree ref_type) write.ref_type_tree
        reencoder.old reencoder.new result }
{
    default_bodies::ref_type!(reencoder, ref_type)
}

/// The type of a field as it is stored (section 5.3.8).
pub fn storage_type<T: ReencodeItems>(
    reencoder: &mut T,
    storage_ty: r::StorageType,
) -> Result<w::StorageType, Error<T::Error>>
    ensures { ItemClauses T.ReencodeIndices (read.storage_type_tree storage_ty) write.storage_type_tree
        reencoder.old reencoder.new result }
{
    default_bodies::storage_type!(reencoder, storage_ty)
}

/// A value type (section 5.3.5).
pub fn val_type<T: ReencodeItems>(
    reencoder: &mut T,
    val_ty: r::ValType,
) -> Result<w::ValType, Error<T::Error>>
    ensures { ItemClauses T.ReencodeIndices (read.val_type_tree val_ty) write.val_type_tree
        reencoder.old reencoder.new result }
{
    default_bodies::val_type!(reencoder, val_ty)
}

/// A composite type (section 5.3.8). What it holds is asked before the type that describes it, and that before the
/// type that it describes.
#[tactic(auto, using(crate::proofs::Composites::composite_goals))]
pub fn composite_type<T: ReencodeItems>(
    reencoder: &mut T,
    alloc: Global,
    composite_ty: r::CompositeType,
) -> Result<w::CompositeType, Error<T::Error>>
    ensures { ListClauses T.ReencodeIndices (read.composite_tree composite_ty) write.composite_tree
        reencoder.old reencoder.new result }
{
    default_bodies::composite_type!(reencoder, alloc, composite_ty)
}

/// The parameters and results of a function (section 5.3.8), each by the method `val_type`.
pub fn func_type<T: ReencodeItems>(
    reencoder: &mut T,
    alloc: Global,
    func_ty: r::FuncType,
) -> Result<w::FuncType, Error<T::Error>>
    ensures { ListClauses T.ReencodeIndices (read.func_type_tree func_ty) write.func_type_tree
        reencoder.old reencoder.new result }
{
    default_bodies::func_type!(reencoder, alloc, func_ty)
}

/// A structure by its fields (section 5.3.8).
pub fn struct_type<T: ReencodeItems>(
    reencoder: &mut T,
    alloc: Global,
    struct_ty: r::StructType,
) -> Result<w::StructType, Error<T::Error>>
    ensures { ListClauses T.ReencodeIndices (read.fields_tree struct_ty.fields)
        (λ ty. vector_tree (map write.field_type_tree ty.fields)) reencoder.old reencoder.new result }
{
    default_bodies::struct_type!(reencoder, alloc, struct_ty)
}

/// A composite type with its supertypes, which are asked first (section 5.3.9).
pub fn sub_type<T: ReencodeItems>(
    reencoder: &mut T,
    alloc: Global,
    sub_ty: r::SubType,
) -> Result<w::SubType, Error<T::Error>>
    ensures { ListClauses T.ReencodeIndices (read.sub_type_tree sub_ty) write.sub_type_tree
        reencoder.old reencoder.new result }
{
    default_bodies::sub_type!(reencoder, alloc, sub_ty)
}

/// Value types, each by the method `val_type`. There are as many as there were, also where the defaults are not kept.
pub fn val_types<T: ReencodeItems>(
    reencoder: &mut T,
    alloc: Global,
    val_tys: List<r::ValType>,
) -> Result<List<w::ValType>, Error<T::Error>>
    ensures { ValTypesClauses T.ReencodeIndices val_tys reencoder.old reencoder.new result }
{
    default_bodies::val_types!(reencoder, alloc, val_tys)
}

/// A table: its elements, by the method `ref_type`, and its limits (section 5.3.11).
pub fn table_type<T: ReencodeItems>(
    reencoder: &mut T,
    table_ty: r::TableType,
) -> Result<w::TableType, Error<T::Error>>
    ensures { ItemClauses T.ReencodeIndices (read.table_type_tree table_ty) write.table_type_tree
        reencoder.old reencoder.new result }
{
    default_bodies::table_type!(reencoder, table_ty)
}

/// A global: its type, by the method `val_type`, and whether it may change (section 5.3.13).
pub fn global_type<T: ReencodeItems>(
    reencoder: &mut T,
    global_ty: r::GlobalType,
) -> Result<w::GlobalType, Error<T::Error>>
    ensures { ItemClauses T.ReencodeIndices (read.global_type_tree global_ty) write.global_type_tree
        reencoder.old reencoder.new result }
{
    default_bodies::global_type!(reencoder, global_ty)
}

/// A tag, by the index of its function type (section 5.3.14).
pub fn tag_type<T: ReencodeItems>(
    reencoder: &mut T,
    tag_ty: r::TagType,
) -> Result<w::TagType, Error<T::Error>>
    ensures { ItemClauses T.ReencodeIndices (read.tag_type_tree tag_ty) write.tag_type_tree
        reencoder.old reencoder.new result }
{
    default_bodies::tag_type!(reencoder, tag_ty)
}

/// The type of what is imported (section 5.3.15).
pub fn entity_type<T: ReencodeItems>(
    reencoder: &mut T,
    type_ref: r::TypeRef,
) -> Result<w::EntityType, Error<T::Error>>
    ensures { ItemClauses T.ReencodeIndices (read.entity_tree type_ref) write.entity_tree
        reencoder.old reencoder.new result }
{
    default_bodies::entity_type!(reencoder, type_ref)
}

/// The type of a block (section 5.4.1).
pub fn block_type<T: ReencodeItems>(
    reencoder: &mut T,
    arg: r::BlockType,
) -> Result<w::BlockType, Error<T::Error>>
    ensures { ItemClauses T.ReencodeIndices (immediates.block_type_tree arg)
        instructions.block_type_tree reencoder.old reencoder.new result }
{
    default_bodies::block_type!(reencoder, arg)
}

/// An immediate of an operator (section 5.4) that has a kind: its types, its memory access, what it catches or handles, its
/// heap type, a cast's reference types and its floating-point number by their methods, an index by its space's hook. Labels,
/// locals, fields, sizes, lanes and other numbers stay. The new one is of the same kind, also where the defaults are not kept.
pub fn immediate<'a, T: ReencodeItems>(
    reencoder: &mut T,
    alloc: Global,
    imm: r::Imm<'a>,
) -> Result<w::Imm<'a>, Error<T::Error>>
    requires { IsSome (immediates.imm_kind imm) }
    ensures { ImmediateClauses T.ReencodeIndices imm.entry reencoder.old reencoder.new result }
{
    default_bodies::immediate!(reencoder, alloc, imm)
}

/// An operator (section 5.4), each immediate by the method `immediate`.
pub fn instruction<'a, T: ReencodeItems>(
    reencoder: &mut T,
    alloc: Global,
    arg: r::Operator<'a>,
) -> Result<w::Instruction<'a>, Error<T::Error>>
    ensures { ListClauses T.ReencodeIndices (immediates.operator_tree arg.entry)
        instructions.instruction_tree reencoder.old reencoder.new result }
{
    default_bodies::instruction!(reencoder, alloc, arg)
}

/// The operator that begins at a reader's place, by the method `instruction`. The reader stands further on then, also
/// where the defaults are not kept; by default it stands directly behind the operator.
///
/// `ParseError` comes exactly where no operator begins, and holds the reader's place. After an error the reader's place
/// is left open.
pub fn parse_instruction<'a, T: ReencodeItems>(
    reencoder: &mut T,
    alloc: Global,
    reader: &mut r::OperatorsReader<'a>,
) -> Result<w::Instruction<'a>, Error<T::Error>>
    ensures { OperatorClauses T.ReencodeIndices instructions.instruction_tree
        reencoder.old reader.old reencoder.new reader.new result }
{
    default_bodies::parse_instruction!(reencoder, alloc, reader)
}

/// A constant expression (section 5.4.13), each operator before its `end` by the method `parse_instruction`.
///
/// `InvalidConstExpr` comes only where the defaults are not kept: exactly where, before the closing `end` alone is left,
/// `parse_instruction` answers an `end`, leaves nothing in the reader, or itself answers `InvalidConstExpr`.
pub fn const_expr<T: ReencodeItems>(
    reencoder: &mut T,
    alloc: Global,
    const_expr: r::ConstExpr<'_>,
) -> Result<w::ConstExpr, Error<T::Error>>
    ensures { ListClauses T.ReencodeIndices (expr_tree const_expr.entry) expression_of
        reencoder.old reencoder.new result }
{
    default_bodies::const_expr!(reencoder, alloc, const_expr)
}
