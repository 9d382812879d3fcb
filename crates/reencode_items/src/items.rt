//! The items of a core module, re-encoded through a reencoder's hooks.
ghost use Rattle.std.specs.Prelude.{ℕ, IsTrue, IsSome, map};
ghost use Rattle.reencode_hooks.specs.Run.{Gives, NeverWants, accepted};
ghost use Rattle.wasm_read.specs.Expressions.{expr_tree};
ghost use Rattle.wasm_read.specs.Immediates as immediates;
ghost use Rattle.wasm_read.specs.Types as read;
ghost use Rattle.wasm_shapes.specs.Tree.{Tree};
ghost use Rattle.wasm_shapes.specs.Types.{expression_of, vector_tree};
ghost use Rattle.wasm_write.specs.Instructions as instructions;
ghost use Rattle.wasm_write.specs.Rows as rows;
ghost use Rattle.wasm_write.specs.Types as write;
ghost use Rattle.reencode_items.specs.Clauses.{ImmediateClauses, ItemClauses, ListClauses, OperatorClauses, ValTypesClauses};

use crate::{default_bodies, indices, without_indices};
use reencode_hooks::{Error, ReencodeIndices};
use std::alloc::Global;
use wasm_leb::List;
use wasm_read as r;
use wasm_shapes::END;
use wasm_write as w;

/// What a re-encoder does with each item. A default body asks the hook of each index of the item in the order of the
/// visits, and answers the item with each index replaced by its hook's answer; the first refusal ends it and is the
/// answer. A part of an item that has a method of its own is mapped by that method.
///
/// The clauses of a method are the fields of the record that it cites (`specs/Clauses.antt`).
///
/// The clause `default` of each method, and `sure` or `after_error`, hold where the reencoder keeps the defaults. `sure`
/// says that memory never runs out where no hook wants any, and `after_error` that every error then leaves the state
/// after a front part of the item's visits, out of memory too.
pub trait ReencodeItems: ReencodeIndices {
    /// Whether each item becomes what the defaults make of it, so that operators may be mapped without lists and their parts'
    /// methods asked by none. A type that has the marker `DefaultItems` says so; it is not for others to say.
    const DEFAULT_ITEMS: bool = false;

    /// The index of a type. `CanonicalizedHeapTypeReference` comes for one inside a recursion group.
    fn type_index_unpacked(&mut self, ty: r::UnpackedIndex) -> Result<u32, Error<Self::Error>>
        ensures { ItemClauses Self.ReencodeIndices (read.type_index ty) write.type_index
            self.old self.new result }
    {
        indices::type_index_unpacked(self, ty)
    }

    /// The index of what is exported, by the hook of its kind.
    fn external_index(
        &mut self,
        kind: r::ExternalKind,
        index: u32,
    ) -> Result<u32, Error<Self::Error>>
        ensures { ItemClauses Self.ReencodeIndices (read.item_tree kind index) (read.item_tree kind)
            self.old self.new result }
    {
        indices::external_index(self, kind, index)
    }

    /// A heap type that names no type of the module (WebAssembly Core Specification 3.0, section 5.3.3).
    fn abstract_heap_type(
        &mut self,
        value: r::AbstractHeapType,
    ) -> Result<w::AbstractHeapType, Error<Self::Error>>
        ensures { ItemClauses Self.ReencodeIndices (read.abstract_tree value) write.abstract_tree
            self.old self.new result }
    {
        Ok(without_indices::abstract_heap_type(self, value))
    }

    /// An array by the type of its elements (section 5.3.8).
    fn array_type(&mut self, array_ty: r::ArrayType) -> Result<w::ArrayType, Error<Self::Error>>
        ensures { ItemClauses Self.ReencodeIndices (read.field_type_tree array_ty.0)
            (λ ty. write.field_type_tree ty.0) self.old self.new result }
    {
        default_bodies::array_type!(self, array_ty)
    }

    /// A continuation by the type of its function.
    #[tactic(auto, using(crate::proofs::Parts::walk_signed))]
    fn cont_type(&mut self, cont_ty: r::ContType) -> Result<w::ContType, Error<Self::Error>>
        ensures { ItemClauses Self.ReencodeIndices (read.signed_index cont_ty.0)
            (λ ty. write.signed_index ty.0) self.old self.new result }
    {
        default_bodies::cont_type!(self, cont_ty)
    }

    /// The kind of what is exported (section 5.5.10): with each index it is the same item. An exact function becomes a
    /// function.
    fn export_kind(
        &mut self,
        external_kind: r::ExternalKind,
    ) -> Result<w::ExportKind, Error<Self::Error>>
        ensures default { IsTrue Self.keeps_defaults
            → (index : ℕ) → Gives (accepted (read.item_tree external_kind index) self.old)
            (λ kind. rows.item_tree kind index) self.new result }
        ensures sure { IsTrue Self.keeps_defaults → NeverWants Self.sure result }
    {
        Ok(without_indices::export_kind(self, external_kind))
    }

    /// A field of a structure or of an array (section 5.3.8).
    fn field_type(&mut self, field_ty: r::FieldType) -> Result<w::FieldType, Error<Self::Error>>
        ensures { ItemClauses Self.ReencodeIndices (read.field_type_tree field_ty) write.field_type_tree
            self.old self.new result }
    {
        default_bodies::field_type!(self, field_ty)
    }

    /// What a reference points to (section 5.3.3).
    #[tactic(auto, using(crate::proofs::Parts::walk_signed))]
    fn heap_type(&mut self, heap_type: r::HeapType) -> Result<w::HeapType, Error<Self::Error>>
        ensures { ItemClauses Self.ReencodeIndices (read.heap_type_tree heap_type) write.heap_type_tree
            self.old self.new result }
    {
        default_bodies::heap_type!(self, heap_type)
    }

    /// A reference type (section 5.3.4).
    #[tactic(auto, using(crate::proofs::Parts::references))]
    fn ref_type(&mut self, ref_type: r::RefType) -> Result<w::RefType, Error<Self::Error>>
        ensures { ItemClauses Self.ReencodeIndices (read.ref_type_tree ref_type) write.ref_type_tree
            self.old self.new result }
    {
        default_bodies::ref_type!(self, ref_type)
    }

    /// The type of a field as it is stored (section 5.3.8).
    fn storage_type(
        &mut self,
        storage_ty: r::StorageType,
    ) -> Result<w::StorageType, Error<Self::Error>>
        ensures { ItemClauses Self.ReencodeIndices (read.storage_type_tree storage_ty)
            write.storage_type_tree self.old self.new result }
    {
        default_bodies::storage_type!(self, storage_ty)
    }

    /// A value type (section 5.3.5).
    fn val_type(&mut self, val_ty: r::ValType) -> Result<w::ValType, Error<Self::Error>>
        ensures { ItemClauses Self.ReencodeIndices (read.val_type_tree val_ty) write.val_type_tree
            self.old self.new result }
    {
        default_bodies::val_type!(self, val_ty)
    }

    /// A composite type (section 5.3.8). What it holds is asked before the type that describes it, and that before the
    /// type that it describes.
    #[tactic(auto, using(crate::proofs::Composites::composite_goals))]
    fn composite_type(
        &mut self,
        alloc: Global,
        composite_ty: r::CompositeType,
    ) -> Result<w::CompositeType, Error<Self::Error>>
        ensures { ListClauses Self.ReencodeIndices (read.composite_tree composite_ty)
            write.composite_tree self.old self.new result }
    {
        default_bodies::composite_type!(self, alloc, composite_ty)
    }

    /// The parameters and results of a function (section 5.3.8), each by the method `val_type`.
    fn func_type(
        &mut self,
        alloc: Global,
        func_ty: r::FuncType,
    ) -> Result<w::FuncType, Error<Self::Error>>
        ensures { ListClauses Self.ReencodeIndices (read.func_type_tree func_ty) write.func_type_tree
            self.old self.new result }
    {
        default_bodies::func_type!(self, alloc, func_ty)
    }

    /// A structure by its fields (section 5.3.8).
    fn struct_type(
        &mut self,
        alloc: Global,
        struct_ty: r::StructType,
    ) -> Result<w::StructType, Error<Self::Error>>
        ensures { ListClauses Self.ReencodeIndices (read.fields_tree struct_ty.fields)
            (λ ty. vector_tree (map write.field_type_tree ty.fields)) self.old self.new result }
    {
        default_bodies::struct_type!(self, alloc, struct_ty)
    }

    /// A composite type with its supertypes, which are asked first (section 5.3.9).
    fn sub_type(
        &mut self,
        alloc: Global,
        sub_ty: r::SubType,
    ) -> Result<w::SubType, Error<Self::Error>>
        ensures { ListClauses Self.ReencodeIndices (read.sub_type_tree sub_ty) write.sub_type_tree
            self.old self.new result }
    {
        default_bodies::sub_type!(self, alloc, sub_ty)
    }

    /// Value types, each by the method `val_type`. There are as many as there were, also where the defaults are not kept.
    fn val_types(
        &mut self,
        alloc: Global,
        val_tys: List<r::ValType>,
    ) -> Result<List<w::ValType>, Error<Self::Error>>
        ensures { ValTypesClauses Self.ReencodeIndices val_tys self.old self.new result }
    {
        default_bodies::val_types!(self, alloc, val_tys)
    }

    /// A table: its elements, by the method `ref_type`, and its limits (section 5.3.11).
    fn table_type(&mut self, table_ty: r::TableType) -> Result<w::TableType, Error<Self::Error>>
        ensures { ItemClauses Self.ReencodeIndices (read.table_type_tree table_ty) write.table_type_tree
            self.old self.new result }
    {
        default_bodies::table_type!(self, table_ty)
    }

    /// A memory by its limits (section 5.3.12).
    fn memory_type(&mut self, memory_ty: r::MemoryType) -> Result<w::MemoryType, Error<Self::Error>>
        ensures { ItemClauses Self.ReencodeIndices (read.memory_type_tree memory_ty)
            write.memory_type_tree self.old self.new result }
    {
        Ok(without_indices::memory_type(self, memory_ty))
    }

    /// A global: its type, by the method `val_type`, and whether it may change (section 5.3.13).
    fn global_type(&mut self, global_ty: r::GlobalType) -> Result<w::GlobalType, Error<Self::Error>>
        ensures { ItemClauses Self.ReencodeIndices (read.global_type_tree global_ty)
            write.global_type_tree self.old self.new result }
    {
        default_bodies::global_type!(self, global_ty)
    }

    /// What a tag is for (section 5.3.14): with each index it is the same tag.
    fn tag_kind(&mut self, kind: r::TagKind) -> Result<w::TagKind, Error<Self::Error>>
        ensures default { IsTrue Self.keeps_defaults
            → (i : ℕ) → Gives
            (accepted (read.tag_type_tree (record { kind = kind; func_type_idx = i })) self.old)
            (λ made. write.tag_type_tree (record { kind = made; func_type_idx = i }))
            self.new result }
        ensures sure { IsTrue Self.keeps_defaults → NeverWants Self.sure result }
    {
        Ok(without_indices::tag_kind(self, kind))
    }

    /// A tag, by the index of its function type (section 5.3.14).
    fn tag_type(&mut self, tag_ty: r::TagType) -> Result<w::TagType, Error<Self::Error>>
        ensures { ItemClauses Self.ReencodeIndices (read.tag_type_tree tag_ty) write.tag_type_tree
            self.old self.new result }
    {
        default_bodies::tag_type!(self, tag_ty)
    }

    /// The type of what is imported (section 5.3.15).
    fn entity_type(&mut self, type_ref: r::TypeRef) -> Result<w::EntityType, Error<Self::Error>>
        ensures { ItemClauses Self.ReencodeIndices (read.entity_tree type_ref) write.entity_tree
            self.old self.new result }
    {
        default_bodies::entity_type!(self, type_ref)
    }

    /// The type of a block (section 5.4.1).
    fn block_type(&mut self, arg: r::BlockType) -> Result<w::BlockType, Error<Self::Error>>
        ensures { ItemClauses Self.ReencodeIndices (immediates.block_type_tree arg)
            instructions.block_type_tree self.old self.new result }
    {
        default_bodies::block_type!(self, arg)
    }

    /// Where a memory access goes (section 5.4.6): its memory, also where it was left out. The alignment and the offset
    /// stay.
    fn mem_arg(&mut self, arg: r::MemArg) -> Result<w::MemArg, Error<Self::Error>>
        ensures { ItemClauses Self.ReencodeIndices (Tree.mem arg.align arg.memory arg.offset)
            (λ made. Tree.mem made.align made.memory made.offset) self.old self.new result }
    {
        indices::mem_arg(self, arg)
    }

    /// What a block catches (section 5.4.1): its tag, where it has one. The label stays.
    fn catch(&mut self, arg: r::Catch) -> Result<w::Catch, Error<Self::Error>>
        ensures { ItemClauses Self.ReencodeIndices (immediates.catch_tree arg) instructions.catch_tree
            self.old self.new result }
    {
        indices::catch(self, arg)
    }

    /// How a resumed continuation's tag is handled: the tag. The label stays.
    fn handle(&mut self, on: r::Handle) -> Result<w::Handle, Error<Self::Error>>
        ensures { ItemClauses Self.ReencodeIndices (immediates.handle_tree on) instructions.handle_tree
            self.old self.new result }
    {
        indices::handle(self, on)
    }

    /// The order of an atomic access: that of the same name. No operator of the table has one.
    fn ordering(&mut self, arg: r::Ordering) -> Result<w::Ordering, Error<Self::Error>>
        ensures default { IsTrue Self.keeps_defaults
            → Gives (accepted arg self.old) (λ made. made) self.new result }
        ensures sure { IsTrue Self.keeps_defaults → NeverWants Self.sure result }
    {
        Ok(without_indices::ordering(self, arg))
    }

    /// A floating-point number of 32 bits, by its bits.
    fn ieee32_arg(&mut self, arg: r::Ieee32) -> Result<w::Ieee32, Error<Self::Error>>
        ensures default { IsTrue Self.keeps_defaults
            → Gives (accepted arg.0 self.old) (λ made. made.0) self.new result }
        ensures sure { IsTrue Self.keeps_defaults → NeverWants Self.sure result }
    {
        Ok(without_indices::ieee32_arg(self, arg))
    }

    /// A floating-point number of 64 bits, by its bits.
    fn ieee64_arg(&mut self, arg: r::Ieee64) -> Result<w::Ieee64, Error<Self::Error>>
        ensures default { IsTrue Self.keeps_defaults
            → Gives (accepted arg.0 self.old) (λ made. made.0) self.new result }
        ensures sure { IsTrue Self.keeps_defaults → NeverWants Self.sure result }
    {
        Ok(without_indices::ieee64_arg(self, arg))
    }

    /// An immediate of an operator (section 5.4) that has a kind: its types, its memory access, what it catches or handles,
    /// its heap type, a cast's reference types and its floating-point number by their methods, an index by its space's hook.
    /// Labels, locals, fields, sizes, lanes and other numbers stay. The new one is of the same kind, also where the defaults
    /// are not kept.
    fn immediate<'a>(
        &mut self,
        alloc: Global,
        imm: r::Imm<'a>,
    ) -> Result<w::Imm<'a>, Error<Self::Error>>
        requires { IsSome (immediates.imm_kind imm) }
        ensures { ImmediateClauses Self.ReencodeIndices imm.entry self.old self.new result }
    {
        default_bodies::immediate!(self, alloc, imm)
    }

    /// An operator (section 5.4), each immediate by the method `immediate`.
    fn instruction<'a>(
        &mut self,
        alloc: Global,
        arg: r::Operator<'a>,
    ) -> Result<w::Instruction<'a>, Error<Self::Error>>
        ensures { ListClauses Self.ReencodeIndices (immediates.operator_tree arg.entry)
            instructions.instruction_tree self.old self.new result }
    {
        default_bodies::instruction!(self, alloc, arg)
    }

    /// The operator that begins at a reader's place, by the method `instruction`. The reader stands further on then, also
    /// where the defaults are not kept; by default it stands directly behind the operator.
    ///
    /// `ParseError` comes exactly where no operator begins, and holds the reader's place. After an error the reader's place
    /// is left open.
    fn parse_instruction<'a>(
        &mut self,
        alloc: Global,
        reader: &mut r::OperatorsReader<'a>,
    ) -> Result<w::Instruction<'a>, Error<Self::Error>>
        ensures { OperatorClauses Self.ReencodeIndices instructions.instruction_tree
            self.old reader.old self.new reader.new result }
    {
        default_bodies::parse_instruction!(self, alloc, reader)
    }

    /// A constant expression (section 5.4.13), each operator before its `end` by the method `parse_instruction`.
    ///
    /// `InvalidConstExpr` comes only where the defaults are not kept: exactly where, before the closing `end` alone is left,
    /// `parse_instruction` answers an `end`, leaves nothing in the reader, or itself answers `InvalidConstExpr`.
    fn const_expr(
        &mut self,
        alloc: Global,
        const_expr: r::ConstExpr<'_>,
    ) -> Result<w::ConstExpr, Error<Self::Error>>
        ensures { ListClauses Self.ReencodeIndices (expr_tree const_expr.entry) expression_of
            self.old self.new result }
    {
        default_bodies::const_expr!(self, alloc, const_expr)
    }
}
