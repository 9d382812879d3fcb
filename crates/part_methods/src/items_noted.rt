//! The methods of items of core modules, all overridden in each kind.
use crate::answers;
use crate::noter::{Made, Noter, Notes, UNASKED, Way, answered, noted};
use reencode_hooks::{Error, RoundtripReencoder};
use reencode_items::ReencodeItems;
use std::alloc::Global;
use wasm_leb::List;
use wasm_read as r;
use wasm_write as w;

impl<K> ReencodeItems for Noter<K> {
    fn type_index_unpacked(&mut self, _ty: r::UnpackedIndex) -> Made<u32> {
        answered!(self, type_index_unpacked, Ok(0))
    }

    fn external_index(&mut self, _kind: r::ExternalKind, _index: u32) -> Made<u32> {
        answered!(self, external_index, Ok(0))
    }

    fn abstract_heap_type(&mut self, _value: r::AbstractHeapType) -> Made<w::AbstractHeapType> {
        answered!(self, abstract_heap_type, Ok(w::AbstractHeapType::Func))
    }

    fn array_type(&mut self, _ty: r::ArrayType) -> Made<w::ArrayType> {
        answered!(self, array_type, Ok(w::ArrayType(answers::FIELD)))
    }

    fn cont_type(&mut self, _ty: r::ContType) -> Made<w::ContType> {
        answered!(self, cont_type, Ok(w::ContType(0)))
    }

    fn export_kind(&mut self, _kind: r::ExternalKind) -> Made<w::ExportKind> {
        answered!(self, export_kind, Ok(w::ExportKind::Func))
    }

    fn field_type(&mut self, _ty: r::FieldType) -> Made<w::FieldType> {
        answered!(self, field_type, Ok(answers::FIELD))
    }

    fn heap_type(&mut self, _ty: r::HeapType) -> Made<w::HeapType> {
        answered!(self, heap_type, Ok(answers::HEAP))
    }

    fn ref_type(&mut self, _ty: r::RefType) -> Made<w::RefType> {
        answered!(self, ref_type, Ok(answers::REFERENCE))
    }

    fn storage_type(&mut self, _ty: r::StorageType) -> Made<w::StorageType> {
        answered!(self, storage_type, Ok(w::StorageType::I8))
    }

    fn val_type(&mut self, _ty: r::ValType) -> Made<w::ValType> {
        answered!(self, val_type, Ok(w::ValType::I32))
    }

    fn composite_type(&mut self, _alloc: Global, _ty: r::CompositeType) -> Made<w::CompositeType> {
        answered!(self, composite_type, Ok(answers::composite()))
    }

    fn func_type(&mut self, alloc: Global, _ty: r::FuncType) -> Made<w::FuncType> {
        answered!(self, func_type, Ok(answers::function(alloc)))
    }

    fn struct_type(&mut self, alloc: Global, _ty: r::StructType) -> Made<w::StructType> {
        answered!(self, struct_type, Ok(answers::structure(alloc)))
    }

    fn sub_type(&mut self, alloc: Global, _ty: r::SubType) -> Made<w::SubType> {
        answered!(self, sub_type, Ok(answers::sub_type(alloc)))
    }

    fn val_types(&mut self, alloc: Global, tys: List<r::ValType>) -> Made<List<w::ValType>> {
        noted!(self, val_types(alloc, tys))
    }

    fn table_type(&mut self, _ty: r::TableType) -> Made<w::TableType> {
        answered!(self, table_type, Ok(answers::TABLE))
    }

    fn memory_type(&mut self, _ty: r::MemoryType) -> Made<w::MemoryType> {
        answered!(self, memory_type, Ok(answers::MEMORY))
    }

    fn global_type(&mut self, _ty: r::GlobalType) -> Made<w::GlobalType> {
        answered!(self, global_type, Ok(answers::GLOBAL))
    }

    fn tag_kind(&mut self, _kind: r::TagKind) -> Made<w::TagKind> {
        answered!(self, tag_kind, Ok(w::TagKind::Exception))
    }

    fn tag_type(&mut self, _ty: r::TagType) -> Made<w::TagType> {
        answered!(self, tag_type, Ok(answers::TAG))
    }

    fn entity_type(&mut self, _ty: r::TypeRef) -> Made<w::EntityType> {
        answered!(self, entity_type, Ok(w::EntityType::Function(0)))
    }

    fn block_type(&mut self, _ty: r::BlockType) -> Made<w::BlockType> {
        answered!(self, block_type, Ok(w::BlockType::Empty))
    }

    fn mem_arg(&mut self, _arg: r::MemArg) -> Made<w::MemArg> {
        answered!(self, mem_arg, Ok(answers::ACCESS))
    }

    fn catch(&mut self, _arg: r::Catch) -> Made<w::Catch> {
        answered!(self, catch, Ok(w::Catch::All { label: 0 }))
    }

    fn handle(&mut self, _on: r::Handle) -> Made<w::Handle> {
        answered!(self, handle, Ok(w::Handle::OnSwitch { tag: 0 }))
    }

    fn ordering(&mut self, _arg: r::Ordering) -> Made<w::Ordering> {
        Err(UNASKED)
    }

    fn ieee32_arg(&mut self, _arg: r::Ieee32) -> Made<w::Ieee32> {
        answered!(self, ieee32_arg, Ok(w::Ieee32(0)))
    }

    fn ieee64_arg(&mut self, _arg: r::Ieee64) -> Made<w::Ieee64> {
        answered!(self, ieee64_arg, Ok(w::Ieee64(0)))
    }

    fn immediate<'a>(&mut self, alloc: Global, imm: r::Imm<'a>) -> Made<w::Imm<'a>> {
        noted!(self, immediate(alloc, imm))
    }

    fn instruction<'a>(
        &mut self,
        alloc: Global,
        _arg: r::Operator<'a>,
    ) -> Made<w::Instruction<'a>> {
        answered!(self, instruction, answers::end(alloc))
    }

    fn parse_instruction<'a>(
        &mut self,
        alloc: Global,
        reader: &mut r::OperatorsReader<'a>,
    ) -> Made<w::Instruction<'a>> {
        let instruction = noted!(self, parse_instruction(alloc, reader))?;
        match self.way {
            Way::Maps => Ok(instruction),
            Way::Ends => answers::end(alloc),
            Way::PassesBy => {
                let _ = reader.read(alloc)?;
                Ok(instruction)
            }
            Way::Refuses => Err(Error::InvalidConstExpr),
        }
    }

    fn const_expr(&mut self, alloc: Global, _expr: r::ConstExpr<'_>) -> Made<w::ConstExpr> {
        answered!(self, const_expr, Ok(w::ConstExpr::new(alloc)))
    }
}
