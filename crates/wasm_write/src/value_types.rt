//! Types in their normal spelling.
ghost use Rattle.std.specs.Prelude.{◌≡◌, ◌++◌, ◌∷◌, [], take, vec_len, OnOk, OnErr};
ghost use Rattle.wasm_shapes.specs.Tree.{normal};
ghost use Rattle.wasm_shapes.specs.Fits.{InRange};
ghost use Rattle.wasm_shapes.specs.Types.{led, shared_tree};
ghost use Rattle.wasm_write.specs.Types.{type_index, abstract_tree, heap_type_tree, nullable_tree, ref_type_tree, val_type_tree, storage_type_tree, field_type_tree};

use crate::types::{AbstractHeapType, FieldType, HeapType, RefType, StorageType, ValType};
use wasm_leb::{NoMemory, write_index, write_u32};

/// The byte of a heap type that names no type of the module.
fn abstract_byte(ty: AbstractHeapType) -> u8
    ensures { normal (abstract_tree ty) ≡ result ∷ [] }
{
    match ty {
        AbstractHeapType::NoFunc => 0x73,
        AbstractHeapType::NoExtern => 0x72,
        AbstractHeapType::None => 0x71,
        AbstractHeapType::Func => 0x70,
        AbstractHeapType::Extern => 0x6f,
        AbstractHeapType::Any => 0x6e,
        AbstractHeapType::Eq => 0x6d,
        AbstractHeapType::I31 => 0x6c,
        AbstractHeapType::Struct => 0x6b,
        AbstractHeapType::Array => 0x6a,
        AbstractHeapType::Exn => 0x69,
        AbstractHeapType::NoExn => 0x74,
        AbstractHeapType::Cont => 0x68,
        AbstractHeapType::NoCont => 0x75,
    }
}

/// Appends a heap type that names no type of the module, or a part of it where memory runs out.
fn write_abstract(out: &mut Vec<u8>, shared: bool, ty: AbstractHeapType) -> Result<(), NoMemory>
    ensures ok { OnOk result
        (out.new.items ≡ out.old.items ++ normal (shared_tree shared (abstract_tree ty))) }
    ensures err { OnErr result (take (vec_len out.old) out.new.items ≡ out.old.items) }
{
    if shared {
        match out.push(0x65) {
            Ok(()) => {}
            Err(_) => return Err(NoMemory),
        }
    }
    match out.push(abstract_byte(ty)) {
        Ok(()) => Ok(()),
        Err(_) => Err(NoMemory),
    }
}

/// Appends a heap type, or a part of it where memory runs out.
pub(crate) fn write_heap_type(out: &mut Vec<u8>, ty: HeapType) -> Result<(), NoMemory>
    ensures ok { OnOk result (out.new.items ≡ out.old.items ++ normal (heap_type_tree ty)) }
    ensures in_range { OnOk result (InRange (heap_type_tree ty)) }
    ensures err { OnErr result (take (vec_len out.old) out.new.items ≡ out.old.items) }
{
    match ty {
        HeapType::Abstract { shared, ty } => write_abstract(out, shared, ty),
        HeapType::Exact(index) => match out.push(0x62) {
            Ok(()) => write_u32(out, index),
            Err(_) => Err(NoMemory),
        },
        HeapType::Concrete(index) => write_index(out, index),
    }
}

/// Appends a reference type, or a part of it where memory runs out. One that may be null and names no type of the module
/// is spelled as its heap type alone.
pub(crate) fn write_ref_type(out: &mut Vec<u8>, ty: RefType) -> Result<(), NoMemory>
    ensures ok { OnOk result (out.new.items ≡ out.old.items ++ normal (ref_type_tree ty)) }
    ensures in_range { OnOk result (InRange (ref_type_tree ty)) }
    ensures err { OnErr result (take (vec_len out.old) out.new.items ≡ out.old.items) }
{
    if ty.nullable {
        write_nullable(out, ty.heap_type)
    } else {
        match out.push(0x64) {
            Ok(()) => write_heap_type(out, ty.heap_type),
            Err(_) => Err(NoMemory),
        }
    }
}

/// Appends the type of references that may be null, or a part of it where memory runs out.
fn write_nullable(out: &mut Vec<u8>, ty: HeapType) -> Result<(), NoMemory>
    ensures ok { OnOk result (out.new.items ≡ out.old.items ++ normal (nullable_tree ty)) }
    ensures in_range { OnOk result (InRange (nullable_tree ty)) }
    ensures err { OnErr result (take (vec_len out.old) out.new.items ≡ out.old.items) }
{
    match ty {
        HeapType::Abstract { shared, ty } => write_abstract(out, shared, ty),
        HeapType::Exact(index) => match out.extend_from_slice(&[0x63, 0x62]) {
            Ok(()) => write_u32(out, index),
            Err(_) => Err(NoMemory),
        },
        HeapType::Concrete(index) => match out.push(0x63) {
            Ok(()) => write_index(out, index),
            Err(_) => Err(NoMemory),
        },
    }
}

/// Appends a byte, or nothing.
#[inline(always)]
pub fn write_byte(out: &mut Vec<u8>, byte: u8) -> Result<(), NoMemory>
    ensures ok { OnOk result (out.new.items ≡ out.old.items ++ byte ∷ []) }
    ensures err { OnErr result (out.new.items ≡ out.old.items) }
{
    match out.push(byte) {
        Ok(()) => Ok(()),
        Err(_) => Err(NoMemory),
    }
}

/// Appends a byte and the index of a type, or a part of them where memory runs out.
pub(crate) fn write_marked(out: &mut Vec<u8>, byte: u8, index: u32) -> Result<(), NoMemory>
    ensures ok { OnOk result
        (out.new.items ≡ out.old.items ++ normal (led byte (type_index index))) }
    ensures err { OnErr result (take (vec_len out.old) out.new.items ≡ out.old.items) }
{
    match out.push(byte) {
        Ok(()) => write_u32(out, index),
        Err(_) => Err(NoMemory),
    }
}

/// Appends a value type (WebAssembly Core Specification 3.0, section 5.3.5). Where memory runs out, what stood in `out`
/// before stands there still.
pub fn write_val_type(out: &mut Vec<u8>, ty: ValType) -> Result<(), NoMemory>
    ensures ok { OnOk result (out.new.items ≡ out.old.items ++ normal (val_type_tree ty)) }
    ensures in_range { OnOk result (InRange (val_type_tree ty)) }
    ensures err { OnErr result (take (vec_len out.old) out.new.items ≡ out.old.items) }
{
    match ty {
        ValType::I32 => write_byte(out, 0x7f),
        ValType::I64 => write_byte(out, 0x7e),
        ValType::F32 => write_byte(out, 0x7d),
        ValType::F64 => write_byte(out, 0x7c),
        ValType::V128 => write_byte(out, 0x7b),
        ValType::Ref(ty) => write_ref_type(out, ty),
    }
}

/// Appends the type of a field as it is stored, or a part of it where memory runs out.
fn write_storage_type(out: &mut Vec<u8>, ty: StorageType) -> Result<(), NoMemory>
    ensures ok { OnOk result (out.new.items ≡ out.old.items ++ normal (storage_type_tree ty)) }
    ensures in_range { OnOk result (InRange (storage_type_tree ty)) }
    ensures err { OnErr result (take (vec_len out.old) out.new.items ≡ out.old.items) }
{
    match ty {
        StorageType::I8 => write_byte(out, 0x78),
        StorageType::I16 => write_byte(out, 0x77),
        StorageType::Val(ty) => write_val_type(out, ty),
    }
}

/// Appends a field, or a part of it where memory runs out.
pub fn write_field_type(out: &mut Vec<u8>, ty: FieldType) -> Result<(), NoMemory>
    ensures ok { OnOk result (out.new.items ≡ out.old.items ++ normal (field_type_tree ty)) }
    ensures in_range { OnOk result (InRange (field_type_tree ty)) }
    ensures err { OnErr result (take (vec_len out.old) out.new.items ≡ out.old.items) }
{
    match write_storage_type(out, ty.element_type) {
        Ok(()) => write_byte(out, u8::from(ty.mutable)),
        Err(NoMemory) => Err(NoMemory),
    }
}
