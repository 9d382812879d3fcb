//! Value types and what they are made of, at the front of some bytes, and at a place of some bytes.
ghost use Rattle.std.specs.Prelude.{◌≡◌, ◌<◌, ◌≤◌, ◌⊎◌, length, drop, IfOk, IfErr, IfSome, IfNone};
ghost use Rattle.wasm_shapes.specs.Place.{Begins, BeginsNone};
ghost use Rattle.wasm_shapes.specs.Shape.{Shape, Named, abstract_rows, concrete_rows, heap, reference, storage, field};
ghost use Rattle.wasm_read.specs.Types.{abstract_byte, abstract_tree, shared_tree, concrete_tree, heap_type_tree, ref_type_tree, val_type_tree, storage_type_tree, field_type_tree};

use crate::fields::from_place;
use crate::types::{
    AbstractHeapType, FieldType, HeapType, RefType, StorageType, UnpackedIndex, ValType,
};
use wasm_leb::{ReadError, front_byte, front_index, front_u32};

/// The abstract heap type that a byte spells.
#[inline(always)]
fn abstract_of(byte: u8) -> Option<AbstractHeapType>
    ensures some { IfSome result (λ ty. byte ≡ abstract_byte ty) }
    ensures none { IfNone result ((byte < 0x68) ⊎ (0x75 < byte)) }
{
    match byte {
        0x70 => Some(AbstractHeapType::Func),
        0x6f => Some(AbstractHeapType::Extern),
        0x6e => Some(AbstractHeapType::Any),
        0x6d => Some(AbstractHeapType::Eq),
        0x6c => Some(AbstractHeapType::I31),
        0x6b => Some(AbstractHeapType::Struct),
        0x6a => Some(AbstractHeapType::Array),
        0x71 => Some(AbstractHeapType::None),
        0x72 => Some(AbstractHeapType::NoExtern),
        0x73 => Some(AbstractHeapType::NoFunc),
        0x69 => Some(AbstractHeapType::Exn),
        0x74 => Some(AbstractHeapType::NoExn),
        0x68 => Some(AbstractHeapType::Cont),
        0x75 => Some(AbstractHeapType::NoCont),
        _ => None,
    }
}

/// The abstract heap type at the front of some bytes and whether it is shared, and the bytes behind it.
#[inline(always)]
fn front_abstract(bytes: &[u8]) -> Option<(bool, AbstractHeapType, &[u8])>
    ensures some { IfSome result (λ r.
        Begins abstract_rows bytes.now (shared_tree r.0 (abstract_tree r.1)) r.2.now) }
    ensures none { IfNone result (BeginsNone abstract_rows bytes.now) }
{
    let Some((first, rest)) = front_byte(bytes) else {
        return None;
    };
    if first != 0x65 {
        return match abstract_of(first) {
            Some(ty) => Some((false, ty, rest)),
            None => None,
        };
    }
    let Some((second, rest)) = front_byte(rest) else {
        return None;
    };
    match abstract_of(second) {
        Some(ty) => Some((true, ty, rest)),
        None => None,
    }
}

/// The heap type at the front of some bytes that names a type of the module, and the bytes behind it.
#[inline(always)]
fn front_concrete(bytes: &[u8]) -> Option<(HeapType, &[u8])>
    ensures some { IfSome result (λ r. Begins concrete_rows bytes.now (concrete_tree r.0) r.1.now) }
    ensures none { IfNone result (BeginsNone concrete_rows bytes.now) }
{
    let Some((first, rest)) = front_byte(bytes) else {
        return None;
    };
    if first != 0x62 {
        return match front_index(bytes) {
            Some((index, rest)) => Some((HeapType::Concrete(UnpackedIndex::Module(index)), rest)),
            None => None,
        };
    }
    match front_u32(rest) {
        Some((index, rest)) => Some((HeapType::Exact(UnpackedIndex::Module(index)), rest)),
        None => None,
    }
}

/// The heap type at the front of some bytes, and the bytes behind it (WebAssembly Core Specification 3.0, section 5.3.3).
pub fn front_heap_type(bytes: &[u8]) -> Option<(HeapType, &[u8])>
    ensures some { IfSome result (λ r. Begins heap bytes.now (heap_type_tree r.0) r.1.now) }
    ensures none { IfNone result (BeginsNone heap bytes.now) }
{
    match front_abstract(bytes) {
        Some((shared, ty, rest)) => Some((HeapType::Abstract { shared, ty }, rest)),
        None => match front_concrete(bytes) {
            Some((ty, rest)) => Some((ty, rest)),
            None => None,
        },
    }
}

/// The reference type at the front of some bytes, and the bytes behind it (WebAssembly Core Specification 3.0, section
/// 5.3.4).
pub fn front_ref_type(bytes: &[u8]) -> Option<(RefType, &[u8])>
    ensures some { IfSome result (λ r. Begins reference bytes.now (ref_type_tree r.0) r.1.now) }
    ensures none { IfNone result (BeginsNone reference bytes.now) }
{
    let Some((first, rest)) = front_byte(bytes) else {
        return None;
    };
    match first {
        0x64 => match front_heap_type(rest) {
            Some((heap_type, rest)) => Some((
                RefType {
                    nullable: false,
                    heap_type,
                },
                rest,
            )),
            None => None,
        },
        0x63 => match front_heap_type(rest) {
            Some((heap_type, rest)) => Some((
                RefType {
                    nullable: true,
                    heap_type,
                },
                rest,
            )),
            None => None,
        },
        _ => match front_abstract(bytes) {
            Some((shared, ty, rest)) => Some((
                RefType {
                    nullable: true,
                    heap_type: HeapType::Abstract { shared, ty },
                },
                rest,
            )),
            None => None,
        },
    }
}

/// The value type at the front of some bytes, and the bytes behind it.
pub fn front_val_type(bytes: &[u8]) -> Option<(ValType, &[u8])>
    ensures some { IfSome result (λ r.
        Begins (Shape.ref Named.value) bytes.now (val_type_tree r.0) r.1.now) }
    ensures none { IfNone result (BeginsNone (Shape.ref Named.value) bytes.now) }
{
    let Some((first, rest)) = front_byte(bytes) else {
        return None;
    };
    match first {
        0x7f => Some((ValType::I32, rest)),
        0x7e => Some((ValType::I64, rest)),
        0x7d => Some((ValType::F32, rest)),
        0x7c => Some((ValType::F64, rest)),
        0x7b => Some((ValType::V128, rest)),
        _ => match front_ref_type(bytes) {
            Some((ty, rest)) => Some((ValType::Ref(ty), rest)),
            None => None,
        },
    }
}

/// The value type that is spelled at a place, and the place after it (WebAssembly Core Specification 3.0, section 5.3.5).
///
/// The error holds the place that was asked for, and comes exactly where no value type begins there, as past the end.
pub fn read_val_type(bytes: &[u8], at: usize) -> Result<(ValType, usize), ReadError>
    ensures ok { IfOk result (λ r.
        Begins (Shape.ref Named.value) (drop at bytes.now)
        (val_type_tree r.0) (drop r.1 bytes.now)) }
    ensures forward { IfOk result (λ r. (at < r.1) × (r.1 ≤ length bytes.now)) }
    ensures err { IfErr result (λ e.
        (e.at ≡ at) × BeginsNone (Shape.ref Named.value) (drop at bytes.now)) }
{
    match front_val_type(from_place(bytes, at)) {
        Some((ty, rest)) => Ok((ty, bytes.len() - rest.len())),
        None => Err(ReadError { at }),
    }
}

/// The type of a field as it is stored, at the front of some bytes, and the bytes behind it.
#[inline(always)]
fn front_storage_type(bytes: &[u8]) -> Option<(StorageType, &[u8])>
    ensures some { IfSome result (λ r. Begins storage bytes.now (storage_type_tree r.0) r.1.now) }
    ensures none { IfNone result (BeginsNone storage bytes.now) }
{
    let Some((first, rest)) = front_byte(bytes) else {
        return None;
    };
    match first {
        0x78 => Some((StorageType::I8, rest)),
        0x77 => Some((StorageType::I16, rest)),
        _ => match front_val_type(bytes) {
            Some((ty, rest)) => Some((StorageType::Val(ty), rest)),
            None => None,
        },
    }
}

/// The field at the front of some bytes, and the bytes behind it (WebAssembly Core Specification 3.0, section 5.3.8).
pub fn front_field_type(bytes: &[u8]) -> Option<(FieldType, &[u8])>
    ensures some { IfSome result (λ r. Begins field bytes.now (field_type_tree r.0) r.1.now) }
    ensures none { IfNone result (BeginsNone field bytes.now) }
{
    let Some((element_type, rest)) = front_storage_type(bytes) else {
        return None;
    };
    let Some((mutable, rest)) = front_byte(rest) else {
        return None;
    };
    match mutable {
        0x00 => Some((
            FieldType {
                element_type,
                mutable: false,
            },
            rest,
        )),
        0x01 => Some((
            FieldType {
                element_type,
                mutable: true,
            },
            rest,
        )),
        _ => None,
    }
}
