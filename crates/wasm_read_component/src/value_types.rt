//! Types of values, and of what is imported and exported, at the front of some bytes.
ghost use Rattle.std.specs.Prelude.{◌≡◌, ◌≢◌, ◌++◌, ℕ, List, IfSome, IfNone};
ghost use Rattle.wasm_shapes.specs.Place.{Begins, BeginsNone};
ghost use Rattle.wasm_shapes.specs.Component.{component_value, extern_name, function_result, sorted_item, type_bounds, type_ref};
ghost use Rattle.wasm_types.specs.declared.components.ComponentExternalKind.{ComponentExternalKind};
ghost use Rattle.wasm_types.specs.declared.components.PrimitiveValType.{PrimitiveValType};
ghost use Rattle.wasm_types.specs.ComponentTrees.{component_val_type_tree, extern_name_tree, primitive_byte, result_tree, sort_bytes, sorted_tree, type_bounds_tree, type_ref_tree};

use crate::types::{
    ComponentExternalKind, ComponentTypeRef, ComponentValType, PrimitiveValType, TypeBounds,
};
use wasm_leb::{front_byte, front_index, front_u32};
use wasm_read::front_name;

/// The primitive type that a byte spells.
pub fn primitive_of(byte: u8) -> Option<PrimitiveValType>
    ensures some { IfSome result (λ ty. byte ≡ primitive_byte ty) }
    ensures none { IfNone result ((ty : PrimitiveValType) → byte ≢ primitive_byte ty) }
{
    match byte {
        0x7f => Some(PrimitiveValType::Bool),
        0x7e => Some(PrimitiveValType::S8),
        0x7d => Some(PrimitiveValType::U8),
        0x7c => Some(PrimitiveValType::S16),
        0x7b => Some(PrimitiveValType::U16),
        0x7a => Some(PrimitiveValType::S32),
        0x79 => Some(PrimitiveValType::U32),
        0x78 => Some(PrimitiveValType::S64),
        0x77 => Some(PrimitiveValType::U64),
        0x76 => Some(PrimitiveValType::F32),
        0x75 => Some(PrimitiveValType::F64),
        0x74 => Some(PrimitiveValType::Char),
        0x73 => Some(PrimitiveValType::String),
        0x64 => Some(PrimitiveValType::ErrorContext),
        _ => None,
    }
}

/// The type of values at the front of some bytes, and the bytes behind it.
pub fn front_component_val_type(bytes: &[u8]) -> Option<(ComponentValType, &[u8])>
    ensures some { IfSome result (λ r.
        Begins component_value bytes.now (component_val_type_tree r.0) r.1.now) }
    ensures none { IfNone result (BeginsNone component_value bytes.now) }
{
    let Some((first, rest)) = front_byte(bytes) else {
        return None;
    };
    match primitive_of(first) {
        Some(ty) => Some((ComponentValType::Primitive(ty), rest)),
        None => match front_index(bytes) {
            Some((index, rest)) => Some((ComponentValType::Type_(index), rest)),
            None => None,
        },
    }
}

/// What a type may be, at the front of some bytes, and the bytes behind it.
fn front_type_bounds(bytes: &[u8]) -> Option<(TypeBounds, &[u8])>
    ensures some { IfSome result (λ r.
        Begins type_bounds bytes.now (type_bounds_tree r.0) r.1.now) }
    ensures none { IfNone result (BeginsNone type_bounds bytes.now) }
{
    let Some((first, rest)) = front_byte(bytes) else {
        return None;
    };
    match first {
        0x00 => match front_u32(rest) {
            Some((index, rest)) => Some((TypeBounds::Eq(index), rest)),
            None => None,
        },
        0x01 => Some((TypeBounds::SubResource, rest)),
        _ => None,
    }
}

/// The sort of what a component holds, at the front of some bytes, and the bytes behind it.
fn front_sort(bytes: &[u8]) -> Option<(ComponentExternalKind, &[u8])>
    ensures some { IfSome result (λ r. bytes.now ≡ sort_bytes r.0 ++ r.1.now) }
    ensures none { IfNone result
        ((kind : ComponentExternalKind) (rest : List ℕ) → bytes.now ≢ sort_bytes kind ++ rest) }
{
    let Some((first, rest)) = front_byte(bytes) else {
        return None;
    };
    match first {
        0x00 => match front_byte(rest) {
            Some((0x11, rest)) => Some((ComponentExternalKind::Module, rest)),
            _ => None,
        },
        0x01 => Some((ComponentExternalKind::Func, rest)),
        0x02 => Some((ComponentExternalKind::Value, rest)),
        0x03 => Some((ComponentExternalKind::Type_, rest)),
        0x04 => Some((ComponentExternalKind::Component, rest)),
        0x05 => Some((ComponentExternalKind::Instance, rest)),
        _ => None,
    }
}

/// The type of what is imported or exported, at the front of some bytes, and the bytes behind it.
pub fn front_component_type_ref(bytes: &[u8]) -> Option<(ComponentTypeRef, &[u8])>
    ensures some { IfSome result (λ r. Begins type_ref bytes.now (type_ref_tree r.0) r.1.now) }
    ensures none { IfNone result (BeginsNone type_ref bytes.now) }
{
    let Some((kind, rest)) = front_sort(bytes) else {
        return None;
    };
    match kind {
        ComponentExternalKind::Value => match front_component_val_type(rest) {
            Some((ty, rest)) => Some((ComponentTypeRef::Value(ty), rest)),
            None => None,
        },
        ComponentExternalKind::Type_ => match front_type_bounds(rest) {
            Some((bounds, rest)) => Some((ComponentTypeRef::Type_(bounds), rest)),
            None => None,
        },
        ComponentExternalKind::Module => match front_u32(rest) {
            Some((index, rest)) => Some((ComponentTypeRef::Module(index), rest)),
            None => None,
        },
        ComponentExternalKind::Func => match front_u32(rest) {
            Some((index, rest)) => Some((ComponentTypeRef::Func(index), rest)),
            None => None,
        },
        ComponentExternalKind::Component => match front_u32(rest) {
            Some((index, rest)) => Some((ComponentTypeRef::Component(index), rest)),
            None => None,
        },
        ComponentExternalKind::Instance => match front_u32(rest) {
            Some((index, rest)) => Some((ComponentTypeRef::Instance(index), rest)),
            None => None,
        },
    }
}

/// What a component holds by its sort and its index, at the front of some bytes, and the bytes behind it.
pub fn front_sorted(bytes: &[u8]) -> Option<(ComponentExternalKind, u32, &[u8])>
    ensures some { IfSome result (λ r.
        Begins sorted_item bytes.now (sorted_tree r.0 r.1) r.2.now) }
    ensures none { IfNone result (BeginsNone sorted_item bytes.now) }
{
    let Some((kind, rest)) = front_sort(bytes) else {
        return None;
    };
    match front_u32(rest) {
        Some((index, rest)) => Some((kind, index, rest)),
        None => None,
    }
}

/// A name of what is imported or exported, at the front of some bytes, and the bytes behind it. Its first byte says nothing.
pub fn front_extern_name(bytes: &[u8]) -> Option<(&str, &[u8])>
    ensures some { IfSome result (λ r.
        Begins extern_name bytes.now (extern_name_tree r.0.now) r.1.now) }
    ensures none { IfNone result (BeginsNone extern_name bytes.now) }
{
    let Some((first, rest)) = front_byte(bytes) else {
        return None;
    };
    if first > 0x01 {
        return None;
    }
    match front_name(rest) {
        Some((name, rest)) => Some((name, rest)),
        None => None,
    }
}

/// The result of a function, of which there may be none, at the front of some bytes, and the bytes behind it.
pub fn front_result(bytes: &[u8]) -> Option<(Option<ComponentValType>, &[u8])>
    ensures some { IfSome result (λ r.
        Begins function_result bytes.now (result_tree r.0) r.1.now) }
    ensures none { IfNone result (BeginsNone function_result bytes.now) }
{
    let Some((first, rest)) = front_byte(bytes) else {
        return None;
    };
    match first {
        0x00 => match front_component_val_type(rest) {
            Some((ty, rest)) => Some((Some(ty), rest)),
            None => None,
        },
        0x01 => match front_byte(rest) {
            Some((second, rest)) => {
                if second != 0x00 {
                    return None;
                }
                Some((None, rest))
            }
            None => None,
        },
        _ => None,
    }
}
