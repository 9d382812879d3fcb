//! Types of values, sorts and names of components in their normal spelling.
ghost use Rattle.std.specs.Prelude.{◌≡◌, ◌++◌, ◌∷◌, [], ◌<◌, ◌-◌, ◌^◌, length, take, vec_len, OnOk, OnErr, IfErr};
ghost use Rattle.wasm_leb.specs.Leb.{leb};
ghost use Rattle.wasm_shapes.specs.Tree.{normal};
ghost use Rattle.wasm_shapes.specs.Fits.{InRange};
ghost use Rattle.wasm_write.specs.Faults.{IfTooLarge};
ghost use Rattle.wasm_types.specs.ComponentTrees.{component_val_type_tree, extern_name_tree, maybe_type_ref, primitive_byte, sort_bytes, sorted_tree, type_bounds_tree, type_ref_tree};

use crate::types::{
    ComponentExportKind, ComponentTypeRef, ComponentValType, PrimitiveValType, TypeBounds,
};
use wasm_leb::{NoMemory, write_index, write_u32};
use wasm_write::{WriteFault, write_name};

/// The byte of a primitive type.
pub fn byte_of(ty: PrimitiveValType) -> u8
    ensures { result ≡ primitive_byte ty }
{
    match ty {
        PrimitiveValType::Bool => 0x7f,
        PrimitiveValType::S8 => 0x7e,
        PrimitiveValType::U8 => 0x7d,
        PrimitiveValType::S16 => 0x7c,
        PrimitiveValType::U16 => 0x7b,
        PrimitiveValType::S32 => 0x7a,
        PrimitiveValType::U32 => 0x79,
        PrimitiveValType::S64 => 0x78,
        PrimitiveValType::U64 => 0x77,
        PrimitiveValType::F32 => 0x76,
        PrimitiveValType::F64 => 0x75,
        PrimitiveValType::Char => 0x74,
        PrimitiveValType::String => 0x73,
        PrimitiveValType::ErrorContext => 0x64,
    }
}

/// Appends a type of values, or nothing of it or a part where memory runs out.
pub fn write_component_val_type(out: &mut Vec<u8>, ty: ComponentValType) -> Result<(), NoMemory>
    ensures ok { OnOk result
        (out.new.items ≡ out.old.items ++ normal (component_val_type_tree ty)) }
    ensures in_range { OnOk result (InRange (component_val_type_tree ty)) }
    ensures err { OnErr result (take (vec_len out.old) out.new.items ≡ out.old.items) }
{
    match ty {
        ComponentValType::Primitive(ty) => match out.push(byte_of(ty)) {
            Ok(()) => Ok(()),
            Err(_) => Err(NoMemory),
        },
        ComponentValType::Type_(index) => write_index(out, index),
    }
}

/// Appends a byte, or nothing.
pub fn write_byte(out: &mut Vec<u8>, byte: u8) -> Result<(), NoMemory>
    ensures ok { OnOk result (out.new.items ≡ out.old.items ++ byte ∷ []) }
    ensures err { OnErr result (out.new.items ≡ out.old.items) }
{
    match out.push(byte) {
        Ok(()) => Ok(()),
        Err(_) => Err(NoMemory),
    }
}

/// Appends an index behind some bytes, or a part of that where memory runs out.
pub fn write_led(out: &mut Vec<u8>, front: &[u8], index: u32) -> Result<(), NoMemory>
    ensures ok { OnOk result (out.new.items ≡ out.old.items ++ (front.now ++ leb index)) }
    ensures err { OnErr result (take (vec_len out.old) out.new.items ≡ out.old.items) }
{
    match out.extend_from_slice(front) {
        Ok(()) => write_u32(out, index),
        Err(_) => Err(NoMemory),
    }
}

/// The bytes of a sort.
fn bytes_of_sort(kind: ComponentExportKind) -> &'static [u8]
    ensures { result.now ≡ sort_bytes kind }
{
    match kind {
        ComponentExportKind::Module => &[0x00, 0x11],
        ComponentExportKind::Func => &[0x01],
        ComponentExportKind::Value => &[0x02],
        ComponentExportKind::Type_ => &[0x03],
        ComponentExportKind::Component => &[0x04],
        ComponentExportKind::Instance => &[0x05],
    }
}

/// Appends what a component holds by its sort and its index, or a part of that where memory runs out.
pub fn write_sorted(
    out: &mut Vec<u8>,
    kind: ComponentExportKind,
    index: u32,
) -> Result<(), NoMemory>
    ensures ok { OnOk result
        (out.new.items ≡ out.old.items ++ normal (sorted_tree kind index)) }
    ensures in_range { OnOk result (InRange (sorted_tree kind index)) }
    ensures err { OnErr result (take (vec_len out.old) out.new.items ≡ out.old.items) }
{
    match write_led(out, bytes_of_sort(kind), index) {
        Ok(()) => Ok(()),
        Err(NoMemory) => Err(NoMemory),
    }
}

/// Appends what a type may be, or a part of it where memory runs out.
fn write_type_bounds(out: &mut Vec<u8>, bounds: TypeBounds) -> Result<(), NoMemory>
    ensures ok { OnOk result
        (out.new.items ≡ out.old.items ++ normal (type_bounds_tree bounds)) }
    ensures in_range { OnOk result (InRange (type_bounds_tree bounds)) }
    ensures err { OnErr result (take (vec_len out.old) out.new.items ≡ out.old.items) }
{
    match bounds {
        TypeBounds::Eq(index) => match write_led(out, &[0x00], index) {
            Ok(()) => Ok(()),
            Err(NoMemory) => Err(NoMemory),
        },
        TypeBounds::SubResource => match out.push(0x01) {
            Ok(()) => Ok(()),
            Err(_) => Err(NoMemory),
        },
    }
}

/// Appends the type of what is imported or exported, or a part of it where memory runs out.
pub fn write_component_type_ref(out: &mut Vec<u8>, ty: ComponentTypeRef) -> Result<(), NoMemory>
    ensures ok { OnOk result (out.new.items ≡ out.old.items ++ normal (type_ref_tree ty)) }
    ensures in_range { OnOk result (InRange (type_ref_tree ty)) }
    ensures err { OnErr result (take (vec_len out.old) out.new.items ≡ out.old.items) }
{
    match ty {
        ComponentTypeRef::Module(index) => match write_led(out, &[0x00, 0x11], index) {
            Ok(()) => Ok(()),
            Err(NoMemory) => Err(NoMemory),
        },
        ComponentTypeRef::Func(index) => match write_led(out, &[0x01], index) {
            Ok(()) => Ok(()),
            Err(NoMemory) => Err(NoMemory),
        },
        ComponentTypeRef::Value(ty) => match out.push(0x02) {
            Ok(()) => write_component_val_type(out, ty),
            Err(_) => Err(NoMemory),
        },
        ComponentTypeRef::Type_(bounds) => match out.push(0x03) {
            Ok(()) => write_type_bounds(out, bounds),
            Err(_) => Err(NoMemory),
        },
        ComponentTypeRef::Component(index) => match write_led(out, &[0x04], index) {
            Ok(()) => Ok(()),
            Err(NoMemory) => Err(NoMemory),
        },
        ComponentTypeRef::Instance(index) => match write_led(out, &[0x05], index) {
            Ok(()) => Ok(()),
            Err(NoMemory) => Err(NoMemory),
        },
    }
}

/// Appends the type of what is exported, which may be left out, or a part of it where memory runs out.
pub fn write_maybe_type_ref(out: &mut Vec<u8>, ty: Option<ComponentTypeRef>) -> Result<(), NoMemory>
    ensures ok { OnOk result (out.new.items ≡ out.old.items ++ normal (maybe_type_ref ty)) }
    ensures in_range { OnOk result (InRange (maybe_type_ref ty)) }
    ensures err { OnErr result (take (vec_len out.old) out.new.items ≡ out.old.items) }
{
    match ty {
        None => match out.push(0x00) {
            Ok(()) => Ok(()),
            Err(_) => Err(NoMemory),
        },
        Some(ty) => match out.push(0x01) {
            Ok(()) => write_component_type_ref(out, ty),
            Err(_) => Err(NoMemory),
        },
    }
}

/// Appends a name of what is imported or exported, or a part of it where it is refused.
///
/// `TooLarge` comes exactly where the name has more than 2^32 - 1 bytes, with their number.
pub fn write_extern_name(out: &mut Vec<u8>, name: &str) -> Result<(), WriteFault>
    ensures ok { OnOk result
        (out.new.items ≡ out.old.items ++ normal (extern_name_tree name.now)) }
    ensures in_range { OnOk result (InRange (extern_name_tree name.now)) }
    ensures err { OnErr result (take (vec_len out.old) out.new.items ≡ out.old.items) }
    ensures large { IfErr result (λ e. IfTooLarge e
        (λ size. (size ≡ length name.now) × (2 ^ 32 - 1 < size))) }
{
    match out.push(0x00) {
        Ok(()) => write_name(out, name),
        Err(_) => Err(WriteFault::NoMemory),
    }
}
