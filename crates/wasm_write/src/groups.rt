//! Composite types, subtypes and groups in their normal spelling.
ghost use Rattle.std.specs.Prelude.{◌≡◌, ◌++◌, take, vec_len, OnOk, OnErr, IfErr};
ghost use Rattle.wasm_shapes.specs.Tree.{normal};
ghost use Rattle.wasm_shapes.specs.Fits.{InRange};
ghost use Rattle.wasm_write.specs.Counts.{counts, IsTooLarge};
ghost use Rattle.wasm_write.specs.Faults.{IfTooLarge};
ghost use Rattle.wasm_shapes.specs.Types.{led};
ghost use Rattle.wasm_write.specs.Types.{func_type_tree, inner_tree, described_tree, unshared_tree, composite_tree, parts_tree, sub_type_tree, group_tree};

use crate::fault::WriteFault;
use crate::types::{
    CompositeInnerType, CompositeType, FieldType, FuncType, RecGroup, SubType, ValType,
};
use crate::value_types::{write_byte, write_field_type, write_marked, write_val_type};
use crate::vectors::{InTypes, ItemOf, write_vec};
use wasm_leb::{NoMemory, write_index, write_u32};

impl<P> ItemOf<P> for ValType {
    ghost use Rattle.wasm_write.specs.Types.{val_type_tree};

    ghost tree = { val_type_tree };

    fn write(&self, out: &mut Vec<u8>) -> Result<(), WriteFault> {
        match write_val_type(out, *self) {
            Ok(()) => Ok(()),
            Err(NoMemory) => Err(WriteFault::NoMemory),
        }
    }
}

impl ItemOf<InTypes> for FieldType {
    ghost use Rattle.wasm_write.specs.Types.{field_type_tree};

    ghost tree = { field_type_tree };

    fn write(&self, out: &mut Vec<u8>) -> Result<(), WriteFault> {
        match write_field_type(out, *self) {
            Ok(()) => Ok(()),
            Err(NoMemory) => Err(WriteFault::NoMemory),
        }
    }
}

/// A supertype.
impl ItemOf<InTypes> for u32 {
    ghost use Rattle.wasm_write.specs.Types.{type_index};

    ghost tree = { type_index };

    fn write(&self, out: &mut Vec<u8>) -> Result<(), WriteFault> {
        match write_u32(out, *self) {
            Ok(()) => Ok(()),
            Err(NoMemory) => Err(WriteFault::NoMemory),
        }
    }
}

/// Appends the parameters and results of a function, or a part of them where that is refused.
fn write_func_type(out: &mut Vec<u8>, ty: &FuncType) -> Result<(), WriteFault>
    ensures ok { OnOk result (out.new.items ≡ out.old.items ++ normal (func_type_tree ty.now)) }
    ensures in_range { OnOk result (InRange (func_type_tree ty.now)) }
    ensures err { OnErr result (take (vec_len out.old) out.new.items ≡ out.old.items) }
    ensures large { IfErr result (λ e. IfTooLarge e (IsTooLarge (counts (func_type_tree ty.now)))) }
{
    match write_vec::<InTypes, _>(out, ty.params.as_slice()) {
        Ok(()) => {}
        Err(fault) => return Err(fault),
    }
    match write_vec::<InTypes, _>(out, ty.results.as_slice()) {
        Ok(()) => Ok(()),
        Err(fault) => Err(fault),
    }
}

/// Appends a function, array, structure or continuation type, or a part of it where that is refused.
fn write_inner(out: &mut Vec<u8>, ty: &CompositeInnerType) -> Result<(), WriteFault>
    ensures ok { OnOk result (out.new.items ≡ out.old.items ++ normal (inner_tree ty.now)) }
    ensures in_range { OnOk result (InRange (inner_tree ty.now)) }
    ensures err { OnErr result (take (vec_len out.old) out.new.items ≡ out.old.items) }
    ensures large { IfErr result (λ e. IfTooLarge e (IsTooLarge (counts (inner_tree ty.now)))) }
{
    match ty {
        CompositeInnerType::Func(ty) => match write_byte(out, 0x60) {
            Ok(()) => write_func_type(out, ty),
            Err(NoMemory) => Err(WriteFault::NoMemory),
        },
        CompositeInnerType::Array(ty) => match write_byte(out, 0x5e) {
            Ok(()) => match write_field_type(out, ty.0) {
                Ok(()) => Ok(()),
                Err(NoMemory) => Err(WriteFault::NoMemory),
            },
            Err(NoMemory) => Err(WriteFault::NoMemory),
        },
        CompositeInnerType::Struct(ty) => match write_byte(out, 0x5f) {
            Ok(()) => write_vec::<InTypes, _>(out, ty.fields.as_slice()),
            Err(NoMemory) => Err(WriteFault::NoMemory),
        },
        CompositeInnerType::Cont(ty) => match write_byte(out, 0x5d) {
            Ok(()) => match write_index(out, ty.0) {
                Ok(()) => Ok(()),
                Err(NoMemory) => Err(WriteFault::NoMemory),
            },
            Err(NoMemory) => Err(WriteFault::NoMemory),
        },
    }
}

/// Appends an inner type behind its descriptor, where it has one, or a part of that where it is refused.
fn write_described(
    out: &mut Vec<u8>,
    descriptor: Option<u32>,
    ty: &CompositeInnerType,
) -> Result<(), WriteFault>
    ensures ok { OnOk result
        (out.new.items ≡ out.old.items ++ normal (described_tree descriptor (inner_tree ty.now))) }
    ensures in_range { OnOk result (InRange (described_tree descriptor (inner_tree ty.now))) }
    ensures err { OnErr result (take (vec_len out.old) out.new.items ≡ out.old.items) }
    ensures large { IfErr result (λ e. IfTooLarge e
        (IsTooLarge (counts (described_tree descriptor (inner_tree ty.now))))) }
{
    match descriptor {
        None => write_inner(out, ty),
        Some(index) => match write_marked(out, 0x4d, index) {
            Ok(()) => write_inner(out, ty),
            Err(NoMemory) => Err(WriteFault::NoMemory),
        },
    }
}

/// Appends a composite type that is not shared, or a part of it where that is refused.
fn write_describing(out: &mut Vec<u8>, ty: &CompositeType) -> Result<(), WriteFault>
    ensures ok { OnOk result (out.new.items ≡ out.old.items ++ normal (unshared_tree ty.now)) }
    ensures in_range { OnOk result (InRange (unshared_tree ty.now)) }
    ensures err { OnErr result (take (vec_len out.old) out.new.items ≡ out.old.items) }
    ensures large { IfErr result (λ e. IfTooLarge e (IsTooLarge (counts (unshared_tree ty.now)))) }
{
    match ty.describes {
        None => write_described(out, ty.descriptor, &ty.inner),
        Some(index) => match write_marked(out, 0x4c, index) {
            Ok(()) => write_described(out, ty.descriptor, &ty.inner),
            Err(NoMemory) => Err(WriteFault::NoMemory),
        },
    }
}

/// Appends a composite type, or a part of it where that is refused.
fn write_composite(out: &mut Vec<u8>, ty: &CompositeType) -> Result<(), WriteFault>
    ensures ok { OnOk result (out.new.items ≡ out.old.items ++ normal (composite_tree ty.now)) }
    ensures in_range { OnOk result (InRange (composite_tree ty.now)) }
    ensures err { OnErr result (take (vec_len out.old) out.new.items ≡ out.old.items) }
    ensures large { IfErr result (λ e. IfTooLarge e (IsTooLarge (counts (composite_tree ty.now)))) }
{
    if ty.shared {
        match write_byte(out, 0x65) {
            Ok(()) => write_describing(out, ty),
            Err(NoMemory) => Err(WriteFault::NoMemory),
        }
    } else {
        write_describing(out, ty)
    }
}

/// Appends the supertypes and the composite type of a subtype, or a part of them where that is refused.
fn write_parts(out: &mut Vec<u8>, ty: &SubType) -> Result<(), WriteFault>
    ensures ok { OnOk result (out.new.items ≡ out.old.items ++ normal (parts_tree ty.now)) }
    ensures in_range { OnOk result (InRange (parts_tree ty.now)) }
    ensures err { OnErr result (take (vec_len out.old) out.new.items ≡ out.old.items) }
    ensures large { IfErr result (λ e. IfTooLarge e (IsTooLarge (counts (parts_tree ty.now)))) }
{
    match write_vec::<InTypes, _>(out, ty.supertype_idxs.as_slice()) {
        Ok(()) => {}
        Err(fault) => return Err(fault),
    }
    match write_composite(out, &ty.composite_type) {
        Ok(()) => Ok(()),
        Err(fault) => Err(fault),
    }
}

/// Appends supertypes and a composite type behind a byte, or a part of them where that is refused.
fn write_subtype(out: &mut Vec<u8>, byte: u8, ty: &SubType) -> Result<(), WriteFault>
    ensures ok { OnOk result
        (out.new.items ≡ out.old.items ++ normal (led byte (parts_tree ty.now))) }
    ensures in_range { OnOk result (InRange (led byte (parts_tree ty.now))) }
    ensures err { OnErr result (take (vec_len out.old) out.new.items ≡ out.old.items) }
    ensures large { IfErr result (λ e. IfTooLarge e
        (IsTooLarge (counts (led byte (parts_tree ty.now))))) }
{
    match write_byte(out, byte) {
        Ok(()) => write_parts(out, ty),
        Err(NoMemory) => Err(WriteFault::NoMemory),
    }
}

/// Appends a subtype, or a part of it where that is refused. A final one without supertypes is spelled as its composite
/// type alone.
fn write_sub_type(out: &mut Vec<u8>, ty: &SubType) -> Result<(), WriteFault>
    ensures ok { OnOk result (out.new.items ≡ out.old.items ++ normal (sub_type_tree ty.now)) }
    ensures in_range { OnOk result (InRange (sub_type_tree ty.now)) }
    ensures err { OnErr result (take (vec_len out.old) out.new.items ≡ out.old.items) }
    ensures large { IfErr result (λ e. IfTooLarge e (IsTooLarge (counts (sub_type_tree ty.now)))) }
{
    if !ty.is_final {
        write_subtype(out, 0x50, ty)
    } else if ty.supertype_idxs.is_empty() {
        write_composite(out, &ty.composite_type)
    } else {
        write_subtype(out, 0x4f, ty)
    }
}

impl ItemOf<InTypes> for SubType {
    ghost use Rattle.wasm_write.specs.Types.{sub_type_tree};

    ghost tree = { sub_type_tree };

    fn write(&self, out: &mut Vec<u8>) -> Result<(), WriteFault> {
        write_sub_type(out, self)
    }
}

/// Appends a group of types (WebAssembly Core Specification 3.0, section 5.3.9). One that is not explicit is spelled as its
/// one type alone. A refusal leaves what stood in `out` before.
///
/// `TooLarge` comes exactly where the number of value types, fields, supertypes or types in it is above 2^32 - 1, with that
/// number.
pub fn write_group(out: &mut Vec<u8>, group: &RecGroup) -> Result<(), WriteFault>
    ensures ok { OnOk result (out.new.items ≡ out.old.items ++ normal (group_tree group.now)) }
    ensures in_range { OnOk result (InRange (group_tree group.now)) }
    ensures err { OnErr result (take (vec_len out.old) out.new.items ≡ out.old.items) }
    ensures large { IfErr result (λ e. IfTooLarge e (IsTooLarge (counts (group_tree group.now)))) }
{
    if group.explicit {
        match write_byte(out, 0x4e) {
            Ok(()) => write_vec::<InTypes, _>(out, group.types.as_slice()),
            Err(NoMemory) => Err(WriteFault::NoMemory),
        }
    } else {
        match group.types.as_slice() {
            [ty, ..] => write_sub_type(out, ty),
            [] => Ok(()),
        }
    }
}
