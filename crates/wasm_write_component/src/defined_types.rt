//! Types of values that are defined, and types of functions and resources, in their normal spelling.
ghost use Rattle.std.specs.Prelude.{◌≡◌, ◌++◌, map, take, vec_len, OnOk, OnErr, IfErr};
ghost use Rattle.wasm_shapes.specs.Tree.{Tree, normal};
ghost use Rattle.wasm_shapes.specs.Types.{led, vector_tree};
ghost use Rattle.wasm_shapes.specs.Fits.{InRange};
ghost use Rattle.wasm_types.specs.ComponentTrees.{component_defined_type_tree, component_func_type_tree, component_signature_tree, component_val_type_tree, maybe_function, maybe_value_tree, resource_tree};
ghost use Rattle.wasm_write.specs.Counts.{counts, IsTooLarge};
ghost use Rattle.wasm_write.specs.Faults.{IfTooLarge};
ghost use Rattle.wasm_write.specs.Types.{val_type_tree};

use crate::canonical::write_result;
use crate::types::{
    ComponentDefinedType, ComponentFuncType, ComponentValType, ValType, VariantCase,
};
use crate::value_types::{byte_of, write_byte, write_component_val_type, write_led};
use wasm_leb::{NoMemory, write_u32};
use wasm_write::{ItemOf, WriteFault, write_name, write_val_type, write_vec};

/// Types of values and of functions.
pub struct InTypes;

/// A field of a record, or a parameter.
impl<'a> ItemOf<InTypes> for (&'a str, ComponentValType) {
    ghost use Rattle.wasm_types.specs.ComponentTrees.{named_value_tree};

    ghost tree = { named_value_tree };

    fn write(&self, out: &mut Vec<u8>) -> Result<(), WriteFault> {
        match write_name(out, self.0) {
            Ok(()) => {}
            Err(fault) => return Err(fault),
        }
        match write_component_val_type(out, self.1) {
            Ok(()) => Ok(()),
            Err(NoMemory) => Err(WriteFault::NoMemory),
        }
    }
}

impl<'a> ItemOf<InTypes> for VariantCase<'a> {
    ghost use Rattle.wasm_types.specs.ComponentTrees.{variant_case_tree};

    ghost tree = { variant_case_tree };

    fn write(&self, out: &mut Vec<u8>) -> Result<(), WriteFault> {
        match write_name(out, self.name) {
            Ok(()) => {}
            Err(fault) => return Err(fault),
        }
        match write_maybe_value(out, self.ty) {
            Ok(()) => {}
            Err(NoMemory) => return Err(WriteFault::NoMemory),
        }
        match write_byte(out, 0x00) {
            Ok(()) => Ok(()),
            Err(NoMemory) => Err(WriteFault::NoMemory),
        }
    }
}

impl ItemOf<InTypes> for ComponentValType {
    ghost use Rattle.wasm_types.specs.ComponentTrees.{component_val_type_tree};

    ghost tree = { component_val_type_tree };

    fn write(&self, out: &mut Vec<u8>) -> Result<(), WriteFault> {
        match write_component_val_type(out, *self) {
            Ok(()) => Ok(()),
            Err(NoMemory) => Err(WriteFault::NoMemory),
        }
    }
}

/// A name of flags or of an enumeration.
impl<'a> ItemOf<InTypes> for &'a str {
    ghost use Rattle.wasm_types.specs.ComponentTrees.{label_tree};

    ghost tree = { label_tree };

    fn write(&self, out: &mut Vec<u8>) -> Result<(), WriteFault> {
        write_name(out, self)
    }
}

/// Appends a type of values that may be left out, or a part of it where memory runs out.
fn write_maybe_value(out: &mut Vec<u8>, ty: Option<ComponentValType>) -> Result<(), NoMemory>
    ensures ok { OnOk result (out.new.items ≡ out.old.items ++ normal (maybe_value_tree ty)) }
    ensures in_range { OnOk result (InRange (maybe_value_tree ty)) }
    ensures err { OnErr result (take (vec_len out.old) out.new.items ≡ out.old.items) }
{
    match ty {
        None => write_byte(out, 0x00),
        Some(ty) => match write_byte(out, 0x01) {
            Ok(()) => write_component_val_type(out, ty),
            Err(NoMemory) => Err(NoMemory),
        },
    }
}

/// Appends a type of values that may be left out behind a byte, or a part of that where memory runs out.
fn write_maybe_behind(
    out: &mut Vec<u8>,
    byte: u8,
    ty: Option<ComponentValType>,
) -> Result<(), NoMemory>
    ensures ok { OnOk result
        (out.new.items ≡ out.old.items ++ normal (led byte (maybe_value_tree ty))) }
    ensures in_range { OnOk result (InRange (maybe_value_tree ty)) }
    ensures err { OnErr result (take (vec_len out.old) out.new.items ≡ out.old.items) }
{
    match write_byte(out, byte) {
        Ok(()) => write_maybe_value(out, ty),
        Err(NoMemory) => Err(NoMemory),
    }
}

/// Appends a type of values behind a byte, or a part of that where memory runs out.
fn write_value_behind(out: &mut Vec<u8>, byte: u8, ty: ComponentValType) -> Result<(), NoMemory>
    ensures ok { OnOk result
        (out.new.items ≡ out.old.items ++ normal (led byte (component_val_type_tree ty))) }
    ensures in_range { OnOk result (InRange (component_val_type_tree ty)) }
    ensures err { OnErr result (take (vec_len out.old) out.new.items ≡ out.old.items) }
{
    match write_byte(out, byte) {
        Ok(()) => write_component_val_type(out, ty),
        Err(NoMemory) => Err(NoMemory),
    }
}

/// Appends the types of a result, each of which may be left out, or a part of them where memory runs out.
fn write_result_types(
    out: &mut Vec<u8>,
    ok: Option<ComponentValType>,
    err: Option<ComponentValType>,
) -> Result<(), NoMemory>
    ensures ok { OnOk result (out.new.items ≡ out.old.items
        ++ normal (led 0x6a (Tree.pair (maybe_value_tree ok) (maybe_value_tree err)))) }
    ensures in_range { OnOk result
        (InRange (Tree.pair (maybe_value_tree ok) (maybe_value_tree err))) }
    ensures err { OnErr result (take (vec_len out.old) out.new.items ≡ out.old.items) }
{
    match write_maybe_behind(out, 0x6a, ok) {
        Ok(()) => write_maybe_value(out, err),
        Err(NoMemory) => Err(NoMemory),
    }
}

/// Appends the types of keys and values, or a part of them where memory runs out.
fn write_map_types(
    out: &mut Vec<u8>,
    key: ComponentValType,
    value: ComponentValType,
) -> Result<(), NoMemory>
    ensures ok { OnOk result (out.new.items ≡ out.old.items
        ++ normal (led 0x63 (Tree.pair (component_val_type_tree key) (component_val_type_tree value)))) }
    ensures in_range { OnOk result
        (InRange (Tree.pair (component_val_type_tree key) (component_val_type_tree value))) }
    ensures err { OnErr result (take (vec_len out.old) out.new.items ≡ out.old.items) }
{
    match write_value_behind(out, 0x63, key) {
        Ok(()) => write_component_val_type(out, value),
        Err(NoMemory) => Err(NoMemory),
    }
}

/// Appends a list of fixed length, or a part of it where memory runs out.
fn write_fixed_length_list(
    out: &mut Vec<u8>,
    ty: ComponentValType,
    len: u32,
) -> Result<(), NoMemory>
    ensures ok { OnOk result (out.new.items ≡ out.old.items
        ++ normal (led 0x67 (Tree.pair (component_val_type_tree ty) (Tree.u32 len)))) }
    ensures in_range { OnOk result
        (InRange (Tree.pair (component_val_type_tree ty) (Tree.u32 len))) }
    ensures err { OnErr result (take (vec_len out.old) out.new.items ≡ out.old.items) }
{
    match write_value_behind(out, 0x67, ty) {
        Ok(()) => write_u32(out, len),
        Err(NoMemory) => Err(NoMemory),
    }
}

/// Appends items behind a byte and their number, or a part of that where it is refused.
fn write_vec_behind<T: ItemOf<InTypes>>(
    out: &mut Vec<u8>,
    byte: u8,
    items: &[T],
) -> Result<(), WriteFault>
    ensures ok { OnOk result (out.new.items
        ≡ out.old.items ++ normal (led byte (vector_tree (map T.tree items.now)))) }
    ensures in_range { OnOk result (InRange (vector_tree (map T.tree items.now))) }
    ensures err { OnErr result (take (vec_len out.old) out.new.items ≡ out.old.items) }
    ensures large { IfErr result (λ e. IfTooLarge e
        (IsTooLarge (counts (vector_tree (map T.tree items.now))))) }
{
    match write_byte(out, byte) {
        Ok(()) => write_vec::<InTypes, _>(out, items),
        Err(NoMemory) => Err(WriteFault::NoMemory),
    }
}

/// Appends a type of values that is defined, or a part of it where that is refused.
pub fn write_defined_type(
    out: &mut Vec<u8>,
    ty: &ComponentDefinedType<'_>,
) -> Result<(), WriteFault>
    ensures ok { OnOk result
        (out.new.items ≡ out.old.items ++ normal (component_defined_type_tree ty.now)) }
    ensures in_range { OnOk result (InRange (component_defined_type_tree ty.now)) }
    ensures err { OnErr result (take (vec_len out.old) out.new.items ≡ out.old.items) }
    ensures large { IfErr result (λ e. IfTooLarge e
        (IsTooLarge (counts (component_defined_type_tree ty.now)))) }
{
    match ty {
        ComponentDefinedType::Record(fields) => write_vec_behind(out, 0x72, fields.as_slice()),
        ComponentDefinedType::Variant(cases) => write_vec_behind(out, 0x71, cases.as_slice()),
        ComponentDefinedType::Tuple(types) => write_vec_behind(out, 0x6f, types.as_slice()),
        ComponentDefinedType::Flags(names) => write_vec_behind(out, 0x6e, names.as_slice()),
        ComponentDefinedType::Enum(names) => write_vec_behind(out, 0x6d, names.as_slice()),
        ComponentDefinedType::Primitive(ty) => match write_byte(out, byte_of(*ty)) {
            Ok(()) => Ok(()),
            Err(NoMemory) => Err(WriteFault::NoMemory),
        },
        ComponentDefinedType::List(ty) => match write_value_behind(out, 0x70, *ty) {
            Ok(()) => Ok(()),
            Err(NoMemory) => Err(WriteFault::NoMemory),
        },
        ComponentDefinedType::Option(ty) => match write_value_behind(out, 0x6b, *ty) {
            Ok(()) => Ok(()),
            Err(NoMemory) => Err(WriteFault::NoMemory),
        },
        ComponentDefinedType::Result { ok, err } => match write_result_types(out, *ok, *err) {
            Ok(()) => Ok(()),
            Err(NoMemory) => Err(WriteFault::NoMemory),
        },
        ComponentDefinedType::Own(index) => match write_led(out, &[0x69], *index) {
            Ok(()) => Ok(()),
            Err(NoMemory) => Err(WriteFault::NoMemory),
        },
        ComponentDefinedType::Borrow(index) => match write_led(out, &[0x68], *index) {
            Ok(()) => Ok(()),
            Err(NoMemory) => Err(WriteFault::NoMemory),
        },
        ComponentDefinedType::FixedLengthList(ty, len) => match write_fixed_length_list(
            out, *ty, *len,
        ) {
            Ok(()) => Ok(()),
            Err(NoMemory) => Err(WriteFault::NoMemory),
        },
        ComponentDefinedType::Stream(ty) => match write_maybe_behind(out, 0x66, *ty) {
            Ok(()) => Ok(()),
            Err(NoMemory) => Err(WriteFault::NoMemory),
        },
        ComponentDefinedType::Future(ty) => match write_maybe_behind(out, 0x65, *ty) {
            Ok(()) => Ok(()),
            Err(NoMemory) => Err(WriteFault::NoMemory),
        },
        ComponentDefinedType::Map(key, value) => match write_map_types(out, *key, *value) {
            Ok(()) => Ok(()),
            Err(NoMemory) => Err(WriteFault::NoMemory),
        },
    }
}

/// Appends a function type, or a part of it where that is refused.
pub fn write_component_func_type(
    out: &mut Vec<u8>,
    ty: &ComponentFuncType<'_>,
) -> Result<(), WriteFault>
    ensures ok { OnOk result
        (out.new.items ≡ out.old.items ++ normal (component_func_type_tree ty.now)) }
    ensures in_range { OnOk result (InRange (component_func_type_tree ty.now)) }
    ensures err { OnErr result (take (vec_len out.old) out.new.items ≡ out.old.items) }
    ensures large { IfErr result (λ e. IfTooLarge e
        (IsTooLarge (counts (component_func_type_tree ty.now)))) }
{
    if ty.async_ {
        return write_signature(out, 0x43, ty);
    }
    write_signature(out, 0x40, ty)
}

/// Appends the parameters and the result of a function behind a byte, or a part of that where it is refused.
fn write_signature(
    out: &mut Vec<u8>,
    byte: u8,
    ty: &ComponentFuncType<'_>,
) -> Result<(), WriteFault>
    ensures ok { OnOk result
        (out.new.items ≡ out.old.items ++ normal (led byte (component_signature_tree ty.now))) }
    ensures in_range { OnOk result (InRange (component_signature_tree ty.now)) }
    ensures err { OnErr result (take (vec_len out.old) out.new.items ≡ out.old.items) }
    ensures large { IfErr result (λ e. IfTooLarge e
        (IsTooLarge (counts (component_signature_tree ty.now)))) }
{
    match write_vec_behind(out, byte, ty.params.as_slice()) {
        Ok(()) => {}
        Err(fault) => return Err(fault),
    }
    match write_result(out, ty.result) {
        Ok(()) => Ok(()),
        Err(NoMemory) => Err(WriteFault::NoMemory),
    }
}

/// Appends the function that is called with a resource, which may be left out, or a part of it where memory runs out.
fn write_destructor(out: &mut Vec<u8>, dtor: Option<u32>) -> Result<(), NoMemory>
    ensures ok { OnOk result (out.new.items ≡ out.old.items ++ normal (maybe_function dtor)) }
    ensures in_range { OnOk result (InRange (maybe_function dtor)) }
    ensures err { OnErr result (take (vec_len out.old) out.new.items ≡ out.old.items) }
{
    match dtor {
        None => write_byte(out, 0x00),
        Some(index) => write_led(out, &[0x01], index),
    }
}

/// Appends a resource, or a part of it where memory runs out.
pub fn write_resource(out: &mut Vec<u8>, rep: ValType, dtor: Option<u32>) -> Result<(), NoMemory>
    ensures ok { OnOk result
        (out.new.items ≡ out.old.items ++ normal (resource_tree (val_type_tree rep) dtor)) }
    ensures in_range { OnOk result (InRange (resource_tree (val_type_tree rep) dtor)) }
    ensures err { OnErr result (take (vec_len out.old) out.new.items ≡ out.old.items) }
{
    match write_byte(out, 0x3f) {
        Ok(()) => {}
        Err(NoMemory) => return Err(NoMemory),
    }
    match write_val_type(out, rep) {
        Ok(()) => write_destructor(out, dtor),
        Err(NoMemory) => Err(NoMemory),
    }
}
