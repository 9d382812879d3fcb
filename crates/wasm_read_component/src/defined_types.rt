//! Types of values that are defined, and types of functions and resources, at the front of some bytes.
ghost use Rattle.std.specs.Prelude.{◌≡◌, IfOk, IfSome, IfNone};
ghost use Rattle.wasm_shapes.specs.Place.{Begins, BeginsNone};
ghost use Rattle.wasm_shapes.specs.Component.{defined_type, function_type, named_value, variant_case};
ghost use Rattle.wasm_types.specs.ComponentTrees.{component_defined_type_tree, component_signature_tree, named_value_tree, resource_parts, variant_case_tree};
ghost use Rattle.wasm_read.specs.Types.{val_type_tree};
ghost use Rattle.wasm_read_component.specs.TypeRows.{resource};

use crate::optional::front_optional;
use crate::types::{ComponentDefinedType, ComponentFuncType, ComponentValType, VariantCase};
use crate::value_items::{Labels, NamedValues, ValueTypes, VariantCases};
use crate::value_types::{front_component_val_type, front_result, primitive_of};
use std::alloc::Global;
use wasm_leb::{NoMemory, front_byte, front_u32};
use wasm_read::{ValType, front_name, front_rows, front_val_type};

/// A name and a type at the front of some bytes, and the bytes behind them.
pub fn front_named_value(bytes: &[u8]) -> Option<((&str, ComponentValType), &[u8])>
    ensures some { IfSome result (λ r.
        Begins named_value bytes.now (named_value_tree r.0) r.1.now) }
    ensures none { IfNone result (BeginsNone named_value bytes.now) }
{
    let Some((name, rest)) = front_name(bytes) else {
        return None;
    };
    match front_component_val_type(rest) {
        Some((ty, rest)) => Some(((name, ty), rest)),
        None => None,
    }
}

/// The case of a variant at the front of some bytes, and the bytes behind it.
pub fn front_variant_case(bytes: &[u8]) -> Option<(VariantCase<'_>, &[u8])>
    ensures some { IfSome result (λ r.
        Begins variant_case bytes.now (variant_case_tree r.0) r.1.now) }
    ensures none { IfNone result (BeginsNone variant_case bytes.now) }
{
    let Some((name, rest)) = front_name(bytes) else {
        return None;
    };
    let Some((ty, rest)) = front_optional::<ComponentValType>(rest) else {
        return None;
    };
    let Some((last, rest)) = front_byte(rest) else {
        return None;
    };
    if last != 0x00 {
        return None;
    }
    Some((VariantCase { name, ty }, rest))
}

/// The type of values that is defined at the front of some bytes, and the bytes behind it.
pub fn front_defined_type<'a>(
    alloc: Global,
    bytes: &'a [u8],
) -> Result<Option<(ComponentDefinedType<'a>, &'a [u8])>, NoMemory>
    ensures some { IfOk result (λ o. IfSome o (λ r.
        Begins defined_type bytes.now (component_defined_type_tree r.0) r.1.now)) }
    ensures none { IfOk result (λ o. IfNone o (BeginsNone defined_type bytes.now)) }
{
    let Some((first, rest)) = front_byte(bytes) else {
        return Ok(None);
    };
    match first {
        0x72 => match front_rows::<NamedValues>(alloc, rest) {
            Ok(Some((fields, rest))) => Ok(Some((ComponentDefinedType::Record(fields), rest))),
            Ok(None) => Ok(None),
            Err(NoMemory) => Err(NoMemory),
        },
        0x71 => match front_rows::<VariantCases>(alloc, rest) {
            Ok(Some((cases, rest))) => Ok(Some((ComponentDefinedType::Variant(cases), rest))),
            Ok(None) => Ok(None),
            Err(NoMemory) => Err(NoMemory),
        },
        0x70 => match front_component_val_type(rest) {
            Some((ty, rest)) => Ok(Some((ComponentDefinedType::List(ty), rest))),
            None => Ok(None),
        },
        0x6f => match front_rows::<ValueTypes>(alloc, rest) {
            Ok(Some((types, rest))) => Ok(Some((ComponentDefinedType::Tuple(types), rest))),
            Ok(None) => Ok(None),
            Err(NoMemory) => Err(NoMemory),
        },
        0x6e => match front_rows::<Labels>(alloc, rest) {
            Ok(Some((names, rest))) => Ok(Some((ComponentDefinedType::Flags(names), rest))),
            Ok(None) => Ok(None),
            Err(NoMemory) => Err(NoMemory),
        },
        0x6d => match front_rows::<Labels>(alloc, rest) {
            Ok(Some((names, rest))) => Ok(Some((ComponentDefinedType::Enum(names), rest))),
            Ok(None) => Ok(None),
            Err(NoMemory) => Err(NoMemory),
        },
        0x6b => match front_component_val_type(rest) {
            Some((ty, rest)) => Ok(Some((ComponentDefinedType::Option(ty), rest))),
            None => Ok(None),
        },
        0x6a => {
            let Some((ok, rest)) = front_optional::<ComponentValType>(rest) else {
                return Ok(None);
            };
            match front_optional::<ComponentValType>(rest) {
                Some((err, rest)) => Ok(Some((ComponentDefinedType::Result { ok, err }, rest))),
                None => Ok(None),
            }
        }
        0x69 => match front_u32(rest) {
            Some((index, rest)) => Ok(Some((ComponentDefinedType::Own(index), rest))),
            None => Ok(None),
        },
        0x68 => match front_u32(rest) {
            Some((index, rest)) => Ok(Some((ComponentDefinedType::Borrow(index), rest))),
            None => Ok(None),
        },
        0x67 => {
            let Some((ty, rest)) = front_component_val_type(rest) else {
                return Ok(None);
            };
            match front_u32(rest) {
                Some((len, rest)) => {
                    Ok(Some((ComponentDefinedType::FixedLengthList(ty, len), rest)))
                }
                None => Ok(None),
            }
        }
        0x66 => match front_optional::<ComponentValType>(rest) {
            Some((ty, rest)) => Ok(Some((ComponentDefinedType::Stream(ty), rest))),
            None => Ok(None),
        },
        0x65 => match front_optional::<ComponentValType>(rest) {
            Some((ty, rest)) => Ok(Some((ComponentDefinedType::Future(ty), rest))),
            None => Ok(None),
        },
        0x63 => {
            let Some((key, rest)) = front_component_val_type(rest) else {
                return Ok(None);
            };
            match front_component_val_type(rest) {
                Some((value, rest)) => Ok(Some((ComponentDefinedType::Map(key, value), rest))),
                None => Ok(None),
            }
        }
        _ => match primitive_of(first) {
            Some(ty) => Ok(Some((ComponentDefinedType::Primitive(ty), rest))),
            None => Ok(None),
        },
    }
}

/// The type of a function at the front of some bytes, behind the byte that says whether it is asynchronous, and the bytes
/// behind it.
pub fn front_func_type<'a>(
    alloc: Global,
    bytes: &'a [u8],
    async_: bool,
) -> Result<Option<(ComponentFuncType<'a>, &'a [u8])>, NoMemory>
    ensures some { IfOk result (λ o. IfSome o (λ r.
        Begins function_type bytes.now (component_signature_tree r.0) r.1.now)) }
    ensures kind { IfOk result (λ o. IfSome o (λ r. r.0.async_ ≡ async_)) }
    ensures none { IfOk result (λ o. IfNone o (BeginsNone function_type bytes.now)) }
{
    let (params, rest) = match front_rows::<NamedValues>(alloc, bytes) {
        Ok(Some((params, rest))) => (params, rest),
        Ok(None) => return Ok(None),
        Err(NoMemory) => return Err(NoMemory),
    };
    match front_result(rest) {
        Some((result, rest)) => Ok(Some((
            ComponentFuncType {
                async_,
                params,
                result,
            },
            rest,
        ))),
        None => Ok(None),
    }
}

/// The type of a resource at the front of some bytes, behind its byte: what stands for it, and the function that is called
/// where it is dropped; and the bytes behind it.
pub fn front_resource(bytes: &[u8]) -> Option<(ValType, Option<u32>, &[u8])>
    ensures some { IfSome result (λ r.
        Begins resource bytes.now (resource_parts (val_type_tree r.0) r.1) r.2.now) }
    ensures none { IfNone result (BeginsNone resource bytes.now) }
{
    let Some((rep, rest)) = front_val_type(bytes) else {
        return None;
    };
    match front_optional::<u32>(rest) {
        Some((dtor, rest)) => Some((rep, dtor, rest)),
        None => None,
    }
}
