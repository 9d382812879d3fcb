//! Canonical functions at the front of some bytes.
ghost use Rattle.std.specs.Prelude.{◌≡◌, IfOk, IfSome, IfNone};
ghost use Rattle.wasm_shapes.specs.declared.canonical.CanonicalForm.TheVariants as form;
ghost use Rattle.wasm_shapes.specs.Place.{Begins, BeginsNone};
ghost use Rattle.wasm_shapes.specs.Component.{asynchronous, canonical_function, canonical_option, canonical_options, operands};
ghost use Rattle.wasm_types.specs.ComponentTrees.{async_tree, canonical_option_tree, canonical_options_tree, operands_form};
ghost use Rattle.wasm_read_component.specs.ComponentRows.{canonical_tree, operands_tree};

use crate::items::CanonicalOptions;
use crate::types::{CanonicalFunction, CanonicalOption, Operands};
use crate::value_types::front_result;
use std::alloc::Global;
use wasm_leb::{List, NoMemory, front_byte, front_u32};
use wasm_read::{front_rows, front_val_type};
use wasm_shapes::{CanonicalForm, canonical_form};

/// The option at the front of some bytes, and the bytes behind it.
pub fn front_canonical_option(bytes: &[u8]) -> Option<(CanonicalOption, &[u8])>
    ensures some { IfSome result (λ r.
        Begins canonical_option bytes.now (canonical_option_tree r.0) r.1.now) }
    ensures none { IfNone result (BeginsNone canonical_option bytes.now) }
{
    let Some((first, rest)) = front_byte(bytes) else {
        return None;
    };
    match first {
        0x00 => Some((CanonicalOption::UTF8, rest)),
        0x01 => Some((CanonicalOption::UTF16, rest)),
        0x02 => Some((CanonicalOption::CompactUTF16, rest)),
        0x03 => match front_u32(rest) {
            Some((index, rest)) => Some((CanonicalOption::Memory(index), rest)),
            None => None,
        },
        0x04 => match front_u32(rest) {
            Some((index, rest)) => Some((CanonicalOption::Realloc(index), rest)),
            None => None,
        },
        0x05 => match front_u32(rest) {
            Some((index, rest)) => Some((CanonicalOption::PostReturn(index), rest)),
            None => None,
        },
        0x06 => Some((CanonicalOption::Async, rest)),
        0x07 => match front_u32(rest) {
            Some((index, rest)) => Some((CanonicalOption::Callback(index), rest)),
            None => None,
        },
        0x08 => match front_u32(rest) {
            Some((index, rest)) => Some((CanonicalOption::CoreType(index), rest)),
            None => None,
        },
        0x09 => Some((CanonicalOption::Gc, rest)),
        _ => None,
    }
}

/// Options behind their number at the front of some bytes, and the bytes behind them.
fn front_options<'a>(
    alloc: Global,
    bytes: &'a [u8],
) -> Result<Option<(List<CanonicalOption>, &'a [u8])>, NoMemory>
    ensures some { IfOk result (λ o. IfSome o (λ r.
        Begins canonical_options bytes.now (canonical_options_tree r.0) r.1.now)) }
    ensures none { IfOk result (λ o. IfNone o (BeginsNone canonical_options bytes.now)) }
{
    front_rows::<CanonicalOptions>(alloc, bytes)
}

/// Whether a function is asynchronous, at the front of some bytes, and the bytes behind it.
fn front_async(bytes: &[u8]) -> Option<(bool, &[u8])>
    ensures some { IfSome result (λ r. Begins asynchronous bytes.now (async_tree r.0) r.1.now) }
    ensures none { IfNone result (BeginsNone asynchronous bytes.now) }
{
    let Some((first, rest)) = front_byte(bytes) else {
        return None;
    };
    match first {
        0x00 => Some((false, rest)),
        0x01 => Some((true, rest)),
        _ => None,
    }
}

/// What stands behind the byte of a canonical function, at the front of some bytes, and the bytes behind it.
fn front_operands<'a>(
    alloc: Global,
    form: CanonicalForm,
    bytes: &'a [u8],
) -> Result<Option<(Operands, &'a [u8])>, NoMemory>
    ensures some { IfOk result (λ o. IfSome o (λ r.
        Begins (operands form) bytes.now (operands_tree r.0) r.1.now)) }
    ensures form { IfOk result (λ o. IfSome o (λ r. operands_form r.0 ≡ form)) }
    ensures none { IfOk result (λ o. IfNone o (BeginsNone (operands form) bytes.now)) }
{
    match form {
        CanonicalForm::Nothing => Ok(Some((Operands::Nothing, bytes))),
        CanonicalForm::Lift => front_lift(alloc, bytes),
        CanonicalForm::Lower => front_lower(alloc, bytes),
        CanonicalForm::Type_ => match front_u32(bytes) {
            Some((ty, rest)) => Ok(Some((Operands::Type_ { ty }, rest))),
            None => Ok(None),
        },
        CanonicalForm::TypeAndOptions => {
            let Some((ty, rest)) = front_u32(bytes) else {
                return Ok(None);
            };
            match front_options(alloc, rest) {
                Ok(Some((options, rest))) => {
                    Ok(Some((Operands::TypeAndOptions { ty, options }, rest)))
                }
                Ok(None) => Ok(None),
                Err(NoMemory) => Err(NoMemory),
            }
        }
        CanonicalForm::TypeAndAsync => {
            let Some((ty, rest)) = front_u32(bytes) else {
                return Ok(None);
            };
            match front_async(rest) {
                Some((async_, rest)) => Ok(Some((Operands::TypeAndAsync { ty, async_ }, rest))),
                None => Ok(None),
            }
        }
        CanonicalForm::Async => match front_async(bytes) {
            Some((async_, rest)) => Ok(Some((Operands::Async { async_ }, rest))),
            None => Ok(None),
        },
        CanonicalForm::ResultAndOptions => {
            let Some((result, rest)) = front_result(bytes) else {
                return Ok(None);
            };
            match front_options(alloc, rest) {
                Ok(Some((options, rest))) => {
                    Ok(Some((Operands::ResultAndOptions { result, options }, rest)))
                }
                Ok(None) => Ok(None),
                Err(NoMemory) => Err(NoMemory),
            }
        }
        CanonicalForm::Slot => {
            let Some((ty, rest)) = front_val_type(bytes) else {
                return Ok(None);
            };
            match front_u32(rest) {
                Some((slot, rest)) => Ok(Some((Operands::Slot { ty, slot }, rest))),
                None => Ok(None),
            }
        }
        CanonicalForm::Options => match front_options(alloc, bytes) {
            Ok(Some((options, rest))) => Ok(Some((Operands::Options { options }, rest))),
            Ok(None) => Ok(None),
            Err(NoMemory) => Err(NoMemory),
        },
        CanonicalForm::CoreType => match front_u32(bytes) {
            Some((ty, rest)) => Ok(Some((Operands::CoreType { ty }, rest))),
            None => Ok(None),
        },
        CanonicalForm::CoreTypeAndTable => {
            let Some((ty, rest)) = front_u32(bytes) else {
                return Ok(None);
            };
            match front_u32(rest) {
                Some((table, rest)) => Ok(Some((Operands::CoreTypeAndTable { ty, table }, rest))),
                None => Ok(None),
            }
        }
    }
}

/// What stands behind the byte of a lifted function, at the front of some bytes, and the bytes behind it.
fn front_lift<'a>(alloc: Global, bytes: &'a [u8]) -> Result<Option<(Operands, &'a [u8])>, NoMemory>
    ensures some { IfOk result (λ o. IfSome o (λ r.
        Begins (operands form.Lift) bytes.now (operands_tree r.0) r.1.now)) }
    ensures form { IfOk result (λ o. IfSome o (λ r. operands_form r.0 ≡ form.Lift)) }
    ensures none { IfOk result (λ o. IfNone o (BeginsNone (operands form.Lift) bytes.now)) }
{
    let Some((second, rest)) = front_byte(bytes) else {
        return Ok(None);
    };
    if second != 0x00 {
        return Ok(None);
    }
    let Some((func, rest)) = front_u32(rest) else {
        return Ok(None);
    };
    match front_options(alloc, rest) {
        Ok(Some((options, rest))) => match front_u32(rest) {
            Some((ty, rest)) => Ok(Some((Operands::Lift { func, options, ty }, rest))),
            None => Ok(None),
        },
        Ok(None) => Ok(None),
        Err(NoMemory) => Err(NoMemory),
    }
}

/// What stands behind the byte of a lowered function, at the front of some bytes, and the bytes behind it.
fn front_lower<'a>(alloc: Global, bytes: &'a [u8]) -> Result<Option<(Operands, &'a [u8])>, NoMemory>
    ensures some { IfOk result (λ o. IfSome o (λ r.
        Begins (operands form.Lower) bytes.now (operands_tree r.0) r.1.now)) }
    ensures form { IfOk result (λ o. IfSome o (λ r. operands_form r.0 ≡ form.Lower)) }
    ensures none { IfOk result (λ o. IfNone o (BeginsNone (operands form.Lower) bytes.now)) }
{
    let Some((second, rest)) = front_byte(bytes) else {
        return Ok(None);
    };
    if second != 0x00 {
        return Ok(None);
    }
    let Some((func, rest)) = front_u32(rest) else {
        return Ok(None);
    };
    match front_options(alloc, rest) {
        Ok(Some((options, rest))) => Ok(Some((Operands::Lower { func, options }, rest))),
        Ok(None) => Ok(None),
        Err(NoMemory) => Err(NoMemory),
    }
}

/// The canonical function at the front of some bytes, and the bytes behind it.
pub fn front_canonical<'a>(
    alloc: Global,
    bytes: &'a [u8],
) -> Result<Option<(CanonicalFunction, &'a [u8])>, NoMemory>
    ensures some { IfOk result (λ o. IfSome o (λ r.
        Begins canonical_function bytes.now (canonical_tree r.0) r.1.now)) }
    ensures none { IfOk result (λ o. IfNone o (BeginsNone canonical_function bytes.now)) }
{
    let Some((byte, rest)) = front_byte(bytes) else {
        return Ok(None);
    };
    let Some(form) = canonical_form(byte) else {
        return Ok(None);
    };
    match front_operands(alloc, form, rest) {
        Ok(Some((operands, rest))) => match CanonicalFunction::of_parts(byte, operands) {
            Some(function) => Ok(Some((function, rest))),
            None => Ok(None),
        },
        Ok(None) => Ok(None),
        Err(NoMemory) => Err(NoMemory),
    }
}
