//! Canonical functions in their normal spelling.
ghost use Rattle.std.specs.Prelude.{◌≡◌, ◌++◌, take, vec_len, OnOk, OnErr, IfErr};
ghost use Rattle.wasm_shapes.specs.Tree.{normal};
ghost use Rattle.wasm_shapes.specs.Fits.{InRange};
ghost use Rattle.wasm_types.specs.ComponentTrees.{async_tree, canonical_options_tree, result_tree};
ghost use Rattle.wasm_write.specs.Counts.{counts, IsTooLarge};
ghost use Rattle.wasm_write.specs.Faults.{IfTooLarge};
ghost use Rattle.wasm_write_component.specs.ComponentRows.{borrowed_tree, lift_tree};
ghost use Rattle.wasm_write.specs.Types.{val_type_tree};
ghost use Rattle.wasm_leb.specs.Leb.{leb};

use crate::items::InOptions;
use crate::sections::Of;
use crate::types::{CanonicalFunction, CanonicalOption, ComponentValType, Operands, ValType};
use crate::value_types::{write_byte, write_component_val_type, write_led};
use wasm_leb::{List, NoMemory, write_u32};
use wasm_shapes::component_kinds;
use wasm_write::{RowOf, WriteFault, write_val_type, write_vec};

/// Appends options behind their number, or a part of that where it is refused.
fn write_options(out: &mut Vec<u8>, options: &List<CanonicalOption>) -> Result<(), WriteFault>
    ensures ok { OnOk result
        (out.new.items ≡ out.old.items ++ normal (canonical_options_tree options.now)) }
    ensures in_range { OnOk result (InRange (canonical_options_tree options.now)) }
    ensures err { OnErr result (take (vec_len out.old) out.new.items ≡ out.old.items) }
    ensures large { IfErr result (λ e. IfTooLarge e
        (IsTooLarge (counts (canonical_options_tree options.now)))) }
{
    write_vec::<InOptions, _>(out, options.as_slice())
}

/// Appends whether a function is asynchronous, or nothing.
fn write_async(out: &mut Vec<u8>, async_: bool) -> Result<(), NoMemory>
    ensures ok { OnOk result (out.new.items ≡ out.old.items ++ normal (async_tree async_)) }
    ensures in_range { OnOk result (InRange (async_tree async_)) }
    ensures err { OnErr result (take (vec_len out.old) out.new.items ≡ out.old.items) }
{
    if async_ {
        return write_byte(out, 0x01);
    }
    write_byte(out, 0x00)
}

/// Appends the type of one result, or that there is none, or a part of it where memory runs out.
pub fn write_result(out: &mut Vec<u8>, ty: Option<ComponentValType>) -> Result<(), NoMemory>
    ensures ok { OnOk result (out.new.items ≡ out.old.items ++ normal (result_tree ty)) }
    ensures in_range { OnOk result (InRange (result_tree ty)) }
    ensures err { OnErr result (take (vec_len out.old) out.new.items ≡ out.old.items) }
{
    match ty {
        Some(ty) => match write_byte(out, 0x00) {
            Ok(()) => write_component_val_type(out, ty),
            Err(NoMemory) => Err(NoMemory),
        },
        None => match write_byte(out, 0x01) {
            Ok(()) => write_byte(out, 0x00),
            Err(NoMemory) => Err(NoMemory),
        },
    }
}

/// Appends two indices, or a part of them where memory runs out.
fn write_indices(out: &mut Vec<u8>, first: u32, second: u32) -> Result<(), NoMemory>
    ensures ok { OnOk result (out.new.items ≡ out.old.items ++ (leb first ++ leb second)) }
    ensures err { OnErr result (take (vec_len out.old) out.new.items ≡ out.old.items) }
{
    match write_u32(out, first) {
        Ok(()) => write_u32(out, second),
        Err(NoMemory) => Err(NoMemory),
    }
}

/// Appends a type of a core module and a slot, or a part of them where memory runs out.
fn write_slot(out: &mut Vec<u8>, ty: ValType, slot: u32) -> Result<(), NoMemory>
    ensures ok { OnOk result
        (out.new.items ≡ out.old.items ++ (normal (val_type_tree ty) ++ leb slot)) }
    ensures in_range { OnOk result (InRange (val_type_tree ty)) }
    ensures err { OnErr result (take (vec_len out.old) out.new.items ≡ out.old.items) }
{
    match write_val_type(out, ty) {
        Ok(()) => write_u32(out, slot),
        Err(NoMemory) => Err(NoMemory),
    }
}

/// Appends what stands behind the byte of a canonical function, or a part of it where that is refused.
fn write_operands(out: &mut Vec<u8>, operands: Operands<'_>) -> Result<(), WriteFault>
    ensures ok { OnOk result (out.new.items ≡ out.old.items ++ normal (borrowed_tree operands.entry)) }
    ensures in_range { OnOk result (InRange (borrowed_tree operands.entry)) }
    ensures err { OnErr result (take (vec_len out.old) out.new.items ≡ out.old.items) }
    ensures large { IfErr result (λ e. IfTooLarge e (IsTooLarge (counts (borrowed_tree operands.entry)))) }
{
    match operands {
        Operands::Nothing => Ok(()),
        Operands::Lift { func, options, ty } => write_lift(out, func, options, ty),
        Operands::Lower { func, options } => match write_led(out, &[0x00], func) {
            Ok(()) => write_options(out, options),
            Err(NoMemory) => Err(WriteFault::NoMemory),
        },
        Operands::Type_ { ty } => match write_u32(out, ty) {
            Ok(()) => Ok(()),
            Err(NoMemory) => Err(WriteFault::NoMemory),
        },
        Operands::TypeAndOptions { ty, options } => match write_u32(out, ty) {
            Ok(()) => write_options(out, options),
            Err(NoMemory) => Err(WriteFault::NoMemory),
        },
        Operands::TypeAndAsync { ty, async_ } => match write_u32(out, ty) {
            Ok(()) => match write_async(out, async_) {
                Ok(()) => Ok(()),
                Err(NoMemory) => Err(WriteFault::NoMemory),
            },
            Err(NoMemory) => Err(WriteFault::NoMemory),
        },
        Operands::Async { async_ } => match write_async(out, async_) {
            Ok(()) => Ok(()),
            Err(NoMemory) => Err(WriteFault::NoMemory),
        },
        Operands::ResultAndOptions { result, options } => match write_result(out, result) {
            Ok(()) => write_options(out, options),
            Err(NoMemory) => Err(WriteFault::NoMemory),
        },
        Operands::Slot { ty, slot } => match write_slot(out, ty, slot) {
            Ok(()) => Ok(()),
            Err(NoMemory) => Err(WriteFault::NoMemory),
        },
        Operands::Options { options } => write_options(out, options),
        Operands::CoreType { ty } => match write_u32(out, ty) {
            Ok(()) => Ok(()),
            Err(NoMemory) => Err(WriteFault::NoMemory),
        },
        Operands::CoreTypeAndTable { ty, table } => match write_indices(out, ty, table) {
            Ok(()) => Ok(()),
            Err(NoMemory) => Err(WriteFault::NoMemory),
        },
    }
}

/// Appends what stands behind the byte of a lifted function, or a part of it where that is refused.
fn write_lift(
    out: &mut Vec<u8>,
    func: u32,
    options: &List<CanonicalOption>,
    ty: u32,
) -> Result<(), WriteFault>
    ensures ok { OnOk result
        (out.new.items ≡ out.old.items ++ normal (lift_tree func options.now ty)) }
    ensures in_range { OnOk result (InRange (lift_tree func options.now ty)) }
    ensures err { OnErr result (take (vec_len out.old) out.new.items ≡ out.old.items) }
    ensures large { IfErr result (λ e. IfTooLarge e
        (IsTooLarge (counts (lift_tree func options.now ty)))) }
{
    match write_led(out, &[0x00], func) {
        Ok(()) => {}
        Err(NoMemory) => return Err(WriteFault::NoMemory),
    }
    match write_options(out, options) {
        Ok(()) => {}
        Err(fault) => return Err(fault),
    }
    match write_u32(out, ty) {
        Ok(()) => Ok(()),
        Err(NoMemory) => Err(WriteFault::NoMemory),
    }
}

impl RowOf<Of<component_kinds::CanonicalFunctions>> for CanonicalFunction {
    ghost use Rattle.wasm_write_component.specs.ComponentRows.{canonical_tree};

    ghost tree = { canonical_tree };

    #[tactic(auto, using(crate::proofs::ComponentCanonical::canonical_spelled))]
    fn write(&self, out: &mut Vec<u8>) -> Result<(), WriteFault> {
        let (byte, operands) = self.parts();
        match write_byte(out, byte) {
            Ok(()) => write_operands(out, operands),
            Err(NoMemory) => Err(WriteFault::NoMemory),
        }
    }
}
