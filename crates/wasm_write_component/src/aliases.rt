//! Aliases in their normal spelling.
ghost use Rattle.std.specs.Prelude.{◌≡◌, ◌++◌, ◌<◌, ◌-◌, ◌^◌, length, take, vec_len, OnOk, OnErr, IfErr};
ghost use Rattle.wasm_leb.specs.Leb.{leb};
ghost use Rattle.wasm_shapes.specs.Tree.{Tree, normal};
ghost use Rattle.wasm_shapes.specs.Fits.{InRange};
ghost use Rattle.wasm_write.specs.Faults.{IfTooLarge};
ghost use Rattle.wasm_write_component.specs.Aliases.{export_front, core_export_front, outer_front};

use crate::sections::Of;
use crate::types::{Alias, ComponentExportKind, ComponentOuterAliasKind};
use wasm_leb::{NoMemory, write_u32};
use wasm_shapes::component_kinds;
use wasm_write::{ExportKind, RowOf, WriteFault, write_name};

/// What stands in front of the instance of an export of this sort.
fn front_of_export(kind: ComponentExportKind) -> &'static [u8]
    ensures { result.now ≡ export_front kind }
{
    match kind {
        ComponentExportKind::Module => &[0x00, 0x11, 0x00],
        ComponentExportKind::Func => &[0x01, 0x00],
        ComponentExportKind::Value => &[0x02, 0x00],
        ComponentExportKind::Type_ => &[0x03, 0x00],
        ComponentExportKind::Instance => &[0x05, 0x00],
        ComponentExportKind::Component => &[0x04, 0x00],
    }
}

/// The same of an export of a core instance.
fn front_of_core_export(kind: ExportKind) -> &'static [u8]
    ensures { result.now ≡ core_export_front kind }
{
    match kind {
        ExportKind::Func => &[0x00, 0x00, 0x01],
        ExportKind::Table => &[0x00, 0x01, 0x01],
        ExportKind::Memory => &[0x00, 0x02, 0x01],
        ExportKind::Global => &[0x00, 0x03, 0x01],
        ExportKind::Tag => &[0x00, 0x04, 0x01],
    }
}

/// What stands in front of the count of scopes of an alias of this sort.
fn front_of_outer(kind: ComponentOuterAliasKind) -> &'static [u8]
    ensures { result.now ≡ outer_front kind }
{
    match kind {
        ComponentOuterAliasKind::CoreModule => &[0x00, 0x11, 0x02],
        ComponentOuterAliasKind::CoreType => &[0x00, 0x10, 0x02],
        ComponentOuterAliasKind::Type_ => &[0x03, 0x02],
        ComponentOuterAliasKind::Component => &[0x04, 0x02],
    }
}

/// Appends an instance and a name behind some bytes, or a part of that where it is refused.
fn write_export(
    out: &mut Vec<u8>,
    front: &[u8],
    instance: u32,
    name: &str,
) -> Result<(), WriteFault>
    ensures ok { OnOk result (out.new.items
        ≡ out.old.items ++ (front.now ++ (leb instance ++ normal (Tree.name name.now)))) }
    ensures in_range { OnOk result (InRange (Tree.name name.now)) }
    ensures err { OnErr result (take (vec_len out.old) out.new.items ≡ out.old.items) }
    ensures large { IfErr result (λ e. IfTooLarge e
        (λ size. (size ≡ length name.now) × (2 ^ 32 - 1 < size))) }
{
    match out.extend_from_slice(front) {
        Ok(()) => {}
        Err(_) => return Err(WriteFault::NoMemory),
    }
    match write_u32(out, instance) {
        Ok(()) => {}
        Err(NoMemory) => return Err(WriteFault::NoMemory),
    }
    write_name(out, name)
}

/// Appends two numbers behind some bytes, or a part of that where memory runs out.
pub fn write_outer(out: &mut Vec<u8>, front: &[u8], count: u32, index: u32) -> Result<(), NoMemory>
    ensures ok { OnOk result (out.new.items
        ≡ out.old.items ++ (front.now ++ (leb count ++ leb index))) }
    ensures err { OnErr result (take (vec_len out.old) out.new.items ≡ out.old.items) }
{
    match out.extend_from_slice(front) {
        Ok(()) => {}
        Err(_) => return Err(NoMemory),
    }
    match write_u32(out, count) {
        Ok(()) => {}
        Err(NoMemory) => return Err(NoMemory),
    }
    write_u32(out, index)
}

impl<'a> RowOf<Of<component_kinds::Aliases>> for Alias<'a> {
    ghost use Rattle.wasm_write_component.specs.Aliases.{alias_tree};

    ghost tree = { alias_tree };

    #[tactic(auto, using(crate::proofs::AliasRows::export_spelled, crate::proofs::AliasRows::core_export_spelled, crate::proofs::AliasRows::outer_spelled))]
    fn write(&self, out: &mut Vec<u8>) -> Result<(), WriteFault> {
        match *self {
            Alias::InstanceExport {
                kind,
                instance_index,
                name,
            } => match write_export(out, front_of_export(kind), instance_index, name) {
                Ok(()) => Ok(()),
                Err(fault) => Err(fault),
            },
            Alias::CoreInstanceExport {
                kind,
                instance_index,
                name,
            } => match write_export(out, front_of_core_export(kind), instance_index, name) {
                Ok(()) => Ok(()),
                Err(fault) => Err(fault),
            },
            Alias::Outer { kind, count, index } => {
                match write_outer(out, front_of_outer(kind), count, index) {
                    Ok(()) => Ok(()),
                    Err(NoMemory) => Err(WriteFault::NoMemory),
                }
            }
        }
    }
}
