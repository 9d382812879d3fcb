//! Imports, exports, instances and the start of a component at the front of some bytes.
ghost use Rattle.std.specs.Prelude.{IfOk, IfSome, IfNone};
ghost use Rattle.wasm_shapes.specs.Place.{Begins, BeginsNone};
ghost use Rattle.wasm_shapes.specs.Component.{component_arg, component_export_row, component_instance_row, component_start, extern_row, inline_export, instance_row, instantiation_arg};
ghost use Rattle.wasm_types.specs.ComponentTrees.{component_arg_tree, component_export_tree, component_import_tree, component_instance_tree, inline_export_tree, instance_tree, instantiation_arg_tree};
ghost use Rattle.wasm_read.specs.Types.{export_tree};
ghost use Rattle.wasm_read_component.specs.ComponentRows.{InstanceKinds, start_tree};

use crate::items::{ComponentArgs, ComponentValues, CoreExports, InlineExports, InstantiationArgs};
use crate::optional::front_optional;
use crate::types::{
    ComponentArg, ComponentExport, ComponentImport, ComponentInstance, ComponentStartFunction,
    ComponentTypeRef, Instance, InstantiationArg, InstantiationArgKind,
};
use crate::value_types::{front_component_type_ref, front_extern_name, front_sorted};
use std::alloc::Global;
use wasm_leb::{NoMemory, front_byte, front_u32};
use wasm_read::{front_name, front_rows};

/// The import at the front of some bytes, and the bytes behind it.
pub fn front_component_import(bytes: &[u8]) -> Option<(ComponentImport<'_>, &[u8])>
    ensures some { IfSome result (λ r.
        Begins extern_row bytes.now (component_import_tree r.0) r.1.now) }
    ensures none { IfNone result (BeginsNone extern_row bytes.now) }
{
    let Some((name, rest)) = front_extern_name(bytes) else {
        return None;
    };
    match front_component_type_ref(rest) {
        Some((ty, rest)) => Some((ComponentImport { name, ty }, rest)),
        None => None,
    }
}

/// The export at the front of some bytes, and the bytes behind it.
pub fn front_component_export(bytes: &[u8]) -> Option<(ComponentExport<'_>, &[u8])>
    ensures some { IfSome result (λ r.
        Begins component_export_row bytes.now (component_export_tree r.0) r.1.now) }
    ensures none { IfNone result (BeginsNone component_export_row bytes.now) }
{
    let Some((name, rest)) = front_extern_name(bytes) else {
        return None;
    };
    let Some((kind, index, rest)) = front_sorted(rest) else {
        return None;
    };
    match front_optional::<ComponentTypeRef>(rest) {
        Some((ty, rest)) => Some((
            ComponentExport {
                name,
                kind,
                index,
                ty,
            },
            rest,
        )),
        None => None,
    }
}

/// What is handed to a core module, at the front of some bytes, and the bytes behind it.
pub fn front_instantiation_arg(bytes: &[u8]) -> Option<(InstantiationArg<'_>, &[u8])>
    ensures some { IfSome result (λ r.
        Begins instantiation_arg bytes.now (instantiation_arg_tree r.0) r.1.now) }
    ensures none { IfNone result (BeginsNone instantiation_arg bytes.now) }
{
    let Some((name, rest)) = front_name(bytes) else {
        return None;
    };
    let Some((sort, rest)) = front_byte(rest) else {
        return None;
    };
    if sort != 0x12 {
        return None;
    }
    match front_u32(rest) {
        Some((index, rest)) => Some((
            InstantiationArg {
                name,
                kind: InstantiationArgKind::Instance,
                index,
            },
            rest,
        )),
        None => None,
    }
}

/// What is handed to a component, at the front of some bytes, and the bytes behind it.
pub fn front_component_arg(bytes: &[u8]) -> Option<(ComponentArg<'_>, &[u8])>
    ensures some { IfSome result (λ r.
        Begins component_arg bytes.now (component_arg_tree r.0) r.1.now) }
    ensures none { IfNone result (BeginsNone component_arg bytes.now) }
{
    let Some((name, rest)) = front_name(bytes) else {
        return None;
    };
    match front_sorted(rest) {
        Some((kind, index, rest)) => Some((ComponentArg { name, kind, index }, rest)),
        None => None,
    }
}

/// What an instance exports, at the front of some bytes, and the bytes behind it.
pub fn front_inline_export(bytes: &[u8]) -> Option<(ComponentArg<'_>, &[u8])>
    ensures some { IfSome result (λ r.
        Begins inline_export bytes.now (inline_export_tree r.0) r.1.now) }
    ensures none { IfNone result (BeginsNone inline_export bytes.now) }
{
    let Some((name, rest)) = front_extern_name(bytes) else {
        return None;
    };
    match front_sorted(rest) {
        Some((kind, index, rest)) => Some((ComponentArg { name, kind, index }, rest)),
        None => None,
    }
}

/// The core instance at the front of some bytes, and the bytes behind it.
pub fn front_instance<'a>(
    alloc: Global,
    bytes: &'a [u8],
) -> Result<Option<(Instance<'a>, &'a [u8])>, NoMemory>
    ensures some { IfOk result (λ o. IfSome o (λ r.
        Begins instance_row bytes.now (instance_tree export_tree r.0) r.1.now)) }
    ensures kinds { IfOk result (λ o. IfSome o (λ r. InstanceKinds bytes.now r.0)) }
    ensures none { IfOk result (λ o. IfNone o (BeginsNone instance_row bytes.now)) }
{
    let Some((first, rest)) = front_byte(bytes) else {
        return Ok(None);
    };
    match first {
        0x00 => {
            let Some((module_index, rest)) = front_u32(rest) else {
                return Ok(None);
            };
            match front_rows::<InstantiationArgs>(alloc, rest) {
                Ok(Some((args, rest))) => {
                    Ok(Some((Instance::Instantiate { module_index, args }, rest)))
                }
                Ok(None) => Ok(None),
                Err(NoMemory) => Err(NoMemory),
            }
        }
        0x01 => match front_rows::<CoreExports>(alloc, rest) {
            Ok(Some((exports, rest))) => Ok(Some((Instance::FromExports(exports), rest))),
            Ok(None) => Ok(None),
            Err(NoMemory) => Err(NoMemory),
        },
        _ => Ok(None),
    }
}

/// The instance at the front of some bytes, and the bytes behind it.
pub fn front_component_instance<'a>(
    alloc: Global,
    bytes: &'a [u8],
) -> Result<Option<(ComponentInstance<'a>, &'a [u8])>, NoMemory>
    ensures some { IfOk result (λ o. IfSome o (λ r.
        Begins component_instance_row bytes.now (component_instance_tree r.0) r.1.now)) }
    ensures none { IfOk result (λ o. IfNone o (BeginsNone component_instance_row bytes.now)) }
{
    let Some((first, rest)) = front_byte(bytes) else {
        return Ok(None);
    };
    match first {
        0x00 => {
            let Some((component_index, rest)) = front_u32(rest) else {
                return Ok(None);
            };
            match front_rows::<ComponentArgs>(alloc, rest) {
                Ok(Some((args, rest))) => Ok(Some((
                    ComponentInstance::Instantiate {
                        component_index,
                        args,
                    },
                    rest,
                ))),
                Ok(None) => Ok(None),
                Err(NoMemory) => Err(NoMemory),
            }
        }
        0x01 => match front_rows::<InlineExports>(alloc, rest) {
            Ok(Some((exports, rest))) => Ok(Some((ComponentInstance::FromExports(exports), rest))),
            Ok(None) => Ok(None),
            Err(NoMemory) => Err(NoMemory),
        },
        _ => Ok(None),
    }
}

/// The start of a component at the front of some bytes, and the bytes behind it.
pub fn front_start<'a>(
    alloc: Global,
    bytes: &'a [u8],
) -> Result<Option<(ComponentStartFunction, &'a [u8])>, NoMemory>
    ensures some { IfOk result (λ o. IfSome o (λ r.
        Begins component_start bytes.now (start_tree r.0) r.1.now)) }
    ensures none { IfOk result (λ o. IfNone o (BeginsNone component_start bytes.now)) }
{
    let Some((func_index, rest)) = front_u32(bytes) else {
        return Ok(None);
    };
    match front_rows::<ComponentValues>(alloc, rest) {
        Ok(Some((arguments, rest))) => match front_u32(rest) {
            Some((results, rest)) => Ok(Some((
                ComponentStartFunction {
                    func_index,
                    arguments,
                    results,
                },
                rest,
            ))),
            None => Ok(None),
        },
        Ok(None) => Ok(None),
        Err(NoMemory) => Err(NoMemory),
    }
}
