//! Core types, and what module types declare, at the front of some bytes.
ghost use Rattle.std.specs.Prelude.{◌≡◌, ◌≤◌, IfOk, IfSome, IfNone};
ghost use Rattle.wasm_shapes.specs.Tree.{Tree};
ghost use Rattle.wasm_shapes.specs.Shape.{Shape, open_sub};
ghost use Rattle.wasm_shapes.specs.Place.{Begins, BeginsNone};
ghost use Rattle.wasm_shapes.specs.Depth.{BeginsNoneAt};
ghost use Rattle.wasm_shapes.specs.Component.{core_type, module_declaration};
ghost use Rattle.wasm_read.specs.Types.{entity_tree, group_tree};
ghost use Rattle.wasm_read_component.specs.Scoped.{ReadsAt};
ghost use Rattle.wasm_read_component.specs.TypeRows.{named_entity, named_entity_tree, outer_type, outer_type_tree, module_declaration_tree, CoreTypeBeside, CoreTypeStands, Declares, Fresh};

use crate::declarations::{CoreType, ModuleDeclarations, ModuleTypeDeclaration};
use crate::nested::{DEPTH, bytes_before};
use crate::sections::Of;
use crate::types::OuterAliasKind;
use std::alloc::Global;
use wasm_leb::{NoMemory, front_byte, front_u32};
use wasm_read::{Import, RecGroup, TypeRef, behind_rows, front_group, front_name, front_type_ref};
use wasm_shapes::component_kinds;

/// A name and the type of what is imported or exported under it, at the front of some bytes, and the bytes behind both.
fn front_named_entity(bytes: &[u8]) -> Option<(&str, TypeRef, &[u8])>
    ensures some { IfSome result (λ r.
        Begins named_entity bytes.now (named_entity_tree r.0.now (entity_tree r.1)) r.2.now) }
    ensures none { IfNone result (BeginsNone named_entity bytes.now) }
{
    let Some((name, rest)) = front_name(bytes) else {
        return None;
    };
    match front_type_ref(rest) {
        Some((ty, rest)) => Some((name, ty, rest)),
        None => None,
    }
}

/// An alias of a type further out at the front of some bytes, behind its first byte: the count of the scopes and the index,
/// and the bytes behind it.
fn front_outer_type(bytes: &[u8]) -> Option<(u32, u32, &[u8])>
    ensures some { IfSome result (λ r.
        Begins outer_type bytes.now (outer_type_tree r.0 r.1) r.2.now) }
    ensures none { IfNone result (BeginsNone outer_type bytes.now) }
{
    let Some((sort, rest)) = front_byte(bytes) else {
        return None;
    };
    if sort != 0x10 {
        return None;
    }
    let Some((target, rest)) = front_byte(rest) else {
        return None;
    };
    if target != 0x01 {
        return None;
    }
    let Some((count, rest)) = front_u32(rest) else {
        return None;
    };
    match front_u32(rest) {
        Some((index, rest)) => Some((count, index, rest)),
        None => None,
    }
}

/// The declaration of a module type at the front of some bytes, and the bytes behind it.
pub fn front_module_declaration<'a>(
    alloc: Global,
    bytes: &'a [u8],
) -> Result<Option<(ModuleTypeDeclaration<'a>, &'a [u8])>, NoMemory>
    ensures some { IfOk result (λ o. IfSome o (λ r.
        Begins module_declaration bytes.now (module_declaration_tree r.0) r.1.now)) }
    ensures none { IfOk result (λ o. IfNone o (BeginsNone module_declaration bytes.now)) }
{
    let Some((first, rest)) = front_byte(bytes) else {
        return Ok(None);
    };
    match first {
        0x00 => {
            let Some((module, rest)) = front_name(rest) else {
                return Ok(None);
            };
            match front_named_entity(rest) {
                Some((name, ty, rest)) => Ok(Some((
                    ModuleTypeDeclaration::Import(Import { module, name, ty }),
                    rest,
                ))),
                None => Ok(None),
            }
        }
        0x01 => match front_group(alloc, rest) {
            Ok(Some((group, rest))) => Ok(Some((ModuleTypeDeclaration::Type_(group), rest))),
            Ok(None) => Ok(None),
            Err(NoMemory) => Err(NoMemory),
        },
        0x02 => match front_outer_type(rest) {
            Some((count, index, rest)) => Ok(Some((
                ModuleTypeDeclaration::OuterAlias {
                    kind: OuterAliasKind::Type_,
                    count,
                    index,
                },
                rest,
            ))),
            None => Ok(None),
        },
        0x03 => match front_named_entity(rest) {
            Some((name, ty, rest)) => Ok(Some((ModuleTypeDeclaration::Export { name, ty }, rest))),
            None => Ok(None),
        },
        _ => Ok(None),
    }
}

/// The declarations of a module type at the front of some bytes, behind their number, and the bytes behind them.
fn front_module_declarations<'a>(
    alloc: Global,
    bytes: &'a [u8],
) -> Result<Option<(ModuleDeclarations<'a>, &'a [u8])>, NoMemory>
    ensures some { IfOk result (λ o. IfSome o (λ r. (t : Tree)
        × Declares module_declaration r.0 t
        × Begins (Shape.scope (Shape.vec module_declaration)) bytes.now t r.1.now)) }
    ensures fresh { IfOk result (λ o. IfSome o (λ r. Fresh r.0 bytes.now)) }
    ensures none { IfOk result (λ o. IfNone o
        (BeginsNone (Shape.vec module_declaration) bytes.now)) }
{
    match behind_rows::<Of<component_kinds::ModuleDeclarations>>(alloc, bytes) {
        Ok(Some(behind)) => match ModuleDeclarations::new(bytes_before(bytes, behind)) {
            Ok(reader) => Ok(Some((reader, behind))),
            Err(_) => Ok(None),
        },
        Ok(None) => Ok(None),
        Err(NoMemory) => Err(NoMemory),
    }
}

/// The open type of a core module at the front of some bytes, as a group, and the bytes behind it.
fn front_open_group(alloc: Global, bytes: &[u8]) -> Result<Option<(RecGroup, &[u8])>, NoMemory>
    ensures some { IfOk result (λ o. IfSome o (λ r. (t : Tree)
        × (group_tree r.0 ≡ Tree.row 1 t) × Begins open_sub bytes.now t r.1.now)) }
    ensures none { IfOk result (λ o. IfNone o (BeginsNone open_sub bytes.now)) }
{
    let Some((first, _)) = front_byte(bytes) else {
        return Ok(None);
    };
    if first != 0x50 {
        return Ok(None);
    }
    match front_group(alloc, bytes) {
        Ok(Some((group, rest))) => Ok(Some((group, rest))),
        Ok(None) => Ok(None),
        Err(NoMemory) => Err(NoMemory),
    }
}

/// The core type at the front of some bytes, and the bytes behind it. So many scopes are open round it.
pub fn front_core_type<'a>(
    alloc: Global,
    bytes: &'a [u8],
    depth: u32,
) -> Result<Option<(CoreType<'a>, &'a [u8])>, NoMemory>
    requires { depth ≤ 200 }
    ensures some { IfOk result (λ o. IfSome o (λ r.
        ReadsAt core_type depth (CoreTypeStands r.0) bytes.now r.1.now)) }
    ensures beside { IfOk result (λ o. IfSome o (λ r. CoreTypeBeside bytes.now r.0)) }
    ensures none { IfOk result (λ o. IfNone o (BeginsNoneAt core_type depth bytes.now)) }
{
    let Some((first, rest)) = front_byte(bytes) else {
        return Ok(None);
    };
    match first {
        0x50 => {
            if depth >= DEPTH {
                return Ok(None);
            }
            match front_module_declarations(alloc, rest) {
                Ok(Some((declarations, rest))) => Ok(Some((CoreType::Module(declarations), rest))),
                Ok(None) => Ok(None),
                Err(NoMemory) => Err(NoMemory),
            }
        }
        0x00 => match front_open_group(alloc, rest) {
            Ok(Some((group, rest))) => Ok(Some((CoreType::Rec(group), rest))),
            Ok(None) => Ok(None),
            Err(NoMemory) => Err(NoMemory),
        },
        _ => match front_group(alloc, bytes) {
            Ok(Some((group, rest))) => Ok(Some((CoreType::Rec(group), rest))),
            Ok(None) => Ok(None),
            Err(NoMemory) => Err(NoMemory),
        },
    }
}
