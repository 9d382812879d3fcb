//! Types of components, and what these declare, at the front of some bytes, where scopes are open round them.
ghost use Rattle.std.specs.Prelude.{◌≤◌, ◌<◌, IfOk, IfSome, IfNone};
ghost use Rattle.wasm_shapes.specs.Tree.{Tree};
ghost use Rattle.wasm_shapes.specs.Shape.{Shape};
ghost use Rattle.wasm_shapes.specs.Depth.{BeginsAt, BeginsNoneAt};
ghost use Rattle.wasm_shapes.specs.Component.{component_declaration, component_type, instance_declaration};
ghost use Rattle.wasm_read_component.specs.Scoped.{ReadsAt};
ghost use Rattle.wasm_read_component.specs.TypeRows.{ComponentDeclarationBeside, ComponentDeclarationStands, InstanceDeclarationBeside, InstanceDeclarationStands, TypeBeside, TypeStands, declaration_of};

use crate::aliases::front_alias;
use crate::core_types::front_core_type;
use crate::declarations::{ComponentType, ComponentTypeDeclaration, InstanceTypeDeclaration};
use crate::defined_types::{front_defined_type, front_func_type, front_resource};
use crate::nested::{DEPTH, reader_before};
use crate::rows::front_component_import;
use std::alloc::Global;
use wasm_leb::{NoMemory, front_byte, front_u32};

/// What declares: a component type or an instance type.
#[derive(Clone, Copy)]
enum Scope {
    Component,
    Instance,
}

/// The type of a component at the front of some bytes, and the bytes behind it.
#[cycle(types)]
pub fn front_component_type<'a>(
    alloc: Global,
    bytes: &'a [u8],
    depth: u32,
) -> Result<Option<(ComponentType<'a>, &'a [u8])>, NoMemory>
    requires { depth ≤ 200 }
    ensures some { IfOk result (λ o. IfSome o (λ r.
        ReadsAt component_type depth (TypeStands depth r.0) bytes.now r.1.now)) }
    ensures beside { IfOk result (λ o. IfSome o (λ r. TypeBeside bytes.now r.0)) }
    ensures none { IfOk result (λ o. IfNone o (BeginsNoneAt component_type depth bytes.now)) }
{
    let Some((first, rest)) = front_byte(bytes) else {
        return Ok(None);
    };
    match first {
        0x40 => match front_func_type(alloc, rest, false) {
            Ok(Some((ty, rest))) => Ok(Some((ComponentType::Func(ty), rest))),
            Ok(None) => Ok(None),
            Err(NoMemory) => Err(NoMemory),
        },
        0x43 => match front_func_type(alloc, rest, true) {
            Ok(Some((ty, rest))) => Ok(Some((ComponentType::Func(ty), rest))),
            Ok(None) => Ok(None),
            Err(NoMemory) => Err(NoMemory),
        },
        0x41 => match behind_scope(alloc, rest, depth, Scope::Component) {
            Ok(Some(behind)) => match reader_before(rest, behind, depth) {
                Some(declarations) => Ok(Some((ComponentType::Component(declarations), behind))),
                None => Ok(None),
            },
            Ok(None) => Ok(None),
            Err(NoMemory) => Err(NoMemory),
        },
        0x42 => match behind_scope(alloc, rest, depth, Scope::Instance) {
            Ok(Some(behind)) => match reader_before(rest, behind, depth) {
                Some(declarations) => Ok(Some((ComponentType::Instance(declarations), behind))),
                None => Ok(None),
            },
            Ok(None) => Ok(None),
            Err(NoMemory) => Err(NoMemory),
        },
        0x3f => match front_resource(rest) {
            Some((rep, dtor, rest)) => Ok(Some((ComponentType::Resource { rep, dtor }, rest))),
            None => Ok(None),
        },
        _ => match front_defined_type(alloc, bytes) {
            Ok(Some((ty, rest))) => Ok(Some((ComponentType::Defined(ty), rest))),
            Ok(None) => Ok(None),
            Err(NoMemory) => Err(NoMemory),
        },
    }
}

// The declaration at the front of some bytes, and the bytes behind it: of what instance types and component types both declare, and
// of what one of them has beside.
macro_rules! front_declaration {
    ($of:ident, $alloc:ident, $bytes:ident, $depth:ident $(, $byte:literal => $import:ident)?) => {{
        let Some((first, rest)) = front_byte($bytes) else {
            return Ok(None);
        };
        match first {
            0x00 => match front_core_type($alloc, rest, $depth) {
                Ok(Some((ty, rest))) => Ok(Some(($of::CoreType(ty), rest))),
                Ok(None) => Ok(None),
                Err(NoMemory) => Err(NoMemory),
            },
            0x01 => match front_component_type($alloc, rest, $depth) {
                Ok(Some((ty, rest))) => Ok(Some(($of::Type_(ty), rest))),
                Ok(None) => Ok(None),
                Err(NoMemory) => Err(NoMemory),
            },
            0x02 => match front_alias(rest) {
                Some((alias, rest)) => Ok(Some(($of::Alias(alias), rest))),
                None => Ok(None),
            },
            $(
                $byte => match front_component_import(rest) {
                    Some((import, rest)) => Ok(Some(($of::$import(import), rest))),
                    None => Ok(None),
                },
            )?
            0x04 => match front_component_import(rest) {
                Some((export, rest)) => Ok(Some((
                    $of::Export {
                        name: export.name,
                        ty: export.ty,
                    },
                    rest,
                ))),
                None => Ok(None),
            },
            _ => Ok(None),
        }
    }};
}

/// The declaration of an instance type at the front of some bytes, and the bytes behind it.
#[cycle(types)]
pub fn front_instance_declaration<'a>(
    alloc: Global,
    bytes: &'a [u8],
    depth: u32,
) -> Result<Option<(InstanceTypeDeclaration<'a>, &'a [u8])>, NoMemory>
    requires { depth ≤ 200 }
    ensures some { IfOk result (λ o. IfSome o (λ r. ReadsAt
        instance_declaration depth (InstanceDeclarationStands depth r.0) bytes.now r.1.now)) }
    ensures beside { IfOk result (λ o. IfSome o (λ r. InstanceDeclarationBeside bytes.now r.0)) }
    ensures none { IfOk result (λ o. IfNone o
        (BeginsNoneAt instance_declaration depth bytes.now)) }
{
    front_declaration!(InstanceTypeDeclaration, alloc, bytes, depth)
}

/// The declaration of a component type at the front of some bytes, and the bytes behind it.
#[cycle(types)]
pub fn front_component_declaration<'a>(
    alloc: Global,
    bytes: &'a [u8],
    depth: u32,
) -> Result<Option<(ComponentTypeDeclaration<'a>, &'a [u8])>, NoMemory>
    requires { depth ≤ 200 }
    ensures some { IfOk result (λ o. IfSome o (λ r. ReadsAt
        component_declaration depth (ComponentDeclarationStands depth r.0) bytes.now r.1.now)) }
    ensures beside { IfOk result (λ o. IfSome o (λ r. ComponentDeclarationBeside bytes.now r.0)) }
    ensures none { IfOk result (λ o. IfNone o
        (BeginsNoneAt component_declaration depth bytes.now)) }
{
    front_declaration!(ComponentTypeDeclaration, alloc, bytes, depth, 0x03 => Import)
}

/// The bytes behind the declaration of a scope that they begin with.
#[cycle(types)]
fn behind_declaration<'a>(
    alloc: Global,
    bytes: &'a [u8],
    depth: u32,
    scope: Scope,
) -> Result<Option<&'a [u8]>, NoMemory>
    requires { depth ≤ 200 }
    ensures some { IfOk result (λ o. IfSome o (λ r.
        (t : Tree) × BeginsAt (declaration_of scope) depth bytes.now t r.now)) }
    ensures none { IfOk result (λ o. IfNone o
        (BeginsNoneAt (declaration_of scope) depth bytes.now)) }
{
    match scope {
        Scope::Component => match front_component_declaration(alloc, bytes, depth) {
            Ok(Some((_, rest))) => Ok(Some(rest)),
            Ok(None) => Ok(None),
            Err(NoMemory) => Err(NoMemory),
        },
        Scope::Instance => match front_instance_declaration(alloc, bytes, depth) {
            Ok(Some((_, rest))) => Ok(Some(rest)),
            Ok(None) => Ok(None),
            Err(NoMemory) => Err(NoMemory),
        },
    }
}

/// The bytes behind the declarations that they begin with, behind their number. So many scopes are open round the scope.
#[cycle(types)]
fn behind_scope<'a>(
    alloc: Global,
    bytes: &'a [u8],
    depth: u32,
    scope: Scope,
) -> Result<Option<&'a [u8]>, NoMemory>
    requires { depth ≤ 200 }
    ensures some { IfOk result (λ o. IfSome o (λ r. (rows : Tree)
        × BeginsAt (Shape.scope (Shape.vec (declaration_of scope))) depth bytes.now (Tree.scope (Tree.vec rows)) r.now)) }
    ensures shallow { IfOk result (λ o. IfSome o (λ r. depth < 200)) }
    ensures none { IfOk result (λ o. IfNone o
        (BeginsNoneAt (Shape.scope (Shape.vec (declaration_of scope))) depth bytes.now)) }
{
    if depth >= DEPTH {
        return Ok(None);
    }
    let Some((count, start)) = front_u32(bytes) else {
        return Ok(None);
    };
    let mut rest = start;
    let mut left = count;
    'rows: while left > 0 {
        match behind_declaration(alloc, rest, depth + 1, scope) {
            Ok(Some(behind)) => {
                rest = behind;
                left -= 1;
            }
            Ok(None) => return Ok(None),
            Err(NoMemory) => return Err(NoMemory),
        }
    }
    Ok(Some(rest))
}
