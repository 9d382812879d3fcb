//! Aliases at the front of some bytes.
ghost use Rattle.std.specs.Prelude.{◌≡◌, ◌≢◌, ◌<◌, IfSome, IfNone};
ghost use Rattle.wasm_shapes.specs.declared.Space.{Space};
ghost use Rattle.wasm_shapes.specs.Place.{Begins, BeginsNone};
ghost use Rattle.wasm_shapes.specs.Component.{alias, core_alias, instance_export, core_instance_export, outer_of, export_or_outer};
ghost use Rattle.wasm_shapes.specs.ComponentTypes.{instance_export_tree, core_instance_export_tree, outer_tree};
ghost use Rattle.wasm_read.specs.declared.types.ExternalKind.TheVariants as external;
ghost use Rattle.wasm_read_component.specs.Aliases.{alias_tree, target_tree, core_sort_byte, NotExact, CoreBegins, ExportBegins, TargetBegins};

use crate::types::{ComponentAlias, ComponentExternalKind, ComponentOuterAliasKind};
use wasm_leb::{front_byte, front_u32};
use wasm_read::{ExternalKind, front_name};

/// What an alias of a sort names: an export of an instance, or what stands so many scopes further out.
enum Target<'a> {
    Export { instance: u32, name: &'a str },
    Outer { count: u32, index: u32 },
}

/// An export of an instance at the front of some bytes, and the bytes behind it.
fn front_instance_export(bytes: &[u8]) -> Option<(u32, &str, &[u8])>
    ensures some { IfSome result (λ r.
        Begins instance_export bytes.now (instance_export_tree r.0 r.1.now) r.2.now) }
    ensures none { IfNone result (BeginsNone instance_export bytes.now) }
{
    let Some((byte, rest)) = front_byte(bytes) else {
        return None;
    };
    if byte != 0x00 {
        return None;
    }
    let Some((instance, rest)) = front_u32(rest) else {
        return None;
    };
    match front_name(rest) {
        Some((name, rest)) => Some((instance, name, rest)),
        None => None,
    }
}

/// An export of a core instance at the front of some bytes, and the bytes behind it.
fn front_core_instance_export(bytes: &[u8]) -> Option<(u32, &str, &[u8])>
    ensures some { IfSome result (λ r.
        Begins core_instance_export bytes.now (core_instance_export_tree r.0 r.1.now) r.2.now) }
    ensures none { IfNone result (BeginsNone core_instance_export bytes.now) }
{
    let Some((byte, rest)) = front_byte(bytes) else {
        return None;
    };
    if byte != 0x01 {
        return None;
    }
    let Some((instance, rest)) = front_u32(rest) else {
        return None;
    };
    match front_name(rest) {
        Some((name, rest)) => Some((instance, name, rest)),
        None => None,
    }
}

/// An index further out at the front of some bytes, with the count of the scopes, and the bytes behind it.
fn front_outer(bytes: &[u8]) -> Option<(u32, u32, &[u8])>
    ensures some { IfSome result (λ r.
        (s : Space) → Begins (outer_of s) bytes.now (outer_tree s r.0 r.1) r.2.now) }
    ensures none { IfNone result ((s : Space) → BeginsNone (outer_of s) bytes.now) }
{
    let Some((byte, rest)) = front_byte(bytes) else {
        return None;
    };
    if byte != 0x02 {
        return None;
    }
    let Some((count, rest)) = front_u32(rest) else {
        return None;
    };
    match front_u32(rest) {
        Some((index, rest)) => Some((count, index, rest)),
        None => None,
    }
}

/// What an alias names, at the front of some bytes, and the bytes behind it.
fn front_target(bytes: &[u8]) -> Option<(Target<'_>, &[u8])>
    ensures some { IfSome result (λ r.
        (s : Space) → Begins (export_or_outer s) bytes.now (target_tree s r.0) r.1.now) }
    ensures none { IfNone result ((s : Space) → BeginsNone (export_or_outer s) bytes.now) }
{
    if let Some((instance, name, rest)) = front_instance_export(bytes) {
        return Some((Target::Export { instance, name }, rest));
    }
    match front_outer(bytes) {
        Some((count, index, rest)) => Some((Target::Outer { count, index }, rest)),
        None => None,
    }
}

/// The sort of what a core instance exports that a byte spells.
fn core_sort_of(byte: u8) -> Option<ExternalKind>
    ensures some { IfSome result (λ kind. byte ≡ core_sort_byte kind) }
    ensures kind { IfSome result (λ kind. kind ≢ external.FuncExact) }
    ensures none { IfNone result (0x04 < byte) }
{
    match byte {
        0x00 => Some(ExternalKind::Func),
        0x01 => Some(ExternalKind::Table),
        0x02 => Some(ExternalKind::Memory),
        0x03 => Some(ExternalKind::Global),
        0x04 => Some(ExternalKind::Tag),
        _ => None,
    }
}

/// An alias of a core sort at the front of some bytes, of which the first is the second of the alias, and the bytes behind it.
fn front_core_alias(bytes: &[u8]) -> Option<(ComponentAlias<'_>, &[u8])>
    ensures some { IfSome result (λ r. CoreBegins bytes.now (alias_tree r.0) r.1.now) }
    ensures kind { IfSome result (λ r. NotExact r.0) }
    ensures none { IfNone result (BeginsNone core_alias bytes.now) }
{
    let Some((sort, rest)) = front_byte(bytes) else {
        return None;
    };
    match sort {
        0x10 => match front_outer(rest) {
            Some((count, index, rest)) => Some((
                ComponentAlias::Outer {
                    kind: ComponentOuterAliasKind::CoreType,
                    count,
                    index,
                },
                rest,
            )),
            None => None,
        },
        0x11 => match front_target(rest) {
            Some((Target::Export { instance, name }, rest)) => Some((
                ComponentAlias::InstanceExport {
                    kind: ComponentExternalKind::Module,
                    instance_index: instance,
                    name,
                },
                rest,
            )),
            Some((Target::Outer { count, index }, rest)) => Some((
                ComponentAlias::Outer {
                    kind: ComponentOuterAliasKind::CoreModule,
                    count,
                    index,
                },
                rest,
            )),
            None => None,
        },
        _ => {
            let Some(kind) = core_sort_of(sort) else {
                return None;
            };
            match front_core_instance_export(rest) {
                Some((instance_index, name, rest)) => Some((
                    ComponentAlias::CoreInstanceExport {
                        kind,
                        instance_index,
                        name,
                    },
                    rest,
                )),
                None => None,
            }
        }
    }
}

/// An alias of an export of an instance of a sort that has no others, and the bytes behind it.
fn front_export_alias(
    bytes: &[u8],
    kind: ComponentExternalKind,
) -> Option<(ComponentAlias<'_>, &[u8])>
    ensures some { IfSome result (λ r. ExportBegins bytes.now kind r.0 r.1.now) }
    ensures kind { IfSome result (λ r. NotExact r.0) }
    ensures none { IfNone result (BeginsNone instance_export bytes.now) }
{
    match front_instance_export(bytes) {
        Some((instance_index, name, rest)) => Some((
            ComponentAlias::InstanceExport {
                kind,
                instance_index,
                name,
            },
            rest,
        )),
        None => None,
    }
}

/// An alias of a sort of which there are exports and others, and the bytes behind it.
fn front_target_alias(
    bytes: &[u8],
    kind: ComponentExternalKind,
    outer: ComponentOuterAliasKind,
) -> Option<(ComponentAlias<'_>, &[u8])>
    ensures some { IfSome result (λ r. TargetBegins bytes.now kind outer r.0 r.1.now) }
    ensures kind { IfSome result (λ r. NotExact r.0) }
    ensures none { IfNone result ((s : Space) → BeginsNone (export_or_outer s) bytes.now) }
{
    match front_target(bytes) {
        Some((Target::Export { instance, name }, rest)) => Some((
            ComponentAlias::InstanceExport {
                kind,
                instance_index: instance,
                name,
            },
            rest,
        )),
        Some((Target::Outer { count, index }, rest)) => Some((
            ComponentAlias::Outer {
                kind: outer,
                count,
                index,
            },
            rest,
        )),
        None => None,
    }
}

/// An alias at the front of some bytes, and the bytes behind it.
pub fn front_alias(bytes: &[u8]) -> Option<(ComponentAlias<'_>, &[u8])>
    ensures some { IfSome result (λ r. Begins alias bytes.now (alias_tree r.0) r.1.now) }
    ensures kind { IfSome result (λ r. NotExact r.0) }
    ensures none { IfNone result (BeginsNone alias bytes.now) }
{
    let Some((sort, rest)) = front_byte(bytes) else {
        return None;
    };
    match sort {
        0x00 => front_core_alias(rest),
        0x01 => front_export_alias(rest, ComponentExternalKind::Func),
        0x02 => front_export_alias(rest, ComponentExternalKind::Value),
        0x03 => front_target_alias(
            rest,
            ComponentExternalKind::Type_,
            ComponentOuterAliasKind::Type_,
        ),
        0x04 => front_target_alias(
            rest,
            ComponentExternalKind::Component,
            ComponentOuterAliasKind::Component,
        ),
        0x05 => front_export_alias(rest, ComponentExternalKind::Instance),
        _ => None,
    }
}
