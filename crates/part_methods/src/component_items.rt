//! What the functions of items of components ask, and those that ask hooks alone.
ghost use Rattle.std.specs.Prelude.{◌≤◌};

use crate::component_values as v;
use crate::noter::{Notes, added, mapped, sure};
use reencode_component::{ReencodeComponentItems, component_utils as utils};
use reencode_hooks::Error;
use std::alloc::Global;
use wasm_read::ExternalKind;
use wasm_read_component as r;
use wasm_write_component as w;

const BOOL: r::ComponentValType = r::ComponentValType::Primitive(r::PrimitiveValType::Bool);

/// Types of values.
const VALUES: [(&str, r::ComponentValType); 2] = [
    ("primitive", BOOL),
    ("by its index", r::ComponentValType::Type_(0)),
];

/// Types of what is imported or exported.
const REFERENCES: [(&str, r::ComponentTypeRef); 6] = [
    ("module", r::ComponentTypeRef::Module(0)),
    ("func", r::ComponentTypeRef::Func(0)),
    ("value", r::ComponentTypeRef::Value(BOOL)),
    (
        "type",
        r::ComponentTypeRef::Type_(r::TypeBounds::SubResource),
    ),
    ("instance", r::ComponentTypeRef::Instance(0)),
    ("component", r::ComponentTypeRef::Component(0)),
];

/// Aliases.
const ALIASES: [(&str, r::ComponentAlias<'_>); 6] = [
    (
        "of an instance",
        r::ComponentAlias::InstanceExport {
            kind: r::ComponentExternalKind::Func,
            instance_index: 0,
            name: "a",
        },
    ),
    (
        "of a core instance",
        r::ComponentAlias::CoreInstanceExport {
            kind: ExternalKind::Func,
            instance_index: 0,
            name: "a",
        },
    ),
    (
        "outer module",
        r::ComponentAlias::Outer {
            kind: r::ComponentOuterAliasKind::CoreModule,
            count: 1,
            index: 0,
        },
    ),
    (
        "outer core type",
        r::ComponentAlias::Outer {
            kind: r::ComponentOuterAliasKind::CoreType,
            count: 1,
            index: 0,
        },
    ),
    (
        "outer type",
        r::ComponentAlias::Outer {
            kind: r::ComponentOuterAliasKind::Type_,
            count: 1,
            index: 0,
        },
    ),
    (
        "outer component",
        r::ComponentAlias::Outer {
            kind: r::ComponentOuterAliasKind::Component,
            count: 1,
            index: 0,
        },
    ),
];

/// What a type may be.
const BOUNDS: [(&str, r::TypeBounds); 2] = [
    ("eq", r::TypeBounds::Eq(0)),
    ("sub", r::TypeBounds::SubResource),
];

/// Options of canonical functions.
const OPTIONS: [(&str, r::CanonicalOption); 10] = [
    ("utf8", r::CanonicalOption::UTF8),
    ("utf16", r::CanonicalOption::UTF16),
    ("compact-utf16", r::CanonicalOption::CompactUTF16),
    ("memory", r::CanonicalOption::Memory(0)),
    ("realloc", r::CanonicalOption::Realloc(0)),
    ("post-return", r::CanonicalOption::PostReturn(0)),
    ("async", r::CanonicalOption::Async),
    ("callback", r::CanonicalOption::Callback(0)),
    ("core-type", r::CanonicalOption::CoreType(0)),
    ("gc", r::CanonicalOption::Gc),
];

/// A type of values.
fn value<N: ReencodeComponentItems + Notes>(of: &mut N, case: &str, ty: r::ComponentValType) {
    sure!(of, case, component_val_type(ty))
}

/// What a type may be.
fn bounds<N: ReencodeComponentItems + Notes>(of: &mut N, case: &str, ty: r::TypeBounds) {
    sure!(of, case, type_bounds(ty))
}

/// Types of values, and what a type may be.
pub fn values<N: ReencodeComponentItems + Notes>(of: &mut N) {
    for (case, ty) in VALUES {
        value(of, case, ty);
    }
    for (case, ty) in BOUNDS {
        bounds(of, case, ty);
    }
}

/// The type of what is imported or exported.
fn reference<N: ReencodeComponentItems + Notes>(
    of: &mut N,
    case: &str,
    ty: r::ComponentTypeRef,
) -> Result<(), Error<N::Error>> {
    mapped!(of, case, component_type_ref(ty))
}

/// An alias.
fn alias<N: ReencodeComponentItems + Notes>(
    of: &mut N,
    case: &str,
    alias: r::ComponentAlias<'_>,
) -> Result<(), Error<N::Error>> {
    mapped!(of, case, component_alias(alias))
}

/// Types of what is imported or exported.
pub fn references<N: ReencodeComponentItems + Notes>(of: &mut N) -> Result<(), Error<N::Error>> {
    for (case, ty) in REFERENCES {
        reference(of, case, ty)?;
    }
    Ok(())
}

/// Aliases.
pub fn aliases<N: ReencodeComponentItems + Notes>(of: &mut N) -> Result<(), Error<N::Error>> {
    for (case, held) in ALIASES {
        alias(of, case, held)?;
    }
    Ok(())
}

/// A primitive type.
fn primitive<N: ReencodeComponentItems + Notes>(of: &mut N, ty: r::PrimitiveValType) {
    sure!(of, component_primitive_val_type(ty));
}

/// The kind of an export.
fn export_kind<N: ReencodeComponentItems + Notes>(of: &mut N, kind: r::ComponentExternalKind) {
    sure!(of, component_export_kind(kind));
}

/// The kind of an alias of what is further out.
fn outer_kind<N: ReencodeComponentItems + Notes>(of: &mut N, kind: r::ComponentOuterAliasKind) {
    sure!(of, component_outer_alias_kind(kind));
}

/// Kinds.
fn kinds<N: ReencodeComponentItems + Notes>(of: &mut N) {
    primitive(of, r::PrimitiveValType::Bool);
    export_kind(of, r::ComponentExternalKind::Func);
    outer_kind(of, r::ComponentOuterAliasKind::Type_);
}

/// An option of a canonical function.
fn option<N: ReencodeComponentItems + Notes>(
    of: &mut N,
    case: &str,
    ty: r::CanonicalOption,
) -> Result<(), Error<N::Error>> {
    mapped!(of, case, canonical_option(ty))
}

/// Kinds, and what asks hooks.
pub fn kinds_and_options<N: ReencodeComponentItems + Notes>(
    of: &mut N,
) -> Result<(), Error<N::Error>> {
    kinds(of);
    for (case, ty) in OPTIONS {
        option(of, case, ty)?;
    }
    Ok(())
}

/// The start of a component.
fn start<N: ReencodeComponentItems + Notes>(
    of: &mut N,
    alloc: Global,
    func: r::ComponentStartFunction,
    sink: &mut w::Component,
) -> Result<(), Error<N::Error>> {
    added!(of, parse_component_start_section(alloc, sink, func))
}

/// A section of an id that no table knows.
fn unknown<N: ReencodeComponentItems + Notes>(
    of: &mut N,
    id: u8,
    contents: &[u8],
    sink: &mut w::Component,
) -> Result<(), Error<N::Error>>
    requires { id ≤ 127 }
{
    added!(of, parse_unknown_component_section(sink, id, contents))
}

/// The start of function 0 with two values.
const START: [u8; 5] = [0x00, 0x02, 0x00, 0x00, 0x00];

/// Sections that are added whole.
pub fn whole_sections<N: ReencodeComponentItems + Notes>(
    of: &mut N,
    alloc: Global,
) -> Result<(), Error<N::Error>> {
    let mut made = w::Component::new(alloc, u32::MAX)?;
    start(of, alloc, v::start(alloc, &START)?, &mut made)?;
    unknown(of, 12, &[], &mut made)
}
