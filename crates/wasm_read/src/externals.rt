//! The types of what is imported, at the front of some bytes, and at a place of some bytes.
ghost use Rattle.std.specs.Prelude.{◌≡◌, ◌<◌, ◌≤◌, length, drop, IfOk, IfErr, IfSome, IfNone, Bool, []};
ghost use Rattle.std.specs.Option.{is_some};
ghost use Rattle.wasm_shapes.specs.Module.{global_row, import_row, unnamed, table_row};
ghost use Rattle.wasm_shapes.specs.Place.{Begins, BeginsNone};
ghost use Rattle.wasm_shapes.specs.Shape.{Shape, bounds, paged, table_type, memory_type, global_type, tag_type, entity};
ghost use Rattle.wasm_read.specs.Types.{limits_flags, bounds_tree, paged_tree, table_type_tree, memory_type_tree, global_type_tree, tag_type_tree, entity_tree, table_tree, global_tree, import_tree, IsUnnamed};

use crate::compact::{CompactItems, CompactNames};
use crate::expressions::front_expr;
use crate::fields::{from_place, front_name};
use crate::types::{
    Global, GlobalType, Import, Imports, MemoryType, Table, TableInit, TableType, TagKind, TagType,
    TypeRef,
};
use crate::value_types::{front_ref_type, front_val_type};
use wasm_leb::{ReadError, front_byte, front_u32, front_u64};

/// What the flags of limits say: that there is a maximum, that they are shared, that they count in 64 bits, and that the
/// logarithm of the page size is written.
#[derive(Clone, Copy)]
struct LimitsFlags {
    maximum: bool,
    shared: bool,
    wide: bool,
    page: bool,
}

/// Limits: the minimum, the maximum, and the logarithm of the page size.
#[derive(Clone, Copy)]
struct Limits {
    shared: bool,
    wide: bool,
    initial: u64,
    maximum: Option<u64>,
    page: Option<u32>,
}

/// What a flags byte says.
#[inline(always)]
fn flags_of(byte: u8) -> LimitsFlags
    requires { byte < 16 }
    ensures { byte ≡ limits_flags result.maximum result.shared result.wide result.page }
{
    LimitsFlags {
        maximum: byte % 2 == 1,
        shared: byte / 2 % 2 == 1,
        wide: byte / 4 % 2 == 1,
        page: byte >= 8,
    }
}

/// The minimum at the front of some bytes, the maximum behind it where there is one, and the bytes behind them.
#[inline(always)]
fn front_bounds(bytes: &[u8], maximum: bool) -> Option<(u64, Option<u64>, &[u8])>
    ensures some { IfSome result (λ r.
        Begins (bounds maximum) bytes.now (bounds_tree r.0 r.1) r.2.now) }
    ensures has { IfSome result (λ r. is_some r.1 ≡ maximum) }
    ensures none { IfNone result (BeginsNone (bounds maximum) bytes.now) }
{
    let Some((initial, rest)) = front_u64(bytes) else {
        return None;
    };
    if !maximum {
        return Some((initial, None, rest));
    }
    match front_u64(rest) {
        Some((maximum, rest)) => Some((initial, Some(maximum), rest)),
        None => None,
    }
}

/// The limits behind their flags, and the bytes behind them.
#[inline(always)]
fn front_limits(byte: u8, bytes: &[u8]) -> Option<(Limits, &[u8])>
    requires { byte < 16 }
    ensures flags { IfSome result (λ r.
        byte ≡ limits_flags (is_some r.0.maximum) r.0.shared r.0.wide (is_some r.0.page)) }
    ensures some { IfSome result (λ r.
        Begins (paged (is_some r.0.page) (bounds (is_some r.0.maximum))) bytes.now
        (paged_tree r.0.page (bounds_tree r.0.initial r.0.maximum)) r.1.now) }
    ensures none { IfNone result ((maximum : Bool) × (shared : Bool) × (wide : Bool) × (page : Bool)
        × (byte ≡ limits_flags maximum shared wide page)
        × BeginsNone (paged page (bounds maximum)) bytes.now) }
{
    let flags = flags_of(byte);
    let Some((initial, maximum, rest)) = front_bounds(bytes, flags.maximum) else {
        return None;
    };
    if !flags.page {
        return Some((
            Limits {
                shared: flags.shared,
                wide: flags.wide,
                initial,
                maximum,
                page: None,
            },
            rest,
        ));
    }
    match front_u32(rest) {
        Some((page, rest)) => Some((
            Limits {
                shared: flags.shared,
                wide: flags.wide,
                initial,
                maximum,
                page: Some(page),
            },
            rest,
        )),
        None => None,
    }
}

/// The table type at the front of some bytes, and the bytes behind it (WebAssembly Core Specification 3.0, section 5.3.11).
pub fn front_table_type(bytes: &[u8]) -> Option<(TableType, &[u8])>
    ensures some { IfSome result (λ r. Begins table_type bytes.now (table_type_tree r.0) r.1.now) }
    ensures none { IfNone result (BeginsNone table_type bytes.now) }
{
    let Some((element_type, rest)) = front_ref_type(bytes) else {
        return None;
    };
    let Some((flags, rest)) = front_byte(rest) else {
        return None;
    };
    if flags >= 8 {
        return None;
    }
    match front_limits(flags, rest) {
        Some((limits, rest)) => Some((
            TableType {
                element_type,
                table64: limits.wide,
                initial: limits.initial,
                maximum: limits.maximum,
                shared: limits.shared,
            },
            rest,
        )),
        None => None,
    }
}

/// The memory type at the front of some bytes, and the bytes behind it (WebAssembly Core Specification 3.0, section 5.3.12).
pub fn front_memory_type(bytes: &[u8]) -> Option<(MemoryType, &[u8])>
    ensures some { IfSome result (λ r.
        Begins memory_type bytes.now (memory_type_tree r.0) r.1.now) }
    ensures none { IfNone result (BeginsNone memory_type bytes.now) }
{
    let Some((flags, rest)) = front_byte(bytes) else {
        return None;
    };
    if flags >= 16 {
        return None;
    }
    match front_limits(flags, rest) {
        Some((limits, rest)) => Some((
            MemoryType {
                memory64: limits.wide,
                shared: limits.shared,
                initial: limits.initial,
                maximum: limits.maximum,
                page_size_log2: limits.page,
            },
            rest,
        )),
        None => None,
    }
}

/// The global type at the front of some bytes, and the bytes behind it (WebAssembly Core Specification 3.0, section 5.3.13).
pub fn front_global_type(bytes: &[u8]) -> Option<(GlobalType, &[u8])>
    ensures some { IfSome result (λ r.
        Begins global_type bytes.now (global_type_tree r.0) r.1.now) }
    ensures none { IfNone result (BeginsNone global_type bytes.now) }
{
    let Some((content_type, rest)) = front_val_type(bytes) else {
        return None;
    };
    let Some((flags, rest)) = front_byte(rest) else {
        return None;
    };
    match flags {
        0x00 => Some((
            GlobalType {
                content_type,
                mutable: false,
                shared: false,
            },
            rest,
        )),
        0x01 => Some((
            GlobalType {
                content_type,
                mutable: true,
                shared: false,
            },
            rest,
        )),
        0x02 => Some((
            GlobalType {
                content_type,
                mutable: false,
                shared: true,
            },
            rest,
        )),
        0x03 => Some((
            GlobalType {
                content_type,
                mutable: true,
                shared: true,
            },
            rest,
        )),
        _ => None,
    }
}

/// The tag type at the front of some bytes, and the bytes behind it (WebAssembly Core Specification 3.0, section 5.3.14).
pub fn front_tag_type(bytes: &[u8]) -> Option<(TagType, &[u8])>
    ensures some { IfSome result (λ r. Begins tag_type bytes.now (tag_type_tree r.0) r.1.now) }
    ensures none { IfNone result (BeginsNone tag_type bytes.now) }
{
    let Some((first, rest)) = front_byte(bytes) else {
        return None;
    };
    if first != 0x00 {
        return None;
    }
    match front_u32(rest) {
        Some((func_type_idx, rest)) => Some((
            TagType {
                kind: TagKind::Exception,
                func_type_idx,
            },
            rest,
        )),
        None => None,
    }
}

/// The type of what is imported at the front of some bytes, and the bytes behind it.
pub fn front_type_ref(bytes: &[u8]) -> Option<(TypeRef, &[u8])>
    ensures some { IfSome result (λ r. Begins entity bytes.now (entity_tree r.0) r.1.now) }
    ensures none { IfNone result (BeginsNone entity bytes.now) }
{
    let Some((first, rest)) = front_byte(bytes) else {
        return None;
    };
    match first {
        0x00 => match front_u32(rest) {
            Some((index, rest)) => Some((TypeRef::Func(index), rest)),
            None => None,
        },
        0x01 => match front_table_type(rest) {
            Some((ty, rest)) => Some((TypeRef::Table(ty), rest)),
            None => None,
        },
        0x02 => match front_memory_type(rest) {
            Some((ty, rest)) => Some((TypeRef::Memory(ty), rest)),
            None => None,
        },
        0x03 => match front_global_type(rest) {
            Some((ty, rest)) => Some((TypeRef::Global(ty), rest)),
            None => None,
        },
        0x04 => match front_tag_type(rest) {
            Some((ty, rest)) => Some((TypeRef::Tag(ty), rest)),
            None => None,
        },
        0x20 => match front_u32(rest) {
            Some((index, rest)) => Some((TypeRef::FuncExact(index), rest)),
            None => None,
        },
        _ => None,
    }
}

/// The type of what is imported that is spelled at a place, and the place after it (WebAssembly Core Specification 3.0,
/// section 5.3.15).
///
/// The error holds the place that was asked for, and comes exactly where no such type begins there, as past the end.
pub fn read_type_ref(bytes: &[u8], at: usize) -> Result<(TypeRef, usize), ReadError>
    ensures ok { IfOk result (λ r.
        Begins entity (drop at bytes.now) (entity_tree r.0) (drop r.1 bytes.now)) }
    ensures forward { IfOk result (λ r. (at < r.1) × (r.1 ≤ length bytes.now)) }
    ensures err { IfErr result (λ e. (e.at ≡ at) × BeginsNone entity (drop at bytes.now)) }
{
    match front_type_ref(from_place(bytes, at)) {
        Some((ty, rest)) => Ok((ty, bytes.len() - rest.len())),
        None => Err(ReadError { at }),
    }
}

/// What is imported from a module behind an empty name, at the front of some bytes, and the bytes behind it.
fn front_unnamed<'a>(module: &'a str, bytes: &'a [u8]) -> Option<(Imports<'a>, &'a [u8])>
    ensures some { IfSome result (λ r. IsUnnamed «module».now bytes.now (import_tree r.0) r.1.now) }
    ensures none { IfNone result (BeginsNone unnamed bytes.now) }
{
    let Some((form, rest)) = front_byte(bytes) else {
        return None;
    };
    match form {
        0x7f => match CompactItems::front(rest) {
            Some((items, rest)) => Some((Imports::Compact1 { module, items }, rest)),
            None => None,
        },
        0x7e => {
            let Some((ty, rest)) = front_type_ref(rest) else {
                return None;
            };
            match CompactNames::front(rest) {
                Some((names, rest)) => Some((Imports::Compact2 { module, ty, names }, rest)),
                None => None,
            }
        }
        _ => match front_type_ref(bytes) {
            Some((ty, rest)) => {
                let name = "";
                Some((Imports::Single(Import { module, name, ty }), rest))
            }
            None => None,
        },
    }
}

/// The import at the front of some bytes, and the bytes behind it.
pub fn front_import(bytes: &[u8]) -> Option<(Imports<'_>, &[u8])>
    ensures some { IfSome result (λ r. Begins import_row bytes.now (import_tree r.0) r.1.now) }
    ensures none { IfNone result (BeginsNone import_row bytes.now) }
{
    let Some((module, rest)) = front_name(bytes) else {
        return None;
    };
    let Some((name, rest)) = front_name(rest) else {
        return None;
    };
    if name.is_empty() {
        return match front_unnamed(module, rest) {
            Some((imports, rest)) => Some((imports, rest)),
            None => None,
        };
    }
    match front_type_ref(rest) {
        Some((ty, rest)) => Some((Imports::Single(Import { module, name, ty }), rest)),
        None => None,
    }
}

/// The table at the front of some bytes, and the bytes behind it. Behind two bytes stands one that starts with the value of
/// an expression; the others start with null references.
pub fn front_table(bytes: &[u8]) -> Option<(Table<'_>, &[u8])>
    ensures some { IfSome result (λ r. Begins table_row bytes.now (table_tree r.0) r.1.now) }
    ensures none { IfNone result (BeginsNone table_row bytes.now) }
{
    let Some((first, rest)) = front_byte(bytes) else {
        return None;
    };
    if first != 0x40 {
        return match front_table_type(bytes) {
            Some((ty, rest)) => Some((
                Table {
                    ty,
                    init: TableInit::RefNull,
                },
                rest,
            )),
            None => None,
        };
    }
    let Some((second, rest)) = front_byte(rest) else {
        return None;
    };
    if second != 0x00 {
        return None;
    }
    let Some((ty, rest)) = front_table_type(rest) else {
        return None;
    };
    match front_expr(rest) {
        Some((expr, rest)) => Some((
            Table {
                ty,
                init: TableInit::Expr(expr),
            },
            rest,
        )),
        None => None,
    }
}

/// The global at the front of some bytes with the expression of its first value, and the bytes behind it.
pub fn front_global(bytes: &[u8]) -> Option<(Global<'_>, &[u8])>
    ensures some { IfSome result (λ r. Begins global_row bytes.now (global_tree r.0) r.1.now) }
    ensures none { IfNone result (BeginsNone global_row bytes.now) }
{
    let Some((ty, rest)) = front_global_type(bytes) else {
        return None;
    };
    match front_expr(rest) {
        Some((init_expr, rest)) => Some((Global { ty, init_expr }, rest)),
        None => None,
    }
}
