//! Fields at the front of some bytes, and at a place of some bytes.
ghost use Rattle.std.specs.Prelude.{◌≡◌, ◌≢◌, ◌<◌, ◌≤◌, length, drop, IfOk, IfErr, IfSome, IfNone};
ghost use Rattle.wasm_shapes.specs.Module.{function_row, export_row};
ghost use Rattle.wasm_shapes.specs.Place.{Begins, BeginsNone};
ghost use Rattle.wasm_shapes.specs.Shape.{Shape, Named};
ghost use Rattle.wasm_shapes.specs.Tree.{Tree};
ghost use Rattle.wasm_read.specs.Types.{function_tree, item_tree, kind_byte, SaysKind, export_tree, ExportKind};

use crate::types::{Export, ExternalKind};
use wasm_leb::{ReadError, front_byte, front_u32};

/// The name at the front of some bytes, and the bytes behind it.
pub fn front_name(bytes: &[u8]) -> Option<(&str, &[u8])>
    ensures some { IfSome result (λ r. Begins Shape.name bytes.now (Tree.name r.0.now) r.1.now) }
    ensures none { IfNone result (BeginsNone Shape.name bytes.now) }
{
    let Some((len, rest)) = front_u32(bytes) else {
        return None;
    };
    let len = len as usize;
    if rest.len() < len {
        return None;
    }
    let (text, rest) = rest.split_at(len);
    match str::from_utf8(text) {
        Ok(text) => Some((text, rest)),
        Err(_) => None,
    }
}

/// The bytes from a place on: none from a place past the end.
pub fn from_place(bytes: &[u8], at: usize) -> &[u8]
    ensures { result.now ≡ drop at bytes.now }
{
    if at < bytes.len() { &bytes[at..] } else { &[] }
}

/// The name that is spelled at a place, and the place after it: a length as a u32, and that many bytes of UTF-8
/// (WebAssembly Core Specification 3.0, section 5.2.4).
///
/// The error holds the place that was asked for, and comes exactly where no name begins there, as past the end.
pub fn read_name(bytes: &[u8], at: usize) -> Result<(&str, usize), ReadError>
    ensures ok { IfOk result (λ r.
        Begins Shape.name (drop at bytes.now) (Tree.name r.0.now) (drop r.1 bytes.now)) }
    ensures forward { IfOk result (λ r. (at < r.1) × (r.1 ≤ length bytes.now)) }
    ensures err { IfErr result (λ e. (e.at ≡ at) × BeginsNone Shape.name (drop at bytes.now)) }
{
    match front_name(from_place(bytes, at)) {
        Some((name, rest)) => Ok((name, bytes.len() - rest.len())),
        None => Err(ReadError { at }),
    }
}

/// The index of a function's type at the front of some bytes, and the bytes behind it.
#[tactic(auto, using(wasm_shapes::proofs::Begins::begins_ix, wasm_shapes::proofs::Begins::none_ix))]
pub fn front_function(bytes: &[u8]) -> Option<(u32, &[u8])>
    ensures some { IfSome result (λ r. Begins function_row bytes.now (function_tree r.0) r.1.now) }
    ensures none { IfNone result (BeginsNone function_row bytes.now) }
{
    front_u32(bytes)
}

/// The kind of what is exported that a byte spells.
#[inline]
fn kind_of(byte: u8) -> Option<ExternalKind>
    ensures some { IfSome result (λ kind. byte ≡ kind_byte kind) }
    ensures none { IfNone result ((0x04 < byte) × (byte ≢ 0x20)) }
{
    match byte {
        0x00 => Some(ExternalKind::Func),
        0x01 => Some(ExternalKind::Table),
        0x02 => Some(ExternalKind::Memory),
        0x03 => Some(ExternalKind::Global),
        0x04 => Some(ExternalKind::Tag),
        0x20 => Some(ExternalKind::FuncExact),
        _ => None,
    }
}

/// The kind and the index of what is exported, at the front of some bytes, and the bytes behind them.
pub fn front_item(bytes: &[u8]) -> Option<(ExternalKind, u32, &[u8])>
    ensures some { IfSome result (λ r.
        Begins (Shape.ref Named.item) bytes.now (item_tree r.0 r.1) r.2.now) }
    ensures kind { IfSome result (λ r. SaysKind r.0 bytes.now) }
    ensures none { IfNone result (BeginsNone (Shape.ref Named.item) bytes.now) }
{
    let Some((first, rest)) = front_byte(bytes) else {
        return None;
    };
    let Some(kind) = kind_of(first) else {
        return None;
    };
    match front_u32(rest) {
        Some((index, rest)) => Some((kind, index, rest)),
        None => None,
    }
}

/// The kind and the index of what is exported that are spelled at a place, and the place after them (WebAssembly Core
/// Specification 3.0, section 5.5.10). The kind is that of the first byte.
///
/// The error holds the place that was asked for, and comes exactly where no such item begins there, as past the end.
pub fn read_item(bytes: &[u8], at: usize) -> Result<(ExternalKind, u32, usize), ReadError>
    ensures ok { IfOk result (λ r.
        Begins (Shape.ref Named.item) (drop at bytes.now)
        (item_tree r.0 r.1) (drop r.2 bytes.now)) }
    ensures kind { IfOk result (λ r. SaysKind r.0 (drop at bytes.now)) }
    ensures forward { IfOk result (λ r. (at < r.2) × (r.2 ≤ length bytes.now)) }
    ensures err { IfErr result (λ e.
        (e.at ≡ at) × BeginsNone (Shape.ref Named.item) (drop at bytes.now)) }
{
    match front_item(from_place(bytes, at)) {
        Some((kind, index, rest)) => Ok((kind, index, bytes.len() - rest.len())),
        None => Err(ReadError { at }),
    }
}

/// The export at the front of some bytes, and the bytes behind it.
pub fn front_export(bytes: &[u8]) -> Option<(Export<'_>, &[u8])>
    ensures some { IfSome result (λ r. Begins export_row bytes.now (export_tree r.0) r.1.now) }
    ensures kind { IfSome result (λ r. ExportKind bytes.now r.0) }
    ensures none { IfNone result (BeginsNone export_row bytes.now) }
{
    let Some((name, rest)) = front_name(bytes) else {
        return None;
    };
    match front_item(rest) {
        Some((kind, index, rest)) => Some((Export { name, kind, index }, rest)),
        None => None,
    }
}
