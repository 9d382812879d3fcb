//! What the sections of a binary become, one by one.
ghost use Rattle.std.specs.Prelude.{◌≡◌, ◌≢◌, ℕ, ◌+◌, ◌-◌, ◌*◌, ◌<◌, ◌^◌, ◌++◌, ◌∷◌, List, length, IfSome, IfNone, IfOk, IfErr, OnOk, true};
ghost use Rattle.std.specs.Bool.{Decides};
ghost use Rattle.wasm_leb.specs.Leb.{leb};
ghost use Rattle.wasm_shapes.specs.Module.{frame, numbered_frame};
ghost use Rattle.wasm_shapes.specs.Spells.{Spells};
ghost use Rattle.wasm_read.specs.Frames.{IsUnknown, frame_tree};
ghost use Rattle.wasm_strip.specs.Binaries.{header_of, held, sized};
ghost use Rattle.wasm_strip.specs.Choices.{AreNames};
ghost use Rattle.wasm_strip.specs.Faults.{LacksHeader};
ghost use Rattle.wasm_strip.specs.Sorted.{SortsNames};
ghost use Rattle.wasm_strip.specs.Tidied.{HasNames};
ghost use Rattle.wasm_strip.specs.Steps.{AddsKept, FailsBefore, FailsOr};

use crate::fault::StripFault;
use crate::names::has_names;
use crate::rule::StripRule;
use crate::sorting::add_names;
use std::alloc::Global;
use wasm_leb::{Kind, NoMemory, write_u32};
use wasm_read::{Payload, front_frame};

/// The bytes at the front of a core module.
const MODULE: [u8; 8] = [0x00, 0x61, 0x73, 0x6d, 0x01, 0x00, 0x00, 0x00];

/// The bytes at the front of a component.
const COMPONENT: [u8; 8] = [0x00, 0x61, 0x73, 0x6d, 0x0d, 0x00, 0x01, 0x00];

/// Adds some bytes.
fn add_bytes(out: &mut Vec<u8>, text: &[u8]) -> Result<(), StripFault>
    ensures ok { OnOk result (out.new.items ≡ out.old.items ++ text.now) }
    ensures err { IfErr result (λ e. e ≡ StripFault.NoMemory) }
{
    match out.extend_from_slice(text) {
        Ok(()) => Ok(()),
        Err(_) => Err(StripFault::NoMemory),
    }
}

/// Adds an id, and a body behind its shortest size.
fn add_sized(out: &mut Vec<u8>, id: u8, body: &[u8]) -> Result<(), StripFault>
    requires { length body.now < 2 ^ 32 }
    ensures ok { OnOk result (out.new.items ≡ out.old.items ++ sized id body.now) }
    ensures err { IfErr result (λ e. e ≡ StripFault.NoMemory) }
{
    match out.push(id) {
        Ok(()) => {}
        Err(_) => return Err(StripFault::NoMemory),
    }
    match write_u32(out, body.len() as u32) {
        Ok(()) => add_bytes(out, body),
        Err(_) => Err(StripFault::NoMemory),
    }
}

/// A binary of a kind that has its header alone, with room for so many bytes in all.
pub(crate) fn begun(alloc: Global, kind: Kind, room: usize) -> Result<Vec<u8>, StripFault>
    ensures ok { IfOk result (λ out. out.items ≡ header_of kind) }
    ensures err { IfErr result (λ e. e ≡ StripFault.NoMemory) }
{
    let Ok(mut out) = Vec::with_capacity(alloc, room) else {
        return Err(StripFault::NoMemory);
    };
    match kind {
        Kind::Module => add_bytes(&mut out, &MODULE)?,
        Kind::Component => add_bytes(&mut out, &COMPONENT)?,
    }
    Ok(out)
}

/// The bytes behind the header of a binary of a kind. None exactly where the bytes do not begin with it.
pub(crate) fn behind_header(kind: Kind, bytes: &[u8]) -> Option<&[u8]>
    ensures some { IfSome result (λ rest. bytes.now ≡ header_of kind ++ rest.now) }
    ensures none { IfNone result (LacksHeader kind bytes.now) }
{
    match (kind, bytes) {
        (Kind::Module, [0x00, 0x61, 0x73, 0x6d, 0x01, 0x00, 0x00, 0x00, rest @ ..]) => Some(rest),
        (Kind::Component, [0x00, 0x61, 0x73, 0x6d, 0x0d, 0x00, 0x01, 0x00, rest @ ..]) => Some(
            rest,
        ),
        _ => None,
    }
}

/// Whether names are sorted and a section has some.
fn sorts_names(sorts: bool, kind: Kind, name: &str, contents: &[u8]) -> bool
    ensures { Decides result ((sorts ≡ true) × HasNames kind name.now contents.now) }
{
    sorts && has_names(kind, name, contents)
}

/// Adds a section whose contents are names, with these in order.
fn add_in_order(
    alloc: Global,
    text: &[u8],
    contents: &[u8],
    out: &mut Vec<u8>,
) -> Result<(), StripFault>
    requires cut { (before : List ℕ) × (text.now ≡ before ++ contents.now) }
    requires names { AreNames contents.now }
    ensures ok { OnOk result ((front sorted : List ℕ) × (text.now ≡ front ++ contents.now)
        × SortsNames contents.now sorted × (out.new.items ≡ out.old.items ++ (front ++ sorted))) }
    ensures err { IfErr result (λ e. e ≡ StripFault.NoMemory) }
{
    let (front, _) = text.split_at(text.len() - contents.len());
    add_bytes(out, front)?;
    match add_names(alloc, contents, out) {
        Ok(()) => Ok(()),
        Err(NoMemory) => Err(StripFault::NoMemory),
    }
}

/// The kind of the binary that a section of this id holds.
fn held(kind: Kind, id: u8) -> Option<Kind>
    ensures { result ≡ held kind id }
{
    match kind {
        Kind::Module => None,
        Kind::Component => match id {
            1 => Some(Kind::Module),
            4 => Some(Kind::Component),
            _ => None,
        },
    }
}

/// Adds what the sections of a binary of a kind become. They begin at a place, and binaries may stand so deep within each other.
#[cycle(sections)]
pub(crate) fn add_sections<N: StripRule>(
    alloc: Global,
    rule: &N,
    sorts: bool,
    kind: Kind,
    bytes: &[u8],
    at: usize,
    depth: usize,
    out: &mut Vec<u8>,
) -> Result<(), StripFault>
    requires { at + length bytes.now < 2 ^ 64 }
    ensures ok { OnOk result (AddsKept (N.removed rule.now) sorts depth kind bytes.now out.old.items out.new.items) }
    ensures err { IfErr result (λ e. FailsOr at depth kind bytes.now e) }
{
    let mut rest = bytes;
    'sections: while !rest.is_empty() {
        let place = at + (bytes.len() - rest.len());
        let Some((payload, left)) = front_frame(rest, place) else {
            return Err(StripFault::Read { at: place });
        };
        let (text, _) = rest.split_at(rest.len() - left.len());
        add_section(alloc, rule, sorts, kind, payload, text, place, depth, out)?;
        rest = left;
    }
    Ok(())
}

/// Adds a section that stays: as its text stands, its names in order where they are sorted, or where it holds a binary with what
/// that becomes.
#[cycle(sections)]
fn add_section<N: StripRule>(
    alloc: Global,
    rule: &N,
    sorts: bool,
    kind: Kind,
    payload: Payload<'_>,
    text: &[u8],
    at: usize,
    depth: usize,
    out: &mut Vec<u8>,
) -> Result<(), StripFault>
    requires room { at + length text.now < 2 ^ 64 }
    requires framed { Spells frame text.now (frame_tree payload) }
    requires unknown { IsUnknown payload }
    ensures ok { OnOk result (AddsKept (N.removed rule.now) sorts depth kind text.now out.old.items out.new.items) }
    ensures err { IfErr result (λ e. FailsBefore at depth kind text.now e) }
{
    match payload {
        Payload::Custom { section, .. } => {
            if rule.removes(kind, section.name, section.contents) {
                return Ok(());
            }
            if sorts_names(sorts, kind, section.name, section.contents) {
                return add_in_order(alloc, text, section.contents, out);
            }
            add_bytes(out, text)
        }
        Payload::Section { id, body, .. } => {
            add_numbered(
                alloc, rule, sorts, kind, id as u8, body, text, at, depth, out,
            )
        }
        Payload::Unknown { id, contents, .. } => {
            add_numbered(alloc, rule, sorts, kind, id, contents, text, at, depth, out)
        }
    }
}

/// The same of a section of another id than that of custom ones.
#[cycle(sections)]
fn add_numbered<N: StripRule>(
    alloc: Global,
    rule: &N,
    sorts: bool,
    kind: Kind,
    id: u8,
    body: &[u8],
    text: &[u8],
    at: usize,
    depth: usize,
    out: &mut Vec<u8>,
) -> Result<(), StripFault>
    requires room { at + length text.now < 2 ^ 64 }
    requires framed { Spells frame text.now (numbered_frame id body.now) }
    ensures ok { OnOk result (AddsKept (N.removed rule.now) sorts depth kind text.now out.old.items out.new.items) }
    ensures err { IfErr result (λ e. FailsBefore at depth kind text.now e) }
{
    let Some(inside) = held(kind, id) else {
        return add_bytes(out, text);
    };
    if depth == 0 {
        return Err(StripFault::TooDeep { at });
    }
    let start = at + (text.len() - body.len());
    let Some(rest) = behind_header(inside, body) else {
        return Err(StripFault::Read { at: start });
    };
    let mut inner = begun(alloc, inside, 0)?;
    add_sections(
        alloc,
        rule,
        sorts,
        inside,
        rest,
        start + 8,
        depth - 1,
        &mut inner,
    )?;
    add_sized(out, id, &inner)
}
