//! The sections of a binary, as they stand in a file.
ghost use Rattle.std.specs.Prelude.{◌≡◌, ◌++◌, ◌+◌, ◌<◌, ◌≤◌, ◌^◌, ◌∷◌, ℕ, List, [], length, IfNone, IfOk, IfSome, OnOk};
ghost use Rattle.wasm_reencode.specs.declared.sections.Layer.{Layer};
ghost use Rattle.wasm_reencode.specs.declared.sections.Section.{Section};
ghost use Rattle.wasm_reencode.specs.Sections.{AreListed, IsAtIn, IsHeadless, IsInner, IsSection, deepest, header, is_binary, kind_name};

use std::alloc::{AllocError, Global};
use wasm_leb::{front_byte, front_u32};
use wasm_read::{front_name, front_sized};

/// How deep binaries may stand within each other, below the outermost.
const DEEPEST: usize = 200;

/// What a binary is.
#[derive(Clone, Copy, Debug, PartialEq, Eq)]
pub enum Layer {
    /// A core module.
    Module,
    /// A component.
    Component,
}

/// A section, as it stands in a file.
#[derive(Clone, Copy, Debug)]
pub struct Section<'a> {
    /// What it is a section of.
    pub layer: Layer,
    /// How many binaries it stands in, beside the outermost.
    pub depth: usize,
    /// How many sections stand before it in its binary.
    pub number: usize,
    /// Its id.
    pub id: u8,
    /// Where it begins, counted from the first byte of the header.
    pub start: usize,
    /// What stands behind its size, and the bytes behind that. There is none where its size passes the end.
    pub frame: Option<(&'a [u8], &'a [u8])>,
}

/// What the section of an id is called in a core module.
pub fn core_name(id: u8) -> &'static str
    ensures { result.now ≡ kind_name Layer.Module id }
{
    match id {
        0 => "custom",
        1 => "type",
        2 => "import",
        3 => "function",
        4 => "table",
        5 => "memory",
        6 => "global",
        7 => "export",
        8 => "start",
        9 => "element",
        10 => "code",
        11 => "data",
        12 => "data count",
        13 => "tag",
        _ => "unknown",
    }
}

/// What the section of an id is called in a component.
fn component_name(id: u8) -> &'static str
    ensures { result.now ≡ kind_name Layer.Component id }
{
    match id {
        0 => "custom",
        1 => "core module",
        2 => "core instance",
        3 => "core type",
        4 => "component",
        5 => "instance",
        6 => "alias",
        7 => "type",
        8 => "canon",
        9 => "start",
        10 => "import",
        11 => "export",
        12 => "value",
        _ => "unknown",
    }
}

impl<'a> Section<'a> {
    ghost use Rattle.std.specs.Prelude.{◌≡◌, ℕ, List, IfNone, IfSome};
    ghost use Rattle.wasm_reencode.specs.Sections.{HasCode, HasName, HasRows, is_binary, is_vector, kind_name};

    /// What its id is called.
    pub fn kind_name(&self) -> &'static str
        ensures { result.now ≡ kind_name self.now.layer self.now.id }
    {
        match self.layer {
            Layer::Module => core_name(self.id),
            Layer::Component => component_name(self.id),
        }
    }

    /// Whether it is a vector of rows.
    fn is_vector(&self) -> bool
        ensures { result ≡ is_vector self.now.layer self.now.id }
    {
        match self.layer {
            Layer::Module => matches!(self.id, 1..=7 | 9..=11 | 13),
            Layer::Component => matches!(self.id, 2 | 3 | 5..=8 | 10..=12),
        }
    }

    /// How many rows it has, where it is a vector.
    pub fn rows(&self) -> Option<u32>
        ensures some { IfSome result (HasRows self.now) }
        ensures none { IfNone result ((n : ℕ) → ¬ HasRows self.now n) }
    {
        let (body, _) = self.frame?;
        if !self.is_vector() {
            return None;
        }
        let (rows, _) = front_u32(body)?;
        Some(rows)
    }

    /// The name of a custom section.
    pub fn custom_name(&self) -> Option<&'a str>
        ensures some { IfSome result (λ name. HasName self.now name.now) }
        ensures none { IfNone result ((name : List ℕ) → ¬ HasName self.now name) }
    {
        let (body, _) = self.frame?;
        if self.id != 0 {
            return None;
        }
        match front_name(body) {
            Some((name, _)) => Some(name),
            None => None,
        }
    }

    /// What stands in a code section.
    pub fn code(&self) -> Option<&'a [u8]>
        ensures some { IfSome result (λ body. HasCode self.now body.now) }
        ensures none { IfNone result ((body : List ℕ) → ¬ HasCode self.now body) }
    {
        let (body, _) = self.frame?;
        match self.layer {
            Layer::Module if self.id == 10 => Some(body),
            _ => None,
        }
    }

    /// Whether it is a whole binary.
    pub fn is_binary(&self) -> bool
        ensures { result ≡ is_binary self.now.layer self.now.id }
    {
        is_binary(self.layer, self.id)
    }
}

/// Whether the section of an id is a whole binary.
fn is_binary(layer: Layer, id: u8) -> bool
    ensures { result ≡ is_binary layer id }
{
    match layer {
        Layer::Module => false,
        Layer::Component => id == 1 || id == 4,
    }
}

/// What some bytes are by their header, and the bytes behind that.
pub fn header_of(bytes: &[u8]) -> Option<(Layer, &[u8])>
    ensures some { IfSome result (λ r. bytes.now ≡ header r.0 ++ r.1.now) }
    ensures none { IfNone result (IsHeadless bytes.now) }
{
    match bytes {
        [0x00, 0x61, 0x73, 0x6d, 0x01, 0x00, 0x00, 0x00, rest @ ..] => Some((Layer::Module, rest)),
        [0x00, 0x61, 0x73, 0x6d, 0x0d, 0x00, 0x01, 0x00, rest @ ..] => {
            Some((Layer::Component, rest))
        }
        _ => None,
    }
}

/// The section at the front of some bytes.
fn front_section<'a>(
    layer: Layer,
    depth: usize,
    number: usize,
    start: usize,
    bytes: &'a [u8],
) -> Option<Section<'a>>
    ensures some { IfSome result (IsSection layer depth number start bytes.now) }
    ensures none { IfNone result (bytes.now ≡ []) }
{
    let (id, behind) = front_byte(bytes)?;
    Some(Section {
        layer,
        depth,
        number,
        id,
        start,
        frame: front_sized(behind),
    })
}

/// The section that a place stands in, or the first before it whose size passes the end.
pub fn section_at<'a>(bytes: &'a [u8], place: usize) -> Option<Section<'a>>
    ensures { IsAtIn bytes.now place result }
{
    let (layer, mut rest) = header_of(bytes)?;
    'sections: for number in 0..bytes.len() {
        let start = bytes.len() - rest.len();
        let Some(section) = front_section(layer, 0, number, start, rest) else {
            return None;
        };
        let Some((_, behind)) = section.frame else {
            return Some(section);
        };
        if place < start + (rest.len() - behind.len()) {
            return Some(section);
        }
        rest = behind;
    }
    None
}

/// Adds the sections of a binary, which begin at a place, and behind each that is a binary those in it.
#[cycle(sections)]
fn add_sections<'a>(
    all: &mut Vec<Section<'a>>,
    layer: Layer,
    bytes: &'a [u8],
    place: usize,
    depth: usize,
) -> Result<(), AllocError>
    requires place { place + length bytes.now < 2 ^ 64 }
    requires depth { depth ≤ deepest }
    ensures { OnOk result ((found : List Section) × (all.new.items ≡ all.old.items ++ found)
        × AreListed layer depth 0 place bytes.now found) }
{
    let mut rest = bytes;
    'sections: for number in 0..bytes.len() {
        let start = place + (bytes.len() - rest.len());
        let Some(section) = front_section(layer, depth, number, start, rest) else {
            return Ok(());
        };
        all.push(section)?;
        let Some((body, behind)) = section.frame else {
            return Ok(());
        };
        let end = start + (rest.len() - behind.len());
        add_inner(all, layer, section.id, body, end, depth)?;
        rest = behind;
    }
    Ok(())
}

/// Adds the sections in one whose body ends at a place, where it is a binary and does not stand too deep.
#[cycle(sections)]
fn add_inner<'a>(
    all: &mut Vec<Section<'a>>,
    layer: Layer,
    id: u8,
    body: &'a [u8],
    end: usize,
    depth: usize,
) -> Result<(), AllocError>
    requires place { length body.now ≤ end }
    requires depth { depth ≤ deepest }
    ensures { OnOk result ((inner : List Section) × (all.new.items ≡ all.old.items ++ inner)
        × IsInner layer depth id end body.now inner) }
{
    if depth < DEEPEST && is_binary(layer, id) {
        if let Some((inner, sections)) = header_of(body) {
            return add_sections(all, inner, sections, end - sections.len(), depth + 1);
        }
    }
    Ok(())
}

/// The sections of a binary, each with those in it behind it, or none where no header of one stands there.
pub fn sections_of<'a>(
    alloc: Global,
    bytes: &'a [u8],
) -> Result<Option<Vec<Section<'a>>>, AllocError>
    ensures some { IfOk result (λ found. IfSome found (λ all. (l : Layer) × (rest : List ℕ) × (bytes.now ≡ header l ++ rest)
        × AreListed l 0 0 8 rest all.items)) }
    ensures none { IfOk result (λ found. IfNone found (IsHeadless bytes.now)) }
{
    let Some((layer, sections)) = header_of(bytes) else {
        return Ok(None);
    };
    let mut all = Vec::new(alloc);
    add_sections(&mut all, layer, sections, 8, 0)?;
    Ok(Some(all))
}
