//! The sections of a module, frame by frame (WebAssembly Core Specification 3.0, sections 5.5.2 and 5.5.17).
ghost use Rattle.std.specs.Prelude.{◌≡◌, ◌≤◌, ◌<◌, ◌⊎◌, ◌↔◌, [], IfOk, IfErr, IfSome, IfNone, IsTrue};
ghost use Rattle.wasm_shapes.specs.CodeSize.{InvalidCodeSize};
ghost use Rattle.wasm_shapes.specs.Module.{frame};
ghost use Rattle.wasm_shapes.specs.Place.{Begins, BeginsNone};
ghost use Rattle.wasm_shapes.specs.Shape.{Shape};
ghost use Rattle.wasm_shapes.specs.Tree.{Tree};
ghost use Rattle.wasm_read.specs.Frames.{section_number, numbered_frame, frame_tree, payload_at, IsUnknown, sections_place, HeaderRead, NoCoreHeader};
ghost use Rattle.wasm_read.specs.Payloads.{NoFrame};

use crate::fields::front_name;
use crate::types::{CustomSection, Payload};
use std::marker::Model;
use wasm_leb::{Fault, Kind, ReadError, front_byte, front_u32};
use wasm_shapes::SectionId;

/// A reader of the sections of a module.
#[derive(Drop)]
pub struct Payloads<'a> {
    rest: &'a [u8],
    len: usize,
}

impl<'a> Model for Payloads<'a> {
    ghost use Rattle.wasm_read.specs.Frames.{Sections};

    ghost Value = { Sections };

    ghost view = { λ payloads. record { rest = payloads.rest.now; len = payloads.len } };
}

impl<'a> Payloads<'a> {
    /// Reads the header of a module.
    ///
    /// The error is `Header(Component)` exactly where the header of a component stands there, and `Read` with the
    /// place 0 exactly where neither header does.
    pub fn new(bytes: &'a [u8]) -> Result<Payloads<'a>, Fault>
        ensures ok { IfOk result (λ payloads. HeaderRead bytes.now payloads) }
        ensures err { IfErr result (λ e. NoCoreHeader e bytes.now) }
    {
        match bytes {
            [0x00, 0x61, 0x73, 0x6d, 0x01, 0x00, 0x00, 0x00, rest @ ..] => Ok(Payloads {
                rest,
                len: bytes.len(),
            }),
            [0x00, 0x61, 0x73, 0x6d, 0x0d, 0x00, 0x01, 0x00, ..] => {
                Err(Fault::Header(Kind::Component))
            }
            _ => Err(Fault::Read(ReadError { at: 0 })),
        }
    }

    /// The place where it stands, counted from the first byte of the header.
    pub fn place(&self) -> usize
        ensures { result ≡ sections_place self.now }
    {
        self.len.saturating_sub(self.rest.len())
    }

    /// The frame of the next section, or none at the end.
    ///
    /// The error comes exactly where no frame begins: there is none of an id of 128 or more, and one of the id 0 has a
    /// body that begins with a name. It is `CodeSize` exactly where a code section states a size past the end and a u32 can
    /// be read after that size; else it is `Read` and holds the place where the frame is due, counted from the first byte
    /// of the header. It leaves the reader where it stood. No memory is taken.
    pub fn next(&mut self) -> Result<Option<Payload<'a>>, Fault>
        ensures some { IfOk result (λ o. IfSome o (λ p.
            Begins frame self.old.rest (frame_tree p) self.new.rest)) }
        ensures at { IfOk result (λ o. IfSome o (λ p. payload_at p ≡ sections_place self.old)) }
        ensures unknown { IfOk result (λ o. IfSome o (λ p. IsUnknown p)) }
        ensures ended { IfOk result (λ o. IfNone o ((self.old.rest ≡ []) × (self.new ≡ self.old))) }
        ensures err { IfErr result (λ e. NoFrame e self.old.rest (sections_place self.old)) }
        ensures stays { IfErr result (λ _. self.new ≡ self.old) }
        ensures len { self.new.len ≡ self.old.len }
    {
        if self.rest.is_empty() {
            return Ok(None);
        }
        let at = self.place();
        match front_frame(self.rest, at) {
            Some((payload, rest)) => {
                self.rest = rest;
                Ok(Some(payload))
            }
            None if has_invalid_code_size(self.rest) => Err(Fault::CodeSize),
            None => Err(Fault::Read(ReadError { at })),
        }
    }
}

/// Whether some bytes begin with a code section whose size passes their end, and the number behind it can be read.
fn has_invalid_code_size(bytes: &[u8]) -> bool
    ensures { IsTrue result ↔ InvalidCodeSize bytes.now }
{
    let Some((0x0a, rest)) = front_byte(bytes) else {
        return false;
    };
    let Some((size, body)) = front_u32(rest) else {
        return false;
    };
    if body.len() >= size as usize {
        return false;
    }
    match front_u32(body) {
        Some(_) => true,
        None => false,
    }
}

/// The body at the front of some bytes, behind its size, and the bytes behind it.
pub fn front_sized(bytes: &[u8]) -> Option<(&[u8], &[u8])>
    ensures some { IfSome result (λ r.
        Begins (Shape.sized Shape.rest) bytes.now (Tree.sized (Tree.raw r.0.now)) r.1.now) }
    ensures none { IfNone result (BeginsNone (Shape.sized Shape.rest) bytes.now) }
{
    let Some((len, rest)) = front_u32(bytes) else {
        return None;
    };
    let len = len as usize;
    if rest.len() < len {
        return None;
    }
    let (body, rest) = rest.split_at(len);
    Some((body, rest))
}

/// The kind of the sections of an id from 1 to 13.
fn kind_of_id(id: u8) -> Option<SectionId>
    ensures some { IfSome result (λ kind. section_number kind ≡ id) }
    ensures none { IfNone result (id ≡ 0 ⊎ (14 ≤ id)) }
{
    match id {
        1 => Some(SectionId::Type_),
        2 => Some(SectionId::Import),
        3 => Some(SectionId::Function),
        4 => Some(SectionId::Table),
        5 => Some(SectionId::Memory),
        6 => Some(SectionId::Global),
        7 => Some(SectionId::Export),
        8 => Some(SectionId::Start),
        9 => Some(SectionId::Element),
        10 => Some(SectionId::Code),
        11 => Some(SectionId::Data),
        12 => Some(SectionId::DataCount),
        13 => Some(SectionId::Tag),
        _ => None,
    }
}

/// The payload of a section of another id than 0.
fn numbered(at: usize, id: u8, body: &[u8]) -> Payload<'_>
    requires { 1 ≤ id }
    ensures tree { frame_tree result ≡ numbered_frame id body.now }
    ensures at { payload_at result ≡ at }
    ensures unknown { IsUnknown result }
{
    match kind_of_id(id) {
        Some(kind) => Payload::Section { id: kind, at, body },
        None => Payload::Unknown {
            at,
            id,
            contents: body,
        },
    }
}

/// The frame at the front of some bytes, which stand at a place, and the bytes behind it. None exactly where no frame begins.
pub fn front_frame(bytes: &[u8], at: usize) -> Option<(Payload<'_>, &[u8])>
    ensures some { IfSome result (λ r. Begins frame bytes.now (frame_tree r.0) r.1.now) }
    ensures at { IfSome result (λ r. payload_at r.0 ≡ at) }
    ensures unknown { IfSome result (λ r. IsUnknown r.0) }
    ensures none { IfNone result (BeginsNone frame bytes.now) }
{
    let Some((id, rest)) = front_byte(bytes) else {
        return None;
    };
    if id >= 128 {
        return None;
    }
    let Some((body, rest)) = front_sized(rest) else {
        return None;
    };
    if id > 0 {
        return Some((numbered(at, id, body), rest));
    }
    match front_name(body) {
        Some((name, contents)) => {
            let section = CustomSection { name, contents };
            Some((Payload::Custom { at, section }, rest))
        }
        None => None,
    }
}
