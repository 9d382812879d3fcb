//! The sections of a component, frame by frame.
ghost use Rattle.std.specs.Prelude.{◌≡◌, [], IfOk, IfErr, IfSome, IfNone};
ghost use Rattle.wasm_shapes.specs.Module.{frame, numbered_frame};
ghost use Rattle.wasm_shapes.specs.Place.{Begins};
ghost use Rattle.wasm_read.specs.Frames.{frame_tree, payload_at, section_number, sections_place};
ghost use Rattle.wasm_read_component.specs.ComponentPayloads.{component_frame_tree, component_payload_at, ComponentHeaderRead, IsGiven, NoComponentFrame, NoComponentHeader};

use crate::types::ComponentPayload;
use std::marker::Model;
use wasm_leb::{Fault, Kind, ReadError};
use wasm_read::{Payload, front_frame};
use wasm_shapes::SectionId;

/// A reader of the sections of a component.
#[derive(Drop)]
pub struct ComponentPayloads<'a> {
    rest: &'a [u8],
    len: usize,
}

impl<'a> Model for ComponentPayloads<'a> {
    ghost use Rattle.wasm_read.specs.Frames.{Sections};

    ghost Value = { Sections };

    ghost view = { λ payloads. record { rest = payloads.rest.now; len = payloads.len } };
}

impl<'a> ComponentPayloads<'a> {
    /// Reads the header of a component.
    ///
    /// The error is `Header(Module)` exactly where the header of a module stands there, and `Read` with the place 0 exactly
    /// where neither header does.
    pub fn new(bytes: &'a [u8]) -> Result<ComponentPayloads<'a>, Fault>
        ensures ok { IfOk result (λ payloads. ComponentHeaderRead bytes.now payloads) }
        ensures err { IfErr result (λ e. NoComponentHeader e bytes.now) }
    {
        match bytes {
            [0x00, 0x61, 0x73, 0x6d, 0x0d, 0x00, 0x01, 0x00, rest @ ..] => Ok(ComponentPayloads {
                rest,
                len: bytes.len(),
            }),
            [0x00, 0x61, 0x73, 0x6d, 0x01, 0x00, 0x00, 0x00, ..] => {
                Err(Fault::Header(Kind::Module))
            }
            _ => Err(Fault::Read(ReadError { at: 0 })),
        }
    }

    /// The place where it stands, counted from the first byte of the header.
    pub fn place(&self) -> usize
        ensures { result ≡ sections_place self.now }
    {
        self.len.saturating_sub(self.rest.len())
    }

    /// The frame of the next section, or none at the end. It is no `Core`.
    ///
    /// The error comes exactly where no frame begins: there is none of an id of 128 or more, and one of the id 0 has a body
    /// that begins with a name. It holds the place where the frame is due, counted from the first byte of the header, and
    /// leaves the reader where it stood. No memory is taken.
    pub fn next(&mut self) -> Result<Option<ComponentPayload<'a>>, Fault>
        ensures some { IfOk result (λ o. IfSome o (λ p.
            Begins frame self.old.rest (component_frame_tree p) self.new.rest)) }
        ensures at { IfOk result (λ o. IfSome o (λ p.
            component_payload_at p ≡ sections_place self.old)) }
        ensures given { IfOk result (λ o. IfSome o (λ p. IsGiven p)) }
        ensures ended { IfOk result (λ o. IfNone o ((self.old.rest ≡ []) × (self.new ≡ self.old))) }
        ensures err { IfErr result (λ e.
            NoComponentFrame e self.old.rest (sections_place self.old)) }
        ensures stays { IfErr result (λ _. self.new ≡ self.old) }
        ensures len { self.new.len ≡ self.old.len }
    {
        if self.rest.is_empty() {
            return Ok(None);
        }
        let at = self.place();
        match front_frame(self.rest, at) {
            Some((payload, rest)) => {
                self.rest = rest;
                Ok(Some(of_frame(payload)))
            }
            None => Err(Fault::Read(ReadError { at })),
        }
    }
}

/// The id of the sections of a kind of core modules.
fn id_of_kind(kind: SectionId) -> u8
    ensures { result ≡ section_number kind }
{
    kind as u8
}

/// The section of this id.
fn of_id(id: u8, at: usize, body: &[u8]) -> ComponentPayload<'_>
    ensures tree { component_frame_tree result ≡ numbered_frame id body.now }
    ensures at { component_payload_at result ≡ at }
    ensures given { IsGiven result }
{
    let (bytes, contents) = (body, body);
    if id == 1 {
        ComponentPayload::Module { at, bytes }
    } else if id == 4 {
        ComponentPayload::Component { at, bytes }
    } else if id < 12 {
        ComponentPayload::Section { id, at, body }
    } else {
        ComponentPayload::Unknown { at, id, contents }
    }
}

/// The section that stands in a frame.
fn of_frame(payload: Payload<'_>) -> ComponentPayload<'_>
    ensures tree { component_frame_tree result ≡ frame_tree payload.entry }
    ensures at { component_payload_at result ≡ payload_at payload.entry }
    ensures given { IsGiven result }
{
    match payload {
        Payload::Section { id, at, body } => of_id(id_of_kind(id), at, body),
        Payload::Unknown { at, id, contents } => of_id(id, at, contents),
        Payload::Custom { at, section } => ComponentPayload::Custom { at, section },
    }
}
