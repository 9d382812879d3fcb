//! The visits of a core module with their places, section by section.
ghost use Rattle.std.specs.Prelude.{◌≡◌, false, IfSome, OnOk};
ghost use Rattle.wasm_shapes.specs.Module.{CoreReading, InFrame, NoCoreReading, body_of, custom_frame, numbered_frame};
ghost use Rattle.wasm_shapes.specs.SectionTable.{number};
ghost use Rattle.wasm_shapes.specs.Spells.{Spells};
ghost use Rattle.wasm_shapes.specs.Tree.{Tree, visits};
ghost use Rattle.reencode_c.specs.Places.{Gains, body_placed, module_placed, section_placed};
ghost use Rattle.reencode_c.specs.Visits.{in_section, listing_none, placed};

use crate::places::Place;
use crate::rows::{list_bodies, list_rows};
use crate::visits::Lister;
use reencode_core::Reencode;
use std::alloc::Global;
use wasm_leb::NoMemory;
use wasm_read::{CustomSection, Payload, Payloads};
use wasm_shapes::{SectionId, kinds};
use wasm_write as w;

/// Whether the bytes begin with the header of a core module.
pub fn is_module(bytes: &[u8]) -> bool
    ensures { result ≡ false → NoCoreReading bytes.now }
{
    match Payloads::new(bytes) {
        Ok(_) => true,
        Err(_) => false,
    }
}

/// The visits of a core module with their places, in a lister with room for so many. Of None nothing is said.
pub fn listed_module(alloc: Global, bytes: &[u8], room: usize) -> Option<Lister>
    ensures { IfSome result (λ l. (t : Tree) × CoreReading bytes.now t × Gains (listing_none room) l (module_placed t)) }
{
    let Ok(mut lister) = Lister::new(alloc, room) else {
        return None;
    };
    match list_module(alloc, &mut lister, bytes) {
        Ok(()) => Some(lister),
        Err(NoMemory) => None,
    }
}

/// Lists the visits of a core module, each at its place.
fn list_module(alloc: Global, lister: &mut Lister, bytes: &[u8]) -> Result<(), NoMemory>
    ensures { OnOk result ((t : Tree) × CoreReading bytes.now t
        × Gains lister.old lister.new (module_placed t)) }
{
    let Ok(mut payloads) = Payloads::new(bytes) else {
        return Err(NoMemory);
    };
    'sections: loop {
        match payloads.next() {
            Ok(Some(Payload::Section { id, body, .. })) => {
                match list_section(alloc, lister, id, body) {
                    Ok(()) => {}
                    Err(NoMemory) => return Err(NoMemory),
                }
            }
            Ok(Some(Payload::Custom { section, .. })) => {
                match list_custom(alloc, lister, section) {
                    Ok(()) => {}
                    Err(NoMemory) => return Err(NoMemory),
                }
            }
            Ok(Some(Payload::Unknown { .. })) => {}
            Ok(None) => return Ok(()),
            Err(_) => return Err(NoMemory),
        }
    }
}

/// Lists the visits of a section of a kind, by its rows where it has some.
fn list_section(
    alloc: Global,
    lister: &mut Lister,
    id: SectionId,
    body: &[u8],
) -> Result<(), NoMemory>
    ensures { OnOk result ((t : Tree) × InFrame t (numbered_frame (number id) body.now)
        × Gains lister.old lister.new (section_placed t)) }
{
    match id {
        SectionId::Type_ => list_rows::<kinds::Types>(alloc, lister, SectionId::Type_, body),
        SectionId::Import => list_rows::<kinds::Imports>(alloc, lister, SectionId::Import, body),
        SectionId::Function => list_rows::<kinds::Functions>(
            alloc,
            lister,
            SectionId::Function,
            body,
        ),
        SectionId::Table => list_rows::<kinds::Tables>(alloc, lister, SectionId::Table, body),
        SectionId::Memory => list_rows::<kinds::Memories>(alloc, lister, SectionId::Memory, body),
        SectionId::Global => list_rows::<kinds::Globals>(alloc, lister, SectionId::Global, body),
        SectionId::Export => list_rows::<kinds::Exports>(alloc, lister, SectionId::Export, body),
        SectionId::Element => list_rows::<kinds::Elements>(alloc, lister, SectionId::Element, body),
        SectionId::Data => list_rows::<kinds::Segments>(alloc, lister, SectionId::Data, body),
        SectionId::Tag => list_rows::<kinds::Tags>(alloc, lister, SectionId::Tag, body),
        SectionId::Code => list_bodies(alloc, lister, body),
        SectionId::Start => list_item(alloc, lister, SectionId::Start, body),
        SectionId::DataCount => list_item(alloc, lister, SectionId::DataCount, body),
        SectionId::Custom => Err(NoMemory),
    }
}

/// Lists the visits of a section without rows. What it becomes is thrown away.
fn list_item(alloc: Global, lister: &mut Lister, id: SectionId, body: &[u8]) -> Result<(), NoMemory>
    ensures { OnOk result ((t : Tree) × Spells (body_of id) body.now t
        × Gains lister.old lister.new (placed (in_section id) (visits t))) }
{
    let Ok(mut module) = w::Module::new(alloc, u32::MAX) else {
        return Err(NoMemory);
    };
    lister.move_to(Place::in_section(id));
    match lister.parse_section(alloc, &mut module, id, body) {
        Ok(()) => Ok(()),
        Err(_) => Err(NoMemory),
    }
}

/// Lists the visits of a custom section. What it becomes is thrown away.
fn list_custom(
    alloc: Global,
    lister: &mut Lister,
    section: CustomSection<'_>,
) -> Result<(), NoMemory>
    ensures { OnOk result ((t : Tree) × InFrame t (custom_frame section.entry.name.now section.entry.contents.now)
        × Gains lister.old lister.new (section_placed t)) }
{
    let Ok(mut module) = w::Module::new(alloc, u32::MAX) else {
        return Err(NoMemory);
    };
    lister.move_to(Place::nowhere());
    match lister.parse_custom_section(alloc, &mut module, section) {
        Ok(()) => Ok(()),
        Err(_) => Err(NoMemory),
    }
}
