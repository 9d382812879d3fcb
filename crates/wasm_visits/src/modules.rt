//! The visits of a core module with their places, section by section.
ghost use Rattle.std.specs.Prelude.{◌≡◌, ◌≤◌, ◌-◌, ◌++◌, ◌↔◌, length, IsTrue, IfOk, IfErr, OnOk};
ghost use Rattle.wasm_shapes.specs.Module.{body_of, custom_frame, names_name, numbered_frame};
ghost use Rattle.wasm_shapes.specs.SectionTable.{number};
ghost use Rattle.wasm_shapes.specs.Spells.{Spells};
ghost use Rattle.wasm_shapes.specs.Tree.{Tree, visits};
ghost use Rattle.reencode_core.specs.Checks.{IsUnread};
ghost use Rattle.wasm_visits.specs.Placed.{AreVisits, ListsModule, ListsSection};
ghost use Rattle.wasm_visits.specs.Visits.{all_listed};

use crate::lister::{Lister, PlacedVisit};
use crate::names::list_names;
use crate::rows::{Unlisted, list_bodies, list_rows};
use reencode_core::{Reencode, check_by_rule};
use reencode_hooks::{Error, IndexRule};
use std::alloc::Global;
use std::convert::Infallible;
use wasm_leb::List;
use wasm_read::{CustomSection, Payload, Payloads};
use wasm_shapes::{SectionId, Space, kinds};
use wasm_write as w;

/// Each index stays as it is.
#[derive(Drop)]
struct Unchanged;

impl IndexRule for Unchanged {
    ghost use Rattle.std.specs.Prelude.{Ok};

    type Error = Infallible;

    ghost renamed = { λ _ _ index. Ok index };

    fn index(&self, _space: Space, index: u32) -> Result<u32, Infallible> {
        Ok(index)
    }

    ghost is_rule = { λ _ _ _ h. h };
}

/// The indices that a re-encoding of a core module asks for, in the order in which it asks, each with the place where its row begins.
///
/// Any error but out of memory says that the bytes are no core module, and why.
pub fn visits_of(alloc: Global, bytes: &[u8]) -> Result<List<PlacedVisit>, Error<Infallible>>
    ensures ok { IfOk result (λ list. AreVisits bytes.now list) }
    ensures unread { IfErr result (λ e. IsUnread bytes.now e) }
{
    let mut lister = Lister::new(alloc);
    match list_module(alloc, &mut lister, bytes) {
        Ok(()) => Ok(lister.visits),
        Err(Unlisted) => match check_by_rule(alloc, Unchanged, bytes) {
            Ok(()) => Err(Error::NoMemory),
            Err(e) => Err(e),
        },
    }
}

/// Lists the visits of a core module, each at its place.
fn list_module(alloc: Global, lister: &mut Lister, bytes: &[u8]) -> Result<(), Unlisted>
    ensures { OnOk result (ListsModule bytes.now lister.old.visits lister.new.visits) }
{
    let Ok(mut payloads) = Payloads::new(bytes) else {
        return Err(Unlisted);
    };
    'sections: loop {
        match payloads.next() {
            Ok(Some(Payload::Section { id, body, .. })) => {
                match list_section(alloc, lister, payloads.place(), id, body) {
                    Ok(()) => {}
                    Err(Unlisted) => return Err(Unlisted),
                }
            }
            Ok(Some(Payload::Custom { section, .. })) => {
                match list_custom(alloc, lister, payloads.place(), section) {
                    Ok(()) => {}
                    Err(Unlisted) => return Err(Unlisted),
                }
            }
            Ok(Some(Payload::Unknown { .. })) => {}
            Ok(None) => return Ok(()),
            Err(_) => return Err(Unlisted),
        }
    }
}

/// Lists the visits of a section of a kind, whose body ends at a place.
fn list_section(
    alloc: Global,
    lister: &mut Lister,
    end: usize,
    id: SectionId,
    body: &[u8],
) -> Result<(), Unlisted>
    requires { length body.now ≤ end }
    ensures { OnOk result (ListsSection end (numbered_frame (number id) body.now)
        lister.old.visits lister.new.visits) }
{
    match id {
        SectionId::Type_ => list_rows::<kinds::Types>(alloc, lister, SectionId::Type_, end, body),
        SectionId::Import => list_rows::<kinds::Imports>(
            alloc,
            lister,
            SectionId::Import,
            end,
            body,
        ),
        SectionId::Function => list_rows::<kinds::Functions>(
            alloc,
            lister,
            SectionId::Function,
            end,
            body,
        ),
        SectionId::Table => list_rows::<kinds::Tables>(alloc, lister, SectionId::Table, end, body),
        SectionId::Memory => list_rows::<kinds::Memories>(
            alloc,
            lister,
            SectionId::Memory,
            end,
            body,
        ),
        SectionId::Global => list_rows::<kinds::Globals>(
            alloc,
            lister,
            SectionId::Global,
            end,
            body,
        ),
        SectionId::Export => list_rows::<kinds::Exports>(
            alloc,
            lister,
            SectionId::Export,
            end,
            body,
        ),
        SectionId::Element => list_rows::<kinds::Elements>(
            alloc,
            lister,
            SectionId::Element,
            end,
            body,
        ),
        SectionId::Data => list_rows::<kinds::Segments>(alloc, lister, SectionId::Data, end, body),
        SectionId::Tag => list_rows::<kinds::Tags>(alloc, lister, SectionId::Tag, end, body),
        SectionId::Code => list_bodies(alloc, lister, end, body),
        SectionId::Start => list_item(alloc, lister, SectionId::Start, end, body),
        SectionId::DataCount => list_item(alloc, lister, SectionId::DataCount, end, body),
        SectionId::Custom => Err(Unlisted),
    }
}

/// Lists the visit of a section that is one item. What it becomes is thrown away.
fn list_item(
    alloc: Global,
    lister: &mut Lister,
    id: SectionId,
    end: usize,
    body: &[u8],
) -> Result<(), Unlisted>
    requires { length body.now ≤ end }
    ensures { OnOk result ((t : Tree) × Spells (body_of id) body.now t
        × (lister.new.visits ≡ lister.old.visits ++ all_listed id (end - length body.now) (visits t))) }
{
    let Ok(mut module) = w::Module::new(alloc, u32::MAX) else {
        return Err(Unlisted);
    };
    lister.move_to(id, end - body.len());
    match lister.parse_section(alloc, &mut module, id, body) {
        Ok(()) => Ok(()),
        Err(_) => Err(Unlisted),
    }
}

/// Whether a custom section of this name is a name section.
fn is_names(name: &str) -> bool
    ensures { IsTrue result ↔ (name.now ≡ names_name) }
{
    name == "name"
}

/// Lists the visits of a custom section, which has some where it is a name section, and whose contents end at a place.
fn list_custom(
    alloc: Global,
    lister: &mut Lister,
    end: usize,
    section: CustomSection<'_>,
) -> Result<(), Unlisted>
    requires { length section.contents.now ≤ end }
    ensures { OnOk result (ListsSection end (custom_frame section.entry.name.now section.entry.contents.now)
        lister.old.visits lister.new.visits) }
{
    if is_names(section.name) {
        list_names(alloc, lister, end, section.contents)
    } else {
        Ok(())
    }
}
