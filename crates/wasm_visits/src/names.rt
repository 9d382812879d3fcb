//! The entries of name sections, each listed where it begins (WebAssembly Core Specification 3.0, section 7.4.1).
ghost use Rattle.std.specs.Prelude.{◌≡◌, ◌≤◌, ◌∷◌, ◌++◌, [], refl, length, List, IfSome, OnOk};
ghost use Rattle.wasm_shapes.specs.declared.SectionId.TheVariants as ids;
ghost use Rattle.wasm_shapes.specs.declared.Visit.TheVariants.{Index};
ghost use Rattle.wasm_shapes.specs.Module.{names, plain_naming};
ghost use Rattle.wasm_shapes.specs.Place.{Begins};
ghost use Rattle.wasm_shapes.specs.Spells.{Spells};
ghost use Rattle.wasm_shapes.specs.Tree.{Tree, visits};
ghost use Rattle.wasm_visits.specs.declared.lister.PlacedVisit.{PlacedVisit as Placed};
ghost use Rattle.wasm_visits.specs.Placed.{ListsRows, ListsSubsection, NamesAt, entry_row, named_row};

use crate::lister::Lister;
use crate::rows::Unlisted;
use std::alloc::Global;
use wasm_leb::{NoMemory, front_byte, front_u32};
use wasm_read::{ReadRow, behind_rows, front_name, front_sized, whole_name};
use wasm_shapes::kinds::RowKind;
use wasm_shapes::{SectionId, Space};

/// Names by an index that is not asked for.
struct Plain;

impl RowKind for Plain {
    ghost shape = { plain_naming };

    ghost is_sound = { refl };

    ghost is_closed = { refl };

    ghost rows_sound = { refl };
}

impl<'a> ReadRow<'a> for Plain {
    type Row = (u32, &'a str);

    ghost tree = { λ row. Tree.pair (Tree.u32 row.0) (Tree.name row.1.now) };

    fn front(
        _alloc: Global,
        bytes: &'a [u8],
    ) -> Result<Option<((u32, &'a str), &'a [u8])>, NoMemory> {
        let Some((index, rest)) = front_u32(bytes) else {
            return Ok(None);
        };
        match front_name(rest) {
            Some((name, rest)) => Ok(Some(((index, name), rest))),
            None => Ok(None),
        }
    }
}

/// The bytes behind the name, or the names by another index, at the front of some bytes.
fn behind_names(alloc: Global, is_indirect: bool, bytes: &[u8]) -> Option<&[u8]>
    ensures { IfSome result (λ r. (t : Tree) × Begins (named_row is_indirect) bytes.now t r.now
        × (visits t ≡ [])) }
{
    if is_indirect {
        match behind_rows::<Plain>(alloc, bytes) {
            Ok(Some(rest)) => Some(rest),
            Ok(None) => None,
            Err(NoMemory) => None,
        }
    } else {
        match front_name(bytes) {
            Some((_, rest)) => Some(rest),
            None => None,
        }
    }
}

/// The entry of a map of names at the front of some bytes: its index, and the bytes behind it.
fn front_entry(alloc: Global, space: Space, is_indirect: bool, bytes: &[u8]) -> Option<(u32, &[u8])>
    ensures { IfSome result (λ r. (t : Tree) × Begins (entry_row is_indirect space) bytes.now t r.1.now
        × (visits t ≡ Index space r.0 ∷ [])) }
{
    let Some((index, rest)) = front_u32(bytes) else {
        return None;
    };
    match behind_names(alloc, is_indirect, rest) {
        Some(rest) => Some((index, rest)),
        None => None,
    }
}

/// Lists the entries of a map of names with this body, which ends at a place.
fn list_entries(
    alloc: Global,
    lister: &mut Lister,
    space: Space,
    is_indirect: bool,
    end: usize,
    body: &[u8],
) -> Result<(), Unlisted>
    requires { length body.now ≤ end }
    ensures { OnOk result (ListsRows ids.Custom (entry_row is_indirect space) end body.now
        lister.old.visits lister.new.visits) }
{
    let Some((count, start)) = front_u32(body) else {
        return Err(Unlisted);
    };
    let mut rest = start;
    let mut left = count;
    'entries: while left > 0 {
        lister.move_to(SectionId::Custom, end - rest.len());
        let Some((index, behind)) = front_entry(alloc, space, is_indirect, rest) else {
            return Err(Unlisted);
        };
        match lister.list(space, index) {
            Ok(_) => {}
            Err(_) => return Err(Unlisted),
        }
        rest = behind;
        left -= 1;
    }
    if rest.is_empty() {
        Ok(())
    } else {
        Err(Unlisted)
    }
}

/// Lists the entries of a subsection by its id and its body, which ends at a place.
fn list_subsection(
    alloc: Global,
    lister: &mut Lister,
    end: usize,
    id: u8,
    body: &[u8],
) -> Result<(), Unlisted>
    requires { length body.now ≤ end }
    ensures { OnOk result (ListsSubsection end id body.now lister.old.visits lister.new.visits) }
{
    match id {
        0 => match whole_name(body) {
            Some(_) => Ok(()),
            None => Err(Unlisted),
        },
        1 => list_entries(alloc, lister, Space::Function, false, end, body),
        2 => list_entries(alloc, lister, Space::Function, true, end, body),
        3 => list_entries(alloc, lister, Space::Function, true, end, body),
        4 => list_entries(alloc, lister, Space::Type_, false, end, body),
        5 => list_entries(alloc, lister, Space::Table, false, end, body),
        6 => list_entries(alloc, lister, Space::Memory, false, end, body),
        7 => list_entries(alloc, lister, Space::Global, false, end, body),
        8 => list_entries(alloc, lister, Space::Element, false, end, body),
        9 => list_entries(alloc, lister, Space::Data, false, end, body),
        10 => list_entries(alloc, lister, Space::Type_, true, end, body),
        11 => list_entries(alloc, lister, Space::Tag, false, end, body),
        _ => Ok(()),
    }
}

/// Lists the entries of the subsections of a name section with these contents, which end at a place.
pub(crate) fn list_names(
    alloc: Global,
    lister: &mut Lister,
    end: usize,
    contents: &[u8],
) -> Result<(), Unlisted>
    requires { length contents.now ≤ end }
    ensures { OnOk result ((t : Tree) × (list : List Placed) × Spells names contents.now t
        × NamesAt end contents.now t list × (lister.new.visits ≡ lister.old.visits ++ list)) }
{
    let mut rest = contents;
    'subsections: while let Some((id, behind)) = front_byte(rest) {
        let Some((body, left)) = front_sized(behind) else {
            return Err(Unlisted);
        };
        match list_subsection(alloc, lister, end - left.len(), id, body) {
            Ok(()) => {}
            Err(Unlisted) => return Err(Unlisted),
        }
        rest = left;
    }
    Ok(())
}
