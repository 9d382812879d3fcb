//! Whether the contents of a name section have a reading (WebAssembly Core Specification 3.0, section 7.4.1).
ghost use Rattle.std.specs.Prelude.{IfNone, IfSome};
ghost use Rattle.std.specs.Bool.{Decides};
ghost use Rattle.wasm_shapes.specs.Module.{name_subsection, plain_naming};
ghost use Rattle.wasm_shapes.specs.Namings.{plain_indirect};
ghost use Rattle.wasm_shapes.specs.Place.{Begins, BeginsNone};
ghost use Rattle.wasm_shapes.specs.Tree.{Tree};
ghost use Rattle.wasm_strip.specs.Choices.{AreNames};
ghost use Rattle.wasm_strip.specs.Readable.{HasEntries, HasReading};
ghost use Rattle.wasm_strip.specs.Tidied.{HasNames};

use wasm_leb::{Kind, front_byte};
use wasm_read::{IndirectNameMap, Name, NameMap, Subsection, front_sized};

/// Whether a map of names can be read to its end.
pub(crate) fn is_map(map: NameMap<'_>) -> bool
    ensures { Decides result (HasEntries plain_naming map.entry) }
{
    let mut rest = map;
    'entries: loop {
        match rest.next() {
            Ok(Some(_)) => {}
            Ok(None) => return true,
            Err(_) => return false,
        }
    }
}

/// The same of a map of such maps.
fn is_indirect_map(map: IndirectNameMap<'_>) -> bool
    ensures { Decides result (HasEntries plain_indirect map.entry) }
{
    let mut rest = map;
    'entries: loop {
        match rest.next() {
            Ok(Some(_)) => {}
            Ok(None) => return true,
            Err(_) => return false,
        }
    }
}

/// Whether a subsection can be read.
fn is_readable(names: Name<'_>) -> bool
    ensures { Decides result (HasReading names.entry) }
{
    match names {
        Name::Module { .. } | Name::Unknown { .. } => true,
        Name::Local(map) | Name::Label(map) | Name::Field(map) => is_indirect_map(map),
        Name::Function(map)
        | Name::Type_(map)
        | Name::Table(map)
        | Name::Memory(map)
        | Name::Global(map)
        | Name::Element(map)
        | Name::Data(map)
        | Name::Tag(map) => is_map(map),
    }
}

/// The bytes behind the subsection at the front of some bytes, where it can be read.
pub(crate) fn behind_subsection(bytes: &[u8]) -> Option<&[u8]>
    ensures some { IfSome result (λ rest. (t : Tree) × Begins name_subsection bytes.now t rest.now) }
    ensures none { IfNone result (BeginsNone name_subsection bytes.now) }
{
    let Some((id, start)) = front_byte(bytes) else {
        return None;
    };
    let Some((body, rest)) = front_sized(start) else {
        return None;
    };
    match Name::of_body(id, body) {
        Some(names) => { if is_readable(names) { Some(rest) } else { None } }
        None => None,
    }
}

/// Whether a section of this name is a name section of a core module whose contents have a reading.
pub(crate) fn has_names(kind: Kind, name: &str, contents: &[u8]) -> bool
    ensures { Decides result (HasNames kind name.now contents.now) }
{
    match kind {
        Kind::Module => name == "name" && are_names(contents),
        Kind::Component => false,
    }
}

/// Whether bytes are the contents of a name section, behind its name. No memory is taken.
pub fn are_names(contents: &[u8]) -> bool
    ensures { Decides result (AreNames contents.now) }
{
    let mut rest = contents;
    'subsections: while !rest.is_empty() {
        match behind_subsection(rest) {
            Some(left) => rest = left,
            None => return false,
        }
    }
    true
}
