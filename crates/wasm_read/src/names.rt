//! Maps from indices to names (WebAssembly Core Specification 3.0, section 7.4.1).
ghost use Rattle.std.specs.Prelude.{◌≡◌, ◌≤◌, ◌+◌, ◌^◌, ◌<◌, List, refl, IfOk, IfErr, IfSome, IfNone};
ghost use Rattle.wasm_leb.specs.Place.{BeginsNumber, BeginsNoNumber};
ghost use Rattle.wasm_shapes.specs.Module.{plain_naming};
ghost use Rattle.wasm_shapes.specs.Namings.{Entry, entry_tree, outer_tree, plain_indirect};
ghost use Rattle.wasm_shapes.specs.Place.{Begins, BeginsNone};
ghost use Rattle.wasm_shapes.specs.Shape.{Shape};
ghost use Rattle.wasm_read.specs.Names.{whole_map, map_place, Due, EntryRead, IndirectBegins, IndirectRead, EntryMissing, EntriesEnded};

use crate::fields::front_name;
use crate::types::{IndirectNaming, Naming};
use crate::vector_items::{Entry, SmallEntry, behind_vec};
use std::marker::Model;
use wasm_leb::{ReadError, front_u32};

/// The entries that are left of a map, which fill their bytes.
#[derive(Drop)]
struct Entries<'a> {
    rest: &'a [u8],
    left: Option<u32>,
    len: usize,
}

impl<'a> Model for Entries<'a> {
    ghost use Rattle.wasm_read.specs.Names.{MapStanding};

    ghost Value = { MapStanding };

    ghost view = { λ map. record { rest = map.rest.now; left = map.left; len = map.len } };
}

impl<'a> Entries<'a> {
    /// All of a map's. Nothing is read yet, so nothing is refused.
    fn new(bytes: &'a [u8]) -> Self
        ensures { result ≡ whole_map bytes.now }
    {
        Entries {
            rest: bytes,
            left: None,
            len: bytes.len(),
        }
    }

    /// That nothing is read at this place of the map.
    fn refusal(&self) -> ReadError
        ensures { result.at ≡ map_place self.now }
    {
        ReadError {
            at: self.len.saturating_sub(self.rest.len()),
        }
    }

    /// The number of entries that are due, and the bytes where they are; none where the count is due and no number begins.
    fn counted(&self) -> Option<(u32, &'a [u8])>
        ensures some { IfSome result (λ r. Due self.now r.0 r.1.now) }
        ensures none { IfNone result
            ((self.now.left ≡ None) × BeginsNoNumber 128 32 32 self.now.rest) }
    {
        match self.left {
            Some(left) => Some((left, self.rest)),
            None => front_u32(self.rest),
        }
    }

    /// The bytes where an entry is due, and the number of those behind it; or none at the end.
    fn due(&self) -> Result<Option<(u32, &'a [u8])>, ReadError>
        ensures due { IfOk result (λ o. IfSome o (λ r. Due self.now (r.0 + 1) r.1.now)) }
        ensures fits { IfOk result (λ o. IfSome o (λ r. r.0 + 1 < 2 ^ 32)) }
        ensures ended { IfOk result (λ o. IfNone o (EntriesEnded self.now)) }
        ensures err { IfErr result (λ _. (row : Shape) → EntryMissing row self.now) }
        ensures at { IfErr result (λ e. e.at ≡ map_place self.now) }
    {
        match self.counted() {
            Some((0, [])) => Ok(None),
            Some((0, _)) => Err(self.refusal()),
            Some((left, bytes)) => Ok(Some((left - 1, bytes))),
            None => Err(self.refusal()),
        }
    }

    /// An entry was read, and so many are left in these bytes behind it.
    fn advance(&mut self, left: u32, rest: &'a [u8])
        ensures { self.new ≡ record {
          rest = rest.now;
          left = Some left;
          len = self.old.len;
        } }
    {
        self.rest = rest;
        self.left = Some(left);
    }
}

/// A map from indices to names, as the bytes that spell it: it is read entry by entry.
///
/// Contracts see the bytes and the number of entries that are left.
#[derive(Drop)]
pub struct NameMap<'a> {
    entries: Entries<'a>,
}

impl<'a> Model for NameMap<'a> {
    ghost use Rattle.wasm_read.specs.Names.{MapStanding};

    ghost Value = { MapStanding };

    ghost view = { λ map. map.entries };
}

impl<'a> Entry for Naming<'a> {
    ghost shape = { plain_naming };

    ghost tree = { λ n. entry_tree (record { index = n.index; name = n.name.now }) };

    ghost rows_sound = { refl };
}

impl<'a> SmallEntry<'a> for Naming<'a> {
    fn small(bytes: &'a [u8]) -> Option<(Naming<'a>, &'a [u8])> {
        front_naming(bytes)
    }
}

/// The entry at the front of some bytes, and the bytes behind it.
fn front_naming(bytes: &[u8]) -> Option<(Naming<'_>, &[u8])>
    ensures some { IfSome result (λ r. Begins plain_naming bytes.now
        (entry_tree (record { index = r.0.index; name = r.0.name.now })) r.1.now) }
    ensures none { IfNone result (BeginsNone plain_naming bytes.now) }
{
    let Some((index, rest)) = front_u32(bytes) else {
        return None;
    };
    match front_name(rest) {
        Some((name, rest)) => Some((Naming { index, name }, rest)),
        None => None,
    }
}

/// The index and the map of names at the front of some bytes, and the bytes behind them. The names are read to their end.
fn front_indirect(bytes: &[u8]) -> Option<(IndirectNaming<'_>, &[u8])>
    ensures some { IfSome result (λ r. IndirectBegins bytes.now r.0.index r.0.names r.1.now) }
    ensures none { IfNone result (BeginsNone plain_indirect bytes.now) }
{
    let Some((index, start)) = front_u32(bytes) else {
        return None;
    };
    match behind_vec::<Naming<'_>>(start) {
        Some(rest) => {
            let names = NameMap::new(&start[..start.len() - rest.len()]);
            Some((IndirectNaming { index, names }, rest))
        }
        None => None,
    }
}

impl<'a> NameMap<'a> {
    /// The map that fills these bytes: the number of its entries, and these. Nothing is read yet, so nothing is refused.
    pub fn new(bytes: &'a [u8]) -> Self
        ensures { result ≡ whole_map bytes.now }
    {
        NameMap {
            entries: Entries::new(bytes),
        }
    }

    /// The next entry, or none where all counted entries were given and the bytes are filled, and then none again. The first
    /// call reads the count too. No memory is taken.
    ///
    /// The error comes exactly where no count or no entry begins, or where bytes are left behind the last one. It holds that
    /// place in the map, and leaves the reader where it stood.
    pub fn next(&mut self) -> Result<Option<Naming<'a>>, ReadError>
        ensures row { IfOk result (λ o. IfSome o (λ n. EntryRead plain_naming self.old
            (entry_tree (record { index = n.index; name = n.name.now })) self.new)) }
        ensures ended { IfOk result (λ o. IfNone o (EntriesEnded self.old)) }
        ensures err { IfErr result (λ _. EntryMissing plain_naming self.old) }
        ensures at { IfErr result (λ e. e.at ≡ map_place self.old) }
        ensures stays { IfErr result (λ _. self.new ≡ self.old) }
        ensures over { IfOk result (λ o. IfNone o (self.new ≡ self.old)) }
    {
        match self.entries.due() {
            Ok(Some((left, bytes))) => match front_naming(bytes) {
                Some((naming, rest)) => {
                    self.entries.advance(left, rest);
                    Ok(Some(naming))
                }
                None => Err(self.entries.refusal()),
            },
            Ok(None) => Ok(None),
            Err(error) => Err(error),
        }
    }
}

/// A map from indices to maps of names, as the bytes that spell it: it is read entry by entry.
///
/// Contracts see the bytes and the number of entries that are left.
#[derive(Drop)]
pub struct IndirectNameMap<'a> {
    entries: Entries<'a>,
}

impl<'a> Model for IndirectNameMap<'a> {
    ghost use Rattle.wasm_read.specs.Names.{MapStanding};

    ghost Value = { MapStanding };

    ghost view = { λ map. map.entries };
}

impl<'a> IndirectNameMap<'a> {
    /// The map that fills these bytes: the number of its entries, and these. Nothing is read yet, so nothing is refused.
    pub fn new(bytes: &'a [u8]) -> Self
        ensures { result ≡ whole_map bytes.now }
    {
        IndirectNameMap {
            entries: Entries::new(bytes),
        }
    }

    /// The next entry, or none where all counted entries were given and the bytes are filled, and then none again. The first
    /// call reads the count too. The names of an entry were read to their end, and are a map of which nothing is read. No memory is taken.
    ///
    /// The error comes exactly where no count or no entry begins, or where bytes are left behind the last one. It holds that
    /// place in the map, and leaves the reader where it stood.
    pub fn next(&mut self) -> Result<Option<IndirectNaming<'a>>, ReadError>
        ensures row { IfOk result (λ o. IfSome o (λ n.
            IndirectRead self.old n.index n.names self.new)) }
        ensures ended { IfOk result (λ o. IfNone o (EntriesEnded self.old)) }
        ensures err { IfErr result (λ _. EntryMissing plain_indirect self.old) }
        ensures at { IfErr result (λ e. e.at ≡ map_place self.old) }
        ensures stays { IfErr result (λ _. self.new ≡ self.old) }
        ensures over { IfOk result (λ o. IfNone o (self.new ≡ self.old)) }
    {
        match self.entries.due() {
            Ok(Some((left, bytes))) => match front_indirect(bytes) {
                Some((naming, rest)) => {
                    self.entries.advance(left, rest);
                    Ok(Some(naming))
                }
                None => Err(self.entries.refusal()),
            },
            Ok(None) => Ok(None),
            Err(error) => Err(error),
        }
    }
}
