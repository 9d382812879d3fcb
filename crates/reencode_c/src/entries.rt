//! The reencoder of a renaming by entries.
ghost use Rattle.std.specs.Prelude.{◌≡◌, ◌<◌, ◌≤◌, ◌^◌, ℕ, None, IfOk, IfErr, IfSome, IfNone, OnOk, All};
ghost use Rattle.std.specs.BTreeMap.{get};
ghost use Rattle.std.specs.Ordering.{nat_cmp};
ghost use Rattle.reencode_hooks.specs.Renamings.{space_number, with_entry};
ghost use Rattle.reencode_c.specs.Entries.{HasSpace, Holds, IsBad, TellsFault, entry_from, key, renamed_by};
ghost use Rattle.reencode_c.specs.declared.entries.Held.TheVariants.{Rising};

use crate::outcome::{Entry, Outcome, number_of};
use reencode_component::{
    AnswerComponentVisits, DefaultComponent, DefaultComponentItems, DefaultComponentRows,
};
use reencode_core::DefaultReencode;
use reencode_hooks::{AnswerVisits, Renamer, Unmapped};
use reencode_items::DefaultItems;
use std::alloc::Global;
use std::collections::BTreeMap;
use std::marker::Model;
use wasm_leb::NoMemory;
use wasm_shapes::{Space, Visit};

/// Entries as an index is looked up in them.
#[derive(Drop)]
pub enum Held {
    /// By tables of the spaces, set in the order in which the entries stand.
    Rising(Renamer),
    /// By the last entry of each space and index.
    Any(BTreeMap<u64, u32>),
}

/// Answers an index by the last entry that names it, and otherwise as it is; a strict one refuses an index of a core module that
/// no entry names.
#[derive(Drop)]
pub struct ByEntries<'a> {
    entries: &'a [Entry],
    held: Held,
    strict: bool,
}

impl<'a> Model for ByEntries<'a> {
    ghost use Rattle.reencode_c.specs.Entries.{Holds, Renaming, renaming_code};

    ghost Value = { Renaming };

    ghost coded = { renaming_code };

    ghost view = { λ r. record { entries = r.entries.now; strict = r.strict } };

    ghost invariant = { λ r. Holds r.entries.now r.strict r.held };
}

/// The number of a space in front of an index.
#[inline(always)]
fn key(space: u32, index: u32) -> u64
    requires { space < 16 }
    ensures { result ≡ key space index }
{
    space as u64 * 4_294_967_296 + index as u64
}

/// Why there is no reencoder of some entries.
#[derive(Clone, Copy, Debug)]
pub enum EntryFault {
    /// The space of the entry at this place has no number of a space.
    NoSpace(u64, Entry),
    /// Out of memory.
    NoMemory,
}

impl EntryFault {
    /// Says which it is.
    pub fn tell(self, outcome: &mut Outcome)
        ensures { TellsFault self outcome.new }
    {
        match self {
            EntryFault::NoSpace(place, entry) => outcome.bad_renaming(place, entry),
            EntryFault::NoMemory => outcome.no_memory(),
        }
    }
}

/// The last entry of each space and index.
fn map_of(alloc: Global, entries: &[Entry]) -> Result<BTreeMap<u64, u32>, EntryFault>
    ensures ok { IfOk result
        (λ map. (k : ℕ) → get nat_cmp map k ≡ entry_from None entries.now k) }
    ensures known { IfOk result (λ map. All HasSpace entries.now) }
    ensures bad { IfErr result (λ fault. IsBad entries.now fault) }
{
    let mut map = BTreeMap::new(alloc);
    'entries: for place in 0..entries.len() {
        let entry = entries[place];
        // the numbers of the spaces are below 16
        if entry.space >= 16 {
            return Err(EntryFault::NoSpace(place as u64, entry));
        }
        match map.insert(key(entry.space, entry.from), entry.to) {
            Ok(_) => {}
            Err(_) => return Err(EntryFault::NoMemory),
        }
    }
    Ok(map)
}

/// The space of a number.
fn space_of(number: u32) -> Option<Space>
    ensures some { IfSome result (λ space. space_number space ≡ number) }
    ensures none { IfNone result (16 ≤ number) }
{
    match number {
        0 => Some(Space::Data),
        1 => Some(Space::Element),
        2 => Some(Space::Function),
        3 => Some(Space::Global),
        4 => Some(Space::Memory),
        5 => Some(Space::Table),
        6 => Some(Space::Tag),
        7 => Some(Space::Type_),
        8 => Some(Space::DataCount),
        9 => Some(Space::ComponentType),
        10 => Some(Space::ComponentInstance),
        11 => Some(Space::ComponentFunc),
        12 => Some(Space::Component),
        13 => Some(Space::Module),
        14 => Some(Space::Instance),
        15 => Some(Space::ComponentValue),
        _ => None,
    }
}

/// Renames an index, in place of an older entry.
fn rename(renamer: &mut Renamer, space: Space, from: u32, to: u32) -> Result<(), NoMemory>
    ensures ok { OnOk result (renamer.new ≡ with_entry renamer.old space from to) }
    ensures index { from < 2 ^ 32 }
{
    renamer.set(space, from, to)
}

/// A renamer with these entries, set in the order in which they stand.
fn renamer_of(alloc: Global, entries: &[Entry], strict: bool) -> Result<Renamer, EntryFault>
    ensures ok { IfOk result (λ renamer. Holds entries.now strict (Rising renamer)) }
    ensures known { IfOk result (λ renamer. All HasSpace entries.now) }
    ensures bad { IfErr result (λ fault. IsBad entries.now fault) }
{
    let mut renamer = Renamer::new(alloc);
    renamer.set_strict(strict);
    'entries: for place in 0..entries.len() {
        let entry = entries[place];
        let Some(space) = space_of(entry.space) else {
            return Err(EntryFault::NoSpace(place as u64, entry));
        };
        match rename(&mut renamer, space, entry.from, entry.to) {
            Ok(()) => {}
            Err(NoMemory) => return Err(EntryFault::NoMemory),
        }
    }
    Ok(renamer)
}

/// Whether no entry stands behind one of a greater space, or of the same one and a greater index.
fn rises(entries: &[Entry]) -> bool {
    'entries: for place in 1..entries.len() {
        let before = entries[place - 1];
        let entry = entries[place];
        if before.space > entry.space || before.space == entry.space && before.from > entry.from {
            return false;
        }
    }
    true
}

/// Entries as an index is looked up in them. Those that rise cost no sorting, and one step where they name each index from 0 on; none
/// cost no step.
fn held_of(alloc: Global, entries: &[Entry], strict: bool) -> Result<Held, EntryFault>
    ensures ok { IfOk result (Holds entries.now strict) }
    ensures known { IfOk result (λ held. All HasSpace entries.now) }
    ensures bad { IfErr result (λ fault. IsBad entries.now fault) }
{
    if !entries.is_empty() && rises(entries) {
        match renamer_of(alloc, entries, strict) {
            Ok(renamer) => Ok(Held::Rising(renamer)),
            Err(fault) => Err(fault),
        }
    } else {
        match map_of(alloc, entries) {
            Ok(map) => Ok(Held::Any(map)),
            Err(fault) => Err(fault),
        }
    }
}

/// The reencoder of some entries, of which, of several for an index, the last counts. It takes time that grows as n log n with
/// their number, in whatever order they stand.
pub fn by_entries<'a>(
    alloc: Global,
    entries: &'a [Entry],
    strict: bool,
) -> Result<ByEntries<'a>, EntryFault>
    ensures ok { IfOk result
        (λ by. by ≡ record { entries = entries.now; strict = strict }) }
    ensures known { IfOk result (λ by. All HasSpace entries.now) }
    ensures bad { IfErr result (λ fault. IsBad entries.now fault) }
{
    match held_of(alloc, entries, strict) {
        Ok(held) => Ok(ByEntries {
            entries,
            held,
            strict,
        }),
        Err(fault) => Err(fault),
    }
}

impl<'a> ByEntries<'a> {
    /// The answer to an index of a space.
    #[inline(always)]
    fn renamed(&mut self, space: Space, index: u32) -> Result<u32, Unmapped>
        ensures answer { result ≡ renamed_by self.old space index }
        ensures same { self.new ≡ self.old }
    {
        match &mut self.held {
            Held::Rising(renamer) => renamer.ask(space, index),
            Held::Any(map) => match map.get(&key(number_of(space), index)) {
                Some(to) => Ok(*to),
                None => {
                    if self.strict && space.is_core() {
                        Err(Unmapped { space, index })
                    } else {
                        Ok(index)
                    }
                }
            },
        }
    }
}

impl<'a> AnswerVisits for ByEntries<'a> {
    ghost use Rattle.std.specs.Prelude.{true};
    ghost use Rattle.reencode_c.specs.Entries.{renaming_answers, renaming_reply};

    type Error = Unmapped;

    ghost reply = { renaming_reply };

    ghost next = { λ r _. r };

    ghost keeps_defaults = { true };

    ghost answers_ok = { renaming_answers };

    #[inline(always)]
    fn answer(&mut self, visit: Visit) -> Result<u32, Unmapped> {
        match visit {
            Visit::Index(space, index) | Visit::Outer(space, _, index) => {
                self.renamed(space, index)
            }
            Visit::Section(..) | Visit::Closed(_) | Visit::Push | Visit::Pop => Ok(0),
        }
    }
}

impl<'a> AnswerComponentVisits for ByEntries<'a> {}

impl<'a> DefaultItems for ByEntries<'a> {}

impl<'a> DefaultReencode for ByEntries<'a> {}

impl<'a> DefaultComponentItems for ByEntries<'a> {}

impl<'a> DefaultComponentRows for ByEntries<'a> {}

impl<'a> DefaultComponent for ByEntries<'a> {}
