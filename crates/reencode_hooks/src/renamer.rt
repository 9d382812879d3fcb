//! A reencoder that renames indices, and counts what it is asked.
ghost use Rattle.std.specs.Prelude.{◌≡◌, ◌<◌, OnOk, OnErr};
ghost use Rattle.reencode_hooks.specs.declared.asked.Asked.TheVariants.{Of};
ghost use Rattle.reencode_hooks.specs.Renamings.{no_renaming, with_entry, count_of, noted, renamed, space_number, count_place};

use crate::answer_visits::AnswerVisits;
use crate::asked::{Asked, Unmapped};
use crate::table::Table;
use std::alloc::Global;
use std::marker::Model;
use wasm_leb::NoMemory;
use wasm_shapes::{Space, Visit};

/// Answers an index by its entry, and otherwise as it is; a strict one refuses an index of a core space that has no entry.
/// It counts what it is asked, but no call of the closing hook.
///
/// Contracts see it as its entries by space, whether it is strict, and its counts. As a reencoder it keeps the default
/// methods, adds no section, and never wants memory.
#[derive(Drop)]
pub struct Renamer {
    // by the numbers of the spaces
    tables: [Table; 16],
    strict: bool,
    // by the places of what is counted
    counts: [u64; 19],
}

impl Model for Renamer {
    ghost use Rattle.reencode_hooks.specs.Renamings.{Renaming, renaming_code};

    ghost Value = { Renaming };

    ghost coded = { renaming_code };

    ghost view = { λ r. record { entries = r.tables; strict = r.strict; counts = r.counts } };
}

// The number of a space.
#[inline(always)]
fn number(space: Space) -> usize
    ensures is { result ≡ space_number space }
    ensures within { result < 16 }
{
    match space {
        Space::Data => 0,
        Space::Element => 1,
        Space::Function => 2,
        Space::Global => 3,
        Space::Memory => 4,
        Space::Table => 5,
        Space::Tag => 6,
        Space::Type_ => 7,
        Space::DataCount => 8,
        Space::ComponentType => 9,
        Space::ComponentInstance => 10,
        Space::ComponentFunc => 11,
        Space::Component => 12,
        Space::Module => 13,
        Space::Instance => 14,
        Space::ComponentValue => 15,
    }
}

// The place of a count.
#[inline(always)]
fn place(what: Asked) -> usize
    ensures is { result ≡ count_place what }
    ensures within { result < 19 }
{
    match what {
        Asked::Of(space) => number(space),
        Asked::SectionHook => 16,
        Asked::Push => 17,
        Asked::Pop => 18,
    }
}

impl Renamer {
    /// A renamer without entries, which is not strict and has counted nothing. It takes no memory.
    pub fn new(alloc: Global) -> Renamer
        ensures { result ≡ no_renaming }
    {
        Renamer {
            tables: [
                Table::new(alloc),
                Table::new(alloc),
                Table::new(alloc),
                Table::new(alloc),
                Table::new(alloc),
                Table::new(alloc),
                Table::new(alloc),
                Table::new(alloc),
                Table::new(alloc),
                Table::new(alloc),
                Table::new(alloc),
                Table::new(alloc),
                Table::new(alloc),
                Table::new(alloc),
                Table::new(alloc),
                Table::new(alloc),
            ],
            strict: false,
            counts: [0; 19],
        }
    }

    /// Renames an index of a space, in place of an older entry. Where memory runs out, it changes nothing.
    ///
    /// It takes time that grows as the logarithm of the number of entries, where the index is above all that have one;
    /// elsewhere each entry of a greater index is moved, so entries are best set in rising order.
    pub fn set(&mut self, space: Space, from: u32, to: u32) -> Result<(), NoMemory>
        ensures ok { OnOk result (self.new ≡ with_entry self.old space from to) }
        ensures err { OnErr result (self.new ≡ self.old) }
    {
        let table = &mut self.tables[number(space)];
        table.set(from, to)
    }

    /// Says whether an index of a core space without an entry is refused.
    pub fn set_strict(&mut self, strict: bool)
        ensures { self.new ≡ record self.old { strict = strict } }
    {
        self.strict = strict;
    }

    /// Adds one to the count of what was asked. A count at 2^64 - 1 stays there.
    #[inline(always)]
    pub fn note(&mut self, what: Asked)
        ensures { self.new ≡ noted self.old what }
    {
        let at = place(what);
        let count = self.counts[at];
        self.counts[at] = count.saturating_add(1);
    }

    /// How often this was asked.
    pub fn count(&self, what: Asked) -> u64
        ensures { result ≡ count_of self.now what }
    {
        self.counts[place(what)]
    }

    /// The answer to an index of a space, which adds one to the count of the space, also where it is refused.
    ///
    /// It is the index's entry, and the index itself where it has none; `Unmapped` comes exactly where it has none, the
    /// renamer is strict, and the space is one of core modules.
    #[inline(always)]
    pub fn ask(&mut self, space: Space, index: u32) -> Result<u32, Unmapped>
        ensures answer { result ≡ renamed self.old space index }
        ensures after { self.new ≡ noted self.old (Of space) }
    {
        self.note(Asked::Of(space));
        let table = &self.tables[number(space)];
        match table.get(index) {
            Some(to) => Ok(to),
            None => {
                if self.strict && space.is_core() {
                    Err(Unmapped { space, index })
                } else {
                    Ok(index)
                }
            }
        }
    }
}

impl AnswerVisits for Renamer {
    ghost use Rattle.std.specs.Prelude.{true};
    ghost use Rattle.reencode_hooks.specs.Renamings.{renamer_reply, renamer_next};
    ghost use Rattle.reencode_hooks.specs.Renamed.{renamer_answers};

    type Error = Unmapped;

    ghost reply = { renamer_reply };

    ghost next = { renamer_next };

    ghost keeps_defaults = { true };

    ghost answers_ok = { renamer_answers };

    #[inline(always)]
    fn answer(&mut self, visit: Visit) -> Result<u32, Unmapped> {
        match visit {
            Visit::Index(space, index) | Visit::Outer(space, _, index) => self.ask(space, index),
            Visit::Section(..) => {
                self.note(Asked::SectionHook);
                Ok(0)
            }
            Visit::Closed(_) => Ok(0),
            Visit::Push => {
                self.note(Asked::Push);
                Ok(0)
            }
            Visit::Pop => {
                self.note(Asked::Pop);
                Ok(0)
            }
        }
    }
}
