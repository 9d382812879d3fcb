//! The reencoder that lists what it is asked.
ghost use Rattle.std.specs.Prelude.{◌≡◌, IfOk};
ghost use Rattle.reencode_c.specs.Visits.{at, listing_none, put};

use crate::outcome::ListedVisit;
use crate::places::Place;
use reencode_component::{
    AnswerComponentVisits, DefaultComponent, DefaultComponentItems, DefaultComponentRows,
};
use reencode_core::DefaultReencode;
use reencode_hooks::{AnswerVisits, Unmapped};
use reencode_items::DefaultItems;
use std::alloc::{AllocError, Global};
use std::marker::Model;
use wasm_shapes::Visit;

/// Answers each index as it is, and lists what it is asked, the section hook and the closing hook aside: these move it from
/// section to section.
#[derive(Drop)]
pub struct Lister {
    // room for the list
    list: Vec<ListedVisit>,
    // how many visits were to be listed
    count: u64,
    // where the next one stands
    place: Place,
}

impl Model for Lister {
    ghost use Rattle.reencode_c.specs.Visits.{Placing, placing_code};

    ghost Value = { Placing };

    ghost coded = { placing_code };

    ghost view = { λ l. record { listing = record { list = l.list.items; count = l.count }; place = l.place } };
}

impl Lister {
    /// A lister with room for so many visits.
    pub fn new(alloc: Global, room: usize) -> Result<Lister, AllocError>
        ensures { IfOk result (λ l. l ≡ listing_none room) }
    {
        let list = vec![in alloc; ListedVisit::scope(0); room]?;
        Ok(Lister {
            list,
            count: 0,
            place: Place::nowhere(),
        })
    }

    /// How many visits were to be listed.
    pub fn count(&self) -> u64
        ensures { result ≡ self.now.listing.count }
    {
        self.count
    }

    /// The room, with the list in front.
    pub fn list(&self) -> &[ListedVisit]
        ensures { result.now ≡ self.now.listing.list }
    {
        self.list.as_slice()
    }

    /// What is asked from now on stands here.
    #[inline(always)]
    pub fn move_to(&mut self, place: Place)
        ensures { self.new ≡ record self.old { place = place } }
    {
        self.place = place;
    }

    /// Lists a visit where there is room, and counts it.
    #[inline(always)]
    fn put(&mut self, visit: ListedVisit)
        ensures { self.new ≡ record self.old { listing = put self.old.listing (at self.old.place visit) } }
    {
        if self.count < self.list.len() as u64 {
            self.list[self.count as usize] = visit.at(self.place);
        }
        self.count = self.count.saturating_add(1);
    }
}

impl AnswerVisits for Lister {
    ghost use Rattle.std.specs.Prelude.{true};
    ghost use Rattle.reencode_hooks.specs.Hooks.{index_of-given};
    ghost use Rattle.reencode_c.specs.Visits.{lister_next, lister_reply};

    type Error = Unmapped;

    ghost reply = { lister_reply };

    ghost next = { lister_next };

    ghost keeps_defaults = { true };

    ghost answers_ok = { λ _ visit h. index_of-given visit h };

    #[inline(always)]
    fn answer(&mut self, visit: Visit) -> Result<u32, Unmapped> {
        match visit {
            Visit::Index(space, index) => {
                self.put(ListedVisit::index(space, index));
                Ok(index)
            }
            Visit::Outer(space, count, index) => {
                self.put(ListedVisit::outer(space, count, index));
                Ok(index)
            }
            Visit::Section(_, Some(section)) => {
                self.move_to(Place::in_section(section));
                Ok(0)
            }
            Visit::Section(_, None) | Visit::Closed(_) => {
                self.move_to(Place::nowhere());
                Ok(0)
            }
            Visit::Push => {
                self.put(ListedVisit::scope(2));
                Ok(0)
            }
            Visit::Pop => {
                self.put(ListedVisit::scope(3));
                Ok(0)
            }
        }
    }
}

impl AnswerComponentVisits for Lister {}

impl DefaultItems for Lister {}

impl DefaultReencode for Lister {}

impl DefaultComponentItems for Lister {}

impl DefaultComponentRows for Lister {}

impl DefaultComponent for Lister {}
