//! The reencoder that lists what it is asked.
ghost use Rattle.std.specs.Prelude.{◌≡◌, ◌++◌, [], Ok};
ghost use Rattle.reencode_hooks.specs.Hooks.{Replies, index_of};
ghost use Rattle.wasm_shapes.specs.declared.Visit.TheVariants.{Index};
ghost use Rattle.wasm_visits.specs.Visits.{lister_next, lister_reply};

use reencode_core::DefaultReencode;
use reencode_hooks::{Error, ReencodeIndices};
use reencode_items::DefaultItems;
use std::alloc::Global;
use std::convert::Infallible;
use wasm_leb::{List, NoMemory};
use wasm_shapes::{SectionId, Space};
use wasm_write as w;

/// An index that is asked for, and where it stands.
#[derive(Clone, Copy, Debug, PartialEq)]
pub struct PlacedVisit {
    /// Where the row begins that it stands in, counted from the first byte of the header; of a section that is one item its body.
    pub place: usize,
    /// The kind of the section. Of a name section it is `Custom`.
    pub section: SectionId,
    /// What it is an index of. The number of a data count section is one of `DataCount`.
    pub space: Space,
    pub index: u32,
}

/// Answers each index as it is, and lists it where it stands.
#[derive(Drop)]
pub(crate) struct Lister {
    pub visits: List<PlacedVisit>,
    // where the next one stands
    pub place: usize,
    pub section: SectionId,
}

impl Lister {
    /// A lister that has listed nothing.
    pub fn new(alloc: Global) -> Lister
        ensures { result.visits ≡ [] }
    {
        Lister {
            visits: List::new(alloc),
            place: 0,
            section: SectionId::Custom,
        }
    }

    /// What is asked from now on stands here.
    #[inline(always)]
    pub fn move_to(&mut self, section: SectionId, place: usize)
        ensures { self.new ≡ record self.old {
          place = place;
          section = section;
        } }
    {
        self.place = place;
        self.section = section;
    }

    /// Lists an index.
    #[inline(always)]
    pub fn list(&mut self, space: Space, index: u32) -> Result<u32, Error<Infallible>>
        ensures { Replies lister_reply lister_next self.old self.new (Index space index) result }
    {
        let visit = PlacedVisit {
            place: self.place,
            section: self.section,
            space,
            index,
        };
        match self.visits.push(visit) {
            Ok(()) => Ok(index),
            Err(NoMemory) => Err(Error::NoMemory),
        }
    }
}

impl ReencodeIndices for Lister {
    ghost use Rattle.std.specs.Prelude.{true, false, refl};
    ghost use Rattle.reencode_hooks.specs.Hooks.{index_of-given};

    type Error = Infallible;

    ghost reply = { lister_reply };

    ghost next = { lister_next };

    ghost adds = { λ _ _. [] };

    ghost keeps_defaults = { true };

    ghost adds_nothing = { true };

    ghost sure = { false };

    ghost answers_ok = { λ _ visit h. index_of-given visit h };

    ghost adds_ok = { λ _ _ _. refl };

    fn data_index(&mut self, index: u32) -> Result<u32, Error<Infallible>> {
        self.list(Space::Data, index)
    }

    fn element_index(&mut self, index: u32) -> Result<u32, Error<Infallible>> {
        self.list(Space::Element, index)
    }

    fn function_index(&mut self, index: u32) -> Result<u32, Error<Infallible>> {
        self.list(Space::Function, index)
    }

    fn global_index(&mut self, index: u32) -> Result<u32, Error<Infallible>> {
        self.list(Space::Global, index)
    }

    fn memory_index(&mut self, index: u32) -> Result<u32, Error<Infallible>> {
        self.list(Space::Memory, index)
    }

    fn table_index(&mut self, index: u32) -> Result<u32, Error<Infallible>> {
        self.list(Space::Table, index)
    }

    fn tag_index(&mut self, index: u32) -> Result<u32, Error<Infallible>> {
        self.list(Space::Tag, index)
    }

    fn type_index(&mut self, index: u32) -> Result<u32, Error<Infallible>> {
        self.list(Space::Type_, index)
    }

    fn data_count(&mut self, count: u32) -> Result<u32, Error<Infallible>> {
        self.list(Space::DataCount, count)
    }

    fn intersperse_section_hook(
        &mut self,
        _module: &mut w::Module,
        _after: Option<SectionId>,
        _before: Option<SectionId>,
    ) -> Result<(), Error<Infallible>> {
        Ok(())
    }

    fn close_section_hook(
        &mut self,
        _module: &mut w::Module,
        _section: SectionId,
    ) -> Result<(), Error<Infallible>> {
        Ok(())
    }
}

impl DefaultItems for Lister {}

impl DefaultReencode for Lister {}
