//! What crosses to C: entries, visits, and what a call answers.
ghost use Rattle.std.specs.Prelude.{◌≡◌, ◌<◌};
ghost use Rattle.reencode_hooks.specs.Renamings.{space_number};
ghost use Rattle.reencode_c.specs.Ends.{HasStatus, Tells, bare};
ghost use Rattle.reencode_c.specs.Refusals.{TellsCore, dangling, repeated, uneven};
ghost use Rattle.reencode_c.specs.Visits.{at, listed_index, listed_outer, listed_scope};

use crate::places::Place;
use reencode_hooks::{Error, Unmapped};
use std::convert::Infallible;
use wasm_leb::ReadError;
use wasm_shapes::Space;

/// An index of a space that becomes another.
#[repr(C)]
#[derive(Clone, Copy, Debug)]
pub struct Entry {
    pub space: u32,
    pub from: u32,
    pub to: u32,
}

/// A visit of a binary: what is asked, and where.
#[repr(C)]
#[derive(Clone, Copy, Debug)]
pub struct ListedVisit {
    /// 0 is an index, 1 one of `count` scopes further out, 2 the begin of a scope and 3 its end.
    pub kind: u32,
    /// The number of the space, and 0 of a scope.
    pub space: u32,
    pub count: u32,
    pub index: u32,
    /// The id of the section, and the number of the row in it, or 2^32 - 1 in no row that is told.
    pub section: u32,
    pub row: u32,
}

/// What a call answers: a status, and what goes with it. What does not go with the status is 0.
#[repr(C)]
#[derive(Clone, Copy)]
pub struct Outcome {
    /// The number of the bytes, visits or numbers of the output, also where the room is too small for them; of `MISCOUNTED`, of the
    /// answers that are wanted; of `EXPORT_CLASH`, of the bytes of the name.
    pub length: usize,
    /// The place of the first section without a reading, where the status is `PARSE_ERROR`; of `BAD_RENAMING`, of the entry; of
    /// `NOT_AN_ORDER`, of the number.
    pub place: u64,
    /// The length of the frame, where the status is `TOO_LARGE`.
    pub size: u64,
    pub status: u32,
    /// The space of the index that was refused or is not there, or that the entry says.
    pub space: u32,
    /// The index that was refused or is not there, or that the entry says.
    pub index: u32,
    /// Which of two modules was refused, 1 or 2.
    pub by: u32,
    /// How many functions are kept of those that are defined, also where the room is too small for them.
    pub count: usize,
    /// How many functions, or data segments, are stated, where the status is `UNEVEN`.
    pub stated: u32,
    /// How many bodies, or segments, there are then.
    pub rows: u32,
    /// The id that two sections have, where the status is `REPEATED_SECTION`.
    pub id: u32,
    pub spare: u32,
}

pub const DONE: u32 = 0;

pub const NO_MEMORY: u32 = 1;

pub const PARSE_ERROR: u32 = 5;

pub const REFUSED: u32 = 6;

pub const CODE_SECTION_SIZE: u32 = 7;

pub const NON_CORE_MODULE: u32 = 8;

pub const NON_COMPONENT: u32 = 9;

pub const TOO_LARGE: u32 = 10;

pub const BAD_RENAMING: u32 = 11;

pub const MISCOUNTED: u32 = 15;

pub const TOO_SMALL: u32 = 16;

pub const NOT_AN_ORDER: u32 = 17;

pub const DANGLING: u32 = 18;

pub const EXPORT_CLASH: u32 = 19;

pub const TWO_STARTS: u32 = 20;

pub const UNEVEN: u32 = 115;

pub const REPEATED_SECTION: u32 = 116;

/// The number of a space.
#[inline(always)]
pub fn number_of(space: Space) -> u32
    ensures is { result ≡ space_number space }
    ensures within { result < 16 }
{
    match space {
        Space::Data => 0,
        Space::Element => 1,
        Space::Function => 2,
        Space::Global => 3,
        Space::Memory => 4,
        Space::Table => 5,
        Space::Tag => 6,
        Space::Type_ => 7,
        Space::DataCount => 8,
        Space::ComponentType => 9,
        Space::ComponentInstance => 10,
        Space::ComponentFunc => 11,
        Space::Component => 12,
        Space::Module => 13,
        Space::Instance => 14,
        Space::ComponentValue => 15,
    }
}

impl ListedVisit {
    /// An index of a space.
    #[inline(always)]
    pub fn index(space: Space, index: u32) -> ListedVisit
        ensures { result ≡ listed_index space index }
    {
        ListedVisit {
            kind: 0,
            space: number_of(space),
            count: 0,
            index,
            section: 0,
            row: 0,
        }
    }

    /// An index of a space, so many scopes further out.
    #[inline(always)]
    pub fn outer(space: Space, count: u32, index: u32) -> ListedVisit
        ensures { result ≡ listed_outer space count index }
    {
        ListedVisit {
            kind: 1,
            space: number_of(space),
            count,
            index,
            section: 0,
            row: 0,
        }
    }

    /// The begin of a scope, by 2, or its end, by 3.
    #[inline(always)]
    pub fn scope(kind: u32) -> ListedVisit
        ensures { result ≡ listed_scope kind }
    {
        ListedVisit {
            kind,
            space: 0,
            count: 0,
            index: 0,
            section: 0,
            row: 0,
        }
    }

    /// The same at a place.
    #[inline(always)]
    pub fn at(self, place: Place) -> ListedVisit
        ensures { result ≡ at place self }
    {
        ListedVisit {
            section: place.section,
            row: place.row,
            ..self
        }
    }
}

impl Outcome {
    fn clear(&mut self, status: u32)
        ensures { self.new ≡ bare status }
    {
        self.length = 0;
        self.place = 0;
        self.size = 0;
        self.status = status;
        self.space = 0;
        self.index = 0;
        self.by = 0;
        self.count = 0;
        self.stated = 0;
        self.rows = 0;
        self.id = 0;
        self.spare = 0;
    }

    /// A status that is of the module of this number.
    fn of_module(&mut self, status: u32, by: u8)
        ensures { self.new ≡ record (bare status) { by = by } }
    {
        self.clear(status);
        self.by = by as u32;
    }

    /// So much was put into the room.
    pub fn done(&mut self, length: usize)
        ensures { self.new ≡ record (bare 0) { length = length } }
    {
        self.clear(DONE);
        self.length = length;
    }

    /// The output takes so much room.
    pub fn too_small(&mut self, length: usize)
        ensures { self.new ≡ record (bare 16) { length = length } }
    {
        self.clear(TOO_SMALL);
        self.length = length;
    }

    /// So many answers are wanted.
    pub fn miscounted(&mut self, wanted: usize)
        ensures { self.new ≡ record (bare 15) { length = wanted } }
    {
        self.clear(MISCOUNTED);
        self.length = wanted;
    }

    pub fn no_memory(&mut self)
        ensures { self.new ≡ bare 1 }
    {
        self.clear(NO_MEMORY);
    }

    /// The entry at a place has no space.
    pub fn bad_renaming(&mut self, place: u64, entry: Entry)
        ensures { self.new ≡ record (bare 11) { place = place; space = entry.space; index = entry.from } }
    {
        self.clear(BAD_RENAMING);
        self.place = place;
        self.space = entry.space;
        self.index = entry.from;
    }

    /// Says which error came. Three errors are none: no binary gives them.
    pub fn fail(&mut self, e: Error<Unmapped>)
        requires { HasStatus e }
        ensures { Tells e self.new }
    {
        match e {
            Error::NoMemory => self.clear(NO_MEMORY),
            Error::ParseError(ReadError { at }) => {
                self.clear(PARSE_ERROR);
                self.place = at as u64;
            }
            Error::UserError(unmapped) => {
                self.clear(REFUSED);
                self.space = number_of(unmapped.space);
                self.index = unmapped.index;
            }
            Error::InvalidCodeSectionSize => self.clear(CODE_SECTION_SIZE),
            Error::UnexpectedNonCoreModuleSection => self.clear(NON_CORE_MODULE),
            Error::UnexpectedNonComponentSection => self.clear(NON_COMPONENT),
            Error::TooLarge { size } => self.too_large(size),
            Error::CanonicalizedHeapTypeReference
            | Error::InvalidConstExpr
            | Error::UnsupportedCoreTypeInComponent => unreachable!(),
        }
    }

    /// A frame is above the ceiling.
    pub fn too_large(&mut self, size: u64)
        ensures { self.new ≡ record (bare 10) { size = size } }
    {
        self.clear(TOO_LARGE);
        self.size = size;
    }

    /// So many bytes, and so many kept functions, were put into two rooms.
    pub fn done_both(&mut self, length: usize, count: usize)
        ensures { self.new ≡ record (bare 0) { length = length; count = count } }
    {
        self.done(length);
        self.count = count;
    }

    /// The output and the kept functions take so much room.
    pub fn too_small_both(&mut self, length: usize, count: usize)
        ensures { self.new ≡ record (bare 16) { length = length; count = count } }
    {
        self.too_small(length);
        self.count = count;
    }

    /// Says why the module of this number is no core module, or which frame is above the ceiling. Of both come these four errors
    /// alone, or memory is wanting.
    pub fn core(&mut self, by: u8, e: Error<Infallible>)
        ensures { TellsCore by e self.new }
    {
        match e {
            Error::ParseError(ReadError { at }) => {
                self.of_module(PARSE_ERROR, by);
                self.place = at as u64;
            }
            Error::InvalidCodeSectionSize => self.of_module(CODE_SECTION_SIZE, by),
            Error::UnexpectedNonCoreModuleSection => self.of_module(NON_CORE_MODULE, by),
            Error::TooLarge { size } => self.too_large(size),
            _ => self.no_memory(),
        }
    }

    /// Two sections have this id.
    pub fn repeated(&mut self, by: u8, id: u8)
        ensures { self.new ≡ repeated by id }
    {
        self.of_module(REPEATED_SECTION, by);
        self.id = id as u32;
    }

    /// So many functions or segments are stated, and there are others.
    pub fn uneven(&mut self, by: u8, stated: u32, rows: u32)
        ensures { self.new ≡ uneven by stated rows }
    {
        self.of_module(UNEVEN, by);
        self.stated = stated;
        self.rows = rows;
    }

    /// An index is not there.
    pub fn dangling(&mut self, by: u8, space: Space, index: u32)
        ensures { self.new ≡ dangling by space index }
    {
        self.of_module(DANGLING, by);
        self.space = number_of(space);
        self.index = index;
    }

    /// This place of an order is the first that is wrong.
    pub fn not_an_order(&mut self, place: usize)
        ensures { self.new ≡ record (bare 17) { place = place } }
    {
        self.clear(NOT_AN_ORDER);
        self.place = place as u64;
    }

    /// Two modules export a name of so many bytes.
    pub fn export_clash(&mut self, length: usize)
        ensures { self.new ≡ record (bare 19) { length = length } }
    {
        self.clear(EXPORT_CLASH);
        self.length = length;
    }

    /// Two modules have a start.
    pub fn two_starts(&mut self)
        ensures { self.new ≡ bare 20 }
    {
        self.clear(TWO_STARTS);
    }
}
