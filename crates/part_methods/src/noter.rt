//! A reencoder that notes what it is asked, in two kinds.
//!
//! That something asks a method is seen where this method is overridden. So one kind overrides the methods, and the functions
//! are asked with it. A method that is one text with its function asks what this asks, and needs no default body of its own here,
//! which is dear to prove; the other kind keeps the defaults of the others, and overrides what they ask.
ghost use Rattle.std.specs.Prelude.{◌≡◌};

use reencode_component::AnswerComponentVisits;
use reencode_hooks::{AnswerVisits, Error, utils};
use std::alloc::{AllocError, Global};
use std::convert::Infallible;
use std::fmt::Write;
use std::marker::{Model, PhantomData};
use wasm_shapes::{SectionId, Space, Visit};

pub type Made<T> = Result<T, Error<Infallible>>;

/// What a method answers in a kind where nothing asks it.
pub const UNASKED: Error<Infallible> = Error::UnsupportedCoreTypeInComponent;

/// What becomes of the operator that is read.
#[derive(Clone, Copy)]
pub enum Way {
    /// It is mapped.
    Maps,
    /// It becomes `end`.
    Ends,
    /// It is mapped, and the operator behind it is passed by.
    PassesBy,
    /// It is refused.
    Refuses,
}

/// Notes each hook that is asked, and each method that its kind overrides. Hooks answer as the reencoder that changes nothing,
/// and methods with something of their type.
#[derive(Drop)]
pub struct Noter<K> {
    notes: String,
    pub way: Way,
    kind: PhantomData<K>,
}

// What it noted is no part of what its answers depend on.
impl<K> Model for Noter<K> {
    ghost use Rattle.std.specs.Prelude.{ℕ};

    ghost Value = { ℕ };

    ghost view = { λ _. 0 };
}

impl<K> Noter<K> {
    pub fn new(alloc: Global) -> Noter<K> {
        Noter {
            notes: String::new(alloc),
            way: Way::Maps,
            kind: PhantomData,
        }
    }

    /// All lines.
    pub fn lines(&self) -> &str {
        self.notes.as_str()
    }
}

/// The lines of calls. The functions that make calls are generic over it: to hand a reencoder to a function of `utils` costs
/// the check of a concrete type some seconds at each, and of a type parameter next to nothing.
pub trait Notes {
    /// Notes a word. One that finds no memory is missing.
    fn note(&mut self, word: &str)
        ensures { self.new ≡ self.old };

    /// Begins the line of a call, at a case where it has several.
    fn begin(&mut self, call: &str, case: &str)
        ensures { self.new ≡ self.old };

    /// Operators are mapped in this way from then on.
    fn turn(&mut self, way: Way)
        ensures { self.new ≡ self.old };
}

impl<K> Notes for Noter<K> {
    fn note(&mut self, word: &str) {
        let _ = self.notes.push_str(" ");
        let _ = self.notes.push_str(word);
    }

    fn begin(&mut self, call: &str, case: &str) {
        if !self.notes.is_empty() {
            let _ = self.notes.push_str("\n");
        }
        let _ = self.notes.push_str(call);
        if !case.is_empty() {
            self.note(case);
        }
        let _ = self.notes.push_str(":");
    }

    fn turn(&mut self, way: Way) {
        self.way = way;
    }
}

/// Adds the section hook with the kinds that it is asked with.
fn add_section_hook(
    text: &mut String,
    after: Option<SectionId>,
    before: Option<SectionId>,
) -> Result<(), AllocError> {
    write!(text, " intersperse_section_hook({after:?}, {before:?})")
}

/// Adds the hook of an index.
fn add_index_hook(text: &mut String, front: &str, space: Space) -> Result<(), AllocError> {
    write!(text, " {front}{}_index", space.name())
}

/// Adds the hook that a visit asks.
fn add_hook(text: &mut String, visit: Visit) -> Result<(), AllocError> {
    match visit {
        Visit::Index(Space::DataCount, _) => text.push_str(" data_count"),
        Visit::Index(space, _) => add_index_hook(text, "", space),
        Visit::Outer(space, _, _) => add_index_hook(text, "outer_", space),
        Visit::Section(after, before) => add_section_hook(text, after, before),
        Visit::Closed(section) => write!(text, " close_section_hook({section:?})"),
        Visit::Push => text.push_str(" push_depth"),
        Visit::Pop => text.push_str(" pop_depth"),
    }
}

impl<K> AnswerVisits for Noter<K> {
    ghost use Rattle.std.specs.Prelude.{false, Ok};
    ghost use Rattle.reencode_hooks.specs.Hooks.{index_of, index_of-given};

    type Error = Infallible;

    ghost reply = { λ _ visit. Ok (index_of visit) };

    ghost next = { λ s _. s };

    ghost keeps_defaults = { false };

    ghost answers_ok = { λ _ visit h. index_of-given visit h };

    fn answer(&mut self, visit: Visit) -> Result<u32, Infallible> {
        let _ = add_hook(&mut self.notes, visit);
        Ok(utils::index_of(visit))
    }
}

impl<K> AnswerComponentVisits for Noter<K> {}

/// Notes a method, and answers with this.
macro_rules! answered {
    ($noter:ident, $method:ident, $answer:expr) => {{
        $noter.note(stringify!($method));
        $answer
    }};
}

pub(crate) use answered;

/// Notes a method, and answers as the reencoder that changes nothing, where an answer must fit what was given. It costs three times
/// as much as `answered`, where the answer goes nowhere.
macro_rules! noted {
    ($noter:ident, $method:ident($($arg:expr),*)) => {{
        $noter.note(stringify!($method));
        RoundtripReencoder.$method($($arg),*)
    }};
}

pub(crate) use noted;

/// The line of a function that maps an item. What is mapped is given by parameters: a function that makes what it hands over
/// costs its check more than twice as much. Two lines in one function cost more than each in one of its own.
macro_rules! mapped {
    ($noter:ident, $method:ident($($arg:expr),*)) => {
        mapped!($noter, "", $method($($arg),*))
    };
    ($noter:ident, $case:expr, $method:ident($($arg:expr),*)) => {{
        $noter.begin(stringify!($method), $case);
        utils::$method($noter, $($arg),*)?;
        Ok(())
    }};
}

pub(crate) use mapped;

/// The same of a function that refuses nothing.
macro_rules! sure {
    ($noter:ident, $method:ident($arg:expr)) => {
        sure!($noter, "", $method($arg))
    };
    ($noter:ident, $case:expr, $method:ident($arg:expr)) => {{
        $noter.begin(stringify!($method), $case);
        let _ = utils::$method($noter, $arg);
    }};
}

pub(crate) use sure;

/// The same of a function that adds what it maps to something.
macro_rules! added {
    ($noter:ident, $method:ident($($arg:expr),*)) => {
        added!($noter, "", $method($($arg),*))
    };
    ($noter:ident, $case:expr, $method:ident($($arg:expr),*)) => {{
        $noter.begin(stringify!($method), $case);
        utils::$method($noter, $($arg),*)
    }};
}

pub(crate) use added;

/// The same of a function that no method is one text with.
macro_rules! alone {
    ($noter:ident, $method:ident($($arg:expr),*)) => {
        alone!($noter, "", $method($($arg),*))
    };
    ($noter:ident, $case:expr, $method:ident($($arg:expr),*)) => {{
        $noter.begin(stringify!($method), $case);
        $noter.note("|");
        utils::$method($noter, $($arg),*)
    }};
}

pub(crate) use alone;

/// The line of a method and of its function, which add what they map to something, and are two texts.
macro_rules! both {
    ($noter:ident, $method:ident($($arg:expr),*), ($($again:expr),*)) => {{
        $noter.begin(stringify!($method), "");
        $noter.$method($($arg),*)?;
        $noter.note("|");
        utils::$method($noter, $($again),*)
    }};
}

pub(crate) use both;
