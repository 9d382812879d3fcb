//! Sections that the words of a line add.
ghost use Rattle.std.specs.Prelude.{◌≡◌, string_bytes};
ghost use Rattle.library_cases.specs.Additions.{is_before, is_behind, rows_before, rows_behind};

use crate::case::{bytes_of, number};
use crate::stop::Stop;
use crate::surrounded::Surrounded;
use reencode_core::SectionRule;
use reencode_hooks::Renamer;
use std::alloc::Global;
use wasm_read::front_name;
use wasm_shapes::SectionId;
use wasm_write as w;

/// The kinds of sections, each at the place of its id.
const KINDS: [SectionId; 14] = [
    SectionId::Custom,
    SectionId::Type_,
    SectionId::Import,
    SectionId::Function,
    SectionId::Table,
    SectionId::Memory,
    SectionId::Global,
    SectionId::Export,
    SectionId::Start,
    SectionId::Element,
    SectionId::Code,
    SectionId::Data,
    SectionId::DataCount,
    SectionId::Tag,
];

/// The kind of a section by the word of its id.
fn kind(id: &str) -> Result<SectionId, Stop> {
    match KINDS.get(number::<usize>(id)?) {
        Some(kind) => Ok(*kind),
        None => Err(Stop::Unread),
    }
}

/// Where a section is added.
#[derive(Clone, Copy)]
enum Place {
    /// Directly before each section of a kind.
    Before(SectionId),
    /// Directly behind each section of a kind.
    Behind(SectionId),
    /// At the end of the module.
    End,
    Nowhere,
    /// Nowhere, and there is memory only at the front of a module, where it has no section yet.
    Alone,
}

impl Place {
    /// The place of a word `before=ID:HEX` or `behind=ID:HEX`.
    fn of_word(key: &str, id: &str) -> Result<Place, Stop> {
        match key {
            "before" if id == "end" => Ok(Place::End),
            "before" => Ok(Place::Before(kind(id)?)),
            "behind" => Ok(Place::Behind(kind(id)?)),
            _ => Err(Stop::Unread),
        }
    }

    /// Whether there is memory at a hook that is handed this module.
    fn has_memory(self, module: &w::Module) -> bool {
        module.len() == 0 || !matches!(self, Place::Alone)
    }

    /// Whether it is before a section of this kind, or at the end.
    fn is_before(self, before: Option<SectionId>) -> bool
        ensures { result ≡ is_before self before }
    {
        match before {
            Some(section) => match self {
                Place::Before(kind) => section == kind,
                _ => false,
            },
            None => matches!(self, Place::End),
        }
    }

    /// Whether it is behind a section of this kind.
    fn is_behind(self, section: SectionId) -> bool
        ensures { result ≡ is_behind self section }
    {
        match self {
            Place::Behind(kind) => section == kind,
            _ => false,
        }
    }
}

/// Adds a custom section at a place.
#[derive(Drop)]
pub struct Added {
    place: Place,
    name: String,
    contents: Vec<u8>,
}

impl Added {
    /// The rule that adds a section of this name and these contents at a place.
    fn at(alloc: Global, place: Place, name: &str, contents: &[u8]) -> Result<Added, Stop> {
        let name = String::from_str(alloc, name)?;
        match Vec::from_slice(alloc, contents) {
            Ok(contents) => Ok(Added {
                place,
                name,
                contents,
            }),
            Err(_) => Err(Stop::NoMemory),
        }
    }
}

impl SectionRule for Added {
    ghost sections = { λ s _ before. rows_before s.place (string_bytes s.name) s.contents.items before };

    ghost behind = { λ s section. rows_behind s.place (string_bytes s.name) s.contents.items section };

    fn add_sections(
        &self,
        module: &mut w::Module,
        _after: Option<SectionId>,
        before: Option<SectionId>,
    ) -> Result<(), w::WriteFault> {
        if !self.place.has_memory(module) {
            return Err(w::WriteFault::NoMemory);
        }
        if self.place.is_before(before) {
            module.section(&w::CustomSection {
                name: self.name.as_str(),
                contents: self.contents.as_slice(),
            })?;
        }
        Ok(())
    }

    fn add_behind(&self, module: &mut w::Module, section: SectionId) -> Result<(), w::WriteFault> {
        if !self.place.has_memory(module) {
            return Err(w::WriteFault::NoMemory);
        }
        if self.place.is_behind(section) {
            module.section(&w::CustomSection {
                name: self.name.as_str(),
                contents: self.contents.as_slice(),
            })?;
        }
        Ok(())
    }
}

/// A word that adds a custom section: where, and the section's body.
#[derive(Drop)]
pub struct Addition {
    place: Place,
    body: Vec<u8>,
}

impl Addition {
    /// The addition of a word `before=ID:HEX`, whose ID may be `end`, or `behind=ID:HEX`.
    pub fn of_word(alloc: Global, key: &str, to: &str) -> Result<Addition, Stop> {
        match to.split_once(':') {
            Some((id, digits)) => Addition::at(alloc, Place::of_word(key, id)?, digits),
            None => Err(Stop::Unread),
        }
    }

    /// The addition at a place of the body that is spelled so.
    fn at(alloc: Global, place: Place, digits: &str) -> Result<Addition, Stop> {
        let body = bytes_of(alloc, digits)?;
        Ok(Addition { place, body })
    }

    /// None, and memory only where a hook is handed a module without sections.
    pub fn alone(alloc: Global) -> Result<Addition, Stop> {
        Addition::at(alloc, Place::Alone, "00")
    }

    /// The rule that adds it.
    fn rule(&self, alloc: Global) -> Result<Added, Stop> {
        match front_name(self.body.as_slice()) {
            Some((name, contents)) => Added::at(alloc, self.place, name, contents),
            None => Err(Stop::Unread),
        }
    }
}

/// The rule of an addition, where there is one, and else one that adds nothing.
fn rule_of(alloc: Global, addition: &Option<Addition>) -> Result<Added, Stop> {
    match addition {
        Some(addition) => addition.rule(alloc),
        None => Added::at(alloc, Place::Nowhere, "", &[]),
    }
}

/// The sections that the words of a line add: at most two, the second behind the first where both stand at one place.
#[derive(Drop)]
pub struct Additions {
    first: Option<Addition>,
    second: Option<Addition>,
}

impl Additions {
    /// None.
    pub fn new() -> Additions {
        Additions {
            first: None,
            second: None,
        }
    }

    pub fn is_empty(&self) -> bool {
        self.first.is_none()
    }

    /// Puts another one behind those that there are.
    pub fn push(&mut self, addition: Addition) -> Result<(), Stop> {
        if self.first.is_none() {
            self.first = Some(addition);
        } else if self.second.is_none() {
            self.second = Some(addition);
        } else {
            return Err(Stop::Unread);
        }
        Ok(())
    }

    /// The renamer with their rules around it.
    pub fn around(&self, alloc: Global, renamer: Renamer) -> Result<Surrounded, Stop> {
        let first = rule_of(alloc, &self.first)?;
        let second = rule_of(alloc, &self.second)?;
        Ok(Surrounded::new(renamer, first, second))
    }
}
