//! Core modules, and operators.
use crate::additions::{Addition, Additions};
use crate::case::number;
use crate::pieces::add_pieces;
use crate::stop::{Stop, refusal};
use crate::text::{add, add_bytes, add_word};
use reencode_core::{Reencode, reencode_core};
use reencode_hooks::{Asked, Error, Renamer};
use std::alloc::{AllocError, Global};
use std::fmt::Display;
use wasm_leb::{Fault, NoMemory};
use wasm_read::{CodeSectionReader, FunctionBody};
use wasm_shapes::Space;
use wasm_write::{CodeSection, Module, Section, StartSection};

/// The spaces, in the order in which their counts are told.
pub const SPACES: [Space; 16] = [
    Space::Data,
    Space::Element,
    Space::Function,
    Space::Global,
    Space::Memory,
    Space::Table,
    Space::Tag,
    Space::Type_,
    Space::DataCount,
    Space::ComponentType,
    Space::ComponentInstance,
    Space::ComponentFunc,
    Space::Component,
    Space::Module,
    Space::Instance,
    Space::ComponentValue,
];

/// What is told of a count.
fn name(what: Asked) -> &'static str {
    match what {
        Asked::Of(space) => space.name(),
        Asked::SectionHook => "section_hook",
        Asked::Push => "push",
        Asked::Pop => "pop",
    }
}

/// The space of a name.
fn space(word: &str) -> Result<Space, Stop> {
    for space in SPACES {
        if space.name() == word {
            return Ok(space);
        }
    }
    Err(Stop::Unread)
}

/// What is re-encoded of a core module: the whole, at once or in pieces; the whole into a module that holds a section before;
/// or the operators of a body without locals.
#[derive(Clone, Copy)]
pub enum What {
    Module,
    Pieces,
    Held,
    Operators,
}

impl What {
    /// Whether what comes of it is compared with what comes by the default methods.
    pub fn is_compared(self) -> bool {
        matches!(self, What::Module | What::Operators)
    }
}

/// The greatest length that a body may have, and how many scopes are open round a component: at most 200.
#[derive(Clone, Copy)]
pub struct Bounds {
    pub ceiling: u32,
    pub depth: u32,
}

/// How it is re-encoded.
#[derive(Drop)]
pub struct Way {
    pub renamer: Renamer,
    pub bounds: Bounds,
    pub is_counted: bool,
    pub additions: Additions,
    /// The number of the call of a hook that is refused.
    pub refused: Option<u32>,
}

impl Way {
    /// Follows a word of a key that is no index: `under=CEILING`, `depth=SCOPES`, `refuse=CALL`, `before=ID:HEX`, or
    /// `behind=ID:HEX`.
    fn follow_key(&mut self, alloc: Global, key: &str, to: &str) -> Result<(), Stop> {
        match key {
            "under" => self.bounds.ceiling = number(to)?,
            "depth" => self.bounds.depth = number(to)?,
            "refuse" => self.refused = Some(number(to)?),
            _ => self.additions.push(Addition::of_word(alloc, key, to)?)?,
        }
        Ok(())
    }

    /// Maps an index of a space, by their words.
    fn map(&mut self, name: &str, from: &str, to: &str) -> Result<(), Stop> {
        let space = space(name)?;
        Ok(self.renamer.set(space, number(from)?, number(to)?)?)
    }

    /// Follows a word `SPACE.FROM=TO`, or one of another key.
    fn follow_pair(&mut self, alloc: Global, key: &str, to: &str) -> Result<(), Stop> {
        match key.split_once('.') {
            Some((name, from)) => self.map(name, from, to),
            None => self.follow_key(alloc, key, to),
        }
    }

    /// Follows a word: `strict`, `counted`, `alone`, or one with a key.
    fn follow(&mut self, alloc: Global, word: &str) -> Result<(), Stop> {
        match word {
            "strict" => self.renamer.set_strict(true),
            "counted" => self.is_counted = true,
            "alone" => self.additions.push(Addition::alone(alloc)?)?,
            _ => match word.split_once('=') {
                Some((key, to)) => self.follow_pair(alloc, key, to)?,
                None => return Err(Stop::Unread),
            },
        }
        Ok(())
    }
}

/// The way of some words.
pub fn way_of(alloc: Global, words: &str) -> Result<Way, Stop> {
    let mut way = Way {
        renamer: Renamer::new(alloc),
        bounds: Bounds {
            ceiling: u32::MAX,
            depth: 0,
        },
        is_counted: false,
        additions: Additions::new(),
        refused: None,
    };
    for word in words.split_whitespace() {
        way.follow(alloc, word)?;
    }
    Ok(way)
}

/// Adds a count that is not 0.
fn add_count(text: &mut String, renamer: &Renamer, what: Asked) -> Result<(), AllocError> {
    let count = renamer.count(what);
    if count == 0 {
        return Ok(());
    }
    add_word(text, name(what))?;
    add(text, &count)
}

/// Adds each count that is not 0.
pub fn add_counts(text: &mut String, renamer: &Renamer) -> Result<(), AllocError> {
    add_word(text, "asked")?;
    for space in SPACES {
        add_count(text, renamer, Asked::Of(space))?;
    }
    for what in [Asked::SectionHook, Asked::Push, Asked::Pop] {
        add_count(text, renamer, what)?;
    }
    Ok(())
}

/// Some bytes behind others in memory of their own.
fn joined(alloc: Global, front: &[u8], back: &[u8]) -> Result<Vec<u8>, NoMemory> {
    let mut bytes = Vec::new(alloc);
    match bytes.extend_from_slice(front) {
        Ok(()) => match bytes.extend_from_slice(back) {
            Ok(()) => Ok(bytes),
            Err(_) => Err(NoMemory),
        },
        Err(_) => Err(NoMemory),
    }
}

/// The operators of a body without locals.
fn operators_of(alloc: Global, func: FunctionBody<'_>) -> Result<Vec<u8>, Fault> {
    let operators = func.operators()?;
    Ok(joined(alloc, &[], operators.rest())?)
}

/// The operators of the first body in a section of code.
fn first_operators(alloc: Global, section: &[u8]) -> Result<Vec<u8>, Fault> {
    let mut rows = CodeSectionReader::new(section)?;
    match rows.next_row(alloc)? {
        Some(func) => operators_of(alloc, func),
        None => Ok(Vec::new(alloc)),
    }
}

/// The same of a section as it is written.
fn operators_of_code(alloc: Global, code: &CodeSection) -> Result<Vec<u8>, Fault> {
    let mut section = Vec::new(alloc);
    code.encode_body(&mut section)?;
    first_operators(alloc, section.as_slice())
}

/// The operators of a body without locals, re-encoded.
fn reencode_operators<R: Reencode>(
    alloc: Global,
    reencoder: &mut R,
    operators: &[u8],
    ceiling: u32,
) -> Result<Vec<u8>, Error<R::Error>> {
    let body = joined(alloc, &[0], operators)?;
    let func = FunctionBody {
        bytes: body.as_slice(),
    };
    let mut code = CodeSection::new(alloc, ceiling);
    reencoder.parse_function_body(alloc, &mut code, func)?;
    Ok(operators_of_code(alloc, &code)?)
}

/// Adds what a refusal says.
pub fn add_refused<E: Display>(
    alloc: Global,
    text: &mut String,
    e: &Error<E>,
) -> Result<(), AllocError> {
    add_word(text, refusal(alloc, e)?.as_str())
}

/// Adds what was made: its bytes, or what the refusal says.
pub fn add_made<E: Display + Drop>(
    alloc: Global,
    text: &mut String,
    made: Result<Vec<u8>, Error<E>>,
) -> Result<(), AllocError> {
    match made {
        Ok(bytes) => add_bytes(alloc, text, bytes.as_slice()),
        Err(e) => add_refused(alloc, text, &e),
    }
}

/// A module with a start section.
fn started<E>(alloc: Global, ceiling: u32) -> Result<Module, Error<E>> {
    let mut module = Module::new(alloc, ceiling)?;
    module.section(&StartSection { function_index: 0 })?;
    Ok(module)
}

/// Adds what a module holds that held a start section before, behind the refusal where there is one.
fn add_held<R: Reencode>(
    alloc: Global,
    text: &mut String,
    reencoder: &mut R,
    bytes: &[u8],
    module: Module,
) -> Result<(), AllocError>
where
    R::Error: Display + Drop,
{
    let mut module = module;
    if let Err(e) = reencoder.parse_core_module(alloc, &mut module, bytes) {
        add_refused(alloc, text, &e)?;
    }
    add_bytes(alloc, text, module.as_slice())
}

/// Adds what a module holds where it is re-encoded into one with a start section, or why there is none.
fn add_started<R: Reencode>(
    alloc: Global,
    text: &mut String,
    reencoder: &mut R,
    bytes: &[u8],
    ceiling: u32,
) -> Result<(), AllocError>
where
    R::Error: Display + Drop,
{
    match started(alloc, ceiling) {
        Ok(module) => add_held(alloc, text, reencoder, bytes, module),
        Err(e) => add_refused::<R::Error>(alloc, text, &e),
    }
}

/// Adds what comes of it, or the refusal.
fn add_what<R: Reencode>(
    alloc: Global,
    text: &mut String,
    reencoder: &mut R,
    what: What,
    bytes: &[u8],
    ceiling: u32,
) -> Result<(), AllocError>
where
    R::Error: Display + Drop,
{
    match what {
        What::Module => {
            let made = reencode_core(alloc, reencoder, bytes, ceiling);
            add_made(alloc, text, made)
        }
        What::Operators => {
            let made = reencode_operators(alloc, reencoder, bytes, ceiling);
            add_made(alloc, text, made)
        }
        What::Pieces => add_pieces(alloc, text, reencoder, bytes, ceiling),
        What::Held => add_started(alloc, text, reencoder, bytes, ceiling),
    }
}

/// What comes of it, or the refusal.
pub fn made<R: Reencode>(
    alloc: Global,
    reencoder: &mut R,
    what: What,
    bytes: &[u8],
    ceiling: u32,
) -> Result<String, AllocError>
where
    R::Error: Display + Drop,
{
    let mut text = String::new(alloc);
    add_what(alloc, &mut text, reencoder, what, bytes, ceiling)?;
    Ok(text)
}
