//! The sections, rows and index spaces of core modules, functions at other places, and names that are left out.
use crate::case::Case;
use crate::modules::SPACES;
use crate::stop::Stop;
use crate::text::{add, add_bytes, add_word};
use crate::tools::numbers_of;
use module_names::{Stay, leave_names};
use module_spaces::{
    Measures, Unpaired, arrange, count_definitions, count_entries, count_imports, count_rows,
    count_sections, count_types, measure, pair,
};
use std::alloc::{AllocError, Global};
use std::fmt::Write;
use wasm_shapes::{SectionId, Space};

/// The kinds of sections by their ids.
const KINDS: [SectionId; 13] = [
    SectionId::Type_,
    SectionId::Import,
    SectionId::Function,
    SectionId::Table,
    SectionId::Memory,
    SectionId::Global,
    SectionId::Export,
    SectionId::Start,
    SectionId::Element,
    SectionId::Code,
    SectionId::Data,
    SectionId::DataCount,
    SectionId::Tag,
];

/// Adds a count, or that there is none.
fn add_count(text: &mut String, count: Option<u32>) -> Result<(), AllocError> {
    match count {
        Some(count) => add(text, &count),
        None => add_word(text, "none"),
    }
}

/// Adds of a kind how many sections there are, and how many rows.
fn add_kind(text: &mut String, bytes: &[u8], kind: SectionId) -> Result<(), AllocError> {
    let sections = count_sections(bytes, kind);
    if sections == Some(0) {
        return Ok(());
    }
    write!(text, "{}: ", kind as u8)?;
    add_count(text, sections)?;
    match kind {
        SectionId::Start | SectionId::DataCount => Ok(()),
        _ => add_count(text, count_rows(bytes, kind)),
    }
}

/// Adds of a space how many imports, definitions and entries there are.
fn add_space(
    alloc: Global,
    text: &mut String,
    bytes: &[u8],
    space: Space,
) -> Result<(), AllocError> {
    let entries = count_entries(alloc, bytes, space);
    if entries == Some(0) {
        return Ok(());
    }
    add_word(text, space.name())?;
    add_count(text, count_imports(alloc, bytes, space))?;
    add_count(text, count_definitions(bytes, space))?;
    add_count(text, entries)
}

/// How many sections and rows of each kind a module has.
fn rows(alloc: Global, bytes: &[u8]) -> Result<String, Stop> {
    let mut text = String::new(alloc);
    for kind in KINDS {
        add_kind(&mut text, bytes, kind)?;
    }
    Ok(text)
}

/// How many entries each index space of a module has.
fn entries(alloc: Global, bytes: &[u8]) -> Result<String, Stop> {
    let mut text = String::new(alloc);
    for space in SPACES {
        if space.is_core() {
            add_space(alloc, &mut text, bytes, space)?;
        }
    }
    add_word(&mut text, "types")?;
    add_count(&mut text, count_types(bytes))?;
    Ok(text)
}

/// Whether each function of a module has a body, and what is counted for that.
fn paired(alloc: Global, bytes: &[u8]) -> Result<String, Stop> {
    let mut text = String::new(alloc);
    let Some(counted) = measure(alloc, bytes) else {
        add_word(&mut text, "none")?;
        return Ok(text);
    };
    let Measures {
        function_sections,
        code_sections,
        functions,
        bodies,
        imports,
    } = counted;
    for count in [function_sections, code_sections, functions, bodies, imports] {
        add(&mut text, &count)?;
    }
    match pair(counted) {
        Ok(()) => add_word(&mut text, "even")?,
        Err(Unpaired::Repeated { id }) => write!(text, "repeated {id}")?,
        Err(Unpaired::Uneven { functions, bodies }) => {
            write!(text, "uneven {functions} {bodies}")?;
        }
    }
    Ok(text)
}

/// The text of a module, or that there is none.
fn made(alloc: Global, out: Option<Vec<u8>>) -> Result<String, Stop> {
    let mut text = String::new(alloc);
    match out {
        Some(out) => add_bytes(alloc, &mut text, out.as_slice())?,
        None => add_word(&mut text, "none")?,
    }
    Ok(text)
}

/// A module with its functions at the places of the words.
fn arranged(alloc: Global, words: &str, bytes: &[u8]) -> Result<String, Stop> {
    let (_, numbers) = numbers_of(alloc, words, "", 0)?;
    let mut places = Vec::new(alloc);
    for number in numbers.iter() {
        match places.push(*number as usize) {
            Ok(()) => {}
            Err(_) => return Err(Stop::NoMemory),
        }
    }
    made(alloc, arrange(alloc, bytes, &places))
}

/// A module without the names of the functions that the words don't name and that aren't imported.
fn named(alloc: Global, words: &str, bytes: &[u8]) -> Result<String, Stop> {
    let (imports, functions) = numbers_of(alloc, words, "imports", 0)?;
    let mut marks = vec![in alloc; false; 16]?;
    for function in functions.iter() {
        let place = *function as usize;
        if place < marks.len() {
            marks[place] = true;
        }
    }
    let stay = Stay {
        imports,
        marks: &marks,
    };
    made(alloc, leave_names(alloc, bytes, stay))
}

/// What comes of a call over a module, where there is one of this name.
pub fn answer(alloc: Global, case: &Case<'_>, bytes: &[u8]) -> Result<Option<String>, Stop> {
    match case.call {
        "rows" => Ok(Some(rows(alloc, bytes)?)),
        "entries" => Ok(Some(entries(alloc, bytes)?)),
        "paired" => Ok(Some(paired(alloc, bytes)?)),
        "arrange" => Ok(Some(arranged(alloc, case.words, bytes)?)),
        "leave_names" => Ok(Some(named(alloc, case.words, bytes)?)),
        _ => Ok(None),
    }
}
