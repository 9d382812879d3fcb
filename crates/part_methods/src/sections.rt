//! What the functions of modules and of their sections ask.
use crate::noter::{Notes, added, alone};
use crate::values as v;
use reencode_core::{Reencode, utils};
use reencode_hooks::Error;
use reencode_items::ReencodeItems;
use std::alloc::Global;
use wasm_read as r;
use wasm_shapes::SectionId;
use wasm_write as w;
use wasm_write::RowSection;

/// The header of a core module alone.
const HEADER: [u8; 8] = [0x00, 0x61, 0x73, 0x6d, 0x01, 0x00, 0x00, 0x00];

/// Sections of types and of code.
const MODULE: [u8; 23] = [
    0x00, 0x61, 0x73, 0x6d, 0x01, 0x00, 0x00, 0x00, 0x01, 0x07, 0x02, 0x60, 0x00, 0x00, 0x60, 0x00,
    0x00, 0x0a, 0x04, 0x01, 0x02, 0x00, 0x0b,
];

/// A custom section, one of the id 99, and a name section.
const OTHERS: [u8; 25] = [
    0x00, 0x61, 0x73, 0x6d, 0x01, 0x00, 0x00, 0x00, 0x00, 0x02, 0x01, 0x78, 0x63, 0x00, 0x00, 0x09,
    0x04, 0x6e, 0x61, 0x6d, 0x65, 0x00, 0x02, 0x01, 0x6d,
];

/// Each section by what its body says.
const BODIES: [(SectionId, &[u8]); 13] = [
    (SectionId::Type_, &v::TYPES),
    (SectionId::Import, &v::IMPORTS),
    (SectionId::Function, &v::FUNCTIONS),
    (SectionId::Table, &v::TABLES),
    (SectionId::Memory, &v::MEMORIES),
    (SectionId::Global, &v::GLOBALS),
    (SectionId::Export, &v::EXPORTS),
    (SectionId::Start, &v::ITEM),
    (SectionId::Element, &v::ELEMENTS),
    (SectionId::Code, &v::CODE),
    (SectionId::Data, &v::SEGMENTS),
    (SectionId::DataCount, &v::ITEM),
    (SectionId::Tag, &v::TAGS),
];

/// A module.
fn module<N: Reencode + Notes>(
    of: &mut N,
    alloc: Global,
    module: &mut w::Module,
    bytes: &[u8],
) -> Result<(), Error<N::Error>> {
    added!(of, parse_core_module(alloc, module, bytes))
}

/// Modules.
pub fn modules<N: Reencode + Notes>(of: &mut N, alloc: Global) -> Result<(), Error<N::Error>> {
    let mut made = w::Module::new(alloc, u32::MAX)?;
    module(of, alloc, &mut made, &HEADER)?;
    module(of, alloc, &mut made, &MODULE)?;
    module(of, alloc, &mut made, &OTHERS)
}

/// A section of functions.
fn function_section<N: ReencodeItems + Notes>(
    of: &mut N,
    alloc: Global,
    rows: r::FunctionSectionReader<'_>,
    sink: &mut w::FunctionSection,
) -> Result<(), Error<N::Error>> {
    added!(of, parse_function_section(alloc, sink, rows))
}

/// A section of memories.
fn memory_section<N: ReencodeItems + Notes>(
    of: &mut N,
    alloc: Global,
    rows: r::MemorySectionReader<'_>,
    sink: &mut w::MemorySection,
) -> Result<(), Error<N::Error>> {
    added!(of, parse_memory_section(alloc, sink, rows))
}

/// A section of tags.
fn tag_section<N: ReencodeItems + Notes>(
    of: &mut N,
    alloc: Global,
    rows: r::TagSectionReader<'_>,
    sink: &mut w::TagSection,
) -> Result<(), Error<N::Error>> {
    added!(of, parse_tag_section(alloc, sink, rows))
}

/// A section of code.
fn code_section<N: Reencode + Notes>(
    of: &mut N,
    alloc: Global,
    rows: r::CodeSectionReader<'_>,
    sink: &mut w::CodeSection,
) -> Result<(), Error<N::Error>> {
    added!(of, parse_code_section(alloc, sink, rows))
}

/// Sections of functions and of memories.
pub fn sections<N: Reencode + Notes>(of: &mut N, alloc: Global) -> Result<(), Error<N::Error>> {
    function_section(
        of,
        alloc,
        v::rows(&v::FUNCTIONS)?,
        &mut RowSection::new(alloc),
    )?;
    memory_section(
        of,
        alloc,
        v::rows(&v::MEMORIES)?,
        &mut RowSection::new(alloc),
    )
}

/// Sections of tags and of code.
pub fn more_sections<N: Reencode + Notes>(
    of: &mut N,
    alloc: Global,
) -> Result<(), Error<N::Error>> {
    tag_section(of, alloc, v::rows(&v::TAGS)?, &mut RowSection::new(alloc))?;
    let mut sink = w::CodeSection::new(alloc, u32::MAX);
    code_section(of, alloc, v::rows(&v::CODE)?, &mut sink)
}

/// The body of a section.
fn section_body<N: Reencode + Notes>(
    of: &mut N,
    alloc: Global,
    module: &mut w::Module,
    id: SectionId,
    body: &[u8],
) -> Result<(), Error<N::Error>> {
    added!(of, parse_section(alloc, module, id, body))
}

/// Bodies of sections.
pub fn bodies<N: Reencode + Notes>(of: &mut N, alloc: Global) -> Result<(), Error<N::Error>> {
    let mut module = w::Module::new(alloc, u32::MAX)?;
    for (id, body) in BODIES {
        section_body(of, alloc, &mut module, id, body)?;
    }
    Ok(())
}

/// A section of imports where their entries are mapped by the default.
fn import_section<N: Reencode + Notes>(
    of: &mut N,
    alloc: Global,
    rows: r::ImportSectionReader<'_>,
    sink: &mut w::ImportSection,
) -> Result<(), Error<N::Error>> {
    alone!(of, parse_import_section(alloc, sink, rows))
}

/// A section of imports, which asks for no import alone.
pub fn imports<N: Reencode + Notes>(of: &mut N, alloc: Global) -> Result<(), Error<N::Error>> {
    import_section(
        of,
        alloc,
        v::rows(&v::IMPORTS)?,
        &mut RowSection::new(alloc),
    )
}
