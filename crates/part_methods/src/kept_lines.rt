//! What those methods ask that are not one text with their functions, and what these ask.
use crate::noter::{Notes, both};
use crate::values as v;
use reencode_component::ReencodeComponentItems;
use reencode_core::{Reencode, utils};
use reencode_hooks::Error;
use std::alloc::Global;
use wasm_leb::Fault;
use wasm_read as r;
use wasm_read::SectionReader;
use wasm_read_component::ComponentExternalKind;
use wasm_shapes::kinds;
use wasm_write as w;
use wasm_write::RowSection;

/// Sorts of what a component holds.
const SORTS: [(&str, ComponentExternalKind); 6] = [
    ("module", ComponentExternalKind::Module),
    ("func", ComponentExternalKind::Func),
    ("value", ComponentExternalKind::Value),
    ("type", ComponentExternalKind::Type_),
    ("instance", ComponentExternalKind::Instance),
    ("component", ComponentExternalKind::Component),
];

/// A section's rows, which are given twice.
type Twice<'a, K> = (SectionReader<'a, K>, SectionReader<'a, K>);

/// The rows of a section's body, twice.
fn twice<'a, K>(body: &'a [u8]) -> Result<Twice<'a, K>, Fault> {
    Ok((v::rows(body)?, v::rows(body)?))
}

/// A section of types, which is given twice.
fn type_section<N: Reencode + Notes>(
    of: &mut N,
    alloc: Global,
    (rows, again): Twice<'_, kinds::Types>,
    sink: &mut w::TypeSection,
) -> Result<(), Error<N::Error>> {
    both!(
        of,
        parse_type_section(alloc, sink, rows),
        (alloc, sink, again)
    )
}

/// A section of imports, which is given twice.
fn import_section<N: Reencode + Notes>(
    of: &mut N,
    alloc: Global,
    (rows, again): Twice<'_, kinds::Imports>,
    sink: &mut w::ImportSection,
) -> Result<(), Error<N::Error>> {
    both!(
        of,
        parse_import_section(alloc, sink, rows),
        (alloc, sink, again)
    )
}

/// A section of tables, which is given twice.
fn table_section<N: Reencode + Notes>(
    of: &mut N,
    alloc: Global,
    (rows, again): Twice<'_, kinds::Tables>,
    sink: &mut w::TableSection,
) -> Result<(), Error<N::Error>> {
    both!(
        of,
        parse_table_section(alloc, sink, rows),
        (alloc, sink, again)
    )
}

/// A section of globals, which is given twice.
fn global_section<N: Reencode + Notes>(
    of: &mut N,
    alloc: Global,
    (rows, again): Twice<'_, kinds::Globals>,
    sink: &mut w::GlobalSection,
) -> Result<(), Error<N::Error>> {
    both!(
        of,
        parse_global_section(alloc, sink, rows),
        (alloc, sink, again)
    )
}

/// A section of exports, which is given twice.
fn export_section<N: Reencode + Notes>(
    of: &mut N,
    alloc: Global,
    (rows, again): Twice<'_, kinds::Exports>,
    sink: &mut w::ExportSection,
) -> Result<(), Error<N::Error>> {
    both!(
        of,
        parse_export_section(alloc, sink, rows),
        (alloc, sink, again)
    )
}

/// A section of elements, which is given twice.
fn element_section<N: Reencode + Notes>(
    of: &mut N,
    alloc: Global,
    (rows, again): Twice<'_, kinds::Elements>,
    sink: &mut w::ElementSection,
) -> Result<(), Error<N::Error>> {
    both!(
        of,
        parse_element_section(alloc, sink, rows),
        (alloc, sink, again)
    )
}

/// A section of data segments, which is given twice.
fn data_section<N: Reencode + Notes>(
    of: &mut N,
    alloc: Global,
    (rows, again): Twice<'_, kinds::Segments>,
    sink: &mut w::DataSection,
) -> Result<(), Error<N::Error>> {
    both!(
        of,
        parse_data_section(alloc, sink, rows),
        (alloc, sink, again)
    )
}

/// Sections of types, imports and tables.
pub fn sections<N: Reencode + Notes>(of: &mut N, alloc: Global) -> Result<(), Error<N::Error>> {
    type_section(of, alloc, twice(&v::TYPES)?, &mut RowSection::new(alloc))?;
    import_section(of, alloc, twice(&v::IMPORTS)?, &mut RowSection::new(alloc))?;
    table_section(of, alloc, twice(&v::TABLES)?, &mut RowSection::new(alloc))
}

/// Sections of globals and of exports.
pub fn more_sections<N: Reencode + Notes>(
    of: &mut N,
    alloc: Global,
) -> Result<(), Error<N::Error>> {
    global_section(of, alloc, twice(&v::GLOBALS)?, &mut RowSection::new(alloc))?;
    export_section(of, alloc, twice(&v::EXPORTS)?, &mut RowSection::new(alloc))
}

/// Sections of segments.
pub fn segments<N: Reencode + Notes>(of: &mut N, alloc: Global) -> Result<(), Error<N::Error>> {
    element_section(of, alloc, twice(&v::ELEMENTS)?, &mut RowSection::new(alloc))?;
    data_section(of, alloc, twice(&v::SEGMENTS)?, &mut RowSection::new(alloc))
}

/// An import by itself.
fn import<N: Reencode + Notes>(
    of: &mut N,
    alloc: Global,
    row: r::Import<'_>,
    sink: &mut w::ImportSection,
) -> Result<(), Error<N::Error>> {
    both!(of, parse_import(alloc, sink, row), (alloc, sink, row))
}

/// A function's body.
fn body<N: Reencode + Notes>(
    of: &mut N,
    alloc: Global,
    row: r::FunctionBody<'_>,
    sink: &mut w::CodeSection,
) -> Result<(), Error<N::Error>> {
    both!(
        of,
        parse_function_body(alloc, sink, row),
        (alloc, sink, row)
    )
}

/// The start function, by the method alone.
fn start<N: Reencode + Notes>(of: &mut N) -> Result<(), Error<N::Error>> {
    of.begin("start_section", "");
    of.start_section(0)?;
    Ok(())
}

/// An import, the start and a body.
pub fn rows<N: Reencode + Notes>(of: &mut N, alloc: Global) -> Result<(), Error<N::Error>> {
    import(of, alloc, v::IMPORT, &mut RowSection::new(alloc))?;
    start(of)?;
    body(
        of,
        alloc,
        v::BODY,
        &mut w::CodeSection::new(alloc, u32::MAX),
    )
}

/// An index of what a component holds by its sort, by the method alone.
fn index<N: ReencodeComponentItems + Notes>(of: &mut N, case: &str, kind: ComponentExternalKind) {
    of.begin("component_external_index", case);
    let _ = of.component_external_index(kind, 0);
}

/// Indices by their sorts.
pub fn indices<N: ReencodeComponentItems + Notes>(of: &mut N) {
    for (case, kind) in SORTS {
        index(of, case, kind);
    }
}
