//! What the functions of rows ask.
use crate::noter::{Notes, added, mapped};
use crate::values as v;
use reencode_core::{Reencode, utils};
use reencode_hooks::Error;
use reencode_items::ReencodeItems;
use std::alloc::Global;
use wasm_read as r;
use wasm_write as w;
use wasm_write::RowSection;

/// The locals of a body.
pub fn locals<N: ReencodeItems + Notes>(
    of: &mut N,
    alloc: Global,
    row: r::FunctionBody<'_>,
) -> Result<(), Error<N::Error>> {
    mapped!(of, new_function_with_parsed_locals(alloc, &row))
}

/// What an element segment lists.
fn listed<N: ReencodeItems + Notes>(
    of: &mut N,
    alloc: Global,
    items: r::ElementItems<'_>,
) -> Result<(), Error<N::Error>> {
    mapped!(of, element_items(alloc, items))
}

/// What element segments list.
pub fn items<N: ReencodeItems + Notes>(of: &mut N, alloc: Global) -> Result<(), Error<N::Error>> {
    listed(of, alloc, v::functions(alloc)?)?;
    listed(of, alloc, v::expressions(alloc)?)
}

/// A group of types.
fn group<N: ReencodeItems + Notes>(
    of: &mut N,
    alloc: Global,
    group: r::RecGroup,
) -> Result<(), Error<N::Error>> {
    mapped!(of, parse_recursive_type_group(alloc, group))
}

/// An entry of imports.
fn imported<N: ReencodeItems + Notes>(
    of: &mut N,
    alloc: Global,
    row: r::Imports<'_>,
    sink: &mut w::ImportSection,
) -> Result<(), Error<N::Error>> {
    added!(of, parse_imports(alloc, sink, row))
}

/// Entries of imports: a single one, and two of one module, with a type each and of one type.
fn entries<N: ReencodeItems + Notes>(of: &mut N, alloc: Global) -> Result<(), Error<N::Error>> {
    let mut sink = RowSection::new(alloc);
    imported(of, alloc, r::Imports::Single(v::IMPORT), &mut sink)?;
    imported(of, alloc, v::typed_imports()?, &mut sink)?;
    imported(of, alloc, v::named_imports()?, &mut sink)
}

/// A table.
fn table<N: ReencodeItems + Notes>(
    of: &mut N,
    alloc: Global,
    row: r::Table<'_>,
    sink: &mut w::TableSection,
) -> Result<(), Error<N::Error>> {
    added!(of, parse_table(alloc, sink, row))
}

/// A global.
fn global<N: ReencodeItems + Notes>(
    of: &mut N,
    alloc: Global,
    row: r::Global<'_>,
    sink: &mut w::GlobalSection,
) -> Result<(), Error<N::Error>> {
    added!(of, parse_global(alloc, sink, row))
}

/// An export.
fn export<N: ReencodeItems + Notes>(
    of: &mut N,
    row: r::Export<'_>,
    sink: &mut w::ExportSection,
) -> Result<(), Error<N::Error>> {
    added!(of, parse_export(sink, row))
}

/// An element segment.
fn element<N: Reencode + Notes>(
    of: &mut N,
    alloc: Global,
    row: r::Element<'_>,
    sink: &mut w::ElementSection,
) -> Result<(), Error<N::Error>> {
    added!(of, parse_element(alloc, sink, row))
}

/// A data segment.
fn segment<N: ReencodeItems + Notes>(
    of: &mut N,
    alloc: Global,
    row: r::Data<'_>,
    sink: &mut w::DataSection,
) -> Result<(), Error<N::Error>> {
    added!(of, parse_data(alloc, sink, row))
}

/// Groups, imports and tables.
pub fn rows<N: ReencodeItems + Notes>(of: &mut N, alloc: Global) -> Result<(), Error<N::Error>> {
    group(of, alloc, v::group(alloc)?)?;
    entries(of, alloc)?;
    let mut sink = RowSection::new(alloc);
    table(of, alloc, v::table(), &mut sink)?;
    table(of, alloc, v::table_with_value()?, &mut sink)
}

/// Globals, exports and segments.
pub fn more_rows<N: Reencode + Notes>(of: &mut N, alloc: Global) -> Result<(), Error<N::Error>> {
    global(of, alloc, v::global()?, &mut RowSection::new(alloc))?;
    export(of, v::EXPORT, &mut RowSection::new(alloc))?;
    element(of, alloc, v::element(alloc)?, &mut RowSection::new(alloc))?;
    segment(of, alloc, v::data_segment()?, &mut RowSection::new(alloc))
}
