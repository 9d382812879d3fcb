//! The default bodies of `Reencode`, as functions of any reencoder.
//!
//! Those whose bodies call no method of `Reencode` are bounded by the trait below whose methods they call, `ReencodeItems` or
//! `ReencodeIndices`, so that an override can call them.
ghost use Rattle.wasm_shapes.specs.declared.SectionId.TheVariants as kinds;
ghost use Rattle.wasm_shapes.specs.Module.{row_of};
ghost use Rattle.wasm_read.specs.declared.types.Imports.TheVariants as imported;
ghost use Rattle.wasm_read.specs.Types as read;
ghost use Rattle.reencode_core.specs.Clauses.{BodyClauses, CodeSectionClauses, CustomClauses, ModuleClauses, NamesClauses, RowClauses, RowsClauses, SectionClauses};

use crate::errors::placed;
use crate::reencode::Reencode;
pub use crate::row_sections::{parse_function_section, parse_memory_section, parse_tag_section};
pub use crate::rows::{
    custom_section, element_items, new_function_with_parsed_locals, parse_data, parse_export,
    parse_global, parse_imports, parse_recursive_type_group, parse_table, parse_unknown_section,
};
use crate::sections::{Body, add_rows, add_section, read_body, take_section};
pub use crate::subsections::parse_custom_name_subsection;
use crate::{default_bodies, direct, rows};
use reencode_hooks::Error;
use reencode_items::direct::Next;
use std::alloc::Global;
use wasm_read as r;
use wasm_shapes::{SectionId, Visit};
use wasm_write as w;

/// Maps the rows that the reader still has, each by `parse_recursive_type_group`, and adds each row once it is mapped.
pub fn parse_type_section<T: Reencode>(
    reencoder: &mut T,
    alloc: Global,
    types: &mut w::TypeSection,
    section: r::TypeSectionReader<'_>,
) -> Result<(), Error<T::Error>>
    ensures { RowsClauses T.ReencodeIndices (row_of kinds.Type_) section.entry
        reencoder.old types.old reencoder.new types.new result }
{
    default_bodies::each_row!(section, alloc, row => types.group(&reencoder.parse_recursive_type_group(alloc, row)?))
}

/// Maps the rows that the reader still has, each by `parse_imports`.
pub fn parse_import_section<T: Reencode>(
    reencoder: &mut T,
    alloc: Global,
    imports: &mut w::ImportSection,
    section: r::ImportSectionReader<'_>,
) -> Result<(), Error<T::Error>>
    ensures { RowsClauses T.ReencodeIndices (row_of kinds.Import) section.entry
        reencoder.old imports.old reencoder.new imports.new result }
{
    default_bodies::each_row!(section, alloc, row => reencoder.parse_imports(alloc, imports, row))
}

/// Maps what is imported by `parse_imports`, as an entry of its own.
pub fn parse_import<T: Reencode>(
    reencoder: &mut T,
    alloc: Global,
    imports: &mut w::ImportSection,
    import: r::Import<'_>,
) -> Result<(), Error<T::Error>>
    ensures { RowClauses T.ReencodeIndices (read.import_tree (imported.Single import.entry))
        reencoder.old imports.old reencoder.new imports.new result }
{
    reencoder.parse_imports(alloc, imports, r::Imports::Single(import))
}

/// Maps the rows that the reader still has, each by `parse_table`.
pub fn parse_table_section<T: Reencode>(
    reencoder: &mut T,
    alloc: Global,
    tables: &mut w::TableSection,
    section: r::TableSectionReader<'_>,
) -> Result<(), Error<T::Error>>
    ensures { RowsClauses T.ReencodeIndices (row_of kinds.Table) section.entry
        reencoder.old tables.old reencoder.new tables.new result }
{
    default_bodies::each_row!(section, alloc, row => reencoder.parse_table(alloc, tables, row))
}

/// Maps the rows that the reader still has, each by `parse_global`.
pub fn parse_global_section<T: Reencode>(
    reencoder: &mut T,
    alloc: Global,
    globals: &mut w::GlobalSection,
    section: r::GlobalSectionReader<'_>,
) -> Result<(), Error<T::Error>>
    ensures { RowsClauses T.ReencodeIndices (row_of kinds.Global) section.entry
        reencoder.old globals.old reencoder.new globals.new result }
{
    default_bodies::each_row!(section, alloc, row => reencoder.parse_global(alloc, globals, row))
}

/// Maps the rows that the reader still has, each by `parse_export`.
pub fn parse_export_section<T: Reencode>(
    reencoder: &mut T,
    alloc: Global,
    exports: &mut w::ExportSection,
    section: r::ExportSectionReader<'_>,
) -> Result<(), Error<T::Error>>
    ensures { RowsClauses T.ReencodeIndices (row_of kinds.Export) section.entry
        reencoder.old exports.old reencoder.new exports.new result }
{
    default_bodies::each_row!(section, alloc, row => reencoder.parse_export(exports, row))
}

/// Maps the rows that the reader still has, each by `parse_element`.
pub fn parse_element_section<T: Reencode>(
    reencoder: &mut T,
    alloc: Global,
    elements: &mut w::ElementSection,
    section: r::ElementSectionReader<'_>,
) -> Result<(), Error<T::Error>>
    ensures { RowsClauses T.ReencodeIndices (row_of kinds.Element) section.entry
        reencoder.old elements.old reencoder.new elements.new result }
{
    default_bodies::each_row!(section, alloc, row => reencoder.parse_element(alloc, elements, row))
}

/// Maps an element segment, and adds it: what it lists by `element_items`, then its table by `table_index` and its
/// offset by `const_expr`. A table that is left out is asked for as the first one, and stays left out where the answer
/// is 0.
pub fn parse_element<T: Reencode>(
    reencoder: &mut T,
    alloc: Global,
    elements: &mut w::ElementSection,
    element: r::Element<'_>,
) -> Result<(), Error<T::Error>>
    ensures { RowClauses T.ReencodeIndices (read.element_tree element.entry)
        reencoder.old elements.old reencoder.new elements.new result }
{
    default_bodies::parse_element!(reencoder, alloc, elements, element)
}

/// Maps the rows that the reader still has, each by `parse_function_body`. A `ParseError` holds the place of the row in
/// fault in the section's body.
pub fn parse_code_section<T: Reencode>(
    reencoder: &mut T,
    alloc: Global,
    code: &mut w::CodeSection,
    section: r::CodeSectionReader<'_>,
) -> Result<(), Error<T::Error>>
    ensures { CodeSectionClauses T.ReencodeIndices section.entry
        reencoder.old code.old reencoder.new code.new result }
{
    default_bodies::parse_code_section!(reencoder, alloc, code, section)
}

/// Maps the locals of a body by `new_function_with_parsed_locals` and its operators by `parse_instruction`, or without lists where
/// no method of an item is overridden (`DEFAULT_ITEMS`), and adds the function.
pub fn parse_function_body<T: Reencode>(
    reencoder: &mut T,
    alloc: Global,
    code: &mut w::CodeSection,
    func: r::FunctionBody<'_>,
) -> Result<(), Error<T::Error>>
    ensures { BodyClauses T.ReencodeIndices func.entry.bytes.now
        reencoder.old code.old reencoder.new code.new result }
{
    default_bodies::parse_function_body!(
        reencoder,
        T::DEFAULT_ITEMS,
        alloc,
        code,
        func,
        reencoder.new_function_with_parsed_locals(alloc, &func)
    )
}

/// Maps the rows that the reader still has, each by `parse_data`.
pub fn parse_data_section<T: Reencode>(
    reencoder: &mut T,
    alloc: Global,
    segments: &mut w::DataSection,
    section: r::DataSectionReader<'_>,
) -> Result<(), Error<T::Error>>
    ensures { RowsClauses T.ReencodeIndices (row_of kinds.Data) section.entry
        reencoder.old segments.old reencoder.new segments.new result }
{
    default_bodies::each_row!(section, alloc, row => reencoder.parse_data(alloc, segments, row))
}

/// Maps the body of a section of a kind by the methods of that kind, and adds the section. It calls neither the section hook nor
/// the closing hook.
pub fn parse_section<T: Reencode>(
    reencoder: &mut T,
    alloc: Global,
    module: &mut w::Module,
    id: SectionId,
    body: &[u8],
) -> Result<(), Error<T::Error>>
    ensures { SectionClauses T.ReencodeIndices id body.now
        reencoder.old «module».old reencoder.new «module».new result }
{
    default_bodies::parse_section!(reencoder, alloc, module, id, body)
}

/// Maps a custom section and adds it: one named `name` by `custom_name_section`, and any other by `custom_section`. It calls
/// neither the section hook nor the closing hook. The place of a `ParseError` is in the contents behind the name.
pub fn parse_custom_section<T: Reencode>(
    reencoder: &mut T,
    alloc: Global,
    module: &mut w::Module,
    section: r::CustomSection<'_>,
) -> Result<(), Error<T::Error>>
    ensures { CustomClauses T.ReencodeIndices section.entry.name.now section.entry.contents.now
        reencoder.old «module».old reencoder.new «module».new result }
{
    default_bodies::parse_custom_section!(reencoder, alloc, module, section)
}

/// Maps the subsections that the reader still has, each by `parse_custom_name_subsection`. No subsection that is written may
/// be longer than the ceiling. A `ParseError` holds the place of the subsection in fault.
pub fn custom_name_section<T: Reencode>(
    reencoder: &mut T,
    alloc: Global,
    section: r::NameSectionReader<'_>,
    ceiling: u32,
) -> Result<w::NameSection, Error<T::Error>>
    ensures { NamesClauses T.ReencodeIndices ceiling section.entry
        reencoder.old reencoder.new result }
{
    default_bodies::custom_name_section!(reencoder, alloc, section, ceiling)
}

/// Reads a module and adds what its sections become. The section hook is called before each section of the ids 1 to 13 and at
/// the end, and the closing hook behind each of these, once it was added.
pub fn parse_core_module<T: Reencode>(
    reencoder: &mut T,
    alloc: Global,
    module: &mut w::Module,
    bytes: &[u8],
) -> Result<(), Error<T::Error>>
    ensures { ModuleClauses T.ReencodeIndices bytes.now
        reencoder.old «module».old reencoder.new «module».new result }
{
    default_bodies::parse_core_module!(reencoder, alloc, module, bytes)
}
