//! What a re-encoder does with each section.
ghost use Rattle.std.specs.Prelude.{◌≤◌};
ghost use Rattle.wasm_shapes.specs.declared.SectionId.TheVariants as kinds;
ghost use Rattle.wasm_shapes.specs.Module.{row_of};
ghost use Rattle.wasm_read.specs.declared.types.Imports.TheVariants as imported;
ghost use Rattle.wasm_read.specs.Subsections.{IsRaw};
ghost use Rattle.wasm_read.specs.Types as read;
ghost use Rattle.wasm_write.specs.Rows.{elements_tree, start_tree};
ghost use Rattle.wasm_write.specs.Types as write;
ghost use Rattle.reencode_items.specs.Clauses.{ItemClauses, ListClauses};
ghost use Rattle.reencode_core.specs.Clauses.{BodyClauses, BytesClauses, CodeSectionClauses, CustomClauses, LocalsClauses, ModuleClauses, NamesClauses, RowClauses, RowsClauses, SectionClauses, SubsectionClauses, UnknownClauses};

use crate::errors::placed;
use crate::sections::{Body, add_rows, add_section, read_body, take_section};
use crate::{default_bodies, direct, row_sections, rows, subsections};
use reencode_hooks::Error;
use reencode_items::ReencodeItems;
use reencode_items::direct::Next;
use std::alloc::Global;
use wasm_read as r;
use wasm_shapes::{SectionId, Visit};
use wasm_write as w;

/// What a re-encoder does with each section of a core module.
///
/// The clauses of a method are the fields of the record that it cites (`specs/Clauses.antt`).
///
/// The clauses `default` and `after_error` of each method hold where the reencoder keeps the defaults. `after_error` says
/// that every error leaves the state after the visits that were made. Of what has a reading these are a front part of its
/// visits; of bytes without one, a front part of the visits of what stands before the fault, or all of these and then some
/// that are drawn from the bytes from there on. After `NoMemory` it wants a reencoder that is sure, and of
/// `parse_core_module`, after a size that is too large, one that adds nothing; of a method that is handed a row it speaks
/// of sure reencoders alone. `start_section` and `custom_section` take no memory, and have `sure` in its place:
/// `NoMemory` never comes where no hook answers it.
/// `wants` says what a sink holds where the reencoder is sure and memory ran out: what the rows or sections before the one
/// at which it ran out became, and no more.
pub trait Reencode: ReencodeItems {
    /// Whether function bodies are mapped by `direct::parse_function_body`, so that what makes an output may map them so itself, and
    /// take a body that stays as it stands from the input. A type that has the marker `DefaultReencode`, or `DefaultSections` with
    /// `DIRECT`, says so; it is not for others to say.
    const DIRECT_BODIES: bool = false;

    /// Whether no method of this trait is overridden, so that what makes an output may take a custom section but `name` from the
    /// input. A type that has the marker `DefaultReencode` or `DefaultSections` says so; it is not for others to say.
    const DEFAULT_SECTIONS: bool = false;

    /// Maps the rows that the reader still has, each by `parse_recursive_type_group`, and adds each row once it is mapped.
    fn parse_type_section(
        &mut self,
        alloc: Global,
        types: &mut w::TypeSection,
        section: r::TypeSectionReader<'_>,
    ) -> Result<(), Error<Self::Error>>
        ensures { RowsClauses Self.ReencodeIndices (row_of kinds.Type_) section.entry
            self.old types.old self.new types.new result }
    {
        default_bodies::each_row!(section, alloc, row => types.group(&self.parse_recursive_type_group(alloc, row)?))
    }

    /// Maps each type of a group by `sub_type`.
    fn parse_recursive_type_group(
        &mut self,
        alloc: Global,
        rec_group: r::RecGroup,
    ) -> Result<w::RecGroup, Error<Self::Error>>
        ensures { ListClauses Self.ReencodeIndices (read.group_tree rec_group) write.group_tree
            self.old self.new result }
    {
        rows::parse_recursive_type_group(self, alloc, rec_group)
    }

    /// Maps the rows that the reader still has, each index by `type_index`, and adds each row once its index was answered.
    fn parse_function_section(
        &mut self,
        alloc: Global,
        functions: &mut w::FunctionSection,
        section: r::FunctionSectionReader<'_>,
    ) -> Result<(), Error<Self::Error>>
        ensures { RowsClauses Self.ReencodeIndices (row_of kinds.Function) section.entry
            self.old functions.old self.new functions.new result }
    {
        row_sections::parse_function_section(self, alloc, functions, section)
    }

    /// Maps the rows that the reader still has, each by `parse_imports`.
    fn parse_import_section(
        &mut self,
        alloc: Global,
        imports: &mut w::ImportSection,
        section: r::ImportSectionReader<'_>,
    ) -> Result<(), Error<Self::Error>>
        ensures { RowsClauses Self.ReencodeIndices (row_of kinds.Import) section.entry
            self.old imports.old self.new imports.new result }
    {
        default_bodies::each_row!(section, alloc, row => self.parse_imports(alloc, imports, row))
    }

    /// Maps an entry of an import section, each type in it by `entity_type`, and adds it.
    fn parse_imports(
        &mut self,
        alloc: Global,
        import_section: &mut w::ImportSection,
        imports: r::Imports<'_>,
    ) -> Result<(), Error<Self::Error>>
        ensures { RowClauses Self.ReencodeIndices (read.import_tree imports.entry)
            self.old import_section.old self.new import_section.new result }
    {
        rows::parse_imports(self, alloc, import_section, imports)
    }

    /// Maps what is imported by `parse_imports`, as an entry of its own.
    fn parse_import(
        &mut self,
        alloc: Global,
        imports: &mut w::ImportSection,
        import: r::Import<'_>,
    ) -> Result<(), Error<Self::Error>>
        ensures { RowClauses Self.ReencodeIndices (read.import_tree (imported.Single import.entry))
            self.old imports.old self.new imports.new result }
    {
        self.parse_imports(alloc, imports, r::Imports::Single(import))
    }

    /// Maps the rows that the reader still has, each by `parse_table`.
    fn parse_table_section(
        &mut self,
        alloc: Global,
        tables: &mut w::TableSection,
        section: r::TableSectionReader<'_>,
    ) -> Result<(), Error<Self::Error>>
        ensures { RowsClauses Self.ReencodeIndices (row_of kinds.Table) section.entry
            self.old tables.old self.new tables.new result }
    {
        default_bodies::each_row!(section, alloc, row => self.parse_table(alloc, tables, row))
    }

    /// Maps a table by `table_type`, and the expression of its first value by `const_expr` where it has one, and adds it.
    fn parse_table(
        &mut self,
        alloc: Global,
        tables: &mut w::TableSection,
        table: r::Table<'_>,
    ) -> Result<(), Error<Self::Error>>
        ensures { RowClauses Self.ReencodeIndices (read.table_tree table.entry)
            self.old tables.old self.new tables.new result }
    {
        rows::parse_table(self, alloc, tables, table)
    }

    /// Maps the rows that the reader still has, each by `memory_type`, and adds each row once it is mapped.
    fn parse_memory_section(
        &mut self,
        alloc: Global,
        memories: &mut w::MemorySection,
        section: r::MemorySectionReader<'_>,
    ) -> Result<(), Error<Self::Error>>
        ensures { RowsClauses Self.ReencodeIndices (row_of kinds.Memory) section.entry
            self.old memories.old self.new memories.new result }
    {
        row_sections::parse_memory_section(self, alloc, memories, section)
    }

    /// Maps the rows that the reader still has, each by `parse_global`.
    fn parse_global_section(
        &mut self,
        alloc: Global,
        globals: &mut w::GlobalSection,
        section: r::GlobalSectionReader<'_>,
    ) -> Result<(), Error<Self::Error>>
        ensures { RowsClauses Self.ReencodeIndices (row_of kinds.Global) section.entry
            self.old globals.old self.new globals.new result }
    {
        default_bodies::each_row!(section, alloc, row => self.parse_global(alloc, globals, row))
    }

    /// Maps a global by `global_type`, the expression of its first value by `const_expr`, and adds it.
    fn parse_global(
        &mut self,
        alloc: Global,
        globals: &mut w::GlobalSection,
        global: r::Global<'_>,
    ) -> Result<(), Error<Self::Error>>
        ensures { RowClauses Self.ReencodeIndices (read.global_tree global.entry)
            self.old globals.old self.new globals.new result }
    {
        rows::parse_global(self, alloc, globals, global)
    }

    /// Maps the rows that the reader still has, each by `tag_type`, and adds each row once it is mapped.
    fn parse_tag_section(
        &mut self,
        alloc: Global,
        tags: &mut w::TagSection,
        section: r::TagSectionReader<'_>,
    ) -> Result<(), Error<Self::Error>>
        ensures { RowsClauses Self.ReencodeIndices (row_of kinds.Tag) section.entry
            self.old tags.old self.new tags.new result }
    {
        row_sections::parse_tag_section(self, alloc, tags, section)
    }

    /// Maps the rows that the reader still has, each by `parse_export`.
    fn parse_export_section(
        &mut self,
        alloc: Global,
        exports: &mut w::ExportSection,
        section: r::ExportSectionReader<'_>,
    ) -> Result<(), Error<Self::Error>>
        ensures { RowsClauses Self.ReencodeIndices (row_of kinds.Export) section.entry
            self.old exports.old self.new exports.new result }
    {
        default_bodies::each_row!(section, alloc, row => self.parse_export(exports, row))
    }

    /// Maps an export by `export_kind` and `external_index`, and adds it.
    fn parse_export(
        &mut self,
        exports: &mut w::ExportSection,
        export: r::Export<'_>,
    ) -> Result<(), Error<Self::Error>>
        ensures { RowClauses Self.ReencodeIndices (read.export_tree export.entry)
            self.old exports.old self.new exports.new result }
    {
        rows::parse_export(self, exports, export)
    }

    /// The index of the function that starts the module, by `function_index` (WebAssembly Core Specification 3.0, section
    /// 5.5.11).
    fn start_section(&mut self, start: u32) -> Result<u32, Error<Self::Error>>
        ensures { ItemClauses Self.ReencodeIndices (start_tree start) start_tree
            self.old self.new result }
    {
        self.function_index(start)
    }

    /// Maps the rows that the reader still has, each by `parse_element`.
    fn parse_element_section(
        &mut self,
        alloc: Global,
        elements: &mut w::ElementSection,
        section: r::ElementSectionReader<'_>,
    ) -> Result<(), Error<Self::Error>>
        ensures { RowsClauses Self.ReencodeIndices (row_of kinds.Element) section.entry
            self.old elements.old self.new elements.new result }
    {
        default_bodies::each_row!(section, alloc, row => self.parse_element(alloc, elements, row))
    }

    /// Maps an element segment, and adds it: what it lists by `element_items`, then its table by `table_index` and its
    /// offset by `const_expr`. A table that is left out is asked for as the first one, and stays left out where the answer
    /// is 0.
    fn parse_element(
        &mut self,
        alloc: Global,
        elements: &mut w::ElementSection,
        element: r::Element<'_>,
    ) -> Result<(), Error<Self::Error>>
        ensures { RowClauses Self.ReencodeIndices (read.element_tree element.entry)
            self.old elements.old self.new elements.new result }
    {
        default_bodies::parse_element!(self, alloc, elements, element)
    }

    /// Maps what an element segment lists: functions each by `function_index`, or expressions each by `const_expr` and
    /// then their type by `ref_type`.
    fn element_items(
        &mut self,
        alloc: Global,
        items: r::ElementItems<'_>,
    ) -> Result<w::Elements, Error<Self::Error>>
        ensures { ListClauses Self.ReencodeIndices (read.element_items_tree items.entry) elements_tree
            self.old self.new result }
    {
        rows::element_items(self, alloc, items)
    }

    /// Maps the rows that the reader still has, each by `parse_function_body`. A `ParseError` holds the place of the row in
    /// fault in the section's body.
    fn parse_code_section(
        &mut self,
        alloc: Global,
        code: &mut w::CodeSection,
        section: r::CodeSectionReader<'_>,
    ) -> Result<(), Error<Self::Error>>
        ensures { CodeSectionClauses Self.ReencodeIndices section.entry
            self.old code.old self.new code.new result }
    {
        default_bodies::parse_code_section!(self, alloc, code, section)
    }

    /// Maps the locals of a body by `new_function_with_parsed_locals` and its operators by `parse_instruction`, or without lists
    /// where no method of an item is overridden (`DEFAULT_ITEMS`), and adds the function.
    fn parse_function_body(
        &mut self,
        alloc: Global,
        code: &mut w::CodeSection,
        func: r::FunctionBody<'_>,
    ) -> Result<(), Error<Self::Error>>
        ensures { BodyClauses Self.ReencodeIndices func.entry.bytes.now
            self.old code.old self.new code.new result }
    {
        default_bodies::parse_function_body!(
            self,
            Self::DEFAULT_ITEMS,
            alloc,
            code,
            func,
            self.new_function_with_parsed_locals(alloc, &func)
        )
    }

    /// A function with the locals that a body begins with, each type by `val_type`, and no operator.
    fn new_function_with_parsed_locals(
        &mut self,
        alloc: Global,
        func: &r::FunctionBody<'_>,
    ) -> Result<w::Function, Error<Self::Error>>
        ensures { LocalsClauses Self.ReencodeIndices func.now.bytes.now self.old self.new result }
    {
        rows::new_function_with_parsed_locals(self, alloc, func)
    }

    /// Maps the rows that the reader still has, each by `parse_data`.
    fn parse_data_section(
        &mut self,
        alloc: Global,
        segments: &mut w::DataSection,
        section: r::DataSectionReader<'_>,
    ) -> Result<(), Error<Self::Error>>
        ensures { RowsClauses Self.ReencodeIndices (row_of kinds.Data) section.entry
            self.old segments.old self.new segments.new result }
    {
        default_bodies::each_row!(section, alloc, row => self.parse_data(alloc, segments, row))
    }

    /// Maps a data segment and adds it. The memory of an active one is mapped by `memory_index`, and then its offset by
    /// `const_expr`.
    fn parse_data(
        &mut self,
        alloc: Global,
        segments: &mut w::DataSection,
        datum: r::Data<'_>,
    ) -> Result<(), Error<Self::Error>>
        ensures { RowClauses Self.ReencodeIndices (read.data_tree datum.entry)
            self.old segments.old self.new segments.new result }
    {
        rows::parse_data(self, alloc, segments, datum)
    }

    /// Maps the body of a section of a kind by the methods of that kind, and adds the section. It calls neither the section hook nor
    /// the closing hook.
    fn parse_section(
        &mut self,
        alloc: Global,
        module: &mut w::Module,
        id: SectionId,
        body: &[u8],
    ) -> Result<(), Error<Self::Error>>
        ensures { SectionClauses Self.ReencodeIndices id body.now
            self.old «module».old self.new «module».new result }
    {
        default_bodies::parse_section!(self, alloc, module, id, body)
    }

    /// A custom section as it is, whatever its name.
    fn custom_section<'a>(
        &mut self,
        section: r::CustomSection<'a>,
    ) -> Result<w::CustomSection<'a>, Error<Self::Error>>
        ensures { ItemClauses Self.ReencodeIndices (read.custom_tree section.entry)
            write.custom_section_tree self.old self.new result }
    {
        Ok(rows::custom_section(self, section))
    }

    /// Maps a custom section and adds it: one named `name` by `custom_name_section`, and any other by `custom_section`. It calls
    /// neither the section hook nor the closing hook. The place of a `ParseError` is in the contents behind the name.
    fn parse_custom_section(
        &mut self,
        alloc: Global,
        module: &mut w::Module,
        section: r::CustomSection<'_>,
    ) -> Result<(), Error<Self::Error>>
        ensures { CustomClauses Self.ReencodeIndices section.entry.name.now section.entry.contents.now
            self.old «module».old self.new «module».new result }
    {
        default_bodies::parse_custom_section!(self, alloc, module, section)
    }

    /// Adds a section of an id that no kind has, by its bytes. It calls neither the section hook nor the closing hook.
    fn parse_unknown_section(
        &mut self,
        module: &mut w::Module,
        id: u8,
        contents: &[u8],
    ) -> Result<(), Error<Self::Error>>
        requires { id ≤ 127 }
        ensures { UnknownClauses Self.ReencodeIndices id contents.now
            self.old «module».old self.new «module».new result }
    {
        rows::parse_unknown_section(self, module, id, contents)
    }

    /// Maps the subsections that the reader still has, each by `parse_custom_name_subsection`. No subsection that is written may
    /// be longer than the ceiling. A `ParseError` holds the place of the subsection in fault.
    fn custom_name_section(
        &mut self,
        alloc: Global,
        section: r::NameSectionReader<'_>,
        ceiling: u32,
    ) -> Result<w::NameSection, Error<Self::Error>>
        ensures { NamesClauses Self.ReencodeIndices ceiling section.entry self.old self.new result }
    {
        default_bodies::custom_name_section!(self, alloc, section, ceiling)
    }

    /// Maps a name subsection and adds it. The indices of a map are mapped by the hook of their space; of an indirect map the
    /// outer indices alone are mapped. A `ParseError` holds the place in the map behind the entries that were accepted.
    fn parse_custom_name_subsection(
        &mut self,
        alloc: Global,
        names: &mut w::NameSection,
        section: r::Name<'_>,
    ) -> Result<(), Error<Self::Error>>
        requires { IsRaw section }
        ensures { SubsectionClauses Self.ReencodeIndices section.entry
            self.old names.old self.new names.new result }
    {
        subsections::parse_custom_name_subsection(self, alloc, names, section)
    }

    /// Reads a module and adds what its sections become. The section hook is called before each section of the ids 1 to 13 and at
    /// the end, and the closing hook behind each of these, once it was added.
    fn parse_core_module(
        &mut self,
        alloc: Global,
        module: &mut w::Module,
        bytes: &[u8],
    ) -> Result<(), Error<Self::Error>>
        ensures { ModuleClauses Self.ReencodeIndices bytes.now
            self.old «module».old self.new «module».new result }
    {
        default_bodies::parse_core_module!(self, alloc, module, bytes)
    }
}

/// Reads a core module and answers its bytes in normal spelling.
pub fn reencode_core<R: Reencode>(
    alloc: Global,
    r: &mut R,
    bytes: &[u8],
    ceiling: u32,
) -> Result<Vec<u8>, Error<R::Error>>
    ensures { BytesClauses R.ReencodeIndices ceiling bytes.now r.old r.new result (λ v. v.items) }
{
    let mut module = w::Module::new(alloc, ceiling)?;
    r.parse_core_module(alloc, &mut module, bytes)?;
    Ok(module.finish())
}
