//! The kind that overrides: the methods of modules and sections.
use crate::answers;
use crate::noter::{Made, Noter, Notes, answered};
use reencode_core::Reencode;
use std::alloc::Global;
use wasm_read as r;
use wasm_shapes::SectionId;
use wasm_write as w;

/// Overrides all methods but `parse_imports`: so a section of imports is seen to ask for no import alone.
#[derive(Drop)]
pub struct All;

impl Reencode for Noter<All> {
    fn parse_type_section(
        &mut self,
        _alloc: Global,
        _sink: &mut w::TypeSection,
        _rows: r::TypeSectionReader<'_>,
    ) -> Made<()> {
        answered!(self, parse_type_section, Ok(()))
    }

    fn parse_recursive_type_group(
        &mut self,
        alloc: Global,
        _group: r::RecGroup,
    ) -> Made<w::RecGroup> {
        answered!(self, parse_recursive_type_group, Ok(answers::group(alloc)))
    }

    fn parse_function_section(
        &mut self,
        _alloc: Global,
        _sink: &mut w::FunctionSection,
        _rows: r::FunctionSectionReader<'_>,
    ) -> Made<()> {
        answered!(self, parse_function_section, Ok(()))
    }

    fn parse_import_section(
        &mut self,
        _alloc: Global,
        _sink: &mut w::ImportSection,
        _rows: r::ImportSectionReader<'_>,
    ) -> Made<()> {
        answered!(self, parse_import_section, Ok(()))
    }

    fn parse_import(
        &mut self,
        _alloc: Global,
        _sink: &mut w::ImportSection,
        _row: r::Import<'_>,
    ) -> Made<()> {
        answered!(self, parse_import, Ok(()))
    }

    fn parse_table_section(
        &mut self,
        _alloc: Global,
        _sink: &mut w::TableSection,
        _rows: r::TableSectionReader<'_>,
    ) -> Made<()> {
        answered!(self, parse_table_section, Ok(()))
    }

    fn parse_table(
        &mut self,
        _alloc: Global,
        _sink: &mut w::TableSection,
        _row: r::Table<'_>,
    ) -> Made<()> {
        answered!(self, parse_table, Ok(()))
    }

    fn parse_memory_section(
        &mut self,
        _alloc: Global,
        _sink: &mut w::MemorySection,
        _rows: r::MemorySectionReader<'_>,
    ) -> Made<()> {
        answered!(self, parse_memory_section, Ok(()))
    }

    fn parse_global_section(
        &mut self,
        _alloc: Global,
        _sink: &mut w::GlobalSection,
        _rows: r::GlobalSectionReader<'_>,
    ) -> Made<()> {
        answered!(self, parse_global_section, Ok(()))
    }

    fn parse_global(
        &mut self,
        _alloc: Global,
        _sink: &mut w::GlobalSection,
        _row: r::Global<'_>,
    ) -> Made<()> {
        answered!(self, parse_global, Ok(()))
    }

    fn parse_tag_section(
        &mut self,
        _alloc: Global,
        _sink: &mut w::TagSection,
        _rows: r::TagSectionReader<'_>,
    ) -> Made<()> {
        answered!(self, parse_tag_section, Ok(()))
    }

    fn parse_export_section(
        &mut self,
        _alloc: Global,
        _sink: &mut w::ExportSection,
        _rows: r::ExportSectionReader<'_>,
    ) -> Made<()> {
        answered!(self, parse_export_section, Ok(()))
    }

    fn parse_export(&mut self, _sink: &mut w::ExportSection, _row: r::Export<'_>) -> Made<()> {
        answered!(self, parse_export, Ok(()))
    }

    fn start_section(&mut self, _start: u32) -> Made<u32> {
        answered!(self, start_section, Ok(0))
    }

    fn parse_element_section(
        &mut self,
        _alloc: Global,
        _sink: &mut w::ElementSection,
        _rows: r::ElementSectionReader<'_>,
    ) -> Made<()> {
        answered!(self, parse_element_section, Ok(()))
    }

    fn parse_element(
        &mut self,
        _alloc: Global,
        _sink: &mut w::ElementSection,
        _row: r::Element<'_>,
    ) -> Made<()> {
        answered!(self, parse_element, Ok(()))
    }

    fn element_items(&mut self, alloc: Global, _items: r::ElementItems<'_>) -> Made<w::Elements> {
        answered!(self, element_items, Ok(answers::elements(alloc)))
    }

    fn parse_code_section(
        &mut self,
        _alloc: Global,
        _sink: &mut w::CodeSection,
        _rows: r::CodeSectionReader<'_>,
    ) -> Made<()> {
        answered!(self, parse_code_section, Ok(()))
    }

    fn parse_function_body(
        &mut self,
        _alloc: Global,
        _sink: &mut w::CodeSection,
        _row: r::FunctionBody<'_>,
    ) -> Made<()> {
        answered!(self, parse_function_body, Ok(()))
    }

    fn new_function_with_parsed_locals(
        &mut self,
        alloc: Global,
        _func: &r::FunctionBody<'_>,
    ) -> Made<w::Function> {
        answered!(self, new_function_with_parsed_locals, answers::body(alloc))
    }

    fn parse_data_section(
        &mut self,
        _alloc: Global,
        _sink: &mut w::DataSection,
        _rows: r::DataSectionReader<'_>,
    ) -> Made<()> {
        answered!(self, parse_data_section, Ok(()))
    }

    fn parse_data(
        &mut self,
        _alloc: Global,
        _sink: &mut w::DataSection,
        _row: r::Data<'_>,
    ) -> Made<()> {
        answered!(self, parse_data, Ok(()))
    }

    fn parse_section(
        &mut self,
        _alloc: Global,
        _module: &mut w::Module,
        _id: SectionId,
        _body: &[u8],
    ) -> Made<()> {
        answered!(self, parse_section, Ok(()))
    }

    fn custom_section<'a>(&mut self, section: r::CustomSection<'a>) -> Made<w::CustomSection<'a>> {
        answered!(self, custom_section, Ok(section))
    }

    fn parse_custom_section(
        &mut self,
        _alloc: Global,
        _module: &mut w::Module,
        _section: r::CustomSection<'_>,
    ) -> Made<()> {
        answered!(self, parse_custom_section, Ok(()))
    }

    fn parse_unknown_section(
        &mut self,
        _module: &mut w::Module,
        _id: u8,
        _contents: &[u8],
    ) -> Made<()> {
        answered!(self, parse_unknown_section, Ok(()))
    }

    fn custom_name_section(
        &mut self,
        alloc: Global,
        _section: r::NameSectionReader<'_>,
        ceiling: u32,
    ) -> Made<w::NameSection> {
        answered!(
            self,
            custom_name_section,
            Ok(w::NameSection::new(alloc, ceiling))
        )
    }

    fn parse_custom_name_subsection(
        &mut self,
        _alloc: Global,
        _sink: &mut w::NameSection,
        _row: r::Name<'_>,
    ) -> Made<()> {
        answered!(self, parse_custom_name_subsection, Ok(()))
    }

    fn parse_core_module(
        &mut self,
        _alloc: Global,
        _module: &mut w::Module,
        _bytes: &[u8],
    ) -> Made<()> {
        answered!(self, parse_core_module, Ok(()))
    }
}
