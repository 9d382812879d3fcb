//! The kind that keeps the defaults of methods that are not one text with their functions.
use crate::answers;
use crate::noter::{Made, Noter, Notes, UNASKED, answered};
use reencode_component::DefaultComponentItems;
use reencode_core::Reencode;
use std::alloc::Global;
use wasm_read as r;
use wasm_shapes::SectionId;
use wasm_write as w;

/// Keeps them, and those of items of components, and overrides what they ask.
#[derive(Drop)]
pub struct Kept;

impl Reencode for Noter<Kept> {
    fn parse_recursive_type_group(
        &mut self,
        alloc: Global,
        _group: r::RecGroup,
    ) -> Made<w::RecGroup> {
        answered!(self, parse_recursive_type_group, Ok(answers::group(alloc)))
    }

    fn parse_function_section(
        &mut self,
        _alloc: Global,
        _sink: &mut w::FunctionSection,
        _rows: r::FunctionSectionReader<'_>,
    ) -> Made<()> {
        Err(UNASKED)
    }

    fn parse_imports(
        &mut self,
        _alloc: Global,
        _sink: &mut w::ImportSection,
        _row: r::Imports<'_>,
    ) -> Made<()> {
        answered!(self, parse_imports, Ok(()))
    }

    fn parse_table(
        &mut self,
        _alloc: Global,
        _sink: &mut w::TableSection,
        _row: r::Table<'_>,
    ) -> Made<()> {
        answered!(self, parse_table, Ok(()))
    }

    fn parse_memory_section(
        &mut self,
        _alloc: Global,
        _sink: &mut w::MemorySection,
        _rows: r::MemorySectionReader<'_>,
    ) -> Made<()> {
        Err(UNASKED)
    }

    fn parse_global(
        &mut self,
        _alloc: Global,
        _sink: &mut w::GlobalSection,
        _row: r::Global<'_>,
    ) -> Made<()> {
        answered!(self, parse_global, Ok(()))
    }

    fn parse_tag_section(
        &mut self,
        _alloc: Global,
        _sink: &mut w::TagSection,
        _rows: r::TagSectionReader<'_>,
    ) -> Made<()> {
        Err(UNASKED)
    }

    fn parse_export(&mut self, _sink: &mut w::ExportSection, _row: r::Export<'_>) -> Made<()> {
        answered!(self, parse_export, Ok(()))
    }

    fn parse_element(
        &mut self,
        _alloc: Global,
        _sink: &mut w::ElementSection,
        _row: r::Element<'_>,
    ) -> Made<()> {
        answered!(self, parse_element, Ok(()))
    }

    fn element_items(&mut self, _alloc: Global, _items: r::ElementItems<'_>) -> Made<w::Elements> {
        Err(UNASKED)
    }

    fn parse_code_section(
        &mut self,
        _alloc: Global,
        _sink: &mut w::CodeSection,
        _rows: r::CodeSectionReader<'_>,
    ) -> Made<()> {
        Err(UNASKED)
    }

    fn new_function_with_parsed_locals(
        &mut self,
        alloc: Global,
        _func: &r::FunctionBody<'_>,
    ) -> Made<w::Function> {
        answered!(self, new_function_with_parsed_locals, answers::body(alloc))
    }

    fn parse_data(
        &mut self,
        _alloc: Global,
        _sink: &mut w::DataSection,
        _row: r::Data<'_>,
    ) -> Made<()> {
        answered!(self, parse_data, Ok(()))
    }

    fn parse_section(
        &mut self,
        _alloc: Global,
        _module: &mut w::Module,
        _id: SectionId,
        _body: &[u8],
    ) -> Made<()> {
        Err(UNASKED)
    }

    fn custom_section<'a>(&mut self, _section: r::CustomSection<'a>) -> Made<w::CustomSection<'a>> {
        Err(UNASKED)
    }

    fn parse_custom_section(
        &mut self,
        _alloc: Global,
        _module: &mut w::Module,
        _section: r::CustomSection<'_>,
    ) -> Made<()> {
        Err(UNASKED)
    }

    fn parse_unknown_section(
        &mut self,
        _module: &mut w::Module,
        _id: u8,
        _contents: &[u8],
    ) -> Made<()> {
        Err(UNASKED)
    }

    fn custom_name_section(
        &mut self,
        _alloc: Global,
        _section: r::NameSectionReader<'_>,
        _ceiling: u32,
    ) -> Made<w::NameSection> {
        Err(UNASKED)
    }

    fn parse_custom_name_subsection(
        &mut self,
        _alloc: Global,
        _sink: &mut w::NameSection,
        _row: r::Name<'_>,
    ) -> Made<()> {
        Err(UNASKED)
    }

    fn parse_core_module(
        &mut self,
        _alloc: Global,
        _module: &mut w::Module,
        _bytes: &[u8],
    ) -> Made<()> {
        Err(UNASKED)
    }
}

impl DefaultComponentItems for Noter<Kept> {}
