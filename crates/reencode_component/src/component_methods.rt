//! What a re-encoder does with each section of a component.
ghost use Rattle.std.specs.Prelude.{◌≤◌};
ghost use Rattle.wasm_shapes.specs.Component.{alias, canonical_function, component_export_row, component_instance_row, component_section_tree, core_type, extern_row, instance_row, unknown_component_tree};
ghost use Rattle.wasm_types.specs.ComponentTrees.{component_defined_type_tree, component_func_type_tree};
ghost use Rattle.wasm_read_component.specs.ComponentRows as read;
ghost use Rattle.reencode_items.specs.Clauses.{ListClauses};
ghost use Rattle.reencode_core.specs.Clauses.{CustomClausesOf, NamesClausesOf, RowsClauses, SubsectionClausesOf};
ghost use Rattle.wasm_read_component.specs.ComponentNames.{IsRawName};
ghost use Rattle.reencode_component.specs.Clauses.{AddedClauses};
ghost use Rattle.reencode_component.specs.ComponentNames.{component_custom, component_names};
ghost use Rattle.reencode_component.specs.ScopedRows.{ShallowRowsClauses};

use crate::component_rows::ReencodeComponentRows;
use crate::names::add_section;
use crate::{default_bodies, names, row_sections, scoped_sections, sections, types};
use reencode_core::placed;
use reencode_hooks::Error;
use std::alloc::Global;
use wasm_read::CustomSection;
use wasm_read_component as r;
use wasm_write_component as w;

/// What a re-encoder does with each section of a component, and with types of its functions and values.
///
/// The clauses of a method are the fields of the record that it cites (`specs/Clauses.antt`, of `reencode_core` for
/// sections of rows). `default`, `after_error` and `usual` hold where the reencoder keeps the defaults; `wants` and, of
/// a section that is added whole, `after_error` where it is sure.
pub trait ReencodeComponent: ReencodeComponentRows {
    /// Maps the rows that the reader still has, each type by `component_type_ref`, and adds each row once it is mapped.
    fn parse_component_import_section(
        &mut self,
        alloc: Global,
        imports: &mut w::ComponentImportSection,
        section: r::ComponentImportSectionReader<'_>,
    ) -> Result<(), Error<Self::Error>>
        ensures { RowsClauses Self.ReencodeIndices extern_row section.entry
            self.old imports.old self.new imports.new result }
    {
        row_sections::parse_component_import_section(self, alloc, imports, section)
    }

    /// Maps the rows that the reader still has, each by `component_alias`, and adds each row once it is mapped.
    fn parse_component_alias_section(
        &mut self,
        alloc: Global,
        aliases: &mut w::ComponentAliasSection,
        section: r::ComponentAliasSectionReader<'_>,
    ) -> Result<(), Error<Self::Error>>
        ensures { RowsClauses Self.ReencodeIndices alias section.entry
            self.old aliases.old self.new aliases.new result }
    {
        row_sections::parse_component_alias_section(self, alloc, aliases, section)
    }

    /// Maps the rows that the reader still has, each by `parse_component_export`.
    fn parse_component_export_section(
        &mut self,
        alloc: Global,
        exports: &mut w::ComponentExportSection,
        section: r::ComponentExportSectionReader<'_>,
    ) -> Result<(), Error<Self::Error>>
        ensures { RowsClauses Self.ReencodeIndices component_export_row section.entry
            self.old exports.old self.new exports.new result }
    {
        row_sections::parse_component_export_section(self, alloc, exports, section)
    }

    /// Maps the rows that the reader still has, each by `parse_component_canonical`.
    fn parse_component_canonical_section(
        &mut self,
        alloc: Global,
        canonical: &mut w::CanonicalFunctionSection,
        section: r::ComponentCanonicalSectionReader<'_>,
    ) -> Result<(), Error<Self::Error>>
        ensures { RowsClauses Self.ReencodeIndices canonical_function section.entry
            self.old canonical.old self.new canonical.new result }
    {
        row_sections::parse_component_canonical_section(self, alloc, canonical, section)
    }

    /// Maps the rows that the reader still has, each by `parse_component_instance`.
    fn parse_component_instance_section(
        &mut self,
        alloc: Global,
        instances: &mut w::ComponentInstanceSection,
        section: r::ComponentInstanceSectionReader<'_>,
    ) -> Result<(), Error<Self::Error>>
        ensures { RowsClauses Self.ReencodeIndices component_instance_row section.entry
            self.old instances.old self.new instances.new result }
    {
        row_sections::parse_component_instance_section(self, alloc, instances, section)
    }

    /// Maps the rows that the reader still has, each by `parse_instance`.
    fn parse_instance_section(
        &mut self,
        alloc: Global,
        instances: &mut w::InstanceSection,
        section: r::InstanceSectionReader<'_>,
    ) -> Result<(), Error<Self::Error>>
        ensures { RowsClauses Self.ReencodeIndices instance_row section.entry
            self.old instances.old self.new instances.new result }
    {
        row_sections::parse_instance_section(self, alloc, instances, section)
    }

    /// Maps the function that starts a component by `component_func_index`, and then its arguments by `component_value_index`,
    /// and adds the section.
    fn parse_component_start_section(
        &mut self,
        alloc: Global,
        component: &mut w::Component,
        func: r::ComponentStartFunction,
    ) -> Result<(), Error<Self::Error>>
        ensures { AddedClauses Self.ReencodeIndices 9 (component_section_tree 9 (read.start_tree func))
            self.old component.old self.new component.new result }
    {
        sections::parse_component_start_section(self, alloc, component, func)
    }

    /// Adds a section of an id that no table knows, by its bytes.
    fn parse_unknown_component_section(
        &mut self,
        component: &mut w::Component,
        id: u8,
        contents: &[u8],
    ) -> Result<(), Error<Self::Error>>
        requires { id ≤ 127 }
        ensures { AddedClauses Self.ReencodeIndices id (unknown_component_tree id contents.now)
            self.old component.old self.new component.new result }
    {
        sections::parse_unknown_component_section(self, component, id, contents)
    }

    /// A function type (Component Model, Binary Format: `functype`), its parameters and then its result by `component_val_type`.
    fn parse_component_func_type<'a>(
        &mut self,
        alloc: Global,
        ty: r::ComponentFuncType<'a>,
    ) -> Result<w::ComponentFuncType<'a>, Error<Self::Error>>
        ensures { ListClauses Self.ReencodeIndices (component_func_type_tree ty.entry)
            component_func_type_tree self.old self.new result }
    {
        types::parse_component_func_type(self, alloc, ty)
    }

    /// A type of values that is defined (`defvaltype`). A primitive one is mapped by `component_primitive_val_type`, each type
    /// inside by `component_val_type`, and a resource by `component_type_index`.
    fn parse_component_defined_type<'a>(
        &mut self,
        alloc: Global,
        ty: r::ComponentDefinedType<'a>,
    ) -> Result<w::ComponentDefinedType<'a>, Error<Self::Error>>
        ensures { ListClauses Self.ReencodeIndices (component_defined_type_tree ty.entry)
            component_defined_type_tree self.old self.new result }
    {
        types::parse_component_defined_type(self, alloc, ty)
    }

    /// Maps the rows that the reader still has, each by `parse_component_core_type`, and adds each row once it is mapped.
    fn parse_core_type_section(
        &mut self,
        alloc: Global,
        types: &mut w::CoreTypeSection,
        section: r::CoreTypeSectionReader<'_>,
    ) -> Result<(), Error<Self::Error>>
        ensures { ShallowRowsClauses Self.ReencodeIndices core_type section.entry
            self.old types.old self.new types.new result }
    {
        scoped_sections::parse_core_type_section(self, alloc, types, section)
    }

    /// Maps the subsections of a component's names that the reader still has, each by
    /// `parse_custom_component_name_subsection`. No subsection that is written may be longer than the ceiling. A `ParseError`
    /// holds the place of the subsection in fault.
    fn custom_component_name_section(
        &mut self,
        alloc: Global,
        section: r::ComponentNameSectionReader<'_>,
        ceiling: u32,
    ) -> Result<w::ComponentNameSection, Error<Self::Error>>
        ensures { NamesClausesOf component_names Self.ReencodeIndices ceiling section.entry
            self.old self.new result }
    {
        default_bodies::custom_component_name_section!(self, alloc, section, ceiling)
    }

    /// Maps a subsection of a component's names and adds it. The indices of a map are mapped by the hook of their space. A
    /// `ParseError` holds the place in the map behind the entries that were accepted.
    fn parse_custom_component_name_subsection(
        &mut self,
        alloc: Global,
        names: &mut w::ComponentNameSection,
        section: r::ComponentName<'_>,
    ) -> Result<(), Error<Self::Error>>
        requires { IsRawName section }
        ensures { SubsectionClausesOf component_names Self.ReencodeIndices section.entry
            self.old names.old self.new names.new result }
    {
        names::parse_custom_component_name_subsection(self, alloc, names, section)
    }

    /// Maps a custom section and adds it: one named `component-name` by `custom_component_name_section`, and any other by
    /// `custom_section`. The place of a `ParseError` is in the contents behind the name.
    fn parse_component_custom_section(
        &mut self,
        alloc: Global,
        component: &mut w::Component,
        section: CustomSection<'_>,
    ) -> Result<(), Error<Self::Error>>
        ensures { CustomClausesOf component_custom Self.ReencodeIndices section.entry.name.now section.entry.contents.now
            self.old component.old self.new component.new result }
    {
        default_bodies::parse_component_custom_section!(self, alloc, component, section)
    }
}
