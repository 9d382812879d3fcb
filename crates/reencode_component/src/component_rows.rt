//! What a re-encoder does with each row of a component's sections.
ghost use Rattle.wasm_shapes.specs.Component.{module_declaration};
ghost use Rattle.wasm_types.specs.ComponentTrees.{component_export_tree, component_instance_tree, instance_tree};
ghost use Rattle.wasm_read.specs.Types.{export_tree};
ghost use Rattle.wasm_read_component.specs.ComponentRows as read;
ghost use Rattle.wasm_read_component.specs.TypeRows.{module_declaration_tree};
ghost use Rattle.wasm_write_component.specs.TypeRows.{scope_tree};
ghost use Rattle.reencode_core.specs.Clauses.{RowClauses};
ghost use Rattle.reencode_component.specs.TypeClauses.{CoreTypeClauses, ScopeClauses};

use crate::items::ReencodeComponentItems;
use crate::{core_types, rows, type_bodies};
use reencode_core::Reencode;
use reencode_hooks::Error;
use std::alloc::Global;
use wasm_read_component as r;
use wasm_write_component as w;

/// What a re-encoder does with each row of a component's sections, and with what a module type declares.
///
/// The clauses of a method are the fields of the record that it cites (`specs/TypeClauses.antt`, of `reencode_core` for
/// rows). `default` and `after_error` hold where the reencoder keeps the defaults, of a row `after_error` where it is
/// sure.
pub trait ReencodeComponentRows: Reencode + ReencodeComponentItems {
    /// Maps an export by `component_export_kind`, `component_external_index` and, where it has a type, `component_type_ref`,
    /// and adds it.
    fn parse_component_export(
        &mut self,
        exports: &mut w::ComponentExportSection,
        export: r::ComponentExport<'_>,
    ) -> Result<(), Error<Self::Error>>
        ensures { RowClauses Self.ReencodeIndices (component_export_tree export.entry)
            self.old exports.old self.new exports.new result }
    {
        rows::parse_component_export(self, exports, export)
    }

    /// Maps a canonical function and adds it. Indices are asked in the order of the bytes, but that the options of a lifted
    /// function are asked after its type, and the options of `task.return` and of the reads and writes of streams and futures
    /// before the type. Options are mapped by `canonical_option`, results by `component_val_type`, and the type of a slot by
    /// `val_type`.
    fn parse_component_canonical(
        &mut self,
        alloc: Global,
        section: &mut w::CanonicalFunctionSection,
        func: r::CanonicalFunction,
    ) -> Result<(), Error<Self::Error>>
        ensures { RowClauses Self.ReencodeIndices (read.canonical_tree func)
            self.old section.old self.new section.new result }
    {
        rows::parse_component_canonical(self, alloc, section, func)
    }

    /// Maps an instance and adds it: its component by `component_index` and then what is handed to it, or what it exports, by
    /// `component_export_kind` and `component_external_index`.
    fn parse_component_instance(
        &mut self,
        alloc: Global,
        instances: &mut w::ComponentInstanceSection,
        instance: r::ComponentInstance<'_>,
    ) -> Result<(), Error<Self::Error>>
        ensures { RowClauses Self.ReencodeIndices (component_instance_tree instance.entry)
            self.old instances.old self.new instances.new result }
    {
        rows::parse_component_instance(self, alloc, instances, instance)
    }

    /// Maps a core instance and adds it: its module by `module_index` and then what is handed to it by `instance_index`, or
    /// what it exports, by `export_kind` and `external_index`.
    fn parse_instance(
        &mut self,
        alloc: Global,
        instances: &mut w::InstanceSection,
        instance: r::Instance<'_>,
    ) -> Result<(), Error<Self::Error>>
        ensures { RowClauses Self.ReencodeIndices (instance_tree export_tree instance.entry)
            self.old instances.old self.new instances.new result }
    {
        rows::parse_instance(self, alloc, instances, instance)
    }

    /// A core type (`core:deftype`): types by `parse_recursive_type_group`, or a module type by `component_module_type`.
    fn parse_component_core_type(
        &mut self,
        alloc: Global,
        core: r::CoreType<'_>,
    ) -> Result<w::CoreType, Error<Self::Error>>
        ensures { CoreTypeClauses Self.ReencodeIndices core.entry self.old self.new result }
    {
        type_bodies::parse_component_core_type!(self, alloc, core)
    }

    /// A module type (`core:moduletype`), which is a scope: `push_depth`, then each declaration that the reader still has by
    /// `parse_component_module_type_declaration`, then `pop_depth`, which is not called where one of these is refused.
    fn component_module_type(
        &mut self,
        alloc: Global,
        ty: r::ModuleDeclarations<'_>,
    ) -> Result<w::ModuleType, Error<Self::Error>>
        ensures { ScopeClauses Self.ReencodeIndices module_declaration ty.entry (λ t. t) scope_tree
            self.old self.new result }
    {
        type_bodies::component_module_type!(self, alloc, ty)
    }

    /// Maps what a module type declares (`core:moduledecl`) and adds it: types by `parse_recursive_type_group`, what is imported
    /// or exported by `entity_type`, and an alias by `outer_type_index`, its count as it is.
    fn parse_component_module_type_declaration(
        &mut self,
        alloc: Global,
        module: &mut w::ModuleType,
        decl: r::ModuleTypeDeclaration<'_>,
    ) -> Result<(), Error<Self::Error>>
        ensures { RowClauses Self.ReencodeIndices (module_declaration_tree decl.entry)
            self.old «module».old self.new «module».new result }
    {
        core_types::parse_component_module_type_declaration(self, alloc, module, decl)
    }
}
