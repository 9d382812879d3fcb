//! Sections of rows: one loop for those whose rows open no scope. `component_utils` has these functions, and the methods call
//! them.
ghost use Rattle.std.specs.Prelude.{◌≡◌};
ghost use Rattle.wasm_shapes.specs.Component.{alias, canonical_function, component_export_row, component_instance_row, extern_row, instance_row};
ghost use Rattle.wasm_shapes.specs.Drawn.{IsItem};
ghost use Rattle.wasm_shapes.specs.Tree.{Tree};
ghost use Rattle.wasm_types.specs.ComponentTrees.{component_export_tree, component_import_tree, component_instance_tree, instance_tree};
ghost use Rattle.wasm_read.specs.Types.{export_tree};
ghost use Rattle.wasm_read_component.specs.Aliases as read;
ghost use Rattle.wasm_read_component.specs.ComponentRows.{canonical_tree};
ghost use Rattle.reencode_core.specs.Clauses.{RowClauses, RowsClauses};

use crate::component_rows::ReencodeComponentRows;
use crate::items::ReencodeComponentItems;
use crate::row_bodies;
use crate::rows::add_row;
use reencode_hooks::{Error, ReencodeIndices};
use std::alloc::Global;
use wasm_read::{ReadRow, SectionReader};
use wasm_read_component as r;
use wasm_shapes::component_kinds as kinds;
use wasm_shapes::kinds::RowKind;
use wasm_write::RowSection;
use wasm_write_component as w;

/// A kind of rows that open no scope, as a reencoder maps one and adds it to a section.
pub(crate) trait MapRow<T: ReencodeIndices, W: RowKind, A> {
    ghost read: { A → Tree };

    /// Maps a row and adds it.
    fn map_row(
        reencoder: &mut T,
        alloc: Global,
        sink: &mut RowSection<W>,
        row: A,
    ) -> Result<(), Error<T::Error>>
        ensures { RowClauses T.ReencodeIndices (read row)
            reencoder.old sink.old reencoder.new sink.new result };
}

/// Maps the rows that the reader still has, one behind another.
pub(crate) fn map_rows<'a, T, K, W>(
    reencoder: &mut T,
    alloc: Global,
    sink: &mut RowSection<W>,
    section: SectionReader<'a, K>,
) -> Result<(), Error<T::Error>>
where
    T: ReencodeIndices,
    K: ReadRow<'a> + MapRow<T, W, K::Row>,
    W: RowKind,
    requires item { IsItem K.shape }
    requires same { (row : K.Row) → K.MapRow.read row ≡ K.ReadRow.tree row }
    ensures { RowsClauses T.ReencodeIndices K.shape section.entry
        reencoder.old sink.old reencoder.new sink.new result }
{
    let mut rows = section;
    'rows: while let Some(row) = rows.next_row(alloc)? {
        K::map_row(reencoder, alloc, sink, row)?;
    }
    Ok(())
}

impl<'a, T: ReencodeComponentItems> MapRow<
    T,
    w::Of<kinds::ComponentImports>,
    r::ComponentImport<'a>,
> for r::Of<kinds::ComponentImports> {
    ghost read = { component_import_tree };

    fn map_row(
        reencoder: &mut T,
        _alloc: Global,
        imports: &mut w::ComponentImportSection,
        row: r::ComponentImport<'a>,
    ) -> Result<(), Error<T::Error>> {
        let row = row_bodies::component_import(reencoder, row);
        add_row(imports, row)
    }
}

/// Maps the rows that the reader still has, each type by `component_type_ref`, and adds each row once it is mapped.
#[tactic(auto, using(crate::proofs::rows_walked::SectionItems::imports))]
pub fn parse_component_import_section<T: ReencodeComponentItems>(
    reencoder: &mut T,
    alloc: Global,
    imports: &mut w::ComponentImportSection,
    section: r::ComponentImportSectionReader<'_>,
) -> Result<(), Error<T::Error>>
    ensures { RowsClauses T.ReencodeIndices extern_row section.entry
        reencoder.old imports.old reencoder.new imports.new result }
{
    map_rows(reencoder, alloc, imports, section)
}

impl<'a, T: ReencodeComponentItems> MapRow<T, w::Of<kinds::Aliases>, r::ComponentAlias<'a>>
    for r::Of<kinds::Aliases> {
    ghost read = { read.alias_tree };

    fn map_row(
        reencoder: &mut T,
        _alloc: Global,
        aliases: &mut w::ComponentAliasSection,
        row: r::ComponentAlias<'a>,
    ) -> Result<(), Error<T::Error>> {
        let row = reencoder.component_alias(row);
        add_row(aliases, row)
    }
}

/// Maps the rows that the reader still has, each by `component_alias`, and adds each row once it is mapped.
#[tactic(auto, using(crate::proofs::rows_walked::SectionItems::aliases))]
pub fn parse_component_alias_section<T: ReencodeComponentItems>(
    reencoder: &mut T,
    alloc: Global,
    aliases: &mut w::ComponentAliasSection,
    section: r::ComponentAliasSectionReader<'_>,
) -> Result<(), Error<T::Error>>
    ensures { RowsClauses T.ReencodeIndices alias section.entry
        reencoder.old aliases.old reencoder.new aliases.new result }
{
    map_rows(reencoder, alloc, aliases, section)
}

impl<'a, T: ReencodeComponentRows> MapRow<T, w::Of<kinds::ComponentExports>, r::ComponentExport<'a>>
    for r::Of<kinds::ComponentExports> {
    ghost read = { component_export_tree };

    fn map_row(
        reencoder: &mut T,
        _alloc: Global,
        exports: &mut w::ComponentExportSection,
        row: r::ComponentExport<'a>,
    ) -> Result<(), Error<T::Error>> {
        reencoder.parse_component_export(exports, row)
    }
}

/// Maps the rows that the reader still has, each by `parse_component_export`.
#[tactic(auto, using(crate::proofs::rows_walked::SectionItems::exports))]
pub fn parse_component_export_section<T: ReencodeComponentRows>(
    reencoder: &mut T,
    alloc: Global,
    exports: &mut w::ComponentExportSection,
    section: r::ComponentExportSectionReader<'_>,
) -> Result<(), Error<T::Error>>
    ensures { RowsClauses T.ReencodeIndices component_export_row section.entry
        reencoder.old exports.old reencoder.new exports.new result }
{
    map_rows(reencoder, alloc, exports, section)
}

impl<T: ReencodeComponentRows> MapRow<T, w::Of<kinds::CanonicalFunctions>, r::CanonicalFunction>
    for r::Of<kinds::CanonicalFunctions> {
    ghost read = { canonical_tree };

    fn map_row(
        reencoder: &mut T,
        alloc: Global,
        canonical: &mut w::CanonicalFunctionSection,
        row: r::CanonicalFunction,
    ) -> Result<(), Error<T::Error>> {
        reencoder.parse_component_canonical(alloc, canonical, row)
    }
}

/// Maps the rows that the reader still has, each by `parse_component_canonical`.
#[tactic(auto, using(crate::proofs::rows_walked::SectionItems::canonical_functions))]
pub fn parse_component_canonical_section<T: ReencodeComponentRows>(
    reencoder: &mut T,
    alloc: Global,
    canonical: &mut w::CanonicalFunctionSection,
    section: r::ComponentCanonicalSectionReader<'_>,
) -> Result<(), Error<T::Error>>
    ensures { RowsClauses T.ReencodeIndices canonical_function section.entry
        reencoder.old canonical.old reencoder.new canonical.new result }
{
    map_rows(reencoder, alloc, canonical, section)
}

impl<'a, T: ReencodeComponentRows> MapRow<
    T,
    w::Of<kinds::ComponentInstances>,
    r::ComponentInstance<'a>,
> for r::Of<kinds::ComponentInstances> {
    ghost read = { component_instance_tree };

    fn map_row(
        reencoder: &mut T,
        alloc: Global,
        instances: &mut w::ComponentInstanceSection,
        row: r::ComponentInstance<'a>,
    ) -> Result<(), Error<T::Error>> {
        reencoder.parse_component_instance(alloc, instances, row)
    }
}

/// Maps the rows that the reader still has, each by `parse_component_instance`.
#[tactic(auto, using(crate::proofs::rows_walked::SectionItems::component_instances))]
pub fn parse_component_instance_section<T: ReencodeComponentRows>(
    reencoder: &mut T,
    alloc: Global,
    instances: &mut w::ComponentInstanceSection,
    section: r::ComponentInstanceSectionReader<'_>,
) -> Result<(), Error<T::Error>>
    ensures { RowsClauses T.ReencodeIndices component_instance_row section.entry
        reencoder.old instances.old reencoder.new instances.new result }
{
    map_rows(reencoder, alloc, instances, section)
}

impl<'a, T: ReencodeComponentRows> MapRow<T, w::Of<kinds::Instances>, r::Instance<'a>>
    for r::Of<kinds::Instances> {
    ghost read = { instance_tree export_tree };

    fn map_row(
        reencoder: &mut T,
        alloc: Global,
        instances: &mut w::InstanceSection,
        row: r::Instance<'a>,
    ) -> Result<(), Error<T::Error>> {
        reencoder.parse_instance(alloc, instances, row)
    }
}

/// Maps the rows that the reader still has, each by `parse_instance`.
#[tactic(auto, using(crate::proofs::rows_walked::SectionItems::instances))]
pub fn parse_instance_section<T: ReencodeComponentRows>(
    reencoder: &mut T,
    alloc: Global,
    instances: &mut w::InstanceSection,
    section: r::InstanceSectionReader<'_>,
) -> Result<(), Error<T::Error>>
    ensures { RowsClauses T.ReencodeIndices instance_row section.entry
        reencoder.old instances.old reencoder.new instances.new result }
{
    map_rows(reencoder, alloc, instances, section)
}
