//! Rows that are mapped by methods of items alone, each once: `component_utils` has these functions, and the methods call them.
ghost use Rattle.wasm_types.specs.ComponentTrees.{component_export_tree, component_instance_tree, instance_tree};
ghost use Rattle.wasm_read.specs.Types.{export_tree};
ghost use Rattle.wasm_read_component.specs.ComponentRows as read;
ghost use Rattle.reencode_core.specs.Clauses.{RowClauses};
ghost use Rattle.reencode_component.specs.Clauses.{AddsRow};

use crate::canonical::canonical_function;
use crate::items::ReencodeComponentItems;
use crate::row_bodies;
use reencode_hooks::Error;
use std::alloc::Global;
use wasm_read_component as r;
use wasm_shapes::kinds::RowKind;
use wasm_write::{RowOf, RowSection};
use wasm_write_component as w;

/// Adds a row, where it was mapped.
pub(crate) fn add_row<K: RowKind, B: RowOf<K> + Drop, E>(
    sink: &mut RowSection<K>,
    mapped: Result<B, Error<E>>,
) -> Result<(), Error<E>>
    ensures { AddsRow B.tree mapped sink.old sink.new result }
{
    match mapped {
        Ok(row) => {
            sink.add(&row)?;
            Ok(())
        }
        Err(e) => Err(e),
    }
}

/// Maps an export by `component_export_kind`, `component_external_index` and, where it has a type, `component_type_ref`, and
/// adds it.
pub fn parse_component_export<T: ReencodeComponentItems>(
    reencoder: &mut T,
    exports: &mut w::ComponentExportSection,
    export: r::ComponentExport<'_>,
) -> Result<(), Error<T::Error>>
    ensures { RowClauses T.ReencodeIndices (component_export_tree export.entry)
        reencoder.old exports.old reencoder.new exports.new result }
{
    let row = row_bodies::component_export(reencoder, export);
    add_row(exports, row)
}

/// Maps a canonical function and adds it. Indices are asked in the order of the bytes, but that the options of a lifted function
/// are asked after its type, and the options of `task.return` and of the reads and writes of streams and futures before the
/// type. Options are mapped by `canonical_option`, results by `component_val_type`, and the type of a slot by `val_type`.
pub fn parse_component_canonical<T: ReencodeComponentItems>(
    reencoder: &mut T,
    alloc: Global,
    section: &mut w::CanonicalFunctionSection,
    func: r::CanonicalFunction,
) -> Result<(), Error<T::Error>>
    ensures { RowClauses T.ReencodeIndices (read.canonical_tree func)
        reencoder.old section.old reencoder.new section.new result }
{
    let row = canonical_function(reencoder, alloc, func);
    add_row(section, row)
}

/// Maps an instance and adds it: its component by `component_index` and then what is handed to it, or what it exports, by
/// `component_export_kind` and `component_external_index`.
pub fn parse_component_instance<T: ReencodeComponentItems>(
    reencoder: &mut T,
    alloc: Global,
    instances: &mut w::ComponentInstanceSection,
    instance: r::ComponentInstance<'_>,
) -> Result<(), Error<T::Error>>
    ensures { RowClauses T.ReencodeIndices (component_instance_tree instance.entry)
        reencoder.old instances.old reencoder.new instances.new result }
{
    let row = row_bodies::component_instance(reencoder, alloc, instance);
    add_row(instances, row)
}

/// Maps a core instance and adds it: its module by `module_index` and then what is handed to it by `instance_index`, or what
/// it exports, by `export_kind` and `external_index`.
pub fn parse_instance<T: ReencodeComponentItems>(
    reencoder: &mut T,
    alloc: Global,
    instances: &mut w::InstanceSection,
    instance: r::Instance<'_>,
) -> Result<(), Error<T::Error>>
    ensures { RowClauses T.ReencodeIndices (instance_tree export_tree instance.entry)
        reencoder.old instances.old reencoder.new instances.new result }
{
    let row = row_bodies::instance(reencoder, alloc, instance);
    add_row(instances, row)
}
