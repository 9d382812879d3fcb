//! What stands in the lists of a component's rows, as hooks and methods of items map it, one by one.
ghost use Rattle.std.specs.Prelude.{◌≡◌};
ghost use Rattle.wasm_types.specs.declared.components.ComponentArg.{ComponentArg};
ghost use Rattle.wasm_types.specs.ComponentTrees.{sorted_tree};
ghost use Rattle.reencode_component.specs.Clauses.{ValueClauses};

use crate::items::ReencodeComponentItems;
use reencode_core::MapItem;
use reencode_hooks::Error;
use std::alloc::Global;
use wasm_read_component as r;
use wasm_write_component as w;

/// What is handed to a core module.
pub(crate) struct InstantiationArgs;

impl<'a, T: ReencodeComponentItems> MapItem<T, r::InstantiationArg<'a>, w::InstantiationArg<'a>>
    for InstantiationArgs {
    ghost use Rattle.wasm_types.specs.ComponentTrees.{instantiation_arg_tree};

    ghost read = { instantiation_arg_tree };

    ghost made = { instantiation_arg_tree };

    fn map(
        reencoder: &mut T,
        _alloc: Global,
        item: r::InstantiationArg<'a>,
    ) -> Result<w::InstantiationArg<'a>, Error<T::Error>> {
        Ok(w::InstantiationArg {
            name: item.name,
            kind: item.kind,
            index: reencoder.instance_index(item.index),
        })
    }
}

/// What a core instance exports.
pub(crate) struct CoreExports;

impl<'a, T: ReencodeComponentItems> MapItem<T, wasm_read::Export<'a>, w::Export<'a>>
    for CoreExports {
    ghost use Rattle.wasm_read.specs.Types.{export_tree};
    ghost use Rattle.wasm_write_component.specs.ComponentRows.{export_row_tree};

    ghost read = { export_tree };

    ghost made = { export_row_tree };

    fn map(
        reencoder: &mut T,
        _alloc: Global,
        item: wasm_read::Export<'a>,
    ) -> Result<w::Export<'a>, Error<T::Error>> {
        let kind = reencoder.export_kind(item.kind)?;
        let index = reencoder.external_index(item.kind, item.index)?;
        Ok(w::Export {
            name: item.name,
            kind,
            index,
        })
    }
}

/// What a component holds, under a name, by `component_export_kind` and `component_external_index`.
fn component_arg<'a, T: ReencodeComponentItems>(
    reencoder: &mut T,
    item: r::ComponentArg<'a>,
) -> w::ComponentArg<'a>
    ensures name { result.name ≡ item.entry.name }
    ensures value { ValueClauses T.ReencodeIndices (sorted_tree item.entry.kind item.entry.index)
        (λ (a : ComponentArg). sorted_tree a.kind a.index) reencoder.old reencoder.new result }
{
    w::ComponentArg {
        name: item.name,
        kind: reencoder.component_export_kind(item.kind),
        index: reencoder.component_external_index(item.kind, item.index),
    }
}

/// What is handed to a component.
pub(crate) struct ComponentArgs;

impl<'a, T: ReencodeComponentItems> MapItem<T, r::ComponentArg<'a>, w::ComponentArg<'a>>
    for ComponentArgs {
    ghost use Rattle.wasm_types.specs.ComponentTrees.{component_arg_tree};

    ghost read = { component_arg_tree };

    ghost made = { component_arg_tree };

    fn map(
        reencoder: &mut T,
        _alloc: Global,
        item: r::ComponentArg<'a>,
    ) -> Result<w::ComponentArg<'a>, Error<T::Error>> {
        Ok(component_arg(reencoder, item))
    }
}

/// What an instance exports.
pub(crate) struct InlineExports;

impl<'a, T: ReencodeComponentItems> MapItem<T, r::ComponentArg<'a>, w::ComponentArg<'a>>
    for InlineExports {
    ghost use Rattle.wasm_types.specs.ComponentTrees.{inline_export_tree};

    ghost read = { inline_export_tree };

    ghost made = { inline_export_tree };

    fn map(
        reencoder: &mut T,
        _alloc: Global,
        item: r::ComponentArg<'a>,
    ) -> Result<w::ComponentArg<'a>, Error<T::Error>> {
        Ok(component_arg(reencoder, item))
    }
}

/// The values that the function takes that starts a component.
pub(crate) struct ComponentValues;

impl<T: ReencodeComponentItems> MapItem<T, u32, u32> for ComponentValues {
    ghost use Rattle.wasm_write_component.specs.ComponentRows.{value_index_tree};

    ghost read = { value_index_tree };

    ghost made = { value_index_tree };

    fn map(reencoder: &mut T, _alloc: Global, item: u32) -> Result<u32, Error<T::Error>> {
        Ok(reencoder.component_value_index(item))
    }
}
