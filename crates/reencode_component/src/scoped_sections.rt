//! Sections of rows that may open scopes, one loop for all of them. `component_utils` has these functions, and the methods call
//! them.
ghost use Rattle.std.specs.Prelude.{ℕ};
ghost use Rattle.wasm_shapes.specs.Component.{core_type};
ghost use Rattle.wasm_shapes.specs.Depth.{Shallow};
ghost use Rattle.wasm_shapes.specs.Drawn.{IsItem};
ghost use Rattle.wasm_shapes.specs.Tree.{Tree};
ghost use Rattle.wasm_read_component.specs.TypeRows.{CoreTypeStands};
ghost use Rattle.reencode_core.specs.Clauses.{RowClauses};
ghost use Rattle.reencode_component.specs.ScopedRows.{ShallowRowsClauses};

use crate::component_rows::ReencodeComponentRows;
use crate::rows::add_row;
use reencode_hooks::{Error, ReencodeIndices};
use std::alloc::Global;
use wasm_read_component as r;
use wasm_read_component::{ReadRowAt, ScopedReader};
use wasm_shapes::component_kinds as kinds;
use wasm_shapes::kinds::RowKind;
use wasm_write::RowSection;
use wasm_write_component as w;

/// A kind of rows, as a reencoder maps one and adds it to a section.
pub(crate) trait MapScopedRow<T: ReencodeIndices, W: RowKind, A> {
    // The trees that a row stands for.
    ghost read: { ℕ → A → Tree → Type 0 };

    /// Maps a row and adds it.
    fn map_row(
        reencoder: &mut T,
        alloc: Global,
        sink: &mut RowSection<W>,
        row: A,
    ) -> Result<(), Error<T::Error>>
        ensures { (depth : ℕ) (t : Tree) → read depth row t → Shallow depth t →
            RowClauses T.ReencodeIndices t reencoder.old sink.old reencoder.new sink.new result };
}

/// Maps the rows that the reader still has, one behind another.
pub(crate) fn map_scoped_rows<'a, T, K, W>(
    reencoder: &mut T,
    alloc: Global,
    sink: &mut RowSection<W>,
    section: ScopedReader<'a, K>,
) -> Result<(), Error<T::Error>>
where
    T: ReencodeIndices,
    K: ReadRowAt<'a> + MapScopedRow<T, W, K::Row>,
    W: RowKind,
    requires item { IsItem K.shape }
    requires same { (depth : ℕ) (row : K.Row) (t : Tree) → K.stands depth row t → K.read depth row t }
    ensures { ShallowRowsClauses T.ReencodeIndices K.shape section.entry
        reencoder.old sink.old reencoder.new sink.new result }
{
    let mut rows = section;
    'rows: while let Some(row) = rows.next_row(alloc)? {
        K::map_row(reencoder, alloc, sink, row)?;
    }
    Ok(())
}

impl<'a, T: ReencodeComponentRows> MapScopedRow<T, w::Of<kinds::CoreTypes>, r::CoreType<'a>>
    for r::Of<kinds::CoreTypes> {
    ghost read = { λ depth ty. CoreTypeStands ty };

    fn map_row(
        reencoder: &mut T,
        alloc: Global,
        types: &mut w::CoreTypeSection,
        row: r::CoreType<'a>,
    ) -> Result<(), Error<T::Error>> {
        let row = reencoder.parse_component_core_type(alloc, row);
        add_row(types, row)
    }
}

/// Maps the rows that the reader still has, each by `parse_component_core_type`, and adds each row once it is mapped.
#[tactic(auto, using(crate::proofs::rows_walked::SectionItems::core_types))]
pub fn parse_core_type_section<T: ReencodeComponentRows>(
    reencoder: &mut T,
    alloc: Global,
    types: &mut w::CoreTypeSection,
    section: r::CoreTypeSectionReader<'_>,
) -> Result<(), Error<T::Error>>
    ensures { ShallowRowsClauses T.ReencodeIndices core_type section.entry
        reencoder.old types.old reencoder.new types.new result }
{
    map_scoped_rows(reencoder, alloc, types, section)
}
