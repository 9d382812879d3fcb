//! Sections whose rows are mapped by hooks and by methods of items alone, one loop for all of them: `utils` has them, and the
//! methods call them.
ghost use Rattle.std.specs.Prelude.{IsTrue};
ghost use Rattle.wasm_shapes.specs.declared.SectionId.TheVariants as ids;
ghost use Rattle.wasm_shapes.specs.Drawn.{IsItem};
ghost use Rattle.wasm_shapes.specs.Module.{row_of};
ghost use Rattle.reencode_hooks.specs.Run.{NeverWants};
ghost use Rattle.reencode_items.specs.Maps.{Maps};
ghost use Rattle.reencode_core.specs.Clauses.{RowsClauses};

use reencode_hooks::Error;
use reencode_items::ReencodeItems;
use std::alloc::Global;
use wasm_read as r;
use wasm_read::{ReadRow, SectionReader};
use wasm_shapes::kinds;
use wasm_write as w;
use wasm_write::{RowOf, RowSection};

/// A kind of section with a method that maps its rows.
pub(crate) trait MapRow<'a, B: RowOf<Self>>: ReadRow<'a> {
    /// What a row becomes.
    fn map<T: ReencodeItems>(reencoder: &mut T, row: Self::Row) -> Result<B, Error<T::Error>>
        ensures default { IsTrue T.keeps_defaults
            → Maps T.reply T.next reencoder.old (Self.tree row) B.tree reencoder.new result }
        ensures sure { IsTrue T.keeps_defaults → NeverWants T.sure result };
}

impl<'a> MapRow<'a, u32> for kinds::Functions {
    fn map<T: ReencodeItems>(reencoder: &mut T, row: u32) -> Result<u32, Error<T::Error>> {
        reencoder.type_index(row)
    }
}

impl<'a> MapRow<'a, w::MemoryType> for kinds::Memories {
    fn map<T: ReencodeItems>(
        reencoder: &mut T,
        row: r::MemoryType,
    ) -> Result<w::MemoryType, Error<T::Error>> {
        reencoder.memory_type(row)
    }
}

impl<'a> MapRow<'a, w::TagType> for kinds::Tags {
    fn map<T: ReencodeItems>(
        reencoder: &mut T,
        row: r::TagType,
    ) -> Result<w::TagType, Error<T::Error>> {
        reencoder.tag_type(row)
    }
}

/// Maps the rows that the reader still has, and adds each row once it is mapped.
pub(crate) fn map_section<'a, T, K, B>(
    reencoder: &mut T,
    alloc: Global,
    sink: &mut RowSection<K>,
    section: SectionReader<'a, K>,
) -> Result<(), Error<T::Error>>
where
    T: ReencodeItems,
    K: MapRow<'a, B>,
    B: RowOf<K> + Drop,
    requires { IsItem K.shape }
    ensures { RowsClauses T.ReencodeIndices K.shape section.entry
        reencoder.old sink.old reencoder.new sink.new result }
{
    let mut rows = section;
    'rows: while let Some(row) = rows.next_row(alloc)? {
        let made = K::map(reencoder, row)?;
        sink.add(&made)?;
    }
    Ok(())
}

/// Maps the rows that the reader still has, each index by `type_index`, and adds each row once its index was answered.
pub fn parse_function_section<T: ReencodeItems>(
    reencoder: &mut T,
    alloc: Global,
    functions: &mut w::FunctionSection,
    section: r::FunctionSectionReader<'_>,
) -> Result<(), Error<T::Error>>
    ensures { RowsClauses T.ReencodeIndices (row_of ids.Function) section.entry
        reencoder.old functions.old reencoder.new functions.new result }
{
    map_section(reencoder, alloc, functions, section)
}

/// Maps the rows that the reader still has, each by `memory_type`, and adds each row once it is mapped.
pub fn parse_memory_section<T: ReencodeItems>(
    reencoder: &mut T,
    alloc: Global,
    memories: &mut w::MemorySection,
    section: r::MemorySectionReader<'_>,
) -> Result<(), Error<T::Error>>
    ensures { RowsClauses T.ReencodeIndices (row_of ids.Memory) section.entry
        reencoder.old memories.old reencoder.new memories.new result }
{
    map_section(reencoder, alloc, memories, section)
}

/// Maps the rows that the reader still has, each by `tag_type`, and adds each row once it is mapped.
pub fn parse_tag_section<T: ReencodeItems>(
    reencoder: &mut T,
    alloc: Global,
    tags: &mut w::TagSection,
    section: r::TagSectionReader<'_>,
) -> Result<(), Error<T::Error>>
    ensures { RowsClauses T.ReencodeIndices (row_of ids.Tag) section.entry
        reencoder.old tags.old reencoder.new tags.new result }
{
    map_section(reencoder, alloc, tags, section)
}
