//! The readers of the sections of rows (WebAssembly Core Specification 3.0, section 5.5).
ghost use Rattle.std.specs.Prelude.{true};
ghost use Rattle.wasm_read.specs.Operations.{body_tree};
ghost use Rattle.wasm_read.specs.Types.{group_tree, import_tree, function_tree, table_tree, memory_type_tree, global_tree, tag_type_tree, export_tree, element_tree, ElementFlag, ExportKind, data_tree};

use crate::code::front_body;
use crate::data_segments::front_data;
use crate::elements::front_element;
use crate::externals::{
    front_global, front_import, front_memory_type, front_table, front_tag_type,
};
use crate::fields::{front_export, front_function};
use crate::groups::front_group;
use crate::section_reader::{ReadRow, SectionReader};
use crate::types;
use crate::types::{
    Data, Element, Export, FunctionBody, Imports, MemoryType, RecGroup, Table, TagType,
};
use std::alloc::Global;
use wasm_leb::NoMemory;
use wasm_shapes::kinds;
use wasm_shapes::kinds::RowKind;

/// A reader of the rows of a type section: groups of types (section 5.5.4). A row takes memory.
pub type TypeSectionReader<'a> = SectionReader<'a, kinds::Types>;

impl<'a> ReadRow<'a> for kinds::Types {
    type Row = RecGroup;

    ghost tree = { group_tree };

    ghost takes_memory = { true };

    #[inline]
    fn front(alloc: Global, bytes: &'a [u8]) -> Result<Option<(RecGroup, &'a [u8])>, NoMemory> {
        front_group(alloc, bytes)
    }
}

/// A reader of the rows of an import section (section 5.5.5).
pub type ImportSectionReader<'a> = SectionReader<'a, kinds::Imports>;

impl<'a> ReadRow<'a> for kinds::Imports {
    type Row = Imports<'a>;

    ghost tree = { import_tree };

    #[inline]
    fn front(_alloc: Global, bytes: &'a [u8]) -> Result<Option<(Imports<'a>, &'a [u8])>, NoMemory> {
        Ok(front_import(bytes))
    }
}

/// A reader of the rows of a function section: the index of the type of each function (section 5.5.6).
pub type FunctionSectionReader<'a> = SectionReader<'a, kinds::Functions>;

impl<'a> ReadRow<'a> for kinds::Functions {
    type Row = u32;

    ghost tree = { function_tree };

    #[inline]
    fn front(_alloc: Global, bytes: &'a [u8]) -> Result<Option<(u32, &'a [u8])>, NoMemory> {
        Ok(front_function(bytes))
    }
}

/// A reader of the rows of a table section (section 5.5.7).
pub type TableSectionReader<'a> = SectionReader<'a, kinds::Tables>;

impl<'a> ReadRow<'a> for kinds::Tables {
    type Row = Table<'a>;

    ghost tree = { table_tree };

    #[inline]
    fn front(_alloc: Global, bytes: &'a [u8]) -> Result<Option<(Table<'a>, &'a [u8])>, NoMemory> {
        Ok(front_table(bytes))
    }
}

/// A reader of the rows of a memory section (section 5.5.8).
pub type MemorySectionReader<'a> = SectionReader<'a, kinds::Memories>;

impl<'a> ReadRow<'a> for kinds::Memories {
    type Row = MemoryType;

    ghost tree = { memory_type_tree };

    #[inline]
    fn front(_alloc: Global, bytes: &'a [u8]) -> Result<Option<(MemoryType, &'a [u8])>, NoMemory> {
        Ok(front_memory_type(bytes))
    }
}

/// A reader of the rows of a global section (section 5.5.9).
pub type GlobalSectionReader<'a> = SectionReader<'a, kinds::Globals>;

impl<'a> ReadRow<'a> for kinds::Globals {
    type Row = types::Global<'a>;

    ghost tree = { global_tree };

    #[inline]
    fn front(
        _alloc: Global,
        bytes: &'a [u8],
    ) -> Result<Option<(types::Global<'a>, &'a [u8])>, NoMemory> {
        Ok(front_global(bytes))
    }
}

/// A reader of the rows of a tag section (section 5.5.16).
pub type TagSectionReader<'a> = SectionReader<'a, kinds::Tags>;

impl<'a> ReadRow<'a> for kinds::Tags {
    type Row = TagType;

    ghost tree = { tag_type_tree };

    #[inline]
    fn front(_alloc: Global, bytes: &'a [u8]) -> Result<Option<(TagType, &'a [u8])>, NoMemory> {
        Ok(front_tag_type(bytes))
    }
}

/// A reader of the rows of an export section (section 5.5.10). The byte behind a name is that of the kind.
pub type ExportSectionReader<'a> = SectionReader<'a, kinds::Exports>;

impl<'a> ReadRow<'a> for kinds::Exports {
    type Row = Export<'a>;

    ghost tree = { export_tree };

    ghost beside = { ExportKind };

    #[inline]
    fn front(_alloc: Global, bytes: &'a [u8]) -> Result<Option<(Export<'a>, &'a [u8])>, NoMemory> {
        Ok(front_export(bytes))
    }
}

/// A reader of the rows of an element section (section 5.5.12). A row takes memory, for what it lists. An active segment has
/// a table of its own where its flag says so, as 6 does with the table 0 for a type that 4 can't say.
pub type ElementSectionReader<'a> = SectionReader<'a, kinds::Elements>;

impl<'a> ReadRow<'a> for kinds::Elements {
    type Row = Element<'a>;

    ghost tree = { element_tree };

    ghost beside = { ElementFlag };

    ghost takes_memory = { true };

    #[inline]
    fn front(alloc: Global, bytes: &'a [u8]) -> Result<Option<(Element<'a>, &'a [u8])>, NoMemory> {
        front_element(alloc, bytes)
    }
}

/// The frames of the bodies of functions, of whose contents nothing is said: the rows of a code section as they are
/// read.
pub struct BodyFrames;

impl RowKind for BodyFrames {
    ghost use Rattle.std.specs.Prelude.{refl};
    ghost use Rattle.wasm_read.specs.Operations.{frame_row};

    ghost shape = { frame_row };

    ghost is_sound = { refl };

    ghost is_closed = { refl };

    ghost rows_sound = { refl };
}

/// A reader of the rows of a code section: the frames of function bodies, of whose contents nothing is said (section
/// 5.5.13).
pub type CodeSectionReader<'a> = SectionReader<'a, BodyFrames>;

impl<'a> ReadRow<'a> for BodyFrames {
    type Row = FunctionBody<'a>;

    ghost tree = { body_tree };

    #[inline]
    fn front(
        _alloc: Global,
        bytes: &'a [u8],
    ) -> Result<Option<(FunctionBody<'a>, &'a [u8])>, NoMemory> {
        Ok(front_body(bytes))
    }
}

/// A reader of the rows of a data section (section 5.5.14). Their bytes are borrowed.
pub type DataSectionReader<'a> = SectionReader<'a, kinds::Segments>;

impl<'a> ReadRow<'a> for kinds::Segments {
    type Row = Data<'a>;

    ghost tree = { data_tree };

    #[inline]
    fn front(_alloc: Global, bytes: &'a [u8]) -> Result<Option<(Data<'a>, &'a [u8])>, NoMemory> {
        Ok(front_data(bytes))
    }
}
