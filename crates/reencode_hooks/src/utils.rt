//! Hooks that change nothing: the bodies that a reencoder takes for those that it has no use for.
ghost use Rattle.std.specs.Prelude.{◌≡◌, IsOk};
ghost use Rattle.reencode_hooks.specs.Hooks.{index_of};

use crate::error::Error;
use crate::indices::ReencodeIndices;
use wasm_shapes::{SectionId, Visit};
use wasm_write::Module;

/// The index that a visit asks as it is, and 0 where it asks none.
#[inline(always)]
pub fn index_of(visit: Visit) -> u32
    ensures { result ≡ index_of visit }
{
    match visit {
        Visit::Index(_, index) | Visit::Outer(_, _, index) => index,
        Visit::Section(..) | Visit::Closed(_) | Visit::Push | Visit::Pop => 0,
    }
}

/// The index of a data segment as it is. The reencoder stays as it was.
pub fn data_index<T: ReencodeIndices>(reencoder: &mut T, index: u32) -> u32
    ensures answer { result ≡ index }
    ensures state { reencoder.new ≡ reencoder.old }
{
    index
}

/// The index of an element segment as it is. The reencoder stays as it was.
pub fn element_index<T: ReencodeIndices>(reencoder: &mut T, index: u32) -> u32
    ensures answer { result ≡ index }
    ensures state { reencoder.new ≡ reencoder.old }
{
    index
}

/// The index of a function as it is. The reencoder stays as it was.
pub fn function_index<T: ReencodeIndices>(reencoder: &mut T, index: u32) -> u32
    ensures answer { result ≡ index }
    ensures state { reencoder.new ≡ reencoder.old }
{
    index
}

/// The index of a global as it is. The reencoder stays as it was.
pub fn global_index<T: ReencodeIndices>(reencoder: &mut T, index: u32) -> u32
    ensures answer { result ≡ index }
    ensures state { reencoder.new ≡ reencoder.old }
{
    index
}

/// The index of a memory as it is. The reencoder stays as it was.
pub fn memory_index<T: ReencodeIndices>(reencoder: &mut T, index: u32) -> u32
    ensures answer { result ≡ index }
    ensures state { reencoder.new ≡ reencoder.old }
{
    index
}

/// The index of a table as it is. The reencoder stays as it was.
pub fn table_index<T: ReencodeIndices>(reencoder: &mut T, index: u32) -> u32
    ensures answer { result ≡ index }
    ensures state { reencoder.new ≡ reencoder.old }
{
    index
}

/// The index of a tag as it is. The reencoder stays as it was.
pub fn tag_index<T: ReencodeIndices>(reencoder: &mut T, index: u32) -> u32
    ensures answer { result ≡ index }
    ensures state { reencoder.new ≡ reencoder.old }
{
    index
}

/// The index of a type as it is. The reencoder stays as it was.
pub fn type_index<T: ReencodeIndices>(reencoder: &mut T, index: u32) -> u32
    ensures answer { result ≡ index }
    ensures state { reencoder.new ≡ reencoder.old }
{
    index
}

/// Appends no section. The reencoder and the module stay as they were.
pub fn intersperse_section_hook<T: ReencodeIndices>(
    reencoder: &mut T,
    module: &mut Module,
    after: Option<SectionId>,
    before: Option<SectionId>,
) -> Result<(), Error<T::Error>>
    ensures answer { IsOk result }
    ensures state { reencoder.new ≡ reencoder.old }
    ensures sections { «module».new ≡ «module».old }
{
    Ok(())
}

/// Appends no section. The reencoder and the module stay as they were.
pub fn close_section_hook<T: ReencodeIndices>(
    reencoder: &mut T,
    module: &mut Module,
    section: SectionId,
) -> Result<(), Error<T::Error>>
    ensures answer { IsOk result }
    ensures state { reencoder.new ≡ reencoder.old }
    ensures sections { «module».new ≡ «module».old }
{
    Ok(())
}
