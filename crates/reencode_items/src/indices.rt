//! What the hooks of a reencoder map by themselves: indices, and what holds one index.
ghost use Rattle.std.specs.Prelude.{◌≡◌, true};
ghost use Rattle.reencode_hooks.specs.Run.{NeverWants};
ghost use Rattle.wasm_read.specs.Immediates as immediates;
ghost use Rattle.wasm_read.specs.Types as read;
ghost use Rattle.wasm_shapes.specs.Tree.{Tree};
ghost use Rattle.wasm_shapes.specs.Types.{is_core};
ghost use Rattle.wasm_write.specs.Instructions as instructions;
ghost use Rattle.wasm_write.specs.Types as write;
ghost use Rattle.reencode_items.specs.Clauses.{IndexClauses};
ghost use Rattle.reencode_items.specs.Maps.{Maps};

use reencode_hooks::{Error, ReencodeIndices};
use wasm_read as r;
use wasm_shapes::Space;
use wasm_write as w;

/// The index of a type. `CanonicalizedHeapTypeReference` comes for one inside a recursion group.
pub fn type_index_unpacked<T: ReencodeIndices>(
    reencoder: &mut T,
    ty: r::UnpackedIndex,
) -> Result<u32, Error<T::Error>>
    ensures { IndexClauses T.ReencodeIndices (read.type_index ty) write.type_index
        reencoder.old reencoder.new result }
{
    match ty {
        r::UnpackedIndex::Module(index) => reencoder.type_index(index),
        r::UnpackedIndex::RecGroup(_) => Err(Error::CanonicalizedHeapTypeReference),
    }
}

/// The index of what is exported, by the hook of its kind.
pub fn external_index<T: ReencodeIndices>(
    reencoder: &mut T,
    kind: r::ExternalKind,
    index: u32,
) -> Result<u32, Error<T::Error>>
    ensures { IndexClauses T.ReencodeIndices (read.item_tree kind index) (read.item_tree kind)
        reencoder.old reencoder.new result }
{
    match kind {
        r::ExternalKind::Func | r::ExternalKind::FuncExact => reencoder.function_index(index),
        r::ExternalKind::Table => reencoder.table_index(index),
        r::ExternalKind::Memory => reencoder.memory_index(index),
        r::ExternalKind::Global => reencoder.global_index(index),
        r::ExternalKind::Tag => reencoder.tag_index(index),
    }
}

/// The index of a space of core modules, by its hook. One of another space is no hook's, and stays as it is.
#[inline(always)]
pub(crate) fn core_index<T: ReencodeIndices>(
    reencoder: &mut T,
    space: Space,
    index: u32,
) -> Result<u32, Error<T::Error>>
    ensures default { is_core space ≡ true
        → Maps T.reply T.next reencoder.old
        (Tree.ix space index) (Tree.ix space) reencoder.new result }
    ensures sure { NeverWants T.sure result }
{
    match space {
        Space::Data => reencoder.data_index(index),
        Space::Element => reencoder.element_index(index),
        Space::Function => reencoder.function_index(index),
        Space::Global => reencoder.global_index(index),
        Space::Memory => reencoder.memory_index(index),
        Space::Table => reencoder.table_index(index),
        Space::Tag => reencoder.tag_index(index),
        Space::Type_ => reencoder.type_index(index),
        _ => Ok(index),
    }
}

/// Where a memory access goes (section 5.4.6): its memory, also where it was left out. The alignment and the offset stay.
pub fn mem_arg<T: ReencodeIndices>(
    reencoder: &mut T,
    arg: r::MemArg,
) -> Result<w::MemArg, Error<T::Error>>
    ensures { IndexClauses T.ReencodeIndices (Tree.mem arg.align arg.memory arg.offset)
        (λ made. Tree.mem made.align made.memory made.offset) reencoder.old reencoder.new result }
{
    Ok(w::MemArg {
        align: arg.align,
        memory: reencoder.memory_index(arg.memory)?,
        offset: arg.offset,
    })
}

/// What a block catches (section 5.4.1): its tag, where it has one. The label stays.
pub fn catch<T: ReencodeIndices>(
    reencoder: &mut T,
    arg: r::Catch,
) -> Result<w::Catch, Error<T::Error>>
    ensures { IndexClauses T.ReencodeIndices (immediates.catch_tree arg) instructions.catch_tree
        reencoder.old reencoder.new result }
{
    match arg {
        r::Catch::One { tag, label } => Ok(w::Catch::One {
            tag: reencoder.tag_index(tag)?,
            label,
        }),
        r::Catch::OneRef { tag, label } => Ok(w::Catch::OneRef {
            tag: reencoder.tag_index(tag)?,
            label,
        }),
        r::Catch::All { label } => Ok(w::Catch::All { label }),
        r::Catch::AllRef { label } => Ok(w::Catch::AllRef { label }),
    }
}

/// How a resumed continuation's tag is handled: the tag. The label stays.
pub fn handle<T: ReencodeIndices>(
    reencoder: &mut T,
    on: r::Handle,
) -> Result<w::Handle, Error<T::Error>>
    ensures { IndexClauses T.ReencodeIndices (immediates.handle_tree on) instructions.handle_tree
        reencoder.old reencoder.new result }
{
    match on {
        r::Handle::OnLabel { tag, label } => Ok(w::Handle::OnLabel {
            tag: reencoder.tag_index(tag)?,
            label,
        }),
        r::Handle::OnSwitch { tag } => Ok(w::Handle::OnSwitch {
            tag: reencoder.tag_index(tag)?,
        }),
    }
}
