//! The items of compact imports.
ghost use Rattle.std.specs.Prelude.{◌≡◌, IsTrue, IfOk, map};
ghost use Rattle.wasm_shapes.specs.Tree.{visits};
ghost use Rattle.wasm_shapes.specs.Types.{vector_tree};
ghost use Rattle.wasm_write.specs.Rows.{compact_tree, name_tree};
ghost use Rattle.reencode_hooks.specs.Run.{LeavesVisited, ask};
ghost use Rattle.reencode_items.specs.Maps.{Maps};

use reencode_hooks::Error;
use reencode_items::ReencodeItems;
use std::alloc::Global;
use wasm_leb::{List, NoMemory};
use wasm_read as r;
use wasm_write as w;

/// The items that are left, each with its type mapped by `entity_type`.
pub(crate) fn compact_items<'a, T: ReencodeItems>(
    reencoder: &mut T,
    alloc: Global,
    items: r::CompactItems<'a>,
) -> Result<List<w::ImportCompact<'a>>, Error<T::Error>>
    ensures default { IsTrue T.keeps_defaults
        → Maps T.reply T.next reencoder.old (vector_tree items.entry)
        (λ made. vector_tree (map compact_tree made)) reencoder.new result }
    ensures after_error { IsTrue T.keeps_defaults → IsTrue T.sure
        → LeavesVisited (ask T.reply T.next) reencoder.old (visits (vector_tree items.entry))
        reencoder.new result }
{
    let mut rest = items;
    let mut mapped = List::new(alloc);
    'items: while let Some(item) = rest.next() {
        let ty = reencoder.entity_type(item.ty)?;
        mapped.push(w::ImportCompact {
            name: item.name,
            ty,
        })?;
    }
    Ok(mapped)
}

/// The names that are left.
pub(crate) fn compact_names<'a>(
    alloc: Global,
    names: r::CompactNames<'a>,
) -> Result<List<&'a str>, NoMemory>
    ensures { IfOk result (λ held. map name_tree held ≡ names.entry) }
{
    let mut rest = names;
    let mut held = List::new(alloc);
    'names: while let Some(name) = rest.next() {
        match held.push(name) {
            Ok(()) => {}
            Err(NoMemory) => return Err(NoMemory),
        }
    }
    Ok(held)
}
