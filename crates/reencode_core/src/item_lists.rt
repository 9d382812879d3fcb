//! Lists whose items are mapped one by one: one loop for all of them.
ghost use Rattle.std.specs.Prelude.{IsTrue, map};
ghost use Rattle.wasm_shapes.specs.Tree.{Tree, visits};
ghost use Rattle.wasm_shapes.specs.Types.{vector_tree};
ghost use Rattle.reencode_hooks.specs.Run.{LeavesVisited, ask};
ghost use Rattle.reencode_items.specs.Maps.{Maps};

use reencode_hooks::Error;
use reencode_items::ReencodeItems;
use std::alloc::Global;
use wasm_leb::List;
use wasm_read as r;
use wasm_write as w;

/// A way to map an item, as a marker.
pub trait MapItem<T: ReencodeItems, A, B> {
    ghost read: { A → Tree };

    ghost made: { B → Tree };

    /// What an item becomes.
    fn map(reencoder: &mut T, alloc: Global, item: A) -> Result<B, Error<T::Error>>
        ensures default { IsTrue T.keeps_defaults
            → Maps T.reply T.next reencoder.old (read item) made reencoder.new result }
        ensures after_error { IsTrue T.keeps_defaults → IsTrue T.sure
            → LeavesVisited (ask T.reply T.next) reencoder.old (visits (read item))
            reencoder.new result };
}

/// The functions of an element segment.
pub(crate) struct FunctionItems;

impl<T: ReencodeItems> MapItem<T, u32, u32> for FunctionItems {
    ghost use Rattle.wasm_shapes.specs.Types.{function_index_tree};

    ghost read = { function_index_tree };

    ghost made = { function_index_tree };

    fn map(reencoder: &mut T, _alloc: Global, item: u32) -> Result<u32, Error<T::Error>> {
        reencoder.function_index(item)
    }
}

/// The expressions of an element segment.
pub(crate) struct ExpressionItems;

impl<'a, T: ReencodeItems> MapItem<T, r::ConstExpr<'a>, w::ConstExpr> for ExpressionItems {
    ghost use Rattle.wasm_shapes.specs.Types.{expression_of};
    ghost use Rattle.wasm_read.specs.Expressions.{expr_tree};

    ghost read = { expr_tree };

    ghost made = { expression_of };

    fn map(
        reencoder: &mut T,
        alloc: Global,
        item: r::ConstExpr<'a>,
    ) -> Result<w::ConstExpr, Error<T::Error>> {
        reencoder.const_expr(alloc, item)
    }
}

/// Maps each item of a list, in the way of the marker.
pub fn map_items<T, M, A, B>(
    reencoder: &mut T,
    alloc: Global,
    items: List<A>,
) -> Result<List<B>, Error<T::Error>>
where
    T: ReencodeItems,
    M: MapItem<T, A, B>,
    A: Drop,
    B: Drop,
    ensures default { IsTrue T.keeps_defaults
        → Maps T.reply T.next reencoder.old (vector_tree (map M.read items))
        (λ made. vector_tree (map M.made made)) reencoder.new result }
    ensures after_error { IsTrue T.keeps_defaults → IsTrue T.sure
        → LeavesVisited (ask T.reply T.next) reencoder.old (visits (vector_tree (map M.read items)))
        reencoder.new result }
{
    let mut mapped = List::with_capacity(alloc, items.len())?;
    for item in items.into_vec() {
        let item = M::map(reencoder, alloc, item)?;
        mapped.push(item)?;
    }
    Ok(mapped)
}

/// Maps each index of a list, in the way of the marker, in its place: no second list is made.
pub(crate) fn map_in_place<T, M>(
    reencoder: &mut T,
    alloc: Global,
    indices: List<u32>,
) -> Result<List<u32>, Error<T::Error>>
where
    T: ReencodeItems,
    M: MapItem<T, u32, u32>,
    ensures default { IsTrue T.keeps_defaults
        → Maps T.reply T.next reencoder.old (vector_tree (map M.read indices))
        (λ made. vector_tree (map M.made made)) reencoder.new result }
    ensures after_error { IsTrue T.keeps_defaults → IsTrue T.sure
        → LeavesVisited (ask T.reply T.next) reencoder.old
        (visits (vector_tree (map M.read indices))) reencoder.new result }
{
    let mut items = indices.into_vec();
    let mut at = 0;
    'items: while at < items.len() {
        let item = M::map(reencoder, alloc, items[at])?;
        items[at] = item;
        at += 1;
    }
    Ok(List::from_vec(items))
}
