//! The items of compact imports.
ghost use Rattle.std.specs.Prelude.{◌≡◌, List, [], ◌∷◌, refl, IfOk, IfErr, IfSome, IfNone};
ghost use Rattle.wasm_shapes.specs.Module.{compact_item};
ghost use Rattle.wasm_shapes.specs.Place.{Begins, BeginsNone};
ghost use Rattle.wasm_shapes.specs.Shape.{Shape};
ghost use Rattle.wasm_shapes.specs.Spells.{Spells};
ghost use Rattle.wasm_shapes.specs.Tree.{Tree};
ghost use Rattle.wasm_shapes.specs.Types.{vector_tree};
ghost use Rattle.wasm_read.specs.VectorItems.{HeldItems, HeldItems-prop, NoVector};
ghost use Rattle.wasm_read.specs.Types.{compact_tree};

use crate::externals::front_type_ref;
use crate::fields::front_name;
use crate::types::ImportCompact;
use crate::vector_items::{Entry, SmallEntry, pass_vec};
use std::marker::{Model, PhantomData};
use wasm_leb::ReadError;

/// The items that are left of a vector, as the bytes that spell them.
///
/// Contracts see it as the list of these items.
#[derive(Drop)]
pub struct VecItems<'a, T: Entry> {
    left: u32,
    rest: &'a [u8],
    item: PhantomData<T>,
    ghost held: { HeldItems T.shape left rest.now } by { HeldItems-prop T.shape T.rows_sound left rest.now },
}

impl<'a, T: Entry> Model for VecItems<'a, T> {
    ghost use Rattle.std.specs.Prelude.{List};
    ghost use Rattle.wasm_shapes.specs.Tree.{Tree};
    ghost use Rattle.wasm_shapes.specs.TreeCode.{trees_code};
    ghost use Rattle.wasm_read.specs.VectorItems.{held_items};

    ghost Value = { List Tree };

    ghost coded = { trees_code };

    ghost view = { λ v. held_items T.shape v.left v.rest.now v.held };
}

/// Names with the types of what is imported under them.
pub type CompactItems<'a> = VecItems<'a, ImportCompact<'a>>;

/// Names of what is imported.
pub type CompactNames<'a> = VecItems<'a, &'a str>;

impl<'a, T: SmallEntry<'a> + Drop> VecItems<'a, T> {
    /// The vector that fills some bytes. The error comes exactly where none does. It holds the place where no count or item
    /// begins, or where the left bytes begin. No memory is taken.
    pub fn new(bytes: &'a [u8]) -> Result<Self, ReadError>
        ensures ok { IfOk result (λ items. Spells (Shape.vec T.shape) bytes.now (vector_tree items)) }
        ensures err { IfErr result (λ e. NoVector T.shape bytes.now e.at) }
    {
        match pass_vec::<T>(bytes) {
            Ok((left, rest, [])) => Ok(VecItems {
                left,
                rest,
                item: PhantomData,
            }),
            Ok((_, _, rest)) => Err(ReadError {
                at: bytes.len() - rest.len(),
            }),
            Err(rest) => Err(ReadError {
                at: bytes.len() - rest.len(),
            }),
        }
    }

    /// The vector at the front of some bytes, and the bytes behind it.
    pub(crate) fn front(bytes: &'a [u8]) -> Option<(Self, &'a [u8])>
        ensures some { IfSome result (λ r.
            Begins (Shape.vec T.shape) bytes.now (vector_tree r.0) r.1.now) }
        ensures none { IfNone result (BeginsNone (Shape.vec T.shape) bytes.now) }
    {
        match pass_vec::<T>(bytes) {
            Ok((left, start, rest)) => Some((
                VecItems {
                    left,
                    rest: &start[..start.len() - rest.len()],
                    item: PhantomData,
                },
                rest,
            )),
            Err(_) => None,
        }
    }

    /// The next item, or none exactly at the end. No memory is taken.
    pub fn next(&mut self) -> Option<T>
        ensures some { IfSome result (λ item. self.old ≡ T.tree item ∷ self.new) }
        ensures none { IfNone result ((self.old ≡ []) × (self.new ≡ [])) }
    {
        if self.left == 0 {
            return None;
        }
        match T::small(self.rest) {
            Some((item, rest)) => {
                self.left -= 1;
                self.rest = rest;
                Some(item)
            }
            None => None,
        }
    }
}

impl<'a> Entry for ImportCompact<'a> {
    ghost shape = { compact_item };

    ghost tree = { compact_tree };

    ghost rows_sound = { refl };
}

impl<'a> SmallEntry<'a> for ImportCompact<'a> {
    fn small(bytes: &'a [u8]) -> Option<(ImportCompact<'a>, &'a [u8])> {
        front_compact(bytes)
    }
}

impl<'a> Entry for &'a str {
    ghost shape = { Shape.name };

    ghost tree = { λ name. Tree.name name.now };

    ghost rows_sound = { refl };
}

impl<'a> SmallEntry<'a> for &'a str {
    fn small(bytes: &'a [u8]) -> Option<(&'a str, &'a [u8])> {
        front_name(bytes)
    }
}

/// A name and the type of what is imported under it, at the front of some bytes, and the bytes behind them.
fn front_compact(bytes: &[u8]) -> Option<(ImportCompact<'_>, &[u8])>
    ensures some { IfSome result (λ r. Begins compact_item bytes.now (compact_tree r.0) r.1.now) }
    ensures none { IfNone result (BeginsNone compact_item bytes.now) }
{
    let Some((name, rest)) = front_name(bytes) else {
        return None;
    };
    match front_type_ref(rest) {
        Some((ty, rest)) => Some((ImportCompact { name, ty }, rest)),
        None => None,
    }
}
