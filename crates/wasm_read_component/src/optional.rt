//! What may be left out, at the front of some bytes.
ghost use Rattle.std.specs.Prelude.{IfSome, IfNone};
ghost use Rattle.wasm_shapes.specs.declared.Space.TheVariants as space;
ghost use Rattle.wasm_shapes.specs.Place.{Begins, BeginsNone};
ghost use Rattle.wasm_shapes.specs.Shape.{Shape};
ghost use Rattle.wasm_shapes.specs.Tree.{Tree};
ghost use Rattle.wasm_shapes.specs.Component.{component_value, type_ref};
ghost use Rattle.wasm_types.specs.ComponentTrees.{component_val_type_tree, maybe_tree, type_ref_tree};

use crate::types::{ComponentTypeRef, ComponentValType};
use crate::value_types::{front_component_type_ref, front_component_val_type};
use wasm_leb::{front_byte, front_u32};

/// What may be left out.
pub trait Optional<'a> {
    ghost shape: { Shape };

    ghost tree: { Self → Tree };

    /// What is not left out, at the front of some bytes, and the bytes behind it.
    fn front(bytes: &'a [u8]) -> Option<(Self, &'a [u8])>
        ensures some { IfSome result (λ r. Begins Self.shape bytes.now (Self.tree r.0) r.1.now) }
        ensures none { IfNone result (BeginsNone Self.shape bytes.now) };
}

impl<'a> Optional<'a> for ComponentValType {
    ghost shape = { component_value };

    ghost tree = { component_val_type_tree };

    #[inline]
    fn front(bytes: &'a [u8]) -> Option<(ComponentValType, &'a [u8])> {
        front_component_val_type(bytes)
    }
}

impl<'a> Optional<'a> for ComponentTypeRef {
    ghost shape = { type_ref };

    ghost tree = { type_ref_tree };

    #[inline]
    fn front(bytes: &'a [u8]) -> Option<(ComponentTypeRef, &'a [u8])> {
        front_component_type_ref(bytes)
    }
}

/// An index of a function.
impl<'a> Optional<'a> for u32 {
    ghost shape = { Shape.ix space.Function };

    ghost tree = { Tree.ix space.Function };

    #[inline]
    #[tactic(auto, using(wasm_shapes::proofs::Begins::begins_ix))]
    fn front(bytes: &'a [u8]) -> Option<(u32, &'a [u8])> {
        match front_u32(bytes) {
            Some((index, rest)) => Some((index, rest)),
            None => None,
        }
    }
}

/// What may be left out, at the front of some bytes, and the bytes behind it.
pub fn front_optional<'a, T: Optional<'a>>(bytes: &'a [u8]) -> Option<(Option<T>, &'a [u8])>
    ensures some { IfSome result (λ r.
        Begins (Shape.opt T.shape) bytes.now (maybe_tree T.tree r.0) r.1.now) }
    ensures none { IfNone result (BeginsNone (Shape.opt T.shape) bytes.now) }
{
    let Some((first, rest)) = front_byte(bytes) else {
        return None;
    };
    match first {
        0x00 => Some((None, rest)),
        0x01 => match T::front(rest) {
            Some((value, rest)) => Some((Some(value), rest)),
            None => None,
        },
        _ => None,
    }
}
