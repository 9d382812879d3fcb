//! The bytes behind types at the front of some bytes. Nothing of them is kept, so no memory is taken.
ghost use Rattle.std.specs.Prelude.{ℕ, List, IfSome, IfNone};
ghost use Rattle.wasm_shapes.specs.declared.Space.TheVariants as space;
ghost use Rattle.wasm_shapes.specs.Place.{Begins, BeginsNone};
ghost use Rattle.wasm_shapes.specs.Shape.{Shape, Named, choice, values, inner_rows, described_rows, describing_rows};
ghost use Rattle.wasm_shapes.specs.Tree.{Tree};

use crate::types::{FieldType, UnpackedIndex, ValType};
use crate::value_types::front_field_type;
use crate::vector_items::behind_vec;
use wasm_leb::{front_byte, front_index, front_u32};

/// The bytes behind the parameters and results of a function.
fn behind_func_type(bytes: &[u8]) -> Option<&[u8]>
    ensures some { IfSome result (λ r.
        (t : Tree) × Begins (Shape.seq values values) bytes.now t r.now) }
    ensures none { IfNone result (BeginsNone (Shape.seq values values) bytes.now) }
{
    let Some(rest) = behind_vec::<ValType>(bytes) else {
        return None;
    };
    behind_vec::<ValType>(rest)
}

/// The bytes behind a function, array, structure or continuation type.
fn behind_inner(bytes: &[u8]) -> Option<&[u8]>
    ensures some { IfSome result (λ r. (t : Tree) × Begins (choice inner_rows) bytes.now t r.now) }
    ensures none { IfNone result (BeginsNone (choice inner_rows) bytes.now) }
{
    let Some((first, rest)) = front_byte(bytes) else {
        return None;
    };
    match first {
        0x60 => behind_func_type(rest),
        0x5e => match front_field_type(rest) {
            Some((_, rest)) => Some(rest),
            None => None,
        },
        0x5f => behind_vec::<FieldType>(rest),
        0x5d => match front_index(rest) {
            Some((_, rest)) => Some(rest),
            None => None,
        },
        _ => None,
    }
}

/// The bytes behind the same behind its descriptor, where it has one.
fn behind_described(bytes: &[u8]) -> Option<&[u8]>
    ensures some { IfSome result (λ r.
        (t : Tree) × Begins (choice described_rows) bytes.now t r.now) }
    ensures none { IfNone result (BeginsNone (choice described_rows) bytes.now) }
{
    let Some((first, rest)) = front_byte(bytes) else {
        return None;
    };
    if first != 0x4d {
        return behind_inner(bytes);
    }
    let Some((_, rest)) = front_u32(rest) else {
        return None;
    };
    behind_inner(rest)
}

/// The bytes behind the same behind what it describes, where it describes a type.
fn behind_describing(bytes: &[u8]) -> Option<&[u8]>
    ensures some { IfSome result (λ r.
        (t : Tree) × Begins (choice describing_rows) bytes.now t r.now) }
    ensures none { IfNone result (BeginsNone (choice describing_rows) bytes.now) }
{
    let Some((first, rest)) = front_byte(bytes) else {
        return None;
    };
    if first != 0x4c {
        return behind_described(bytes);
    }
    let Some((_, rest)) = front_u32(rest) else {
        return None;
    };
    behind_described(rest)
}

/// The bytes behind a composite type.
fn behind_composite(bytes: &[u8]) -> Option<&[u8]>
    ensures some { IfSome result (λ r.
        (t : Tree) × Begins (Shape.ref Named.composite) bytes.now t r.now) }
    ensures none { IfNone result (BeginsNone (Shape.ref Named.composite) bytes.now) }
{
    let Some((first, rest)) = front_byte(bytes) else {
        return None;
    };
    if first == 0x65 {
        behind_describing(rest)
    } else {
        behind_describing(bytes)
    }
}

/// The bytes behind supertypes and a composite type.
fn behind_parts(bytes: &[u8]) -> Option<&[u8]>
    ensures some { IfSome result (λ r. (t u : Tree) × (middle : List ℕ)
        × Begins (Shape.vec (Shape.ix space.Type_)) bytes.now t middle
        × Begins (Shape.ref Named.composite) middle u r.now) }
    ensures none { IfNone result (BeginsNone
        (Shape.seq (Shape.vec (Shape.ix space.Type_)) (Shape.ref Named.composite)) bytes.now) }
{
    let Some(rest) = behind_vec::<UnpackedIndex>(bytes) else {
        return None;
    };
    behind_composite(rest)
}

/// The bytes behind a subtype.
fn behind_sub_type(bytes: &[u8]) -> Option<&[u8]>
    ensures some { IfSome result (λ r.
        (t : Tree) × Begins (Shape.ref Named.sub) bytes.now t r.now) }
    ensures none { IfNone result (BeginsNone (Shape.ref Named.sub) bytes.now) }
{
    let Some((first, rest)) = front_byte(bytes) else {
        return None;
    };
    match first {
        0x50 => behind_parts(rest),
        0x4f => behind_parts(rest),
        _ => behind_composite(bytes),
    }
}

/// The bytes behind a vector of subtypes.
fn behind_sub_types(bytes: &[u8]) -> Option<&[u8]>
    ensures some { IfSome result (λ r.
        (t : Tree) × Begins (Shape.vec (Shape.ref Named.sub)) bytes.now t r.now) }
    ensures none { IfNone result (BeginsNone (Shape.vec (Shape.ref Named.sub)) bytes.now) }
{
    let Some((count, start)) = front_u32(bytes) else {
        return None;
    };
    let mut rest = start;
    let mut left = count;
    'types: while left > 0 {
        match behind_sub_type(rest) {
            Some(behind) => {
                rest = behind;
                left -= 1;
            }
            None => return None,
        }
    }
    Some(rest)
}

/// The bytes behind a group of types.
pub fn behind_group(bytes: &[u8]) -> Option<&[u8]>
    ensures some { IfSome result (λ r.
        (t : Tree) × Begins (Shape.ref Named.group) bytes.now t r.now) }
    ensures none { IfNone result (BeginsNone (Shape.ref Named.group) bytes.now) }
{
    let Some((first, rest)) = front_byte(bytes) else {
        return None;
    };
    if first == 0x4e {
        behind_sub_types(rest)
    } else {
        behind_sub_type(bytes)
    }
}
