//! Locals and operators of which nothing is asked, and which stand in their normal spelling: they are passed by.
ghost use Rattle.std.specs.Prelude.{IfSome};
ghost use Rattle.wasm_shapes.specs.Module.{local_row};
ghost use Rattle.wasm_shapes.specs.Shape.{Shape, block_type};
ghost use Rattle.reencode_items.specs.Direct.{SkipsClass, SkipsLeaf, SkipsLocals, SkipsOperator, labels};

use crate::direct::classes::{Class, class_of_byte};
use crate::direct::fronts::{front_long, front_number, front_signed};
use wasm_leb::front_byte;

/// The bytes behind a number of 32 bits without sign that stands in its normal spelling.
#[inline(always)]
fn skip_number(bytes: &[u8]) -> Option<&[u8]>
    ensures { IfSome result (λ rest. SkipsLeaf Shape.u32 bytes.now rest.now) }
{
    match front_number(bytes) {
        Some((_, true, rest)) => Some(rest),
        _ => None,
    }
}

/// The bytes behind a number of 32 bits with sign that is one byte, which is its normal spelling.
#[inline(always)]
fn skip_short(bytes: &[u8]) -> Option<&[u8]>
    ensures s32 { IfSome result (λ rest. SkipsLeaf Shape.s32 bytes.now rest.now) }
    ensures s64 { IfSome result (λ rest. SkipsLeaf Shape.s64 bytes.now rest.now) }
{
    match front_byte(bytes) {
        Some((first, rest)) if first < 128 => Some(rest),
        _ => None,
    }
}

/// The bytes behind a number of 32 bits with sign that stands in its normal spelling.
#[inline(always)]
fn skip_s32(bytes: &[u8]) -> Option<&[u8]>
    ensures { IfSome result (λ rest. SkipsLeaf Shape.s32 bytes.now rest.now) }
{
    if let Some(rest) = skip_short(bytes) {
        return Some(rest);
    }
    match front_signed(bytes) {
        Some((_, true, rest)) => Some(rest),
        _ => None,
    }
}

/// The bytes behind a number of 64 bits with sign that stands in its normal spelling.
#[inline(always)]
fn skip_long(bytes: &[u8]) -> Option<&[u8]>
    ensures { IfSome result (λ rest. SkipsLeaf Shape.s64 bytes.now rest.now) }
{
    if let Some(rest) = skip_short(bytes) {
        return Some(rest);
    }
    match front_long(bytes) {
        Some((_, true, rest)) => Some(rest),
        _ => None,
    }
}

/// The bytes behind so many, which stand in their normal spelling always.
#[inline(always)]
fn skip_raw(bytes: &[u8], count: u8) -> Option<&[u8]>
    ensures { IfSome result (λ rest. SkipsLeaf (Shape.bytes count) bytes.now rest.now) }
{
    let size = usize::from(count);
    if bytes.len() < size {
        None
    } else {
        Some(&bytes[size..])
    }
}

/// The bytes behind the type of a block that is one byte: none, or a type of numbers.
#[inline(always)]
fn skip_block(bytes: &[u8]) -> Option<&[u8]>
    ensures { IfSome result (λ rest. SkipsLeaf block_type bytes.now rest.now) }
{
    let Some((first, rest)) = front_byte(bytes) else {
        return None;
    };
    if first == 0x40 {
        return Some(rest);
    }
    if first < 0x7b {
        return None;
    }
    if first < 0x80 { Some(rest) } else { None }
}

/// The bytes behind so many numbers of 32 bits without sign, as the number in front of them says, that stand in their normal spelling.
fn skip_numbers(bytes: &[u8]) -> Option<&[u8]>
    ensures { IfSome result (λ rest. SkipsLeaf (Shape.vec Shape.u32) bytes.now rest.now) }
{
    let Some((count, true, behind)) = front_number(bytes) else {
        return None;
    };
    let mut rest = behind;
    let mut left = count;
    'numbers: while left > 0 {
        let Some(behind) = skip_number(rest) else {
            return None;
        };
        rest = behind;
        left -= 1;
    }
    Some(rest)
}

/// The bytes behind the labels of a table of branches, and the one for all other numbers, that stand in their normal spelling.
pub fn skip_labels(bytes: &[u8]) -> Option<&[u8]>
    ensures { IfSome result (λ rest. SkipsLeaf labels bytes.now rest.now) }
{
    match skip_numbers(bytes) {
        Some(behind) => skip_number(behind),
        None => None,
    }
}

/// The bytes behind an immediate of a class that asks nothing and stands in its normal spelling. None says nothing.
#[inline(always)]
pub fn skip_class(class: Class, bytes: &[u8]) -> Option<&[u8]>
    ensures { IfSome result (λ rest. SkipsClass class bytes.now rest.now) }
{
    match class {
        Class::Bare => Some(bytes),
        Class::Number => skip_number(bytes),
        Class::Long => skip_long(bytes),
        Class::Raw(count) => skip_raw(bytes, count),
        Class::Block => skip_block(bytes),
        Class::S32 => skip_s32(bytes),
        Class::Index(_) | Class::Mem | Class::Other => None,
    }
}

/// The bytes behind an operator of one byte that asks nothing and stands in its normal spelling. None says nothing.
#[inline(always)]
pub fn skip_operator(bytes: &[u8]) -> Option<&[u8]>
    ensures { IfSome result (λ rest. SkipsOperator bytes.now rest.now) }
{
    let Some((first, rest)) = front_byte(bytes) else {
        return None;
    };
    skip_class(class_of_byte(first), rest)
}

/// The bytes behind so many locals of a type of numbers that stand in their normal spelling.
#[inline(always)]
fn skip_local(bytes: &[u8]) -> Option<&[u8]>
    ensures { IfSome result (λ rest. SkipsLeaf local_row bytes.now rest.now) }
{
    let Some(types) = skip_number(bytes) else {
        return None;
    };
    match front_byte(types) {
        Some((ty, rest)) if 0x7b <= ty && ty < 0x80 => Some(rest),
        _ => None,
    }
}

/// The bytes behind the locals that a body begins with, where they have types of numbers and stand in their normal spelling.
/// None says nothing.
pub fn skip_locals(bytes: &[u8]) -> Option<&[u8]>
    ensures { IfSome result (λ rest. SkipsLocals bytes.now rest.now) }
{
    let Some((count, true, behind)) = front_number(bytes) else {
        return None;
    };
    let mut rest = behind;
    let mut left = count;
    'locals: while left > 0 {
        let Some(behind) = skip_local(rest) else {
            return None;
        };
        rest = behind;
        left -= 1;
    }
    Some(rest)
}
