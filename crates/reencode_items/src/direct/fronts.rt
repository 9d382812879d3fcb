//! Immediates at the front of some bytes, and whether they stand in their normal spelling.
ghost use Rattle.std.specs.Prelude.{◌≡◌, ◌<◌, ◌++◌, IfSome, IsTrue};
ghost use Rattle.wasm_leb.specs.Leb.{leb, shortest_signed};
ghost use Rattle.wasm_leb.specs.Place.{BeginsNumber, BeginsSigned};
ghost use Rattle.wasm_shapes.specs.Place.{Begins};
ghost use Rattle.wasm_shapes.specs.Shape.{Shape};
ghost use Rattle.wasm_shapes.specs.Tree.{Tree, normal};
ghost use Rattle.reencode_items.specs.Direct.{BeginsTwo};

use wasm_leb::{
    front_byte, front_s32, front_s64, front_u32, front_u64, is_shortest, is_shortest_signed,
};

/// A number of 32 bits without sign, whether it stands in its shortest spelling, and the bytes behind it.
#[inline(always)]
pub fn front_number(bytes: &[u8]) -> Option<(u32, bool, &[u8])>
    ensures begins { IfSome result (λ r. BeginsNumber 128 32 32 bytes.now r.0 r.2.now) }
    ensures short { IfSome result (λ r. IsTrue r.1 → bytes.now ≡ leb r.0 ++ r.2.now) }
{
    match front_byte(bytes) {
        Some((first, rest)) if first < 128 => Some((u32::from(first), true, rest)),
        _ => front_longer_number(bytes),
    }
}

/// The same by its last byte.
#[inline(always)]
fn front_longer_number(bytes: &[u8]) -> Option<(u32, bool, &[u8])>
    ensures begins { IfSome result (λ r. BeginsNumber 128 32 32 bytes.now r.0 r.2.now) }
    ensures short { IfSome result (λ r. IsTrue r.1 → bytes.now ≡ leb r.0 ++ r.2.now) }
{
    match front_u32(bytes) {
        Some((number, rest)) => {
            let short = is_shortest(&bytes[..bytes.len() - rest.len()]);
            Some((number, short, rest))
        }
        None => None,
    }
}

/// The same of a number with sign.
#[inline(always)]
pub fn front_signed(bytes: &[u8]) -> Option<(i32, bool, &[u8])>
    ensures begins { IfSome result (λ r. BeginsSigned 32 bytes.now r.0 r.2.now) }
    ensures short { IfSome result (λ r. IsTrue r.1 → bytes.now ≡ shortest_signed r.0 ++ r.2.now) }
{
    match front_s32(bytes) {
        Some((number, rest)) => {
            let short = is_shortest_signed(&bytes[..bytes.len() - rest.len()]);
            Some((number, short, rest))
        }
        None => None,
    }
}

/// The same of a number of 64 bits with sign.
#[inline(always)]
pub fn front_long(bytes: &[u8]) -> Option<(i64, bool, &[u8])>
    ensures begins { IfSome result (λ r. BeginsSigned 64 bytes.now r.0 r.2.now) }
    ensures short { IfSome result (λ r. IsTrue r.1 → bytes.now ≡ shortest_signed r.0 ++ r.2.now) }
{
    match front_s64(bytes) {
        Some((number, rest)) => {
            let short = is_shortest_signed(&bytes[..bytes.len() - rest.len()]);
            Some((number, short, rest))
        }
        None => None,
    }
}

/// The same of an offset.
#[inline(always)]
fn front_offset(bytes: &[u8]) -> Option<(u64, bool, &[u8])>
    ensures begins { IfSome result (λ r. BeginsNumber 128 64 64 bytes.now r.0 r.2.now) }
    ensures short { IfSome result (λ r. IsTrue r.1 → bytes.now ≡ leb r.0 ++ r.2.now) }
{
    match front_byte(bytes) {
        Some((first, rest)) if first < 128 => Some((u64::from(first), true, rest)),
        _ => front_longer_offset(bytes),
    }
}

/// The same by its last byte.
#[inline(always)]
fn front_longer_offset(bytes: &[u8]) -> Option<(u64, bool, &[u8])>
    ensures begins { IfSome result (λ r. BeginsNumber 128 64 64 bytes.now r.0 r.2.now) }
    ensures short { IfSome result (λ r. IsTrue r.1 → bytes.now ≡ leb r.0 ++ r.2.now) }
{
    match front_u64(bytes) {
        Some((number, rest)) => {
            let short = is_shortest(&bytes[..bytes.len() - rest.len()]);
            Some((number, short, rest))
        }
        None => None,
    }
}

/// A memory access that leaves its memory out: its alignment, its offset, whether it stands in its normal spelling, and the
/// bytes behind it. None says nothing.
#[inline(always)]
pub fn front_access(bytes: &[u8]) -> Option<(u8, u64, bool, &[u8])>
    ensures begins { IfSome result (λ r. Begins Shape.mem bytes.now (Tree.mem r.0 0 r.1) r.3.now) }
    ensures short { IfSome result
        (λ r. IsTrue r.2 → bytes.now ≡ normal (Tree.mem r.0 0 r.1) ++ r.3.now) }
    ensures small { IfSome result (λ r. r.0 < 64) }
{
    match front_byte(bytes) {
        Some((align, middle)) if align < 64 => match front_offset(middle) {
            Some((offset, short, rest)) => Some((align, offset, short, rest)),
            None => None,
        },
        _ => None,
    }
}

/// Two numbers of 32 bits without sign, whether both stand in their shortest spelling, and the bytes behind them.
#[inline(always)]
pub fn front_two(bytes: &[u8]) -> Option<(u32, u32, bool, &[u8])>
    ensures begins { IfSome result (λ r. BeginsTwo bytes.now r.0 r.1 r.3.now) }
    ensures short { IfSome result
        (λ r. IsTrue r.2 → bytes.now ≡ leb r.0 ++ (leb r.1 ++ r.3.now)) }
{
    match front_number(bytes) {
        Some((first, whole, middle)) => match front_number(middle) {
            Some((second, short, rest)) => Some((first, second, whole && short, rest)),
            None => None,
        },
        None => None,
    }
}
