//! Numbers at the front of some bytes.
ghost use Rattle.std.specs.Prelude.{◌≡◌, ◌+ℤ◌, ◌*ℤ◌, pos, ℕ, ◌<◌, ◌≤◌, ◌^◌, ◌-◌, ◌∷◌, [], length, drop, IfSome, IfNone, IsTrue, ◌↔◌};
ghost use Rattle.wasm_leb.specs.Leb.{one_byte_signed};
ghost use Rattle.wasm_leb.specs.Place.{BeginsNumber, BeginsNoNumber, BeginsSigned, BeginsNoSigned};

/// The byte at the front of some bytes, and the bytes behind it. None exactly where there is no byte.
/// WebAssembly Core Specification 3.0, section 5.2.1.
#[inline(always)]
pub fn front_byte(bytes: &[u8]) -> Option<(u8, &[u8])>
    ensures some { IfSome result (λ r. bytes.now ≡ r.0 ∷ r.1.now) }
    ensures is_byte { IfSome result (λ r. r.0 < 256) }
    ensures none { IfNone result (bytes.now ≡ []) }
{
    match bytes {
        [first, rest @ ..] => Some((*first, rest)),
        [] => None,
    }
}

/// Whether a byte can be the last of a number of which so many bits are left.
fn can_end(byte: u8, limit: u8, bits: u32) -> bool
    requires limit { limit ≤ 128 }
    requires some_bits { 0 < bits }
    ensures { IsTrue result ↔ ((byte < limit) × (byte < 2 ^ bits)) }
{
    byte < limit && (bits >= 7 || byte < 1 << bits)
}

/// The number of so many bits that the bytes begin with, and how many bytes spell it: 0 where no spelling begins.
/// Its last byte is below the limit.
#[inline(never)]
fn number(bytes: &[u8], limit: u8, bits: u32) -> (u64, usize)
    requires limit { limit ≤ 128 }
    requires some_bits { 0 < bits }
    requires most_bits { bits ≤ 64 }
    ensures some { 0 < result.1
        → BeginsNumber limit bits bits bytes.now result.0 (drop result.1 bytes.now) }
    ensures within { result.1 ≤ length bytes.now }
    ensures none { result.1 ≡ 0 → BeginsNoNumber limit bits bits bytes.now }
{
    let mut rest = bytes;
    let mut sum: u64 = 0;
    let mut shift: u32 = 0;
    while let Some((first, more)) = front_byte(rest) {
        if first < 128 {
            return if can_end(first, limit, bits - shift) {
                (sum + (u64::from(first) << shift), bytes.len() - more.len())
            } else {
                (0, 0)
            };
        }
        if bits - shift <= 7 {
            return (0, 0);
        }
        sum += u64::from(first - 128) << shift;
        shift += 7;
        rest = more;
    }
    (0, 0)
}

/// Whether so much can be the last part of a number with sign of which so many bits are left.
fn is_within(size: u8, bits: u32) -> bool
    requires small { size < 64 }
    requires some_bits { 0 < bits }
    ensures { IsTrue result ↔ (size < 2 ^ (bits - 1)) }
{
    bits >= 7 || size < 1 << (bits - 1)
}

/// The number of so many bits with sign that the bytes begin with, and how many bytes spell it: 0 where no spelling
/// begins.
#[inline(never)]
fn signed(bytes: &[u8], bits: u32) -> (i64, usize)
    requires some_bits { 0 < bits }
    requires most_bits { bits ≤ 64 }
    ensures some { 0 < result.1 → BeginsSigned bits bytes.now result.0 (drop result.1 bytes.now) }
    ensures within { result.1 ≤ length bytes.now }
    ensures none { result.1 ≡ 0 → BeginsNoSigned bits bytes.now }
{
    let mut rest = bytes;
    let mut sum: u64 = 0;
    let mut shift: u32 = 0;
    while let Some((first, more)) = front_byte(rest) {
        if first < 64 {
            return if is_within(first, bits - shift) {
                let size = sum + (u64::from(first) << shift);
                (size as i64, bytes.len() - more.len())
            } else {
                (0, 0)
            };
        }
        if first < 128 {
            return if is_within(127 - first, bits - shift) {
                let size = (u64::from(128 - first) << shift) - 1 - sum;
                (-1 - size as i64, bytes.len() - more.len())
            } else {
                (0, 0)
            };
        }
        if bits - shift <= 7 {
            return (0, 0);
        }
        sum += u64::from(first - 128) << shift;
        shift += 7;
        rest = more;
    }
    (0, 0)
}

/// The number with sign that one byte spells.
#[inline(always)]
fn one_byte(byte: u8) -> i8
    requires { byte < 128 }
    ensures { result ≡ one_byte_signed byte }
{
    let number = byte as i8;
    if byte < 64 { number } else { number - 64 - 64 }
}

/// A number without sign of one or two bytes at the front of some bytes, and the bytes behind it. None says nothing.
#[inline(always)]
fn front_short(bytes: &[u8]) -> Option<(u16, &[u8])>
    ensures { IfSome result (λ r. BeginsNumber 128 14 14 bytes.now r.0 r.1.now) }
{
    let Some((first, rest)) = front_byte(bytes) else {
        return None;
    };
    if first < 128 {
        return Some((u16::from(first), rest));
    }
    match front_byte(rest) {
        Some((second, rest)) if second < 128 => {
            let number = u16::from(first - 128) + u16::from(second) * 128;
            Some((number, rest))
        }
        _ => None,
    }
}

/// The number with sign that two bytes spell.
#[inline(always)]
fn two_bytes(first: u8, second: u8) -> i16
    requires low { 128 ≤ first }
    requires high { second < 128 }
    ensures { result ≡ (one_byte_signed second *ℤ pos 128) +ℤ pos (first - 128) }
{
    i16::from(one_byte(second)) * 128 + i16::from(first - 128)
}

/// A number with sign of one or two bytes at the front of some bytes, and the bytes behind it. None says nothing.
#[inline(always)]
fn front_short_signed(bytes: &[u8]) -> Option<(i16, &[u8])>
    ensures { IfSome result (λ r. BeginsSigned 14 bytes.now r.0 r.1.now) }
{
    let Some((first, rest)) = front_byte(bytes) else {
        return None;
    };
    if first < 128 {
        return Some((i16::from(one_byte(first)), rest));
    }
    match front_byte(rest) {
        Some((second, rest)) if second < 128 => Some((two_bytes(first, second), rest)),
        _ => None,
    }
}

/// The number of 32 bits without sign at the front of some bytes, and the bytes behind it.
/// None exactly where no spelling begins there. WebAssembly Core Specification 3.0, section 5.2.2.
#[inline(always)]
pub fn front_u32(bytes: &[u8]) -> Option<(u32, &[u8])>
    ensures some { IfSome result (λ r. BeginsNumber 128 32 32 bytes.now r.0 r.1.now) }
    ensures none { IfNone result (BeginsNoNumber 128 32 32 bytes.now) }
{
    match front_short(bytes) {
        Some((number, rest)) => Some((u32::from(number), rest)),
        None => {
            let (number, len) = number(bytes, 128, 32);
            if len > 0 {
                Some((number as u32, &bytes[len..]))
            } else {
                None
            }
        }
    }
}

/// The number of 64 bits without sign at the front of some bytes, and the bytes behind it.
/// None exactly where no spelling begins there. WebAssembly Core Specification 3.0, section 5.2.2.
#[inline(always)]
pub fn front_u64(bytes: &[u8]) -> Option<(u64, &[u8])>
    ensures some { IfSome result (λ r. BeginsNumber 128 64 64 bytes.now r.0 r.1.now) }
    ensures none { IfNone result (BeginsNoNumber 128 64 64 bytes.now) }
{
    match front_short(bytes) {
        Some((number, rest)) => Some((u64::from(number), rest)),
        None => {
            let (number, len) = number(bytes, 128, 64);
            if len > 0 {
                Some((number, &bytes[len..]))
            } else {
                None
            }
        }
    }
}

/// The index at the front of some bytes, spelled as a number of 33 bits with sign that is not negative, and
/// the bytes behind it. None exactly where no such spelling begins there. WebAssembly Core Specification 3.0, sections
/// 5.2.2 and 5.3.
#[inline(always)]
pub fn front_index(bytes: &[u8]) -> Option<(u32, &[u8])>
    ensures some { IfSome result (λ r. BeginsNumber 64 33 32 bytes.now r.0 r.1.now) }
    ensures none { IfNone result (BeginsNoNumber 64 33 32 bytes.now) }
{
    match front_byte(bytes) {
        Some((first, rest)) if first < 64 => Some((u32::from(first), rest)),
        _ => {
            let (number, len) = number(bytes, 64, 32);
            if len > 0 {
                Some((number as u32, &bytes[len..]))
            } else {
                None
            }
        }
    }
}

/// The number of 32 bits with sign at the front of some bytes, and the bytes behind it.
/// None exactly where no spelling begins there. WebAssembly Core Specification 3.0, section 5.2.2.
#[inline(always)]
pub fn front_s32(bytes: &[u8]) -> Option<(i32, &[u8])>
    ensures some { IfSome result (λ r. BeginsSigned 32 bytes.now r.0 r.1.now) }
    ensures none { IfNone result (BeginsNoSigned 32 bytes.now) }
{
    match front_short_signed(bytes) {
        Some((number, rest)) => Some((i32::from(number), rest)),
        None => {
            let (number, len) = signed(bytes, 32);
            if len > 0 {
                Some((number as i32, &bytes[len..]))
            } else {
                None
            }
        }
    }
}

/// The number of 33 bits with sign at the front of some bytes, and the bytes behind it.
/// None exactly where no spelling begins there. WebAssembly Core Specification 3.0, section 5.2.2.
#[inline(always)]
pub fn front_s33(bytes: &[u8]) -> Option<(i64, &[u8])>
    ensures some { IfSome result (λ r. BeginsSigned 33 bytes.now r.0 r.1.now) }
    ensures none { IfNone result (BeginsNoSigned 33 bytes.now) }
{
    match front_byte(bytes) {
        Some((first, rest)) if first < 128 => Some((i64::from(one_byte(first)), rest)),
        _ => {
            let (number, len) = signed(bytes, 33);
            if len > 0 {
                Some((number, &bytes[len..]))
            } else {
                None
            }
        }
    }
}

/// The number of 64 bits with sign at the front of some bytes, and the bytes behind it.
/// None exactly where no spelling begins there. WebAssembly Core Specification 3.0, section 5.2.2.
#[inline(always)]
pub fn front_s64(bytes: &[u8]) -> Option<(i64, &[u8])>
    ensures some { IfSome result (λ r. BeginsSigned 64 bytes.now r.0 r.1.now) }
    ensures none { IfNone result (BeginsNoSigned 64 bytes.now) }
{
    match front_short_signed(bytes) {
        Some((number, rest)) => Some((i64::from(number), rest)),
        None => {
            let (number, len) = signed(bytes, 64);
            if len > 0 {
                Some((number, &bytes[len..]))
            } else {
                None
            }
        }
    }
}
