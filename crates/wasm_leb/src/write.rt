//! The shortest spellings of numbers.
ghost use Rattle.std.specs.Prelude.{◌≡◌, ◌≤◌, ◌<◌, ◌++◌, ◌∷◌, [], ◌-◌, ◌^◌, ◌≤ℤ◌, ◌<ℤ◌, pos, negsuc, length, OnOk, OnErr};
ghost use Rattle.wasm_leb.specs.Leb.{inverted, leb, shortest, shortest_signed, signed_leb};

use crate::fault::NoMemory;

/// Appends one byte, or nothing.
#[inline(always)]
fn write_byte(out: &mut Vec<u8>, byte: u8) -> Result<(), NoMemory>
    ensures ok { OnOk result (out.new.items ≡ out.old.items ++ byte ∷ []) }
    ensures err { OnErr result (out.new.items ≡ out.old.items) }
{
    match out.push(byte) {
        Ok(()) => Ok(()),
        Err(_) => Err(NoMemory),
    }
}

/// Appends the shortest spelling of a number, whose last byte is below the limit, or nothing.
#[inline(never)]
fn write_number(out: &mut Vec<u8>, limit: u64, number: u64) -> Result<(), NoMemory>
    requires low { 64 ≤ limit }
    requires high { limit ≤ 128 }
    ensures ok { OnOk result (out.new.items ≡ out.old.items ++ shortest 9 limit number) }
    ensures err { OnErr result (out.new.items ≡ out.old.items) }
{
    let mut text = [0u8; 10];
    let mut len = 0;
    let mut rest = number;
    while rest >= limit {
        text[len] = (rest % 128 + 128) as u8;
        rest /= 128;
        len += 1;
    }
    text[len] = rest as u8;
    match out.extend_from_slice(&text[..len + 1]) {
        Ok(()) => Ok(()),
        Err(_) => Err(NoMemory),
    }
}

/// Appends the shortest spelling of -(n + 1), or nothing.
#[inline(never)]
fn write_negative(out: &mut Vec<u8>, n: u64) -> Result<(), NoMemory>
    ensures ok { OnOk result (out.new.items ≡ out.old.items ++ inverted (shortest 9 64 n)) }
    ensures err { OnErr result (out.new.items ≡ out.old.items) }
{
    let mut text = [0u8; 10];
    let mut len = 0;
    let mut rest = n;
    while rest >= 64 {
        text[len] = (255 - rest % 128) as u8;
        rest /= 128;
        len += 1;
    }
    text[len] = (127 - rest) as u8;
    match out.extend_from_slice(&text[..len + 1]) {
        Ok(()) => Ok(()),
        Err(_) => Err(NoMemory),
    }
}

/// Appends the shortest spelling of a number with sign, or nothing.
#[inline(always)]
fn write_signed(out: &mut Vec<u8>, v: i64) -> Result<(), NoMemory>
    ensures ok { OnOk result (out.new.items ≡ out.old.items ++ shortest_signed v) }
    ensures err { OnErr result (out.new.items ≡ out.old.items) }
{
    if v >= 0 {
        if v < 64 {
            write_byte(out, v as u8)
        } else {
            write_number(out, 64, v as u64)
        }
    } else if v >= -64 {
        write_byte(out, (v + 128) as u8)
    } else {
        write_negative(out, (-1 - v) as u64)
    }
}

/// Appends the shortest spelling of a number of 32 bits without sign, or nothing where memory runs out.
/// WebAssembly Core Specification 3.0, section 5.2.2.
#[inline(always)]
pub fn write_u32(out: &mut Vec<u8>, v: u32) -> Result<(), NoMemory>
    ensures ok { OnOk result (out.new.items ≡ out.old.items ++ leb v) }
    ensures err { OnErr result (out.new.items ≡ out.old.items) }
{
    if v < 128 {
        write_byte(out, v as u8)
    } else {
        write_number(out, 128, u64::from(v))
    }
}

/// Appends the shortest spelling of a number of 64 bits without sign, or nothing where memory runs out.
/// WebAssembly Core Specification 3.0, section 5.2.2.
#[inline(always)]
pub fn write_u64(out: &mut Vec<u8>, v: u64) -> Result<(), NoMemory>
    ensures ok { OnOk result (out.new.items ≡ out.old.items ++ leb v) }
    ensures err { OnErr result (out.new.items ≡ out.old.items) }
{
    if v < 128 {
        write_byte(out, v as u8)
    } else {
        write_number(out, 128, v)
    }
}

/// Appends the shortest spelling of an index as a number of 33 bits with sign, or nothing where memory runs out.
/// WebAssembly Core Specification 3.0, sections 5.2.2 and 5.3.
#[inline(always)]
pub fn write_index(out: &mut Vec<u8>, index: u32) -> Result<(), NoMemory>
    ensures ok { OnOk result (out.new.items ≡ out.old.items ++ signed_leb index) }
    ensures err { OnErr result (out.new.items ≡ out.old.items) }
{
    if index < 64 {
        write_byte(out, index as u8)
    } else {
        write_number(out, 64, u64::from(index))
    }
}

/// Appends the shortest spelling of a number of 32 bits with sign, or nothing where memory runs out.
/// WebAssembly Core Specification 3.0, section 5.2.2.
pub fn write_s32(out: &mut Vec<u8>, v: i32) -> Result<(), NoMemory>
    ensures ok { OnOk result (out.new.items ≡ out.old.items ++ shortest_signed v) }
    ensures err { OnErr result (out.new.items ≡ out.old.items) }
{
    write_signed(out, i64::from(v))
}

/// Appends the shortest spelling of a number of 33 bits with sign, or nothing where memory runs out.
/// WebAssembly Core Specification 3.0, section 5.2.2.
pub fn write_s33(out: &mut Vec<u8>, v: i64) -> Result<(), NoMemory>
    requires low { negsuc (2 ^ 32 - 1) ≤ℤ v }
    requires high { v <ℤ pos (2 ^ 32) }
    ensures ok { OnOk result (out.new.items ≡ out.old.items ++ shortest_signed v) }
    ensures err { OnErr result (out.new.items ≡ out.old.items) }
{
    write_signed(out, v)
}

/// Appends the shortest spelling of a number of 64 bits with sign, or nothing where memory runs out.
/// WebAssembly Core Specification 3.0, section 5.2.2.
pub fn write_s64(out: &mut Vec<u8>, v: i64) -> Result<(), NoMemory>
    ensures ok { OnOk result (out.new.items ≡ out.old.items ++ shortest_signed v) }
    ensures err { OnErr result (out.new.items ≡ out.old.items) }
{
    write_signed(out, v)
}

/// How many bytes the shortest spelling of a number of 32 bits without sign has, from 1 to 5.
pub fn len_u32(v: u32) -> usize
    ensures value { result ≡ length (leb v) }
    ensures range { (1 ≤ result) × (result ≤ 5) }
{
    if v < 1 << 7 {
        1
    } else if v < 1 << 14 {
        2
    } else if v < 1 << 21 {
        3
    } else if v < 1 << 28 {
        4
    } else {
        5
    }
}
