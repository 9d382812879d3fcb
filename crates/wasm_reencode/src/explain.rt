//! What stands at a place of a file, for who has to mend it.
ghost use Rattle.std.specs.Prelude.{◌≡◌, ◌↔◌, ◌++◌, ◌∷◌, ℕ, List, [], Option, Some, codes, decimal, option_map, string_bytes, IfNone, IfOk, IfSome, IsTrue, OnOk};
ghost use Rattle.std.specs.Int.{from_le_bytes, w32};
ghost use Rattle.std.specs.Str.Parse.{AllDigits};
ghost use Rattle.wasm_strip.specs.Choices.{begins};
ghost use Rattle.wasm_reencode.specs.Json.{TellsText};
ghost use Rattle.wasm_reencode.specs.Places.{BeginsNoDigit, IsDigit, IsKind, IsPlaceOf, IsTold, SaysNumber, TellsPlace, magic, section_text, with_detail, with_said};

use crate::json::{wrong_order, wrong_renaming};
use crate::sections::{Section, header_of, section_at};
use itoa::Buffer;
use serde_json::Value;
use std::alloc::{AllocError, Global};

/// Whether bytes begin with others.
fn begins(bytes: &[u8], front: &[u8]) -> bool
    ensures { result ≡ begins front.now bytes.now }
{
    bytes.starts_with(front)
}

/// What a file is that has no header of a WebAssembly binary.
fn kind_of(bytes: &[u8]) -> &'static str
    ensures { IsKind bytes.now result.now }
{
    if bytes.is_empty() {
        return "empty";
    }
    if begins(bytes, b"\x00asm") {
        return "cut short in the header";
    }
    if begins(bytes, b"\x1f\x8b") {
        return "a gzip archive";
    }
    if begins(bytes, b"PK\x03\x04") {
        return "a zip archive";
    }
    if begins(bytes, b"\x7fELF") {
        return "an ELF file";
    }
    if begins(bytes, b"!<arch>") {
        return "an ar archive";
    }
    match str::from_utf8(bytes) {
        Ok(_) => "text",
        Err(_) => "no WebAssembly",
    }
}

/// Adds a number in decimal.
fn add_number(text: &mut Vec<u8>, n: u64) -> Result<(), AllocError>
    ensures { OnOk result (text.new.items ≡ text.old.items ++ decimal n) }
{
    let mut digits = Buffer::new();
    text.extend_from_slice(digits.format(n).as_bytes())
}

/// Adds which section this is.
fn add_section(text: &mut Vec<u8>, section: &Section<'_>) -> Result<(), AllocError>
    ensures { OnOk result (text.new.items ≡ text.old.items ++ section_text (Some section.now)) }
{
    text.extend_from_slice(b": section ")?;
    add_number(text, section.number as u64)?;
    text.extend_from_slice(b", ")?;
    text.extend_from_slice(section.kind_name().as_bytes())?;
    text.extend_from_slice(b", at ")?;
    add_number(text, section.start as u64)
}

/// The version that a header of a binary names.
fn version_of(bytes: &[u8]) -> Option<u32>
    ensures { IfSome result (λ version. (a b c d : ℕ) × (rest : List ℕ) × (bytes.now ≡ magic ++ a ∷ b ∷ c ∷ d ∷ rest)
        × (version ≡ from_le_bytes w32 (a ∷ b ∷ c ∷ d ∷ []))) }
{
    match bytes {
        [0x00, 0x61, 0x73, 0x6d, a, b, c, d, _rest @ ..] => {
            Some(u32::from_le_bytes([*a, *b, *c, *d]))
        }
        _ => None,
    }
}

/// Adds what a file is that has no header of a WebAssembly binary of a version that is read.
fn add_kind(text: &mut Vec<u8>, bytes: &[u8]) -> Result<(), AllocError>
    ensures { OnOk result ((kind : List ℕ) × (text.new.items ≡ text.old.items ++ codes ": " ++ kind) × IsKind bytes.now kind) }
{
    text.extend_from_slice(b": ")?;
    match version_of(bytes) {
        Some(version) => {
            text.extend_from_slice(b"WebAssembly of version ")?;
            add_number(text, version as u64)
        }
        None => text.extend_from_slice(kind_of(bytes).as_bytes()),
    }
}

/// Whether a byte is a decimal digit.
fn is_digit(byte: u8) -> bool
    ensures { IsTrue result ↔ IsDigit byte }
{
    byte >= b'0' && byte <= b'9'
}

/// The digits at the front of a text.
fn front_digits(text: &[u8]) -> &[u8]
    ensures { (behind : List ℕ) × (text.now ≡ result.now ++ behind) × AllDigits 10 result.now × BeginsNoDigit behind }
{
    'bytes: for count in 0..text.len() {
        if !is_digit(text[count]) {
            return &text[..count];
        }
    }
    text
}

/// The number that digits say.
fn number_of(digits: &[u8]) -> Option<usize>
    requires { AllDigits 10 digits.now }
    ensures some { IfSome result (SaysNumber digits.now) }
    ensures none { IfNone result ((n : ℕ) → ¬ SaysNumber digits.now n) }
{
    let Ok(digits) = str::from_utf8(digits) else {
        return None;
    };
    match digits.parse::<usize>() {
        Ok(number) => Some(number),
        Err(_) => None,
    }
}

/// The place that a line tells behind the name of a file.
fn place_in(line: &[u8], name: &str) -> Option<usize>
    ensures some { IfSome result (TellsPlace name.now line.now) }
    ensures none { IfNone result ((place : ℕ) → ¬ TellsPlace name.now line.now place) }
{
    let behind = line.strip_prefix(name.as_bytes())?;
    let place = behind.strip_prefix(b": parse error at ")?;
    number_of(front_digits(place))
}

/// Adds what stands at a place of a file.
fn add_told(text: &mut Vec<u8>, bytes: &[u8], place: usize) -> Result<(), AllocError>
    ensures { OnOk result ((detail : List ℕ) × (text.new.items ≡ text.old.items ++ detail) × IsTold bytes.now place detail) }
{
    if header_of(bytes).is_none() {
        return add_kind(text, bytes);
    }
    match section_at(bytes, place) {
        Some(section) => add_section(text, &section),
        None => Ok(()),
    }
}

/// Adds to a line, before its end, what stands in a file where its bytes have no reading.
pub fn add_place(line: &mut Vec<u8>, name: &str, bytes: &[u8]) -> Result<(), AllocError>
    ensures { OnOk result ((place : ℕ) × (detail : List ℕ) × IsPlaceOf name.now line.old.items place × IsTold bytes.now place detail
        × (line.new.items ≡ with_detail line.old.items detail)) }
{
    let place = place_in(line.as_slice(), name).unwrap_or(usize::MAX);
    let _ = line.pop();
    add_told(line, bytes, place)?;
    line.extend_from_slice(b"\n")
}

/// Why a text says no renaming, or no order, or nothing where it says one.
fn wrong_text(alloc: Global, text: &[u8], is_order: bool) -> Result<Option<String>, AllocError>
    ensures { IfOk result (λ wrong. TellsText is_order text.now (option_map string_bytes wrong)) }
{
    match Value::from_slice(alloc, text) {
        Ok(value) if is_order => wrong_order(alloc, &value),
        Ok(value) => wrong_renaming(alloc, &value),
        Err(e) if e.is_memory() => Err(AllocError),
        Err(e) => Ok(Some(format!(in alloc; "{e}")?)),
    }
}

/// Adds to a line, before its end, why a text says no renaming, or no order.
pub fn add_json_place(
    alloc: Global,
    line: &mut Vec<u8>,
    text: &[u8],
    is_order: bool,
) -> Result<(), AllocError>
    ensures { OnOk result ((said : Option (List ℕ)) × TellsText is_order text.now said
        × (line.new.items ≡ with_said line.old.items said)) }
{
    match wrong_text(alloc, text, is_order)? {
        Some(why) => {
            let _ = line.pop();
            line.extend_from_slice(b": ")?;
            line.extend_from_slice(why.as_bytes())?;
            line.extend_from_slice(b"\n")
        }
        None => Ok(()),
    }
}
