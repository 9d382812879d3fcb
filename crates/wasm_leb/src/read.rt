//! Numbers at a place of some bytes.
ghost use Rattle.std.specs.Prelude.{◌≡◌, ◌<◌, ◌≤◌, length, drop, IfOk, IfErr};
ghost use Rattle.wasm_leb.specs.Place.{BeginsNumber, BeginsNoNumber, BeginsSigned, BeginsNoSigned};

use crate::fault::ReadError;
use crate::front::{front_s32, front_s33, front_s64, front_u32, front_u64};

/// The bytes from a place on: none from a place past the end.
fn from_place(bytes: &[u8], at: usize) -> &[u8]
    ensures { result.now ≡ drop at bytes.now }
{
    if at < bytes.len() { &bytes[at..] } else { &[] }
}

/// The number of 32 bits without sign that is spelled at a place, and the place after it.
///
/// The error holds the place that was asked for, and comes exactly where no spelling begins there, as past the end.
/// WebAssembly Core Specification 3.0, section 5.2.2.
pub fn read_u32(bytes: &[u8], at: usize) -> Result<(u32, usize), ReadError>
    ensures ok { IfOk result
        (λ r. BeginsNumber 128 32 32 (drop at bytes.now) r.0 (drop r.1 bytes.now)) }
    ensures forward { IfOk result (λ r. (at < r.1) × (r.1 ≤ length bytes.now)) }
    ensures err { IfErr result (λ e. (e.at ≡ at) × BeginsNoNumber 128 32 32 (drop at bytes.now)) }
{
    match front_u32(from_place(bytes, at)) {
        Some((number, rest)) => Ok((number, bytes.len() - rest.len())),
        None => Err(ReadError { at }),
    }
}

/// The number of 64 bits without sign that is spelled at a place, and the place after it.
///
/// The error holds the place that was asked for, and comes exactly where no spelling begins there, as past the end.
/// WebAssembly Core Specification 3.0, section 5.2.2.
pub fn read_u64(bytes: &[u8], at: usize) -> Result<(u64, usize), ReadError>
    ensures ok { IfOk result
        (λ r. BeginsNumber 128 64 64 (drop at bytes.now) r.0 (drop r.1 bytes.now)) }
    ensures forward { IfOk result (λ r. (at < r.1) × (r.1 ≤ length bytes.now)) }
    ensures err { IfErr result (λ e. (e.at ≡ at) × BeginsNoNumber 128 64 64 (drop at bytes.now)) }
{
    match front_u64(from_place(bytes, at)) {
        Some((number, rest)) => Ok((number, bytes.len() - rest.len())),
        None => Err(ReadError { at }),
    }
}

/// The number of 32 bits with sign that is spelled at a place, and the place after it.
///
/// The error holds the place that was asked for, and comes exactly where no spelling begins there, as past the end.
/// WebAssembly Core Specification 3.0, section 5.2.2.
pub fn read_s32(bytes: &[u8], at: usize) -> Result<(i32, usize), ReadError>
    ensures ok { IfOk result (λ r. BeginsSigned 32 (drop at bytes.now) r.0 (drop r.1 bytes.now)) }
    ensures forward { IfOk result (λ r. (at < r.1) × (r.1 ≤ length bytes.now)) }
    ensures err { IfErr result (λ e. (e.at ≡ at) × BeginsNoSigned 32 (drop at bytes.now)) }
{
    match front_s32(from_place(bytes, at)) {
        Some((number, rest)) => Ok((number, bytes.len() - rest.len())),
        None => Err(ReadError { at }),
    }
}

/// The number of 33 bits with sign that is spelled at a place, and the place after it.
///
/// The error holds the place that was asked for, and comes exactly where no spelling begins there, as past the end.
/// WebAssembly Core Specification 3.0, section 5.2.2.
pub fn read_s33(bytes: &[u8], at: usize) -> Result<(i64, usize), ReadError>
    ensures ok { IfOk result (λ r. BeginsSigned 33 (drop at bytes.now) r.0 (drop r.1 bytes.now)) }
    ensures forward { IfOk result (λ r. (at < r.1) × (r.1 ≤ length bytes.now)) }
    ensures err { IfErr result (λ e. (e.at ≡ at) × BeginsNoSigned 33 (drop at bytes.now)) }
{
    match front_s33(from_place(bytes, at)) {
        Some((number, rest)) => Ok((number, bytes.len() - rest.len())),
        None => Err(ReadError { at }),
    }
}

/// The number of 64 bits with sign that is spelled at a place, and the place after it.
///
/// The error holds the place that was asked for, and comes exactly where no spelling begins there, as past the end.
/// WebAssembly Core Specification 3.0, section 5.2.2.
pub fn read_s64(bytes: &[u8], at: usize) -> Result<(i64, usize), ReadError>
    ensures ok { IfOk result (λ r. BeginsSigned 64 (drop at bytes.now) r.0 (drop r.1 bytes.now)) }
    ensures forward { IfOk result (λ r. (at < r.1) × (r.1 ≤ length bytes.now)) }
    ensures err { IfErr result (λ e. (e.at ≡ at) × BeginsNoSigned 64 (drop at bytes.now)) }
{
    match front_s64(from_place(bytes, at)) {
        Some((number, rest)) => Ok((number, bytes.len() - rest.len())),
        None => Err(ReadError { at }),
    }
}
