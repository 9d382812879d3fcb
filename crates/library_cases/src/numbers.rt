//! Numbers.
use crate::case::number;
use crate::stop::Stop;
use std::alloc::Global;
use std::fmt::Debug;
use wasm_leb::{
    ReadError, front_byte, front_index, front_s32, front_s33, front_s64, front_u32, front_u64,
    len_u32, read_s32, read_s33, read_s64, read_u32, read_u64, write_index, write_s32, write_s33,
    write_s64, write_u32, write_u64,
};

/// What was read, and the place after it.
pub fn found<T: Debug + Drop>(alloc: Global, value: T, at: usize) -> Result<Option<String>, Stop> {
    Ok(Some(format!(in alloc; "{value:?} to {at}")?))
}

/// The same of what a reader gives.
pub fn read<T: Debug + Drop>(
    alloc: Global,
    made: Result<(T, usize), ReadError>,
) -> Result<Option<String>, Stop> {
    let (value, at) = made?;
    found(alloc, value, at)
}

/// What stands at the front, and how many bytes are left behind it.
pub fn front<T: Debug + Drop>(
    alloc: Global,
    found: Option<(T, &[u8])>,
) -> Result<Option<String>, Stop> {
    match found {
        Some((value, rest)) => {
            let left = rest.len();
            Ok(Some(format!(in alloc; "{value:?}, {left} left")?))
        }
        None => Ok(Some(String::from_str(alloc, "none")?)),
    }
}

/// What a reader of numbers gives.
pub fn answer(alloc: Global, call: &str, bytes: &[u8], at: usize) -> Result<Option<String>, Stop> {
    match call {
        "read_u32" => read(alloc, read_u32(bytes, at)),
        "read_u64" => read(alloc, read_u64(bytes, at)),
        "read_s32" => read(alloc, read_s32(bytes, at)),
        "read_s33" => read(alloc, read_s33(bytes, at)),
        "read_s64" => read(alloc, read_s64(bytes, at)),
        "front_byte" => front(alloc, front_byte(bytes)),
        "front_index" => front(alloc, front_index(bytes)),
        "front_u32" => front(alloc, front_u32(bytes)),
        "front_u64" => front(alloc, front_u64(bytes)),
        "front_s32" => front(alloc, front_s32(bytes)),
        "front_s33" => front(alloc, front_s33(bytes)),
        "front_s64" => front(alloc, front_s64(bytes)),
        _ => Ok(None),
    }
}

/// Writes a number of 33 bits, where it is one.
fn write_33(out: &mut Vec<u8>, value: i64) -> Result<(), Stop> {
    if value < -4_294_967_296 || value >= 4_294_967_296 {
        return Err(Stop::Unread);
    }
    Ok(write_s33(out, value)?)
}

/// Writes a number without a sign behind what was written, where the kind is one of these.
fn write_unsigned(out: &mut Vec<u8>, kind: &str, value: &str) -> Result<bool, Stop> {
    match kind {
        "u32" => write_u32(out, number(value)?)?,
        "u64" => write_u64(out, number(value)?)?,
        "index" => write_index(out, number(value)?)?,
        _ => return Ok(false),
    }
    Ok(true)
}

/// Writes a number of a kind behind what was written.
fn write(out: &mut Vec<u8>, kind: &str, value: &str) -> Result<(), Stop> {
    if write_unsigned(out, kind, value)? {
        return Ok(());
    }
    match kind {
        "s32" => write_s32(out, number(value)?)?,
        "s33" => write_33(out, number(value)?)?,
        "s64" => write_s64(out, number(value)?)?,
        _ => return Err(Stop::Unread),
    }
    Ok(())
}

/// What comes of numbers that are written one behind another, each as `KIND=NUMBER`.
fn write_all(alloc: Global, input: &str) -> Result<String, Stop> {
    let mut out = Vec::new(alloc);
    for word in input.split_whitespace() {
        let Some((kind, value)) = word.split_once('=') else {
            return Err(Stop::Unread);
        };
        write(&mut out, kind, value)?;
    }
    Ok(hex::encode(alloc, out.as_slice())?)
}

/// How many bytes a number takes.
fn length(alloc: Global, input: &str) -> Result<String, Stop> {
    let len = len_u32(number(input)?);
    Ok(format!(in alloc; "{len}")?)
}

/// What a writer of numbers gives.
pub fn written(alloc: Global, call: &str, input: &str) -> Result<Option<String>, Stop> {
    match call {
        "write" => Ok(Some(write_all(alloc, input)?)),
        "len_u32" => Ok(Some(length(alloc, input)?)),
        _ => Ok(None),
    }
}
