//! The calls by their names.
use crate::case::Case;
use crate::stop::Stop;
use crate::{component_rows, numbers, readers, renamed, sections, spaces, tools, written};
use std::alloc::{AllocError, Global};

/// What a reader at a place gives, where there is one of this name.
fn of_place(alloc: Global, call: &str, bytes: &[u8], at: usize) -> Result<Option<String>, Stop> {
    if let Some(given) = numbers::answer(alloc, call, bytes, at)? {
        return Ok(Some(given));
    }
    readers::answer(alloc, call, bytes, at)
}

/// What a reader of whole bytes gives, where there is one of this name.
fn of_whole(alloc: Global, call: &str, bytes: &[u8]) -> Result<Option<String>, Stop> {
    if let Some(given) = sections::answer(alloc, call, bytes)? {
        return Ok(Some(given));
    }
    written::answer(alloc, call, bytes)
}

/// What a reader gives, where there is one of this name.
fn of_reader(alloc: Global, case: &Case<'_>, bytes: &[u8]) -> Result<Option<String>, Stop> {
    if let Some(given) = component_rows::answer(alloc, case, bytes)? {
        return Ok(Some(given));
    }
    if let Some(given) = of_place(alloc, case.call, bytes, case.place()?)? {
        return Ok(Some(given));
    }
    of_whole(alloc, case.call, bytes)
}

/// What comes of a call that is given bytes, where there is one of this name.
fn of_bytes(alloc: Global, case: &Case<'_>) -> Result<Option<String>, Stop> {
    let bytes = case.bytes(alloc)?;
    let bytes = bytes.as_slice();
    if let Some(given) = renamed::answer(alloc, case.call, case.words, bytes)? {
        return Ok(Some(given));
    }
    if let Some(given) = spaces::answer(alloc, case, bytes)? {
        return Ok(Some(given));
    }
    of_reader(alloc, case, bytes)
}

/// What comes of a call, where there is one of this name.
fn given(alloc: Global, case: &Case<'_>) -> Result<String, Stop> {
    if let Some(given) = numbers::written(alloc, case.call, case.input)? {
        return Ok(given);
    }
    if let Some(given) = tools::answer(alloc, case)? {
        return Ok(given);
    }
    match of_bytes(alloc, case)? {
        Some(given) => Ok(given),
        None => Err(Stop::Unread),
    }
}

/// What comes of a call: its answer, or what its refusal says.
pub fn answer(alloc: Global, case: &Case<'_>) -> Result<String, AllocError> {
    match given(alloc, case) {
        Ok(given) => Ok(given),
        Err(stop) => stop.text(alloc),
    }
}
