//! Text that is put together piece by piece, each with a blank behind it.
use crate::stop::refusal;
use reencode_hooks::{Error, Unmapped};
use std::alloc::{AllocError, Global};
use std::fmt::{Debug, Write};
use wasm_leb::Fault;

/// Adds a word.
pub fn add_word(text: &mut String, word: &str) -> Result<(), AllocError> {
    text.push_str(word)?;
    text.push_str(" ")
}

/// Adds a value.
pub fn add<T: Debug>(text: &mut String, value: &T) -> Result<(), AllocError> {
    write!(text, "{value:?} ")
}

/// Adds a value behind a word for what it is.
pub fn add_as<T: Debug>(text: &mut String, what: &str, value: &T) -> Result<(), AllocError> {
    add_word(text, what)?;
    add(text, value)
}

/// Adds bytes.
pub fn add_bytes(alloc: Global, text: &mut String, bytes: &[u8]) -> Result<(), AllocError> {
    add_word(text, hex::encode(alloc, bytes)?.as_str())
}

/// Adds the place behind something.
pub fn add_place(text: &mut String, at: usize) -> Result<(), AllocError> {
    text.push_str("to ")?;
    add(text, &at)
}

/// Adds what a refusal says.
pub fn add_refusal(alloc: Global, text: &mut String, fault: Fault) -> Result<(), AllocError> {
    let e: Error<Unmapped> = Error::from(fault);
    add_word(text, refusal(alloc, &e)?.as_str())
}
