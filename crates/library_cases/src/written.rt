//! Parts of a module that are read, mapped by the reencoder that changes nothing, and written again.
use crate::stop::Stop;
use crate::text::{add, add_bytes, add_word};
use reencode_core::Reencode;
use reencode_hooks::RoundtripReencoder;
use reencode_items::ReencodeItems;
use std::alloc::Global;
use wasm_read::{read_group, read_type_ref, read_val_type};
use wasm_write::{write_entity_type, write_group, write_val_type};

/// A value type, as it is written again.
fn val_type(alloc: Global, text: &mut String, bytes: &[u8]) -> Result<Vec<u8>, Stop> {
    let (ty, _) = read_val_type(bytes, 0)?;
    let ty = RoundtripReencoder.val_type(ty)?;
    let mut out = Vec::new(alloc);
    write_val_type(&mut out, ty)?;
    add(text, &ty)?;
    add_bytes(alloc, text, out.as_slice())?;
    Ok(out)
}

/// The type of what is imported, as it is written again.
fn entity_type(alloc: Global, text: &mut String, bytes: &[u8]) -> Result<Vec<u8>, Stop> {
    let (ty, _) = read_type_ref(bytes, 0)?;
    let ty = RoundtripReencoder.entity_type(ty)?;
    let mut out = Vec::new(alloc);
    write_entity_type(&mut out, ty)?;
    add(text, &ty)?;
    add_bytes(alloc, text, out.as_slice())?;
    Ok(out)
}

/// A group, as it is written again.
fn group(alloc: Global, text: &mut String, bytes: &[u8]) -> Result<Vec<u8>, Stop> {
    let (group, _) = read_group(alloc, bytes, 0)?;
    let group = RoundtripReencoder.parse_recursive_type_group(alloc, group)?;
    let mut out = Vec::new(alloc);
    write_group(&mut out, &group)?;
    add_bytes(alloc, text, out.as_slice())?;
    Ok(out)
}

/// A part of a kind, as it is written again, where there is a kind of this name.
fn once(
    alloc: Global,
    call: &str,
    text: &mut String,
    bytes: &[u8],
) -> Result<Option<Vec<u8>>, Stop> {
    match call {
        "val_type" => Ok(Some(val_type(alloc, text, bytes)?)),
        "entity_type" => Ok(Some(entity_type(alloc, text, bytes)?)),
        "group" => Ok(Some(group(alloc, text, bytes)?)),
        _ => Ok(None),
    }
}

/// What is written again, and what comes where that is read and written once more, if it is not the same.
pub fn answer(alloc: Global, call: &str, bytes: &[u8]) -> Result<Option<String>, Stop> {
    let mut first = String::new(alloc);
    let Some(out) = once(alloc, call, &mut first, bytes)? else {
        return Ok(None);
    };
    let mut second = String::new(alloc);
    once(alloc, call, &mut second, out.as_slice())?;
    if second.as_str() != first.as_str() {
        add_word(&mut first, "and then")?;
        add_word(&mut first, second.as_str())?;
    }
    Ok(Some(first))
}
