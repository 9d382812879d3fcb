//! What is wrong with a JSON text that says no renaming, or no order.
ghost use Rattle.std.specs.Prelude.{option_map, string_bytes, IfOk};
ghost use Rattle.serde_json.specs.View.{members_view, view};
ghost use Rattle.wasm_reencode.specs.Json.{Fits, TellsEntry, TellsFirst, TellsMember, TellsOrder, TellsRenaming, order_said, renaming_said};

use reencode_run::index::{index_of, whole_of};
use reencode_run::renaming::space_of;
use serde_json::{Map, Value};
use std::alloc::{AllocError, Global};

/// What is wrong with an entry of a space, or nothing.
fn wrong_entry(
    alloc: Global,
    space: &str,
    key: &str,
    value: &Value,
) -> Result<Option<String>, AllocError>
    ensures { IfOk result (λ wrong. TellsEntry space.now key.now (view value.now) (option_map string_bytes wrong)) }
{
    match (index_of(key), whole_of(value)) {
        (Some(_), Some(_)) => Ok(None),
        (Some(_), None) => Ok(Some(format!(in alloc; "key {key:?} of {space:?}: no new index")?)),
        (None, _) => Ok(Some(format!(in alloc; "key {key:?} of {space:?}: no old index")?)),
    }
}

/// What is wrong with the entries of a space, or nothing.
fn wrong_entries(
    alloc: Global,
    space: &str,
    entries: &Map<String, Value>,
) -> Result<Option<String>, AllocError>
    ensures { IfOk result (λ wrong. TellsFirst (TellsEntry space.now) (members_view entries.now.entries)
        (option_map string_bytes wrong)) }
{
    for (key, value) in entries.iter() {
        if let Some(wrong) = wrong_entry(alloc, space, key.as_str(), value)? {
            return Ok(Some(wrong));
        }
    }
    Ok(None)
}

/// What is wrong with a member of a renaming, or nothing.
fn wrong_member(alloc: Global, key: &str, value: &Value) -> Result<Option<String>, AllocError>
    ensures { IfOk result (λ wrong. TellsMember key.now (view value.now) (option_map string_bytes wrong)) }
{
    if key == "strict" {
        return match value.as_bool() {
            Some(_) => Ok(None),
            None => Ok(Some(format!(in alloc; "key {key:?}: neither true nor false")?)),
        };
    }
    match (space_of(key), value.as_object()) {
        (Some(_), Some(entries)) => wrong_entries(alloc, key, entries),
        (Some(_), None) => Ok(Some(format!(in alloc; "key {key:?}: no object")?)),
        (None, _) => Ok(Some(format!(in alloc; "key {key:?}: no space")?)),
    }
}

/// What is wrong with a value that is to be a renaming, or nothing.
pub fn wrong_renaming(alloc: Global, value: &Value) -> Result<Option<String>, AllocError>
    ensures told { IfOk result (λ wrong. TellsRenaming (view value.now) (option_map string_bytes wrong)) }
    // Nothing is said only of a renaming.
    ensures fits { IfOk result (λ wrong. Fits (renaming_said (view value.now)) (option_map string_bytes wrong)) }
{
    let Some(members) = value.as_object() else {
        return Ok(Some(String::from_str(alloc, "no object")?));
    };
    for (key, value) in members.iter() {
        if let Some(wrong) = wrong_member(alloc, key.as_str(), value)? {
            return Ok(Some(wrong));
        }
    }
    Ok(None)
}

/// What is wrong with a value that is to be an order, or nothing.
pub fn wrong_order(alloc: Global, value: &Value) -> Result<Option<String>, AllocError>
    ensures told { IfOk result (λ wrong. TellsOrder (view value.now) (option_map string_bytes wrong)) }
    // Nothing is said only of an order.
    ensures fits { IfOk result (λ wrong. Fits (order_said (view value.now)) (option_map string_bytes wrong)) }
{
    let Some(values) = value.as_array() else {
        return Ok(Some(String::from_str(alloc, "no array")?));
    };
    'places: for place in 0..values.len() {
        let Some(_) = whole_of(&values[place]) else {
            return Ok(Some(format!(in alloc; "place {place}: no index")?));
        };
    }
    Ok(None)
}
