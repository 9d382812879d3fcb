//! The parts of a module.
use crate::bodies::{add_operators, body};
use crate::groups::group;
use crate::numbers::{found, front, read};
use crate::stop::Stop;
use std::alloc::Global;
use wasm_read::{ConstExpr, front_name, read_item, read_name, read_type_ref, read_val_type};

/// An item that an index and its kind name.
fn item(alloc: Global, bytes: &[u8], at: usize) -> Result<Option<String>, Stop> {
    let (kind, index, at) = read_item(bytes, at)?;
    found(alloc, (kind, index), at)
}

/// The operators of a constant expression up to the first refusal.
fn expression(alloc: Global, bytes: &[u8]) -> Result<String, Stop> {
    let expr = ConstExpr::new(bytes)?;
    let mut text = String::new(alloc);
    add_operators(alloc, &mut text, expr.get_operators_reader())?;
    Ok(text)
}

/// What a reader of operators or of a group gives.
fn of_lists(alloc: Global, call: &str, bytes: &[u8], at: usize) -> Result<Option<String>, Stop> {
    match call {
        "read_group" => Ok(Some(group(alloc, bytes, at)?)),
        "body" => Ok(Some(body(alloc, bytes)?)),
        "expression" => Ok(Some(expression(alloc, bytes)?)),
        _ => Ok(None),
    }
}

/// What a reader of a part of a module gives.
pub fn answer(alloc: Global, call: &str, bytes: &[u8], at: usize) -> Result<Option<String>, Stop> {
    match call {
        "read_name" => read(alloc, read_name(bytes, at)),
        "front_name" => front(alloc, front_name(bytes)),
        "read_val_type" => read(alloc, read_val_type(bytes, at)),
        "read_type_ref" => read(alloc, read_type_ref(bytes, at)),
        "read_item" => item(alloc, bytes, at),
        _ => of_lists(alloc, call, bytes, at),
    }
}
