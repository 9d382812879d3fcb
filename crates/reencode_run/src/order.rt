//! An order as a text.
ghost use Rattle.std.specs.Prelude.{◌≡◌, IfOk, IsErrOf, [], Some, None};
ghost use Rattle.serde_json.specs.View.{items_view};
ghost use Rattle.reencode_run.specs.Orders.{IsOrderText, NoOrderText, numbers_from};

use crate::index::whole_of;
use crate::renaming::RenamingFault;
use serde_json::Value;
use std::alloc::Global;
use wasm_leb::List;

/// The numbers that values are.
fn numbers_of(alloc: Global, values: &[Value]) -> Result<List<u32>, RenamingFault>
    ensures ok { IfOk result (λ numbers. numbers_from [] (items_view values.now) ≡ Some numbers) }
    ensures bad { IsErrOf result RenamingFault.Bad → numbers_from [] (items_view values.now) ≡ None }
{
    let mut numbers = List::new(alloc);
    for value in values.iter() {
        let Some(number) = whole_of(value) else {
            return Err(RenamingFault::Bad);
        };
        match numbers.push(number) {
            Ok(()) => {}
            Err(_) => return Err(RenamingFault::NoMemory),
        }
    }
    Ok(numbers)
}

/// The order that a JSON text says: an array of whole numbers below 2^32.
pub fn order_of(alloc: Global, text: &[u8]) -> Result<List<u32>, RenamingFault>
    ensures ok { IfOk result (λ order. IsOrderText text.now order) }
    ensures bad { IsErrOf result RenamingFault.Bad → NoOrderText text.now }
{
    let value = match Value::from_slice(alloc, text) {
        Ok(value) => value,
        Err(e) if e.is_memory() => return Err(RenamingFault::NoMemory),
        Err(_) => return Err(RenamingFault::Bad),
    };
    match value.as_array() {
        Some(values) => numbers_of(alloc, values.as_slice()),
        None => Err(RenamingFault::Bad),
    }
}
