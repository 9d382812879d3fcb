//! What the functions of a module are asked for by, in one list.
ghost use Rattle.std.specs.Prelude.{◌≡◌, ◌≤◌, ◌++◌, ◌∷◌, [], IfOk, OnOk};
ghost use Rattle.std.specs.List.{slice_index_or};
ghost use Rattle.reencode_c.specs.Tools.{packed};

use std::alloc::Global;
use wasm_leb::NoMemory;
use wasm_reach::ModuleCalls;

/// The list of a place: the roots, and behind them what the body of each defined function asks for.
fn row(calls: &ModuleCalls, place: usize) -> &[u32]
    ensures { result.now ≡ slice_index_or (calls.now.roots ∷ calls.now.calls) place [] }
{
    match place.checked_sub(1) {
        Some(function) => calls.calls.calls(function),
        None => calls.roots.as_slice(),
    }
}

/// Adds a number. One that would pass 2^32 - 1 counts as out of memory.
fn add(list: &mut Vec<u32>, number: u64) -> Result<(), NoMemory>
    ensures below { OnOk result (number ≤ 4294967295) }
    ensures added { OnOk result (list.new.items ≡ list.old.items ++ number ∷ []) }
{
    if number > u32::MAX as u64 {
        return Err(NoMemory);
    }
    match list.push(number as u32) {
        Ok(()) => Ok(()),
        Err(_) => Err(NoMemory),
    }
}

/// Adds a list.
fn add_all(list: &mut Vec<u32>, row: &[u32]) -> Result<(), NoMemory>
    ensures { OnOk result (list.new.items ≡ list.old.items ++ row.now) }
{
    match list.extend_from_slice(row) {
        Ok(()) => Ok(()),
        Err(_) => Err(NoMemory),
    }
}

/// How many functions are imported, where each list begins and where the last ends, and the lists. A list of 2^32 numbers or more
/// counts as out of memory; no module of fewer than 2^32 bytes has it.
pub fn packed(alloc: Global, calls: &ModuleCalls) -> Result<Vec<u32>, NoMemory>
    ensures { IfOk result (λ list. list.items ≡ packed calls.now.imports (calls.now.roots ∷ calls.now.calls)) }
{
    let rows = calls.calls.len() + 1;
    let mut list = Vec::new(alloc);
    add(&mut list, calls.imports as u64)?;
    let mut start = rows as u64 + 2;
    'starts: for place in 0..rows {
        add(&mut list, start)?;
        start += row(calls, place).len() as u64;
    }
    add(&mut list, start)?;
    'lists: for place in 0..rows {
        add_all(&mut list, row(calls, place))?;
    }
    Ok(list)
}
