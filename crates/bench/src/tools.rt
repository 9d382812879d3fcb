//! The tools over modules, and what they stand on: a rule that leaves each index as it is.
use module_spaces::count_rows;
use reencode_core::reencode_by_rule;
use reencode_hooks::Shift;
use std::alloc::Global;
use wasm_leb::NoMemory;
use wasm_merge::merge;
use wasm_reach::prune;
use wasm_renumber::renumber;
use wasm_shapes::SectionId;

/// How many bytes a module has by a rule that leaves each index, and 0 where it is refused.
pub fn by_rule_len(alloc: Global, module: &[u8]) -> usize {
    match reencode_by_rule(alloc, Shift::default(), module, u32::MAX) {
        Ok(made) => made.len(),
        Err(_) => 0,
    }
}

/// So many functions from the last to the first.
fn opposite(alloc: Global, count: u32) -> Result<Vec<u32>, NoMemory> {
    let mut order = Vec::new(alloc);
    for place in 0..count {
        match order.push(count.saturating_sub(place).saturating_sub(1)) {
            Ok(()) => {}
            Err(_) => return Err(NoMemory),
        }
    }
    Ok(order)
}

/// How many bytes a module has with its functions in the opposite order, and 0 where it is refused.
pub fn renumbered_len(alloc: Global, module: &[u8]) -> Result<usize, NoMemory> {
    let order = opposite(alloc, count_rows(module, SectionId::Function).unwrap_or(0))?;
    match renumber(alloc, module, &order, u32::MAX) {
        Ok(made) => Ok(made.len()),
        Err(_) => Ok(0),
    }
}

/// How many bytes a module has without the functions that nothing reaches, and 0 where it is refused.
pub fn pruned_len(alloc: Global, module: &[u8]) -> usize {
    match prune(alloc, module, u32::MAX) {
        Ok(made) => made.bytes.len(),
        Err(_) => 0,
    }
}

/// How many bytes two modules have in one, and 0 where they are refused.
pub fn merged_len(alloc: Global, first: &[u8], second: &[u8]) -> usize {
    match merge(alloc, first, second, u32::MAX) {
        Ok(made) => made.len(),
        Err(_) => 0,
    }
}
