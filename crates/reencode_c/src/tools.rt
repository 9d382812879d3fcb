//! The tools over core modules, before they cross to C.
ghost use Rattle.std.specs.Prelude.{◌≡◌, ◌≢◌, ◌≤◌, ◌<◌, ◌⊎◌, length, take};
ghost use Rattle.reencode_c.specs.Ends.{bare};
ghost use Rattle.reencode_c.specs.Tools.{GivesCalls, Merges, Prunes, Renumbers};

use crate::calls::put;
use crate::outcome::Outcome;
use crate::packed::packed;
use crate::refusals::{tell_merge, tell_reach, tell_renumber};
use std::alloc::Global;

/// The module with its functions in another order.
pub fn renumber(
    alloc: Global,
    bytes: &[u8],
    order: &[u32],
    ceiling: u32,
    room: &mut [u8],
    outcome: &mut Outcome,
)
    ensures ends { Renumbers bytes.now order.now ceiling outcome.new room.new }
    ensures kept { outcome.new.status ≢ 0 → room.new ≡ room.old }
{
    match wasm_renumber::renumber(alloc, bytes, order, ceiling) {
        Ok(output) => put(output.as_slice(), room, outcome),
        Err(fault) => tell_renumber(fault, outcome),
    }
}

/// Puts an output and the kept functions into rooms for them, or says how much room they take.
fn put_both(
    output: &[u8],
    kept: &[u32],
    room: &mut [u8],
    kept_room: &mut [u32],
    outcome: &mut Outcome,
)
    ensures done { outcome.new.status ≡ 0 → (outcome.new ≡ record (bare 0) { length = length output.now; count = length kept.now })
        × (length output.now ≤ length room.new) × (take (length output.now) room.new ≡ output.now)
        × (length kept.now ≤ length kept_room.new) × (take (length kept.now) kept_room.new ≡ kept.now) }
    ensures small { outcome.new.status ≡ 16 → (outcome.new ≡ record (bare 16) { length = length output.now; count = length kept.now })
        × ((length room.new < length output.now) ⊎ (length kept_room.new < length kept.now)) }
    ensures kept { outcome.new.status ≢ 0 → (room.new ≡ room.old) × (kept_room.new ≡ kept_room.old) }
    ensures other { (outcome.new.status ≡ 0) ⊎ (outcome.new.status ≡ 16) }
{
    if output.len() > room.len() || kept.len() > kept_room.len() {
        outcome.too_small_both(output.len(), kept.len());
        return;
    }
    room[..output.len()].copy_from_slice(output);
    kept_room[..kept.len()].copy_from_slice(kept);
    outcome.done_both(output.len(), kept.len());
}

/// The module without the functions that nothing reaches, and which are kept.
pub fn prune(
    alloc: Global,
    bytes: &[u8],
    ceiling: u32,
    room: &mut [u8],
    kept_room: &mut [u32],
    outcome: &mut Outcome,
)
    ensures ends { Prunes bytes.now ceiling outcome.new room.new kept_room.new }
    ensures kept { outcome.new.status ≢ 0 → (room.new ≡ room.old) × (kept_room.new ≡ kept_room.old) }
{
    match wasm_reach::prune(alloc, bytes, ceiling) {
        Ok(made) => put_both(
            made.bytes.as_slice(),
            made.kept.as_slice(),
            room,
            kept_room,
            outcome,
        ),
        Err(fault) => tell_reach(fault, outcome),
    }
}

/// One module of two.
pub fn merge(
    alloc: Global,
    first: &[u8],
    second: &[u8],
    ceiling: u32,
    room: &mut [u8],
    outcome: &mut Outcome,
)
    ensures ends { Merges first.now second.now ceiling outcome.new room.old room.new }
    ensures kept { outcome.new.status ≢ 0 → outcome.new.status ≢ 19 → room.new ≡ room.old }
{
    match wasm_merge::merge(alloc, first, second, ceiling) {
        Ok(output) => put(output.as_slice(), room, outcome),
        Err(fault) => tell_merge(fault, room, outcome),
    }
}

/// What the functions of a module are asked for by.
pub fn calls(alloc: Global, bytes: &[u8], room: &mut [u32], outcome: &mut Outcome)
    ensures ends { GivesCalls bytes.now outcome.new room.new }
    ensures kept { outcome.new.status ≢ 0 → room.new ≡ room.old }
{
    match wasm_reach::call_graph(alloc, bytes) {
        Ok(calls) => match packed(alloc, &calls) {
            Ok(list) => put(list.as_slice(), room, outcome),
            Err(_) => outcome.no_memory(),
        },
        Err(fault) => tell_reach(fault, outcome),
    }
}
