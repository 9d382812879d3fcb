//! The re-encoding of a core module or a component, and the tools over core modules, for programs in C.
//!
//! Each call puts what it makes into room of the caller's, and hands out no memory. Where the status is 0, the front of the
//! room of `length` is the output, and what stands behind that may be overwritten; with every other status the room is as it was,
//! but that a merge with status 19 puts there the name that both modules export.
#![tactic(auto)]

ghost use Rattle.std.specs.Prelude.{◌≡◌, ◌≢◌, [], All, false, not, length, nat_eq};
ghost use Rattle.reencode_c.specs.Ends.{Ends, IsErrorOf, hooks_by};
ghost use Rattle.reencode_c.specs.Entries.{HasSpace, IsBadRenaming, renaming_reply};
ghost use Rattle.reencode_c.specs.Outputs.{AreVisits, IsAnswered, IsMiscounted, IsPlain, IsRenamed};
ghost use Rattle.reencode_c.specs.Tools.{GivesCalls, Merges, Prunes, Renumbers};
ghost use Rattle.reencode_c.specs.Visits.{answers_next, answers_reply, lister_next, lister_reply, listing_none};

mod answers;
mod calls;
mod entries;
mod modules;
mod outcome;
mod packed;
mod places;
mod refusals;
mod rows;
mod tools;
mod visits;

use crate::outcome::{Entry, ListedVisit, Outcome};
use std::alloc::Global;

/// The bytes again, with no index renamed.
#[unsafe(no_mangle)]
pub extern "C" fn reencode_raw_plain(
    alloc: Global,
    bytes: &[u8],
    ceiling: u32,
    room: &mut [u8],
    outcome: &mut Outcome,
) -> u32
    ensures status { result ≡ outcome.new.status }
    ensures ends { Ends (IsPlain ceiling bytes.now) ⊥ ⊥
        (IsErrorOf (hooks_by renaming_reply (λ r _. r)) (record { entries = []; strict = false }) ceiling bytes.now)
        outcome.new room.new result }
    ensures kept { result ≢ 0 → room.new ≡ room.old }
{
    calls::rename(alloc, bytes, &[], false, ceiling, room, outcome);
    outcome.status
}

/// The bytes again, with the indices renamed by entries. Where `strict` is not 0, an index of a core module without an entry is
/// refused.
#[unsafe(no_mangle)]
pub extern "C" fn reencode_raw_rename(
    alloc: Global,
    bytes: &[u8],
    entries: &[Entry],
    strict: u32,
    ceiling: u32,
    room: &mut [u8],
    outcome: &mut Outcome,
) -> u32
    ensures status { result ≡ outcome.new.status }
    ensures ends { Ends (IsRenamed (record { entries = entries.now; strict = not (nat_eq strict 0) }) ceiling bytes.now)
        (IsBadRenaming entries.now outcome.new) ⊥
        (IsErrorOf (hooks_by renaming_reply (λ r _. r)) (record { entries = entries.now; strict = not (nat_eq strict 0) }) ceiling bytes.now)
        outcome.new room.new result }
    ensures known { result ≢ 1 → result ≢ 11 → All HasSpace entries.now }
    ensures kept { result ≢ 0 → room.new ≡ room.old }
{
    calls::rename(alloc, bytes, entries, strict != 0, ceiling, room, outcome);
    outcome.status
}

/// The visits of the bytes, in order, with their places.
#[unsafe(no_mangle)]
pub extern "C" fn reencode_raw_visits(
    alloc: Global,
    bytes: &[u8],
    room: &mut [ListedVisit],
    outcome: &mut Outcome,
) -> u32
    ensures status { result ≡ outcome.new.status }
    ensures ends { Ends (AreVisits bytes.now) ⊥ ⊥
        (IsErrorOf (hooks_by lister_reply lister_next) (listing_none (length room.old)) 4294967295 bytes.now)
        outcome.new room.new result }
    ensures kept { result ≢ 0 → room.new ≡ room.old }
{
    calls::visits(alloc, bytes, room, outcome);
    outcome.status
}

/// The bytes again, with these answers to its visits, in order.
#[unsafe(no_mangle)]
pub extern "C" fn reencode_raw_answer(
    alloc: Global,
    bytes: &[u8],
    answers: &[u32],
    ceiling: u32,
    room: &mut [u8],
    outcome: &mut Outcome,
) -> u32
    ensures status { result ≡ outcome.new.status }
    ensures ends { Ends (IsAnswered answers.now ceiling bytes.now) ⊥
        (IsMiscounted answers.now ceiling bytes.now outcome.new.length)
        (IsErrorOf (hooks_by answers_reply answers_next)
        (record { left = answers.now; count = 0 }) ceiling bytes.now)
        outcome.new room.new result }
    ensures kept { result ≢ 0 → room.new ≡ room.old }
{
    calls::answer(alloc, bytes, answers, ceiling, room, outcome);
    outcome.status
}

/// The bytes of a core module with its defined functions in another order, the j-th where the order's j-th number says.
#[unsafe(no_mangle)]
pub extern "C" fn reencode_raw_renumber(
    alloc: Global,
    bytes: &[u8],
    order: &[u32],
    ceiling: u32,
    room: &mut [u8],
    outcome: &mut Outcome,
) -> u32
    ensures status { result ≡ outcome.new.status }
    ensures ends { Renumbers bytes.now order.now ceiling outcome.new room.new }
    ensures kept { result ≢ 0 → room.new ≡ room.old }
{
    tools::renumber(alloc, bytes, order, ceiling, room, outcome);
    outcome.status
}

/// The bytes of a core module without the functions that nothing reaches, and the defined functions that are kept, by their old
/// indices, rising.
#[unsafe(no_mangle)]
pub extern "C" fn reencode_raw_prune(
    alloc: Global,
    bytes: &[u8],
    ceiling: u32,
    room: &mut [u8],
    kept_room: &mut [u32],
    outcome: &mut Outcome,
) -> u32
    ensures status { result ≡ outcome.new.status }
    ensures ends { Prunes bytes.now ceiling outcome.new room.new kept_room.new }
    ensures kept { result ≢ 0 → (room.new ≡ room.old) × (kept_room.new ≡ kept_room.old) }
{
    tools::prune(alloc, bytes, ceiling, room, kept_room, outcome);
    outcome.status
}

/// The one core module of two.
#[unsafe(no_mangle)]
pub extern "C" fn reencode_raw_merge(
    alloc: Global,
    first: &[u8],
    second: &[u8],
    ceiling: u32,
    room: &mut [u8],
    outcome: &mut Outcome,
) -> u32
    ensures status { result ≡ outcome.new.status }
    ensures ends { Merges first.now second.now ceiling outcome.new room.old room.new }
    ensures kept { result ≢ 0 → result ≢ 19 → room.new ≡ room.old }
{
    tools::merge(alloc, first, second, ceiling, room, outcome);
    outcome.status
}

/// What the functions of a core module are asked for by: how many are imported, where each list begins in the room and where the last
/// ends, and the lists: first the roots, then of each defined function what its body asks for.
#[unsafe(no_mangle)]
pub extern "C" fn reencode_raw_calls(
    alloc: Global,
    bytes: &[u8],
    room: &mut [u32],
    outcome: &mut Outcome,
) -> u32
    ensures status { result ≡ outcome.new.status }
    ensures ends { GivesCalls bytes.now outcome.new room.new }
    ensures kept { result ≢ 0 → room.new ≡ room.old }
{
    tools::calls(alloc, bytes, room, outcome);
    outcome.status
}
