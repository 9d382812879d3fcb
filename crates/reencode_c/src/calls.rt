//! The calls, before they cross to C.
ghost use Rattle.std.specs.Prelude.{◌≡◌, ◌≢◌, ◌<◌, ◌≤◌, ◌⊎◌, All, length};
ghost use Rattle.reencode_c.specs.Ends.{Ends, IsErrorOf, IsPut, IsTooSmall, bare, hooks_by};
ghost use Rattle.reencode_c.specs.Entries.{HasSpace, IsBadRenaming, renaming_reply};
ghost use Rattle.reencode_c.specs.Outputs.{AreVisits, IsAnswered, IsMiscounted, IsRenamed};
ghost use Rattle.reencode_c.specs.Visits.{answers_next, answers_reply, lister_next, lister_reply, listing_none, tally};

use crate::answers::Answers;
use crate::entries::{ByEntries, by_entries};
use crate::modules::{is_module, listed_module};
use crate::outcome::{Entry, ListedVisit, Outcome};
use crate::visits::Lister;
use reencode_component::output_within;
use reencode_core::Output;
use std::alloc::Global;

/// Puts an output into room for it, or says how much room it takes.
pub fn put<T: Copy>(output: &[T], room: &mut [T], outcome: &mut Outcome)
    ensures done { outcome.new.status ≡ 0 → IsPut outcome.new room.new output.now }
    ensures small { outcome.new.status ≡ 16
        → IsTooSmall outcome.new room.new (tally (length output.now)) }
    ensures kept { outcome.new.status ≢ 0 → room.new ≡ room.old }
    ensures other { (outcome.new.status ≡ 0) ⊎ (outcome.new.status ≡ 16) }
{
    if output.len() > room.len() {
        outcome.too_small(output.len());
        return;
    }
    room[..output.len()].copy_from_slice(output);
    outcome.done(output.len());
}

/// Puts an output that is not yet in one place into room for it, or says how much room it takes.
fn put_output(output: &Output<'_>, room: &mut [u8], outcome: &mut Outcome)
    ensures done { outcome.new.status ≡ 0 → IsPut outcome.new room.new output.now }
    ensures small { outcome.new.status ≡ 16
        → IsTooSmall outcome.new room.new (tally (length output.now)) }
    ensures kept { outcome.new.status ≢ 0 → room.new ≡ room.old }
    ensures other { (outcome.new.status ≡ 0) ⊎ (outcome.new.status ≡ 16) }
{
    let len = output.len() as usize;
    if len > room.len() {
        outcome.too_small(len);
        return;
    }
    output.copy_to(&mut room[..len]);
    outcome.done(len);
}

/// Puts a list of so many visits, in room of the same length, into the room, or says how much room it takes.
fn put_list(list: &[ListedVisit], count: u64, room: &mut [ListedVisit], outcome: &mut Outcome)
    requires { length list.now ≡ length room.old }
    ensures done { outcome.new.status ≡ 0 → (room.new ≡ list.now)
        × (outcome.new ≡ record (bare 0) { length = count })
        × (count ≤ length list.now) × (count < 18446744073709551615) }
    ensures small { outcome.new.status ≡ 16 → IsTooSmall outcome.new room.new count }
    ensures kept { outcome.new.status ≢ 0 → room.new ≡ room.old }
    ensures other { (outcome.new.status ≡ 0) ⊎ (outcome.new.status ≡ 16) }
{
    if count > room.len() as u64 {
        outcome.too_small(count as usize);
        return;
    }
    room.copy_from_slice(list);
    outcome.done(count as usize);
}

/// The bytes again, by the reencoder of some entries.
fn rename_by(
    alloc: Global,
    reencoder: ByEntries<'_>,
    bytes: &[u8],
    ceiling: u32,
    room: &mut [u8],
    outcome: &mut Outcome,
)
    ensures ends { Ends (IsRenamed reencoder.entry ceiling bytes.now)
        (IsBadRenaming reencoder.entry.entries outcome.new) ⊥
        (IsErrorOf (hooks_by renaming_reply (λ r _. r)) reencoder.entry ceiling bytes.now)
        outcome.new room.new outcome.new.status }
    ensures kept { outcome.new.status ≢ 0 → room.new ≡ room.old }
{
    let mut reencoder = reencoder;
    match output_within(alloc, &mut reencoder, bytes, ceiling) {
        Ok(output) => put_output(&output, room, outcome),
        Err(e) => outcome.fail(e),
    }
}

/// The bytes again, with the indices renamed by entries.
pub fn rename(
    alloc: Global,
    bytes: &[u8],
    entries: &[Entry],
    strict: bool,
    ceiling: u32,
    room: &mut [u8],
    outcome: &mut Outcome,
)
    ensures ends { Ends
        (IsRenamed (record { entries = entries.now; strict = strict }) ceiling bytes.now)
        (IsBadRenaming entries.now outcome.new) ⊥
        (IsErrorOf (hooks_by renaming_reply (λ r _. r))
        (record { entries = entries.now; strict = strict }) ceiling bytes.now)
        outcome.new room.new outcome.new.status }
    ensures known { outcome.new.status ≢ 1 → outcome.new.status ≢ 11 → All HasSpace entries.now }
    ensures kept { outcome.new.status ≢ 0 → room.new ≡ room.old }
{
    match by_entries(alloc, entries, strict) {
        Ok(reencoder) => rename_by(alloc, reencoder, bytes, ceiling, room, outcome),
        Err(fault) => fault.tell(outcome),
    }
}

/// The visits of the bytes, in order, by a lister with as much room. Those of a core module are not put, since their rows are not told:
/// these count as out of memory.
fn visits_by(
    alloc: Global,
    lister: Lister,
    bytes: &[u8],
    room: &mut [ListedVisit],
    outcome: &mut Outcome,
)
    requires begun { lister ≡ listing_none (length room.old) }
    ensures ends { Ends (AreVisits bytes.now) ⊥ ⊥
        (IsErrorOf (hooks_by lister_reply lister_next) lister 4294967295 bytes.now)
        outcome.new room.new outcome.new.status }
    ensures kept { outcome.new.status ≢ 0 → room.new ≡ room.old }
{
    let mut lister = lister;
    match output_within(alloc, &mut lister, bytes, u32::MAX) {
        Ok(_) => {
            if is_module(bytes) {
                outcome.no_memory();
            } else {
                put_list(lister.list(), lister.count(), room, outcome);
            }
        }
        Err(e) => outcome.fail(e),
    }
}

/// The visits of the bytes, in order, with their places: of a core module by its rows, where memory is found.
pub fn visits(alloc: Global, bytes: &[u8], room: &mut [ListedVisit], outcome: &mut Outcome)
    ensures ends { Ends (AreVisits bytes.now) ⊥ ⊥
        (IsErrorOf (hooks_by lister_reply lister_next) (listing_none (length room.old)) 4294967295
        bytes.now) outcome.new room.new outcome.new.status }
    ensures kept { outcome.new.status ≢ 0 → room.new ≡ room.old }
{
    if let Some(lister) = listed_module(alloc, bytes, room.len()) {
        put_list(lister.list(), lister.count(), room, outcome);
        return;
    }
    match Lister::new(alloc, room.len()) {
        Ok(lister) => visits_by(alloc, lister, bytes, room, outcome),
        Err(_) => outcome.no_memory(),
    }
}

/// The bytes again, by the reencoder of some answers.
fn answer_by(
    alloc: Global,
    reencoder: Answers<'_>,
    bytes: &[u8],
    ceiling: u32,
    room: &mut [u8],
    outcome: &mut Outcome,
)
    requires { reencoder.count ≡ 0 }
    ensures ends { Ends (IsAnswered reencoder.entry.left ceiling bytes.now) ⊥
        (IsMiscounted reencoder.entry.left ceiling bytes.now outcome.new.length)
        (IsErrorOf (hooks_by answers_reply answers_next) reencoder.entry ceiling bytes.now)
        outcome.new room.new outcome.new.status }
    ensures kept { outcome.new.status ≢ 0 → room.new ≡ room.old }
{
    let mut reencoder = reencoder;
    let answers = reencoder.left();
    match output_within(alloc, &mut reencoder, bytes, ceiling) {
        Ok(output) => {
            if reencoder.count() == answers as u64 {
                put_output(&output, room, outcome);
            } else {
                outcome.miscounted(reencoder.count() as usize);
            }
        }
        Err(e) => outcome.fail(e),
    }
}

/// The bytes again, with these answers to its visits, in order.
pub fn answer(
    alloc: Global,
    bytes: &[u8],
    answers: &[u32],
    ceiling: u32,
    room: &mut [u8],
    outcome: &mut Outcome,
)
    ensures ends { Ends (IsAnswered answers.now ceiling bytes.now) ⊥
        (IsMiscounted answers.now ceiling bytes.now outcome.new.length)
        (IsErrorOf (hooks_by answers_reply answers_next)
        (record { left = answers.now; count = 0 }) ceiling bytes.now)
        outcome.new room.new outcome.new.status }
    ensures kept { outcome.new.status ≢ 0 → room.new ≡ room.old }
{
    answer_by(alloc, Answers::new(answers), bytes, ceiling, room, outcome);
}
