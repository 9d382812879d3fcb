//! Tells refusals of the tools over core modules.
ghost use Rattle.std.specs.Prelude.{◌≡◌, ◌≢◌, length};
ghost use Rattle.reencode_c.specs.Ends.{bare};
ghost use Rattle.reencode_c.specs.Refusals.{IsNamed, TellsMerge, TellsReach, TellsRenumber};

use crate::outcome::Outcome;
use wasm_merge::MergeFault;
use wasm_reach::ReachFault;
use wasm_renumber::RenumberFault;
use wasm_shapes::Space;

/// Says why functions are not renumbered.
pub fn tell_renumber(fault: RenumberFault, outcome: &mut Outcome)
    ensures { TellsRenumber fault outcome.new }
{
    match fault {
        RenumberFault::Core(e) => outcome.core(0, e),
        RenumberFault::Repeated { id } => outcome.repeated(0, id),
        RenumberFault::Uneven { functions, bodies } => outcome.uneven(0, functions, bodies),
        RenumberFault::NotAnOrder { place } => outcome.not_an_order(place),
        RenumberFault::NoMemory => outcome.no_memory(),
    }
}

/// Says why no functions are removed, and no calls told.
pub fn tell_reach(fault: ReachFault, outcome: &mut Outcome)
    ensures { TellsReach fault outcome.new }
{
    match fault {
        ReachFault::Core(e) => outcome.core(0, e),
        ReachFault::Repeated { id } => outcome.repeated(0, id),
        ReachFault::Uneven { functions, bodies } => outcome.uneven(0, functions, bodies),
        ReachFault::Dangling { index } => outcome.dangling(0, Space::Function, index),
        ReachFault::NoMemory => outcome.no_memory(),
    }
}

/// Puts the name that two modules export into room for it, or leaves that as it is, and says how long the name is.
fn name_clash(name: &[u8], room: &mut [u8], outcome: &mut Outcome)
    ensures told { outcome.new ≡ record (bare 19) { length = length name.now } }
    ensures named { IsNamed name.now room.old room.new }
{
    if name.len() <= room.len() {
        room[..name.len()].copy_from_slice(name);
    }
    outcome.export_clash(name.len());
}

/// Says why two modules are not merged.
pub fn tell_merge(fault: MergeFault, room: &mut [u8], outcome: &mut Outcome)
    ensures told { TellsMerge fault outcome.new room.old room.new }
    ensures kept { outcome.new.status ≢ 19 → room.new ≡ room.old }
{
    match fault {
        MergeFault::Core { by, error } => outcome.core(by, error),
        MergeFault::Repeated { by, id } => outcome.repeated(by, id),
        MergeFault::Uneven { by, stated, rows } => outcome.uneven(by, stated, rows),
        MergeFault::Dangling { by, space, index } => outcome.dangling(by, space, index),
        MergeFault::TwoStarts => outcome.two_starts(),
        MergeFault::Clash { name } => name_clash(name.as_slice(), room, outcome),
        MergeFault::TooLarge { size } => outcome.too_large(size),
        MergeFault::NoMemory => outcome.no_memory(),
    }
}
