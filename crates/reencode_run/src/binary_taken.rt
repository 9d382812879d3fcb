//! What a command takes.
ghost use Rattle.reencode_run.specs.Taken.{promised};

use reencode_component::{ReencodeComponent, reencode_within};
use reencode_core::reencode_core;
use reencode_hooks::Error;
use std::alloc::Global;

/// The kinds of binaries that a command takes.
#[derive(Clone, Copy, Debug, PartialEq, Eq)]
pub enum Taken {
    /// Core modules.
    Modules,
    /// Core modules, and components by their header.
    Binaries,
}

/// The bytes of the new binary.
pub fn reencode_taken<R: ReencodeComponent>(
    alloc: Global,
    taken: Taken,
    r: &mut R,
    bytes: &[u8],
    ceiling: u32,
) -> Result<Vec<u8>, Error<R::Error>>
    ensures { promised taken R.ReencodeIndices (λ v. v.items) ceiling bytes.now r.old r.new result }
{
    match taken {
        Taken::Modules => reencode_core(alloc, r, bytes, ceiling),
        Taken::Binaries => reencode_within(alloc, r, bytes, ceiling),
    }
}
