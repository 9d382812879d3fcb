//! The re-encoding under the renamings of a command.
ghost use Rattle.std.specs.Prelude.{IfOk, IfErr};
ghost use Rattle.reencode_run.specs.Reencoded.{IsMakingFault, IsReencoded, IsRefused};
ghost use Rattle.reencode_run.specs.Renamers.{AreCounts, counts_in};

use crate::answer::{ReencodingFault, reencoding_fault};
use crate::binary_taken::{Taken, reencode_taken};
use crate::renamers::Renamers;
use reencode_hooks::{Chain, Renamer};
use std::alloc::Global;

/// The output that is made of some bytes under one renaming and a ceiling, and the renamer behind it.
fn by_one(
    alloc: Global,
    taken: Taken,
    renamer: Renamer,
    bytes: &[u8],
    ceiling: u32,
) -> Result<(Vec<u8>, Renamers), ReencodingFault>
    ensures ok { IfOk result (λ made. IsReencoded taken ceiling (Renamers.Alone renamer) bytes.now
        made.0.items (counts_in made.1)) }
    ensures counts { AreCounts (Renamers.Alone renamer) → IfOk result (λ made. AreCounts made.1) }
    ensures refused { IfErr result
        (λ fault. IsRefused taken ceiling (Renamers.Alone renamer) bytes.now fault) }
    ensures made { IfErr result
        (λ fault. IsMakingFault taken ceiling (Renamers.Alone renamer) bytes.now fault) }
{
    let mut renamer = renamer;
    match reencode_taken(alloc, taken, &mut renamer, bytes, ceiling) {
        Ok(output) => Ok((output, Renamers::Alone(renamer))),
        Err(e) => Err(reencoding_fault(e, ceiling)),
    }
}

/// The output that is made of some bytes under two renamings, one after the other, and a ceiling, and the renamers behind it.
fn by_both(
    alloc: Global,
    taken: Taken,
    both: Chain<Renamer, Renamer>,
    bytes: &[u8],
    ceiling: u32,
) -> Result<(Vec<u8>, Renamers), ReencodingFault>
    ensures ok { IfOk result (λ made. IsReencoded taken ceiling (Renamers.Both both) bytes.now
        made.0.items (counts_in made.1)) }
    ensures counts { AreCounts (Renamers.Both both) → IfOk result (λ made. AreCounts made.1) }
    ensures refused { IfErr result
        (λ fault. IsRefused taken ceiling (Renamers.Both both) bytes.now fault) }
    ensures made { IfErr result (λ fault. IsMakingFault taken ceiling (Renamers.Both both) bytes.now fault) }
{
    let mut both = both;
    match reencode_taken(alloc, taken, &mut both, bytes, ceiling) {
        Ok(output) => Ok((output, Renamers::Both(both))),
        Err(e) => Err(reencoding_fault(e, ceiling)),
    }
}

/// The output that is made of some bytes under the renamings of a command and a ceiling, and the renamers with how often each
/// hook of theirs was called for it.
pub fn reencoded(
    alloc: Global,
    taken: Taken,
    renamers: Renamers,
    bytes: &[u8],
    ceiling: u32,
) -> Result<(Vec<u8>, Renamers), ReencodingFault>
    ensures ok { IfOk result
        (λ made. IsReencoded taken ceiling renamers bytes.now made.0.items (counts_in made.1)) }
    ensures counts { AreCounts renamers → IfOk result (λ made. AreCounts made.1) }
    ensures refused { IfErr result (λ fault. IsRefused taken ceiling renamers bytes.now fault) }
    ensures made { IfErr result (λ fault. IsMakingFault taken ceiling renamers bytes.now fault) }
{
    match renamers {
        Renamers::Alone(renamer) => by_one(alloc, taken, renamer, bytes, ceiling),
        Renamers::Both(both) => by_both(alloc, taken, both, bytes, ceiling),
    }
}
