//! The calls of a module's functions.
ghost use Rattle.std.specs.Prelude.{◌+◌, ◌<◌, length, IfErr, IfOk};
ghost use Rattle.wasm_reach.specs.Checks.{IsWhy};
ghost use Rattle.wasm_reach.specs.Graph.{AreCalls, AreTold};

use crate::checks::refusal;
use crate::fault::ReachFault;
use crate::once::at_once;
use call_graph::CallGraph;
use std::alloc::Global;
use wasm_leb::List;

/// What a module's functions are asked for by. All are told by their indices, as often as they are asked for, in that order.
#[derive(Drop)]
pub struct ModuleCalls {
    /// How many functions are imported: those of these indices.
    pub imports: u32,
    /// The roots: what the sections of known kinds but that of code ask for. Exports, the start, elements, and the initial values
    /// of globals, tables and segments do; names are no use of a function.
    pub roots: List<u32>,
    /// Behind the imported functions each one that is defined, with what its body asks for.
    pub calls: CallGraph,
}

/// The functions that a module's sections and the bodies of its functions ask for, by calls, references and any other operator.
///
/// Refusals are found in the order of the enum, and none is of a size. With `mark_reached` of `call_graph` these are the functions
/// that `prune` keeps.
pub fn call_graph(alloc: Global, bytes: &[u8]) -> Result<ModuleCalls, ReachFault>
    ensures ok { IfOk result (λ c. AreCalls bytes.now c.imports c.roots c.calls) }
    ensures few { IfOk result (λ c. c.imports + length c.calls < 4294967295) }
    ensures err { IfErr result (IsWhy bytes.now) }
    ensures made { IfErr result (AreTold bytes.now) }
{
    match at_once(alloc, bytes) {
        Some(calls) => Ok(calls),
        None => Err(refusal(alloc, bytes)),
    }
}
