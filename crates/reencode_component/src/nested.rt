//! A core module in a component: `component_utils` has it.
ghost use Rattle.std.specs.Prelude.{◌≤◌};
ghost use Rattle.reencode_component.specs.NestedClauses.{SubmoduleClauses};

use crate::component_methods::ReencodeComponent;
use reencode_hooks::Error;
use std::alloc::Global;
use wasm_leb::ReadError;
use wasm_write_component as w;

/// At most so many scopes are open within each other.
pub(crate) const DEPTH: u32 = 200;

/// Maps a core module, with so many scopes open round it, and adds it as a section: `push_depth`, then the method
/// `parse_core_module`, then `pop_depth`, which is not called where this is refused.
///
/// A `ParseError` holds the place in the module. With 200 scopes open it is the answer at once, with the place 0, and nothing is
/// read or asked. `TooLarge` also comes where the new module is longer than the component's ceiling.
pub fn parse_component_submodule<T: ReencodeComponent>(
    reencoder: &mut T,
    alloc: Global,
    component: &mut w::Component,
    bytes: &[u8],
    depth: u32,
) -> Result<(), Error<T::Error>>
    requires { depth ≤ 200 }
    ensures { SubmoduleClauses T.ReencodeIndices depth bytes.now
        reencoder.old «component».old reencoder.new «component».new result }
{
    if depth >= DEPTH {
        return Err(Error::ParseError(ReadError { at: 0 }));
    }
    let mut module = component.module_within(alloc, bytes.len())?;
    reencoder.push_depth()?;
    reencoder.parse_core_module(alloc, &mut module, bytes)?;
    reencoder.pop_depth();
    component.take_module(module)?;
    Ok(())
}
