//! Whole components.
ghost use Rattle.std.specs.Prelude.{◌≤◌};
ghost use Rattle.wasm_shapes.specs.Module.{numbered_frame};
ghost use Rattle.reencode_component.specs.ComponentClauses.{ComponentClauses, FrameClauses};
ghost use Rattle.reencode_component.specs.NestedClauses.{PayloadClauses, SubcomponentClauses};

use crate::component_methods::ReencodeComponent;
use crate::component_sections::{numbered, placed};
use crate::nested::{DEPTH, parse_component_submodule};
use reencode_hooks::Error;
use std::alloc::Global;
use wasm_leb::ReadError;
use wasm_read_component as r;
use wasm_write_component as w;

/// Reads a component, with so many scopes open round it, and adds what its sections become, each by `parse_component_payload`.
///
/// Neither section hook is called at a section of a component. A `ParseError` holds the place of the section in fault, counted
/// from the first byte of the header. No `pop_depth` follows an error inside a nested section: depths that were pushed stay pushed.
#[cycle(components)]
pub fn parse_component<T: ReencodeComponent>(
    reencoder: &mut T,
    alloc: Global,
    component: &mut w::Component,
    bytes: &[u8],
    depth: u32,
) -> Result<(), Error<T::Error>>
    requires { depth ≤ 200 }
    ensures { ComponentClauses T.ReencodeIndices depth bytes.now
        reencoder.old «component».old reencoder.new «component».new result }
{
    let mut payloads = r::ComponentPayloads::new(bytes)?;
    'sections: loop {
        match payloads.next()? {
            Some(payload) => {
                match parse_component_payload(reencoder, alloc, component, payload, depth) {
                    Ok(()) => {}
                    Err(e) => return Err(e),
                }
            }
            None => return Ok(()),
        }
    }
}

/// Maps a section of a component by the method of its kind, with so many scopes open round it, and adds it: a core module by
/// `parse_component_submodule`, a component by `parse_component_subcomponent`, and a custom section by
/// `parse_component_custom_section`.
///
/// A `ParseError` holds the place of the payload. `UnexpectedNonComponentSection` also comes for a section of a core module.
#[cycle(components)]
pub fn parse_component_payload<T: ReencodeComponent>(
    reencoder: &mut T,
    alloc: Global,
    component: &mut w::Component,
    payload: r::ComponentPayload<'_>,
    depth: u32,
) -> Result<(), Error<T::Error>>
    requires { depth ≤ 200 }
    ensures { PayloadClauses T.ReencodeIndices depth payload.entry
        reencoder.old «component».old reencoder.new «component».new result }
{
    match payload {
        r::ComponentPayload::Core(_) => Err(Error::UnexpectedNonComponentSection),
        r::ComponentPayload::Section { id, at, body } => {
            section(reencoder, alloc, component, id, at, body, depth)
        }
        r::ComponentPayload::Module { at, bytes } => {
            let mapped = parse_component_submodule(reencoder, alloc, component, bytes, depth);
            placed(mapped, at)
        }
        r::ComponentPayload::Component { at, bytes } => {
            let mapped = parse_component_subcomponent(reencoder, alloc, component, bytes, depth);
            placed(mapped, at)
        }
        r::ComponentPayload::Custom { at, section } => {
            let mapped = reencoder.parse_component_custom_section(alloc, component, section);
            placed(mapped, at)
        }
        r::ComponentPayload::Unknown { at, id, contents } => {
            section(reencoder, alloc, component, id, at, contents, depth)
        }
    }
}

/// A section by its id and what its frame holds.
#[cycle(components)]
fn section<T: ReencodeComponent>(
    reencoder: &mut T,
    alloc: Global,
    component: &mut w::Component,
    id: u8,
    at: usize,
    body: &[u8],
    depth: u32,
) -> Result<(), Error<T::Error>>
    requires { depth ≤ 200 }
    ensures { FrameClauses T.ReencodeIndices depth (numbered_frame id body.now) at
        reencoder.old «component».old reencoder.new «component».new result }
{
    if id == 1 {
        let mapped = parse_component_submodule(reencoder, alloc, component, body, depth);
        return placed(mapped, at);
    }
    if id == 4 {
        let mapped = parse_component_subcomponent(reencoder, alloc, component, body, depth);
        return placed(mapped, at);
    }
    numbered(reencoder, alloc, component, id, at, body, depth)
}

/// Maps a component, with so many scopes open round it, and adds it as a section: `push_depth`, then `parse_component` one scope
/// deeper, then `pop_depth`, which is not called where this is refused.
///
/// A `ParseError` holds the place in the nested component. With 200 scopes open it is the answer at once, with the place 0, and
/// nothing is read or asked. `TooLarge` also comes where the new component is longer than the ceiling of the one round it.
#[cycle(components)]
pub fn parse_component_subcomponent<T: ReencodeComponent>(
    reencoder: &mut T,
    alloc: Global,
    component: &mut w::Component,
    bytes: &[u8],
    depth: u32,
) -> Result<(), Error<T::Error>>
    requires { depth ≤ 200 }
    ensures { SubcomponentClauses T.ReencodeIndices depth bytes.now
        reencoder.old «component».old reencoder.new «component».new result }
{
    if depth >= DEPTH {
        return Err(Error::ParseError(ReadError { at: 0 }));
    }
    let mut nested = component.component_within(alloc, bytes.len())?;
    reencoder.push_depth()?;
    parse_component(reencoder, alloc, &mut nested, bytes, depth + 1)?;
    reencoder.pop_depth();
    component.take_component(nested)?;
    Ok(())
}
