//! The re-encoding of a binary, which is a core module or a component.
ghost use Rattle.std.specs.Prelude.{◌≡◌, ◌++◌, IfNone, IfSome};
ghost use Rattle.wasm_shapes.specs.Module.{component_header};
ghost use Rattle.reencode_component.specs.ComponentLeaves.{NoComponentHeading};
ghost use Rattle.reencode_component.specs.Within.{ComponentBytesClauses, WithinClauses};

use crate::component_methods::ReencodeComponent;
use crate::component_walk::parse_component;
use reencode_core::{Output, reencode_core, reencode_output};
use reencode_hooks::Error;
use std::alloc::Global;
use wasm_leb::NoMemory;
use wasm_write_component as w;

/// What stands behind the header of a component, where that stands there.
fn behind_header(bytes: &[u8]) -> Option<&[u8]>
    ensures some { IfSome result (λ rest. bytes.now ≡ component_header ++ rest.now) }
    ensures none { IfNone result (NoComponentHeading bytes.now) }
{
    match bytes {
        [0x00, 0x61, 0x73, 0x6d, 0x0d, 0x00, 0x01, 0x00, rest @ ..] => Some(rest),
        _ => None,
    }
}

/// The bytes of the component that another becomes.
fn reencode_component<R: ReencodeComponent>(
    alloc: Global,
    r: &mut R,
    bytes: &[u8],
    ceiling: u32,
) -> Result<Vec<u8>, Error<R::Error>>
    ensures { ComponentBytesClauses R.ReencodeIndices ceiling bytes.now r.old r.new result
        (λ v. v.items) }
{
    let mut component = match w::Component::new(alloc, ceiling) {
        Ok(component) => component,
        Err(NoMemory) => return Err(Error::NoMemory),
    };
    match parse_component(r, alloc, &mut component, bytes, 0) {
        Ok(()) => Ok(component.finish()),
        Err(e) => Err(e),
    }
}

/// The bytes of the new binary: of a component, where the bytes begin with the header of one, by `parse_component`, and of a core
/// module, by `reencode_core`, where they do not.
///
/// Of a reencoder that keeps the defaults no frame of what the bytes become is above the ceiling, nor the body of a section that
/// one of its hooks adds.
///
/// A `ParseError` holds the place of the section in fault, counted from the first byte of the header, or 0 where neither header
/// stands there. An error that tells the kind of a binary, or the size of a code section, may come of a binary inside.
pub fn reencode_within<R: ReencodeComponent>(
    alloc: Global,
    r: &mut R,
    bytes: &[u8],
    ceiling: u32,
) -> Result<Vec<u8>, Error<R::Error>>
    ensures { WithinClauses R.ReencodeIndices ceiling bytes.now r.old r.new result (λ v. v.items) }
{
    match behind_header(bytes) {
        Some(_) => reencode_component(alloc, r, bytes, ceiling),
        None => reencode_core(alloc, r, bytes, ceiling),
    }
}

/// The new binary as `reencode_within` answers it, not yet in one place: of a core module by `reencode_output`.
pub fn output_within<'a, R: ReencodeComponent>(
    alloc: Global,
    r: &mut R,
    bytes: &'a [u8],
    ceiling: u32,
) -> Result<Output<'a>, Error<R::Error>>
    ensures { WithinClauses R.ReencodeIndices ceiling bytes.now r.old r.new result (λ o. o) }
{
    match behind_header(bytes) {
        Some(_) => match reencode_component(alloc, r, bytes, ceiling) {
            Ok(made) => Ok(Output::from_vec(alloc, made)),
            Err(e) => Err(e),
        },
        None => reencode_output(alloc, r, bytes, ceiling),
    }
}

/// The bytes of the new binary, as by `reencode_within` with the greatest ceiling.
pub fn reencode<R: ReencodeComponent>(
    alloc: Global,
    r: &mut R,
    bytes: &[u8],
) -> Result<Vec<u8>, Error<R::Error>>
    ensures { WithinClauses R.ReencodeIndices 4294967295 bytes.now r.old r.new result
        (λ v. v.items) }
{
    reencode_within(alloc, r, bytes, u32::MAX)
}
