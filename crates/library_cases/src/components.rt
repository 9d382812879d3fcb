//! Whole components, and binaries by their header.
use crate::modules::{Bounds, add_made};
use reencode_component::component_utils::parse_component;
use reencode_component::{ReencodeComponent, reencode, reencode_within};
use reencode_hooks::Error;
use std::alloc::{AllocError, Global};
use std::fmt::Display;
use wasm_write_component::Component;

/// A component re-encoded.
fn component<R: ReencodeComponent>(
    alloc: Global,
    reencoder: &mut R,
    bytes: &[u8],
    bounds: Bounds,
) -> Result<Vec<u8>, Error<R::Error>> {
    let mut component = Component::new(alloc, bounds.ceiling)?;
    let depth = bounds.depth.min(200);
    parse_component(reencoder, alloc, &mut component, bytes, depth)?;
    Ok(component.finish())
}

/// What comes of a component, or the refusal.
pub fn made<R: ReencodeComponent>(
    alloc: Global,
    reencoder: &mut R,
    bytes: &[u8],
    bounds: Bounds,
) -> Result<String, AllocError>
where
    R::Error: Display + Drop,
{
    let mut text = String::new(alloc);
    let made = component(alloc, reencoder, bytes, bounds);
    add_made(alloc, &mut text, made)?;
    Ok(text)
}

/// What comes of a binary by its header, or the refusal.
pub fn made_by_header<R: ReencodeComponent>(
    alloc: Global,
    reencoder: &mut R,
    bytes: &[u8],
    ceiling: u32,
) -> Result<String, AllocError>
where
    R::Error: Display + Drop,
{
    let mut text = String::new(alloc);
    let made = match ceiling {
        u32::MAX => reencode(alloc, reencoder, bytes),
        _ => reencode_within(alloc, reencoder, bytes, ceiling),
    };
    add_made(alloc, &mut text, made)?;
    Ok(text)
}
