//! Bytes that are added behind others.
ghost use Rattle.std.specs.Prelude.{◌≡◌, ◌<◌, ◌^◌, ◌++◌, ◌∷◌, IfSome};
ghost use Rattle.wasm_leb.specs.Leb.{leb};

use std::alloc::Global;
use wasm_leb::{NoMemory, write_u32};

/// These bytes, with room for so many in all, so that what comes behind them is copied once.
pub fn with_room(alloc: Global, front: &[u8], room: usize) -> Option<Vec<u8>>
    ensures { IfSome result (λ out. out.items ≡ front.now) }
{
    let Ok(mut out) = Vec::with_capacity(alloc, room) else {
        return None;
    };
    match out.extend_from_slice(front) {
        Ok(()) => Some(out),
        Err(_) => None,
    }
}

/// Adds some bytes. None is want of memory.
pub fn add_bytes(out: &mut Vec<u8>, text: &[u8]) -> Option<()>
    ensures { IfSome result (λ _. out.new.items ≡ out.old.items ++ text.now) }
{
    match out.extend_from_slice(text) {
        Ok(()) => Some(()),
        Err(_) => None,
    }
}

/// Adds an id, and the size of the body that comes behind it. None is want of memory, or a size of 2^32 or more.
pub fn add_head(out: &mut Vec<u8>, id: u8, size: usize) -> Option<()>
    ensures few { IfSome result (λ _. size < 2 ^ 32) }
    ensures added { IfSome result (λ _. out.new.items ≡ out.old.items ++ (id ∷ leb size)) }
{
    let Ok(size) = u32::try_from(size) else {
        return None;
    };
    match out.push(id) {
        Ok(()) => {}
        Err(_) => return None,
    }
    match write_u32(out, size) {
        Ok(()) => Some(()),
        Err(NoMemory) => None,
    }
}
