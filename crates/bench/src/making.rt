//! The module that is re-encoded.
use std::alloc::Global;
use wasm_leb::{NoMemory, write_u32};

/// Eight operators in fourteen bytes: most numbers take one byte, one constant two. One is a call.
const NUMBERS: [u8; 14] = [
    0x20, 0x00, 0x41, 0x05, 0x6a, 0x20, 0x01, 0x6a, 0x41, 0xe8, 0x07, 0x6a, 0x10, 0x03,
];

/// Sixteen operators in 32 bytes: a block round a load, a test with a branch, a sum, a store and a call.
const MIXED: [u8; 32] = [
    0x02, 0x40, 0x20, 0x00, 0x28, 0x02, 0x10, 0x22, 0x01, 0x45, 0x0d, 0x00, 0x20, 0x01, 0x41, 0xe8,
    0x07, 0x6a, 0x21, 0x02, 0x20, 0x00, 0x20, 0x02, 0x36, 0x02, 0x0c, 0x20, 0x02, 0x10, 0x03, 0x0b,
];

/// Four globals in 21 bytes: two constants, a function and another global.
const GLOBALS: [u8; 21] = [
    0x7f, 0x00, 0x41, 0x05, 0x0b, 0x7f, 0x01, 0x41, 0xe8, 0x07, 0x0b, 0x70, 0x00, 0xd2, 0x03, 0x0b,
    0x7f, 0x00, 0x23, 0x00, 0x0b,
];

/// A segment that is active at 0 in the first table or memory.
const PLACE: [u8; 4] = [0x00, 0x41, 0x00, 0x0b];

/// What the module is made of.
#[derive(Clone, Copy)]
pub enum Kind {
    /// Functions of rows of numbers.
    Numbers,
    /// Functions of mixed rows.
    Mixed,
    /// Sets of globals, four in a row.
    Globals,
    /// Segments of functions.
    Elements,
    /// Segments of bytes.
    Data,
}

/// The function that is called.
pub const CALLED: u32 = 3;

/// The header, and a type without parameters and results.
const FRONT: [u8; 14] = [
    0x00, 0x61, 0x73, 0x6d, 0x01, 0x00, 0x00, 0x00, 0x01, 0x04, 0x01, 0x60, 0x00, 0x00,
];

fn add(out: &mut Vec<u8>, bytes: &[u8]) -> Result<(), NoMemory> {
    match out.extend_from_slice(bytes) {
        Ok(()) => Ok(()),
        Err(_) => Err(NoMemory),
    }
}

/// Adds bytes behind their length.
fn add_sized(out: &mut Vec<u8>, bytes: &[u8]) -> Result<(), NoMemory> {
    match u32::try_from(bytes.len()) {
        Ok(len) => write_u32(out, len)?,
        Err(_) => return Err(NoMemory),
    }
    add(out, bytes)
}

/// The body of a function: no locals, so many rows of a kind, and `end`.
fn body(alloc: Global, mixed: bool, rows: u32) -> Result<Vec<u8>, NoMemory> {
    let mut out = Vec::new(alloc);
    add(&mut out, &[0x00])?;
    for _ in 0..rows {
        if mixed {
            add(&mut out, &MIXED)?;
        } else {
            add(&mut out, &NUMBERS)?;
        }
    }
    add(&mut out, &[0x0b])?;
    Ok(out)
}

/// A segment of so many functions, whose indices take one byte, or of so many bytes.
fn segment(alloc: Global, functions: bool, rows: u32) -> Result<Vec<u8>, NoMemory> {
    let mut out = Vec::new(alloc);
    add(&mut out, &PLACE)?;
    write_u32(&mut out, rows)?;
    for row in 0..rows {
        let byte = if functions {
            (row % 128) as u8
        } else {
            (row % 256) as u8
        };
        add(&mut out, &[byte])?;
    }
    Ok(out)
}

/// A module of one section, which has so many rows: these bytes so often.
fn module_of(
    alloc: Global,
    id: u8,
    count: u32,
    bytes: &[u8],
    times: u32,
) -> Result<Vec<u8>, NoMemory> {
    let mut section = Vec::new(alloc);
    write_u32(&mut section, count)?;
    for _ in 0..times {
        add(&mut section, bytes)?;
    }
    let mut out = Vec::new(alloc);
    add(
        &mut out,
        &[0x00, 0x61, 0x73, 0x6d, 0x01, 0x00, 0x00, 0x00, id],
    )?;
    add_sized(&mut out, section.as_slice())?;
    Ok(out)
}

/// A module of a kind: of so many functions or segments, each of so many rows.
pub fn module(alloc: Global, kind: Kind, functions: u32, rows: u32) -> Result<Vec<u8>, NoMemory> {
    match kind {
        Kind::Numbers => functions_of(alloc, false, functions, rows),
        Kind::Mixed => functions_of(alloc, true, functions, rows),
        Kind::Globals => {
            let times = functions.saturating_mul(rows);
            module_of(alloc, 0x06, times.saturating_mul(4), &GLOBALS, times)
        }
        Kind::Elements => {
            let segment = segment(alloc, true, rows)?;
            module_of(alloc, 0x09, functions, segment.as_slice(), functions)
        }
        Kind::Data => {
            let segment = segment(alloc, false, rows)?;
            module_of(alloc, 0x0b, functions, segment.as_slice(), functions)
        }
    }
}

/// A module of so many functions, each of so many rows of a kind.
fn functions_of(
    alloc: Global,
    mixed: bool,
    functions: u32,
    rows: u32,
) -> Result<Vec<u8>, NoMemory> {
    let mut types = Vec::new(alloc);
    let mut code = Vec::new(alloc);
    write_u32(&mut types, functions)?;
    write_u32(&mut code, functions)?;
    let body = body(alloc, mixed, rows)?;
    for _ in 0..functions {
        add(&mut types, &[0x00])?;
        add_sized(&mut code, body.as_slice())?;
    }
    let mut out = Vec::new(alloc);
    add(&mut out, &FRONT)?;
    add(&mut out, &[0x03])?;
    add_sized(&mut out, types.as_slice())?;
    add(&mut out, &[0x0a])?;
    add_sized(&mut out, code.as_slice())?;
    Ok(out)
}
