//! The outline of a core module in a file: its custom sections by their names alone, so that a second look need not read all of it.
use std::alloc::Global;
use std::fs::File;
use std::os::unix::fs::FileExt;
use wasm_leb::{front_byte, front_u32, write_u32};

/// What a core module begins with.
const HEADER: [u8; 8] = [0x00, 0x61, 0x73, 0x6d, 0x01, 0x00, 0x00, 0x00];

/// How many bytes the id of a section, its size and the length of a name take at most.
const HEAD: usize = 11;

/// The most sections, and the longest name, of which an outline is made.
const MOST: u32 = 100_000;

const LONGEST: u32 = 4_096;

/// Adds so many bytes of a file, from a place on.
fn add_from(file: &File, at: u64, count: u32, out: &mut Vec<u8>) -> Option<()> {
    let from = out.len();
    let len = from.checked_add(count as usize)?;
    out.resize(len, 0).ok()?;
    let room = out.as_mut_slice().get_mut(from..)?;
    file.read_exact_at(room, at).ok()
}

/// Adds a section whose contents are so many bytes of a file, from a place on.
fn add_section(file: &File, id: u8, at: u64, count: u32, out: &mut Vec<u8>) -> Option<()> {
    out.push(id).ok()?;
    write_u32(out, count).ok()?;
    add_from(file, at, count, out)
}

/// Adds what is to be seen of the section at a place of a file, and answers the place behind it.
fn add_outline(file: &File, at: u64, with_code: bool, out: &mut Vec<u8>) -> Option<u64> {
    let mut head = [0u8; HEAD];
    let count = file.read_at(&mut head, at).ok()?;
    let bytes = head.get(..count)?;
    let (id, rest) = front_byte(bytes)?;
    let (size, rest) = front_u32(rest)?;
    let begin = at.checked_add(bytes.len().checked_sub(rest.len())? as u64)?;
    if id == 0 {
        let (named, name) = front_u32(rest)?;
        let before = rest.len().checked_sub(name.len())? as u32;
        let field = before.checked_add(named)?;
        if named > LONGEST || field > size {
            return None;
        }
        add_section(file, id, begin, field, out)?;
    } else if id == 10 && with_code {
        add_section(file, id, begin, size, out)?;
    }
    begin.checked_add(u64::from(size))
}

/// The header of the core module in a file, its custom sections with their names and nothing behind these, and, where that is asked
/// for, its code sections. None where such a module does not stand there, or memory runs out.
pub fn outline(alloc: Global, file: &File, with_code: bool) -> Option<Vec<u8>> {
    let len = file.metadata().ok()?.len();
    let mut out = Vec::new(alloc);
    add_from(file, 0, 8, &mut out)?;
    if out.as_slice() != HEADER.as_slice() {
        return None;
    }
    let mut at = 8;
    'sections: for _ in 0..MOST {
        if at == len {
            return Some(out);
        }
        at = add_outline(file, at, with_code, &mut out)?;
    }
    None
}
