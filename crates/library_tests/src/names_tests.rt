//! Names: a map that is asked behind its end, and the walks over maps by closures that are handed over.
use reencode_core::{indirect_name_map, name_map};
use reencode_hooks::Error;
use std::alloc::Global;
use wasm_leb::ReadError;
use wasm_read as r;
use wasm_write::{NameSection, Section};

/// A map with the entries 5, `a` and 0, without a name.
const NAMES: &[u8] = b"\x02\x05\x01a\0\0";

/// A map with the entry 3, the map of 9, `b`.
const INDIRECT: &[u8] = b"\x01\x03\x01\x09\x01b";

#[test]
fn entries_end(rt: HostRuntime) -> Result<(), ReadError> {
    let mut names = r::NameMap::new(NAMES);
    let a = Some(r::Naming {
        index: 5,
        name: "a",
    });
    let unnamed = Some(r::Naming { index: 0, name: "" });
    for entry in [a, unnamed, None, None] {
        assert!(rt; names.next()? == entry);
    }
    let mut outer = r::IndirectNameMap::new(INDIRECT);
    for is_entry in [true, false, false] {
        assert_eq!(rt; outer.next()?.is_some(), is_entry);
    }
    Ok(())
}

/// A map with each index one more, and behind it a name section of labels with each outer index three more.
fn mapped(alloc: Global) -> Result<Vec<u8>, Error<u32>> {
    let names = name_map(
        alloc,
        r::NameMap::new(NAMES),
        |i: u32| Ok(i.wrapping_add(1)),
    )?;
    let labels = indirect_name_map(alloc, r::IndirectNameMap::new(INDIRECT), |i: u32| {
        Ok(i.wrapping_add(3))
    })?;
    let mut section = NameSection::new(alloc, u32::MAX);
    section.labels(&labels)?;
    let mut out = Vec::new(alloc);
    names.encode(&mut out)?;
    section.encode_body(&mut out)?;
    Ok(out)
}

const MAPPED: &[u8] = b"\x02\x06\x01a\x01\0\x04name\x03\x06\x01\x06\x01\x09\x01b";

#[test]
fn maps_by_closures(rt: HostRuntime) -> Result<(), Error<u32>> {
    assert!(rt; mapped(rt.alloc())?.as_slice() == MAPPED);
    Ok(())
}
