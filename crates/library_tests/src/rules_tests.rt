//! The rule of a shift, and checks by a rule.
use crate::examples_tests::EXPORTS;
use examples::{Below, NotBelow};
use reencode_core::{check_by_rule, reencode_by_rule};
use reencode_hooks::{Error, IndexOverflow, Shift};
use std::alloc::Global;
use wasm_leb::ReadError;
use wasm_shapes::Space;

/// A module that names index 0 of each core space and states a data count of 1: a type, a function, an export of each kind, a
/// start function, a data count, and code that names a data segment, a memory and an element segment.
const ZEROS: &[u8] =
    b"\0asm\x01\0\0\0\x01\x04\x01\x60\0\0\x03\x02\x01\0\x07\x15\x05\x01a\0\0\x01b\x01\0\x01c\x02\0\x01d\x03\0\x01e\x04\0\x08\x01\0\x0c\x01\x01\x0a\x0b\x01\x09\0\xfc\x08\0\0\xfc\x0d\0\x0b";

/// The same with each index moved by the number of its space, from 1 for data to 8 for types.
const SHIFTED: &[u8] =
    b"\0asm\x01\0\0\0\x01\x04\x01\x60\0\0\x03\x02\x01\x08\x07\x15\x05\x01a\0\x03\x01b\x01\x06\x01c\x02\x05\x01d\x03\x04\x01e\x04\x07\x08\x01\x03\x0c\x01\x01\x0a\x0b\x01\x09\0\xfc\x08\x01\x05\xfc\x0d\x02\x0b";

const SHIFT: Shift = Shift {
    data: 1,
    elements: 2,
    functions: 3,
    globals: 4,
    memories: 5,
    tables: 6,
    tags: 7,
    types: 8,
};

/// A module with its indices moved. The rule is handed over here alone, which is dear.
pub fn shifted(alloc: Global, shift: Shift, bytes: &[u8]) -> Result<Vec<u8>, Error<IndexOverflow>> {
    reencode_by_rule(alloc, shift, bytes, u32::MAX)
}

#[test]
fn each_space_moves(rt: HostRuntime) -> Result<(), Error<IndexOverflow>> {
    let bytes = shifted(rt.alloc(), SHIFT, ZEROS)?;
    assert!(rt; bytes.as_slice() == SHIFTED);
    let bytes = shifted(rt.alloc(), Shift::default(), ZEROS)?;
    assert!(rt; bytes.as_slice() == ZEROS);
    Ok(())
}

#[test]
fn an_index_overflows(rt: HostRuntime) -> Result<(), Error<IndexOverflow>> {
    let shift = Shift {
        functions: u32::MAX,
        ..Shift::default()
    };
    let Err(Error::UserError(refusal)) = shifted(rt.alloc(), shift, EXPORTS) else {
        assert!(rt; false);
        return Ok(());
    };
    let overflow = IndexOverflow {
        space: Space::Function,
        index: 1,
    };
    assert!(rt; refusal == overflow);
    let Ok(text) = refusal.to_string(rt.alloc()) else {
        return Err(Error::NoMemory);
    };
    assert_eq!(rt; text.as_str(), "overflow of function 1");
    Ok(())
}

/// Checks that a module names no function from a bound on. The rule is handed over here alone, which is dear.
fn checked(alloc: Global, bound: u32, bytes: &[u8]) -> Result<(), Error<NotBelow>> {
    check_by_rule(alloc, Below { bound }, bytes)
}

/// The module that exports, with a byte behind it that is no section.
const CUT: &[u8] = b"\0asm\x01\0\0\0\x07\x05\x01\x01f\0\x01\xff";

#[test]
fn modules_are_checked(rt: HostRuntime) {
    assert!(rt; checked(rt.alloc(), 2, EXPORTS).is_ok());
    let refused = match checked(rt.alloc(), 1, EXPORTS) {
        Err(Error::UserError(NotBelow { index })) => index == 1,
        _ => false,
    };
    assert!(rt; refused);
    // bytes that are no module give their own error, whatever the rule refuses in front of the fault
    let at_fault = match checked(rt.alloc(), 1, CUT) {
        Err(Error::ParseError(ReadError { at })) => at == 15,
        _ => false,
    };
    assert!(rt; at_fault);
}
