//! The examples, run.
use crate::rules_tests::shifted;
use examples::{
    Marks, NotBelow, Stripper, TooMany, Widened, add_marks, check_below, move_behind, strip,
};
use reencode_core::reencode_core;
use reencode_hooks::{Error, IndexOverflow, Shift};
use std::alloc::Global;
use std::convert::Infallible;
use wasm_shapes::SectionId;

/// A module that adds two numbers: a type, a function, an export and its code.
pub const ADDS: &[u8] =
    b"\0asm\x01\0\0\0\x01\x07\x01\x60\x02\x7f\x7f\x01\x7f\x03\x02\x01\0\x07\x05\x01\x01f\0\0\x0a\x09\x01\x07\0\x20\0\x20\x01j\x0b";

/// A module that exports its function 1.
pub const EXPORTS: &[u8] = b"\0asm\x01\0\0\0\x07\x05\x01\x01f\0\x01";

/// The module that adds, with its function 0 moved behind five.
const MOVED: &[u8] =
    b"\0asm\x01\0\0\0\x01\x07\x01\x60\x02\x7f\x7f\x01\x7f\x03\x02\x01\0\x07\x05\x01\x01f\0\x05\x0a\x09\x01\x07\0\x20\0\x20\x01j\x0b";

#[test]
fn functions_move(rt: HostRuntime) -> Result<(), Error<TooMany>> {
    let bytes = move_behind(rt.alloc(), ADDS, 5)?;
    assert!(rt; bytes.as_slice() == MOVED);
    let refused = match move_behind(rt.alloc(), EXPORTS, u32::MAX) {
        Err(Error::UserError(TooMany { index })) => index == 1,
        _ => false,
    };
    assert!(rt; refused);
    Ok(())
}

#[test]
fn functions_are_checked(rt: HostRuntime) -> Result<(), Error<NotBelow>> {
    let bytes = check_below(rt.alloc(), EXPORTS, 2)?;
    assert!(rt; bytes.as_slice() == EXPORTS);
    let refused = match check_below(rt.alloc(), EXPORTS, 1) {
        Err(Error::UserError(NotBelow { index })) => index == 1,
        _ => false,
    };
    assert!(rt; refused);
    Ok(())
}

/// The module that adds, of numbers of 64 bits.
const WIDE: &[u8] =
    b"\0asm\x01\0\0\0\x01\x07\x01\x60\x02\x7e\x7e\x01\x7e\x03\x02\x01\0\x07\x05\x01\x01f\0\0\x0a\x09\x01\x07\0\x20\0\x20\x01j\x0b";

#[test]
fn types_are_widened(rt: HostRuntime) -> Result<(), Error<Infallible>> {
    let bytes = reencode_core(rt.alloc(), &mut Widened, ADDS, u32::MAX)?;
    assert!(rt; bytes.as_slice() == WIDE);
    Ok(())
}

/// A module of a custom section `x`, a start section and a name section.
const NAMED: &[u8] = b"\0asm\x01\0\0\0\0\x03\x01x\xff\x08\x01\0\0\x0b\x04name\x01\x04\x01\0\x01f";

/// The same without its name section, and without any custom section.
const UNNAMED: &[u8] = b"\0asm\x01\0\0\0\0\x03\x01x\xff\x08\x01\0";

const BARE: &[u8] = b"\0asm\x01\0\0\0\x08\x01\0";

#[test]
fn names_are_stripped(rt: HostRuntime) -> Result<(), Error<Infallible>> {
    let bytes = strip(rt.alloc(), NAMED, false)?;
    assert!(rt; bytes.as_slice() == UNNAMED);
    let bytes = strip(rt.alloc(), NAMED, true)?;
    assert!(rt; bytes.as_slice() == BARE);
    let bytes = reencode_core(rt.alloc(), &mut Stripper { all: true }, NAMED, u32::MAX)?;
    assert!(rt; bytes.as_slice() == BARE);
    Ok(())
}

/// A name section without contents, a code section whose body is nothing, and a section of no known kind whose size is spelled in
/// two bytes.
const FRAMES: &[u8] = b"\0asm\x01\0\0\0\0\x05\x04name\x0a\0\x0e\x81\0\xff";

/// The same with a section whose size passes the end.
const CUT: &[u8] = b"\0asm\x01\0\0\0\0\x05\x04name\x0a\0\x0e\x81\0\xff\x01\x02";

/// The frames without the name section.
const LEFT: &[u8] = b"\0asm\x01\0\0\0\x0a\0\x0e\x01\xff";

/// The place of the fault where bytes have no frames.
fn unframed_at(alloc: Global, bytes: &[u8]) -> Option<usize> {
    match strip(alloc, bytes, true) {
        Err(Error::ParseError(e)) => Some(e.at),
        _ => None,
    }
}

#[test]
fn frames_alone_are_read(rt: HostRuntime) -> Result<(), Error<Infallible>> {
    let bytes = strip(rt.alloc(), FRAMES, false)?;
    assert!(rt; bytes.as_slice() == LEFT);
    assert_eq!(rt; unframed_at(rt.alloc(), CUT), Some(21));
    assert_eq!(rt; unframed_at(rt.alloc(), b"asm\x01\0\0\0"), Some(0));
    Ok(())
}

/// The module that adds, with the custom section `x` before its code.
const MARKED: &[u8] =
    b"\0asm\x01\0\0\0\x01\x07\x01\x60\x02\x7f\x7f\x01\x7f\x03\x02\x01\0\x07\x05\x01\x01f\0\0\0\x02\x01x\x0a\x09\x01\x07\0\x20\0\x20\x01j\x0b";

#[test]
fn marks_are_added(rt: HostRuntime) -> Result<(), Error<Infallible>> {
    let marks = Marks {
        behind: SectionId::Export,
        name: "x",
        contents: &[],
    };
    let bytes = add_marks(rt.alloc(), ADDS, marks)?;
    assert!(rt; bytes.as_slice() == MARKED);
    Ok(())
}

/// The module that adds, with its type and its function moved behind one.
const SHIFTED: &[u8] =
    b"\0asm\x01\0\0\0\x01\x07\x01\x60\x02\x7f\x7f\x01\x7f\x03\x02\x01\x01\x07\x05\x01\x01f\0\x01\x0a\x09\x01\x07\0\x20\0\x20\x01j\x0b";

#[test]
fn indices_shift(rt: HostRuntime) -> Result<(), Error<IndexOverflow>> {
    let mut shift = Shift {
        types: 1,
        functions: 1,
        ..Shift::default()
    };
    let bytes = shifted(rt.alloc(), shift, ADDS)?;
    assert!(rt; bytes.as_slice() == SHIFTED);
    shift.functions = u32::MAX;
    let refused = match shifted(rt.alloc(), shift, EXPORTS) {
        Err(Error::UserError(IndexOverflow { index, .. })) => index == 1,
        _ => false,
    };
    assert!(rt; refused);
    Ok(())
}
