//! The texts of the errors that no line of text shows, and what a renamer answers by itself.
use reencode_hooks::{Asked, ChainError, Error, Renamer, Unmapped};
use std::alloc::AllocError;
use wasm_leb::{Fault, NoMemory, ReadError};
use wasm_shapes::Space;

const REFUSED: Unmapped = Unmapped {
    space: Space::Function,
    index: 0,
};

#[test]
fn errors_print(rt: HostRuntime) -> Result<(), AllocError> {
    let rows: [(Error<ChainError<Unmapped, Unmapped>>, &str); 8] = [
        (
            Error::CanonicalizedHeapTypeReference,
            "There was a canonicalized heap type reference without type index information",
        ),
        (Error::InvalidConstExpr, "The const expression was invalid"),
        (
            Error::UnsupportedCoreTypeInComponent,
            "unsupported core type in a component",
        ),
        (
            Error::ParseError(ReadError { at: 8 }),
            "There was an error when parsing",
        ),
        (
            Error::UserError(ChainError::First(REFUSED)),
            "refused function 0 by 1",
        ),
        (
            Error::UserError(ChainError::Second(REFUSED)),
            "refused function 0 by 2",
        ),
        (Error::from(NoMemory), "out of memory"),
        (Error::from(Fault::NoMemory), "out of memory"),
    ];
    for (error, text) in &rows {
        let printed = error.to_string(rt.alloc())?;
        assert_eq!(rt; printed.as_str(), *text);
    }
    Ok(())
}

#[test]
fn renamers_answer(rt: HostRuntime) -> Result<(), NoMemory> {
    let mut renamer = Renamer::new(rt.alloc());
    renamer.set(Space::Function, 3, 1003)?;
    renamer.set_strict(true);
    assert_eq!(rt; renamer.ask(Space::Function, 3), Ok(1003));
    assert_eq!(rt; renamer.ask(Space::Function, 0), Err(REFUSED));
    assert_eq!(rt; renamer.ask(Space::DataCount, 0), Ok(0));
    renamer.note(Asked::Pop);
    for (what, count) in [
        (Asked::Of(Space::Function), 2u64),
        (Asked::Of(Space::DataCount), 1),
        (Asked::Of(Space::Instance), 0),
        (Asked::SectionHook, 0),
        (Asked::Push, 0),
        (Asked::Pop, 1),
    ] {
        assert_eq!(rt; renamer.count(what), count);
    }
    Ok(())
}
