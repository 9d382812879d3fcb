//! Why a re-encoding was refused.
use std::fmt;
use wasm_leb::{Fault, Kind, NoMemory, ReadError};
use wasm_write::WriteFault;

/// Why a call was refused. `E` is the reencoder's own error.
#[derive(Debug, Drop)]
pub enum Error<E> {
    /// A heap type names a type by its place in its recursion group, which no binary spells.
    CanonicalizedHeapTypeReference,
    /// A constant expression has an `end` before its own, or lacks that.
    InvalidConstExpr,
    /// A code section states a size that passes the end of the bytes.
    InvalidCodeSectionSize,
    /// The header of a component, or a section of one, stands where a core module is read.
    UnexpectedNonCoreModuleSection,
    /// The header of a core module, or a section of one, stands where a component is read.
    UnexpectedNonComponentSection,
    /// A core type in a component is of a kind that is not re-encoded.
    UnsupportedCoreTypeInComponent,
    /// Nothing that was asked for begins at this place.
    ParseError(ReadError),
    /// The reencoder refused.
    UserError(E),
    /// A frame is longer than the ceiling, or a count or a length would pass 2^32 - 1: this is that number.
    TooLarge { size: u64 },
    /// Out of memory.
    NoMemory,
}

impl<E> From<ReadError> for Error<E> {
    ghost use Rattle.std.specs.Prelude.{◌≡◌};
    ghost use Rattle.reencode_hooks.specs.declared.error.Error.TheVariants.{ParseError};

    ghost from_gives = { λ e r. r ≡ ParseError e };

    fn from(e: ReadError) -> Error<E> {
        Error::ParseError(e)
    }
}

impl<E> From<NoMemory> for Error<E> {
    ghost use Rattle.std.specs.Prelude.{◌≡◌};
    ghost use Rattle.reencode_hooks.specs.declared.error.Error.TheVariants.{NoMemory};

    ghost from_gives = { λ _ r. r ≡ NoMemory };

    fn from(_e: NoMemory) -> Error<E> {
        Error::NoMemory
    }
}

impl<E> From<Fault> for Error<E> {
    ghost use Rattle.std.specs.Prelude.{◌≡◌};
    ghost use Rattle.reencode_hooks.specs.Errors.{error_of_fault};

    ghost from_gives = { λ e r. r ≡ error_of_fault e };

    fn from(e: Fault) -> Error<E> {
        match e {
            Fault::Read(e) => Error::ParseError(e),
            Fault::CodeSize => Error::InvalidCodeSectionSize,
            Fault::Header(Kind::Component) => Error::UnexpectedNonCoreModuleSection,
            Fault::Header(Kind::Module) => Error::UnexpectedNonComponentSection,
            Fault::NoMemory => Error::NoMemory,
        }
    }
}

impl<E> From<WriteFault> for Error<E> {
    ghost use Rattle.std.specs.Prelude.{◌≡◌};
    ghost use Rattle.reencode_hooks.specs.Errors.{error_of_write};

    ghost from_gives = { λ e r. r ≡ error_of_write e };

    fn from(e: WriteFault) -> Error<E> {
        match e {
            WriteFault::TooLarge { size } => Error::TooLarge { size },
            WriteFault::NoMemory => Error::NoMemory,
        }
    }
}

impl<E: fmt::Display> fmt::Display for Error<E> {
    ghost use Rattle.reencode_hooks.specs.Errors.{error_text};

    ghost output = { error_text E.output };

    fn fmt<W: fmt::Write>(&self, f: &mut fmt::Formatter<W>) -> fmt::Result {
        match self {
            Error::CanonicalizedHeapTypeReference => f.write_str(
                "There was a canonicalized heap type reference without type index information",
            ),
            Error::InvalidConstExpr => f.write_str("The const expression was invalid"),
            Error::InvalidCodeSectionSize => f.write_str("invalid code section size"),
            Error::UnexpectedNonCoreModuleSection => {
                f.write_str("There was a section that does not belong in a core wasm module")
            }
            Error::UnexpectedNonComponentSection => {
                f.write_str("There was a section that does not belong in a component")
            }
            Error::UnsupportedCoreTypeInComponent => {
                f.write_str("unsupported core type in a component")
            }
            Error::ParseError(_) => f.write_str("There was an error when parsing"),
            Error::UserError(e) => write!(f, "{e}"),
            Error::TooLarge { size } => write!(f, "size {size} is too large"),
            Error::NoMemory => f.write_str("out of memory"),
        }
    }
}
