//! Why a reader refused.

/// No spelling of what was asked begins at this place. Places are counted in bytes, from 0.
#[derive(Debug, Clone, Copy, PartialEq)]
pub struct ReadError {
    /// The place that was asked for.
    pub at: usize,
}

/// Out of memory.
#[derive(Debug, Clone, Copy, PartialEq)]
pub struct NoMemory;

/// The two kinds of binaries that a header tells apart.
#[derive(Debug, Clone, Copy, PartialEq)]
pub enum Kind {
    /// A core module.
    Module,
    /// A component.
    Component,
}

/// Why a reader of sections or rows refused.
#[derive(Debug, Clone, Copy, PartialEq)]
pub enum Fault {
    /// Nothing that was asked for begins at this place.
    Read(ReadError),
    /// A code section states a size that passes the end of the bytes.
    CodeSize,
    /// The header of the other kind stands there: this kind was found.
    Header(Kind),
    /// Out of memory.
    NoMemory,
}

impl From<ReadError> for Fault {
    ghost use Rattle.std.specs.Prelude.{◌≡◌};
    ghost use Rattle.wasm_leb.specs.declared.fault.Fault.TheVariants.{Read};

    ghost from_gives = { λ e r. r ≡ Read e };

    fn from(e: ReadError) -> Fault {
        Fault::Read(e)
    }
}

impl From<NoMemory> for Fault {
    ghost use Rattle.std.specs.Prelude.{◌≡◌};
    ghost use Rattle.wasm_leb.specs.declared.fault.Fault.TheVariants.{NoMemory};

    ghost from_gives = { λ _ r. r ≡ NoMemory };

    fn from(_e: NoMemory) -> Fault {
        Fault::NoMemory
    }
}
