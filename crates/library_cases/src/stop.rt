//! Why a call gives no answer.
use reencode_hooks::{Error, Unmapped};
use std::alloc::{AllocError, Global};
use std::convert::Infallible;
use std::fmt;
use wasm_leb::{Fault, NoMemory, ReadError};
use wasm_write::WriteFault;

/// Why a call gives no answer.
#[derive(Drop)]
pub enum Stop {
    /// There is no such call, or its words or its input are none of it.
    Unread,
    /// The call refused.
    Refused(Error<Unmapped>),
    /// A call that asks nobody refused.
    Unasked(Error<Infallible>),
    /// Out of memory.
    NoMemory,
}

impl From<AllocError> for Stop {
    fn from(_e: AllocError) -> Stop {
        Stop::NoMemory
    }
}

impl From<NoMemory> for Stop {
    fn from(_e: NoMemory) -> Stop {
        Stop::NoMemory
    }
}

impl From<ReadError> for Stop {
    fn from(e: ReadError) -> Stop {
        Stop::Refused(Error::from(e))
    }
}

impl From<Fault> for Stop {
    fn from(e: Fault) -> Stop {
        Stop::Refused(Error::from(e))
    }
}

impl From<WriteFault> for Stop {
    fn from(e: WriteFault) -> Stop {
        Stop::Refused(Error::from(e))
    }
}

impl From<Error<Unmapped>> for Stop {
    fn from(e: Error<Unmapped>) -> Stop {
        Stop::Refused(e)
    }
}

impl From<Error<Infallible>> for Stop {
    fn from(e: Error<Infallible>) -> Stop {
        Stop::Unasked(e)
    }
}

/// What an error says, with its place where it has one.
pub fn refusal<E: fmt::Display>(alloc: Global, e: &Error<E>) -> Result<String, AllocError> {
    match e {
        Error::ParseError(ReadError { at }) => format!(in alloc; "nothing at {at}"),
        _ => format!(in alloc; "{e}"),
    }
}

impl Stop {
    /// What it says.
    pub fn text(&self, alloc: Global) -> Result<String, AllocError> {
        match self {
            Stop::Unread => String::from_str(alloc, "no such call"),
            Stop::Refused(e) => refusal(alloc, e),
            Stop::Unasked(e) => refusal(alloc, e),
            Stop::NoMemory => Err(AllocError),
        }
    }
}
