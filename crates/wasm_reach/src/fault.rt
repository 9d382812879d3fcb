//! Why no module is made.
use reencode_hooks::Error;
use std::convert::Infallible;
use std::fmt;

/// Why no module is made.
#[derive(Debug, Drop)]
pub enum ReachFault {
    /// The bytes are no core module, or a frame of the output is above the ceiling.
    Core(Error<Infallible>),
    /// There are two sections of this id, of functions or of code.
    Repeated { id: u8 },
    /// So many functions have a type, and so many a body.
    Uneven { functions: u32, bodies: u32 },
    /// The first function that is asked for and is not there.
    Dangling { index: u32 },
    /// Out of memory. It also stands for a number of functions that would pass 2^32 - 2, which no module of fewer than 2^32 bytes has.
    NoMemory,
}

impl fmt::Display for ReachFault {
    ghost use Rattle.wasm_reach.specs.Faults.{fault_text};

    ghost output = { fault_text };

    fn fmt<W: fmt::Write>(&self, f: &mut fmt::Formatter<W>) -> fmt::Result {
        match self {
            ReachFault::Core(e) => write!(f, "{e}"),
            ReachFault::Repeated { id } => write!(f, "repeated section {id}"),
            ReachFault::Uneven { functions, bodies } => {
                write!(f, "uneven: {functions} and {bodies}")
            }
            ReachFault::Dangling { index } => write!(f, "dangling function {index}"),
            ReachFault::NoMemory => f.write_str("out of memory"),
        }
    }
}
