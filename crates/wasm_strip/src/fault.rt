//! Why nothing is stripped.
use std::fmt;

/// Why nothing is stripped. Places are counted in bytes, from the first byte of the outermost binary.
#[derive(Debug, Clone, Copy, PartialEq, Drop)]
pub enum StripFault {
    /// At this place a section or a header is due, and none can be read.
    Read { at: usize },
    /// At this place a section begins that holds one binary more than may stand within each other.
    TooDeep { at: usize },
    /// Out of memory.
    NoMemory,
}

impl fmt::Display for StripFault {
    ghost use Rattle.wasm_strip.specs.Texts.{fault_text};

    ghost output = { fault_text };

    fn fmt<W: fmt::Write>(&self, f: &mut fmt::Formatter<W>) -> fmt::Result {
        match self {
            StripFault::Read { at } => write!(f, "no section or header at {at}"),
            StripFault::TooDeep { at } => write!(f, "nested too deeply at {at}"),
            StripFault::NoMemory => f.write_str("out of memory"),
        }
    }
}
