//! Why a writer refused.

/// Why nothing was added.
#[derive(Debug, Clone, Copy, PartialEq)]
pub enum WriteFault {
    /// A frame is longer than the ceiling, or a count or a length would pass 2^32 - 1: this is that number.
    TooLarge { size: u64 },
    /// Out of memory.
    NoMemory,
}
