//! The first index of a module that is not there.
ghost use Rattle.std.specs.Prelude.{◌≡◌, ℕ, List, IfErr, IfOk};
ghost use Rattle.wasm_shapes.specs.Tree.{Tree};
ghost use Rattle.reencode_core.specs.Checks.{IsUnread};
ghost use Rattle.filled_modules.specs.Limits.{IsFirstPast, below_limit, below_limit_is_rule, limit_of, no_limits};
ghost use Rattle.filled_modules.specs.Readings.{IsFaultOr, Reads};

use reencode_core::check_by_rule;
use reencode_hooks::{Error, IndexRule};
use std::alloc::Global;
use std::convert::Infallible;
use wasm_shapes::Space;

/// How many indices each space has that are there: those below this number. Where none is said, every index is.
#[derive(Clone, Copy, Debug)]
pub struct Limits {
    pub data: Option<u64>,
    pub elements: Option<u64>,
    pub functions: Option<u64>,
    pub globals: Option<u64>,
    pub memories: Option<u64>,
    pub tables: Option<u64>,
    pub tags: Option<u64>,
    pub types: Option<u64>,
}

impl Limits {
    /// No limit of any space.
    pub fn none() -> Limits
        ensures { result ≡ no_limits }
    {
        Limits {
            data: None,
            elements: None,
            functions: None,
            globals: None,
            memories: None,
            tables: None,
            tags: None,
            types: None,
        }
    }

    /// The limit of a space; a space that core modules don't have has none.
    pub fn of(&self, space: Space) -> Option<u64>
        ensures { result ≡ limit_of self.now space }
    {
        match space {
            Space::Data => self.data,
            Space::Element => self.elements,
            Space::Function => self.functions,
            Space::Global => self.globals,
            Space::Memory => self.memories,
            Space::Table => self.tables,
            Space::Tag => self.tags,
            Space::Type_ => self.types,
            _ => None,
        }
    }
}

/// This index is not there.
#[derive(Clone, Copy, Debug)]
pub struct Past {
    pub space: Space,
    pub index: u32,
}

impl IndexRule for Limits {
    type Error = Past;

    ghost renamed = { λ limits space index. below_limit limits space index };

    ghost is_rule = { λ limits space index h. below_limit_is_rule limits space index h };

    fn index(&self, space: Space, index: u32) -> Result<u32, Past> {
        match self.of(space) {
            Some(limit) => {
                if u64::from(index) < limit {
                    return Ok(index);
                }
                Err(Past { space, index })
            }
            None => Ok(index),
        }
    }
}

/// The first index of a module that is not there, in the order of the visits, or that each is. An error is the fault of bytes that
/// are no module, or out of memory.
pub fn first_past(
    alloc: Global,
    limits: Limits,
    bytes: &[u8],
) -> Result<Option<Past>, Error<Infallible>>
    ensures ok { IfOk result (λ past. Reads bytes.now (λ t. IsFirstPast (limit_of limits) t past)) }
    ensures err { IfErr result (IsFaultOr bytes.now) }
{
    match check_by_rule(alloc, limits, bytes) {
        Ok(()) => Ok(None),
        Err(Error::UserError(past)) => Ok(Some(past)),
        Err(e) => Err(fault_of(e)),
    }
}

/// The fault of some bytes, or out of memory.
fn fault_of(e: Error<Past>) -> Error<Infallible>
    ensures { (bytes : List ℕ) → IsUnread bytes e → IsFaultOr bytes result }
{
    match e {
        Error::ParseError(e) => Error::ParseError(e),
        Error::InvalidCodeSectionSize => Error::InvalidCodeSectionSize,
        Error::UnexpectedNonCoreModuleSection => Error::UnexpectedNonCoreModuleSection,
        _ => Error::NoMemory,
    }
}
