//! Two reencoders, one after the other.
ghost use Rattle.std.specs.Prelude.{◌≡◌, ◌&&◌, true};
ghost use Rattle.reencode_hooks.specs.Chains.{as_first, as_second, chain_adds, chain_adds_ok, chain_answers, chain_next, chain_reply, chain_text};

use crate::error::Error;
use crate::indices::ReencodeIndices;
use std::fmt;
use wasm_shapes::SectionId;
use wasm_write::Module;

/// Each index is answered by `a`, and that answer by `b`, which is not asked where `a` refused. The section hook of `a` is
/// called before that of `b`, and so is its closing hook.
///
/// It keeps every default, adds nothing where neither of the two adds, and never wants memory where neither of them does. Of
/// the two only these hooks are asked: what either overrides of the traits above is not.
#[derive(Clone, Copy, Debug, Drop)]
pub struct Chain<A, B> {
    pub a: A,
    pub b: B,
}

/// The refusal of one of the two reencoders of a chain.
#[derive(Clone, Copy, Debug, Drop, PartialEq)]
pub enum ChainError<X, Y> {
    /// The first one's.
    First(X),
    /// The second one's.
    Second(Y),
}

impl<X: fmt::Display, Y: fmt::Display> fmt::Display for ChainError<X, Y> {
    ghost output = { chain_text X.output Y.output };

    fn fmt<W: fmt::Write>(&self, f: &mut fmt::Formatter<W>) -> fmt::Result {
        match self {
            ChainError::First(e) => write!(f, "{e} by 1"),
            ChainError::Second(e) => write!(f, "{e} by 2"),
        }
    }
}

impl<A, B> Chain<A, B> {
    /// The chain of the two.
    pub fn new(a: A, b: B) -> Chain<A, B>
        ensures { result ≡ record { a = a; b = b } }
    {
        Chain { a, b }
    }

    /// The one that is asked first.
    pub fn first(&self) -> &A
        ensures { result.now ≡ self.now.a }
    {
        &self.a
    }

    /// The one that is asked second.
    pub fn second(&self) -> &B
        ensures { result.now ≡ self.now.b }
    {
        &self.b
    }
}

// An error of the first one as the chain's.
#[inline(always)]
fn first<X, Y>(e: Error<X>) -> Error<ChainError<X, Y>>
    ensures { result ≡ as_first e }
{
    match e {
        Error::CanonicalizedHeapTypeReference => Error::CanonicalizedHeapTypeReference,
        Error::InvalidConstExpr => Error::InvalidConstExpr,
        Error::InvalidCodeSectionSize => Error::InvalidCodeSectionSize,
        Error::UnexpectedNonCoreModuleSection => Error::UnexpectedNonCoreModuleSection,
        Error::UnexpectedNonComponentSection => Error::UnexpectedNonComponentSection,
        Error::UnsupportedCoreTypeInComponent => Error::UnsupportedCoreTypeInComponent,
        Error::ParseError(e) => Error::ParseError(e),
        Error::UserError(e) => Error::UserError(ChainError::First(e)),
        Error::TooLarge { size } => Error::TooLarge { size },
        Error::NoMemory => Error::NoMemory,
    }
}

// An error of the second one as the chain's.
#[inline(always)]
fn second<X, Y>(e: Error<Y>) -> Error<ChainError<X, Y>>
    ensures { result ≡ as_second e }
{
    match e {
        Error::CanonicalizedHeapTypeReference => Error::CanonicalizedHeapTypeReference,
        Error::InvalidConstExpr => Error::InvalidConstExpr,
        Error::InvalidCodeSectionSize => Error::InvalidCodeSectionSize,
        Error::UnexpectedNonCoreModuleSection => Error::UnexpectedNonCoreModuleSection,
        Error::UnexpectedNonComponentSection => Error::UnexpectedNonComponentSection,
        Error::UnsupportedCoreTypeInComponent => Error::UnsupportedCoreTypeInComponent,
        Error::ParseError(e) => Error::ParseError(e),
        Error::UserError(e) => Error::UserError(ChainError::Second(e)),
        Error::TooLarge { size } => Error::TooLarge { size },
        Error::NoMemory => Error::NoMemory,
    }
}

// Asks `a`, and then `b` with its answer.
macro_rules! ask_both {
    ($chain:ident, $hook:ident, $index:ident) => {
        match $chain.a.$hook($index) {
            Ok(answer) => match $chain.b.$hook(answer) {
                Ok(answer) => Ok(answer),
                Err(e) => Err(second(e)),
            },
            Err(e) => Err(first(e)),
        }
    };
}

// Calls a section hook of `a`, and then that of `b`.
macro_rules! call_both {
    ($chain:ident, $hook:ident, $module:ident, $($kind:ident),+) => {
        match $chain.a.$hook($module, $($kind),+) {
            Ok(()) => match $chain.b.$hook($module, $($kind),+) {
                Ok(()) => Ok(()),
                Err(e) => Err(second(e)),
            },
            Err(e) => Err(first(e)),
        }
    };
}

impl<A: ReencodeIndices, B: ReencodeIndices> ReencodeIndices for Chain<A, B> {
    type Error = ChainError<A::Error, B::Error>;

    ghost reply = { chain_reply A.reply B.reply };

    ghost next = { chain_next A.reply A.next B.next };

    ghost adds = { chain_adds A.adds B.adds };

    ghost keeps_defaults = { true };

    ghost adds_nothing = { A.adds_nothing && B.adds_nothing };

    ghost sure = { A.sure && B.sure };

    ghost answers_ok = { chain_answers A.reply B.reply A.answers_ok B.answers_ok };

    ghost adds_ok = { chain_adds_ok A.adds B.adds A.adds_nothing B.adds_nothing A.adds_ok B.adds_ok };

    fn data_index(&mut self, index: u32) -> Result<u32, Error<ChainError<A::Error, B::Error>>> {
        ask_both!(self, data_index, index)
    }

    fn element_index(&mut self, index: u32) -> Result<u32, Error<ChainError<A::Error, B::Error>>> {
        ask_both!(self, element_index, index)
    }

    fn function_index(&mut self, index: u32) -> Result<u32, Error<ChainError<A::Error, B::Error>>> {
        ask_both!(self, function_index, index)
    }

    fn global_index(&mut self, index: u32) -> Result<u32, Error<ChainError<A::Error, B::Error>>> {
        ask_both!(self, global_index, index)
    }

    fn memory_index(&mut self, index: u32) -> Result<u32, Error<ChainError<A::Error, B::Error>>> {
        ask_both!(self, memory_index, index)
    }

    fn table_index(&mut self, index: u32) -> Result<u32, Error<ChainError<A::Error, B::Error>>> {
        ask_both!(self, table_index, index)
    }

    fn tag_index(&mut self, index: u32) -> Result<u32, Error<ChainError<A::Error, B::Error>>> {
        ask_both!(self, tag_index, index)
    }

    fn type_index(&mut self, index: u32) -> Result<u32, Error<ChainError<A::Error, B::Error>>> {
        ask_both!(self, type_index, index)
    }

    fn data_count(&mut self, count: u32) -> Result<u32, Error<ChainError<A::Error, B::Error>>> {
        ask_both!(self, data_count, count)
    }

    fn intersperse_section_hook(
        &mut self,
        module: &mut Module,
        after: Option<SectionId>,
        before: Option<SectionId>,
    ) -> Result<(), Error<ChainError<A::Error, B::Error>>> {
        call_both!(self, intersperse_section_hook, module, after, before)
    }

    fn close_section_hook(
        &mut self,
        module: &mut Module,
        section: SectionId,
    ) -> Result<(), Error<ChainError<A::Error, B::Error>>> {
        call_both!(self, close_section_hook, module, section)
    }
}
