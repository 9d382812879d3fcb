//! A reencoder that overrides methods of the items: every `i32` becomes an `i64`, and every memory one of 64-bit addresses.
//!
//! Its author gives up `keeps_defaults`, and with it each clause `default` and `after_error`: of what comes out only the
//! clauses that hold for every implementation are known, as that a sink gains whole rows. Nothing says that the types of
//! locals and parameters still fit the operators that use them.
ghost use Rattle.std.specs.Prelude.{◌≡◌, IfOk, IsOk};
ghost use Rattle.examples.specs.Widened.{IsWide};

use reencode_core::DefaultSections;
use reencode_hooks::{Error, KeepIndices};
use reencode_items::{ReencodeItems, utils};
use std::convert::Infallible;
use wasm_read as r;
use wasm_write as w;

/// Answers every index as it is, writes every `i32` as an `i64`, and gives every memory 64-bit addresses.
#[derive(Clone, Copy, Debug)]
pub struct Widened;

impl KeepIndices for Widened {
    ghost use Rattle.std.specs.Prelude.{false};

    type Error = Infallible;

    ghost keeps_defaults = { false };
}

impl ReencodeItems for Widened {
    fn val_type(&mut self, val_ty: r::ValType) -> Result<w::ValType, Error<Infallible>> {
        match val_ty {
            r::ValType::I32 | r::ValType::I64 => Ok(w::ValType::I64),
            r::ValType::F32 => Ok(w::ValType::F32),
            r::ValType::F64 => Ok(w::ValType::F64),
            r::ValType::V128 => Ok(w::ValType::V128),
            r::ValType::Ref(ty) => Ok(w::ValType::Ref(self.ref_type(ty)?)),
        }
    }

    /// The memory as the default makes it, with 64-bit addresses. `utils::memory_type` is bounded by `ReencodeIndices`, the trait
    /// below, so it takes the receiver here.
    fn memory_type(&mut self, memory_ty: r::MemoryType) -> Result<w::MemoryType, Error<Infallible>>
        ensures made { IsOk result }
        ensures wide { IfOk result (IsWide memory_ty) }
        ensures state { self.new ≡ self.old }
    {
        Ok(w::MemoryType {
            memory64: true,
            ..utils::memory_type(self, memory_ty)
        })
    }
}

impl DefaultSections for Widened {
    const DIRECT: bool = false;
}
