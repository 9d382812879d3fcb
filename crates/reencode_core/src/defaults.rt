//! The reencoders that keep every default.
use crate::reencode::Reencode;
use crate::{direct, rows};
use reencode_hooks::{
    ByRule, Chain, Error, IndexRule, ReencodeIndices, Renamer, RoundtripReencoder,
};
use reencode_items::{DefaultItems, ReencodeItems};
use std::alloc::Global;
use wasm_read as r;
use wasm_write as w;

/// A reencoder that keeps every default method of `Reencode`, and may override methods of `ReencodeItems`.
///
/// To implement it beside `ReencodeItems` is all that is needed, and costs no proof; `impl Reencode for X {}` proves each default
/// once more for `X`. A reencoder that overrides a method of `Reencode` implements `Reencode` itself.
pub trait DefaultSections: ReencodeItems {
    /// Whether function bodies and types are mapped by `direct::parse_function_body` and `direct::parse_type_section`, which may pass
    /// by a method of `ReencodeItems` that is overridden. Else they are mapped by these methods: a reencoder that overrides one says
    /// `false`.
    const DIRECT: bool;
}

impl<T: DefaultSections> Reencode for T {
    const DIRECT_BODIES: bool = T::DIRECT;

    const DEFAULT_SECTIONS: bool = true;

    fn parse_type_section(
        &mut self,
        alloc: Global,
        types: &mut w::TypeSection,
        section: r::TypeSectionReader<'_>,
    ) -> Result<(), Error<Self::Error>> {
        if T::DIRECT {
            direct::parse_type_section(self, types, section)
        } else {
            rows::parse_type_section(self, alloc, types, section)
        }
    }

    fn parse_function_body(
        &mut self,
        alloc: Global,
        code: &mut w::CodeSection,
        func: r::FunctionBody<'_>,
    ) -> Result<(), Error<Self::Error>> {
        if T::DIRECT {
            direct::parse_function_body(self, alloc, code, func)
        } else {
            rows::parse_function_body(self, alloc, code, func)
        }
    }
}

/// A reencoder that keeps every default method of `ReencodeItems` and `Reencode`. Its function bodies are mapped by
/// `direct::parse_function_body`.
///
/// To implement it beside `DefaultItems` is all that is needed. A reencoder that overrides a method of `ReencodeItems` has
/// `DefaultSections` in its place, and one that overrides a method of `Reencode` implements `Reencode` itself.
pub trait DefaultReencode: DefaultItems {}

impl<T: DefaultReencode> DefaultSections for T {
    const DIRECT: bool = true;
}

impl DefaultReencode for RoundtripReencoder {}

impl DefaultReencode for Renamer {}

impl<R: IndexRule> DefaultReencode for ByRule<R> {}

impl<A: ReencodeIndices, B: ReencodeIndices> DefaultReencode for Chain<A, B> {}
