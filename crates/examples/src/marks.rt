//! An instrumenter's step: a custom section with the tool's own marks is added.
ghost use Rattle.std.specs.Prelude.{IfErr, IfOk};
ghost use Rattle.reencode_core.specs.Interspersed.{IsInterspersed, IsMadeBetween};
ghost use Rattle.examples.specs.Marks.{custom_row, marked, of_kind};

use reencode_core::{Adding, SectionRule, reencode_core};
use reencode_hooks::{Error, RoundtripReencoder};
use std::alloc::Global;
use std::convert::Infallible;
use wasm_shapes::SectionId;
use wasm_write as w;

/// A custom section with the marks of a tool.
#[derive(Clone, Copy, Debug)]
pub struct Marks<'a> {
    /// It stands directly behind each section of this kind.
    pub behind: SectionId,
    pub name: &'a str,
    pub contents: &'a [u8],
}

impl<'a> SectionRule for Marks<'a> {
    ghost use Rattle.std.specs.Prelude.{[]};

    ghost sections = { λ _ _ _. [] };

    ghost behind = { λ marks.
        of_kind marks.behind (custom_row marks.name.now marks.contents.now) };

    fn add_sections(
        &self,
        _module: &mut w::Module,
        _after: Option<SectionId>,
        _before: Option<SectionId>,
    ) -> Result<(), w::WriteFault> {
        Ok(())
    }

    fn add_behind(&self, module: &mut w::Module, section: SectionId) -> Result<(), w::WriteFault> {
        if section == self.behind {
            module.section(&w::CustomSection {
                name: self.name,
                contents: self.contents,
            })?;
        }
        Ok(())
    }
}

/// The module with the marks behind each section of their kind.
///
/// They stand directly behind it: a custom section that followed it stands behind the marks. A kind that stands twice is marked
/// twice.
pub fn add_marks(
    alloc: Global,
    bytes: &[u8],
    marks: Marks<'_>,
) -> Result<Vec<u8>, Error<Infallible>>
    ensures ok { IfOk result (λ out. IsInterspersed
        (marked marks.entry.behind
        (custom_row marks.entry.name.now marks.entry.contents.now)) bytes.now out.items) }
    ensures made { IfErr result (IsMadeBetween
        (marked marks.entry.behind
        (custom_row marks.entry.name.now marks.entry.contents.now)) 4294967295 bytes.now) }
{
    let mut reencoder = Adding {
        reencoder: RoundtripReencoder,
        sections: marks,
    };
    reencode_core(alloc, &mut reencoder, bytes, u32::MAX)
}
