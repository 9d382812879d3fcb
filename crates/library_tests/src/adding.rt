//! A reencoder with hooks of its own, one of which adds a section.
ghost use Rattle.examples.specs.Marks.{custom_row};
ghost use Rattle.library_tests.specs.Hooks.{put_at, refuses_code, refuses_code-given};

use reencode_hooks::{Error, ReencodeIndices};
use wasm_shapes::SectionId;
use wasm_write as w;

/// Answers each index as it is. Its section hook adds the custom section `x` before a section of code, and then refuses.
#[derive(Clone, Copy)]
pub struct Refusing;

impl ReencodeIndices for Refusing {
    ghost use Rattle.std.specs.Prelude.{true, false, Some, codes, []};
    ghost use Rattle.wasm_shapes.specs.declared.SectionId.TheVariants.{Code};
    ghost use Rattle.reencode_hooks.specs.Hooks.{at_section, at_section-keeps};

    type Error = SectionId;

    ghost reply = { λ _ visit. refuses_code visit };

    ghost next = { λ s _. s };

    ghost adds = { λ _. at_section (λ after before.
        put_at (Some Code) (custom_row (codes "x") []) before) (λ _. []) };

    ghost keeps_defaults = { true };

    ghost adds_nothing = { false };

    ghost sure = { false };

    ghost answers_ok = { λ _ visit h. refuses_code-given visit h };

    ghost adds_ok = { at_section-keeps _ _ };

    fn data_index(&mut self, index: u32) -> Result<u32, Error<SectionId>> {
        Ok(index)
    }

    fn element_index(&mut self, index: u32) -> Result<u32, Error<SectionId>> {
        Ok(index)
    }

    fn function_index(&mut self, index: u32) -> Result<u32, Error<SectionId>> {
        Ok(index)
    }

    fn global_index(&mut self, index: u32) -> Result<u32, Error<SectionId>> {
        Ok(index)
    }

    fn memory_index(&mut self, index: u32) -> Result<u32, Error<SectionId>> {
        Ok(index)
    }

    fn table_index(&mut self, index: u32) -> Result<u32, Error<SectionId>> {
        Ok(index)
    }

    fn tag_index(&mut self, index: u32) -> Result<u32, Error<SectionId>> {
        Ok(index)
    }

    fn type_index(&mut self, index: u32) -> Result<u32, Error<SectionId>> {
        Ok(index)
    }

    fn data_count(&mut self, count: u32) -> Result<u32, Error<SectionId>> {
        Ok(count)
    }

    fn intersperse_section_hook(
        &mut self,
        module: &mut w::Module,
        _after: Option<SectionId>,
        before: Option<SectionId>,
    ) -> Result<(), Error<SectionId>> {
        match before {
            Some(SectionId::Code) => {
                module.section(&w::CustomSection {
                    name: "x",
                    contents: &[],
                })?;
                Err(Error::UserError(SectionId::Code))
            }
            _ => Ok(()),
        }
    }

    fn close_section_hook(
        &mut self,
        _module: &mut w::Module,
        _section: SectionId,
    ) -> Result<(), Error<SectionId>> {
        Ok(())
    }
}
