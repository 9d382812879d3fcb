//! Reencoders that add sections by a rule.
ghost use Rattle.std.specs.Prelude.{◌≡◌, ◌++◌, List, Option, OnOk, OnErr, IfErr};
ghost use Rattle.wasm_shapes.specs.declared.SectionId.{SectionId};
ghost use Rattle.wasm_write.specs.Faults.{IfTooLarge};
ghost use Rattle.wasm_write.specs.Sections.{SectionRow};
ghost use Rattle.reencode_hooks.specs.Hooks.{Gains, GainsPart, HasTooLarge, at_section, at_section-keeps, both_keep};

use crate::defaults::DefaultReencode;
use reencode_hooks::{Error, ReencodeIndices};
use reencode_items::DefaultItems;
use wasm_shapes::SectionId;
use wasm_write as w;

/// A rule for sections: it adds sections between two others, or directly behind one, by the kinds of these alone.
///
/// `Adding` is the reencoder that adds them.
pub trait SectionRule {
    // The sections that it adds, behind one of the first kind and before one of the second.
    ghost sections: { Self → Option SectionId → Option SectionId → List SectionRow };

    // The sections that it adds directly behind one of a kind.
    ghost behind: { Self → SectionId → List SectionRow };

    /// Adds the rule's sections at the end of the module, between a section of the kind `after` and one of the kind `before`. At
    /// the module's front `after` is None, and at its end `before` is None. Custom sections and those of other ids count for
    /// neither.
    ///
    /// An error has added a front part of them. `TooLarge` comes only where one of them has a body above the ceiling, with the
    /// body's length.
    fn add_sections(
        &self,
        module: &mut w::Module,
        after: Option<SectionId>,
        before: Option<SectionId>,
    ) -> Result<(), w::WriteFault>
        ensures ok { OnOk result
            (Gains «module».old «module».new (sections self.now after before)) }
        ensures err { OnErr result
            (GainsPart «module».old «module».new (sections self.now after before)) }
        ensures large { IfErr result (λ e. IfTooLarge e
            (HasTooLarge «module».old.ceiling (sections self.now after before))) };

    /// Adds the rule's sections at the end of the module, directly behind a section of the kind, which was appended just before.
    /// Custom sections and those of other ids have none behind them.
    ///
    /// An error has added a front part of them. `TooLarge` comes only where one of them has a body above the ceiling, with the
    /// body's length.
    fn add_behind(&self, module: &mut w::Module, section: SectionId) -> Result<(), w::WriteFault>
        ensures ok { OnOk result (Gains «module».old «module».new (behind self.now section)) }
        ensures err { OnErr result (GainsPart «module».old «module».new (behind self.now section)) }
        ensures large { IfErr result (λ e. IfTooLarge e
            (HasTooLarge «module».old.ceiling (behind self.now section))) };
}

/// A reencoder that answers each index as another one does, and adds the sections of a rule behind those that the other adds.
///
/// Of the other reencoder the hooks of `ReencodeIndices` are asked, and no method of the traits above: this one keeps every
/// default.
#[derive(Debug, Drop)]
pub struct Adding<R, S> {
    pub reencoder: R,
    pub sections: S,
}

impl<R: ReencodeIndices, S: SectionRule> ReencodeIndices for Adding<R, S> {
    ghost use Rattle.std.specs.Prelude.{true, false};
    ghost use mathlib.Core.Bool.{false≢true};

    type Error = R::Error;

    ghost reply = { λ s visit. R.reply s.reencoder visit };

    ghost next = { λ s visit. record s { reencoder = R.next s.reencoder visit } };

    ghost adds = { λ s visit.
        R.adds s.reencoder visit
        ++ at_section (S.sections s.sections) (S.behind s.sections) visit };

    ghost keeps_defaults = { true };

    ghost adds_nothing = { false };

    ghost sure = { false };

    ghost answers_ok = { λ s visit h. R.answers_ok s.reencoder visit h };

    ghost adds_ok = { both_keep (λ never. absurd (false≢true never))
        (λ s. R.adds_ok s.reencoder)
        (at_section-keeps (λ s. S.sections s.sections) (λ s. S.behind s.sections)) };

    fn data_index(&mut self, index: u32) -> Result<u32, Error<R::Error>> {
        self.reencoder.data_index(index)
    }

    fn element_index(&mut self, index: u32) -> Result<u32, Error<R::Error>> {
        self.reencoder.element_index(index)
    }

    fn function_index(&mut self, index: u32) -> Result<u32, Error<R::Error>> {
        self.reencoder.function_index(index)
    }

    fn global_index(&mut self, index: u32) -> Result<u32, Error<R::Error>> {
        self.reencoder.global_index(index)
    }

    fn memory_index(&mut self, index: u32) -> Result<u32, Error<R::Error>> {
        self.reencoder.memory_index(index)
    }

    fn table_index(&mut self, index: u32) -> Result<u32, Error<R::Error>> {
        self.reencoder.table_index(index)
    }

    fn tag_index(&mut self, index: u32) -> Result<u32, Error<R::Error>> {
        self.reencoder.tag_index(index)
    }

    fn type_index(&mut self, index: u32) -> Result<u32, Error<R::Error>> {
        self.reencoder.type_index(index)
    }

    fn data_count(&mut self, count: u32) -> Result<u32, Error<R::Error>> {
        self.reencoder.data_count(count)
    }

    fn intersperse_section_hook(
        &mut self,
        module: &mut w::Module,
        after: Option<SectionId>,
        before: Option<SectionId>,
    ) -> Result<(), Error<R::Error>> {
        self.reencoder
            .intersperse_section_hook(module, after, before)?;
        Ok(self.sections.add_sections(module, after, before)?)
    }

    fn close_section_hook(
        &mut self,
        module: &mut w::Module,
        section: SectionId,
    ) -> Result<(), Error<R::Error>> {
        self.reencoder.close_section_hook(module, section)?;
        Ok(self.sections.add_behind(module, section)?)
    }
}

impl<R: ReencodeIndices, S: SectionRule> DefaultItems for Adding<R, S> {}

impl<R: ReencodeIndices, S: SectionRule> DefaultReencode for Adding<R, S> {}
