//! Reencoders that answer all visits by one method.
ghost use Rattle.std.specs.Prelude.{◌≡◌, ℕ, Result, Bool};
ghost use Rattle.wasm_shapes.specs.declared.Visit.{Visit};
ghost use Rattle.reencode_hooks.specs.Hooks.{KeepsAnswers};

use crate::error::Error;
use crate::indices::ReencodeIndices;
use wasm_shapes::{SectionId, Space, Visit};
use wasm_write::Module;

/// A reencoder that answers all visits by one method. It adds no section, and never wants memory.
///
/// It has `ReencodeIndices` by this.
pub trait AnswerVisits {
    /// Why an index, or a call of a section hook, is refused.
    type Error;

    // The answer to a visit, or its refusal.
    ghost reply: { Self → Visit → Result ℕ Self.Error };

    // The state after a visit, refused or not.
    ghost next: { Self → Visit → Self };

    // Whether each structural method of the traits above meets the clause of its default body.
    ghost keeps_defaults: { Bool };

    /// The answer to a visit: the new index, and 0 where none is asked. The count that a data count section holds is an index
    /// of the space `DataCount`.
    fn answer(&mut self, visit: Visit) -> Result<u32, Self::Error>
        ensures answer { result ≡ reply self.old visit }
        ensures state { self.new ≡ next self.old visit };

    // An answer is an index, and a component's index is never refused.
    ghost answers_ok: { KeepsAnswers reply };
}

// Asks for the answer to an index of a space.
macro_rules! ask {
    ($reencoder:ident, $space:expr, $index:ident) => {
        match $reencoder.answer(Visit::Index($space, $index)) {
            Ok(answer) => Ok(answer),
            Err(refusal) => Err(Error::UserError(refusal)),
        }
    };
}

// Asks whether a section hook is refused.
macro_rules! ask_hook {
    ($reencoder:ident, $visit:expr) => {
        match $reencoder.answer($visit) {
            Ok(_) => Ok(()),
            Err(refusal) => Err(Error::UserError(refusal)),
        }
    };
}

impl<T: AnswerVisits> ReencodeIndices for T {
    ghost use Rattle.std.specs.Prelude.{true, [], refl};

    type Error = <T as AnswerVisits>::Error;

    ghost reply = { T.AnswerVisits.reply };

    ghost next = { T.AnswerVisits.next };

    ghost adds = { λ _ _. [] };

    ghost keeps_defaults = { T.AnswerVisits.keeps_defaults };

    ghost adds_nothing = { true };

    ghost sure = { true };

    ghost answers_ok = { T.AnswerVisits.answers_ok };

    ghost adds_ok = { λ _ _ _. refl };

    fn data_index(&mut self, index: u32) -> Result<u32, Error<<T as AnswerVisits>::Error>> {
        ask!(self, Space::Data, index)
    }

    fn element_index(&mut self, index: u32) -> Result<u32, Error<<T as AnswerVisits>::Error>> {
        ask!(self, Space::Element, index)
    }

    fn function_index(&mut self, index: u32) -> Result<u32, Error<<T as AnswerVisits>::Error>> {
        ask!(self, Space::Function, index)
    }

    fn global_index(&mut self, index: u32) -> Result<u32, Error<<T as AnswerVisits>::Error>> {
        ask!(self, Space::Global, index)
    }

    fn memory_index(&mut self, index: u32) -> Result<u32, Error<<T as AnswerVisits>::Error>> {
        ask!(self, Space::Memory, index)
    }

    fn table_index(&mut self, index: u32) -> Result<u32, Error<<T as AnswerVisits>::Error>> {
        ask!(self, Space::Table, index)
    }

    fn tag_index(&mut self, index: u32) -> Result<u32, Error<<T as AnswerVisits>::Error>> {
        ask!(self, Space::Tag, index)
    }

    fn type_index(&mut self, index: u32) -> Result<u32, Error<<T as AnswerVisits>::Error>> {
        ask!(self, Space::Type_, index)
    }

    fn data_count(&mut self, count: u32) -> Result<u32, Error<<T as AnswerVisits>::Error>> {
        ask!(self, Space::DataCount, count)
    }

    fn intersperse_section_hook(
        &mut self,
        _module: &mut Module,
        after: Option<SectionId>,
        before: Option<SectionId>,
    ) -> Result<(), Error<<T as AnswerVisits>::Error>> {
        ask_hook!(self, Visit::Section(after, before))
    }

    fn close_section_hook(
        &mut self,
        _module: &mut Module,
        section: SectionId,
    ) -> Result<(), Error<<T as AnswerVisits>::Error>> {
        ask_hook!(self, Visit::Closed(section))
    }
}
