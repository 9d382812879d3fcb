//! The hooks of the reencoders that answer all visits by one method.
ghost use Rattle.std.specs.Prelude.{◌≡◌, true};
ghost use Rattle.wasm_shapes.specs.declared.Visit.TheVariants.{Index, Outer};
ghost use Rattle.reencode_hooks.specs.Hooks.{is_of_components};
ghost use Rattle.reencode_component.specs.Hooks.{Answers};

use crate::indices::ReencodeComponentIndices;
use reencode_hooks::{AnswerVisits, ByRule, Error, IndexRule, Renamer, RoundtripReencoder};
use wasm_shapes::{Space, Visit};

// The answer to an index of a component's space, which is never refused.
#[inline(always)]
fn answered<T: AnswerVisits>(reencoder: &mut T, space: Space, index: u32) -> u32
    requires { is_of_components space ≡ true }
    ensures { Answers T.reply T.next reencoder.old reencoder.new (Index space index) result }
{
    match reencoder.answer(Visit::Index(space, index)) {
        Ok(answer) => answer,
        Err(_) => unreachable!(),
    }
}

// The answer to an index of a component's space, so many scopes further out, which is never refused.
#[inline(always)]
fn answered_outer<T: AnswerVisits>(reencoder: &mut T, space: Space, count: u32, index: u32) -> u32
    requires { is_of_components space ≡ true }
    ensures { Answers T.reply T.next reencoder.old reencoder.new
        (Outer space count index) result }
{
    match reencoder.answer(Visit::Outer(space, count, index)) {
        Ok(answer) => answer,
        Err(_) => unreachable!(),
    }
}

/// A reencoder that answers the visits of components too by its one method.
///
/// It has `ReencodeComponentIndices` by this, and to implement it beside `AnswerVisits` or `KeepIndices` is all that is needed.
pub trait AnswerComponentVisits: AnswerVisits {}

impl AnswerComponentVisits for RoundtripReencoder {}

impl AnswerComponentVisits for Renamer {}

impl<R: IndexRule> AnswerComponentVisits for ByRule<R> {}

impl<T: AnswerComponentVisits> ReencodeComponentIndices for T {
    fn component_type_index(&mut self, index: u32) -> u32 {
        answered(self, Space::ComponentType, index)
    }

    fn component_instance_index(&mut self, index: u32) -> u32 {
        answered(self, Space::ComponentInstance, index)
    }

    fn component_func_index(&mut self, index: u32) -> u32 {
        answered(self, Space::ComponentFunc, index)
    }

    fn component_index(&mut self, index: u32) -> u32 {
        answered(self, Space::Component, index)
    }

    fn module_index(&mut self, index: u32) -> u32 {
        answered(self, Space::Module, index)
    }

    fn instance_index(&mut self, index: u32) -> u32 {
        answered(self, Space::Instance, index)
    }

    fn component_value_index(&mut self, index: u32) -> u32 {
        answered(self, Space::ComponentValue, index)
    }

    fn outer_component_type_index(&mut self, count: u32, index: u32) -> u32 {
        answered_outer(self, Space::ComponentType, count, index)
    }

    fn outer_component_index(&mut self, count: u32, index: u32) -> u32 {
        answered_outer(self, Space::Component, count, index)
    }

    fn outer_module_index(&mut self, count: u32, index: u32) -> u32 {
        answered_outer(self, Space::Module, count, index)
    }

    fn outer_type_index(
        &mut self,
        count: u32,
        index: u32,
    ) -> Result<u32, Error<<T as AnswerVisits>::Error>> {
        match self.answer(Visit::Outer(Space::Type_, count, index)) {
            Ok(answer) => Ok(answer),
            Err(refusal) => Err(Error::UserError(refusal)),
        }
    }

    fn push_depth(&mut self) -> Result<(), Error<<T as AnswerVisits>::Error>> {
        match self.answer(Visit::Push) {
            Ok(_) => Ok(()),
            Err(_) => unreachable!(),
        }
    }

    fn pop_depth(&mut self) {
        match self.answer(Visit::Pop) {
            Ok(_) => {}
            Err(_) => unreachable!(),
        }
    }
}
