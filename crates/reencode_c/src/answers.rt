//! The reencoder that answers by a list.
ghost use Rattle.std.specs.Prelude.{◌≡◌, ◌+◌, drop, length};
ghost use Rattle.reencode_c.specs.Visits.{answer_or, tally};

use reencode_component::{
    AnswerComponentVisits, DefaultComponent, DefaultComponentItems, DefaultComponentRows,
};
use reencode_core::DefaultReencode;
use reencode_hooks::{AnswerVisits, Unmapped};
use reencode_items::DefaultItems;
use std::marker::Model;
use wasm_shapes::Visit;

/// Answers each visit by the next one of a list, the section hook and the closing hook aside. Where none is left, an index stays as it is.
#[derive(Drop)]
pub struct Answers<'a> {
    left: &'a [u32],
    // how many visits were asked
    count: u64,
}

impl<'a> Model for Answers<'a> {
    ghost use Rattle.reencode_c.specs.Visits.{Answering, answering_code};

    ghost Value = { Answering };

    ghost coded = { answering_code };

    ghost view = { λ a. record { left = a.left.now; count = a.count } };
}

impl<'a> Answers<'a> {
    pub fn new(answers: &'a [u32]) -> Answers<'a>
        ensures { result ≡ record { left = answers.now; count = 0 } }
    {
        Answers {
            left: answers,
            count: 0,
        }
    }

    /// How many answers are left.
    pub fn left(&self) -> usize
        ensures { result ≡ length self.now.left }
    {
        self.left.len()
    }

    /// How many visits were asked.
    pub fn count(&self) -> u64
        ensures { result ≡ self.now.count }
    {
        self.count
    }

    /// Takes the next answer, to this index.
    #[inline(always)]
    fn take(&mut self, index: u32) -> u32
        ensures answer { result ≡ answer_or self.old.left index }
        ensures after { self.new ≡ record { left = drop 1 self.old.left; count = tally (self.old.count + 1) } }
    {
        self.count = self.count.saturating_add(1);
        match self.left.split_first() {
            Some((answer, left)) => {
                self.left = left;
                *answer
            }
            None => index,
        }
    }
}

impl<'a> AnswerVisits for Answers<'a> {
    ghost use Rattle.std.specs.Prelude.{true};
    ghost use Rattle.reencode_c.specs.Visits.{answers_given, answers_next, answers_reply};

    type Error = Unmapped;

    ghost reply = { answers_reply };

    ghost next = { answers_next };

    ghost keeps_defaults = { true };

    ghost answers_ok = { answers_given };

    #[inline(always)]
    fn answer(&mut self, visit: Visit) -> Result<u32, Unmapped> {
        match visit {
            Visit::Index(_, index) | Visit::Outer(_, _, index) => Ok(self.take(index)),
            Visit::Section(..) | Visit::Closed(_) => Ok(0),
            Visit::Push | Visit::Pop => {
                self.take(0);
                Ok(0)
            }
        }
    }
}

impl<'a> AnswerComponentVisits for Answers<'a> {}

impl<'a> DefaultItems for Answers<'a> {}

impl<'a> DefaultReencode for Answers<'a> {}

impl<'a> DefaultComponentItems for Answers<'a> {}

impl<'a> DefaultComponentRows for Answers<'a> {}

impl<'a> DefaultComponent for Answers<'a> {}
