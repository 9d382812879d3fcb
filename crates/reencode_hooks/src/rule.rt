//! Reencoders that ask one rule for each index.
ghost use Rattle.std.specs.Prelude.{◌≡◌, ℕ, Result};
ghost use Rattle.wasm_shapes.specs.declared.Space.{Space};
ghost use Rattle.reencode_hooks.specs.Rules.{IsRule};

use crate::answer_visits::AnswerVisits;
use wasm_shapes::{Space, Visit};

/// A rule for indices: it answers each index of each space by the space and the index alone.
///
/// `ByRule` is the reencoder of a rule.
pub trait IndexRule {
    /// Why an index is refused.
    type Error;

    // The new index of a space, or its refusal.
    ghost renamed: { Self → Space → ℕ → Result ℕ Self.Error };

    /// The new index of a space, or its refusal. The count that a data count section holds is one of the space `DataCount`.
    fn index(&self, space: Space, index: u32) -> Result<u32, Self::Error>
        ensures { result ≡ renamed self.now space index };

    // An answer is an index, and a component's index is never refused.
    ghost is_rule: { IsRule renamed };
}

/// The reencoder of a rule. It adds no section, never wants memory, and keeps every default.
#[derive(Debug, Drop)]
pub struct ByRule<R> {
    pub rule: R,
}

impl<R: IndexRule> AnswerVisits for ByRule<R> {
    ghost use Rattle.std.specs.Prelude.{true};
    ghost use Rattle.reencode_hooks.specs.Rules.{by_rule, rule_answers};

    type Error = R::Error;

    ghost reply = { λ s visit. by_rule (R.renamed s.rule) visit };

    ghost next = { λ s _. s };

    ghost keeps_defaults = { true };

    ghost answers_ok = { λ s visit h. rule_answers R.renamed R.is_rule s.rule visit h };

    #[inline(always)]
    fn answer(&mut self, visit: Visit) -> Result<u32, R::Error> {
        match visit {
            Visit::Index(space, index) | Visit::Outer(space, _, index) => {
                self.rule.index(space, index)
            }
            Visit::Section(..) | Visit::Closed(_) | Visit::Push | Visit::Pop => Ok(0),
        }
    }
}
