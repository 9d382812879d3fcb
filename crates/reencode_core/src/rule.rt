//! A core module through a rule for indices, or checked by one.
ghost use Rattle.std.specs.Prelude.{IfOk, IfErr};
ghost use Rattle.reencode_hooks.specs.declared.rule.ByRule.{ByRule as Ruled};
ghost use Rattle.reencode_core.specs.Checks.{IsAccepted, IsRefused, IsUnread};
ghost use Rattle.reencode_core.specs.Rules.{GivesByRule, IfUser, IsMade, IsRefusal, IsRenamed};

use crate::defaults::DefaultReencode;
use crate::reencode::reencode_core;
use reencode_hooks::{AnswerVisits, ByRule, Error, IndexRule, utils};
use reencode_items::DefaultItems;
use std::alloc::Global;
use wasm_shapes::Visit;

/// Reads a core module and answers its bytes in normal spelling, with each index replaced by the rule's answer.
///
/// It is `reencode_core` with the reencoder `ByRule` of the rule, and gives what that gives, with the cause of each error.
pub fn reencode_by_rule<R: IndexRule + Drop>(
    alloc: Global,
    rule: R,
    bytes: &[u8],
    ceiling: u32,
) -> Result<Vec<u8>, Error<R::Error>>
    ensures ok { IfOk result (λ out. IsRenamed (R.renamed rule) bytes.now out.items) }
    ensures refused { IfErr result (λ e. IfUser e (IsRefusal (R.renamed rule) bytes.now)) }
    ensures made { IfErr result (λ e. IsMade (R.renamed rule) ceiling bytes.now e) }
    ensures gives { GivesByRule {S = Ruled R} (λ of. R.renamed of.rule) ceiling bytes.now
        (record { rule = rule }) result (λ out. out.items) }
{
    let mut reencoder = ByRule { rule };
    reencode_core(alloc, &mut reencoder, bytes, ceiling)
}

/// Answers each index as it is, and keeps the first refusal of a rule.
#[derive(Drop)]
struct Checking<R, E> {
    rule: R,
    refusal: Option<E>,
}

impl<R: IndexRule> AnswerVisits for Checking<R, R::Error>
where
    R::Error: Drop,
{
    ghost use Rattle.std.specs.Prelude.{true, Ok};
    ghost use Rattle.reencode_hooks.specs.Hooks.{index_of, index_of-given};
    ghost use Rattle.reencode_core.specs.Checks.{noted};

    type Error = R::Error;

    ghost reply = { λ _ visit. Ok (index_of visit) };

    ghost next = { λ s visit. record s { refusal = noted (R.renamed s.rule) s.refusal visit } };

    ghost keeps_defaults = { true };

    ghost answers_ok = { λ _ visit h. index_of-given visit h };

    fn answer(&mut self, visit: Visit) -> Result<u32, R::Error> {
        if self.refusal.is_none() {
            match visit {
                Visit::Index(space, index) | Visit::Outer(space, _, index) => {
                    self.refusal = self.rule.index(space, index).err();
                }
                Visit::Section(..) | Visit::Closed(_) | Visit::Push | Visit::Pop => {}
            }
        }
        Ok(utils::index_of(visit))
    }
}

impl<R: IndexRule> DefaultItems for Checking<R, R::Error>
where
    R::Error: Drop,
{}

impl<R: IndexRule> DefaultReencode for Checking<R, R::Error>
where
    R::Error: Drop,
{}

/// Reads a core module and asks the rule for each index, up to the first that it refuses. It gives no output.
///
/// Each answer and each refusal is of a core module: where the bytes are none, an error of theirs comes, whatever the rule says of
/// the indices before the fault. It takes as much memory as `reencode_by_rule`, and gives it back.
pub fn check_by_rule<R: IndexRule + Drop>(
    alloc: Global,
    rule: R,
    bytes: &[u8],
) -> Result<(), Error<R::Error>>
where
    R::Error: Drop,
    ensures accepted { IfOk result (λ _. IsAccepted (R.renamed rule) bytes.now) }
    ensures refused { IfErr result (λ e. IfUser e (IsRefused (R.renamed rule) bytes.now)) }
    ensures unread { IfErr result (λ e. IsUnread bytes.now e) }
{
    let mut checking = Checking {
        rule,
        refusal: None,
    };
    match reencode_core(alloc, &mut checking, bytes, u32::MAX) {
        Ok(_) => {
            let Checking { rule: _, refusal } = checking;
            match refusal {
                Some(refusal) => Err(Error::UserError(refusal)),
                None => Ok(()),
            }
        }
        Err(e) => Err(e),
    }
}
