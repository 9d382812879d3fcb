//! A renamer that overrides nothing: it maps each row by the default methods. Tests and measures set it beside `Renamer`, which
//! maps function bodies another way.
#![tactic(auto)]

use reencode_core::DefaultSections;
use reencode_hooks::{AnswerVisits, Renamer, Unmapped};
use reencode_items::DefaultItems;
use std::marker::Model;
use wasm_shapes::Visit;

/// Answers as its renamer does.
#[derive(Drop)]
pub struct DefaultRenamer {
    pub renamer: Renamer,
}

impl Model for DefaultRenamer {
    ghost use Rattle.reencode_hooks.specs.Renamings.{Renaming, renaming_code};

    ghost Value = { Renaming };

    ghost coded = { renaming_code };

    ghost view = { λ r. r.renamer };
}

impl AnswerVisits for DefaultRenamer {
    ghost use Rattle.std.specs.Prelude.{true};
    ghost use Rattle.reencode_hooks.specs.Renamings.{renamer_reply, renamer_next};
    ghost use Rattle.reencode_hooks.specs.Renamed.{renamer_answers};

    type Error = Unmapped;

    ghost reply = { renamer_reply };

    ghost next = { renamer_next };

    ghost keeps_defaults = { true };

    ghost answers_ok = { renamer_answers };

    #[inline(always)]
    fn answer(&mut self, visit: Visit) -> Result<u32, Unmapped> {
        self.renamer.answer(visit)
    }
}

impl DefaultItems for DefaultRenamer {}

impl DefaultSections for DefaultRenamer {
    const DIRECT: bool = false;
}
