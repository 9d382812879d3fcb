//! The reencoders that answer every index as it is.
ghost use Rattle.std.specs.Prelude.{true, Bool};

use crate::answer_visits::AnswerVisits;
use crate::utils;
use std::convert::Infallible;
use wasm_shapes::Visit;

/// A reencoder that answers every index as it is, and keeps its state. It refuses nothing, adds no section, and never wants
/// memory.
///
/// It has `ReencodeIndices` by this. What it does to more than indices it says by methods of the traits above.
pub trait KeepIndices {
    /// Why a method of the traits above that it overrides refuses: `Infallible` where none does.
    type Error;

    // Whether each structural method of the traits above meets the clause of its default body.
    ghost keeps_defaults: { Bool };
}

impl<T: KeepIndices> AnswerVisits for T {
    ghost use Rattle.std.specs.Prelude.{Ok};
    ghost use Rattle.reencode_hooks.specs.Hooks.{index_of, index_of-given};

    type Error = <T as KeepIndices>::Error;

    ghost reply = { λ _ visit. Ok (index_of visit) };

    ghost next = { λ s _. s };

    ghost keeps_defaults = { T.KeepIndices.keeps_defaults };

    ghost answers_ok = { λ _ visit h. index_of-given visit h };

    #[inline(always)]
    fn answer(&mut self, visit: Visit) -> Result<u32, <T as KeepIndices>::Error> {
        Ok(utils::index_of(visit))
    }
}

/// Answers every index as it is, and adds no section. It refuses nothing, and never wants memory.
#[derive(Clone, Copy, Debug)]
pub struct RoundtripReencoder;

impl KeepIndices for RoundtripReencoder {
    type Error = Infallible;

    ghost keeps_defaults = { true };
}
