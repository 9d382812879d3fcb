//! A reencoder that refuses one of its hook calls: every call before it is made, and none behind it.
ghost use Rattle.std.specs.Prelude.{◌≡◌, not};
ghost use Rattle.reencode_hooks.specs.Hooks.{is_of_components};
ghost use Rattle.library_cases.specs.Refusing.{may_refuse, next_call, refuses_call, refuses_call-given};

use crate::modules::Bounds;
use crate::renamed::{Of, made_of};
use crate::stop::Stop;
use crate::text::add_as;
use reencode_component::{
    AnswerComponentVisits, DefaultComponent, DefaultComponentItems, DefaultComponentRows,
};
use reencode_core::DefaultReencode;
use reencode_hooks::{AnswerVisits, utils};
use reencode_items::DefaultItems;
use std::alloc::Global;
use wasm_shapes::{Space, Visit};

/// Answers each index as it is, and refuses the call of one number with that number.
#[derive(Clone, Copy)]
struct Refusing {
    calls: u32,
    at: u32,
}

/// Whether a space is one of core modules, or the number of their data segments.
fn is_of_core(space: Space) -> bool
    ensures { result ≡ not (is_of_components space) }
{
    match space {
        Space::Data
        | Space::Element
        | Space::Function
        | Space::Global
        | Space::Memory
        | Space::Table
        | Space::Tag
        | Space::Type_
        | Space::DataCount => true,
        _ => false,
    }
}

/// Whether a visit may be refused.
fn is_refusable(visit: Visit) -> bool
    ensures { result ≡ may_refuse visit }
{
    match visit {
        Visit::Index(space, _) | Visit::Outer(space, _, _) => is_of_core(space),
        Visit::Section(..) | Visit::Closed(_) => true,
        Visit::Push | Visit::Pop => false,
    }
}

impl AnswerVisits for Refusing {
    ghost use Rattle.std.specs.Prelude.{true};

    type Error = u32;

    ghost reply = { λ s visit. refuses_call s.calls s.at visit };

    ghost next = { λ s _. record s { calls = next_call s.calls } };

    ghost keeps_defaults = { true };

    fn answer(&mut self, visit: Visit) -> Result<u32, u32> {
        self.calls = self.calls.saturating_add(1);
        if self.calls == self.at && is_refusable(visit) {
            Err(self.at)
        } else {
            Ok(utils::index_of(visit))
        }
    }

    ghost answers_ok = { λ s visit h. refuses_call-given s.calls s.at visit h };
}

impl DefaultItems for Refusing {}

impl DefaultReencode for Refusing {}

impl AnswerComponentVisits for Refusing {}

impl DefaultComponentItems for Refusing {}

impl DefaultComponentRows for Refusing {}

impl DefaultComponent for Refusing {}

/// What comes of it where the call of one number is refused, and how many calls were made.
pub fn told(
    alloc: Global,
    of: Of,
    at: u32,
    bytes: &[u8],
    bounds: Bounds,
    is_counted: bool,
) -> Result<String, Stop> {
    let mut refusing = Refusing { calls: 0, at };
    let mut text = made_of(alloc, &mut refusing, of, bytes, bounds)?;
    if is_counted {
        add_as(&mut text, "calls", &refusing.calls)?;
    }
    Ok(text)
}
