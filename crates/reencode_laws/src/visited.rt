//! Laws of what is visited.
ghost use Rattle.wasm_shapes.specs.Scopes.{AreBracketed};
ghost use Rattle.reencode_laws.specs.SectionVisits.{SectionVisitsAre};

/// In a reading of a core module with n sections of the ids 1 to 13 the section hook is asked n + 1 times: before each of these,
/// with the kind of the one before it among them and its own, and at the end, with that of the last. The closing hook is asked n
/// times: behind each of these, with its kind. Within a section neither is asked.
#[tactic(auto, using(crate::proofs::SectionVisits::section_visits_are))]
pub fn section_visits_are()
    ensures { SectionVisitsAre }
{}

/// Each nested scope is opened once before its own visits and closed once behind them, and the outermost module or component is
/// neither opened nor closed.
#[tactic(auto, using(wasm_shapes::proofs::Scopes::bracketed))]
pub fn scopes_are_bracketed()
    ensures { AreBracketed }
{}
