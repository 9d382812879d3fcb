//! Laws, each the contract of a function that does nothing.
ghost use Rattle.wasm_read.specs.Laws.{AreBodiesFramed, AreSubsectionsFramed};

/// A row of a code section is a frame with a body in it.
#[tactic(auto, using(crate::proofs::FramedBodies::bodies_framed))]
pub fn bodies_stand_in_frames()
    ensures { AreBodiesFramed }
{}

/// A subsection of names is a frame; what stands in it is told by its id.
#[tactic(auto, using(crate::proofs::Subsections::subsections_framed))]
pub fn subsections_stand_in_frames()
    ensures { AreSubsectionsFramed }
{}
