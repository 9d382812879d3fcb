//! The laws of lengths, as a function that does nothing: its contract is the law.
ghost use Rattle.wasm_write.specs.Laws.{IsShortest};

/// The normal spelling of what was read is the shortest, and its frames fit where the bytes do.
#[tactic(auto, using(crate::proofs::FramesFit::is_shortest))]
pub fn normal_is_shortest()
    ensures { IsShortest }
{}
