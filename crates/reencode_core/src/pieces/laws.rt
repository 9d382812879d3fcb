//! Laws, each the contract of a function that does nothing.
ghost use Rattle.reencode_core.specs.Kept.{FillIsOwn, KeptIsAnswered, SpellingIsKept};

/// A tree stays as it is exactly where each of its visits is answered by the index that it asks.
#[tactic(auto, using(crate::proofs::kept_pieces::KeptLaws::fill_is_own))]
pub fn fill_is_own()
    ensures { FillIsOwn }
{}

/// The normal spelling of a filled tree is the bytes that spelled the tree exactly where these spell it normally, and each
/// visit was answered by the index that it asks.
#[tactic(auto, using(crate::proofs::kept_pieces::KeptLaws::spelling_is_kept))]
pub fn spelling_is_kept()
    ensures { SpellingIsKept }
{}

/// What is kept by the tree that a module becomes is kept by the answers that make it: the function bodies that are spelled
/// normally, and each of whose visits was answered by the index that it asks.
#[tactic(auto, using(crate::proofs::kept_pieces::KeptAnswers::kept_is_answered))]
pub fn kept_is_answered()
    ensures { KeptIsAnswered }
{}
