//! Laws of re-encoding with no index renamed.
ghost use Rattle.reencode_hooks.specs.Run.{ask};
ghost use Rattle.reencode_laws.specs.Own.{NothingRenamed, OwnIsNormal, OwnIsNotLonger};

use reencode_hooks::{ReencodeIndices, RoundtripReencoder};

/// `RoundtripReencoder` answers each visit by the index that it asks, and the tree filled with these is the tree. The normal spelling
/// of a reading that fits is read as it alone, of a component at the same depth, so `RoundtripReencoder` gives its own output again.
pub fn own_answers(_reencoder: &RoundtripReencoder)
    ensures { NothingRenamed (ask ⟦<RoundtripReencoder as ReencodeIndices>⟧.reply
        ⟦<RoundtripReencoder as ReencodeIndices>⟧.next) }
{}

/// With no index renamed, what comes out of a reading is what was read exactly where that was spelled normally.
#[tactic(auto, using(crate::proofs::Itself::own_is_normal))]
pub fn own_is_normal()
    ensures { OwnIsNormal }
{}

/// With no index renamed, what comes out of a reading is not longer than what was read.
#[tactic(auto, using(crate::proofs::Itself::own_is_not_longer))]
pub fn own_is_not_longer()
    ensures { OwnIsNotLonger }
{}
