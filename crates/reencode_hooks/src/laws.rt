//! Laws of walks and runs, each the contract of a function that does nothing.
ghost use Rattle.reencode_hooks.specs.Run.{ask};
ghost use Rattle.reencode_hooks.specs.Frames.{FramesAreInOrder};
ghost use Rattle.reencode_hooks.specs.Laws.{AreInRange, WalkIsPassed, WalkIsRun, WalkStops, WalkRefuses, WalkVisits, MomentsAre};

use crate::indices::ReencodeIndices;

/// A walk over a tree is the fold of the hooks over its visits with the frames measured where they close, and gives the
/// tree with the answers filled in.
pub fn walk_is_passed<T: ReencodeIndices>(_reencoder: &T)
    ensures { WalkIsPassed (ask T.reply T.next) }
{}

/// A walk over a tree that bytes spell is accepted exactly where the fold of the hooks over its visits is, and no frame of
/// the filled tree is above the ceiling.
pub fn walk_is_run<T: ReencodeIndices>(_reencoder: &T)
    ensures { WalkIsRun (ask T.reply T.next) }
{}

/// A walk is refused exactly where a visit is refused, or a frame is above the ceiling, before any other.
pub fn walk_stops<T: ReencodeIndices>(_reencoder: &T)
    ensures { WalkStops (ask T.reply T.next) }
{}

/// The reencoder's refusal of a walk is that of the fold of the hooks over the tree's visits; and where that fold is
/// refused, so is the walk, unless a frame was above the ceiling before.
pub fn walk_refuses<T: ReencodeIndices>(_reencoder: &T)
    ensures { WalkRefuses (ask T.reply T.next) }
{}

/// The state after a walk is that of the fold of the hooks over a front part of the tree's visits.
pub fn walk_visits<T: ReencodeIndices>(_reencoder: &T)
    ensures { WalkVisits (ask T.reply T.next) }
{}

/// What happens on a walk: the visits of the tree in their order, and the frames of the filled tree.
pub fn moments_are()
    ensures { MomentsAre }
{}

/// The visits of what was read are in range, and so are their answers.
pub fn visits_are_in_range<T: ReencodeIndices>(_reencoder: &T)
    ensures { AreInRange T.reply T.next }
{}

/// In a reading of a core module, filled or not, the frames close in the order of the bytes.
#[tactic(auto, using(crate::proofs::Frames::frames_in_order))]
pub fn frames_are_in_order()
    ensures { FramesAreInOrder }
{}
