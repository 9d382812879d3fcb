//! Laws, each the contract of a function that does nothing.
ghost use Rattle.std.specs.Prelude.{List, ℕ};
ghost use Rattle.reencode_hooks.specs.Run.{ask};
ghost use Rattle.reencode_core.specs.Faults.{FaultGains, FaultTells, HasFront, OneFront, ReadsOrFails};
ghost use Rattle.reencode_core.specs.Leaves.{core_in, module_in};
ghost use Rattle.reencode_core.specs.Refusals.{FaultIsAnswered, RefusalTells};
ghost use Rattle.reencode_core.specs.Woven.{AcceptedIsAnswered};
ghost use Rattle.reencode_core.specs.WovenLaws.{OutputIsRead, WeaveEnds, WeaveIsRun, WeaveOfNothing};

use reencode_hooks::ReencodeIndices;

/// Bytes that begin with the header of a core module have one front: the sections that stand behind the header side by side, up to
/// where the bytes end or none begins. Where they end there it is their reading, and else that is their fault. That they have a
/// front, and without a reading a fault, is told by refuting that they have none; that they have no two fronts, outright.
pub fn front_is_one()
    ensures some { HasFront }
    ensures either { ReadsOrFails }
    ensures one { OneFront }
{}

/// Bytes behind whose header no section begins at some place, where bytes are left, have no reading; and what is left there
/// says which errors may come of them.
pub fn fault_tells<T: ReencodeIndices>(_reencoder: &T)
    ensures { FaultTells (ask T.reply T.next) }
{}

/// With an error of the bytes the module has gained what all the sections before the fault became, with what the section hook
/// added before each and the closing hook behind it, and of the section hook's own sections before what is at fault all of them.
pub fn fault_gains<T: ReencodeIndices>(_reencoder: &T)
    ensures { FaultGains (ask T.reply T.next) T.adds }
{}

/// With a refusal of the reencoder the run of its hooks over the visits of the reading ends; or where the bytes have none, the run
/// over the visits of the sections before the fault, or over further ones behind these, which are drawn from the bytes from the
/// fault on. None comes of a reencoder that refuses no visit. The first is of `reencode_core`, the second of `parse_core_module`.
pub fn refusal_tells<T: ReencodeIndices>(_reencoder: &T)
    ensures bytes { RefusalTells (ask T.reply T.next) core_in }
    ensures sections { RefusalTells (ask T.reply T.next) module_in }
{}

/// Bytes with a fault give the fault's error of a reencoder that refuses no visit, or a size that is too large, or out of memory:
/// where the clauses `woven` and `after_error` of `reencode_core` hold, or of `parse_core_module`. `A` is the answer's type; the
/// slice may be empty.
pub fn fault_is_answered<T: ReencodeIndices, A>(_reencoder: &T, _answers: &[A])
    ensures { (view : A → List ℕ) → FaultIsAnswered (ask T.reply T.next) T.adds view }
{}

/// Where the section hooks add nothing, the walk with what they add is the plain walk.
pub fn weave_of_nothing<T: ReencodeIndices>(_reencoder: &T)
    ensures { WeaveOfNothing (ask T.reply T.next) }
{}

/// Whatever the section hooks add, the walk with it ends as the plain walk does: accepted or by the same refusal, in the same
/// state.
pub fn weave_ends<T: ReencodeIndices>(_reencoder: &T)
    ensures { WeaveEnds (ask T.reply T.next) }
{}

/// A walk with what the section hooks add over a tree that bytes spell is accepted exactly where the fold of the hooks over its
/// visits is, and no frame of the filled tree is above the ceiling; it gives the filled tree with what is added where it is.
pub fn weave_is_run<T: ReencodeIndices>(_reencoder: &T)
    ensures { WeaveIsRun (ask T.reply T.next) }
{}

/// Where the sections that the hooks add at the section visits of a reading have readings, the output of an accepted walk over it
/// is read as one tree alone: the filled tree, with the readings of what was added in their places.
pub fn output_is_read<T: ReencodeIndices>(_reencoder: &T)
    ensures { OutputIsRead (ask T.reply T.next) T.adds }
{}

/// What answers as the clause `woven` of `reencode_core` says is complete: where the bytes have a reading, no section that the
/// section hooks add at one of its visits is above the ceiling, and the walk over the reading with the added sections is accepted,
/// the answer is the normal spelling of its tree, in its state, or memory runs out. `A` is the answer's type; the slice may be
/// empty.
pub fn accepted_is_answered<T: ReencodeIndices, A>(_reencoder: &T, _answers: &[A])
    ensures { (view : A → List ℕ) → AcceptedIsAnswered (ask T.reply T.next) T.adds view }
{}
