//! Laws of the definitions.
ghost use Rattle.std.specs.Prelude.{List, ℕ, IfErr, IfOk};
ghost use Rattle.reencode_hooks.specs.Run.{ask};
ghost use Rattle.reencode_core.specs.Clauses.{asks};
ghost use Rattle.reencode_core.specs.Rules.{IfUser};
ghost use Rattle.reencode_component.specs.ComponentFaults.{FaultIsOne};
ghost use Rattle.reencode_component.specs.ComponentLaws.{
  ComponentFaultGains,
  ComponentRefusalTells,
  OkIsReencoded,
  ReencodedIsAnswered,
  UnreadIsAnswered,
};
ghost use Rattle.reencode_component.specs.PlainLaws.{IsAnswered, IsReencoded, IsRefused, OfPlain};
ghost use Rattle.reencode_component.specs.WeaveIn.{WeaveInOfNothing};
ghost use Rattle.reencode_component.specs.WithinLaws.{
  ErrorTells,
  KindTells,
  OutputIsTaken,
  as_binary,
  as_module,
  of_binary,
  of_module,
};
ghost use Rattle.reencode_component.specs.WovenIn.{OkIsWoven, WeaveInIsRun, WovenIsAnswered};

use reencode_hooks::ReencodeIndices;

/// What is wrong with bytes that are read as a component is one fault at most, and then they have no reading.
#[tactic(auto, using(crate::proofs::faults::OneFault::fault_is_one))]
pub fn component_fault_is_one()
    ensures { FaultIsOne }
{}

/// Where the section hooks add nothing, the walk over the sections of a component is the plain walk.
#[tactic(auto, using(crate::proofs::weave::ComponentWalk::weave_in_of_nothing))]
pub fn weave_in_of_nothing<T: ReencodeIndices>(_reencoder: &T)
    ensures { WeaveInOfNothing (ask T.reply T.next) }
{}

/// What is added by a call with the clauses of `parse_component` is the component that the bytes are read as, reencoded.
///
/// Where the reencoder keeps the defaults and its section hooks add nothing, Ok comes only where the bytes are read as a component
/// whose visits the hooks accept and whose filled frames fit under the ceiling. What was added is then the normal spelling of the
/// filled sections, and the state is the one that the run over the visits leaves.
pub fn component_is_reencoded<T: ReencodeIndices>(_reencoder: &T)
    ensures { OkIsReencoded T.ReencodeIndices }
{}

/// A call with the clauses of `parse_component` is complete.
///
/// Where the reencoder keeps the defaults and its section hooks add nothing, bytes that are read as a component whose visits are
/// accepted and whose filled frames fit give Ok with that output and that state, or out of memory.
pub fn component_is_answered<T: ReencodeIndices>(_reencoder: &T)
    ensures { ReencodedIsAnswered T.ReencodeIndices }
{}

/// Bytes that are read as no component give the error of their fault, or a size that is too large, or out of memory, of a reencoder
/// that keeps the defaults and refuses no visit.
pub fn component_fault_is_answered<T: ReencodeIndices>(_reencoder: &T)
    ensures { UnreadIsAnswered T.ReencodeIndices }
{}

/// With a refusal of the reencoder the run of its hooks over the visits of the reading ends; or where the bytes have none, the run
/// over the visits of the sections before the fault, or over further ones behind these, which are drawn from the bytes from the fault
/// on. None comes of a reencoder that refuses no visit.
///
/// Where its section hooks add nothing, no frame above the ceiling closes before the visit that was refused; and with a size that is
/// too large the first frame above the ceiling closes, behind visits that were all accepted.
pub fn component_refusal_tells<T: ReencodeIndices>(_reencoder: &T)
    ensures { ComponentRefusalTells T.ReencodeIndices }
{}

/// With an error of the bytes whose fault stands behind their header, the component has gained what all the sections before the fault
/// became, and no more, where the section hooks add nothing.
pub fn component_fault_gains<T: ReencodeIndices>(_reencoder: &T)
    ensures { ComponentFaultGains T.ReencodeIndices }
{}

/// The walk over the sections of a component is accepted exactly where the fold of the hooks over its visits is, and no frame round
/// what a section becomes is above the ceiling; it gives the filled tree with what the section hooks add to nested modules where it is.
#[tactic(auto, using(crate::proofs::weave::WovenInLaws::weave_in_is_run))]
pub fn weave_in_is_run<T: ReencodeIndices>(_reencoder: &T)
    ensures { WeaveInIsRun (ask T.reply T.next) }
{}

/// What is added by a call with the clauses of `parse_component` is the component that the bytes are read as, reencoded, with what the
/// section hooks add to nested modules where it is.
///
/// Where the reencoder keeps the defaults, Ok comes only where the bytes are read as a component whose visits the hooks accept and
/// whose frames fit under the ceiling, the added sections counted, as does each section that is added. What was added is then the normal
/// spelling of that, and the state is the one that the run over the visits leaves.
pub fn component_is_woven<T: ReencodeIndices>(_reencoder: &T)
    ensures { OkIsWoven T.ReencodeIndices }
{}

/// A call with the clauses of `parse_component` is complete, also where the section hooks add to nested modules.
///
/// Where the reencoder keeps the defaults, bytes that are read as a component whose visits are accepted and whose frames fit, the added
/// sections counted, give Ok with that output and that state, or out of memory, if no section that the hook adds at a visit of the run
/// has a body above the ceiling.
pub fn woven_component_is_answered<T: ReencodeIndices>(_reencoder: &T)
    ensures { WovenIsAnswered T.ReencodeIndices }
{}

/// What `reencode_core` makes of a core module, of a call with its clauses by a plain reencoder: what `ok`, `refused` and `made` of
/// `reencode_by_rule` say of a rule, said of answers that may go by the reencoder's state.
///
/// Ok comes only with the output of the bytes' reading; a refusal is of the first of its visits that is refused; and where all are
/// accepted and the frames fit, that output comes, or memory runs out. `A` is the answer's type; the slice may be empty.
pub fn plain_module_is_made<T: ReencodeIndices, A>(_reencoder: &T, _answers: &[A])
    ensures ok { (view : A → List ℕ) → OfPlain T.ReencodeIndices (of_module T.ReencodeIndices view)
        (λ ceiling bytes before after result. IfOk result (λ out.
        IsReencoded as_module (asks T.ReencodeIndices) ceiling bytes before after (view out))) }
    ensures refused { (view : A → List ℕ) → OfPlain T.ReencodeIndices (of_module T.ReencodeIndices view)
        (λ ceiling bytes before after result. IfErr result (λ e. IfUser e
        (IsRefused as_module (asks T.ReencodeIndices) ceiling bytes before after))) }
    ensures made { (view : A → List ℕ) → OfPlain T.ReencodeIndices (of_module T.ReencodeIndices view)
        (λ ceiling bytes before after result.
        IsAnswered as_module (asks T.ReencodeIndices) ceiling bytes before after result view) }
{}

/// What `reencode_within` makes of a binary, a core module or a component, as `plain_module_is_made` says it of `reencode_core`.
pub fn plain_binary_is_made<T: ReencodeIndices, A>(_reencoder: &T, _answers: &[A])
    ensures ok { (view : A → List ℕ) → OfPlain T.ReencodeIndices (of_binary T.ReencodeIndices view)
        (λ ceiling bytes before after result. IfOk result (λ out.
        IsReencoded as_binary (asks T.ReencodeIndices) ceiling bytes before after (view out))) }
    ensures refused { (view : A → List ℕ) → OfPlain T.ReencodeIndices (of_binary T.ReencodeIndices view)
        (λ ceiling bytes before after result. IfErr result (λ e. IfUser e
        (IsRefused as_binary (asks T.ReencodeIndices) ceiling bytes before after))) }
    ensures made { (view : A → List ℕ) → OfPlain T.ReencodeIndices (of_binary T.ReencodeIndices view)
        (λ ceiling bytes before after result.
        IsAnswered as_binary (asks T.ReencodeIndices) ceiling bytes before after result view) }
{}

/// What `reencode_core` answers, in terms of the reading: of a call with its clauses, where the reencoder keeps the defaults.
///
/// Where its section hooks add nothing, Ok comes only where the bytes are read as a core module whose visits the hooks accept and whose
/// filled frames fit under the ceiling; it is the normal spelling of the filled reading, in the state that the run over the visits
/// leaves. And wherever they are, that is answered, or memory runs out. `A` is the answer's type; the slice may be empty.
pub fn module_is_reencoded<T: ReencodeIndices, A>(_reencoder: &T, _answers: &[A])
    ensures { (view : A → List ℕ)
        → OutputIsTaken as_module T.ReencodeIndices (of_module T.ReencodeIndices view) view }
{}

/// What an error of `reencode_core` tells of the bytes, of a call with its clauses, where the reencoder keeps the defaults.
pub fn module_error_tells<T: ReencodeIndices, A>(_reencoder: &T, _answers: &[A])
    ensures { (view : A → List ℕ)
        → ErrorTells as_module T.ReencodeIndices (of_module T.ReencodeIndices view) }
{}

/// What `reencode_within` answers, in terms of the reading, as `module_is_reencoded` says it of `reencode_core`: the bytes are read as a
/// core module or as a component, and the filled reading is spelled with its header.
pub fn binary_is_reencoded<T: ReencodeIndices, A>(_reencoder: &T, _answers: &[A])
    ensures { (view : A → List ℕ)
        → OutputIsTaken as_binary T.ReencodeIndices (of_binary T.ReencodeIndices view) view }
{}

/// What an error of `reencode_within` tells of the bytes: their fault, that of a component where they begin with the header of one. Bytes
/// without that header never give the error that a component stands where a core module is due.
pub fn binary_error_tells<T: ReencodeIndices, A>(_reencoder: &T, _answers: &[A])
    ensures fault { (view : A → List ℕ)
        → ErrorTells as_binary T.ReencodeIndices (of_binary T.ReencodeIndices view) }
    ensures kind { (view : A → List ℕ)
        → KindTells T.ReencodeIndices (of_binary T.ReencodeIndices view) }
{}
