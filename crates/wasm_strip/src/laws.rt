//! The laws of what is stripped, as functions that do nothing: each one's contract is the law.
ghost use Rattle.wasm_strip.specs.Laws.{HaveOneReading, IsSettled, ReadsAsKept, ReadsAsTidied, StripsUnsorted};

use crate::rule::StripRule;

/// Bytes have one reading as sections.
pub fn bytes_have_one_reading()
    ensures { HaveOneReading }
{}

/// What is stripped reads as the sections that are kept, with all their names and bytes.
pub fn kept_sections_read_back<N: StripRule>(rule: &N)
    ensures { ReadsAsKept (N.removed rule.now) }
{
    let _ = rule;
}

/// What is stripped is one, and stays as it is.
#[tactic(auto, using(crate::proofs::Readings::settled))]
pub fn stripping_settles<N: StripRule>(rule: &N)
    ensures { IsSettled (N.removed rule.now) }
{
    let _ = rule;
}

/// What is tidied reads as what its sections become, with names in order where that is asked for.
pub fn tidied_sections_read_back<N: StripRule>(rule: &N, sorts: bool)
    ensures { ReadsAsTidied (N.removed rule.now) sorts }
{
    let _ = rule;
    let _ = sorts;
}

/// Without names in order what is tidied is what is stripped.
#[tactic(auto, using(crate::proofs::Lengths::strips_unsorted))]
pub fn unsorted_is_stripped<N: StripRule>(rule: &N)
    ensures { StripsUnsorted (N.removed rule.now) }
{
    let _ = rule;
}
