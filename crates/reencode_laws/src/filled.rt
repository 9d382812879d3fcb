//! Laws of filled trees.
ghost use Rattle.reencode_laws.specs.Chained.{FilledTwice};
ghost use Rattle.reencode_laws.specs.Kept.{KeepsLeaves, KeepsParts};

/// Whatever the answers, filling keeps the kind, the number and the order of all sections, rows and operators, and in which component
/// each stands: the whole tree but for its indices. The flag of an element segment changes exactly where its table was left out and
/// the answer to the visit of it is not 0: then the table is written.
#[tactic(auto, using(crate::proofs::Kept::keeps_parts))]
pub fn filled_keeps_parts()
    ensures { KeepsParts }
{}

/// Whatever the answers, labels, locals, lanes, fields, sizes, literals, names, bytes, the counts of outer indices and the inner
/// numbers of maps of names are in the filled tree what they are in the tree.
#[tactic(auto, using(crate::proofs::Kept::keeps_leaves))]
pub fn filled_keeps_leaves()
    ensures { KeepsLeaves }
{}

/// A filled tree asks what the tree asks, with the answers in place of the indices. Filled a second time, it is the tree filled with
/// the second answers alone, but that a table of an element segment that was left out, and that was answered other than 0 first and
/// 0 then, stands as an explicit 0.
#[tactic(auto, using(crate::proofs::Twice::filled_twice))]
pub fn filled_twice()
    ensures { FilledTwice }
{}
