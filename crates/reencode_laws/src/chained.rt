//! Laws of two reencoders in a chain.
ghost use Rattle.reencode_laws.specs.Chained.{ChainIsBoth, ChainRefuses, ChainedWalks};

use reencode_hooks::ReencodeIndices;

/// A chain of two reencoders accepts the visits of a tree exactly where the first accepts them and the second accepts those of the
/// tree with the first one's answers filled in. Its answers are the second one's, and it ends in both their states.
pub fn chain_is_both<A: ReencodeIndices, B: ReencodeIndices>(_a: &A, _b: &B)
    ensures { ChainIsBoth A.reply A.next B.reply B.next }
{}

/// A chain of two reencoders refuses exactly where one of the two refuses a visit, and both accept all before it; the second is
/// asked with the first one's answers.
pub fn chain_refuses<A: ReencodeIndices, B: ReencodeIndices>(_a: &A, _b: &B)
    ensures { ChainRefuses A.reply A.next B.reply B.next }
{}

/// What comes out of a first reencoder is read as its tree alone; and what a second makes of that is what their chain makes of the
/// input, but that a table of an element segment that was left out, and that the first moved and the second moved back, stands as an
/// explicit 0. So a second that answers each visit by the index that the input asks there undoes the first, but for these tables.
/// Where the first keeps the table 0, there is no exception.
pub fn chained_walks<A: ReencodeIndices, B: ReencodeIndices>(_a: &A, _b: &B)
    ensures { ChainedWalks A.reply A.next B.reply B.next }
{}
