//! The laws of numbers. Each function does nothing: its contract is the law.
ghost use Rattle.wasm_leb.specs.Laws.{IsUnsignedUnique, IsIndexUnique, IsSignedUnique, IsUnsignedShortest, IsIndexShortest, IsSignedShortest};

/// No spelling of a number without sign, of any width, begins another, and it has one value.
#[tactic(auto, using(crate::proofs::Spellings::unsigned_is_unique))]
pub fn unsigned_spelling_is_unique()
    ensures { IsUnsignedUnique }
{}

/// No spelling of an index as a number with sign begins another, and it has one value.
#[tactic(auto, using(crate::proofs::Spellings::index_is_unique))]
pub fn index_spelling_is_unique()
    ensures { IsIndexUnique }
{}

/// No spelling of a number with sign, of any width, begins another, and it has one value.
#[tactic(auto, using(crate::proofs::Spellings::signed_is_unique))]
pub fn signed_spelling_is_unique()
    ensures { IsSignedUnique }
{}

/// The shortest spelling of a number spells it, and no spelling of that number is shorter.
pub fn written_spelling_is_shortest()
    ensures unsigned_32 { IsUnsignedShortest 32 }
    ensures unsigned_64 { IsUnsignedShortest 64 }
    ensures index { IsIndexShortest }
    ensures signed_32 { IsSignedShortest 32 }
    ensures signed_33 { IsSignedShortest 33 }
    ensures signed_64 { IsSignedShortest 64 }
{}
