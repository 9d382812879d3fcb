//! The laws of spelling, as functions that do nothing: each one's contract is the law.
ghost use Rattle.wasm_shapes.specs.Drawn.{IsDrawnFromWhole, IsDrawnJoined};
ghost use Rattle.wasm_shapes.specs.Own.{IsOwn};
ghost use Rattle.wasm_shapes.specs.RowLaws.{AreRows};
ghost use Rattle.wasm_shapes.specs.SectionLaws.{AreInFrames, AreSized};
ghost use Rattle.wasm_shapes.specs.Laws.{IsUnique, HasOneTree, IsReadBack, IsReadBackAsIs, AreSound, IsHeaded, KeepsSingleImports};

/// No spelling of a closed shape that passes the test begins another, and one text has one tree.
#[tactic(auto, using(crate::proofs::Laws::shapes_unique))]
pub fn spelling_is_unique()
    ensures { IsUnique }
{}

/// A whole text of a shape that passes the test has one tree.
#[tactic(auto, using(crate::proofs::Laws::one_tree))]
pub fn text_has_one_tree()
    ensures { HasOneTree }
{}

/// The normal spelling of a reading, filled or as it stands, reads as it.
pub fn normal_reads_back()
    ensures filled { IsReadBack }
    ensures as_is { IsReadBackAsIs }
{}

/// Each table passes the test.
#[tactic(auto, using(crate::proofs::Laws::tables_sound))]
pub fn tables_are_sound()
    ensures { AreSound }
{}

/// A module is its header and its sections.
#[tactic(auto, using(crate::proofs::Laws::module_headed))]
pub fn header_spells()
    ensures { IsHeaded }
{}

/// A vector is a number and so many rows; rows are the first and those behind it.
#[tactic(auto, using(crate::proofs::Rows::are_rows))]
pub fn vectors_are_rows()
    ensures { AreRows }
{}

/// Behind a frame, sections are the one in that frame and a reading of what is left; what stands in a frame is told by its id.
/// Each section stands in a frame, by an id of its own.
#[tactic(auto, using(crate::proofs::SectionLaws::in_frames))]
pub fn sections_stand_in_frames()
    ensures { AreInFrames }
{}

/// A section is spelled as its id, the size of its body and its body: normally as the shortest size and the body as it is spelled
/// normally.
#[tactic(auto, using(crate::proofs::SectionLaws::sized))]
pub fn section_is_sized()
    ensures { AreSized }
{}

/// Bytes whose imports are all single ones read as they do by the table without compact rows.
#[tactic(auto, using(crate::proofs::SingleImports::single_imports_stay))]
pub fn single_imports_stay()
    ensures { KeepsSingleImports }
{}

/// A tree filled with the indices that its own visits ask is the same tree.
#[tactic(auto, using(crate::proofs::OwnAnswers::fill_own))]
pub fn own_answers_change_nothing()
    ensures { IsOwn }
{}

/// Visits that are drawn from a stretch of some bytes are drawn from the bytes.
pub fn drawn_from_a_stretch()
    ensures { IsDrawnFromWhole }
{}

/// Lists of visits that are drawn from the same bytes are drawn from them when joined.
pub fn drawn_lists_join()
    ensures { IsDrawnJoined }
{}
