//! The hooks of a re-encoder.
ghost use Rattle.std.specs.Prelude.{ℕ, List, Result, Bool};
ghost use Rattle.wasm_shapes.specs.declared.Space.TheVariants as space;
ghost use Rattle.wasm_shapes.specs.declared.Visit.{Visit};
ghost use Rattle.wasm_shapes.specs.declared.Visit.TheVariants.{Index, Section, Closed};
ghost use Rattle.wasm_write.specs.Sections.{SectionRow};
ghost use Rattle.reencode_hooks.specs.Hooks.{Replies, RepliesSection, KeepsAnswers, KeepsAdds};
ghost use Rattle.reencode_hooks.specs.Run.{NeverWants};

use crate::error::Error;
use wasm_shapes::SectionId;
use wasm_write::Module;

/// What a re-encoder does with each index.
///
/// A type's meaning is `reply`, the answer to a visit or its refusal, `next`, the state after the visit, and `adds`, the
/// sections that the section hook or the closing hook appends. A visit is a call of one of these methods, or of one of those that the traits
/// above add. The default methods of the traits above call them once for each index of an item, in a fixed order.
///
/// A hook that answers `NoMemory`, which may come at any time unless the type is `sure`, leaves the state open.
pub trait ReencodeIndices {
    /// Why an index is refused.
    type Error;

    // The answer to a visit, or its refusal.
    ghost reply: { Self → Visit → Result ℕ Self.Error };

    // The state after a visit, refused or not.
    ghost next: { Self → Visit → Self };

    // The sections that the section hook, or the closing hook, appends at a visit.
    ghost adds: { Self → Visit → List SectionRow };

    // Whether each structural method of the traits above meets the clause of its default body.
    ghost keeps_defaults: { Bool };

    // Whether `adds` is always empty.
    ghost adds_nothing: { Bool };

    // Whether no hook ever answers `NoMemory`.
    ghost sure: { Bool };

    /// The new index of a data segment.
    fn data_index(&mut self, index: u32) -> Result<u32, Error<Self::Error>>
        ensures answer { Replies reply next self.old self.new (Index space.Data index) result }
        ensures sure { NeverWants sure result };

    /// The new index of an element segment.
    fn element_index(&mut self, index: u32) -> Result<u32, Error<Self::Error>>
        ensures answer { Replies reply next self.old self.new (Index space.Element index) result }
        ensures sure { NeverWants sure result };

    /// The new index of a function.
    fn function_index(&mut self, index: u32) -> Result<u32, Error<Self::Error>>
        ensures answer { Replies reply next self.old self.new (Index space.Function index) result }
        ensures sure { NeverWants sure result };

    /// The new index of a global.
    fn global_index(&mut self, index: u32) -> Result<u32, Error<Self::Error>>
        ensures answer { Replies reply next self.old self.new (Index space.Global index) result }
        ensures sure { NeverWants sure result };

    /// The new index of a memory.
    fn memory_index(&mut self, index: u32) -> Result<u32, Error<Self::Error>>
        ensures answer { Replies reply next self.old self.new (Index space.Memory index) result }
        ensures sure { NeverWants sure result };

    /// The new index of a table.
    fn table_index(&mut self, index: u32) -> Result<u32, Error<Self::Error>>
        ensures answer { Replies reply next self.old self.new (Index space.Table index) result }
        ensures sure { NeverWants sure result };

    /// The new index of a tag.
    fn tag_index(&mut self, index: u32) -> Result<u32, Error<Self::Error>>
        ensures answer { Replies reply next self.old self.new (Index space.Tag index) result }
        ensures sure { NeverWants sure result };

    /// The new index of a type.
    fn type_index(&mut self, index: u32) -> Result<u32, Error<Self::Error>>
        ensures answer { Replies reply next self.old self.new (Index space.Type_ index) result }
        ensures sure { NeverWants sure result };

    /// The new count of a data count section (WebAssembly Core Specification 3.0, section 5.5.15).
    fn data_count(&mut self, count: u32) -> Result<u32, Error<Self::Error>>
        ensures answer { Replies reply next self.old self.new (Index space.DataCount count) result }
        ensures sure { NeverWants sure result };

    /// May append sections to the module, before a section of the kind `before` and behind one of the kind `after`. At the
    /// module's front `after` is None, and at its end `before` is None. It keeps the module's ceiling and sections.
    ///
    /// `TooLarge` comes only where a section that it is to append has a body above the ceiling, with the body's length.
    fn intersperse_section_hook(
        &mut self,
        module: &mut Module,
        after: Option<SectionId>,
        before: Option<SectionId>,
    ) -> Result<(), Error<Self::Error>>
        ensures answer { RepliesSection reply next adds self.old self.new
            «module».old «module».new (Section after before) result }
        ensures sure { NeverWants sure result };

    /// May append sections to the module, directly behind a section of this kind, which was appended just before. It keeps the
    /// module's ceiling and sections.
    ///
    /// `TooLarge` comes only where a section that it is to append has a body above the ceiling, with the body's length.
    fn close_section_hook(
        &mut self,
        module: &mut Module,
        section: SectionId,
    ) -> Result<(), Error<Self::Error>>
        ensures answer { RepliesSection reply next adds self.old self.new
            «module».old «module».new (Closed section) result }
        ensures sure { NeverWants sure result };

    // An answer is an index, and a component's index is never refused.
    ghost answers_ok: { KeepsAnswers reply };

    // Sections are added at visits of the section hook and the closing hook alone, and where the type says so, never.
    ghost adds_ok: { KeepsAdds adds adds_nothing };
}
