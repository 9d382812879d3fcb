//! The hooks of a component re-encoder.
ghost use Rattle.wasm_shapes.specs.declared.Space.TheVariants as space;
ghost use Rattle.wasm_shapes.specs.declared.Visit.TheVariants.{Index, Outer, Pop};
ghost use Rattle.reencode_hooks.specs.Hooks.{Replies};
ghost use Rattle.reencode_hooks.specs.Run.{NeverWants};
ghost use Rattle.reencode_component.specs.Hooks.{Answers, RepliesPush};

use reencode_hooks::{Error, ReencodeIndices};

/// What a re-encoder of components does with each index and each scope, beside the indices of core modules.
///
/// Each answers by the meaning that the type has as `ReencodeIndices`: `reply` at its visit, and it leaves `next`. An index of
/// a component's space is never refused. A type with `AnswerVisits`, as every reencoder that leaves the indices as they are has
/// it, gets these hooks by the marker `AnswerComponentVisits`.
pub trait ReencodeComponentIndices: ReencodeIndices {
    /// The new index of a type of a component.
    fn component_type_index(&mut self, index: u32) -> u32
        ensures answer { Answers Self.reply Self.next self.old self.new
            (Index space.ComponentType index) result };

    /// The new index of an instance of a component.
    fn component_instance_index(&mut self, index: u32) -> u32
        ensures answer { Answers Self.reply Self.next self.old self.new
            (Index space.ComponentInstance index) result };

    /// The new index of a function of a component.
    fn component_func_index(&mut self, index: u32) -> u32
        ensures answer { Answers Self.reply Self.next self.old self.new
            (Index space.ComponentFunc index) result };

    /// The new index of a component.
    fn component_index(&mut self, index: u32) -> u32
        ensures answer { Answers Self.reply Self.next self.old self.new
            (Index space.Component index) result };

    /// The new index of a core module.
    fn module_index(&mut self, index: u32) -> u32
        ensures answer { Answers Self.reply Self.next self.old self.new
            (Index space.Module index) result };

    /// The new index of a core instance.
    fn instance_index(&mut self, index: u32) -> u32
        ensures answer { Answers Self.reply Self.next self.old self.new
            (Index space.Instance index) result };

    /// The new index of a value of a component.
    fn component_value_index(&mut self, index: u32) -> u32
        ensures answer { Answers Self.reply Self.next self.old self.new
            (Index space.ComponentValue index) result };

    /// The new index of a component's type, `count` scopes further out.
    fn outer_component_type_index(&mut self, count: u32, index: u32) -> u32
        ensures answer { Answers Self.reply Self.next self.old self.new
            (Outer space.ComponentType count index) result };

    /// The new index of a component, `count` scopes further out.
    fn outer_component_index(&mut self, count: u32, index: u32) -> u32
        ensures answer { Answers Self.reply Self.next self.old self.new
            (Outer space.Component count index) result };

    /// The new index of a core module, `count` scopes further out.
    fn outer_module_index(&mut self, count: u32, index: u32) -> u32
        ensures answer { Answers Self.reply Self.next self.old self.new
            (Outer space.Module count index) result };

    /// The new index of a core type, `count` scopes further out.
    fn outer_type_index(&mut self, count: u32, index: u32) -> Result<u32, Error<Self::Error>>
        ensures answer { Replies Self.reply Self.next self.old self.new
            (Outer space.Type_ count index) result }
        ensures sure { NeverWants Self.sure result };

    /// A scope is opened: a nested module or component, or a type of one or of an instance. The only error is `NoMemory`.
    fn push_depth(&mut self) -> Result<(), Error<Self::Error>>
        ensures answer { RepliesPush Self.reply Self.next self.old self.new result }
        ensures sure { NeverWants Self.sure result };

    /// The innermost scope is closed.
    fn pop_depth(&mut self)
        ensures answer { Answers Self.reply Self.next self.old self.new Pop 0 };
}
