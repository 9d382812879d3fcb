//! What a renamer is asked, and its refusal.
use std::fmt;
use wasm_shapes::Space;

/// What a renamer counts: the indices of a space, the calls of the section hook, and the begins and the ends of scopes. Calls
/// of the closing hook it does not count.
#[derive(Clone, Copy, Debug, PartialEq)]
pub enum Asked {
    /// An index of this space.
    Of(Space),
    /// A call of the section hook.
    SectionHook,
    /// The begin of a scope.
    Push,
    /// The end of a scope.
    Pop,
}

/// A strict renamer was asked this index of a core space, and has no entry for it.
#[derive(Clone, Copy, Debug, PartialEq)]
pub struct Unmapped {
    pub space: Space,
    pub index: u32,
}

impl fmt::Display for Unmapped {
    ghost use Rattle.std.specs.Prelude.{Some};
    ghost use Rattle.reencode_hooks.specs.Renamings.{unmapped_text};

    ghost output = { λ u. Some (unmapped_text u) };

    fn fmt<W: fmt::Write>(&self, f: &mut fmt::Formatter<W>) -> fmt::Result {
        let space = self.space.name();
        let index = self.index;
        write!(f, "refused {space} {index}")
    }
}
