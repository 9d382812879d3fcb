//! The rule of a shift: each index space moves by a number of its own.
ghost use Rattle.std.specs.Prelude.{◌≡◌};
ghost use Rattle.reencode_hooks.specs.Shifts.{shift_of};

use crate::rule::IndexRule;
use std::fmt;
use wasm_shapes::Space;

/// A rule that moves the indices of each space by a number of its own, as a linker does that puts a module behind others.
///
/// An index that would pass 2^32 - 1 is refused. What no field names stays as it is: the count of a data count section, and
/// indices of components.
#[derive(Clone, Copy, Debug, Default, PartialEq)]
pub struct Shift {
    pub data: u32,
    pub elements: u32,
    pub functions: u32,
    pub globals: u32,
    pub memories: u32,
    pub tables: u32,
    pub tags: u32,
    pub types: u32,
}

impl Shift {
    /// By how much the indices of a space move.
    #[inline(always)]
    pub fn of(&self, space: Space) -> u32
        ensures { result ≡ shift_of self.now space }
    {
        match space {
            Space::Data => self.data,
            Space::Element => self.elements,
            Space::Function => self.functions,
            Space::Global => self.globals,
            Space::Memory => self.memories,
            Space::Table => self.tables,
            Space::Tag => self.tags,
            Space::Type_ => self.types,
            _ => 0,
        }
    }
}

/// This index of a core space would move past 2^32 - 1.
#[derive(Clone, Copy, Debug, PartialEq)]
pub struct IndexOverflow {
    pub space: Space,
    pub index: u32,
}

impl fmt::Display for IndexOverflow {
    ghost use Rattle.std.specs.Prelude.{Some};
    ghost use Rattle.reencode_hooks.specs.Shifts.{overflow_text};

    ghost output = { λ u. Some (overflow_text u) };

    fn fmt<W: fmt::Write>(&self, f: &mut fmt::Formatter<W>) -> fmt::Result {
        let space = self.space.name();
        let index = self.index;
        write!(f, "overflow of {space} {index}")
    }
}

impl IndexRule for Shift {
    ghost use Rattle.reencode_hooks.specs.Shifts.{shifted, shifted_is_rule};

    type Error = IndexOverflow;

    ghost renamed = { λ shift space index. shifted shift space index };

    ghost is_rule = { λ shift space index h. shifted_is_rule shift space index h };

    #[inline(always)]
    fn index(&self, space: Space, index: u32) -> Result<u32, IndexOverflow> {
        index
            .checked_add(self.of(space))
            .ok_or(IndexOverflow { space, index })
    }
}
