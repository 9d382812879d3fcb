//! Which custom sections are removed.
ghost use Rattle.std.specs.Bool.{Decides};
ghost use Rattle.wasm_strip.specs.Binaries.{Removed};

use wasm_leb::Kind;

/// A rule: which custom sections are removed.
pub trait StripRule {
    ghost removed: { Self → Removed };

    /// Whether a custom section of this name with these contents behind it is removed of a binary of a kind.
    fn removes(&self, kind: Kind, name: &str, contents: &[u8]) -> bool
        ensures { Decides result (removed self.now kind name.now contents.now) };
}

/// The rule by which nothing is removed.
#[derive(Clone, Copy, Debug)]
pub struct Nothing;

impl StripRule for Nothing {
    ghost removed = { λ _ _ _ _. ⊥ };

    fn removes(&self, _kind: Kind, _name: &str, _contents: &[u8]) -> bool {
        false
    }
}
