//! What can be added to a module.
ghost use Rattle.std.specs.Prelude.{◌≡◌, ◌++◌, ◌≤◌, ℕ, List, OnOk, OnErr, IfSome, length, take, vec_len};

use wasm_leb::NoMemory;

/// A section that can be added to a module (WebAssembly Core Specification 3.0, section 5.5.2).
///
/// It has two meanings: `number`, its id, which is at most 127, and `contents`, the bytes of its body.
pub trait Section {
    ghost number: { Self → ℕ };

    ghost contents: { Self → List ℕ };

    /// The section's id.
    fn id(&self) -> u8
        ensures { result ≡ number self.now };

    /// Appends the body. Where memory runs out, what stood in `out` before stands there still, and a part of the body
    /// may stand behind it.
    fn encode_body(&self, out: &mut Vec<u8>) -> Result<(), NoMemory>
        ensures ok { OnOk result (out.new.items ≡ out.old.items ++ contents self.now) }
        ensures err { OnErr result (take (vec_len out.old) out.new.items ≡ out.old.items) };

    /// How many bytes the body has, where that is known before it is written: it is then written where it stands in the end.
    fn known_len(&self) -> Option<usize>
        ensures { IfSome result (λ len. len ≡ length (contents self.now)) }
    {
        None
    }

    ghost small: { (s : Self) → number s ≤ 127 };
}
