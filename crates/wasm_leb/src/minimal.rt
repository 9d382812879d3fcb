//! Whether a spelling of a number is its shortest.
ghost use Rattle.std.specs.Prelude.{◌≡◌, ◌≤◌, ◌↔◌, ℕ, ℤ, IsTrue};
ghost use Rattle.wasm_leb.specs.Leb.{IsSigned, IsUnsigned, leb, shortest_signed};

/// Whether a spelling of a number without sign is its shortest: it is one byte, or its last byte is not 0.
#[inline(always)]
pub fn is_shortest(text: &[u8]) -> bool
    ensures { (bits n : ℕ) → bits ≤ 64 → IsUnsigned bits text.now n
        → (IsTrue result ↔ (text.now ≡ leb n)) }
{
    let len = text.len();
    if len < 2 { true } else { text[len - 1] != 0 }
}

/// The same of a number with sign: it is one byte, or its last byte says more than bit 6 of the byte before it does.
#[inline(always)]
pub fn is_shortest_signed(text: &[u8]) -> bool
    ensures { (bits : ℕ) (z : ℤ) → bits ≤ 64 → IsSigned bits text.now z
        → (IsTrue result ↔ (text.now ≡ shortest_signed z)) }
{
    let len = text.len();
    if len < 2 {
        true
    } else if text[len - 2] < 192 {
        text[len - 1] != 0
    } else {
        text[len - 1] != 127
    }
}
