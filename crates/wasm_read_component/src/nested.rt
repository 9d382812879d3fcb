//! Rows that stand in a scope, within the bytes of a row.
ghost use Rattle.std.specs.Prelude.{◌≡◌, ◌++◌, ◌<◌, List, ℕ, IfSome, IfNone};
ghost use Rattle.wasm_shapes.specs.Tree.{Tree};
ghost use Rattle.wasm_shapes.specs.Shape.{Shape};
ghost use Rattle.wasm_shapes.specs.Place.{Begins};
ghost use Rattle.wasm_read_component.specs.TypeRows.{DeclaresAt, Fresh};

use crate::scoped_reader::ScopedReader;
use wasm_shapes::kinds::RowKind;

/// At most so many scopes are open within each other.
pub const DEPTH: u32 = 200;

/// The bytes before these that are left of them.
pub fn bytes_before<'a>(bytes: &'a [u8], behind: &[u8]) -> &'a [u8]
    ensures { (text : List ℕ) → bytes.now ≡ text ++ behind.now → result.now ≡ text }
{
    &bytes[..bytes.len().saturating_sub(behind.len())]
}

/// The reader of the rows of a scope, whose vector stands before these bytes that are left. So many scopes are open round the
/// scope.
pub fn reader_before<'a, K: RowKind>(
    bytes: &'a [u8],
    behind: &[u8],
    depth: u32,
) -> Option<ScopedReader<'a, K>>
    requires { depth < 200 }
    ensures some { IfSome result (λ reader. (rows : Tree)
        → Begins (Shape.vec K.shape) bytes.now (Tree.vec rows) behind.now
        → DeclaresAt K.shape depth reader (Tree.scope (Tree.vec rows))) }
    ensures fresh { IfSome result (λ reader. (rows : Tree)
        → Begins (Shape.vec K.shape) bytes.now (Tree.vec rows) behind.now
        → Fresh reader.rows bytes.now) }
    ensures none { IfNone result ((rows : Tree)
        → Begins (Shape.vec K.shape) bytes.now (Tree.vec rows) behind.now → ⊥) }
{
    match ScopedReader::new(bytes_before(bytes, behind), depth + 1) {
        Ok(reader) => Some(reader),
        Err(_) => None,
    }
}
