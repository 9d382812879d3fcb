//! A code section in pieces.
ghost use Rattle.std.specs.Prelude.{ℕ, ◌≡◌, ◌≢◌, ◌+◌, ◌++◌, ◌∷◌, ◌-◌, ◌<◌, ◌≤◌, ◌^◌, [], length, slice_range, true, false, OnOk, OnErr, IfOk, IfErr, IfSome, IfNone};
ghost use Rattle.wasm_shapes.specs.Tree.{Tree, normal};
ghost use Rattle.wasm_leb.specs.Leb.{IsUnsigned, leb};
ghost use Rattle.wasm_shapes.specs.Types.{rows_tree, vector_tree};
ghost use Rattle.wasm_shapes.specs.Module.{code_row};
ghost use Rattle.wasm_write.specs.Bodies.{GainsBody, HeldBody};
ghost use Rattle.wasm_write.specs.Faults.{IfTooLarge};
ghost use Rattle.wasm_write.specs.Held.{Held, Held-prop};
ghost use Rattle.reencode_core.specs.Clauses.{RefusesBody};
ghost use Rattle.reencode_core.specs.Pieces.{range};
ghost use Rattle.reencode_core.specs.Sinks.{CodeGrown, KeepsBody, StandsAt, code_sound, with_rows};

use crate::pieces::growing::Growing;
use std::alloc::Global;
use std::marker::Model;
use wasm_leb::{NoMemory, front_u32, len_u32, write_u32};
use wasm_write as w;

/// The rows of a code section under construction, in pieces.
#[derive(Drop)]
pub(crate) struct CodePieces<'a> {
    ceiling: u32,
    count: u32,
    pieces: Growing<'a>,
    // the length of a body that is kept, as it is written
    head: Vec<u8>,
    ghost held: { Held code_row count pieces.bytes } by { Held-prop code_row code_sound count pieces.bytes },
}

impl<'a> Model for CodePieces<'a> {
    ghost use Rattle.wasm_shapes.specs.Module.{code_row};
    ghost use Rattle.wasm_write.specs.Held.{held_rows};
    ghost use Rattle.reencode_core.specs.Sinks.{CodeGrown, code_grown_code};

    ghost Value = { CodeGrown };

    ghost coded = { code_grown_code };

    ghost view = { λ s. record {
      input = s.pieces.input;
      code = record {
        ceiling = s.ceiling;
        rows = held_rows code_row s.count s.pieces.bytes s.held;
      };
      kept = s.pieces.kept;
    } };
}

/// Whether some bytes are others.
#[inline]
fn are_same(bytes: &[u8], others: &[u8]) -> bool
    ensures same { result ≡ true → bytes.now ≡ others.now }
    ensures apart { result ≡ false → bytes.now ≢ others.now }
{
    bytes == others
}

/// The bytes in front of a body, where the rows of a section are one, of this body.
fn kept_head<'a>(count: u32, rows: &'a [u8], body: &[u8]) -> Option<&'a [u8]>
    requires { count ≡ 1 → (n : ℕ) → IsUnsigned 32 rows.now n → ⊥ }
    ensures some { IfSome result (λ head. (rows.now ≡ head.now ++ body.now) × (0 < length head.now)) }
    ensures body { IfSome result (λ _. 0 < length body.now) }
    ensures kept { IfSome result (λ _. (u : Tree) → rows.now ≡ normal (rows_tree (Tree.sized u ∷ []))
        → length (normal u) < 2 ^ 32 → normal u ≡ body.now) }
    ensures other { IfNone result ((u : Tree) → rows.now ≡ normal (rows_tree (Tree.sized u ∷ []))
        → length (normal u) < 2 ^ 32 → count ≡ 1 → normal u ≢ body.now) }
{
    if count != 1 {
        return None;
    }
    let Some((_, rest)) = front_u32(rows) else {
        return None;
    };
    if !are_same(rest, body) {
        return None;
    }
    let (head, _) = rows.split_at(rows.len() - rest.len());
    Some(head)
}

/// Keeps a body that stands in the input up to a place, behind some bytes. Where other ranges than bodies may be kept, it may be one
/// range with what stands in front of it.
fn keep_body(
    pieces: &mut Growing<'_>,
    head: &[u8],
    body: &[u8],
    end: usize,
    more: bool,
) -> Result<(), NoMemory>
    requires stands { StandsAt pieces.old.input body.now end }
    requires some { 0 < length head.now }
    requires filled { 0 < length body.now }
    ensures bytes { OnOk result (pieces.new.bytes ≡ pieces.old.bytes ++ (head.now ++ body.now)) }
    ensures kept { more ≡ false → OnOk result (pieces.new.kept
        ≡ pieces.old.kept ++ range (end - length body.now) end ∷ []) }
    ensures input { pieces.new.input ≡ pieces.old.input }
    ensures err { OnErr result (pieces.new ≡ pieces.old) }
{
    let start = end - body.len();
    if more {
        pieces.keep_on(head, start, end)
    } else {
        pieces.keep(head, start, end)
    }
}

/// Adds the rows of a section. Where they are one, of the body that stands in the input up to a place, the body is kept.
fn add_rows(
    pieces: &mut Growing<'_>,
    count: u32,
    rows: &[u8],
    body: &[u8],
    end: usize,
) -> Result<(), NoMemory>
    requires stands { StandsAt pieces.old.input body.now end }
    requires bodied { count ≡ 1 → (n : ℕ) → IsUnsigned 32 rows.now n → ⊥ }
    ensures bytes { OnOk result (pieces.new.bytes ≡ pieces.old.bytes ++ rows.now) }
    ensures kept { OnOk result ((u : Tree) → rows.now ≡ normal (rows_tree (Tree.sized u ∷ []))
        → length (normal u) < 2 ^ 32 → count ≡ 1 → KeepsBody (normal u) body.now
        (range (end - length body.now) end) pieces.old.kept pieces.new.kept) }
    ensures input { pieces.new.input ≡ pieces.old.input }
    ensures err { OnErr result (pieces.new ≡ pieces.old) }
{
    match kept_head(count, rows, body) {
        Some(head) => keep_body(pieces, head, body, end, false),
        None => pieces.add(rows),
    }
}

impl<'a> CodePieces<'a> {
    /// A section without rows, and the greatest length that a function's locals and operators may have. It has room for so many
    /// bytes in front of its rows, where there is memory for it.
    pub fn new(alloc: Global, input: &'a [u8], ceiling: u32, front: usize) -> CodePieces<'a>
        ensures { result ≡ record { input = input.now; code = record { ceiling = ceiling; rows = [] }; kept = [] } }
    {
        CodePieces {
            ceiling,
            count: 0,
            pieces: Growing::with_room(alloc, input, front),
            head: Vec::new(alloc),
        }
    }

    /// The greatest length that a function's locals and operators may have.
    pub fn ceiling(&self) -> u32
        ensures { result ≡ self.now.code.ceiling }
    {
        self.ceiling
    }

    /// How many rows there are.
    pub fn len(&self) -> u32
        ensures { result ≡ length self.now.code.rows }
    {
        self.count
    }

    /// Adds the rows of a section. Where they are one, of the body that stands in the input up to a place, the body is kept.
    pub fn add(
        &mut self,
        code: &w::CodeSection,
        body: &[u8],
        end: usize,
    ) -> Result<(), w::WriteFault>
        requires { StandsAt self.old.input body.now end }
        ensures ok { OnOk result (self.new.code ≡ with_rows self.old.code code.now.rows) }
        ensures kept { OnOk result ((u : Tree) → code.now.rows ≡ Tree.sized u ∷ []
            → length (normal u) < 2 ^ 32 → KeepsBody (normal u) body.now
            (range (end - length body.now) end) self.old.kept self.new.kept) }
        ensures input { self.new.input ≡ self.old.input }
        ensures err { OnErr result (self.new ≡ self.old) }
        ensures large { IfErr result (λ e. IfTooLarge e (λ size.
            (size ≡ length self.old.code.rows + length code.now.rows) × (2 ^ 32 - 1 < size))) }
    {
        let Some(count) = self.count.checked_add(code.len()) else {
            return Err(w::WriteFault::TooLarge {
                size: u64::from(self.count) + u64::from(code.len()),
            });
        };
        let rows = code.as_slice();
        let added = add_rows(&mut self.pieces, code.len(), rows, body, end);
        match added {
            Ok(()) => {
                self.count = count;
                Ok(())
            }
            Err(NoMemory) => Err(w::WriteFault::NoMemory),
        }
    }

    /// Adds a body that stands in the input up to a place, which is the normal spelling of a function: it is kept, and where other
    /// ranges than bodies may be kept, as one with bodies in front of it.
    ///
    /// `TooLarge` comes exactly where it is longer than the ceiling, with its length, or it fits and the number of rows would pass
    /// 2^32 - 1, with that number.
    pub fn keep(&mut self, body: &[u8], end: usize, more: bool) -> Result<(), w::WriteFault>
        requires stands { StandsAt self.old.input body.now end }
        requires normally { HeldBody body.now }
        requires small { self.old.code.ceiling < 2 ^ 32 }
        ensures ok { OnOk result (GainsBody self.old.code body.now self.new.code) }
        ensures fits { OnOk result (length body.now ≤ self.old.code.ceiling) }
        ensures kept { more ≡ false → OnOk result (self.new.kept
            ≡ self.old.kept ++ range (end - length body.now) end ∷ []) }
        ensures input { self.new.input ≡ self.old.input }
        ensures err { OnErr result (self.new ≡ self.old) }
        ensures large { IfErr result (RefusesBody body.now self.old.code) }
    {
        let size = body.len() as u64;
        if size > u64::from(self.ceiling) {
            return Err(w::WriteFault::TooLarge { size });
        }
        let Some(count) = self.count.checked_add(1) else {
            return Err(w::WriteFault::TooLarge {
                size: u64::from(self.count) + 1,
            });
        };
        self.head.clear();
        match write_u32(&mut self.head, size as u32) {
            Ok(()) => {}
            Err(NoMemory) => return Err(w::WriteFault::NoMemory),
        }
        match keep_body(&mut self.pieces, &self.head, body, end, more) {
            Ok(()) => {
                self.count = count;
                Ok(())
            }
            Err(NoMemory) => Err(w::WriteFault::NoMemory),
        }
    }

    /// How many bytes the body of the section has, where a number of 64 bits holds that.
    pub fn body_len(&self) -> Option<u64>
        ensures { IfSome result (λ len. len ≡ length (normal (vector_tree self.now.code.rows))) }
    {
        match self.pieces.len().checked_add(len_u32(self.count) as u64) {
            Some(len) => Some(len),
            None => None,
        }
    }

    /// The rows, one behind another.
    pub fn into_rows(self) -> Growing<'a>
        ensures input { result.input ≡ self.entry.input }
        ensures bytes { leb (length self.entry.code.rows) ++ result.bytes
            ≡ normal (vector_tree self.entry.code.rows) }
        ensures kept { result.kept ≡ self.entry.kept }
    {
        self.pieces
    }
}
