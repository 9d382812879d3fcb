//! Sections of rows.
ghost use Rattle.std.specs.Prelude.{◌≡◌, ◌==◌, ◌++◌, ◌∷◌, ◌+◌, ◌^◌, ◌<◌, ◌≤◌, [], length, take, drop, vec_len, IfOk, OnOk, OnErr, IfErr};
ghost use Rattle.wasm_shapes.specs.Tree.{Tree, normal};
ghost use Rattle.wasm_shapes.specs.Types.{rows_tree, vector_tree};
ghost use Rattle.wasm_shapes.specs.Shape.{Shape};
ghost use Rattle.wasm_shapes.specs.Spells.{Spells};
ghost use Rattle.wasm_shapes.specs.Fits.{InRange};
ghost use Rattle.wasm_write.specs.Counts.{counts, IsTooLarge};
ghost use Rattle.wasm_write.specs.Faults.{IfTooLarge};
ghost use Rattle.wasm_write.specs.Held.{AddsIf, BodySpells, Held, Held-prop};

use crate::fault::WriteFault;
use crate::fields::write_behind;
use crate::module::Module;
use crate::section::Section;
use std::alloc::{AllocError, Global};
use std::marker::{Model, PhantomData};
use wasm_leb::{NoMemory, len_u32, write_u32};
use wasm_shapes::kinds::{RowKind, SectionKind};

/// A row of this kind.
pub trait RowOf<K: RowKind> {
    // What it stands for.
    ghost tree: { Self → Tree };

    /// Appends the row, or a part of it where that is refused.
    ///
    /// `TooLarge` comes exactly where a count or a length in it is above 2^32 - 1, with that number.
    fn write(&self, out: &mut Vec<u8>) -> Result<(), WriteFault>
        ensures ok { OnOk result (out.new.items ≡ out.old.items ++ normal (tree self.now)) }
        ensures spells { OnOk result
            (∥ Spells K.shape (normal (tree self.now)) (tree self.now) ∥₁) }
        ensures err { OnErr result (take (vec_len out.old) out.new.items ≡ out.old.items) }
        ensures large { IfErr result (λ e. IfTooLarge e (IsTooLarge (counts (tree self.now)))) };
}

/// What appends a row of a kind with the help of a context, as of a reencoder that it asks.
pub trait AppendRow<K: RowKind, C, E> {
    // What the context was, the row that was appended, and what the context is then.
    ghost appends: { Self → C → Tree → C → Type 0 };

    // What the context was, the refusal, and what the context is then.
    ghost refuses: { Self → C → E → C → Type 0 };

    /// Appends a row, or a part of it where that is refused.
    fn append(&self, context: &mut C, out: &mut Vec<u8>) -> Result<(), E>
        ensures ok { OnOk result ((t : Tree) × (out.new.items ≡ out.old.items ++ normal t)
            × ∥ Spells K.shape (normal t) t ∥₁ × appends self.now context.old t context.new) }
        ensures err { OnErr result (take (vec_len out.old) out.new.items ≡ out.old.items) }
        ensures refused { IfErr result (λ e. refuses self.now context.old e context.new) };
}

/// A section whose body is a vector of rows (WebAssembly Core Specification 3.0, section 5.5.2).
///
/// Contracts see it as the list of its rows. It holds their number and their normal spelling.
#[derive(Drop)]
pub struct RowSection<K: RowKind> {
    count: u32,
    // so many bytes in front of the rows are room for what a module has in front of them
    front: usize,
    bytes: Vec<u8>,
    kind: PhantomData<K>,
    ghost room: { front ≤ length bytes.items },
    ghost held: { Held K.shape count (drop front bytes.items) } by { Held-prop K.shape K.rows_sound count (drop front bytes.items) },
}

impl<K: RowKind> Model for RowSection<K> {
    ghost use Rattle.std.specs.Prelude.{List, drop};
    ghost use Rattle.wasm_shapes.specs.Tree.{Tree};
    ghost use Rattle.wasm_shapes.specs.TreeCode.{trees_code};
    ghost use Rattle.wasm_write.specs.Held.{held_rows};

    ghost Value = { List Tree };

    ghost coded = { trees_code };

    ghost view = { λ s. held_rows K.shape s.count (drop s.front s.bytes.items) s.held };
}

impl<K: RowKind> RowSection<K> {
    /// A section without rows. It takes no memory.
    #[inline]
    pub fn new(alloc: Global) -> Self
        ensures { result ≡ [] }
    {
        RowSection {
            count: 0,
            front: 0,
            bytes: Vec::new(alloc),
            kind: PhantomData,
        }
    }

    /// A section without rows, with room for a body of `len` bytes of which the first `counted` are the number of the rows.
    /// It takes memory for them at once, or later where that runs out.
    ///
    /// Where the body comes out so, and is longer than the module is now, `Module::take` copies no row.
    pub fn with_room(alloc: Global, module: &Module, counted: usize, len: usize) -> Self
        ensures { result ≡ [] }
    {
        let front = module.len_before(counted, len);
        match room(alloc, front, len) {
            Ok(bytes) => RowSection {
                count: 0,
                front,
                bytes,
                kind: PhantomData,
            },
            Err(_) => RowSection::new(alloc),
        }
    }

    /// Adds a row. A refusal changes nothing.
    ///
    /// `TooLarge` comes exactly where a count or a length in it is above 2^32 - 1, or the number of rows would be, with that
    /// number.
    #[inline]
    pub fn add<R: RowOf<K>>(&mut self, row: &R) -> Result<(), WriteFault>
        ensures ok { OnOk result (self.new ≡ self.old ++ R.tree row.now ∷ []) }
        ensures in_range { OnOk result (InRange (R.tree row.now)) }
        ensures fits { OnOk result (length self.old + 1 < 2 ^ 32) }
        ensures err { OnErr result (self.new ≡ self.old) }
        ensures large { IfErr result (λ e. IfTooLarge e
            (IsTooLarge (counts (R.tree row.now) ++ (length self.old + 1) ∷ []))) }
    {
        if self.count == u32::MAX {
            return Err(WriteFault::TooLarge {
                size: u64::from(self.count) + 1,
            });
        }
        let len = self.bytes.len();
        match row.write(&mut self.bytes) {
            Ok(()) => {
                self.count += 1;
                Ok(())
            }
            Err(fault) => {
                self.bytes.truncate(len);
                Err(fault)
            }
        }
    }
}

impl<K: RowKind> RowSection<K> {
    /// Adds the row that is appended, and says whether: not where the number of rows would be above 2^32 - 1. A refusal changes
    /// nothing.
    pub fn append<C, E, A: AppendRow<K, C, E>>(
        &mut self,
        row: &A,
        context: &mut C,
    ) -> Result<bool, E>
        ensures ok { IfOk result
            (λ added. AddsIf (λ t. A.appends row.now context.old t context.new)
            self.old self.new added) }
        ensures err { OnErr result (self.new ≡ self.old) }
        ensures refused { IfErr result (λ e. A.refuses row.now context.old e context.new) }
    {
        let len = self.bytes.len();
        match row.append(context, &mut self.bytes) {
            Ok(()) => {
                if self.count == u32::MAX {
                    self.bytes.truncate(len);
                    return Ok(false);
                }
                self.count += 1;
                Ok(true)
            }
            Err(e) => {
                self.bytes.truncate(len);
                Err(e)
            }
        }
    }
}

/// The bytes behind so many.
pub(crate) fn behind(bytes: &[u8], front: usize) -> &[u8]
    requires { front ≤ length bytes.now }
    ensures { result.now ≡ drop front bytes.now }
{
    &bytes[front..]
}

/// Copies bytes over the first of others.
fn put_in_front(bytes: &mut [u8], head: &[u8])
    requires { length head.now ≤ length bytes.old }
    ensures { bytes.new ≡ head.now ++ drop (length head.now) bytes.old }
{
    bytes[..head.len()].copy_from_slice(head);
}

/// So many bytes, and room for so many more.
fn room(alloc: Global, front: usize, more: usize) -> Result<Vec<u8>, AllocError>
    ensures { IfOk result (λ bytes. length bytes.items ≡ front) }
{
    let mut bytes = Vec::with_capacity(alloc, front.saturating_add(more))?;
    bytes.resize(front, 0)?;
    Ok(bytes)
}

impl<K: RowKind> RowSection<K> {
    /// Takes its rows out. Its memory stays for others.
    pub fn clear(&mut self)
        ensures { self.new ≡ [] }
    {
        self.count = 0;
        self.front = 0;
        self.bytes.clear();
    }

    /// How many rows it has.
    #[inline(always)]
    pub fn len(&self) -> u32
        ensures { result ≡ length self.now }
    {
        self.count
    }

    /// Whether it has no row.
    #[inline(always)]
    pub fn is_empty(&self) -> bool
        ensures { result ≡ (length self.now == 0) }
    {
        self.len() == 0
    }

    /// The rows one behind another, without their number: they read back as they were added.
    #[inline(always)]
    pub fn as_slice(&self) -> &[u8]
        ensures value { result.now ≡ normal (rows_tree self.now) }
        ensures spells { ∥ Spells (Shape.many K.shape) (normal (rows_tree self.now)) (rows_tree self.now) ∥₁ }
    {
        behind(&self.bytes, self.front)
    }

    /// How many bytes the body has.
    pub(crate) fn body_len(&self) -> usize
        ensures { result ≡ length (normal (vector_tree self.now)) }
    {
        len_u32(self.count) + behind(&self.bytes, self.front).len()
    }

    /// Appends the body. Where what stands in front of its rows then has the length of the room that they have in front of
    /// them, it is copied there, and the memory of the section is that of `out` from then on.
    pub(crate) fn move_to(self, out: &mut Vec<u8>) -> Result<(), NoMemory>
        ensures ok { OnOk result (out.new.items ≡ out.old.items ++ normal (vector_tree self)) }
        ensures err { OnErr result (take (vec_len out.old) out.new.items ≡ out.old.items) }
    {
        match write_u32(out, self.count) {
            Ok(()) => {}
            Err(NoMemory) => return Err(NoMemory),
        }
        let front = self.front;
        let mut bytes = self.bytes;
        if out.len() == front {
            put_in_front(bytes.as_mut_slice(), out);
            *out = bytes;
            return Ok(());
        }
        match out.extend_from_slice(behind(&bytes, front)) {
            Ok(()) => Ok(()),
            Err(_) => Err(NoMemory),
        }
    }
}

impl<K: SectionKind> Section for RowSection<K> {
    ghost number = { λ _. K.ID };

    ghost contents = { λ rows. normal (vector_tree rows) };

    ghost small = { λ _. K.small };

    fn id(&self) -> u8 {
        K::ID
    }

    /// Appends the number of the rows and the rows, which read back as they were added.
    fn encode_body(&self, out: &mut Vec<u8>) -> Result<(), NoMemory>
        ensures ok { OnOk result (out.new.items ≡ out.old.items ++ normal (vector_tree self.now)) }
        ensures err { OnErr result (take (vec_len out.old) out.new.items ≡ out.old.items) }
        ensures spells { OnOk result (BodySpells K.shape self.now) }
    {
        write_behind(out, self.count, behind(&self.bytes, self.front))
    }

    fn known_len(&self) -> Option<usize> {
        Some(self.body_len())
    }
}
