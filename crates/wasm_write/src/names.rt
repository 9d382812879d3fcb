//! Maps from indices to names, as they are written (WebAssembly Core Specification 3.0, section 7.4.1).
ghost use Rattle.std.specs.Prelude.{◌≡◌, ◌++◌, ◌∷◌, ◌+◌, ◌^◌, ◌<◌, ℕ, List, [], refl, true, length, take, vec_len, OnOk, OnErr, IfErr};
ghost use Rattle.wasm_leb.specs.Leb.{leb};
ghost use Rattle.wasm_shapes.specs.Tree.{Tree, normal};
ghost use Rattle.wasm_shapes.specs.Shape.{Shape};
ghost use Rattle.wasm_shapes.specs.Sound.{sound};
ghost use Rattle.wasm_shapes.specs.Spells.{Spells};
ghost use Rattle.wasm_shapes.specs.Fits.{InRange};
ghost use Rattle.wasm_shapes.specs.Types.{vector_tree};
ghost use Rattle.wasm_shapes.specs.Module.{plain_naming};
ghost use Rattle.wasm_shapes.specs.Namings.{entry_tree};
ghost use Rattle.wasm_write.specs.Counts.{IsTooLarge};
ghost use Rattle.wasm_write.specs.Faults.{IfTooLarge};
ghost use Rattle.wasm_write.specs.Held.{BodySpells, Held, Held-prop};

use crate::fault::WriteFault;
use crate::fields::{write_behind, write_name};
use std::alloc::Global;
use std::marker::{Model, PhantomData};
use wasm_leb::{NoMemory, write_u32};

/// What a kind of maps has at its indices.
pub(crate) trait MapKind {
    // The shape of what stands behind an index.
    ghost named: { Shape };

    ghost rows_sound: { sound (Shape.many (Shape.seq Shape.u32 named)) ≡ true };
}

/// A name at each index.
pub(crate) struct Plain;

impl MapKind for Plain {
    ghost named = { Shape.name };

    ghost rows_sound = { refl };
}

/// A map of names at each index.
pub(crate) struct Indirect;

impl MapKind for Indirect {
    ghost named = { Shape.vec plain_naming };

    ghost rows_sound = { refl };
}

/// An entry of a map of this kind.
pub(crate) trait EntryOf<K: MapKind> {
    // What it stands for.
    ghost tree: { Self → Tree };

    // The counts that may be too large for it.
    ghost long: { Self → List ℕ };

    /// Appends the entry, or a part of it where that is refused.
    fn write(&self, out: &mut Vec<u8>) -> Result<(), WriteFault>
        ensures ok { OnOk result (out.new.items ≡ out.old.items ++ normal (tree self.now)) }
        ensures spells { OnOk result
            (∥ Spells (Shape.seq Shape.u32 K.named) (normal (tree self.now)) (tree self.now) ∥₁) }
        ensures err { OnErr result (take (vec_len out.old) out.new.items ≡ out.old.items) }
        ensures large { IfErr result (λ e. IfTooLarge e (IsTooLarge (long self.now))) };
}

/// A map of a kind: the number of its entries and their normal spelling. Contracts see it as the list of its entries.
#[derive(Drop)]
pub(crate) struct Entries<K: MapKind> {
    count: u32,
    bytes: Vec<u8>,
    kind: PhantomData<K>,
    ghost small: { count < 2 ^ 32 },
    ghost held: { Held (Shape.seq Shape.u32 K.named) count bytes.items } by { Held-prop (Shape.seq Shape.u32 K.named) K.rows_sound count bytes.items },
}

impl<K: MapKind> Model for Entries<K> {
    ghost use Rattle.std.specs.Prelude.{List};
    ghost use Rattle.wasm_shapes.specs.Tree.{Tree};
    ghost use Rattle.wasm_shapes.specs.TreeCode.{trees_code};
    ghost use Rattle.wasm_shapes.specs.Shape.{Shape};
    ghost use Rattle.wasm_write.specs.Held.{held_rows};

    ghost Value = { List Tree };

    ghost coded = { trees_code };

    ghost view = { λ m. held_rows (Shape.seq Shape.u32 K.named) m.count m.bytes.items m.held };
}

impl<K: MapKind> Entries<K> {
    fn new(alloc: Global) -> Self
        ensures { result ≡ [] }
    {
        Entries {
            count: 0,
            bytes: Vec::new(alloc),
            kind: PhantomData,
        }
    }

    /// Adds an entry at the end. A refusal changes nothing.
    fn append<E: EntryOf<K>>(&mut self, entry: &E) -> Result<(), WriteFault>
        ensures ok { OnOk result (self.new ≡ self.old ++ E.tree entry.now ∷ []) }
        ensures in_range { OnOk result (InRange (E.tree entry.now)) }
        ensures fits { OnOk result (length self.old + 1 < 2 ^ 32) }
        ensures err { OnErr result (self.new ≡ self.old) }
        ensures large { IfErr result (λ e. IfTooLarge e
            (IsTooLarge (E.long entry.now ++ (length self.old + 1) ∷ []))) }
    {
        if self.count == u32::MAX {
            return Err(WriteFault::TooLarge {
                size: u64::from(self.count) + 1,
            });
        }
        let len = self.bytes.len();
        match entry.write(&mut self.bytes) {
            Ok(()) => {
                self.count += 1;
                Ok(())
            }
            Err(fault) => {
                self.bytes.truncate(len);
                Err(fault)
            }
        }
    }

    /// The number of the entries and their spelling.
    pub(crate) fn as_parts(&self) -> (u32, &[u8])
        ensures value { leb result.0 ++ result.1.now ≡ normal (vector_tree self.now) }
        ensures spells { BodySpells (Shape.seq Shape.u32 K.named) self.now }
    {
        (self.count, &self.bytes)
    }
}

/// A map from indices to names. Contracts see it as the list of its entries.
#[derive(Drop)]
pub struct NameMap {
    pub(crate) entries: Entries<Plain>,
}

impl Model for NameMap {
    ghost use Rattle.std.specs.Prelude.{List};
    ghost use Rattle.wasm_shapes.specs.Tree.{Tree};
    ghost use Rattle.wasm_shapes.specs.TreeCode.{trees_code};

    ghost Value = { List Tree };

    ghost coded = { trees_code };

    ghost view = { λ m. m.entries };
}

/// An index and its name.
#[derive(Drop)]
struct Naming<'a> {
    index: u32,
    name: &'a str,
}

impl<'a> EntryOf<Plain> for Naming<'a> {
    ghost tree = { λ e. entry_tree (record { index = e.index; name = e.name.now }) };

    ghost long = { λ e. length e.name.now ∷ [] };

    #[tactic(auto, using(crate::proofs::NameRows::naming_spelled))]
    fn write(&self, out: &mut Vec<u8>) -> Result<(), WriteFault> {
        match write_u32(out, self.index) {
            Ok(()) => {}
            Err(NoMemory) => return Err(WriteFault::NoMemory),
        }
        match write_name(out, self.name) {
            Ok(()) => Ok(()),
            Err(fault) => Err(fault),
        }
    }
}

impl NameMap {
    /// The number of the entries and their spelling.
    pub fn as_parts(&self) -> (u32, &[u8])
        ensures value { leb result.0 ++ result.1.now ≡ normal (vector_tree self.now) }
        ensures spells { BodySpells plain_naming self.now }
    {
        self.entries.as_parts()
    }

    /// A map without entries. It takes no memory.
    pub fn new(alloc: Global) -> Self
        ensures { result ≡ [] }
    {
        NameMap {
            entries: Entries::new(alloc),
        }
    }

    /// Adds an entry at the end. A refusal changes nothing.
    ///
    /// `TooLarge` comes exactly where the name has more than 2^32 - 1 bytes, or the number of entries would pass that, with
    /// that number.
    pub fn append(&mut self, index: u32, name: &str) -> Result<(), WriteFault>
        ensures ok { OnOk result (self.new
            ≡ self.old ++ entry_tree (record { index = index; name = name.now }) ∷ []) }
        ensures in_range { OnOk result
            (InRange (entry_tree (record { index = index; name = name.now }))) }
        ensures fits { OnOk result ((length name.now < 2 ^ 32) × (length self.old + 1 < 2 ^ 32)) }
        ensures err { OnErr result (self.new ≡ self.old) }
        ensures large { IfErr result (λ e. IfTooLarge e
            (IsTooLarge (length name.now ∷ (length self.old + 1) ∷ []))) }
    {
        self.entries.append(&Naming { index, name })
    }

    /// Appends the number of the entries and the entries. A refusal leaves what stood in `out` before.
    pub fn encode(&self, out: &mut Vec<u8>) -> Result<(), NoMemory>
        ensures ok { OnOk result (out.new.items ≡ out.old.items ++ normal (vector_tree self.now)) }
        ensures err { OnErr result (take (vec_len out.old) out.new.items ≡ out.old.items) }
        ensures spells { BodySpells plain_naming self.now }
    {
        let (count, bytes) = self.entries.as_parts();
        write_behind(out, count, bytes)
    }
}

/// A map from indices to maps of names. Contracts see it as the list of its entries.
#[derive(Drop)]
pub struct IndirectNameMap {
    pub(crate) entries: Entries<Indirect>,
}

impl Model for IndirectNameMap {
    ghost use Rattle.std.specs.Prelude.{List};
    ghost use Rattle.wasm_shapes.specs.Tree.{Tree};
    ghost use Rattle.wasm_shapes.specs.TreeCode.{trees_code};

    ghost Value = { List Tree };

    ghost coded = { trees_code };

    ghost view = { λ m. m.entries };
}

/// An index and its map of names.
#[derive(Drop)]
struct IndirectNaming<'a> {
    index: u32,
    names: &'a NameMap,
}

impl<'a> EntryOf<Indirect> for IndirectNaming<'a> {
    ghost tree = { λ e. Tree.pair (Tree.u32 e.index) (vector_tree e.names.now) };

    ghost long = { λ _. [] };

    #[tactic(auto, using(crate::proofs::NameRows::indirect_spelled))]
    fn write(&self, out: &mut Vec<u8>) -> Result<(), WriteFault> {
        match write_u32(out, self.index) {
            Ok(()) => {}
            Err(NoMemory) => return Err(WriteFault::NoMemory),
        }
        match self.names.encode(out) {
            Ok(()) => Ok(()),
            Err(NoMemory) => Err(WriteFault::NoMemory),
        }
    }
}

impl IndirectNameMap {
    /// A map without entries. It takes no memory.
    pub fn new(alloc: Global) -> Self
        ensures { result ≡ [] }
    {
        IndirectNameMap {
            entries: Entries::new(alloc),
        }
    }

    /// Adds an entry at the end. A refusal changes nothing.
    ///
    /// `TooLarge` comes exactly where the number of entries would pass 2^32 - 1, with that number.
    pub fn append(&mut self, index: u32, names: &NameMap) -> Result<(), WriteFault>
        ensures ok { OnOk result (self.new
            ≡ self.old ++ Tree.pair (Tree.u32 index) (vector_tree names.now) ∷ []) }
        ensures in_range { OnOk result
            (InRange (Tree.pair (Tree.u32 index) (vector_tree names.now))) }
        ensures fits { OnOk result (length self.old + 1 < 2 ^ 32) }
        ensures err { OnErr result (self.new ≡ self.old) }
        ensures large { IfErr result (λ e. IfTooLarge e
            (IsTooLarge ((length self.old + 1) ∷ []))) }
    {
        self.entries.append(&IndirectNaming { index, names })
    }
}
