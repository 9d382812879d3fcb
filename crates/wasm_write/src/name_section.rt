//! Name sections, as they are written (WebAssembly Core Specification 3.0, section 7.4.1).
ghost use Rattle.std.specs.Prelude.{◌≡◌, ◌++◌, ◌-◌, ◌^◌, ◌<◌, ◌≤◌, ◌⊎◌, [], refl, length, take, vec_len, OnOk, OnErr, IfErr};
ghost use Rattle.std.proofs.Common.{lit≤};
ghost use Rattle.wasm_shapes.specs.declared.Space.TheVariants as space;
ghost use Rattle.wasm_shapes.specs.Tree.{Tree, normal};
ghost use Rattle.wasm_shapes.specs.Shape.{Shape};
ghost use Rattle.wasm_shapes.specs.Types.{vector_tree};
ghost use Rattle.wasm_shapes.specs.Module.{name_subsection, subsection};
ghost use Rattle.wasm_shapes.specs.Namings.{module_name_tree, names_tree, raw_names_tree};
ghost use Rattle.wasm_shapes.proofs.Begins.{row_at};
ghost use Rattle.wasm_write.specs.Bodies.{with_row};
ghost use Rattle.wasm_write.specs.Faults.{IfTooLarge};
ghost use Rattle.wasm_write.specs.Names.{PassesCeiling, name_section_tree, NamesSpell};

use crate::fault::WriteFault;
use crate::fields::{named_len, write_behind};
use crate::immediates::write_bytes;
use crate::names::{Entries, IndirectNameMap, MapKind, NameMap};
use crate::section::Section;
use crate::subsections::{SubsectionKind, Subsections};
use std::alloc::Global;
use std::marker::Model;
use wasm_leb::NoMemory;
use wasm_shapes::Space;

/// The subsections of a core module's names.
struct CoreNames;

impl SubsectionKind for CoreNames {
    ghost shape = { name_subsection };

    ghost rows_sound = { refl };
}

/// A name section: a custom section of the name `name`.
///
/// Contracts see it as the list of its subsections and its ceiling, the greatest length that the body of one may have.
#[derive(Drop)]
pub struct NameSection {
    subsections: Subsections<CoreNames>,
}

impl Model for NameSection {
    ghost use Rattle.wasm_write.specs.Bodies.{CodeRows, code_rows_code};

    ghost Value = { CodeRows };

    ghost coded = { code_rows_code };

    ghost view = { λ s. s.subsections };
}

impl NameSection {
    /// Adds a map whose indices are those of a space.
    fn add_map<K: MapKind>(
        &mut self,
        id: u8,
        space: Space,
        map: &Entries<K>,
    ) -> Result<(), WriteFault>
        requires { row_at name_subsection id
            ≡ subsection id (Shape.vec (Shape.seq (Shape.ix space) K.named)) }
        ensures ok { OnOk result (self.new ≡ with_row self.old (names_tree id space map.now)) }
        ensures fits { OnOk result (length (normal (vector_tree map.now)) ≤ self.old.ceiling) }
        ensures err { OnErr result (self.new ≡ self.old) }
        ensures large { IfErr result (λ e. IfTooLarge e
            (PassesCeiling self.old.ceiling (vector_tree map.now))) }
    {
        let (count, bytes) = map.as_parts();
        self.subsections.add(id, &[], Some(count), bytes)
    }
}

impl NameSection {
    /// A section without subsections, and the greatest length that the body of one may have. It takes no memory.
    pub fn new(alloc: Global, ceiling: u32) -> Self
        ensures { result ≡ record { ceiling = ceiling; rows = [] } }
    {
        NameSection {
            subsections: Subsections::new(alloc, ceiling),
        }
    }

    /// Adds the name of the module. A refusal changes nothing.
    ///
    /// `TooLarge` comes exactly where a name has more than 2^32 - 1 bytes, or else the body of the subsection is longer than
    /// the ceiling, with that length.
    pub fn module(&mut self, name: &str) -> Result<(), WriteFault>
        ensures ok { OnOk result (self.new ≡ with_row self.old (module_name_tree name.now)) }
        ensures fits { OnOk result (length (normal (Tree.name name.now)) ≤ self.old.ceiling) }
        ensures err { OnErr result (self.new ≡ self.old) }
        ensures large { IfErr result (λ e. IfTooLarge e (λ size.
            ((size ≡ length name.now) × (2 ^ 32 - 1 < size))
            ⊎ PassesCeiling self.old.ceiling (Tree.name name.now) size)) }
    {
        let size = name.len();
        if size > u32::MAX as usize {
            return Err(WriteFault::TooLarge { size: size as u64 });
        }
        self.subsections
            .add(0, &[], Some(size as u32), name.as_bytes())
    }

    /// Adds the names of functions. A refusal changes nothing: see `module`.
    pub fn functions(&mut self, map: &NameMap) -> Result<(), WriteFault>
        ensures ok { OnOk result
            (self.new ≡ with_row self.old (names_tree 1 space.Function map.now)) }
        ensures fits { OnOk result (length (normal (vector_tree map.now)) ≤ self.old.ceiling) }
        ensures err { OnErr result (self.new ≡ self.old) }
        ensures large { IfErr result (λ e. IfTooLarge e
            (PassesCeiling self.old.ceiling (vector_tree map.now))) }
    {
        self.add_map(1, Space::Function, &map.entries)
    }

    /// Adds the names of types. A refusal changes nothing: see `module`.
    pub fn types(&mut self, map: &NameMap) -> Result<(), WriteFault>
        ensures ok { OnOk result
            (self.new ≡ with_row self.old (names_tree 4 space.Type_ map.now)) }
        ensures fits { OnOk result (length (normal (vector_tree map.now)) ≤ self.old.ceiling) }
        ensures err { OnErr result (self.new ≡ self.old) }
        ensures large { IfErr result (λ e. IfTooLarge e
            (PassesCeiling self.old.ceiling (vector_tree map.now))) }
    {
        self.add_map(4, Space::Type_, &map.entries)
    }

    /// Adds the names of tables. A refusal changes nothing: see `module`.
    pub fn tables(&mut self, map: &NameMap) -> Result<(), WriteFault>
        ensures ok { OnOk result
            (self.new ≡ with_row self.old (names_tree 5 space.Table map.now)) }
        ensures fits { OnOk result (length (normal (vector_tree map.now)) ≤ self.old.ceiling) }
        ensures err { OnErr result (self.new ≡ self.old) }
        ensures large { IfErr result (λ e. IfTooLarge e
            (PassesCeiling self.old.ceiling (vector_tree map.now))) }
    {
        self.add_map(5, Space::Table, &map.entries)
    }

    /// Adds the names of memories. A refusal changes nothing: see `module`.
    pub fn memories(&mut self, map: &NameMap) -> Result<(), WriteFault>
        ensures ok { OnOk result
            (self.new ≡ with_row self.old (names_tree 6 space.Memory map.now)) }
        ensures fits { OnOk result (length (normal (vector_tree map.now)) ≤ self.old.ceiling) }
        ensures err { OnErr result (self.new ≡ self.old) }
        ensures large { IfErr result (λ e. IfTooLarge e
            (PassesCeiling self.old.ceiling (vector_tree map.now))) }
    {
        self.add_map(6, Space::Memory, &map.entries)
    }

    /// Adds the names of globals. A refusal changes nothing: see `module`.
    pub fn globals(&mut self, map: &NameMap) -> Result<(), WriteFault>
        ensures ok { OnOk result
            (self.new ≡ with_row self.old (names_tree 7 space.Global map.now)) }
        ensures fits { OnOk result (length (normal (vector_tree map.now)) ≤ self.old.ceiling) }
        ensures err { OnErr result (self.new ≡ self.old) }
        ensures large { IfErr result (λ e. IfTooLarge e
            (PassesCeiling self.old.ceiling (vector_tree map.now))) }
    {
        self.add_map(7, Space::Global, &map.entries)
    }

    /// Adds the names of element segments. A refusal changes nothing: see `module`.
    pub fn elements(&mut self, map: &NameMap) -> Result<(), WriteFault>
        ensures ok { OnOk result
            (self.new ≡ with_row self.old (names_tree 8 space.Element map.now)) }
        ensures fits { OnOk result (length (normal (vector_tree map.now)) ≤ self.old.ceiling) }
        ensures err { OnErr result (self.new ≡ self.old) }
        ensures large { IfErr result (λ e. IfTooLarge e
            (PassesCeiling self.old.ceiling (vector_tree map.now))) }
    {
        self.add_map(8, Space::Element, &map.entries)
    }

    /// Adds the names of data segments. A refusal changes nothing: see `module`.
    pub fn data_(&mut self, map: &NameMap) -> Result<(), WriteFault>
        ensures ok { OnOk result
            (self.new ≡ with_row self.old (names_tree 9 space.Data map.now)) }
        ensures fits { OnOk result (length (normal (vector_tree map.now)) ≤ self.old.ceiling) }
        ensures err { OnErr result (self.new ≡ self.old) }
        ensures large { IfErr result (λ e. IfTooLarge e
            (PassesCeiling self.old.ceiling (vector_tree map.now))) }
    {
        self.add_map(9, Space::Data, &map.entries)
    }

    /// Adds the names of tags. A refusal changes nothing: see `module`.
    pub fn tags(&mut self, map: &NameMap) -> Result<(), WriteFault>
        ensures ok { OnOk result
            (self.new ≡ with_row self.old (names_tree 11 space.Tag map.now)) }
        ensures fits { OnOk result (length (normal (vector_tree map.now)) ≤ self.old.ceiling) }
        ensures err { OnErr result (self.new ≡ self.old) }
        ensures large { IfErr result (λ e. IfTooLarge e
            (PassesCeiling self.old.ceiling (vector_tree map.now))) }
    {
        self.add_map(11, Space::Tag, &map.entries)
    }

    /// Adds the names of locals, by their functions. A refusal changes nothing: see `module`.
    pub fn locals(&mut self, map: &IndirectNameMap) -> Result<(), WriteFault>
        ensures ok { OnOk result
            (self.new ≡ with_row self.old (names_tree 2 space.Function map.now)) }
        ensures fits { OnOk result (length (normal (vector_tree map.now)) ≤ self.old.ceiling) }
        ensures err { OnErr result (self.new ≡ self.old) }
        ensures large { IfErr result (λ e. IfTooLarge e
            (PassesCeiling self.old.ceiling (vector_tree map.now))) }
    {
        self.add_map(2, Space::Function, &map.entries)
    }

    /// Adds the names of labels, by their functions. A refusal changes nothing: see `module`.
    pub fn labels(&mut self, map: &IndirectNameMap) -> Result<(), WriteFault>
        ensures ok { OnOk result
            (self.new ≡ with_row self.old (names_tree 3 space.Function map.now)) }
        ensures fits { OnOk result (length (normal (vector_tree map.now)) ≤ self.old.ceiling) }
        ensures err { OnErr result (self.new ≡ self.old) }
        ensures large { IfErr result (λ e. IfTooLarge e
            (PassesCeiling self.old.ceiling (vector_tree map.now))) }
    {
        self.add_map(3, Space::Function, &map.entries)
    }

    /// Adds the names of fields, by their types. A refusal changes nothing: see `module`.
    pub fn fields(&mut self, map: &IndirectNameMap) -> Result<(), WriteFault>
        ensures ok { OnOk result
            (self.new ≡ with_row self.old (names_tree 10 space.Type_ map.now)) }
        ensures fits { OnOk result (length (normal (vector_tree map.now)) ≤ self.old.ceiling) }
        ensures err { OnErr result (self.new ≡ self.old) }
        ensures large { IfErr result (λ e. IfTooLarge e
            (PassesCeiling self.old.ceiling (vector_tree map.now))) }
    {
        self.add_map(10, Space::Type_, &map.entries)
    }

    /// Adds a subsection of an id from 12 on, by its bytes. A refusal changes nothing: see `module`.
    pub fn raw(&mut self, id: u8, contents: &[u8]) -> Result<(), WriteFault>
        requires { 12 ≤ id }
        ensures ok { OnOk result (self.new ≡ with_row self.old (raw_names_tree id contents.now)) }
        ensures fits { OnOk result (length contents.now ≤ self.old.ceiling) }
        ensures err { OnErr result (self.new ≡ self.old) }
        ensures large { IfErr result (λ e. IfTooLarge e
            (PassesCeiling self.old.ceiling (Tree.raw contents.now))) }
    {
        self.subsections.add(id, &[], None, contents)
    }
}

impl Section for NameSection {
    ghost number = { λ _. 0 };

    ghost contents = { λ s. normal (name_section_tree s.rows) };

    ghost small = { λ _. lit≤ tt };

    fn id(&self) -> u8 {
        0
    }

    /// Appends the name and the subsections, which read back as they were added.
    fn encode_body(&self, out: &mut Vec<u8>) -> Result<(), NoMemory>
        ensures ok { OnOk result
            (out.new.items ≡ out.old.items ++ normal (name_section_tree self.now.rows)) }
        ensures err { OnErr result (take (vec_len out.old) out.new.items ≡ out.old.items) }
        ensures spells { OnOk result (NamesSpell self.now.rows) }
    {
        match write_behind(out, 4, b"name") {
            Ok(()) => {}
            Err(NoMemory) => return Err(NoMemory),
        }
        match write_bytes(out, self.subsections.as_slice()) {
            Ok(()) => Ok(()),
            Err(NoMemory) => Err(NoMemory),
        }
    }

    fn known_len(&self) -> Option<usize> {
        named_len(4, self.subsections.as_slice().len())
    }
}
