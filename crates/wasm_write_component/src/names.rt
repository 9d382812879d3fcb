//! The names of a component, as they are written (Component Model, Binary Format: the custom section named `component-name`).
ghost use Rattle.std.specs.Prelude.{◌≡◌, ◌++◌, ◌-◌, ◌^◌, ◌<◌, ◌≤◌, ◌⊎◌, [], refl, true, length, take, vec_len, OnOk, OnErr, IfErr};
ghost use Rattle.std.proofs.Common.{lit≤};
ghost use Rattle.wasm_shapes.specs.Component.{component_name_subsection};
ghost use Rattle.wasm_shapes.specs.ComponentNames.{IsRawNames, component_names_tree, has_sort, raw_component_names_tree, sort_bytes};
ghost use Rattle.wasm_shapes.specs.Namings.{module_name_tree};
ghost use Rattle.wasm_shapes.specs.Tree.{Tree, normal};
ghost use Rattle.wasm_shapes.specs.Types.{vector_tree};
ghost use Rattle.wasm_write.specs.Bodies.{with_row};
ghost use Rattle.wasm_write.specs.Faults.{IfTooLarge};
ghost use Rattle.wasm_write.specs.Names.{PassesCeiling};
ghost use Rattle.wasm_write_component.specs.ComponentNames.{ComponentNamesSpell, bytes_of_sort, component_name_section_tree};

use crate::component::ComponentSection;
use std::alloc::Global;
use std::marker::Model;
use wasm_leb::NoMemory;
use wasm_shapes::Space;
use wasm_write::{NameMap, Section, SubsectionKind, Subsections, WriteFault, write_name};

/// A sort of what has names: one of core modules, by the byte behind the first, or one of components, by its byte.
enum Sort {
    Core(u8),
    Own(u8),
}

/// The sort of what a space counts.
fn sort_of(space: Space) -> Sort
    requires { has_sort space ≡ true }
    ensures { sort_bytes space ≡ bytes_of_sort result }
{
    match space {
        Space::Function => Sort::Core(0x00),
        Space::Table => Sort::Core(0x01),
        Space::Memory => Sort::Core(0x02),
        Space::Global => Sort::Core(0x03),
        Space::Tag => Sort::Core(0x04),
        Space::Type_ => Sort::Core(0x10),
        Space::Module => Sort::Core(0x11),
        Space::Instance => Sort::Core(0x12),
        Space::ComponentFunc => Sort::Own(0x01),
        Space::ComponentValue => Sort::Own(0x02),
        Space::ComponentType => Sort::Own(0x03),
        Space::Component => Sort::Own(0x04),
        Space::ComponentInstance => Sort::Own(0x05),
        _ => unreachable!(),
    }
}

/// The subsections of a component's names.
struct ComponentNames;

impl SubsectionKind for ComponentNames {
    ghost shape = { component_name_subsection };

    ghost rows_sound = { refl };
}

/// The names of a component: a custom section of the name `component-name`.
///
/// Contracts see it as the list of its subsections and its ceiling, the greatest length that the body of one may have.
#[derive(Drop)]
pub struct ComponentNameSection {
    subsections: Subsections<ComponentNames>,
}

impl Model for ComponentNameSection {
    ghost use Rattle.wasm_write.specs.Bodies.{CodeRows, code_rows_code};

    ghost Value = { CodeRows };

    ghost coded = { code_rows_code };

    ghost view = { λ s. s.subsections };
}

impl ComponentNameSection {
    /// A section without subsections, and the greatest length that the body of one may have. It takes no memory.
    pub fn new(alloc: Global, ceiling: u32) -> Self
        ensures { result ≡ record { ceiling = ceiling; rows = [] } }
    {
        ComponentNameSection {
            subsections: Subsections::new(alloc, ceiling),
        }
    }

    /// Adds the name of the component. A refusal changes nothing.
    ///
    /// `TooLarge` comes exactly where a name has more than 2^32 - 1 bytes, or else the body of the subsection is longer than
    /// the ceiling, with that length.
    pub fn component(&mut self, name: &str) -> Result<(), WriteFault>
        ensures ok { OnOk result (self.new ≡ with_row self.old (module_name_tree name.now)) }
        ensures fits { OnOk result (length (normal (Tree.name name.now)) ≤ self.old.ceiling) }
        ensures err { OnErr result (self.new ≡ self.old) }
        ensures large { IfErr result (λ e. IfTooLarge e (λ size.
            ((size ≡ length name.now) × (2 ^ 32 - 1 < size))
            ⊎ PassesCeiling self.old.ceiling (Tree.name name.now) size)) }
    {
        let size = name.len();
        if size > u32::MAX as usize {
            return Err(WriteFault::TooLarge { size: size as u64 });
        }
        self.subsections
            .add(0, &[], Some(size as u32), name.as_bytes())
    }

    /// Adds the names of what a space counts, which has a sort. A refusal changes nothing: see `component`.
    pub fn names(&mut self, space: Space, map: &NameMap) -> Result<(), WriteFault>
        requires { has_sort space ≡ true }
        ensures ok { OnOk result (self.new ≡ with_row self.old (component_names_tree space map.now)) }
        ensures fits { OnOk result
            (length (sort_bytes space ++ normal (vector_tree map.now)) ≤ self.old.ceiling) }
        ensures err { OnErr result (self.new ≡ self.old) }
        ensures large { IfErr result (λ e. IfTooLarge e (λ size.
            (size ≡ length (sort_bytes space ++ normal (vector_tree map.now)))
            × (self.old.ceiling < size))) }
    {
        let (count, bytes) = map.as_parts();
        match sort_of(space) {
            Sort::Core(sort) => self.subsections.add(1, &[0x00, sort], Some(count), bytes),
            Sort::Own(sort) => self.subsections.add(1, &[sort], Some(count), bytes),
        }
    }

    /// Adds a subsection by its bytes: one that begins with no sort, or of an id from 2 on. A refusal changes nothing: see
    /// `component`.
    pub fn raw(&mut self, id: u8, contents: &[u8]) -> Result<(), WriteFault>
        requires { IsRawNames id contents.now }
        ensures ok { OnOk result
            (self.new ≡ with_row self.old (raw_component_names_tree id contents.now)) }
        ensures fits { OnOk result (length contents.now ≤ self.old.ceiling) }
        ensures err { OnErr result (self.new ≡ self.old) }
        ensures large { IfErr result (λ e. IfTooLarge e
            (PassesCeiling self.old.ceiling (Tree.raw contents.now))) }
    {
        self.subsections.add(id, &[], None, contents)
    }
}

impl Section for ComponentNameSection {
    ghost number = { λ _. 0 };

    ghost contents = { λ s. normal (component_name_section_tree s.rows) };

    ghost small = { λ _. lit≤ tt };

    fn id(&self) -> u8 {
        0
    }

    /// Appends the name and the subsections, which read back as they were added.
    fn encode_body(&self, out: &mut Vec<u8>) -> Result<(), NoMemory>
        ensures ok { OnOk result
            (out.new.items ≡ out.old.items ++ normal (component_name_section_tree self.now.rows)) }
        ensures err { OnErr result (take (vec_len out.old) out.new.items ≡ out.old.items) }
        ensures spells { OnOk result (ComponentNamesSpell self.now.rows) }
    {
        match write_name(out, "component-name") {
            Ok(()) => {}
            Err(_) => return Err(NoMemory),
        }
        match out.extend_from_slice(self.subsections.as_slice()) {
            Ok(()) => Ok(()),
            Err(_) => Err(NoMemory),
        }
    }

    // The name and its length are fifteen bytes.
    fn known_len(&self) -> Option<usize> {
        self.subsections.as_slice().len().checked_add(15)
    }
}

impl ComponentSection for ComponentNameSection {}
