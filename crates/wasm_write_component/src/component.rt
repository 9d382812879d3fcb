//! A component under construction.
ghost use Rattle.std.specs.Prelude.{◌≡◌, ◌<◌, ◌≤◌, [], length, OnOk, OnErr, IfOk, IfErr};
ghost use Rattle.std.proofs.Common.{lit≤};
ghost use Rattle.wasm_write.specs.Faults.{IfTooLarge};
ghost use Rattle.wasm_write.specs.Sections.{AllFit, module_bytes, section_row, with_section};
ghost use Rattle.wasm_write_component.specs.ComponentBytes.{component_bytes};

use crate::sections::{ComponentStartSection, Of};
use std::alloc::Global;
use std::marker::Model;
use wasm_leb::NoMemory;
use wasm_shapes::component_kinds::ComponentSectionKind;
use wasm_write::{CustomSection, Module, RawSection, RowSection, Section, WriteFault};

/// A section that can be added to a component. It has the calls and the meanings of `Section`.
///
/// It is a `Section` itself, so `Module::section` takes one too: the module then has a section of this id with a component's body,
/// and may have no reading. Add the sections of this crate to a `Component` alone, which takes none of a core module's kinds.
pub trait ComponentSection: Section {}

impl<K: ComponentSectionKind> ComponentSection for RowSection<Of<K>> {}

impl ComponentSection for ComponentStartSection {}

impl<'a> ComponentSection for CustomSection<'a> {}

impl<'a> ComponentSection for RawSection<'a> {}

/// The header of a core module.
const MODULE_HEADER: [u8; 8] = [0x00, 0x61, 0x73, 0x6d, 0x01, 0x00, 0x00, 0x00];

/// The header of a component.
const HEADER: [u8; 8] = [0x00, 0x61, 0x73, 0x6d, 0x0d, 0x00, 0x01, 0x00];

/// A component under construction.
///
/// Contracts see it as they see a module: as the list of its sections, each an id and a body, and its ceiling, the greatest
/// length that a body may have.
#[derive(Drop)]
pub struct Component {
    // its sections, behind the header of a module
    sections: Module,
}

impl Model for Component {
    ghost use Rattle.wasm_write.specs.Sections.{Sections};

    ghost Value = { Sections };

    ghost view = { λ c. c.sections };
}

impl Component {
    /// A component without sections, and the greatest length that the body of a section may have.
    pub fn new(alloc: Global, ceiling: u32) -> Result<Component, NoMemory>
        ensures { IfOk result (λ c. c ≡ record { ceiling = ceiling; sections = [] }) }
    {
        match Module::new(alloc, ceiling) {
            Ok(sections) => Ok(Component { sections }),
            Err(NoMemory) => Err(NoMemory),
        }
    }

    /// A core module without sections that is to be added by `take_module`, with the ceiling of this component. Little is copied
    /// then where its section has a body of `len` bytes or nearly so many.
    pub fn module_within(&self, alloc: Global, len: usize) -> Result<Module, NoMemory>
        ensures { IfOk result (λ m. m ≡ record { ceiling = self.now.ceiling; sections = [] }) }
    {
        Module::within(alloc, &self.sections, len)
    }

    /// A component without sections that is to be added by `take_component`, with the ceiling of this one, as `module_within`
    /// has a core module.
    pub fn component_within(&self, alloc: Global, len: usize) -> Result<Component, NoMemory>
        ensures { IfOk result (λ c. c ≡ record { ceiling = self.now.ceiling; sections = [] }) }
    {
        match Module::within(alloc, &self.sections, len) {
            Ok(sections) => Ok(Component { sections }),
            Err(NoMemory) => Err(NoMemory),
        }
    }

    /// The greatest length that the body of a section may have.
    pub fn ceiling(&self) -> u32
        ensures { result ≡ self.now.ceiling }
    {
        self.sections.ceiling()
    }

    /// How many sections it has.
    pub fn len(&self) -> usize
        ensures { result ≡ length self.now.sections }
    {
        self.sections.len()
    }

    /// Does nothing: no section that a component holds has a body above its ceiling.
    #[inline(always)]
    pub fn sections_fit(&self)
        ensures { AllFit self.now.ceiling self.now.sections }
    {
        self.sections.sections_fit();
    }

    /// Adds a section at the end. A refusal changes nothing.
    ///
    /// `TooLarge` comes exactly where the body is longer than the ceiling, with its length.
    pub fn section<S: ComponentSection>(&mut self, section: &S) -> Result<(), WriteFault>
        ensures ok { OnOk result
            (self.new ≡ with_section self.old
            (section_row (S.Section.number section.now) (S.Section.contents section.now))) }
        ensures fits { OnOk result (length (S.Section.contents section.now) ≤ self.old.ceiling) }
        ensures err { OnErr result (self.new ≡ self.old) }
        ensures large { IfErr result (λ e. IfTooLarge e
            (λ size. (size ≡ length (S.Section.contents section.now)) × (self.old.ceiling < size))) }
    {
        self.sections.section(section)
    }

    /// Adds a core module at the end, as `section` adds a `ModuleSection`, and takes its memory over where it is longer than what
    /// the component has. A refusal changes nothing.
    ///
    /// `TooLarge` comes exactly where its bytes are more than the ceiling, with their number.
    pub fn take_module(&mut self, module: Module) -> Result<(), WriteFault>
        ensures ok { OnOk result
            (self.new ≡ with_section self.old (section_row 1 (module_bytes module.sections))) }
        ensures fits { OnOk result (length (module_bytes module.sections) ≤ self.old.ceiling) }
        ensures err { OnErr result (self.new ≡ self.old) }
        ensures large { IfErr result (λ e. IfTooLarge e
            (λ size. (size ≡ length (module_bytes module.sections)) × (self.old.ceiling < size))) }
    {
        self.sections.take_sections(1, &MODULE_HEADER, module)
    }

    /// Adds a component at the end, as `section` adds a `NestedComponentSection`, and takes its memory over where it is longer
    /// than what this one has. A refusal changes nothing.
    ///
    /// `TooLarge` comes exactly where its bytes are more than the ceiling, with their number.
    pub fn take_component(&mut self, nested: Component) -> Result<(), WriteFault>
        ensures ok { OnOk result
            (self.new ≡ with_section self.old (section_row 4 (component_bytes nested.sections))) }
        ensures fits { OnOk result (length (component_bytes nested.sections) ≤ self.old.ceiling) }
        ensures err { OnErr result (self.new ≡ self.old) }
        ensures large { IfErr result (λ e. IfTooLarge e
            (λ size. (size ≡ length (component_bytes nested.sections)) × (self.old.ceiling < size))) }
    {
        self.sections.take_sections(4, &HEADER, nested.sections)
    }

    /// The header and the sections. It takes no memory.
    pub fn finish(self) -> Vec<u8>
        ensures { result.items ≡ component_bytes self.sections }
    {
        let mut bytes = self.sections.finish();
        bytes[4] = 0x0d;
        bytes[6] = 0x01;
        bytes
    }
}

/// A core module in a component.
#[derive(Clone, Copy)]
pub struct ModuleSection<'a>(pub &'a Module);

impl<'a> Section for ModuleSection<'a> {
    ghost number = { λ _. 1 };

    ghost contents = { λ s. module_bytes s.0.now.sections };

    ghost small = { λ _. lit≤ tt };

    fn id(&self) -> u8 {
        1
    }

    fn encode_body(&self, out: &mut Vec<u8>) -> Result<(), NoMemory> {
        match out.extend_from_slice(self.0.as_slice()) {
            Ok(()) => Ok(()),
            Err(_) => Err(NoMemory),
        }
    }

    fn known_len(&self) -> Option<usize> {
        Some(self.0.as_slice().len())
    }
}

impl<'a> ComponentSection for ModuleSection<'a> {}

/// A component in a component.
#[derive(Clone, Copy)]
pub struct NestedComponentSection<'a>(pub &'a Component);

impl<'a> Section for NestedComponentSection<'a> {
    ghost number = { λ _. 4 };

    ghost contents = { λ s. component_bytes s.0.now.sections };

    ghost small = { λ _. lit≤ tt };

    fn id(&self) -> u8 {
        4
    }

    fn encode_body(&self, out: &mut Vec<u8>) -> Result<(), NoMemory> {
        match out.extend_from_slice(&HEADER) {
            Ok(()) => {}
            Err(_) => return Err(NoMemory),
        }
        let component = self.0;
        match out.extend_from_slice(component.sections.sections_as_slice()) {
            Ok(()) => Ok(()),
            Err(_) => Err(NoMemory),
        }
    }

    // The header of a module is as long.
    fn known_len(&self) -> Option<usize> {
        let component = self.0;
        Some(component.sections.as_slice().len())
    }
}

impl<'a> ComponentSection for NestedComponentSection<'a> {}
