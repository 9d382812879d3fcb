//! A core module under construction.
ghost use Rattle.std.specs.Prelude.{◌≡◌, ◌++◌, ◌<◌, ◌≤◌, [], length, map, slice_get, OnOk, OnErr, IfOk, IfErr, IfSome, IfNone, Some};
ghost use Rattle.wasm_shapes.specs.Tree.{normal};
ghost use Rattle.wasm_shapes.specs.Types.{vector_tree};
ghost use Rattle.wasm_write.specs.Faults.{IfTooLarge};
ghost use Rattle.wasm_write.specs.Held.{AreHeld};
ghost use Rattle.wasm_write.specs.Sections.{AllFit, section_row, with_section, sections_bytes, module_bytes, framed, framed_tree, HeldSections, HeldSections-prop};

use crate::fault::WriteFault;
use crate::frames::frame_at;
use crate::roomed::Roomed;
use crate::row_section::{RowSection, behind};
use crate::section::Section;
use std::alloc::Global;
use std::marker::Model;
use wasm_leb::{NoMemory, len_u32};
use wasm_shapes::kinds::SectionKind;

/// The header of a core module.
const HEADER: [u8; 8] = [0x00, 0x61, 0x73, 0x6d, 0x01, 0x00, 0x00, 0x00];

/// A core module under construction (WebAssembly Core Specification 3.0, section 5.5.17).
///
/// Contracts see it as the list of its sections, each an id and a body, and its ceiling, the greatest length that a body
/// may have.
#[derive(Drop)]
pub struct Module {
    ceiling: u32,
    count: usize,
    // the header and the sections
    bytes: Roomed,
    ghost held: { HeldSections count bytes } by { HeldSections-prop count bytes },
}

impl Model for Module {
    ghost use Rattle.wasm_write.specs.Sections.{AllFit, Sections, held_sections};

    ghost Value = { Sections };

    ghost view = { λ m. record {
      ceiling = m.ceiling;
      sections = held_sections m.count m.bytes m.held;
    } };

    ghost invariant = { λ m. AllFit m.ceiling (held_sections m.count m.bytes m.held) };
}

impl Module {
    /// A module without sections, and the greatest length that the body of a section may have.
    pub fn new(alloc: Global, ceiling: u32) -> Result<Module, NoMemory>
        ensures { IfOk result (λ m. m ≡ record { ceiling = ceiling; sections = [] }) }
    {
        Module::behind_room(alloc, ceiling, 0)
    }

    /// A module without sections that is to be added to another as a section, with its ceiling: by `take_sections`, which copies
    /// little where the body that it becomes has `len` bytes or nearly so many.
    pub fn within(alloc: Global, outer: &Module, len: usize) -> Result<Module, NoMemory>
        ensures { IfOk result (λ m. m ≡ record { ceiling = outer.now.ceiling; sections = [] }) }
    {
        Module::behind_room(alloc, outer.ceiling, outer.room_within(len))
    }

    /// A module without sections behind room for so many bytes, and the greatest length that the body of a section may have.
    fn behind_room(alloc: Global, ceiling: u32, room: usize) -> Result<Module, NoMemory>
        ensures { IfOk result (λ m. m ≡ record { ceiling = ceiling; sections = [] }) }
    {
        match Roomed::new(alloc, room, &HEADER) {
            Ok(bytes) => Ok(Module {
                ceiling,
                count: 0,
                bytes,
            }),
            Err(NoMemory) => Err(NoMemory),
        }
    }

    /// How much room the body of a section of nearly so many bytes has for the bytes in front of it: for all of them, where these
    /// are far fewer.
    fn room_within(&self, len: usize) -> usize {
        let held = self.bytes.len_all();
        if held > len / 256 || len > u32::MAX as usize {
            return 0;
        }
        held + 1 + len_u32(len as u32)
    }

    /// The greatest length that the body of a section may have.
    pub fn ceiling(&self) -> u32
        ensures { result ≡ self.now.ceiling }
    {
        self.ceiling
    }

    /// How many sections it has.
    pub fn len(&self) -> usize
        ensures { result ≡ length self.now.sections }
    {
        self.count
    }

    /// Does nothing: no section that a module holds has a body above its ceiling.
    #[inline(always)]
    pub fn sections_fit(&self)
        ensures { AllFit self.now.ceiling self.now.sections }
    {
        let _ = &self.count;
    }

    /// Adds a section at the end. A refusal changes nothing.
    ///
    /// `TooLarge` comes exactly where the body is longer than the ceiling, with its length.
    pub fn section<S: Section>(&mut self, section: &S) -> Result<(), WriteFault>
        ensures ok { OnOk result
            (self.new ≡ with_section self.old
            (section_row (S.number section.now) (S.contents section.now))) }
        ensures fits { OnOk result (length (S.contents section.now) ≤ self.old.ceiling) }
        ensures err { OnErr result (self.new ≡ self.old) }
        ensures large { IfErr result (λ e. IfTooLarge e
            (λ size. (size ≡ length (S.contents section.now)) × (self.old.ceiling < size))) }
    {
        match self.bytes.add(section, self.ceiling) {
            Ok(()) => {
                self.count += 1;
                Ok(())
            }
            Err(fault) => Err(fault),
        }
    }

    /// Adds a section of rows at the end, as `section` does, and takes its memory over where that spares a copy of the rows:
    /// see `RowSection::with_room`. A refusal changes nothing.
    ///
    /// `TooLarge` comes exactly where the body is longer than the ceiling, with its length.
    pub fn take<K: SectionKind>(&mut self, section: RowSection<K>) -> Result<(), WriteFault>
        ensures ok { OnOk result
            (self.new ≡ with_section self.old (section_row K.ID (normal (vector_tree section)))) }
        ensures fits { OnOk result (length (normal (vector_tree section)) ≤ self.old.ceiling) }
        ensures err { OnErr result (self.new ≡ self.old) }
        ensures large { IfErr result (λ e. IfTooLarge e
            (λ size. (size ≡ length (normal (vector_tree section))) × (self.old.ceiling < size))) }
    {
        match self.bytes.take(section, self.ceiling) {
            Ok(()) => {
                self.count += 1;
                Ok(())
            }
            Err(fault) => Err(fault),
        }
    }

    /// Adds a section of this id at the end, whose body is a header and the sections of another module. The memory of that one is
    /// taken over where it is the longer one: see `within`. A refusal changes nothing.
    ///
    /// `TooLarge` comes exactly where the body is longer than the ceiling, with its length.
    pub fn take_sections(
        &mut self,
        id: u8,
        header: &[u8; 8],
        nested: Module,
    ) -> Result<(), WriteFault>
        requires { id ≤ 127 }
        ensures ok { OnOk result (self.new ≡ with_section self.old
            (section_row id (header.now ++ sections_bytes nested.sections))) }
        ensures fits { OnOk result
            (length (header.now ++ sections_bytes nested.sections) ≤ self.old.ceiling) }
        ensures err { OnErr result (self.new ≡ self.old) }
        ensures large { IfErr result (λ e. IfTooLarge e (λ size.
            (size ≡ length (header.now ++ sections_bytes nested.sections)) × (self.old.ceiling < size))) }
    {
        let mut body = nested.bytes;
        body.put_first(header);
        match self.bytes.take_body(id, body, self.ceiling) {
            Ok(()) => {
                self.count += 1;
                Ok(())
            }
            Err(fault) => Err(fault),
        }
    }

    /// How many bytes stand in front of the rows of a section that is added at the end, if its body has `len` bytes of which
    /// the first `counted` are the number of the rows; or 0 where the body is no longer than the module.
    pub(crate) fn len_before(&self, counted: usize, len: usize) -> usize {
        let held = self.bytes.len_all();
        if len <= held || len > u32::MAX as usize {
            return 0;
        }
        held.saturating_add(1 + len_u32(len as u32))
            .saturating_add(counted)
    }

    /// The header and the sections: the bytes that `finish` gives.
    pub fn as_slice(&self) -> &[u8]
        ensures { result.now ≡ module_bytes self.now.sections }
    {
        self.bytes.as_slice()
    }

    /// The sections, without the header: they read back as they were added.
    pub fn sections_as_slice(&self) -> &[u8]
        ensures value { result.now ≡ sections_bytes self.now.sections }
        ensures held { ∥ AreHeld framed (length self.now.sections) (sections_bytes self.now.sections)
            (map framed_tree self.now.sections) ∥₁ }
    {
        behind(self.bytes.as_slice(), 8)
    }

    /// The id and the body of a section, by its number, counted from 0. None exactly where there is no such section.
    pub fn section_at(&self, i: usize) -> Option<(u8, &[u8])>
        ensures some { IfSome result (λ s.
            slice_get self.now.sections i ≡ Some (section_row s.0 s.1.now)) }
        ensures none { IfNone result (length self.now.sections ≤ i) }
    {
        match frame_at(self.sections_as_slice(), 1, i) {
            Some((head, body)) => Some((head[0], body)),
            None => None,
        }
    }

    /// The header and the sections. It takes no memory.
    pub fn finish(self) -> Vec<u8>
        ensures { result.items ≡ module_bytes self.sections }
    {
        self.bytes.into_vec()
    }
}
