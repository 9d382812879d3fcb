//! A module in pieces.
ghost use Rattle.std.specs.Prelude.{◌≡◌, ◌++◌, ◌∷◌, ◌<◌, ◌≤◌, ◌^◌, [], length, drop, false, OnOk, OnErr, IfOk, IfErr};
ghost use Rattle.wasm_leb.specs.Leb.{leb};
ghost use Rattle.wasm_shapes.specs.Tree.{normal};
ghost use Rattle.wasm_shapes.specs.Types.{vector_tree};
ghost use Rattle.wasm_write.specs.Faults.{IfTooLarge};
ghost use Rattle.wasm_write.specs.Sections.{module_bytes, section_row, with_section};
ghost use Rattle.wasm_write.specs.Types.{custom_section_tree};
ghost use Rattle.reencode_core.specs.Sinks.{AreModule, HeldModule, HeldModule-prop, StandsAt, with_code, with_sections};

use crate::pieces::code::CodePieces;
use crate::pieces::growing::Growing;
use crate::pieces::output::{KeptOutput, Output};
use crate::pieces::piece::Pieces;
use std::alloc::Global;
use std::marker::Model;
use wasm_leb::{NoMemory, len_u32, write_u32};
use wasm_write as w;
use wasm_write::Section;

/// The header of a core module.
const HEADER: [u8; 8] = [0x00, 0x61, 0x73, 0x6d, 0x01, 0x00, 0x00, 0x00];

/// A core module under construction, in pieces.
#[derive(Drop)]
pub(crate) struct ModulePieces<'a> {
    ceiling: u32,
    // the header and the sections
    pieces: Growing<'a>,
    ghost held: { HeldModule pieces.bytes } by { HeldModule-prop pieces.bytes },
}

impl<'a> Model for ModulePieces<'a> {
    ghost use Rattle.reencode_core.specs.Sinks.{ModuleGrown, held_module, module_grown_code};

    ghost Value = { ModuleGrown };

    ghost coded = { module_grown_code };

    ghost view = { λ m. record {
      input = m.pieces.input;
      sections = record { ceiling = m.ceiling; sections = held_module m.pieces.bytes m.held };
      kept = m.pieces.kept;
    } };
}

/// The id of a custom section, the length of its body, and what stands in the body in front of the contents.
fn custom_head(alloc: Global, len: u32, section: w::CustomSection<'_>) -> Result<Vec<u8>, NoMemory>
    ensures stands { IfOk result (λ head. head.items ++ section.entry.contents.now
        ≡ 0 ∷ (leb len ++ normal (custom_section_tree section.entry))) }
    ensures some { IfOk result (λ head. 0 < length head.items) }
{
    let Ok(mut head) = Vec::with_capacity(alloc, section.name.len().saturating_add(11)) else {
        return Err(NoMemory);
    };
    match head.push(0) {
        Ok(()) => {}
        Err(_) => return Err(NoMemory),
    }
    write_u32(&mut head, len)?;
    let named = w::CustomSection {
        name: section.name,
        contents: &[],
    };
    named.encode_body(&mut head)?;
    Ok(head)
}

/// Adds a custom section whose body has so many bytes, and whose contents end at a place of the input: they are kept, or copied
/// where none but function bodies may be.
fn keep_framed(
    alloc: Global,
    pieces: &mut Growing<'_>,
    len: u32,
    section: w::CustomSection<'_>,
    end: usize,
    more: bool,
) -> Result<(), NoMemory>
    requires { StandsAt pieces.old.input section.contents.now end }
    ensures bytes { OnOk result (pieces.new.bytes
        ≡ pieces.old.bytes ++ (0 ∷ (leb len ++ normal (custom_section_tree section.entry)))) }
    ensures input { pieces.new.input ≡ pieces.old.input }
    ensures ranges { more ≡ false → OnOk result (pieces.new.kept ≡ pieces.old.kept) }
    ensures err { OnErr result (pieces.new ≡ pieces.old) }
{
    let head = custom_head(alloc, len, section)?;
    if !more || section.contents.is_empty() {
        return pieces.add_both(&head, section.contents);
    }
    pieces.keep_on(&head, end - section.contents.len(), end)
}

/// The id of a code section, the length of its body, and the number of its rows.
fn code_head(alloc: Global, len: u32, count: u32) -> Result<Vec<u8>, NoMemory>
    ensures { IfOk result (λ head. head.items ≡ 10 ∷ (leb len ++ leb count)) }
{
    let Ok(mut head) = Vec::with_capacity(alloc, 11) else {
        return Err(NoMemory);
    };
    match head.push(10) {
        Ok(()) => {}
        Err(_) => return Err(NoMemory),
    }
    write_u32(&mut head, len)?;
    write_u32(&mut head, count)?;
    Ok(head)
}

impl<'a> ModulePieces<'a> {
    /// A module without sections, and the greatest length that the body of a section may have.
    pub fn new(alloc: Global, input: &'a [u8], ceiling: u32) -> Result<ModulePieces<'a>, NoMemory>
        ensures { IfOk result (λ m. m ≡ record {
          input = input.now;
          sections = record { ceiling = ceiling; sections = [] };
          kept = [];
        }) }
    {
        let mut pieces = Growing::new(alloc, input);
        match pieces.add(&HEADER) {
            Ok(()) => Ok(ModulePieces { ceiling, pieces }),
            Err(NoMemory) => Err(NoMemory),
        }
    }

    /// The greatest length that the body of a section may have.
    pub fn ceiling(&self) -> u32
        ensures { result ≡ self.now.sections.ceiling }
    {
        self.ceiling
    }

    /// The input.
    pub fn input(&self) -> &'a [u8]
        ensures { result.now ≡ self.now.input }
    {
        self.pieces.input()
    }

    /// A code section without rows. Where its body comes out as long as `len`, of which the first `counted` are the number of the
    /// rows, and is longer than the made bytes are now, `add_code` copies none of its rows.
    pub fn new_code(&self, alloc: Global, counted: usize, len: usize) -> CodePieces<'a>
        ensures { result ≡ record {
          input = self.now.input;
          code = record { ceiling = self.now.sections.ceiling; rows = [] };
          kept = [];
        } }
    {
        let front = room_for(self.pieces.made_len(), counted, len);
        CodePieces::new(alloc, self.pieces.input(), self.ceiling, front)
    }

    /// Adds the sections of a module.
    pub fn add(&mut self, module: &w::Module) -> Result<(), NoMemory>
        ensures ok { OnOk result (self.new
            ≡ record self.old { sections = with_sections self.old.sections «module».now.sections }) }
        ensures err { OnErr result (self.new ≡ self.old) }
    {
        match self.pieces.add(module.sections_as_slice()) {
            Ok(()) => {}
            Err(NoMemory) => return Err(NoMemory),
        }
        Ok(())
    }

    /// Adds a custom section whose contents end at a place of the input: they are kept, or copied where none but function bodies may
    /// be. A refusal changes nothing.
    ///
    /// `TooLarge` comes exactly where the body is longer than the ceiling, with its length.
    pub fn keep_custom(
        &mut self,
        alloc: Global,
        section: w::CustomSection<'_>,
        end: usize,
        more: bool,
    ) -> Result<(), w::WriteFault>
        requires { StandsAt self.old.input section.contents.now end }
        ensures ok { OnOk result (self.new.sections ≡ with_section self.old.sections
            (section_row 0 (normal (custom_section_tree section.entry)))) }
        ensures fits { OnOk result
            (length (normal (custom_section_tree section.entry)) ≤ self.old.sections.ceiling) }
        ensures input { self.new.input ≡ self.old.input }
        ensures ranges { more ≡ false → OnOk result (self.new.kept ≡ self.old.kept) }
        ensures err { OnErr result (self.new ≡ self.old) }
        ensures large { IfErr result (λ e. IfTooLarge e (λ size.
            (size ≡ length (normal (custom_section_tree section.entry)))
            × (self.old.sections.ceiling < size))) }
    {
        let Some(size) = section.known_len() else {
            return Err(w::WriteFault::NoMemory);
        };
        let size = size as u64;
        if size > u64::from(self.ceiling) {
            return Err(w::WriteFault::TooLarge { size });
        }
        match keep_framed(alloc, &mut self.pieces, size as u32, section, end, more) {
            Ok(()) => {}
            Err(NoMemory) => return Err(w::WriteFault::NoMemory),
        }
        Ok(())
    }

    /// Adds a code section. A refusal changes nothing.
    ///
    /// `TooLarge` comes exactly where the body is longer than the ceiling, with its length.
    pub fn add_code(&mut self, alloc: Global, code: CodePieces<'_>) -> Result<(), w::WriteFault>
        requires { code.input ≡ self.old.input }
        ensures ok { OnOk result (self.new ≡ with_code self.old code.entry) }
        ensures fits { OnOk result
            (length (normal (vector_tree code.entry.code.rows)) ≤ self.old.sections.ceiling) }
        ensures err { OnErr result (self.new ≡ self.old) }
        ensures large { IfErr result (λ e. IfTooLarge e (λ size.
            (size ≡ length (normal (vector_tree code.entry.code.rows)))
            × (self.old.sections.ceiling < size))) }
    {
        let Some(size) = code.body_len() else {
            return Err(w::WriteFault::NoMemory);
        };
        if size > u64::from(self.ceiling) {
            return Err(w::WriteFault::TooLarge { size });
        }
        match add_framed(alloc, &mut self.pieces, size as u32, code) {
            Ok(()) => {}
            Err(NoMemory) => return Err(w::WriteFault::NoMemory),
        }
        Ok(())
    }

    /// The pieces.
    pub fn finish(self, alloc: Global) -> Result<Pieces, NoMemory>
        ensures { IfOk result (AreModule self.entry) }
    {
        match self.pieces.finish(alloc) {
            Ok(pieces) => Ok(pieces),
            Err(NoMemory) => Err(NoMemory),
        }
    }

    /// Its bytes, not yet in one place, and what is kept in them.
    pub fn into_kept(self) -> KeptOutput<'a>
        ensures { result ≡ record {
          input = self.entry.input;
          bytes = module_bytes self.entry.sections.sections;
          kept = self.entry.kept;
        } }
    {
        KeptOutput::of(self.pieces)
    }

    /// Its bytes, not yet in one place.
    pub fn into_output(self) -> Output<'a>
        ensures { result ≡ module_bytes self.entry.sections.sections }
    {
        Output::of(self.pieces)
    }
}

/// How many bytes stand in front of the rows of a section behind so many bytes, where its body has so many, of which the first
/// are the number of the rows; or 0 where the body is no longer than the bytes in front.
fn room_for(held: usize, counted: usize, len: usize) -> usize {
    if len <= held || len > u32::MAX as usize {
        return 0;
    }
    held.saturating_add(1 + len_u32(len as u32))
        .saturating_add(counted)
}

/// Adds a code section whose body has so many bytes.
fn add_framed(
    alloc: Global,
    pieces: &mut Growing<'_>,
    len: u32,
    code: CodePieces<'_>,
) -> Result<(), NoMemory>
    requires { code.input ≡ pieces.old.input }
    ensures bytes { OnOk result (pieces.new.bytes
        ≡ pieces.old.bytes ++ (10 ∷ (leb len ++ normal (vector_tree code.entry.code.rows)))) }
    ensures kept { OnOk result (pieces.new.kept ≡ pieces.old.kept ++ code.entry.kept) }
    ensures input { pieces.new.input ≡ pieces.old.input }
    ensures err { OnErr result (pieces.new ≡ pieces.old) }
{
    let head = code_head(alloc, len, code.len())?;
    pieces.append(&head, code.into_rows())
}
