//! Strippers of custom sections: a function that takes whole sections, and a reencoder that overrides what becomes of them.
//!
//! `strip` reads the frames of sections alone, and all is known of what it gives. `Stripper` leaves the same sections out where a
//! module is re-encoded. Its author gives up `keeps_defaults`, and with it each clause `default` and `after_error` of every
//! method. What is left is what the override says of itself, and the clauses that hold for every implementation.
ghost use Rattle.std.specs.Prelude.{◌≡◌, ◌<◌, ◌≤◌, ◌↔◌, ◌⊎◌, ◌^◌, ◌-◌, [], List, IsTrue, length, OnErr, OnOk, IfOk, IfErr};
ghost use Rattle.wasm_shapes.specs.Tree.{Tree, normal};
ghost use Rattle.wasm_read.specs.Types.{custom_tree};
ghost use Rattle.wasm_write.specs.Sections.{section_row, with_section};
ghost use Rattle.reencode_hooks.specs.declared.error.Error.TheVariants.{NoMemory as Wanting};
ghost use Rattle.wasm_write.specs.declared.fault.WriteFault.TheVariants as fault;
ghost use Rattle.reencode_core.specs.Sections.{KeepsModule};
ghost use Rattle.examples.specs.Stripper.{AddsKept, Framed, IsLeftOut, IsRead, IsStripped, IsUnframed, IsUnwritten};

use reencode_core::Reencode;
use reencode_hooks::{Error, KeepIndices};
use reencode_items::DefaultItems;
use std::alloc::Global;
use std::convert::Infallible;
use wasm_read as r;
use wasm_write as w;

/// Answers every index as it is, and leaves out the name sections, or all custom sections.
#[derive(Clone, Copy, Debug)]
pub struct Stripper {
    /// Whether all custom sections are left out.
    pub all: bool,
}

impl KeepIndices for Stripper {
    ghost use Rattle.std.specs.Prelude.{false};

    type Error = Infallible;

    ghost keeps_defaults = { false };
}

impl DefaultItems for Stripper {}

impl Reencode for Stripper {
    /// Leaves the section out, or adds it as it is. An error changes nothing.
    ///
    /// `TooLarge` comes only where the section is added and its body is longer than the ceiling, with its length. No other
    /// error comes but out of memory.
    fn parse_custom_section(
        &mut self,
        _alloc: Global,
        module: &mut w::Module,
        section: r::CustomSection<'_>,
    ) -> Result<(), Error<Infallible>>
        ensures kept { KeepsModule «module».old «module».new }
        ensures left_out { IsLeftOut self.old.all section.entry.name.now
            → IfOk result (λ _. «module».new ≡ «module».old) }
        ensures added { ¬ IsLeftOut self.old.all section.entry.name.now
            → IfOk result (λ _. «module».new ≡ with_section «module».old
            (section_row 0 (normal (custom_tree section.entry)))) }
        ensures errors { IfErr result (λ e. IsUnwritten e (λ size.
            (¬ IsLeftOut self.old.all section.entry.name.now)
            × (size ≡ length (normal (custom_tree section.entry)))
            × («module».old.ceiling < size))) }
        ensures unchanged { OnErr result («module».new ≡ «module».old) }
        ensures state { self.new ≡ self.old }
    {
        if leaves_out(self.all, section.name) {
            return Ok(());
        }
        module.section(&section)?;
        Ok(())
    }
}

/// Whether a custom section of this name is left out.
fn leaves_out(all: bool, name: &str) -> bool
    ensures { IsTrue result ↔ IsLeftOut all name.now }
{
    all || name == "name"
}

/// Adds a section as it was read, or leaves it out.
fn add_kept(module: &mut w::Module, payload: r::Payload<'_>, all: bool) -> Result<(), w::WriteFault>
    requires read { IsRead payload }
    requires room { 2 ^ 32 - 1 ≤ «module».old.ceiling }
    ensures ok { OnOk result (AddsKept all payload.entry «module».old «module».new) }
    ensures wants { IfErr result (λ e. e ≡ fault.NoMemory) }
{
    match payload {
        r::Payload::Custom { at: _, section } => {
            if leaves_out(all, section.name) {
                Ok(())
            } else {
                module.section(&section)
            }
        }
        r::Payload::Section { id, at: _, body } => module.section(&w::RawSection {
            id: id as u8,
            contents: body,
        }),
        r::Payload::Unknown {
            at: _,
            id,
            contents,
        } => { module.section(&w::RawSection { id, contents }) }
    }
}

/// The module without its name sections, or without all its custom sections. Every other section stays as it is, whatever its body
/// holds: nothing is read but the frames. In these only the spellings of lengths become the shortest.
pub fn strip(alloc: Global, bytes: &[u8], all: bool) -> Result<Vec<u8>, Error<Infallible>>
    ensures ok { IfOk result (λ out. IsStripped all bytes.now out.items) }
    ensures refused { IfErr result (λ e. (e ≡ Wanting) ⊎ IsUnframed bytes.now e) }
    ensures made { IfErr result (λ e. (sections : List Tree)
        → Framed bytes.now sections [] → e ≡ Wanting) }
{
    let mut module = w::Module::new(alloc, u32::MAX)?;
    let mut payloads = r::Payloads::new(bytes)?;
    'sections: while let Some(payload) = payloads.next()? {
        add_kept(&mut module, payload, all)?;
    }
    Ok(module.finish())
}
