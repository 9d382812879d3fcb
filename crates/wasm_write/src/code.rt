//! Code sections.
ghost use Rattle.std.specs.Prelude.{◌≡◌, ◌==◌, ◌++◌, ◌+◌, ◌-◌, ◌^◌, ◌<◌, ◌≤◌, ◌⊎◌, [], length, take, vec_len, OnOk, OnErr, IfErr, IfSome, IfNone};
ghost use Rattle.std.proofs.Common.{lit≤};
ghost use Rattle.wasm_shapes.specs.Tree.{normal};
ghost use Rattle.wasm_shapes.specs.Types.{rows_tree, vector_tree};
ghost use Rattle.wasm_shapes.specs.Shape.{Shape};
ghost use Rattle.wasm_shapes.specs.Spells.{Spells};
ghost use Rattle.wasm_shapes.specs.Module.{code_row};
ghost use Rattle.wasm_write.specs.Faults.{IfTooLarge};
ghost use Rattle.wasm_write.specs.Held.{BodySpells};
ghost use Rattle.wasm_write.specs.Bodies.{GainsBody, HeldBody, HeldBody-prop, code_tree, function_body, held_body, with_row};
ghost use Rattle.wasm_write.specs.Frames.{IsBodyOf};

use crate::bodies::Function;
use crate::fault::WriteFault;
use crate::fields::write_behind;
use crate::frames::frame_at;
use crate::module::Module;
use crate::row_section::{RowOf, RowSection};
use crate::section::Section;
use std::alloc::Global;
use std::marker::Model;
use wasm_leb::NoMemory;
use wasm_shapes::kinds;

/// A code section (WebAssembly Core Specification 3.0, section 5.5.13).
///
/// Contracts see it as the list of its rows and its ceiling, the greatest length that a function's locals and operators may
/// have.
#[derive(Drop)]
pub struct CodeSection {
    ceiling: u32,
    rows: RowSection<kinds::Code>,
}

impl Model for CodeSection {
    ghost use Rattle.wasm_write.specs.Bodies.{CodeRows, code_rows_code};

    ghost Value = { CodeRows };

    ghost coded = { code_rows_code };

    ghost view = { λ s. record { ceiling = s.ceiling; rows = s.rows } };
}

/// The normal spelling of a function, of a length that can be written.
#[derive(Drop)]
struct Framed<'a> {
    body: &'a [u8],
    ghost held: { HeldBody body.now } by { HeldBody-prop body.now },
    ghost short: { length body.now < 2 ^ 32 },
}

impl<'a> RowOf<kinds::Code> for Framed<'a> {
    ghost tree = { λ row. code_tree (held_body row.body.now row.held) };

    fn write(&self, out: &mut Vec<u8>) -> Result<(), WriteFault> {
        match write_behind(out, self.body.len() as u32, self.body) {
            Ok(()) => Ok(()),
            Err(NoMemory) => Err(WriteFault::NoMemory),
        }
    }
}

impl CodeSection {
    /// A section without rows, and the greatest length that a function's locals and operators may have. It takes no memory.
    pub fn new(alloc: Global, ceiling: u32) -> Self
        ensures { result ≡ record { ceiling = ceiling; rows = [] } }
    {
        CodeSection {
            ceiling,
            rows: RowSection::new(alloc),
        }
    }

    /// A section without rows, with room for a body of `len` bytes of which the first `counted` are the number of the rows: see
    /// `RowSection::with_room`.
    pub fn with_room(
        alloc: Global,
        ceiling: u32,
        module: &Module,
        counted: usize,
        len: usize,
    ) -> Self
        ensures { result ≡ record { ceiling = ceiling; rows = [] } }
    {
        CodeSection {
            ceiling,
            rows: RowSection::with_room(alloc, module, counted, len),
        }
    }

    /// Takes its rows out. Its memory stays for others.
    pub fn clear(&mut self)
        ensures { self.new ≡ record self.old { rows = [] } }
    {
        self.rows.clear();
    }

    /// How many rows it has.
    #[inline(always)]
    pub fn len(&self) -> u32
        ensures { result ≡ length self.now.rows }
    {
        self.rows.len()
    }

    /// Whether it has no row.
    #[inline(always)]
    pub fn is_empty(&self) -> bool
        ensures { result ≡ (length self.now.rows == 0) }
    {
        self.rows.is_empty()
    }

    /// Its rows one behind another, without their number: see `RowSection::as_slice`.
    #[inline(always)]
    pub fn as_slice(&self) -> &[u8]
        ensures value { result.now ≡ normal (rows_tree self.now.rows) }
        ensures spells { ∥ Spells (Shape.many code_row) (normal (rows_tree self.now.rows)) (rows_tree self.now.rows) ∥₁ }
    {
        self.rows.as_slice()
    }

    /// The bytes of a row without its size, by its number, counted from 0. None exactly where there is no such row.
    pub fn body(&self, i: usize) -> Option<&[u8]>
        ensures some { IfSome result (λ body. IsBodyOf self.now.rows i body.now) }
        ensures none { IfNone result (length self.now.rows ≤ i) }
    {
        match frame_at(self.as_slice(), 0, i) {
            Some((_, body)) => Some(body),
            None => None,
        }
    }

    /// Its rows, as a section that `Module::take` takes.
    pub fn into_rows(self) -> RowSection<kinds::Code>
        ensures { result ≡ self.rows }
    {
        self.rows
    }

    /// Adds a function. A refusal changes nothing.
    ///
    /// `TooLarge` comes exactly where its locals and operators have more bytes than the ceiling, with their number, or they
    /// fit and the number of rows would pass 2^32 - 1, with that number.
    pub fn function(&mut self, f: &Function) -> Result<(), WriteFault>
        ensures ok { OnOk result (self.new ≡ with_row self.old (code_tree f.now)) }
        ensures fits { OnOk result ((length (normal (function_body f.now)) ≤ self.old.ceiling)
            × (length self.old.rows + 1 < 2 ^ 32)) }
        ensures err { OnErr result (self.new ≡ self.old) }
        ensures large { IfErr result (λ e. IfTooLarge e (λ size.
            ((size ≡ length (normal (function_body f.now))) × (self.old.ceiling < size))
            ⊎ ((size ≡ length self.old.rows + 1) × (2 ^ 32 - 1 < size)
            × (length (normal (function_body f.now)) ≤ self.old.ceiling)))) }
    {
        self.spelled(f.as_bytes())
    }

    /// Adds the function whose normal spelling these bytes are, as `function` does.
    pub fn spelled(&mut self, body: &[u8]) -> Result<(), WriteFault>
        requires { HeldBody body.now }
        ensures ok { OnOk result (GainsBody self.old body.now self.new) }
        ensures fits { OnOk result ((length body.now ≤ self.old.ceiling)
            × (length self.old.rows + 1 < 2 ^ 32)) }
        ensures err { OnErr result (self.new ≡ self.old) }
        ensures large { IfErr result (λ e. IfTooLarge e (λ size.
            ((size ≡ length body.now) × (self.old.ceiling < size))
            ⊎ ((size ≡ length self.old.rows + 1) × (2 ^ 32 - 1 < size)
            × (length body.now ≤ self.old.ceiling)))) }
    {
        let size = body.len() as u64;
        if size > u64::from(self.ceiling) {
            return Err(WriteFault::TooLarge { size });
        }
        self.rows.add(&Framed { body })
    }
}

impl Section for CodeSection {
    ghost number = { λ _. 10 };

    ghost contents = { λ s. normal (vector_tree s.rows) };

    ghost small = { λ _. lit≤ tt };

    fn id(&self) -> u8 {
        10
    }

    /// Appends the number of the rows and the rows, which read back as they were added.
    fn encode_body(&self, out: &mut Vec<u8>) -> Result<(), NoMemory>
        ensures ok { OnOk result
            (out.new.items ≡ out.old.items ++ normal (vector_tree self.now.rows)) }
        ensures err { OnErr result (take (vec_len out.old) out.new.items ≡ out.old.items) }
        ensures spells { OnOk result (BodySpells code_row self.now.rows) }
    {
        self.rows.encode_body(out)
    }

    fn known_len(&self) -> Option<usize> {
        self.rows.known_len()
    }
}
