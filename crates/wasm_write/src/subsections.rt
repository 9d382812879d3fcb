//! Subsections of names, as they are written (WebAssembly Core Specification 3.0, section 7.4.1).
ghost use Rattle.std.specs.Prelude.{◌≡◌, ◌++◌, ◌∷◌, ◌+◌, ◌<◌, ◌≤◌, [], length, take, vec_len, true, OnOk, OnErr, IfErr};
ghost use Rattle.wasm_leb.specs.Leb.{leb};
ghost use Rattle.wasm_shapes.specs.Shape.{Shape};
ghost use Rattle.wasm_shapes.specs.Sound.{sound};
ghost use Rattle.wasm_shapes.specs.Tree.{normal};
ghost use Rattle.wasm_shapes.specs.Types.{rows_tree};
ghost use Rattle.wasm_write.specs.Faults.{IfTooLarge};
ghost use Rattle.wasm_write.specs.Held.{HeldMany, HeldMany-prop};
ghost use Rattle.wasm_write.specs.Names.{GainsSubsection, HasSubsection, SubsectionsSpell, behind, body_of};

use crate::fault::WriteFault;
use crate::fields::write_behind;
use crate::immediates::write_bytes;
use crate::value_types::write_byte;
use std::alloc::Global;
use std::marker::{Model, PhantomData};
use wasm_leb::{NoMemory, len_u32, write_u32};

/// A kind of sections of subsections.
pub trait SubsectionKind {
    // The shape of a subsection.
    ghost shape: { Shape };

    ghost rows_sound: { sound (Shape.many shape) ≡ true };
}

/// Subsections one behind another, in their normal spelling.
///
/// Contracts see their list and the ceiling, the greatest length that the body of one may have.
#[derive(Drop)]
pub struct Subsections<K: SubsectionKind> {
    ceiling: u32,
    bytes: Vec<u8>,
    kind: PhantomData<K>,
    ghost held: { HeldMany K.shape bytes.items } by { HeldMany-prop K.shape K.rows_sound bytes.items },
}

impl<K: SubsectionKind> Model for Subsections<K> {
    ghost use Rattle.wasm_write.specs.Bodies.{CodeRows, code_rows_code};
    ghost use Rattle.wasm_write.specs.Held.{held_many};

    ghost Value = { CodeRows };

    ghost coded = { code_rows_code };

    ghost view = { λ s. record { ceiling = s.ceiling; rows = held_many K.shape s.bytes.items s.held } };
}

/// Appends a subsection: its id, its length, and its body, which is some bytes, a number, if there is one, and others. Where
/// memory is wanting it is a part of that.
fn write_subsection(
    out: &mut Vec<u8>,
    id: u8,
    size: u32,
    front: &[u8],
    number: Option<u32>,
    bytes: &[u8],
) -> Result<(), NoMemory>
    ensures ok { OnOk result
        (out.new.items ≡ out.old.items ++ (id ∷ (leb size ++ body_of front.now number bytes.now))) }
    ensures err { OnErr result (take (vec_len out.old) out.new.items ≡ out.old.items) }
{
    match write_byte(out, id) {
        Ok(()) => {}
        Err(NoMemory) => return Err(NoMemory),
    }
    match write_u32(out, size) {
        Ok(()) => {}
        Err(NoMemory) => return Err(NoMemory),
    }
    match write_bytes(out, front) {
        Ok(()) => {}
        Err(NoMemory) => return Err(NoMemory),
    }
    match number {
        Some(n) => write_behind(out, n, bytes),
        None => write_bytes(out, bytes),
    }
}

/// How many bytes a number and others behind it are.
fn len_behind(number: Option<u32>, bytes: &[u8]) -> usize
    ensures value { result ≡ length (behind number bytes.now) }
    ensures small { result ≤ length bytes.now + 5 }
{
    match number {
        Some(n) => len_u32(n) + bytes.len(),
        None => bytes.len(),
    }
}

impl<K: SubsectionKind> Subsections<K> {
    /// No subsections, and the greatest length that the body of one may have. It takes no memory.
    pub fn new(alloc: Global, ceiling: u32) -> Self
        ensures { result ≡ record { ceiling = ceiling; rows = [] } }
    {
        Subsections {
            ceiling,
            bytes: Vec::new(alloc),
            kind: PhantomData,
        }
    }

    /// Adds a subsection whose body is some bytes, a number, if there is one, and others. A refusal changes nothing.
    ///
    /// `TooLarge` comes exactly where the body is longer than the ceiling, with its length.
    pub fn add(
        &mut self,
        id: u8,
        front: &[u8],
        number: Option<u32>,
        bytes: &[u8],
    ) -> Result<(), WriteFault>
        requires short { length front.now ≤ 2 }
        requires subsection { HasSubsection K.shape id (body_of front.now number bytes.now) }
        ensures ok { OnOk result
            (GainsSubsection K.shape self.old id (body_of front.now number bytes.now) self.new) }
        ensures fits { OnOk result
            (length (body_of front.now number bytes.now) ≤ self.old.ceiling) }
        ensures err { OnErr result (self.new ≡ self.old) }
        ensures large { IfErr result (λ e. IfTooLarge e (λ size.
            (size ≡ length (body_of front.now number bytes.now)) × (self.old.ceiling < size))) }
    {
        let size = (front.len() + len_behind(number, bytes)) as u64;
        if size > u64::from(self.ceiling) {
            return Err(WriteFault::TooLarge { size });
        }
        let len = self.bytes.len();
        match write_subsection(&mut self.bytes, id, size as u32, front, number, bytes) {
            Ok(()) => Ok(()),
            Err(NoMemory) => {
                self.bytes.truncate(len);
                Err(WriteFault::NoMemory)
            }
        }
    }

    /// Their spelling, and that it reads back as they were added.
    pub fn as_slice(&self) -> &[u8]
        ensures value { result.now ≡ normal (rows_tree self.now.rows) }
        ensures spells { SubsectionsSpell K.shape self.now.rows }
    {
        &self.bytes
    }
}
