//! Bytes of a module under construction, and room for what it stands in.
ghost use Rattle.std.specs.Prelude.{◌≡◌, ◌++◌, ◌∷◌, ◌+◌, ◌<◌, ◌≤◌, ◌^◌, length, take, drop, OnOk, OnErr, IfOk, IfErr};
ghost use Rattle.wasm_leb.specs.Leb.{leb};
ghost use Rattle.wasm_shapes.specs.Tree.{normal};
ghost use Rattle.wasm_shapes.specs.Types.{vector_tree};
ghost use Rattle.wasm_write.specs.Faults.{IfTooLarge};
ghost use Rattle.wasm_write.specs.Sections.{section_row, section_bytes};

use crate::fault::WriteFault;
use crate::framing::{write_head, write_section, write_taken};
use crate::row_section::{RowSection, behind};
use crate::section::Section;
use std::alloc::Global;
use std::marker::Model;
use wasm_leb::NoMemory;
use wasm_shapes::kinds::SectionKind;

/// Bytes behind room for others.
///
/// Contracts see the bytes.
#[derive(Drop)]
pub(crate) struct Roomed {
    room: usize,
    // the room and the bytes
    all: Vec<u8>,
    ghost inside: { room ≤ length all.items },
}

impl Model for Roomed {
    ghost use Rattle.std.specs.Prelude.{List, ℕ, drop};

    ghost Value = { List ℕ };

    ghost view = { λ r. drop r.room r.all.items };
}

impl Roomed {
    /// These bytes, behind room for so many.
    pub fn new(alloc: Global, room: usize, bytes: &[u8]) -> Result<Roomed, NoMemory>
        ensures { IfOk result (λ made. made ≡ bytes.now) }
    {
        let mut all = Vec::new(alloc);
        match all.resize(room, 0) {
            Ok(()) => {}
            Err(_) => return Err(NoMemory),
        }
        match all.extend_from_slice(bytes) {
            Ok(()) => Ok(Roomed { room, all }),
            Err(_) => Err(NoMemory),
        }
    }

    /// The bytes.
    pub fn as_slice(&self) -> &[u8]
        ensures { result.now ≡ self.now }
    {
        behind(&self.all, self.room)
    }

    /// How many bytes there are, with those of room.
    pub fn len_all(&self) -> usize {
        self.all.len()
    }

    /// Takes away the bytes behind so many.
    fn truncate(&mut self, len: usize)
        requires { len ≤ length self.old }
        ensures { self.new ≡ take len self.old }
    {
        self.all.truncate(self.room + len);
    }

    /// Appends a section. A refusal changes nothing.
    pub fn add<S: Section>(&mut self, section: &S, ceiling: u32) -> Result<(), WriteFault>
        ensures ok { OnOk result (self.new ≡ self.old
            ++ section_bytes (section_row (S.number section.now) (S.contents section.now))) }
        ensures short { OnOk result (length self.new < 2 ^ 64) }
        ensures fits { OnOk result (length (S.contents section.now) ≤ ceiling) }
        ensures err { OnErr result (self.new ≡ self.old) }
        ensures large { IfErr result (λ e. IfTooLarge e
            (λ size. (size ≡ length (S.contents section.now)) × (ceiling < size))) }
    {
        let len = self.all.len();
        match write_section(&mut self.all, section, ceiling) {
            Ok(()) => Ok(()),
            Err(fault) => {
                self.all.truncate(len);
                Err(fault)
            }
        }
    }

    /// Appends a section of rows, as `add` does, and takes its memory over where that spares a copy of the rows.
    pub fn take<K: SectionKind>(
        &mut self,
        section: RowSection<K>,
        ceiling: u32,
    ) -> Result<(), WriteFault>
        ensures ok { OnOk result (self.new ≡ self.old
            ++ section_bytes (section_row K.ID (normal (vector_tree section)))) }
        ensures short { OnOk result (length self.new < 2 ^ 64) }
        ensures fits { OnOk result (length (normal (vector_tree section)) ≤ ceiling) }
        ensures err { OnErr result (self.new ≡ self.old) }
        ensures large { IfErr result (λ e. IfTooLarge e
            (λ size. (size ≡ length (normal (vector_tree section))) × (ceiling < size))) }
    {
        let len = self.all.len();
        match write_taken(&mut self.all, section, ceiling) {
            Ok(()) => Ok(()),
            Err(fault) => {
                self.all.truncate(len);
                Err(fault)
            }
        }
    }

    /// Appends the id and the length of a section. A refusal changes nothing.
    fn add_head(&mut self, id: u8, size: u64, ceiling: u32) -> Result<(), WriteFault>
        ensures ok { OnOk result (self.new ≡ self.old ++ (id ∷ leb size)) }
        ensures fits { OnOk result (size ≤ ceiling) }
        ensures err { OnErr result (self.new ≡ self.old) }
        ensures large { IfErr result (λ e. IfTooLarge e (λ n. (n ≡ size) × (ceiling < n))) }
    {
        let len = self.all.len();
        match write_head(&mut self.all, id, size, ceiling) {
            Ok(()) => Ok(()),
            Err(fault) => {
                self.all.truncate(len);
                Err(fault)
            }
        }
    }

    /// Puts other bytes in place of the first.
    pub fn put_first(&mut self, bytes: &[u8])
        requires { length bytes.now ≤ length self.old }
        ensures { self.new ≡ bytes.now ++ drop (length bytes.now) self.old }
    {
        put_at(self.all.as_mut_slice(), self.room, bytes);
    }

    /// Puts bytes in front of these, into the room for them. Where that is too short, there is room for more from then on.
    fn put_in_front(&mut self, bytes: &[u8]) -> Result<(), NoMemory>
        ensures ok { OnOk result (self.new ≡ bytes.now ++ self.old) }
        ensures short { OnOk result (length self.new < 2 ^ 64) }
    {
        if self.room < bytes.len() {
            let more = bytes.len() + self.all.len() / 4;
            match move_up(&mut self.all, self.room, more) {
                Ok(()) => {}
                Err(NoMemory) => return Err(NoMemory),
            }
            self.room += more;
        }
        let room = self.room - bytes.len();
        put_at(self.all.as_mut_slice(), room, bytes);
        self.room = room;
        Ok(())
    }

    /// Appends others. Of both, the longer stays where it is.
    fn append(&mut self, others: Roomed) -> Result<(), NoMemory>
        ensures ok { OnOk result (self.new ≡ self.old ++ others) }
        ensures short { OnOk result (length self.new < 2 ^ 64) }
        ensures err { OnErr result (self.new ≡ self.old) }
    {
        let mut others = others;
        if others.as_slice().len() <= self.as_slice().len() {
            return match self.all.extend_from_slice(others.as_slice()) {
                Ok(()) => Ok(()),
                Err(_) => Err(NoMemory),
            };
        }
        match others.put_in_front(self.as_slice()) {
            Ok(()) => {
                *self = others;
                Ok(())
            }
            Err(NoMemory) => Err(NoMemory),
        }
    }

    /// Appends the section of an id that has a body. A refusal changes nothing.
    pub fn take_body(&mut self, id: u8, body: Roomed, ceiling: u32) -> Result<(), WriteFault>
        ensures ok { OnOk result (self.new ≡ self.old ++ section_bytes (section_row id body)) }
        ensures short { OnOk result (length self.new < 2 ^ 64) }
        ensures fits { OnOk result (length body ≤ ceiling) }
        ensures err { OnErr result (self.new ≡ self.old) }
        ensures large { IfErr result (λ e. IfTooLarge e
            (λ size. (size ≡ length body) × (ceiling < size))) }
    {
        let len = self.as_slice().len();
        match self.add_head(id, body.as_slice().len() as u64, ceiling) {
            Ok(()) => {}
            Err(fault) => return Err(fault),
        }
        match self.append(body) {
            Ok(()) => Ok(()),
            Err(NoMemory) => {
                self.truncate(len);
                Err(WriteFault::NoMemory)
            }
        }
    }

    /// The bytes, in the memory that they have.
    pub fn into_vec(self) -> Vec<u8>
        ensures { result.items ≡ self }
    {
        let room = self.room;
        let mut all = self.all;
        if room > 0 {
            let len = all.len();
            all.copy_within(room..len, 0);
            all.truncate(len - room);
        }
        all
    }
}

/// Copies bytes to a place.
fn put_at(out: &mut [u8], place: usize, bytes: &[u8])
    requires { place + length bytes.now ≤ length out.old }
    ensures { out.new ≡ take place out.old
        ++ (bytes.now ++ drop (place + length bytes.now) out.old) }
{
    out[place..place + bytes.len()].copy_from_slice(bytes);
}

/// Moves the bytes behind some room up by so many.
fn move_up(all: &mut Vec<u8>, room: usize, more: usize) -> Result<(), NoMemory>
    requires { room ≤ length all.old.items }
    ensures len { OnOk result (length all.new.items ≡ length all.old.items + more) }
    ensures behind { OnOk result (drop (room + more) all.new.items ≡ drop room all.old.items) }
    ensures err { OnErr result (all.new.items ≡ all.old.items) }
{
    let len = all.len();
    let Some(longer) = len.checked_add(more) else {
        return Err(NoMemory);
    };
    match all.reserve_exact(more) {
        Ok(()) => {}
        Err(_) => return Err(NoMemory),
    }
    match all.resize(longer, 0) {
        Ok(()) => {}
        Err(_) => return Err(NoMemory),
    }
    all.copy_within(room..len, room + more);
    Ok(())
}
