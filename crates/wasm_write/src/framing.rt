//! Sections appended to the bytes of a module.
ghost use Rattle.std.specs.Prelude.{◌≡◌, ◌++◌, ◌∷◌, ◌<◌, ◌≤◌, length, take, slice_range, vec_len, OnOk, OnErr, IfErr};
ghost use Rattle.std.specs.List.{remove_range};
ghost use Rattle.wasm_leb.specs.Leb.{leb};
ghost use Rattle.wasm_shapes.specs.Tree.{normal};
ghost use Rattle.wasm_shapes.specs.Types.{vector_tree};
ghost use Rattle.wasm_write.specs.Faults.{IfTooLarge};
ghost use Rattle.wasm_write.specs.Sections.{section_row, section_bytes};

use crate::fault::WriteFault;
use crate::row_section::RowSection;
use crate::section::Section;
use wasm_leb::{NoMemory, write_u32};
use wasm_shapes::kinds::SectionKind;

/// Appends the id of a section and the length of its body, or a part of them where that is refused.
pub(crate) fn write_head(
    out: &mut Vec<u8>,
    id: u8,
    size: u64,
    ceiling: u32,
) -> Result<(), WriteFault>
    ensures ok { OnOk result (out.new.items ≡ out.old.items ++ (id ∷ leb size)) }
    ensures fits { OnOk result (size ≤ ceiling) }
    ensures err { OnErr result (take (vec_len out.old) out.new.items ≡ out.old.items) }
    ensures large { IfErr result (λ e. IfTooLarge e (λ n. (n ≡ size) × (ceiling < n))) }
{
    if size > u64::from(ceiling) {
        return Err(WriteFault::TooLarge { size });
    }
    match out.push(id) {
        Ok(()) => {}
        Err(_) => return Err(WriteFault::NoMemory),
    }
    match write_u32(out, size as u32) {
        Ok(()) => Ok(()),
        Err(NoMemory) => Err(WriteFault::NoMemory),
    }
}

/// Appends the id, the length and the body of a section, or a part of them where that is refused.
pub(crate) fn write_section<S: Section>(
    out: &mut Vec<u8>,
    section: &S,
    ceiling: u32,
) -> Result<(), WriteFault>
    ensures ok { OnOk result
        (out.new.items ≡ out.old.items
        ++ section_bytes (section_row (S.number section.now) (S.contents section.now))) }
    ensures fits { OnOk result (length (S.contents section.now) ≤ ceiling) }
    ensures err { OnErr result (take (vec_len out.old) out.new.items ≡ out.old.items) }
    ensures large { IfErr result (λ e. IfTooLarge e
        (λ size. (size ≡ length (S.contents section.now)) × (ceiling < size))) }
{
    let Some(len) = section.known_len() else {
        return write_measured(out, section, ceiling);
    };
    match write_head(out, section.id(), len as u64, ceiling) {
        Ok(()) => {}
        Err(fault) => return Err(fault),
    }
    match section.encode_body(out) {
        Ok(()) => Ok(()),
        Err(NoMemory) => Err(WriteFault::NoMemory),
    }
}

/// The same of a section whose length is not known before. The body is written where it stands in the end, but for the bytes
/// of its length.
fn write_measured<S: Section>(
    out: &mut Vec<u8>,
    section: &S,
    ceiling: u32,
) -> Result<(), WriteFault>
    ensures ok { OnOk result
        (out.new.items ≡ out.old.items
        ++ section_bytes (section_row (S.number section.now) (S.contents section.now))) }
    ensures fits { OnOk result (length (S.contents section.now) ≤ ceiling) }
    ensures err { OnErr result (take (vec_len out.old) out.new.items ≡ out.old.items) }
    ensures large { IfErr result (λ e. IfTooLarge e
        (λ size. (size ≡ length (S.contents section.now)) × (ceiling < size))) }
{
    match out.push(section.id()) {
        Ok(()) => {}
        Err(_) => return Err(WriteFault::NoMemory),
    }
    let start = out.len();
    match section.encode_body(out) {
        Ok(()) => {}
        Err(NoMemory) => return Err(WriteFault::NoMemory),
    }
    let end = out.len();
    let size = (end - start) as u64;
    if size > u64::from(ceiling) {
        return Err(WriteFault::TooLarge { size });
    }
    match write_u32(out, size as u32) {
        Ok(()) => {}
        Err(NoMemory) => return Err(WriteFault::NoMemory),
    }
    move_behind(out.as_mut_slice(), start, end);
    Ok(())
}

/// Appends the id, the length and the body of a section of rows, or a part of them where that is refused.
pub(crate) fn write_taken<K: SectionKind>(
    out: &mut Vec<u8>,
    section: RowSection<K>,
    ceiling: u32,
) -> Result<(), WriteFault>
    ensures ok { OnOk result
        (out.new.items ≡ out.old.items
        ++ section_bytes (section_row K.ID (normal (vector_tree section)))) }
    ensures fits { OnOk result (length (normal (vector_tree section)) ≤ ceiling) }
    ensures err { OnErr result (take (vec_len out.old) out.new.items ≡ out.old.items) }
    ensures large { IfErr result (λ e. IfTooLarge e
        (λ size. (size ≡ length (normal (vector_tree section))) × (ceiling < size))) }
{
    match write_head(out, K::ID, section.body_len() as u64, ceiling) {
        Ok(()) => {}
        Err(fault) => return Err(fault),
    }
    match section.move_to(out) {
        Ok(()) => Ok(()),
        Err(NoMemory) => Err(WriteFault::NoMemory),
    }
}

/// Moves the bytes between two places behind all others.
fn move_behind(bytes: &mut [u8], start: usize, end: usize)
    requires ordered { start ≤ end }
    requires in_bounds { end ≤ length bytes.old }
    ensures { bytes.new ≡ remove_range bytes.old start end ++ slice_range bytes.old start end }
{
    bytes[start..].rotate_left(end - start);
}
