//! Fields in their normal spelling.
ghost use Rattle.std.specs.Prelude.{◌≡◌, ◌++◌, ◌+◌, ◌<◌, ◌-◌, ◌^◌, length, take, vec_len, OnOk, OnErr, IfErr, IfSome};
ghost use Rattle.wasm_leb.specs.Leb.{leb};
ghost use Rattle.wasm_shapes.specs.Tree.{Tree, normal};
ghost use Rattle.wasm_shapes.specs.Fits.{InRange};
ghost use Rattle.wasm_write.specs.Faults.{IfTooLarge};
ghost use Rattle.wasm_write.specs.Rows.{item_tree};

use crate::fault::WriteFault;
use crate::types::ExportKind;
use wasm_leb::{NoMemory, len_u32, write_u32};

/// Appends bytes behind a number, or a part of that where memory runs out.
#[inline(always)]
pub(crate) fn write_behind(out: &mut Vec<u8>, number: u32, bytes: &[u8]) -> Result<(), NoMemory>
    ensures ok { OnOk result (out.new.items ≡ out.old.items ++ (leb number ++ bytes.now)) }
    ensures err { OnErr result (take (vec_len out.old) out.new.items ≡ out.old.items) }
{
    match write_u32(out, number) {
        Ok(()) => {}
        Err(NoMemory) => return Err(NoMemory),
    }
    match out.extend_from_slice(bytes) {
        Ok(()) => Ok(()),
        Err(_) => Err(NoMemory),
    }
}

/// Appends bytes behind their length, or a part of that where it is refused.
///
/// `TooLarge` comes exactly where there are more than 2^32 - 1 bytes, with their number.
pub(crate) fn write_content(out: &mut Vec<u8>, bytes: &[u8]) -> Result<(), WriteFault>
    ensures ok { OnOk result (out.new.items ≡ out.old.items ++ normal (Tree.content bytes.now)) }
    ensures fits { OnOk result (length bytes.now < 2 ^ 32) }
    ensures err { OnErr result (take (vec_len out.old) out.new.items ≡ out.old.items) }
    ensures large { IfErr result (λ e. IfTooLarge e
        (λ size. (size ≡ length bytes.now) × (2 ^ 32 - 1 < size))) }
{
    let size = bytes.len();
    if size > u32::MAX as usize {
        return Err(WriteFault::TooLarge { size: size as u64 });
    }
    match write_behind(out, size as u32, bytes) {
        Ok(()) => Ok(()),
        Err(NoMemory) => Err(WriteFault::NoMemory),
    }
}

/// Appends a name behind its length (WebAssembly Core Specification 3.0, section 5.2.4). A refusal leaves what stood in
/// `out` before.
///
/// `TooLarge` comes exactly where the name has more than 2^32 - 1 bytes, with their number.
pub fn write_name(out: &mut Vec<u8>, name: &str) -> Result<(), WriteFault>
    ensures ok { OnOk result (out.new.items ≡ out.old.items ++ normal (Tree.name name.now)) }
    ensures fits { OnOk result (length name.now < 2 ^ 32) }
    ensures in_range { OnOk result (InRange (Tree.name name.now)) }
    ensures err { OnErr result (take (vec_len out.old) out.new.items ≡ out.old.items) }
    ensures large { IfErr result (λ e. IfTooLarge e
        (λ size. (size ≡ length name.now) × (2 ^ 32 - 1 < size))) }
{
    write_content(out, name.as_bytes())
}

/// How many bytes a name of so many bytes takes, with its length in front of it and so many bytes behind it; nothing where
/// there are more than can be counted.
pub(crate) fn named_len(name: usize, contents: usize) -> Option<usize>
    ensures { IfSome result (λ len. len ≡ length (leb name) + name + contents) }
{
    if name > u32::MAX as usize {
        return None;
    }
    contents.checked_add(len_u32(name as u32) + name)
}

/// Appends what is exported, by its kind and its index (WebAssembly Core Specification 3.0, section 5.5.10). A refusal
/// leaves what stood in `out` before.
pub fn write_item(out: &mut Vec<u8>, kind: ExportKind, index: u32) -> Result<(), NoMemory>
    ensures ok { OnOk result (out.new.items ≡ out.old.items ++ normal (item_tree kind index)) }
    ensures in_range { OnOk result (InRange (item_tree kind index)) }
    ensures err { OnErr result (take (vec_len out.old) out.new.items ≡ out.old.items) }
{
    let byte = match kind {
        ExportKind::Func => 0x00,
        ExportKind::Table => 0x01,
        ExportKind::Memory => 0x02,
        ExportKind::Global => 0x03,
        ExportKind::Tag => 0x04,
    };
    match out.push(byte) {
        Ok(()) => write_u32(out, index),
        Err(_) => Err(NoMemory),
    }
}
