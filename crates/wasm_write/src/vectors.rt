//! Vectors in their normal spelling.
ghost use Rattle.std.specs.Prelude.{◌≡◌, ◌++◌, ◌∷◌, ◌-◌, ◌<◌, ◌^◌, length, map, take, vec_len, OnOk, OnErr, IfErr};
ghost use Rattle.wasm_leb.specs.Leb.{leb};
ghost use Rattle.wasm_shapes.specs.Tree.{Tree, normal};
ghost use Rattle.wasm_shapes.specs.Types.{rows_tree, vector_tree};
ghost use Rattle.wasm_shapes.specs.Fits.{InRange};
ghost use Rattle.wasm_write.specs.Counts.{counts, IsTooLarge};
ghost use Rattle.wasm_write.specs.Faults.{IfTooLarge};

use crate::fault::WriteFault;
use wasm_leb::{NoMemory, write_u32};

/// An item of a vector that stands in `P`: the same number stands for another tree in a type than in an immediate.
pub trait ItemOf<P> {
    // What it stands for.
    ghost tree: { Self → Tree };

    /// Appends the item, or a part of it where that is refused.
    ///
    /// `TooLarge` comes exactly where a count or a length in it is above 2^32 - 1, with that number.
    fn write(&self, out: &mut Vec<u8>) -> Result<(), WriteFault>
        ensures ok { OnOk result (out.new.items ≡ out.old.items ++ normal (tree self.now)) }
        ensures in_range { OnOk result (InRange (tree self.now)) }
        ensures err { OnErr result (take (vec_len out.old) out.new.items ≡ out.old.items) }
        ensures large { IfErr result (λ e. IfTooLarge e (IsTooLarge (counts (tree self.now)))) };
}

/// Types.
pub(crate) struct InTypes;

/// Immediates and locals.
pub(crate) struct InCode;

/// Appends a count, or nothing.
fn write_count(out: &mut Vec<u8>, count: usize) -> Result<(), WriteFault>
    ensures ok { OnOk result (out.new.items ≡ out.old.items ++ leb count) }
    ensures fits { OnOk result (count < 2 ^ 32) }
    ensures err { OnErr result (out.new.items ≡ out.old.items) }
    ensures large { IfErr result (λ e. IfTooLarge e
        (λ size. (size ≡ count) × (2 ^ 32 - 1 < size))) }
{
    if count > u32::MAX as usize {
        return Err(WriteFault::TooLarge { size: count as u64 });
    }
    match write_u32(out, count as u32) {
        Ok(()) => Ok(()),
        Err(NoMemory) => Err(WriteFault::NoMemory),
    }
}

/// Appends items one behind another, or a part of them where that is refused.
///
/// `TooLarge` comes exactly where a count or a length in one of them is above 2^32 - 1, with that number.
pub fn write_rows<P, T: ItemOf<P>>(out: &mut Vec<u8>, items: &[T]) -> Result<(), WriteFault>
    ensures ok { OnOk result
        (out.new.items ≡ out.old.items ++ normal (rows_tree (map T.tree items.now))) }
    ensures in_range { OnOk result (InRange (rows_tree (map T.tree items.now))) }
    ensures err { OnErr result (take (vec_len out.old) out.new.items ≡ out.old.items) }
    ensures large { IfErr result (λ e. IfTooLarge e
        (IsTooLarge (counts (rows_tree (map T.tree items.now))))) }
{
    for item in items {
        match item.write(out) {
            Ok(()) => {}
            Err(fault) => return Err(fault),
        }
    }
    Ok(())
}

/// Appends items behind their number (WebAssembly Core Specification 3.0, section 5.1.3), or a part of that where it is
/// refused.
///
/// `TooLarge` comes exactly where their number, or a count or a length in one of them, is above 2^32 - 1, with that number.
pub fn write_vec<P, T: ItemOf<P>>(out: &mut Vec<u8>, items: &[T]) -> Result<(), WriteFault>
    ensures ok { OnOk result
        (out.new.items ≡ out.old.items ++ normal (vector_tree (map T.tree items.now))) }
    ensures in_range { OnOk result (InRange (vector_tree (map T.tree items.now))) }
    ensures err { OnErr result (take (vec_len out.old) out.new.items ≡ out.old.items) }
    ensures large { IfErr result (λ e. IfTooLarge e
        (IsTooLarge (counts (vector_tree (map T.tree items.now))))) }
{
    match write_count(out, items.len()) {
        Ok(()) => {}
        Err(fault) => return Err(fault),
    }
    match write_rows(out, items) {
        Ok(()) => Ok(()),
        Err(fault) => Err(fault),
    }
}

/// Appends few items behind their number, or a part of that where memory runs out: items that have no counts of their own,
/// and no more than can be counted, are refused for nothing else.
pub(crate) fn write_list<T: ItemOf<InCode>>(out: &mut Vec<u8>, items: &[T]) -> Result<(), NoMemory>
    ensures ok { OnOk result
        (out.new.items ≡ out.old.items ++ normal (vector_tree (map T.tree items.now))) }
    ensures in_range { OnOk result (InRange (vector_tree (map T.tree items.now))) }
    ensures err { OnErr result (take (vec_len out.old) out.new.items ≡ out.old.items) }
{
    match write_vec(out, items) {
        Ok(()) => Ok(()),
        Err(_) => Err(NoMemory),
    }
}
