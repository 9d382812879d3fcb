//! Vectors at the front of some bytes.
ghost use Rattle.std.specs.Prelude.{◌≡◌, ◌^◌, ◌<◌, ◌≤◌, List, true, refl, map, length, IfOk, IfErr, IfSome, IfNone, IsTrue};
ghost use Rattle.wasm_shapes.specs.Module.{local_row};
ghost use Rattle.wasm_shapes.specs.Place.{Begins, BeginsNone};
ghost use Rattle.wasm_shapes.specs.Shape.{Shape, Named, field};
ghost use Rattle.wasm_shapes.specs.Sound.{sound};
ghost use Rattle.wasm_shapes.specs.Tree.{Tree};
ghost use Rattle.wasm_shapes.specs.Types.{vector_tree, tagged_label, tagged_label_tree, catch_row, handle_row};
ghost use Rattle.wasm_read.specs.Types.{val_type_tree, field_type_tree};
ghost use Rattle.wasm_read.specs.VectorItems.{Passed, Stuck};
ghost use Rattle.wasm_read.specs.VectorRows.{VectorBeside, items_closed, items_sound};
ghost use Rattle.wasm_read.specs.Immediates.{local_tree, catch_tree, handle_tree};

use crate::section_reader::ReadRow;
use crate::types::{Catch, FieldType, Handle, UnpackedIndex, ValType};
use crate::value_types::{front_field_type, front_val_type};
use std::alloc::Global;
use std::marker::PhantomData;
use wasm_leb::{List, NoMemory, front_byte, front_u32};
use wasm_shapes::kinds::RowKind;

/// What stands in a vector.
pub trait Entry {
    ghost shape: { Shape };

    ghost tree: { Self → Tree };

    ghost rows_sound: { sound (Shape.many shape) ≡ true };
}

/// What stands in a vector and can be read.
pub trait ReadEntry<'a>: Entry {
    /// The entry at the front of some bytes, and the bytes behind it.
    fn front(alloc: Global, bytes: &'a [u8]) -> Result<Option<(Self, &'a [u8])>, NoMemory>
        ensures some { IfOk result (λ o. IfSome o (λ r.
            Begins Self.shape bytes.now (Self.tree r.0) r.1.now)) }
        ensures none { IfOk result (λ o. IfNone o (BeginsNone Self.shape bytes.now)) };
}

/// What stands in a vector and can be read, and takes no memory.
pub trait SmallEntry<'a>: Entry {
    /// The entry at the front of some bytes, and the bytes behind it.
    fn small(bytes: &'a [u8]) -> Option<(Self, &'a [u8])>
        ensures some { IfSome result (λ r. Begins Self.shape bytes.now (Self.tree r.0) r.1.now) }
        ensures none { IfNone result (BeginsNone Self.shape bytes.now) };
}

impl<'a> SmallEntry<'a> for u32 {
    #[tactic(auto, using(wasm_shapes::proofs::Begins::begins_u32))]
    fn small(bytes: &'a [u8]) -> Option<(u32, &'a [u8])> {
        match front_u32(bytes) {
            Some((index, rest)) => Some((index, rest)),
            None => None,
        }
    }
}

impl<'a> SmallEntry<'a> for ValType {
    fn small(bytes: &'a [u8]) -> Option<(ValType, &'a [u8])> {
        front_val_type(bytes)
    }
}

impl<'a> SmallEntry<'a> for FieldType {
    fn small(bytes: &'a [u8]) -> Option<(FieldType, &'a [u8])> {
        front_field_type(bytes)
    }
}

impl<'a> SmallEntry<'a> for UnpackedIndex {
    #[tactic(auto, using(wasm_shapes::proofs::Begins::begins_ix))]
    fn small(bytes: &'a [u8]) -> Option<(UnpackedIndex, &'a [u8])> {
        match front_u32(bytes) {
            Some((index, rest)) => Some((UnpackedIndex::Module(index), rest)),
            None => None,
        }
    }
}

impl<'a> SmallEntry<'a> for (u32, ValType) {
    fn small(bytes: &'a [u8]) -> Option<((u32, ValType), &'a [u8])> {
        front_local(bytes)
    }
}

impl<'a> SmallEntry<'a> for Catch {
    fn small(bytes: &'a [u8]) -> Option<(Catch, &'a [u8])> {
        front_catch(bytes)
    }
}

impl<'a> SmallEntry<'a> for Handle {
    fn small(bytes: &'a [u8]) -> Option<(Handle, &'a [u8])> {
        front_handle(bytes)
    }
}

/// An index that is no index of a space, as that of a label.
impl Entry for u32 {
    ghost shape = { Shape.u32 };

    ghost tree = { Tree.u32 };

    ghost rows_sound = { refl };
}

impl<'a> ReadEntry<'a> for u32 {
    #[inline]
    fn front(_alloc: Global, bytes: &'a [u8]) -> Result<Option<(u32, &'a [u8])>, NoMemory> {
        match front_u32(bytes) {
            Some((index, rest)) => Ok(Some((index, rest))),
            None => Ok(None),
        }
    }
}

impl Entry for ValType {
    ghost shape = { Shape.ref Named.value };

    ghost tree = { val_type_tree };

    ghost rows_sound = { refl };
}

impl<'a> ReadEntry<'a> for ValType {
    #[inline]
    fn front(_alloc: Global, bytes: &'a [u8]) -> Result<Option<(ValType, &'a [u8])>, NoMemory> {
        Ok(front_val_type(bytes))
    }
}

impl Entry for FieldType {
    ghost shape = { field };

    ghost tree = { field_type_tree };

    ghost rows_sound = { refl };
}

impl<'a> ReadEntry<'a> for FieldType {
    #[inline]
    fn front(_alloc: Global, bytes: &'a [u8]) -> Result<Option<(FieldType, &'a [u8])>, NoMemory> {
        Ok(front_field_type(bytes))
    }
}

/// The index of a supertype.
impl Entry for UnpackedIndex {
    ghost use Rattle.std.specs.Prelude.{refl};
    ghost use Rattle.wasm_shapes.specs.declared.Space.TheVariants as space;
    ghost use Rattle.wasm_shapes.specs.Shape.{Shape};
    ghost use Rattle.wasm_read.specs.Types.{type_index};

    ghost shape = { Shape.ix space.Type_ };

    ghost tree = { type_index };

    ghost rows_sound = { refl };
}

impl<'a> ReadEntry<'a> for UnpackedIndex {
    #[inline]
    fn front(
        _alloc: Global,
        bytes: &'a [u8],
    ) -> Result<Option<(UnpackedIndex, &'a [u8])>, NoMemory> {
        match front_u32(bytes) {
            Some((index, rest)) => Ok(Some((UnpackedIndex::Module(index), rest))),
            None => Ok(None),
        }
    }
}

/// So many locals of a type.
impl Entry for (u32, ValType) {
    ghost shape = { local_row };

    ghost tree = { local_tree };

    ghost rows_sound = { refl };
}

impl<'a> ReadEntry<'a> for (u32, ValType) {
    #[inline]
    fn front(
        _alloc: Global,
        bytes: &'a [u8],
    ) -> Result<Option<((u32, ValType), &'a [u8])>, NoMemory> {
        Ok(front_local(bytes))
    }
}

impl Entry for Catch {
    ghost shape = { catch_row };

    ghost tree = { catch_tree };

    ghost rows_sound = { refl };
}

impl<'a> ReadEntry<'a> for Catch {
    #[inline]
    fn front(_alloc: Global, bytes: &'a [u8]) -> Result<Option<(Catch, &'a [u8])>, NoMemory> {
        Ok(front_catch(bytes))
    }
}

impl Entry for Handle {
    ghost shape = { handle_row };

    ghost tree = { handle_tree };

    ghost rows_sound = { refl };
}

impl<'a> ReadEntry<'a> for Handle {
    #[inline]
    fn front(_alloc: Global, bytes: &'a [u8]) -> Result<Option<(Handle, &'a [u8])>, NoMemory> {
        Ok(front_handle(bytes))
    }
}

/// So many locals of a type at the front of some bytes, and the bytes behind them.
#[inline]
fn front_local(bytes: &[u8]) -> Option<((u32, ValType), &[u8])>
    ensures some { IfSome result (λ r. Begins local_row bytes.now (local_tree r.0) r.1.now) }
    ensures none { IfNone result (BeginsNone local_row bytes.now) }
{
    let Some((count, rest)) = front_u32(bytes) else {
        return None;
    };
    match front_val_type(rest) {
        Some((ty, rest)) => Some(((count, ty), rest)),
        None => None,
    }
}

/// What a block catches, at the front of some bytes, and the bytes behind it.
fn front_catch(bytes: &[u8]) -> Option<(Catch, &[u8])>
    ensures some { IfSome result (λ r. Begins catch_row bytes.now (catch_tree r.0) r.1.now) }
    ensures none { IfNone result (BeginsNone catch_row bytes.now) }
{
    let Some((first, rest)) = front_byte(bytes) else {
        return None;
    };
    match first {
        0x00 => match front_tag_and_label(rest) {
            Some((tag, label, rest)) => Some((Catch::One { tag, label }, rest)),
            None => None,
        },
        0x01 => match front_tag_and_label(rest) {
            Some((tag, label, rest)) => Some((Catch::OneRef { tag, label }, rest)),
            None => None,
        },
        0x02 => match front_u32(rest) {
            Some((label, rest)) => Some((Catch::All { label }, rest)),
            None => None,
        },
        0x03 => match front_u32(rest) {
            Some((label, rest)) => Some((Catch::AllRef { label }, rest)),
            None => None,
        },
        _ => None,
    }
}

/// How a tag is handled, at the front of some bytes, and the bytes behind it.
fn front_handle(bytes: &[u8]) -> Option<(Handle, &[u8])>
    ensures some { IfSome result (λ r. Begins handle_row bytes.now (handle_tree r.0) r.1.now) }
    ensures none { IfNone result (BeginsNone handle_row bytes.now) }
{
    let Some((first, rest)) = front_byte(bytes) else {
        return None;
    };
    match first {
        0x00 => match front_tag_and_label(rest) {
            Some((tag, label, rest)) => Some((Handle::OnLabel { tag, label }, rest)),
            None => None,
        },
        0x01 => match front_u32(rest) {
            Some((tag, rest)) => Some((Handle::OnSwitch { tag }, rest)),
            None => None,
        },
        _ => None,
    }
}

/// A tag and a label at the front of some bytes, and the bytes behind them.
fn front_tag_and_label(bytes: &[u8]) -> Option<(u32, u32, &[u8])>
    ensures some { IfSome result (λ r.
        Begins tagged_label bytes.now (tagged_label_tree r.0 r.1) r.2.now) }
    ensures none { IfNone result (BeginsNone tagged_label bytes.now) }
{
    let Some((tag, rest)) = front_u32(bytes) else {
        return None;
    };
    match front_u32(rest) {
        Some((label, rest)) => Some((tag, label, rest)),
        None => None,
    }
}

/// Entries, as a kind of rows.
pub struct Entries<T> {
    entry: PhantomData<T>,
}

impl<T: Entry> RowKind for Entries<T> {
    ghost shape = { T.Entry.shape };

    ghost is_sound = { items_sound T.Entry.shape T.Entry.rows_sound };

    ghost is_closed = { items_closed T.Entry.shape T.Entry.rows_sound };

    ghost rows_sound = { T.Entry.rows_sound };
}

impl<'a, T: ReadEntry<'a>> ReadRow<'a> for Entries<T> {
    type Row = T;

    ghost tree = { T.Entry.tree };

    ghost takes_memory = { true };

    #[inline]
    fn front(alloc: Global, bytes: &'a [u8]) -> Result<Option<(T, &'a [u8])>, NoMemory> {
        T::front(alloc, bytes)
    }
}

/// The most rows of a vector for which memory is taken before they are read.
const AHEAD: usize = 16;

/// The vector of rows at the front of some bytes, and the bytes behind it. Memory is taken as rows are read, whatever their number
/// says.
pub fn front_rows<'a, K: ReadRow<'a>>(
    alloc: Global,
    bytes: &'a [u8],
) -> Result<Option<(List<K::Row>, &'a [u8])>, NoMemory>
where
    K::Row: Drop,
    ensures some { IfOk result (λ o. IfSome o (λ r.
        Begins (Shape.vec K.shape) bytes.now (vector_tree (map K.tree r.0)) r.1.now)) }
    ensures beside { IfOk result (λ o. IfSome o (λ r.
        VectorBeside K.shape K.tree K.beside bytes.now r.0 r.1.now)) }
    ensures counted { IfOk result (λ o. IfSome o (λ r. length r.0 < 2 ^ 32)) }
    ensures none { IfOk result (λ o. IfNone o (BeginsNone (Shape.vec K.shape) bytes.now)) }
{
    let Some((count, start)) = front_u32(bytes) else {
        return Ok(None);
    };
    let mut entries = match List::with_capacity(alloc, AHEAD.min(count as usize)) {
        Ok(entries) => entries,
        Err(NoMemory) => return Err(NoMemory),
    };
    let mut rest = start;
    let mut left = count;
    'entries: while left > 0 {
        match K::front(alloc, rest) {
            Ok(Some((entry, behind))) => {
                match entries.push(entry) {
                    Ok(()) => {}
                    Err(NoMemory) => return Err(NoMemory),
                }
                rest = behind;
                left -= 1;
            }
            Ok(None) => return Ok(None),
            Err(NoMemory) => return Err(NoMemory),
        }
    }
    Ok(Some((entries, rest)))
}

/// The bytes behind the vector of rows at the front of some bytes. No row is kept, so memory is taken for one row at a time.
pub fn behind_rows<'a, K: ReadRow<'a>>(
    alloc: Global,
    bytes: &'a [u8],
) -> Result<Option<&'a [u8]>, NoMemory>
where
    K::Row: Drop,
    ensures some { IfOk result (λ o. IfSome o (λ r.
        (rows : Tree) × Begins (Shape.vec K.shape) bytes.now (Tree.vec rows) r.now)) }
    ensures none { IfOk result (λ o. IfNone o (BeginsNone (Shape.vec K.shape) bytes.now)) }
    ensures wants { IfErr result (λ _. IsTrue K.takes_memory) }
{
    let Some((count, start)) = front_u32(bytes) else {
        return Ok(None);
    };
    let mut rest = start;
    let mut left = count;
    'rows: while left > 0 {
        match K::front(alloc, rest) {
            Ok(Some((_, behind))) => {
                rest = behind;
                left -= 1;
            }
            Ok(None) => return Ok(None),
            Err(NoMemory) => return Err(NoMemory),
        }
    }
    Ok(Some(rest))
}

/// The vector of entries at the front of some bytes, and the bytes behind it.
#[inline]
pub fn front_vec<'a, T: ReadEntry<'a> + Drop>(
    alloc: Global,
    bytes: &'a [u8],
) -> Result<Option<(List<T>, &'a [u8])>, NoMemory>
    ensures some { IfOk result (λ o. IfSome o (λ r.
        Begins (Shape.vec T.shape) bytes.now (vector_tree (map T.tree r.0)) r.1.now)) }
    ensures counted { IfOk result (λ o. IfSome o (λ r. length r.0 < 2 ^ 32)) }
    ensures none { IfOk result (λ o. IfNone o (BeginsNone (Shape.vec T.shape) bytes.now)) }
{
    front_rows::<Entries<T>>(alloc, bytes)
}

/// Passes by the vector of entries at the front of some bytes: their number, the bytes where they begin, and those behind
/// them; or else the bytes where no number or no entry begins. It takes no memory.
pub fn pass_vec<'a, T: SmallEntry<'a> + Drop>(
    bytes: &'a [u8],
) -> Result<(u32, &'a [u8], &'a [u8]), &'a [u8]>
    ensures ok { IfOk result (λ r. Passed T.shape bytes.now r.0 r.1.now r.2.now) }
    ensures err { IfErr result (λ stuck. Stuck T.shape bytes.now stuck.now) }
{
    let Some((count, start)) = front_u32(bytes) else {
        return Err(bytes);
    };
    let mut rest = start;
    let mut left = count;
    'entries: while left > 0 {
        match T::small(rest) {
            Some((_, behind)) => {
                rest = behind;
                left -= 1;
            }
            None => return Err(rest),
        }
    }
    Ok((count, start, rest))
}

/// The bytes behind the vector of entries at the front of some bytes. It takes no memory.
pub fn behind_vec<'a, T: SmallEntry<'a> + Drop>(bytes: &'a [u8]) -> Option<&'a [u8]>
    ensures some { IfSome result (λ r.
        (t : Tree) × Begins (Shape.vec T.shape) bytes.now t r.now) }
    ensures none { IfNone result (BeginsNone (Shape.vec T.shape) bytes.now) }
{
    match pass_vec::<T>(bytes) {
        Ok((_, _, rest)) => Some(rest),
        Err(_) => None,
    }
}
