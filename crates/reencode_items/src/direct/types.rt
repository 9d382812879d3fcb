//! Types that are mapped from the bytes that they stand in to those that they become, without lists: a vector item by item, and
//! what stands in front of a type but is asked behind it is put in front of what the type became.
ghost use Rattle.std.specs.Prelude.{◌≡◌, ℕ, List, ◌++◌, ◌∷◌, ◌≤◌, drop, length, take, vec_len, OnOk, OnErr, IfErr, IfOk, IfSome};
ghost use Rattle.wasm_leb.specs.Leb.{leb};
ghost use Rattle.wasm_shapes.specs.declared.Space.TheVariants as space;
ghost use Rattle.wasm_shapes.specs.Shape.{Shape, Named, choice, field, values, inner_rows, described_rows, describing_rows};
ghost use Rattle.reencode_items.specs.Streams.{Streams, StreamsCounted, StreamsItems, StreamsMark};

use crate::items::ReencodeItems;
use reencode_hooks::Error;
use wasm_leb::{NoMemory, front_byte, front_index, front_u32, write_index, write_u32};
use wasm_read as r;
use wasm_read::Entry;
use wasm_write as w;

/// What stands in a vector and is mapped from bytes to bytes.
trait StreamItem: Entry {
    /// Maps the item at the front of some bytes and appends what it becomes: the bytes behind it, or none where no item begins.
    fn stream<'a, R: ReencodeItems>(
        reencoder: &mut R,
        bytes: &'a [u8],
        out: &mut Vec<u8>,
    ) -> Result<Option<&'a [u8]>, Error<R::Error>>
        ensures { Streams R.ReencodeIndices Self.shape bytes.now
            reencoder.old out.old.items reencoder.new out.new.items result };
}

impl StreamItem for r::ValType {
    fn stream<'a, R: ReencodeItems>(
        reencoder: &mut R,
        bytes: &'a [u8],
        out: &mut Vec<u8>,
    ) -> Result<Option<&'a [u8]>, Error<R::Error>> {
        let Some((ty, rest)) = r::front_val_type(bytes) else {
            return Ok(None);
        };
        match reencoder.val_type(ty) {
            Ok(ty) => match w::write_val_type(out, ty) {
                Ok(()) => Ok(Some(rest)),
                Err(NoMemory) => Err(Error::NoMemory),
            },
            Err(e) => Err(e),
        }
    }
}

impl StreamItem for r::FieldType {
    fn stream<'a, R: ReencodeItems>(
        reencoder: &mut R,
        bytes: &'a [u8],
        out: &mut Vec<u8>,
    ) -> Result<Option<&'a [u8]>, Error<R::Error>> {
        stream_field(reencoder, bytes, out)
    }
}

/// A supertype.
impl StreamItem for r::UnpackedIndex {
    fn stream<'a, R: ReencodeItems>(
        reencoder: &mut R,
        bytes: &'a [u8],
        out: &mut Vec<u8>,
    ) -> Result<Option<&'a [u8]>, Error<R::Error>> {
        let Some((index, rest)) = front_u32(bytes) else {
            return Ok(None);
        };
        match reencoder.type_index_unpacked(r::UnpackedIndex::Module(index)) {
            Ok(index) => match write_u32(out, index) {
                Ok(()) => Ok(Some(rest)),
                Err(NoMemory) => Err(Error::NoMemory),
            },
            Err(e) => Err(e),
        }
    }
}

impl StreamItem for r::SubType {
    fn stream<'a, R: ReencodeItems>(
        reencoder: &mut R,
        bytes: &'a [u8],
        out: &mut Vec<u8>,
    ) -> Result<Option<&'a [u8]>, Error<R::Error>> {
        stream_sub_type(reencoder, bytes, out)
    }
}

/// A field of a structure or of an array.
fn stream_field<'a, R: ReencodeItems>(
    reencoder: &mut R,
    bytes: &'a [u8],
    out: &mut Vec<u8>,
) -> Result<Option<&'a [u8]>, Error<R::Error>>
    ensures { Streams R.ReencodeIndices field bytes.now
        reencoder.old out.old.items reencoder.new out.new.items result }
{
    let Some((ty, rest)) = r::front_field_type(bytes) else {
        return Ok(None);
    };
    match reencoder.field_type(ty) {
        Ok(ty) => match w::write_field_type(out, ty) {
            Ok(()) => Ok(Some(rest)),
            Err(NoMemory) => Err(Error::NoMemory),
        },
        Err(e) => Err(e),
    }
}

/// The type of a continuation's function.
fn stream_cont<'a, R: ReencodeItems>(
    reencoder: &mut R,
    bytes: &'a [u8],
    out: &mut Vec<u8>,
) -> Result<Option<&'a [u8]>, Error<R::Error>>
    ensures { Streams R.ReencodeIndices (Shape.sx space.Type_) bytes.now
        reencoder.old out.old.items reencoder.new out.new.items result }
{
    let Some((index, rest)) = front_index(bytes) else {
        return Ok(None);
    };
    match reencoder.cont_type(r::ContType(r::UnpackedIndex::Module(index))) {
        Ok(ty) => match write_index(out, ty.0) {
            Ok(()) => Ok(Some(rest)),
            Err(NoMemory) => Err(Error::NoMemory),
        },
        Err(e) => Err(e),
    }
}

/// So many items, one behind another.
fn stream_items<'a, T: StreamItem, R: ReencodeItems>(
    reencoder: &mut R,
    count: u32,
    bytes: &'a [u8],
    out: &mut Vec<u8>,
) -> Result<Option<&'a [u8]>, Error<R::Error>>
    ensures { StreamsItems R.ReencodeIndices T.Entry.shape count bytes.now
        reencoder.old out.old.items reencoder.new out.new.items result }
{
    let mut rest = bytes;
    let mut left = count;
    'items: while left > 0 {
        match T::stream(reencoder, rest, out) {
            Ok(Some(behind)) => {
                rest = behind;
                left -= 1;
            }
            Ok(None) => return Ok(None),
            Err(e) => return Err(e),
        }
    }
    Ok(Some(rest))
}

/// A vector of items.
fn stream_vec<'a, T: StreamItem, R: ReencodeItems>(
    reencoder: &mut R,
    bytes: &'a [u8],
    out: &mut Vec<u8>,
) -> Result<Option<&'a [u8]>, Error<R::Error>>
    ensures { StreamsCounted R.ReencodeIndices (Shape.vec T.Entry.shape) bytes.now
        reencoder.old out.old.items reencoder.new out.new.items result }
{
    let Some((count, start)) = front_u32(bytes) else {
        return Ok(None);
    };
    match write_u32(out, count) {
        Ok(()) => stream_items::<T, R>(reencoder, count, start, out),
        Err(NoMemory) => Err(Error::NoMemory),
    }
}

/// The parameters and results of a function.
fn stream_func_type<'a, R: ReencodeItems>(
    reencoder: &mut R,
    bytes: &'a [u8],
    out: &mut Vec<u8>,
) -> Result<Option<&'a [u8]>, Error<R::Error>>
    ensures { Streams R.ReencodeIndices (Shape.seq values values) bytes.now
        reencoder.old out.old.items reencoder.new out.new.items result }
{
    match stream_vec::<r::ValType, R>(reencoder, bytes, out) {
        Ok(Some(rest)) => stream_vec::<r::ValType, R>(reencoder, rest, out),
        Ok(None) => Ok(None),
        Err(e) => Err(e),
    }
}

/// A function, array, structure or continuation type.
fn stream_inner<'a, R: ReencodeItems>(
    reencoder: &mut R,
    bytes: &'a [u8],
    out: &mut Vec<u8>,
) -> Result<Option<&'a [u8]>, Error<R::Error>>
    ensures { Streams R.ReencodeIndices (choice inner_rows) bytes.now
        reencoder.old out.old.items reencoder.new out.new.items result }
{
    let Some((first, rest)) = front_byte(bytes) else {
        return Ok(None);
    };
    match w::write_byte(out, first) {
        Ok(()) => match first {
            0x60 => stream_func_type(reencoder, rest, out),
            0x5e => stream_field(reencoder, rest, out),
            0x5f => stream_vec::<r::FieldType, R>(reencoder, rest, out),
            0x5d => stream_cont(reencoder, rest, out),
            _ => Ok(None),
        },
        Err(NoMemory) => Err(Error::NoMemory),
    }
}

/// Puts a byte and an index in front of the bytes from a place on, or leaves the bytes in front of that place.
fn put_in_front(out: &mut Vec<u8>, at: usize, byte: u8, index: u32) -> Result<(), NoMemory>
    requires { at ≤ vec_len out.old }
    ensures ok { OnOk result (out.new.items
        ≡ take at out.old.items ++ (byte ∷ leb index ++ drop at out.old.items)) }
    ensures err { OnErr result (take at out.new.items ≡ take at out.old.items) }
{
    let len = out.len();
    match w::write_byte(out, byte) {
        Ok(()) => {}
        Err(NoMemory) => return Err(NoMemory),
    }
    match write_u32(out, index) {
        Ok(()) => {}
        Err(NoMemory) => return Err(NoMemory),
    }
    let put = out.len() - len;
    out[at..].rotate_right(put);
    Ok(())
}

/// Maps the index that stands behind a byte, and puts both in front of the bytes from a place on.
fn mark<R: ReencodeItems>(
    reencoder: &mut R,
    out: &mut Vec<u8>,
    at: usize,
    byte: u8,
    index: u32,
) -> Result<(), Error<R::Error>>
    requires { at ≤ vec_len out.old }
    ensures { StreamsMark R.ReencodeIndices at byte index
        reencoder.old out.old.items reencoder.new out.new.items result }
{
    match reencoder.type_index_unpacked(r::UnpackedIndex::Module(index)) {
        Ok(answer) => match put_in_front(out, at, byte, answer) {
            Ok(()) => Ok(()),
            Err(NoMemory) => Err(Error::NoMemory),
        },
        Err(e) => Err(e),
    }
}

/// The same behind its descriptor, where it has one, which is asked behind it.
fn stream_described<'a, R: ReencodeItems>(
    reencoder: &mut R,
    bytes: &'a [u8],
    out: &mut Vec<u8>,
) -> Result<Option<&'a [u8]>, Error<R::Error>>
    ensures { Streams R.ReencodeIndices (choice described_rows) bytes.now
        reencoder.old out.old.items reencoder.new out.new.items result }
{
    let Some((first, rest)) = front_byte(bytes) else {
        return Ok(None);
    };
    if first != 0x4d {
        return stream_inner(reencoder, bytes, out);
    }
    let Some((index, rest)) = front_u32(rest) else {
        return Ok(None);
    };
    let at = out.len();
    match stream_inner(reencoder, rest, out) {
        Ok(Some(rest)) => match mark(reencoder, out, at, 0x4d, index) {
            Ok(()) => Ok(Some(rest)),
            Err(e) => Err(e),
        },
        Ok(None) => Ok(None),
        Err(e) => Err(e),
    }
}

/// The same behind what it describes, where it describes a type, which is asked behind it.
fn stream_describing<'a, R: ReencodeItems>(
    reencoder: &mut R,
    bytes: &'a [u8],
    out: &mut Vec<u8>,
) -> Result<Option<&'a [u8]>, Error<R::Error>>
    ensures { Streams R.ReencodeIndices (choice describing_rows) bytes.now
        reencoder.old out.old.items reencoder.new out.new.items result }
{
    let Some((first, rest)) = front_byte(bytes) else {
        return Ok(None);
    };
    if first != 0x4c {
        return stream_described(reencoder, bytes, out);
    }
    let Some((index, rest)) = front_u32(rest) else {
        return Ok(None);
    };
    let at = out.len();
    match stream_described(reencoder, rest, out) {
        Ok(Some(rest)) => match mark(reencoder, out, at, 0x4c, index) {
            Ok(()) => Ok(Some(rest)),
            Err(e) => Err(e),
        },
        Ok(None) => Ok(None),
        Err(e) => Err(e),
    }
}

/// A composite type.
fn stream_composite<'a, R: ReencodeItems>(
    reencoder: &mut R,
    bytes: &'a [u8],
    out: &mut Vec<u8>,
) -> Result<Option<&'a [u8]>, Error<R::Error>>
    ensures { Streams R.ReencodeIndices (Shape.ref Named.composite) bytes.now
        reencoder.old out.old.items reencoder.new out.new.items result }
{
    let Some((first, rest)) = front_byte(bytes) else {
        return Ok(None);
    };
    if first != 0x65 {
        return stream_describing(reencoder, bytes, out);
    }
    match w::write_byte(out, 0x65) {
        Ok(()) => stream_describing(reencoder, rest, out),
        Err(NoMemory) => Err(Error::NoMemory),
    }
}

/// Supertypes and a composite type.
fn stream_parts<'a, R: ReencodeItems>(
    reencoder: &mut R,
    bytes: &'a [u8],
    out: &mut Vec<u8>,
) -> Result<Option<&'a [u8]>, Error<R::Error>>
    ensures { StreamsCounted R.ReencodeIndices
        (Shape.seq (Shape.vec (Shape.ix space.Type_)) (Shape.ref Named.composite)) bytes.now
        reencoder.old out.old.items reencoder.new out.new.items result }
{
    match stream_vec::<r::UnpackedIndex, R>(reencoder, bytes, out) {
        Ok(Some(rest)) => stream_composite(reencoder, rest, out),
        Ok(None) => Ok(None),
        Err(e) => Err(e),
    }
}

/// A subtype. A final one without supertypes is spelled as its composite type alone.
fn stream_sub_type<'a, R: ReencodeItems>(
    reencoder: &mut R,
    bytes: &'a [u8],
    out: &mut Vec<u8>,
) -> Result<Option<&'a [u8]>, Error<R::Error>>
    ensures { Streams R.ReencodeIndices (Shape.ref Named.sub) bytes.now
        reencoder.old out.old.items reencoder.new out.new.items result }
{
    let Some((first, rest)) = front_byte(bytes) else {
        return Ok(None);
    };
    match first {
        0x50 => match w::write_byte(out, 0x50) {
            Ok(()) => stream_parts(reencoder, rest, out),
            Err(NoMemory) => Err(Error::NoMemory),
        },
        0x4f => stream_final(reencoder, rest, out),
        _ => stream_composite(reencoder, bytes, out),
    }
}

/// A final subtype behind its byte.
fn stream_final<'a, R: ReencodeItems>(
    reencoder: &mut R,
    bytes: &'a [u8],
    out: &mut Vec<u8>,
) -> Result<Option<&'a [u8]>, Error<R::Error>>
    ensures { Streams R.ReencodeIndices (Shape.ref Named.sub) (0x4f ∷ bytes.now)
        reencoder.old out.old.items reencoder.new out.new.items result }
{
    let Some((count, start)) = front_u32(bytes) else {
        return Ok(None);
    };
    if count == 0 {
        return stream_composite(reencoder, start, out);
    }
    match w::write_byte(out, 0x4f) {
        Ok(()) => stream_parts(reencoder, bytes, out),
        Err(NoMemory) => Err(Error::NoMemory),
    }
}

/// Maps the group of types at the front of some bytes and appends what it becomes, or a part of it where that is refused. The
/// answer are the bytes behind it, or none where no group begins.
pub fn stream_group<'a, R: ReencodeItems>(
    reencoder: &mut R,
    bytes: &'a [u8],
    out: &mut Vec<u8>,
) -> Result<Option<&'a [u8]>, Error<R::Error>>
    ensures { Streams R.ReencodeIndices (Shape.ref Named.group) bytes.now
        reencoder.old out.old.items reencoder.new out.new.items result }
{
    let Some((first, rest)) = front_byte(bytes) else {
        return Ok(None);
    };
    if first != 0x4e {
        return stream_sub_type(reencoder, bytes, out);
    }
    match w::write_byte(out, 0x4e) {
        Ok(()) => stream_vec::<r::SubType, R>(reencoder, rest, out),
        Err(NoMemory) => Err(Error::NoMemory),
    }
}
