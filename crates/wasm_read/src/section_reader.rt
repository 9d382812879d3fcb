//! A reader of rows, as those of a section (WebAssembly Core Specification 3.0, section 5.5).
ghost use Rattle.std.specs.Prelude.{◌≡◌, ℕ, List, Bool, true, false, IfOk, IfErr, IfSome, IfNone, IsTrue};
ghost use Rattle.wasm_leb.specs.Place.{BeginsNoNumber};
ghost use Rattle.wasm_shapes.specs.Place.{Begins, BeginsNone};
ghost use Rattle.wasm_shapes.specs.Shape.{Shape, Named};
ghost use Rattle.wasm_shapes.specs.Tree.{Tree};
ghost use Rattle.wasm_read.specs.Reading.{place_of, ReadsNone, ReadsNoneIf, CountRead, RowRead, RowMissing, RowsEnded};

use crate::behind_groups::behind_group;
use crate::rows::Rows;
use std::alloc::Global;
use std::marker::{Model, PhantomData};
use wasm_leb::{Fault, NoMemory};
use wasm_shapes::kinds;
use wasm_shapes::kinds::RowKind;

/// A kind of rows that can be read.
pub trait ReadRow<'a>: RowKind {
    /// A row.
    type Row;

    // What a row stands for.
    ghost tree: { Self.Row → Tree };

    // What the bytes where a row begins say of it beside its tree.
    ghost beside: { List ℕ → Self.Row → Type 0 } = { λ _ _. Unit {0} };

    // Whether memory is taken for a row.
    ghost takes_memory: { Bool } = { false };

    /// The row at the front of some bytes, and the bytes behind it.
    fn front(alloc: Global, bytes: &'a [u8]) -> Result<Option<(Self::Row, &'a [u8])>, NoMemory>
        ensures some { IfOk result (λ o. IfSome o (λ r.
            Begins Self.shape bytes.now (tree r.0) r.1.now)) }
        ensures beside { IfOk result (λ o. IfSome o (λ r. beside bytes.now r.0)) }
        ensures none { IfOk result (λ o. IfNone o (BeginsNone Self.shape bytes.now)) }
        ensures wants { IfErr result (λ _. IsTrue takes_memory) };
}

/// A reader of rows of a kind.
#[derive(Drop)]
pub struct SectionReader<'a, K> {
    rows: Rows<'a>,
    kind: PhantomData<K>,
}

impl<'a, K> Model for SectionReader<'a, K> {
    ghost use Rattle.wasm_read.specs.Reading.{Standing};

    ghost Value = { Standing };

    ghost view = { λ reader. reader.rows };
}

impl<'a, K> SectionReader<'a, K> {
    /// Reads the count of the rows. The error comes exactly where no count begins, with the place 0.
    #[inline]
    pub fn new(body: &'a [u8]) -> Result<Self, Fault>
        ensures ok { IfOk result (λ reader. CountRead body.now reader) }
        ensures err { IfErr result (λ e. ReadsNone e 0 (BeginsNoNumber 128 32 32 body.now)) }
    {
        match Rows::new(body) {
            Ok(rows) => Ok(SectionReader {
                rows,
                kind: PhantomData,
            }),
            Err(fault) => Err(fault),
        }
    }

    /// How many rows the body says it has, however many of them were read.
    #[inline]
    pub fn count(&self) -> u32
        ensures { result ≡ self.now.count }
    {
        self.rows.count()
    }

    /// How many rows are still to be read.
    #[inline]
    pub fn left(&self) -> u32
        ensures { result ≡ self.now.left }
    {
        self.rows.left()
    }

    /// The place in the body where it stands.
    #[inline]
    pub fn place(&self) -> usize
        ensures { result ≡ place_of self.now }
    {
        self.rows.place()
    }
}

impl<'a, K: ReadRow<'a>> SectionReader<'a, K> {
    /// The next row, or none where all counted rows were given and the body is filled.
    ///
    /// The error is `Read` exactly where no row begins or where bytes are left after the last, with that place, or
    /// memory runs out, for a kind whose rows take any. It leaves the reader where it stood.
    #[inline]
    pub fn next_row(&mut self, alloc: Global) -> Result<Option<K::Row>, Fault>
        ensures row { IfOk result (λ o. IfSome o (λ row.
            RowRead K.shape self.old (K.tree row) self.new)) }
        ensures beside { IfOk result (λ o. IfSome o (λ row. K.beside self.old.rest row)) }
        ensures ended { IfOk result (λ o. IfNone o (RowsEnded self.old self.new)) }
        ensures err { IfErr result (λ e.
            ReadsNoneIf K.takes_memory e (place_of self.old) (RowMissing K.shape self.old)) }
        ensures stays { IfErr result (λ _. self.new ≡ self.old) }
    {
        match self.rows.due() {
            Ok(Some(bytes)) => match K::front(alloc, bytes) {
                Ok(Some((row, rest))) => {
                    self.rows.advance(rest);
                    Ok(Some(row))
                }
                Ok(None) => Err(self.rows.refusal()),
                Err(NoMemory) => Err(Fault::NoMemory),
            },
            Ok(None) => Ok(None),
            Err(fault) => Err(fault),
        }
    }
}

impl<'a> SectionReader<'a, kinds::Types> {
    /// As `next_row`, but the row is answered by the bytes from it on, and takes no memory.
    pub fn next_group(&mut self) -> Result<Option<&'a [u8]>, Fault>
        ensures row { IfOk result (λ o. IfSome o (λ bytes. (bytes.now ≡ self.old.rest)
            × ((t : Tree) × RowRead (Shape.ref Named.group) self.old t self.new))) }
        ensures ended { IfOk result (λ o. IfNone o (RowsEnded self.old self.new)) }
        ensures err { IfErr result (λ e. ReadsNone e (place_of self.old)
            (RowMissing (Shape.ref Named.group) self.old)) }
        ensures stays { IfErr result (λ _. self.new ≡ self.old) }
    {
        match self.rows.due() {
            Ok(Some(bytes)) => match behind_group(bytes) {
                Some(rest) => {
                    self.rows.advance(rest);
                    Ok(Some(bytes))
                }
                None => Err(self.rows.refusal()),
            },
            Ok(None) => Ok(None),
            Err(fault) => Err(fault),
        }
    }
}
