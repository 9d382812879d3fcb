//! A reader of rows in which scopes may be opened.
ghost use Rattle.std.specs.Prelude.{◌≡◌, ◌≤◌, ◌<◌, ℕ, Bool, false, IfOk, IfErr, IfSome, IfNone, IsTrue, List};
ghost use Rattle.wasm_leb.specs.Place.{BeginsNoNumber};
ghost use Rattle.wasm_shapes.specs.Tree.{Tree};
ghost use Rattle.wasm_shapes.specs.Depth.{BeginsNoneAt};
ghost use Rattle.wasm_read.specs.Reading.{ReadsNone, ReadsNoneIf, place_of, CountRead, RowsEnded};
ghost use Rattle.wasm_read_component.specs.Scoped.{ReadsAt, ScopedRead, ScopedMissing};

use std::alloc::Global;
use std::marker::{Model, PhantomData};
use wasm_leb::{Fault, NoMemory};
use wasm_read::Rows;
use wasm_shapes::kinds::RowKind;

/// A kind of rows that can be read where so many scopes are open round them.
pub trait ReadRowAt<'a>: RowKind {
    /// A row.
    type Row;

    // The trees that a row stands for with so many scopes open round it: none or one, since it may hold bytes that are not
    // read yet.
    ghost stands: { ℕ → Self.Row → Tree → Type 0 };

    // What the bytes where a row begins say of it beside its tree.
    ghost beside: { List ℕ → Self.Row → Type 0 } = { λ _ _. Unit {0} };

    // Whether memory is taken for a row.
    ghost takes_memory: { Bool } = { false };

    /// The row at the front of some bytes, and the bytes behind it.
    fn front(
        alloc: Global,
        bytes: &'a [u8],
        depth: u32,
    ) -> Result<Option<(Self::Row, &'a [u8])>, NoMemory>
        requires { depth ≤ 200 }
        ensures some { IfOk result (λ o. IfSome o (λ r.
            ReadsAt Self.shape depth (stands depth r.0) bytes.now r.1.now)) }
        ensures beside { IfOk result (λ o. IfSome o (λ r. beside bytes.now r.0)) }
        ensures none { IfOk result (λ o. IfNone o (BeginsNoneAt Self.shape depth bytes.now)) }
        ensures wants { IfErr result (λ _. IsTrue takes_memory) };
}

/// A reader of rows of a kind, with the number of scopes that are open round them.
#[derive(Drop)]
pub struct ScopedReader<'a, K> {
    rows: Rows<'a>,
    depth: u32,
    kind: PhantomData<K>,
}

impl<'a, K> Model for ScopedReader<'a, K> {
    ghost use Rattle.std.specs.Prelude.{◌≤◌};
    ghost use Rattle.wasm_read_component.specs.Scoped.{ScopedStanding};

    ghost Value = { ScopedStanding };

    ghost view = { λ reader. record { rows = reader.rows; depth = reader.depth } };

    ghost invariant = { λ reader. reader.depth ≤ 200 };
}

impl<'a, K> ScopedReader<'a, K> {
    /// Reads the count of the rows. The error comes exactly where no count begins, with the place 0.
    pub fn new(body: &'a [u8], depth: u32) -> Result<Self, Fault>
        requires { depth ≤ 200 }
        ensures ok { IfOk result (λ reader. CountRead body.now reader.rows × (reader.depth ≡ depth)) }
        ensures err { IfErr result (λ e. ReadsNone e 0 (BeginsNoNumber 128 32 32 body.now)) }
    {
        match Rows::new(body) {
            Ok(rows) => Ok(ScopedReader {
                rows,
                depth,
                kind: PhantomData,
            }),
            Err(fault) => Err(fault),
        }
    }

    /// How many rows the body says it has, however many of them were read.
    pub fn count(&self) -> u32
        ensures { result ≡ self.now.rows.count }
    {
        self.rows.count()
    }

    /// How many rows are still to be read.
    pub fn left(&self) -> u32
        ensures { result ≡ self.now.rows.left }
    {
        self.rows.left()
    }

    /// The place in the body where it stands.
    pub fn place(&self) -> usize
        ensures { result ≡ place_of self.now.rows }
    {
        self.rows.place()
    }

    /// How many scopes are open round the rows.
    pub fn depth(&self) -> u32
        ensures is { result ≡ self.now.depth }
        ensures low { result ≤ 200 }
    {
        self.depth
    }

    /// The bytes where the next row is due, or none where all counted rows were given.
    pub fn due(&self) -> Option<&'a [u8]>
        ensures some { IfSome result (λ bytes.
            (bytes.now ≡ self.now.rows.rest) × (0 < self.now.rows.left)) }
        ensures none { IfNone result (self.now.rows.left ≡ 0) }
    {
        match self.rows.due() {
            Ok(due) => due,
            Err(_) => None,
        }
    }
}

impl<'a, K: ReadRowAt<'a>> ScopedReader<'a, K> {
    /// The next row, or none where all counted rows were given and the body is filled.
    ///
    /// The error is `Read` exactly where no row begins that opens no scope too many, or where bytes are left after the last,
    /// with that place, or memory runs out, for a kind whose rows take any. It leaves the reader where it stood.
    pub fn next_row(&mut self, alloc: Global) -> Result<Option<K::Row>, Fault>
        ensures row { IfOk result (λ o. IfSome o (λ row.
            ScopedRead K.shape (K.stands self.old.depth row) self.old self.new)) }
        ensures beside { IfOk result (λ o. IfSome o (λ row. K.beside self.old.rows.rest row)) }
        ensures ended { IfOk result (λ o. IfNone o
            (RowsEnded self.old.rows self.new.rows × (self.new ≡ self.old))) }
        ensures err { IfErr result (λ e.
            ReadsNoneIf K.takes_memory e (place_of self.old.rows) (ScopedMissing K.shape self.old)) }
        ensures stays { IfErr result (λ _. self.new ≡ self.old) }
    {
        match self.rows.due() {
            Ok(Some(bytes)) => match K::front(alloc, bytes, self.depth) {
                Ok(Some((row, rest))) => {
                    self.rows.advance(rest);
                    Ok(Some(row))
                }
                Ok(None) => Err(self.rows.refusal()),
                Err(NoMemory) => Err(Fault::NoMemory),
            },
            Ok(None) => Ok(None),
            Err(fault) => Err(fault),
        }
    }
}
