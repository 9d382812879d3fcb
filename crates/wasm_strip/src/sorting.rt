//! Names in the order of their indices (WebAssembly Core Specification 3.0, section 7.4.1).
ghost use Rattle.std.specs.Prelude.{◌≡◌, ◌++◌, ℕ, List, IfNone, IfOk, IfSome, OnOk, refl};
ghost use Rattle.std.specs.List.{All};
ghost use Rattle.wasm_shapes.specs.Module.{name_subsection, plain_naming};
ghost use Rattle.wasm_shapes.specs.Namings.{entry_tree, plain_indirect};
ghost use Rattle.wasm_shapes.specs.Place.{Begins, BeginsNone};
ghost use Rattle.wasm_shapes.specs.Shape.{Shape};
ghost use Rattle.wasm_shapes.specs.Spells.{Spells};
ghost use Rattle.wasm_shapes.specs.Tree.{Tree};
ghost use Rattle.wasm_read.specs.Subsections.{content_of};
ghost use Rattle.wasm_strip.specs.Choices.{AreNames};
ghost use Rattle.wasm_strip.specs.Sorted.{AreOrdered, AreRows, FillRows, HoldsMap, IsRow, Sorts, SortsContent, SortsGroup, SortsMap, SortsNames, SortsSubsection, Stays, Written, lead_of};

use crate::names::behind_subsection;
use std::alloc::Global;
use wasm_leb::{NoMemory, front_byte, front_u32};
use wasm_read::{Name, Naming, ReadRow, SmallEntry, Subsection, behind_rows, front_sized};
use wasm_shapes::kinds::RowKind;

/// An entry of a map, with its index, or a subsection, with its id.
#[derive(Clone, Copy, Debug)]
pub struct Row<'a> {
    pub index: u32,
    pub text: &'a [u8],
}

/// What stands in a name section by an index or an id.
trait SortedRow: RowKind {
    ghost use Rattle.std.specs.Prelude.{ℕ, List};
    ghost use Rattle.wasm_strip.specs.declared.sorting.Row.{Row};

    // What is written for a row.
    ghost written: { Row → List ℕ → Type 0 };

    /// The index of the row at the front of some bytes, and the bytes behind it.
    fn front(alloc: Global, bytes: &[u8]) -> Result<Option<(u32, &[u8])>, NoMemory>
        ensures some { IfOk result (λ o. IfSome o (λ r.
            (t : Tree) × Begins Self.shape bytes.now t r.1.now × (r.0 ≡ lead_of t))) }
        ensures none { IfOk result (λ o. IfNone o (BeginsNone Self.shape bytes.now)) };

    /// Adds what is written for a row.
    fn add(alloc: Global, row: Row<'_>, out: &mut Vec<u8>) -> Result<(), NoMemory>
        requires { IsRow Self.shape row }
        ensures { OnOk result ((x : List ℕ) × (out.new.items ≡ out.old.items ++ x) × written row.entry x) };
}

/// Adds some bytes.
fn add_text(out: &mut Vec<u8>, text: &[u8]) -> Result<(), NoMemory>
    ensures { OnOk result (out.new.items ≡ out.old.items ++ text.now) }
{
    match out.extend_from_slice(text) {
        Ok(()) => Ok(()),
        Err(_) => Err(NoMemory),
    }
}

/// The rows that some bytes are.
fn rows_of<'a, K: SortedRow>(alloc: Global, bytes: &'a [u8]) -> Result<Vec<Row<'a>>, NoMemory>
    requires { FillRows K.shape bytes.now }
    ensures { IfOk result (λ rows. AreRows K.shape bytes.now rows.items) }
{
    let mut rows = Vec::new(alloc);
    let mut rest = bytes;
    'rows: while !rest.is_empty() {
        let (index, left) = match K::front(alloc, rest) {
            Ok(Some(row)) => row,
            Ok(None) => unreachable!(),
            Err(NoMemory) => return Err(NoMemory),
        };
        let (text, _) = rest.split_at(rest.len() - left.len());
        match rows.push(Row { index, text }) {
            Ok(()) => {}
            Err(_) => return Err(NoMemory),
        }
        rest = left;
    }
    Ok(rows)
}

/// The same in the order of their indices.
fn ordered<'a, K: SortedRow>(alloc: Global, bytes: &'a [u8]) -> Result<Vec<Row<'a>>, NoMemory>
    requires { FillRows K.shape bytes.now }
    ensures { IfOk result (λ rows. AreOrdered K.shape bytes.now rows.items) }
{
    let mut rows = rows_of::<K>(alloc, bytes)?;
    match rows.sort_by_key(|row| row.index) {
        Ok(()) => Ok(rows),
        Err(_) => Err(NoMemory),
    }
}

/// Adds what is written for rows, one behind another.
fn add_rows<K: SortedRow>(
    alloc: Global,
    rows: &[Row<'_>],
    out: &mut Vec<u8>,
) -> Result<(), NoMemory>
    requires { All (IsRow K.shape) rows.now }
    ensures { OnOk result ((x : List ℕ) × (out.new.items ≡ out.old.items ++ x)
        × Written K.written rows.now x) }
{
    'rows: for row in rows {
        K::add(alloc, *row, out)?;
    }
    Ok(())
}

/// Adds the rows that some bytes are, in the order of their indices.
fn add_sorted<K: SortedRow>(alloc: Global, bytes: &[u8], out: &mut Vec<u8>) -> Result<(), NoMemory>
    requires { FillRows K.shape bytes.now }
    ensures { OnOk result ((x : List ℕ) × (out.new.items ≡ out.old.items ++ x)
        × Sorts K.shape K.written bytes.now x) }
{
    let rows = ordered::<K>(alloc, bytes)?;
    add_rows::<K>(alloc, rows.as_slice(), out)
}

/// Adds a map, its entries in the order of their indices.
fn add_map<K: SortedRow>(alloc: Global, bytes: &[u8], out: &mut Vec<u8>) -> Result<(), NoMemory>
    requires { (t : Tree) × Spells (Shape.vec K.shape) bytes.now t }
    ensures { OnOk result ((x : List ℕ) × (out.new.items ≡ out.old.items ++ x) × SortsMap K.shape K.written bytes.now x) }
{
    let Some((_, entries)) = front_u32(bytes) else {
        unreachable!()
    };
    let (number, _) = bytes.split_at(bytes.len() - entries.len());
    add_text(out, number)?;
    add_sorted::<K>(alloc, entries, out)
}

/// Entries of maps of names.
struct Entries;

impl RowKind for Entries {
    ghost shape = { plain_naming };

    ghost is_sound = { refl };

    ghost is_closed = { refl };

    ghost rows_sound = { refl };
}

impl<'a> ReadRow<'a> for Entries {
    type Row = Naming<'a>;

    ghost tree = { λ n. entry_tree (record { index = n.index; name = n.name.now }) };

    fn front(_alloc: Global, bytes: &'a [u8]) -> Result<Option<(Naming<'a>, &'a [u8])>, NoMemory> {
        Ok(Naming::small(bytes))
    }
}

impl SortedRow for Entries {
    ghost written = { Stays };

    fn front(_alloc: Global, bytes: &[u8]) -> Result<Option<(u32, &[u8])>, NoMemory> {
        match Naming::small(bytes) {
            Some((naming, rest)) => Ok(Some((naming.index, rest))),
            None => Ok(None),
        }
    }

    fn add(_alloc: Global, row: Row<'_>, out: &mut Vec<u8>) -> Result<(), NoMemory> {
        add_text(out, row.text)
    }
}

/// Entries of maps of such maps.
struct Groups;

impl RowKind for Groups {
    ghost shape = { plain_indirect };

    ghost is_sound = { refl };

    ghost is_closed = { refl };

    ghost rows_sound = { refl };
}

impl SortedRow for Groups {
    ghost written = { SortsGroup };

    fn front(alloc: Global, bytes: &[u8]) -> Result<Option<(u32, &[u8])>, NoMemory> {
        let Some((index, names)) = front_u32(bytes) else {
            return Ok(None);
        };
        match behind_rows::<Entries>(alloc, names) {
            Ok(Some(rest)) => Ok(Some((index, rest))),
            Ok(None) => Ok(None),
            Err(NoMemory) => Err(NoMemory),
        }
    }

    fn add(alloc: Global, row: Row<'_>, out: &mut Vec<u8>) -> Result<(), NoMemory> {
        let Some((_, names)) = front_u32(row.text) else {
            unreachable!()
        };
        let (number, _) = row.text.split_at(row.text.len() - names.len());
        add_text(out, number)?;
        add_map::<Entries>(alloc, names, out)
    }
}

/// Subsections of a name section.
struct Subsections;

impl RowKind for Subsections {
    ghost shape = { name_subsection };

    ghost is_sound = { refl };

    ghost is_closed = { refl };

    ghost rows_sound = { refl };
}

/// Adds the body of a subsection that holds this.
fn add_body(alloc: Global, names: Name<'_>, body: &[u8], out: &mut Vec<u8>) -> Result<(), NoMemory>
    requires { HoldsMap (content_of names) body.now }
    ensures { OnOk result ((x : List ℕ) × (out.new.items ≡ out.old.items ++ x) × SortsContent (content_of names.entry) body.now x) }
{
    match names {
        Name::Module { .. } | Name::Unknown { .. } => add_text(out, body),
        Name::Local(_) | Name::Label(_) | Name::Field(_) => add_map::<Groups>(alloc, body, out),
        Name::Function(_)
        | Name::Type_(_)
        | Name::Table(_)
        | Name::Memory(_)
        | Name::Global(_)
        | Name::Element(_)
        | Name::Data(_)
        | Name::Tag(_) => add_map::<Entries>(alloc, body, out),
    }
}

impl SortedRow for Subsections {
    ghost written = { SortsSubsection };

    fn front(_alloc: Global, bytes: &[u8]) -> Result<Option<(u32, &[u8])>, NoMemory> {
        let Some((id, _)) = front_byte(bytes) else {
            return Ok(None);
        };
        match behind_subsection(bytes) {
            Some(rest) => Ok(Some((u32::from(id), rest))),
            None => Ok(None),
        }
    }

    fn add(alloc: Global, row: Row<'_>, out: &mut Vec<u8>) -> Result<(), NoMemory> {
        let Some((id, start)) = front_byte(row.text) else {
            unreachable!()
        };
        let Some((body, _)) = front_sized(start) else {
            unreachable!()
        };
        let Some(names) = Name::of_body(id, body) else {
            unreachable!()
        };
        let (front, _) = row.text.split_at(row.text.len() - body.len());
        add_text(out, front)?;
        add_body(alloc, names, body, out)
    }
}

/// Adds the contents of a name section with its subsections and their entries in order.
pub(crate) fn add_names(alloc: Global, contents: &[u8], out: &mut Vec<u8>) -> Result<(), NoMemory>
    requires { AreNames contents.now }
    ensures { OnOk result ((x : List ℕ) × (out.new.items ≡ out.old.items ++ x) × SortsNames contents.now x) }
{
    add_sorted::<Subsections>(alloc, contents, out)
}
