//! Rows that a reader gives, one behind another, as text.
ghost use Rattle.std.specs.Prelude.{◌≤◌};

use crate::stop::Stop;
use crate::text::{add_as, add_place, add_refusal, add_word};
use std::alloc::{AllocError, Global};
use wasm_leb::Fault;
use wasm_read::{ReadRow, SectionReader, Subsection, SubsectionReader};
use wasm_read_component::{ComponentPayload, ComponentPayloads, ReadRowAt, ScopedReader};

/// A row, as text.
pub trait AddRow {
    /// Adds the row.
    fn add_row(self, alloc: Global, text: &mut String) -> Result<(), AllocError>;
}

/// A reader of rows.
pub trait NextRow {
    /// A row.
    type Row;

    /// The next row, or none at the end.
    fn next(&mut self, alloc: Global) -> Result<Option<Self::Row>, Fault>;

    /// The place where it stands.
    fn at(&self) -> usize;

    /// How many rows there are, where the bytes say that.
    fn counted(&self) -> Option<u32>;
}

impl<'a, K: ReadRow<'a>> NextRow for SectionReader<'a, K> {
    type Row = K::Row;

    fn next(&mut self, alloc: Global) -> Result<Option<K::Row>, Fault> {
        self.next_row(alloc)
    }

    fn at(&self) -> usize {
        self.place()
    }

    fn counted(&self) -> Option<u32> {
        Some(self.count())
    }
}

impl<'a, K: ReadRowAt<'a>> NextRow for ScopedReader<'a, K> {
    type Row = K::Row;

    fn next(&mut self, alloc: Global) -> Result<Option<K::Row>, Fault> {
        self.next_row(alloc)
    }

    fn at(&self) -> usize {
        self.place()
    }

    fn counted(&self) -> Option<u32> {
        Some(self.count())
    }
}

impl<'a, N: Subsection<'a>> NextRow for SubsectionReader<'a, N> {
    type Row = N;

    fn next(&mut self, alloc: Global) -> Result<Option<N>, Fault> {
        self.next_row(alloc)
    }

    fn at(&self) -> usize {
        self.place()
    }

    fn counted(&self) -> Option<u32> {
        None
    }
}

impl<'a> NextRow for ComponentPayloads<'a> {
    type Row = ComponentPayload<'a>;

    fn next(&mut self, _alloc: Global) -> Result<Option<ComponentPayload<'a>>, Fault> {
        ComponentPayloads::next(self)
    }

    fn at(&self) -> usize {
        self.place()
    }

    fn counted(&self) -> Option<u32> {
        None
    }
}

/// Adds the next row with the place behind it, or `end`, or the refusal. It answers whether there is a row.
fn add_next<R: NextRow>(alloc: Global, text: &mut String, rows: &mut R) -> Result<bool, AllocError>
where
    R::Row: AddRow + Drop,
{
    match rows.next(alloc) {
        Ok(Some(row)) => row.add_row(alloc, text)?,
        Ok(None) => {
            add_word(text, "end")?;
            return Ok(false);
        }
        Err(fault) => {
            add_refusal(alloc, text, fault)?;
            return Ok(false);
        }
    }
    add_place(text, rows.at())?;
    add_word(text, "|")?;
    Ok(true)
}

/// Adds what comes behind the last, where it is asked again, if that is not the same.
fn add_again<R: NextRow>(
    alloc: Global,
    text: &mut String,
    rows: &mut R,
    last: &str,
) -> Result<(), AllocError>
where
    R::Row: AddRow + Drop,
{
    let mut again = String::new(alloc);
    add_next(alloc, &mut again, rows)?;
    if again.as_str() == last {
        return Ok(());
    }
    add_word(text, "and then")?;
    add_word(text, again.as_str())
}

/// Adds the rows that are left with the place behind each, up to the end or the first refusal. It says also how many the bytes
/// count, if these are not as many before the end.
pub fn add_rows<R: NextRow + Drop>(
    alloc: Global,
    text: &mut String,
    rows: R,
) -> Result<(), AllocError>
where
    R::Row: AddRow + Drop,
{
    let mut rows = rows;
    let mut given = 0u32;
    'rows: for _ in 0..u64::MAX {
        let mut next = String::new(alloc);
        let is_row = add_next(alloc, &mut next, &mut rows)?;
        text.push_str(next.as_str())?;
        if !is_row {
            add_again(alloc, text, &mut rows, next.as_str())?;
            break 'rows;
        }
        given = given.saturating_add(1);
    }
    match rows.counted() {
        Some(count) if count != given && text.as_str().ends_with("end ") => {
            add_as(text, "of", &count)
        }
        _ => Ok(()),
    }
}

/// The same as a text of their own.
pub fn rows_of<R: NextRow + Drop>(alloc: Global, rows: R) -> Result<Option<String>, Stop>
where
    R::Row: AddRow + Drop,
{
    let mut text = String::new(alloc);
    add_rows(alloc, &mut text, rows)?;
    Ok(Some(text))
}

/// The rows of a section.
pub fn rows<'a, K: ReadRow<'a>>(alloc: Global, bytes: &'a [u8]) -> Result<Option<String>, Stop>
where
    K::Row: AddRow + Drop,
{
    let rows: SectionReader<'a, K> = SectionReader::new(bytes)?;
    rows_of(alloc, rows)
}

/// The rows of a section that may open scopes, where so many are open round them.
pub fn scoped_rows<'a, K: ReadRowAt<'a>>(
    alloc: Global,
    bytes: &'a [u8],
    depth: u32,
) -> Result<Option<String>, Stop>
where
    K::Row: AddRow + Drop,
    requires { depth ≤ 200 }
{
    let rows: ScopedReader<'a, K> = ScopedReader::new(bytes, depth)?;
    rows_of(alloc, rows)
}
