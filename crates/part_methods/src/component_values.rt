//! The values of components that are mapped, each from the bytes that spell it.
use reencode_hooks::Error;
use std::alloc::Global;
use wasm_leb::Fault;
use wasm_read::{ReadRow, SectionReader};
use wasm_read_component as r;
use wasm_read_component::{ReadRowAt, ScopedReader};

/// Why a table has no line: its bytes hold no row.
fn missing<E>() -> Error<E> {
    Error::UnsupportedCoreTypeInComponent
}

/// The rows of a section's body in which scopes may be opened.
pub fn types<'a>(body: &'a [u8]) -> Result<r::CoreTypeSectionReader<'a>, Fault> {
    r::CoreTypeSectionReader::new(body, 0)
}

/// The same of types of components.
pub fn component_types<'a>(body: &'a [u8]) -> Result<r::ComponentTypeSectionReader<'a>, Fault> {
    r::ComponentTypeSectionReader::new(body, 0)
}

/// The first row that a reader gives.
pub fn row<'a, K: ReadRow<'a>, E>(
    alloc: Global,
    rows: SectionReader<'a, K>,
) -> Result<K::Row, Error<E>> {
    let mut rows = rows;
    match rows.next_row(alloc)? {
        Some(row) => Ok(row),
        None => Err(missing()),
    }
}

/// The same of a reader whose rows may open scopes.
fn scoped_row<'a, K: ReadRowAt<'a>, E>(
    alloc: Global,
    rows: ScopedReader<'a, K>,
) -> Result<K::Row, Error<E>> {
    let mut rows = rows;
    match rows.next_row(alloc)? {
        Some(row) => Ok(row),
        None => Err(missing()),
    }
}

/// The first row of a body of core types.
pub fn core_type<'a, E>(alloc: Global, body: &'a [u8]) -> Result<r::CoreType<'a>, Error<E>> {
    scoped_row(alloc, types(body)?)
}

/// The first row of a body of types.
fn component_type<'a, E>(alloc: Global, body: &'a [u8]) -> Result<r::ComponentType<'a>, Error<E>> {
    scoped_row(alloc, component_types(body)?)
}

/// The type of values in that row.
pub fn defined<'a, E>(
    alloc: Global,
    body: &'a [u8],
) -> Result<r::ComponentDefinedType<'a>, Error<E>> {
    match component_type(alloc, body)? {
        r::ComponentType::Defined(ty) => Ok(ty),
        _ => Err(missing()),
    }
}

/// The function type in that row.
pub fn function<'a, E>(
    alloc: Global,
    body: &'a [u8],
) -> Result<r::ComponentFuncType<'a>, Error<E>> {
    match component_type(alloc, body)? {
        r::ComponentType::Func(ty) => Ok(ty),
        _ => Err(missing()),
    }
}

/// The start that a section's body holds.
pub fn start(alloc: Global, body: &[u8]) -> Result<r::ComponentStartFunction, Fault> {
    r::read_start(alloc, body)
}
