//! Sections of a component by their frames: each is mapped by the method of its kind, and added.
ghost use Rattle.std.specs.Prelude.{◌≡◌, ◌≢◌, ◌≤◌, true};
ghost use Rattle.wasm_shapes.specs.Module.{numbered_frame};
ghost use Rattle.wasm_shapes.specs.Tree.{normal};
ghost use Rattle.wasm_shapes.specs.Types.{vector_tree};
ghost use Rattle.wasm_shapes.proofs.Unscoped.{unscoped};
ghost use Rattle.wasm_read.specs.Reading.{Standing};
ghost use Rattle.wasm_read_component.specs.Scoped.{ScopedStanding};
ghost use Rattle.wasm_write.specs.Sections.{section_row};
ghost use Rattle.reencode_core.specs.Clauses.{RowsClauses};
ghost use Rattle.reencode_core.specs.Sections.{AddsMapped};
ghost use Rattle.reencode_component.specs.ComponentClauses.{FrameClauses, placed_in};
ghost use Rattle.reencode_component.specs.ScopedRows.{ShallowRowsClauses};

use crate::component_methods::ReencodeComponent;
use crate::component_types::parse_component_type_section;
use reencode_hooks::{Error, ReencodeIndices};
use std::alloc::Global;
use wasm_leb::{Fault, ReadError};
use wasm_read::SectionReader;
use wasm_read_component as r;
use wasm_read_component::ScopedReader;
use wasm_shapes::component_kinds as kinds;
use wasm_shapes::component_kinds::ComponentSectionKind;
use wasm_shapes::kinds::{RowKind, SectionKind};
use wasm_write::RowSection;
use wasm_write_component as w;

/// An answer of a call that maps a part which begins at a place: a fault of the bytes holds that place.
pub(crate) fn placed<E>(mapped: Result<(), Error<E>>, at: usize) -> Result<(), Error<E>>
    ensures { result ≡ placed_in mapped at }
{
    match mapped {
        Ok(()) => Ok(()),
        Err(Error::ParseError(_)) => Err(Error::ParseError(ReadError { at })),
        Err(e) => Err(e),
    }
}

/// Adds a section of rows that were mapped. Where they were refused, that is the answer, at the section's place.
fn add_rows<K: ComponentSectionKind, E>(
    component: &mut w::Component,
    mapped: Result<(), Error<E>>,
    at: usize,
    section: RowSection<w::Of<K>>,
) -> Result<(), Error<E>>
    ensures { AddsMapped (section_row K.SectionKind.ID (normal (vector_tree section)))
        «component».old (placed_in mapped at) «component».new result }
{
    placed(mapped, at)?;
    component.section(&section)?;
    Ok(())
}

/// A kind of section whose rows open no scope, as a reencoder maps them.
trait MapSection<T: ReencodeIndices, W: RowKind, S>: ComponentSectionKind {
    // Where a reader of its rows stands.
    ghost standing: { S → Standing };

    /// Maps the rows that the reader still has, and adds them.
    fn map(
        reencoder: &mut T,
        alloc: Global,
        sink: &mut RowSection<W>,
        section: S,
    ) -> Result<(), Error<T::Error>>
        ensures { RowsClauses T.ReencodeIndices Self.SectionKind.shape (standing section)
            reencoder.old sink.old reencoder.new sink.new result };
}

/// A section of rows that open no scope, by its body.
fn flat_rows<'a, T, K>(
    reencoder: &mut T,
    alloc: Global,
    component: &mut w::Component,
    at: usize,
    body: &'a [u8],
    depth: u32,
) -> Result<(), Error<T::Error>>
where
    T: ReencodeIndices,
    K: MapSection<T, w::Of<K>, SectionReader<'a, r::Of<K>>>,
    requires deep { depth ≤ 200 }
    requires flat { unscoped K.shape ≡ true }
    requires same { (reader : Standing) → K.standing reader ≡ reader }
    ensures { FrameClauses T.ReencodeIndices depth (numbered_frame K.SectionKind.ID body.now) at
        reencoder.old «component».old reencoder.new «component».new result }
{
    match SectionReader::<r::Of<K>>::new(body) {
        Ok(rows) => {
            let mut section = RowSection::new(alloc);
            let mapped = K::map(reencoder, alloc, &mut section, rows);
            add_rows(component, mapped, at, section)
        }
        Err(_) => Err(Error::ParseError(ReadError { at })),
    }
}

impl<'a, T: ReencodeComponent> MapSection<T, w::Of<kinds::Instances>, r::InstanceSectionReader<'a>>
    for kinds::Instances {
    ghost standing = { λ reader. reader };

    fn map(
        reencoder: &mut T,
        alloc: Global,
        instances: &mut w::InstanceSection,
        section: r::InstanceSectionReader<'a>,
    ) -> Result<(), Error<T::Error>> {
        reencoder.parse_instance_section(alloc, instances, section)
    }
}

impl<'a, T: ReencodeComponent> MapSection<
    T,
    w::Of<kinds::ComponentInstances>,
    r::ComponentInstanceSectionReader<'a>,
> for kinds::ComponentInstances {
    ghost standing = { λ reader. reader };

    fn map(
        reencoder: &mut T,
        alloc: Global,
        instances: &mut w::ComponentInstanceSection,
        section: r::ComponentInstanceSectionReader<'a>,
    ) -> Result<(), Error<T::Error>> {
        reencoder.parse_component_instance_section(alloc, instances, section)
    }
}

impl<'a, T: ReencodeComponent> MapSection<
    T,
    w::Of<kinds::Aliases>,
    r::ComponentAliasSectionReader<'a>,
> for kinds::Aliases {
    ghost standing = { λ reader. reader };

    fn map(
        reencoder: &mut T,
        alloc: Global,
        aliases: &mut w::ComponentAliasSection,
        section: r::ComponentAliasSectionReader<'a>,
    ) -> Result<(), Error<T::Error>> {
        reencoder.parse_component_alias_section(alloc, aliases, section)
    }
}

impl<'a, T: ReencodeComponent> MapSection<
    T,
    w::Of<kinds::CanonicalFunctions>,
    r::ComponentCanonicalSectionReader<'a>,
> for kinds::CanonicalFunctions {
    ghost standing = { λ reader. reader };

    fn map(
        reencoder: &mut T,
        alloc: Global,
        canonical: &mut w::CanonicalFunctionSection,
        section: r::ComponentCanonicalSectionReader<'a>,
    ) -> Result<(), Error<T::Error>> {
        reencoder.parse_component_canonical_section(alloc, canonical, section)
    }
}

impl<'a, T: ReencodeComponent> MapSection<
    T,
    w::Of<kinds::ComponentImports>,
    r::ComponentImportSectionReader<'a>,
> for kinds::ComponentImports {
    ghost standing = { λ reader. reader };

    fn map(
        reencoder: &mut T,
        alloc: Global,
        imports: &mut w::ComponentImportSection,
        section: r::ComponentImportSectionReader<'a>,
    ) -> Result<(), Error<T::Error>> {
        reencoder.parse_component_import_section(alloc, imports, section)
    }
}

impl<'a, T: ReencodeComponent> MapSection<
    T,
    w::Of<kinds::ComponentExports>,
    r::ComponentExportSectionReader<'a>,
> for kinds::ComponentExports {
    ghost standing = { λ reader. reader };

    fn map(
        reencoder: &mut T,
        alloc: Global,
        exports: &mut w::ComponentExportSection,
        section: r::ComponentExportSectionReader<'a>,
    ) -> Result<(), Error<T::Error>> {
        reencoder.parse_component_export_section(alloc, exports, section)
    }
}

/// A kind of section whose rows may open scopes, as a reencoder maps them.
trait MapScopedSection<T: ReencodeIndices, W: RowKind, S>: ComponentSectionKind {
    // Where a reader of its rows stands.
    ghost standing: { S → ScopedStanding };

    /// Maps the rows that the reader still has, and adds them.
    fn map(
        reencoder: &mut T,
        alloc: Global,
        sink: &mut RowSection<W>,
        section: S,
    ) -> Result<(), Error<T::Error>>
        ensures { ShallowRowsClauses T.ReencodeIndices Self.SectionKind.shape (standing section)
            reencoder.old sink.old reencoder.new sink.new result };
}

/// A section of rows that may open scopes, by its body.
fn scoped_rows<'a, T, K>(
    reencoder: &mut T,
    alloc: Global,
    component: &mut w::Component,
    at: usize,
    body: &'a [u8],
    depth: u32,
) -> Result<(), Error<T::Error>>
where
    T: ReencodeIndices,
    K: MapScopedSection<T, w::Of<K>, ScopedReader<'a, r::Of<K>>>,
    requires deep { depth ≤ 200 }
    requires same { (reader : ScopedStanding) → K.standing reader ≡ reader }
    ensures { FrameClauses T.ReencodeIndices depth (numbered_frame K.SectionKind.ID body.now) at
        reencoder.old «component».old reencoder.new «component».new result }
{
    match ScopedReader::<r::Of<K>>::new(body, depth) {
        Ok(rows) => {
            let mut section = RowSection::new(alloc);
            let mapped = K::map(reencoder, alloc, &mut section, rows);
            add_rows(component, mapped, at, section)
        }
        Err(_) => Err(Error::ParseError(ReadError { at })),
    }
}

impl<'a, T: ReencodeComponent> MapScopedSection<
    T,
    w::Of<kinds::CoreTypes>,
    r::CoreTypeSectionReader<'a>,
> for kinds::CoreTypes {
    ghost standing = { λ reader. reader };

    fn map(
        reencoder: &mut T,
        alloc: Global,
        types: &mut w::CoreTypeSection,
        section: r::CoreTypeSectionReader<'a>,
    ) -> Result<(), Error<T::Error>> {
        reencoder.parse_core_type_section(alloc, types, section)
    }
}

impl<'a, T: ReencodeComponent> MapScopedSection<
    T,
    w::Of<kinds::ComponentTypes>,
    r::ComponentTypeSectionReader<'a>,
> for kinds::ComponentTypes {
    ghost standing = { λ reader. reader };

    fn map(
        reencoder: &mut T,
        alloc: Global,
        types: &mut w::ComponentTypeSection,
        section: r::ComponentTypeSectionReader<'a>,
    ) -> Result<(), Error<T::Error>> {
        parse_component_type_section(reencoder, alloc, types, section)
    }
}

/// The start of a component.
fn start<T: ReencodeComponent>(
    reencoder: &mut T,
    alloc: Global,
    component: &mut w::Component,
    at: usize,
    body: &[u8],
    depth: u32,
) -> Result<(), Error<T::Error>>
    requires { depth ≤ 200 }
    ensures { FrameClauses T.ReencodeIndices depth (numbered_frame 9 body.now) at
        reencoder.old «component».old reencoder.new «component».new result }
{
    match r::read_start(alloc, body) {
        Ok(func) => reencoder.parse_component_start_section(alloc, component, func),
        Err(Fault::Read(_)) => Err(Error::ParseError(ReadError { at })),
        Err(_) => Err(Error::NoMemory),
    }
}

/// A section by its id and its body. A core module and a component are none of these.
pub(crate) fn numbered<T: ReencodeComponent>(
    reencoder: &mut T,
    alloc: Global,
    component: &mut w::Component,
    id: u8,
    at: usize,
    body: &[u8],
    depth: u32,
) -> Result<(), Error<T::Error>>
    requires deep { depth ≤ 200 }
    requires module { id ≢ 1 }
    requires component { id ≢ 4 }
    ensures { FrameClauses T.ReencodeIndices depth (numbered_frame id body.now) at
        reencoder.old «component».old reencoder.new «component».new result }
{
    match id {
        2 => flat_rows::<T, kinds::Instances>(reencoder, alloc, component, at, body, depth),
        3 => scoped_rows::<T, kinds::CoreTypes>(reencoder, alloc, component, at, body, depth),
        5 => flat_rows::<T, kinds::ComponentInstances>(
            reencoder, alloc, component, at, body, depth,
        ),
        6 => flat_rows::<T, kinds::Aliases>(reencoder, alloc, component, at, body, depth),
        7 => scoped_rows::<T, kinds::ComponentTypes>(reencoder, alloc, component, at, body, depth),
        8 => flat_rows::<T, kinds::CanonicalFunctions>(
            reencoder, alloc, component, at, body, depth,
        ),
        9 => start(reencoder, alloc, component, at, body, depth),
        10 => flat_rows::<T, kinds::ComponentImports>(reencoder, alloc, component, at, body, depth),
        11 => flat_rows::<T, kinds::ComponentExports>(reencoder, alloc, component, at, body, depth),
        12..=127 => reencoder.parse_unknown_component_section(component, id, body),
        _ => Err(Error::ParseError(ReadError { at })),
    }
}
