//! Sections that are one item, and sections as they are added to a module.
ghost use Rattle.std.specs.Prelude.{IfOk, IfErr, OnOk};
ghost use Rattle.wasm_leb.specs.Leb.{IsUnsigned};
ghost use Rattle.wasm_shapes.specs.Tree.{normal};
ghost use Rattle.wasm_shapes.specs.Types.{vector_tree};
ghost use Rattle.wasm_write.specs.Sections.{AllFit, section_row};
ghost use Rattle.reencode_hooks.specs.Hooks.{MayAdd, RepliesSection};
ghost use Rattle.reencode_hooks.specs.Run.{NeverWants};
ghost use Rattle.reencode_core.specs.Sections.{AddsMapped, HasBody, NoBody, NoItem};

use reencode_hooks::{Error, ReencodeIndices};
use wasm_leb::{ReadError, front_u32};
use wasm_read as r;
use wasm_shapes::kinds::SectionKind;
use wasm_shapes::{SectionId, Visit};
use wasm_write::{Module, RowSection, Section};

/// The one item that fills the body of a section. The error holds the place where it is due and none begins, or where bytes
/// are left behind it.
pub(crate) fn one_item(body: &[u8]) -> Result<u32, ReadError>
    ensures ok { IfOk result (λ item. IsUnsigned 32 body.now item) }
    ensures err { IfErr result (λ e. NoItem body.now e.at) }
{
    match front_u32(body) {
        Some((item, [])) => Ok(item),
        Some((_, rest)) => Err(ReadError {
            at: body.len().saturating_sub(rest.len()),
        }),
        None => Err(ReadError { at: 0 }),
    }
}

/// The body of a section: a reader of its rows, or its one item.
pub(crate) enum Body<'a> {
    Types(r::TypeSectionReader<'a>),
    Imports(r::ImportSectionReader<'a>),
    Functions(r::FunctionSectionReader<'a>),
    Tables(r::TableSectionReader<'a>),
    Memories(r::MemorySectionReader<'a>),
    Globals(r::GlobalSectionReader<'a>),
    Exports(r::ExportSectionReader<'a>),
    Elements(r::ElementSectionReader<'a>),
    Code(r::CodeSectionReader<'a>),
    Data(r::DataSectionReader<'a>),
    Tags(r::TagSectionReader<'a>),
    Start(u32),
    DataCount(u32),
}

/// Reads the count of the rows of a section, or its one item.
pub(crate) fn read_body<E>(id: SectionId, body: &[u8]) -> Result<Body<'_>, Error<E>>
    ensures ok { IfOk result (HasBody id body.now) }
    ensures err { IfErr result (NoBody id body.now) }
{
    match id {
        SectionId::Type_ => Ok(Body::Types(r::TypeSectionReader::new(body)?)),
        SectionId::Import => Ok(Body::Imports(r::ImportSectionReader::new(body)?)),
        SectionId::Function => Ok(Body::Functions(r::FunctionSectionReader::new(body)?)),
        SectionId::Table => Ok(Body::Tables(r::TableSectionReader::new(body)?)),
        SectionId::Memory => Ok(Body::Memories(r::MemorySectionReader::new(body)?)),
        SectionId::Global => Ok(Body::Globals(r::GlobalSectionReader::new(body)?)),
        SectionId::Export => Ok(Body::Exports(r::ExportSectionReader::new(body)?)),
        SectionId::Element => Ok(Body::Elements(r::ElementSectionReader::new(body)?)),
        SectionId::Code => Ok(Body::Code(r::CodeSectionReader::new(body)?)),
        SectionId::Data => Ok(Body::Data(r::DataSectionReader::new(body)?)),
        SectionId::Tag => Ok(Body::Tags(r::TagSectionReader::new(body)?)),
        SectionId::Start => Ok(Body::Start(one_item(body)?)),
        SectionId::DataCount => Ok(Body::DataCount(one_item(body)?)),
        _ => Err(Error::ParseError(ReadError { at: 0 })),
    }
}

/// Adds a section whose rows were mapped. Where they were refused, that is the answer.
pub(crate) fn add_section<S: Section, E>(
    module: &mut Module,
    mapped: Result<(), Error<E>>,
    section: &S,
) -> Result<(), Error<E>>
    ensures { AddsMapped (section_row (S.number section.now) (S.contents section.now)) «module».old
        mapped «module».new result }
{
    mapped?;
    module.section(section)?;
    Ok(())
}

/// Adds a section of rows that were mapped, and frees its memory. Where they were refused, that is the answer.
pub(crate) fn add_rows<K: SectionKind, E>(
    module: &mut Module,
    mapped: Result<(), Error<E>>,
    section: RowSection<K>,
) -> Result<(), Error<E>>
    ensures { AddsMapped (section_row K.ID (normal (vector_tree section))) «module».old mapped
        «module».new result }
{
    add_section(module, mapped, &section)
}

/// Adds a section of rows that were mapped, and takes over its memory. Where they were refused, that is the answer.
pub(crate) fn take_section<K: SectionKind, E>(
    module: &mut Module,
    mapped: Result<(), Error<E>>,
    section: RowSection<K>,
) -> Result<(), Error<E>>
    ensures { AddsMapped (section_row K.ID (normal (vector_tree section))) «module».old mapped
        «module».new result }
{
    mapped?;
    module.take(section)?;
    Ok(())
}

// Calls the hook whose visit this is.
#[inline(always)]
fn ask_hook<R: ReencodeIndices>(
    reencoder: &mut R,
    module: &mut Module,
    visit: Visit,
) -> Result<(), Error<R::Error>>
    requires { MayAdd visit }
    ensures answer { RepliesSection R.reply R.next R.adds reencoder.old reencoder.new
        «module».old «module».new visit result }
    ensures sure { NeverWants R.sure result }
{
    match visit {
        Visit::Section(after, before) => {
            reencoder.intersperse_section_hook(module, after, before)
        }
        Visit::Closed(section) => reencoder.close_section_hook(module, section),
        Visit::Index(..) | Visit::Outer(..) | Visit::Push | Visit::Pop => Ok(()),
    }
}

/// Calls the section hook, or the closing hook, whose visit this is. What it added fits, since the module holds it.
#[inline(always)]
pub(crate) fn call_hook<R: ReencodeIndices>(
    reencoder: &mut R,
    module: &mut Module,
    visit: Visit,
) -> Result<(), Error<R::Error>>
    requires { MayAdd visit }
    ensures answer { RepliesSection R.reply R.next R.adds reencoder.old reencoder.new
        «module».old «module».new visit result }
    ensures sure { NeverWants R.sure result }
    ensures fits { OnOk result (AllFit «module».old.ceiling (R.adds reencoder.old visit)) }
{
    match ask_hook(reencoder, module, visit) {
        Ok(()) => {
            module.sections_fit();
            Ok(())
        }
        Err(e) => Err(e),
    }
}
