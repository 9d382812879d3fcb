//! What the functions of custom sections, name sections and sections of other ids ask.
ghost use Rattle.std.specs.Prelude.{◌≤◌};
ghost use Rattle.wasm_read.specs.Subsections.{IsRaw};

use crate::noter::{Notes, added, mapped};
use crate::values as v;
use reencode_core::{Reencode, utils};
use reencode_hooks::Error;
use reencode_items::ReencodeItems;
use std::alloc::Global;
use wasm_read as r;
use wasm_write as w;

/// The names of the module and of its function 0.
const CONTENTS: [u8; 10] = [0x00, 0x02, 0x01, 0x6d, 0x01, 0x04, 0x01, 0x00, 0x01, 0x66];

/// The subsections of a name section.
fn section<N: Reencode + Notes>(
    of: &mut N,
    alloc: Global,
    rows: r::NameSectionReader<'_>,
) -> Result<(), Error<N::Error>> {
    mapped!(of, custom_name_section(alloc, rows, u32::MAX))
}

/// A name section.
pub fn sections<N: Reencode + Notes>(of: &mut N, alloc: Global) -> Result<(), Error<N::Error>> {
    section(of, alloc, v::name_rows(&CONTENTS)?)
}

/// A custom section.
fn custom<N: Reencode + Notes>(
    of: &mut N,
    alloc: Global,
    module: &mut w::Module,
    section: r::CustomSection<'_>,
) -> Result<(), Error<N::Error>> {
    added!(of, parse_custom_section(alloc, module, section))
}

/// A section of another id.
fn unknown<N: ReencodeItems + Notes>(
    of: &mut N,
    module: &mut w::Module,
    id: u8,
    contents: &[u8],
) -> Result<(), Error<N::Error>>
    requires { id ≤ 127 }
{
    added!(of, parse_unknown_section(module, id, contents))
}

/// Custom sections, and a section of another id.
pub fn customs<N: Reencode + Notes>(of: &mut N, alloc: Global) -> Result<(), Error<N::Error>> {
    let mut module = w::Module::new(alloc, u32::MAX)?;
    custom(of, alloc, &mut module, v::custom("name", &CONTENTS))?;
    custom(of, alloc, &mut module, v::custom("x", &CONTENTS))?;
    unknown(of, &mut module, 99, &CONTENTS)
}

/// A subsection.
fn subsection<N: ReencodeItems + Notes>(
    of: &mut N,
    alloc: Global,
    row: r::Name<'_>,
    sink: &mut w::NameSection,
) -> Result<(), Error<N::Error>>
    requires { IsRaw row }
{
    added!(of, parse_custom_name_subsection(alloc, sink, row))
}

/// Names by their spaces, and names inside others.
pub fn maps<N: ReencodeItems + Notes>(of: &mut N, alloc: Global) -> Result<(), Error<N::Error>> {
    let mut sink = w::NameSection::new(alloc, u32::MAX);
    for number in 0..11 {
        subsection(of, alloc, v::names(number), &mut sink)?;
    }
    Ok(())
}
