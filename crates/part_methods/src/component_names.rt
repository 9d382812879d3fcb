//! What the functions of custom sections and names of components ask.
use crate::noter::{Notes, added, mapped};
use reencode_component::{ReencodeComponent, ReencodeComponentItems, component_utils as utils};
use reencode_hooks::Error;
use std::alloc::Global;
use wasm_read::{CustomSection, NameMap};
use wasm_read_component as r;
use wasm_write_component as w;

/// Names: that of the component, and of function 0.
const NAMES: [u8; 11] = [
    0x00, 0x02, 0x01, 0x63, 0x01, 0x05, 0x01, 0x01, 0x00, 0x01, 0x66,
];

/// Function 0 as `f`.
const MAP: [u8; 4] = [0x01, 0x00, 0x01, 0x66];

/// A custom section.
fn custom<N: ReencodeComponent + Notes>(
    of: &mut N,
    case: &str,
    alloc: Global,
    component: &mut w::Component,
    section: CustomSection<'_>,
) -> Result<(), Error<N::Error>> {
    added!(
        of,
        case,
        parse_component_custom_section(alloc, component, section)
    )
}

/// Names of a component.
fn names<N: ReencodeComponent + Notes>(
    of: &mut N,
    alloc: Global,
    rows: r::ComponentNameSectionReader<'_>,
) -> Result<(), Error<N::Error>> {
    mapped!(of, custom_component_name_section(alloc, rows, u32::MAX))
}

/// Names of functions.
fn functions<N: ReencodeComponentItems + Notes>(
    of: &mut N,
    alloc: Global,
    names: &mut w::ComponentNameSection,
    map: NameMap<'_>,
) -> Result<(), Error<N::Error>> {
    added!(
        of,
        "of functions",
        parse_custom_component_name_subsection(alloc, names, r::ComponentName::Funcs(map))
    )
}

/// Custom sections.
pub fn custom_sections<N: ReencodeComponent + Notes>(
    of: &mut N,
    alloc: Global,
) -> Result<(), Error<N::Error>> {
    let mut made = w::Component::new(alloc, u32::MAX)?;
    let named = CustomSection {
        name: "component-name",
        contents: &NAMES,
    };
    custom(of, "of names", alloc, &mut made, named)?;
    let other = CustomSection {
        name: "name",
        contents: &NAMES,
    };
    custom(of, "of another name", alloc, &mut made, other)
}

/// Sections of names.
pub fn name_sections<N: ReencodeComponent + Notes>(
    of: &mut N,
    alloc: Global,
) -> Result<(), Error<N::Error>> {
    names(of, alloc, r::ComponentNameSectionReader::new(&NAMES)?)
}

/// Names by their sorts.
pub fn sorts<N: ReencodeComponentItems + Notes>(
    of: &mut N,
    alloc: Global,
) -> Result<(), Error<N::Error>> {
    let mut made = w::ComponentNameSection::new(alloc, u32::MAX);
    functions(of, alloc, &mut made, NameMap::new(&MAP))
}
