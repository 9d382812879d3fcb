//! What the functions of components, of their sections and of module types ask.
use crate::component_values as v;
use crate::noter::{Notes, added, alone, mapped};
use crate::values::rows;
use reencode_component::{
    ReencodeComponent, ReencodeComponentItems, ReencodeComponentRows, component_utils as utils,
    reencode,
};
use reencode_core::reencode_core;
use reencode_hooks::Error;
use std::alloc::Global;
use wasm_read::CustomSection;
use wasm_read_component as r;
use wasm_read_component::ComponentPayload;
use wasm_write::RowSection;
use wasm_write_component as w;

/// A core module with a type, and a body.
const MODULE: [u8; 20] = [
    0x00, 0x61, 0x73, 0x6d, 0x01, 0x00, 0x00, 0x00, 0x01, 0x04, 0x01, 0x60, 0x00, 0x00, 0x0a, 0x04,
    0x01, 0x02, 0x00, 0x0b,
];

/// A component with a section of each kind, which hold no rows, in another order than that of their ids.
const COMPONENT: [u8; 64] = [
    0x00, 0x61, 0x73, 0x6d, 0x0d, 0x00, 0x01, 0x00, 0x7f, 0x00, 0x0c, 0x01, 0x00, 0x0b, 0x01, 0x00,
    0x0a, 0x01, 0x00, 0x09, 0x03, 0x00, 0x00, 0x00, 0x08, 0x01, 0x00, 0x07, 0x01, 0x00, 0x06, 0x01,
    0x00, 0x05, 0x01, 0x00, 0x04, 0x08, 0x00, 0x61, 0x73, 0x6d, 0x0d, 0x00, 0x01, 0x00, 0x03, 0x01,
    0x00, 0x02, 0x01, 0x00, 0x01, 0x08, 0x00, 0x61, 0x73, 0x6d, 0x01, 0x00, 0x00, 0x00, 0x0c, 0x00,
];

/// What a component holds: sections without rows, a start, what is nested, and a section of an id that no table knows.
const PAYLOADS: [(&str, ComponentPayload<'_>); 13] = [
    (
        "instances",
        ComponentPayload::Section {
            id: 2,
            at: 0,
            body: &[0x00],
        },
    ),
    (
        "core types",
        ComponentPayload::Section {
            id: 3,
            at: 0,
            body: &[0x00],
        },
    ),
    (
        "component instances",
        ComponentPayload::Section {
            id: 5,
            at: 0,
            body: &[0x00],
        },
    ),
    (
        "aliases",
        ComponentPayload::Section {
            id: 6,
            at: 0,
            body: &[0x00],
        },
    ),
    (
        "types",
        ComponentPayload::Section {
            id: 7,
            at: 0,
            body: &[0x00],
        },
    ),
    (
        "canonical functions",
        ComponentPayload::Section {
            id: 8,
            at: 0,
            body: &[0x00],
        },
    ),
    (
        "start",
        ComponentPayload::Section {
            id: 9,
            at: 0,
            body: &[0x00, 0x00, 0x00],
        },
    ),
    (
        "imports",
        ComponentPayload::Section {
            id: 10,
            at: 0,
            body: &[0x00],
        },
    ),
    (
        "exports",
        ComponentPayload::Section {
            id: 11,
            at: 0,
            body: &[0x00],
        },
    ),
    (
        "module",
        ComponentPayload::Module {
            at: 0,
            bytes: &[0x00, 0x61, 0x73, 0x6d, 0x01, 0x00, 0x00, 0x00],
        },
    ),
    (
        "component",
        ComponentPayload::Component {
            at: 0,
            bytes: &[
                0x00, 0x61, 0x73, 0x6d, 0x0d, 0x00, 0x01, 0x00, 0x0c, 0x01, 0x00,
            ],
        },
    ),
    (
        "custom",
        ComponentPayload::Custom {
            at: 0,
            section: CustomSection {
                name: "x",
                contents: &[],
            },
        },
    ),
    (
        "unknown",
        ComponentPayload::Unknown {
            at: 0,
            id: 12,
            contents: &[],
        },
    ),
];

/// A function and an instance that are imported.
const IMPORTS: [u8; 11] = [
    0x02, 0x00, 0x01, 0x61, 0x01, 0x00, 0x00, 0x01, 0x62, 0x05, 0x00,
];

/// Aliases of a function that instance 0 exports as `a`, and of a type further out.
const ALIASES: [u8; 10] = [0x02, 0x01, 0x00, 0x00, 0x01, 0x61, 0x03, 0x02, 0x01, 0x00];

/// Function 0 as `a`, and type 0 as `b`.
const EXPORTS: [u8; 13] = [
    0x02, 0x00, 0x01, 0x61, 0x01, 0x00, 0x00, 0x00, 0x01, 0x62, 0x03, 0x00, 0x00,
];

/// A resource that is dropped, and a task that is cancelled.
const CANONICAL_FUNCTIONS: [u8; 4] = [0x02, 0x03, 0x00, 0x05];

/// Instances, of component 0 and of no exports.
const COMPONENT_INSTANCES: [u8; 6] = [0x02, 0x00, 0x00, 0x00, 0x01, 0x00];

/// Core instances, of module 0 and of no exports.
const INSTANCES: [u8; 6] = [0x02, 0x00, 0x00, 0x00, 0x01, 0x00];

/// A core function type, and a module type that declares nothing.
const CORE_TYPES: [u8; 6] = [0x02, 0x60, 0x00, 0x00, 0x50, 0x00];

/// A type of values, a function type, a resource, an instance type with each of what it may declare, and a component type
/// with an import and an export.
const TYPES: [u8; 43] = [
    0x05, 0x73, 0x40, 0x00, 0x01, 0x00, 0x3f, 0x7f, 0x01, 0x00, 0x42, 0x04, 0x00, 0x60, 0x00, 0x00,
    0x01, 0x73, 0x02, 0x03, 0x02, 0x00, 0x00, 0x04, 0x00, 0x01, 0x61, 0x01, 0x00, 0x41, 0x02, 0x03,
    0x00, 0x01, 0x61, 0x01, 0x00, 0x04, 0x00, 0x01, 0x62, 0x03, 0x01,
];

/// What a module type declares: a function type and a function that is exported as `a`.
const DECLARATIONS: [u8; 10] = [0x02, 0x01, 0x60, 0x00, 0x00, 0x03, 0x01, 0x61, 0x00, 0x00];

/// A component, by its function alone.
fn component<N: ReencodeComponent + Notes>(
    of: &mut N,
    alloc: Global,
    component: &mut w::Component,
    bytes: &[u8],
) -> Result<(), Error<N::Error>> {
    alone!(of, parse_component(alloc, component, bytes, 0))
}

/// A section, by its function alone.
fn payload<N: ReencodeComponent + Notes>(
    of: &mut N,
    case: &str,
    alloc: Global,
    component: &mut w::Component,
    payload: ComponentPayload<'_>,
) -> Result<(), Error<N::Error>> {
    alone!(
        of,
        case,
        parse_component_payload(alloc, component, payload, 0)
    )
}

/// A core module, alone and by its header.
fn binaries<N: ReencodeComponent + Notes>(
    of: &mut N,
    alloc: Global,
    bytes: &[u8],
) -> Result<(), Error<N::Error>> {
    of.begin("reencode_core", "");
    of.note("|");
    reencode_core(alloc, of, bytes, u32::MAX)?;
    of.begin("reencode", "");
    of.note("|");
    reencode(alloc, of, bytes)?;
    Ok(())
}

/// What a component holds.
fn payloads<N: ReencodeComponent + Notes>(
    of: &mut N,
    alloc: Global,
    made: &mut w::Component,
) -> Result<(), Error<N::Error>> {
    for (case, held) in PAYLOADS {
        payload(of, case, alloc, made, held)?;
    }
    Ok(())
}

/// Binaries, components, and what they hold.
pub fn components<N: ReencodeComponent + Notes>(
    of: &mut N,
    alloc: Global,
) -> Result<(), Error<N::Error>> {
    binaries(of, alloc, &MODULE)?;
    let mut made = w::Component::new(alloc, u32::MAX)?;
    component(of, alloc, &mut made, &COMPONENT)?;
    payloads(of, alloc, &mut made)
}

/// A section of imports.
fn imports<N: ReencodeComponentItems + Notes>(
    of: &mut N,
    alloc: Global,
    rows: r::ComponentImportSectionReader<'_>,
    sink: &mut w::ComponentImportSection,
) -> Result<(), Error<N::Error>> {
    added!(of, parse_component_import_section(alloc, sink, rows))
}

/// A section of aliases.
fn aliases<N: ReencodeComponentItems + Notes>(
    of: &mut N,
    alloc: Global,
    rows: r::ComponentAliasSectionReader<'_>,
    sink: &mut w::ComponentAliasSection,
) -> Result<(), Error<N::Error>> {
    added!(of, parse_component_alias_section(alloc, sink, rows))
}

/// A section of exports.
fn exports<N: ReencodeComponentRows + Notes>(
    of: &mut N,
    alloc: Global,
    rows: r::ComponentExportSectionReader<'_>,
    sink: &mut w::ComponentExportSection,
) -> Result<(), Error<N::Error>> {
    added!(of, parse_component_export_section(alloc, sink, rows))
}

/// A section of canonical functions.
fn canonical_functions<N: ReencodeComponentRows + Notes>(
    of: &mut N,
    alloc: Global,
    rows: r::ComponentCanonicalSectionReader<'_>,
    sink: &mut w::CanonicalFunctionSection,
) -> Result<(), Error<N::Error>> {
    added!(of, parse_component_canonical_section(alloc, sink, rows))
}

/// A section of instances.
fn component_instances<N: ReencodeComponentRows + Notes>(
    of: &mut N,
    alloc: Global,
    rows: r::ComponentInstanceSectionReader<'_>,
    sink: &mut w::ComponentInstanceSection,
) -> Result<(), Error<N::Error>> {
    added!(of, parse_component_instance_section(alloc, sink, rows))
}

/// A section of core instances.
fn instances<N: ReencodeComponentRows + Notes>(
    of: &mut N,
    alloc: Global,
    rows: r::InstanceSectionReader<'_>,
    sink: &mut w::InstanceSection,
) -> Result<(), Error<N::Error>> {
    added!(of, parse_instance_section(alloc, sink, rows))
}

/// A section of core types.
fn core_types<N: ReencodeComponentRows + Notes>(
    of: &mut N,
    alloc: Global,
    rows: r::CoreTypeSectionReader<'_>,
    sink: &mut w::CoreTypeSection,
) -> Result<(), Error<N::Error>> {
    added!(of, parse_core_type_section(alloc, sink, rows))
}

/// Sections whose rows hold no lists.
pub fn sections<N: ReencodeComponentRows + Notes>(
    of: &mut N,
    alloc: Global,
) -> Result<(), Error<N::Error>> {
    imports(of, alloc, rows(&IMPORTS)?, &mut RowSection::new(alloc))?;
    aliases(of, alloc, rows(&ALIASES)?, &mut RowSection::new(alloc))?;
    exports(of, alloc, rows(&EXPORTS)?, &mut RowSection::new(alloc))
}

/// Sections of canonical functions and of instances.
pub fn more_sections<N: ReencodeComponentRows + Notes>(
    of: &mut N,
    alloc: Global,
) -> Result<(), Error<N::Error>> {
    canonical_functions(
        of,
        alloc,
        rows(&CANONICAL_FUNCTIONS)?,
        &mut RowSection::new(alloc),
    )?;
    component_instances(
        of,
        alloc,
        rows(&COMPONENT_INSTANCES)?,
        &mut RowSection::new(alloc),
    )
}

/// Sections of core instances and of core types.
pub fn core_sections<N: ReencodeComponentRows + Notes>(
    of: &mut N,
    alloc: Global,
) -> Result<(), Error<N::Error>> {
    instances(of, alloc, rows(&INSTANCES)?, &mut RowSection::new(alloc))?;
    core_types(
        of,
        alloc,
        v::types(&CORE_TYPES)?,
        &mut RowSection::new(alloc),
    )
}

/// A section of types, by its function alone.
fn types<N: ReencodeComponent + Notes>(
    of: &mut N,
    alloc: Global,
    rows: r::ComponentTypeSectionReader<'_>,
    sink: &mut w::ComponentTypeSection,
) -> Result<(), Error<N::Error>> {
    alone!(of, parse_component_type_section(alloc, sink, rows))
}

/// A module type.
fn module_type<N: ReencodeComponentRows + Notes>(
    of: &mut N,
    alloc: Global,
    declarations: r::ModuleDeclarations<'_>,
) -> Result<(), Error<N::Error>> {
    mapped!(of, component_module_type(alloc, declarations))
}

/// Module types, and types of all sorts.
pub fn scopes<N: ReencodeComponent + Notes>(
    of: &mut N,
    alloc: Global,
) -> Result<(), Error<N::Error>> {
    types(
        of,
        alloc,
        v::component_types(&TYPES)?,
        &mut RowSection::new(alloc),
    )?;
    module_type(of, alloc, rows(&DECLARATIONS)?)
}
