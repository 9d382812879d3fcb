//! What the functions of rows of components and of types ask.
use crate::component_values as v;
use crate::noter::{Notes, added, mapped};
use reencode_component::{ReencodeComponentItems, ReencodeComponentRows, component_utils as utils};
use reencode_hooks::Error;
use std::alloc::Global;
use wasm_read_component as r;
use wasm_write::RowSection;
use wasm_write_component as w;

/// A function as `a`, without its type and with it.
const EXPORTS: [(&str, r::ComponentExport<'_>); 2] = [
    (
        "without a type",
        r::ComponentExport {
            name: "a",
            kind: r::ComponentExternalKind::Func,
            index: 0,
            ty: None,
        },
    ),
    (
        "with a type",
        r::ComponentExport {
            name: "a",
            kind: r::ComponentExternalKind::Func,
            index: 0,
            ty: Some(r::ComponentTypeRef::Func(0)),
        },
    ),
];

/// An instance of component 0, to which a function and an instance are handed, and one that exports a function.
const COMPONENT_INSTANCES: [(&str, &[u8]); 2] = [
    (
        "of a component",
        &[
            0x01, 0x00, 0x00, 0x02, 0x01, 0x61, 0x01, 0x00, 0x01, 0x62, 0x05, 0x00,
        ],
    ),
    (
        "of exports",
        &[0x01, 0x01, 0x01, 0x00, 0x01, 0x61, 0x01, 0x00],
    ),
];

/// A core instance of module 0, to which two instances are handed, and one that exports a function.
const INSTANCES: [(&str, &[u8]); 2] = [
    (
        "of a module",
        &[
            0x01, 0x00, 0x00, 0x02, 0x01, 0x61, 0x12, 0x00, 0x01, 0x62, 0x12, 0x00,
        ],
    ),
    ("of exports", &[0x01, 0x01, 0x01, 0x01, 0x61, 0x00, 0x00]),
];

/// Canonical functions, by their byte; options are a memory, and where there are two a function that allocates.
const CANONICAL_FUNCTIONS: [(&str, &[u8]); 38] = [
    (
        "lift",
        &[0x01, 0x00, 0x00, 0x00, 0x02, 0x03, 0x00, 0x04, 0x00, 0x00],
    ),
    (
        "lower",
        &[0x01, 0x01, 0x00, 0x00, 0x02, 0x03, 0x00, 0x04, 0x00],
    ),
    ("resource.new", &[0x01, 0x02, 0x00]),
    ("resource.drop", &[0x01, 0x03, 0x00]),
    ("resource.rep", &[0x01, 0x04, 0x00]),
    ("task.cancel", &[0x01, 0x05]),
    ("subtask.cancel", &[0x01, 0x06, 0x00]),
    ("task.return", &[0x01, 0x09, 0x00, 0x7f, 0x01, 0x03, 0x00]),
    (
        "task.return of nothing",
        &[0x01, 0x09, 0x01, 0x00, 0x01, 0x03, 0x00],
    ),
    ("context.get", &[0x01, 0x0a, 0x7f, 0x00]),
    ("context.set", &[0x01, 0x0b, 0x7f, 0x00]),
    ("subtask.drop", &[0x01, 0x0d]),
    ("stream.new", &[0x01, 0x0e, 0x00]),
    ("stream.read", &[0x01, 0x0f, 0x00, 0x01, 0x03, 0x00]),
    ("stream.write", &[0x01, 0x10, 0x00, 0x01, 0x03, 0x00]),
    ("stream.cancel-read", &[0x01, 0x11, 0x00, 0x00]),
    ("stream.cancel-write", &[0x01, 0x12, 0x00, 0x00]),
    ("stream.drop-readable", &[0x01, 0x13, 0x00]),
    ("stream.drop-writable", &[0x01, 0x14, 0x00]),
    ("future.new", &[0x01, 0x15, 0x00]),
    ("future.read", &[0x01, 0x16, 0x00, 0x01, 0x03, 0x00]),
    ("future.write", &[0x01, 0x17, 0x00, 0x01, 0x03, 0x00]),
    ("future.cancel-read", &[0x01, 0x18, 0x00, 0x00]),
    ("future.cancel-write", &[0x01, 0x19, 0x00, 0x00]),
    ("future.drop-readable", &[0x01, 0x1a, 0x00]),
    ("future.drop-writable", &[0x01, 0x1b, 0x00]),
    ("error-context.new", &[0x01, 0x1c, 0x01, 0x03, 0x00]),
    (
        "error-context.debug-message",
        &[0x01, 0x1d, 0x01, 0x03, 0x00],
    ),
    ("error-context.drop", &[0x01, 0x1e]),
    ("waitable-set.new", &[0x01, 0x1f]),
    ("waitable-set.drop", &[0x01, 0x22]),
    ("waitable.join", &[0x01, 0x23]),
    ("backpressure.inc", &[0x01, 0x24]),
    ("backpressure.dec", &[0x01, 0x25]),
    ("thread.spawn-ref", &[0x01, 0x40, 0x00]),
    ("thread.spawn-indirect", &[0x01, 0x41, 0x00, 0x00]),
    ("thread.available-parallelism", &[0x01, 0x42]),
    (
        "lift without options",
        &[0x01, 0x00, 0x00, 0x00, 0x00, 0x00],
    ),
];

/// Function types with a parameter: with a result, and without one.
const FUNCTIONS: [(&str, &[u8]); 2] = [
    (
        "with a result",
        &[0x01, 0x40, 0x01, 0x01, 0x61, 0x7f, 0x00, 0x7f],
    ),
    (
        "without a result",
        &[0x01, 0x43, 0x01, 0x01, 0x61, 0x7f, 0x01, 0x00],
    ),
];

/// Types of values, by their byte.
const DEFINED: [(&str, &[u8]); 19] = [
    ("bool", &[0x01, 0x7f]),
    (
        "record",
        &[0x01, 0x72, 0x02, 0x01, 0x61, 0x7f, 0x01, 0x62, 0x00],
    ),
    (
        "variant",
        &[
            0x01, 0x71, 0x02, 0x01, 0x61, 0x01, 0x7f, 0x00, 0x01, 0x62, 0x00, 0x00,
        ],
    ),
    ("list", &[0x01, 0x70, 0x7f]),
    ("tuple", &[0x01, 0x6f, 0x02, 0x7f, 0x00]),
    ("flags", &[0x01, 0x6e, 0x01, 0x01, 0x61]),
    ("enum", &[0x01, 0x6d, 0x01, 0x01, 0x61]),
    ("option", &[0x01, 0x6b, 0x7f]),
    ("result", &[0x01, 0x6a, 0x01, 0x7f, 0x01, 0x7f]),
    ("result of nothing", &[0x01, 0x6a, 0x00, 0x00]),
    ("own", &[0x01, 0x69, 0x00]),
    ("borrow", &[0x01, 0x68, 0x00]),
    ("list of a length", &[0x01, 0x67, 0x7f, 0x02]),
    ("stream", &[0x01, 0x66, 0x01, 0x7f]),
    ("stream of nothing", &[0x01, 0x66, 0x00]),
    ("future", &[0x01, 0x65, 0x01, 0x7f]),
    ("future of nothing", &[0x01, 0x65, 0x00]),
    ("error-context", &[0x01, 0x64]),
    ("map", &[0x01, 0x63, 0x7f, 0x7f]),
];

/// Core types: a function type, and a module type.
const CORE_TYPES: [(&str, &[u8]); 2] = [
    ("types", &[0x01, 0x60, 0x00, 0x00]),
    ("module type", &[0x01, 0x50, 0x00]),
];

/// What a module type declares: a function that is imported, a type, a type further out, and a function that is exported.
const DECLARATIONS: [(&str, &[u8]); 4] = [
    ("import", &[0x01, 0x00, 0x01, 0x61, 0x01, 0x62, 0x00, 0x00]),
    ("types", &[0x01, 0x01, 0x60, 0x00, 0x00]),
    ("alias", &[0x01, 0x02, 0x10, 0x01, 0x01, 0x00]),
    ("export", &[0x01, 0x03, 0x01, 0x61, 0x00, 0x00]),
];

/// An export.
fn export<N: ReencodeComponentItems + Notes>(
    of: &mut N,
    case: &str,
    row: r::ComponentExport<'_>,
    sink: &mut w::ComponentExportSection,
) -> Result<(), Error<N::Error>> {
    added!(of, case, parse_component_export(sink, row))
}

/// An instance.
fn component_instance<N: ReencodeComponentItems + Notes>(
    of: &mut N,
    case: &str,
    alloc: Global,
    row: r::ComponentInstance<'_>,
    sink: &mut w::ComponentInstanceSection,
) -> Result<(), Error<N::Error>> {
    added!(of, case, parse_component_instance(alloc, sink, row))
}

/// A core instance.
fn instance<N: ReencodeComponentItems + Notes>(
    of: &mut N,
    case: &str,
    alloc: Global,
    row: r::Instance<'_>,
    sink: &mut w::InstanceSection,
) -> Result<(), Error<N::Error>> {
    added!(of, case, parse_instance(alloc, sink, row))
}

/// A canonical function.
fn canonical_function<N: ReencodeComponentItems + Notes>(
    of: &mut N,
    case: &str,
    alloc: Global,
    row: r::CanonicalFunction,
    sink: &mut w::CanonicalFunctionSection,
) -> Result<(), Error<N::Error>> {
    added!(of, case, parse_component_canonical(alloc, sink, row))
}

/// The instance that a section's body holds.
fn component_instance_of<N: ReencodeComponentItems + Notes>(
    of: &mut N,
    case: &str,
    alloc: Global,
    body: &[u8],
) -> Result<(), Error<N::Error>> {
    let row = v::row(alloc, r::ComponentInstanceSectionReader::new(body)?)?;
    component_instance(of, case, alloc, row, &mut RowSection::new(alloc))
}

/// The core instance that a section's body holds.
fn instance_of<N: ReencodeComponentItems + Notes>(
    of: &mut N,
    case: &str,
    alloc: Global,
    body: &[u8],
) -> Result<(), Error<N::Error>> {
    let row = v::row(alloc, r::InstanceSectionReader::new(body)?)?;
    instance(of, case, alloc, row, &mut RowSection::new(alloc))
}

/// The canonical function that a section's body holds.
fn canonical_function_of<N: ReencodeComponentItems + Notes>(
    of: &mut N,
    case: &str,
    alloc: Global,
    body: &[u8],
) -> Result<(), Error<N::Error>> {
    let row = v::row(alloc, r::ComponentCanonicalSectionReader::new(body)?)?;
    canonical_function(of, case, alloc, row, &mut RowSection::new(alloc))
}

/// Exports.
pub fn exports<N: ReencodeComponentItems + Notes>(
    of: &mut N,
    alloc: Global,
) -> Result<(), Error<N::Error>> {
    for (case, row) in EXPORTS {
        export(of, case, row, &mut RowSection::new(alloc))?;
    }
    Ok(())
}

/// Instances.
pub fn component_instances<N: ReencodeComponentItems + Notes>(
    of: &mut N,
    alloc: Global,
) -> Result<(), Error<N::Error>> {
    for (case, body) in COMPONENT_INSTANCES {
        component_instance_of(of, case, alloc, body)?;
    }
    Ok(())
}

/// Core instances.
pub fn instances<N: ReencodeComponentItems + Notes>(
    of: &mut N,
    alloc: Global,
) -> Result<(), Error<N::Error>> {
    for (case, body) in INSTANCES {
        instance_of(of, case, alloc, body)?;
    }
    Ok(())
}

/// Canonical functions, each of its bytes. A loop over a table that stands here costs its check more by each row.
fn canonical_functions_of<N: ReencodeComponentItems + Notes>(
    of: &mut N,
    alloc: Global,
    cases: &[(&str, &[u8])],
) -> Result<(), Error<N::Error>> {
    for (case, body) in cases {
        canonical_function_of(of, case, alloc, body)?;
    }
    Ok(())
}

/// Canonical functions.
pub fn canonical_functions<N: ReencodeComponentItems + Notes>(
    of: &mut N,
    alloc: Global,
) -> Result<(), Error<N::Error>> {
    canonical_functions_of(of, alloc, &CANONICAL_FUNCTIONS)
}

/// A function type.
fn function<N: ReencodeComponentItems + Notes>(
    of: &mut N,
    case: &str,
    alloc: Global,
    ty: r::ComponentFuncType<'_>,
) -> Result<(), Error<N::Error>> {
    mapped!(of, case, parse_component_func_type(alloc, ty))
}

/// A type of values.
fn defined<N: ReencodeComponentItems + Notes>(
    of: &mut N,
    case: &str,
    alloc: Global,
    ty: r::ComponentDefinedType<'_>,
) -> Result<(), Error<N::Error>> {
    mapped!(of, case, parse_component_defined_type(alloc, ty))
}

/// A core type.
fn core_type<N: ReencodeComponentRows + Notes>(
    of: &mut N,
    case: &str,
    alloc: Global,
    ty: r::CoreType<'_>,
) -> Result<(), Error<N::Error>> {
    mapped!(of, case, parse_component_core_type(alloc, ty))
}

/// What a module type declares.
fn module_declaration<N: ReencodeComponentRows + Notes>(
    of: &mut N,
    case: &str,
    alloc: Global,
    row: r::ModuleTypeDeclaration<'_>,
    sink: &mut w::ModuleType,
) -> Result<(), Error<N::Error>> {
    added!(
        of,
        case,
        parse_component_module_type_declaration(alloc, sink, row)
    )
}

/// The function type that a section's body holds.
fn function_of<N: ReencodeComponentItems + Notes>(
    of: &mut N,
    case: &str,
    alloc: Global,
    body: &[u8],
) -> Result<(), Error<N::Error>> {
    function(of, case, alloc, v::function(alloc, body)?)
}

/// The type of values that a section's body holds.
fn defined_of<N: ReencodeComponentItems + Notes>(
    of: &mut N,
    case: &str,
    alloc: Global,
    body: &[u8],
) -> Result<(), Error<N::Error>> {
    defined(of, case, alloc, v::defined(alloc, body)?)
}

/// The core type that a section's body holds.
fn core_type_of<N: ReencodeComponentRows + Notes>(
    of: &mut N,
    case: &str,
    alloc: Global,
    body: &[u8],
) -> Result<(), Error<N::Error>> {
    core_type(of, case, alloc, v::core_type(alloc, body)?)
}

/// The declaration that a module type holds.
fn module_declaration_of<N: ReencodeComponentRows + Notes>(
    of: &mut N,
    case: &str,
    alloc: Global,
    body: &[u8],
) -> Result<(), Error<N::Error>> {
    let row = v::row(alloc, r::ModuleDeclarations::new(body)?)?;
    module_declaration(of, case, alloc, row, &mut RowSection::new(alloc))
}

/// Types of functions.
pub fn functions<N: ReencodeComponentItems + Notes>(
    of: &mut N,
    alloc: Global,
) -> Result<(), Error<N::Error>> {
    for (case, body) in FUNCTIONS {
        function_of(of, case, alloc, body)?;
    }
    Ok(())
}

/// Types of values, each of its bytes.
fn values_of<N: ReencodeComponentItems + Notes>(
    of: &mut N,
    alloc: Global,
    cases: &[(&str, &[u8])],
) -> Result<(), Error<N::Error>> {
    for (case, body) in cases {
        defined_of(of, case, alloc, body)?;
    }
    Ok(())
}

/// Types of values.
pub fn values<N: ReencodeComponentItems + Notes>(
    of: &mut N,
    alloc: Global,
) -> Result<(), Error<N::Error>> {
    values_of(of, alloc, &DEFINED)
}

/// Core types.
pub fn core_types<N: ReencodeComponentRows + Notes>(
    of: &mut N,
    alloc: Global,
) -> Result<(), Error<N::Error>> {
    for (case, body) in CORE_TYPES {
        core_type_of(of, case, alloc, body)?;
    }
    Ok(())
}

/// What module types declare.
pub fn declarations<N: ReencodeComponentRows + Notes>(
    of: &mut N,
    alloc: Global,
) -> Result<(), Error<N::Error>> {
    for (case, body) in DECLARATIONS {
        module_declaration_of(of, case, alloc, body)?;
    }
    Ok(())
}
