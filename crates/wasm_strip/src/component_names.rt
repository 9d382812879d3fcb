//! Whether the contents of a section `component-name` have a reading (Component Model, Binary Format).
ghost use Rattle.std.specs.Prelude.{IfNone, IfSome};
ghost use Rattle.std.specs.Bool.{Decides};
ghost use Rattle.wasm_shapes.specs.Component.{component_name_subsection};
ghost use Rattle.wasm_shapes.specs.Place.{Begins, BeginsNone};
ghost use Rattle.wasm_shapes.specs.Tree.{Tree};
ghost use Rattle.wasm_strip.specs.Choices.{AreComponentNames};
ghost use Rattle.wasm_strip.specs.Readable.{HasComponentReading};

use crate::names::is_map;
use wasm_leb::front_byte;
use wasm_read::{Subsection, front_sized};
use wasm_read_component::ComponentName;

/// Whether a subsection can be read.
fn is_readable(names: ComponentName<'_>) -> bool
    ensures { Decides result (HasComponentReading names.entry) }
{
    match names {
        ComponentName::Component { .. } | ComponentName::Unknown { .. } => true,
        ComponentName::CoreFuncs(map)
        | ComponentName::CoreTables(map)
        | ComponentName::CoreMemories(map)
        | ComponentName::CoreGlobals(map)
        | ComponentName::CoreTags(map)
        | ComponentName::CoreTypes(map)
        | ComponentName::CoreModules(map)
        | ComponentName::CoreInstances(map)
        | ComponentName::Funcs(map)
        | ComponentName::Values(map)
        | ComponentName::Types(map)
        | ComponentName::Components(map)
        | ComponentName::Instances(map) => is_map(map),
    }
}

/// The bytes behind the subsection at the front of some bytes, where it can be read.
fn behind_subsection(bytes: &[u8]) -> Option<&[u8]>
    ensures some { IfSome result (λ rest. (t : Tree)
        × Begins component_name_subsection bytes.now t rest.now) }
    ensures none { IfNone result (BeginsNone component_name_subsection bytes.now) }
{
    let Some((id, start)) = front_byte(bytes) else {
        return None;
    };
    let Some((body, rest)) = front_sized(start) else {
        return None;
    };
    match ComponentName::of_body(id, body) {
        Some(names) => { if is_readable(names) { Some(rest) } else { None } }
        None => None,
    }
}

/// Whether bytes are the contents of a section of a component's names, behind its name. No memory is taken.
pub fn are_component_names(contents: &[u8]) -> bool
    ensures { Decides result (AreComponentNames contents.now) }
{
    let mut rest = contents;
    'subsections: while !rest.is_empty() {
        match behind_subsection(rest) {
            Some(left) => rest = left,
            None => return false,
        }
    }
    true
}
