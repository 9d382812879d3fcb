//! The names of a component (Component Model, Binary Format: the custom section named `component-name`).
ghost use Rattle.std.specs.Prelude.{◌≡◌, ◌++◌, ◌∷◌, true, false, IfSome, IfNone};
ghost use Rattle.wasm_shapes.specs.Component.{component_name_subsection, sorts};
ghost use Rattle.wasm_shapes.specs.ComponentNames.{has_sort, sort_bytes};
ghost use Rattle.wasm_shapes.specs.Place.{BeginsNone};
ghost use Rattle.wasm_shapes.specs.Shape.{begins_with_one};
ghost use Rattle.wasm_read.specs.Subsections.{Content, NoSubsection};
ghost use Rattle.wasm_read_component.specs.ComponentNames.{HoldsComponentName, component_content};

use crate::types::ComponentName;
use wasm_leb::front_byte;
use wasm_read::{NameMap, Subsection, SubsectionReader, whole_name};
use wasm_shapes::Space;

/// A reader of the subsections of the names of a component, which fill the contents of their section.
pub type ComponentNameSectionReader<'a> = SubsectionReader<'a, ComponentName<'a>>;

/// The sort of core modules at the front of some bytes, of which the first is its second byte, and the bytes behind it.
fn front_core_sort(bytes: &[u8]) -> Option<(Space, &[u8])>
    ensures some { IfSome result (λ r. 0x00 ∷ bytes.now ≡ sort_bytes r.0 ++ r.1.now) }
    ensures sort { IfSome result (λ r. has_sort r.0 ≡ true) }
    ensures none { IfNone result (begins_with_one sorts (0x00 ∷ bytes.now) ≡ false) }
{
    let Some((byte, rest)) = front_byte(bytes) else {
        return None;
    };
    match byte {
        0x00 => Some((Space::Function, rest)),
        0x01 => Some((Space::Table, rest)),
        0x02 => Some((Space::Memory, rest)),
        0x03 => Some((Space::Global, rest)),
        0x04 => Some((Space::Tag, rest)),
        0x10 => Some((Space::Type_, rest)),
        0x11 => Some((Space::Module, rest)),
        0x12 => Some((Space::Instance, rest)),
        _ => None,
    }
}

/// The sort at the front of some bytes, and the bytes behind it.
fn front_sort(bytes: &[u8]) -> Option<(Space, &[u8])>
    ensures some { IfSome result (λ r. bytes.now ≡ sort_bytes r.0 ++ r.1.now) }
    ensures sort { IfSome result (λ r. has_sort r.0 ≡ true) }
    ensures none { IfNone result (begins_with_one sorts bytes.now ≡ false) }
{
    let Some((byte, rest)) = front_byte(bytes) else {
        return None;
    };
    match byte {
        0x00 => front_core_sort(rest),
        0x01 => Some((Space::ComponentFunc, rest)),
        0x02 => Some((Space::ComponentValue, rest)),
        0x03 => Some((Space::ComponentType, rest)),
        0x04 => Some((Space::Component, rest)),
        0x05 => Some((Space::ComponentInstance, rest)),
        _ => None,
    }
}

/// The names of what a space counts.
fn names_of(space: Space, map: NameMap<'_>) -> ComponentName<'_>
    requires { has_sort space ≡ true }
    ensures { component_content result ≡ Content.direct 1 space map.entry }
{
    match space {
        Space::Function => ComponentName::CoreFuncs(map),
        Space::Table => ComponentName::CoreTables(map),
        Space::Memory => ComponentName::CoreMemories(map),
        Space::Global => ComponentName::CoreGlobals(map),
        Space::Tag => ComponentName::CoreTags(map),
        Space::Type_ => ComponentName::CoreTypes(map),
        Space::Module => ComponentName::CoreModules(map),
        Space::Instance => ComponentName::CoreInstances(map),
        Space::ComponentFunc => ComponentName::Funcs(map),
        Space::ComponentValue => ComponentName::Values(map),
        Space::ComponentType => ComponentName::Types(map),
        Space::Component => ComponentName::Components(map),
        Space::ComponentInstance => ComponentName::Instances(map),
        _ => unreachable!(),
    }
}

/// What the body of a subsection of the id 1 is.
fn of_sort(body: &[u8]) -> ComponentName<'_>
    ensures { HoldsComponentName 1 body.now result }
{
    match front_sort(body) {
        Some((space, rest)) => names_of(space, NameMap::new(rest)),
        None => ComponentName::Unknown {
            id: 1,
            contents: body,
        },
    }
}

impl<'a> Subsection<'a> for ComponentName<'a> {
    ghost shape = { component_name_subsection };

    ghost holds = { HoldsComponentName };

    fn of_body(id: u8, body: &'a [u8]) -> Option<ComponentName<'a>> {
        match id {
            0 => match whole_name(body) {
                Some(name) => Some(ComponentName::Component { name }),
                None => None,
            },
            1 => Some(of_sort(body)),
            _ => Some(ComponentName::Unknown { id, contents: body }),
        }
    }

    #[tactic(auto, using(crate::proofs::ComponentSubsections::none_begins))]
    fn none_begins(bytes: &[u8])
        requires { NoSubsection bytes.now }
        ensures { BeginsNone component_name_subsection bytes.now }
    {
        let _ = bytes;
    }
}
