//! A renaming as a text.
ghost use Rattle.std.specs.Prelude.{◌≡◌, replicate, IfOk, OnOk, IsErrOf, [], Some, None};
ghost use Rattle.reencode_hooks.specs.Renamings.{no_renaming};
ghost use Rattle.serde_json.specs.View.{view, members_view};
ghost use Rattle.reencode_run.specs.Renamings.{IsRenaming, NoRenaming, entries_from, set_all, set_member, set_members, set_space, space_of};

use crate::index::{index_of, whole_of};
use reencode_hooks::Renamer;
use serde_json::{Map, Value};
use std::alloc::Global;
use std::collections::BTreeMap;
use wasm_shapes::Space;

/// Why a text gives no renaming, or no order.
#[derive(Clone, Copy, Debug, PartialEq, Eq)]
pub enum RenamingFault {
    /// It says none.
    Bad,
    /// Out of memory.
    NoMemory,
}

/// The spaces, in order.
const SPACES: [Space; 16] = [
    Space::Data,
    Space::Element,
    Space::Function,
    Space::Global,
    Space::Memory,
    Space::Table,
    Space::Tag,
    Space::Type_,
    Space::DataCount,
    Space::ComponentType,
    Space::ComponentInstance,
    Space::ComponentFunc,
    Space::Component,
    Space::Module,
    Space::Instance,
    Space::ComponentValue,
];

/// The space of a name.
pub fn space_of(name: &str) -> Option<Space>
    ensures { result ≡ space_of name.now }
{
    'spaces: for i in 0..SPACES.len() {
        if SPACES[i].name() == name {
            return Some(SPACES[i]);
        }
    }
    None
}

/// The entries of a space, in the order of their keys.
fn entries_of(
    alloc: Global,
    members: &Map<String, Value>,
) -> Result<BTreeMap<u32, u32>, RenamingFault>
    ensures ok { IfOk result
        (λ m. entries_from [] (members_view members.now.entries) ≡ Some m.entries) }
    ensures bad { IsErrOf result RenamingFault.Bad
        → entries_from [] (members_view members.now.entries) ≡ None }
{
    let mut entries = BTreeMap::new(alloc);
    for (key, value) in members.iter() {
        let Some(from) = index_of(key.as_str()) else {
            return Err(RenamingFault::Bad);
        };
        let Some(to) = whole_of(value) else {
            return Err(RenamingFault::Bad);
        };
        match entries.insert(from, to) {
            Ok(_) => {}
            Err(_) => return Err(RenamingFault::NoMemory),
        }
    }
    Ok(entries)
}

/// Sets each entry of a space, in the order of their keys.
fn set_all(
    renamer: &mut Renamer,
    space: Space,
    entries: &BTreeMap<u32, u32>,
) -> Result<(), RenamingFault>
    ensures ok { OnOk result (renamer.new ≡ set_all renamer.old space entries.now.entries) }
    ensures counts { OnOk result (renamer.new.counts ≡ renamer.old.counts) }
    ensures bad { IsErrOf result RenamingFault.Bad → ⊥ }
{
    for (from, to) in entries.iter() {
        match renamer.set(space, *from, *to) {
            Ok(()) => {}
            Err(_) => return Err(RenamingFault::NoMemory),
        }
    }
    Ok(())
}

/// Sets what a value says of a space.
fn set_space(
    alloc: Global,
    renamer: &mut Renamer,
    space: Space,
    value: &Value,
) -> Result<(), RenamingFault>
    ensures ok { OnOk result
        (set_space renamer.old space (view value.now) ≡ Some renamer.new) }
    ensures counts { OnOk result (renamer.new.counts ≡ renamer.old.counts) }
    ensures bad { IsErrOf result RenamingFault.Bad
        → set_space renamer.old space (view value.now) ≡ None }
{
    match value.as_object() {
        Some(members) => match entries_of(alloc, members) {
            Ok(entries) => set_all(renamer, space, &entries),
            Err(fault) => Err(fault),
        },
        None => Err(RenamingFault::Bad),
    }
}

/// Sets what a member says.
fn set_member(
    alloc: Global,
    renamer: &mut Renamer,
    key: &str,
    value: &Value,
) -> Result<(), RenamingFault>
    ensures ok { OnOk result
        (set_member renamer.old key.now (view value.now) ≡ Some renamer.new) }
    ensures counts { OnOk result (renamer.new.counts ≡ renamer.old.counts) }
    ensures bad { IsErrOf result RenamingFault.Bad
        → set_member renamer.old key.now (view value.now) ≡ None }
{
    if key == "strict" {
        match value.as_bool() {
            Some(strict) => {
                renamer.set_strict(strict);
                Ok(())
            }
            None => Err(RenamingFault::Bad),
        }
    } else {
        match space_of(key) {
            Some(space) => set_space(alloc, renamer, space, value),
            None => Err(RenamingFault::Bad),
        }
    }
}

/// The renamer that members say.
fn renamer_of(alloc: Global, members: &Map<String, Value>) -> Result<Renamer, RenamingFault>
    ensures ok { IfOk result
        (λ r. set_members no_renaming (members_view members.now.entries) ≡ Some r) }
    ensures counts { IfOk result (λ r. r.counts ≡ replicate 19 0) }
    ensures bad { IsErrOf result RenamingFault.Bad
        → set_members no_renaming (members_view members.now.entries) ≡ None }
{
    let mut renamer = Renamer::new(alloc);
    for (key, value) in members.iter() {
        match set_member(alloc, &mut renamer, key.as_str(), value) {
            Ok(()) => {}
            Err(fault) => return Err(fault),
        }
    }
    Ok(renamer)
}

/// The renamer that a JSON text says: an object whose key `strict` has `true` or `false`, and whose other
/// keys are names of spaces, each with an object from indices to indices. An index is a number below 2^32,
/// as a key in decimal digits that do not begin with `0`, or `0`.
///
/// Of a key that stands twice the last value counts. It takes time that grows as n log n with the number
/// of entries, in whatever order they stand.
pub fn renaming_of(alloc: Global, text: &[u8]) -> Result<Renamer, RenamingFault>
    ensures ok { IfOk result (λ renamer. IsRenaming text.now renamer) }
    ensures counts { IfOk result (λ renamer. renamer.counts ≡ replicate 19 0) }
    ensures bad { IsErrOf result RenamingFault.Bad → NoRenaming text.now }
{
    let value = match Value::from_slice(alloc, text) {
        Ok(value) => value,
        Err(e) if e.is_memory() => return Err(RenamingFault::NoMemory),
        Err(_) => return Err(RenamingFault::Bad),
    };
    match value.as_object() {
        Some(members) => renamer_of(alloc, members),
        None => Err(RenamingFault::Bad),
    }
}
