//! The subsections of a name section (WebAssembly Core Specification 3.0, section 7.4.1).
ghost use Rattle.std.specs.Prelude.{◌≡◌, ◌≤◌, IfErr, IsTrue, OnErr, OnOk, length, true};
ghost use Rattle.wasm_shapes.specs.Namings.{names_tree};
ghost use Rattle.wasm_shapes.specs.Tree.{normal};
ghost use Rattle.wasm_shapes.specs.Types.{is_core, vector_tree};
ghost use Rattle.wasm_read.specs.declared.types.Name.{Name};
ghost use Rattle.wasm_read.specs.Subsections.{Content, IsRaw, content_of};
ghost use Rattle.wasm_write.specs.Bodies.{with_row};
ghost use Rattle.wasm_write.specs.Faults.{IfTooLarge};
ghost use Rattle.wasm_write.specs.Names.{PassesCeiling};
ghost use Rattle.reencode_hooks.specs.Run.{ask};
ghost use Rattle.reencode_core.specs.Bodies.{KeepsCode};
ghost use Rattle.reencode_core.specs.Clauses.{SubsectionClauses};
ghost use Rattle.reencode_core.specs.Leaves.{LeavesMade, subsection_in};
ghost use Rattle.reencode_core.specs.Names.{GivesSubsection, IsIndirect, names_id, of_writer};

use crate::indices::ask_index;
use crate::names::{map_indirect_names, map_names};
use reencode_hooks::{Error, ReencodeIndices};
use std::alloc::Global;
use wasm_read as r;
use wasm_shapes::Space;
use wasm_write as w;

/// What a writer answered, as an answer of the reencoder.
pub fn written<E>(answer: Result<(), w::WriteFault>) -> Result<(), Error<E>>
    ensures { result ≡ of_writer answer }
{
    match answer {
        Ok(()) => Ok(()),
        Err(fault) => Err(Error::from(fault)),
    }
}

/// Adds the names of the indices of a space.
fn add_names(
    names: &mut w::NameSection,
    space: Space,
    map: &w::NameMap,
) -> Result<(), w::WriteFault>
    requires { is_core space ≡ true }
    ensures ok { OnOk result
        (names.new ≡ with_row names.old (names_tree (names_id space) space map.now)) }
    ensures fits { OnOk result (length (normal (vector_tree map.now)) ≤ names.old.ceiling) }
    ensures err { OnErr result (names.new ≡ names.old) }
    ensures large { IfErr result (λ e. IfTooLarge e
        (PassesCeiling names.old.ceiling (vector_tree map.now))) }
{
    match space {
        Space::Data => names.data_(map),
        Space::Element => names.elements(map),
        Space::Function => names.functions(map),
        Space::Global => names.globals(map),
        Space::Memory => names.memories(map),
        Space::Table => names.tables(map),
        Space::Tag => names.tags(map),
        Space::Type_ => names.types(map),
        _ => unreachable!(),
    }
}

/// Adds maps of names, by the indices of a space.
fn add_indirect_names(
    names: &mut w::NameSection,
    id: u8,
    space: Space,
    map: &w::IndirectNameMap,
) -> Result<(), w::WriteFault>
    requires { IsIndirect id space }
    ensures ok { OnOk result
        (names.new ≡ with_row names.old (names_tree id space map.now)) }
    ensures fits { OnOk result (length (normal (vector_tree map.now)) ≤ names.old.ceiling) }
    ensures err { OnErr result (names.new ≡ names.old) }
    ensures large { IfErr result (λ e. IfTooLarge e
        (PassesCeiling names.old.ceiling (vector_tree map.now))) }
{
    match id {
        2 => names.locals(map),
        3 => names.labels(map),
        _ => names.fields(map),
    }
}

/// Maps the names of the indices of a space and adds them.
fn parse_names<T: ReencodeIndices>(
    reencoder: &mut T,
    alloc: Global,
    names: &mut w::NameSection,
    space: Space,
    map: r::NameMap<'_>,
) -> Result<(), Error<T::Error>>
    requires { is_core space ≡ true }
    ensures kept { KeepsCode names.old names.new }
    ensures default { IsTrue T.keeps_defaults → (n : Name)
        → content_of n ≡ Content.direct (names_id space) space map.entry
        → GivesSubsection (ask T.reply T.next) n (reencoder.old, names.old)
        (reencoder.new, names.new) result }
    ensures after_error { IsTrue T.keeps_defaults → (n : Name)
        → content_of n ≡ Content.direct (names_id space) space map.entry
        → LeavesMade T.sure (ask T.reply T.next) (subsection_in n) reencoder.old reencoder.new result }
    ensures unchanged { IsTrue T.keeps_defaults → IfErr result (λ _. names.new ≡ names.old) }
{
    match map_names(
        alloc,
        map,
        &mut |index| { ask_index(reencoder, space, index) },
    ) {
        Ok(map) => written(add_names(names, space, &map)),
        Err(e) => Err(e),
    }
}

/// Maps the outer indices of maps of names, which are of a space, and adds the maps.
fn parse_indirect_names<T: ReencodeIndices>(
    reencoder: &mut T,
    alloc: Global,
    names: &mut w::NameSection,
    id: u8,
    space: Space,
    map: r::IndirectNameMap<'_>,
) -> Result<(), Error<T::Error>>
    requires { IsIndirect id space }
    ensures kept { KeepsCode names.old names.new }
    ensures default { IsTrue T.keeps_defaults → (n : Name)
        → content_of n ≡ Content.indirect id space map.entry
        → GivesSubsection (ask T.reply T.next) n (reencoder.old, names.old)
        (reencoder.new, names.new) result }
    ensures after_error { IsTrue T.keeps_defaults → (n : Name)
        → content_of n ≡ Content.indirect id space map.entry
        → LeavesMade T.sure (ask T.reply T.next) (subsection_in n) reencoder.old reencoder.new result }
    ensures unchanged { IsTrue T.keeps_defaults → IfErr result (λ _. names.new ≡ names.old) }
{
    match map_indirect_names(
        alloc,
        map,
        &mut |index| { ask_index(reencoder, space, index) },
    ) {
        Ok(map) => written(add_indirect_names(names, id, space, &map)),
        Err(e) => Err(e),
    }
}

/// Maps a name subsection and adds it. The indices of a map are mapped by the hook of their space; of an indirect map the
/// outer indices alone are mapped. A `ParseError` holds the place in the map behind the entries that were accepted.
pub fn parse_custom_name_subsection<T: ReencodeIndices>(
    reencoder: &mut T,
    alloc: Global,
    names: &mut w::NameSection,
    section: r::Name<'_>,
) -> Result<(), Error<T::Error>>
    requires { IsRaw section }
    ensures { SubsectionClauses T.ReencodeIndices section.entry
        reencoder.old names.old reencoder.new names.new result }
{
    match section {
        r::Name::Module { name } => written(names.module(name)),
        r::Name::Function(map) => parse_names(reencoder, alloc, names, Space::Function, map),
        r::Name::Local(map) => parse_indirect_names(
            reencoder,
            alloc,
            names,
            2,
            Space::Function,
            map,
        ),
        r::Name::Label(map) => parse_indirect_names(
            reencoder,
            alloc,
            names,
            3,
            Space::Function,
            map,
        ),
        r::Name::Type_(map) => parse_names(reencoder, alloc, names, Space::Type_, map),
        r::Name::Table(map) => parse_names(reencoder, alloc, names, Space::Table, map),
        r::Name::Memory(map) => parse_names(reencoder, alloc, names, Space::Memory, map),
        r::Name::Global(map) => parse_names(reencoder, alloc, names, Space::Global, map),
        r::Name::Element(map) => parse_names(reencoder, alloc, names, Space::Element, map),
        r::Name::Data(map) => parse_names(reencoder, alloc, names, Space::Data, map),
        r::Name::Field(map) => parse_indirect_names(reencoder, alloc, names, 10, Space::Type_, map),
        r::Name::Tag(map) => parse_names(reencoder, alloc, names, Space::Tag, map),
        r::Name::Unknown { id, contents } => written(names.raw(id, contents)),
    }
}
