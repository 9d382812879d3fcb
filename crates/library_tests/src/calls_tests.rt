//! Calls that no other crate makes and no line of text shows, at a chain of a renamer and of a reencoder whose section hook adds a
//! section and refuses. Which others each method and its function ask is told by `part_methods`.
use crate::adding::Refusing;
use crate::examples_tests::ADDS;
use reencode_core::{Reencode, fault_tells, utils as sections};
use reencode_hooks::{
    Chain, ChainError, Error, ReencodeIndices, Renamer, RoundtripReencoder, frames_are_in_order,
    moments_are, utils as hooks, walk_is_passed, walk_is_run, walk_refuses, walk_stops,
    walk_visits,
};
use reencode_items::{ReencodeItems, utils};
use reencode_laws::{
    chain_is_both, chain_refuses, chained_walks, filled_keeps_leaves, filled_keeps_parts,
    filled_twice, own_answers, own_is_normal, own_is_not_longer, scopes_are_bracketed,
    section_visits_are,
};
use std::alloc::Global;
use wasm_leb::NoMemory;
use wasm_read as r;
use wasm_shapes::{SectionId, Space};
use wasm_write as w;

const MEMORY: r::MemoryType = r::MemoryType {
    memory64: false,
    shared: true,
    initial: 3,
    maximum: None,
    page_size_log2: Some(4),
};

const WRITTEN_MEMORY: w::MemoryType = w::MemoryType {
    memory64: false,
    shared: true,
    minimum: 3,
    maximum: None,
    page_size_log2: Some(4),
};

/// Kinds and numbers, which are no indices.
fn kinds<R: ReencodeItems>(of: &mut R) -> [bool; 6] {
    [
        utils::export_kind(of, r::ExternalKind::FuncExact) == w::ExportKind::Func,
        utils::abstract_heap_type(of, r::AbstractHeapType::Exn) == w::AbstractHeapType::Exn,
        utils::tag_kind(of, r::TagKind::Exception) == w::TagKind::Exception,
        utils::ordering(of, r::Ordering::AcqRel) == w::Ordering::AcqRel,
        utils::ieee32_arg(of, r::Ieee32(7)) == w::Ieee32(7),
        utils::ieee64_arg(of, r::Ieee64(7)) == w::Ieee64(7),
    ]
}

/// The type of a memory, and an order by its method.
fn memories<R: ReencodeItems>(of: &mut R) -> Result<[bool; 2], Error<R::Error>> {
    Ok([
        utils::memory_type(of, MEMORY) == WRITTEN_MEMORY,
        of.ordering(r::Ordering::AcqRel)? == w::Ordering::AcqRel,
    ])
}

/// Indices by themselves.
fn indices<R: ReencodeItems>(of: &mut R) -> Result<[bool; 2], Error<R::Error>> {
    Ok([
        utils::type_index_unpacked(of, r::UnpackedIndex::Module(1))? == 11,
        utils::external_index(of, r::ExternalKind::FuncExact, 2)? == 22,
    ])
}

/// Indices in parts of immediates.
fn parts<R: ReencodeItems>(of: &mut R) -> Result<[bool; 3], Error<R::Error>> {
    let access = r::MemArg {
        align: 2,
        memory: 0,
        offset: 8,
    };
    let access = utils::mem_arg(of, access)?;
    let catch = utils::catch(of, r::Catch::One { tag: 3, label: 3 })?;
    let handle = utils::handle(of, r::Handle::OnLabel { tag: 3, label: 3 })?;
    Ok([
        access.memory == 10,
        catch == w::Catch::One { tag: 33, label: 3 },
        handle == w::Handle::OnLabel { tag: 33, label: 3 },
    ])
}

/// Whether an index inside a recursion group, which no bytes spell, is refused.
fn is_lost<R: ReencodeItems>(of: &mut R) -> bool
where
    R::Error: Drop,
{
    let lost = r::HeapType::Concrete(r::UnpackedIndex::RecGroup(0));
    let result = of.heap_type(lost);
    matches!(result, Err(Error::CanonicalizedHeapTypeReference))
}

/// Whether the contents of a custom section are those that are read.
fn is_kept<R: Reencode>(of: &mut R) -> bool {
    let section = r::CustomSection {
        name: "x",
        contents: &[0xff],
    };
    let kept = sections::custom_section(of, section);
    kept.name == "x" && kept.contents == [0xffu8].as_slice()
}

/// Whether of the items of a compact import those are mapped that its reader still has.
fn is_left<R: Reencode>(of: &mut R, alloc: Global) -> Result<bool, Error<R::Error>> {
    let mut items = r::CompactItems::new(&[0x02, 0x01, 0x62, 0x00, 0x05, 0x01, 0x63, 0x00, 0x01])?;
    let taken = items.next();
    let row = r::Imports::Compact1 { module: "a", items };
    let mut imports = w::ImportSection::new(alloc);
    of.parse_imports(alloc, &mut imports, row)?;
    let left = [0x01u8, 0x61, 0x00, 0x7f, 0x01, 0x01, 0x63, 0x00, 0x0b];
    Ok(taken.is_some() && imports.as_slice() == left.as_slice())
}

/// The answers of the hooks by default, which are the indices.
fn hooked<R: ReencodeIndices>(of: &mut R) -> [u32; 8] {
    [
        hooks::data_index(of, 1),
        hooks::element_index(of, 2),
        hooks::function_index(of, 4),
        hooks::global_index(of, 8),
        hooks::memory_index(of, 16),
        hooks::table_index(of, 32),
        hooks::tag_index(of, 64),
        hooks::type_index(of, 128),
    ]
}

/// How many sections a module has once both section hooks were asked by default.
fn added<R: ReencodeIndices>(of: &mut R, module: &mut w::Module) -> Result<usize, Error<R::Error>> {
    hooks::intersperse_section_hook(of, module, Some(SectionId::Code), None)?;
    hooks::close_section_hook(of, module, SectionId::Code)?;
    Ok(module.len())
}

/// The laws of walks, and of two reencoders in a chain.
fn laws<R: ReencodeIndices>(of: &R) {
    walk_is_passed(of);
    walk_is_run(of);
    walk_stops(of);
    walk_refuses(of);
    walk_visits(of);
    fault_tells(of);
    chain_is_both(of, of);
    chain_refuses(of, of);
    chained_walks(of, of);
}

/// The laws that no reencoder is handed to but the one that changes nothing.
#[test]
fn laws_of_trees(_rt: HostRuntime) {
    moments_are();
    frames_are_in_order();
    own_answers(&RoundtripReencoder);
    own_is_normal();
    own_is_not_longer();
    filled_keeps_parts();
    filled_keeps_leaves();
    filled_twice();
    section_visits_are();
    scopes_are_bracketed();
}

/// The answers of all hooks, where the section hooks accept.
fn asked<R: ReencodeIndices>(
    of: &mut R,
    module: &mut w::Module,
) -> Result<[u32; 9], Error<R::Error>> {
    of.intersperse_section_hook(module, None, Some(SectionId::Type_))?;
    of.close_section_hook(module, SectionId::Type_)?;
    Ok([
        of.data_index(1)?,
        of.element_index(2)?,
        of.function_index(4)?,
        of.global_index(8)?,
        of.memory_index(16)?,
        of.table_index(32)?,
        of.tag_index(64)?,
        of.type_index(128)?,
        of.data_count(256)?,
    ])
}

/// What these calls answer.
#[derive(Clone, Copy, PartialEq, Debug)]
struct Answered {
    kinds: [bool; 6],
    memories: [bool; 2],
    indices: [bool; 2],
    parts: [bool; 3],
    is_lost: bool,
    is_kept: bool,
    is_left: bool,
    hooked: [u32; 8],
    added: usize,
    asked: [u32; 9],
}

/// All of them. To hand a reencoder to a function of any costs its check some twenty seconds, so this is done once.
fn answers<R: Reencode>(
    of: &mut R,
    alloc: Global,
    module: &mut w::Module,
) -> Result<Answered, Error<R::Error>>
where
    R::Error: Drop,
{
    laws(&*of);
    Ok(Answered {
        kinds: kinds(of),
        memories: memories(of)?,
        indices: indices(of)?,
        parts: parts(of)?,
        is_lost: is_lost(of),
        is_kept: is_kept(of),
        is_left: is_left(of, alloc)?,
        hooked: hooked(of),
        asked: asked(of, module)?,
        added: added(of, module)?,
    })
}

/// The same, and how the module of two numbers is mapped into a module that has sections.
fn answers_and_module<R: Reencode>(
    of: &mut R,
    alloc: Global,
    module: &mut w::Module,
) -> (
    Result<Answered, Error<R::Error>>,
    Result<(), Error<R::Error>>,
)
where
    R::Error: Drop,
{
    let answered = answers(of, alloc, module);
    let _ = module.section(&w::StartSection { function_index: 0 });
    (answered, of.parse_core_module(alloc, module, ADDS))
}

/// A renamer that makes type 1 type 11, function 2 function 22, memory 0 memory 10 and tag 3 tag 33, and adds 1000 to other indices,
/// one of each space, and 2000 to function 4.
fn renamer(alloc: Global) -> Result<Renamer, NoMemory> {
    let mut renamer = Renamer::new(alloc);
    for (space, from, to) in [
        (Space::Type_, 1u32, 11u32),
        (Space::Function, 2, 22),
        (Space::Memory, 0, 10),
        (Space::Tag, 3, 33),
        (Space::Data, 1, 1001),
        (Space::Element, 2, 1002),
        (Space::Function, 4, 2004),
        (Space::Global, 8, 1008),
        (Space::Memory, 16, 1016),
        (Space::Table, 32, 1032),
        (Space::Tag, 64, 1064),
        (Space::Type_, 128, 1128),
        (Space::DataCount, 256, 1256),
    ] {
        renamer.set(space, from, to)?;
    }
    Ok(renamer)
}

/// What they answer.
const RIGHT: Answered = Answered {
    kinds: [true; 6],
    memories: [true; 2],
    indices: [true; 2],
    parts: [true; 3],
    is_lost: true,
    is_kept: true,
    is_left: true,
    hooked: [1, 2, 4, 8, 16, 32, 64, 128],
    added: 0,
    asked: [1001, 1002, 2004, 1008, 1016, 1032, 1064, 1128, 1256],
};

/// A start section, and what stands before the code in the module of two numbers, with the custom section `x` behind it.
const HELD: &[u8] =
    b"\0asm\x01\0\0\0\x08\x01\0\x01\x07\x01\x60\x02\x7f\x7f\x01\x7f\x03\x02\x01\0\x07\x05\x01\x01f\0\0\0\x02\x01x";

/// A refused section hook leaves what was added in it.
#[test]
fn calls_answer(rt: HostRuntime) -> Result<(), NoMemory> {
    let mut chain = Chain::new(renamer(rt.alloc())?, Refusing);
    let mut module = w::Module::new(rt.alloc(), 9)?;
    let (answered, mapped) = answers_and_module(&mut chain, rt.alloc(), &mut module);
    assert_eq!(rt; answered.ok(), Some(RIGHT));
    let is_refused = matches!(
        mapped,
        Err(Error::UserError(ChainError::Second(SectionId::Code)))
    );
    assert!(rt; is_refused);
    assert!(rt; module.as_slice() == HELD);
    Ok(())
}
