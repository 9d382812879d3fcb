//! Values that are put together by calls that no mapping makes, and what is asked of them; what is written stands against bytes
//! that were spelled by hand from the grammar.
use reencode_hooks::Error;
use std::alloc::Global;
use std::convert::Infallible;
use wasm_leb::{List, NoMemory};
use wasm_read::UnpackedIndex;
use wasm_shapes::{CALL, Opcode, Space};
use wasm_write::{
    CodeSection, CustomSection, Function, FunctionSection, Imm, Instruction, MemorySection,
    MemoryType, Module, TagKind, TagSection, TagType,
};
use wasm_write_component::{Component, ModuleSection};

/// Each call on a list.
fn lists(alloc: Global) -> Result<[bool; 6], NoMemory> {
    let mut names: List<&str> = List::new(alloc);
    let is_empty = names.is_empty();
    names.push("first")?;
    names.push("second")?;
    let has_two = names.len() == 2;
    let has_second = names.get(1) == Some(&"second");
    let has_no_third = names.get(2).is_none();
    let again = List::from_vec(names.into_vec());
    let is_same = again.as_slice() == ["first", "second"].as_slice();
    let with_room = List::<u8>::with_capacity(alloc, 4)?;
    Ok([
        is_empty,
        has_two,
        has_second,
        has_no_third,
        is_same,
        with_room.is_empty(),
    ])
}

#[test]
fn calls_on_lists(rt: HostRuntime) {
    assert_eq!(rt; lists(rt.alloc()), Ok([true; 6]));
}

#[test]
fn indices_of_groups(rt: HostRuntime) {
    assert_eq!(rt; UnpackedIndex::Module(3).as_module_index(), Some(3));
    assert_eq!(rt; UnpackedIndex::RecGroup(3).as_module_index(), None);
}

type Made<T> = Result<T, Error<Infallible>>;

const MEMORY: MemoryType = MemoryType {
    memory64: false,
    shared: true,
    minimum: 1,
    maximum: Some(200),
    page_size_log2: Some(0),
};

/// Adds a function, a memory and a tag, each as a section.
fn add_rows(alloc: Global, module: &mut Module) -> Made<()> {
    let mut functions = FunctionSection::new(alloc);
    functions.function(7)?;
    module.section(&functions)?;
    let mut memories = MemorySection::new(alloc);
    memories.memory(MEMORY)?;
    module.section(&memories)?;
    let mut tags = TagSection::new(alloc);
    tags.tag(TagType {
        kind: TagKind::Exception,
        func_type_idx: 128,
    })?;
    Ok(module.section(&tags)?)
}

/// The module of these.
const ROWS: &[u8] =
    b"\0asm\x01\0\0\0\x03\x02\x01\x07\x05\x06\x01\x0b\x01\xc8\x01\0\x0d\x04\x01\0\x80\x01";

#[test]
fn rows(rt: HostRuntime) -> Made<()> {
    let mut module = Module::new(rt.alloc(), 9)?;
    add_rows(rt.alloc(), &mut module)?;
    assert_eq!(rt; (module.ceiling(), module.len()), (9, 3));
    assert_eq!(rt; module.section_at(0), Some((3, b"\x01\x07".as_slice())));
    assert_eq!(rt; module.section_at(3), None);
    assert!(rt; module.finish().as_slice() == ROWS);
    Ok(())
}

#[test]
fn bodies(rt: HostRuntime) -> Made<()> {
    let mut code = CodeSection::new(rt.alloc(), 1);
    code.function(&Function::new(rt.alloc(), &List::new(rt.alloc()))?)?;
    assert_eq!(rt; code.body(0), Some(b"\0".as_slice()));
    assert_eq!(rt; code.body(1), None);
    Ok(())
}

/// The operator's number and how many immediates it has, where the immediate is one of its kind.
fn told(
    alloc: Global,
    opcode: Opcode,
    imm: Imm<'static>,
) -> Result<Option<(Opcode, usize)>, NoMemory> {
    let mut imms = List::new(alloc);
    imms.push(imm)?;
    match Instruction::new(opcode, imms) {
        Some(instruction) => Ok(Some((instruction.opcode(), instruction.imms().len()))),
        None => Ok(None),
    }
}

#[test]
fn instructions(rt: HostRuntime) -> Made<()> {
    for (imm, want) in [
        (Imm::Index(Space::Function, 300), Some((CALL, 1))),
        (Imm::Local(0), None),
        (Imm::Index(Space::Component, 0), None),
    ] {
        assert_eq!(rt; told(rt.alloc(), CALL, imm)?, want);
    }
    Ok(())
}

#[test]
fn a_nested_module_is_too_large(rt: HostRuntime) -> Made<()> {
    let module = Module::new(rt.alloc(), 10)?;
    let mut component = Component::new(rt.alloc(), 7)?;
    assert!(rt; component.section(&ModuleSection(&module)).is_err());
    assert_eq!(rt; (component.ceiling(), component.len()), (7, 0));
    Ok(())
}

/// A custom section whose contents are so many zeros.
fn zeros(len: usize) -> &'static [u8] {
    const ZEROS: [u8; 300] = [0; 300];
    &ZEROS[..len.min(300)]
}

/// A component with a module that has so many zeros in a custom section, within a component.
fn nested(alloc: Global, len: usize) -> Made<Vec<u8>> {
    let mut outer = Component::new(alloc, 1000)?;
    let mut inner = outer.component_within(alloc, len)?;
    let mut module = inner.module_within(alloc, len)?;
    module.section(&CustomSection {
        name: "x",
        contents: zeros(len),
    })?;
    inner.take_module(module)?;
    outer.take_component(inner)?;
    Ok(outer.finish())
}

/// The bytes in front of the zeros: sizes of one byte, and of two.
const SHORT: &[u8] =
    b"\0asm\x0d\0\x01\0\x04\x17\0asm\x0d\0\x01\0\x01\x0d\0asm\x01\0\0\0\0\x03\x01x";

const LONG: &[u8] =
    b"\0asm\x0d\0\x01\0\x04\xc4\x02\0asm\x0d\0\x01\0\x01\xb9\x02\0asm\x01\0\0\0\0\xae\x02\x01x";

#[test]
fn nested_binaries_are_taken(rt: HostRuntime) -> Made<()> {
    for (len, front) in [(1, SHORT), (300, LONG)] {
        let bytes = nested(rt.alloc(), len)?;
        assert_eq!(rt; bytes.len(), front.len() + len);
        assert!(rt; bytes.starts_with(front));
        assert!(rt; bytes.ends_with(zeros(len)));
    }
    Ok(())
}
