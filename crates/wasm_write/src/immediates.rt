//! Immediates in their normal spelling.
ghost use Rattle.std.specs.Prelude.{◌≡◌, ◌++◌, ◌∷◌, ◌+◌, ◌<◌, take, vec_len, OnOk, OnErr, IsSome};
ghost use Rattle.wasm_leb.specs.Leb.{leb};
ghost use Rattle.wasm_shapes.specs.Tree.{Tree, normal};
ghost use Rattle.wasm_shapes.specs.Fits.{InRange};
ghost use Rattle.wasm_shapes.specs.Types.{cast_flags};
ghost use Rattle.wasm_write.specs.Types.{heap_type_tree};
ghost use Rattle.wasm_write.specs.Instructions.{imm_kind, imm_tree, block_type_tree, targets_tree, cast_tree, catch_tree, handle_tree};

use crate::fault::WriteFault;
use crate::types::{BlockType, Catch, Handle, HeapType, Imm, MemArg, RefType};
use crate::value_types::{write_byte, write_heap_type, write_marked, write_val_type};
use crate::vectors::{InCode, ItemOf, write_list};
use wasm_leb::{NoMemory, write_index, write_s32, write_s64, write_u32, write_u64};

/// A label.
impl ItemOf<InCode> for u32 {
    ghost use Rattle.wasm_write.specs.Instructions.{label_tree};

    ghost tree = { label_tree };

    fn write(&self, out: &mut Vec<u8>) -> Result<(), WriteFault> {
        match write_u32(out, *self) {
            Ok(()) => Ok(()),
            Err(NoMemory) => Err(WriteFault::NoMemory),
        }
    }
}

impl ItemOf<InCode> for Catch {
    ghost use Rattle.wasm_write.specs.Instructions.{catch_tree};

    ghost tree = { catch_tree };

    fn write(&self, out: &mut Vec<u8>) -> Result<(), WriteFault> {
        match write_catch(out, *self) {
            Ok(()) => Ok(()),
            Err(NoMemory) => Err(WriteFault::NoMemory),
        }
    }
}

impl ItemOf<InCode> for Handle {
    ghost use Rattle.wasm_write.specs.Instructions.{handle_tree};

    ghost tree = { handle_tree };

    fn write(&self, out: &mut Vec<u8>) -> Result<(), WriteFault> {
        match write_handler(out, *self) {
            Ok(()) => Ok(()),
            Err(NoMemory) => Err(WriteFault::NoMemory),
        }
    }
}

/// Appends a byte and two numbers, or a part of them where memory runs out.
fn write_pair(out: &mut Vec<u8>, byte: u8, first: u32, second: u32) -> Result<(), NoMemory>
    ensures ok { OnOk result (out.new.items ≡ out.old.items ++ (byte ∷ (leb first ++ leb second))) }
    ensures err { OnErr result (take (vec_len out.old) out.new.items ≡ out.old.items) }
{
    match write_marked(out, byte, first) {
        Ok(()) => write_u32(out, second),
        Err(NoMemory) => Err(NoMemory),
    }
}

/// Appends what a block catches, or a part of it where memory runs out.
fn write_catch(out: &mut Vec<u8>, catch: Catch) -> Result<(), NoMemory>
    ensures ok { OnOk result (out.new.items ≡ out.old.items ++ normal (catch_tree catch)) }
    ensures in_range { OnOk result (InRange (catch_tree catch)) }
    ensures err { OnErr result (take (vec_len out.old) out.new.items ≡ out.old.items) }
{
    match catch {
        Catch::One { tag, label } => write_pair(out, 0x00, tag, label),
        Catch::OneRef { tag, label } => write_pair(out, 0x01, tag, label),
        Catch::All { label } => write_marked(out, 0x02, label),
        Catch::AllRef { label } => write_marked(out, 0x03, label),
    }
}

/// Appends a handler, or a part of it where memory runs out.
fn write_handler(out: &mut Vec<u8>, handler: Handle) -> Result<(), NoMemory>
    ensures ok { OnOk result (out.new.items ≡ out.old.items ++ normal (handle_tree handler)) }
    ensures in_range { OnOk result (InRange (handle_tree handler)) }
    ensures err { OnErr result (take (vec_len out.old) out.new.items ≡ out.old.items) }
{
    match handler {
        Handle::OnLabel { tag, label } => write_pair(out, 0x00, tag, label),
        Handle::OnSwitch { tag } => write_marked(out, 0x01, tag),
    }
}

/// Appends the type of a block, or a part of it where memory runs out.
fn write_block_type(out: &mut Vec<u8>, ty: BlockType) -> Result<(), NoMemory>
    ensures ok { OnOk result (out.new.items ≡ out.old.items ++ normal (block_type_tree ty)) }
    ensures in_range { OnOk result (InRange (block_type_tree ty)) }
    ensures err { OnErr result (take (vec_len out.old) out.new.items ≡ out.old.items) }
{
    match ty {
        BlockType::Empty => write_byte(out, 0x40),
        BlockType::Result(ty) => write_val_type(out, ty),
        BlockType::FunctionType(index) => write_index(out, index),
    }
}

/// Appends labels and the default one, or a part of them where memory runs out.
fn write_targets(out: &mut Vec<u8>, targets: &[u32], default: u32) -> Result<(), NoMemory>
    ensures ok { OnOk result
        (out.new.items ≡ out.old.items ++ normal (targets_tree targets.now default)) }
    ensures in_range { OnOk result (InRange (targets_tree targets.now default)) }
    ensures err { OnErr result (take (vec_len out.old) out.new.items ≡ out.old.items) }
{
    match write_list(out, targets) {
        Ok(()) => write_u32(out, default),
        Err(NoMemory) => Err(NoMemory),
    }
}

/// Appends the flags, the memory and the offset of a memory access, or a part of them where memory runs out.
/// The memory is left out where it is 0.
fn write_mem_arg(out: &mut Vec<u8>, arg: MemArg) -> Result<(), NoMemory>
    ensures ok { OnOk result
        (out.new.items ≡ out.old.items ++ normal (Tree.mem arg.align arg.memory arg.offset)) }
    ensures in_range { OnOk result (InRange (Tree.mem arg.align arg.memory arg.offset)) }
    ensures err { OnErr result (take (vec_len out.old) out.new.items ≡ out.old.items) }
{
    if arg.memory == 0 {
        match write_u32(out, u32::from(arg.align)) {
            Ok(()) => write_u64(out, arg.offset),
            Err(NoMemory) => Err(NoMemory),
        }
    } else {
        write_far_mem_arg(out, arg)
    }
}

/// Appends the flags, the memory and the offset of a memory access, or a part of them where memory runs out.
fn write_far_mem_arg(out: &mut Vec<u8>, arg: MemArg) -> Result<(), NoMemory>
    ensures ok { OnOk result
        (out.new.items ≡ out.old.items
        ++ (leb (arg.align + 64) ++ (leb arg.memory ++ leb arg.offset))) }
    ensures err { OnErr result (take (vec_len out.old) out.new.items ≡ out.old.items) }
{
    match write_u32(out, u32::from(arg.align) + 64) {
        Ok(()) => {}
        Err(NoMemory) => return Err(NoMemory),
    }
    match write_u32(out, arg.memory) {
        Ok(()) => write_u64(out, arg.offset),
        Err(NoMemory) => Err(NoMemory),
    }
}

/// The byte that says which references of a cast may be null.
fn flags_of(from: bool, to: bool) -> u8
    ensures value { result ≡ cast_flags from to }
    ensures range { result < 4 }
{
    match (from, to) {
        (false, false) => 0,
        (true, false) => 1,
        (false, true) => 2,
        (true, true) => 3,
    }
}

/// Appends two heap types, or a part of them where memory runs out.
fn write_heap_types(out: &mut Vec<u8>, from: HeapType, to: HeapType) -> Result<(), NoMemory>
    ensures ok { OnOk result
        (out.new.items ≡ out.old.items
        ++ normal (Tree.pair (heap_type_tree from) (heap_type_tree to))) }
    ensures in_range { OnOk result (InRange (Tree.pair (heap_type_tree from) (heap_type_tree to))) }
    ensures err { OnErr result (take (vec_len out.old) out.new.items ≡ out.old.items) }
{
    match write_heap_type(out, from) {
        Ok(()) => write_heap_type(out, to),
        Err(NoMemory) => Err(NoMemory),
    }
}

/// Appends the flags, the label and the heap types of a cast, or a part of them where memory runs out.
fn write_cast(out: &mut Vec<u8>, label: u32, from: RefType, to: RefType) -> Result<(), NoMemory>
    ensures ok { OnOk result (out.new.items ≡ out.old.items ++ normal (cast_tree label from to)) }
    ensures in_range { OnOk result (InRange (cast_tree label from to)) }
    ensures err { OnErr result (take (vec_len out.old) out.new.items ≡ out.old.items) }
{
    match write_byte(out, flags_of(from.nullable, to.nullable)) {
        Ok(()) => {}
        Err(NoMemory) => return Err(NoMemory),
    }
    match write_u32(out, label) {
        Ok(()) => write_heap_types(out, from.heap_type, to.heap_type),
        Err(NoMemory) => Err(NoMemory),
    }
}

/// Appends bytes, or nothing.
#[inline(always)]
pub(crate) fn write_bytes(out: &mut Vec<u8>, bytes: &[u8]) -> Result<(), NoMemory>
    ensures ok { OnOk result (out.new.items ≡ out.old.items ++ bytes.now) }
    ensures err { OnErr result (out.new.items ≡ out.old.items) }
{
    match out.extend_from_slice(bytes) {
        Ok(()) => Ok(()),
        Err(_) => Err(NoMemory),
    }
}

/// Appends an immediate, or a part of it where memory runs out. The commonest are written in line.
#[inline(always)]
pub(crate) fn write_imm(out: &mut Vec<u8>, imm: &Imm<'_>) -> Result<(), NoMemory>
    requires { IsSome (imm_kind imm.now) }
    ensures ok { OnOk result (out.new.items ≡ out.old.items ++ normal (imm_tree imm.now)) }
    ensures in_range { OnOk result (InRange (imm_tree imm.now)) }
    ensures err { OnErr result (take (vec_len out.old) out.new.items ≡ out.old.items) }
{
    match imm {
        Imm::Label(number) | Imm::Local(number) => write_u32(out, *number),
        Imm::Index(_, index) => write_u32(out, *index),
        Imm::S32(number) => write_s32(out, *number),
        _ => write_any_imm(out, imm),
    }
}

/// Appends an immediate, or a part of it where memory runs out. It stands apart, so that what is in line stays small.
#[inline(never)]
fn write_any_imm(out: &mut Vec<u8>, imm: &Imm<'_>) -> Result<(), NoMemory>
    requires { IsSome (imm_kind imm.now) }
    ensures ok { OnOk result (out.new.items ≡ out.old.items ++ normal (imm_tree imm.now)) }
    ensures in_range { OnOk result (InRange (imm_tree imm.now)) }
    ensures err { OnErr result (take (vec_len out.old) out.new.items ≡ out.old.items) }
{
    match imm {
        Imm::Block(ty) => write_block_type(out, *ty),
        Imm::Label(number) | Imm::Local(number) | Imm::Field(number) | Imm::Size(number) => {
            write_u32(out, *number)
        }
        Imm::Labels { targets, default } => write_targets(out, targets.as_slice(), *default),
        Imm::Index(_, index) => write_u32(out, *index),
        Imm::Types(types) => write_list(out, types.as_slice()),
        Imm::Mem(arg) => write_mem_arg(out, *arg),
        Imm::S32(number) => write_s32(out, *number),
        Imm::S64(number) => write_s64(out, *number),
        Imm::Four(bits) => write_bytes(out, &bits.0.to_le_bytes()),
        Imm::Eight(bits) => write_bytes(out, &bits.0.to_le_bytes()),
        Imm::Sixteen(bytes) | Imm::Lanes(bytes) => write_bytes(out, bytes),
        Imm::Lane(byte) => write_byte(out, *byte),
        Imm::Heap(ty) => write_heap_type(out, *ty),
        Imm::Catches(catches) => write_list(out, catches.as_slice()),
        Imm::Cast { label, from, to } => write_cast(out, *label, *from, *to),
        Imm::Handlers(handlers) => write_list(out, handlers.as_slice()),
        Imm::Zero => write_byte(out, 0x00),
    }
}
