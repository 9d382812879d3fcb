//! The immediates of operators at the front of some bytes.
ghost use Rattle.std.specs.Prelude.{◌≡◌, ◌<◌, ◌∷◌, [], length, map, Some, IfOk, IfSome, IfNone, true};
ghost use Rattle.wasm_shapes.specs.Place.{Begins, BeginsNone};
ghost use Rattle.wasm_shapes.specs.Shape.{Shape, block_type, shape_of_kind, shape_of_kinds};
ghost use Rattle.wasm_shapes.specs.Tree.{Tree};
ghost use Rattle.wasm_shapes.specs.Operators.{code_of};
ghost use Rattle.wasm_shapes.specs.Types.{cast_flags};
ghost use Rattle.wasm_read.specs.Types.{heap_type_tree};
ghost use Rattle.wasm_read.specs.Immediates.{block_type_tree, IsBehind, imm_tree, imms_tree, imm_kind, is_core};
ghost use Rattle.wasm_read.specs.Operations.{BeginsCode, BeginsNoCode, is_core_kind, AreCore};

use crate::types::{
    BlockType, Catch, Handle, HeapType, Ieee32, Ieee64, Imm, MemArg, RefType, ValType,
};
use crate::value_types::{front_heap_type, front_val_type};
use crate::vector_items::{behind_vec, front_vec};
use std::alloc::Global;
use wasm_leb::{List, NoMemory, front_byte, front_s32, front_s64, front_u32, front_u64};
use wasm_shapes::{ImmKind, Opcode, Space};

/// The number of an operator at the front of some bytes, and the bytes behind it: one byte, or a byte from `fb` to `fe`
/// and a u32.
pub fn front_opcode(bytes: &[u8]) -> Option<(Opcode, &[u8])>
    ensures some { IfSome result (λ r. BeginsCode bytes.now (code_of r.0) r.1.now) }
    ensures none { IfNone result (BeginsNoCode bytes.now) }
{
    let Some((first, rest)) = front_byte(bytes) else {
        return None;
    };
    if first < 0xfb || 0xfe < first {
        let sub = u32::from(first);
        return Some((Opcode { prefix: 0, sub }, rest));
    }
    match front_u32(rest) {
        Some((sub, rest)) => Some((Opcode { prefix: first, sub }, rest)),
        None => None,
    }
}

/// The immediate of a kind at the front of some bytes, and the bytes behind it.
fn front_imm<'a>(
    alloc: Global,
    kind: ImmKind,
    bytes: &'a [u8],
) -> Result<Option<(Imm<'a>, &'a [u8])>, NoMemory>
    requires { is_core_kind kind ≡ true }
    ensures some { IfOk result (λ o. IfSome o (λ r.
        Begins (shape_of_kind kind) bytes.now (imm_tree r.0) r.1.now)) }
    ensures kind { IfOk result (λ o. IfSome o (λ r. imm_kind r.0 ≡ Some kind)) }
    ensures none { IfOk result (λ o. IfNone o (BeginsNone (shape_of_kind kind) bytes.now)) }
{
    match kind {
        ImmKind::Block => Ok(front_block(bytes)),
        ImmKind::Label => Ok(front_label(bytes)),
        ImmKind::Labels => front_labels(alloc, bytes),
        ImmKind::Index(space) => Ok(front_index(space, bytes)),
        ImmKind::Local => Ok(front_local(bytes)),
        ImmKind::Field => Ok(front_field(bytes)),
        ImmKind::Size => Ok(front_size(bytes)),
        ImmKind::Types => front_types(alloc, bytes),
        ImmKind::Mem => Ok(front_mem(bytes)),
        ImmKind::S32 => Ok(front_s32_imm(bytes)),
        ImmKind::S64 => Ok(front_s64_imm(bytes)),
        ImmKind::Four => Ok(front_four(bytes)),
        ImmKind::Eight => Ok(front_eight(bytes)),
        ImmKind::Sixteen => Ok(front_sixteen(bytes)),
        ImmKind::Lanes => Ok(front_lanes(bytes)),
        ImmKind::Lane => Ok(front_lane(bytes)),
        ImmKind::Heap => Ok(front_heap(bytes)),
        ImmKind::Catches => front_catches(alloc, bytes),
        ImmKind::Cast => Ok(front_cast(bytes)),
        ImmKind::Handlers => front_handlers(alloc, bytes),
        ImmKind::Zero => Ok(front_zero(bytes)),
    }
}

/// The type of a block at the front of some bytes, and the bytes behind it.
fn front_block_type(bytes: &[u8]) -> Option<(BlockType, &[u8])>
    ensures some { IfSome result (λ r.
        Begins block_type bytes.now (block_type_tree r.0) r.1.now) }
    ensures none { IfNone result (BeginsNone block_type bytes.now) }
{
    let Some((first, rest)) = front_byte(bytes) else {
        return None;
    };
    if first == 0x40 {
        return Some((BlockType::Empty, rest));
    }
    match front_val_type(bytes) {
        Some((ty, rest)) => Some((BlockType::Type_(ty), rest)),
        None => match wasm_leb::front_index(bytes) {
            Some((index, rest)) => Some((BlockType::FuncType(index), rest)),
            None => None,
        },
    }
}

/// The type of a block.
#[inline(always)]
fn front_block<'a>(bytes: &'a [u8]) -> Option<(Imm<'a>, &'a [u8])>
    ensures some { IfSome result (λ r.
        Begins (shape_of_kind ImmKind.Block) bytes.now (imm_tree r.0) r.1.now) }
    ensures kind { IfSome result (λ r. imm_kind r.0 ≡ Some ImmKind.Block) }
    ensures none { IfNone result (BeginsNone (shape_of_kind ImmKind.Block) bytes.now) }
{
    match front_block_type(bytes) {
        Some((ty, rest)) => Some((Imm::Block(ty), rest)),
        None => None,
    }
}

/// A heap type.
fn front_heap<'a>(bytes: &'a [u8]) -> Option<(Imm<'a>, &'a [u8])>
    ensures some { IfSome result (λ r.
        Begins (shape_of_kind ImmKind.Heap) bytes.now (imm_tree r.0) r.1.now) }
    ensures kind { IfSome result (λ r. imm_kind r.0 ≡ Some ImmKind.Heap) }
    ensures none { IfNone result (BeginsNone (shape_of_kind ImmKind.Heap) bytes.now) }
{
    match front_heap_type(bytes) {
        Some((ty, rest)) => Some((Imm::Heap(ty), rest)),
        None => None,
    }
}

/// A cast to another type: flags below 4, a label, and two heap types.
fn front_cast<'a>(bytes: &'a [u8]) -> Option<(Imm<'a>, &'a [u8])>
    ensures some { IfSome result (λ r.
        Begins (shape_of_kind ImmKind.Cast) bytes.now (imm_tree r.0) r.1.now) }
    ensures kind { IfSome result (λ r. imm_kind r.0 ≡ Some ImmKind.Cast) }
    ensures none { IfNone result (BeginsNone (shape_of_kind ImmKind.Cast) bytes.now) }
{
    let Some((flags, rest)) = front_byte(bytes) else {
        return None;
    };
    if flags >= 4 {
        return None;
    }
    let Some((label, rest)) = front_u32(rest) else {
        return None;
    };
    let Some((from, rest)) = front_heap_type(rest) else {
        return None;
    };
    match front_heap_type(rest) {
        Some((to, rest)) => Some((cast_of(flags, label, from, to), rest)),
        None => None,
    }
}

/// Which references of a cast may be null, by its flags.
fn nullable_of(flags: u8) -> (bool, bool)
    requires { flags < 4 }
    ensures { cast_flags result.0 result.1 ≡ flags }
{
    match flags {
        0 => (false, false),
        1 => (true, false),
        2 => (false, true),
        _ => (true, true),
    }
}

/// A cast, of its flags, its label and what its references point to.
fn cast_of<'a>(flags: u8, label: u32, from: HeapType, to: HeapType) -> Imm<'a>
    requires { flags < 4 }
    ensures tree { imm_tree result
        ≡ Tree.pair (Tree.byte flags) (Tree.pair (Tree.u32 label)
        (Tree.pair (heap_type_tree from) (heap_type_tree to))) }
    ensures kind { imm_kind result ≡ Some ImmKind.Cast }
{
    let nullable = nullable_of(flags);
    Imm::Cast {
        label,
        from: RefType {
            nullable: nullable.0,
            heap_type: from,
        },
        to: RefType {
            nullable: nullable.1,
            heap_type: to,
        },
    }
}

/// A label, by the number of blocks round it.
#[tactic(auto, using(wasm_shapes::proofs::Begins::begins_u32))]
fn front_label<'a>(bytes: &'a [u8]) -> Option<(Imm<'a>, &'a [u8])>
    ensures some { IfSome result (λ r.
        Begins (shape_of_kind ImmKind.Label) bytes.now (imm_tree r.0) r.1.now) }
    ensures kind { IfSome result (λ r. imm_kind r.0 ≡ Some ImmKind.Label) }
    ensures none { IfNone result (BeginsNone (shape_of_kind ImmKind.Label) bytes.now) }
{
    match front_u32(bytes) {
        Some((label, rest)) => Some((Imm::Label(label), rest)),
        None => None,
    }
}

/// An index of a space.
fn front_index<'a>(space: Space, bytes: &'a [u8]) -> Option<(Imm<'a>, &'a [u8])>
    requires { is_core space ≡ true }
    ensures some { IfSome result (λ r.
        Begins (shape_of_kind (ImmKind.Index space)) bytes.now (imm_tree r.0) r.1.now) }
    ensures kind { IfSome result (λ r. imm_kind r.0 ≡ Some (ImmKind.Index space)) }
    ensures none { IfNone result (BeginsNone (shape_of_kind (ImmKind.Index space)) bytes.now) }
{
    match front_u32(bytes) {
        Some((index, rest)) => Some((Imm::Index(space, index), rest)),
        None => None,
    }
}

/// The number of a local.
#[tactic(auto, using(wasm_shapes::proofs::Begins::begins_u32))]
fn front_local<'a>(bytes: &'a [u8]) -> Option<(Imm<'a>, &'a [u8])>
    ensures some { IfSome result (λ r.
        Begins (shape_of_kind ImmKind.Local) bytes.now (imm_tree r.0) r.1.now) }
    ensures kind { IfSome result (λ r. imm_kind r.0 ≡ Some ImmKind.Local) }
    ensures none { IfNone result (BeginsNone (shape_of_kind ImmKind.Local) bytes.now) }
{
    match front_u32(bytes) {
        Some((local, rest)) => Some((Imm::Local(local), rest)),
        None => None,
    }
}

/// The number of a field.
#[tactic(auto, using(wasm_shapes::proofs::Begins::begins_u32))]
fn front_field<'a>(bytes: &'a [u8]) -> Option<(Imm<'a>, &'a [u8])>
    ensures some { IfSome result (λ r.
        Begins (shape_of_kind ImmKind.Field) bytes.now (imm_tree r.0) r.1.now) }
    ensures kind { IfSome result (λ r. imm_kind r.0 ≡ Some ImmKind.Field) }
    ensures none { IfNone result (BeginsNone (shape_of_kind ImmKind.Field) bytes.now) }
{
    match front_u32(bytes) {
        Some((field, rest)) => Some((Imm::Field(field), rest)),
        None => None,
    }
}

/// The number of an array's elements.
#[tactic(auto, using(wasm_shapes::proofs::Begins::begins_u32))]
fn front_size<'a>(bytes: &'a [u8]) -> Option<(Imm<'a>, &'a [u8])>
    ensures some { IfSome result (λ r.
        Begins (shape_of_kind ImmKind.Size) bytes.now (imm_tree r.0) r.1.now) }
    ensures kind { IfSome result (λ r. imm_kind r.0 ≡ Some ImmKind.Size) }
    ensures none { IfNone result (BeginsNone (shape_of_kind ImmKind.Size) bytes.now) }
{
    match front_u32(bytes) {
        Some((size, rest)) => Some((Imm::Size(size), rest)),
        None => None,
    }
}

/// A number of 32 bits with sign.
#[tactic(auto, using(wasm_shapes::proofs::Begins::begins_s32))]
fn front_s32_imm<'a>(bytes: &'a [u8]) -> Option<(Imm<'a>, &'a [u8])>
    ensures some { IfSome result (λ r.
        Begins (shape_of_kind ImmKind.S32) bytes.now (imm_tree r.0) r.1.now) }
    ensures kind { IfSome result (λ r. imm_kind r.0 ≡ Some ImmKind.S32) }
    ensures none { IfNone result (BeginsNone (shape_of_kind ImmKind.S32) bytes.now) }
{
    match front_s32(bytes) {
        Some((number, rest)) => Some((Imm::S32(number), rest)),
        None => None,
    }
}

/// A number of 64 bits with sign.
#[tactic(auto, using(wasm_shapes::proofs::Begins::begins_s64))]
fn front_s64_imm<'a>(bytes: &'a [u8]) -> Option<(Imm<'a>, &'a [u8])>
    ensures some { IfSome result (λ r.
        Begins (shape_of_kind ImmKind.S64) bytes.now (imm_tree r.0) r.1.now) }
    ensures kind { IfSome result (λ r. imm_kind r.0 ≡ Some ImmKind.S64) }
    ensures none { IfNone result (BeginsNone (shape_of_kind ImmKind.S64) bytes.now) }
{
    match front_s64(bytes) {
        Some((number, rest)) => Some((Imm::S64(number), rest)),
        None => None,
    }
}

/// The number of a lane.
fn front_lane<'a>(bytes: &'a [u8]) -> Option<(Imm<'a>, &'a [u8])>
    ensures some { IfSome result (λ r.
        Begins (shape_of_kind ImmKind.Lane) bytes.now (imm_tree r.0) r.1.now) }
    ensures kind { IfSome result (λ r. imm_kind r.0 ≡ Some ImmKind.Lane) }
    ensures none { IfNone result (BeginsNone (shape_of_kind ImmKind.Lane) bytes.now) }
{
    match front_byte(bytes) {
        Some((lane, rest)) => Some((Imm::Lane(lane), rest)),
        None => None,
    }
}

/// The byte 0.
#[tactic(auto, using(crate::proofs::OfKinds::begins_zero))]
fn front_zero<'a>(bytes: &'a [u8]) -> Option<(Imm<'a>, &'a [u8])>
    ensures some { IfSome result (λ r.
        Begins (shape_of_kind ImmKind.Zero) bytes.now (imm_tree r.0) r.1.now) }
    ensures kind { IfSome result (λ r. imm_kind r.0 ≡ Some ImmKind.Zero) }
    ensures none { IfNone result (BeginsNone (shape_of_kind ImmKind.Zero) bytes.now) }
{
    match front_byte(bytes) {
        Some((first, rest)) => {
            if first == 0 {
                Some((Imm::Zero, rest))
            } else {
                None
            }
        }
        None => None,
    }
}

/// So many bytes, and the bytes behind them.
fn front_bytes(bytes: &[u8], count: usize) -> Option<(&[u8], &[u8])>
    ensures some { IfSome result (λ r.
        Begins (Shape.bytes count) bytes.now (Tree.raw r.0.now) r.1.now) }
    ensures counted { IfSome result (λ r. length r.0.now ≡ count) }
    ensures none { IfNone result (BeginsNone (Shape.bytes count) bytes.now) }
{
    if bytes.len() < count {
        None
    } else {
        Some(bytes.split_at(count))
    }
}

/// The bits of a floating-point number of 32 bits.
fn front_four<'a>(bytes: &'a [u8]) -> Option<(Imm<'a>, &'a [u8])>
    ensures some { IfSome result (λ r.
        Begins (shape_of_kind ImmKind.Four) bytes.now (imm_tree r.0) r.1.now) }
    ensures kind { IfSome result (λ r. imm_kind r.0 ≡ Some ImmKind.Four) }
    ensures none { IfNone result (BeginsNone (shape_of_kind ImmKind.Four) bytes.now) }
{
    match front_bytes(bytes, 4) {
        Some((four, rest)) => {
            let bits = u32::from_le_bytes([four[0], four[1], four[2], four[3]]);
            Some((Imm::Four(Ieee32(bits)), rest))
        }
        None => None,
    }
}

/// The bits of a floating-point number of 64 bits.
fn front_eight<'a>(bytes: &'a [u8]) -> Option<(Imm<'a>, &'a [u8])>
    ensures some { IfSome result (λ r.
        Begins (shape_of_kind ImmKind.Eight) bytes.now (imm_tree r.0) r.1.now) }
    ensures kind { IfSome result (λ r. imm_kind r.0 ≡ Some ImmKind.Eight) }
    ensures none { IfNone result (BeginsNone (shape_of_kind ImmKind.Eight) bytes.now) }
{
    match front_bytes(bytes, 8) {
        Some((eight, rest)) => {
            let bits = u64::from_le_bytes([
                eight[0], eight[1], eight[2], eight[3], eight[4], eight[5], eight[6], eight[7],
            ]);
            Some((Imm::Eight(Ieee64(bits)), rest))
        }
        None => None,
    }
}

/// Sixteen bytes.
fn front_sixteen<'a>(bytes: &'a [u8]) -> Option<(Imm<'a>, &'a [u8])>
    ensures some { IfSome result (λ r.
        Begins (shape_of_kind ImmKind.Sixteen) bytes.now (imm_tree r.0) r.1.now) }
    ensures kind { IfSome result (λ r. imm_kind r.0 ≡ Some ImmKind.Sixteen) }
    ensures none { IfNone result (BeginsNone (shape_of_kind ImmKind.Sixteen) bytes.now) }
{
    match front_bytes(bytes, 16) {
        Some((sixteen, rest)) => Some((Imm::Sixteen(sixteen), rest)),
        None => None,
    }
}

/// The numbers of sixteen lanes.
fn front_lanes<'a>(bytes: &'a [u8]) -> Option<(Imm<'a>, &'a [u8])>
    ensures some { IfSome result (λ r.
        Begins (shape_of_kind ImmKind.Lanes) bytes.now (imm_tree r.0) r.1.now) }
    ensures kind { IfSome result (λ r. imm_kind r.0 ≡ Some ImmKind.Lanes) }
    ensures none { IfNone result (BeginsNone (shape_of_kind ImmKind.Lanes) bytes.now) }
{
    match front_bytes(bytes, 16) {
        Some((lanes, rest)) => Some((Imm::Lanes(lanes), rest)),
        None => None,
    }
}

/// Where a memory access goes: flags below 128, the memory where bit 6 is set, and the offset.
#[inline(always)]
fn front_mem<'a>(bytes: &'a [u8]) -> Option<(Imm<'a>, &'a [u8])>
    ensures some { IfSome result (λ r.
        Begins (shape_of_kind ImmKind.Mem) bytes.now (imm_tree r.0) r.1.now) }
    ensures kind { IfSome result (λ r. imm_kind r.0 ≡ Some ImmKind.Mem) }
    ensures none { IfNone result (BeginsNone (shape_of_kind ImmKind.Mem) bytes.now) }
{
    let Some((flags, rest)) = front_u32(bytes) else {
        return None;
    };
    if flags >= 128 {
        return None;
    }
    if flags < 64 {
        return match front_u64(rest) {
            Some((offset, rest)) => Some((mem_arg(flags as u8, 0, offset), rest)),
            None => None,
        };
    }
    let Some((memory, rest)) = front_u32(rest) else {
        return None;
    };
    match front_u64(rest) {
        Some((offset, rest)) => Some((mem_arg((flags - 64) as u8, memory, offset), rest)),
        None => None,
    }
}

fn mem_arg<'a>(align: u8, memory: u32, offset: u64) -> Imm<'a>
    requires { align < 64 }
    ensures tree { imm_tree result ≡ Tree.mem align memory offset }
    ensures kind { imm_kind result ≡ Some ImmKind.Mem }
{
    Imm::Mem(MemArg {
        align,
        memory,
        offset,
    })
}

/// The labels of a table of branches, and the one where no other is chosen.
fn front_labels<'a>(alloc: Global, bytes: &'a [u8]) -> Result<Option<(Imm<'a>, &'a [u8])>, NoMemory>
    ensures some { IfOk result (λ o. IfSome o (λ r.
        Begins (shape_of_kind ImmKind.Labels) bytes.now (imm_tree r.0) r.1.now)) }
    ensures kind { IfOk result (λ o. IfSome o (λ r. imm_kind r.0 ≡ Some ImmKind.Labels)) }
    ensures none { IfOk result (λ o.
        IfNone o (BeginsNone (shape_of_kind ImmKind.Labels) bytes.now)) }
{
    match front_vec(alloc, bytes) {
        Ok(Some((targets, rest))) => match front_u32(rest) {
            Some((default, rest)) => Ok(Some((Imm::Labels { targets, default }, rest))),
            None => Ok(None),
        },
        Ok(None) => Ok(None),
        Err(NoMemory) => Err(NoMemory),
    }
}

/// Value types.
fn front_types<'a>(alloc: Global, bytes: &'a [u8]) -> Result<Option<(Imm<'a>, &'a [u8])>, NoMemory>
    ensures some { IfOk result (λ o. IfSome o (λ r.
        Begins (shape_of_kind ImmKind.Types) bytes.now (imm_tree r.0) r.1.now)) }
    ensures kind { IfOk result (λ o. IfSome o (λ r. imm_kind r.0 ≡ Some ImmKind.Types)) }
    ensures none { IfOk result (λ o.
        IfNone o (BeginsNone (shape_of_kind ImmKind.Types) bytes.now)) }
{
    match front_vec(alloc, bytes) {
        Ok(Some((types, rest))) => Ok(Some((Imm::Types(types), rest))),
        Ok(None) => Ok(None),
        Err(NoMemory) => Err(NoMemory),
    }
}

/// What a block catches.
fn front_catches<'a>(
    alloc: Global,
    bytes: &'a [u8],
) -> Result<Option<(Imm<'a>, &'a [u8])>, NoMemory>
    ensures some { IfOk result (λ o. IfSome o (λ r.
        Begins (shape_of_kind ImmKind.Catches) bytes.now (imm_tree r.0) r.1.now)) }
    ensures kind { IfOk result (λ o. IfSome o (λ r. imm_kind r.0 ≡ Some ImmKind.Catches)) }
    ensures none { IfOk result (λ o.
        IfNone o (BeginsNone (shape_of_kind ImmKind.Catches) bytes.now)) }
{
    match front_vec(alloc, bytes) {
        Ok(Some((catches, rest))) => Ok(Some((Imm::Catches(catches), rest))),
        Ok(None) => Ok(None),
        Err(NoMemory) => Err(NoMemory),
    }
}

/// How a resumed continuation's tags are handled.
fn front_handlers<'a>(
    alloc: Global,
    bytes: &'a [u8],
) -> Result<Option<(Imm<'a>, &'a [u8])>, NoMemory>
    ensures some { IfOk result (λ o. IfSome o (λ r.
        Begins (shape_of_kind ImmKind.Handlers) bytes.now (imm_tree r.0) r.1.now)) }
    ensures kind { IfOk result (λ o. IfSome o (λ r. imm_kind r.0 ≡ Some ImmKind.Handlers)) }
    ensures none { IfOk result (λ o.
        IfNone o (BeginsNone (shape_of_kind ImmKind.Handlers) bytes.now)) }
{
    match front_vec(alloc, bytes) {
        Ok(Some((handlers, rest))) => Ok(Some((Imm::Handlers(handlers), rest))),
        Ok(None) => Ok(None),
        Err(NoMemory) => Err(NoMemory),
    }
}

/// The first kind, and the others.
fn first_kind(kinds: &[ImmKind]) -> Option<(ImmKind, &[ImmKind])>
    ensures some { IfSome result (λ r. kinds.now ≡ r.0 ∷ r.1.now) }
    ensures none { IfNone result (kinds.now ≡ []) }
{
    match kinds {
        [first, others @ ..] => Some((*first, others)),
        [] => None,
    }
}

/// Immediates of some kinds at the front of some bytes, and the bytes behind them.
pub fn front_imms<'a>(
    alloc: Global,
    kinds: &[ImmKind],
    bytes: &'a [u8],
) -> Result<Option<(List<Imm<'a>>, &'a [u8])>, NoMemory>
    requires { AreCore kinds.now }
    ensures some { IfOk result (λ o. IfSome o (λ r.
        Begins (shape_of_kinds kinds.now) bytes.now (imms_tree r.0) r.1.now)) }
    ensures kinds { IfOk result (λ o. IfSome o (λ r. map imm_kind r.0 ≡ map Some kinds.now)) }
    ensures none { IfOk result (λ o. IfNone o (BeginsNone (shape_of_kinds kinds.now) bytes.now)) }
{
    let mut imms = match List::with_capacity(alloc, kinds.len()) {
        Ok(imms) => imms,
        Err(NoMemory) => return Err(NoMemory),
    };
    let mut due = kinds;
    let mut rest = bytes;
    'kinds: while let Some((kind, others)) = first_kind(due) {
        match front_imm(alloc, kind, rest) {
            Ok(Some((imm, behind))) => {
                match imms.push(imm) {
                    Ok(()) => {}
                    Err(NoMemory) => return Err(NoMemory),
                }
                due = others;
                rest = behind;
            }
            Ok(None) => return Ok(None),
            Err(NoMemory) => return Err(NoMemory),
        }
    }
    Ok(Some((imms, rest)))
}

/// The bytes behind an immediate that was read.
#[inline(always)]
fn behind<'a>(read: Option<(Imm<'a>, &'a [u8])>) -> Option<&'a [u8]>
    ensures { IsBehind read.entry result }
{
    match read {
        Some((_, rest)) => Some(rest),
        None => None,
    }
}

/// The bytes behind the immediate of a kind at the front of some bytes. It takes no memory.
fn behind_imm(kind: ImmKind, bytes: &[u8]) -> Option<&[u8]>
    requires { is_core_kind kind ≡ true }
    ensures some { IfSome result (λ r.
        (t : Tree) × Begins (shape_of_kind kind) bytes.now t r.now) }
    ensures none { IfNone result (BeginsNone (shape_of_kind kind) bytes.now) }
{
    match kind {
        ImmKind::Block => behind(front_block(bytes)),
        ImmKind::Label => behind(front_label(bytes)),
        ImmKind::Labels => behind_labels(bytes),
        ImmKind::Index(space) => behind(front_index(space, bytes)),
        ImmKind::Local => behind(front_local(bytes)),
        ImmKind::Field => behind(front_field(bytes)),
        ImmKind::Size => behind(front_size(bytes)),
        ImmKind::Types => behind_vec::<ValType>(bytes),
        ImmKind::Mem => behind(front_mem(bytes)),
        ImmKind::S32 => behind(front_s32_imm(bytes)),
        ImmKind::S64 => behind(front_s64_imm(bytes)),
        ImmKind::Four => behind(front_four(bytes)),
        ImmKind::Eight => behind(front_eight(bytes)),
        ImmKind::Sixteen => behind(front_sixteen(bytes)),
        ImmKind::Lanes => behind(front_lanes(bytes)),
        ImmKind::Lane => behind(front_lane(bytes)),
        ImmKind::Heap => behind(front_heap(bytes)),
        ImmKind::Catches => behind_vec::<Catch>(bytes),
        ImmKind::Cast => behind(front_cast(bytes)),
        ImmKind::Handlers => behind_vec::<Handle>(bytes),
        ImmKind::Zero => behind(front_zero(bytes)),
    }
}

/// The bytes behind the labels of a table of branches.
fn behind_labels(bytes: &[u8]) -> Option<&[u8]>
    ensures some { IfSome result (λ r.
        (t : Tree) × Begins (shape_of_kind ImmKind.Labels) bytes.now t r.now) }
    ensures none { IfNone result (BeginsNone (shape_of_kind ImmKind.Labels) bytes.now) }
{
    let Some(rest) = behind_vec::<u32>(bytes) else {
        return None;
    };
    match front_u32(rest) {
        Some((_, rest)) => Some(rest),
        None => None,
    }
}

/// The bytes behind immediates of some kinds at the front of some bytes. It takes no memory.
pub fn behind_imms<'a>(kinds: &[ImmKind], bytes: &'a [u8]) -> Option<&'a [u8]>
    requires { AreCore kinds.now }
    ensures some { IfSome result (λ r.
        (t : Tree) × Begins (shape_of_kinds kinds.now) bytes.now t r.now) }
    ensures none { IfNone result (BeginsNone (shape_of_kinds kinds.now) bytes.now) }
{
    let Some((kind, others)) = first_kind(kinds) else {
        return Some(bytes);
    };
    let Some(rest) = behind_imm(kind, bytes) else {
        return None;
    };
    match behind_imms(others, rest) {
        Some(rest) => Some(rest),
        None => None,
    }
}
