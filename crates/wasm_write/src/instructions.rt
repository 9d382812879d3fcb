//! Instructions.
ghost use Rattle.std.specs.Prelude.{[], ◌≡◌, ◌++◌, ◌∷◌, ◌<◌, ◌^◌, ◌↔◌, true, map, take, vec_len, All, IsSome, IfSome, IfNone, IsTrue, Some, None, if◌then◌else◌, OnOk, OnErr};
ghost use Rattle.wasm_leb.specs.Leb.{leb};
ghost use Rattle.wasm_shapes.specs.Immediates.{HasKinds};
ghost use Rattle.wasm_shapes.specs.Operators.{code_of};
ghost use Rattle.wasm_shapes.specs.Tree.{code_bytes, normal};
ghost use Rattle.wasm_shapes.specs.Shape.{Shape};
ghost use Rattle.wasm_shapes.specs.Spells.{Spells};
ghost use Rattle.wasm_shapes.specs.Fits.{CodeInRange, InRange};
ghost use Rattle.wasm_shapes.specs.Types.{are_sixteen, is_core, is_counted};
ghost use Rattle.wasm_types.specs.declared.types.Imm.TheVariants as imm;
ghost use Rattle.wasm_write.specs.Instructions.{imm_kind, imms_tree, instruction_tree, operator_tree};

use crate::immediates::write_imm;
use crate::types::Imm;
use crate::value_types::write_byte;
use std::marker::Model;
use wasm_leb::{List, NoMemory, write_u32};
use wasm_shapes::{ImmKind, Opcode, Space, row_of};

/// An operator with its immediates, of the kinds of its row (WebAssembly Core Specification 3.0, section 5.4).
///
/// Contracts see it as its opcode and its immediates.
#[derive(Drop)]
pub struct Instruction<'a> {
    opcode: Opcode,
    imms: List<Imm<'a>>,
    ghost fits: { ∥ HasKinds opcode (map imm_kind imms) ∥₁ },
}

impl<'a> Model for Instruction<'a> {
    ghost use Rattle.wasm_write.specs.Instructions.{Parts};

    ghost Value = { Parts };

    ghost view = { λ i. record { opcode = i.opcode; imms = i.imms } };
}

/// The kind of an index, where its space is one of a core module.
fn kind_of_index(space: Space) -> Option<ImmKind>
    ensures { result ≡ (if is_core space then Some (ImmKind.Index space) else None) }
{
    if space.is_core() {
        Some(ImmKind::Index(space))
    } else {
        None
    }
}

/// The kind, where so many items can be counted.
fn if_counted(count: usize, kind: ImmKind) -> Option<ImmKind>
    ensures { result ≡ (if is_counted count then Some kind else None) }
{
    if count <= u32::MAX as usize {
        Some(kind)
    } else {
        None
    }
}

/// The kind, where there are 16 bytes.
fn if_sixteen_bytes(bytes: &[u8], kind: ImmKind) -> Option<ImmKind>
    ensures { result ≡ (if are_sixteen bytes.now then Some kind else None) }
{
    if bytes.len() == 16 { Some(kind) } else { None }
}

/// The kind of an immediate, where it has one.
fn kind_of(imm: &Imm<'_>) -> Option<ImmKind>
    ensures { result ≡ imm_kind imm.now }
{
    match imm {
        Imm::Block(_) => Some(ImmKind::Block),
        Imm::Label(_) => Some(ImmKind::Label),
        Imm::Labels { targets, .. } => if_counted(targets.len(), ImmKind::Labels),
        Imm::Index(space, _) => kind_of_index(*space),
        Imm::Local(_) => Some(ImmKind::Local),
        Imm::Field(_) => Some(ImmKind::Field),
        Imm::Size(_) => Some(ImmKind::Size),
        Imm::Types(types) => if_counted(types.len(), ImmKind::Types),
        Imm::Mem(_) => Some(ImmKind::Mem),
        Imm::S32(_) => Some(ImmKind::S32),
        Imm::S64(_) => Some(ImmKind::S64),
        Imm::Four(_) => Some(ImmKind::Four),
        Imm::Eight(_) => Some(ImmKind::Eight),
        Imm::Sixteen(bytes) => if_sixteen_bytes(bytes, ImmKind::Sixteen),
        Imm::Lanes(bytes) => if_sixteen_bytes(bytes, ImmKind::Lanes),
        Imm::Lane(_) => Some(ImmKind::Lane),
        Imm::Heap(_) => Some(ImmKind::Heap),
        Imm::Catches(catches) => if_counted(catches.len(), ImmKind::Catches),
        Imm::Cast { .. } => Some(ImmKind::Cast),
        Imm::Handlers(handlers) => if_counted(handlers.len(), ImmKind::Handlers),
        Imm::Zero => Some(ImmKind::Zero),
    }
}

/// Whether immediates have these kinds.
fn have_kinds(imms: &[Imm<'_>], kinds: &[ImmKind]) -> bool
    ensures { IsTrue result ↔ (map imm_kind imms.now ≡ map Some kinds.now) }
{
    match (imms, kinds) {
        ([], []) => true,
        ([imm, imms @ ..], [kind, kinds @ ..]) => match kind_of(imm) {
            Some(own) => own == *kind && have_kinds(imms, kinds),
            None => false,
        },
        _ => false,
    }
}

impl<'a> Instruction<'a> {
    /// An operator with its immediates. None exactly where the number is no operator's, or the immediates are not of the
    /// kinds of its row.
    ///
    /// These have no kind: 16 bytes of which there are not 16, a list of more than 2^32 - 1 entries, and an index of a space
    /// that is none of a core module.
    pub fn new(opcode: Opcode, imms: List<Imm<'a>>) -> Option<Instruction<'a>>
        ensures some { IfSome result (λ i. (i.opcode ≡ opcode) × (i.imms ≡ imms.entry)) }
        ensures has_kinds { IfSome result (λ i. HasKinds opcode (map imm_kind imms.entry)) }
        ensures none { IfNone result (HasKinds opcode (map imm_kind imms.entry) → ⊥) }
    {
        match row_of(opcode) {
            Some(kinds) => {
                if have_kinds(imms.as_slice(), kinds) {
                    Some(Instruction { opcode, imms })
                } else {
                    None
                }
            }
            None => None,
        }
    }

    /// An operator with its immediates, which are known to be of the kinds of its row.
    pub fn of_kinds(opcode: Opcode, imms: List<Imm<'a>>) -> Instruction<'a>
        requires { HasKinds opcode (map imm_kind imms) }
        ensures { result ≡ record { opcode = opcode; imms = imms.entry } }
    {
        Instruction { opcode, imms }
    }

    /// The operator's number.
    pub fn opcode(&self) -> Opcode
        ensures { result ≡ self.now.opcode }
    {
        self.opcode
    }

    /// The immediates in order.
    pub fn imms(&self) -> &[Imm<'a>]
        ensures { result.now ≡ self.now.imms }
    {
        self.imms.as_slice()
    }

    /// Appends the operator and its immediates, which read back as this instruction. Where memory runs out, what stood in
    /// `out` before stands there still.
    #[inline(always)]
    pub fn encode(&self, out: &mut Vec<u8>) -> Result<(), NoMemory>
        ensures ok { OnOk result
            (out.new.items ≡ out.old.items ++ normal (instruction_tree self.now)) }
        ensures spells { OnOk result
            (∥ Spells (Shape.op true) (normal (instruction_tree self.now))
            (instruction_tree self.now) ∥₁) }
        ensures err { OnErr result (take (vec_len out.old) out.new.items ≡ out.old.items) }
    {
        write_operator(out, self.opcode, self.imms.as_slice())
    }
}

/// Appends an operator with immediates of the kinds of its row, or a part of it where memory runs out.
#[inline(always)]
pub(crate) fn write_operator(
    out: &mut Vec<u8>,
    opcode: Opcode,
    imms: &[Imm<'_>],
) -> Result<(), NoMemory>
    requires { ∥ HasKinds opcode (map imm_kind imms.now) ∥₁ }
    ensures ok { OnOk result
        (out.new.items ≡ out.old.items ++ normal (operator_tree opcode imms.now)) }
    ensures spells { OnOk result
        (∥ Spells (Shape.op true) (normal (operator_tree opcode imms.now))
        (operator_tree opcode imms.now) ∥₁) }
    ensures err { OnErr result (take (vec_len out.old) out.new.items ≡ out.old.items) }
{
    match write_opcode(out, opcode) {
        Ok(()) => write_imms(out, imms),
        Err(NoMemory) => Err(NoMemory),
    }
}

/// The same of an operator whose one immediate is an index. Where it takes two or three bytes, memory is asked for once.
#[inline(always)]
pub(crate) fn write_index_operator(
    out: &mut Vec<u8>,
    opcode: Opcode,
    space: Space,
    index: u32,
) -> Result<(), NoMemory>
    requires { HasKinds opcode (imm_kind (imm.Index space index) ∷ []) }
    ensures ok { OnOk result
        (out.new.items ≡ out.old.items
        ++ normal (operator_tree opcode (imm.Index space index ∷ []))) }
    ensures spells { OnOk result
        (∥ Spells (Shape.op true) (normal (operator_tree opcode (imm.Index space index ∷ [])))
        (operator_tree opcode (imm.Index space index ∷ [])) ∥₁) }
    ensures err { OnErr result (take (vec_len out.old) out.new.items ≡ out.old.items) }
{
    if opcode.prefix == 0 && index < 1 << 14 {
        write_short(out, opcode.sub as u8, index as u16)
    } else {
        write_operator(out, opcode, &[Imm::Index(space, index)])
    }
}

/// Appends a byte and a number of one or two bytes, or nothing.
#[inline(always)]
fn write_short(out: &mut Vec<u8>, byte: u8, number: u16) -> Result<(), NoMemory>
    requires { number < 2 ^ 14 }
    ensures ok { OnOk result (out.new.items ≡ out.old.items ++ (byte ∷ leb number)) }
    ensures err { OnErr result (take (vec_len out.old) out.new.items ≡ out.old.items) }
{
    let Ok(()) = out.reserve(3) else {
        return Err(NoMemory);
    };
    out.push_reserved(byte);
    if number < 128 {
        out.push_reserved(number as u8);
    } else {
        out.push_reserved((number % 128 + 128) as u8);
        out.push_reserved((number / 128) as u8);
    }
    Ok(())
}

/// Appends the number of an operator, or a part of it where memory runs out.
#[inline(always)]
fn write_opcode(out: &mut Vec<u8>, op: Opcode) -> Result<(), NoMemory>
    requires { op.prefix ≡ 0 → op.sub < 256 }
    ensures ok { OnOk result (out.new.items ≡ out.old.items ++ code_bytes (code_of op)) }
    ensures in_range { OnOk result (CodeInRange (code_of op)) }
    ensures err { OnErr result (take (vec_len out.old) out.new.items ≡ out.old.items) }
{
    if op.prefix == 0 {
        write_byte(out, op.sub as u8)
    } else {
        write_prefixed(out, op.prefix, op.sub)
    }
}

/// Appends a byte and a number, or a part of them where memory runs out.
#[inline(never)]
fn write_prefixed(out: &mut Vec<u8>, prefix: u8, sub: u32) -> Result<(), NoMemory>
    ensures ok { OnOk result (out.new.items ≡ out.old.items ++ (prefix ∷ leb sub)) }
    ensures err { OnErr result (take (vec_len out.old) out.new.items ≡ out.old.items) }
{
    match write_byte(out, prefix) {
        Ok(()) => write_u32(out, sub),
        Err(NoMemory) => Err(NoMemory),
    }
}

/// Appends immediates one behind another, or a part of them where memory runs out.
#[inline(always)]
fn write_imms(out: &mut Vec<u8>, imms: &[Imm<'_>]) -> Result<(), NoMemory>
    requires { All (λ i. IsSome (imm_kind i)) imms.now }
    ensures ok { OnOk result (out.new.items ≡ out.old.items ++ normal (imms_tree imms.now)) }
    ensures in_range { OnOk result (InRange (imms_tree imms.now)) }
    ensures err { OnErr result (take (vec_len out.old) out.new.items ≡ out.old.items) }
{
    for imm in imms {
        match write_imm(out, imm) {
            Ok(()) => {}
            Err(NoMemory) => return Err(NoMemory),
        }
    }
    Ok(())
}
