//! The operators of function bodies.
ghost use Rattle.std.specs.Prelude.{◌≡◌, ◌+◌, ◌<◌, ◌≤◌, ◌∷◌, [], drop, IfSome, IfNone, IfOk, IfErr, if◌then◌else◌, nat_eq, length, map, Some, IsTrue, ◌↔◌, true};
ghost use Rattle.wasm_shapes.specs.Immediates.{HasKinds};
ghost use Rattle.wasm_shapes.specs.Place.{Begins, BeginsNone};
ghost use Rattle.wasm_shapes.specs.Shape.{Shape};
ghost use Rattle.wasm_shapes.specs.Tree.{Tree};
ghost use Rattle.wasm_read.specs.Operations.{rest_of};
ghost use Rattle.wasm_read.specs.Reading.{ReadsNoneOrWants};
ghost use Rattle.wasm_read.specs.Immediates.{imm_kind, is_counted, operation, operator_tree};

use crate::immediates::{behind_imms, front_imms, front_opcode};
use crate::types::Imm;
use std::alloc::Global;
use std::marker::Model;
use wasm_leb::{Fault, List, NoMemory, ReadError};
use wasm_shapes::{ImmKind, Opcode, Space, row_of};

/// An operator of the tables with its immediates, whose kinds are those of its opcode's row
/// (WebAssembly Core Specification 3.0, section 5.4).
#[derive(Drop)]
pub struct Operator<'a> {
    opcode: Opcode,
    imms: List<Imm<'a>>,
}

impl<'a> Model for Operator<'a> {
    ghost use Rattle.std.specs.Prelude.{map};
    ghost use Rattle.wasm_shapes.specs.Immediates.{HasKinds};
    ghost use Rattle.wasm_read.specs.Immediates.{Operation, imm_kind, operation};

    ghost Value = { Operation };

    ghost view = { λ o. operation o.opcode o.imms };

    ghost invariant = { λ o. HasKinds o.opcode (map imm_kind o.imms) };
}

impl<'a> Operator<'a> {
    /// The operator of an opcode and its immediates. None exactly where no operator has the opcode, or where the kinds of
    /// the immediates are not those of its row. Three sorts of immediates have no kind: an index of a space that no core
    /// module has, `Sixteen` or `Lanes` of other than 16 bytes, and a list of more than 2^32 - 1 entries.
    pub fn new(opcode: Opcode, imms: List<Imm<'a>>) -> Option<Operator<'a>>
        ensures some { IfSome result (λ o.
            (o ≡ operation opcode imms.entry) × HasKinds opcode (map imm_kind imms.entry)) }
        ensures none { IfNone result (¬ HasKinds opcode (map imm_kind imms.entry)) }
    {
        let Some(kinds) = row_of(opcode) else {
            return None;
        };
        if are_of(kinds, imms.as_slice()) {
            Some(Operator { opcode, imms })
        } else {
            None
        }
    }

    /// Its number.
    pub fn opcode(&self) -> Opcode
        ensures { result ≡ self.now.opcode }
    {
        self.opcode
    }

    /// Its immediates in the order of the bytes.
    pub fn imms(&self) -> &[Imm<'a>]
        ensures items { result.now ≡ self.now.imms }
        ensures fit { HasKinds self.now.opcode (map imm_kind self.now.imms) }
    {
        self.imms.as_slice()
    }

    /// Its immediates in the order of the bytes. It takes no memory.
    pub fn into_imms(self) -> List<Imm<'a>>
        ensures items { result ≡ self.entry.imms }
        ensures fit { HasKinds self.entry.opcode (map imm_kind self.entry.imms) }
    {
        self.imms
    }
}

/// A reader of operators that stand one behind another.
#[derive(Drop)]
pub struct OperatorsReader<'a> {
    bytes: &'a [u8],
    at: usize,
}

impl<'a> Model for OperatorsReader<'a> {
    ghost use Rattle.std.specs.Prelude.{◌≤◌, length};
    ghost use Rattle.wasm_read.specs.Operations.{Reading};

    ghost Value = { Reading };

    ghost view = { λ reader. record { bytes = reader.bytes.now; at = reader.at } };

    ghost invariant = { λ reader. reader.at ≤ length reader.bytes.now };
}

impl<'a> OperatorsReader<'a> {
    /// A reader of the operators from a place on.
    pub(crate) fn from_place(bytes: &'a [u8], at: usize) -> OperatorsReader<'a>
        requires { at ≤ length bytes.now }
        ensures { result ≡ record { bytes = bytes.now; at = at } }
    {
        OperatorsReader { bytes, at }
    }

    /// Passes by so many bytes.
    #[inline(always)]
    pub fn pass(&mut self, count: usize)
        requires { count ≤ length (rest_of self.now) }
        ensures bytes { self.new.bytes ≡ self.old.bytes }
        ensures at { self.new.at ≡ self.old.at + count }
        ensures rest { rest_of self.new ≡ drop count (rest_of self.old) }
    {
        self.at += count;
    }

    /// The bytes that are left.
    #[inline(always)]
    pub fn rest(&self) -> &'a [u8]
        ensures { result.now ≡ rest_of self.now }
    {
        &self.bytes[self.at..]
    }

    /// The next operator, `end` among them. The reader stands behind it then.
    ///
    /// `Read` comes exactly where no operator begins, and holds the place where the reader stands, counted from the
    /// first of its bytes. An error leaves the reader where it stood.
    pub fn read(&mut self, alloc: Global) -> Result<Operator<'a>, Fault>
        ensures row { IfOk result (λ o.
            Begins (Shape.op true) (rest_of self.old) (operator_tree o) (rest_of self.new)) }
        ensures fit { IfOk result (λ o. HasKinds o.opcode (map imm_kind o.imms)) }
        ensures forward { IfOk result (λ _.
            (self.old.at < self.new.at) × (self.new.at ≤ length self.old.bytes)) }
        ensures bytes { self.new.bytes ≡ self.old.bytes }
        ensures err { IfErr result (λ e.
            ReadsNoneOrWants e self.old.at (BeginsNone (Shape.op true) (rest_of self.old))) }
        ensures stays { IfErr result (λ _. self.new ≡ self.old) }
    {
        match front_operator(alloc, self.rest()) {
            Ok(Some((operator, rest))) => {
                self.at = self.bytes.len() - rest.len();
                Ok(operator)
            }
            Ok(None) => Err(Fault::Read(ReadError { at: self.at })),
            Err(NoMemory) => Err(Fault::NoMemory),
        }
    }

    /// Whether nothing is left.
    pub fn eof(&self) -> bool
        ensures { IsTrue result ↔ (rest_of self.now ≡ []) }
    {
        self.rest().is_empty()
    }

    /// Whether the one byte `0b` is left, which is `end`.
    pub fn is_end_then_eof(&self) -> bool
        ensures { IsTrue result ↔ (rest_of self.now ≡ 0x0b ∷ []) }
    {
        match self.rest() {
            [last] => *last == 0x0b,
            _ => false,
        }
    }
}

/// The operator at the front of some bytes, and the bytes behind it.
fn front_operator<'a>(
    alloc: Global,
    bytes: &'a [u8],
) -> Result<Option<(Operator<'a>, &'a [u8])>, NoMemory>
    ensures some { IfOk result (λ o. IfSome o (λ r.
        Begins (Shape.op true) bytes.now (operator_tree r.0) r.1.now)) }
    ensures fit { IfOk result (λ o. IfSome o (λ r. HasKinds r.0.opcode (map imm_kind r.0.imms))) }
    ensures shorter { IfOk result (λ o. IfSome o (λ r. length r.1.now < length bytes.now)) }
    ensures none { IfOk result (λ o. IfNone o (BeginsNone (Shape.op true) bytes.now)) }
{
    let Some((opcode, rest)) = front_opcode(bytes) else {
        return Ok(None);
    };
    let Some(kinds) = row_of(opcode) else {
        return Ok(None);
    };
    match front_imms(alloc, kinds, rest) {
        Ok(Some((imms, rest))) => Ok(Some((Operator { opcode, imms }, rest))),
        Ok(None) => Ok(None),
        Err(NoMemory) => Err(NoMemory),
    }
}

/// The bytes behind the operator at the front of some bytes. It takes no memory.
pub fn behind_operator(bytes: &[u8]) -> Option<&[u8]>
    ensures some { IfSome result (λ r. (t : Tree) × Begins (Shape.op true) bytes.now t r.now) }
    ensures shorter { IfSome result (λ r. length r.now < length bytes.now) }
    ensures none { IfNone result (BeginsNone (Shape.op true) bytes.now) }
{
    let Some((opcode, rest)) = front_opcode(bytes) else {
        return None;
    };
    let Some(kinds) = row_of(opcode) else {
        return None;
    };
    match behind_imms(kinds, rest) {
        Some(rest) => Some(rest),
        None => None,
    }
}

/// Whether the immediates have these kinds, one by one.
fn are_of(kinds: &[ImmKind], imms: &[Imm<'_>]) -> bool
    ensures { IsTrue result ↔ (map imm_kind imms.now ≡ map Some kinds.now) }
{
    match kinds {
        [] => imms.is_empty(),
        [kind, kinds @ ..] => match imms {
            [] => false,
            [imm, imms @ ..] => is_of(imm, *kind) && are_of(kinds, imms),
        },
    }
}

/// Whether the immediate has the kind.
fn is_of(imm: &Imm<'_>, kind: ImmKind) -> bool
    ensures { IsTrue result ↔ (imm_kind imm.now ≡ Some kind) }
{
    kind_of(imm) == Some(kind)
}

/// The kind of an immediate. Three sorts have none: an index of a space that no core module has, sixteen bytes that
/// are not sixteen, and a list of more than 2^32 - 1 entries.
fn kind_of(imm: &Imm<'_>) -> Option<ImmKind>
    ensures { result ≡ imm_kind imm.now }
{
    match imm {
        Imm::Block(_) => Some(ImmKind::Block),
        Imm::Label(_) => Some(ImmKind::Label),
        Imm::Labels { targets, .. } => counted(targets.len(), ImmKind::Labels),
        Imm::Index(space, _) => {
            if space.is_core() {
                Some(ImmKind::Index(*space))
            } else {
                None
            }
        }
        Imm::Local(_) => Some(ImmKind::Local),
        Imm::Field(_) => Some(ImmKind::Field),
        Imm::Size(_) => Some(ImmKind::Size),
        Imm::Types(types) => counted(types.len(), ImmKind::Types),
        Imm::Mem(_) => Some(ImmKind::Mem),
        Imm::S32(_) => Some(ImmKind::S32),
        Imm::S64(_) => Some(ImmKind::S64),
        Imm::Four(_) => Some(ImmKind::Four),
        Imm::Eight(_) => Some(ImmKind::Eight),
        Imm::Sixteen(bytes) => sixteen(bytes, ImmKind::Sixteen),
        Imm::Lanes(bytes) => sixteen(bytes, ImmKind::Lanes),
        Imm::Lane(_) => Some(ImmKind::Lane),
        Imm::Heap(_) => Some(ImmKind::Heap),
        Imm::Catches(catches) => counted(catches.len(), ImmKind::Catches),
        Imm::Cast { .. } => Some(ImmKind::Cast),
        Imm::Handlers(handlers) => counted(handlers.len(), ImmKind::Handlers),
        Imm::Zero => Some(ImmKind::Zero),
    }
}

/// The kind, where the count of a list has a spelling.
fn counted(len: usize, kind: ImmKind) -> Option<ImmKind>
    ensures { result ≡ (if is_counted len then Some kind else None) }
{
    if len < 1 << 32 { Some(kind) } else { None }
}

/// The kind, where there are sixteen bytes.
fn sixteen(bytes: &[u8], kind: ImmKind) -> Option<ImmKind>
    ensures { result ≡ (if nat_eq (length bytes.now) 16 then Some kind else None) }
{
    if bytes.len() == 16 { Some(kind) } else { None }
}
