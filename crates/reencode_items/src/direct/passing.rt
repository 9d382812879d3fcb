//! What is to be done with one operator. It stays as it stands, and the bytes behind it are answered; or none are, and `next`
//! says what is to be done: what stays needs no memory beside a register.
ghost use Rattle.std.specs.Prelude.{◌≡◌, ◌<◌, ◌≤◌, ◌∷◌, [], IfErr, IfNone, IfOk, IfSome, Some, length, map, true};
ghost use Rattle.wasm_shapes.specs.declared.ImmKind.TheVariants as kind;
ghost use Rattle.wasm_shapes.specs.Operators.{code_of, is_code};
ghost use Rattle.wasm_shapes.specs.Shape.{Shape};
ghost use Rattle.wasm_shapes.specs.Tree.{Tree};
ghost use Rattle.wasm_write.specs.Instructions.{imm_kind, imms_tree};
ghost use Rattle.reencode_hooks.specs.Run.{NeverWants, ask};
ghost use Rattle.reencode_items.specs.declared.direct.classes.Class.TheVariants as class;
ghost use Rattle.reencode_items.specs.Direct.{HasClass, HasOne, HasTwo, IsHead, KeepsOperator, PassesNext, PassesS32, RefusesOperator, SkipsLeaf, imms_of};

use crate::direct::classes::{
    Class, Rare, class_by_row, class_of_byte, is_prefix, one_byte, rare_by_row,
};
use crate::direct::fronts::{front_access, front_number, front_signed, front_two};
use crate::direct::skipping::{skip_class, skip_labels};
use crate::indices::core_index;
use reencode_hooks::{Error, ReencodeIndices};
use wasm_leb::front_byte;
use wasm_shapes::{Opcode, Space};
use wasm_write as w;

/// Immediates that are written anew.
#[derive(Clone, Copy, Debug)]
pub enum Fresh {
    Index(Space, u32),
    /// Two indices, one behind another.
    Two(Space, u32, Space, u32),
    S32(i32),
    Mem(w::MemArg),
}

/// What is to be done with an operator that does not stay as it stands.
#[derive(Clone, Copy, Debug)]
pub enum Next {
    /// It becomes the operator of this opcode and these immediates, and stands in so many bytes.
    Made(Opcode, Fresh, usize),
    /// Nothing was asked.
    Other,
}

/// A number of 32 bits with sign.
#[inline(always)]
fn pass_s32<'a>(opcode: Opcode, bytes: &[u8], rest: &'a [u8], next: &mut Next) -> Option<&'a [u8]>
    requires { length rest.now ≤ length bytes.now }
    ensures kept { IfSome result (λ left. SkipsLeaf Shape.s32 rest.now left.now) }
    ensures next { IfNone result (PassesS32 opcode bytes.now rest.now next.new) }
{
    let Some((number, short, behind)) = front_signed(rest) else {
        *next = Next::Other;
        return None;
    };
    if short {
        return Some(behind);
    }
    *next = Next::Made(opcode, Fresh::S32(number), bytes.len() - behind.len());
    None
}

/// An index of a space of core modules.
#[inline(always)]
fn pass_index<'a, R: ReencodeIndices>(
    reencoder: &mut R,
    opcode: Opcode,
    space: Space,
    bytes: &[u8],
    rest: &'a [u8],
    next: &mut Next,
) -> Result<Option<&'a [u8]>, Error<R::Error>>
    requires head { IsHead bytes.now opcode rest.now }
    requires one { HasOne opcode (class.Index space) }
    ensures kept { IfOk result (λ o. IfSome o (λ left.
        KeepsOperator (ask R.reply R.next) reencoder.old bytes.now left.now reencoder.new)) }
    ensures next { IfOk result (λ o. IfNone o
        (PassesNext (ask R.reply R.next) reencoder.old bytes.now reencoder.new next.new)) }
    ensures err { IfErr result
        (λ e. RefusesOperator (ask R.reply R.next) reencoder.old bytes.now e reencoder.new) }
    ensures sure { NeverWants R.sure result }
{
    let Some((index, short, behind)) = front_number(rest) else {
        *next = Next::Other;
        return Ok(None);
    };
    match core_index(reencoder, space, index) {
        Ok(answer) => {
            if answer == index && short {
                return Ok(Some(behind));
            }
            let count = bytes.len() - behind.len();
            *next = Next::Made(opcode, Fresh::Index(space, answer), count);
            Ok(None)
        }
        Err(e) => Err(e),
    }
}

/// Two indices, each of a space of core modules. They are asked one behind the other.
#[inline(always)]
fn pass_two<'a, R: ReencodeIndices>(
    reencoder: &mut R,
    opcode: Opcode,
    spaces: (Space, Space),
    bytes: &[u8],
    rest: &'a [u8],
    next: &mut Next,
) -> Result<Option<&'a [u8]>, Error<R::Error>>
    requires head { IsHead bytes.now opcode rest.now }
    requires two { HasTwo opcode spaces.0 spaces.1 }
    ensures kept { IfOk result (λ o. IfSome o (λ left.
        KeepsOperator (ask R.reply R.next) reencoder.old bytes.now left.now reencoder.new)) }
    ensures next { IfOk result (λ o. IfNone o
        (PassesNext (ask R.reply R.next) reencoder.old bytes.now reencoder.new next.new)) }
    ensures err { IfErr result
        (λ e. RefusesOperator (ask R.reply R.next) reencoder.old bytes.now e reencoder.new) }
    ensures sure { NeverWants R.sure result }
{
    let Some((first, second, short, behind)) = front_two(rest) else {
        *next = Next::Other;
        return Ok(None);
    };
    match core_index(reencoder, spaces.0, first) {
        Ok(answer) => match core_index(reencoder, spaces.1, second) {
            Ok(other) => {
                if answer == first && other == second && short {
                    return Ok(Some(behind));
                }
                let count = bytes.len() - behind.len();
                *next = Next::Made(opcode, Fresh::Two(spaces.0, answer, spaces.1, other), count);
                Ok(None)
            }
            Err(e) => Err(e),
        },
        Err(e) => Err(e),
    }
}

/// A memory access as an immediate.
#[inline(always)]
fn fresh_access(align: u8, memory: u32, offset: u64) -> Fresh
    requires { align < 64 }
    ensures tree { imms_tree (imms_of result) ≡ Tree.pair (Tree.mem align memory offset) Tree.empty }
    ensures kind { map imm_kind (imms_of result) ≡ Some kind.Mem ∷ [] }
{
    Fresh::Mem(w::MemArg {
        align,
        memory,
        offset,
    })
}

/// A memory access. One that writes its memory is left to others before anything is asked.
#[inline(always)]
fn pass_access<'a, R: ReencodeIndices>(
    reencoder: &mut R,
    opcode: Opcode,
    bytes: &[u8],
    rest: &'a [u8],
    next: &mut Next,
) -> Result<Option<&'a [u8]>, Error<R::Error>>
    requires head { IsHead bytes.now opcode rest.now }
    requires one { HasOne opcode class.Mem }
    ensures kept { IfOk result (λ o. IfSome o (λ left.
        KeepsOperator (ask R.reply R.next) reencoder.old bytes.now left.now reencoder.new)) }
    ensures next { IfOk result (λ o. IfNone o
        (PassesNext (ask R.reply R.next) reencoder.old bytes.now reencoder.new next.new)) }
    ensures err { IfErr result
        (λ e. RefusesOperator (ask R.reply R.next) reencoder.old bytes.now e reencoder.new) }
    ensures sure { NeverWants R.sure result }
{
    let Some((align, offset, short, behind)) = front_access(rest) else {
        *next = Next::Other;
        return Ok(None);
    };
    match reencoder.memory_index(0) {
        Ok(memory) => {
            if memory == 0 && short {
                return Ok(Some(behind));
            }
            let count = bytes.len() - behind.len();
            *next = Next::Made(opcode, fresh_access(align, memory, offset), count);
            Ok(None)
        }
        Err(e) => Err(e),
    }
}

/// An operator of a class, whose immediates stand behind its number.
#[inline(always)]
fn pass_class<'a, R: ReencodeIndices>(
    reencoder: &mut R,
    opcode: Opcode,
    class: Class,
    bytes: &[u8],
    rest: &'a [u8],
    next: &mut Next,
) -> Result<Option<&'a [u8]>, Error<R::Error>>
    requires head { IsHead bytes.now opcode rest.now }
    requires class { HasClass opcode class }
    ensures kept { IfOk result (λ o. IfSome o (λ left.
        KeepsOperator (ask R.reply R.next) reencoder.old bytes.now left.now reencoder.new)) }
    ensures next { IfOk result (λ o. IfNone o
        (PassesNext (ask R.reply R.next) reencoder.old bytes.now reencoder.new next.new)) }
    ensures err { IfErr result
        (λ e. RefusesOperator (ask R.reply R.next) reencoder.old bytes.now e reencoder.new) }
    ensures sure { NeverWants R.sure result }
{
    match class {
        Class::S32 => Ok(pass_s32(opcode, bytes, rest, next)),
        Class::Index(space) => pass_index(reencoder, opcode, space, bytes, rest, next),
        Class::Mem => pass_access(reencoder, opcode, bytes, rest, next),
        _ => {
            *next = Next::Other;
            Ok(None)
        }
    }
}

/// An operator of no class, if its number is one of an operator: one with two indices, or a table of branches.
#[inline(never)]
fn pass_rare<'a, R: ReencodeIndices>(
    reencoder: &mut R,
    opcode: Opcode,
    bytes: &[u8],
    rest: &'a [u8],
    next: &mut Next,
) -> Result<Option<&'a [u8]>, Error<R::Error>>
    requires { is_code (code_of opcode) ≡ true → IsHead bytes.now opcode rest.now }
    ensures kept { IfOk result (λ o. IfSome o (λ left.
        KeepsOperator (ask R.reply R.next) reencoder.old bytes.now left.now reencoder.new)) }
    ensures next { IfOk result (λ o. IfNone o
        (PassesNext (ask R.reply R.next) reencoder.old bytes.now reencoder.new next.new)) }
    ensures err { IfErr result
        (λ e. RefusesOperator (ask R.reply R.next) reencoder.old bytes.now e reencoder.new) }
    ensures sure { NeverWants R.sure result }
{
    match rare_by_row(opcode) {
        Rare::Two(first, second) => {
            pass_two(reencoder, opcode, (first, second), bytes, rest, next)
        }
        Rare::Labels => match skip_labels(rest) {
            Some(left) => Ok(Some(left)),
            None => {
                *next = Next::Other;
                Ok(None)
            }
        },
        Rare::Other => {
            *next = Next::Other;
            Ok(None)
        }
    }
}

/// An operator behind a prefix, or of no class.
#[inline(never)]
fn pass_prefixed<'a, R: ReencodeIndices>(
    reencoder: &mut R,
    prefix: u8,
    bytes: &[u8],
    rest: &'a [u8],
    next: &mut Next,
) -> Result<Option<&'a [u8]>, Error<R::Error>>
    requires { bytes.now ≡ prefix ∷ rest.now }
    ensures kept { IfOk result (λ o. IfSome o (λ left.
        KeepsOperator (ask R.reply R.next) reencoder.old bytes.now left.now reencoder.new)) }
    ensures next { IfOk result (λ o. IfNone o
        (PassesNext (ask R.reply R.next) reencoder.old bytes.now reencoder.new next.new)) }
    ensures err { IfErr result
        (λ e. RefusesOperator (ask R.reply R.next) reencoder.old bytes.now e reencoder.new) }
    ensures sure { NeverWants R.sure result }
{
    match front_number(rest) {
        Some((sub, true, behind)) if is_prefix(prefix) => {
            let opcode = Opcode { prefix, sub };
            match class_by_row(opcode) {
                Class::Other => pass_rare(reencoder, opcode, bytes, behind, next),
                class => match skip_class(class, behind) {
                    Some(left) => Ok(Some(left)),
                    None => pass_class(reencoder, opcode, class, bytes, behind, next),
                },
            }
        }
        _ => pass_rare(reencoder, one_byte(prefix), bytes, rest, next),
    }
}

/// The operator at the front of some bytes.
#[inline(always)]
pub fn pass_operator<'a, R: ReencodeIndices>(
    reencoder: &mut R,
    bytes: &'a [u8],
    next: &mut Next,
) -> Result<Option<&'a [u8]>, Error<R::Error>>
    ensures kept { IfOk result (λ o. IfSome o (λ left.
        KeepsOperator (ask R.reply R.next) reencoder.old bytes.now left.now reencoder.new)) }
    ensures next { IfOk result (λ o. IfNone o
        (PassesNext (ask R.reply R.next) reencoder.old bytes.now reencoder.new next.new)) }
    ensures err { IfErr result
        (λ e. RefusesOperator (ask R.reply R.next) reencoder.old bytes.now e reencoder.new) }
    ensures sure { NeverWants R.sure result }
{
    let Some((first, rest)) = front_byte(bytes) else {
        *next = Next::Other;
        return Ok(None);
    };
    match class_of_byte(first) {
        Class::Other => pass_prefixed(reencoder, first, bytes, rest, next),
        class => pass_class(reencoder, one_byte(first), class, bytes, rest, next),
    }
}
