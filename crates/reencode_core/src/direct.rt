//! The body of a function, mapped as `Reencode::parse_function_body` does by default, and without lists: operators that do
//! not change are passed by (`reencode_items::direct`) and added as they stand, run by run, or the whole body at once.
ghost use Rattle.std.specs.Prelude.{◌≡◌, IfErr, IsTrue, List, OnOk, map, ℕ};
ghost use Rattle.wasm_write.specs.Bodies.{with_operator};
ghost use Rattle.wasm_read.specs.Operations.{rest_of};
ghost use Rattle.wasm_shapes.specs.Immediates.{HasKinds};
ghost use Rattle.wasm_write.specs.Instructions.{imm_kind, operator_tree};
ghost use Rattle.wasm_write.specs.declared.fault.WriteFault.TheVariants as write;
ghost use Rattle.reencode_hooks.specs.Run.{ask};
ghost use Rattle.reencode_core.specs.Bodies.{GivesBody, KeepsCode};
ghost use Rattle.reencode_core.specs.Clauses.{BodyClauses, BodyMapped, RowClauses, RowsClauses};
ghost use Rattle.wasm_shapes.specs.declared.SectionId.TheVariants as ids;
ghost use Rattle.wasm_shapes.specs.Module.{row_of};
ghost use Rattle.wasm_shapes.specs.Place.{Begins};
ghost use Rattle.wasm_shapes.specs.Shape.{Shape, Named};
ghost use Rattle.wasm_shapes.specs.Tree.{Tree};
ghost use Rattle.reencode_items.specs.Direct.{imms_of};
ghost use Rattle.reencode_core.specs.Direct.{DealsWith, GroupMapped, GroupRefused, MapsFront};
ghost use Rattle.reencode_core.specs.Leaves.{LeavesMade, body_in};

use crate::rows::new_function_with_parsed_locals;
use reencode_hooks::Error;
use reencode_items::ReencodeItems;
use reencode_items::direct::{Fresh, Next, pass_run, skip_locals, stream_group};
use std::alloc::Global;
use wasm_leb::ReadError;
use wasm_read as r;
use wasm_shapes::{Opcode, kinds};
use wasm_write as w;
use wasm_write::AppendRow;

/// Adds the operator of an opcode and immediates.
#[inline(always)]
fn add(function: &mut w::Function, opcode: Opcode, fresh: Fresh) -> Result<(), w::WriteFault>
    requires { HasKinds opcode (map imm_kind (imms_of fresh)) }
    ensures ok { OnOk result (function.new
        ≡ with_operator function.old (operator_tree opcode (imms_of fresh))) }
    ensures wants { IfErr result (λ e. e ≡ write.NoMemory) }
{
    match fresh {
        Fresh::Index(space, index) => function.index_operator(opcode, space, index),
        Fresh::Two(space, index, other, second) => function.operator(
            opcode,
            &[w::Imm::Index(space, index), w::Imm::Index(other, second)],
        ),
        Fresh::S32(number) => function.operator(opcode, &[w::Imm::S32(number)]),
        Fresh::Mem(arg) => function.operator(opcode, &[w::Imm::Mem(arg)]),
    }
}

/// Maps the operators of a body that are left, of which the first is dealt with as `next` says, and adds the function. Where it is not
/// to go by the bytes, each operator is mapped by `parse_instruction`.
pub(crate) fn map_rest<R: ReencodeItems>(
    reencoder: &mut R,
    alloc: Global,
    code: &mut w::CodeSection,
    mut function: w::Function,
    mut reader: r::OperatorsReader<'_>,
    mut next: Next,
    by_bytes: bool,
) -> Result<(), Error<R::Error>>
    requires { DealsWith (ask R.reply R.next) (rest_of reader) reencoder.old next }
    ensures kept { KeepsCode code.old code.new }
    ensures default { IsTrue R.keeps_defaults → (bytes : List ℕ) (first : R)
        → MapsFront (ask R.reply R.next) bytes first reader.entry function reencoder.old next
        → GivesBody (ask R.reply R.next) bytes (first, code.old) (reencoder.new, code.new) result }
    ensures after_error { IsTrue R.keeps_defaults → (bytes : List ℕ) (first : R)
        → MapsFront (ask R.reply R.next) bytes first reader.entry function reencoder.old next
        → LeavesMade R.sure (ask R.reply R.next) (body_in bytes) first reencoder.new result }
{
    'operators: loop {
        match next {
            Next::Made(opcode, fresh, count) => {
                add(&mut function, opcode, fresh)?;
                reader.pass(count);
            }
            Next::Other => {
                if reader.eof() {
                    code.function(&function)?;
                    return Ok(());
                }
                let instruction = reencoder.parse_instruction(alloc, &mut reader)?;
                function.instruction(&instruction)?;
            }
        }
        if !by_bytes {
            next = Next::Other;
            continue 'operators;
        }
        let bytes = reader.rest();
        let kept = pass_run(reencoder, bytes, &mut next)?;
        function.spelled(&bytes[..kept])?;
        reader.pass(kept);
    }
}

/// Maps a body as `parse_function_body` does, but for one that stays as it stands: that is the answer, and nothing is added.
pub(crate) fn map_or_keep<R: ReencodeItems>(
    reencoder: &mut R,
    alloc: Global,
    code: &mut w::CodeSection,
    func: r::FunctionBody<'_>,
) -> Result<bool, Error<R::Error>>
    ensures { BodyMapped R.ReencodeIndices func.entry.bytes.now
        reencoder.old code.old reencoder.new code.new result }
{
    let bytes = func.bytes;
    let Some(operators) = skip_locals(bytes) else {
        // (no memory is taken for locals that have no reading)
        let reader = func.operators()?;
        let function = new_function_with_parsed_locals(reencoder, alloc, &func)?;
        map_rest(reencoder, alloc, code, function, reader, Next::Other, true)?;
        return Ok(false);
    };
    let mut next = Next::Other;
    let kept = pass_run(reencoder, operators, &mut next)?;
    if kept == operators.len() {
        return Ok(true);
    }
    let passed = bytes.len() - operators.len() + kept;
    let function = w::Function::of_spelled(alloc, &bytes[..passed], bytes.len())?;
    let mut reader = func.operators()?;
    reader.pass(kept);
    map_rest(reencoder, alloc, code, function, reader, next, true)?;
    Ok(false)
}

/// Maps a body as `Reencode::parse_function_body` does by default, without lists. One that stays as it stands is added so, and
/// held by no function.
///
/// A reencoder that keeps the default methods overrides that method by this function, as `DefaultReencode` does, keeps its
/// promises, and is faster: `direct::parse_function_body(self, alloc, code, func)`. It asks the hooks of `ReencodeIndices`
/// themselves, so in a reencoder that overrides a method of `ReencodeItems` or `Reencode` it may pass that method by.
pub fn parse_function_body<R: ReencodeItems>(
    reencoder: &mut R,
    alloc: Global,
    code: &mut w::CodeSection,
    func: r::FunctionBody<'_>,
) -> Result<(), Error<R::Error>>
    ensures { BodyClauses R.ReencodeIndices func.entry.bytes.now
        reencoder.old code.old reencoder.new code.new result }
{
    let bytes = func.bytes;
    let stays = map_or_keep(reencoder, alloc, code, func)?;
    if !stays {
        return Ok(());
    }
    code.spelled(bytes)?;
    Ok(())
}

/// The bytes from a group of types on.
#[derive(Drop)]
struct Group<'a> {
    bytes: &'a [u8],
}

impl<'a, R: ReencodeItems> AppendRow<kinds::Types, R, Error<R::Error>> for Group<'a> {
    ghost appends = { λ row s t m. GroupMapped R.ReencodeIndices row.bytes.now s t m };

    ghost refuses = { λ row s e m. GroupRefused R.ReencodeIndices row.bytes.now s e m };

    fn append(&self, reencoder: &mut R, out: &mut Vec<u8>) -> Result<(), Error<R::Error>> {
        match stream_group(reencoder, self.bytes, out) {
            Ok(Some(_)) => Ok(()),
            Ok(None) => Err(Error::ParseError(ReadError { at: 0 })),
            Err(e) => Err(e),
        }
    }
}

/// Maps the group of types that stands at the front of some bytes, and adds it.
fn parse_group<R: ReencodeItems>(
    reencoder: &mut R,
    types: &mut w::TypeSection,
    bytes: &[u8],
) -> Result<(), Error<R::Error>>
    ensures { (t : Tree) (left : List ℕ) → Begins (Shape.ref Named.group) bytes.now t left
        → RowClauses R.ReencodeIndices t reencoder.old types.old reencoder.new types.new result }
{
    match types.append(&Group { bytes }, reencoder) {
        Ok(true) => Ok(()),
        Ok(false) => Err(Error::TooLarge { size: 1 << 32 }),
        Err(e) => Err(e),
    }
}

/// Maps the rows that the reader still has as `Reencode::parse_type_section` does by default, and without lists: each group from the
/// bytes that it stands in to those that it becomes, type by type and parameter by parameter.
///
/// A reencoder that keeps the default methods overrides that method by this function, as `DefaultReencode` does. It asks the methods
/// of `ReencodeItems` for value types, fields, and indices of types, and none of those that hold lists.
pub fn parse_type_section<R: ReencodeItems>(
    reencoder: &mut R,
    types: &mut w::TypeSection,
    section: r::TypeSectionReader<'_>,
) -> Result<(), Error<R::Error>>
    ensures { RowsClauses R.ReencodeIndices (row_of ids.Type_) section.entry
        reencoder.old types.old reencoder.new types.new result }
{
    let mut rows = section;
    'rows: while let Some(bytes) = rows.next_group()? {
        parse_group(reencoder, types, bytes)?;
    }
    Ok(())
}
