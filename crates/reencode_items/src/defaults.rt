//! The reencoders that keep every default.
ghost use Rattle.std.specs.Prelude.{◌≡◌, ◌≢◌, ◌∷◌, ◌++◌, [], OnErr, OnOk, map};
ghost use Rattle.wasm_shapes.specs.Immediates.{HasKinds};
ghost use Rattle.wasm_shapes.specs.Operators.{code_of, plain};
ghost use Rattle.wasm_write.specs.Instructions.{imm_kind, operator_tree};
ghost use Rattle.reencode_items.specs.Direct.{imms_of};

use crate::direct::{Fresh, Next, pass_run};
use crate::items::ReencodeItems;
use reencode_hooks::{
    ByRule, Chain, Error, IndexRule, ReencodeIndices, Renamer, RoundtripReencoder,
};
use std::alloc::Global;
use wasm_leb::NoMemory;
use wasm_read as r;
use wasm_shapes::{END, Opcode};
use wasm_write as w;

/// Adds the operator of an opcode and immediates.
fn add(mapped: &mut w::ConstExpr, opcode: Opcode, fresh: Fresh) -> Result<(), NoMemory>
    requires kinds { HasKinds opcode (map imm_kind (imms_of fresh)) }
    requires other { code_of opcode ≢ plain 0x0b }
    ensures ok { OnOk result (mapped.new ≡ mapped.old ++ operator_tree opcode (imms_of fresh) ∷ []) }
    ensures err { OnErr result (mapped.new ≡ mapped.old) }
{
    match fresh {
        Fresh::Index(space, index) => mapped.operator(opcode, &[w::Imm::Index(space, index)]),
        Fresh::Two(space, index, other, second) => mapped.operator(
            opcode,
            &[w::Imm::Index(space, index), w::Imm::Index(other, second)],
        ),
        Fresh::S32(number) => mapped.operator(opcode, &[w::Imm::S32(number)]),
        Fresh::Mem(arg) => mapped.operator(opcode, &[w::Imm::Mem(arg)]),
    }
}

/// A reencoder that keeps every default method of `ReencodeItems`. Its constant expressions are mapped without lists, by `direct`.
///
/// To implement it is all that is needed, and costs no proof; `impl ReencodeItems for X {}` proves each default once more for
/// `X`. A reencoder that overrides a method implements `ReencodeItems` itself.
pub trait DefaultItems: ReencodeIndices {}

impl<T: DefaultItems> ReencodeItems for T {
    const DEFAULT_ITEMS: bool = true;

    fn const_expr(
        &mut self,
        alloc: Global,
        const_expr: r::ConstExpr<'_>,
    ) -> Result<w::ConstExpr, Error<Self::Error>> {
        let mut mapped = w::ConstExpr::new(alloc);
        let mut reader = const_expr.get_operators_reader();
        let mut next = Next::Other;
        'operators: loop {
            let left = reader.rest();
            let bytes = &left[..left.len() - 1];
            let kept = pass_run(self, bytes, &mut next)?;
            mapped.spelled(&bytes[..kept])?;
            if kept == bytes.len() {
                return Ok(mapped);
            }
            reader.pass(kept);
            match next {
                Next::Made(opcode, fresh, count) => {
                    add(&mut mapped, opcode, fresh)?;
                    reader.pass(count);
                }
                Next::Other => {
                    let operator = reader.read(alloc)?;
                    let instruction = self.instruction(alloc, operator)?;
                    if instruction.opcode() == END {
                        return Err(Error::InvalidConstExpr);
                    }
                    mapped.instruction(&instruction)?;
                }
            }
        }
    }
}

impl DefaultItems for RoundtripReencoder {}

impl DefaultItems for Renamer {}

impl<R: IndexRule> DefaultItems for ByRule<R> {}

impl<A: ReencodeIndices, B: ReencodeIndices> DefaultItems for Chain<A, B> {}
