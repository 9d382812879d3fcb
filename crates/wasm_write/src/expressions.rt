//! Constant expressions, as they are written.
ghost use Rattle.std.specs.Prelude.{◌≡◌, ◌≢◌, ◌++◌, ◌∷◌, [], ◌+◌, length, map, take, vec_len, OnOk, OnErr};
ghost use Rattle.wasm_shapes.specs.Tree.{normal};
ghost use Rattle.wasm_shapes.specs.Shape.{Shape, Named};
ghost use Rattle.wasm_shapes.specs.Spells.{Spells};
ghost use Rattle.wasm_shapes.specs.Types.{expression_of};
ghost use Rattle.wasm_shapes.specs.Operators.{code_of, plain};
ghost use Rattle.wasm_shapes.specs.Immediates.{HasKinds};
ghost use Rattle.wasm_write.specs.Instructions.{imm_kind, instruction_tree, operator_tree};
ghost use Rattle.wasm_write.specs.Bodies.{HeldOperators, HeldOperators-prop};

use crate::immediates::write_bytes;
use crate::instructions::{Instruction, write_operator};
use crate::types::Imm;
use crate::value_types::write_byte;
use std::alloc::Global;
use std::marker::Model;
use wasm_leb::NoMemory;
use wasm_shapes::Opcode;

/// A constant expression (WebAssembly Core Specification 3.0, section 5.4.13).
///
/// Contracts see it as the list of its operators. It holds their normal spelling; the byte that closes the expression is
/// written by the section that it is added to.
#[derive(Drop)]
pub struct ConstExpr {
    bytes: Vec<u8>,
    ghost held: { HeldOperators bytes.items } by { HeldOperators-prop bytes.items },
}

impl Model for ConstExpr {
    ghost use Rattle.std.specs.Prelude.{List};
    ghost use Rattle.wasm_shapes.specs.Tree.{Tree};
    ghost use Rattle.wasm_shapes.specs.TreeCode.{trees_code};
    ghost use Rattle.wasm_write.specs.Bodies.{held_operators};

    ghost Value = { List Tree };

    ghost coded = { trees_code };

    ghost view = { λ e. held_operators e.bytes.items e.held };
}

impl ConstExpr {
    /// An expression without operators. It takes no memory.
    pub fn new(alloc: Global) -> ConstExpr
        ensures { result ≡ [] }
    {
        ConstExpr {
            bytes: Vec::new(alloc),
        }
    }

    /// Adds an operator other than `end`, or nothing where memory runs out.
    pub fn instruction(&mut self, instruction: &Instruction<'_>) -> Result<(), NoMemory>
        requires { code_of instruction.now.opcode ≢ plain 0x0b }
        ensures ok { OnOk result (self.new ≡ self.old ++ instruction_tree instruction.now ∷ []) }
        ensures err { OnErr result (self.new ≡ self.old) }
    {
        let len = self.bytes.len();
        match instruction.encode(&mut self.bytes) {
            Ok(()) => Ok(()),
            Err(NoMemory) => {
                self.bytes.truncate(len);
                Err(NoMemory)
            }
        }
    }

    /// Adds the operator of an opcode with these immediates, as `instruction` does, with no list of them.
    pub fn operator(&mut self, opcode: Opcode, imms: &[Imm<'_>]) -> Result<(), NoMemory>
        requires kinds { HasKinds opcode (map imm_kind imms.now) }
        requires other { code_of opcode ≢ plain 0x0b }
        ensures ok { OnOk result (self.new ≡ self.old ++ operator_tree opcode imms.now ∷ []) }
        ensures err { OnErr result (self.new ≡ self.old) }
    {
        let len = self.bytes.len();
        match write_operator(&mut self.bytes, opcode, imms) {
            Ok(()) => Ok(()),
            Err(NoMemory) => {
                self.bytes.truncate(len);
                Err(NoMemory)
            }
        }
    }

    /// Adds the operators other than `end` whose normal spelling these bytes are, or nothing where memory runs out.
    #[inline(always)]
    pub fn spelled(&mut self, bytes: &[u8]) -> Result<(), NoMemory>
        requires { HeldOperators bytes.now }
        ensures ok { OnOk result
            ((held : HeldOperators bytes.now) → self.new ≡ self.old ++ held.0) }
        ensures err { OnErr result (self.new ≡ self.old) }
    {
        let Ok(()) = write_bytes(&mut self.bytes, bytes) else {
            return Err(NoMemory);
        };
        Ok(())
    }

    /// How many bytes its operators have. They and `end` have a spelling.
    pub(crate) fn len(&self) -> usize
        ensures len { result + 1 ≡ length (normal (expression_of self.now)) }
        ensures spells { ∥ Spells (Shape.ref Named.expression) (normal (expression_of self.now))
            (expression_of self.now) ∥₁ }
    {
        self.bytes.len()
    }

    /// Appends the operators and `end` behind them, or a part of that where memory runs out.
    pub(crate) fn encode(&self, out: &mut Vec<u8>) -> Result<(), NoMemory>
        ensures ok { OnOk result
            (out.new.items ≡ out.old.items ++ normal (expression_of self.now)) }
        ensures spells { ∥ Spells (Shape.ref Named.expression) (normal (expression_of self.now))
            (expression_of self.now) ∥₁ }
        ensures err { OnErr result (take (vec_len out.old) out.new.items ≡ out.old.items) }
    {
        match out.extend_from_slice(&self.bytes) {
            Ok(()) => write_byte(out, 0x0b),
            Err(_) => Err(NoMemory),
        }
    }
}
