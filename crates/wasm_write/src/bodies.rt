//! Functions.
ghost use Rattle.std.specs.Prelude.{◌≡◌, ◌++◌, ◌∷◌, ◌-◌, ◌^◌, ◌<◌, [], length, map, true, take, vec_len, OnOk, OnErr, IfOk, IfErr};
ghost use Rattle.wasm_shapes.specs.Tree.{normal};
ghost use Rattle.wasm_shapes.specs.Spells.{Spells};
ghost use Rattle.wasm_shapes.specs.Fits.{InRange};
ghost use Rattle.wasm_write.specs.Faults.{IfTooLarge};
ghost use Rattle.wasm_shapes.specs.Immediates.{HasKinds};
ghost use Rattle.wasm_types.specs.declared.types.Imm.TheVariants as imm;
ghost use Rattle.wasm_write.specs.Instructions.{imm_kind, instruction_tree, operator_tree};
ghost use Rattle.wasm_shapes.specs.Module.{body as body_shape};
ghost use Rattle.wasm_write.specs.Bodies.{Body, HasOperators, HeldBody, HeldBody-prop, IsBody, function_body, local_tree, with_operator, GainsOperators};

use crate::fault::WriteFault;
use crate::immediates::write_bytes;
use crate::instructions::{Instruction, write_index_operator, write_operator};
use crate::types::{Imm, ValType};
use crate::value_types::write_val_type;
use crate::vectors::{InCode, ItemOf, write_list};
use std::alloc::Global;
use std::marker::Model;
use wasm_leb::{List, NoMemory, write_u32};
use wasm_shapes::{Opcode, Space};

/// A function under construction (WebAssembly Core Specification 3.0, section 5.5.13).
///
/// Contracts see it as its locals and its operators. It holds their normal spelling.
#[derive(Drop)]
pub struct Function {
    bytes: Vec<u8>,
    ghost held: { HeldBody bytes.items } by { HeldBody-prop bytes.items },
}

impl Model for Function {
    ghost use Rattle.wasm_write.specs.Bodies.{Body, body_code, held_body};

    ghost Value = { Body };

    ghost coded = { body_code };

    ghost view = { λ f. held_body f.bytes.items f.held };
}

/// The bytes for which a function has room from the start: most need no more, and take memory once.
const COMMON_LENGTH: usize = 64;

/// Appends so many locals of a type, or a part of them where memory runs out.
fn write_local(out: &mut Vec<u8>, local: (u32, ValType)) -> Result<(), NoMemory>
    ensures ok { OnOk result (out.new.items ≡ out.old.items ++ normal (local_tree local)) }
    ensures in_range { OnOk result (InRange (local_tree local)) }
    ensures err { OnErr result (take (vec_len out.old) out.new.items ≡ out.old.items) }
{
    match write_u32(out, local.0) {
        Ok(()) => write_val_type(out, local.1),
        Err(NoMemory) => Err(NoMemory),
    }
}

impl ItemOf<InCode> for (u32, ValType) {
    ghost use Rattle.wasm_write.specs.Bodies.{local_tree};

    ghost tree = { local_tree };

    fn write(&self, out: &mut Vec<u8>) -> Result<(), WriteFault> {
        match write_local(out, *self) {
            Ok(()) => Ok(()),
            Err(NoMemory) => Err(WriteFault::NoMemory),
        }
    }
}

impl Function {
    /// A function with these locals, each a number of them and their type, and no operator.
    ///
    /// `TooLarge` comes exactly where there are more than 2^32 - 1 pairs, with their number.
    pub fn new(alloc: Global, locals: &List<(u32, ValType)>) -> Result<Function, WriteFault>
        ensures ok { IfOk result
            (λ f. f ≡ record { locals = map local_tree locals.now; operators = [] }) }
        ensures fits { OnOk result (length locals.now < 2 ^ 32) }
        ensures large { IfErr result (λ e. IfTooLarge e
            (λ size. (size ≡ length locals.now) × (2 ^ 32 - 1 < size))) }
    {
        let count = locals.len();
        if count > u32::MAX as usize {
            return Err(WriteFault::TooLarge { size: count as u64 });
        }
        let mut bytes = match Vec::with_capacity(alloc, COMMON_LENGTH) {
            Ok(bytes) => bytes,
            Err(_) => return Err(WriteFault::NoMemory),
        };
        match write_list(&mut bytes, locals.as_slice()) {
            Ok(()) => Ok(Function { bytes }),
            Err(NoMemory) => Err(WriteFault::NoMemory),
        }
    }

    /// The function whose normal spelling these bytes are, with room for so many. The one refusal is out of memory.
    pub fn of_spelled(alloc: Global, bytes: &[u8], room: usize) -> Result<Function, WriteFault>
        requires { HeldBody bytes.now }
        ensures ok { IfOk result (λ f. (g : Body) → IsBody bytes.now g → f ≡ g) }
        ensures wants { IfErr result (λ e. e ≡ WriteFault.NoMemory) }
    {
        let Ok(mut held) = Vec::with_capacity(alloc, room) else {
            return Err(WriteFault::NoMemory);
        };
        let Ok(()) = write_bytes(&mut held, bytes) else {
            return Err(WriteFault::NoMemory);
        };
        Ok(Function { bytes: held })
    }

    /// Adds an operator. The one refusal is out of memory, and changes nothing.
    #[inline(always)]
    pub fn instruction(&mut self, instruction: &Instruction<'_>) -> Result<(), WriteFault>
        ensures ok { OnOk result
            (self.new ≡ with_operator self.old (instruction_tree instruction.now)) }
        ensures err { OnErr result (self.new ≡ self.old) }
        ensures wants { IfErr result (λ e. e ≡ WriteFault.NoMemory) }
    {
        let len = self.bytes.len();
        match instruction.encode(&mut self.bytes) {
            Ok(()) => Ok(()),
            Err(NoMemory) => {
                self.bytes.truncate(len);
                Err(WriteFault::NoMemory)
            }
        }
    }

    /// Adds the operator of an opcode with these immediates, as `instruction` does, with no list of them.
    #[inline(always)]
    pub fn operator(&mut self, opcode: Opcode, imms: &[Imm<'_>]) -> Result<(), WriteFault>
        requires { HasKinds opcode (map imm_kind imms.now) }
        ensures ok { OnOk result
            (self.new ≡ with_operator self.old (operator_tree opcode imms.now)) }
        ensures err { OnErr result (self.new ≡ self.old) }
        ensures wants { IfErr result (λ e. e ≡ WriteFault.NoMemory) }
    {
        let len = self.bytes.len();
        match write_operator(&mut self.bytes, opcode, imms) {
            Ok(()) => Ok(()),
            Err(NoMemory) => {
                self.bytes.truncate(len);
                Err(WriteFault::NoMemory)
            }
        }
    }

    /// Adds the operator of an opcode with one index, as `operator` does.
    #[inline(always)]
    pub fn index_operator(
        &mut self,
        opcode: Opcode,
        space: Space,
        index: u32,
    ) -> Result<(), WriteFault>
        requires { HasKinds opcode (imm_kind (imm.Index space index) ∷ []) }
        ensures ok { OnOk result (self.new
            ≡ with_operator self.old (operator_tree opcode (imm.Index space index ∷ []))) }
        ensures err { OnErr result (self.new ≡ self.old) }
        ensures wants { IfErr result (λ e. e ≡ WriteFault.NoMemory) }
    {
        let len = self.bytes.len();
        match write_index_operator(&mut self.bytes, opcode, space, index) {
            Ok(()) => Ok(()),
            Err(NoMemory) => {
                self.bytes.truncate(len);
                Err(WriteFault::NoMemory)
            }
        }
    }

    /// Adds the operators whose normal spelling these bytes are. The one refusal is out of memory, and changes nothing.
    #[inline(always)]
    pub fn spelled(&mut self, bytes: &[u8]) -> Result<(), WriteFault>
        requires { HasOperators bytes.now }
        ensures ok { OnOk result (GainsOperators self.old bytes.now self.new) }
        ensures err { OnErr result (self.new ≡ self.old) }
        ensures wants { IfErr result (λ e. e ≡ WriteFault.NoMemory) }
    {
        let Ok(()) = write_bytes(&mut self.bytes, bytes) else {
            return Err(WriteFault::NoMemory);
        };
        Ok(())
    }

    /// The normal spelling of the locals and the operators, which reads back as this function.
    pub(crate) fn as_bytes(&self) -> &[u8]
        ensures value { result.now ≡ normal (function_body self.now) }
        ensures spells { ∥ Spells body_shape (normal (function_body self.now))
            (function_body self.now) ∥₁ }
    {
        &self.bytes
    }
}
