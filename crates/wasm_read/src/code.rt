//! The bodies of functions (WebAssembly Core Specification 3.0, section 5.5.13).
ghost use Rattle.std.specs.Prelude.{◌≡◌, ℕ, List, IfOk, IfErr, IfSome, IfNone};
ghost use Rattle.wasm_shapes.specs.Module.{local_row};
ghost use Rattle.wasm_shapes.specs.Place.{Begins, BeginsNone};
ghost use Rattle.wasm_shapes.specs.Shape.{Shape};
ghost use Rattle.wasm_shapes.specs.Tree.{Tree};
ghost use Rattle.wasm_read.specs.Immediates.{locals_tree};
ghost use Rattle.wasm_read.specs.Operations.{rest_of, frame_row, body_tree};
ghost use Rattle.wasm_read.specs.Reading.{ReadsNone, ReadsNoneOrWants};

use crate::operators::OperatorsReader;
use crate::payloads::front_sized;
use crate::types::{FunctionBody, ValType};
use crate::vector_items::{behind_vec, front_vec};
use std::alloc::Global;
use wasm_leb::{Fault, List, NoMemory, ReadError};

/// The frame of a function body at the front of some bytes, and the bytes behind it.
pub fn front_body(bytes: &[u8]) -> Option<(FunctionBody<'_>, &[u8])>
    ensures some { IfSome result (λ r. Begins frame_row bytes.now (body_tree r.0) r.1.now) }
    ensures none { IfNone result (BeginsNone frame_row bytes.now) }
{
    match front_sized(bytes) {
        Some((body, rest)) => Some((FunctionBody { bytes: body }, rest)),
        None => None,
    }
}

impl<'a> FunctionBody<'a> {
    /// The locals that the body declares: how many of a type, one behind another.
    ///
    /// `Read` comes exactly where the body does not begin with a vector of locals, with the place 0. Memory is taken
    /// for no more locals than the body can hold.
    pub fn locals(&self, alloc: Global) -> Result<List<(u32, ValType)>, Fault>
        ensures ok { IfOk result (λ locals. (rest : List ℕ)
            × Begins (Shape.vec local_row) self.now.bytes.now (locals_tree locals) rest) }
        ensures err { IfErr result (λ e.
            ReadsNoneOrWants e 0 (BeginsNone (Shape.vec local_row) self.now.bytes.now)) }
    {
        match front_vec(alloc, self.bytes) {
            Ok(Some((locals, _))) => Ok(locals),
            Ok(None) => Err(Fault::Read(ReadError { at: 0 })),
            Err(NoMemory) => Err(Fault::NoMemory),
        }
    }

    /// A reader of the operators, which stands behind the locals. Its places are counted from the first byte of the
    /// body.
    ///
    /// `Read` comes exactly where the body does not begin with a vector of locals, with the place 0. It is the only
    /// error, and no memory is taken.
    pub fn operators(&self) -> Result<OperatorsReader<'a>, Fault>
        ensures ok { IfOk result (λ reader. (locals : Tree)
            × Begins (Shape.vec local_row) self.now.bytes.now locals (rest_of reader)) }
        ensures bytes { IfOk result (λ reader. reader.bytes ≡ self.now.bytes.now) }
        ensures err { IfErr result (λ e.
            ReadsNone e 0 (BeginsNone (Shape.vec local_row) self.now.bytes.now)) }
    {
        let bytes = self.bytes;
        match behind_vec::<(u32, ValType)>(bytes) {
            Some(rest) => Ok(OperatorsReader::from_place(bytes, bytes.len() - rest.len())),
            None => Err(Fault::Read(ReadError { at: 0 })),
        }
    }
}
