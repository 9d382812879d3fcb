//! The hooks of two reencoders, one after the other.
use crate::indices::ReencodeComponentIndices;
use reencode_hooks::{Chain, ChainError, Error};

// Asks `a`, and then `b` with its answer.
macro_rules! ask_both {
    ($chain:ident, $hook:ident, $index:ident) => {{
        let answer = $chain.a.$hook($index);
        $chain.b.$hook(answer)
    }};
}

// The same so many scopes further out.
macro_rules! ask_outer {
    ($chain:ident, $hook:ident, $count:ident, $index:ident) => {{
        let answer = $chain.a.$hook($count, $index);
        $chain.b.$hook($count, answer)
    }};
}

// An error of a hook of one of the two as the chain's: a refusal, or memory ran out.
macro_rules! refused {
    ($e:ident, $part:ident) => {
        match $e {
            Error::UserError(refusal) => Error::UserError(ChainError::$part(refusal)),
            _ => Error::NoMemory,
        }
    };
}

impl<A: ReencodeComponentIndices, B: ReencodeComponentIndices> ReencodeComponentIndices
    for Chain<A, B> {
    fn component_type_index(&mut self, index: u32) -> u32 {
        ask_both!(self, component_type_index, index)
    }

    fn component_instance_index(&mut self, index: u32) -> u32 {
        ask_both!(self, component_instance_index, index)
    }

    fn component_func_index(&mut self, index: u32) -> u32 {
        ask_both!(self, component_func_index, index)
    }

    fn component_index(&mut self, index: u32) -> u32 {
        ask_both!(self, component_index, index)
    }

    fn module_index(&mut self, index: u32) -> u32 {
        ask_both!(self, module_index, index)
    }

    fn instance_index(&mut self, index: u32) -> u32 {
        ask_both!(self, instance_index, index)
    }

    fn component_value_index(&mut self, index: u32) -> u32 {
        ask_both!(self, component_value_index, index)
    }

    fn outer_component_type_index(&mut self, count: u32, index: u32) -> u32 {
        ask_outer!(self, outer_component_type_index, count, index)
    }

    fn outer_component_index(&mut self, count: u32, index: u32) -> u32 {
        ask_outer!(self, outer_component_index, count, index)
    }

    fn outer_module_index(&mut self, count: u32, index: u32) -> u32 {
        ask_outer!(self, outer_module_index, count, index)
    }

    fn outer_type_index(
        &mut self,
        count: u32,
        index: u32,
    ) -> Result<u32, Error<ChainError<A::Error, B::Error>>> {
        match self.a.outer_type_index(count, index) {
            Ok(answer) => match self.b.outer_type_index(count, answer) {
                Ok(answer) => Ok(answer),
                Err(e) => Err(refused!(e, Second)),
            },
            Err(e) => Err(refused!(e, First)),
        }
    }

    fn push_depth(&mut self) -> Result<(), Error<ChainError<A::Error, B::Error>>> {
        match self.a.push_depth() {
            Ok(()) => match self.b.push_depth() {
                Ok(()) => Ok(()),
                Err(e) => Err(refused!(e, Second)),
            },
            Err(e) => Err(refused!(e, First)),
        }
    }

    fn pop_depth(&mut self) {
        self.a.pop_depth();
        self.b.pop_depth();
    }
}
