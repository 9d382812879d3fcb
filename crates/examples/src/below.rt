//! A checker: no index of a function is as large as a bound.
ghost use Rattle.std.specs.Prelude.{IfErr, IfOk};
ghost use Rattle.reencode_core.specs.Rules.{IfUser, IsMade, IsRefusal, IsRenamed};
ghost use Rattle.examples.specs.Below.{known, known_is_rule};

use reencode_core::reencode_by_rule;
use reencode_hooks::{Error, IndexRule};
use std::alloc::Global;
use wasm_shapes::Space;

/// So many functions are known.
#[derive(Clone, Copy, Debug)]
pub struct Below {
    pub bound: u32,
}

/// This function isn't known.
#[derive(Clone, Copy, Debug)]
pub struct NotBelow {
    pub index: u32,
}

impl IndexRule for Below {
    type Error = NotBelow;

    ghost renamed = { λ rule space index. known rule.bound space index };

    ghost is_rule = { λ rule space index h. known_is_rule rule.bound space index h };

    fn index(&self, space: Space, index: u32) -> Result<u32, NotBelow> {
        match space {
            Space::Function if index >= self.bound => Err(NotBelow { index }),
            _ => Ok(index),
        }
    }
}

/// The module as it is, where each function that it names is below the bound.
pub fn check_below(alloc: Global, bytes: &[u8], bound: u32) -> Result<Vec<u8>, Error<NotBelow>>
    ensures ok { IfOk result (λ out. IsRenamed (known bound) bytes.now out.items) }
    ensures refused { IfErr result (λ e. IfUser e (IsRefusal (known bound) bytes.now)) }
    ensures made { IfErr result (IsMade (known bound) 4294967295 bytes.now) }
{
    reencode_by_rule(alloc, Below { bound }, bytes, u32::MAX)
}
