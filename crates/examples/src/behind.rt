//! A linker's step: the functions of a module move behind those of another.
ghost use Rattle.std.specs.Prelude.{IfErr, IfOk};
ghost use Rattle.reencode_core.specs.Rules.{IfUser, IsMade, IsRefusal, IsRenamed};
ghost use Rattle.examples.specs.Behind.{moved, moved_is_rule};

use reencode_core::reencode_by_rule;
use reencode_hooks::{Error, IndexRule};
use std::alloc::Global;
use wasm_shapes::Space;

/// Each function moves behind so many others.
#[derive(Clone, Copy, Debug)]
pub struct Behind {
    pub count: u32,
}

/// This index would pass the last one.
#[derive(Clone, Copy, Debug)]
pub struct TooMany {
    pub index: u32,
}

impl IndexRule for Behind {
    type Error = TooMany;

    ghost renamed = { λ rule space index. moved rule.count space index };

    ghost is_rule = { λ rule space index h. moved_is_rule rule.count space index h };

    fn index(&self, space: Space, index: u32) -> Result<u32, TooMany> {
        match space {
            Space::Function => index.checked_add(self.count).ok_or(TooMany { index }),
            _ => Ok(index),
        }
    }
}

/// The module with each function moved behind `count` others.
pub fn move_behind(alloc: Global, bytes: &[u8], count: u32) -> Result<Vec<u8>, Error<TooMany>>
    ensures ok { IfOk result (λ out. IsRenamed (moved count) bytes.now out.items) }
    ensures refused { IfErr result (λ e. IfUser e (IsRefusal (moved count) bytes.now)) }
    ensures made { IfErr result (IsMade (moved count) 4294967295 bytes.now) }
{
    reencode_by_rule(alloc, Behind { count }, bytes, u32::MAX)
}
