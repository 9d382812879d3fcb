//! A binary without names that have no reading.
ghost use Rattle.std.specs.Prelude.{IfOk};
ghost use Rattle.wasm_strip.specs.Sound.{IsSound};

use crate::choice::Choice;
use crate::fault::StripFault;
use crate::stripping::strip;
use std::alloc::Global;
use wasm_leb::NoMemory;

/// What is removed.
const MALFORMED: Choice<'static> = Choice {
    names: false,
    malformed: true,
    debug: false,
    stale: false,
    all: false,
    sections: &[],
};

/// The core module or component without the sections `name` of core modules, and `component-name` of components, whose contents have
/// no reading. Bytes that are none by
/// their sections come back as they are.
pub fn without_malformed(alloc: Global, bytes: Vec<u8>) -> Result<Vec<u8>, NoMemory>
    ensures { IfOk result (λ sound. IsSound bytes.items sound.items) }
{
    match strip(alloc, &MALFORMED, bytes.as_slice()) {
        Ok(sound) => Ok(sound),
        Err(fault) => match fault {
            StripFault::NoMemory => Err(NoMemory),
            StripFault::Read { .. } | StripFault::TooDeep { .. } => Ok(bytes),
        },
    }
}
