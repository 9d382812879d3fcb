//! Sections that are given as they stand.
ghost use Rattle.std.specs.Prelude.{◌≡◌, ◌++◌, ◌≤◌, OnOk, OnErr, take, vec_len};
ghost use Rattle.std.proofs.Common.{lit≤};
ghost use Rattle.wasm_shapes.specs.Tree.{Tree, normal};
ghost use Rattle.wasm_write.specs.Rows.{start_tree, data_count_tree, custom_tree};

use crate::fields::named_len;
use crate::section::Section;
use crate::types::CustomSection;
use wasm_leb::{NoMemory, write_u32, write_u64};

/// A start section: the function that starts the module (WebAssembly Core Specification 3.0, section 5.5.11).
#[derive(Clone, Copy, PartialEq, Debug)]
pub struct StartSection {
    pub function_index: u32,
}

/// A data count section: the number of data segments (WebAssembly Core Specification 3.0, section 5.5.15).
#[derive(Clone, Copy, PartialEq, Debug)]
pub struct DataCountSection {
    pub count: u32,
}

/// A section of any id that is at most 127, by the bytes of its body.
#[derive(Clone, Copy, PartialEq, Debug)]
pub struct RawSection<'a> {
    pub id: u8,
    pub contents: &'a [u8],
    pub ghost framed: { id ≤ 127 },
}

impl Section for StartSection {
    ghost number = { λ _. 8 };

    ghost contents = { λ s. normal (start_tree s.function_index) };

    ghost small = { λ _. lit≤ tt };

    fn id(&self) -> u8 {
        8
    }

    fn encode_body(&self, out: &mut Vec<u8>) -> Result<(), NoMemory> {
        write_u32(out, self.function_index)
    }
}

impl Section for DataCountSection {
    ghost number = { λ _. 12 };

    ghost contents = { λ s. normal (data_count_tree s.count) };

    ghost small = { λ _. lit≤ tt };

    fn id(&self) -> u8 {
        12
    }

    fn encode_body(&self, out: &mut Vec<u8>) -> Result<(), NoMemory> {
        write_u32(out, self.count)
    }
}

impl<'a> Section for CustomSection<'a> {
    ghost number = { λ _. 0 };

    ghost contents = { λ s. normal (custom_tree s.name.now s.contents.now) };

    ghost small = { λ _. lit≤ tt };

    fn id(&self) -> u8 {
        0
    }

    fn encode_body(&self, out: &mut Vec<u8>) -> Result<(), NoMemory> {
        match write_u64(out, self.name.len() as u64) {
            Ok(()) => {}
            Err(NoMemory) => return Err(NoMemory),
        }
        match out.extend_from_slice(self.name.as_bytes()) {
            Ok(()) => {}
            Err(_) => return Err(NoMemory),
        }
        match out.extend_from_slice(self.contents) {
            Ok(()) => Ok(()),
            Err(_) => Err(NoMemory),
        }
    }

    fn known_len(&self) -> Option<usize> {
        named_len(self.name.len(), self.contents.len())
    }
}

impl<'a> Section for RawSection<'a> {
    ghost number = { λ s. s.id };

    ghost contents = { λ s. s.contents.now };

    ghost small = { λ s. s.framed };

    fn id(&self) -> u8 {
        self.id
    }

    fn encode_body(&self, out: &mut Vec<u8>) -> Result<(), NoMemory> {
        match out.extend_from_slice(self.contents) {
            Ok(()) => Ok(()),
            Err(_) => Err(NoMemory),
        }
    }

    fn known_len(&self) -> Option<usize> {
        Some(self.contents.len())
    }
}
