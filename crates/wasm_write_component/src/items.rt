//! What stands in the vectors of rows, in its normal spelling.
ghost use Rattle.std.specs.Prelude.{◌≡◌, ◌++◌, take, vec_len, OnOk, OnErr};
ghost use Rattle.wasm_shapes.specs.Tree.{normal};
ghost use Rattle.wasm_shapes.specs.Fits.{InRange};
ghost use Rattle.wasm_types.specs.ComponentTrees.{canonical_option_tree};

use crate::types::{CanonicalOption, ComponentArg, Export, InstantiationArg};
use crate::value_types::{write_byte, write_extern_name, write_led, write_sorted};
use wasm_leb::{NoMemory, write_u32};
use wasm_write::{ItemOf, WriteFault, write_item, write_name};

/// What is handed over: to a core module, to a component, to a function.
pub struct InArguments;

/// What an instance exports.
pub struct InExports;

/// The options of a canonical function.
pub struct InOptions;

impl<'a> ItemOf<InArguments> for InstantiationArg<'a> {
    ghost use Rattle.wasm_types.specs.ComponentTrees.{instantiation_arg_tree};

    ghost tree = { instantiation_arg_tree };

    fn write(&self, out: &mut Vec<u8>) -> Result<(), WriteFault> {
        match write_name(out, self.name) {
            Ok(()) => {}
            Err(fault) => return Err(fault),
        }
        match write_led(out, &[0x12], self.index) {
            Ok(()) => Ok(()),
            Err(NoMemory) => Err(WriteFault::NoMemory),
        }
    }
}

impl<'a> ItemOf<InArguments> for ComponentArg<'a> {
    ghost use Rattle.wasm_types.specs.ComponentTrees.{component_arg_tree};

    ghost tree = { component_arg_tree };

    fn write(&self, out: &mut Vec<u8>) -> Result<(), WriteFault> {
        match write_name(out, self.name) {
            Ok(()) => {}
            Err(fault) => return Err(fault),
        }
        match write_sorted(out, self.kind, self.index) {
            Ok(()) => Ok(()),
            Err(NoMemory) => Err(WriteFault::NoMemory),
        }
    }
}

/// A value.
impl ItemOf<InArguments> for u32 {
    ghost use Rattle.wasm_write_component.specs.ComponentRows.{value_index_tree};

    ghost tree = { value_index_tree };

    fn write(&self, out: &mut Vec<u8>) -> Result<(), WriteFault> {
        match write_u32(out, *self) {
            Ok(()) => Ok(()),
            Err(NoMemory) => Err(WriteFault::NoMemory),
        }
    }
}

impl<'a> ItemOf<InExports> for Export<'a> {
    ghost use Rattle.wasm_write_component.specs.ComponentRows.{export_row_tree};

    ghost tree = { export_row_tree };

    fn write(&self, out: &mut Vec<u8>) -> Result<(), WriteFault> {
        match write_name(out, self.name) {
            Ok(()) => {}
            Err(fault) => return Err(fault),
        }
        match write_item(out, self.kind, self.index) {
            Ok(()) => Ok(()),
            Err(NoMemory) => Err(WriteFault::NoMemory),
        }
    }
}

impl<'a> ItemOf<InExports> for ComponentArg<'a> {
    ghost use Rattle.wasm_types.specs.ComponentTrees.{inline_export_tree};

    ghost tree = { inline_export_tree };

    fn write(&self, out: &mut Vec<u8>) -> Result<(), WriteFault> {
        match write_extern_name(out, self.name) {
            Ok(()) => {}
            Err(fault) => return Err(fault),
        }
        match write_sorted(out, self.kind, self.index) {
            Ok(()) => Ok(()),
            Err(NoMemory) => Err(WriteFault::NoMemory),
        }
    }
}

/// Appends an option of a canonical function, or a part of it where memory runs out.
fn write_canonical_option(out: &mut Vec<u8>, option: CanonicalOption) -> Result<(), NoMemory>
    ensures ok { OnOk result
        (out.new.items ≡ out.old.items ++ normal (canonical_option_tree option)) }
    ensures in_range { OnOk result (InRange (canonical_option_tree option)) }
    ensures err { OnErr result (take (vec_len out.old) out.new.items ≡ out.old.items) }
{
    let (byte, index) = match option {
        CanonicalOption::UTF8 => return write_byte(out, 0x00),
        CanonicalOption::UTF16 => return write_byte(out, 0x01),
        CanonicalOption::CompactUTF16 => return write_byte(out, 0x02),
        CanonicalOption::Memory(index) => (0x03, index),
        CanonicalOption::Realloc(index) => (0x04, index),
        CanonicalOption::PostReturn(index) => (0x05, index),
        CanonicalOption::Async => return write_byte(out, 0x06),
        CanonicalOption::Callback(index) => (0x07, index),
        CanonicalOption::CoreType(index) => (0x08, index),
        CanonicalOption::Gc => return write_byte(out, 0x09),
    };
    write_led(out, &[byte], index)
}

impl ItemOf<InOptions> for CanonicalOption {
    ghost use Rattle.wasm_types.specs.ComponentTrees.{canonical_option_tree};

    ghost tree = { canonical_option_tree };

    fn write(&self, out: &mut Vec<u8>) -> Result<(), WriteFault> {
        match write_canonical_option(out, *self) {
            Ok(()) => Ok(()),
            Err(NoMemory) => Err(WriteFault::NoMemory),
        }
    }
}
