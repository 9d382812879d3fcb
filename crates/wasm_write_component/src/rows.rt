//! Imports, exports and instances of components in their normal spelling.
use crate::items::{InArguments, InExports};
use crate::sections::Of;
use crate::types::{ComponentExport, ComponentImport, ComponentInstance, Instance};
use crate::value_types::{
    write_byte, write_component_type_ref, write_extern_name, write_led, write_maybe_type_ref,
    write_sorted,
};
use wasm_leb::NoMemory;
use wasm_shapes::component_kinds;
use wasm_write::{RowOf, WriteFault, write_vec};

impl<'a> RowOf<Of<component_kinds::ComponentImports>> for ComponentImport<'a> {
    ghost use Rattle.wasm_types.specs.ComponentTrees.{component_import_tree};

    ghost tree = { component_import_tree };

    #[tactic(auto, using(crate::proofs::ExternRows::import_spelled))]
    fn write(&self, out: &mut Vec<u8>) -> Result<(), WriteFault> {
        match write_extern_name(out, self.name) {
            Ok(()) => {}
            Err(fault) => return Err(fault),
        }
        match write_component_type_ref(out, self.ty) {
            Ok(()) => Ok(()),
            Err(NoMemory) => Err(WriteFault::NoMemory),
        }
    }
}

impl<'a> RowOf<Of<component_kinds::ComponentExports>> for ComponentExport<'a> {
    ghost use Rattle.wasm_types.specs.ComponentTrees.{component_export_tree};

    ghost tree = { component_export_tree };

    #[tactic(auto, using(crate::proofs::ExternRows::export_spelled))]
    fn write(&self, out: &mut Vec<u8>) -> Result<(), WriteFault> {
        match write_extern_name(out, self.name) {
            Ok(()) => {}
            Err(fault) => return Err(fault),
        }
        match write_sorted(out, self.kind, self.index) {
            Ok(()) => {}
            Err(NoMemory) => return Err(WriteFault::NoMemory),
        }
        match write_maybe_type_ref(out, self.ty) {
            Ok(()) => Ok(()),
            Err(NoMemory) => Err(WriteFault::NoMemory),
        }
    }
}

impl<'a> RowOf<Of<component_kinds::Instances>> for Instance<'a> {
    ghost use Rattle.wasm_write_component.specs.ComponentRows.{instance_tree};

    ghost tree = { instance_tree };

    #[tactic(auto, using(crate::proofs::InstanceRows::instance_spelled))]
    fn write(&self, out: &mut Vec<u8>) -> Result<(), WriteFault> {
        match self {
            Instance::Instantiate { module_index, args } => {
                match write_led(out, &[0x00], *module_index) {
                    Ok(()) => write_vec::<InArguments, _>(out, args.as_slice()),
                    Err(NoMemory) => Err(WriteFault::NoMemory),
                }
            }
            Instance::FromExports(exports) => match write_byte(out, 0x01) {
                Ok(()) => write_vec::<InExports, _>(out, exports.as_slice()),
                Err(NoMemory) => Err(WriteFault::NoMemory),
            },
        }
    }
}

impl<'a> RowOf<Of<component_kinds::ComponentInstances>> for ComponentInstance<'a> {
    ghost use Rattle.wasm_types.specs.ComponentTrees.{component_instance_tree};

    ghost tree = { component_instance_tree };

    #[tactic(auto, using(crate::proofs::InstanceRows::component_instance_spelled))]
    fn write(&self, out: &mut Vec<u8>) -> Result<(), WriteFault> {
        match self {
            ComponentInstance::Instantiate {
                component_index,
                args,
            } => match write_led(out, &[0x00], *component_index) {
                Ok(()) => write_vec::<InArguments, _>(out, args.as_slice()),
                Err(NoMemory) => Err(WriteFault::NoMemory),
            },
            ComponentInstance::FromExports(exports) => match write_byte(out, 0x01) {
                Ok(()) => write_vec::<InExports, _>(out, exports.as_slice()),
                Err(NoMemory) => Err(WriteFault::NoMemory),
            },
        }
    }
}
