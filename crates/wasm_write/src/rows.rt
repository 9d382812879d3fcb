//! Rows of sections in their normal spelling.
ghost use Rattle.std.specs.Prelude.{◌≡◌, ◌++◌, take, vec_len, OnOk, OnErr};
ghost use Rattle.wasm_shapes.specs.Tree.{placed_bytes};

use crate::expressions::ConstExpr;
use crate::externals::{
    write_global_type, write_imports, write_memory_type, write_table_type, write_tag_type,
};
use crate::fault::WriteFault;
use crate::fields::{write_content, write_item, write_name};
use crate::groups::write_group;
use crate::row_section::RowOf;
use crate::types::{Export, GlobalType, Imports, MemoryType, RecGroup, TableType, TagType};
use wasm_leb::{NoMemory, write_u32};
use wasm_shapes::kinds;

impl RowOf<kinds::Types> for RecGroup {
    ghost use Rattle.wasm_write.specs.Types.{group_tree};

    ghost tree = { group_tree };

    #[tactic(auto, using(crate::proofs::RowSpelling::group_spelled))]
    fn write(&self, out: &mut Vec<u8>) -> Result<(), WriteFault> {
        write_group(out, self)
    }
}

impl<'a> RowOf<kinds::Imports> for Imports<'a> {
    ghost use Rattle.wasm_write.specs.Rows.{import_tree};

    ghost tree = { import_tree };

    #[tactic(auto, using(crate::proofs::RowSpelling::import_spelled))]
    fn write(&self, out: &mut Vec<u8>) -> Result<(), WriteFault> {
        write_imports(out, self)
    }
}

impl RowOf<kinds::Functions> for u32 {
    ghost use Rattle.wasm_shapes.specs.Types.{function_tree};

    ghost tree = { function_tree };

    #[tactic(auto, using(crate::proofs::RowSpelling::function_spelled))]
    fn write(&self, out: &mut Vec<u8>) -> Result<(), WriteFault> {
        match write_u32(out, *self) {
            Ok(()) => Ok(()),
            Err(NoMemory) => Err(WriteFault::NoMemory),
        }
    }
}

impl RowOf<kinds::Tables> for TableType {
    ghost use Rattle.wasm_write.specs.Rows.{null_table_tree};

    ghost tree = { null_table_tree };

    #[tactic(auto, using(crate::proofs::RowSpelling::null_table_spelled))]
    fn write(&self, out: &mut Vec<u8>) -> Result<(), WriteFault> {
        match write_table_type(out, *self) {
            Ok(()) => Ok(()),
            Err(NoMemory) => Err(WriteFault::NoMemory),
        }
    }
}

/// A table and the expression of its first value.
#[derive(Drop)]
pub(crate) struct TableWithInit<'a> {
    pub(crate) ty: TableType,
    pub(crate) init: &'a ConstExpr,
}

impl<'a> RowOf<kinds::Tables> for TableWithInit<'a> {
    ghost use Rattle.wasm_write.specs.Rows.{table_with_init_tree};

    ghost tree = { λ row. table_with_init_tree row.ty row.init.now };

    #[tactic(auto, using(crate::proofs::InitRows::table_with_init_spelled))]
    fn write(&self, out: &mut Vec<u8>) -> Result<(), WriteFault> {
        match out.extend_from_slice(&[0x40, 0x00]) {
            Ok(()) => {}
            Err(_) => return Err(WriteFault::NoMemory),
        }
        match write_table_type(out, self.ty) {
            Ok(()) => {}
            Err(NoMemory) => return Err(WriteFault::NoMemory),
        }
        match self.init.encode(out) {
            Ok(()) => Ok(()),
            Err(NoMemory) => Err(WriteFault::NoMemory),
        }
    }
}

impl RowOf<kinds::Memories> for MemoryType {
    ghost use Rattle.wasm_write.specs.Types.{memory_type_tree};

    ghost tree = { memory_type_tree };

    #[tactic(auto, using(crate::proofs::RowSpelling::memory_type_spelled))]
    fn write(&self, out: &mut Vec<u8>) -> Result<(), WriteFault> {
        match write_memory_type(out, *self) {
            Ok(()) => Ok(()),
            Err(NoMemory) => Err(WriteFault::NoMemory),
        }
    }
}

/// A global and the expression of its first value.
#[derive(Drop)]
pub(crate) struct Global<'a> {
    pub(crate) ty: GlobalType,
    pub(crate) init: &'a ConstExpr,
}

impl<'a> RowOf<kinds::Globals> for Global<'a> {
    ghost use Rattle.wasm_write.specs.Rows.{global_tree};

    ghost tree = { λ row. global_tree row.ty row.init.now };

    #[tactic(auto, using(crate::proofs::InitRows::global_spelled))]
    fn write(&self, out: &mut Vec<u8>) -> Result<(), WriteFault> {
        match write_global_type(out, self.ty) {
            Ok(()) => {}
            Err(NoMemory) => return Err(WriteFault::NoMemory),
        }
        match self.init.encode(out) {
            Ok(()) => Ok(()),
            Err(NoMemory) => Err(WriteFault::NoMemory),
        }
    }
}

impl<'a> RowOf<kinds::Exports> for Export<'a> {
    ghost use Rattle.wasm_write.specs.Rows.{export_tree};

    ghost tree = { λ row. export_tree row.name.now row.kind row.index };

    #[tactic(auto, using(crate::proofs::RowSpelling::export_spelled))]
    fn write(&self, out: &mut Vec<u8>) -> Result<(), WriteFault> {
        match write_name(out, self.name) {
            Ok(()) => {}
            Err(fault) => return Err(fault),
        }
        match write_item(out, self.kind, self.index) {
            Ok(()) => Ok(()),
            Err(NoMemory) => Err(WriteFault::NoMemory),
        }
    }
}

/// A data segment that is placed in a memory.
#[derive(Drop)]
pub(crate) struct ActiveData<'a> {
    pub(crate) memory: u32,
    pub(crate) offset: &'a ConstExpr,
    pub(crate) bytes: &'a [u8],
}

/// Appends the flag of an active data segment and its memory, which is left out where it is 0, or a part of them where
/// memory runs out.
fn write_place(out: &mut Vec<u8>, memory: u32) -> Result<(), NoMemory>
    ensures ok { OnOk result (out.new.items ≡ out.old.items ++ placed_bytes memory) }
    ensures err { OnErr result (take (vec_len out.old) out.new.items ≡ out.old.items) }
{
    if memory == 0 {
        return write_u32(out, 0);
    }
    match write_u32(out, 2) {
        Ok(()) => write_u32(out, memory),
        Err(NoMemory) => Err(NoMemory),
    }
}

impl<'a> RowOf<kinds::Segments> for ActiveData<'a> {
    ghost use Rattle.wasm_write.specs.Rows.{active_data_tree};

    ghost tree = { λ row. active_data_tree row.memory row.offset.now row.bytes.now };

    #[tactic(auto, using(crate::proofs::DataRows::active_spelled, crate::proofs::DataRows::active_large))]
    fn write(&self, out: &mut Vec<u8>) -> Result<(), WriteFault> {
        match write_place(out, self.memory) {
            Ok(()) => {}
            Err(NoMemory) => return Err(WriteFault::NoMemory),
        }
        match self.offset.encode(out) {
            Ok(()) => {}
            Err(NoMemory) => return Err(WriteFault::NoMemory),
        }
        write_content(out, self.bytes)
    }
}

/// A passive data segment.
#[derive(Drop)]
pub(crate) struct PassiveData<'a> {
    pub(crate) bytes: &'a [u8],
}

impl<'a> RowOf<kinds::Segments> for PassiveData<'a> {
    ghost use Rattle.wasm_write.specs.Rows.{passive_data_tree};

    ghost tree = { λ row. passive_data_tree row.bytes.now };

    #[tactic(auto, using(crate::proofs::DataRows::passive_spelled))]
    fn write(&self, out: &mut Vec<u8>) -> Result<(), WriteFault> {
        match write_u32(out, 1) {
            Ok(()) => {}
            Err(NoMemory) => return Err(WriteFault::NoMemory),
        }
        write_content(out, self.bytes)
    }
}

impl RowOf<kinds::Tags> for TagType {
    ghost use Rattle.wasm_write.specs.Types.{tag_type_tree};

    ghost tree = { tag_type_tree };

    #[tactic(auto, using(crate::proofs::RowSpelling::tag_type_spelled))]
    fn write(&self, out: &mut Vec<u8>) -> Result<(), WriteFault> {
        match write_tag_type(out, *self) {
            Ok(()) => Ok(()),
            Err(NoMemory) => Err(WriteFault::NoMemory),
        }
    }
}
