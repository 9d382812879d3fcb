//! The types of tables, memories, globals, tags and of what is imported, in their normal spelling.
ghost use Rattle.std.specs.Prelude.{◌≡◌, ◌++◌, ◌∷◌, [], ◌≤◌, ◌<◌, ◌-◌, ◌^◌, length, take, vec_len, OnOk, OnErr, IfErr};
ghost use Rattle.wasm_shapes.specs.Tree.{Tree, normal};
ghost use Rattle.wasm_shapes.specs.Fits.{InRange};
ghost use Rattle.wasm_shapes.specs.Types.{flag, limits_flags, bounds_tree, paged_tree, limits_tree, global_flags};
ghost use Rattle.wasm_write.specs.Counts.{counts, IsTooLarge};
ghost use Rattle.wasm_write.specs.Faults.{IfTooLarge};
ghost use Rattle.wasm_write.specs.Rows.{single_tree, import_tree};
ghost use Rattle.wasm_write.specs.Types.{table_type_tree, memory_type_tree, global_type_tree, tag_type_tree, entity_tree};

use crate::fault::WriteFault;
use crate::fields::write_name;
use crate::types::{
    EntityType, GlobalType, Import, ImportCompact, Imports, MemoryType, TableType, TagKind, TagType,
};
use crate::value_types::{write_byte, write_marked, write_ref_type, write_val_type};
use crate::vectors::{ItemOf, write_vec};
use wasm_leb::{NoMemory, write_u32, write_u64};

/// So much where it is set, and otherwise 0.
#[inline(always)]
fn value_if(value: u8, set: bool) -> u8
    ensures value { result ≡ flag value set }
    ensures range { result ≤ value }
{
    if set { value } else { 0 }
}

/// The flags of limits: that there is a maximum, that they are shared, that they count in 64 bits, and that the logarithm of
/// the page size is written.
fn flags_of(maximum: bool, shared: bool, wide: bool, page: bool) -> u8
    ensures { result ≡ limits_flags maximum shared wide page }
{
    value_if(1, maximum) + value_if(2, shared) + value_if(4, wide) + value_if(8, page)
}

/// Appends the minimum and the maximum, or a part of them where memory runs out.
fn write_bounds(out: &mut Vec<u8>, minimum: u64, maximum: Option<u64>) -> Result<(), NoMemory>
    ensures ok { OnOk result
        (out.new.items ≡ out.old.items ++ normal (bounds_tree minimum maximum)) }
    ensures in_range { OnOk result (InRange (bounds_tree minimum maximum)) }
    ensures err { OnErr result (take (vec_len out.old) out.new.items ≡ out.old.items) }
{
    match maximum {
        None => write_u64(out, minimum),
        Some(maximum) => match write_u64(out, minimum) {
            Ok(()) => write_u64(out, maximum),
            Err(NoMemory) => Err(NoMemory),
        },
    }
}

/// Appends the minimum, the maximum and the logarithm of the page size, or a part of them where memory runs out.
fn write_paged(
    out: &mut Vec<u8>,
    minimum: u64,
    maximum: Option<u64>,
    page: Option<u32>,
) -> Result<(), NoMemory>
    ensures ok { OnOk result
        (out.new.items ≡ out.old.items ++ normal (paged_tree page (bounds_tree minimum maximum))) }
    ensures in_range { OnOk result (InRange (paged_tree page (bounds_tree minimum maximum))) }
    ensures err { OnErr result (take (vec_len out.old) out.new.items ≡ out.old.items) }
{
    match page {
        None => write_bounds(out, minimum, maximum),
        Some(page) => match write_bounds(out, minimum, maximum) {
            Ok(()) => write_u32(out, page),
            Err(NoMemory) => Err(NoMemory),
        },
    }
}

/// Appends limits behind their flags, or a part of them where memory runs out.
fn write_limits(
    out: &mut Vec<u8>,
    flags: u8,
    minimum: u64,
    maximum: Option<u64>,
    page: Option<u32>,
) -> Result<(), NoMemory>
    ensures ok { OnOk result
        (out.new.items ≡ out.old.items
        ++ normal (limits_tree flags (paged_tree page (bounds_tree minimum maximum)))) }
    ensures in_range { OnOk result
        (InRange (limits_tree flags (paged_tree page (bounds_tree minimum maximum)))) }
    ensures err { OnErr result (take (vec_len out.old) out.new.items ≡ out.old.items) }
{
    match write_byte(out, flags) {
        Ok(()) => write_paged(out, minimum, maximum, page),
        Err(NoMemory) => Err(NoMemory),
    }
}

/// Appends a table type, or a part of it where memory runs out.
pub(crate) fn write_table_type(out: &mut Vec<u8>, ty: TableType) -> Result<(), NoMemory>
    ensures ok { OnOk result (out.new.items ≡ out.old.items ++ normal (table_type_tree ty)) }
    ensures in_range { OnOk result (InRange (table_type_tree ty)) }
    ensures err { OnErr result (take (vec_len out.old) out.new.items ≡ out.old.items) }
{
    let flags = flags_of(ty.maximum.is_some(), ty.shared, ty.table64, false);
    match write_ref_type(out, ty.element_type) {
        Ok(()) => write_limits(out, flags, ty.minimum, ty.maximum, None),
        Err(NoMemory) => Err(NoMemory),
    }
}

/// Appends a memory type, or a part of it where memory runs out.
pub(crate) fn write_memory_type(out: &mut Vec<u8>, ty: MemoryType) -> Result<(), NoMemory>
    ensures ok { OnOk result (out.new.items ≡ out.old.items ++ normal (memory_type_tree ty)) }
    ensures in_range { OnOk result (InRange (memory_type_tree ty)) }
    ensures err { OnErr result (take (vec_len out.old) out.new.items ≡ out.old.items) }
{
    let page = ty.page_size_log2;
    let flags = flags_of(ty.maximum.is_some(), ty.shared, ty.memory64, page.is_some());
    write_limits(out, flags, ty.minimum, ty.maximum, page)
}

/// Appends a global type, or a part of it where memory runs out.
pub(crate) fn write_global_type(out: &mut Vec<u8>, ty: GlobalType) -> Result<(), NoMemory>
    ensures ok { OnOk result (out.new.items ≡ out.old.items ++ normal (global_type_tree ty)) }
    ensures in_range { OnOk result (InRange (global_type_tree ty)) }
    ensures err { OnErr result (take (vec_len out.old) out.new.items ≡ out.old.items) }
{
    let flags = global_flags_of(ty.mutable, ty.shared);
    match write_val_type(out, ty.val_type) {
        Ok(()) => write_byte(out, flags),
        Err(NoMemory) => Err(NoMemory),
    }
}

/// The flags of a global: that it may change, and that it is shared.
fn global_flags_of(mutable: bool, shared: bool) -> u8
    ensures { result ≡ global_flags mutable shared }
{
    value_if(1, mutable) + value_if(2, shared)
}

/// Appends a tag type, or a part of it where memory runs out.
pub(crate) fn write_tag_type(out: &mut Vec<u8>, ty: TagType) -> Result<(), NoMemory>
    ensures ok { OnOk result (out.new.items ≡ out.old.items ++ normal (tag_type_tree ty)) }
    ensures in_range { OnOk result (InRange (tag_type_tree ty)) }
    ensures err { OnErr result (take (vec_len out.old) out.new.items ≡ out.old.items) }
{
    match ty.kind {
        TagKind::Exception => write_marked(out, 0x00, ty.func_type_idx),
    }
}

/// Appends the type of what is imported (WebAssembly Core Specification 3.0, section 5.3.15). Where memory runs out, what
/// stood in `out` before stands there still.
pub fn write_entity_type(out: &mut Vec<u8>, ty: EntityType) -> Result<(), NoMemory>
    ensures ok { OnOk result (out.new.items ≡ out.old.items ++ normal (entity_tree ty)) }
    ensures in_range { OnOk result (InRange (entity_tree ty)) }
    ensures err { OnErr result (take (vec_len out.old) out.new.items ≡ out.old.items) }
{
    match ty {
        EntityType::Function(index) => write_marked(out, 0x00, index),
        EntityType::FunctionExact(index) => write_marked(out, 0x20, index),
        EntityType::Table(ty) => match write_byte(out, 0x01) {
            Ok(()) => write_table_type(out, ty),
            Err(NoMemory) => Err(NoMemory),
        },
        EntityType::Memory(ty) => match write_byte(out, 0x02) {
            Ok(()) => write_memory_type(out, ty),
            Err(NoMemory) => Err(NoMemory),
        },
        EntityType::Global(ty) => match write_byte(out, 0x03) {
            Ok(()) => write_global_type(out, ty),
            Err(NoMemory) => Err(NoMemory),
        },
        EntityType::Tag(ty) => match write_byte(out, 0x04) {
            Ok(()) => write_tag_type(out, ty),
            Err(NoMemory) => Err(NoMemory),
        },
    }
}

/// Appends what is imported (WebAssembly Core Specification 3.0, section 5.5.5), or a part of it where that is refused.
pub(crate) fn write_import(out: &mut Vec<u8>, import: &Import<'_>) -> Result<(), WriteFault>
    ensures ok { OnOk result (out.new.items ≡ out.old.items ++ normal (single_tree import.now)) }
    ensures in_range { OnOk result (InRange (single_tree import.now)) }
    ensures err { OnErr result (take (vec_len out.old) out.new.items ≡ out.old.items) }
    ensures large { IfErr result (λ e. IfTooLarge e
        (IsTooLarge (counts (single_tree import.now)))) }
{
    match write_name(out, import.module) {
        Ok(()) => {}
        Err(fault) => return Err(fault),
    }
    match write_name(out, import.name) {
        Ok(()) => {}
        Err(fault) => return Err(fault),
    }
    match write_entity_type(out, import.ty) {
        Ok(()) => Ok(()),
        Err(NoMemory) => Err(WriteFault::NoMemory),
    }
}

/// Imports from one module.
struct InImports;

impl<'a> ItemOf<InImports> for ImportCompact<'a> {
    ghost use Rattle.wasm_write.specs.Rows.{compact_tree};

    ghost tree = { compact_tree };

    fn write(&self, out: &mut Vec<u8>) -> Result<(), WriteFault> {
        match write_name(out, self.name) {
            Ok(()) => {}
            Err(fault) => return Err(fault),
        }
        match write_entity_type(out, self.ty) {
            Ok(()) => Ok(()),
            Err(NoMemory) => Err(WriteFault::NoMemory),
        }
    }
}

impl<'a> ItemOf<InImports> for &'a str {
    ghost use Rattle.wasm_write.specs.Rows.{name_tree};

    ghost tree = { name_tree };

    fn write(&self, out: &mut Vec<u8>) -> Result<(), WriteFault> {
        write_name(out, self)
    }
}

/// Appends the name of a module, an empty name and a byte, or a part of them where that is refused.
fn write_unnamed(out: &mut Vec<u8>, module: &str, byte: u8) -> Result<(), WriteFault>
    ensures ok { OnOk result (out.new.items ≡ out.old.items
        ++ (normal (Tree.name «module».now) ++ (0 ∷ byte ∷ []))) }
    ensures in_range { OnOk result (InRange (Tree.name «module».now)) }
    ensures err { OnErr result (take (vec_len out.old) out.new.items ≡ out.old.items) }
    ensures large { IfErr result (λ e. IfTooLarge e
        (λ size. (size ≡ length «module».now) × (2 ^ 32 - 1 < size))) }
{
    match write_name(out, module) {
        Ok(()) => {}
        Err(fault) => return Err(fault),
    }
    match out.extend_from_slice(&[0x00, byte]) {
        Ok(()) => Ok(()),
        Err(_) => Err(WriteFault::NoMemory),
    }
}

/// Appends an entry of an import section, or a part of it where that is refused.
pub(crate) fn write_imports(out: &mut Vec<u8>, imports: &Imports<'_>) -> Result<(), WriteFault>
    ensures ok { OnOk result (out.new.items ≡ out.old.items ++ normal (import_tree imports.now)) }
    ensures in_range { OnOk result (InRange (import_tree imports.now)) }
    ensures err { OnErr result (take (vec_len out.old) out.new.items ≡ out.old.items) }
    ensures large { IfErr result (λ e. IfTooLarge e
        (IsTooLarge (counts (import_tree imports.now)))) }
{
    match imports {
        Imports::Single(import) => write_import(out, import),
        Imports::Compact1 { module, items } => {
            match write_unnamed(out, module, 0x7f) {
                Ok(()) => {}
                Err(fault) => return Err(fault),
            }
            match write_vec::<InImports, _>(out, items.as_slice()) {
                Ok(()) => Ok(()),
                Err(fault) => Err(fault),
            }
        }
        Imports::Compact2 { module, ty, names } => {
            match write_unnamed(out, module, 0x7e) {
                Ok(()) => {}
                Err(fault) => return Err(fault),
            }
            match write_entity_type(out, *ty) {
                Ok(()) => {}
                Err(NoMemory) => return Err(WriteFault::NoMemory),
            }
            match write_vec::<InImports, _>(out, names.as_slice()) {
                Ok(()) => Ok(()),
                Err(fault) => Err(fault),
            }
        }
    }
}
