//! Kinds, types and numbers that hold no index: no hook is asked for them.
ghost use Rattle.std.specs.Prelude.{◌≡◌, ℕ};
ghost use Rattle.wasm_read.specs.Types as read;
ghost use Rattle.wasm_write.specs.Rows as rows;
ghost use Rattle.wasm_write.specs.Types as write;

use reencode_hooks::ReencodeIndices;
use wasm_read as r;
use wasm_write as w;

/// A heap type that names no type of the module (WebAssembly Core Specification 3.0, section 5.3.3).
pub fn abstract_heap_type<T: ReencodeIndices>(
    reencoder: &mut T,
    value: r::AbstractHeapType,
) -> w::AbstractHeapType
    ensures value { write.abstract_tree result ≡ read.abstract_tree value }
    ensures state { reencoder.new ≡ reencoder.old }
{
    let _ = reencoder;
    value
}

/// The kind of what is exported (section 5.5.10): with each index it is the same item. An exact function becomes a
/// function.
pub fn export_kind<T: ReencodeIndices>(
    reencoder: &mut T,
    external_kind: r::ExternalKind,
) -> w::ExportKind
    ensures value { (index : ℕ) → rows.item_tree result index ≡ read.item_tree external_kind index }
    ensures state { reencoder.new ≡ reencoder.old }
{
    let _ = reencoder;
    match external_kind {
        r::ExternalKind::Func | r::ExternalKind::FuncExact => w::ExportKind::Func,
        r::ExternalKind::Table => w::ExportKind::Table,
        r::ExternalKind::Memory => w::ExportKind::Memory,
        r::ExternalKind::Global => w::ExportKind::Global,
        r::ExternalKind::Tag => w::ExportKind::Tag,
    }
}

/// What a tag is for (section 5.3.14): with each index it is the same tag.
pub fn tag_kind<T: ReencodeIndices>(reencoder: &mut T, kind: r::TagKind) -> w::TagKind
    ensures value { (index : ℕ) →
        write.tag_type_tree (record { kind = result; func_type_idx = index })
        ≡ read.tag_type_tree (record { kind = kind; func_type_idx = index }) }
    ensures state { reencoder.new ≡ reencoder.old }
{
    let _ = reencoder;
    kind
}

/// A memory by its limits (section 5.3.12).
pub fn memory_type<T: ReencodeIndices>(reencoder: &mut T, memory_ty: r::MemoryType) -> w::MemoryType
    ensures value { write.memory_type_tree result ≡ read.memory_type_tree memory_ty }
    ensures state { reencoder.new ≡ reencoder.old }
{
    let _ = reencoder;
    w::MemoryType {
        memory64: memory_ty.memory64,
        shared: memory_ty.shared,
        minimum: memory_ty.initial,
        maximum: memory_ty.maximum,
        page_size_log2: memory_ty.page_size_log2,
    }
}

/// The order of an atomic access: that of the same name. No operator of the table has one.
pub fn ordering<T: ReencodeIndices>(reencoder: &mut T, arg: r::Ordering) -> w::Ordering
    ensures value { result ≡ arg }
    ensures state { reencoder.new ≡ reencoder.old }
{
    let _ = reencoder;
    arg
}

/// A floating-point number of 32 bits, by its bits.
pub fn ieee32_arg<T: ReencodeIndices>(reencoder: &mut T, arg: r::Ieee32) -> w::Ieee32
    ensures value { result.0 ≡ arg.0 }
    ensures state { reencoder.new ≡ reencoder.old }
{
    let _ = reencoder;
    arg
}

/// A floating-point number of 64 bits, by its bits.
pub fn ieee64_arg<T: ReencodeIndices>(reencoder: &mut T, arg: r::Ieee64) -> w::Ieee64
    ensures value { result.0 ≡ arg.0 }
    ensures state { reencoder.new ≡ reencoder.old }
{
    let _ = reencoder;
    arg
}
