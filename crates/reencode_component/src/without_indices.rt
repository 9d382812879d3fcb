//! Kinds and types that hold no index: no hook is asked for them.
ghost use Rattle.std.specs.Prelude.{◌≡◌};

use reencode_hooks::ReencodeIndices;
use wasm_read_component as r;
use wasm_write_component as w;

/// A type of values that names no type (Component Model, Binary Format: `primvaltype`).
pub fn component_primitive_val_type<T: ReencodeIndices>(
    reencoder: &mut T,
    ty: r::PrimitiveValType,
) -> w::PrimitiveValType
    ensures value { result ≡ ty }
    ensures state { reencoder.new ≡ reencoder.old }
{
    let _ = reencoder;
    ty
}

/// The sort of what a component exports (`sort`).
pub fn component_export_kind<T: ReencodeIndices>(
    reencoder: &mut T,
    ty: r::ComponentExternalKind,
) -> w::ComponentExportKind
    ensures value { result ≡ ty }
    ensures state { reencoder.new ≡ reencoder.old }
{
    let _ = reencoder;
    ty
}

/// The sort of what an alias names further out (`alias`).
pub fn component_outer_alias_kind<T: ReencodeIndices>(
    reencoder: &mut T,
    kind: r::ComponentOuterAliasKind,
) -> w::ComponentOuterAliasKind
    ensures value { result ≡ kind }
    ensures state { reencoder.new ≡ reencoder.old }
{
    let _ = reencoder;
    kind
}
