//! The default bodies of the calls that map types with others inside, as functions of any reencoder.
ghost use Rattle.wasm_shapes.specs.Component.{module_declaration};
ghost use Rattle.wasm_write_component.specs.TypeRows.{scope_tree};
ghost use Rattle.reencode_component.specs.TypeClauses.{CoreTypeClauses, ScopeClauses};

use crate::component_rows::ReencodeComponentRows;
use crate::type_bodies;
use reencode_hooks::Error;
use std::alloc::Global;
use wasm_read_component as r;
use wasm_write_component as w;

/// A core type (Component Model, Binary Format: `core:deftype`): types by `parse_recursive_type_group`, or a module type by
/// `component_module_type`.
pub fn parse_component_core_type<T: ReencodeComponentRows>(
    reencoder: &mut T,
    alloc: Global,
    core: r::CoreType<'_>,
) -> Result<w::CoreType, Error<T::Error>>
    ensures { CoreTypeClauses T.ReencodeIndices core.entry reencoder.old reencoder.new result }
{
    type_bodies::parse_component_core_type!(reencoder, alloc, core)
}

/// A module type (`core:moduletype`), which is a scope: `push_depth`, then each declaration that the reader still has by
/// `parse_component_module_type_declaration`, then `pop_depth`, which is not called where one of these is refused.
pub fn component_module_type<T: ReencodeComponentRows>(
    reencoder: &mut T,
    alloc: Global,
    ty: r::ModuleDeclarations<'_>,
) -> Result<w::ModuleType, Error<T::Error>>
    ensures { ScopeClauses T.ReencodeIndices module_declaration ty.entry (λ t. t) scope_tree
        reencoder.old reencoder.new result }
{
    type_bodies::component_module_type!(reencoder, alloc, ty)
}
