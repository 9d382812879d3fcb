//! What the hooks of a reencoder map by themselves.
ghost use Rattle.wasm_types.specs.ComponentTrees.{canonical_option_tree, outer_alias, sorted_tree, type_bounds_tree};
ghost use Rattle.reencode_items.specs.Clauses.{IndexClauses};
ghost use Rattle.reencode_component.specs.Clauses.{HookedValue};

use crate::indices::ReencodeComponentIndices;
use reencode_hooks::{Error, ReencodeIndices};
use wasm_read_component as r;
use wasm_types::CanonicalOption;
use wasm_write_component as w;

/// The index of what a component holds, by the hook of its sort.
pub(crate) fn component_external_index<T: ReencodeComponentIndices>(
    reencoder: &mut T,
    kind: r::ComponentExternalKind,
    index: u32,
) -> u32
    ensures { HookedValue T.ReencodeIndices (sorted_tree kind index) (sorted_tree kind)
        reencoder.old reencoder.new result }
{
    match kind {
        r::ComponentExternalKind::Module => reencoder.module_index(index),
        r::ComponentExternalKind::Func => reencoder.component_func_index(index),
        r::ComponentExternalKind::Value => reencoder.component_value_index(index),
        r::ComponentExternalKind::Type_ => reencoder.component_type_index(index),
        r::ComponentExternalKind::Instance => reencoder.component_instance_index(index),
        r::ComponentExternalKind::Component => reencoder.component_index(index),
    }
}

/// The index of what an alias names so many scopes further out, by the outer hook of its sort. The count stays.
pub(crate) fn outer_index<T: ReencodeComponentIndices>(
    reencoder: &mut T,
    kind: r::ComponentOuterAliasKind,
    count: u32,
    index: u32,
) -> Result<u32, Error<T::Error>>
    ensures { IndexClauses T.ReencodeIndices (outer_alias kind count index) (outer_alias kind count)
        reencoder.old reencoder.new result }
{
    match kind {
        r::ComponentOuterAliasKind::CoreModule => Ok(reencoder.outer_module_index(count, index)),
        r::ComponentOuterAliasKind::CoreType => reencoder.outer_type_index(count, index),
        r::ComponentOuterAliasKind::Type_ => {
            Ok(reencoder.outer_component_type_index(count, index))
        }
        r::ComponentOuterAliasKind::Component => Ok(reencoder.outer_component_index(count, index)),
    }
}

/// What a type that is imported or exported may be (Component Model, Binary Format: `typebound`).
pub fn type_bounds<T: ReencodeComponentIndices>(
    reencoder: &mut T,
    ty: r::TypeBounds,
) -> w::TypeBounds
    ensures { HookedValue T.ReencodeIndices (type_bounds_tree ty) type_bounds_tree
        reencoder.old reencoder.new result }
{
    match ty {
        r::TypeBounds::Eq(index) => w::TypeBounds::Eq(reencoder.component_type_index(index)),
        r::TypeBounds::SubResource => w::TypeBounds::SubResource,
    }
}

/// An option of a canonical function (`canonopt`).
pub fn canonical_option<T: ReencodeIndices>(
    reencoder: &mut T,
    ty: CanonicalOption,
) -> Result<CanonicalOption, Error<T::Error>>
    ensures { IndexClauses T.ReencodeIndices (canonical_option_tree ty) canonical_option_tree
        reencoder.old reencoder.new result }
{
    match ty {
        CanonicalOption::UTF8 => Ok(CanonicalOption::UTF8),
        CanonicalOption::UTF16 => Ok(CanonicalOption::UTF16),
        CanonicalOption::CompactUTF16 => Ok(CanonicalOption::CompactUTF16),
        CanonicalOption::Memory(index) => {
            Ok(CanonicalOption::Memory(reencoder.memory_index(index)?))
        }
        CanonicalOption::Realloc(index) => {
            Ok(CanonicalOption::Realloc(reencoder.function_index(index)?))
        }
        CanonicalOption::PostReturn(index) => {
            Ok(CanonicalOption::PostReturn(reencoder.function_index(index)?))
        }
        CanonicalOption::Async => Ok(CanonicalOption::Async),
        CanonicalOption::Callback(index) => {
            Ok(CanonicalOption::Callback(reencoder.function_index(index)?))
        }
        CanonicalOption::CoreType(index) => {
            Ok(CanonicalOption::CoreType(reencoder.type_index(index)?))
        }
        CanonicalOption::Gc => Ok(CanonicalOption::Gc),
    }
}
