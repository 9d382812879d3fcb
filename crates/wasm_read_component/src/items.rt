//! What stands in the vectors of rows.
ghost use Rattle.std.specs.Prelude.{refl};
ghost use Rattle.wasm_shapes.specs.declared.Space.TheVariants as space;
ghost use Rattle.wasm_shapes.specs.Shape.{Shape};
ghost use Rattle.wasm_shapes.specs.Tree.{Tree};
ghost use Rattle.wasm_shapes.specs.Sections.{export_row};
ghost use Rattle.wasm_shapes.specs.Component.{canonical_option, component_arg, inline_export, instantiation_arg};
ghost use Rattle.wasm_types.specs.ComponentTrees.{canonical_option_tree, component_arg_tree, inline_export_tree, instantiation_arg_tree};
ghost use Rattle.wasm_read.specs.Types.{ExportKind, export_tree};

use crate::canonical::front_canonical_option;
use crate::rows::{front_component_arg, front_inline_export, front_instantiation_arg};
use crate::types::{CanonicalOption, ComponentArg, InstantiationArg};
use std::alloc::Global;
use wasm_leb::{NoMemory, front_u32};
use wasm_read::{Export, ReadRow, front_export};
use wasm_shapes::kinds::RowKind;

/// What is handed to a core module.
pub struct InstantiationArgs;

impl RowKind for InstantiationArgs {
    ghost shape = { instantiation_arg };

    ghost is_sound = { refl };

    ghost is_closed = { refl };

    ghost rows_sound = { refl };
}

impl<'a> ReadRow<'a> for InstantiationArgs {
    type Row = InstantiationArg<'a>;

    ghost tree = { instantiation_arg_tree };

    #[inline]
    fn front(
        _alloc: Global,
        bytes: &'a [u8],
    ) -> Result<Option<(InstantiationArg<'a>, &'a [u8])>, NoMemory> {
        Ok(front_instantiation_arg(bytes))
    }
}

/// What a core instance exports.
pub struct CoreExports;

impl RowKind for CoreExports {
    ghost shape = { export_row };

    ghost is_sound = { refl };

    ghost is_closed = { refl };

    ghost rows_sound = { refl };
}

impl<'a> ReadRow<'a> for CoreExports {
    type Row = Export<'a>;

    ghost tree = { export_tree };

    ghost beside = { ExportKind };

    #[inline]
    fn front(_alloc: Global, bytes: &'a [u8]) -> Result<Option<(Export<'a>, &'a [u8])>, NoMemory> {
        Ok(front_export(bytes))
    }
}

/// What is handed to a component.
pub struct ComponentArgs;

impl RowKind for ComponentArgs {
    ghost shape = { component_arg };

    ghost is_sound = { refl };

    ghost is_closed = { refl };

    ghost rows_sound = { refl };
}

impl<'a> ReadRow<'a> for ComponentArgs {
    type Row = ComponentArg<'a>;

    ghost tree = { component_arg_tree };

    #[inline]
    fn front(
        _alloc: Global,
        bytes: &'a [u8],
    ) -> Result<Option<(ComponentArg<'a>, &'a [u8])>, NoMemory> {
        Ok(front_component_arg(bytes))
    }
}

/// What an instance exports.
pub struct InlineExports;

impl RowKind for InlineExports {
    ghost shape = { inline_export };

    ghost is_sound = { refl };

    ghost is_closed = { refl };

    ghost rows_sound = { refl };
}

impl<'a> ReadRow<'a> for InlineExports {
    type Row = ComponentArg<'a>;

    ghost tree = { inline_export_tree };

    #[inline]
    fn front(
        _alloc: Global,
        bytes: &'a [u8],
    ) -> Result<Option<(ComponentArg<'a>, &'a [u8])>, NoMemory> {
        Ok(front_inline_export(bytes))
    }
}

/// Values by their indices.
pub struct ComponentValues;

impl RowKind for ComponentValues {
    ghost shape = { Shape.ix space.ComponentValue };

    ghost is_sound = { refl };

    ghost is_closed = { refl };

    ghost rows_sound = { refl };
}

impl<'a> ReadRow<'a> for ComponentValues {
    type Row = u32;

    ghost tree = { Tree.ix space.ComponentValue };

    #[inline]
    fn front(_alloc: Global, bytes: &'a [u8]) -> Result<Option<(u32, &'a [u8])>, NoMemory> {
        match front_u32(bytes) {
            Some((index, rest)) => Ok(Some((index, rest))),
            None => Ok(None),
        }
    }
}

/// Options of a canonical function.
pub struct CanonicalOptions;

impl RowKind for CanonicalOptions {
    ghost shape = { canonical_option };

    ghost is_sound = { refl };

    ghost is_closed = { refl };

    ghost rows_sound = { refl };
}

impl<'a> ReadRow<'a> for CanonicalOptions {
    type Row = CanonicalOption;

    ghost tree = { canonical_option_tree };

    #[inline]
    fn front(
        _alloc: Global,
        bytes: &'a [u8],
    ) -> Result<Option<(CanonicalOption, &'a [u8])>, NoMemory> {
        Ok(front_canonical_option(bytes))
    }
}
