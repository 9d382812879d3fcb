//! What stands in the vectors of types of values and of functions.
ghost use Rattle.std.specs.Prelude.{refl};
ghost use Rattle.wasm_shapes.specs.Shape.{Shape};
ghost use Rattle.wasm_shapes.specs.Component.{component_value, named_value, variant_case};
ghost use Rattle.wasm_types.specs.ComponentTrees.{component_val_type_tree, label_tree, named_value_tree, variant_case_tree};

use crate::defined_types::{front_named_value, front_variant_case};
use crate::types::{ComponentValType, VariantCase};
use crate::value_types::front_component_val_type;
use std::alloc::Global;
use wasm_leb::NoMemory;
use wasm_read::{ReadRow, front_name};
use wasm_shapes::kinds::RowKind;

/// Names with types: the fields of a record, and parameters.
pub struct NamedValues;

impl RowKind for NamedValues {
    ghost shape = { named_value };

    ghost is_sound = { refl };

    ghost is_closed = { refl };

    ghost rows_sound = { refl };
}

impl<'a> ReadRow<'a> for NamedValues {
    type Row = (&'a str, ComponentValType);

    ghost tree = { named_value_tree };

    #[inline]
    fn front(
        _alloc: Global,
        bytes: &'a [u8],
    ) -> Result<Option<((&'a str, ComponentValType), &'a [u8])>, NoMemory> {
        Ok(front_named_value(bytes))
    }
}

/// The cases of a variant.
pub struct VariantCases;

impl RowKind for VariantCases {
    ghost shape = { variant_case };

    ghost is_sound = { refl };

    ghost is_closed = { refl };

    ghost rows_sound = { refl };
}

impl<'a> ReadRow<'a> for VariantCases {
    type Row = VariantCase<'a>;

    ghost tree = { variant_case_tree };

    #[inline]
    fn front(
        _alloc: Global,
        bytes: &'a [u8],
    ) -> Result<Option<(VariantCase<'a>, &'a [u8])>, NoMemory> {
        Ok(front_variant_case(bytes))
    }
}

/// The types of values of a tuple.
pub struct ValueTypes;

impl RowKind for ValueTypes {
    ghost shape = { component_value };

    ghost is_sound = { refl };

    ghost is_closed = { refl };

    ghost rows_sound = { refl };
}

impl<'a> ReadRow<'a> for ValueTypes {
    type Row = ComponentValType;

    ghost tree = { component_val_type_tree };

    #[inline]
    fn front(
        _alloc: Global,
        bytes: &'a [u8],
    ) -> Result<Option<(ComponentValType, &'a [u8])>, NoMemory> {
        Ok(front_component_val_type(bytes))
    }
}

/// The names of flags and of the cases of an enumeration.
pub struct Labels;

impl RowKind for Labels {
    ghost shape = { Shape.name };

    ghost is_sound = { refl };

    ghost is_closed = { refl };

    ghost rows_sound = { refl };
}

impl<'a> ReadRow<'a> for Labels {
    type Row = &'a str;

    ghost tree = { label_tree };

    #[inline]
    fn front(_alloc: Global, bytes: &'a [u8]) -> Result<Option<(&'a str, &'a [u8])>, NoMemory> {
        Ok(front_name(bytes))
    }
}
