//! Types of values and of functions, and what stands in their lists, as methods of items map it.
ghost use Rattle.wasm_types.specs.ComponentTrees.{component_defined_type_tree, component_func_type_tree, maybe_value_tree};
ghost use Rattle.reencode_items.specs.Clauses.{ListClauses};
ghost use Rattle.reencode_component.specs.Clauses.{ValueClauses};

use crate::items::ReencodeComponentItems;
use reencode_core::{MapItem, map_items};
use reencode_hooks::Error;
use std::alloc::Global;
use wasm_read_component as r;
use wasm_write_component as w;

/// Fields of a record, or parameters.
pub(crate) struct NamedValues;

impl<'a, T: ReencodeComponentItems> MapItem<
    T,
    (&'a str, r::ComponentValType),
    (&'a str, w::ComponentValType),
> for NamedValues {
    ghost use Rattle.wasm_types.specs.ComponentTrees.{named_value_tree};

    ghost read = { named_value_tree };

    ghost made = { named_value_tree };

    fn map(
        reencoder: &mut T,
        _alloc: Global,
        item: (&'a str, r::ComponentValType),
    ) -> Result<(&'a str, w::ComponentValType), Error<T::Error>> {
        Ok((item.0, reencoder.component_val_type(item.1)))
    }
}

/// Cases of a variant.
pub(crate) struct Cases;

impl<'a, T: ReencodeComponentItems> MapItem<T, r::VariantCase<'a>, w::VariantCase<'a>> for Cases {
    ghost use Rattle.wasm_types.specs.ComponentTrees.{variant_case_tree};

    ghost read = { variant_case_tree };

    ghost made = { variant_case_tree };

    fn map(
        reencoder: &mut T,
        _alloc: Global,
        item: r::VariantCase<'a>,
    ) -> Result<w::VariantCase<'a>, Error<T::Error>> {
        Ok(w::VariantCase {
            name: item.name,
            ty: maybe_value(reencoder, item.ty),
        })
    }
}

/// Types of a tuple.
pub(crate) struct Values;

impl<T: ReencodeComponentItems> MapItem<T, r::ComponentValType, w::ComponentValType> for Values {
    ghost use Rattle.wasm_types.specs.ComponentTrees.{component_val_type_tree};

    ghost read = { component_val_type_tree };

    ghost made = { component_val_type_tree };

    fn map(
        reencoder: &mut T,
        _alloc: Global,
        item: r::ComponentValType,
    ) -> Result<w::ComponentValType, Error<T::Error>> {
        Ok(reencoder.component_val_type(item))
    }
}

/// A type of values that may be left out.
fn maybe_value<T: ReencodeComponentItems>(
    reencoder: &mut T,
    ty: Option<r::ComponentValType>,
) -> Option<w::ComponentValType>
    ensures { ValueClauses T.ReencodeIndices
        (maybe_value_tree ty) maybe_value_tree reencoder.old reencoder.new result }
{
    match ty {
        Some(ty) => Some(reencoder.component_val_type(ty)),
        None => None,
    }
}

/// A function type (Component Model, Binary Format: `functype`), its parameters and then its result by `component_val_type`.
pub fn parse_component_func_type<'a, T: ReencodeComponentItems>(
    reencoder: &mut T,
    alloc: Global,
    ty: r::ComponentFuncType<'a>,
) -> Result<w::ComponentFuncType<'a>, Error<T::Error>>
    ensures { ListClauses T.ReencodeIndices (component_func_type_tree ty.entry)
        component_func_type_tree reencoder.old reencoder.new result }
{
    let params = map_items::<
        T,
        NamedValues,
        (&str, r::ComponentValType),
        (&str, w::ComponentValType),
    >(reencoder, alloc, ty.params)?;
    let result = match ty.result {
        Some(ty) => Some(reencoder.component_val_type(ty)),
        None => None,
    };
    Ok(w::ComponentFuncType {
        async_: ty.async_,
        params,
        result,
    })
}

/// A type of values that is defined (`defvaltype`). A primitive one is mapped by `component_primitive_val_type`, each type
/// inside by `component_val_type`, and a resource by `component_type_index`.
pub fn parse_component_defined_type<'a, T: ReencodeComponentItems>(
    reencoder: &mut T,
    alloc: Global,
    ty: r::ComponentDefinedType<'a>,
) -> Result<w::ComponentDefinedType<'a>, Error<T::Error>>
    ensures { ListClauses T.ReencodeIndices (component_defined_type_tree ty.entry)
        component_defined_type_tree reencoder.old reencoder.new result }
{
    match ty {
        r::ComponentDefinedType::Primitive(ty) => Ok(w::ComponentDefinedType::Primitive(
            reencoder.component_primitive_val_type(ty),
        )),
        r::ComponentDefinedType::Record(fields) => {
            let fields = map_items::<
                T,
                NamedValues,
                (&str, r::ComponentValType),
                (&str, w::ComponentValType),
            >(reencoder, alloc, fields)?;
            Ok(w::ComponentDefinedType::Record(fields))
        }
        r::ComponentDefinedType::Variant(cases) => {
            let cases = map_items::<T, Cases, r::VariantCase, w::VariantCase>(
                reencoder, alloc, cases,
            )?;
            Ok(w::ComponentDefinedType::Variant(cases))
        }
        r::ComponentDefinedType::List(ty) => {
            Ok(w::ComponentDefinedType::List(reencoder.component_val_type(ty)))
        }
        r::ComponentDefinedType::Map(key, value) => {
            let key = reencoder.component_val_type(key);
            let value = reencoder.component_val_type(value);
            Ok(w::ComponentDefinedType::Map(key, value))
        }
        r::ComponentDefinedType::FixedLengthList(ty, len) => {
            Ok(w::ComponentDefinedType::FixedLengthList(reencoder.component_val_type(ty), len))
        }
        r::ComponentDefinedType::Tuple(types) => {
            let types = map_items::<T, Values, r::ComponentValType, w::ComponentValType>(
                reencoder, alloc, types,
            )?;
            Ok(w::ComponentDefinedType::Tuple(types))
        }
        r::ComponentDefinedType::Flags(names) => Ok(w::ComponentDefinedType::Flags(names)),
        r::ComponentDefinedType::Enum(names) => Ok(w::ComponentDefinedType::Enum(names)),
        r::ComponentDefinedType::Option(ty) => {
            Ok(w::ComponentDefinedType::Option(reencoder.component_val_type(ty)))
        }
        r::ComponentDefinedType::Result { ok, err } => {
            let ok = maybe_value(reencoder, ok);
            let err = maybe_value(reencoder, err);
            Ok(w::ComponentDefinedType::Result { ok, err })
        }
        r::ComponentDefinedType::Own(index) => {
            Ok(w::ComponentDefinedType::Own(reencoder.component_type_index(index)))
        }
        r::ComponentDefinedType::Borrow(index) => {
            Ok(w::ComponentDefinedType::Borrow(reencoder.component_type_index(index)))
        }
        r::ComponentDefinedType::Future(ty) => {
            Ok(w::ComponentDefinedType::Future(maybe_value(reencoder, ty)))
        }
        r::ComponentDefinedType::Stream(ty) => {
            Ok(w::ComponentDefinedType::Stream(maybe_value(reencoder, ty)))
        }
    }
}
