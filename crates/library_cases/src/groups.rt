//! Groups of types, as text.
use crate::stop::Stop;
use crate::text::{add, add_place, add_word};
use std::alloc::{AllocError, Global};
use wasm_read::{CompositeInnerType, CompositeType, RecGroup, SubType, read_group};

/// Adds a function, array, structure or continuation type.
fn add_inner(text: &mut String, ty: &CompositeInnerType) -> Result<(), AllocError> {
    match ty {
        CompositeInnerType::Func(ty) => {
            add_word(text, "func")?;
            add(text, &ty.params.as_slice())?;
            add(text, &ty.results.as_slice())
        }
        CompositeInnerType::Array(ty) => add(text, ty),
        CompositeInnerType::Struct(ty) => {
            add_word(text, "struct")?;
            add(text, &ty.fields.as_slice())
        }
        CompositeInnerType::Cont(ty) => add(text, ty),
    }
}

/// Adds a composite type.
fn add_composite(text: &mut String, ty: &CompositeType) -> Result<(), AllocError> {
    if ty.shared {
        add_word(text, "shared")?;
    }
    if let Some(index) = ty.describes_idx {
        add_word(text, "describes")?;
        add(text, &index)?;
    }
    if let Some(index) = ty.descriptor_idx {
        add_word(text, "descriptor")?;
        add(text, &index)?;
    }
    add_inner(text, &ty.inner)
}

/// Adds a type with its supertypes.
fn add_sub_type(text: &mut String, ty: &SubType) -> Result<(), AllocError> {
    add_word(text, if ty.is_final { "final" } else { "open" })?;
    add(text, &ty.supertype_idxs.as_slice())?;
    add_composite(text, &ty.composite_type)
}

/// Adds a group.
pub fn add_group(text: &mut String, group: &RecGroup) -> Result<(), AllocError> {
    if group.explicit {
        add_word(text, "group |")?;
    }
    for ty in group.types.as_slice() {
        add_sub_type(text, ty)?;
        add_word(text, "|")?;
    }
    Ok(())
}

/// The group at a place, and the place after it.
pub fn group(alloc: Global, bytes: &[u8], at: usize) -> Result<String, Stop> {
    let (group, at) = read_group(alloc, bytes, at)?;
    let mut text = String::new(alloc);
    add_group(&mut text, &group)?;
    add_place(&mut text, at)?;
    Ok(text)
}
