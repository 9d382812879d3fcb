//! Types at the front of some bytes.
ghost use Rattle.std.specs.Prelude.{◌≡◌, ℕ, ◌<◌, ◌≤◌, List, length, drop, IfOk, IfErr, IfSome, IfNone};
ghost use Rattle.wasm_shapes.specs.declared.Space.TheVariants as space;
ghost use Rattle.wasm_shapes.specs.Place.{Begins, BeginsNone};
ghost use Rattle.wasm_shapes.specs.Shape.{Shape, Named, choice, values, inner_rows, described_rows, describing_rows};
ghost use Rattle.wasm_read.specs.Reading.{ReadsNoneOrWants};
ghost use Rattle.wasm_read.specs.Types.{val_types_tree, func_type_tree, inner_tree, described_tree, describing_tree, composite_tree, supertypes_tree, sub_type_tree, group_tree};

use crate::fields::from_place;
use crate::types::{
    ArrayType, CompositeInnerType, CompositeType, ContType, FuncType, RecGroup, StructType,
    SubType, UnpackedIndex,
};
use crate::value_types::front_field_type;
use crate::vector_items::{Entry, ReadEntry, front_vec};
use std::alloc::Global;
use wasm_leb::{Fault, List, NoMemory, ReadError, front_byte, front_index, front_u32};

/// The parameters and results of a function at the front of some bytes, and the bytes behind them.
pub fn front_func_type(alloc: Global, bytes: &[u8]) -> Result<Option<(FuncType, &[u8])>, NoMemory>
    ensures some { IfOk result (λ o. IfSome o (λ r.
        Begins (Shape.seq values values) bytes.now (func_type_tree r.0) r.1.now)) }
    ensures none { IfOk result (λ o. IfNone o (BeginsNone (Shape.seq values values) bytes.now)) }
{
    let (params, rest) = match front_vec(alloc, bytes) {
        Ok(Some((params, rest))) => (params, rest),
        Ok(None) => return Ok(None),
        Err(NoMemory) => return Err(NoMemory),
    };
    match front_vec(alloc, rest) {
        Ok(Some((results, rest))) => Ok(Some((FuncType { params, results }, rest))),
        Ok(None) => Ok(None),
        Err(NoMemory) => Err(NoMemory),
    }
}

/// The function, array, structure or continuation type at the front of some bytes, and the bytes behind it.
fn front_inner(alloc: Global, bytes: &[u8]) -> Result<Option<(CompositeInnerType, &[u8])>, NoMemory>
    ensures some { IfOk result (λ o. IfSome o (λ r.
        Begins (choice inner_rows) bytes.now (inner_tree r.0) r.1.now)) }
    ensures none { IfOk result (λ o. IfNone o (BeginsNone (choice inner_rows) bytes.now)) }
{
    let Some((first, rest)) = front_byte(bytes) else {
        return Ok(None);
    };
    match first {
        0x60 => match front_func_type(alloc, rest) {
            Ok(Some((ty, rest))) => Ok(Some((CompositeInnerType::Func(ty), rest))),
            Ok(None) => Ok(None),
            Err(NoMemory) => Err(NoMemory),
        },
        0x5e => match front_field_type(rest) {
            Some((ty, rest)) => Ok(Some((CompositeInnerType::Array(ArrayType(ty)), rest))),
            None => Ok(None),
        },
        0x5f => match front_vec(alloc, rest) {
            Ok(Some((fields, rest))) => {
                Ok(Some((CompositeInnerType::Struct(StructType { fields }), rest)))
            }
            Ok(None) => Ok(None),
            Err(NoMemory) => Err(NoMemory),
        },
        0x5d => match front_index(rest) {
            Some((index, rest)) => Ok(Some((
                CompositeInnerType::Cont(ContType(UnpackedIndex::Module(index))),
                rest,
            ))),
            None => Ok(None),
        },
        _ => Ok(None),
    }
}

/// The same behind its descriptor, where it has one.
fn front_described(
    alloc: Global,
    bytes: &[u8],
) -> Result<Option<(CompositeInnerType, Option<UnpackedIndex>, &[u8])>, NoMemory>
    ensures some { IfOk result (λ o. IfSome o (λ r.
        Begins (choice described_rows) bytes.now (described_tree r.1 (inner_tree r.0)) r.2.now)) }
    ensures none { IfOk result (λ o. IfNone o (BeginsNone (choice described_rows) bytes.now)) }
{
    let Some((first, rest)) = front_byte(bytes) else {
        return Ok(None);
    };
    if first != 0x4d {
        return match front_inner(alloc, bytes) {
            Ok(Some((inner, rest))) => Ok(Some((inner, None, rest))),
            Ok(None) => Ok(None),
            Err(NoMemory) => Err(NoMemory),
        };
    }
    let Some((index, rest)) = front_u32(rest) else {
        return Ok(None);
    };
    match front_inner(alloc, rest) {
        Ok(Some((inner, rest))) => Ok(Some((inner, Some(UnpackedIndex::Module(index)), rest))),
        Ok(None) => Ok(None),
        Err(NoMemory) => Err(NoMemory),
    }
}

/// The same behind what it describes, where it describes a type: the type, its descriptor, and what it describes.
fn front_describing(
    alloc: Global,
    bytes: &[u8],
) -> Result<
    Option<
        (
            CompositeInnerType,
            Option<UnpackedIndex>,
            Option<UnpackedIndex>,
            &[u8],
        ),
    >,
    NoMemory,
>
    ensures some { IfOk result (λ o. IfSome o (λ r.
        Begins (choice describing_rows) bytes.now
        (describing_tree r.2 (described_tree r.1 (inner_tree r.0))) r.3.now)) }
    ensures none { IfOk result (λ o. IfNone o (BeginsNone (choice describing_rows) bytes.now)) }
{
    let Some((first, rest)) = front_byte(bytes) else {
        return Ok(None);
    };
    if first != 0x4c {
        return match front_described(alloc, bytes) {
            Ok(Some((inner, descriptor, rest))) => Ok(Some((inner, descriptor, None, rest))),
            Ok(None) => Ok(None),
            Err(NoMemory) => Err(NoMemory),
        };
    }
    let Some((index, rest)) = front_u32(rest) else {
        return Ok(None);
    };
    match front_described(alloc, rest) {
        Ok(Some((inner, descriptor, rest))) => Ok(Some((
            inner,
            descriptor,
            Some(UnpackedIndex::Module(index)),
            rest,
        ))),
        Ok(None) => Ok(None),
        Err(NoMemory) => Err(NoMemory),
    }
}

/// The composite type at the front of some bytes, and the bytes behind it.
fn front_composite(alloc: Global, bytes: &[u8]) -> Result<Option<(CompositeType, &[u8])>, NoMemory>
    ensures some { IfOk result (λ o. IfSome o (λ r.
        Begins (Shape.ref Named.composite) bytes.now (composite_tree r.0) r.1.now)) }
    ensures none { IfOk result (λ o. IfNone o (BeginsNone (Shape.ref Named.composite) bytes.now)) }
{
    let Some((first, rest)) = front_byte(bytes) else {
        return Ok(None);
    };
    if first == 0x65 {
        return match front_describing(alloc, rest) {
            Ok(Some((inner, descriptor_idx, describes_idx, rest))) => Ok(Some((
                CompositeType {
                    inner,
                    shared: true,
                    descriptor_idx,
                    describes_idx,
                },
                rest,
            ))),
            Ok(None) => Ok(None),
            Err(NoMemory) => Err(NoMemory),
        };
    }
    match front_describing(alloc, bytes) {
        Ok(Some((inner, descriptor_idx, describes_idx, rest))) => Ok(Some((
            CompositeType {
                inner,
                shared: false,
                descriptor_idx,
                describes_idx,
            },
            rest,
        ))),
        Ok(None) => Ok(None),
        Err(NoMemory) => Err(NoMemory),
    }
}

/// The supertypes and the composite type behind them at the front of some bytes, and the bytes behind both.
fn front_behind_supertypes(
    alloc: Global,
    bytes: &[u8],
) -> Result<Option<(List<UnpackedIndex>, CompositeType, &[u8])>, NoMemory>
    ensures some { IfOk result (λ o. IfSome o (λ r. (middle : List ℕ)
        × Begins (Shape.vec (Shape.ix space.Type_)) bytes.now (supertypes_tree r.0) middle
        × Begins (Shape.ref Named.composite) middle (composite_tree r.1) r.2.now)) }
    ensures none { IfOk result (λ o. IfNone o (BeginsNone
        (Shape.seq (Shape.vec (Shape.ix space.Type_)) (Shape.ref Named.composite)) bytes.now)) }
{
    let (supertypes, rest) = match front_vec(alloc, bytes) {
        Ok(Some((supertypes, rest))) => (supertypes, rest),
        Ok(None) => return Ok(None),
        Err(NoMemory) => return Err(NoMemory),
    };
    match front_composite(alloc, rest) {
        Ok(Some((ty, rest))) => Ok(Some((supertypes, ty, rest))),
        Ok(None) => Ok(None),
        Err(NoMemory) => Err(NoMemory),
    }
}

/// The subtype at the front of some bytes, and the bytes behind it (WebAssembly Core Specification 3.0, section 5.3.9).
pub fn front_sub_type(alloc: Global, bytes: &[u8]) -> Result<Option<(SubType, &[u8])>, NoMemory>
    ensures some { IfOk result (λ o. IfSome o (λ r.
        Begins (Shape.ref Named.sub) bytes.now (sub_type_tree r.0) r.1.now)) }
    ensures none { IfOk result (λ o. IfNone o (BeginsNone (Shape.ref Named.sub) bytes.now)) }
{
    let Some((first, rest)) = front_byte(bytes) else {
        return Ok(None);
    };
    match first {
        0x50 => match front_behind_supertypes(alloc, rest) {
            Ok(Some((supertype_idxs, composite_type, rest))) => Ok(Some((
                SubType {
                    is_final: false,
                    supertype_idxs,
                    composite_type,
                },
                rest,
            ))),
            Ok(None) => Ok(None),
            Err(NoMemory) => Err(NoMemory),
        },
        0x4f => match front_behind_supertypes(alloc, rest) {
            Ok(Some((supertype_idxs, composite_type, rest))) => Ok(Some((
                SubType {
                    is_final: true,
                    supertype_idxs,
                    composite_type,
                },
                rest,
            ))),
            Ok(None) => Ok(None),
            Err(NoMemory) => Err(NoMemory),
        },
        _ => match front_composite(alloc, bytes) {
            Ok(Some((composite_type, rest))) => Ok(Some((
                SubType {
                    is_final: true,
                    supertype_idxs: List::new(alloc),
                    composite_type,
                },
                rest,
            ))),
            Ok(None) => Ok(None),
            Err(NoMemory) => Err(NoMemory),
        },
    }
}

/// A subtype of a group.
impl Entry for SubType {
    ghost use Rattle.std.specs.Prelude.{refl};

    ghost shape = { Shape.ref Named.sub };

    ghost tree = { sub_type_tree };

    ghost rows_sound = { refl };
}

impl<'a> ReadEntry<'a> for SubType {
    #[inline]
    fn front(alloc: Global, bytes: &'a [u8]) -> Result<Option<(SubType, &'a [u8])>, NoMemory> {
        front_sub_type(alloc, bytes)
    }
}

/// The group that is one type alone.
fn bare_group(alloc: Global, ty: SubType) -> Result<RecGroup, NoMemory>
    ensures { IfOk result (λ group. group_tree group ≡ sub_type_tree ty) }
{
    let mut types = match List::with_capacity(alloc, 1) {
        Ok(types) => types,
        Err(NoMemory) => return Err(NoMemory),
    };
    match types.push(ty) {
        Ok(()) => Ok(RecGroup {
            explicit: false,
            types,
        }),
        Err(NoMemory) => Err(NoMemory),
    }
}

/// The group of types at the front of some bytes, and the bytes behind it.
pub fn front_group(alloc: Global, bytes: &[u8]) -> Result<Option<(RecGroup, &[u8])>, NoMemory>
    ensures some { IfOk result (λ o. IfSome o (λ r.
        Begins (Shape.ref Named.group) bytes.now (group_tree r.0) r.1.now)) }
    ensures none { IfOk result (λ o. IfNone o (BeginsNone (Shape.ref Named.group) bytes.now)) }
{
    let Some((first, rest)) = front_byte(bytes) else {
        return Ok(None);
    };
    if first == 0x4e {
        return match front_vec(alloc, rest) {
            Ok(Some((types, rest))) => Ok(Some((
                RecGroup {
                    explicit: true,
                    types,
                },
                rest,
            ))),
            Ok(None) => Ok(None),
            Err(NoMemory) => Err(NoMemory),
        };
    }
    let (ty, rest) = match front_sub_type(alloc, bytes) {
        Ok(Some((ty, rest))) => (ty, rest),
        Ok(None) => return Ok(None),
        Err(NoMemory) => return Err(NoMemory),
    };
    match bare_group(alloc, ty) {
        Ok(group) => Ok(Some((group, rest))),
        Err(NoMemory) => Err(NoMemory),
    }
}

/// The group of types that is spelled at a place, and the place after it (WebAssembly Core Specification 3.0, section
/// 5.3.9).
///
/// The error is `Read` with the place that was asked for exactly where no group begins there, as past the end, or
/// memory runs out.
pub fn read_group(alloc: Global, bytes: &[u8], at: usize) -> Result<(RecGroup, usize), Fault>
    ensures ok { IfOk result (λ r.
        Begins (Shape.ref Named.group) (drop at bytes.now) (group_tree r.0) (drop r.1 bytes.now)) }
    ensures forward { IfOk result (λ r. (at < r.1) × (r.1 ≤ length bytes.now)) }
    ensures err { IfErr result (λ e.
        ReadsNoneOrWants e at (BeginsNone (Shape.ref Named.group) (drop at bytes.now))) }
{
    match front_group(alloc, from_place(bytes, at)) {
        Ok(Some((group, rest))) => Ok((group, bytes.len() - rest.len())),
        Ok(None) => Err(Fault::Read(ReadError { at })),
        Err(NoMemory) => Err(Fault::NoMemory),
    }
}
