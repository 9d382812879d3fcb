//! Canonical functions, as hooks and methods of items map them: their byte stays, and what stands behind it is mapped by its form.
ghost use Rattle.wasm_types.specs.declared.components.Operands.TheVariants as operands;
ghost use Rattle.wasm_types.specs.ComponentTrees.{borrowed_operands, canonical_options_tree};
ghost use Rattle.wasm_read_component.specs.ComponentRows as read;
ghost use Rattle.wasm_write_component.specs.ComponentRows as write;
ghost use Rattle.reencode_items.specs.Clauses.{ListClauses};
ghost use Rattle.reencode_component.specs.Clauses.{OperandsClauses};

use crate::items::ReencodeComponentItems;
use reencode_hooks::Error;
use std::alloc::Global;
use wasm_leb::List;
use wasm_read::UnpackedIndex;
use wasm_read_component as r;
use wasm_types::{CanonicalOption, ComponentValType, Operands};
use wasm_write_component as w;

/// Options, each by `canonical_option`.
fn canonical_options<T: ReencodeComponentItems>(
    reencoder: &mut T,
    alloc: Global,
    options: &List<CanonicalOption>,
) -> Result<List<CanonicalOption>, Error<T::Error>>
    ensures { ListClauses T.ReencodeIndices (canonical_options_tree options.now)
        canonical_options_tree reencoder.old reencoder.new result }
{
    let mut mapped = List::with_capacity(alloc, options.len())?;
    for option in options.as_slice() {
        let option = reencoder.canonical_option(*option)?;
        mapped.push(option)?;
    }
    Ok(mapped)
}

/// A lifted function: the core function, its type and then the options, though these stand before the type.
fn lift<T: ReencodeComponentItems>(
    reencoder: &mut T,
    alloc: Global,
    func: u32,
    options: &List<CanonicalOption>,
    ty: u32,
) -> Result<Operands<u32, List<CanonicalOption>>, Error<T::Error>>
    ensures { OperandsClauses T.ReencodeIndices (operands.Lift func options.now ty)
        reencoder.old reencoder.new result }
{
    let func = reencoder.function_index(func)?;
    let ty = reencoder.component_type_index(ty);
    let options = canonical_options(reencoder, alloc, options)?;
    Ok(Operands::Lift { func, options, ty })
}

/// A lowered function: the function, and then the options.
fn lower<T: ReencodeComponentItems>(
    reencoder: &mut T,
    alloc: Global,
    func: u32,
    options: &List<CanonicalOption>,
) -> Result<Operands<u32, List<CanonicalOption>>, Error<T::Error>>
    ensures { OperandsClauses T.ReencodeIndices (operands.Lower func options.now)
        reencoder.old reencoder.new result }
{
    let func = reencoder.component_func_index(func);
    let options = canonical_options(reencoder, alloc, options)?;
    Ok(Operands::Lower { func, options })
}

/// Options, and then the type that stands before them.
fn type_and_options<T: ReencodeComponentItems>(
    reencoder: &mut T,
    alloc: Global,
    ty: u32,
    options: &List<CanonicalOption>,
) -> Result<Operands<u32, List<CanonicalOption>>, Error<T::Error>>
    ensures { OperandsClauses T.ReencodeIndices (operands.TypeAndOptions ty options.now)
        reencoder.old reencoder.new result }
{
    let options = canonical_options(reencoder, alloc, options)?;
    let ty = reencoder.component_type_index(ty);
    Ok(Operands::TypeAndOptions { ty, options })
}

/// Options, and then the type of the result that stands before them, where there is one.
fn result_and_options<T: ReencodeComponentItems>(
    reencoder: &mut T,
    alloc: Global,
    ty: Option<ComponentValType>,
    options: &List<CanonicalOption>,
) -> Result<Operands<u32, List<CanonicalOption>>, Error<T::Error>>
    ensures { OperandsClauses T.ReencodeIndices (operands.ResultAndOptions ty options.now)
        reencoder.old reencoder.new result }
{
    let options = canonical_options(reencoder, alloc, options)?;
    let result = match ty {
        Some(ty) => Some(reencoder.component_val_type(ty)),
        None => None,
    };
    Ok(Operands::ResultAndOptions { result, options })
}

/// A core type, and then a table.
fn core_type_and_table<T: ReencodeComponentItems>(
    reencoder: &mut T,
    ty: u32,
    table: u32,
) -> Result<Operands<u32, List<CanonicalOption>>, Error<T::Error>>
    ensures { OperandsClauses T.ReencodeIndices (operands.CoreTypeAndTable ty table)
        reencoder.old reencoder.new result }
{
    let ty = reencoder.type_index(ty)?;
    let table = reencoder.table_index(table)?;
    Ok(Operands::CoreTypeAndTable { ty, table })
}

/// What stands behind the byte of a canonical function, by its form.
fn operands<T: ReencodeComponentItems>(
    reencoder: &mut T,
    alloc: Global,
    operands: Operands<UnpackedIndex, &List<CanonicalOption>>,
) -> Result<Operands<u32, List<CanonicalOption>>, Error<T::Error>>
    ensures { OperandsClauses T.ReencodeIndices (borrowed_operands operands.entry)
        reencoder.old reencoder.new result }
{
    match operands {
        Operands::Nothing => Ok(Operands::Nothing),
        Operands::Lift { func, options, ty } => lift(reencoder, alloc, func, options, ty),
        Operands::Lower { func, options } => lower(reencoder, alloc, func, options),
        Operands::Type_ { ty } => Ok(Operands::Type_ {
            ty: reencoder.component_type_index(ty),
        }),
        Operands::TypeAndOptions { ty, options } => {
            type_and_options(reencoder, alloc, ty, options)
        }
        Operands::TypeAndAsync { ty, async_ } => Ok(Operands::TypeAndAsync {
            ty: reencoder.component_type_index(ty),
            async_,
        }),
        Operands::Async { async_ } => Ok(Operands::Async { async_ }),
        Operands::ResultAndOptions { result, options } => {
            result_and_options(reencoder, alloc, result, options)
        }
        Operands::Slot { ty, slot } => match reencoder.val_type(ty) {
            Ok(ty) => Ok(Operands::Slot { ty, slot }),
            Err(e) => Err(e),
        },
        Operands::Options { options } => match canonical_options(reencoder, alloc, options) {
            Ok(options) => Ok(Operands::Options { options }),
            Err(e) => Err(e),
        },
        Operands::CoreType { ty } => match reencoder.type_index(ty) {
            Ok(ty) => Ok(Operands::CoreType { ty }),
            Err(e) => Err(e),
        },
        Operands::CoreTypeAndTable { ty, table } => core_type_and_table(reencoder, ty, table),
    }
}

/// A canonical function.
pub(crate) fn canonical_function<T: ReencodeComponentItems>(
    reencoder: &mut T,
    alloc: Global,
    func: r::CanonicalFunction,
) -> Result<w::CanonicalFunction, Error<T::Error>>
    ensures { ListClauses T.ReencodeIndices (read.canonical_tree func) write.canonical_tree
        reencoder.old reencoder.new result }
{
    let (byte, held) = func.parts();
    let made = operands(reencoder, alloc, held)?;
    match w::CanonicalFunction::of_parts(byte, made) {
        Some(function) => Ok(function),
        None => unreachable!(),
    }
}
