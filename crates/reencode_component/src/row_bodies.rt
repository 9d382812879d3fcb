//! Rows of a component's sections as methods of items map them, each once.
ghost use Rattle.wasm_types.specs.ComponentTrees.{component_export_tree, component_import_tree, component_instance_tree, component_start_tree, instance_tree};
ghost use Rattle.wasm_read.specs.Types.{export_tree};
ghost use Rattle.wasm_read_component.specs.ComponentRows.{start_tree};
ghost use Rattle.wasm_write_component.specs.ComponentRows as write;
ghost use Rattle.wasm_write_component.specs.declared.sections.ComponentStartSection.{ComponentStartSection};
ghost use Rattle.reencode_items.specs.Clauses.{ItemClauses, ListClauses};

use crate::item_lists::{
    ComponentArgs, ComponentValues, CoreExports, InlineExports, InstantiationArgs,
};
use crate::items::ReencodeComponentItems;
use reencode_core::map_items;
use reencode_hooks::Error;
use std::alloc::Global;
use wasm_read_component as r;
use wasm_write_component as w;

/// What is imported, its type by `component_type_ref`.
pub(crate) fn component_import<'a, T: ReencodeComponentItems>(
    reencoder: &mut T,
    import: r::ComponentImport<'a>,
) -> Result<w::ComponentImport<'a>, Error<T::Error>>
    ensures { ItemClauses T.ReencodeIndices
        (component_import_tree import.entry) component_import_tree
        reencoder.old reencoder.new result }
{
    Ok(w::ComponentImport {
        name: import.name,
        ty: reencoder.component_type_ref(import.ty)?,
    })
}

/// What is exported, by `component_export_kind` and `component_external_index`, and its type, where it has one, by
/// `component_type_ref`.
pub(crate) fn component_export<'a, T: ReencodeComponentItems>(
    reencoder: &mut T,
    export: r::ComponentExport<'a>,
) -> Result<w::ComponentExport<'a>, Error<T::Error>>
    ensures { ItemClauses T.ReencodeIndices
        (component_export_tree export.entry) component_export_tree
        reencoder.old reencoder.new result }
{
    let kind = reencoder.component_export_kind(export.kind);
    let index = reencoder.component_external_index(export.kind, export.index);
    let ty = match export.ty {
        Some(ty) => Some(reencoder.component_type_ref(ty)?),
        None => None,
    };
    Ok(w::ComponentExport {
        name: export.name,
        kind,
        index,
        ty,
    })
}

/// A core instance: its module by `module_index` and then each argument by `instance_index`, or what it exports, by
/// `export_kind` and `external_index`.
pub(crate) fn instance<'a, T: ReencodeComponentItems>(
    reencoder: &mut T,
    alloc: Global,
    instance: r::Instance<'a>,
) -> Result<w::Instance<'a>, Error<T::Error>>
    ensures { ListClauses T.ReencodeIndices (instance_tree export_tree instance.entry)
        write.instance_tree reencoder.old reencoder.new result }
{
    match instance {
        r::Instance::Instantiate { module_index, args } => {
            let module_index = reencoder.module_index(module_index);
            let args = map_items::<T, InstantiationArgs, r::InstantiationArg, w::InstantiationArg>(
                reencoder, alloc, args,
            )?;
            Ok(w::Instance::Instantiate { module_index, args })
        }
        r::Instance::FromExports(exports) => {
            let exports = map_items::<T, CoreExports, wasm_read::Export, w::Export>(
                reencoder, alloc, exports,
            )?;
            Ok(w::Instance::FromExports(exports))
        }
    }
}

/// An instance: its component by `component_index` and then each argument, or what it exports, by `component_export_kind` and
/// `component_external_index`.
pub(crate) fn component_instance<'a, T: ReencodeComponentItems>(
    reencoder: &mut T,
    alloc: Global,
    instance: r::ComponentInstance<'a>,
) -> Result<w::ComponentInstance<'a>, Error<T::Error>>
    ensures { ListClauses T.ReencodeIndices (component_instance_tree instance.entry)
        component_instance_tree reencoder.old reencoder.new result }
{
    match instance {
        r::ComponentInstance::Instantiate {
            component_index,
            args,
        } => {
            let component_index = reencoder.component_index(component_index);
            let args = map_items::<T, ComponentArgs, r::ComponentArg, w::ComponentArg>(
                reencoder, alloc, args,
            )?;
            Ok(w::ComponentInstance::Instantiate {
                component_index,
                args,
            })
        }
        r::ComponentInstance::FromExports(exports) => {
            let exports = map_items::<T, InlineExports, r::ComponentArg, w::ComponentArg>(
                reencoder, alloc, exports,
            )?;
            Ok(w::ComponentInstance::FromExports(exports))
        }
    }
}

/// The function that starts a component, by `component_func_index`, and then each of its arguments by `component_value_index`.
pub(crate) fn start<T: ReencodeComponentItems>(
    reencoder: &mut T,
    alloc: Global,
    func: r::ComponentStartFunction,
) -> Result<w::ComponentStartSection, Error<T::Error>>
    ensures { ListClauses T.ReencodeIndices (start_tree func)
        (λ (made : ComponentStartSection). component_start_tree made.function_index made.args made.results)
        reencoder.old reencoder.new result }
{
    let function_index = reencoder.component_func_index(func.func_index);
    let args = map_items::<T, ComponentValues, u32, u32>(reencoder, alloc, func.arguments)?;
    Ok(w::ComponentStartSection {
        function_index,
        args,
        results: func.results,
    })
}
