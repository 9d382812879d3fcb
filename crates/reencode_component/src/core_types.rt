//! What a module type declares, as methods map it.
ghost use Rattle.wasm_read_component.specs.TypeRows as read;
ghost use Rattle.wasm_write_component.specs.TypeRows as write;
ghost use Rattle.reencode_items.specs.Clauses.{ListClauses};
ghost use Rattle.reencode_core.specs.Clauses.{RowClauses};

use crate::items::ReencodeComponentItems;
use crate::rows::add_row;
use reencode_core::Reencode;
use reencode_hooks::Error;
use std::alloc::Global;
use wasm_read_component as r;
use wasm_write_component as w;

/// What a module type declares: types by `parse_recursive_type_group`, what is imported or exported by `entity_type`, and an
/// alias by `outer_type_index`.
fn module_declaration<'a, T: Reencode + ReencodeComponentItems>(
    reencoder: &mut T,
    alloc: Global,
    decl: r::ModuleTypeDeclaration<'a>,
) -> Result<w::ModuleTypeDeclaration<'a>, Error<T::Error>>
    ensures { ListClauses T.ReencodeIndices (read.module_declaration_tree decl.entry)
        write.module_declaration_tree reencoder.old reencoder.new result }
{
    match decl {
        r::ModuleTypeDeclaration::Type_(group) => {
            let group = reencoder.parse_recursive_type_group(alloc, group)?;
            Ok(w::ModuleTypeDeclaration::Type_(group))
        }
        r::ModuleTypeDeclaration::Export { name, ty } => {
            let ty = reencoder.entity_type(ty)?;
            Ok(w::ModuleTypeDeclaration::Export { name, ty })
        }
        r::ModuleTypeDeclaration::OuterAlias { kind, count, index } => {
            let index = reencoder.outer_type_index(count, index)?;
            Ok(w::ModuleTypeDeclaration::OuterAlias { kind, count, index })
        }
        r::ModuleTypeDeclaration::Import(import) => {
            let ty = reencoder.entity_type(import.ty)?;
            Ok(w::ModuleTypeDeclaration::Import(wasm_write::Import {
                module: import.module,
                name: import.name,
                ty,
            }))
        }
    }
}

/// Maps what a module type declares (Component Model, Binary Format: `core:moduledecl`) and adds it: types by
/// `parse_recursive_type_group`, what is imported or exported by `entity_type`, and an alias by `outer_type_index`, its count as
/// it is.
pub fn parse_component_module_type_declaration<T: Reencode + ReencodeComponentItems>(
    reencoder: &mut T,
    alloc: Global,
    module: &mut w::ModuleType,
    decl: r::ModuleTypeDeclaration<'_>,
) -> Result<(), Error<T::Error>>
    ensures { RowClauses T.ReencodeIndices (read.module_declaration_tree decl.entry)
        reencoder.old «module».old reencoder.new «module».new result }
{
    let row = module_declaration(reencoder, alloc, decl);
    add_row(module, row)
}
