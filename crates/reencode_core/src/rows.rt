//! The bodies that call methods of the traits below alone, each once: `utils` has them, and the methods call them.
ghost use Rattle.std.specs.Prelude.{◌≡◌, ◌≤◌};
ghost use Rattle.wasm_read.specs.Types as read;
ghost use Rattle.wasm_shapes.specs.declared.SectionId.TheVariants as ids;
ghost use Rattle.wasm_shapes.specs.Module.{row_of};
ghost use Rattle.wasm_write.specs.Rows.{elements_tree};
ghost use Rattle.wasm_write.specs.Types as write;
ghost use Rattle.reencode_items.specs.Clauses.{ListClauses};
ghost use Rattle.reencode_core.specs.Elements.{answered_table, asked_table};
ghost use Rattle.reencode_core.specs.Clauses.{BodyClauses, LocalsClauses, RowClauses, RowsClauses, UnknownClauses};

use crate::imports::{compact_items, compact_names};
use crate::item_lists::{ExpressionItems, FunctionItems, map_in_place, map_items};
use crate::sections::add_section;
use crate::{default_bodies, direct};
use reencode_hooks::{Error, ReencodeIndices};
use reencode_items::ReencodeItems;
use reencode_items::direct::Next;
use std::alloc::Global;
use wasm_leb::List;
use wasm_read as r;
use wasm_write as w;

/// Maps each type of a group by `sub_type`.
pub fn parse_recursive_type_group<T: ReencodeItems>(
    reencoder: &mut T,
    alloc: Global,
    rec_group: r::RecGroup,
) -> Result<w::RecGroup, Error<T::Error>>
    ensures { ListClauses T.ReencodeIndices (read.group_tree rec_group) write.group_tree
        reencoder.old reencoder.new result }
{
    let mut types = List::with_capacity(alloc, rec_group.types.len())?;
    for ty in rec_group.types.into_vec() {
        let ty = reencoder.sub_type(alloc, ty)?;
        types.push(ty)?;
    }
    Ok(w::RecGroup {
        explicit: rec_group.explicit,
        types,
    })
}

/// Maps the rows that the reader still has, each by `parse_recursive_type_group`, and adds each row once it is mapped.
pub(crate) fn parse_type_section<T: ReencodeItems>(
    reencoder: &mut T,
    alloc: Global,
    types: &mut w::TypeSection,
    section: r::TypeSectionReader<'_>,
) -> Result<(), Error<T::Error>>
    ensures { RowsClauses T.ReencodeIndices (row_of ids.Type_) section.entry
        reencoder.old types.old reencoder.new types.new result }
{
    default_bodies::each_row!(section, alloc, row => types.group(&parse_recursive_type_group(reencoder, alloc, row)?))
}

/// Maps an entry of an import section, each type in it by `entity_type`, and adds it.
pub fn parse_imports<T: ReencodeItems>(
    reencoder: &mut T,
    alloc: Global,
    import_section: &mut w::ImportSection,
    imports: r::Imports<'_>,
) -> Result<(), Error<T::Error>>
    ensures { RowClauses T.ReencodeIndices (read.import_tree imports.entry)
        reencoder.old import_section.old reencoder.new import_section.new result }
{
    match imports {
        r::Imports::Single(import) => {
            let ty = reencoder.entity_type(import.ty)?;
            let entry = w::Imports::Single(w::Import {
                module: import.module,
                name: import.name,
                ty,
            });
            import_section.imports(&entry)?;
            Ok(())
        }
        r::Imports::Compact1 { module, items } => {
            let items = compact_items(reencoder, alloc, items)?;
            let entry = w::Imports::Compact1 { module, items };
            import_section.imports(&entry)?;
            Ok(())
        }
        r::Imports::Compact2 { module, ty, names } => {
            let ty = reencoder.entity_type(ty)?;
            let names = compact_names(alloc, names)?;
            let entry = w::Imports::Compact2 { module, ty, names };
            import_section.imports(&entry)?;
            Ok(())
        }
    }
}

/// Maps a table by `table_type`, and the expression of its first value by `const_expr` where it has one, and adds it.
pub fn parse_table<T: ReencodeItems>(
    reencoder: &mut T,
    alloc: Global,
    tables: &mut w::TableSection,
    table: r::Table<'_>,
) -> Result<(), Error<T::Error>>
    ensures { RowClauses T.ReencodeIndices (read.table_tree table.entry)
        reencoder.old tables.old reencoder.new tables.new result }
{
    let ty = reencoder.table_type(table.ty)?;
    match table.init {
        r::TableInit::RefNull => {
            tables.table(ty)?;
            Ok(())
        }
        r::TableInit::Expr(expr) => {
            let init = reencoder.const_expr(alloc, expr)?;
            tables.table_with_init(ty, &init)?;
            Ok(())
        }
    }
}

/// Maps a global by `global_type`, the expression of its first value by `const_expr`, and adds it.
pub fn parse_global<T: ReencodeItems>(
    reencoder: &mut T,
    alloc: Global,
    globals: &mut w::GlobalSection,
    global: r::Global<'_>,
) -> Result<(), Error<T::Error>>
    ensures { RowClauses T.ReencodeIndices (read.global_tree global.entry)
        reencoder.old globals.old reencoder.new globals.new result }
{
    let ty = reencoder.global_type(global.ty)?;
    let init = reencoder.const_expr(alloc, global.init_expr)?;
    globals.global(ty, &init)?;
    Ok(())
}

/// Maps an export by `export_kind` and `external_index`, and adds it.
pub fn parse_export<T: ReencodeItems>(
    reencoder: &mut T,
    exports: &mut w::ExportSection,
    export: r::Export<'_>,
) -> Result<(), Error<T::Error>>
    ensures { RowClauses T.ReencodeIndices (read.export_tree export.entry)
        reencoder.old exports.old reencoder.new exports.new result }
{
    let kind = reencoder.export_kind(export.kind)?;
    let index = reencoder.external_index(export.kind, export.index)?;
    exports.export(export.name, kind, index)?;
    Ok(())
}

/// Maps a data segment and adds it. The memory of an active one is mapped by `memory_index`, and then its offset by
/// `const_expr`.
pub fn parse_data<T: ReencodeItems>(
    reencoder: &mut T,
    alloc: Global,
    segments: &mut w::DataSection,
    datum: r::Data<'_>,
) -> Result<(), Error<T::Error>>
    ensures { RowClauses T.ReencodeIndices (read.data_tree datum.entry)
        reencoder.old segments.old reencoder.new segments.new result }
{
    let r::Data { kind, contents } = datum;
    match kind {
        r::DataKind::Active {
            memory_index,
            offset_expr,
        } => {
            let memory = reencoder.memory_index(memory_index)?;
            let offset = reencoder.const_expr(alloc, offset_expr)?;
            segments.active(memory, &offset, contents)?;
            Ok(())
        }
        r::DataKind::Passive => {
            segments.passive(contents)?;
            Ok(())
        }
    }
}

/// Maps what an element segment lists: functions each by `function_index`, or expressions each by `const_expr` and
/// then their type by `ref_type`.
pub fn element_items<T: ReencodeItems>(
    reencoder: &mut T,
    alloc: Global,
    items: r::ElementItems<'_>,
) -> Result<w::Elements, Error<T::Error>>
    ensures { ListClauses T.ReencodeIndices (read.element_items_tree items.entry) elements_tree
        reencoder.old reencoder.new result }
{
    match items {
        r::ElementItems::Functions(functions) => {
            let functions = map_in_place::<T, FunctionItems>(reencoder, alloc, functions)?;
            Ok(w::Elements::Functions(functions))
        }
        r::ElementItems::Expressions(ty, expressions) => {
            let expressions = map_items::<T, ExpressionItems, r::ConstExpr, w::ConstExpr>(
                reencoder,
                alloc,
                expressions,
            )?;
            let ty = reencoder.ref_type(ty)?;
            Ok(w::Elements::Expressions(ty, expressions))
        }
    }
}

/// The table that is asked for where an element segment goes: the first, where it is left out.
#[inline]
pub(crate) fn asked_table(table_index: Option<u32>) -> u32
    ensures { result ≡ asked_table table_index }
{
    match table_index {
        Some(index) => index,
        None => 0,
    }
}

/// The table of an element segment by its answer: one that was left out and is answered 0 stays left out.
#[inline]
pub(crate) fn answered_table(table_index: Option<u32>, answer: u32) -> Option<u32>
    ensures { result ≡ answered_table table_index answer }
{
    match table_index {
        None => { if answer == 0 { None } else { Some(answer) } }
        Some(_) => Some(answer),
    }
}

/// A function with the locals that a body begins with, each type by `val_type`, and no operator.
pub fn new_function_with_parsed_locals<T: ReencodeItems>(
    reencoder: &mut T,
    alloc: Global,
    func: &r::FunctionBody<'_>,
) -> Result<w::Function, Error<T::Error>>
    ensures { LocalsClauses T.ReencodeIndices func.now.bytes.now
        reencoder.old reencoder.new result }
{
    let locals = func.locals(alloc)?;
    let mut mapped = List::with_capacity(alloc, locals.len())?;
    for local in locals.into_vec() {
        let ty = reencoder.val_type(local.1)?;
        mapped.push((local.0, ty))?;
    }
    Ok(w::Function::new(alloc, &mapped)?)
}

/// Maps the locals of a body and its operators by methods of `ReencodeItems`, and adds the function.
pub(crate) fn parse_function_body<T: ReencodeItems>(
    reencoder: &mut T,
    alloc: Global,
    code: &mut w::CodeSection,
    func: r::FunctionBody<'_>,
) -> Result<(), Error<T::Error>>
    ensures { BodyClauses T.ReencodeIndices func.entry.bytes.now
        reencoder.old code.old reencoder.new code.new result }
{
    default_bodies::parse_function_body!(
        reencoder,
        false,
        alloc,
        code,
        func,
        new_function_with_parsed_locals(reencoder, alloc, &func)
    )
}

/// A custom section as it is, whatever its name.
pub fn custom_section<'a, T: ReencodeIndices>(
    reencoder: &mut T,
    section: r::CustomSection<'a>,
) -> w::CustomSection<'a>
    ensures is { write.custom_section_tree result ≡ read.custom_tree section.entry }
    ensures state { reencoder.new ≡ reencoder.old }
{
    let _ = reencoder;
    section
}

/// Adds a section of an id that no kind has, by its bytes. It calls neither the section hook nor the closing hook.
pub fn parse_unknown_section<T: ReencodeIndices>(
    reencoder: &mut T,
    module: &mut w::Module,
    id: u8,
    contents: &[u8],
) -> Result<(), Error<T::Error>>
    requires { id ≤ 127 }
    ensures { UnknownClauses T.ReencodeIndices id contents.now
        reencoder.old «module».old reencoder.new «module».new result }
{
    add_section(module, Ok(()), &w::RawSection { id, contents })
}
