//! The readers of the sections of rows.
ghost use Rattle.std.specs.Prelude.{true, IfOk, IfErr};
ghost use Rattle.wasm_shapes.specs.Spells.{Spells};
ghost use Rattle.wasm_shapes.specs.Component.{component_start};
ghost use Rattle.wasm_types.specs.ComponentTrees.{component_export_tree, component_import_tree, component_instance_tree, instance_tree};
ghost use Rattle.wasm_read.specs.Types.{export_tree};
ghost use Rattle.wasm_read_component.specs.Aliases.{alias_tree, NotExact};
ghost use Rattle.wasm_read_component.specs.ComponentRows.{InstanceKinds, StartRefused, canonical_tree, start_tree};

use crate::aliases::front_alias;
use crate::canonical::front_canonical;
use crate::rows::{
    front_component_export, front_component_import, front_component_instance, front_instance,
    front_start,
};
use crate::types::{
    CanonicalFunction, ComponentAlias, ComponentExport, ComponentImport, ComponentInstance,
    ComponentStartFunction, Instance,
};
use std::alloc::Global;
use std::marker::PhantomData;
use wasm_leb::{Fault, NoMemory, ReadError};
use wasm_read::{ReadRow, SectionReader};
use wasm_shapes::component_kinds;
use wasm_shapes::kinds::RowKind;

/// Rows of a kind, as this crate reads them.
pub struct Of<K> {
    kind: PhantomData<K>,
}

impl<K: RowKind> RowKind for Of<K> {
    ghost shape = { K.shape };

    ghost is_sound = { K.is_sound };

    ghost is_closed = { K.is_closed };

    ghost rows_sound = { K.rows_sound };
}

/// A reader of the rows of an alias section. The sort of a function that a core instance exports is read as `Func`.
pub type ComponentAliasSectionReader<'a> = SectionReader<'a, Of<component_kinds::Aliases>>;

impl<'a> ReadRow<'a> for Of<component_kinds::Aliases> {
    type Row = ComponentAlias<'a>;

    ghost tree = { alias_tree };

    ghost beside = { λ _ a. NotExact a };

    #[inline]
    fn front(
        _alloc: Global,
        bytes: &'a [u8],
    ) -> Result<Option<(ComponentAlias<'a>, &'a [u8])>, NoMemory> {
        Ok(front_alias(bytes))
    }
}

/// A reader of the rows of a section of core instances. The byte behind the name of an export is that of its kind. A row takes
/// memory.
pub type InstanceSectionReader<'a> = SectionReader<'a, Of<component_kinds::Instances>>;

impl<'a> ReadRow<'a> for Of<component_kinds::Instances> {
    type Row = Instance<'a>;

    ghost tree = { instance_tree export_tree };

    ghost beside = { InstanceKinds };

    ghost takes_memory = { true };

    #[inline]
    fn front(alloc: Global, bytes: &'a [u8]) -> Result<Option<(Instance<'a>, &'a [u8])>, NoMemory> {
        front_instance(alloc, bytes)
    }
}

/// A reader of the rows of an instance section. A row takes memory.
pub type ComponentInstanceSectionReader<'a> = SectionReader<
    'a,
    Of<component_kinds::ComponentInstances>,
>;

impl<'a> ReadRow<'a> for Of<component_kinds::ComponentInstances> {
    type Row = ComponentInstance<'a>;

    ghost tree = { component_instance_tree };

    ghost takes_memory = { true };

    #[inline]
    fn front(
        alloc: Global,
        bytes: &'a [u8],
    ) -> Result<Option<(ComponentInstance<'a>, &'a [u8])>, NoMemory> {
        front_component_instance(alloc, bytes)
    }
}

/// A reader of the rows of a section of canonical functions. A row takes memory.
pub type ComponentCanonicalSectionReader<'a> = SectionReader<
    'a,
    Of<component_kinds::CanonicalFunctions>,
>;

impl<'a> ReadRow<'a> for Of<component_kinds::CanonicalFunctions> {
    type Row = CanonicalFunction;

    ghost tree = { canonical_tree };

    ghost takes_memory = { true };

    #[inline]
    fn front(
        alloc: Global,
        bytes: &'a [u8],
    ) -> Result<Option<(CanonicalFunction, &'a [u8])>, NoMemory> {
        front_canonical(alloc, bytes)
    }
}

/// A reader of the rows of an import section of a component.
pub type ComponentImportSectionReader<'a> = SectionReader<
    'a,
    Of<component_kinds::ComponentImports>,
>;

impl<'a> ReadRow<'a> for Of<component_kinds::ComponentImports> {
    type Row = ComponentImport<'a>;

    ghost tree = { component_import_tree };

    #[inline]
    fn front(
        _alloc: Global,
        bytes: &'a [u8],
    ) -> Result<Option<(ComponentImport<'a>, &'a [u8])>, NoMemory> {
        Ok(front_component_import(bytes))
    }
}

/// A reader of the rows of an export section of a component.
pub type ComponentExportSectionReader<'a> = SectionReader<
    'a,
    Of<component_kinds::ComponentExports>,
>;

impl<'a> ReadRow<'a> for Of<component_kinds::ComponentExports> {
    type Row = ComponentExport<'a>;

    ghost tree = { component_export_tree };

    #[inline]
    fn front(
        _alloc: Global,
        bytes: &'a [u8],
    ) -> Result<Option<(ComponentExport<'a>, &'a [u8])>, NoMemory> {
        Ok(front_component_export(bytes))
    }
}

/// The start that a section holds. The error is `Read` exactly where the body is no start, with the place 0 where none begins, or
/// where bytes are left behind it with their place; or memory runs out.
pub fn read_start(alloc: Global, body: &[u8]) -> Result<ComponentStartFunction, Fault>
    ensures ok { IfOk result (λ start. Spells component_start body.now (start_tree start)) }
    ensures err { IfErr result (λ e. StartRefused e body.now) }
{
    match front_start(alloc, body) {
        Ok(Some((start, rest))) => {
            if rest.is_empty() {
                Ok(start)
            } else {
                Err(Fault::Read(ReadError {
                    at: body.len().saturating_sub(rest.len()),
                }))
            }
        }
        Ok(None) => Err(Fault::Read(ReadError { at: 0 })),
        Err(NoMemory) => Err(Fault::NoMemory),
    }
}
