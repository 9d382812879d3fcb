//! The sections of rows, by their kinds, and the start section.
ghost use Rattle.std.specs.Prelude.{◌≡◌, ◌++◌, map, take, vec_len, OnOk, OnErr};
ghost use Rattle.std.proofs.Common.{lit≤};
ghost use Rattle.wasm_shapes.specs.Tree.{normal};
ghost use Rattle.wasm_shapes.specs.Types.{vector_tree};
ghost use Rattle.wasm_write_component.specs.ComponentRows.{value_index_tree};

use crate::items::InArguments;
use std::marker::PhantomData;
use wasm_leb::{List, NoMemory, write_u32, write_u64};
use wasm_shapes::component_kinds;
use wasm_shapes::kinds::{RowKind, SectionKind};
use wasm_write::{RowSection, Section, write_rows};

/// Rows of a kind, as this crate writes them.
pub struct Of<K> {
    kind: PhantomData<K>,
}

impl<K: RowKind> RowKind for Of<K> {
    ghost shape = { K.shape };

    ghost is_sound = { K.is_sound };

    ghost is_closed = { K.is_closed };

    ghost rows_sound = { K.rows_sound };
}

impl<K: SectionKind> SectionKind for Of<K> {
    ghost ID = { K.SectionKind.ID };

    const ID: u8 = K::ID;

    ghost small = { K.SectionKind.small };
}

/// An alias section. `add` takes an `Alias`.
pub type ComponentAliasSection = RowSection<Of<component_kinds::Aliases>>;

/// An import section of a component. `add` takes a `ComponentImport`.
pub type ComponentImportSection = RowSection<Of<component_kinds::ComponentImports>>;

/// An export section of a component. `add` takes a `ComponentExport`.
pub type ComponentExportSection = RowSection<Of<component_kinds::ComponentExports>>;

/// A section of core instances. `add` takes an `Instance`.
pub type InstanceSection = RowSection<Of<component_kinds::Instances>>;

/// An instance section. `add` takes a `ComponentInstance`.
pub type ComponentInstanceSection = RowSection<Of<component_kinds::ComponentInstances>>;

/// A section of canonical functions. `add` takes a `CanonicalFunction`.
pub type CanonicalFunctionSection = RowSection<Of<component_kinds::CanonicalFunctions>>;

/// A section of core types. `add` takes a `CoreType`.
pub type CoreTypeSection = RowSection<Of<component_kinds::CoreTypes>>;

/// A type section of a component. `add` takes a `ComponentTypeRow`.
pub type ComponentTypeSection = RowSection<Of<component_kinds::ComponentTypes>>;

/// A start section of a component: the function that starts it, its arguments, and how many results it has.
#[derive(Drop)]
pub struct ComponentStartSection {
    pub function_index: u32,
    pub args: List<u32>,
    pub results: u32,
}

/// Appends values behind their number, however many they are, or a part of that where memory runs out.
fn write_values(out: &mut Vec<u8>, values: &[u32]) -> Result<(), NoMemory>
    ensures ok { OnOk result
        (out.new.items ≡ out.old.items ++ normal (vector_tree (map value_index_tree values.now))) }
    ensures err { OnErr result (take (vec_len out.old) out.new.items ≡ out.old.items) }
{
    match write_u64(out, values.len() as u64) {
        Ok(()) => {}
        Err(NoMemory) => return Err(NoMemory),
    }
    match write_rows::<InArguments, _>(out, values) {
        Ok(()) => Ok(()),
        Err(_) => Err(NoMemory),
    }
}

impl Section for ComponentStartSection {
    ghost use Rattle.wasm_types.specs.ComponentTrees.{component_start_tree};

    ghost number = { λ _. 9 };

    ghost contents = { λ s. normal (component_start_tree s.function_index s.args s.results) };

    ghost small = { λ _. lit≤ tt };

    fn id(&self) -> u8 {
        9
    }

    fn encode_body(&self, out: &mut Vec<u8>) -> Result<(), NoMemory> {
        match write_u32(out, self.function_index) {
            Ok(()) => {}
            Err(NoMemory) => return Err(NoMemory),
        }
        match write_values(out, self.args.as_slice()) {
            Ok(()) => write_u32(out, self.results),
            Err(NoMemory) => Err(NoMemory),
        }
    }
}
