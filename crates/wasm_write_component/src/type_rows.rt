//! Core types, types of components and declarations in their normal spelling.
ghost use Rattle.std.specs.Prelude.{◌≡◌, ◌++◌, take, vec_len, OnOk, OnErr, IfErr};
ghost use Rattle.wasm_shapes.specs.Tree.{Tree, normal};
ghost use Rattle.wasm_shapes.specs.Types.{led};
ghost use Rattle.wasm_shapes.specs.Shape.{Shape};
ghost use Rattle.wasm_shapes.specs.Spells.{Spells};
ghost use Rattle.wasm_shapes.specs.Fits.{InRange};
ghost use Rattle.wasm_types.specs.ComponentTrees.{core_group_tree};
ghost use Rattle.wasm_write.specs.Counts.{counts, IsTooLarge};
ghost use Rattle.wasm_write.specs.Faults.{IfTooLarge};
ghost use Rattle.wasm_write.specs.Types.{entity_tree, group_tree};
ghost use Rattle.wasm_write_component.specs.TypeRows.{scope_tree};

use crate::aliases::write_outer;
use crate::declarations::{
    ComponentTypeDeclaration, ComponentTypeRow, CoreType, InstanceTypeDeclaration,
    ModuleTypeDeclaration,
};
use crate::defined_types::{write_component_func_type, write_defined_type, write_resource};
use crate::sections::Of;
use crate::types::ComponentImport;
use crate::value_types::write_byte;
use wasm_leb::{NoMemory, write_u32};
use wasm_shapes::component_kinds;
use wasm_shapes::kinds::{self, RowKind};
use wasm_write::{
    EntityType, Imports, RecGroup, RowOf, RowSection, WriteFault, write_entity_type, write_group,
    write_name,
};

/// Appends what a scope declares behind a byte and their number, or a part of that where memory runs out.
fn write_scope<K: RowKind>(
    out: &mut Vec<u8>,
    byte: u8,
    declarations: &RowSection<K>,
) -> Result<(), NoMemory>
    ensures ok { OnOk result
        (out.new.items ≡ out.old.items ++ normal (led byte (scope_tree declarations.now))) }
    ensures spells { OnOk result
        (∥ Spells (Shape.scope (Shape.vec K.shape)) (normal (scope_tree declarations.now)) (scope_tree declarations.now) ∥₁) }
    ensures err { OnErr result (take (vec_len out.old) out.new.items ≡ out.old.items) }
{
    match write_byte(out, byte) {
        Ok(()) => {}
        Err(NoMemory) => return Err(NoMemory),
    }
    match write_u32(out, declarations.len()) {
        Ok(()) => {}
        Err(NoMemory) => return Err(NoMemory),
    }
    match out.extend_from_slice(declarations.as_slice()) {
        Ok(()) => Ok(()),
        Err(_) => Err(NoMemory),
    }
}

/// Appends a row behind a byte, or a part of that where it is refused.
fn write_behind<K: RowKind, R: RowOf<K>>(
    out: &mut Vec<u8>,
    byte: u8,
    row: &R,
) -> Result<(), WriteFault>
    ensures ok { OnOk result
        (out.new.items ≡ out.old.items ++ normal (led byte (R.tree row.now))) }
    ensures spells { OnOk result
        (∥ Spells K.shape (normal (R.tree row.now)) (R.tree row.now) ∥₁) }
    ensures err { OnErr result (take (vec_len out.old) out.new.items ≡ out.old.items) }
    ensures large { IfErr result (λ e. IfTooLarge e (IsTooLarge (counts (R.tree row.now)))) }
{
    match write_byte(out, byte) {
        Ok(()) => {}
        Err(NoMemory) => return Err(WriteFault::NoMemory),
    }
    match row.write(out) {
        Ok(()) => Ok(()),
        Err(fault) => Err(fault),
    }
}

/// What stands in front of a group of types as a core type: an open subtype would begin with the byte of a module type.
fn front_of_group(group: &RecGroup) -> &'static [u8]
    ensures { normal (core_group_tree (group_tree group.now))
        ≡ result.now ++ normal (group_tree group.now) }
{
    match group.types.as_slice() {
        [ty, ..] if !group.explicit && !ty.is_final => &[0x00],
        _ => &[],
    }
}

/// Appends a group of types as a core type, or a part of it where that is refused.
fn write_core_group(out: &mut Vec<u8>, group: &RecGroup) -> Result<(), WriteFault>
    ensures ok { OnOk result
        (out.new.items ≡ out.old.items ++ normal (core_group_tree (group_tree group.now))) }
    ensures in_range { OnOk result (InRange (group_tree group.now)) }
    ensures err { OnErr result (take (vec_len out.old) out.new.items ≡ out.old.items) }
    ensures large { IfErr result (λ e. IfTooLarge e (IsTooLarge (counts (group_tree group.now)))) }
{
    match out.extend_from_slice(front_of_group(group)) {
        Ok(()) => {}
        Err(_) => return Err(WriteFault::NoMemory),
    }
    match write_group(out, group) {
        Ok(()) => Ok(()),
        Err(fault) => Err(fault),
    }
}

impl RowOf<Of<component_kinds::CoreTypes>> for CoreType {
    ghost use Rattle.wasm_write_component.specs.TypeRows.{core_type_tree};

    ghost tree = { core_type_tree };

    fn write(&self, out: &mut Vec<u8>) -> Result<(), WriteFault> {
        match self {
            CoreType::Rec(group) => write_core_group(out, group),
            CoreType::Module(declarations) => match write_scope(out, 0x50, declarations) {
                Ok(()) => Ok(()),
                Err(NoMemory) => Err(WriteFault::NoMemory),
            },
        }
    }
}

impl<'a> RowOf<Of<component_kinds::ComponentTypes>> for ComponentTypeRow<'a> {
    ghost use Rattle.wasm_write_component.specs.TypeRows.{component_type_tree};

    ghost tree = { component_type_tree };

    fn write(&self, out: &mut Vec<u8>) -> Result<(), WriteFault> {
        match self {
            ComponentTypeRow::Defined(ty) => write_defined_type(out, ty),
            ComponentTypeRow::Func(ty) => write_component_func_type(out, ty),
            ComponentTypeRow::Component(declarations) => {
                match write_scope(out, 0x41, declarations) {
                    Ok(()) => Ok(()),
                    Err(NoMemory) => Err(WriteFault::NoMemory),
                }
            }
            ComponentTypeRow::Instance(declarations) => {
                match write_scope(out, 0x42, declarations) {
                    Ok(()) => Ok(()),
                    Err(NoMemory) => Err(WriteFault::NoMemory),
                }
            }
            ComponentTypeRow::Resource { rep, dtor } => match write_resource(out, *rep, *dtor) {
                Ok(()) => Ok(()),
                Err(NoMemory) => Err(WriteFault::NoMemory),
            },
        }
    }
}

/// Appends what a module exports, by its name and its type, behind a byte, or a part of that where it is refused.
fn write_entity(out: &mut Vec<u8>, name: &str, ty: EntityType) -> Result<(), WriteFault>
    ensures ok { OnOk result (out.new.items ≡ out.old.items
        ++ normal (led 0x03 (Tree.pair (Tree.name name.now) (entity_tree ty)))) }
    ensures in_range { OnOk result (InRange (Tree.pair (Tree.name name.now) (entity_tree ty))) }
    ensures err { OnErr result (take (vec_len out.old) out.new.items ≡ out.old.items) }
    ensures large { IfErr result (λ e. IfTooLarge e
        (IsTooLarge (counts (Tree.pair (Tree.name name.now) (entity_tree ty))))) }
{
    match write_byte(out, 0x03) {
        Ok(()) => {}
        Err(NoMemory) => return Err(WriteFault::NoMemory),
    }
    match write_name(out, name) {
        Ok(()) => {}
        Err(fault) => return Err(fault),
    }
    match write_entity_type(out, ty) {
        Ok(()) => Ok(()),
        Err(NoMemory) => Err(WriteFault::NoMemory),
    }
}

impl<'a> RowOf<Of<component_kinds::ModuleDeclarations>> for ModuleTypeDeclaration<'a> {
    ghost use Rattle.wasm_write_component.specs.TypeRows.{module_declaration_tree};

    ghost tree = { module_declaration_tree };

    fn write(&self, out: &mut Vec<u8>) -> Result<(), WriteFault> {
        match self {
            ModuleTypeDeclaration::Import(import) => {
                write_behind::<kinds::Imports, _>(out, 0x00, &Imports::Single(*import))
            }
            ModuleTypeDeclaration::Type_(group) => {
                write_behind::<kinds::Types, _>(out, 0x01, group)
            }
            ModuleTypeDeclaration::OuterAlias { count, index, .. } => {
                match write_outer(out, &[0x02, 0x10, 0x01], *count, *index) {
                    Ok(()) => Ok(()),
                    Err(NoMemory) => Err(WriteFault::NoMemory),
                }
            }
            ModuleTypeDeclaration::Export { name, ty } => write_entity(out, name, *ty),
        }
    }
}

impl<'a> RowOf<Of<component_kinds::InstanceDeclarations>> for InstanceTypeDeclaration<'a> {
    ghost use Rattle.wasm_write_component.specs.TypeRows.{instance_declaration_tree};

    ghost tree = { instance_declaration_tree };

    fn write(&self, out: &mut Vec<u8>) -> Result<(), WriteFault> {
        match self {
            InstanceTypeDeclaration::CoreType(ty) => {
                write_behind::<Of<component_kinds::CoreTypes>, _>(out, 0x00, ty)
            }
            InstanceTypeDeclaration::Type_(ty) => {
                write_behind::<Of<component_kinds::ComponentTypes>, _>(out, 0x01, ty)
            }
            InstanceTypeDeclaration::Alias(alias) => {
                write_behind::<Of<component_kinds::Aliases>, _>(out, 0x02, alias)
            }
            InstanceTypeDeclaration::Export { name, ty } => {
                let row = ComponentImport { name, ty: *ty };
                write_behind::<Of<component_kinds::ComponentImports>, _>(out, 0x04, &row)
            }
        }
    }
}

impl<'a> RowOf<Of<component_kinds::ComponentDeclarations>> for ComponentTypeDeclaration<'a> {
    ghost use Rattle.wasm_write_component.specs.TypeRows.{component_declaration_tree};

    ghost tree = { component_declaration_tree };

    fn write(&self, out: &mut Vec<u8>) -> Result<(), WriteFault> {
        match self {
            ComponentTypeDeclaration::CoreType(ty) => {
                write_behind::<Of<component_kinds::CoreTypes>, _>(out, 0x00, ty)
            }
            ComponentTypeDeclaration::Type_(ty) => {
                write_behind::<Of<component_kinds::ComponentTypes>, _>(out, 0x01, ty)
            }
            ComponentTypeDeclaration::Alias(alias) => {
                write_behind::<Of<component_kinds::Aliases>, _>(out, 0x02, alias)
            }
            ComponentTypeDeclaration::Import(row) => {
                write_behind::<Of<component_kinds::ComponentImports>, _>(out, 0x03, row)
            }
            ComponentTypeDeclaration::Export { name, ty } => {
                let row = ComponentImport { name, ty: *ty };
                write_behind::<Of<component_kinds::ComponentImports>, _>(out, 0x04, &row)
            }
        }
    }
}
