//! The kinds of rows of components, and of their sections whose body is a vector of these.
ghost use Rattle.std.specs.Prelude.{◌≡◌, refl};
ghost use Rattle.std.proofs.Common.{lit≤};
ghost use Rattle.wasm_shapes.specs.Shape.{Shape};
ghost use Rattle.wasm_shapes.specs.Component.{alias, canonical_function, component_body_of, component_declaration, component_export_row, component_instance_row, component_type, core_type, extern_row, instance_declaration, instance_row, module_declaration};

use crate::kinds::{RowKind, SectionKind};

/// A kind of sections of components.
pub trait ComponentSectionKind: SectionKind {
    // The body of a section of its id is a vector of its rows.
    ghost is_body: { component_body_of Self.SectionKind.ID ≡ Shape.vec Self.SectionKind.shape };
}

/// A section of core instances.
pub struct Instances;

impl RowKind for Instances {
    ghost shape = { instance_row };

    ghost is_sound = { refl };

    ghost is_closed = { refl };

    ghost rows_sound = { refl };
}

impl SectionKind for Instances {
    ghost ID = { 2 };

    const ID: u8 = 2;

    ghost small = { lit≤ tt };
}

impl ComponentSectionKind for Instances {
    ghost is_body = { refl };
}

/// A section of core types.
pub struct CoreTypes;

impl RowKind for CoreTypes {
    ghost shape = { core_type };

    ghost is_sound = { refl };

    ghost is_closed = { refl };

    ghost rows_sound = { refl };
}

impl SectionKind for CoreTypes {
    ghost ID = { 3 };

    const ID: u8 = 3;

    ghost small = { lit≤ tt };
}

impl ComponentSectionKind for CoreTypes {
    ghost is_body = { refl };
}

/// A section of instances.
pub struct ComponentInstances;

impl RowKind for ComponentInstances {
    ghost shape = { component_instance_row };

    ghost is_sound = { refl };

    ghost is_closed = { refl };

    ghost rows_sound = { refl };
}

impl SectionKind for ComponentInstances {
    ghost ID = { 5 };

    const ID: u8 = 5;

    ghost small = { lit≤ tt };
}

impl ComponentSectionKind for ComponentInstances {
    ghost is_body = { refl };
}

/// A section of aliases.
pub struct Aliases;

impl RowKind for Aliases {
    ghost shape = { alias };

    ghost is_sound = { refl };

    ghost is_closed = { refl };

    ghost rows_sound = { refl };
}

impl SectionKind for Aliases {
    ghost ID = { 6 };

    const ID: u8 = 6;

    ghost small = { lit≤ tt };
}

impl ComponentSectionKind for Aliases {
    ghost is_body = { refl };
}

/// A section of types.
pub struct ComponentTypes;

impl RowKind for ComponentTypes {
    ghost shape = { component_type };

    ghost is_sound = { refl };

    ghost is_closed = { refl };

    ghost rows_sound = { refl };
}

impl SectionKind for ComponentTypes {
    ghost ID = { 7 };

    const ID: u8 = 7;

    ghost small = { lit≤ tt };
}

impl ComponentSectionKind for ComponentTypes {
    ghost is_body = { refl };
}

/// A section of canonical functions.
pub struct CanonicalFunctions;

impl RowKind for CanonicalFunctions {
    ghost shape = { canonical_function };

    ghost is_sound = { refl };

    ghost is_closed = { refl };

    ghost rows_sound = { refl };
}

impl SectionKind for CanonicalFunctions {
    ghost ID = { 8 };

    const ID: u8 = 8;

    ghost small = { lit≤ tt };
}

impl ComponentSectionKind for CanonicalFunctions {
    ghost is_body = { refl };
}

/// A section of imports.
pub struct ComponentImports;

impl RowKind for ComponentImports {
    ghost shape = { extern_row };

    ghost is_sound = { refl };

    ghost is_closed = { refl };

    ghost rows_sound = { refl };
}

impl SectionKind for ComponentImports {
    ghost ID = { 10 };

    const ID: u8 = 10;

    ghost small = { lit≤ tt };
}

impl ComponentSectionKind for ComponentImports {
    ghost is_body = { refl };
}

/// A section of exports.
pub struct ComponentExports;

impl RowKind for ComponentExports {
    ghost shape = { component_export_row };

    ghost is_sound = { refl };

    ghost is_closed = { refl };

    ghost rows_sound = { refl };
}

impl SectionKind for ComponentExports {
    ghost ID = { 11 };

    const ID: u8 = 11;

    ghost small = { lit≤ tt };
}

impl ComponentSectionKind for ComponentExports {
    ghost is_body = { refl };
}

/// The declarations of a module type.
pub struct ModuleDeclarations;

impl RowKind for ModuleDeclarations {
    ghost shape = { module_declaration };

    ghost is_sound = { refl };

    ghost is_closed = { refl };

    ghost rows_sound = { refl };
}

/// Those of an instance type.
pub struct InstanceDeclarations;

impl RowKind for InstanceDeclarations {
    ghost shape = { instance_declaration };

    ghost is_sound = { refl };

    ghost is_closed = { refl };

    ghost rows_sound = { refl };
}

/// Those of a component type.
pub struct ComponentDeclarations;

impl RowKind for ComponentDeclarations {
    ghost shape = { component_declaration };

    ghost is_sound = { refl };

    ghost is_closed = { refl };

    ghost rows_sound = { refl };
}
