//! The kinds of rows, and of sections whose body is a vector of them (WebAssembly Core Specification 3.0, section 5.5).
ghost use Rattle.std.specs.Prelude.{◌≡◌, ◌≤◌, ℕ, true, refl};
ghost use Rattle.std.proofs.Common.{lit≤};
ghost use Rattle.wasm_shapes.specs.Shape.{Shape, Named, closed, memory_type, tag_type};
ghost use Rattle.wasm_shapes.specs.Module.{code_row, data_row, element_row, export_row, function_row, global_row, import_row, table_row};
ghost use Rattle.wasm_shapes.specs.Sound.{sound};

/// A kind of rows, which stand in a vector.
pub trait RowKind {
    // The shape of a row.
    ghost shape: { Shape };

    ghost is_sound: { sound shape ≡ true };

    ghost is_closed: { closed shape ≡ true };

    ghost rows_sound: { sound (Shape.many shape) ≡ true };
}

/// A kind of section whose body is a vector of rows.
pub trait SectionKind: RowKind {
    ghost ID: { ℕ };

    /// Its id.
    const ID: u8;

    ghost small: { ID ≤ 127 };
}

/// A type section.
pub struct Types;

impl RowKind for Types {
    ghost shape = { Shape.ref Named.group };

    ghost is_sound = { refl };

    ghost is_closed = { refl };

    ghost rows_sound = { refl };
}

impl SectionKind for Types {
    ghost ID = { 1 };

    const ID: u8 = 1;

    ghost small = { lit≤ tt };
}

/// An import section.
pub struct Imports;

impl RowKind for Imports {
    ghost shape = { import_row };

    ghost is_sound = { refl };

    ghost is_closed = { refl };

    ghost rows_sound = { refl };
}

impl SectionKind for Imports {
    ghost ID = { 2 };

    const ID: u8 = 2;

    ghost small = { lit≤ tt };
}

/// A function section.
pub struct Functions;

impl RowKind for Functions {
    ghost shape = { function_row };

    ghost is_sound = { refl };

    ghost is_closed = { refl };

    ghost rows_sound = { refl };
}

impl SectionKind for Functions {
    ghost ID = { 3 };

    const ID: u8 = 3;

    ghost small = { lit≤ tt };
}

/// A table section.
pub struct Tables;

impl RowKind for Tables {
    ghost shape = { table_row };

    ghost is_sound = { refl };

    ghost is_closed = { refl };

    ghost rows_sound = { refl };
}

impl SectionKind for Tables {
    ghost ID = { 4 };

    const ID: u8 = 4;

    ghost small = { lit≤ tt };
}

/// A memory section.
pub struct Memories;

impl RowKind for Memories {
    ghost shape = { memory_type };

    ghost is_sound = { refl };

    ghost is_closed = { refl };

    ghost rows_sound = { refl };
}

impl SectionKind for Memories {
    ghost ID = { 5 };

    const ID: u8 = 5;

    ghost small = { lit≤ tt };
}

/// A global section.
pub struct Globals;

impl RowKind for Globals {
    ghost shape = { global_row };

    ghost is_sound = { refl };

    ghost is_closed = { refl };

    ghost rows_sound = { refl };
}

impl SectionKind for Globals {
    ghost ID = { 6 };

    const ID: u8 = 6;

    ghost small = { lit≤ tt };
}

/// An export section.
pub struct Exports;

impl RowKind for Exports {
    ghost shape = { export_row };

    ghost is_sound = { refl };

    ghost is_closed = { refl };

    ghost rows_sound = { refl };
}

impl SectionKind for Exports {
    ghost ID = { 7 };

    const ID: u8 = 7;

    ghost small = { lit≤ tt };
}

/// An element section.
pub struct Elements;

impl RowKind for Elements {
    ghost shape = { element_row };

    ghost is_sound = { refl };

    ghost is_closed = { refl };

    ghost rows_sound = { refl };
}

impl SectionKind for Elements {
    ghost ID = { 9 };

    const ID: u8 = 9;

    ghost small = { lit≤ tt };
}

/// A code section.
pub struct Code;

impl RowKind for Code {
    ghost shape = { code_row };

    ghost is_sound = { refl };

    ghost is_closed = { refl };

    ghost rows_sound = { refl };
}

impl SectionKind for Code {
    ghost ID = { 10 };

    const ID: u8 = 10;

    ghost small = { lit≤ tt };
}

/// A data section.
pub struct Segments;

impl RowKind for Segments {
    ghost shape = { data_row };

    ghost is_sound = { refl };

    ghost is_closed = { refl };

    ghost rows_sound = { refl };
}

impl SectionKind for Segments {
    ghost ID = { 11 };

    const ID: u8 = 11;

    ghost small = { lit≤ tt };
}

/// A tag section.
pub struct Tags;

impl RowKind for Tags {
    ghost shape = { tag_type };

    ghost is_sound = { refl };

    ghost is_closed = { refl };

    ghost rows_sound = { refl };
}

impl SectionKind for Tags {
    ghost ID = { 13 };

    const ID: u8 = 13;

    ghost small = { lit≤ tt };
}
