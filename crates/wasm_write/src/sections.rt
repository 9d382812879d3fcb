//! The sections of rows, by their kinds.
ghost use Rattle.std.specs.Prelude.{◌≡◌, ◌++◌, ◌∷◌, ◌+◌, ◌-◌, ◌^◌, ◌<◌, ◌⊎◌, [], length, OnOk, OnErr, IfErr};
ghost use Rattle.wasm_shapes.specs.Types.{function_tree};
ghost use Rattle.wasm_shapes.specs.Fits.{InRange};
ghost use Rattle.wasm_write.specs.Counts.{counts, IsTooLarge};
ghost use Rattle.wasm_write.specs.Faults.{IfTooLarge};
ghost use Rattle.wasm_write.specs.Rows.{import_tree, null_table_tree, table_with_init_tree, global_tree, export_tree, active_data_tree, passive_data_tree, elements_len, active_tree, passive_tree, declared_tree};
ghost use Rattle.wasm_write.specs.Types.{group_tree, memory_type_tree, tag_type_tree};

use crate::elements::{Active, Unplaced};
use crate::expressions::ConstExpr;
use crate::fault::WriteFault;
use crate::row_section::RowSection;
use crate::rows::{ActiveData, Global, PassiveData, TableWithInit};
use crate::types::{
    Elements, Export, ExportKind, GlobalType, Imports, MemoryType, RecGroup, TableType, TagType,
};
use wasm_shapes::kinds;

/// A type section (WebAssembly Core Specification 3.0, section 5.5.4).
pub type TypeSection = RowSection<kinds::Types>;

impl RowSection<kinds::Types> {
    /// Adds a group of types. A refusal changes nothing.
    ///
    /// `TooLarge` comes exactly where a number of value types, fields, supertypes or types in it is above 2^32 - 1, or the
    /// number of rows would be, with that number.
    #[inline]
    pub fn group(&mut self, group: &RecGroup) -> Result<(), WriteFault>
        ensures ok { OnOk result (self.new ≡ self.old ++ group_tree group.now ∷ []) }
        ensures in_range { OnOk result (InRange (group_tree group.now)) }
        ensures fits { OnOk result (length self.old + 1 < 2 ^ 32) }
        ensures err { OnErr result (self.new ≡ self.old) }
        ensures large { IfErr result (λ e. IfTooLarge e
            (IsTooLarge (counts (group_tree group.now) ++ (length self.old + 1) ∷ []))) }
    {
        self.add(group)
    }
}

/// An import section (WebAssembly Core Specification 3.0, section 5.5.5).
pub type ImportSection = RowSection<kinds::Imports>;

impl RowSection<kinds::Imports> {
    /// Adds what is imported. A refusal changes nothing.
    ///
    /// `TooLarge` comes exactly where one of the names has more than 2^32 - 1 bytes, a compact import has more items than
    /// that, or the number of rows would pass it, with that number.
    #[inline]
    pub fn imports(&mut self, imports: &Imports<'_>) -> Result<(), WriteFault>
        ensures ok { OnOk result (self.new ≡ self.old ++ import_tree imports.now ∷ []) }
        ensures in_range { OnOk result (InRange (import_tree imports.now)) }
        ensures fits { OnOk result (length self.old + 1 < 2 ^ 32) }
        ensures err { OnErr result (self.new ≡ self.old) }
        ensures large { IfErr result (λ e. IfTooLarge e
            (IsTooLarge (counts (import_tree imports.now) ++ (length self.old + 1) ∷ []))) }
    {
        self.add(imports)
    }
}

/// A function section (WebAssembly Core Specification 3.0, section 5.5.6): the functions by the indices of their types.
pub type FunctionSection = RowSection<kinds::Functions>;

impl RowSection<kinds::Functions> {
    /// Adds a function by the index of its type. A refusal changes nothing.
    ///
    /// `TooLarge` comes exactly where the number of rows would pass 2^32 - 1, with that number.
    #[inline]
    pub fn function(&mut self, type_index: u32) -> Result<(), WriteFault>
        ensures ok { OnOk result (self.new ≡ self.old ++ function_tree type_index ∷ []) }
        ensures fits { OnOk result (length self.old + 1 < 2 ^ 32) }
        ensures err { OnErr result (self.new ≡ self.old) }
        ensures large { IfErr result (λ e. IfTooLarge e
            (λ size. (size ≡ length self.old + 1) × (2 ^ 32 - 1 < size))) }
    {
        self.add(&type_index)
    }
}

/// A table section (WebAssembly Core Specification 3.0, section 5.5.7).
pub type TableSection = RowSection<kinds::Tables>;

impl RowSection<kinds::Tables> {
    /// Adds a table that starts with null references. A refusal changes nothing.
    ///
    /// `TooLarge` comes exactly where the number of rows would pass 2^32 - 1, with that number.
    #[inline]
    pub fn table(&mut self, ty: TableType) -> Result<(), WriteFault>
        ensures ok { OnOk result (self.new ≡ self.old ++ null_table_tree ty ∷ []) }
        ensures fits { OnOk result (length self.old + 1 < 2 ^ 32) }
        ensures err { OnErr result (self.new ≡ self.old) }
        ensures large { IfErr result (λ e. IfTooLarge e
            (λ size. (size ≡ length self.old + 1) × (2 ^ 32 - 1 < size))) }
    {
        self.add(&ty)
    }

    /// Adds a table that starts with the value of an expression. A refusal changes nothing.
    ///
    /// `TooLarge` comes exactly where the number of rows would pass 2^32 - 1, with that number.
    #[inline]
    pub fn table_with_init(&mut self, ty: TableType, init: &ConstExpr) -> Result<(), WriteFault>
        ensures ok { OnOk result (self.new ≡ self.old ++ table_with_init_tree ty init.now ∷ []) }
        ensures fits { OnOk result (length self.old + 1 < 2 ^ 32) }
        ensures err { OnErr result (self.new ≡ self.old) }
        ensures large { IfErr result (λ e. IfTooLarge e
            (λ size. (size ≡ length self.old + 1) × (2 ^ 32 - 1 < size))) }
    {
        // for what it says of the spelling of the expression
        init.len();
        self.add(&TableWithInit { ty, init })
    }
}

/// A memory section (WebAssembly Core Specification 3.0, section 5.5.8).
pub type MemorySection = RowSection<kinds::Memories>;

impl RowSection<kinds::Memories> {
    /// Adds a memory. A refusal changes nothing.
    ///
    /// `TooLarge` comes exactly where the number of rows would pass 2^32 - 1, with that number.
    #[inline]
    pub fn memory(&mut self, ty: MemoryType) -> Result<(), WriteFault>
        ensures ok { OnOk result (self.new ≡ self.old ++ memory_type_tree ty ∷ []) }
        ensures fits { OnOk result (length self.old + 1 < 2 ^ 32) }
        ensures err { OnErr result (self.new ≡ self.old) }
        ensures large { IfErr result (λ e. IfTooLarge e
            (λ size. (size ≡ length self.old + 1) × (2 ^ 32 - 1 < size))) }
    {
        self.add(&ty)
    }
}

/// A global section (WebAssembly Core Specification 3.0, section 5.5.9).
pub type GlobalSection = RowSection<kinds::Globals>;

impl RowSection<kinds::Globals> {
    /// Adds a global and the expression of its first value. A refusal changes nothing.
    ///
    /// `TooLarge` comes exactly where the number of rows would pass 2^32 - 1, with that number.
    #[inline]
    pub fn global(&mut self, ty: GlobalType, init: &ConstExpr) -> Result<(), WriteFault>
        ensures ok { OnOk result (self.new ≡ self.old ++ global_tree ty init.now ∷ []) }
        ensures fits { OnOk result (length self.old + 1 < 2 ^ 32) }
        ensures err { OnErr result (self.new ≡ self.old) }
        ensures large { IfErr result (λ e. IfTooLarge e
            (λ size. (size ≡ length self.old + 1) × (2 ^ 32 - 1 < size))) }
    {
        // for what it says of the spelling of the expression
        init.len();
        self.add(&Global { ty, init })
    }
}

/// An export section (WebAssembly Core Specification 3.0, section 5.5.10).
pub type ExportSection = RowSection<kinds::Exports>;

impl RowSection<kinds::Exports> {
    /// Adds what is exported under a name, by its kind and its index. A refusal changes nothing.
    ///
    /// `TooLarge` comes exactly where the name has more than 2^32 - 1 bytes or the number of rows would pass 2^32 - 1, with
    /// that number.
    #[inline]
    pub fn export(&mut self, name: &str, kind: ExportKind, index: u32) -> Result<(), WriteFault>
        ensures ok { OnOk result (self.new ≡ self.old ++ export_tree name.now kind index ∷ []) }
        ensures fits { OnOk result ((length name.now < 2 ^ 32) × (length self.old + 1 < 2 ^ 32)) }
        ensures err { OnErr result (self.new ≡ self.old) }
        ensures large { IfErr result (λ e. IfTooLarge e (λ size.
            ((size ≡ length name.now) ⊎ (size ≡ length self.old + 1)) × (2 ^ 32 - 1 < size))) }
    {
        self.add(&Export { name, kind, index })
    }
}

/// An element section (WebAssembly Core Specification 3.0, section 5.5.12).
pub type ElementSection = RowSection<kinds::Elements>;

impl RowSection<kinds::Elements> {
    /// Adds a segment that is copied to a table at an offset. A table that is left out is the table 0; it is written where
    /// the segment holds expressions of another type than that of references to functions that may be null. A refusal
    /// changes nothing.
    ///
    /// `TooLarge` comes exactly where the number of functions or expressions is above 2^32 - 1, or the number of rows would
    /// be, with that number.
    #[inline]
    pub fn active(
        &mut self,
        table: Option<u32>,
        offset: &ConstExpr,
        elements: &Elements,
    ) -> Result<(), WriteFault>
        ensures ok { OnOk result
            (self.new ≡ self.old ++ active_tree table offset.now elements.now ∷ []) }
        ensures fits { OnOk result
            ((elements_len elements.now < 2 ^ 32) × (length self.old + 1 < 2 ^ 32)) }
        ensures err { OnErr result (self.new ≡ self.old) }
        ensures large { IfErr result (λ e. IfTooLarge e (λ size.
            ((size ≡ elements_len elements.now) ⊎ (size ≡ length self.old + 1))
            × (2 ^ 32 - 1 < size))) }
    {
        // for what they say of the spellings of the expressions
        offset.len();
        elements.have_spellings();
        self.add(&Active {
            table,
            offset,
            elements,
        })
    }

    /// Adds a segment that is copied to a table by instructions alone. A refusal changes nothing.
    ///
    /// `TooLarge` comes exactly where the number of functions or expressions is above 2^32 - 1, or the number of rows would
    /// be, with that number.
    #[inline]
    pub fn passive(&mut self, elements: &Elements) -> Result<(), WriteFault>
        ensures ok { OnOk result (self.new ≡ self.old ++ passive_tree elements.now ∷ []) }
        ensures fits { OnOk result
            ((elements_len elements.now < 2 ^ 32) × (length self.old + 1 < 2 ^ 32)) }
        ensures err { OnErr result (self.new ≡ self.old) }
        ensures large { IfErr result (λ e. IfTooLarge e (λ size.
            ((size ≡ elements_len elements.now) ⊎ (size ≡ length self.old + 1))
            × (2 ^ 32 - 1 < size))) }
    {
        elements.have_spellings();
        self.add(&Unplaced {
            declared: false,
            elements,
        })
    }

    /// Adds a segment that is never copied, whose functions may be referred to. A refusal changes nothing.
    ///
    /// `TooLarge` comes exactly where the number of functions or expressions is above 2^32 - 1, or the number of rows would
    /// be, with that number.
    #[inline]
    pub fn declared(&mut self, elements: &Elements) -> Result<(), WriteFault>
        ensures ok { OnOk result (self.new ≡ self.old ++ declared_tree elements.now ∷ []) }
        ensures fits { OnOk result
            ((elements_len elements.now < 2 ^ 32) × (length self.old + 1 < 2 ^ 32)) }
        ensures err { OnErr result (self.new ≡ self.old) }
        ensures large { IfErr result (λ e. IfTooLarge e (λ size.
            ((size ≡ elements_len elements.now) ⊎ (size ≡ length self.old + 1))
            × (2 ^ 32 - 1 < size))) }
    {
        elements.have_spellings();
        self.add(&Unplaced {
            declared: true,
            elements,
        })
    }
}

/// A data section (WebAssembly Core Specification 3.0, section 5.5.14).
pub type DataSection = RowSection<kinds::Segments>;

impl RowSection<kinds::Segments> {
    /// Adds a segment that is placed in a memory, where an expression says. A refusal changes nothing.
    ///
    /// `TooLarge` comes exactly where the segment has more than 2^32 - 1 bytes or the number of rows would pass 2^32 - 1, with
    /// that number.
    pub fn active(
        &mut self,
        memory: u32,
        offset: &ConstExpr,
        bytes: &[u8],
    ) -> Result<(), WriteFault>
        ensures ok { OnOk result
            (self.new ≡ self.old ++ active_data_tree memory offset.now bytes.now ∷ []) }
        ensures fits { OnOk result ((length bytes.now < 2 ^ 32) × (length self.old + 1 < 2 ^ 32)) }
        ensures err { OnErr result (self.new ≡ self.old) }
        ensures large { IfErr result (λ e. IfTooLarge e (λ size.
            ((size ≡ length bytes.now) ⊎ (size ≡ length self.old + 1)) × (2 ^ 32 - 1 < size))) }
    {
        // for what it says of the spelling of the expression
        offset.len();
        self.add(&ActiveData {
            memory,
            offset,
            bytes,
        })
    }

    /// Adds a passive segment. A refusal changes nothing.
    ///
    /// `TooLarge` comes exactly where the segment has more than 2^32 - 1 bytes or the number of rows would pass 2^32 - 1, with
    /// that number.
    pub fn passive(&mut self, bytes: &[u8]) -> Result<(), WriteFault>
        ensures ok { OnOk result (self.new ≡ self.old ++ passive_data_tree bytes.now ∷ []) }
        ensures fits { OnOk result ((length bytes.now < 2 ^ 32) × (length self.old + 1 < 2 ^ 32)) }
        ensures err { OnErr result (self.new ≡ self.old) }
        ensures large { IfErr result (λ e. IfTooLarge e (λ size.
            ((size ≡ length bytes.now) ⊎ (size ≡ length self.old + 1)) × (2 ^ 32 - 1 < size))) }
    {
        self.add(&PassiveData { bytes })
    }
}

/// A tag section (WebAssembly Core Specification 3.0, section 5.5.16).
pub type TagSection = RowSection<kinds::Tags>;

impl RowSection<kinds::Tags> {
    /// Adds a tag. A refusal changes nothing.
    ///
    /// `TooLarge` comes exactly where the number of rows would pass 2^32 - 1, with that number.
    #[inline]
    pub fn tag(&mut self, ty: TagType) -> Result<(), WriteFault>
        ensures ok { OnOk result (self.new ≡ self.old ++ tag_type_tree ty ∷ []) }
        ensures fits { OnOk result (length self.old + 1 < 2 ^ 32) }
        ensures err { OnErr result (self.new ≡ self.old) }
        ensures large { IfErr result (λ e. IfTooLarge e
            (λ size. (size ≡ length self.old + 1) × (2 ^ 32 - 1 < size))) }
    {
        self.add(&ty)
    }
}
