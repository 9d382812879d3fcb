//! An instrumenter: each function body begins with a call of an imported function, which may count.
//!
//! A type and an import are added in front of the others, so the index of each type and of each function is one more. The author gives
//! up `keeps_defaults`: of what comes out are known the clauses of the overrides, and those that hold for every implementation.
ghost use Rattle.std.specs.Prelude.{◌≡◌, ◌++◌, ◌∷◌, [], OnErr, OnOk};
ghost use Rattle.wasm_shapes.specs.declared.SectionId.TheVariants as id;
ghost use Rattle.reencode_core.specs.Bodies.{KeepsCode};
ghost use Rattle.reencode_core.specs.Rows.{KeepsFront};
ghost use Rattle.examples.specs.Counter.{AddsBehind, AddsEntered, entry_due, entry_import, entry_section, entry_shift, entry_type, moved};

use reencode_core::{Reencode, direct, reencode_core};
use reencode_hooks::{ByRule, Error, IndexOverflow, IndexRule, ReencodeIndices, Shift};
use reencode_items::{DefaultItems, ReencodeItems};
use std::alloc::Global;
use wasm_leb::List;
use wasm_read as r;
use wasm_shapes::{CALL, SectionId, Space};
use wasm_write as w;

/// A type stands in front of the others, and a function.
const MOVED: Shift = Shift {
    data: 0,
    elements: 0,
    functions: 1,
    globals: 0,
    memories: 0,
    tables: 0,
    tags: 0,
    types: 1,
};

/// Puts a call at the entry of each function body.
#[derive(Clone, Copy)]
pub struct Counter<'a> {
    /// The section of imports that stands behind the types where no other does.
    pub imports: &'a w::ImportSection,
}

/// Adds the type of the function that is called: no parameter, and no result.
fn add_type(alloc: Global, types: &mut w::TypeSection) -> Result<(), Error<IndexOverflow>>
    ensures ok { OnOk result (types.new ≡ types.old ++ entry_type ∷ []) }
    ensures err { OnErr result (types.new ≡ types.old) }
{
    let function = w::FuncType {
        params: List::new(alloc),
        results: List::new(alloc),
    };
    let mut group = List::new(alloc);
    group.push(w::SubType {
        is_final: true,
        supertype_idxs: List::new(alloc),
        composite_type: w::CompositeType {
            inner: w::CompositeInnerType::Func(function),
            shared: false,
            descriptor: None,
            describes: None,
        },
    })?;
    types.group(&w::RecGroup {
        explicit: false,
        types: group,
    })?;
    Ok(())
}

/// Adds the import of the function that is called.
fn add_import(imports: &mut w::ImportSection) -> Result<(), w::WriteFault>
    ensures ok { OnOk result (imports.new ≡ imports.old ++ entry_import ∷ []) }
    ensures err { OnErr result (imports.new ≡ imports.old) }
{
    imports.imports(&w::Imports::Single(w::Import {
        module: "counter",
        name: "enter",
        ty: w::EntityType::Function(0),
    }))
}

/// Whether a section of that import is due: behind the types, where no imports follow.
fn is_due(after: Option<SectionId>, before: Option<SectionId>) -> bool
    ensures { result ≡ entry_due after before }
{
    match (after, before) {
        (Some(SectionId::Type_), Some(SectionId::Import)) => false,
        (Some(SectionId::Type_), _) => true,
        _ => false,
    }
}

// The new index of a space.
macro_rules! answer {
    ($space:expr, $index:ident) => {
        match MOVED.index($space, $index) {
            Ok(answer) => Ok(answer),
            Err(refusal) => Err(Error::UserError(refusal)),
        }
    };
}

impl<'a> ReencodeIndices for Counter<'a> {
    ghost use Rattle.std.specs.Prelude.{false, []};
    ghost use Rattle.reencode_hooks.specs.Hooks.{at_section, at_section-keeps};
    ghost use Rattle.reencode_hooks.specs.Rules.{rule_answers};
    ghost use Rattle.reencode_hooks.specs.Shifts.{shifted, shifted_is_rule};

    type Error = IndexOverflow;

    ghost reply = { λ _ visit. moved visit };

    ghost next = { λ s _. s };

    ghost adds = { λ counter. at_section (entry_section counter.imports.now) (λ _. []) };

    ghost keeps_defaults = { false };

    ghost adds_nothing = { false };

    ghost sure = { false };

    ghost answers_ok = { λ _ visit h. rule_answers shifted shifted_is_rule entry_shift visit h };

    ghost adds_ok = { at_section-keeps _ _ };

    fn data_index(&mut self, index: u32) -> Result<u32, Error<IndexOverflow>> {
        answer!(Space::Data, index)
    }

    fn element_index(&mut self, index: u32) -> Result<u32, Error<IndexOverflow>> {
        answer!(Space::Element, index)
    }

    fn function_index(&mut self, index: u32) -> Result<u32, Error<IndexOverflow>> {
        answer!(Space::Function, index)
    }

    fn global_index(&mut self, index: u32) -> Result<u32, Error<IndexOverflow>> {
        answer!(Space::Global, index)
    }

    fn memory_index(&mut self, index: u32) -> Result<u32, Error<IndexOverflow>> {
        answer!(Space::Memory, index)
    }

    fn table_index(&mut self, index: u32) -> Result<u32, Error<IndexOverflow>> {
        answer!(Space::Table, index)
    }

    fn tag_index(&mut self, index: u32) -> Result<u32, Error<IndexOverflow>> {
        answer!(Space::Tag, index)
    }

    fn type_index(&mut self, index: u32) -> Result<u32, Error<IndexOverflow>> {
        answer!(Space::Type_, index)
    }

    fn data_count(&mut self, count: u32) -> Result<u32, Error<IndexOverflow>> {
        answer!(Space::DataCount, count)
    }

    fn intersperse_section_hook(
        &mut self,
        module: &mut w::Module,
        after: Option<SectionId>,
        before: Option<SectionId>,
    ) -> Result<(), Error<IndexOverflow>> {
        if is_due(after, before) {
            module.section(self.imports)?;
        }
        Ok(())
    }

    fn close_section_hook(
        &mut self,
        _module: &mut w::Module,
        _section: SectionId,
    ) -> Result<(), Error<IndexOverflow>> {
        Ok(())
    }
}

impl<'a> DefaultItems for Counter<'a> {}

impl<'a> Reencode for Counter<'a> {
    fn parse_type_section(
        &mut self,
        alloc: Global,
        types: &mut w::TypeSection,
        section: r::TypeSectionReader<'_>,
    ) -> Result<(), Error<IndexOverflow>>
        ensures kept { KeepsFront types.old types.new }
        ensures behind { OnOk result
            (AddsBehind id.Type_ entry_type section.entry types.old types.new) }
    {
        add_type(alloc, types)?;
        direct::parse_type_section(&mut ByRule { rule: MOVED }, types, section)
    }

    fn parse_import_section(
        &mut self,
        alloc: Global,
        imports: &mut w::ImportSection,
        section: r::ImportSectionReader<'_>,
    ) -> Result<(), Error<IndexOverflow>>
        ensures kept { KeepsFront imports.old imports.new }
        ensures behind { OnOk result
            (AddsBehind id.Import entry_import section.entry imports.old imports.new) }
    {
        add_import(imports)?;
        ByRule { rule: MOVED }.parse_import_section(alloc, imports, section)
    }

    fn parse_function_body(
        &mut self,
        alloc: Global,
        code: &mut w::CodeSection,
        func: r::FunctionBody<'_>,
    ) -> Result<(), Error<IndexOverflow>>
        ensures kept { KeepsCode code.old code.new }
        ensures entered { OnOk result (AddsEntered func.entry.bytes.now code.old code.new) }
        ensures unchanged { OnErr result (code.new ≡ code.old) }
    {
        let mut moved = ByRule { rule: MOVED };
        let mut function = moved.new_function_with_parsed_locals(alloc, &func)?;
        function.index_operator(CALL, Space::Function, 0)?;
        let mut reader = func.operators()?;
        'operators: while !reader.eof() {
            let instruction = moved.parse_instruction(alloc, &mut reader)?;
            function.instruction(&instruction)?;
        }
        code.function(&function)?;
        Ok(())
    }
}

/// The module with a call of `counter` `enter` at the entry of each function body.
pub fn count_entries(alloc: Global, bytes: &[u8]) -> Result<Vec<u8>, Error<IndexOverflow>> {
    let mut imports = w::ImportSection::new(alloc);
    add_import(&mut imports)?;
    let mut counter = Counter { imports: &imports };
    reencode_core(alloc, &mut counter, bytes, u32::MAX)
}
