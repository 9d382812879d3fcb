//! The rows of a section, each listed at its place.
ghost use Rattle.std.specs.Prelude.{OnOk};
ghost use Rattle.wasm_shapes.specs.declared.SectionId.TheVariants as ids;
ghost use Rattle.wasm_shapes.specs.Module.{body, body_of};
ghost use Rattle.wasm_shapes.specs.Shape.{Shape};
ghost use Rattle.wasm_shapes.specs.Spells.{Spells};
ghost use Rattle.wasm_shapes.specs.Tree.{Tree};
ghost use Rattle.reencode_c.specs.Places.{Gains, Lists, body_placed};

use crate::places::Place;
use crate::visits::Lister;
use reencode_core::Reencode;
use reencode_hooks::AnswerVisits;
use reencode_items::ReencodeItems;
use std::alloc::Global;
use wasm_leb::NoMemory;
use wasm_read as r;
use wasm_read::{ReadRow, SectionReader};
use wasm_shapes::{SectionId, Space, Visit, kinds};
use wasm_write as w;

/// A kind of rows whose visits are listed.
pub(crate) trait ListRow<'a>: ReadRow<'a> {
    /// What takes in the rows that are mapped.
    type Sink: Drop;

    /// A sink without rows.
    fn sink(alloc: Global) -> Self::Sink;

    /// Lists the visits of a row. What it becomes is thrown away, or added to the sink.
    fn list(
        alloc: Global,
        lister: &mut Lister,
        sink: &mut Self::Sink,
        row: Self::Row,
    ) -> Result<(), NoMemory>
        ensures { OnOk result (Lists (Self.tree row) lister.old lister.new) };
}

impl<'a> ListRow<'a> for kinds::Types {
    type Sink = ();

    fn sink(_alloc: Global) {}

    fn list(
        alloc: Global,
        lister: &mut Lister,
        _sink: &mut (),
        row: r::RecGroup,
    ) -> Result<(), NoMemory> {
        match lister.parse_recursive_type_group(alloc, row) {
            Ok(_) => Ok(()),
            Err(_) => Err(NoMemory),
        }
    }
}

impl<'a> ListRow<'a> for kinds::Imports {
    type Sink = w::ImportSection;

    fn sink(alloc: Global) -> w::ImportSection {
        w::ImportSection::new(alloc)
    }

    fn list(
        alloc: Global,
        lister: &mut Lister,
        sink: &mut w::ImportSection,
        row: r::Imports<'a>,
    ) -> Result<(), NoMemory> {
        match lister.parse_imports(alloc, sink, row) {
            Ok(()) => Ok(()),
            Err(_) => Err(NoMemory),
        }
    }
}

impl<'a> ListRow<'a> for kinds::Functions {
    type Sink = ();

    fn sink(_alloc: Global) {}

    fn list(_alloc: Global, lister: &mut Lister, _sink: &mut (), row: u32) -> Result<(), NoMemory> {
        match lister.answer(Visit::Index(Space::Type_, row)) {
            Ok(_) => Ok(()),
            Err(_) => Err(NoMemory),
        }
    }
}

impl<'a> ListRow<'a> for kinds::Tables {
    type Sink = w::TableSection;

    fn sink(alloc: Global) -> w::TableSection {
        w::TableSection::new(alloc)
    }

    fn list(
        alloc: Global,
        lister: &mut Lister,
        sink: &mut w::TableSection,
        row: r::Table<'a>,
    ) -> Result<(), NoMemory> {
        match lister.parse_table(alloc, sink, row) {
            Ok(()) => Ok(()),
            Err(_) => Err(NoMemory),
        }
    }
}

impl<'a> ListRow<'a> for kinds::Memories {
    type Sink = ();

    fn sink(_alloc: Global) {}

    fn list(
        _alloc: Global,
        lister: &mut Lister,
        _sink: &mut (),
        row: r::MemoryType,
    ) -> Result<(), NoMemory> {
        match lister.memory_type(row) {
            Ok(_) => Ok(()),
            Err(_) => Err(NoMemory),
        }
    }
}

impl<'a> ListRow<'a> for kinds::Globals {
    type Sink = w::GlobalSection;

    fn sink(alloc: Global) -> w::GlobalSection {
        w::GlobalSection::new(alloc)
    }

    fn list(
        alloc: Global,
        lister: &mut Lister,
        sink: &mut w::GlobalSection,
        row: r::Global<'a>,
    ) -> Result<(), NoMemory> {
        match lister.parse_global(alloc, sink, row) {
            Ok(()) => Ok(()),
            Err(_) => Err(NoMemory),
        }
    }
}

impl<'a> ListRow<'a> for kinds::Tags {
    type Sink = ();

    fn sink(_alloc: Global) {}

    fn list(
        _alloc: Global,
        lister: &mut Lister,
        _sink: &mut (),
        row: r::TagType,
    ) -> Result<(), NoMemory> {
        match lister.tag_type(row) {
            Ok(_) => Ok(()),
            Err(_) => Err(NoMemory),
        }
    }
}

impl<'a> ListRow<'a> for kinds::Exports {
    type Sink = w::ExportSection;

    fn sink(alloc: Global) -> w::ExportSection {
        w::ExportSection::new(alloc)
    }

    fn list(
        _alloc: Global,
        lister: &mut Lister,
        sink: &mut w::ExportSection,
        row: r::Export<'a>,
    ) -> Result<(), NoMemory> {
        match lister.parse_export(sink, row) {
            Ok(()) => Ok(()),
            Err(_) => Err(NoMemory),
        }
    }
}

impl<'a> ListRow<'a> for kinds::Elements {
    type Sink = w::ElementSection;

    fn sink(alloc: Global) -> w::ElementSection {
        w::ElementSection::new(alloc)
    }

    fn list(
        alloc: Global,
        lister: &mut Lister,
        sink: &mut w::ElementSection,
        row: r::Element<'a>,
    ) -> Result<(), NoMemory> {
        match lister.parse_element(alloc, sink, row) {
            Ok(()) => Ok(()),
            Err(_) => Err(NoMemory),
        }
    }
}

impl<'a> ListRow<'a> for kinds::Segments {
    type Sink = w::DataSection;

    fn sink(alloc: Global) -> w::DataSection {
        w::DataSection::new(alloc)
    }

    fn list(
        alloc: Global,
        lister: &mut Lister,
        sink: &mut w::DataSection,
        row: r::Data<'a>,
    ) -> Result<(), NoMemory> {
        match lister.parse_data(alloc, sink, row) {
            Ok(()) => Ok(()),
            Err(_) => Err(NoMemory),
        }
    }
}

/// Lists the visits of each row of a section with this body, by the row's number.
pub(crate) fn list_rows<'a, K: ListRow<'a>>(
    alloc: Global,
    lister: &mut Lister,
    id: SectionId,
    body: &'a [u8],
) -> Result<(), NoMemory>
    ensures { OnOk result ((t : Tree) × Spells (Shape.vec K.shape) body.now t
        × Gains lister.old lister.new (body_placed id t)) }
{
    let Ok(mut rows) = SectionReader::<K>::new(body) else {
        return Err(NoMemory);
    };
    let mut sink = K::sink(alloc);
    'rows: loop {
        let number = rows.count().saturating_sub(rows.left());
        match rows.next_row(alloc) {
            Ok(Some(row)) => {
                lister.move_to(Place::in_row(id, number));
                match K::list(alloc, lister, &mut sink, row) {
                    Ok(()) => {}
                    Err(NoMemory) => return Err(NoMemory),
                }
            }
            Ok(None) => return Ok(()),
            Err(_) => return Err(NoMemory),
        }
    }
}

/// Lists the visits of each body of a code section with this one, by the body's number.
pub(crate) fn list_bodies(alloc: Global, lister: &mut Lister, body: &[u8]) -> Result<(), NoMemory>
    ensures { OnOk result ((t : Tree) × Spells (body_of ids.Code) body.now t
        × Gains lister.old lister.new (body_placed ids.Code t)) }
{
    let Ok(mut bodies) = r::CodeSectionReader::new(body) else {
        return Err(NoMemory);
    };
    let mut code = w::CodeSection::new(alloc, u32::MAX);
    'bodies: loop {
        let number = bodies.count().saturating_sub(bodies.left());
        match bodies.next_row(alloc) {
            Ok(Some(func)) => {
                lister.move_to(Place::in_row(SectionId::Code, number));
                match list_body(alloc, lister, &mut code, func) {
                    Ok(()) => {}
                    Err(NoMemory) => return Err(NoMemory),
                }
            }
            Ok(None) => return Ok(()),
            Err(_) => return Err(NoMemory),
        }
    }
}

/// Lists the visits of a body. What it becomes is added to the sink.
fn list_body(
    alloc: Global,
    lister: &mut Lister,
    code: &mut w::CodeSection,
    func: r::FunctionBody<'_>,
) -> Result<(), NoMemory>
    ensures { OnOk result ((t : Tree) × Spells body func.entry.bytes.now t
        × Lists (Tree.sized t) lister.old lister.new) }
{
    match lister.parse_function_body(alloc, code, func) {
        Ok(()) => Ok(()),
        Err(_) => Err(NoMemory),
    }
}
