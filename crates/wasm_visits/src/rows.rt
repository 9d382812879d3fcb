//! The rows of a section, each listed where it begins.
ghost use Rattle.std.specs.Prelude.{◌≤◌, length, OnOk};
ghost use Rattle.wasm_shapes.specs.declared.SectionId.TheVariants as ids;
ghost use Rattle.wasm_shapes.specs.Module.{body, code_row};
ghost use Rattle.wasm_shapes.specs.Spells.{Spells};
ghost use Rattle.wasm_shapes.specs.Tree.{Tree};
ghost use Rattle.wasm_visits.specs.Placed.{ListsRows, Lists};

use crate::lister::Lister;
use reencode_core::Reencode;
use reencode_hooks::ReencodeIndices;
use reencode_items::ReencodeItems;
use std::alloc::Global;
use wasm_read as r;
use wasm_read::{ReadRow, SectionReader};
use wasm_shapes::{SectionId, kinds};
use wasm_write as w;

/// Why nothing is listed: memory ran out, or the bytes have no reading.
#[derive(Debug, Drop)]
pub(crate) struct Unlisted;

/// A kind of rows whose visits are listed.
pub(crate) trait ListRow<'a>: ReadRow<'a> {
    /// What takes in the rows that are mapped.
    type Sink: Drop;

    /// A sink without rows.
    fn sink(alloc: Global) -> Self::Sink;

    /// Lists the visits of a row. What it becomes is thrown away, or added to the sink.
    fn list(
        alloc: Global,
        lister: &mut Lister,
        sink: &mut Self::Sink,
        row: Self::Row,
    ) -> Result<(), Unlisted>
        ensures { OnOk result (Lists (Self.tree row) lister.old lister.new) };
}

impl<'a> ListRow<'a> for kinds::Types {
    type Sink = ();

    fn sink(_alloc: Global) {}

    fn list(
        alloc: Global,
        lister: &mut Lister,
        _sink: &mut (),
        row: r::RecGroup,
    ) -> Result<(), Unlisted> {
        match lister.parse_recursive_type_group(alloc, row) {
            Ok(_) => Ok(()),
            Err(_) => Err(Unlisted),
        }
    }
}

impl<'a> ListRow<'a> for kinds::Imports {
    type Sink = w::ImportSection;

    fn sink(alloc: Global) -> w::ImportSection {
        w::ImportSection::new(alloc)
    }

    fn list(
        alloc: Global,
        lister: &mut Lister,
        sink: &mut w::ImportSection,
        row: r::Imports<'a>,
    ) -> Result<(), Unlisted> {
        match lister.parse_imports(alloc, sink, row) {
            Ok(()) => Ok(()),
            Err(_) => Err(Unlisted),
        }
    }
}

impl<'a> ListRow<'a> for kinds::Functions {
    type Sink = ();

    fn sink(_alloc: Global) {}

    fn list(_alloc: Global, lister: &mut Lister, _sink: &mut (), row: u32) -> Result<(), Unlisted> {
        match lister.type_index(row) {
            Ok(_) => Ok(()),
            Err(_) => Err(Unlisted),
        }
    }
}

impl<'a> ListRow<'a> for kinds::Tables {
    type Sink = w::TableSection;

    fn sink(alloc: Global) -> w::TableSection {
        w::TableSection::new(alloc)
    }

    fn list(
        alloc: Global,
        lister: &mut Lister,
        sink: &mut w::TableSection,
        row: r::Table<'a>,
    ) -> Result<(), Unlisted> {
        match lister.parse_table(alloc, sink, row) {
            Ok(()) => Ok(()),
            Err(_) => Err(Unlisted),
        }
    }
}

impl<'a> ListRow<'a> for kinds::Memories {
    type Sink = ();

    fn sink(_alloc: Global) {}

    fn list(
        _alloc: Global,
        lister: &mut Lister,
        _sink: &mut (),
        row: r::MemoryType,
    ) -> Result<(), Unlisted> {
        match lister.memory_type(row) {
            Ok(_) => Ok(()),
            Err(_) => Err(Unlisted),
        }
    }
}

impl<'a> ListRow<'a> for kinds::Globals {
    type Sink = w::GlobalSection;

    fn sink(alloc: Global) -> w::GlobalSection {
        w::GlobalSection::new(alloc)
    }

    fn list(
        alloc: Global,
        lister: &mut Lister,
        sink: &mut w::GlobalSection,
        row: r::Global<'a>,
    ) -> Result<(), Unlisted> {
        match lister.parse_global(alloc, sink, row) {
            Ok(()) => Ok(()),
            Err(_) => Err(Unlisted),
        }
    }
}

impl<'a> ListRow<'a> for kinds::Tags {
    type Sink = ();

    fn sink(_alloc: Global) {}

    fn list(
        _alloc: Global,
        lister: &mut Lister,
        _sink: &mut (),
        row: r::TagType,
    ) -> Result<(), Unlisted> {
        match lister.tag_type(row) {
            Ok(_) => Ok(()),
            Err(_) => Err(Unlisted),
        }
    }
}

impl<'a> ListRow<'a> for kinds::Exports {
    type Sink = w::ExportSection;

    fn sink(alloc: Global) -> w::ExportSection {
        w::ExportSection::new(alloc)
    }

    fn list(
        _alloc: Global,
        lister: &mut Lister,
        sink: &mut w::ExportSection,
        row: r::Export<'a>,
    ) -> Result<(), Unlisted> {
        match lister.parse_export(sink, row) {
            Ok(()) => Ok(()),
            Err(_) => Err(Unlisted),
        }
    }
}

impl<'a> ListRow<'a> for kinds::Elements {
    type Sink = w::ElementSection;

    fn sink(alloc: Global) -> w::ElementSection {
        w::ElementSection::new(alloc)
    }

    fn list(
        alloc: Global,
        lister: &mut Lister,
        sink: &mut w::ElementSection,
        row: r::Element<'a>,
    ) -> Result<(), Unlisted> {
        match lister.parse_element(alloc, sink, row) {
            Ok(()) => Ok(()),
            Err(_) => Err(Unlisted),
        }
    }
}

impl<'a> ListRow<'a> for kinds::Segments {
    type Sink = w::DataSection;

    fn sink(alloc: Global) -> w::DataSection {
        w::DataSection::new(alloc)
    }

    fn list(
        alloc: Global,
        lister: &mut Lister,
        sink: &mut w::DataSection,
        row: r::Data<'a>,
    ) -> Result<(), Unlisted> {
        match lister.parse_data(alloc, sink, row) {
            Ok(()) => Ok(()),
            Err(_) => Err(Unlisted),
        }
    }
}

/// Lists the visits of each row of a section with this body, which ends at a place.
pub(crate) fn list_rows<'a, K: ListRow<'a>>(
    alloc: Global,
    lister: &mut Lister,
    id: SectionId,
    end: usize,
    body: &'a [u8],
) -> Result<(), Unlisted>
    requires { length body.now ≤ end }
    ensures { OnOk result (ListsRows id K.shape end body.now lister.old.visits lister.new.visits) }
{
    let Ok(mut rows) = SectionReader::<K>::new(body) else {
        return Err(Unlisted);
    };
    let start = end - body.len();
    let mut sink = K::sink(alloc);
    'rows: loop {
        lister.move_to(id, start + rows.place());
        match rows.next_row(alloc) {
            Ok(Some(row)) => match K::list(alloc, lister, &mut sink, row) {
                Ok(()) => {}
                Err(Unlisted) => return Err(Unlisted),
            },
            Ok(None) => return Ok(()),
            Err(_) => return Err(Unlisted),
        }
    }
}

/// Lists the visits of each body of a code section with this one, which ends at a place.
pub(crate) fn list_bodies(
    alloc: Global,
    lister: &mut Lister,
    end: usize,
    body: &[u8],
) -> Result<(), Unlisted>
    requires { length body.now ≤ end }
    ensures { OnOk result (ListsRows ids.Code code_row end body.now lister.old.visits lister.new.visits) }
{
    let Ok(mut bodies) = r::CodeSectionReader::new(body) else {
        return Err(Unlisted);
    };
    let start = end - body.len();
    let mut code = w::CodeSection::new(alloc, u32::MAX);
    'bodies: loop {
        lister.move_to(SectionId::Code, start + bodies.place());
        match bodies.next_row(alloc) {
            Ok(Some(func)) => match list_body(alloc, lister, &mut code, func) {
                Ok(()) => {}
                Err(Unlisted) => return Err(Unlisted),
            },
            Ok(None) => return Ok(()),
            Err(_) => return Err(Unlisted),
        }
    }
}

/// Lists the visits of a body. What it becomes is added to the sink.
fn list_body(
    alloc: Global,
    lister: &mut Lister,
    code: &mut w::CodeSection,
    func: r::FunctionBody<'_>,
) -> Result<(), Unlisted>
    ensures { OnOk result ((t : Tree) × Spells body func.entry.bytes.now t
        × Lists (Tree.sized t) lister.old lister.new) }
{
    match lister.parse_function_body(alloc, code, func) {
        Ok(()) => Ok(()),
        Err(_) => Err(Unlisted),
    }
}
