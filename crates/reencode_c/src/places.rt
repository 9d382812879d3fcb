//! Where a visit stands.
ghost use Rattle.std.specs.Prelude.{◌≡◌};
ghost use Rattle.wasm_shapes.specs.SectionTable.{number};
ghost use Rattle.reencode_c.specs.Visits.{in_row, in_section, nowhere};

use wasm_shapes::SectionId;

/// The row that is told where there is none.
const NO_ROW: u32 = u32::MAX;

/// A section of a core module, by its id, and a row in it, by its number.
#[derive(Clone, Copy, Debug)]
pub struct Place {
    pub section: u32,
    pub row: u32,
}

impl Place {
    /// No section of a known kind, and no row.
    #[inline(always)]
    pub fn nowhere() -> Place
        ensures { result ≡ nowhere }
    {
        Place {
            section: 0,
            row: NO_ROW,
        }
    }

    /// In a section, and in no row that is told.
    #[inline(always)]
    pub fn in_section(section: SectionId) -> Place
        ensures { result ≡ in_section section }
    {
        Place {
            section: number_of_section(section),
            row: NO_ROW,
        }
    }

    /// In a row of a section.
    #[inline(always)]
    pub fn in_row(section: SectionId, row: u32) -> Place
        ensures { result ≡ in_row section row }
    {
        Place {
            section: number_of_section(section),
            row,
        }
    }
}

/// The id of the sections of a kind.
#[inline(always)]
fn number_of_section(section: SectionId) -> u32
    ensures { result ≡ number section }
{
    match section {
        SectionId::Custom => 0,
        SectionId::Type_ => 1,
        SectionId::Import => 2,
        SectionId::Function => 3,
        SectionId::Table => 4,
        SectionId::Memory => 5,
        SectionId::Global => 6,
        SectionId::Export => 7,
        SectionId::Start => 8,
        SectionId::Element => 9,
        SectionId::Code => 10,
        SectionId::Data => 11,
        SectionId::DataCount => 12,
        SectionId::Tag => 13,
    }
}
