//! The shapes of WebAssembly binaries, and what bytes spell: the tables of the formats and the definitions over them.
#![tactic(auto)]

mod canonical;
pub mod component_kinds;
mod components;
pub mod kinds;
mod operator_rows;
mod operators;
mod spelling;

pub use canonical::{CanonicalForm, canonical_form};
pub use components::{
    answers_open_no_scope, bytes_have_one_reading, component_header_spells, component_reads_back,
    components_are_sound, nested_imports_stay, nested_readings, opens_is_deepest,
};
pub use operators::{
    BLOCK, BR, CALL, CALL_INDIRECT, DROP, END, GLOBAL_GET, I32_ADD, I32_CONST, I32_LOAD, LOCAL_GET,
    NOP, REF_FUNC, UNREACHABLE, row_of,
};
pub use spelling::{
    drawn_from_a_stretch, drawn_lists_join, header_spells, normal_reads_back,
    own_answers_change_nothing, section_is_sized, sections_stand_in_frames, single_imports_stay,
    spelling_is_unique, tables_are_sound, text_has_one_tree, vectors_are_rows,
};

/// An index space. The first eight are those of core modules (WebAssembly Core Specification 3.0, section 5.5.1);
/// `DataCount` stands for the count that a data count section holds, and the others are those of components.
#[derive(Clone, Copy, Debug, PartialEq)]
pub enum Space {
    Data,
    Element,
    Function,
    Global,
    Memory,
    Table,
    Tag,
    Type_,
    DataCount,
    ComponentType,
    ComponentInstance,
    ComponentFunc,
    Component,
    Module,
    Instance,
    ComponentValue,
}

impl Space {
    ghost use Rattle.std.specs.Prelude.{◌≡◌, codes};
    ghost use Rattle.wasm_shapes.specs.Names.{space_name};
    ghost use Rattle.wasm_shapes.specs.Types.{is_core};

    /// Whether core modules have the space.
    #[inline(always)]
    pub fn is_core(self) -> bool
        ensures { result ≡ is_core self }
    {
        match self {
            Space::Data
            | Space::Element
            | Space::Function
            | Space::Global
            | Space::Memory
            | Space::Table
            | Space::Tag
            | Space::Type_ => true,
            _ => false,
        }
    }

    /// The name of the space in lower case, as reports print it.
    pub fn name(self) -> &'static str
        ensures { result.now ≡ space_name self }
    {
        match self {
            Space::Data => "data",
            Space::Element => "element",
            Space::Function => "function",
            Space::Global => "global",
            Space::Memory => "memory",
            Space::Table => "table",
            Space::Tag => "tag",
            Space::Type_ => "type",
            Space::DataCount => "data_count",
            Space::ComponentType => "component_type",
            Space::ComponentInstance => "component_instance",
            Space::ComponentFunc => "component_func",
            Space::Component => "component",
            Space::Module => "module",
            Space::Instance => "instance",
            Space::ComponentValue => "component_value",
        }
    }
}

/// The kind of a section of a core module, by its id from 0 to 13 (WebAssembly Core Specification 3.0, section 5.5.2).
#[derive(Clone, Copy, Debug, PartialEq)]
pub enum SectionId {
    Custom,
    Type_,
    Import,
    Function,
    Table,
    Memory,
    Global,
    Export,
    Start,
    Element,
    Code,
    Data,
    DataCount,
    Tag,
}

// The ids of the public standard.
const _: () = prove!(SectionId::Custom as u8 == 0);

const _: () = prove!(SectionId::Type_ as u8 == 1);

const _: () = prove!(SectionId::Import as u8 == 2);

const _: () = prove!(SectionId::Function as u8 == 3);

const _: () = prove!(SectionId::Table as u8 == 4);

const _: () = prove!(SectionId::Memory as u8 == 5);

const _: () = prove!(SectionId::Global as u8 == 6);

const _: () = prove!(SectionId::Export as u8 == 7);

const _: () = prove!(SectionId::Start as u8 == 8);

const _: () = prove!(SectionId::Element as u8 == 9);

const _: () = prove!(SectionId::Code as u8 == 10);

const _: () = prove!(SectionId::Data as u8 == 11);

const _: () = prove!(SectionId::DataCount as u8 == 12);

const _: () = prove!(SectionId::Tag as u8 == 13);

/// What a re-encoder is asked: an index of a space, an outer index with the count of scopes that it leaves,
/// the hook before a section (after which kind, before which kind), the hook behind a section (of which kind), and the
/// begin and the end of a scope.
#[derive(Clone, Copy, Debug, PartialEq)]
pub enum Visit {
    Index(Space, u32),
    Outer(Space, u32, u32),
    Section(Option<SectionId>, Option<SectionId>),
    Closed(SectionId),
    Push,
    Pop,
}

/// The number of an operator. One of a single byte has the prefix 0 and its byte as `sub`; the others have
/// `fb`, `fc`, `fd` or `fe` as prefix (WebAssembly Core Specification 3.0, section 5.4).
#[derive(Clone, Copy, Debug, PartialEq)]
pub struct Opcode {
    pub prefix: u8,
    pub sub: u32,
}

/// The kind of an immediate of an operator.
#[derive(Clone, Copy, Debug, PartialEq)]
pub enum ImmKind {
    Block,
    Label,
    Labels,
    Index(Space),
    Local,
    Field,
    Size,
    Types,
    Mem,
    S32,
    S64,
    Four,
    Eight,
    Sixteen,
    Lanes,
    Lane,
    Heap,
    Catches,
    Cast,
    Handlers,
    Zero,
}
