//! The operators by their numbers, as `specs/Operators.antt` has them: an entry for each number, which is looked up once for
//! every operator.
use crate::{ImmKind, Space};

/// The kinds of the immediates of an operator in the order of the bytes, or none where no operator has the number.
pub type Row = Option<&'static [ImmKind]>;

const NO: Row = None;

const BARE: Row = Some(&[]);

const BLOCK: Row = Some(&[ImmKind::Block]);

const TAG: Row = Some(&[ImmKind::Index(Space::Tag)]);

const LABEL: Row = Some(&[ImmKind::Label]);

const LABELS: Row = Some(&[ImmKind::Labels]);

const FUNCTION: Row = Some(&[ImmKind::Index(Space::Function)]);

const TYPE_TABLE: Row = Some(&[ImmKind::Index(Space::Type_), ImmKind::Index(Space::Table)]);

const TYPE: Row = Some(&[ImmKind::Index(Space::Type_)]);

const TYPES: Row = Some(&[ImmKind::Types]);

const TRY_TABLE: Row = Some(&[ImmKind::Block, ImmKind::Catches]);

const LOCAL: Row = Some(&[ImmKind::Local]);

const GLOBAL: Row = Some(&[ImmKind::Index(Space::Global)]);

const TABLE: Row = Some(&[ImmKind::Index(Space::Table)]);

const MEM: Row = Some(&[ImmKind::Mem]);

const MEMORY: Row = Some(&[ImmKind::Index(Space::Memory)]);

const S32: Row = Some(&[ImmKind::S32]);

const S64: Row = Some(&[ImmKind::S64]);

const FOUR: Row = Some(&[ImmKind::Four]);

const EIGHT: Row = Some(&[ImmKind::Eight]);

const HEAP: Row = Some(&[ImmKind::Heap]);

const TYPE_TYPE: Row = Some(&[ImmKind::Index(Space::Type_), ImmKind::Index(Space::Type_)]);

const RESUME: Row = Some(&[ImmKind::Index(Space::Type_), ImmKind::Handlers]);

const RESUME_TAG: Row = Some(&[
    ImmKind::Index(Space::Type_),
    ImmKind::Index(Space::Tag),
    ImmKind::Handlers,
]);

const TYPE_FIELD: Row = Some(&[ImmKind::Index(Space::Type_), ImmKind::Field]);

const TYPE_SIZE: Row = Some(&[ImmKind::Index(Space::Type_), ImmKind::Size]);

const TYPE_DATA: Row = Some(&[ImmKind::Index(Space::Type_), ImmKind::Index(Space::Data)]);

const TYPE_ELEM: Row = Some(&[ImmKind::Index(Space::Type_), ImmKind::Index(Space::Element)]);

const CAST: Row = Some(&[ImmKind::Cast]);

const DATA_MEM: Row = Some(&[ImmKind::Index(Space::Data), ImmKind::Index(Space::Memory)]);

const DATA: Row = Some(&[ImmKind::Index(Space::Data)]);

const MEM_MEM: Row = Some(&[ImmKind::Index(Space::Memory), ImmKind::Index(Space::Memory)]);

const ELEM_TABLE: Row = Some(&[ImmKind::Index(Space::Element), ImmKind::Index(Space::Table)]);

const ELEMENT: Row = Some(&[ImmKind::Index(Space::Element)]);

const TABLES: Row = Some(&[ImmKind::Index(Space::Table), ImmKind::Index(Space::Table)]);

const SIXTEEN: Row = Some(&[ImmKind::Sixteen]);

const LANES: Row = Some(&[ImmKind::Lanes]);

const LANE: Row = Some(&[ImmKind::Lane]);

const MEM_LANE: Row = Some(&[ImmKind::Mem, ImmKind::Lane]);

const ZERO: Row = Some(&[ImmKind::Zero]);

/// The operators of one byte.
pub static ONE_BYTE: [Row; 229] = [
    // 0x00
    BARE, BARE, BLOCK, BLOCK, BLOCK, BARE, BLOCK, TAG, TAG, LABEL, BARE, BARE, LABEL, LABEL,
    LABELS, BARE,
    // 0x10
    FUNCTION, TYPE_TABLE, FUNCTION, TYPE_TABLE, TYPE, TYPE, NO, NO, LABEL, BARE, BARE, BARE, TYPES,
    NO, NO, TRY_TABLE,
    // 0x20
    LOCAL, LOCAL, LOCAL, GLOBAL, GLOBAL, TABLE, TABLE, NO, MEM, MEM, MEM, MEM, MEM, MEM, MEM, MEM,
    // 0x30
    MEM, MEM, MEM, MEM, MEM, MEM, MEM, MEM, MEM, MEM, MEM, MEM, MEM, MEM, MEM, MEMORY,
    // 0x40
    MEMORY, S32, S64, FOUR, EIGHT, BARE, BARE, BARE, BARE, BARE, BARE, BARE, BARE, BARE, BARE,
    BARE,
    // 0x50
    BARE, BARE, BARE, BARE, BARE, BARE, BARE, BARE, BARE, BARE, BARE, BARE, BARE, BARE, BARE, BARE,
    // 0x60
    BARE, BARE, BARE, BARE, BARE, BARE, BARE, BARE, BARE, BARE, BARE, BARE, BARE, BARE, BARE, BARE,
    // 0x70
    BARE, BARE, BARE, BARE, BARE, BARE, BARE, BARE, BARE, BARE, BARE, BARE, BARE, BARE, BARE, BARE,
    // 0x80
    BARE, BARE, BARE, BARE, BARE, BARE, BARE, BARE, BARE, BARE, BARE, BARE, BARE, BARE, BARE, BARE,
    // 0x90
    BARE, BARE, BARE, BARE, BARE, BARE, BARE, BARE, BARE, BARE, BARE, BARE, BARE, BARE, BARE, BARE,
    // 0xa0
    BARE, BARE, BARE, BARE, BARE, BARE, BARE, BARE, BARE, BARE, BARE, BARE, BARE, BARE, BARE, BARE,
    // 0xb0
    BARE, BARE, BARE, BARE, BARE, BARE, BARE, BARE, BARE, BARE, BARE, BARE, BARE, BARE, BARE, BARE,
    // 0xc0
    BARE, BARE, BARE, BARE, BARE, NO, NO, NO, NO, NO, NO, NO, NO, NO, NO, NO,
    // 0xd0
    HEAP, BARE, FUNCTION, BARE, BARE, LABEL, LABEL, NO, NO, NO, NO, NO, NO, NO, NO, NO,
    // 0xe0
    TYPE, TYPE_TYPE, TAG, RESUME, RESUME_TAG,
];

/// The operators behind `fb`.
pub static FB: [Row; 31] = [
    // 0
    TYPE, TYPE, TYPE_FIELD, TYPE_FIELD, TYPE_FIELD, TYPE_FIELD, TYPE, TYPE, TYPE_SIZE, TYPE_DATA,
    // 10
    TYPE_ELEM, TYPE, TYPE, TYPE, TYPE, BARE, TYPE, TYPE_TYPE, TYPE_DATA, TYPE_ELEM,
    // 20
    HEAP, HEAP, HEAP, HEAP, CAST, CAST, BARE, BARE, BARE, BARE,
    // 30
    BARE,
];

/// The operators behind `fc`.
pub static FC: [Row; 23] = [
    // 0
    BARE, BARE, BARE, BARE, BARE, BARE, BARE, BARE, DATA_MEM, DATA,
    // 10
    MEM_MEM, MEMORY, ELEM_TABLE, ELEMENT, TABLES, TABLE, TABLE, TABLE, NO, BARE,
    // 20
    BARE, BARE, BARE,
];

/// The operators behind `fd`.
pub static FD: [Row; 276] = [
    // 0
    MEM, MEM, MEM, MEM, MEM, MEM, MEM, MEM, MEM, MEM,
    // 10
    MEM, MEM, SIXTEEN, LANES, BARE, BARE, BARE, BARE, BARE, BARE,
    // 20
    BARE, LANE, LANE, LANE, LANE, LANE, LANE, LANE, LANE, LANE,
    // 30
    LANE, LANE, LANE, LANE, LANE, BARE, BARE, BARE, BARE, BARE,
    // 40
    BARE, BARE, BARE, BARE, BARE, BARE, BARE, BARE, BARE, BARE,
    // 50
    BARE, BARE, BARE, BARE, BARE, BARE, BARE, BARE, BARE, BARE,
    // 60
    BARE, BARE, BARE, BARE, BARE, BARE, BARE, BARE, BARE, BARE,
    // 70
    BARE, BARE, BARE, BARE, BARE, BARE, BARE, BARE, BARE, BARE,
    // 80
    BARE, BARE, BARE, BARE, MEM_LANE, MEM_LANE, MEM_LANE, MEM_LANE, MEM_LANE, MEM_LANE,
    // 90
    MEM_LANE, MEM_LANE, MEM, MEM, BARE, BARE, BARE, BARE, BARE, BARE,
    // 100
    BARE, BARE, BARE, BARE, BARE, BARE, BARE, BARE, BARE, BARE,
    // 110
    BARE, BARE, BARE, BARE, BARE, BARE, BARE, BARE, BARE, BARE,
    // 120
    BARE, BARE, BARE, BARE, BARE, BARE, BARE, BARE, BARE, BARE,
    // 130
    BARE, BARE, BARE, BARE, BARE, BARE, BARE, BARE, BARE, BARE,
    // 140
    BARE, BARE, BARE, BARE, BARE, BARE, BARE, BARE, BARE, BARE,
    // 150
    BARE, BARE, BARE, BARE, NO, BARE, BARE, BARE, BARE, BARE,
    // 160
    BARE, BARE, NO, BARE, BARE, NO, NO, BARE, BARE, BARE,
    // 170
    BARE, BARE, BARE, BARE, BARE, NO, NO, BARE, NO, NO,
    // 180
    NO, BARE, BARE, BARE, BARE, BARE, BARE, NO, BARE, BARE,
    // 190
    BARE, BARE, BARE, BARE, NO, BARE, BARE, NO, NO, BARE,
    // 200
    BARE, BARE, BARE, BARE, BARE, BARE, BARE, NO, NO, BARE,
    // 210
    NO, NO, NO, BARE, BARE, BARE, BARE, BARE, BARE, BARE,
    // 220
    BARE, BARE, BARE, BARE, BARE, BARE, NO, BARE, BARE, BARE,
    // 230
    BARE, BARE, BARE, BARE, BARE, BARE, BARE, BARE, NO, BARE,
    // 240
    BARE, BARE, BARE, BARE, BARE, BARE, BARE, BARE, BARE, BARE,
    // 250
    BARE, BARE, BARE, BARE, BARE, BARE, BARE, BARE, BARE, BARE,
    // 260
    BARE, BARE, BARE, BARE, BARE, BARE, BARE, BARE, BARE, BARE,
    // 270
    BARE, BARE, BARE, BARE, BARE, BARE,
];

/// The operators behind `fe`.
pub static FE: [Row; 79] = [
    // 0
    MEM, MEM, MEM, ZERO, NO, NO, NO, NO, NO, NO,
    // 10
    NO, NO, NO, NO, NO, NO, MEM, MEM, MEM, MEM,
    // 20
    MEM, MEM, MEM, MEM, MEM, MEM, MEM, MEM, MEM, MEM,
    // 30
    MEM, MEM, MEM, MEM, MEM, MEM, MEM, MEM, MEM, MEM,
    // 40
    MEM, MEM, MEM, MEM, MEM, MEM, MEM, MEM, MEM, MEM,
    // 50
    MEM, MEM, MEM, MEM, MEM, MEM, MEM, MEM, MEM, MEM,
    // 60
    MEM, MEM, MEM, MEM, MEM, MEM, MEM, MEM, MEM, MEM,
    // 70
    MEM, MEM, MEM, MEM, MEM, MEM, MEM, MEM, MEM,
];
