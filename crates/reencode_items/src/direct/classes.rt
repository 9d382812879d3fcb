//! The classes of operators that are passed without lists.
ghost use Rattle.std.specs.Prelude.{◌≡◌};
ghost use Rattle.wasm_shapes.specs.Operators.{is_prefix};
ghost use Rattle.reencode_items.specs.Direct.{class_of, class_of_kind, rare_of, rare_of_kind, rare_of_two};

use wasm_shapes::{ImmKind, Opcode, Space, row_of};

/// The immediates of an operator that has none or one.
#[derive(Clone, Copy, Debug)]
pub enum Class {
    /// None.
    Bare,
    /// A number of 32 bits without sign that asks nothing.
    Number,
    /// A number of 64 bits with sign.
    Long,
    /// So many bytes.
    Raw(u8),
    /// The type of a block.
    Block,
    /// A number of 32 bits with sign.
    S32,
    /// An index of a space of core modules.
    Index(Space),
    /// Where a memory access goes.
    Mem,
    /// It has others, or is none.
    Other,
}

/// The opcode of one byte.
#[inline(always)]
pub fn one_byte(byte: u8) -> Opcode
    ensures { result ≡ record { prefix = 0; sub = byte } }
{
    let sub = u32::from(byte);
    Opcode { prefix: 0, sub }
}

/// Whether a byte is the prefix of operators.
#[inline(always)]
pub fn is_prefix(byte: u8) -> bool
    ensures { result ≡ is_prefix byte }
{
    0xfb <= byte && byte <= 0xfe
}

const BARE: Class = Class::Bare;

const BLOCK: Class = Class::Block;

const NUMBER: Class = Class::Number;

const LONG: Class = Class::Long;

const FOUR: Class = Class::Raw(4);

const EIGHT: Class = Class::Raw(8);

const S32: Class = Class::S32;

const FUNCTION: Class = Class::Index(Space::Function);

const GLOBAL: Class = Class::Index(Space::Global);

const MEMORY: Class = Class::Index(Space::Memory);

const TABLE: Class = Class::Index(Space::Table);

const TAG: Class = Class::Index(Space::Tag);

const TYPE: Class = Class::Index(Space::Type_);

const MEM: Class = Class::Mem;

const NO: Class = Class::Other;

/// The classes of the operators of one byte, which are looked up once for every operator.
static ONE_BYTE: [Class; 256] = [
    // 0x00
    BARE, BARE, BLOCK, BLOCK, BLOCK, BARE, BLOCK, TAG, TAG, NUMBER, BARE, BARE, NUMBER, NUMBER, NO,
    BARE,
    // 0x10
    FUNCTION, NO, FUNCTION, NO, TYPE, TYPE, NO, NO, NUMBER, BARE, BARE, BARE, NO, NO, NO, NO,
    // 0x20
    NUMBER, NUMBER, NUMBER, GLOBAL, GLOBAL, TABLE, TABLE, NO, MEM, MEM, MEM, MEM, MEM, MEM, MEM,
    MEM,
    // 0x30
    MEM, MEM, MEM, MEM, MEM, MEM, MEM, MEM, MEM, MEM, MEM, MEM, MEM, MEM, MEM, MEMORY,
    // 0x40
    MEMORY, S32, LONG, FOUR, EIGHT, BARE, BARE, BARE, BARE, BARE, BARE, BARE, BARE, BARE, BARE,
    BARE,
    // 0x50
    BARE, BARE, BARE, BARE, BARE, BARE, BARE, BARE, BARE, BARE, BARE, BARE, BARE, BARE, BARE, BARE,
    // 0x60
    BARE, BARE, BARE, BARE, BARE, BARE, BARE, BARE, BARE, BARE, BARE, BARE, BARE, BARE, BARE, BARE,
    // 0x70
    BARE, BARE, BARE, BARE, BARE, BARE, BARE, BARE, BARE, BARE, BARE, BARE, BARE, BARE, BARE, BARE,
    // 0x80
    BARE, BARE, BARE, BARE, BARE, BARE, BARE, BARE, BARE, BARE, BARE, BARE, BARE, BARE, BARE, BARE,
    // 0x90
    BARE, BARE, BARE, BARE, BARE, BARE, BARE, BARE, BARE, BARE, BARE, BARE, BARE, BARE, BARE, BARE,
    // 0xa0
    BARE, BARE, BARE, BARE, BARE, BARE, BARE, BARE, BARE, BARE, BARE, BARE, BARE, BARE, BARE, BARE,
    // 0xb0
    BARE, BARE, BARE, BARE, BARE, BARE, BARE, BARE, BARE, BARE, BARE, BARE, BARE, BARE, BARE, BARE,
    // 0xc0
    BARE, BARE, BARE, BARE, BARE, NO, NO, NO, NO, NO, NO, NO, NO, NO, NO, NO,
    // 0xd0
    NO, BARE, FUNCTION, BARE, BARE, NUMBER, NUMBER, NO, NO, NO, NO, NO, NO, NO, NO, NO,
    // 0xe0
    TYPE, NO, TAG, NO, NO, NO, NO, NO, NO, NO, NO, NO, NO, NO, NO, NO,
    // 0xf0
    NO, NO, NO, NO, NO, NO, NO, NO, NO, NO, NO, NO, NO, NO, NO, NO,
];

/// The class of the operator of one byte.
#[inline(always)]
pub fn class_of_byte(byte: u8) -> Class
    ensures { result ≡ class_of (record { prefix = 0; sub = byte }) }
{
    ONE_BYTE[usize::from(byte)]
}

/// The class of an immediate that stands alone.
fn class_of_kind(kind: ImmKind) -> Class
    ensures { result ≡ class_of_kind kind }
{
    match kind {
        ImmKind::Block => Class::Block,
        ImmKind::Label | ImmKind::Local | ImmKind::Field | ImmKind::Size => Class::Number,
        ImmKind::S32 => Class::S32,
        ImmKind::S64 => Class::Long,
        ImmKind::Four => Class::Raw(4),
        ImmKind::Eight => Class::Raw(8),
        ImmKind::Sixteen | ImmKind::Lanes => Class::Raw(16),
        ImmKind::Mem => Class::Mem,
        ImmKind::Index(space) => class_of_space(space),
        _ => Class::Other,
    }
}

/// The class of an index, where core modules have its space.
fn class_of_space(space: Space) -> Class
    ensures { result ≡ class_of_kind (ImmKind.Index space) }
{
    if space.is_core() {
        Class::Index(space)
    } else {
        Class::Other
    }
}

/// The class of an operator, by its row.
pub fn class_by_row(opcode: Opcode) -> Class
    ensures { result ≡ class_of opcode }
{
    match row_of(opcode) {
        Some([]) => Class::Bare,
        Some([kind]) => class_of_kind(*kind),
        _ => Class::Other,
    }
}

/// The immediates of an operator of no class.
#[derive(Clone, Copy, Debug)]
pub enum Rare {
    /// The labels of a table of branches.
    Labels,
    /// Two indices, each of a space of core modules.
    Two(Space, Space),
    /// It has others.
    Other,
}

/// What one immediate alone is.
fn rare_of_kind(kind: ImmKind) -> Rare
    ensures { result ≡ rare_of_kind kind }
{
    match kind {
        ImmKind::Labels => Rare::Labels,
        _ => Rare::Other,
    }
}

/// What two immediates are.
fn rare_of_two(first: ImmKind, second: ImmKind) -> Rare
    ensures { result ≡ rare_of_two first second }
{
    match (first, second) {
        (ImmKind::Index(space), ImmKind::Index(other)) => rare_of_spaces(space, other),
        _ => Rare::Other,
    }
}

/// Two indices, where core modules have their spaces.
fn rare_of_spaces(space: Space, other: Space) -> Rare
    ensures { result ≡ rare_of_two (ImmKind.Index space) (ImmKind.Index other) }
{
    if space.is_core() && other.is_core() {
        Rare::Two(space, other)
    } else {
        Rare::Other
    }
}

/// What the immediates of an operator are, by its row.
pub fn rare_by_row(opcode: Opcode) -> Rare
    ensures { result ≡ rare_of opcode }
{
    match row_of(opcode) {
        Some([kind]) => rare_of_kind(*kind),
        Some([first, second]) => rare_of_two(*first, *second),
        _ => Rare::Other,
    }
}
