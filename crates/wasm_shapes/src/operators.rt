//! The operators, and the kinds of their immediates.
ghost use Rattle.std.specs.Prelude.{◌≡◌, IfSome, IfNone, List, Some, None};
ghost use Rattle.wasm_shapes.specs.Operators.{Operators, kinds_of, look_up};
ghost use Rattle.wasm_shapes.specs.OperatorRows.{Holds, kinds_in};

use crate::operator_rows::{FB, FC, FD, FE, ONE_BYTE, Row};
use crate::{ImmKind, Opcode};

pub const UNREACHABLE: Opcode = Opcode {
    prefix: 0,
    sub: 0x00,
};

pub const NOP: Opcode = Opcode {
    prefix: 0,
    sub: 0x01,
};

pub const BLOCK: Opcode = Opcode {
    prefix: 0,
    sub: 0x02,
};

pub const END: Opcode = Opcode {
    prefix: 0,
    sub: 0x0b,
};

pub const BR: Opcode = Opcode {
    prefix: 0,
    sub: 0x0c,
};

pub const CALL: Opcode = Opcode {
    prefix: 0,
    sub: 0x10,
};

pub const CALL_INDIRECT: Opcode = Opcode {
    prefix: 0,
    sub: 0x11,
};

pub const DROP: Opcode = Opcode {
    prefix: 0,
    sub: 0x1a,
};

pub const LOCAL_GET: Opcode = Opcode {
    prefix: 0,
    sub: 0x20,
};

pub const GLOBAL_GET: Opcode = Opcode {
    prefix: 0,
    sub: 0x23,
};

pub const I32_LOAD: Opcode = Opcode {
    prefix: 0,
    sub: 0x28,
};

pub const I32_CONST: Opcode = Opcode {
    prefix: 0,
    sub: 0x41,
};

pub const I32_ADD: Opcode = Opcode {
    prefix: 0,
    sub: 0x6a,
};

pub const REF_FUNC: Opcode = Opcode {
    prefix: 0,
    sub: 0xd2,
};

// The numbers by which the public standard knows them (WebAssembly Core Specification 3.0, section 5.4).
const _: () = prove!(UNREACHABLE.prefix == 0 && UNREACHABLE.sub == 0x00);

const _: () = prove!(NOP.prefix == 0 && NOP.sub == 0x01);

const _: () = prove!(BLOCK.prefix == 0 && BLOCK.sub == 0x02);

const _: () = prove!(END.prefix == 0 && END.sub == 0x0b);

const _: () = prove!(BR.prefix == 0 && BR.sub == 0x0c);

const _: () = prove!(CALL.prefix == 0 && CALL.sub == 0x10);

const _: () = prove!(CALL_INDIRECT.prefix == 0 && CALL_INDIRECT.sub == 0x11);

const _: () = prove!(DROP.prefix == 0 && DROP.sub == 0x1a);

const _: () = prove!(LOCAL_GET.prefix == 0 && LOCAL_GET.sub == 0x20);

const _: () = prove!(GLOBAL_GET.prefix == 0 && GLOBAL_GET.sub == 0x23);

const _: () = prove!(I32_LOAD.prefix == 0 && I32_LOAD.sub == 0x28);

const _: () = prove!(I32_CONST.prefix == 0 && I32_CONST.sub == 0x41);

const _: () = prove!(I32_ADD.prefix == 0 && I32_ADD.sub == 0x6a);

const _: () = prove!(REF_FUNC.prefix == 0 && REF_FUNC.sub == 0xd2);

/// The kinds of an operator's immediates in the order of the bytes, or none where no operator has the number.
pub fn row_of(op: Opcode) -> Option<&'static [ImmKind]>
    ensures some { IfSome result (λ kinds. kinds_of op ≡ Some kinds.now) }
    ensures none { IfNone result (kinds_of op ≡ None) }
{
    match op.prefix {
        0 => row_at(&ONE_BYTE, op.sub),
        0xfb => row_at(&FB, op.sub),
        0xfc => row_at(&FC, op.sub),
        0xfd => row_at(&FD, op.sub),
        0xfe => row_at(&FE, op.sub),
        _ => None,
    }
}

/// The entry at a number in a list of rows, or none behind it.
#[inline(always)]
fn row_at(rows: &[Row], number: u32) -> Row
    ensures { (os : List Operators) → Holds rows.now os → kinds_in result ≡ look_up os number }
{
    match rows.get(number as usize) {
        Some(row) => *row,
        None => None,
    }
}
