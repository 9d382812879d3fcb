//! Data segments at the front of some bytes (WebAssembly Core Specification 3.0, section 5.5.14).
ghost use Rattle.std.specs.Prelude.{◌≡◌, IfSome, IfNone};
ghost use Rattle.wasm_shapes.specs.Module.{data_row};
ghost use Rattle.wasm_shapes.specs.Place.{Begins, BeginsNone};
ghost use Rattle.wasm_shapes.specs.Shape.{Shape, Named};
ghost use Rattle.wasm_shapes.specs.Tree.{Tree};
ghost use Rattle.wasm_shapes.specs.Types.{active_data_of, passive_data_tree};
ghost use Rattle.wasm_read.specs.Expressions.{expr_tree};
ghost use Rattle.wasm_read.specs.Types.{data_tree};

use crate::expressions::{ConstExpr, front_expr};
use crate::payloads::front_sized;
use crate::types::{Data, DataKind};
use wasm_leb::front_u32;

/// The bytes behind their length at the front of some bytes, and the bytes behind them.
#[tactic(auto, using(crate::proofs::DataSegments::sized_content, crate::proofs::DataSegments::none_content))]
fn front_content(bytes: &[u8]) -> Option<(&[u8], &[u8])>
    ensures some { IfSome result (λ r.
        Begins Shape.content bytes.now (Tree.content r.0.now) r.1.now) }
    ensures none { IfNone result (BeginsNone Shape.content bytes.now) }
{
    front_sized(bytes)
}

/// The offset of an active segment at the front of some bytes, its bytes behind their length, and the bytes behind them.
fn front_placed(bytes: &[u8]) -> Option<(ConstExpr<'_>, &[u8], &[u8])>
    ensures some { IfSome result (λ r.
        Begins (Shape.seq (Shape.ref Named.expression) Shape.content) bytes.now
        (Tree.pair (expr_tree r.0) (Tree.content r.1.now)) r.2.now) }
    ensures none { IfNone result
        (BeginsNone (Shape.seq (Shape.ref Named.expression) Shape.content) bytes.now) }
{
    let Some((offset_expr, rest)) = front_expr(bytes) else {
        return None;
    };
    match front_content(rest) {
        Some((contents, rest)) => Some((offset_expr, contents, rest)),
        None => None,
    }
}

/// An active segment.
#[inline]
fn active<'a>(memory_index: u32, offset_expr: ConstExpr<'a>, contents: &'a [u8]) -> Data<'a>
    ensures { data_tree result
        ≡ active_data_of memory_index (expr_tree offset_expr.entry) contents.now }
{
    Data {
        kind: DataKind::Active {
            memory_index,
            offset_expr,
        },
        contents,
    }
}

/// A passive segment.
#[inline]
fn passive(contents: &[u8]) -> Data<'_>
    ensures { data_tree result ≡ passive_data_tree contents.now }
{
    Data {
        kind: DataKind::Passive,
        contents,
    }
}

/// The data segment at the front of some bytes, and the bytes behind it. Its flag, a number, says whether it is passive (1),
/// and whether its memory is left out, which is then 0 (0), or written (2).
pub fn front_data(bytes: &[u8]) -> Option<(Data<'_>, &[u8])>
    ensures some { IfSome result (λ r. Begins data_row bytes.now (data_tree r.0) r.1.now) }
    ensures none { IfNone result (BeginsNone data_row bytes.now) }
{
    let Some((flag, rest)) = front_u32(bytes) else {
        return None;
    };
    match flag {
        0 => match front_placed(rest) {
            Some((offset, contents, rest)) => Some((active(0, offset, contents), rest)),
            None => None,
        },
        1 => match front_content(rest) {
            Some((contents, rest)) => Some((passive(contents), rest)),
            None => None,
        },
        2 => {
            let Some((memory, rest)) = front_u32(rest) else {
                return None;
            };
            match front_placed(rest) {
                Some((offset, contents, rest)) => Some((active(memory, offset, contents), rest)),
                None => None,
            }
        }
        _ => None,
    }
}
