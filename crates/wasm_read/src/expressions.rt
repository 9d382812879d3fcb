//! Constant expressions.
ghost use Rattle.std.specs.Prelude.{◌≡◌, ◌≤◌, ◌++◌, IfOk, IfErr, IfSome, IfNone};
ghost use Rattle.wasm_shapes.specs.Place.{Begins, BeginsNone};
ghost use Rattle.wasm_shapes.specs.Shape.{Shape, Named};
ghost use Rattle.wasm_read.specs.Expressions.{HeldExpression, HeldExpression-prop, SpellsExpression, NoExpression, expr_tree};

use crate::operators::{OperatorsReader, behind_operator};
use crate::vector_items::{Entry, ReadEntry};
use std::alloc::Global;
use std::marker::Model;
use wasm_leb::{NoMemory, ReadError, front_byte};

/// A constant expression, as the bytes that spell it (WebAssembly Core Specification 3.0, section 5.4.13).
///
/// Contracts see it as these bytes, of which the last is `end`, and the operators that they spell.
#[derive(Drop)]
pub struct ConstExpr<'a> {
    bytes: &'a [u8],
    ghost held: { HeldExpression bytes.now } by { HeldExpression-prop bytes.now },
}

impl<'a> Model for ConstExpr<'a> {
    ghost use Rattle.wasm_read.specs.Expressions.{Expression, expression_code, held_expression};

    ghost Value = { Expression };

    ghost coded = { expression_code };

    ghost view = { λ e. record { bytes = e.bytes.now; operators = held_expression e.bytes.now e.held } };
}

impl<'a> ConstExpr<'a> {
    /// The expression that fills some bytes. The error comes exactly where none does, with the place 0.
    pub fn new(bytes: &'a [u8]) -> Result<ConstExpr<'a>, ReadError>
        ensures bytes { IfOk result (λ e. e.bytes ≡ bytes.now) }
        ensures ok { IfOk result (λ e. SpellsExpression bytes.now (expr_tree e)) }
        ensures err { IfErr result (λ e. (e.at ≡ 0) × NoExpression bytes.now) }
    {
        match front_expr(bytes) {
            Some((expr, rest)) => {
                if rest.is_empty() {
                    Ok(expr)
                } else {
                    Err(ReadError { at: 0 })
                }
            }
            None => Err(ReadError { at: 0 }),
        }
    }

    /// A reader of its operators, `end` behind them. Its places are counted from the first byte of the expression.
    pub fn get_operators_reader(&self) -> OperatorsReader<'a>
        ensures reader { result ≡ record { bytes = self.now.bytes; at = 0 } }
        ensures spells { ∥ SpellsExpression self.now.bytes (expr_tree self.now) ∥₁ }
    {
        OperatorsReader::from_place(self.bytes, 0)
    }
}

/// The expression at the front of some bytes, and the bytes behind it. Its end is the first `0b` that is an operator of
/// its own.
pub fn front_expr(bytes: &[u8]) -> Option<(ConstExpr<'_>, &[u8])>
    ensures some { IfSome result (λ r.
        Begins (Shape.ref Named.expression) bytes.now (expr_tree r.0) r.1.now) }
    ensures text { IfSome result (λ r. bytes.now ≡ r.0.bytes ++ r.1.now) }
    ensures none { IfNone result (BeginsNone (Shape.ref Named.expression) bytes.now) }
{
    let mut rest = bytes;
    'operators: while let Some((first, behind)) = front_byte(rest) {
        if first == 0x0b {
            let bytes = &bytes[..bytes.len() - behind.len()];
            return Some((ConstExpr { bytes }, behind));
        }
        match behind_operator(rest) {
            Some(behind) => rest = behind,
            None => return None,
        }
    }
    None
}

/// An expression of an element segment.
impl<'a> Entry for ConstExpr<'a> {
    ghost use Rattle.std.specs.Prelude.{refl};

    ghost shape = { Shape.ref Named.expression };

    ghost tree = { expr_tree };

    ghost rows_sound = { refl };
}

impl<'a> ReadEntry<'a> for ConstExpr<'a> {
    #[inline]
    fn front(
        _alloc: Global,
        bytes: &'a [u8],
    ) -> Result<Option<(ConstExpr<'a>, &'a [u8])>, NoMemory> {
        Ok(front_expr(bytes))
    }
}
