//! Element segments at the front of some bytes (WebAssembly Core Specification 3.0, section 5.5.12).
ghost use Rattle.std.specs.Prelude.{map, IfOk, IfSome, IfNone};
ghost use Rattle.wasm_shapes.specs.declared.Space.TheVariants as space;
ghost use Rattle.wasm_shapes.specs.Module.{element_row, element_functions, element_expressions};
ghost use Rattle.wasm_shapes.specs.Place.{Begins, BeginsNone};
ghost use Rattle.wasm_shapes.specs.Shape.{Shape, Named, lead, reference};
ghost use Rattle.wasm_shapes.specs.Tree.{Tree};
ghost use Rattle.wasm_shapes.specs.Types.{led, vector_tree, function_index_tree, typed_expressions};
ghost use Rattle.wasm_read.specs.Expressions.{expr_tree};
ghost use Rattle.wasm_read.specs.Types.{ElementFlag, ref_type_tree, element_tree};

use crate::expressions::{ConstExpr, front_expr};
use crate::types::{AbstractHeapType, Element, ElementItems, ElementKind, HeapType, RefType};
use crate::value_types::front_ref_type;
use crate::vector_items::front_vec;
use std::alloc::Global;
use wasm_leb::{List, NoMemory, front_byte, front_u32};

/// The type of references to functions that may be null.
const FUNCREF: RefType = RefType {
    nullable: true,
    heap_type: HeapType::Abstract {
        shared: false,
        ty: AbstractHeapType::Func,
    },
};

/// The kind byte at the front of some bytes and the functions behind it, and the bytes behind both.
fn front_kinded(alloc: Global, bytes: &[u8]) -> Result<Option<(List<u32>, &[u8])>, NoMemory>
    ensures some { IfOk result (λ o. IfSome o (λ r. Begins (lead 0x00 element_functions)
        bytes.now (led 0x00 (vector_tree (map function_index_tree r.0))) r.1.now)) }
    ensures none { IfOk result (λ o.
        IfNone o (BeginsNone (lead 0x00 element_functions) bytes.now)) }
{
    let Some((first, rest)) = front_byte(bytes) else {
        return Ok(None);
    };
    if first != 0x00 {
        return Ok(None);
    }
    match front_vec(alloc, rest) {
        Ok(Some((functions, rest))) => Ok(Some((functions, rest))),
        Ok(None) => Ok(None),
        Err(NoMemory) => Err(NoMemory),
    }
}

/// The type of expressions at the front of some bytes and the expressions behind it, and the bytes behind both.
fn front_typed<'a>(
    alloc: Global,
    bytes: &'a [u8],
) -> Result<Option<(RefType, List<ConstExpr<'a>>, &'a [u8])>, NoMemory>
    ensures some { IfOk result (λ o. IfSome o (λ r.
        Begins (Shape.swap reference element_expressions) bytes.now
        (typed_expressions (ref_type_tree r.0) (map expr_tree r.1)) r.2.now)) }
    ensures none { IfOk result (λ o. IfNone o
        (BeginsNone (Shape.swap reference element_expressions) bytes.now)) }
{
    let Some((ty, rest)) = front_ref_type(bytes) else {
        return Ok(None);
    };
    match front_vec(alloc, rest) {
        Ok(Some((expressions, rest))) => Ok(Some((ty, expressions, rest))),
        Ok(None) => Ok(None),
        Err(NoMemory) => Err(NoMemory),
    }
}

/// The table at the front of some bytes and the offset behind it, and the bytes behind both.
fn front_aim(bytes: &[u8]) -> Option<(u32, ConstExpr<'_>, &[u8])>
    ensures some { IfSome result (λ r.
        Begins (Shape.seq (Shape.ix space.Table) (Shape.ref Named.expression)) bytes.now
        (Tree.pair (Tree.ix space.Table r.0) (expr_tree r.1)) r.2.now) }
    ensures none { IfNone result
        (BeginsNone (Shape.seq (Shape.ix space.Table) (Shape.ref Named.expression)) bytes.now) }
{
    let Some((table, rest)) = front_u32(bytes) else {
        return None;
    };
    match front_expr(rest) {
        Some((offset, rest)) => Some((table, offset, rest)),
        None => None,
    }
}

/// The element segment at the front of some bytes, and the bytes behind it. Its flag may be spelled longer than need be.
pub fn front_element<'a>(
    alloc: Global,
    bytes: &'a [u8],
) -> Result<Option<(Element<'a>, &'a [u8])>, NoMemory>
    ensures some { IfOk result (λ o. IfSome o (λ r.
        Begins element_row bytes.now (element_tree r.0) r.1.now)) }
    ensures beside { IfOk result (λ o. IfSome o (λ r. ElementFlag bytes.now r.0)) }
    ensures none { IfOk result (λ o. IfNone o (BeginsNone element_row bytes.now)) }
{
    let Some((flag, rest)) = front_u32(bytes) else {
        return Ok(None);
    };
    match flag {
        0 => {
            let Some((offset_expr, rest)) = front_expr(rest) else {
                return Ok(None);
            };
            match front_vec(alloc, rest) {
                Ok(Some((functions, rest))) => Ok(Some((
                    Element {
                        kind: ElementKind::Active {
                            table_index: None,
                            offset_expr,
                        },
                        items: ElementItems::Functions(functions),
                    },
                    rest,
                ))),
                Ok(None) => Ok(None),
                Err(NoMemory) => Err(NoMemory),
            }
        }
        1 => match front_kinded(alloc, rest) {
            Ok(Some((functions, rest))) => Ok(Some((
                Element {
                    kind: ElementKind::Passive,
                    items: ElementItems::Functions(functions),
                },
                rest,
            ))),
            Ok(None) => Ok(None),
            Err(NoMemory) => Err(NoMemory),
        },
        2 => {
            let Some((table, offset_expr, rest)) = front_aim(rest) else {
                return Ok(None);
            };
            match front_kinded(alloc, rest) {
                Ok(Some((functions, rest))) => Ok(Some((
                    Element {
                        kind: ElementKind::Active {
                            table_index: Some(table),
                            offset_expr,
                        },
                        items: ElementItems::Functions(functions),
                    },
                    rest,
                ))),
                Ok(None) => Ok(None),
                Err(NoMemory) => Err(NoMemory),
            }
        }
        3 => match front_kinded(alloc, rest) {
            Ok(Some((functions, rest))) => Ok(Some((
                Element {
                    kind: ElementKind::Declared,
                    items: ElementItems::Functions(functions),
                },
                rest,
            ))),
            Ok(None) => Ok(None),
            Err(NoMemory) => Err(NoMemory),
        },
        4 => {
            let Some((offset_expr, rest)) = front_expr(rest) else {
                return Ok(None);
            };
            match front_vec(alloc, rest) {
                Ok(Some((expressions, rest))) => Ok(Some((
                    Element {
                        kind: ElementKind::Active {
                            table_index: None,
                            offset_expr,
                        },
                        items: ElementItems::Expressions(FUNCREF, expressions),
                    },
                    rest,
                ))),
                Ok(None) => Ok(None),
                Err(NoMemory) => Err(NoMemory),
            }
        }
        5 => match front_typed(alloc, rest) {
            Ok(Some((ty, expressions, rest))) => Ok(Some((
                Element {
                    kind: ElementKind::Passive,
                    items: ElementItems::Expressions(ty, expressions),
                },
                rest,
            ))),
            Ok(None) => Ok(None),
            Err(NoMemory) => Err(NoMemory),
        },
        6 => {
            let Some((table, offset_expr, rest)) = front_aim(rest) else {
                return Ok(None);
            };
            match front_typed(alloc, rest) {
                Ok(Some((ty, expressions, rest))) => Ok(Some((
                    Element {
                        kind: ElementKind::Active {
                            table_index: Some(table),
                            offset_expr,
                        },
                        items: ElementItems::Expressions(ty, expressions),
                    },
                    rest,
                ))),
                Ok(None) => Ok(None),
                Err(NoMemory) => Err(NoMemory),
            }
        }
        7 => match front_typed(alloc, rest) {
            Ok(Some((ty, expressions, rest))) => Ok(Some((
                Element {
                    kind: ElementKind::Declared,
                    items: ElementItems::Expressions(ty, expressions),
                },
                rest,
            ))),
            Ok(None) => Ok(None),
            Err(NoMemory) => Err(NoMemory),
        },
        _ => Ok(None),
    }
}
