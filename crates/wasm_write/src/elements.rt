//! Element segments in their normal spelling (WebAssembly Core Specification 3.0, section 5.5.12).
ghost use Rattle.std.specs.Prelude.{◌≡◌, ◌++◌, ◌<◌, ◌^◌, map, take, vec_len, OnOk, OnErr, IfErr};
ghost use Rattle.wasm_shapes.specs.declared.Space.TheVariants as space;
ghost use Rattle.wasm_shapes.specs.Tree.{Tree, normal};
ghost use Rattle.wasm_shapes.specs.Types.{led, vector_tree, expression_of, function_index_tree, typed_expressions};
ghost use Rattle.wasm_shapes.specs.Fits.{InRange};
ghost use Rattle.wasm_write.specs.Counts.{counts, IsTooLarge};
ghost use Rattle.wasm_write.specs.Faults.{IfTooLarge};
ghost use Rattle.wasm_write.specs.Types.{ref_type_tree};
ghost use Rattle.wasm_write.specs.Rows.{is_funcref, HaveSpellings};

use crate::expressions::ConstExpr;
use crate::fault::WriteFault;
use crate::row_section::RowOf;
use crate::types::{AbstractHeapType, Elements, HeapType, RefType};
use crate::value_types::{write_byte, write_ref_type};
use crate::vectors::{ItemOf, write_vec};
use wasm_leb::{NoMemory, write_u32};
use wasm_shapes::kinds;

/// Element segments.
pub(crate) struct InElements;

/// A function.
impl ItemOf<InElements> for u32 {
    ghost use Rattle.wasm_shapes.specs.Types.{function_index_tree};

    ghost tree = { function_index_tree };

    fn write(&self, out: &mut Vec<u8>) -> Result<(), WriteFault> {
        match write_u32(out, *self) {
            Ok(()) => Ok(()),
            Err(NoMemory) => Err(WriteFault::NoMemory),
        }
    }
}

/// An expression.
impl ItemOf<InElements> for ConstExpr {
    ghost use Rattle.wasm_shapes.specs.Types.{expression_of};

    ghost tree = { expression_of };

    #[tactic(auto, using(crate::proofs::InitRows::expression_in_range))]
    fn write(&self, out: &mut Vec<u8>) -> Result<(), WriteFault> {
        match self.encode(out) {
            Ok(()) => Ok(()),
            Err(NoMemory) => Err(WriteFault::NoMemory),
        }
    }
}

impl Elements {
    /// That each expression has a spelling. Nothing is done.
    pub(crate) fn have_spellings(&self)
        ensures { HaveSpellings self.now }
    {
        if let Elements::Expressions(_, expressions) = self {
            let expressions = expressions.as_slice();
            for expression in expressions {
                expression.len();
            }
        }
    }
}

/// Whether a type is that of references to functions that may be null.
fn is_funcref(ty: RefType) -> bool
    ensures { result ≡ is_funcref ty }
{
    match ty.heap_type {
        HeapType::Abstract {
            shared: false,
            ty: AbstractHeapType::Func,
        } => ty.nullable,
        _ => false,
    }
}

/// Appends a flag and an offset, or a part of them where memory runs out.
fn write_left(out: &mut Vec<u8>, flag: u32, offset: &ConstExpr) -> Result<(), NoMemory>
    ensures ok { OnOk result (out.new.items ≡ out.old.items
        ++ normal (Tree.pair (Tree.flag flag) (expression_of offset.now))) }
    ensures err { OnErr result (take (vec_len out.old) out.new.items ≡ out.old.items) }
{
    match write_u32(out, flag) {
        Ok(()) => offset.encode(out),
        Err(NoMemory) => Err(NoMemory),
    }
}

/// Appends a flag, a table and an offset, or a part of them where memory runs out.
fn write_aimed(out: &mut Vec<u8>, flag: u32, table: u32, offset: &ConstExpr) -> Result<(), NoMemory>
    ensures ok { OnOk result (out.new.items ≡ out.old.items ++ normal (Tree.pair (Tree.flag flag)
        (Tree.pair (Tree.ix space.Table table) (expression_of offset.now)))) }
    ensures fits { OnOk result (table < 2 ^ 32) }
    ensures err { OnErr result (take (vec_len out.old) out.new.items ≡ out.old.items) }
{
    match write_u32(out, flag) {
        Ok(()) => {}
        Err(NoMemory) => return Err(NoMemory),
    }
    match write_u32(out, table) {
        Ok(()) => offset.encode(out),
        Err(NoMemory) => Err(NoMemory),
    }
}

/// Appends the kind byte and functions behind it, or a part of them where that is refused.
fn write_kinded(out: &mut Vec<u8>, functions: &[u32]) -> Result<(), WriteFault>
    ensures ok { OnOk result (out.new.items ≡ out.old.items
        ++ normal (led 0x00 (vector_tree (map function_index_tree functions.now)))) }
    ensures in_range { OnOk result (InRange (vector_tree (map function_index_tree functions.now))) }
    ensures err { OnErr result (take (vec_len out.old) out.new.items ≡ out.old.items) }
    ensures large { IfErr result (λ e. IfTooLarge e
        (IsTooLarge (counts (vector_tree (map function_index_tree functions.now))))) }
{
    match write_byte(out, 0x00) {
        Ok(()) => write_vec::<InElements, _>(out, functions),
        Err(NoMemory) => Err(WriteFault::NoMemory),
    }
}

/// Appends expressions behind their type, or a part of them where that is refused.
fn write_typed(out: &mut Vec<u8>, ty: RefType, expressions: &[ConstExpr]) -> Result<(), WriteFault>
    ensures ok { OnOk result (out.new.items ≡ out.old.items
        ++ normal (typed_expressions (ref_type_tree ty) (map expression_of expressions.now))) }
    ensures in_range { OnOk result
        (InRange (typed_expressions (ref_type_tree ty) (map expression_of expressions.now))) }
    ensures err { OnErr result (take (vec_len out.old) out.new.items ≡ out.old.items) }
    ensures large { IfErr result (λ e. IfTooLarge e
        (IsTooLarge (counts
        (typed_expressions (ref_type_tree ty) (map expression_of expressions.now))))) }
{
    match write_ref_type(out, ty) {
        Ok(()) => write_vec::<InElements, _>(out, expressions),
        Err(NoMemory) => Err(WriteFault::NoMemory),
    }
}

/// A segment that is copied to a table, which may be left out, at an offset.
#[derive(Drop)]
pub(crate) struct Active<'a> {
    pub(crate) table: Option<u32>,
    pub(crate) offset: &'a ConstExpr,
    pub(crate) elements: &'a Elements,
}

/// A declared segment or a passive one.
#[derive(Drop)]
pub(crate) struct Unplaced<'a> {
    pub(crate) declared: bool,
    pub(crate) elements: &'a Elements,
}

impl<'a> RowOf<kinds::Elements> for Active<'a> {
    ghost use Rattle.wasm_write.specs.Rows.{active_tree};

    ghost tree = { λ row. active_tree row.table row.offset.now row.elements.now };

    fn write(&self, out: &mut Vec<u8>) -> Result<(), WriteFault> {
        // for what they say of the spellings of the expressions
        self.offset.len();
        self.elements.have_spellings();
        match self.elements {
            Elements::Functions(functions) => match self.table {
                None => match write_left(out, 0, self.offset) {
                    Ok(()) => write_vec::<InElements, _>(out, functions.as_slice()),
                    Err(NoMemory) => Err(WriteFault::NoMemory),
                },
                Some(table) => match write_aimed(out, 2, table, self.offset) {
                    Ok(()) => write_kinded(out, functions.as_slice()),
                    Err(NoMemory) => Err(WriteFault::NoMemory),
                },
            },
            Elements::Expressions(ty, expressions) => match self.table {
                None => {
                    if is_funcref(*ty) {
                        return match write_left(out, 4, self.offset) {
                            Ok(()) => write_vec::<InElements, _>(out, expressions.as_slice()),
                            Err(NoMemory) => Err(WriteFault::NoMemory),
                        };
                    }
                    match write_aimed(out, 6, 0, self.offset) {
                        Ok(()) => write_typed(out, *ty, expressions.as_slice()),
                        Err(NoMemory) => Err(WriteFault::NoMemory),
                    }
                }
                Some(table) => match write_aimed(out, 6, table, self.offset) {
                    Ok(()) => write_typed(out, *ty, expressions.as_slice()),
                    Err(NoMemory) => Err(WriteFault::NoMemory),
                },
            },
        }
    }
}

impl<'a> RowOf<kinds::Elements> for Unplaced<'a> {
    ghost use Rattle.wasm_write.specs.Rows.{unplaced_tree};

    ghost tree = { λ row. unplaced_tree row.declared row.elements.now };

    fn write(&self, out: &mut Vec<u8>) -> Result<(), WriteFault> {
        // for what it says of the spellings of the expressions
        self.elements.have_spellings();
        let kind = if self.declared { 3 } else { 1 };
        match self.elements {
            Elements::Functions(functions) => match write_u32(out, kind) {
                Ok(()) => write_kinded(out, functions.as_slice()),
                Err(NoMemory) => Err(WriteFault::NoMemory),
            },
            Elements::Expressions(ty, expressions) => match write_u32(out, kind + 4) {
                Ok(()) => write_typed(out, *ty, expressions.as_slice()),
                Err(NoMemory) => Err(WriteFault::NoMemory),
            },
        }
    }
}
