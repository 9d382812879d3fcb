//! Bodies of functions, as text.
use crate::stop::Stop;
use crate::text::{add, add_as, add_refusal, add_word};
use std::alloc::{AllocError, Global};
use std::fmt::{Debug, Write};
use wasm_read::{FunctionBody, Imm, Operator, OperatorsReader};

/// Adds the labels of a branch by a table.
fn add_labels(text: &mut String, targets: &[u32], default: &u32) -> Result<(), AllocError> {
    add_as(text, "labels", &targets)?;
    add(text, default)
}

/// Adds two values.
fn add_two<A: Debug, B: Debug>(text: &mut String, first: &A, second: &B) -> Result<(), AllocError> {
    add(text, first)?;
    add(text, second)
}

/// Adds an immediate that is a number, bits or nothing.
fn add_number(text: &mut String, imm: &Imm<'_>) -> Result<(), AllocError> {
    match imm {
        Imm::Mem(arg) => add(text, arg),
        Imm::S32(number) => add(text, number),
        Imm::S64(number) => add(text, number),
        Imm::Four(bits) => add(text, bits),
        Imm::Eight(bits) => add(text, bits),
        Imm::Sixteen(bytes) => add_as(text, "sixteen", bytes),
        Imm::Lanes(lanes) => add_as(text, "lanes", lanes),
        Imm::Lane(lane) => add_as(text, "lane", lane),
        _ => add_word(text, "zero"),
    }
}

/// Adds an immediate of a type, of a handler or of a number.
fn add_type_or_number(text: &mut String, imm: &Imm<'_>) -> Result<(), AllocError> {
    match imm {
        Imm::Types(types) => add_as(text, "types", &types.as_slice()),
        Imm::Heap(ty) => add_as(text, "heap", ty),
        Imm::Catches(catches) => add_as(text, "catches", &catches.as_slice()),
        Imm::Cast { label, from, to } => {
            add_as(text, "cast", label)?;
            add_two(text, from, to)
        }
        Imm::Handlers(handlers) => add_as(text, "handlers", &handlers.as_slice()),
        _ => add_number(text, imm),
    }
}

/// Adds an immediate.
fn add_imm(text: &mut String, imm: &Imm<'_>) -> Result<(), AllocError> {
    match imm {
        Imm::Block(ty) => add_as(text, "block", ty),
        Imm::Label(label) => add_as(text, "label", label),
        Imm::Labels { targets, default } => add_labels(text, targets.as_slice(), default),
        Imm::Index(space, index) => add_two(text, space, index),
        Imm::Local(local) => add_as(text, "local", local),
        Imm::Field(field) => add_as(text, "field", field),
        Imm::Size(size) => add_as(text, "size", size),
        _ => add_type_or_number(text, imm),
    }
}

/// Adds immediates.
fn add_imms(text: &mut String, imms: &[Imm<'_>]) -> Result<(), AllocError> {
    for imm in imms {
        add_imm(text, imm)?;
    }
    Ok(())
}

/// Adds an operator: its prefix, its number, and its immediates.
fn add_operator(text: &mut String, operator: Operator<'_>) -> Result<(), AllocError> {
    let opcode = operator.opcode();
    write!(text, "{:02x} {:02x} ", opcode.prefix, opcode.sub)?;
    add_imms(text, operator.into_imms().as_slice())
}

/// Adds where a reader stands: before an `end` with nothing behind it, or where no byte is left.
fn add_end(text: &mut String, operators: &OperatorsReader<'_>) -> Result<(), AllocError> {
    if operators.eof() {
        add_word(text, "eof")
    } else if operators.is_end_then_eof() {
        add_word(text, "last")
    } else {
        Ok(())
    }
}

/// Adds operators up to the first refusal.
pub fn add_operators(
    alloc: Global,
    text: &mut String,
    operators: OperatorsReader<'_>,
) -> Result<(), AllocError> {
    let mut operators = operators;
    'operators: for _ in 0..u64::MAX {
        add_word(text, "|")?;
        add_end(text, &operators)?;
        match operators.read(alloc) {
            Ok(operator) => add_operator(text, operator)?,
            Err(fault) => {
                add_refusal(alloc, text, fault)?;
                break 'operators;
            }
        }
    }
    Ok(())
}

/// The locals of a body, and its operators up to the first refusal.
pub fn body(alloc: Global, bytes: &[u8]) -> Result<String, Stop> {
    let body = FunctionBody { bytes };
    let mut text = String::new(alloc);
    add(&mut text, &body.locals(alloc)?.as_slice())?;
    add_operators(alloc, &mut text, body.operators()?)?;
    Ok(text)
}
