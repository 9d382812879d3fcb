//! The frames of a module, and the rows of sections.
use crate::bodies::add_operators;
use crate::groups::add_group;
use crate::row_text::{AddRow, rows};
use crate::stop::Stop;
use crate::text::{add, add_bytes, add_refusal, add_word};
use std::alloc::{AllocError, Global};
use std::fmt::{Debug, Write};
use wasm_read::{
    BodyFrames, CompactItems, CompactNames, Data, DataKind, Element, ElementItems, ElementKind,
    Export, FunctionBody, Import, Imports, MemoryType, Payload, Payloads, RecGroup, SmallEntry,
    Table, TableInit, TagType, VecItems,
};
use wasm_shapes::kinds;

/// Adds the place and the bytes of a frame.
fn add_frame(alloc: Global, text: &mut String, at: usize, bytes: &[u8]) -> Result<(), AllocError> {
    add_word(text, "at")?;
    add(text, &at)?;
    add_bytes(alloc, text, bytes)?;
    add_word(text, "|")
}

/// Adds a frame.
fn add_payload(alloc: Global, text: &mut String, payload: Payload<'_>) -> Result<(), AllocError> {
    match payload {
        Payload::Section { id, at, body } => {
            add(text, &id)?;
            add_frame(alloc, text, at, body)
        }
        Payload::Custom { at, section } => {
            add_word(text, "custom")?;
            add(text, &section.name)?;
            add_frame(alloc, text, at, section.contents)
        }
        Payload::Unknown { at, id, contents } => {
            add_word(text, "unknown")?;
            add(text, &id)?;
            add_frame(alloc, text, at, contents)
        }
    }
}

/// The frames of a module up to the end or the first refusal.
fn payloads(alloc: Global, bytes: &[u8]) -> Result<String, Stop> {
    let mut payloads = Payloads::new(bytes)?;
    let mut text = String::new(alloc);
    'frames: for _ in 0..u64::MAX {
        match payloads.next() {
            Ok(Some(payload)) => add_payload(alloc, &mut text, payload)?,
            Ok(None) => {
                add_word(&mut text, "end")?;
                break 'frames;
            }
            Err(fault) => {
                add_refusal(alloc, &mut text, fault)?;
                break 'frames;
            }
        }
    }
    Ok(text)
}

/// Adds an import of its own.
fn add_single(text: &mut String, import: Import<'_>) -> Result<(), AllocError> {
    write!(text, "Single({import:?}) ")
}

/// Adds the items that are left of a vector.
fn add_items<'a, T: SmallEntry<'a> + Debug + Drop>(
    text: &mut String,
    items: VecItems<'a, T>,
) -> Result<(), AllocError> {
    let mut items = items;
    'items: for _ in 0..u64::MAX {
        match items.next() {
            Some(item) => add(text, &item)?,
            None => break 'items,
        }
    }
    if let Some(item) = items.next() {
        add_word(text, "and then")?;
        add(text, &item)?;
    }
    Ok(())
}

/// The items of a vector.
fn items<'a, T: SmallEntry<'a> + Debug + Drop>(
    alloc: Global,
    items: VecItems<'a, T>,
) -> Result<Option<String>, Stop> {
    let mut text = String::new(alloc);
    add_items(&mut text, items)?;
    Ok(Some(text))
}

impl AddRow for RecGroup {
    fn add_row(self, _alloc: Global, text: &mut String) -> Result<(), AllocError> {
        add_group(text, &self)
    }
}

impl<'a> AddRow for Imports<'a> {
    fn add_row(self, _alloc: Global, text: &mut String) -> Result<(), AllocError> {
        match self {
            Imports::Single(import) => add_single(text, import),
            Imports::Compact1 { module, items } => {
                add_word(text, "items")?;
                add(text, &module)?;
                add_items(text, items)
            }
            Imports::Compact2 { module, ty, names } => {
                add_word(text, "names")?;
                add(text, &module)?;
                add(text, &ty)?;
                add_items(text, names)
            }
        }
    }
}

impl AddRow for u32 {
    fn add_row(self, _alloc: Global, text: &mut String) -> Result<(), AllocError> {
        add(text, &self)
    }
}

impl AddRow for MemoryType {
    fn add_row(self, _alloc: Global, text: &mut String) -> Result<(), AllocError> {
        add(text, &self)
    }
}

impl<'a> AddRow for Export<'a> {
    fn add_row(self, _alloc: Global, text: &mut String) -> Result<(), AllocError> {
        add(text, &self)
    }
}

impl<'a> AddRow for FunctionBody<'a> {
    fn add_row(self, _alloc: Global, text: &mut String) -> Result<(), AllocError> {
        add(text, &self)
    }
}

impl AddRow for TagType {
    fn add_row(self, _alloc: Global, text: &mut String) -> Result<(), AllocError> {
        add(text, &self)
    }
}

// A table, and what it starts with.
impl<'a> AddRow for Table<'a> {
    fn add_row(self, alloc: Global, text: &mut String) -> Result<(), AllocError> {
        add(text, &self.ty)?;
        match &self.init {
            TableInit::RefNull => Ok(()),
            TableInit::Expr(expr) => add_operators(alloc, text, expr.get_operators_reader()),
        }
    }
}

// A global, and what it starts with.
impl<'a> AddRow for wasm_read::Global<'a> {
    fn add_row(self, alloc: Global, text: &mut String) -> Result<(), AllocError> {
        add(text, &self.ty)?;
        add_operators(alloc, text, self.init_expr.get_operators_reader())
    }
}

/// Adds where an element segment is placed.
fn add_element_kind(
    alloc: Global,
    text: &mut String,
    kind: &ElementKind<'_>,
) -> Result<(), AllocError> {
    match kind {
        ElementKind::Active {
            table_index,
            offset_expr,
        } => {
            add_word(text, "table")?;
            add(text, table_index)?;
            add_operators(alloc, text, offset_expr.get_operators_reader())
        }
        ElementKind::Passive => add_word(text, "passive"),
        ElementKind::Declared => add_word(text, "declared"),
    }
}

/// Adds what an element segment lists.
fn add_element_items(
    alloc: Global,
    text: &mut String,
    items: &ElementItems<'_>,
) -> Result<(), AllocError> {
    match items {
        ElementItems::Functions(functions) => add(text, functions),
        ElementItems::Expressions(ty, expressions) => {
            add(text, ty)?;
            for expr in expressions.as_slice() {
                add_operators(alloc, text, expr.get_operators_reader())?;
            }
            Ok(())
        }
    }
}

impl<'a> AddRow for Element<'a> {
    fn add_row(self, alloc: Global, text: &mut String) -> Result<(), AllocError> {
        add_element_kind(alloc, text, &self.kind)?;
        add_element_items(alloc, text, &self.items)
    }
}

// A data segment: where it is placed, and its bytes.
impl<'a> AddRow for Data<'a> {
    fn add_row(self, alloc: Global, text: &mut String) -> Result<(), AllocError> {
        match &self.kind {
            DataKind::Active {
                memory_index,
                offset_expr,
            } => {
                add_word(text, "memory")?;
                add(text, memory_index)?;
                add_operators(alloc, text, offset_expr.get_operators_reader())?;
            }
            DataKind::Passive => add_word(text, "passive")?,
        }
        add_bytes(alloc, text, self.contents)
    }
}

/// What the reader of a section whose rows hold expressions gives.
fn with_expressions(alloc: Global, call: &str, bytes: &[u8]) -> Result<Option<String>, Stop> {
    match call {
        "tables" => rows::<kinds::Tables>(alloc, bytes),
        "globals" => rows::<kinds::Globals>(alloc, bytes),
        "elements" => rows::<kinds::Elements>(alloc, bytes),
        "segments" => rows::<kinds::Segments>(alloc, bytes),
        _ => Ok(None),
    }
}

/// What the reader of a section gives.
pub fn answer(alloc: Global, call: &str, bytes: &[u8]) -> Result<Option<String>, Stop> {
    match call {
        "payloads" => Ok(Some(payloads(alloc, bytes)?)),
        "types" => rows::<kinds::Types>(alloc, bytes),
        "imports" => rows::<kinds::Imports>(alloc, bytes),
        "compact_items" => items(alloc, CompactItems::new(bytes)?),
        "compact_names" => items(alloc, CompactNames::new(bytes)?),
        "functions" => rows::<kinds::Functions>(alloc, bytes),
        "memories" => rows::<kinds::Memories>(alloc, bytes),
        "exports" => rows::<kinds::Exports>(alloc, bytes),
        "code" => rows::<BodyFrames>(alloc, bytes),
        "tags" => rows::<kinds::Tags>(alloc, bytes),
        _ => with_expressions(alloc, call, bytes),
    }
}
