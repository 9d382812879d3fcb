//! The sections of a binary, as lines of text, or as JSON.
ghost use Rattle.std.specs.Prelude.{◌≡◌, ◌++◌, ◌∷◌, ℕ, List, Option, codes, option_map, IfOk, IsFalse, IsTrue, OnOk};
ghost use Rattle.std.specs.List.{repeat};
ghost use Rattle.wasm_reencode.specs.Lines.{AreLines, IsLine, TellsName, TellsRows, front_of, size_of};
ghost use Rattle.serde_json.specs.Data.{string};
ghost use Rattle.serde_json.specs.View.{items_view, members_view, view};
ghost use Rattle.wasm_reencode.specs.Trees.{AreHeld, IsNameOf, IsObjectOf, IsPast, IsRowsOf, IsTree, IsWithin, count, inner_value, put_some, size_value};
ghost use Rattle.wasm_reencode.specs.declared.sections.Section.{Section};

use crate::sections::Section;
use serde_json::{Map, Value, put};
use std::alloc::{AllocError, Global};

/// Adds two spaces for each binary that a section stands in, beside the outermost.
fn add_indent(text: &mut Vec<u8>, depth: usize) -> Result<(), AllocError>
    ensures { OnOk result (text.new.items ≡ text.old.items ++ repeat depth (codes "  ")) }
{
    'steps: for step in 0..depth {
        text.extend_from_slice(b"  ")?;
    }
    Ok(())
}

/// Adds which section this is, and where.
fn add_front(alloc: Global, text: &mut Vec<u8>, section: &Section<'_>) -> Result<(), AllocError>
    ensures { OnOk result (text.new.items ≡ text.old.items ++ front_of section.now) }
{
    add_indent(text, section.depth)?;
    let number = section.number;
    let id = section.id;
    let name = section.kind_name();
    let start = section.start;
    let line = format!(in alloc; "{number:>4} {id:>3} {name:<13} {start:>10}")?;
    text.extend_from_slice(line.as_bytes())
}

/// Adds the size of a body.
fn add_size(
    alloc: Global,
    text: &mut Vec<u8>,
    frame: Option<(&[u8], &[u8])>,
) -> Result<(), AllocError>
    ensures { OnOk result (text.new.items ≡ text.old.items ++ size_of frame.entry) }
{
    match frame {
        Some((body, _)) => {
            let size = body.len();
            let line = format!(in alloc; " {size:>10}")?;
            text.extend_from_slice(line.as_bytes())
        }
        None => text.extend_from_slice(b"  cut short"),
    }
}

/// Adds how many rows a section has.
fn add_rows(alloc: Global, text: &mut Vec<u8>, section: &Section<'_>) -> Result<(), AllocError>
    ensures { OnOk result ((rows : List ℕ) × (text.new.items ≡ text.old.items ++ rows) × TellsRows section.now rows) }
{
    match section.rows() {
        Some(rows) => {
            let line = format!(in alloc; " {rows:>8}")?;
            text.extend_from_slice(line.as_bytes())
        }
        None => Ok(()),
    }
}

/// Adds the name of a custom section.
fn add_name(alloc: Global, text: &mut Vec<u8>, section: &Section<'_>) -> Result<(), AllocError>
    ensures { OnOk result ((name : List ℕ) × (text.new.items ≡ text.old.items ++ name) × TellsName section.now name) }
{
    match section.custom_name() {
        Some(name) => {
            let line = format!(in alloc; "          {name:?}")?;
            text.extend_from_slice(line.as_bytes())
        }
        None => Ok(()),
    }
}

/// Adds the line of a section.
fn add_line(alloc: Global, text: &mut Vec<u8>, section: &Section<'_>) -> Result<(), AllocError>
    ensures { OnOk result ((line : List ℕ) × (text.new.items ≡ text.old.items ++ line) × IsLine section.now line) }
{
    add_front(alloc, text, section)?;
    add_size(alloc, text, section.frame)?;
    add_rows(alloc, text, section)?;
    add_name(alloc, text, section)?;
    text.extend_from_slice(b"\n")
}

/// The lines of some sections.
pub fn lines_of(alloc: Global, sections: &[Section<'_>]) -> Result<Vec<u8>, AllocError>
    ensures { IfOk result (λ text. AreLines sections.now text.items) }
{
    let mut text = Vec::new(alloc);
    'sections: for section in sections {
        add_line(alloc, &mut text, section)?;
    }
    Ok(text)
}

/// Puts a member into an object, where there is a value for it.
fn put_some(
    object: &mut Map<String, Value>,
    alloc: Global,
    key: &str,
    value: Option<Value>,
) -> Result<(), AllocError>
    ensures { OnOk result (members_view object.new.entries
        ≡ put_some key.now (option_map view value) (members_view object.old.entries)) }
{
    match value {
        Some(value) => put(object, alloc, key, value),
        None => Ok(()),
    }
}

/// The size of a body, as a value.
fn size_value(frame: Option<(&[u8], &[u8])>) -> Value
    ensures { view result ≡ size_value frame.entry }
{
    match frame {
        Some((body, _)) => Value::from(body.len()),
        None => Value::Null,
    }
}

/// How many rows a section has, as a value.
fn rows_value(section: &Section<'_>) -> Option<Value>
    ensures { (rows : Option ℕ) × IsRowsOf section.now rows × (option_map view result ≡ option_map count rows) }
{
    match section.rows() {
        Some(rows) => Some(Value::from(rows)),
        None => None,
    }
}

/// The name of a custom section, as a value.
fn name_value(alloc: Global, section: &Section<'_>) -> Result<Option<Value>, AllocError>
    ensures { IfOk result (λ value. (name : Option (List ℕ)) × IsNameOf section.now name
        × (option_map view value ≡ option_map string name)) }
{
    match section.custom_name() {
        Some(name) => Ok(Some(Value::try_from_str(alloc, name)?)),
        None => Ok(None),
    }
}

/// The objects of the sections in one that is a whole binary, as a value.
fn inner_value(section: &Section<'_>, inner: Vec<Value>) -> Option<Value>
    ensures { option_map view result ≡ inner_value section.now (items_view inner.items) }
{
    if section.is_binary() {
        Some(Value::from(inner))
    } else {
        None
    }
}

/// The JSON object of a section, with those of the sections in it.
fn object_of(alloc: Global, section: &Section<'_>, inner: Vec<Value>) -> Result<Value, AllocError>
    ensures { IfOk result (IsObjectOf section.now (items_view inner.items)) }
{
    let name = Value::try_from_str(alloc, section.kind_name())?;
    let custom_name = name_value(alloc, section)?;
    let mut object = Map::new(alloc);
    put(&mut object, alloc, "number", Value::from(section.number))?;
    put(&mut object, alloc, "id", Value::from(section.id))?;
    put(&mut object, alloc, "name", name)?;
    put(&mut object, alloc, "place", Value::from(section.start))?;
    put(&mut object, alloc, "size", size_value(section.frame))?;
    put_some(&mut object, alloc, "rows", rows_value(section))?;
    put_some(&mut object, alloc, "custom_name", custom_name)?;
    put_some(&mut object, alloc, "sections", inner_value(section, inner))?;
    Ok(Value::Object(object))
}

/// Whether the first of some sections stands in one of this depth, or in the binary itself.
fn begins_within(sections: &[Section<'_>], holder: Option<usize>) -> bool
    ensures within { IsTrue result → (s : Section) × (behind : List Section) × (sections.now ≡ s ∷ behind) × IsWithin holder s }
    ensures past { IsFalse result → IsPast holder sections.now }
{
    match (sections.first(), holder) {
        (Some(first), Some(depth)) => depth < first.depth,
        (Some(_), None) => true,
        (None, _) => false,
    }
}

/// The objects of the sections at the front that stand in one of this depth, or in the binary itself, and how many sections these
/// are with those in them.
#[cycle(objects)]
fn objects_in(
    alloc: Global,
    sections: &[Section<'_>],
    holder: Option<usize>,
) -> Result<(Vec<Value>, usize), AllocError>
    ensures { IfOk result (λ r. AreHeld holder sections.now (items_view r.0.items) r.1) }
{
    let mut objects = Vec::new(alloc);
    let mut count = 0;
    'sections: while begins_within(&sections[count..], holder) {
        let section = &sections[count];
        let (inner, more) = objects_in(alloc, &sections[count + 1..], Some(section.depth))?;
        objects.push(object_of(alloc, section, inner)?)?;
        count += 1 + more;
    }
    Ok((objects, count))
}

/// The JSON text of some sections, each with those in it.
pub fn tree_of(alloc: Global, sections: &[Section<'_>]) -> Result<Vec<u8>, AllocError>
    ensures { IfOk result (λ text. IsTree sections.now text.items) }
{
    let (objects, _) = objects_in(alloc, sections, None)?;
    let mut tree = Map::new(alloc);
    put(&mut tree, alloc, "sections", Value::from(objects))?;
    let mut text = Value::Object(tree).to_vec(alloc)?;
    text.push(b'\n')?;
    Ok(text)
}
