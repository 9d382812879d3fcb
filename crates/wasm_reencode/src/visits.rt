//! The indices that a re-encoding asks for, as lines of text, or as JSON.
ghost use Rattle.std.specs.Prelude.{◌≡◌, ◌++◌, IfErr, IfOk, OnOk};
ghost use Rattle.serde_json.specs.View.{items_view, view};
ghost use Rattle.wasm_shapes.specs.SectionTable.{number};
ghost use Rattle.wasm_reencode.specs.Visits.{GivesVisits, IsUnlisted, IsVisitsJson, fault_of, visit_line, visit_lines, visit_object, visit_objects};

use crate::sections::core_name;
use reencode_hooks::Error;
use reencode_run::answer::ReencodingFault;
use serde_json::{Map, Value, put};
use std::alloc::{AllocError, Global};
use std::convert::Infallible;
use wasm_leb::ReadError;
use wasm_shapes::SectionId;
use wasm_visits::{PlacedVisit, visits_of};

/// The id of the sections of a kind.
fn id_of(section: SectionId) -> u8
    ensures { result ≡ number section }
{
    match section {
        SectionId::Custom => 0,
        SectionId::Type_ => 1,
        SectionId::Import => 2,
        SectionId::Function => 3,
        SectionId::Table => 4,
        SectionId::Memory => 5,
        SectionId::Global => 6,
        SectionId::Export => 7,
        SectionId::Start => 8,
        SectionId::Element => 9,
        SectionId::Code => 10,
        SectionId::Data => 11,
        SectionId::DataCount => 12,
        SectionId::Tag => 13,
    }
}

/// Adds the line of a visit.
fn add_visit(alloc: Global, text: &mut Vec<u8>, visit: &PlacedVisit) -> Result<(), AllocError>
    ensures { OnOk result (text.new.items ≡ text.old.items ++ visit_line visit.now) }
{
    let place = visit.place;
    let section = core_name(id_of(visit.section));
    let space = visit.space.name();
    let index = visit.index;
    let line = format!(in alloc; "{place:>10} {section:<13} {space:<10} {index:>10}\n")?;
    text.extend_from_slice(line.as_bytes())
}

/// The lines of some visits.
fn lines_of_visits(alloc: Global, visits: &[PlacedVisit]) -> Result<Vec<u8>, AllocError>
    ensures { IfOk result (λ text. text.items ≡ visit_lines visits.now) }
{
    let mut text = Vec::new(alloc);
    'visits: for visit in visits {
        add_visit(alloc, &mut text, visit)?;
    }
    Ok(text)
}

/// The JSON object of a visit.
fn object_of_visit(alloc: Global, visit: &PlacedVisit) -> Result<Value, AllocError>
    ensures { IfOk result (λ value. view value ≡ visit_object visit.now) }
{
    let section = Value::try_from_str(alloc, core_name(id_of(visit.section)))?;
    let space = Value::try_from_str(alloc, visit.space.name())?;
    let mut object = Map::new(alloc);
    put(&mut object, alloc, "place", Value::from(visit.place))?;
    put(&mut object, alloc, "section", section)?;
    put(&mut object, alloc, "space", space)?;
    put(&mut object, alloc, "index", Value::from(visit.index))?;
    Ok(Value::Object(object))
}

/// The JSON objects of some visits.
fn objects_of_visits(alloc: Global, visits: &[PlacedVisit]) -> Result<Vec<Value>, AllocError>
    ensures { IfOk result (λ values. items_view values.items ≡ visit_objects visits.now) }
{
    let mut objects = Vec::new(alloc);
    'visits: for visit in visits {
        objects.push(object_of_visit(alloc, visit)?)?;
    }
    Ok(objects)
}

/// The JSON text of some visits.
fn json_of_visits(alloc: Global, visits: &[PlacedVisit]) -> Result<Vec<u8>, AllocError>
    ensures { IfOk result (λ text. IsVisitsJson visits.now text.items) }
{
    let objects = objects_of_visits(alloc, visits)?;
    let mut all = Map::new(alloc);
    put(&mut all, alloc, "visits", Value::from(objects))?;
    let mut text = Value::Object(all).to_vec(alloc)?;
    text.push(b'\n')?;
    Ok(text)
}

/// Why bytes are no core module.
fn fault_of(e: Error<Infallible>) -> ReencodingFault
    ensures { result ≡ fault_of e }
{
    match e {
        Error::ParseError(ReadError { at }) => ReencodingFault::ParseError { at },
        Error::InvalidCodeSectionSize => ReencodingFault::CodeSectionSize,
        Error::UnexpectedNonCoreModuleSection => ReencodingFault::NonCoreModule,
        _ => ReencodingFault::NoMemory,
    }
}

/// What is told of the indices that a re-encoding of a core module asks for.
pub fn told_visits(alloc: Global, json: bool, bytes: &[u8]) -> Result<Vec<u8>, ReencodingFault>
    ensures ok { IfOk result (λ text. GivesVisits json bytes.now text.items) }
    ensures err { IfErr result (IsUnlisted bytes.now) }
{
    let visits = match visits_of(alloc, bytes) {
        Ok(visits) => visits,
        Err(e) => return Err(fault_of(e)),
    };
    let text = if json {
        json_of_visits(alloc, visits.as_slice())
    } else {
        lines_of_visits(alloc, visits.as_slice())
    };
    match text {
        Ok(text) => Ok(text),
        Err(_) => Err(ReencodingFault::NoMemory),
    }
}
