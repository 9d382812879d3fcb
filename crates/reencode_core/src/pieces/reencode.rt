//! The re-encoding of a core module into pieces.
ghost use Rattle.std.specs.Prelude.{◌≡◌, ◌++◌, ◌+◌, ◌-◌, ◌<◌, ◌≤◌, ◌^◌, List, ℕ, length, IfOk, IsTrue, Ok, OnOk, false};
ghost use Rattle.wasm_shapes.specs.declared.SectionId.TheVariants as kinds;
ghost use Rattle.wasm_shapes.specs.Tree.{normal, visits, Tree};
ghost use Rattle.wasm_shapes.specs.Types.{vector_tree};
ghost use Rattle.wasm_shapes.specs.Module.{code_row, core_module};
ghost use Rattle.wasm_shapes.specs.Spells.{Spells};
ghost use Rattle.wasm_read.specs.Reading.{place_of};
ghost use Rattle.wasm_write.specs.Sections.{AllFit, section_row};
ghost use Rattle.wasm_write.specs.Types.{custom_section_tree};
ghost use Rattle.reencode_hooks.specs.Hooks.{MayAdd, RepliesSection};
ghost use Rattle.reencode_hooks.specs.Run.{accepted, ask, run};
ghost use Rattle.reencode_core.specs.Bodies.{KeepsCode};
ghost use Rattle.reencode_core.specs.Clauses.{BodyClauses, BodyMapped, BytesClauses, CoreClauses, CustomClauses, SectionClauses, UnknownClauses};
ghost use Rattle.reencode_core.specs.Leaves.{LeavesMade, rows_in};
ghost use Rattle.reencode_core.specs.Rows.{GivesRows};
ghost use Rattle.reencode_core.specs.Sections.{AddsMapped};
ghost use Rattle.reencode_core.specs.Pieces.{Alternate, AreWithin, joined, kept_ranges, total};
ghost use Rattle.reencode_core.specs.Kept.{Kept};
ghost use Rattle.reencode_core.specs.Sinks.{GainsFrames, KeepsCodeSection, KeepsKind, KeepsRanges, KeepsRow, LeavesHook, RowsStand, StandsAt};

use crate::errors::placed;
use crate::pieces::code::CodePieces;
use crate::pieces::module::ModulePieces;
use crate::pieces::output::{KeptOutput, Output};
use crate::pieces::piece::Pieces;
use crate::reencode::Reencode;
use crate::sections::call_hook;
use crate::{direct, utils};
use reencode_hooks::Error;
use std::alloc::Global;
use wasm_leb::NoMemory;
use wasm_read as r;
use wasm_shapes::{SectionId, Visit};
use wasm_write as w;

/// Maps a function body into a section of its own, or says that it stays as it stands.
fn map_body<R: Reencode>(
    reencoder: &mut R,
    alloc: Global,
    own: &mut w::CodeSection,
    func: r::FunctionBody<'_>,
) -> Result<bool, Error<R::Error>>
    ensures { BodyMapped R.ReencodeIndices func.entry.bytes.now
        reencoder.old own.old reencoder.new own.new result }
{
    if R::DIRECT_BODIES {
        return direct::map_or_keep(reencoder, alloc, own, func);
    }
    match reencoder.parse_function_body(alloc, own, func) {
        Ok(()) => Ok(false),
        Err(e) => Err(e),
    }
}

/// Maps a function body and adds its row: it is kept where it stays as it stands. The memory of a section of its own is used again.
/// `more` says whether other ranges than function bodies may be kept.
fn add_body<R: Reencode>(
    reencoder: &mut R,
    alloc: Global,
    own: &mut w::CodeSection,
    code: &mut CodePieces<'_>,
    func: r::FunctionBody<'_>,
    end: usize,
    more: bool,
) -> Result<(), Error<R::Error>>
    requires stands { StandsAt code.old.input func.bytes.now end }
    requires same_ceiling { own.old.ceiling ≡ code.old.code.ceiling }
    requires small { code.old.code.ceiling < 2 ^ 32 }
    ensures own { own.new.ceiling ≡ own.old.ceiling }
    ensures body { BodyClauses R.ReencodeIndices func.entry.bytes.now
        reencoder.old code.old.code reencoder.new code.new.code result }
    ensures input { code.new.input ≡ code.old.input }
    ensures ranges { more ≡ false → IsTrue R.keeps_defaults
        → OnOk result (KeepsRow func.entry.bytes.now end code.old code.new) }
{
    let body = func.bytes;
    own.clear();
    let stays = match map_body(reencoder, alloc, own, func) {
        Ok(stays) => stays,
        Err(e) => return Err(e),
    };
    if stays {
        code.keep(body, end, more)?;
        return Ok(());
    }
    match code.add(own, body, end) {
        Ok(()) => Ok(()),
        Err(fault) => Err(Error::from(fault)),
    }
}

/// A place in an input, from one before it.
fn place_in(input: &[u8], start: usize, place: usize) -> usize
    requires { start + place ≤ length input.now }
    ensures { result ≡ start + place }
{
    start + place
}

/// Maps the bodies that the reader still has, and adds each once it is mapped. The body of the section begins at a place.
fn add_bodies<R: Reencode>(
    reencoder: &mut R,
    alloc: Global,
    code: &mut CodePieces<'_>,
    section: r::CodeSectionReader<'_>,
    input: &[u8],
    start: usize,
    more: bool,
) -> Result<(), Error<R::Error>>
    requires stands { RowsStand input.now start section }
    requires same { code.old.input ≡ input.now }
    ensures kept { KeepsCode code.old.code code.new.code }
    ensures default { IsTrue R.keeps_defaults → GivesRows (ask R.reply R.next) code.old.code.ceiling
        code_row section.entry (reencoder.old, code.old.code.rows)
        (reencoder.new, code.new.code.rows) result }
    ensures after_error { IsTrue R.keeps_defaults → LeavesMade R.sure (ask R.reply R.next) (rows_in code_row section.entry)
        reencoder.old reencoder.new result }
    ensures input { code.new.input ≡ code.old.input }
    ensures ranges { more ≡ false → IsTrue R.keeps_defaults → OnOk result
        (GainsFrames (start + place_of section.entry) section.entry.rest code.old code.new) }
{
    let mut rows = section;
    let mut own = w::CodeSection::new(alloc, code.ceiling());
    'rows: loop {
        let at = rows.place();
        match rows.next_row(alloc)? {
            Some(func) => {
                let end = place_in(input, start, rows.place());
                match add_body(reencoder, alloc, &mut own, code, func, end, more) {
                    Ok(()) => {}
                    Err(e) => return Err(placed(e, at)),
                }
            }
            None => return Ok(()),
        }
    }
}

/// Adds a code section whose bodies were mapped. Where they were refused, that is the answer.
fn add_mapped<E>(
    alloc: Global,
    sink: &mut ModulePieces<'_>,
    mapped: Result<(), Error<E>>,
    code: CodePieces<'_>,
) -> Result<(), Error<E>>
    requires { code.input ≡ sink.old.input }
    ensures adds { AddsMapped (section_row 10 (normal (vector_tree code.entry.code.rows)))
        sink.old.sections mapped sink.new.sections result }
    ensures kept { OnOk result (sink.new.kept ≡ sink.old.kept ++ code.entry.kept) }
    ensures input { sink.new.input ≡ sink.old.input }
{
    mapped?;
    sink.add_code(alloc, code)?;
    Ok(())
}

/// Maps a code section, body by body, and adds it. Its body begins at a place.
fn add_code_section<R: Reencode>(
    reencoder: &mut R,
    alloc: Global,
    sink: &mut ModulePieces<'_>,
    body: &[u8],
    start: usize,
    more: bool,
) -> Result<(), Error<R::Error>>
    requires { StandsAt sink.old.input body.now (start + length body.now) }
    ensures section { SectionClauses R.ReencodeIndices kinds.Code body.now
        reencoder.old sink.old.sections reencoder.new sink.new.sections result }
    ensures input { sink.new.input ≡ sink.old.input }
    ensures ranges { more ≡ false → IsTrue R.keeps_defaults
        → OnOk result (KeepsCodeSection (ask R.reply R.next) sink.old.sections.ceiling start body.now
        reencoder.old reencoder.new sink.old.kept sink.new.kept) }
{
    let section = r::CodeSectionReader::new(body)?;
    let input = sink.input();
    let mut code = sink.new_code(alloc, section.place(), body.len());
    let mapped = add_bodies(reencoder, alloc, &mut code, section, input, start, more);
    add_mapped(alloc, sink, mapped, code)
}

/// Maps a section of another kind, by the methods of that kind, into a module of its own, and adds it.
fn add_section<R: Reencode>(
    reencoder: &mut R,
    alloc: Global,
    sink: &mut ModulePieces<'_>,
    id: SectionId,
    body: &[u8],
) -> Result<(), Error<R::Error>>
    ensures section { SectionClauses R.ReencodeIndices id body.now
        reencoder.old sink.old.sections reencoder.new sink.new.sections result }
    ensures input { sink.new.input ≡ sink.old.input }
    ensures ranges { OnOk result (sink.new.kept ≡ sink.old.kept) }
{
    let Ok(mut own) = w::Module::new(alloc, sink.ceiling()) else {
        return Err(Error::NoMemory);
    };
    match utils::parse_section(reencoder, alloc, &mut own, id, body) {
        Ok(()) => {}
        Err(e) => return Err(e),
    }
    match sink.add(&own) {
        Ok(()) => Ok(()),
        Err(NoMemory) => Err(Error::NoMemory),
    }
}

/// Adds a custom section as it is. Its contents end at a place of the input, and are kept where other ranges than function bodies may be.
fn keep_custom<E>(
    alloc: Global,
    sink: &mut ModulePieces<'_>,
    section: r::CustomSection<'_>,
    end: usize,
    more: bool,
) -> Result<(), Error<E>>
    requires { StandsAt sink.old.input section.contents.now end }
    ensures adds { AddsMapped {E = E} (section_row 0 (normal (custom_section_tree section.entry)))
        sink.old.sections (Ok tt) sink.new.sections result }
    ensures input { sink.new.input ≡ sink.old.input }
    ensures ranges { more ≡ false → OnOk result (sink.new.kept ≡ sink.old.kept) }
{
    sink.keep_custom(alloc, section, end, more)?;
    Ok(())
}

/// Maps a custom section and adds it: as it is where it stays, and else by a module of its own. Its contents end at a place of the
/// input. Where other ranges than function bodies may be kept, those of a section that stays are.
fn add_custom<R: Reencode>(
    reencoder: &mut R,
    alloc: Global,
    sink: &mut ModulePieces<'_>,
    section: r::CustomSection<'_>,
    end: usize,
    more: bool,
) -> Result<(), Error<R::Error>>
    requires { StandsAt sink.old.input section.contents.now end }
    ensures section { CustomClauses R.ReencodeIndices section.entry.name.now section.entry.contents.now
        reencoder.old sink.old.sections reencoder.new sink.new.sections result }
    ensures input { sink.new.input ≡ sink.old.input }
    ensures ranges { more ≡ false → OnOk result (sink.new.kept ≡ sink.old.kept) }
{
    if R::DEFAULT_SECTIONS && section.name != "name" {
        return keep_custom(alloc, sink, section, end, more);
    }
    let Ok(mut own) = w::Module::new(alloc, sink.ceiling()) else {
        return Err(Error::NoMemory);
    };
    match reencoder.parse_custom_section(alloc, &mut own, section) {
        Ok(()) => {}
        Err(e) => return Err(e),
    }
    match sink.add(&own) {
        Ok(()) => Ok(()),
        Err(NoMemory) => Err(Error::NoMemory),
    }
}

/// Maps a section of an id that no kind has into a module of its own, and adds it.
fn add_unknown<R: Reencode>(
    reencoder: &mut R,
    alloc: Global,
    sink: &mut ModulePieces<'_>,
    id: u8,
    contents: &[u8],
) -> Result<(), Error<R::Error>>
    requires { id ≤ 127 }
    ensures section { UnknownClauses R.ReencodeIndices id contents.now
        reencoder.old sink.old.sections reencoder.new sink.new.sections result }
    ensures input { sink.new.input ≡ sink.old.input }
    ensures ranges { OnOk result (sink.new.kept ≡ sink.old.kept) }
{
    let Ok(mut own) = w::Module::new(alloc, sink.ceiling()) else {
        return Err(Error::NoMemory);
    };
    match reencoder.parse_unknown_section(&mut own, id, contents) {
        Ok(()) => {}
        Err(e) => return Err(e),
    }
    match sink.add(&own) {
        Ok(()) => Ok(()),
        Err(NoMemory) => Err(Error::NoMemory),
    }
}

/// Calls the section hook, or the closing hook, with a module of its own, and adds the sections that stand there then.
fn add_between<R: Reencode>(
    reencoder: &mut R,
    alloc: Global,
    sink: &mut ModulePieces<'_>,
    visit: Visit,
) -> Result<(), Error<R::Error>>
    requires { MayAdd visit }
    ensures answer { RepliesSection R.reply R.next R.adds reencoder.old reencoder.new
        sink.old.sections sink.new.sections visit result }
    ensures leaves { LeavesHook R.sure R.adds_nothing (ask R.reply R.next) reencoder.old reencoder.new
        visit result }
    ensures fits { OnOk result
        (AllFit sink.old.sections.ceiling (R.adds reencoder.old visit)) }
    ensures input { sink.new.input ≡ sink.old.input }
    ensures ranges { OnOk result (sink.new.kept ≡ sink.old.kept) }
{
    let Ok(mut own) = w::Module::new(alloc, sink.ceiling()) else {
        return Err(Error::NoMemory);
    };
    match call_hook(reencoder, &mut own, visit) {
        Ok(()) => {}
        Err(e) => return Err(e),
    }
    if own.len() == 0 {
        return Ok(());
    }
    match sink.add(&own) {
        Ok(()) => Ok(()),
        Err(NoMemory) => Err(Error::NoMemory),
    }
}

/// Maps a section of a kind and adds it. Its body begins at a place.
fn add_kind<R: Reencode>(
    reencoder: &mut R,
    alloc: Global,
    sink: &mut ModulePieces<'_>,
    id: SectionId,
    body: &[u8],
    start: usize,
    more: bool,
) -> Result<(), Error<R::Error>>
    requires { StandsAt sink.old.input body.now (start + length body.now) }
    ensures section { SectionClauses R.ReencodeIndices id body.now
        reencoder.old sink.old.sections reencoder.new sink.new.sections result }
    ensures input { sink.new.input ≡ sink.old.input }
    ensures ranges { more ≡ false → IsTrue R.keeps_defaults
        → OnOk result (KeepsKind (ask R.reply R.next) sink.old.sections.ceiling id start body.now
        reencoder.old reencoder.new sink.old.kept sink.new.kept) }
{
    match id {
        SectionId::Code => add_code_section(reencoder, alloc, sink, body, start, more),
        _ => add_section(reencoder, alloc, sink, id, body),
    }
}

/// Reads a module and adds what its sections become. The section hook is called before each section of the ids 1 to 13 and at the
/// end, and the closing hook behind each of these, once it was added. `more` says whether other ranges than function bodies may be kept.
fn walk<R: Reencode>(
    reencoder: &mut R,
    alloc: Global,
    sink: &mut ModulePieces<'_>,
    bytes: &[u8],
    more: bool,
) -> Result<(), Error<R::Error>>
    requires { sink.old.input ≡ bytes.now }
    ensures core { CoreClauses R.ReencodeIndices bytes.now
        reencoder.old sink.old.sections reencoder.new sink.new.sections result }
    ensures input { sink.new.input ≡ sink.old.input }
    ensures ranges { more ≡ false → IsTrue R.keeps_defaults → OnOk result (KeepsRanges (ask R.reply R.next)
        sink.old.sections.ceiling bytes.now reencoder.old reencoder.new sink.old.kept sink.new.kept) }
{
    let mut payloads = r::Payloads::new(bytes)?;
    let mut last = None;
    'sections: loop {
        match payloads.next()? {
            Some(r::Payload::Section { id, at, body }) => {
                add_between(reencoder, alloc, sink, Visit::Section(last, Some(id)))?;
                let start = payloads.place().saturating_sub(body.len());
                match add_kind(reencoder, alloc, sink, id, body, start, more) {
                    Ok(()) => {
                        add_between(reencoder, alloc, sink, Visit::Closed(id))?;
                        last = Some(id);
                    }
                    Err(e) => return Err(placed(e, at)),
                }
            }
            Some(r::Payload::Custom { at, section }) => {
                let end = payloads.place();
                match add_custom(reencoder, alloc, sink, section, end, more) {
                    Ok(()) => {}
                    Err(e) => return Err(placed(e, at)),
                }
            }
            Some(r::Payload::Unknown { at, id, contents }) => {
                match add_unknown(reencoder, alloc, sink, id, contents) {
                    Ok(()) => {}
                    Err(e) => return Err(placed(e, at)),
                }
            }
            None => return add_between(reencoder, alloc, sink, Visit::Section(last, None)),
        }
    }
}

/// Re-encodes a core module, and answers its output in pieces: the function bodies that stay as they stand are kept ranges of the
/// input.
pub fn reencode_pieces<R: Reencode>(
    alloc: Global,
    r: &mut R,
    bytes: &[u8],
    ceiling: u32,
) -> Result<Pieces, Error<R::Error>>
    ensures bytes { BytesClauses R.ReencodeIndices ceiling bytes.now r.old r.new result (joined bytes.now) }
    ensures within { IfOk result (AreWithin (length bytes.now)) }
    ensures alternate { IfOk result Alternate }
    ensures size { IfOk result (λ pieces. total pieces ≡ length (joined bytes.now pieces)) }
    ensures kept { IsTrue R.keeps_defaults → IfOk result (λ pieces. (t : Tree)
        → Spells core_module bytes.now t → (given : List ℕ)
        × (run (ask R.reply R.next) r.old (visits t) ≡ accepted given r.new)
        × Kept bytes.now t given (kept_ranges pieces)) }
{
    let mut sink = ModulePieces::new(alloc, bytes, ceiling)?;
    match walk(r, alloc, &mut sink, bytes, false) {
        Ok(()) => Ok(sink.finish(alloc)?),
        Err(e) => Err(e),
    }
}

/// Re-encodes a core module as `reencode_core` does, and answers an output that is not yet in one place, with the ranges of the input
/// that the function bodies have which stay as they stand. These are copied where the output is wanted in one place, and not before.
pub fn reencode_kept<'a, R: Reencode>(
    alloc: Global,
    r: &mut R,
    bytes: &'a [u8],
    ceiling: u32,
) -> Result<KeptOutput<'a>, Error<R::Error>>
    ensures bytes { BytesClauses R.ReencodeIndices ceiling bytes.now r.old r.new result (λ o. o.bytes) }
    ensures input { IfOk result (λ o. o.input ≡ bytes.now) }
    ensures kept { IsTrue R.keeps_defaults → IfOk result (λ o. (t : Tree)
        → Spells core_module bytes.now t → (given : List ℕ)
        × (run (ask R.reply R.next) r.old (visits t) ≡ accepted given r.new)
        × Kept bytes.now t given o.kept) }
{
    let mut sink = ModulePieces::new(alloc, bytes, ceiling)?;
    walk(r, alloc, &mut sink, bytes, false)?;
    Ok(sink.into_kept())
}

/// Re-encodes a core module as `reencode_core` does, and answers an output that is not yet in one place: a function body that stays
/// as it stands is copied once, when and where the output is wanted.
pub fn reencode_output<'a, R: Reencode>(
    alloc: Global,
    r: &mut R,
    bytes: &'a [u8],
    ceiling: u32,
) -> Result<Output<'a>, Error<R::Error>>
    ensures { BytesClauses R.ReencodeIndices ceiling bytes.now r.old r.new result (λ o. o) }
{
    let mut sink = ModulePieces::new(alloc, bytes, ceiling)?;
    walk(r, alloc, &mut sink, bytes, true)?;
    Ok(sink.into_output())
}

/// Re-encodes a core module as `reencode_core` does, by way of pieces: a function body that stays as it stands is copied once, from
/// the input to where it stands in the end.
pub fn reencode_joined<R: Reencode>(
    alloc: Global,
    r: &mut R,
    bytes: &[u8],
    ceiling: u32,
) -> Result<Vec<u8>, Error<R::Error>>
    ensures { BytesClauses R.ReencodeIndices ceiling bytes.now r.old r.new result (λ v. v.items) }
{
    let mut sink = ModulePieces::new(alloc, bytes, ceiling)?;
    walk(r, alloc, &mut sink, bytes, true)?;
    Ok(sink.into_output().into_vec()?)
}
