//! Re-encodes WebAssembly binaries, from file to file.
#![tactic(auto)]

mod explain;
mod files;
mod json;
mod listing;
mod outline;
mod sections;
mod stale;
mod stripped;
mod visits;
mod words;

use crate::explain::{add_json_place, add_place};
use crate::files::{
    Held, Input, Output, Place, Staged, Target, code_looked_at, fill, looked_at, place_of,
    write_whole,
};
use crate::listing::{lines_of, tree_of};
use crate::sections::{Section, sections_of};
use crate::stale::{has_code_of, stale_of};
use crate::stripped::{Ended, read_sound, transform_stripped};
use crate::visits::told_visits;
use crate::words::{Asked, Custom, asked_of, custom_of, most_of, program};
use clap::ArgMatches;
use clap::error::ErrorKind;
use reencode_run::answer::{
    Answer, FileFault, ReencodingFault, TaskFault, WordsFault, WritingFault,
};
use reencode_run::input::read_all;
use reencode_run::outside::{Shelf, ShelfFault, Sink, Source};
use reencode_run::standard::{FileShelf, StdSink, StdSource};
use reencode_run::sure_memory::{SureShelf, SureSource};
use reencode_run::transform::{say_of, transform};
use reencode_run::words::Command;
use std::alloc::{AllocError, Global};
use std::io::{ErrorKind as IoKind, Write};
use std::process::ExitCode;
use std::{env, io};
use wasm_leb::{List, NoMemory};
use wasm_strip::{Choice, Nothing, StripFault, without_malformed};

/// The most bytes that one read of bytes in memory gives.
const PIECE: usize = 65_536;

/// The status where a section would go stale.
const REFUSED: u8 = 6;

/// The words of the command line, the program's name first.
fn given_words(rt: &HostRuntime) -> io::Result<Vec<String>> {
    let mut words = Vec::new(rt.alloc());
    for word in env::args(rt)? {
        if words.push(word).is_err() {
            return Err(io::Error::from(io::ErrorKind::OutOfMemory));
        }
    }
    Ok(words)
}

/// Says how the program ends behind the name of a file, and answers the status.
fn end_of(rt: &HostRuntime, quiet: bool, name: &str, answer: &Answer) -> u8 {
    if !quiet {
        let _ = say_of(name.as_bytes(), answer, &mut StdSink::new(rt.stderr()));
    }
    answer.status()
}

/// Says that a file could not be written, and answers the status.
fn unwritten(rt: &HostRuntime, quiet: bool, name: &str) -> u8 {
    let answer = Answer::Writing(WritingFault::Failed);
    end_of(rt, quiet, name, &answer)
}

/// The status where a text could not be written. Where the reader of a pipe was gone, nothing is said.
fn failed(rt: &HostRuntime, quiet: bool, name: &str, e: &io::Error) -> u8 {
    let is_gone = e.kind() == io::ErrorKind::BrokenPipe;
    unwritten(rt, quiet || is_gone, name)
}

/// The file that a line about a binary begins with: of two modules the second where the line says so.
fn binary_of<'a>(asked: &Asked<'a>, line: &[u8]) -> &'a str {
    match asked.request.command {
        Command::Merge(second) if line.ends_with(b" by 2\n") => second,
        _ => asked.request.input,
    }
}

/// The file that a line about a JSON text begins with.
fn json_of<'a>(asked: &Asked<'a>, line: &[u8]) -> &'a str {
    match asked.request.command {
        Command::Rename { file, .. } => file,
        Command::Renumber(order) => order,
        Command::Twice { first, second, .. } => {
            if line.starts_with(second.as_bytes()) && !line.starts_with(first.as_bytes()) {
                second
            } else {
                first
            }
        }
        _ => "",
    }
}

/// The bytes of a binary as they are read.
fn read_as(alloc: Global, asked: &Asked<'_>, bytes: Vec<u8>) -> Result<Vec<u8>, NoMemory> {
    if asked.ignores_malformed {
        without_malformed(alloc, bytes)
    } else {
        Ok(bytes)
    }
}

/// Adds to the line of a status what stands in the file that it is said of, where the file can be read once more.
fn add_detail(
    rt: &HostRuntime,
    asked: &Asked<'_>,
    status: u8,
    line: &mut Vec<u8>,
) -> Result<(), AllocError> {
    if status == 5 || status == 7 {
        let name = binary_of(asked, line.as_slice());
        if let Some(bytes) = looked_at(rt, name) {
            return match read_as(rt.alloc(), asked, bytes) {
                Ok(bytes) => add_place(line, name, bytes.as_slice()),
                Err(NoMemory) => Err(AllocError),
            };
        }
    }
    if status == 11 {
        if let Some(text) = looked_at(rt, json_of(asked, line.as_slice())) {
            let is_order = matches!(asked.request.command, Command::Renumber(_));
            return add_json_place(rt.alloc(), line, text.as_slice(), is_order);
        }
    }
    Ok(())
}

/// Says the line of a status, with what stands in the file that it is said of.
fn say_why(rt: &HostRuntime, asked: &Asked<'_>, status: u8, mut line: Vec<u8>) {
    let _ = add_detail(rt, asked, status, &mut line);
    let _ = rt.stderr().write_all(line.as_slice());
}

/// Says why nothing was made, or not all of it written, and answers the status.
fn ended(
    rt: &HostRuntime,
    asked: &Asked<'_>,
    ended: Ended,
    why: Option<IoKind>,
    line: Vec<u8>,
) -> u8 {
    match why {
        Some(IoKind::BrokenPipe) => return Answer::Writing(WritingFault::Failed).status(),
        Some(IoKind::OutOfMemory) => return no_memory(rt),
        _ => {}
    }
    match ended {
        Ended::Command(status) => {
            if !asked.quiet {
                say_why(rt, asked, status, line);
            }
            status
        }
        Ended::Strip(fault) => unstripped(rt, asked, fault),
        Ended::Sink => unwritten(rt, asked.quiet, asked.request.output),
    }
}

/// Does what is asked for with the bytes of a source. The lines about the output come back.
fn made_of<F: Shelf, S: Source, K: Sink, D: Sink>(
    alloc: Global,
    asked: &Asked<'_>,
    removed: Option<Choice<'_>>,
    shelf: &mut F,
    input: &mut S,
    out: &mut K,
    err: &mut D,
) -> Result<Vec<u8>, Ended>
    requires { S.can_read input.old }
{
    let request = asked.request;
    let sorts = asked.sorts_names;
    match removed {
        Some(choice) => transform_stripped(alloc, request, &choice, sorts, shelf, input, out, err),
        None if sorts => transform_stripped(
            alloc, request, &Nothing, sorts, shelf, input, out, err,
        ),
        None => match transform(alloc, request, shelf, input, out, err) {
            Ok(lines) => Ok(lines),
            Err(status) => Err(Ended::Command(status)),
        },
    }
}

/// A shelf with the second module, without its malformed names, where one is asked for and can be read.
fn second_sound<F: Shelf>(
    alloc: Global,
    asked: &Asked<'_>,
    shelf: &mut F,
) -> Result<Option<SureShelf>, NoMemory> {
    let Command::Merge(name) = asked.request.command else {
        return Ok(None);
    };
    let second = match shelf.fetch(alloc, name, asked.request.most) {
        Ok(second) => without_malformed(alloc, second)?,
        Err(ShelfFault::NoMemory) => return Err(NoMemory),
        Err(_) => return Ok(None),
    };
    let mut sound = SureShelf::new(alloc);
    sound.put(name, second.as_slice())?;
    Ok(Some(sound))
}

/// The same as `made_of`, with the bytes of the binaries that are read without their malformed names. Where the second module
/// cannot be read, the command says so.
fn made_of_sound<F: Shelf, S: Source, K: Sink, D: Sink>(
    alloc: Global,
    asked: &Asked<'_>,
    removed: Option<Choice<'_>>,
    shelf: &mut F,
    input: &mut S,
    out: &mut K,
    err: &mut D,
) -> Result<Vec<u8>, Ended>
    requires { S.can_read input.old }
{
    let bytes = match read_sound(alloc, input, asked.request.most) {
        Ok(bytes) => bytes,
        Err(fault) => {
            let answer = Answer::Input(fault);
            let _ = say_of(asked.request.input.as_bytes(), &answer, err);
            return Err(Ended::Command(answer.status()));
        }
    };
    let mut sound = SureSource::new(List::from_vec(bytes), PIECE);
    match second_sound(alloc, asked, shelf) {
        Ok(Some(mut second)) => made_of(alloc, asked, removed, &mut second, &mut sound, out, err),
        Ok(None) => made_of(alloc, asked, removed, shelf, &mut sound, out, err),
        Err(NoMemory) => {
            let answer = Answer::File(FileFault::NoMemory, 0);
            let name = binary_of(asked, b" by 2\n");
            let _ = say_of(name.as_bytes(), &answer, err);
            Err(Ended::Command(answer.status()))
        }
    }
}

/// Does what is asked for between a source and a target. The lines about the output come back, or the status.
fn transformed(
    rt: &HostRuntime,
    asked: &Asked<'_>,
    removed: Option<Choice<'_>>,
    target: Target<'_>,
) -> Result<Vec<u8>, u8> {
    let mut why = None;
    let mut line = Vec::new(rt.alloc());
    let mut shelf = FileShelf::new(rt);
    let mut input = StdSource::new(Input::of(rt, asked.request.input));
    let mut out = StdSink::new(Output::new(target, &mut why));
    let mut err = StdSink::new(Held::new(&mut line));
    let made = if asked.ignores_malformed {
        made_of_sound(
            rt.alloc(),
            asked,
            removed,
            &mut shelf,
            &mut input,
            &mut out,
            &mut err,
        )
    } else {
        made_of(
            rt.alloc(),
            asked,
            removed,
            &mut shelf,
            &mut input,
            &mut out,
            &mut err,
        )
    };
    drop(out);
    drop(err);
    match made {
        Ok(lines) => Ok(lines),
        Err(e) => Err(ended(rt, asked, e, why, line)),
    }
}

/// Writes the lines about an output where they are asked for, and answers the status.
fn write_lines(rt: &HostRuntime, asked: &Asked<'_>, lines: &[u8]) -> u8 {
    if asked.counts {
        let _ = rt.stderr().write_all(lines);
    }
    match asked.kept {
        Some(name) => match write_whole(rt, name, lines) {
            Ok(()) => 0,
            Err(e) => failed(rt, asked.quiet, name, &e),
        },
        None => 0,
    }
}

/// Whether the code of an output is not that of the input. Of one that cannot be looked at, and of two modules, it counts as moved.
fn is_moved(
    rt: &HostRuntime,
    asked: &Asked<'_>,
    sections: &[Section<'_>],
) -> Result<bool, AllocError> {
    if matches!(asked.request.command, Command::Merge(_)) {
        return Ok(true);
    }
    match code_looked_at(rt, asked.request.input) {
        Some(input) => Ok(!has_code_of(rt.alloc(), sections, input.as_slice())?),
        None => Ok(true),
    }
}

/// The names of the sections of an output that went stale, if some did.
fn gone_stale(
    rt: &HostRuntime,
    asked: &Asked<'_>,
    output: &[u8],
) -> Result<Option<String>, AllocError> {
    let Some(sections) = sections_of(rt.alloc(), output)? else {
        return Ok(None);
    };
    let Some(names) = stale_of(rt.alloc(), sections.as_slice())? else {
        return Ok(None);
    };
    if is_moved(rt, asked, sections.as_slice())? {
        Ok(Some(names))
    } else {
        Ok(None)
    }
}

/// Says which sections of an output went stale, if some did, and answers the status.
fn tell_stale(rt: &HostRuntime, asked: &Asked<'_>, refuses: bool, output: &[u8]) -> u8 {
    let name = asked.request.output;
    match gone_stale(rt, asked, output) {
        Ok(None) => 0,
        Ok(Some(names)) => {
            let names = names.as_str();
            if refuses {
                if !asked.quiet {
                    let _ = eprintln!(rt;
                        "{name}: refused: {names} would be copied, and code moved"
                    );
                }
                REFUSED
            } else {
                let _ = eprintln!(rt; "{name}: warning: {names} were copied, and code moved");
                0
            }
        }
        Err(_) if refuses => no_memory(rt),
        Err(_) => 0,
    }
}

/// Does what is asked for with an output that is written into, and answers the status.
fn run_into(rt: &HostRuntime, asked: &Asked<'_>, custom: &Custom<'_>, target: Target<'_>) -> u8 {
    match transformed(rt, asked, custom.removed, target) {
        Ok(lines) => write_lines(rt, asked, lines.as_slice()),
        Err(status) => status,
    }
}

/// Does what is asked for with an output that is written once it is known that no section went stale, and answers the status.
fn run_held(rt: &HostRuntime, asked: &Asked<'_>, custom: &Custom<'_>, place: Place) -> u8 {
    let mut bytes = Vec::new(rt.alloc());
    let made = transformed(
        rt,
        asked,
        custom.removed,
        Target::Memory(Held::new(&mut bytes)),
    );
    let lines = match made {
        Ok(lines) => lines,
        Err(status) => return status,
    };
    let status = tell_stale(rt, asked, true, bytes.as_slice());
    if status != 0 {
        return status;
    }
    match fill(rt, place, bytes.as_slice()) {
        Ok(()) => write_lines(rt, asked, lines.as_slice()),
        Err(e) => failed(rt, asked.quiet, asked.request.output, &e),
    }
}

/// Whether it is sure that no section of a binary can go stale.
fn stays_fresh(rt: &HostRuntime, bytes: &[u8]) -> bool {
    match sections_of(rt.alloc(), bytes) {
        Ok(Some(sections)) => matches!(stale_of(rt.alloc(), sections.as_slice()), Ok(None)),
        _ => false,
    }
}

/// Looks at what was written to a file that has not its name yet, and answers the status. All of it is read only where it is no core
/// module.
fn looked_over(rt: &HostRuntime, asked: &Asked<'_>, refuses: bool, staged: &Staged) -> u8 {
    if asked.quiet && !refuses {
        return 0;
    }
    if let Some(names) = staged.outline(rt, false) {
        if stays_fresh(rt, names.as_slice()) {
            return 0;
        }
    }
    let written = match staged.outline(rt, true) {
        Some(bytes) => Ok(bytes),
        None => staged.written(rt),
    };
    match written {
        Ok(bytes) => tell_stale(rt, asked, refuses, bytes.as_slice()),
        Err(_) if refuses => unwritten(rt, asked.quiet, asked.request.output),
        Err(_) => 0,
    }
}

/// Writes what is asked for to a file that has not its name yet, and answers the status.
fn stage(rt: &HostRuntime, asked: &Asked<'_>, custom: &Custom<'_>, staged: &Staged) -> u8 {
    match transformed(rt, asked, custom.removed, Target::File(staged.file())) {
        Ok(lines) => match looked_over(rt, asked, custom.refuses, staged) {
            0 => write_lines(rt, asked, lines.as_slice()),
            status => status,
        },
        Err(status) => status,
    }
}

/// Does what is asked for with a file that gets its name once all is written, and answers the status.
fn run_staged(rt: &HostRuntime, asked: &Asked<'_>, custom: &Custom<'_>, staged: Staged) -> u8 {
    let status = stage(rt, asked, custom, &staged);
    if status != 0 {
        staged.give_up(rt);
        return status;
    }
    match staged.finish(rt) {
        Ok(()) => 0,
        Err(_) => unwritten(rt, asked.quiet, asked.request.output),
    }
}

/// Says that a terminal would show a binary, and answers the status.
fn refused_terminal(rt: &HostRuntime, asked: &Asked<'_>) -> u8 {
    if !asked.quiet {
        let name = asked.request.output;
        let _ = eprintln!(rt; "{name}: a terminal; --force writes a binary to it");
    }
    Answer::Words(WordsFault::NotAccepted).status()
}

/// Does what is asked for with an output in its place, and answers the status.
fn run_at(rt: &HostRuntime, asked: &Asked<'_>, custom: &Custom<'_>, place: Place) -> u8 {
    if !asked.force && place.is_terminal(rt) {
        return refused_terminal(rt, asked);
    }
    match place {
        Place::Staged(staged) => run_staged(rt, asked, custom, staged),
        place if custom.refuses => run_held(rt, asked, custom, place),
        Place::Standard => run_into(rt, asked, custom, Target::Standard(rt.stdout())),
        Place::Direct(file) => run_into(rt, asked, custom, Target::File(&file)),
    }
}

/// The lines but the last.
fn without_last(lines: &[u8]) -> &[u8] {
    let mut end = 0;
    'bytes: for i in 0..lines.len() {
        if lines[i] == b'\n' && i + 1 < lines.len() {
            end = i + 1;
        }
    }
    match lines.get(..end) {
        Some(front) => front,
        None => lines,
    }
}

/// Writes lines to the standard output, and answers the status.
fn print_lines(rt: &HostRuntime, quiet: bool, lines: &[u8]) -> u8 {
    match write_whole(rt, "-", lines) {
        Ok(()) => 0,
        Err(e) => failed(rt, quiet, "-", &e),
    }
}

/// Tells what stays as it is, and answers the status.
fn run_kept(rt: &HostRuntime, asked: &Asked<'_>) -> u8 {
    match transformed(rt, asked, None, Target::Standard(rt.stdout())) {
        Ok(lines) => print_lines(rt, asked.quiet, without_last(lines.as_slice())),
        Err(status) => status,
    }
}

/// Says why nothing is removed of the bytes of an output, and answers the status.
fn unstripped(rt: &HostRuntime, asked: &Asked<'_>, fault: StripFault) -> u8 {
    match fault {
        StripFault::NoMemory => no_memory(rt),
        StripFault::Read { at } | StripFault::TooDeep { at } => {
            let answer = Answer::Reencoding(TaskFault {
                fault: ReencodingFault::ParseError { at },
                by: None,
            });
            end_of(rt, asked.quiet, asked.request.input, &answer)
        }
    }
}

/// Does what is asked for, and answers the status.
fn run_asked(rt: &HostRuntime, asked: &Asked<'_>, custom: &Custom<'_>) -> u8 {
    match asked.request.command {
        Command::KeepReport => run_kept(rt, asked),
        _ => match place_of(rt, asked.request.output) {
            Ok(place) => run_at(rt, asked, custom, place),
            Err(_) => unwritten(rt, asked.quiet, asked.request.output),
        },
    }
}

/// Says why nothing is told of some bytes, and answers the status.
fn untold(rt: &HostRuntime, quiet: bool, name: &str, bytes: &[u8], fault: ReencodingFault) -> u8 {
    let answer = Answer::Reencoding(TaskFault { fault, by: None });
    let status = answer.status();
    if !quiet {
        let mut line = Vec::new(rt.alloc());
        let _ = say_of(
            name.as_bytes(),
            &answer,
            &mut StdSink::new(Held::new(&mut line)),
        );
        if status == 5 || status == 7 {
            let _ = add_place(&mut line, name, bytes);
        }
        let _ = rt.stderr().write_all(line.as_slice());
    }
    status
}

/// What is told of the sections of some bytes.
fn told_sections(alloc: Global, json: bool, bytes: &[u8]) -> Result<Vec<u8>, ReencodingFault> {
    let text = match sections_of(alloc, bytes) {
        Ok(Some(all)) if json => tree_of(alloc, all.as_slice()),
        Ok(Some(all)) => lines_of(alloc, all.as_slice()),
        Ok(None) => return Err(ReencodingFault::ParseError { at: 0 }),
        Err(e) => Err(e),
    };
    match text {
        Ok(text) => Ok(text),
        Err(_) => Err(ReencodingFault::NoMemory),
    }
}

/// Tells the sections of some bytes, or their visits, and answers the status.
fn list_bytes(rt: &HostRuntime, matches: &ArgMatches<'_>, name: &str, bytes: &[u8]) -> u8 {
    let quiet = matches.get_flag("quiet");
    let json = matches.get_flag("json");
    let told = if matches.get_flag("visits") {
        told_visits(rt.alloc(), json, bytes)
    } else {
        told_sections(rt.alloc(), json, bytes)
    };
    match told {
        Ok(text) => print_lines(rt, quiet, text.as_slice()),
        Err(ReencodingFault::NoMemory) => no_memory(rt),
        Err(fault) => untold(rt, quiet, name, bytes, fault),
    }
}

/// Tells the sections of a file, and answers the status.
fn run_list(rt: &HostRuntime, matches: &ArgMatches<'_>) -> u8 {
    let name = matches.get_str("input").unwrap_or("");
    let quiet = matches.get_flag("quiet");
    let most = most_of(matches, "max-input");
    let mut source = StdSource::new(Input::of(rt, name));
    match read_all(rt.alloc(), &mut source, most) {
        Ok(bytes) => list_bytes(rt, matches, name, bytes.as_slice()),
        Err(fault) => end_of(rt, quiet, name, &Answer::Input(fault)),
    }
}

/// Says that memory ran out before any file was looked at, and answers the status.
fn no_memory(rt: &HostRuntime) -> u8 {
    let answer = Answer::Words(WordsFault::NoMemory);
    let _ = answer.say(&mut StdSink::new(rt.stderr()));
    answer.status()
}

/// Says that the words are no text, and answers the status.
fn not_taken(rt: &HostRuntime) -> u8 {
    let _ = eprintln!(rt; "wasm-reencode: words that are no text in UTF-8");
    Answer::Words(WordsFault::NotAccepted).status()
}

/// Does what the matches ask for, and answers the status.
fn run_matches(rt: &HostRuntime, matches: &ArgMatches<'_>) -> u8 {
    if let Some(list) = matches.subcommand_matches("list") {
        return run_list(rt, list);
    }
    match (asked_of(matches), matches.subcommand()) {
        (Some(asked), Some((name, matches))) => run_asked(rt, &asked, &custom_of(name, matches)),
        _ => not_taken(rt),
    }
}

/// Does what the words ask for, and answers the status.
fn run_words(rt: &HostRuntime, words: &[String]) -> u8 {
    let Ok(program) = program(rt.alloc()) else {
        return no_memory(rt);
    };
    match program.try_get_matches_from(words) {
        Ok(matches) => run_matches(rt, &matches),
        Err(e) if e.kind() == ErrorKind::OutOfMemory => no_memory(rt),
        Err(e) => {
            let _ = e.print(rt);
            if e.use_stderr() { 2 } else { 0 }
        }
    }
}

fn main(rt: HostRuntime) -> ExitCode {
    let status = match given_words(&rt) {
        Ok(words) => run_words(&rt, words.as_slice()),
        Err(e) => match e.kind() {
            io::ErrorKind::OutOfMemory => no_memory(&rt),
            _ => not_taken(&rt),
        },
    };
    ExitCode::from(status)
}
