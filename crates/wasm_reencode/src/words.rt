//! The words of the command line.
ghost use Rattle.std.specs.Prelude.{ℕ, ◌≡◌, IfNone, IfSome, codes, false, map, option_map};
ghost use Rattle.clap.specs.Matches.{first_value, found_of};
ghost use Rattle.reencode_run.specs.Words.{command_seen, is_word};
ghost use Rattle.wasm_reencode.specs.Arguments.{AsksBy, Drops, IsAsked, IsCustom, IsFlag, IsMost, NamesNone, argument, drops, is_command, named, renaming, texts};

use clap::{Arg, ArgAction, ArgMatches, Command, value_parser};
use reencode_run::transform::Request;
use reencode_run::words;
use std::alloc::{AllocError, Global};
use wasm_strip::Choice;

/// What the words ask for.
#[derive(Clone, Copy, Debug)]
pub struct Asked<'a> {
    /// What is to be done.
    pub request: Request<'a>,
    /// Whether the counts are told.
    pub counts: bool,
    /// Whether what goes wrong is told by the status alone.
    pub quiet: bool,
    /// Whether a binary is written to a terminal too.
    pub force: bool,
    /// Whether names that have no reading are left out of what is read.
    pub ignores_malformed: bool,
    /// Whether the names of what is made are put in order.
    pub sorts_names: bool,
    /// The name of the file that gets the line of the functions that are kept.
    pub kept: Option<&'a str>,
}

/// What is done with custom sections.
#[derive(Clone, Copy, Debug)]
pub struct Custom<'a> {
    /// Those that are removed, where some are.
    pub removed: Option<Choice<'a>>,
    /// Whether nothing is made where one would be stale.
    pub refuses: bool,
}

/// What is done with custom sections that go stale.
const STALE: &[&str] = &["keep", "drop", "refuse"];

/// What is done with names.
const NAMES: &[&str] = &["keep", "drop", "ignore-malformed", "sort"];

/// A file that has to be named.
fn needed<'a>(alloc: Global, id: &'a str, name: &'a str, help: &'a str) -> Arg<'a> {
    Arg::new(alloc, id)
        .required(true)
        .value_name(name)
        .help(help)
}

/// What each command takes.
fn with_quiet<'a>(alloc: Global, command: Command<'a>) -> Result<Command<'a>, AllocError> {
    let most = Arg::new(alloc, "max-input")
        .long("max-input")
        .value_name("N")
        .value_parser(value_parser!(u32))
        .help("The most bytes that the input, or the second module, may have");
    let quiet = Arg::new(alloc, "quiet")
        .short('q')
        .long("quiet")
        .action(ArgAction::SetTrue)
        .help("Tell what goes wrong by the status alone");
    command.arg(most)?.arg(quiet)
}

/// What each command that makes a binary takes beside its own.
fn with_output<'a>(alloc: Global, command: Command<'a>) -> Result<Command<'a>, AllocError> {
    let output = needed(
        alloc,
        "output",
        "OUT",
        "The new binary, or - for standard output",
    )
    .short('o')
    .long("output");
    let frame = Arg::new(alloc, "max-frame")
        .long("max-frame")
        .value_name("N")
        .value_parser(value_parser!(u32))
        .help("The most bytes that a section, a function or a name subsection may have");
    let force = Arg::new(alloc, "force")
        .long("force")
        .action(ArgAction::SetTrue)
        .help("Write a binary to a terminal too");
    with_quiet(alloc, command.arg(output)?.arg(frame)?.arg(force)?)
}

/// What is done with the custom sections of what a command makes.
fn with_custom<'a>(alloc: Global, command: Command<'a>) -> Result<Command<'a>, AllocError> {
    let stale = Arg::new(alloc, "stale")
        .long("stale")
        .value_name("WHAT")
        .value_parser(STALE)
        .help("What is done with sections that tell places in code");
    let names = Arg::new(alloc, "names")
        .long("names")
        .value_name("WHAT")
        .value_parser(NAMES)
        .help("What is done with names");
    command.arg(stale)?.arg(names)
}

/// A command that tells of a binary.
fn telling<'a>(alloc: Global, name: &'a str, about: &'a str) -> Result<Command<'a>, AllocError> {
    let input = needed(alloc, "input", "IN", "The binary, or - for standard input");
    with_quiet(alloc, Command::new(alloc, name).about(about).arg(input)?)
}

/// A command over one binary.
fn over_one<'a>(alloc: Global, name: &'a str, about: &'a str) -> Result<Command<'a>, AllocError> {
    let input = needed(alloc, "input", "IN", "The binary, or - for standard input");
    with_output(alloc, Command::new(alloc, name).about(about).arg(input)?)
}

/// A command over one binary whose custom sections stay, but where that is said.
fn made_of_one<'a>(
    alloc: Global,
    name: &'a str,
    about: &'a str,
) -> Result<Command<'a>, AllocError> {
    with_custom(alloc, over_one(alloc, name, about)?)
}

/// Whether the counts are told.
fn counts<'a>(alloc: Global) -> Arg<'a> {
    Arg::new(alloc, "counts")
        .long("counts")
        .action(ArgAction::SetTrue)
        .help("Say on standard error how often each kind of index was asked")
}

/// The command without a renaming.
fn plain<'a>(alloc: Global) -> Result<Command<'a>, AllocError> {
    made_of_one(
        alloc,
        "plain",
        "Writes a core module or a component in its normal spelling",
    )?
    .arg(counts(alloc))
}

/// The command with one renaming or two.
fn rename<'a>(alloc: Global) -> Result<Command<'a>, AllocError> {
    let map = needed(alloc, "map", "FILE", "The renaming, a JSON object").long("map");
    let then = Arg::new(alloc, "then")
        .long("then")
        .value_name("FILE")
        .help("A second renaming, of what comes of the first");
    let strict = flag(
        alloc,
        "strict",
        "Refuse an index without an entry, whatever the files say",
    );
    made_of_one(alloc, "rename", "Renames the indices as a file says")?
        .arg(map)?
        .arg(then)?
        .arg(strict)?
        .arg(counts(alloc))
}

/// The command that moves functions.
fn renumber<'a>(alloc: Global) -> Result<Command<'a>, AllocError> {
    let order = needed(
        alloc,
        "order",
        "FILE",
        "The new place of each function that the module defines, a JSON array",
    )
    .long("order");
    made_of_one(
        alloc,
        "renumber",
        "Moves the functions of a core module, and renames their uses",
    )?
    .arg(order)
}

/// The command that removes functions.
fn prune<'a>(alloc: Global) -> Result<Command<'a>, AllocError> {
    let kept = Arg::new(alloc, "kept").long("kept").value_name("FILE").help(
        "Gets a line of the functions that are kept, by their old indices",
    );
    made_of_one(
        alloc,
        "prune",
        "Removes the functions of a core module that nothing reaches",
    )?
    .arg(kept)
}

/// The command that makes one module of two.
fn merge<'a>(alloc: Global) -> Result<Command<'a>, AllocError> {
    let first = needed(
        alloc,
        "input",
        "FIRST",
        "The first module, or - for standard input",
    );
    let second = needed(alloc, "second", "SECOND", "The second module");
    let merge = Command::new(alloc, "merge")
        .about("Makes one core module of two")
        .arg(first)?
        .arg(second)?;
    with_custom(alloc, with_output(alloc, merge)?)
}

/// A flag of a command.
fn flag<'a>(alloc: Global, id: &'a str, help: &'a str) -> Arg<'a> {
    Arg::new(alloc, id)
        .long(id)
        .action(ArgAction::SetTrue)
        .help(help)
}

/// The command that removes custom sections.
fn strip<'a>(alloc: Global) -> Result<Command<'a>, AllocError> {
    let section = Arg::new(alloc, "section")
        .long("section")
        .value_name("NAME")
        .action(ArgAction::Append)
        .help("Remove the custom sections of this name");
    over_one(
        alloc,
        "strip",
        "Writes a binary in its normal spelling, without some custom sections",
    )?
    .arg(flag(alloc, "names", "Remove the names"))?
    .arg(flag(alloc, "debug", "Remove what a debugger reads"))?
    .arg(flag(alloc, "stale", "Remove what tells places in code"))?
    .arg(flag(alloc, "all", "Remove all custom sections"))?
    .arg(section)
}

/// The command that tells what stays as it is.
fn kept<'a>(alloc: Global) -> Result<Command<'a>, AllocError> {
    telling(
        alloc,
        "kept",
        "Tells which function bodies of a core module plain leaves as they are",
    )
}

/// The command that tells the sections.
fn list<'a>(alloc: Global) -> Result<Command<'a>, AllocError> {
    telling(
        alloc,
        "list",
        "Tells the sections: number, id, kind, place, size, rows or name",
    )?
    .arg(flag(alloc, "json", "Tell them as a JSON object"))?
    .arg(flag(
        alloc,
        "visits",
        "Tell in their place the indices of a core module: place of the row, section, space, index",
    ))
}

/// The program.
pub fn program<'a>(alloc: Global) -> Result<Command<'a>, AllocError> {
    Command::new(alloc, "wasm-reencode")
        .about("Re-encodes WebAssembly binaries")
        .version("0.1.0")
        .bin_name("wasm-reencode")?
        .subcommand_required(true)
        .arg_required_else_help(true)
        .subcommand(plain(alloc)?)?
        .subcommand(rename(alloc)?)?
        .subcommand(renumber(alloc)?)?
        .subcommand(prune(alloc)?)?
        .subcommand(merge(alloc)?)?
        .subcommand(strip(alloc)?)?
        .subcommand(kept(alloc)?)?
        .subcommand(list(alloc)?)
}

/// The text of an argument, or nothing.
fn text<'a>(matches: &ArgMatches<'a>, id: &str) -> &'a str
    ensures { result.now ≡ argument (found_of matches.now) id.now }
{
    match matches.get_str(id) {
        Some(text) => text,
        None => "",
    }
}

/// A renaming by one file or by two.
fn renaming<'a>(matches: &ArgMatches<'a>, strict: bool) -> words::Command<'a>
    ensures { (most : ℕ) → command_seen most result
        ≡ renaming strict (argument (found_of matches.now) (codes "map"))
        (first_value (found_of matches.now) (codes "then")) }
{
    match matches.get_str("then") {
        Some(second) => words::Command::Twice {
            first: text(matches, "map"),
            second,
            strict,
        },
        None => words::Command::Rename {
            file: text(matches, "map"),
            strict,
        },
    }
}

/// What a command of this name asks for by its arguments, with renamings that are strict whatever their files say, or not.
fn command_of<'a>(name: &str, matches: &ArgMatches<'a>, strict: bool) -> Option<words::Command<'a>>
    // However long the file of a module may be.
    ensures command { (most : ℕ) → option_map (command_seen most) result
        ≡ named most strict name.now (found_of matches.now) }
    ensures none { IfNone result (is_command name.now ≡ false) }
{
    if name == "plain" {
        return Some(words::Command::Plain);
    }
    if name == "rename" {
        return Some(renaming(matches, strict));
    }
    if name == "renumber" {
        return Some(words::Command::Renumber(text(matches, "order")));
    }
    if name == "prune" {
        return Some(words::Command::Prune);
    }
    if name == "merge" {
        return Some(words::Command::Merge(text(matches, "second")));
    }
    if name == "strip" {
        return Some(words::Command::Plain);
    }
    if name == "kept" {
        return Some(words::Command::KeepReport);
    }
    None
}

/// The number of an argument, or the greatest.
pub fn most_of(matches: &ArgMatches<'_>, id: &str) -> u32
    ensures { IsMost (found_of matches.now) id.now result }
{
    match matches.get_one::<u32>(id) {
        Some(number) => number,
        None => u32::MAX,
    }
}

/// What is asked for of a command.
fn request_of<'a>(command: words::Command<'a>, matches: &ArgMatches<'a>) -> Request<'a>
    ensures input { result.input.now ≡ argument (found_of matches.now) (codes "input") }
    ensures output { result.output.now ≡ argument (found_of matches.now) (codes "output") }
    ensures command { result.command ≡ command.entry }
    ensures most { IsMost (found_of matches.now) (codes "max-input") result.most }
    ensures ceiling { IsMost (found_of matches.now) (codes "max-frame") result.ceiling }
{
    Request {
        ceiling: most_of(matches, "max-frame"),
        most: most_of(matches, "max-input"),
        command,
        input: text(matches, "input"),
        output: text(matches, "output"),
    }
}

/// The names of the sections to be removed.
fn sections_of<'b>(matches: &'b ArgMatches<'_>) -> &'b [&'b str]
    ensures { map (λ name. name.now) result.now ≡ texts (found_of matches.now) (codes "section") }
{
    let none: &'b [&'b str] = &[];
    matches.get_strs("section").unwrap_or(none)
}

/// Which custom sections are to be removed of what is stripped.
fn choice_of<'b>(matches: &'b ArgMatches<'_>) -> Choice<'b>
    ensures names { IsFlag (found_of matches.now) (codes "names") result.names }
    ensures malformed { result.malformed ≡ false }
    ensures debug { IsFlag (found_of matches.now) (codes "debug") result.debug }
    ensures stale { IsFlag (found_of matches.now) (codes "stale") result.stale }
    ensures all { IsFlag (found_of matches.now) (codes "all") result.all }
    ensures sections { map (λ name. name.now) result.sections.now
        ≡ texts (found_of matches.now) (codes "section") }
{
    Choice {
        names: matches.get_flag("names"),
        malformed: false,
        debug: matches.get_flag("debug"),
        stale: matches.get_flag("stale"),
        all: matches.get_flag("all"),
        sections: sections_of(matches),
    }
}

/// What is done with the custom sections of what a command makes.
fn custom_by<'b>(matches: &'b ArgMatches<'_>) -> Custom<'b>
    ensures removed { IfSome result.removed (Drops (found_of matches.now)) }
    ensures kept { IfNone result.removed (drops (found_of matches.now) ≡ false) }
    ensures refuses { result.refuses ≡ is_word (argument (found_of matches.now) (codes "stale")) (codes "refuse") }
{
    let stale = text(matches, "stale");
    let drops_stale = stale == "drop";
    let drops_names = text(matches, "names") == "drop";
    let removed = if drops_stale || drops_names {
        Some(Choice {
            names: drops_names,
            malformed: false,
            debug: false,
            stale: drops_stale,
            all: false,
            sections: &[],
        })
    } else {
        None
    };
    Custom {
        removed,
        refuses: stale == "refuse",
    }
}

/// What is done with the custom sections of what a command of this name makes.
pub fn custom_of<'b>(name: &str, matches: &'b ArgMatches<'_>) -> Custom<'b>
    ensures { IsCustom name.now (found_of matches.now) result }
{
    if name == "strip" {
        return Custom {
            removed: Some(choice_of(matches)),
            refuses: false,
        };
    }
    custom_by(matches)
}

/// Whether names without a reading are left out of what is read.
fn ignores_malformed(matches: &ArgMatches<'_>) -> bool
    ensures { result ≡ is_word (argument (found_of matches.now) (codes "names")) (codes "ignore-malformed") }
{
    text(matches, "names") == "ignore-malformed"
}

/// Whether the names of what is made are put in order.
fn sorts_names(matches: &ArgMatches<'_>) -> bool
    ensures { result ≡ is_word (argument (found_of matches.now) (codes "names")) (codes "sort") }
{
    text(matches, "names") == "sort"
}

/// What the words ask for of a command of this name.
fn asked_by<'a>(name: &str, matches: &ArgMatches<'a>) -> Option<Asked<'a>>
    ensures some { IfSome result (AsksBy name.now (found_of matches.now)) }
    ensures none { IfNone result (is_command name.now ≡ false) }
{
    let command = command_of(name, matches, matches.get_flag("strict"))?;
    Some(Asked {
        request: request_of(command, matches),
        counts: matches.get_flag("counts"),
        quiet: matches.get_flag("quiet"),
        force: matches.get_flag("force"),
        ignores_malformed: ignores_malformed(matches),
        sorts_names: sorts_names(matches),
        kept: matches.get_str("kept"),
    })
}

/// What the words ask for.
pub fn asked_of<'a>(matches: &ArgMatches<'a>) -> Option<Asked<'a>>
    ensures some { IfSome result (IsAsked matches.now) }
    ensures none { IfNone result (NamesNone matches.now) }
{
    match matches.subcommand() {
        Some((name, matches)) => asked_by(name, matches),
        None => None,
    }
}
