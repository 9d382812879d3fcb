//! The words of the command line.
ghost use Rattle.std.specs.Prelude.{◌≡◌, ℕ, map, option_map, string_bytes};
ghost use Rattle.reencode_run.specs.Words.{command, command_seen, job, job_seen, functions, long_command, longer_command, most_bytes, short_command, without_ceiling, without_flag};

use crate::index::index_of;

/// The most functions that a made module may have.
const MOST_FUNCTIONS: u32 = 1_000_000;

/// The most bytes that an input, or the file of a module, may have: 64 MiB.
const MOST_INPUT: u32 = 67_108_864;

/// What is to be done.
#[derive(Clone, Copy, Debug)]
pub enum Command<'a> {
    /// The input is re-encoded, and no index is renamed.
    Plain,
    /// The input is re-encoded with the indices renamed as the file of this name says.
    Rename {
        /// The name of the file.
        file: &'a str,
        /// Whether an index of a core space without an entry is refused, whatever the file says.
        strict: bool,
    },
    /// The input is re-encoded with the indices renamed as the first file says, and these as the second says.
    Twice {
        /// The name of the first file.
        first: &'a str,
        /// The name of the second file.
        second: &'a str,
        /// Whether both renamings are strict, whatever the files say.
        strict: bool,
    },
    /// A module of so many functions is made and re-encoded.
    Generate(u32),
    /// The input is re-encoded, no index is renamed, and what of it is kept is told.
    KeepReport,
    /// The functions that the input defines are moved to where the file of this name says.
    Renumber(&'a str),
    /// The functions of the input that nothing reaches are removed.
    Prune,
    /// The input and the module in the file of this name become one.
    Merge(&'a str),
}

/// How many functions a command makes a module of, where it makes one.
pub fn functions(command: Command<'_>) -> Option<u32>
    // However long the file of a module may be.
    ensures { (most : ℕ) → result ≡ functions (command_seen most command.entry) }
{
    match command {
        Command::Generate(n) => Some(n),
        Command::Plain => None,
        Command::Rename { .. } => None,
        Command::Twice { .. } => None,
        Command::KeepReport => None,
        Command::Renumber(_) => None,
        Command::Prune => None,
        Command::Merge(_) => None,
    }
}

/// How an output is written.
#[derive(Clone, Copy, Debug, PartialEq, Eq)]
pub enum Notation {
    /// As hexadecimal digits, with the lines about it behind them.
    Hexadecimal,
    /// As its bytes alone.
    Binary,
}

/// What is asked for.
#[derive(Clone, Copy, Debug)]
pub struct Job<'a> {
    /// Whether the input is hexadecimal text.
    pub is_text: bool,
    /// How the output is written.
    pub notation: Notation,
    /// The most bytes that a frame of the output may have.
    pub ceiling: u32,
    /// The most bytes that the input, or the file of a module, may have.
    pub most: u32,
    /// What is to be done.
    pub command: Command<'a>,
}

/// Whether the first word is `-x`, and the words behind it.
fn flag_of(words: &[String]) -> (bool, &[String])
    ensures { (result.0, map string_bytes result.1.now)
        ≡ without_flag (map string_bytes words.now) }
{
    match words {
        [first, rest @ ..] if first.as_str() == "-x" => (true, rest),
        _ => (false, words),
    }
}

/// The ceiling that the first two words may say, and the words behind them.
fn ceiling_of(words: &[String]) -> Option<(u32, &[String])>
    ensures { option_map (λ p. (p.0, map string_bytes p.1.now)) result
        ≡ without_ceiling (map string_bytes words.now) }
{
    match words {
        [first, second, rest @ ..] if first.as_str() == "-m" => match index_of(second.as_str()) {
            Some(ceiling) => Some((ceiling, rest)),
            None => None,
        },
        _ => Some((u32::MAX, words)),
    }
}

/// The command that is one word.
fn short_command(word: &str) -> Option<Command<'static>>
    ensures { option_map (command_seen most_bytes) result ≡ short_command word.now }
{
    if word == "plain" {
        return Some(Command::Plain);
    }
    if word == "keep-report" {
        return Some(Command::KeepReport);
    }
    if word == "prune" {
        return Some(Command::Prune);
    }
    None
}

/// The command that is a word and an argument.
fn long_command<'a>(word: &str, argument: &'a str) -> Option<Command<'a>>
    ensures { option_map (command_seen most_bytes) result ≡ long_command word.now argument.now }
{
    if word == "rename" {
        return Some(Command::Rename {
            file: argument,
            strict: false,
        });
    }
    if word == "generate" {
        return match index_of(argument) {
            Some(n) if n >= 1 && n <= MOST_FUNCTIONS => Some(Command::Generate(n)),
            _ => None,
        };
    }
    if word == "renumber" {
        return Some(Command::Renumber(argument));
    }
    if word == "merge" {
        return Some(Command::Merge(argument));
    }
    None
}

/// The command that is a word and two arguments.
fn longer_command<'a>(word: &str, first: &'a str, second: &'a str) -> Option<Command<'a>>
    ensures { option_map (command_seen most_bytes) result
        ≡ longer_command word.now first.now second.now }
{
    if word == "twice" {
        Some(Command::Twice {
            first,
            second,
            strict: false,
        })
    } else {
        None
    }
}

/// The command that the words are.
fn command_of(words: &[String]) -> Option<Command<'_>>
    ensures { option_map (command_seen most_bytes) result
        ≡ command (map string_bytes words.now) }
{
    match words {
        [word] => short_command(word.as_str()),
        [word, argument] => long_command(word.as_str(), argument.as_str()),
        [word, first, second] => longer_command(word.as_str(), first.as_str(), second.as_str()),
        _ => None,
    }
}

/// What the words ask for: `-x` or nothing, `-m CEILING` or nothing, and then `plain`, `rename FILE`,
/// `twice FILE FILE`, `generate N`, `keep-report`, `renumber FILE`, `prune` or `merge FILE`. CEILING and N are decimal digits that do not begin with `0`, or `0`; CEILING is below
/// 2^32 and is 2^32 - 1 where it is left out, and N is from 1 to 1,000,000.
pub fn job_of(words: &[String]) -> Option<Job<'_>>
    ensures { option_map job_seen result ≡ job (map string_bytes words.now) }
{
    let (is_text, rest) = flag_of(words);
    match ceiling_of(rest) {
        Some((ceiling, rest)) => match command_of(rest) {
            Some(command) => Some(Job {
                is_text,
                notation: Notation::Hexadecimal,
                ceiling,
                most: MOST_INPUT,
                command,
            }),
            None => None,
        },
        None => None,
    }
}
