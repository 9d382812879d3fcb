//! Makes a module and re-encodes it: `bench WAY KIND FUNCTIONS ROWS ROUNDS`. The module has so many functions, each of so
//! many rows of a kind, and is re-encoded so many times. It prints how many bytes came. A row of the kind `numbers` is eight
//! operators, and one of the kind `mixed` is sixteen with blocks, branches, loads and stores among them. Three kinds have no
//! functions: a row of `globals` is four globals, and `elements` and `data` have so many segments, each of so many functions
//! or bytes. The kind `input` is the module that standard input has, whatever FUNCTIONS and ROWS say. The ways:
//!
//! | | |
//! |---|---|
//! | `text` | the module is printed as hexadecimal digits, and not re-encoded |
//! | `make` | it is made, and not re-encoded |
//! | `read` | its operators are read with their immediates, and not mapped: it prints how many of both there are |
//! | `default` | by a reencoder that overrides nothing |
//! | `roundtrip` | by `RoundtripReencoder` |
//! | `renamer` | by `Renamer`, without entries |
//! | `renamed` | by `Renamer`, with an entry for the function that is called |
//! | `joined`, `joined_renamed` | the same two, by `reencode_joined` |
//! | `pieces`, `pieces_renamed` | the same two, by `reencode_pieces`: it prints how many pieces came |
//! | `rule` | by a rule that leaves each index as it is |
//! | `renumber` | its functions are put in the opposite order |
//! | `prune` | the functions go that nothing reaches |
//! | `merge` | it is merged with itself; standard input has two modules, of which the first has FUNCTIONS bytes |
#![tactic(auto)]

mod making;
mod reading;
mod tools;

use crate::making::{Kind, module};
use crate::reading::operators_len;
use crate::tools::{by_rule_len, merged_len, pruned_len, renumbered_len};
use default_renamer::DefaultRenamer;
use reencode_core::{Reencode, reencode_core, reencode_joined, reencode_pieces};
use reencode_hooks::{Renamer, RoundtripReencoder};
use std::alloc::{AllocError, Global};
use std::io::Read;
use std::process::ExitCode;
use std::{env, io};
use wasm_leb::NoMemory;
use wasm_shapes::Space;

/// What the words say.
#[derive(Drop)]
struct Words {
    way: String,
    /// None where standard input has the module.
    kind: Option<Kind>,
    functions: u32,
    rows: u32,
    rounds: u32,
}

/// The words behind the program's name.
fn read_words(rt: &HostRuntime) -> io::Result<Option<Words>> {
    let mut words = env::args(rt)?.skip(1);
    let Some(way) = words.next() else {
        return Ok(None);
    };
    let Some(kind) = words.next() else {
        return Ok(None);
    };
    let kind = match kind.as_str() {
        "mixed" => Some(Kind::Mixed),
        "numbers" => Some(Kind::Numbers),
        "globals" => Some(Kind::Globals),
        "elements" => Some(Kind::Elements),
        "data" => Some(Kind::Data),
        "input" => None,
        _ => return Ok(None),
    };
    let mut numbers = [0u32; 3];
    for number in &mut numbers {
        let Some(word) = words.next() else {
            return Ok(None);
        };
        let Ok(said) = word.as_str().parse::<u32>() else {
            return Ok(None);
        };
        *number = said;
    }
    let [functions, rows, rounds] = numbers;
    Ok(Some(Words {
        way,
        kind,
        functions,
        rows,
        rounds,
    }))
}

/// How many bytes a module re-encodes to, and 0 where it is refused.
fn len_of<R: Reencode>(alloc: Global, reencoder: &mut R, module: &[u8]) -> usize
where
    R::Error: Drop,
{
    match reencode_core(alloc, reencoder, module, u32::MAX) {
        Ok(made) => made.len(),
        Err(_) => 0,
    }
}

/// The same by way of pieces.
fn joined_len(alloc: Global, renamer: &mut Renamer, module: &[u8]) -> usize {
    match reencode_joined(alloc, renamer, module, u32::MAX) {
        Ok(made) => made.len(),
        Err(_) => 0,
    }
}

/// How many pieces a module re-encodes to, and 0 where it is refused.
fn pieces_len(alloc: Global, renamer: &mut Renamer, module: &[u8]) -> usize {
    match reencode_pieces(alloc, renamer, module, u32::MAX) {
        Ok(pieces) => pieces.len(),
        Err(_) => 0,
    }
}

/// A renamer with an entry for the function that is called.
fn renaming(alloc: Global) -> Result<Renamer, NoMemory> {
    let mut renamer = Renamer::new(alloc);
    renamer.set(Space::Function, making::CALLED, 1000)?;
    Ok(renamer)
}

/// The two modules that are merged.
fn both<'a>(words: &Words, module: &'a [u8]) -> (&'a [u8], &'a [u8]) {
    match words.kind {
        Some(_) => (module, module),
        None => module.split_at(module.len().min(words.functions as usize)),
    }
}

/// How many bytes come of a module by a way, where there is such a way.
fn once(alloc: Global, words: &Words, module: &[u8]) -> Result<Option<usize>, NoMemory> {
    match words.way.as_str() {
        "make" => Ok(Some(module.len())),
        "read" => Ok(Some(operators_len(alloc, module).unwrap_or(0))),
        "default" => {
            let renamer = Renamer::new(alloc);
            Ok(Some(len_of(alloc, &mut DefaultRenamer { renamer }, module)))
        }
        "roundtrip" => Ok(Some(len_of(alloc, &mut RoundtripReencoder, module))),
        "renamer" => Ok(Some(len_of(alloc, &mut Renamer::new(alloc), module))),
        "renamed" => Ok(Some(len_of(alloc, &mut renaming(alloc)?, module))),
        "joined" => Ok(Some(joined_len(alloc, &mut Renamer::new(alloc), module))),
        "joined_renamed" => Ok(Some(joined_len(alloc, &mut renaming(alloc)?, module))),
        "pieces" => Ok(Some(pieces_len(alloc, &mut Renamer::new(alloc), module))),
        "pieces_renamed" => Ok(Some(pieces_len(alloc, &mut renaming(alloc)?, module))),
        "rule" => Ok(Some(by_rule_len(alloc, module))),
        "renumber" => Ok(Some(renumbered_len(alloc, module)?)),
        "prune" => Ok(Some(pruned_len(alloc, module))),
        "merge" => {
            let (first, second) = both(words, module);
            Ok(Some(merged_len(alloc, first, second)))
        }
        _ => Ok(None),
    }
}

/// How many bytes come of a module in all rounds, where there is such a way.
fn all(alloc: Global, words: &Words, module: &[u8]) -> Result<Option<usize>, NoMemory> {
    let mut sum: usize = 0;
    for _ in 0..words.rounds {
        match once(alloc, words, module)? {
            Some(len) => sum = sum.saturating_add(len),
            None => return Ok(None),
        }
    }
    Ok(Some(sum))
}

/// The module of the words.
fn given(rt: &HostRuntime, words: &Words) -> io::Result<Vec<u8>> {
    let Some(kind) = words.kind else {
        let mut bytes = Vec::new(rt.alloc());
        rt.stdin().read_to_end(&mut bytes)?;
        return Ok(bytes);
    };
    match module(rt.alloc(), kind, words.functions, words.rows) {
        Ok(module) => Ok(module),
        Err(NoMemory) => Err(AllocError.into()),
    }
}

/// What is printed of a module, where the words say it.
fn said(alloc: Global, words: &Words, module: &[u8]) -> Result<Option<String>, AllocError> {
    if words.way.as_str() == "text" {
        return Ok(Some(hex::encode(alloc, module)?));
    }
    match all(alloc, words, module) {
        Ok(Some(sum)) => Ok(Some(format!(in alloc; "{sum}")?)),
        Ok(None) => Ok(None),
        Err(NoMemory) => Err(AllocError),
    }
}

fn main(rt: HostRuntime) -> ExitCode {
    let Ok(Some(words)) = read_words(&rt) else {
        return ExitCode::from(2);
    };
    let Ok(module) = given(&rt, &words) else {
        return ExitCode::from(1);
    };
    match said(rt.alloc(), &words, module.as_slice()) {
        Ok(Some(text)) => {
            let text = text.as_str();
            match println!(rt; "{text}") {
                Ok(()) => ExitCode::SUCCESS,
                Err(_) => ExitCode::from(4),
            }
        }
        Ok(None) => ExitCode::from(2),
        Err(_) => ExitCode::from(1),
    }
}
