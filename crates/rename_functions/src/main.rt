//! Renames the functions of a module: reads a binary from standard input, and writes the new one to standard output.
//!
//! Its one word names a file, a JSON object from old indices of functions to new ones, as `{"0": 1, "1": 0}`.
#![tactic(auto)]

use reencode_core::reencode_core;
use reencode_hooks::{Error, Renamer, Unmapped};
use serde_json::Value;
use std::alloc::Global;
use std::io::{Read, Write};
use std::process::ExitCode;
use std::{env, fmt, fs, io};
use wasm_shapes::Space;

/// Why the module is not written.
#[derive(Drop)]
enum Failure {
    /// There is no word, or more than one.
    Words,
    /// The file of the renaming could not be read.
    File(io::Error),
    /// It says no renaming.
    Renaming,
    /// The input could not be read.
    Input(io::Error),
    /// The input was not re-encoded.
    Module(Error<Unmapped>),
    /// The output could not be written.
    Output(io::Error),
}

impl Failure {
    /// The status that the program ends with.
    fn status(&self) -> u8 {
        match self {
            Failure::Words => 2,
            Failure::Input(_) => 3,
            Failure::Output(_) => 4,
            Failure::Module(Error::NoMemory) => 1,
            Failure::Module(_) => 5,
            Failure::Renaming => 11,
            Failure::File(_) => 12,
        }
    }
}

impl fmt::Display for Failure {
    fn fmt<W: fmt::Write>(&self, f: &mut fmt::Formatter<W>) -> fmt::Result {
        match self {
            Failure::Words => f.write_str("usage: rename_functions FILE < OLD > NEW"),
            Failure::File(e) => write!(f, "the renaming could not be read: {e}"),
            Failure::Renaming => {
                f.write_str("the renaming is no JSON object from indices to indices")
            }
            Failure::Input(e) => write!(f, "the input could not be read: {e}"),
            Failure::Module(Error::ParseError(e)) => write!(f, "no section begins at {}", e.at),
            Failure::Module(e) => write!(f, "{e}"),
            Failure::Output(e) => write!(f, "the output could not be written: {e}"),
        }
    }
}

/// The renamer that a text says.
fn renamer_of(alloc: Global, text: &[u8]) -> Result<Renamer, Failure> {
    let value = match Value::from_slice(alloc, text) {
        Ok(value) => value,
        Err(e) if e.is_memory() => return Err(Failure::Module(Error::NoMemory)),
        Err(_) => return Err(Failure::Renaming),
    };
    let Some(members) = value.as_object() else {
        return Err(Failure::Renaming);
    };
    let mut renamer = Renamer::new(alloc);
    for (key, value) in members.iter() {
        let (Ok(from), Some(to)) = (key.as_str().parse::<u32>(), value.as_u64()) else {
            return Err(Failure::Renaming);
        };
        let Ok(to) = u32::try_from(to) else {
            return Err(Failure::Renaming);
        };
        if renamer.set(Space::Function, from, to).is_err() {
            return Err(Failure::Module(Error::NoMemory));
        }
    }
    Ok(renamer)
}

/// The one word behind the program's name.
fn file_name(rt: &HostRuntime) -> Result<String, Failure> {
    let Ok(mut words) = env::args(rt) else {
        return Err(Failure::Words);
    };
    words.next();
    match (words.next(), words.next()) {
        (Some(file), None) => Ok(file),
        _ => Err(Failure::Words),
    }
}

/// From standard input to standard output.
fn run(rt: &HostRuntime) -> Result<(), Failure> {
    let file = file_name(rt)?;
    let text = fs::read(rt, file.as_str()).map_err(Failure::File)?;
    let mut renamer = renamer_of(rt.alloc(), text.as_slice())?;
    let mut bytes = Vec::new(rt.alloc());
    rt.stdin().read_to_end(&mut bytes).map_err(Failure::Input)?;
    let made = reencode_core(rt.alloc(), &mut renamer, bytes.as_slice(), u32::MAX);
    let module = made.map_err(Failure::Module)?;
    rt.stdout()
        .write_all(module.as_slice())
        .map_err(Failure::Output)
}

fn main(rt: HostRuntime) -> ExitCode {
    match run(&rt) {
        Ok(()) => ExitCode::SUCCESS,
        Err(failure) => {
            let _ = eprintln!(rt; "{failure}");
            ExitCode::from(failure.status())
        }
    }
}
