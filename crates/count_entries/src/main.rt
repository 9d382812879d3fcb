//! Instruments a module: reads a binary from standard input, and writes the one that calls `counter` `enter` at the entry of each of
//! its functions to standard output.
#![tactic(auto)]

use examples::count_entries;
use reencode_hooks::{Error, IndexOverflow};
use std::io::{Read, Write};
use std::process::ExitCode;
use std::{fmt, io};

/// Why the module is not written.
#[derive(Drop)]
enum Failure {
    /// The input could not be read.
    Input(io::Error),
    /// The input was not re-encoded.
    Module(Error<IndexOverflow>),
    /// The output could not be written.
    Output(io::Error),
}

impl fmt::Display for Failure {
    fn fmt<W: fmt::Write>(&self, f: &mut fmt::Formatter<W>) -> fmt::Result {
        match self {
            Failure::Input(e) => write!(f, "the input could not be read: {e}"),
            Failure::Module(e) => write!(f, "{e}"),
            Failure::Output(e) => write!(f, "the output could not be written: {e}"),
        }
    }
}

/// From standard input to standard output.
fn run(rt: &HostRuntime) -> Result<(), Failure> {
    let mut bytes = Vec::new(rt.alloc());
    rt.stdin().read_to_end(&mut bytes).map_err(Failure::Input)?;
    let module = count_entries(rt.alloc(), bytes.as_slice()).map_err(Failure::Module)?;
    rt.stdout()
        .write_all(module.as_slice())
        .map_err(Failure::Output)
}

fn main(rt: HostRuntime) -> ExitCode {
    match run(&rt) {
        Ok(()) => ExitCode::SUCCESS,
        Err(failure) => {
            let _ = eprintln!(rt; "{failure}");
            ExitCode::FAILURE
        }
    }
}
