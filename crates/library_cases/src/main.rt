//! Tries cases: each line of the input is a call of the libraries and what is to come of it.
#![tactic(auto)]

mod additions;
mod bodies;
mod calls;
mod case;
mod component_rows;
mod components;
mod groups;
mod modules;
mod numbers;
mod pieces;
mod readers;
mod refusing;
mod renamed;
mod row_text;
mod sections;
mod spaces;
mod stop;
mod surrounded;
mod text;
mod tools;
mod written;

use crate::calls::answer;
use crate::case::Case;
use std::alloc::Global;
use std::io;
use std::io::{BufRead, BufReader};
use std::process::ExitCode;

/// Tries a case, and says what was wanted and what came where they differ. It answers whether they are the same.
fn try_case(rt: &impl Print, alloc: Global, number: usize, line: &str) -> io::Result<bool> {
    let Some(case) = Case::of_line(line) else {
        println!(rt; "line {number} is no case: {line}")?;
        return Ok(false);
    };
    let given = answer(alloc, &case)?;
    if given.as_str().trim_end() == case.wanted {
        return Ok(true);
    }
    println!(rt; "line {number} differs: {line}\n  came: {given}")?;
    Ok(false)
}

/// Tries each case, and says how many there are and how many differ. It answers whether none does.
fn try_cases(rt: &(impl Print + Input), alloc: Global) -> io::Result<bool> {
    let mut cases = 0u64;
    let mut differing = 0u64;
    for (index, line) in BufReader::new(alloc, rt.reader())?.lines(alloc).enumerate() {
        let line = line?;
        let line = line.as_str().trim();
        if line.is_empty() || line.starts_with('#') {
            continue;
        }
        cases = cases.saturating_add(1);
        if !try_case(rt, alloc, index.saturating_add(1), line)? {
            differing = differing.saturating_add(1);
        }
    }
    println!(rt; "{cases} cases, {differing} differ")?;
    Ok(differing == 0)
}

fn main(rt: HostRuntime) -> ExitCode {
    match try_cases(&rt, rt.alloc()) {
        Ok(true) => ExitCode::SUCCESS,
        _ => ExitCode::FAILURE,
    }
}
