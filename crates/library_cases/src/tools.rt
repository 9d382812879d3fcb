//! Core modules whose functions are moved or removed, two that become one, and binaries without custom sections.
use crate::case::{Case, bytes_between, number};
use crate::stop::{Stop, refusal};
use crate::text::{add, add_bytes, add_word};
use call_graph::{CallGraph, close_up, mark_reached};
use std::alloc::{AllocError, Global};
use std::fmt::{Display, Write};
use wasm_merge::{MergeFault, merge};
use wasm_reach::{ModuleCalls, Pruned, ReachFault, call_graph, prune};
use wasm_renumber::{OrderFault, RenumberFault, inverse, renumber};
use wasm_strip::{Choice, Nothing, strip, tidy};

/// The numbers of some words, without the word `KEY=NUMBER`, and that number.
pub fn numbers_of(
    alloc: Global,
    words: &str,
    key: &str,
    otherwise: u32,
) -> Result<(u32, Vec<u32>), Stop> {
    let mut value = otherwise;
    let mut numbers = Vec::new(alloc);
    for word in words.split_whitespace() {
        match word.split_once('=') {
            Some((name, text)) if name == key => value = number(text)?,
            Some(_) => return Err(Stop::Unread),
            None => match numbers.push(number(word)?) {
                Ok(()) => {}
                Err(_) => return Err(Stop::NoMemory),
            },
        }
    }
    Ok((value, numbers))
}

/// Adds numbers.
pub fn add_numbers(text: &mut String, numbers: &[u32]) -> Result<(), AllocError> {
    for number in numbers {
        add(text, number)?;
    }
    Ok(())
}

/// The text of some bytes.
fn made(alloc: Global, bytes: &[u8]) -> Result<String, Stop> {
    let mut text = String::new(alloc);
    add_bytes(alloc, &mut text, bytes)?;
    Ok(text)
}

/// The text of a fault.
fn said<E: Display>(alloc: Global, fault: &E) -> Result<String, Stop> {
    Ok(format!(in alloc; "{fault}")?)
}

/// A module with its functions in the order of the words.
fn renumbered(alloc: Global, words: &str, bytes: &[u8]) -> Result<String, Stop> {
    let (ceiling, order) = numbers_of(alloc, words, "under", u32::MAX)?;
    match renumber(alloc, bytes, &order, ceiling) {
        Ok(out) => made(alloc, out.as_slice()),
        Err(RenumberFault::Core(e)) => Ok(refusal(alloc, &e)?),
        Err(fault) => said(alloc, &fault),
    }
}

/// A module without the functions that nothing reaches, and those that are kept.
fn pruned(alloc: Global, words: &str, bytes: &[u8]) -> Result<String, Stop> {
    let (ceiling, _) = numbers_of(alloc, words, "under", u32::MAX)?;
    match prune(alloc, bytes, ceiling) {
        Ok(Pruned { bytes, kept }) => {
            let mut text = made(alloc, bytes.as_slice())?;
            add_word(&mut text, "kept")?;
            add_numbers(&mut text, kept.as_slice())?;
            Ok(text)
        }
        Err(ReachFault::Core(e)) => Ok(refusal(alloc, &e)?),
        Err(fault) => said(alloc, &fault),
    }
}

/// Adds what each function of a graph calls, by its index.
fn add_calls(text: &mut String, imports: u32, calls: &CallGraph) -> Result<(), AllocError> {
    for place in 0..calls.len() {
        let function = imports as usize + place;
        write!(text, "{function}: ")?;
        add_numbers(text, calls.calls(place))?;
    }
    Ok(())
}

/// Which functions of a module call which.
fn graph(alloc: Global, bytes: &[u8]) -> Result<String, Stop> {
    match call_graph(alloc, bytes) {
        Ok(
            ModuleCalls {
                imports,
                roots,
                calls,
            },
        ) => {
            let mut text = String::new(alloc);
            add_word(&mut text, "roots")?;
            add_numbers(&mut text, roots.as_slice())?;
            add_calls(&mut text, imports, &calls)?;
            Ok(text)
        }
        Err(ReachFault::Core(e)) => Ok(refusal(alloc, &e)?),
        Err(fault) => said(alloc, &fault),
    }
}

/// Two modules in one.
fn merged(alloc: Global, words: &str, first: &[u8], second: &[u8]) -> Result<String, Stop> {
    let (ceiling, _) = numbers_of(alloc, words, "under", u32::MAX)?;
    match merge(alloc, first, second, ceiling) {
        Ok(out) => made(alloc, out.as_slice()),
        Err(MergeFault::Core { by, error }) => {
            let mut text = refusal(alloc, &error)?;
            write!(text, " by {by}")?;
            Ok(text)
        }
        Err(fault) => said(alloc, &fault),
    }
}

/// The inverse of an order of so many items.
fn turned(alloc: Global, words: &str, order: &str) -> Result<String, Stop> {
    let (count, _) = numbers_of(alloc, words, "count", 0)?;
    let (_, order) = numbers_of(alloc, order, "", 0)?;
    match inverse(alloc, &order, count as usize) {
        Ok(sources) => {
            let mut text = String::new(alloc);
            for place in sources.iter() {
                add(&mut text, place)?;
            }
            Ok(text)
        }
        Err(OrderFault::NotAnOrder { place }) => {
            said(alloc, &RenumberFault::NotAnOrder { place })
        }
        Err(OrderFault::NoMemory) => Err(Stop::NoMemory),
    }
}

/// The functions that are reached, each by its new number, behind the roots and what each function calls.
fn reached(alloc: Global, words: &str, text: &str) -> Result<String, Stop> {
    let (imports, roots) = numbers_of(alloc, words, "imports", 0)?;
    let mut graph = CallGraph::new(alloc);
    for calls in text.split(',') {
        let (_, calls) = numbers_of(alloc, calls, "", 0)?;
        graph.add(&calls)?;
    }
    let marks = mark_reached(alloc, imports, &roots, &graph)?;
    if marks.len() > u32::MAX as usize {
        return Err(Stop::Unread);
    }
    let kept = close_up(alloc, imports, &marks)?;
    let mut text = String::new(alloc);
    for function in kept.functions.iter() {
        let number = kept.number(*function);
        write!(text, "{function}={number} ")?;
    }
    Ok(text)
}

/// Whether a word stands among others.
fn has_word(words: &str, wanted: &str) -> bool {
    for word in words.split_whitespace() {
        if word == wanted {
            return true;
        }
    }
    false
}

/// The names of the words `section=NAME`.
fn sections_of<'a>(alloc: Global, words: &'a str) -> Result<Vec<&'a str>, Stop> {
    let mut names = Vec::new(alloc);
    for word in words.split_whitespace() {
        match word.split_once('=') {
            Some(("section", name)) => match names.push(name) {
                Ok(()) => {}
                Err(_) => return Err(Stop::NoMemory),
            },
            Some(_) => return Err(Stop::Unread),
            None => {}
        }
    }
    Ok(names)
}

/// A binary without the custom sections that the words choose.
fn stripped(alloc: Global, words: &str, bytes: &[u8]) -> Result<String, Stop> {
    let sections = sections_of(alloc, words)?;
    let choice = Choice {
        names: has_word(words, "names"),
        malformed: has_word(words, "malformed"),
        debug: has_word(words, "debug"),
        stale: has_word(words, "stale"),
        all: has_word(words, "all"),
        sections: &sections,
    };
    match strip(alloc, &choice, bytes) {
        Ok(out) => made(alloc, out.as_slice()),
        Err(fault) => said(alloc, &fault),
    }
}

/// A binary with its names in order.
fn sorted(alloc: Global, bytes: &[u8]) -> Result<String, Stop> {
    match tidy(alloc, &Nothing, true, bytes) {
        Ok(out) => made(alloc, out.as_slice()),
        Err(fault) => said(alloc, &fault),
    }
}

/// What comes of a tool, where there is one of this name.
pub fn answer(alloc: Global, case: &Case<'_>) -> Result<Option<String>, Stop> {
    let given = match case.call {
        "renumber" => renumbered(alloc, case.words, &case.bytes(alloc)?)?,
        "prune" => pruned(alloc, case.words, &case.bytes(alloc)?)?,
        "strip" => stripped(alloc, case.words, &case.bytes(alloc)?)?,
        "sort" => sorted(alloc, &case.bytes(alloc)?)?,
        "calls" => graph(alloc, &case.bytes(alloc)?)?,
        "merge" => {
            let Some((first, second)) = case.input.split_once('+') else {
                return Err(Stop::Unread);
            };
            let first = bytes_between(alloc, first)?;
            let second = bytes_between(alloc, second)?;
            merged(alloc, case.words, &first, &second)?
        }
        "inverse" => turned(alloc, case.words, case.input)?,
        "reached" => reached(alloc, case.words, case.input)?,
        _ => return Ok(None),
    };
    Ok(Some(given))
}
