//! What the program prints.
ghost use Rattle.std.specs.Prelude.{◌≡◌, ◌++◌, codes, decimal, map, length, OnOk, IfOk};
ghost use Rattle.reencode_run.specs.Renamers.{AreCounts, counts_in};
ghost use Rattle.reencode_run.specs.Report.{asked, asked_lines, made_line, part, parts, tail};

use crate::renamers::Renamers;
use itoa::Buffer;
use reencode_hooks::{Asked, Renamer};
use std::alloc::{AllocError, Global};
use wasm_shapes::Space;

/// How many things are counted.
const KEY_COUNT: usize = 19;

/// The name of each count, in order.
const KEYS: [&str; KEY_COUNT] = [
    "data",
    "element",
    "function",
    "global",
    "memory",
    "table",
    "tag",
    "type",
    "data_count",
    "component_type",
    "component_instance",
    "component_func",
    "component",
    "module",
    "instance",
    "component_value",
    "section_hook",
    "push",
    "pop",
];

/// How often each was asked, in the order in which the counts are printed.
pub fn counts_of(renamer: &Renamer) -> [u64; KEY_COUNT]
    ensures { length renamer.now.counts ≡ 19 → result ≡ renamer.now.counts }
{
    [
        renamer.count(Asked::Of(Space::Data)),
        renamer.count(Asked::Of(Space::Element)),
        renamer.count(Asked::Of(Space::Function)),
        renamer.count(Asked::Of(Space::Global)),
        renamer.count(Asked::Of(Space::Memory)),
        renamer.count(Asked::Of(Space::Table)),
        renamer.count(Asked::Of(Space::Tag)),
        renamer.count(Asked::Of(Space::Type_)),
        renamer.count(Asked::Of(Space::DataCount)),
        renamer.count(Asked::Of(Space::ComponentType)),
        renamer.count(Asked::Of(Space::ComponentInstance)),
        renamer.count(Asked::Of(Space::ComponentFunc)),
        renamer.count(Asked::Of(Space::Component)),
        renamer.count(Asked::Of(Space::Module)),
        renamer.count(Asked::Of(Space::Instance)),
        renamer.count(Asked::Of(Space::ComponentValue)),
        renamer.count(Asked::SectionHook),
        renamer.count(Asked::Push),
        renamer.count(Asked::Pop),
    ]
}

/// Adds a number in decimal to a line.
pub fn add_number(line: &mut Vec<u8>, n: u64) -> Result<(), AllocError>
    ensures { OnOk result (line.new.items ≡ line.old.items ++ decimal n) }
{
    let mut digits = Buffer::new();
    line.extend_from_slice(digits.format(n).as_bytes())
}

/// Adds a count with its name to a line, and nothing where it is 0.
fn add_part(line: &mut Vec<u8>, key: &str, count: u64) -> Result<(), AllocError>
    ensures { OnOk result (line.new.items ≡ line.old.items ++ part key.now count) }
{
    if count == 0 {
        return Ok(());
    }
    line.extend_from_slice(b" ")?;
    line.extend_from_slice(key.as_bytes())?;
    line.extend_from_slice(b" ")?;
    add_number(line, count)
}

/// Adds each count with its name to a line.
fn add_parts(line: &mut Vec<u8>, keys: &[&str], counts: &[u64]) -> Result<(), AllocError>
    requires { length keys.now ≡ length counts.now }
    ensures { OnOk result
        (line.new.items ≡ line.old.items ++ parts (map (λ key. key.now) keys.now) counts.now) }
{
    'keys: for i in 0..counts.len() {
        add_part(line, keys[i], counts[i])?;
    }
    Ok(())
}

/// Adds the line of a renamer's counts.
fn add_line(text: &mut Vec<u8>, renamer: &Renamer) -> Result<(), AllocError>
    ensures { length renamer.now.counts ≡ 19 → OnOk result
        (text.new.items ≡ text.old.items ++ asked renamer.now.counts ++ codes "\n") }
{
    let counts = counts_of(renamer);
    text.extend_from_slice(b"asked")?;
    add_parts(text, &KEYS, &counts)?;
    text.extend_from_slice(b"\n")
}

/// Adds the line of each renamer's counts.
fn add_lines(text: &mut Vec<u8>, renamers: &Renamers) -> Result<(), AllocError>
    ensures { AreCounts renamers.now → OnOk result
        (text.new.items ≡ text.old.items ++ asked_lines (counts_in renamers.now)) }
{
    match renamers {
        Renamers::Alone(renamer) => add_line(text, renamer),
        Renamers::Both(both) => {
            add_line(text, both.first())?;
            add_line(text, both.second())
        }
    }
}

/// Adds a line end, and the line of each renamer's counts.
pub fn add_tail(text: &mut Vec<u8>, renamers: &Renamers) -> Result<(), AllocError>
    ensures { AreCounts renamers.now → OnOk result
        (text.new.items ≡ text.old.items ++ tail (counts_in renamers.now)) }
{
    text.extend_from_slice(b"\n")?;
    add_lines(text, renamers)
}

/// The line of each renamer's counts.
pub fn lines_of(alloc: Global, renamers: &Renamers) -> Result<Vec<u8>, AllocError>
    ensures { AreCounts renamers.now → IfOk result
        (λ text. text.items ≡ asked_lines (counts_in renamers.now)) }
{
    let mut text = Vec::new(alloc);
    add_lines(&mut text, renamers)?;
    Ok(text)
}

/// What is printed of a made module: how many functions it has, its length and that of the output, and behind
/// a line end the line of the counts.
pub fn made_lines(
    alloc: Global,
    functions: u32,
    input: usize,
    output: usize,
    renamers: &Renamers,
) -> Result<Vec<u8>, AllocError>
    ensures { AreCounts renamers.now → IfOk result
        (λ text. text.items ≡ made_line functions input output ++ tail (counts_in renamers.now)) }
{
    let mut text = Vec::from_slice(alloc, b"functions ")?;
    add_number(&mut text, u64::from(functions))?;
    text.extend_from_slice(b" input ")?;
    add_number(&mut text, input as u64)?;
    text.extend_from_slice(b" output ")?;
    add_number(&mut text, output as u64)?;
    add_tail(&mut text, renamers)?;
    Ok(text)
}
