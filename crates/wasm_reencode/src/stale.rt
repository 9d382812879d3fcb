//! Custom sections that tell places in code, of an output whose code is not that of the input.
ghost use Rattle.std.specs.Prelude.{◌≡◌, ◌++◌, ℕ, List, false, true, codes, map, string_bytes, IfNone, IfOk, IfSome, OnOk};
ghost use Rattle.wasm_reencode.specs.Sections.{HasName};
ghost use Rattle.wasm_reencode.specs.Stale.{AreCode, AreQuoted, AreStale, IsQuoted, IsStaleOf, TellsSame, TellsStale};
ghost use Rattle.wasm_strip.specs.Choices.{is_stale};

use crate::sections::{Section, sections_of};
use std::alloc::{AllocError, Global};
use wasm_strip::Choice;

/// What tells places in code.
const STALE: Choice<'static> = Choice {
    names: false,
    malformed: false,
    debug: false,
    stale: true,
    all: false,
    sections: &[],
};

/// Whether a section of this name tells places in code.
fn is_stale(name: &str) -> bool
    ensures { result ≡ is_stale name.now }
{
    STALE.removes_by_name(name)
}

/// The name of a section that tells places in code.
fn stale_name<'a>(section: &Section<'a>) -> Option<&'a str>
    ensures some { IfSome result (λ name. HasName section.now name.now × (is_stale name.now ≡ true)) }
    ensures none { IfNone result ((name : List ℕ) → HasName section.now name → is_stale name ≡ false) }
{
    match section.custom_name() {
        Some(name) => { if is_stale(name) { Some(name) } else { None } }
        None => None,
    }
}

/// The names of the sections that tell places in code, each once.
fn stale_names<'a>(alloc: Global, sections: &[Section<'a>]) -> Result<Vec<&'a str>, AllocError>
    ensures { IfOk result (λ names. AreStale sections.now (map (λ name. name.now) names.items)) }
{
    let mut names = Vec::new(alloc);
    'sections: for section in sections {
        if let Some(name) = stale_name(section) {
            names.push(name)?;
        }
    }
    names.sort()?;
    names.dedup();
    Ok(names)
}

/// What stands in the code sections.
fn code_of<'a>(alloc: Global, sections: &[Section<'a>]) -> Result<Vec<&'a [u8]>, AllocError>
    ensures { IfOk result (λ code. AreCode sections.now (map (λ body. body.now) code.items)) }
{
    let mut code = Vec::new(alloc);
    'sections: for section in sections {
        if let Some(body) = section.code() {
            code.push(body)?;
        }
    }
    Ok(code)
}

/// Whether the code sections of a binary hold what those of another do.
pub fn has_code_of(
    alloc: Global,
    sections: &[Section<'_>],
    other: &[u8],
) -> Result<bool, AllocError>
    ensures { IfOk result (TellsSame sections.now other.now) }
{
    match sections_of(alloc, other)? {
        Some(others) => {
            let code = code_of(alloc, sections)?;
            let others = code_of(alloc, others.as_slice())?;
            Ok(code.as_slice() == others.as_slice())
        }
        None => Ok(false),
    }
}

/// Adds a name in quotes, behind a comma.
fn add_quoted(alloc: Global, text: &mut String, name: &str) -> Result<(), AllocError>
    ensures { OnOk result ((quoted : List ℕ) × IsQuoted name.now quoted
        × (string_bytes text.new ≡ (string_bytes text.old ++ codes ", ") ++ quoted)) }
{
    text.push_str(", ")?;
    let name = format!(in alloc; "{name:?}")?;
    text.push_str(name.as_str())
}

/// Some names in quotes, with commas between.
fn quoted(alloc: Global, names: &[&str]) -> Result<String, AllocError>
    ensures { IfOk result (λ text. AreQuoted (map (λ name. name.now) names.now) (string_bytes text)) }
{
    let Some((first, rest)) = names.split_first() else {
        return Ok(String::new(alloc));
    };
    let mut text = format!(in alloc; "{first:?}")?;
    'names: for name in rest {
        add_quoted(alloc, &mut text, name)?;
    }
    Ok(text)
}

/// The sections of an output that tell places in code, where there are some.
pub fn stale_of<'a>(alloc: Global, sections: &[Section<'a>]) -> Result<Option<String>, AllocError>
    ensures some { IfOk result (λ told. IfSome told (λ text. TellsStale sections.now (string_bytes text))) }
    ensures none { IfOk result (λ told. IfNone told ((name : List ℕ) → ¬ IsStaleOf sections.now name)) }
{
    let names = stale_names(alloc, sections)?;
    if names.is_empty() {
        return Ok(None);
    }
    Ok(Some(quoted(alloc, names.as_slice())?))
}
