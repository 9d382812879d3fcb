//! Core modules, operators, components and binaries by their calls.
use crate::additions::Additions;
use crate::modules::{Bounds, Way, What, add_counts, made, way_of};
use crate::stop::Stop;
use crate::text::add_word;
use crate::{components, refusing};
use default_renamer::DefaultRenamer;
use reencode_component::ReencodeComponent;
use reencode_hooks::{Renamer, RoundtripReencoder};
use std::alloc::{AllocError, Global};
use std::fmt::Display;

/// What is re-encoded: of a core module, a component, or a binary by its header.
#[derive(Clone, Copy)]
pub enum Of {
    Core(What),
    Component,
    Binary,
}

impl Of {
    /// What a call re-encodes.
    fn call(call: &str) -> Option<Of> {
        match call {
            "rename" => Some(Of::Core(What::Module)),
            "pieces" => Some(Of::Core(What::Pieces)),
            "held" => Some(Of::Core(What::Held)),
            "operators" => Some(Of::Core(What::Operators)),
            "component" => Some(Of::Component),
            "binary" => Some(Of::Binary),
            _ => None,
        }
    }
}

/// What comes of it by any reencoder. A reencoder is handed over here alone, which is dear.
pub fn made_of<R: ReencodeComponent>(
    alloc: Global,
    reencoder: &mut R,
    of: Of,
    bytes: &[u8],
    bounds: Bounds,
) -> Result<String, AllocError>
where
    R::Error: Display + Drop,
{
    match of {
        Of::Core(what) => made(alloc, reencoder, what, bytes, bounds.ceiling),
        Of::Component => components::made(alloc, reencoder, bytes, bounds),
        Of::Binary => components::made_by_header(alloc, reencoder, bytes, bounds.ceiling),
    }
}

/// What comes of it by a renamer, which is given back.
fn by_renamer(
    alloc: Global,
    of: Of,
    renamer: Renamer,
    bytes: &[u8],
    bounds: Bounds,
) -> Result<(Renamer, String), Stop> {
    let mut renamer = renamer;
    let text = made_of(alloc, &mut renamer, of, bytes, bounds)?;
    Ok((renamer, text))
}

/// What comes of it by a renamer, with the sections that words add.
fn with_sections(
    alloc: Global,
    of: Of,
    renamer: Renamer,
    additions: &Additions,
    bytes: &[u8],
    bounds: Bounds,
) -> Result<(Renamer, String), Stop> {
    let mut adding = additions.around(alloc, renamer)?;
    let text = made_of(alloc, &mut adding, of, bytes, bounds)?;
    Ok((adding.into_renamer(), text))
}

/// What comes of it by a renamer, with the sections that words add, if any.
fn with_additions(
    alloc: Global,
    of: Of,
    renamer: Renamer,
    additions: &Additions,
    bytes: &[u8],
    bounds: Bounds,
) -> Result<(Renamer, String), Stop> {
    if additions.is_empty() {
        by_renamer(alloc, of, renamer, bytes, bounds)
    } else {
        with_sections(alloc, of, renamer, additions, bytes, bounds)
    }
}

/// What comes of it in a way by which no call of a hook is refused.
fn unrefused(alloc: Global, of: Of, way: Way, bytes: &[u8]) -> Result<String, Stop> {
    let is_counted = way.is_counted;
    let (renamer, mut text) = with_additions(
        alloc,
        of,
        way.renamer,
        &way.additions,
        bytes,
        way.bounds,
    )?;
    if is_counted {
        add_counts(&mut text, &renamer)?;
    }
    Ok(text)
}

/// What comes of it by the renamer of the words, with the sections that they add; or where a call of a hook is refused.
fn told(alloc: Global, of: Of, words: &str, bytes: &[u8]) -> Result<String, Stop> {
    let way = way_of(alloc, words)?;
    match way.refused {
        Some(at) => refusing::told(alloc, of, at, bytes, way.bounds, way.is_counted),
        None => unrefused(alloc, of, way, bytes),
    }
}

/// What comes of it by a renamer that overrides nothing, which is given back.
fn by_default(
    alloc: Global,
    what: What,
    renamer: Renamer,
    bytes: &[u8],
    ceiling: u32,
) -> Result<(Renamer, String), Stop> {
    let mut renamer = DefaultRenamer { renamer };
    let text = made(alloc, &mut renamer, what, bytes, ceiling)?;
    Ok((renamer.renamer, text))
}

/// The same in a way by which nothing is added and no call is refused.
fn compared(alloc: Global, what: What, way: Way, bytes: &[u8]) -> Result<Option<String>, Stop> {
    if !way.additions.is_empty() || way.refused.is_some() {
        return Ok(None);
    }
    let is_counted = way.is_counted;
    let (renamer, mut text) = by_default(alloc, what, way.renamer, bytes, way.bounds.ceiling)?;
    if is_counted {
        add_counts(&mut text, &renamer)?;
    }
    Ok(Some(text))
}

/// What comes of it by a renamer of these words that overrides nothing, of a whole module or of operators to which nothing is
/// added, and none of whose calls is refused.
fn told_by_default(
    alloc: Global,
    of: Of,
    words: &str,
    bytes: &[u8],
) -> Result<Option<String>, Stop> {
    match of {
        Of::Core(what) if what.is_compared() => compared(alloc, what, way_of(alloc, words)?, bytes),
        _ => Ok(None),
    }
}

/// Says also what came another way, where it differs.
fn compare(text: &mut String, other: &str) -> Result<(), AllocError> {
    if text.as_str() == other {
        return Ok(());
    }
    add_word(text, "but by the default methods")?;
    add_word(text, other)
}

/// What comes of it where it is renamed.
fn renamed(alloc: Global, of: Of, words: &str, bytes: &[u8]) -> Result<String, Stop> {
    let mut text = told(alloc, of, words, bytes)?;
    if let Some(other) = told_by_default(alloc, of, words, bytes)? {
        compare(&mut text, other.as_str())?;
    }
    Ok(text)
}

/// What comes of a module that is re-encoded as it is.
fn roundtripped(alloc: Global, bytes: &[u8]) -> Result<String, Stop> {
    let module = What::Module;
    let mut text = made(alloc, &mut RoundtripReencoder, module, bytes, u32::MAX)?;
    if let Some(other) = told_by_default(alloc, Of::Core(module), "", bytes)? {
        compare(&mut text, other.as_str())?;
    }
    Ok(text)
}

/// What comes of a core module, of operators, of a component or of a binary, re-encoded.
pub fn answer(
    alloc: Global,
    call: &str,
    words: &str,
    bytes: &[u8],
) -> Result<Option<String>, Stop> {
    if call == "roundtrip" {
        return Ok(Some(roundtripped(alloc, bytes)?));
    }
    match Of::call(call) {
        Some(of) => Ok(Some(renamed(alloc, of, words, bytes)?)),
        None => Ok(None),
    }
}
