//! A binary without some custom sections.
ghost use Rattle.std.specs.Prelude.{◌≡◌, ◌≤◌, ◌++◌, length, IfOk, IfErr};
ghost use Rattle.wasm_strip.specs.Binaries.{IsStripped, header_of};
ghost use Rattle.wasm_strip.specs.Faults.{HasNone, IsWhy};
ghost use Rattle.wasm_strip.specs.Tidied.{IsTidied};

use crate::fault::StripFault;
use crate::rule::StripRule;
use crate::sections::{add_sections, begun, behind_header};
use std::alloc::Global;
use wasm_leb::Kind;

/// How deep binaries may stand within each other, below the outermost.
const DEEPEST: usize = 200;

/// The core module or component without the custom sections that the rule removes, also in the core modules and components that
/// stand in it, however deep.
///
/// All other sections stay in order, each as it is spelled; only around a nested binary the size is the one that it has then, in its
/// shortest spelling. Nothing is read but the frames of sections, the names of custom ones and the headers of binaries.
///
/// It takes memory for the output and up to twice a nested binary's bytes. A nested binary is copied once for each binary that it
/// stands in.
pub fn strip<N: StripRule>(alloc: Global, rule: &N, bytes: &[u8]) -> Result<Vec<u8>, StripFault>
    ensures ok { IfOk result (λ out. IsStripped (N.removed rule.now) bytes.now out.items) }
    ensures shorter { IfOk result (λ out. length out.items ≤ length bytes.now) }
    ensures err { IfErr result (λ e. IsWhy bytes.now e) }
    ensures none { IfErr result (λ e. HasNone bytes.now e) }
{
    tidy(alloc, rule, false, bytes)
}

/// The same, and where that is asked for with names in order: in each `name` section of a core module whose contents have a reading,
/// the subsections in the order of their ids, and in these the entries of maps in the order of their indices (WebAssembly Core
/// Specification 3.0, section 7.4.1). Those of one index keep their order. A section without a reading stays as it is.
pub fn tidy<N: StripRule>(
    alloc: Global,
    rule: &N,
    sorts: bool,
    bytes: &[u8],
) -> Result<Vec<u8>, StripFault>
    ensures ok { IfOk result (λ out. IsTidied (N.removed rule.now) sorts bytes.now out.items) }
    ensures shorter { IfOk result (λ out. length out.items ≤ length bytes.now) }
    ensures err { IfErr result (λ e. IsWhy bytes.now e) }
    ensures none { IfErr result (λ e. HasNone bytes.now e) }
{
    if let Some(rest) = behind_header(Kind::Module, bytes) {
        return tidied(alloc, rule, sorts, Kind::Module, bytes, rest);
    }
    match behind_header(Kind::Component, bytes) {
        Some(rest) => tidied(alloc, rule, sorts, Kind::Component, bytes, rest),
        None => Err(StripFault::Read { at: 0 }),
    }
}

/// The same of a binary of a kind, whose sections are these bytes.
fn tidied<N: StripRule>(
    alloc: Global,
    rule: &N,
    sorts: bool,
    kind: Kind,
    bytes: &[u8],
    rest: &[u8],
) -> Result<Vec<u8>, StripFault>
    requires { bytes.now ≡ header_of kind ++ rest.now }
    ensures ok { IfOk result (λ out. IsTidied (N.removed rule.now) sorts bytes.now out.items) }
    ensures err { IfErr result (λ e. IsWhy bytes.now e) }
{
    let mut out = begun(alloc, kind, bytes.len())?;
    add_sections(alloc, rule, sorts, kind, rest, 8, DEEPEST, &mut out)?;
    Ok(out)
}
