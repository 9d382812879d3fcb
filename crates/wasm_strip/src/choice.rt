//! A rule to choose from.
ghost use Rattle.std.specs.Prelude.{◌≡◌};
ghost use Rattle.std.specs.Bool.{Decides};
ghost use Rattle.wasm_strip.specs.Choices.{IsMalformed, begins, is_debug, is_names, is_one_of, is_stale, stays_by_default};

use crate::component_names::are_component_names;
use crate::names::are_names;
use crate::rule::StripRule;
use wasm_leb::Kind;

/// What is removed. Where nothing is chosen all custom sections are, but names, `component-type:*` and `dylink.0`.
#[derive(Clone, Copy, Debug)]
pub struct Choice<'a> {
    /// The sections `name` and `component-name`.
    pub names: bool,
    /// The sections `name` of core modules, and `component-name` of components, whose contents have no reading.
    pub malformed: bool,
    /// What a debugger reads: `.debug_*`, `sourceMappingURL`, `external_debug_info`.
    pub debug: bool,
    /// What tells places in code: `reloc.*`, `.debug_*`, `metadata.code.*`, `sourceMappingURL`.
    pub stale: bool,
    /// All custom sections.
    pub all: bool,
    /// The sections of these names.
    pub sections: &'a [&'a str],
}

impl<'a> StripRule for Choice<'a> {
    ghost use Rattle.wasm_strip.specs.Choices.{RemovedBy};

    ghost removed = { λ c. RemovedBy c.names c.malformed c.debug c.stale c.all c.sections.now };

    fn removes(&self, kind: Kind, name: &str, contents: &[u8]) -> bool {
        self.removes_by_name(name) || self.malformed && is_malformed(kind, name, contents)
    }
}

impl<'a> Choice<'a> {
    ghost use Rattle.std.specs.Prelude.{◌≡◌, not, ◌&&◌};
    ghost use Rattle.wasm_strip.specs.Choices.{is_empty, removed_by};

    /// Whether nothing is chosen.
    fn is_default(&self) -> bool
        ensures { result ≡ (not self.now.all && not self.now.names && not self.now.malformed && not self.now.debug
            && not self.now.stale && is_empty self.now.sections.now) }
    {
        !self.all
            && !self.names
            && !self.malformed
            && !self.debug
            && !self.stale
            && self.sections.is_empty()
    }

    /// Whether sections of this name are removed whatever they hold.
    pub fn removes_by_name(&self, name: &str) -> bool
        ensures { result ≡ removed_by self.now.names self.now.malformed self.now.debug self.now.stale self.now.all
            self.now.sections.now name.now }
    {
        self.all
            || self.names && is_names(name)
            || self.debug && is_debug(name)
            || self.stale && is_stale(name)
            || is_one_of(self.sections, name)
            || self.is_default() && !stays_by_default(name)
    }
}

/// Whether a section holds the names of a core module, or of a component, and its contents have no reading.
fn is_malformed(kind: Kind, name: &str, contents: &[u8]) -> bool
    ensures { Decides result (IsMalformed kind name.now contents.now) }
{
    match kind {
        Kind::Module => name == "name" && !are_names(contents),
        Kind::Component => name == "component-name" && !are_component_names(contents),
    }
}

/// Whether a name begins with a text.
fn begins(front: &str, name: &str) -> bool
    ensures { result ≡ begins front.now name.now }
{
    name.as_bytes().starts_with(front.as_bytes())
}

/// Whether a section holds names.
fn is_names(name: &str) -> bool
    ensures { result ≡ is_names name.now }
{
    name == "name" || name == "component-name"
}

/// Whether a section is there for a debugger.
fn is_debug(name: &str) -> bool
    ensures { result ≡ is_debug name.now }
{
    begins(".debug_", name) || name == "sourceMappingURL" || name == "external_debug_info"
}

/// Whether a section tells places in code.
fn is_stale(name: &str) -> bool
    ensures { result ≡ is_stale name.now }
{
    begins("reloc.", name)
        || begins(".debug_", name)
        || begins("metadata.code.", name)
        || name == "sourceMappingURL"
}

/// Whether a section stays where nothing is chosen.
fn stays_by_default(name: &str) -> bool
    ensures { result ≡ stays_by_default name.now }
{
    is_names(name) || begins("component-type:", name) || name == "dylink.0"
}

/// Whether a name is one of these.
fn is_one_of(names: &[&str], name: &str) -> bool
    ensures { result ≡ is_one_of names.now name.now }
{
    names.iter().any(|one| *one == name)
}
