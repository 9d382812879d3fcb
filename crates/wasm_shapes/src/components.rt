//! The laws of components, as functions that do nothing: each one's contract is the law.
ghost use Rattle.wasm_shapes.specs.ComponentLaws.{AreComponentsSound, AreNested, AreOneReading, IsAsDeep, IsComponentHeaded, IsReadBackAt, KeepsNestedImports};
ghost use Rattle.wasm_shapes.specs.Scopes.{AreDeepest};

/// The tables of components pass the test.
#[tactic(auto, using(crate::proofs::ComponentLaws::components_sound))]
pub fn components_are_sound()
    ensures { AreComponentsSound }
{}

/// A component is its header and its sections.
#[tactic(auto, using(crate::proofs::ComponentLaws::component_headed))]
pub fn component_header_spells()
    ensures { IsComponentHeaded }
{}

/// Bytes have at most one reading as a core module, at most one as a component, and never both.
#[tactic(auto, using(crate::proofs::ComponentLaws::one_reading))]
pub fn bytes_have_one_reading()
    ensures { AreOneReading }
{}

/// A nested module or component reads as a scope exactly where it has a reading of its own, with one scope more open round it.
#[tactic(auto, using(crate::proofs::Nested::nested))]
pub fn nested_readings()
    ensures { AreNested }
{}

/// The normal spelling of a reading of a component, filled, reads as it at the same depth.
#[tactic(auto, using(crate::proofs::ComponentLaws::read_back_at))]
pub fn component_reads_back()
    ensures { IsReadBackAt }
{}

/// Components in whose core modules all imports are single ones read as they do by the table without compact rows.
pub fn nested_imports_stay()
    ensures { KeepsNestedImports }
{}

/// A tree filled with answers opens as many scopes within each other as before.
#[tactic(auto, using(crate::proofs::ComponentLaws::as_deep))]
pub fn answers_open_no_scope()
    ensures { IsAsDeep }
{}

/// As many scopes are open at once as the tree opens within each other.
#[tactic(auto, using(crate::proofs::Scopes::most_is_opens))]
pub fn opens_is_deepest()
    ensures { AreDeepest }
{}
