//! The calls of a module of which nothing is refused, in one pass over its sections.
ghost use Rattle.std.specs.Prelude.{◌≡◌, ◌<◌, ◌+◌, ◌++◌, List, length, map, IfOk, IfSome, OnOk};
ghost use Rattle.std.specs.List.{All};
ghost use Rattle.wasm_shapes.specs.declared.SectionId.TheVariants as kinds;
ghost use Rattle.wasm_shapes.specs.Module.{CoreReading, InFrame, numbered_frame};
ghost use Rattle.wasm_shapes.specs.SectionTable.{number};
ghost use Rattle.wasm_shapes.specs.Tree.{Tree};
ghost use Rattle.module_spaces.specs.Sections.{rows_in};
ghost use Rattle.wasm_reach.specs.Graph.{AreCalls};
ghost use Rattle.wasm_reach.specs.Notes.{calls, functions_of, roots, section_roots};

use crate::checks::decide;
use crate::graph::ModuleCalls;
use crate::notes::{note_bodies, note_custom, note_rows};
use call_graph::CallGraph;
use module_spaces::measure;
use std::alloc::Global;
use wasm_leb::{List, NoMemory};
use wasm_read::{Payload, Payloads};
use wasm_shapes::SectionId;

/// The functions that a module asks for.
#[derive(Drop)]
struct Seen {
    /// By the sections of known kinds but that of code.
    roots: Vec<u32>,
    /// By each body.
    calls: CallGraph,
}

/// The calls of a module of which nothing is refused. Of None nothing is said.
pub(crate) fn at_once(alloc: Global, bytes: &[u8]) -> Option<ModuleCalls>
    ensures ok { IfSome result (λ c. AreCalls bytes.now c.imports c.roots c.calls) }
    ensures few { IfSome result (λ c. c.imports + length c.calls < 4294967295) }
{
    let Some(counts) = measure(alloc, bytes) else {
        return None;
    };
    let Ok(numbers) = decide(counts, None) else {
        return None;
    };
    let bound = numbers.imports.saturating_add(numbers.defined);
    let Ok(seen) = note_all(alloc, bound, bytes) else {
        return None;
    };
    let Seen { roots, calls } = seen;
    Some(ModuleCalls {
        imports: numbers.imports,
        roots: List::from_vec(roots),
        calls,
    })
}

/// What a module asks for, where it has a reading and that is among so many functions.
fn note_all(alloc: Global, bound: u32, bytes: &[u8]) -> Result<Seen, NoMemory>
    ensures read { OnOk result ((t : Tree) × CoreReading bytes.now t) }
    ensures below { OnOk result ((t : Tree) → CoreReading bytes.now t → All (λ i. i < bound) (functions_of t)) }
    ensures roots { IfOk result (λ s. (t : Tree) → CoreReading bytes.now t → s.roots.items ≡ roots t) }
    ensures calls { IfOk result (λ s. (t : Tree) → CoreReading bytes.now t → s.calls ≡ calls t) }
{
    let mut seen = Seen {
        roots: Vec::new(alloc),
        calls: CallGraph::new(alloc),
    };
    let Ok(mut payloads) = Payloads::new(bytes) else {
        return Err(NoMemory);
    };
    'sections: loop {
        match payloads.next() {
            Ok(Some(Payload::Section { id, body, .. })) => {
                match note_kind(alloc, &mut seen, bound, id, body) {
                    Ok(()) => {}
                    Err(NoMemory) => return Err(NoMemory),
                }
            }
            Ok(Some(Payload::Custom { section, .. })) => match note_custom(alloc, bound, section) {
                Ok(()) => {}
                Err(NoMemory) => return Err(NoMemory),
            },
            Ok(Some(Payload::Unknown { .. })) => {}
            Ok(None) => return Ok(seen),
            Err(_) => return Err(NoMemory),
        }
    }
}

/// Notes what a section of a kind asks for, which must be among so many functions, and of code what each body does.
fn note_kind(
    alloc: Global,
    seen: &mut Seen,
    bound: u32,
    id: SectionId,
    body: &[u8],
) -> Result<(), NoMemory>
    ensures read { OnOk result ((t : Tree) × InFrame t (numbered_frame (number id) body.now)) }
    ensures below { OnOk result ((t : Tree) → InFrame t (numbered_frame (number id) body.now)
        → All (λ i. i < bound) (functions_of t)) }
    ensures roots { OnOk result ((t : Tree) → InFrame t (numbered_frame (number id) body.now)
        → seen.new.roots.items ≡ seen.old.roots.items ++ section_roots t) }
    ensures calls { OnOk result ((t : Tree) → InFrame t (numbered_frame (number id) body.now)
        → seen.new.calls ≡ seen.old.calls ++ map functions_of (rows_in kinds.Code t)) }
{
    match id {
        SectionId::Code => note_bodies(alloc, &mut seen.calls, bound, body),
        _ => note_rows(alloc, &mut seen.roots, bound, id, body),
    }
}
