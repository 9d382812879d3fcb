//! What the tools over modules make of their bytes, and why they make nothing.
ghost use Rattle.std.specs.Prelude.{◌≡◌, ◌++◌, [], codes, IfOk, IfErr, None, Some, OnOk};
ghost use Rattle.reencode_run.specs.Errors.{EndsAs, HasStatus};
ghost use Rattle.reencode_run.specs.Report.{with_output};
ghost use Rattle.reencode_run.specs.Tools.{EndsMerging, EndsPruning, EndsRenumbering, ShowsMerged, ShowsPruned, ShowsRenumbered, StopsMerging, StopsPruning, StopsRenumbering, TellsMerging, TellsPruning, TellsRenumbering, no_refusal, spaced, stop};

use crate::answer::{ReencodingFault, TaskFault, fault_or_refusal};
use crate::report::add_number;
use reencode_hooks::Error;
use std::alloc::{AllocError, Global};
use std::convert::Infallible;
use wasm_merge::{MergeFault, merge};
use wasm_reach::{Pruned, ReachFault, prune};
use wasm_renumber::{RenumberFault, renumber};
use wasm_shapes::Space;

/// A fault that is said of no input by its number.
pub fn alone(fault: ReencodingFault) -> TaskFault
    ensures { result ≡ stop fault None }
{
    TaskFault { fault, by: None }
}

/// A fault that is said of the input with this number.
fn of(by: u8, fault: ReencodingFault) -> TaskFault
    ensures { result ≡ stop fault (Some by) }
{
    TaskFault {
        fault,
        by: Some(by),
    }
}

/// Adds each number behind a space.
fn add_spaced(text: &mut Vec<u8>, numbers: &[u32]) -> Result<(), AllocError>
    ensures { OnOk result (text.new.items ≡ text.old.items ++ spaced numbers.now) }
{
    'numbers: for i in 0..numbers.len() {
        text.extend_from_slice(b" ")?;
        add_number(text, numbers[i] as u64)?;
    }
    Ok(())
}

/// The line of the functions that are kept.
fn kept_line(alloc: Global, kept: &[u32]) -> Result<Vec<u8>, AllocError>
    ensures { IfOk result (λ text. text.items ≡ codes "kept" ++ spaced kept.now ++ codes "\n") }
{
    let mut text = Vec::new(alloc);
    text.extend_from_slice(b"kept")?;
    add_spaced(&mut text, kept)?;
    text.extend_from_slice(b"\n")?;
    Ok(text)
}

/// The fault that an error of a tool under a ceiling is.
fn core_fault(e: Error<Infallible>, ceiling: u32) -> ReencodingFault
    requires { HasStatus e }
    ensures { EndsAs no_refusal ceiling e result }
{
    match fault_or_refusal(e, ceiling) {
        Ok(fault) => fault,
        Err(never) => match never {},
    }
}

/// How a fault of the renumbering is told.
fn renumbering_fault(fault: RenumberFault, ceiling: u32) -> TaskFault
    requires { EndsRenumbering fault }
    ensures { TellsRenumbering ceiling fault result }
{
    match fault {
        RenumberFault::Core(e) => alone(core_fault(e, ceiling)),
        RenumberFault::Repeated { id } => alone(ReencodingFault::Repeated { id }),
        RenumberFault::Uneven { functions, bodies } => alone(ReencodingFault::Uneven {
            stated: functions,
            rows: bodies,
        }),
        RenumberFault::NotAnOrder { place } => alone(ReencodingFault::NotAnOrder { place }),
        RenumberFault::NoMemory => alone(ReencodingFault::NoMemory),
    }
}

/// How a fault of the pruning is told.
fn pruning_fault(fault: ReachFault, ceiling: u32) -> TaskFault
    requires { EndsPruning fault }
    ensures { TellsPruning ceiling fault result }
{
    match fault {
        ReachFault::Core(e) => alone(core_fault(e, ceiling)),
        ReachFault::Repeated { id } => alone(ReencodingFault::Repeated { id }),
        ReachFault::Uneven { functions, bodies } => alone(ReencodingFault::Uneven {
            stated: functions,
            rows: bodies,
        }),
        ReachFault::Dangling { index } => alone(ReencodingFault::Dangling {
            space: Space::Function,
            index,
        }),
        ReachFault::NoMemory => alone(ReencodingFault::NoMemory),
    }
}

/// How a fault of the merging is told.
fn merging_fault(fault: MergeFault, ceiling: u32) -> TaskFault
    requires { EndsMerging fault }
    ensures { TellsMerging ceiling fault result }
{
    match fault {
        MergeFault::Core { by, error } => of(by, core_fault(error, ceiling)),
        MergeFault::Repeated { by, id } => of(by, ReencodingFault::Repeated { id }),
        MergeFault::Uneven { by, stated, rows } => {
            of(by, ReencodingFault::Uneven { stated, rows })
        }
        MergeFault::Dangling { by, space, index } => {
            of(by, ReencodingFault::Dangling { space, index })
        }
        MergeFault::TwoStarts => alone(ReencodingFault::TwoStarts),
        MergeFault::Clash { name } => alone(ReencodingFault::Clash { name }),
        MergeFault::TooLarge { size } => alone(ReencodingFault::TooLarge { size, ceiling }),
        MergeFault::NoMemory => alone(ReencodingFault::NoMemory),
    }
}

/// The module whose functions are moved to where an order says.
pub fn renumbered(
    alloc: Global,
    bytes: &[u8],
    order: &[u32],
    ceiling: u32,
) -> Result<Vec<u8>, TaskFault>
    ensures ok { IfOk result (λ output. ShowsRenumbered order.now ceiling bytes.now
        (with_output output.items [])) }
    ensures stops { IfErr result (StopsRenumbering order.now ceiling bytes.now) }
{
    match renumber(alloc, bytes, order, ceiling) {
        Ok(output) => Ok(output),
        Err(fault) => Err(renumbering_fault(fault, ceiling)),
    }
}

/// A module without the functions that nothing reaches, and the line of those that are kept.
pub fn pruned(alloc: Global, bytes: &[u8], ceiling: u32) -> Result<(Vec<u8>, Vec<u8>), TaskFault>
    ensures ok { IfOk result (λ p. ShowsPruned ceiling bytes.now
        (with_output p.0.items p.1.items)) }
    ensures stops { IfErr result (StopsPruning ceiling bytes.now) }
{
    match prune(alloc, bytes, ceiling) {
        Ok(
            Pruned {
                bytes: output,
                kept,
            },
        ) => match kept_line(alloc, kept.as_slice()) {
            Ok(line) => Ok((output.into_vec(), line)),
            Err(_) => Err(alone(ReencodingFault::NoMemory)),
        },
        Err(fault) => Err(pruning_fault(fault, ceiling)),
    }
}

/// The one module that is made of two.
pub fn merged(
    alloc: Global,
    first: &[u8],
    second: &[u8],
    ceiling: u32,
) -> Result<Vec<u8>, TaskFault>
    ensures ok { IfOk result (λ output. ShowsMerged second.now ceiling first.now
        (with_output output.items [])) }
    ensures stops { IfErr result (StopsMerging second.now ceiling first.now) }
{
    match merge(alloc, first, second, ceiling) {
        Ok(output) => Ok(output),
        Err(fault) => Err(merging_fault(fault, ceiling)),
    }
}
