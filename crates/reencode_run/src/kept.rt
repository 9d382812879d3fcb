//! What of an input is kept in its output.
ghost use Rattle.std.specs.Prelude.{◌≡◌, ◌++◌, OnOk, IfOk, IfErr, length};
ghost use Rattle.reencode_core.specs.Pieces.{range};
ghost use Rattle.reencode_hooks.specs.Renamings.{no_renaming};
ghost use Rattle.reencode_run.specs.Kept.{Keeps, kept_lines, kept_report, range_line};
ghost use Rattle.reencode_run.specs.Renamers.{AreCounts, counts_in};
ghost use Rattle.reencode_run.specs.Tasks.{IsStopped};

use crate::answer::{ReencodingFault, reencoding_fault};
use crate::binary_taken::Taken;
use crate::renamers::Renamers;
use crate::report::{add_number, add_tail};
use reencode_core::{KeptOutput, reencode_kept};
use reencode_hooks::Renamer;
use std::alloc::{AllocError, Global};

/// Adds the line of a function body that is kept.
fn add_kept(text: &mut Vec<u8>, start: usize, end: usize) -> Result<(), AllocError>
    ensures { OnOk result (text.new.items ≡ text.old.items ++ range_line (range start end)) }
{
    text.extend_from_slice(b"kept ")?;
    add_number(text, start as u64)?;
    text.extend_from_slice(b" ")?;
    add_number(text, end as u64)?;
    text.extend_from_slice(b"\n")?;
    Ok(())
}

/// Adds the line of each function body that is kept.
fn add_bodies(text: &mut Vec<u8>, output: &KeptOutput<'_>) -> Result<(), AllocError>
    ensures { OnOk result (text.new.items ≡ text.old.items ++ kept_lines output.now.kept) }
{
    'bodies: for i in 0..output.bodies() {
        match output.body(i) {
            Some(body) => add_kept(text, body.start, body.end)?,
            None => {}
        }
    }
    Ok(())
}

/// The line of each function body that is kept, and how many bytes are kept, of how many; and behind a line end the lines of the
/// counts.
fn lines_of(
    alloc: Global,
    output: &KeptOutput<'_>,
    renamers: &Renamers,
) -> Result<Vec<u8>, AllocError>
    ensures { AreCounts renamers.now → IfOk result (λ text. text.items
        ≡ kept_report output.now.kept (length output.now.bytes) (counts_in renamers.now)) }
{
    let mut text = Vec::new(alloc);
    add_bodies(&mut text, output)?;
    text.extend_from_slice(b"bytes ")?;
    add_number(&mut text, output.kept_len())?;
    text.extend_from_slice(b" of ")?;
    add_number(&mut text, output.len())?;
    add_tail(&mut text, renamers)?;
    Ok(text)
}

/// What is printed of the re-encoding of some bytes with no index renamed, of which the function bodies that stay as they stand
/// are kept.
pub fn kept_report(alloc: Global, bytes: &[u8], ceiling: u32) -> Result<Vec<u8>, ReencodingFault>
    ensures ok { IfOk result (λ text. Keeps ceiling bytes.now text.items) }
    ensures stops { IfErr result
        (λ fault. IsStopped Taken.Modules ceiling (Renamers.Alone no_renaming) bytes.now fault) }
{
    let mut renamer = Renamer::new(alloc);
    let output = match reencode_kept(alloc, &mut renamer, bytes, ceiling) {
        Ok(output) => output,
        Err(e) => return Err(reencoding_fault(e, ceiling)),
    };
    match lines_of(alloc, &output, &Renamers::Alone(renamer)) {
        Ok(text) => Ok(text),
        Err(_) => Err(ReencodingFault::NoMemory),
    }
}
