//! What a command makes, without custom sections and with names in order.
ghost use Rattle.std.specs.Prelude.{◌≡◌, ◌≢◌, ◌≤◌, ◌++◌, ℕ, List, [], None, Some, codes, IfOk, IfErr, IsErrOf};
ghost use Rattle.reencode_run.specs.Answer.{Ends, IsDecided, IsMaking, IsOfFile, Made, Says, lines_of, output_of, outside, status_of, text_of};
ghost use Rattle.reencode_run.specs.Outside.{Rose, TookFront, TookMore, WhereTold, followed};
ghost use Rattle.reencode_run.specs.Requests.{job_of, name_told};
ghost use Rattle.reencode_run.specs.Words.{files, functions};
ghost use Rattle.wasm_strip.specs.Tidied.{IsTidied};
ghost use Rattle.reencode_run.specs.declared.answer.Answer.{Answer};
ghost use Rattle.wasm_strip.specs.Faults.{HasNone, IsWhy};
ghost use Rattle.wasm_reencode.specs.Stripped.{GaveSound, IfCommand, IfSink, IfStrip, status_in, unmade};
ghost use Rattle.wasm_reencode.specs.declared.stripped.Ended.TheVariants as ended;

use reencode_run::input::{InputFault, read_all};
use reencode_run::outside::{Failed, Shelf, Sink, Source};
use reencode_run::transform::{Request, transform};
use reencode_run::write::write_all;
use std::alloc::Global;
use wasm_leb::NoMemory;
use wasm_strip::{StripFault, StripRule, tidy, without_malformed};

/// A sink in memory. It fails where memory runs out.
#[derive(Drop)]
struct Gathered {
    bytes: Vec<u8>,
    faults: u64,
}

impl Sink for Gathered {
    ghost held = { λ s. Some s.bytes.items };

    ghost faults = { λ s. s.faults };

    fn write(&mut self, piece: &[u8]) -> Result<usize, Failed> {
        match self.bytes.extend_from_slice(piece) {
            Ok(()) => Ok(piece.len()),
            Err(_) => {
                self.faults = self.faults.saturating_add(1);
                Err(Failed)
            }
        }
    }
}

/// Why nothing was made.
#[derive(Debug, Drop)]
pub enum Ended {
    /// The command ended with this status, and said why.
    Command(u8),
    /// The sections of what it made could not be told apart, or memory ran out for it.
    Strip(StripFault),
    /// The sink failed. It may have a front of the output.
    Sink,
}

/// Why nothing is made where a command ended with a status that is not 0. Its output went to memory, which is all that can fail there.
fn unmade(status: u8) -> Ended
    ensures { result ≡ unmade status }
{
    if status == 4 {
        Ended::Strip(StripFault::NoMemory)
    } else {
        Ended::Command(status)
    }
}

/// What is read of a source where malformed names are ignored: its bytes up to its end, which are at most `most`, without these.
pub fn read_sound<S: Source>(alloc: Global, input: &mut S, most: u32) -> Result<Vec<u8>, InputFault>
    requires { S.can_read input.old }
    ensures rises { S.faults input.old ≤ S.faults input.new }
    ensures sound { IfOk result (λ sound. GaveSound most (S.left input.old) (S.left input.new) sound.items) }
    ensures failed { IsErrOf result InputFault.Failed
        → Rose (S.faults input.old) (S.faults input.new) }
    ensures too_long { IsErrOf result InputFault.TooLong
        → TookMore most (S.left input.old) (S.left input.new) }
{
    match read_all(alloc, input, most) {
        Ok(bytes) => match without_malformed(alloc, bytes) {
            Ok(sound) => Ok(sound),
            Err(NoMemory) => Err(InputFault::NoMemory),
        },
        Err(fault) => Err(fault),
    }
}

/// Does what is asked for with the bytes of a source, and hands what it makes to a sink, without the custom sections that a rule
/// removes, and where that is asked for with names in order. The lines about what was made come back, as by `transform`, which says on `err` why it makes nothing.
pub fn transform_stripped<N: StripRule, F: Shelf, S: Source, K: Sink, D: Sink>(
    alloc: Global,
    request: Request<'_>,
    rule: &N,
    sorts: bool,
    shelf: &mut F,
    input: &mut S,
    out: &mut K,
    err: &mut D,
) -> Result<Vec<u8>, Ended>
    // A source is read only where the command asks for it, and no further behind its end or a failure.
    requires { functions (job_of request).command ≡ None → S.can_read input.old }

    // What is handed to the sink is what the command makes without those sections, with its names in order where that is asked for, and
    // nothing else.
    ensures written { IfOk result (λ lines. (made : Made (job_of request.entry) (F.texts shelf.old)
        (S.left input.old) (S.left input.new)) × (bytes : List ℕ)
        × IsTidied (N.removed rule.now) sorts (output_of made) bytes
        × WhereTold (K.held out.new) (followed (K.held out.old) bytes)
        × (lines.items ≡ lines_of made)) }

    // Where the command makes nothing it ends as its status says, which is none of the sink, and that is told of the file that it
    // comes of.
    ensures ends { IfCommand result (λ status. (answer : Answer) × (status ≡ status_of answer)
        × Ends (job_of request.entry)
        (outside F.Shelf S.Source K.Sink shelf.old shelf.new input.old input.new out.old out.new)
        (input.new ≡ input.old) status (text_of answer)
        × IsOfFile (job_of request.entry).command (F.texts shelf.old) (F.faults shelf.old)
        (F.faults shelf.new) answer
        × Says (D.faults err.old) (D.faults err.new) (D.held err.old) (D.held err.new)
        (name_told request.entry answer ++ codes ": " ++ text_of answer ++ codes "\n")) }
    ensures stopped { IfCommand result (λ status. (status ≢ 0) × (status ≢ 4)) }

    // Where its output is not stripped, that has the fault that is told, at its place, and no sections; or memory ran out.
    ensures unstripped { IfStrip result (λ fault. (made : Made (job_of request.entry) (F.texts shelf.old)
        (S.left input.old) (S.left input.new))
        × IsWhy (output_of made) fault × HasNone (output_of made) fault) }

    // Where the sink failed it took a front of what was to be handed over.
    ensures failed { IfSink result ((made : Made (job_of request.entry) (F.texts shelf.old)
        (S.left input.old) (S.left input.new)) × (bytes : List ℕ)
        × IsTidied (N.removed rule.now) sorts (output_of made) bytes
        × TookFront (K.held out.old) (K.held out.new) bytes
        × Rose (K.faults out.old) (K.faults out.new)) }

    // Each file, the input, the re-encoding and the sink decide, in this order. What is not stripped counts as made.
    ensures decided { IsDecided (Rose (F.faults shelf.old) (F.faults shelf.new))
        (Rose (S.faults input.old) (S.faults input.new))
        (Rose (K.faults out.old) (K.faults out.new))
        (Some (job_of request.entry)) (F.texts shelf.old) (S.left input.old) (status_in result) }

    // The sink is as it was, but where it failed. Nothing is said where the command makes something and memory suffices for it.
    ensures untouched { IfErr result (λ e. e ≢ ended.Sink → out.new ≡ out.old) }
    ensures quiet { IfOk result (λ lines. err.new ≡ err.old) }
    ensures quiet_sink { IfSink result (err.new ≡ err.old) }
    ensures quiet_strip { IfStrip result (λ fault. fault ≢ StripFault.NoMemory → err.new ≡ err.old) }

    // A made module takes nothing of the source, a command without a file nothing of the shelf.
    ensures unread { IsMaking (job_of request.entry).command → input.new ≡ input.old }
    ensures unfetched { files (job_of request.entry).command ≡ [] → shelf.new ≡ shelf.old }

    // No count of failures falls.
    ensures shelf_rises { F.faults shelf.old ≤ F.faults shelf.new }
    ensures input_rises { S.faults input.old ≤ S.faults input.new }
    ensures out_rises { K.faults out.old ≤ K.faults out.new }
    ensures err_rises { D.faults err.old ≤ D.faults err.new }
{
    let mut made = Gathered {
        bytes: Vec::new(alloc),
        faults: 0,
    };
    let lines = match transform(alloc, request, shelf, input, &mut made, err) {
        Ok(lines) => lines,
        Err(status) => return Err(unmade(status)),
    };
    let bytes = match tidy(alloc, rule, sorts, made.bytes.as_slice()) {
        Ok(bytes) => bytes,
        Err(fault) => return Err(Ended::Strip(fault)),
    };
    match write_all(out, bytes.as_slice()) {
        Ok(()) => Ok(lines),
        Err(Failed) => Err(Ended::Sink),
    }
}
