//! The top call over files.
ghost use Rattle.std.specs.Prelude.{None, Some, ℕ, [], ◌≡◌, ◌≢◌, ◌≤◌, ◌++◌, codes, IfOk, IfErr, OnOk, OnErr};
ghost use Rattle.reencode_run.specs.Answer.{Ends, IsDecided, IsMaking, IsOfFile, Made, Says, ended, lines_of, module_name, name_at, name_of, output_of, outside, status_of, text_of};
ghost use Rattle.reencode_run.specs.Outside.{Rose, TookFront, WhereTold, followed};
ghost use Rattle.reencode_run.specs.Requests.{job_of, name_told, status_in};
ghost use Rattle.reencode_run.specs.Words.{command_seen, files, functions};
ghost use Rattle.reencode_run.specs.declared.answer.Answer.{Answer};

use crate::answer::Answer;
use crate::outside::{Failed, Shelf, Sink, Source};
use crate::tool::perform;
use crate::words::{Command, Job, Notation};
use crate::write::write_both;
use std::alloc::Global;

/// What is asked of a program over files.
#[derive(Clone, Copy, Debug)]
pub struct Request<'a> {
    /// The most bytes that a frame of the output may have.
    pub ceiling: u32,
    /// The most bytes that the input, or the file of a module, may have.
    pub most: u32,
    /// What is to be done.
    pub command: Command<'a>,
    /// The name of the input.
    pub input: &'a str,
    /// The name of the output.
    pub output: &'a str,
}

/// The name of the file of a command at this place.
fn name_at<'a>(command: Command<'a>, place: u8) -> &'a str
    // However long the file of a module may be.
    ensures { (most : ℕ) → result.now ≡ name_at (files (command_seen most command.entry)) place }
{
    match command {
        Command::Rename { file, .. } if place == 0 => file,
        Command::Twice { first, .. } if place == 0 => first,
        Command::Twice { second, .. } if place == 1 => second,
        Command::Renumber(file) if place == 0 => file,
        Command::Merge(file) if place == 0 => file,
        _ => "",
    }
}

/// The name of the module with this number.
fn module_name<'a>(request: Request<'a>, by: Option<u8>) -> &'a str
    ensures { result.now
        ≡ module_name (job_of request.entry).command request.entry.input.now by }
{
    match by {
        Some(2) => name_at(request.command, 0),
        _ => request.input,
    }
}

/// The name of the file that an end is said of.
fn name_of<'a>(request: Request<'a>, answer: &Answer) -> &'a str
    ensures { result.now ≡ name_told request.entry answer.now }
{
    match answer {
        Answer::File(_, place) => name_at(request.command, *place),
        Answer::Reencoding(e) => module_name(request, e.by),
        Answer::Writing(_) => request.output,
        _ => request.input,
    }
}

/// Says how a program ends behind the name of a file, with a line end behind it. After a failure a front of it was taken.
pub fn say_of<D: Sink>(name: &[u8], answer: &Answer, err: &mut D) -> Result<(), Failed>
    ensures rises { D.faults err.old ≤ D.faults err.new }
    ensures ok { OnOk result
        (WhereTold (D.held err.new)
        (followed (D.held err.old) (name.now ++ codes ": " ++ text_of answer.now ++ codes "\n"))) }
    ensures failed { OnErr result (Rose (D.faults err.old) (D.faults err.new)) }
    ensures front { OnErr result
        (TookFront (D.held err.old) (D.held err.new)
        (name.now ++ codes ": " ++ text_of answer.now ++ codes "\n")) }
{
    match write_both(err, name, b": ") {
        Ok(()) => answer.say(err),
        Err(Failed) => Err(Failed),
    }
}

/// Says how a program ends, behind the name of the file that this is said of.
fn tell_of<D: Sink>(request: Request<'_>, answer: &Answer, err: &mut D)
    ensures rises { D.faults err.old ≤ D.faults err.new }
    ensures says { Says (D.faults err.old) (D.faults err.new) (D.held err.old) (D.held err.new)
        (name_told request.entry answer.now ++ codes ": " ++ text_of answer.now ++ codes "\n") }
{
    let name = name_of(request, answer);
    let _ = say_of(name.as_bytes(), answer, err);
}

/// Does what is asked for with the bytes of a source, and hands the bytes of the output to a sink. The lines about it come back: of
/// `Plain`, `Rename` and `Twice` how often each hook was called, and of `Prune` which functions are kept. Where it makes
/// nothing, the status comes back, as `Answer::status` tells them, and the name of the file and what is wrong are said on `err`.
///
/// Each FILE is looked at first, the input, the re-encoding and the output. All memory is taken before the first write to `out`.
pub fn transform<F: Shelf, S: Source, K: Sink, D: Sink>(
    alloc: Global,
    request: Request<'_>,
    shelf: &mut F,
    input: &mut S,
    out: &mut K,
    err: &mut D,
) -> Result<Vec<u8>, u8>
    // A source is read only where the command asks for it, and no further behind its end or a failure.
    requires { functions (job_of request).command ≡ None → S.can_read input.old }

    // What is handed to the sink are the bytes of the output, and nothing else.
    ensures written { IfOk result (λ lines. (made : Made (job_of request.entry) (F.texts shelf.old)
        (S.left input.old) (S.left input.new))
        × WhereTold (K.held out.new) (followed (K.held out.old) (output_of made))
        × (lines.items ≡ lines_of made)) }

    // It ends as its status says, and that is told of the file that it comes of.
    ensures ends { IfErr result (λ status. (answer : Answer) × (status ≡ status_of answer)
        × Ends (job_of request.entry)
        (outside F.Shelf S.Source K.Sink shelf.old shelf.new input.old input.new out.old out.new)
        (input.new ≡ input.old) status (text_of answer)
        × IsOfFile (job_of request.entry).command (F.texts shelf.old) (F.faults shelf.old)
        (F.faults shelf.new) answer
        × Says (D.faults err.old) (D.faults err.new) (D.held err.old) (D.held err.new)
        (name_told request.entry answer ++ codes ": " ++ text_of answer ++ codes "\n")) }

    // Each file, the input, the re-encoding and the sink decide, in this order.
    ensures decided { IsDecided (Rose (F.faults shelf.old) (F.faults shelf.new))
        (Rose (S.faults input.old) (S.faults input.new))
        (Rose (K.faults out.old) (K.faults out.new))
        (Some (job_of request.entry)) (F.texts shelf.old) (S.left input.old) (status_in result) }

    // A status that comes back is none of success, and with each but 4 the sink is as it was.
    ensures stopped { IfErr result (λ status. status ≢ 0) }
    ensures untouched { IfErr result (λ status. status ≢ 4 → out.new ≡ out.old) }
    ensures quiet { IfOk result (λ lines. err.new ≡ err.old) }

    // A made module takes nothing of the source, a command without a file nothing of the shelf.
    ensures unread { IsMaking (job_of request.entry).command → input.new ≡ input.old }
    ensures unfetched { files (job_of request.entry).command ≡ [] → shelf.new ≡ shelf.old }

    // No count of failures falls.
    ensures shelf_rises { F.faults shelf.old ≤ F.faults shelf.new }
    ensures input_rises { S.faults input.old ≤ S.faults input.new }
    ensures out_rises { K.faults out.old ≤ K.faults out.new }
    ensures err_rises { D.faults err.old ≤ D.faults err.new }
{
    let job = Job {
        is_text: false,
        notation: Notation::Binary,
        ceiling: request.ceiling,
        most: request.most,
        command: request.command,
    };
    match perform(alloc, job, shelf, input, out) {
        Ok(lines) => Ok(lines),
        Err(answer) => {
            tell_of(request, &answer, err);
            Err(answer.status())
        }
    }
}
