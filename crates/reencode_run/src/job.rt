//! From a job to what is printed.
ghost use Rattle.std.specs.Prelude.{◌≡◌, ◌≤◌, ℕ, List, Option, Some, None, true, [], length, option_map, replicate, Ok, Err, IfOk, IfErr, IsErrOf, vec_len};
ghost use Rattle.reencode_hooks.specs.Renamings.{Renaming, no_renaming};
ghost use Rattle.reencode_run.specs.Answer.{Ends, FileSays, HasBytes, IsMaking, IsOfFile, Made, RefusesBytes, RefusesFile, RefusesSource, RefusesTask, Takes, Uses, status_of, text_of};
ghost use Rattle.reencode_run.specs.Generated.{generated};
ghost use Rattle.reencode_run.specs.Renamers.{AreCounts};
ghost use Rattle.reencode_run.specs.Report.{lengths_report, lines_alone, report, shown, with_output};
ghost use Rattle.reencode_run.specs.Outside.{HasText};
ghost use Rattle.reencode_run.specs.Tasks.{Does, HasCounts, IsStopped, Reports, formed, most_of, strictly};
ghost use Rattle.reencode_run.specs.Words.{Kind, command_seen, files, functions, job_seen, of_module, of_order, of_renaming};

use crate::answer::{Answer, FileFault, ReencodingFault, TaskFault, WritingFault};
use crate::binary_taken::Taken;
use crate::buffer::zeros;
use crate::generate::generated;
use crate::hexadecimal::{TextFault, binary};
use crate::input::{InputFault, read_all};
use crate::kept::kept_report;
use crate::order::order_of;
use crate::outside::{Shelf, ShelfFault, Source};
use crate::reencoded::reencoded;
use crate::renamers::Renamers;
use crate::renaming::{RenamingFault, renaming_of};
use crate::report::{lines_of, made_lines};
use crate::task::Task;
use crate::tools::{alone, merged, pruned, renumbered};
use crate::words::{Command, Job, functions};
use reencode_hooks::{Chain, Renamer};
use std::alloc::Global;
use wasm_leb::List;

/// The most bytes that the file of a renaming or of an order may have: 1 MiB.
const MOST_RENAMING: u32 = 1_048_576;

/// The size of the buffer through which digits are written: 64 KiB.
const PIECE: usize = 65_536;

/// What is to be printed, with all memory that this takes.
#[derive(Drop)]
pub struct Ready {
    /// The bytes of the output, where there is one.
    pub output: Option<Vec<u8>>,
    /// The lines about it.
    pub lines: Vec<u8>,
    /// The room through which digits go.
    pub buffer: Vec<u8>,
}

/// The text of a file, of at most so many bytes.
fn fetched<F: Shelf>(
    alloc: Global,
    file: &str,
    most: u32,
    shelf: &mut F,
) -> Result<Vec<u8>, FileFault>
    ensures rises { F.faults shelf.old ≤ F.faults shelf.new }
    ensures same { F.texts shelf.new ≡ F.texts shelf.old }
    ensures within { IfOk result (λ text. vec_len text ≤ most) }
    ensures text { IfOk result (λ text. HasText (F.texts shelf.old) file.now text.items) }
    ensures stops { IfErr result
        (λ fault. (k : Kind) → most ≡ most_of k
        → RefusesFile k file.now (F.texts shelf.old) (F.faults shelf.old)
        (F.faults shelf.new) fault) }
{
    match shelf.fetch(alloc, file, most) {
        Ok(text) => Ok(text),
        Err(ShelfFault::Failed) => Err(FileFault::Failed),
        Err(ShelfFault::TooLong) => Err(FileFault::TooLong),
        Err(ShelfFault::NoMemory) => Err(FileFault::NoMemory),
    }
}

/// A renamer that is strict also where that is asked for.
fn strictly(mut renamer: Renamer, strict: bool) -> Renamer
    ensures { result ≡ strictly strict renamer }
{
    if strict {
        renamer.set_strict(true);
    }
    renamer
}

/// The renamer that a file says, strict also where that is asked for.
fn renamer_of_file<F: Shelf>(
    alloc: Global,
    file: &str,
    strict: bool,
    shelf: &mut F,
) -> Result<Renamer, FileFault>
    ensures rises { F.faults shelf.old ≤ F.faults shelf.new }
    ensures same { F.texts shelf.new ≡ F.texts shelf.old }
    ensures says { IfOk result (λ renamer. (said : Renaming)
        × FileSays of_renaming (F.texts shelf.old) file.now said × (renamer ≡ strictly strict said)) }
    ensures counts { IfOk result (λ renamer. renamer.counts ≡ replicate 19 0) }
    ensures stops { IfErr result
        (λ fault. RefusesFile of_renaming file.now (F.texts shelf.old) (F.faults shelf.old)
        (F.faults shelf.new) fault) }
{
    let text = match fetched(alloc, file, MOST_RENAMING, shelf) {
        Ok(text) => text,
        Err(fault) => return Err(fault),
    };
    match renaming_of(alloc, text.as_slice()) {
        Ok(renamer) => Ok(strictly(renamer, strict)),
        Err(RenamingFault::Bad) => Err(FileFault::Bad),
        Err(RenamingFault::NoMemory) => Err(FileFault::NoMemory),
    }
}

/// The order that a file says.
fn order_of_file<F: Shelf>(alloc: Global, file: &str, shelf: &mut F) -> Result<List<u32>, FileFault>
    ensures rises { F.faults shelf.old ≤ F.faults shelf.new }
    ensures says { IfOk result (λ order. FileSays of_order (F.texts shelf.old) file.now order) }
    ensures stops { IfErr result
        (λ fault. RefusesFile of_order file.now (F.texts shelf.old) (F.faults shelf.old)
        (F.faults shelf.new) fault) }
{
    let text = match fetched(alloc, file, MOST_RENAMING, shelf) {
        Ok(text) => text,
        Err(fault) => return Err(fault),
    };
    match order_of(alloc, text.as_slice()) {
        Ok(order) => Ok(order),
        Err(RenamingFault::Bad) => Err(FileFault::Bad),
        Err(RenamingFault::NoMemory) => Err(FileFault::NoMemory),
    }
}

/// The text, of at most so many bytes, of a file that has a module.
fn module_of_file<F: Shelf>(
    alloc: Global,
    file: &str,
    most: u32,
    shelf: &mut F,
) -> Result<List<u8>, FileFault>
    ensures rises { F.faults shelf.old ≤ F.faults shelf.new }
    ensures says { IfOk result
        (λ text. FileSays (of_module most) (F.texts shelf.old) file.now text) }
    ensures stops { IfErr result
        (λ fault. RefusesFile (of_module most) file.now (F.texts shelf.old) (F.faults shelf.old)
        (F.faults shelf.new) fault) }
{
    let text = match fetched(alloc, file, most, shelf) {
        Ok(text) => text,
        Err(fault) => return Err(fault),
    };
    Ok(List::from_vec(text))
}

/// What a command does, by what its files say, of which that of a module has at most so many bytes. A fault stands with the place of
/// its file.
fn task_of<F: Shelf>(
    alloc: Global,
    command: Command<'_>,
    most: u32,
    shelf: &mut F,
) -> Result<Task, (FileFault, u8)>
    ensures rises { F.faults shelf.old ≤ F.faults shelf.new }
    ensures uses { IfOk result
        (λ task. Uses (command_seen most command.entry) (F.texts shelf.old) task) }
    ensures counts { IfOk result HasCounts }
    ensures stops { IfErr result
        (λ e. RefusesTask (command_seen most command.entry) (F.texts shelf.old)
        (F.faults shelf.old) (F.faults shelf.new) e.0 e.1) }
    ensures unfetched { files (command_seen most command.entry) ≡ [] → shelf.new ≡ shelf.old }
{
    match command {
        Command::Plain => Ok(Task::Reencode(Renamers::Alone(Renamer::new(alloc)))),
        Command::Rename { file, strict } => match renamer_of_file(alloc, file, strict, shelf) {
            Ok(renamer) => Ok(Task::Reencode(Renamers::Alone(renamer))),
            Err(fault) => Err((fault, 0)),
        },
        Command::Twice {
            first,
            second,
            strict,
        } => {
            let a = match renamer_of_file(alloc, first, strict, shelf) {
                Ok(a) => a,
                Err(fault) => return Err((fault, 0)),
            };
            match renamer_of_file(alloc, second, strict, shelf) {
                Ok(b) => Ok(Task::Reencode(Renamers::Both(Chain::new(a, b)))),
                Err(fault) => Err((fault, 1)),
            }
        }
        Command::Generate(n) => Ok(Task::Generate(n)),
        Command::KeepReport => Ok(Task::KeepReport),
        Command::Renumber(file) => match order_of_file(alloc, file, shelf) {
            Ok(order) => Ok(Task::Renumber(order)),
            Err(fault) => Err((fault, 0)),
        },
        Command::Prune => Ok(Task::Prune),
        Command::Merge(file) => match module_of_file(alloc, file, most, shelf) {
            Ok(text) => Ok(Task::Merge(text)),
            Err(fault) => Err((fault, 0)),
        },
    }
}

/// A task in the form that is asked for: with `-x` the module of a file is what its text is the hexadecimal text of.
fn formed(alloc: Global, is_text: bool, task: Task) -> Result<Task, TextFault>
    ensures ok { IfOk result (λ t. formed is_text task ≡ Some t) }
    ensures counts { HasCounts task → IfOk result HasCounts }
    ensures none { IsErrOf result TextFault.NotHexadecimal
        → (is_text ≡ true) × (formed true task ≡ None) }
{
    match task {
        Task::Merge(text) if is_text => match binary(alloc, text.into_vec()) {
            Ok(bytes) => Ok(Task::Merge(List::from_vec(bytes))),
            Err(fault) => Err(fault),
        },
        task => Ok(task),
    }
}

/// The bytes that the input, of at most so many bytes, is, or is the hexadecimal text of.
fn read_bytes<S: Source>(
    alloc: Global,
    most: u32,
    is_text: bool,
    input: &mut S,
) -> Result<Vec<u8>, Answer>
    requires { S.can_read input.old }
    ensures rises { S.faults input.old ≤ S.faults input.new }
    ensures ok { IfOk result
        (λ bytes. HasBytes most is_text (S.left input.old) (S.left input.new) bytes.items) }
    ensures stops { IfErr result
        (λ answer. RefusesSource most is_text (S.faults input.old) (S.faults input.new)
        (S.left input.old) (S.left input.new) answer) }
{
    let text = match read_all(alloc, input, most) {
        Ok(text) => text,
        Err(fault) => return Err(Answer::Input(fault)),
    };
    if !is_text {
        return Ok(text);
    }
    match binary(alloc, text) {
        Ok(bytes) => Ok(bytes),
        Err(fault) => Err(Answer::Digits(fault)),
    }
}

/// The bytes of a made module.
fn made_bytes(alloc: Global, n: u32) -> Result<Vec<u8>, Answer>
    ensures ok { IfOk result (λ bytes. bytes.items ≡ generated n) }
    ensures stops { IfErr result (λ answer. answer ≡ Answer.Input InputFault.NoMemory) }
{
    match generated(alloc, n) {
        Ok(bytes) => Ok(bytes),
        Err(_) => Err(Answer::Input(InputFault::NoMemory)),
    }
}

/// The bytes of a command.
fn bytes_of<S: Source>(
    alloc: Global,
    command: Command<'_>,
    most: u32,
    is_text: bool,
    input: &mut S,
) -> Result<Vec<u8>, Answer>
    requires { functions (command_seen most command) ≡ None → S.can_read input.old }
    ensures rises { S.faults input.old ≤ S.faults input.new }
    ensures takes { IfOk result
        (λ bytes. Takes (command_seen most command.entry) most is_text
        (S.left input.old) (S.left input.new) bytes.items) }
    ensures stops { IfErr result
        (λ answer. RefusesBytes (command_seen most command.entry) most is_text
        (S.faults input.old) (S.faults input.new) (S.left input.old) (S.left input.new) answer) }
    ensures unread { IsMaking (command_seen most command.entry) → input.new ≡ input.old }
{
    match functions(command) {
        Some(n) => made_bytes(alloc, n),
        None => read_bytes(alloc, most, is_text, input),
    }
}

/// What the re-encoding makes, and the lines of the counts.
#[tactic(auto, using(crate::proofs::Reports::reports))]
fn counted(
    alloc: Global,
    renamers: Renamers,
    bytes: &[u8],
    ceiling: u32,
) -> Result<(Vec<u8>, Vec<u8>), ReencodingFault>
    requires { AreCounts renamers }
    ensures ok { IfOk result (λ p. Reports Taken.Binaries ceiling renamers bytes.now report
        (with_output p.0.items p.1.items)) }
    ensures stops { IfErr result
        (λ fault. IsStopped Taken.Binaries ceiling renamers bytes.now fault) }
{
    let made = reencoded(alloc, Taken::Binaries, renamers, bytes, ceiling)?;
    match lines_of(alloc, &made.1) {
        Ok(lines) => Ok((made.0, lines)),
        Err(_) => Err(ReencodingFault::NoMemory),
    }
}

/// How long the bytes and what the re-encoding makes of them are where nothing is renamed, and the lines of the counts.
fn lengths(
    alloc: Global,
    functions: u32,
    bytes: &[u8],
    ceiling: u32,
) -> Result<Vec<u8>, ReencodingFault>
    ensures ok { IfOk result
        (λ text. Reports Taken.Modules ceiling (Renamers.Alone no_renaming) bytes.now
        (lengths_report functions (length bytes.now)) (lines_alone text.items)) }
    ensures stops { IfErr result
        (λ fault. IsStopped Taken.Modules ceiling (Renamers.Alone no_renaming) bytes.now fault) }
{
    let renamers = Renamers::Alone(Renamer::new(alloc));
    let made = reencoded(alloc, Taken::Modules, renamers, bytes, ceiling)?;
    match made_lines(alloc, functions, bytes.len(), made.0.len(), &made.1) {
        Ok(lines) => Ok(lines),
        Err(_) => Err(ReencodingFault::NoMemory),
    }
}

/// What a task shows: its output, where it has one, and the lines about it.
fn shown(
    alloc: Global,
    task: Task,
    bytes: &[u8],
    ceiling: u32,
) -> Result<(Option<Vec<u8>>, Vec<u8>), TaskFault>
    requires { HasCounts task }
    ensures ok { IfOk result
        (λ p. Does task ceiling bytes.now (Ok (shown (option_map (λ v. v.items) p.0) p.1.items))) }
    ensures stops { IfErr result (λ fault. Does task ceiling bytes.now (Err fault)) }
{
    match task {
        Task::Reencode(renamers) => match counted(alloc, renamers, bytes, ceiling) {
            Ok((output, lines)) => Ok((Some(output), lines)),
            Err(fault) => Err(alone(fault)),
        },
        Task::Generate(n) => match lengths(alloc, n, bytes, ceiling) {
            Ok(lines) => Ok((None, lines)),
            Err(fault) => Err(alone(fault)),
        },
        Task::KeepReport => match kept_report(alloc, bytes, ceiling) {
            Ok(lines) => Ok((None, lines)),
            Err(fault) => Err(alone(fault)),
        },
        Task::Renumber(order) => match renumbered(alloc, bytes, order.as_slice(), ceiling) {
            Ok(output) => Ok((Some(output), Vec::new(alloc))),
            Err(fault) => Err(fault),
        },
        Task::Prune => match pruned(alloc, bytes, ceiling) {
            Ok((output, lines)) => Ok((Some(output), lines)),
            Err(fault) => Err(fault),
        },
        Task::Merge(second) => match merged(alloc, bytes, second.as_slice(), ceiling) {
            Ok(output) => Ok((Some(output), Vec::new(alloc))),
            Err(fault) => Err(fault),
        },
    }
}

/// Does a job up to what is to be printed.
pub fn make<F: Shelf, S: Source>(
    alloc: Global,
    job: Job<'_>,
    shelf: &mut F,
    input: &mut S,
) -> Result<Ready, Answer>
    requires { functions (job_seen job).command ≡ None → S.can_read input.old }
    ensures shelf_rises { F.faults shelf.old ≤ F.faults shelf.new }
    ensures rises { S.faults input.old ≤ S.faults input.new }
    ensures made { IfOk result (λ ready. (made : Made (job_seen job.entry) (F.texts shelf.old)
        (S.left input.old) (S.left input.new))
        × (shown (option_map (λ v. v.items) ready.output) ready.lines.items ≡ made.shown)) }
    ensures room { IfOk result (λ ready. 2 ≤ vec_len ready.buffer) }
    // However the sink stands.
    ensures stops { IfErr result (λ answer. (held_old : Option (List ℕ))
        (held_new : Option (List ℕ)) (write_faults_old : ℕ) (write_faults_new : ℕ)
        → Ends (job_seen job.entry) (record {
          texts = F.texts shelf.old;
          shelf_faults_old = F.faults shelf.old;
          shelf_faults_new = F.faults shelf.new;
          left_old = S.left input.old;
          left_new = S.left input.new;
          read_faults_old = S.faults input.old;
          read_faults_new = S.faults input.new;
          held_old = held_old;
          held_new = held_new;
          write_faults_old = write_faults_old;
          write_faults_new = write_faults_new;
        }) (input.new ≡ input.old) (status_of answer) (text_of answer)) }
    ensures file { IfErr result (λ answer. IsOfFile (job_seen job.entry).command
        (F.texts shelf.old) (F.faults shelf.old) (F.faults shelf.new) answer) }
    ensures unread { IsMaking (job_seen job.entry).command → input.new ≡ input.old }
    ensures unfetched { files (job_seen job.entry).command ≡ [] → shelf.new ≡ shelf.old }
{
    let task = match task_of(alloc, job.command, job.most, shelf) {
        Ok(task) => task,
        Err((fault, place)) => return Err(Answer::File(fault, place)),
    };
    let bytes = match bytes_of(alloc, job.command, job.most, job.is_text, input) {
        Ok(bytes) => bytes,
        Err(answer) => return Err(answer),
    };
    let task = match formed(alloc, job.is_text, task) {
        Ok(task) => task,
        Err(fault) => return Err(Answer::Digits(fault)),
    };
    match shown(alloc, task, bytes.as_slice(), job.ceiling) {
        Ok(made) => match zeros(alloc, PIECE) {
            Ok(buffer) => Ok(Ready {
                output: made.0,
                lines: made.1,
                buffer,
            }),
            Err(_) => Err(Answer::Writing(WritingFault::NoMemory)),
        },
        Err(fault) => Err(Answer::Reencoding(fault)),
    }
}
