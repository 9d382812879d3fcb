//! The top call.
ghost use Rattle.std.specs.Prelude.{None, Some, Option, List, ℕ, [], ◌∷◌, ◌<◌, Contains, decimal, ◌≡◌, ◌≢◌, ◌≤◌, ◌++◌, ◌↔◌, ◌⊎◌, codes, map, length, option_map, string_bytes, vec_len, IfOk, IfErr, OnOk, OnErr};
ghost use Rattle.hex.specs.Hex.{encode_lower};
ghost use Rattle.reencode_run.specs.Answer.{Ends, EndsFor, ForJob, HasNoDigits, IsBadFile, IsDecided, IsMaking, IsOfFile, IsTooLong, IsUnfetched, IsUnread, Made, MakesModule, NamesNone, ReadsSource, Says, StopsWith, by_text, ended, lines_of, message, outside, report_of, status_of, text_of};
ghost use Rattle.reencode_run.specs.Words.{files, functions, job, job_seen};
ghost use Rattle.wasm_shapes.specs.declared.Space.{Space};
ghost use Rattle.wasm_shapes.specs.Names.{space_name};
ghost use Rattle.reencode_run.specs.Tools.{stop};
ghost use Rattle.reencode_run.specs.declared.renamers.Refusal.{Refusal};
ghost use Rattle.reencode_run.specs.Renamers.{refusal_text};
ghost use Rattle.reencode_run.specs.Report.{printed_as, shown};
ghost use Rattle.reencode_run.specs.Outside.{Rose, TookFront, WhereTold, followed};

use crate::answer::{Answer, ReencodingFault, WordsFault, WritingFault};
use crate::job::{Ready, make};
use crate::outside::{Failed, Shelf, Sink, Source};
use crate::words::{Job, Notation, job_of};
use crate::write::{write_all, write_both, write_digits};
use std::alloc::Global;

/// Prints output as digits through a buffer, and behind a line end the lines about it. After a failure a front
/// of all was taken.
fn print_digits<K: Sink>(
    out: &mut K,
    output: &[u8],
    lines: &[u8],
    buffer: &mut [u8],
) -> Result<(), Failed>
    requires { 2 ≤ length buffer.old }
    ensures rises { K.faults out.old ≤ K.faults out.new }
    ensures ok { OnOk result
        (WhereTold (K.held out.new)
        (followed (K.held out.old) (encode_lower output.now ++ codes "\n" ++ lines.now))) }
    ensures failed { OnErr result (Rose (K.faults out.old) (K.faults out.new)) }
    ensures front { OnErr result
        (TookFront (K.held out.old) (K.held out.new)
        (encode_lower output.now ++ codes "\n" ++ lines.now)) }
{
    match write_digits(out, output, buffer) {
        Ok(()) => write_both(out, b"\n", lines),
        Err(Failed) => Err(Failed),
    }
}

/// Prints what a task shows in a notation.
fn print<K: Sink>(
    out: &mut K,
    notation: Notation,
    output: &Option<Vec<u8>>,
    lines: &[u8],
    buffer: &mut [u8],
) -> Result<(), Failed>
    requires { 2 ≤ length buffer.old }
    ensures rises { K.faults out.old ≤ K.faults out.new }
    ensures ok { OnOk result
        (WhereTold (K.held out.new)
        (followed (K.held out.old)
        (printed_as notation (shown (option_map (λ v. v.items) output.now) lines.now)))) }
    ensures failed { OnErr result (Rose (K.faults out.old) (K.faults out.new)) }
    ensures front { OnErr result
        (TookFront (K.held out.old) (K.held out.new)
        (printed_as notation (shown (option_map (λ v. v.items) output.now) lines.now))) }
{
    match (notation, output) {
        (Notation::Hexadecimal, Some(output)) => {
            print_digits(out, output.as_slice(), lines, buffer)
        }
        (Notation::Hexadecimal, None) => write_all(out, lines),
        (Notation::Binary, Some(output)) => write_all(out, output.as_slice()),
        (Notation::Binary, None) => write_all(out, b""),
    }
}

/// Prints what is ready, and gives back the lines about it.
fn print_ready<K: Sink>(out: &mut K, notation: Notation, ready: Ready) -> Result<Vec<u8>, Failed>
    requires { 2 ≤ vec_len ready.buffer }
    ensures rises { K.faults out.old ≤ K.faults out.new }
    ensures ok { OnOk result
        (WhereTold (K.held out.new)
        (followed (K.held out.old)
        (printed_as notation
        (shown (option_map (λ v. v.items) ready.output) ready.lines.items)))) }
    ensures lines { IfOk result (λ lines. lines.items ≡ ready.lines.items) }
    ensures failed { OnErr result (Rose (K.faults out.old) (K.faults out.new)) }
    ensures front { OnErr result
        (TookFront (K.held out.old) (K.held out.new)
        (printed_as notation
        (shown (option_map (λ v. v.items) ready.output) ready.lines.items))) }
{
    let Ready {
        output,
        lines,
        mut buffer,
    } = ready;
    match print(
        out,
        notation,
        &output,
        lines.as_slice(),
        buffer.as_mut_slice(),
    ) {
        Ok(()) => Ok(lines),
        Err(Failed) => Err(Failed),
    }
}

/// Does a job, and prints what is made. The lines about it come back.
pub fn perform<F: Shelf, S: Source, K: Sink>(
    alloc: Global,
    job: Job<'_>,
    shelf: &mut F,
    input: &mut S,
    out: &mut K,
) -> Result<Vec<u8>, Answer>
    requires { functions (job_seen job).command ≡ None → S.can_read input.old }
    ensures ends { Ends (job_seen job.entry)
        (outside F.Shelf S.Source K.Sink shelf.old shelf.new input.old input.new out.old out.new)
        (input.new ≡ input.old) (status_of (ended result)) (text_of (ended result)) }
    ensures made { IfOk result (λ lines. (made : Made (job_seen job.entry) (F.texts shelf.old)
        (S.left input.old) (S.left input.new))
        × WhereTold (K.held out.new) (followed (K.held out.old) (report_of made))
        × (lines.items ≡ lines_of made)) }
    ensures stopped { IfErr result (λ answer. status_of answer ≢ 0) }
    ensures file { IsOfFile (job_seen job.entry).command (F.texts shelf.old) (F.faults shelf.old)
        (F.faults shelf.new) (ended result) }
    ensures shelf_rises { F.faults shelf.old ≤ F.faults shelf.new }
    ensures input_rises { S.faults input.old ≤ S.faults input.new }
    ensures out_rises { K.faults out.old ≤ K.faults out.new }
    ensures unread { IsMaking (job_seen job.entry).command → input.new ≡ input.old }
    ensures unfetched { files (job_seen job.entry).command ≡ [] → shelf.new ≡ shelf.old }
    ensures untouched { status_of (ended result) ≢ 0 → status_of (ended result) ≢ 4 → out.new ≡ out.old }
{
    match make(alloc, job, shelf, input) {
        Ok(ready) => match print_ready(out, job.notation, ready) {
            Ok(lines) => Ok(lines),
            Err(Failed) => Err(Answer::Writing(WritingFault::Failed)),
        },
        Err(answer) => Err(answer),
    }
}

/// Does what the words ask for.
fn perform_words<F: Shelf, S: Source, K: Sink>(
    alloc: Global,
    words: &[String],
    shelf: &mut F,
    input: &mut S,
    out: &mut K,
) -> Answer
    requires { ReadsSource (job (map string_bytes words.now)) → S.can_read input.old }
    ensures ends { EndsFor (job (map string_bytes words.now))
        (outside F.Shelf S.Source K.Sink shelf.old shelf.new input.old input.new out.old out.new)
        (input.new ≡ input.old) (shelf.new ≡ shelf.old) (status_of result) (text_of result) }
    ensures shelf_rises { F.faults shelf.old ≤ F.faults shelf.new }
    ensures input_rises { S.faults input.old ≤ S.faults input.new }
    ensures out_rises { K.faults out.old ≤ K.faults out.new }
    ensures made { MakesModule (job (map string_bytes words.now)) → input.new ≡ input.old }
    ensures unnamed { NamesNone (job (map string_bytes words.now)) → shelf.new ≡ shelf.old }
    ensures untouched { status_of result ≢ 0 → status_of result ≢ 4 → out.new ≡ out.old }
{
    match job_of(words) {
        Some(job) => match perform(alloc, job, shelf, input, out) {
            Ok(_) => Answer::Printed,
            Err(answer) => answer,
        },
        None => Answer::Words(WordsFault::NotAccepted),
    }
}

/// Says how the program ends, unless all was printed.
fn tell<D: Sink>(answer: &Answer, err: &mut D)
    ensures rises { D.faults err.old ≤ D.faults err.new }
    ensures quiet { status_of answer.now ≡ 0 → err.new ≡ err.old }
    ensures says { status_of answer.now ≢ 0
        → Says (D.faults err.old) (D.faults err.new) (D.held err.old) (D.held err.new)
        (text_of answer.now ++ codes "\n") }
{
    if answer.status() != 0 {
        let _ = answer.say(err);
    }
}

/// Runs the program: `words` are the words behind its name. They are, in this order, `-x` or nothing,
/// `-m CEILING` or nothing, and one of `plain`, `rename FILE`, `twice FILE FILE`, `generate N`, `keep-report`,
/// `renumber FILE`, `prune` and `merge FILE`.
///
/// `plain` re-encodes the input's bytes with no index renamed, and `rename` with the indices renamed as the
/// text says that the shelf has under FILE. `twice` renames each index as the first text says, and what
/// comes of it as the second says. With `-x` the input is the bytes' hexadecimal text. The output is printed
/// as hexadecimal digits, and behind it a line for each renaming of how often each hook was called.
/// `generate` makes a module of N functions, re-encodes it, and prints both lengths and the counts.
/// `keep-report` re-encodes the input's bytes as `plain` does, and prints where the function bodies stand
/// in the input that stay as they are, how many bytes they have and how many the output, and the counts.
///
/// `renumber` moves the functions that a core module defines to where the JSON array in FILE says, the j-th to the place in its
/// j-th number, and renames all uses. `prune` removes those that nothing reaches, and prints which are kept, by their old
/// indices. `merge` makes one core module of the input and the one in FILE, which `-x` asks to be hexadecimal text too. Of these three
/// the output's digits are printed, and no counts.
///
/// It answers the status that the program ends with, as `Answer::status` tells them, and says on `err` what
/// went wrong. A failure of `err` ends that text and changes no status.
///
/// The words are tried first, then each FILE, which is fetched and then read, the input, its digits, those of the FILE of `merge`,
/// the re-encoding and the output. All memory is taken before the first write to `out`.
pub fn run<F: Shelf, S: Source, K: Sink, D: Sink>(
    alloc: Global,
    words: &[String],
    shelf: &mut F,
    input: &mut S,
    out: &mut K,
    err: &mut D,
) -> u8
    // A source is read only where the words ask for it, and no further behind its end or a failure: only
    // bytes that it gave leave it readable. No piece that is written is empty.
    requires { ReadsSource (job (map string_bytes words.now)) → S.can_read input.old }

    // With status 0 the report of the re-encoding stands behind what the sink held.
    ensures printed { result ≡ 0 → ForJob (job (map string_bytes words.now))
        (λ j. (made : Made j (F.texts shelf.old) (S.left input.old) (S.left input.new))
        × WhereTold (K.held out.new) (followed (K.held out.old) (report_of made))) }

    // Status 2 comes by the words alone, and before anything is read or fetched.
    ensures usage { (result ≡ 2) ↔ (job (map string_bytes words.now) ≡ None) }
    ensures unread { result ≡ 2 → input.new ≡ input.old }
    ensures unfetched { result ≡ 2 → shelf.new ≡ shelf.old }

    // A made module takes nothing of the source, a command without a file nothing of the shelf, and
    // a file that gives no renaming comes before anything is read.
    ensures makes { MakesModule (job (map string_bytes words.now)) → input.new ≡ input.old }
    ensures unnamed { NamesNone (job (map string_bytes words.now)) → shelf.new ≡ shelf.old }
    ensures files_first { (result ≡ 11) ⊎ (result ≡ 12) → input.new ≡ input.old }

    // Status 3, 4 and 12 come only where the source, the sink or the shelf failed; with 3 all files were
    // accepted, with 12 all before that file, and with 4 a front of the report was taken.
    ensures read_fault { result ≡ 3 → Rose (S.faults input.old) (S.faults input.new) }
    ensures write_fault { result ≡ 4 → Rose (K.faults out.old) (K.faults out.new) }
    ensures shelf_fault { result ≡ 12 → Rose (F.faults shelf.old) (F.faults shelf.new) }
    ensures input_fault { result ≡ 3 → ForJob (job (map string_bytes words.now))
        (λ j. IsUnread j.command (F.texts shelf.old) (S.faults input.old) (S.faults input.new)) }
    ensures file_fault { result ≡ 12 → ForJob (job (map string_bytes words.now))
        (λ j. IsUnfetched j.command (F.texts shelf.old)
        (F.faults shelf.old) (F.faults shelf.new)) }
    ensures front { result ≡ 4 → ForJob (job (map string_bytes words.now))
        (λ j. (made : Made j (F.texts shelf.old) (S.left input.old) (S.left input.new))
        × TookFront (K.held out.old) (K.held out.new) (report_of made)) }

    // Status 5 to 10 and 15 to 20 come only by the files and the bytes. Of two modules the text ends with the number of that of which it
    // is said alone.
    ensures parse_error { result ≡ 5
        → (at : ℕ) × (by : Option ℕ) × StopsWith (job (map string_bytes words.now)) (F.texts shelf.old)
        (S.left input.old) (S.left input.new) (stop (ReencodingFault.ParseError at) by)
        × Says (D.faults err.old) (D.faults err.new) (D.held err.old) (D.held err.new)
        (codes "parse error at " ++ decimal at ++ by_text by ++ codes "\n") }
    ensures refused { result ≡ 6
        → (u : Refusal) × (by : Option ℕ) × StopsWith (job (map string_bytes words.now)) (F.texts shelf.old)
        (S.left input.old) (S.left input.new) (stop (ReencodingFault.Refused u) by)
        × Says (D.faults err.old) (D.faults err.new) (D.held err.old) (D.held err.new)
        (refusal_text u ++ by_text by ++ codes "\n") }
    ensures code_size { result ≡ 7
        → (by : Option ℕ) × StopsWith (job (map string_bytes words.now)) (F.texts shelf.old)
        (S.left input.old) (S.left input.new) (stop ReencodingFault.CodeSectionSize by)
        × Says (D.faults err.old) (D.faults err.new) (D.held err.old) (D.held err.new)
        (message 7 ++ by_text by ++ codes "\n") }
    ensures component { result ≡ 8
        → (by : Option ℕ) × StopsWith (job (map string_bytes words.now)) (F.texts shelf.old)
        (S.left input.old) (S.left input.new) (stop ReencodingFault.NonCoreModule by)
        × Says (D.faults err.old) (D.faults err.new) (D.held err.old) (D.held err.new)
        (message 8 ++ by_text by ++ codes "\n") }
    ensures core_module { result ≡ 9
        → (by : Option ℕ) × StopsWith (job (map string_bytes words.now)) (F.texts shelf.old)
        (S.left input.old) (S.left input.new) (stop ReencodingFault.NonComponent by)
        × Says (D.faults err.old) (D.faults err.new) (D.held err.old) (D.held err.new)
        (message 9 ++ by_text by ++ codes "\n") }
    ensures too_large { result ≡ 10
        → (size ceiling : ℕ) × (by : Option ℕ) × StopsWith (job (map string_bytes words.now)) (F.texts shelf.old)
        (S.left input.old) (S.left input.new) (stop (ReencodingFault.TooLarge size ceiling) by)
        × Says (D.faults err.old) (D.faults err.new) (D.held err.old) (D.held err.new)
        (codes "too large: " ++ decimal size ++ codes " over " ++ decimal ceiling ++ by_text by ++ codes "\n") }
    ensures uneven { result ≡ 15
        → (stated rows : ℕ) × (by : Option ℕ) × StopsWith (job (map string_bytes words.now)) (F.texts shelf.old)
        (S.left input.old) (S.left input.new) (stop (ReencodingFault.Uneven stated rows) by)
        × Says (D.faults err.old) (D.faults err.new) (D.held err.old) (D.held err.new)
        (codes "uneven: " ++ decimal stated ++ codes " and " ++ decimal rows ++ by_text by ++ codes "\n") }
    ensures repeated { result ≡ 16
        → (id : ℕ) × (by : Option ℕ) × StopsWith (job (map string_bytes words.now)) (F.texts shelf.old)
        (S.left input.old) (S.left input.new) (stop (ReencodingFault.Repeated id) by)
        × Says (D.faults err.old) (D.faults err.new) (D.held err.old) (D.held err.new)
        (codes "repeated section " ++ decimal id ++ by_text by ++ codes "\n") }
    ensures not_an_order { result ≡ 17
        → (place : ℕ) × (by : Option ℕ) × StopsWith (job (map string_bytes words.now)) (F.texts shelf.old)
        (S.left input.old) (S.left input.new) (stop (ReencodingFault.NotAnOrder place) by)
        × Says (D.faults err.old) (D.faults err.new) (D.held err.old) (D.held err.new)
        (codes "not an order at " ++ decimal place ++ by_text by ++ codes "\n") }
    ensures dangling { result ≡ 18
        → (space : Space) × (index : ℕ) × (by : Option ℕ) × StopsWith (job (map string_bytes words.now)) (F.texts shelf.old)
        (S.left input.old) (S.left input.new) (stop (ReencodingFault.Dangling space index) by)
        × Says (D.faults err.old) (D.faults err.new) (D.held err.old) (D.held err.new)
        (codes "dangling " ++ space_name space ++ codes " " ++ decimal index ++ by_text by ++ codes "\n") }
    ensures clash { result ≡ 19
        → (name : List ℕ) × (by : Option ℕ) × StopsWith (job (map string_bytes words.now)) (F.texts shelf.old)
        (S.left input.old) (S.left input.new) (stop (ReencodingFault.Clash name) by)
        × Says (D.faults err.old) (D.faults err.new) (D.held err.old) (D.held err.new)
        (codes "export clash " ++ name ++ by_text by ++ codes "\n") }
    ensures two_starts { result ≡ 20
        → (by : Option ℕ) × StopsWith (job (map string_bytes words.now)) (F.texts shelf.old)
        (S.left input.old) (S.left input.new) (stop ReencodingFault.TwoStarts by)
        × Says (D.faults err.old) (D.faults err.new) (D.held err.old) (D.held err.new)
        (message 20 ++ by_text by ++ codes "\n") }

    // Status 11, 13 and 14 come only by what the shelf and the source gave.
    ensures bad_renaming { result ≡ 11 → ForJob (job (map string_bytes words.now))
        (λ j. IsBadFile j.command (F.texts shelf.old)) }
    ensures too_long { result ≡ 13 → ForJob (job (map string_bytes words.now))
        (λ j. IsTooLong j.command j.most (F.texts shelf.old) (S.left input.old) (S.left input.new)
        (input.new ≡ input.old)) }
    ensures not_hexadecimal { result ≡ 14 → ForJob (job (map string_bytes words.now))
        (λ j. HasNoDigits j (F.texts shelf.old) (S.left input.old) (S.left input.new)) }

    // The words, each file, the input, its digits, the re-encoding and the sink decide, in this order:
    // what stands first is told, whatever failed behind it.
    ensures decided { IsDecided (Rose (F.faults shelf.old) (F.faults shelf.new))
        (Rose (S.faults input.old) (S.faults input.new))
        (Rose (K.faults out.old) (K.faults out.new))
        (job (map string_bytes words.now)) (F.texts shelf.old) (S.left input.old) result }

    // No other status comes, and with each but 0 and 4 the sink is as it was.
    ensures statuses { Contains
        (0 ∷ 1 ∷ 2 ∷ 3 ∷ 4 ∷ 5 ∷ 6 ∷ 7 ∷ 8 ∷ 9 ∷ 10 ∷ 11 ∷ 12 ∷ 13 ∷ 14 ∷ 15 ∷ 16 ∷ 17 ∷ 18 ∷ 19 ∷ 20 ∷ []) result }
    ensures untouched { result ≢ 0 → result ≢ 4 → out.new ≡ out.old }

    // Each status but 0 has its message, those above with their clauses.
    ensures quiet { result ≡ 0 → err.new ≡ err.old }
    ensures says { result ≢ 0 → (result ≤ 4) ⊎ ((11 ≤ result) × (result ≤ 14))
        → Says (D.faults err.old) (D.faults err.new) (D.held err.old) (D.held err.new)
        (message result ++ codes "\n") }

    // No count of failures falls.
    ensures shelf_rises { F.faults shelf.old ≤ F.faults shelf.new }
    ensures input_rises { S.faults input.old ≤ S.faults input.new }
    ensures out_rises { K.faults out.old ≤ K.faults out.new }
    ensures err_rises { D.faults err.old ≤ D.faults err.new }
{
    let answer = perform_words(alloc, words, shelf, input, out);
    tell(&answer, err);
    answer.status()
}
