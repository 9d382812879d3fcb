//! How the program ends: by a fault of one of its stages, or with all output written.
ghost use Rattle.std.specs.Prelude.{◌≡◌, ◌≤◌, ◌++◌, codes, decimal, IfOk, IfErr, OnOk, OnErr};
ghost use Rattle.reencode_run.specs.Answer.{HasFaultMessage, HasMessage, by_text, fault_status, fault_text, said_by, status_of, text_of};
ghost use Rattle.reencode_run.specs.Errors.{EndsAs, HasStatus};
ghost use Rattle.reencode_hooks.specs.declared.error.Error.TheVariants as error;
ghost use Rattle.reencode_run.specs.declared.renamers.Refusal.{Refusal};
ghost use Rattle.reencode_run.specs.Renamers.{refusal_text};
ghost use Rattle.reencode_hooks.specs.Renamings.{unmapped_text};
ghost use Rattle.wasm_shapes.specs.Names.{space_name};
ghost use Rattle.reencode_run.specs.Outside.{Rose, WhereTold, followed, TookFront};

use crate::hexadecimal::TextFault;
use crate::input::InputFault;
use crate::outside::{Failed, Sink};
use crate::renamers::{Refusal, Refuses};
use crate::write::{write_all, write_both};
use itoa::Buffer;
use reencode_hooks::{ChainError, Error, Unmapped};
use wasm_leb::{List, ReadError};
use wasm_shapes::Space;

/// Why the words ask for nothing.
#[derive(Clone, Copy, Debug, PartialEq, Eq)]
pub enum WordsFault {
    /// They are not accepted.
    NotAccepted,
    /// Out of memory.
    NoMemory,
}

/// Why a file says nothing.
#[derive(Clone, Copy, Debug, PartialEq, Eq)]
pub enum FileFault {
    /// It could not be fetched.
    Failed,
    /// It is too long.
    TooLong,
    /// It says no renaming, or no order.
    Bad,
    /// Out of memory.
    NoMemory,
}

/// Why a command makes nothing of some bytes.
#[derive(Debug, Drop)]
pub enum ReencodingFault {
    /// They have no reading.
    ParseError {
        /// The place of the fault.
        at: usize,
    },
    /// A strict renamer has no entry for an index.
    Refused(Refusal),
    /// A code section states a size that passes the end of the bytes.
    CodeSectionSize,
    /// The header or a section of a component stands where a core module is read.
    NonCoreModule,
    /// The header or a section of a core module stands where a component is read.
    NonComponent,
    /// A frame is longer than the ceiling.
    TooLarge {
        size: u64,
        ceiling: u32,
    },
    /// So many functions have a type, and so many a body; or so many data segments are stated, and so many are there.
    Uneven {
        stated: u32,
        rows: u32,
    },
    /// Two sections have this id.
    Repeated {
        id: u8,
    },
    /// This place of the order is the first that is wrong.
    NotAnOrder {
        place: usize,
    },
    /// The first index that is not there.
    Dangling {
        space: Space,
        index: u32,
    },
    /// Both modules export this name.
    Clash {
        name: List<u8>,
    },
    /// Both modules have a start section.
    TwoStarts,
    /// Out of memory.
    NoMemory,
}

/// Why a command makes nothing, and of which input that is said: the number of the first or the second of two modules, and none
/// where there is one input, or where it is said of both.
#[derive(Debug, Drop)]
pub struct TaskFault {
    pub fault: ReencodingFault,
    pub by: Option<u8>,
}

/// Why the output is not written.
#[derive(Clone, Copy, Debug, PartialEq, Eq)]
pub enum WritingFault {
    /// A write failed.
    Failed,
    /// Out of memory.
    NoMemory,
}

/// How the program ends: with all output written, or with a fault of the first stage that has one.
#[derive(Debug, Drop)]
pub enum Answer {
    /// All output was written.
    Printed,
    /// The words ask for nothing.
    Words(WordsFault),
    /// The file at this place among those of the command, counted from 0, says nothing.
    File(FileFault, u8),
    /// The input was not read to its end.
    Input(InputFault),
    /// The input, or a module that a file has, is no hexadecimal text.
    Digits(TextFault),
    /// The command makes nothing of the bytes.
    Reencoding(TaskFault),
    /// The output is not written.
    Writing(WritingFault),
}

impl ReencodingFault {
    /// The status that the program ends with, and what is said with it, where that holds neither a number nor a name. Behind it
    /// stands which input it is said of.
    fn ending(&self) -> (u8, &'static [u8])
        ensures status { result.0 ≡ fault_status self.now }
        ensures text { HasFaultMessage self.now → result.1.now ≡ fault_text self.now }
    {
        match self {
            ReencodingFault::NoMemory => (1, b"no memory"),
            ReencodingFault::ParseError { .. } => (5, b""),
            ReencodingFault::Refused(_) => (6, b""),
            ReencodingFault::CodeSectionSize => (7, b"invalid code section size"),
            ReencodingFault::NonCoreModule => (
                8,
                b"There was a section that does not belong in a core wasm module",
            ),
            ReencodingFault::NonComponent => (
                9,
                b"There was a section that does not belong in a component",
            ),
            ReencodingFault::TooLarge { .. } => (10, b""),
            ReencodingFault::Uneven { .. } => (15, b""),
            ReencodingFault::Repeated { .. } => (16, b""),
            ReencodingFault::NotAnOrder { .. } => (17, b""),
            ReencodingFault::Dangling { .. } => (18, b""),
            ReencodingFault::Clash { .. } => (19, b""),
            ReencodingFault::TwoStarts => (20, b"two starts"),
        }
    }

    /// Says what is wrong. After a failure a front of it was taken.
    fn say<D: Sink>(&self, err: &mut D) -> Result<(), Failed>
        ensures rises { D.faults err.old ≤ D.faults err.new }
        ensures ok { OnOk result
            (WhereTold (D.held err.new) (followed (D.held err.old) (fault_text self.now))) }
        ensures failed { OnErr result (Rose (D.faults err.old) (D.faults err.new)) }
        ensures front { OnErr result
            (TookFront (D.held err.old) (D.held err.new) (fault_text self.now)) }
    {
        match self {
            ReencodingFault::ParseError { at } => {
                write_number(err, b"parse error at ", *at as u64)
            }
            ReencodingFault::Refused(refusal) => write_refusal(err, *refusal),
            ReencodingFault::TooLarge { size, ceiling } => {
                write_pair(err, b"too large: ", *size, b" over ", *ceiling as u64)
            }
            ReencodingFault::Uneven { stated, rows } => {
                write_pair(err, b"uneven: ", *stated as u64, b" and ", *rows as u64)
            }
            ReencodingFault::Repeated { id } => {
                write_number(err, b"repeated section ", *id as u64)
            }
            ReencodingFault::NotAnOrder { place } => {
                write_number(err, b"not an order at ", *place as u64)
            }
            ReencodingFault::Dangling { space, index } => {
                write_index(err, b"dangling ", *space, *index)
            }
            ReencodingFault::Clash { name } => {
                write_both(err, b"export clash ", name.as_slice())
            }
            _ => write_all(err, self.ending().1),
        }
    }
}

impl TaskFault {
    /// Of which input it is said: want of memory of none.
    fn said_by(&self) -> Option<u8>
        ensures { result ≡ said_by self.now.fault self.now.by }
    {
        match &self.fault {
            ReencodingFault::NoMemory => None,
            _ => self.by,
        }
    }
}

impl Answer {
    /// The status that the program ends with, and what is said with it, with a line end behind it. What a command says where it makes
    /// nothing is said by `say`.
    fn ending(&self) -> (u8, &'static [u8])
        ensures status { result.0 ≡ status_of self.now }
        ensures text { HasMessage self.now → result.1.now ≡ text_of self.now ++ codes "\n" }
    {
        match self {
            Answer::Printed => (0, b"\n"),
            Answer::Words(WordsFault::NoMemory)
            | Answer::File(FileFault::NoMemory, _)
            | Answer::Input(InputFault::NoMemory)
            | Answer::Digits(TextFault::NoMemory)
            | Answer::Writing(WritingFault::NoMemory) => (1, b"no memory\n"),
            Answer::Words(WordsFault::NotAccepted) => (
                2,
                b"usage: [-x] [-m CEILING] plain | rename FILE | twice FILE FILE | generate N | keep-report | renumber FILE | prune | merge FILE\n",
            ),
            Answer::Input(InputFault::Failed) => (3, b"read fault\n"),
            Answer::Writing(WritingFault::Failed) => (4, b"write fault\n"),
            Answer::Reencoding(e) => (e.fault.ending().0, b""),
            Answer::File(FileFault::Bad, _) => (11, b"bad renaming\n"),
            Answer::File(FileFault::Failed, _) => (12, b"shelf fault\n"),
            Answer::File(FileFault::TooLong, _) | Answer::Input(InputFault::TooLong) => {
                (13, b"too long\n")
            }
            Answer::Digits(TextFault::NotHexadecimal) => (14, b"not hex\n"),
        }
    }

    /// The status that the program ends with.
    ///
    /// | Status | |
    /// |---|---|
    /// | 0 | all output was written, and the input was read to its end, but for `generate` |
    /// | 1 | memory ran out |
    /// | 2 | the words are not accepted |
    /// | 3 | the input could not be read |
    /// | 4 | the output could not be written |
    /// | 5 | the bytes have no reading, in any other case than 7, 8 and 9 |
    /// | 6 | a renaming is strict and has no entry for an index |
    /// | 7 | the bytes have no reading, for a code section whose size passes their end |
    /// | 8 | where a core module is to stand, the bytes begin with the header of a component: those of `keep-report`, `renumber`, `prune` and `merge`, or of a nested module |
    /// | 9 | the bytes of a nested component begin with the header of a core module |
    /// | 10 | a frame of the output is above the ceiling |
    /// | 11 | a FILE says no renaming, or that of `renumber` no list of whole numbers |
    /// | 12 | a FILE could not be fetched |
    /// | 13 | the input, or the FILE of `merge`, has more than 67,108,864 bytes, or another FILE more than 1,048,576 |
    /// | 14 | the input, or the FILE of `merge`, is not pairs of hexadecimal digits |
    /// | 15 | a module has another number of bodies than of functions, or of data segments than it states |
    /// | 16 | a module has two sections of an id |
    /// | 17 | the numbers of FILE are no order of the functions that the module defines |
    /// | 18 | a module names an index that is not there |
    /// | 19 | both modules export a name |
    /// | 20 | both modules have a start section |
    pub fn status(&self) -> u8
        ensures { result ≡ status_of self.now }
    {
        self.ending().0
    }

    /// Says how the program ends, with a line end behind it. After a failure a front of it was taken.
    pub fn say<D: Sink>(&self, err: &mut D) -> Result<(), Failed>
        ensures rises { D.faults err.old ≤ D.faults err.new }
        ensures ok { OnOk result
            (WhereTold (D.held err.new) (followed (D.held err.old) (text_of self.now ++ codes "\n"))) }
        ensures failed { OnErr result (Rose (D.faults err.old) (D.faults err.new)) }
        ensures front { OnErr result
            (TookFront (D.held err.old) (D.held err.new) (text_of self.now ++ codes "\n")) }
    {
        match self {
            Answer::Reencoding(e) => match e.fault.say(err) {
                Ok(()) => end_line(err, e.said_by()),
                Err(Failed) => Err(Failed),
            },
            _ => write_all(err, self.ending().1),
        }
    }
}

/// Writes a text and then a number in decimal. After a failure a front of both was taken.
fn write_number<D: Sink>(err: &mut D, text: &[u8], n: u64) -> Result<(), Failed>
    ensures rises { D.faults err.old ≤ D.faults err.new }
    ensures ok { OnOk result
        (WhereTold (D.held err.new) (followed (D.held err.old) (text.now ++ decimal n))) }
    ensures failed { OnErr result (Rose (D.faults err.old) (D.faults err.new)) }
    ensures front { OnErr result
        (TookFront (D.held err.old) (D.held err.new) (text.now ++ decimal n)) }
{
    let mut digits = Buffer::new();
    write_both(err, text, digits.format(n).as_bytes())
}

/// Writes a text and then a number in decimal, and ends the line. After a failure a front of it was taken.
fn write_line<D: Sink>(err: &mut D, text: &[u8], n: u64) -> Result<(), Failed>
    ensures rises { D.faults err.old ≤ D.faults err.new }
    ensures ok { OnOk result
        (WhereTold (D.held err.new)
        (followed (D.held err.old) (text.now ++ decimal n ++ codes "\n"))) }
    ensures failed { OnErr result (Rose (D.faults err.old) (D.faults err.new)) }
    ensures front { OnErr result
        (TookFront (D.held err.old) (D.held err.new) (text.now ++ decimal n ++ codes "\n")) }
{
    match write_number(err, text, n) {
        Ok(()) => write_all(err, b"\n"),
        Err(Failed) => Err(Failed),
    }
}

/// Writes a text and then a number in decimal, twice. After a failure a front of it was taken.
fn write_pair<D: Sink>(
    err: &mut D,
    text: &[u8],
    n: u64,
    between: &[u8],
    m: u64,
) -> Result<(), Failed>
    ensures rises { D.faults err.old ≤ D.faults err.new }
    ensures ok { OnOk result
        (WhereTold (D.held err.new)
        (followed (D.held err.old) (text.now ++ decimal n ++ between.now ++ decimal m))) }
    ensures failed { OnErr result (Rose (D.faults err.old) (D.faults err.new)) }
    ensures front { OnErr result
        (TookFront (D.held err.old) (D.held err.new)
        (text.now ++ decimal n ++ between.now ++ decimal m)) }
{
    match write_number(err, text, n) {
        Ok(()) => write_number(err, between, m),
        Err(Failed) => Err(Failed),
    }
}

/// Writes a text and then an index behind the name of its space. After a failure a front of it was taken.
fn write_index<D: Sink>(err: &mut D, text: &[u8], space: Space, index: u32) -> Result<(), Failed>
    ensures rises { D.faults err.old ≤ D.faults err.new }
    ensures ok { OnOk result
        (WhereTold (D.held err.new)
        (followed (D.held err.old)
        (text.now ++ space_name space ++ codes " " ++ decimal index))) }
    ensures failed { OnErr result (Rose (D.faults err.old) (D.faults err.new)) }
    ensures front { OnErr result
        (TookFront (D.held err.old) (D.held err.new)
        (text.now ++ space_name space ++ codes " " ++ decimal index)) }
{
    match write_both(err, text, space.name().as_bytes()) {
        Ok(()) => write_number(err, b" ", index as u64),
        Err(Failed) => Err(Failed),
    }
}

/// Writes which index was refused, and then a text. After a failure a front of it was taken.
fn write_refused<D: Sink>(err: &mut D, unmapped: Unmapped, end: &[u8]) -> Result<(), Failed>
    ensures rises { D.faults err.old ≤ D.faults err.new }
    ensures ok { OnOk result
        (WhereTold (D.held err.new)
        (followed (D.held err.old) (unmapped_text unmapped ++ end.now))) }
    ensures failed { OnErr result (Rose (D.faults err.old) (D.faults err.new)) }
    ensures front { OnErr result
        (TookFront (D.held err.old) (D.held err.new) (unmapped_text unmapped ++ end.now)) }
{
    match write_index(err, b"refused ", unmapped.space, unmapped.index) {
        Ok(()) => write_all(err, end),
        Err(Failed) => Err(Failed),
    }
}

/// Writes which index was refused, and of two renamers by which. After a failure a front of it was taken.
fn write_refusal<D: Sink>(err: &mut D, refusal: Refusal) -> Result<(), Failed>
    ensures rises { D.faults err.old ≤ D.faults err.new }
    ensures ok { OnOk result
        (WhereTold (D.held err.new) (followed (D.held err.old) (refusal_text refusal))) }
    ensures failed { OnErr result (Rose (D.faults err.old) (D.faults err.new)) }
    ensures front { OnErr result
        (TookFront (D.held err.old) (D.held err.new) (refusal_text refusal)) }
{
    match refusal {
        Refusal::Alone(unmapped) => {
            write_index(err, b"refused ", unmapped.space, unmapped.index)
        }
        Refusal::Both(ChainError::First(unmapped)) => write_refused(err, unmapped, b" by 1"),
        Refusal::Both(ChainError::Second(unmapped)) => write_refused(err, unmapped, b" by 2"),
    }
}

/// Ends a line, behind the number of an input, where there is one. After a failure a front of it was taken.
fn end_line<D: Sink>(err: &mut D, by: Option<u8>) -> Result<(), Failed>
    ensures rises { D.faults err.old ≤ D.faults err.new }
    ensures ok { OnOk result
        (WhereTold (D.held err.new) (followed (D.held err.old) (by_text by ++ codes "\n"))) }
    ensures failed { OnErr result (Rose (D.faults err.old) (D.faults err.new)) }
    ensures front { OnErr result
        (TookFront (D.held err.old) (D.held err.new) (by_text by ++ codes "\n")) }
{
    match by {
        Some(n) => write_line(err, b" by ", n as u64),
        None => write_all(err, b"\n"),
    }
}

/// The fault that an error under a ceiling is, or what it is refused with. Three errors are neither: no input of a command gives
/// them.
pub fn fault_or_refusal<E>(e: Error<E>, ceiling: u32) -> Result<ReencodingFault, E>
    requires { HasStatus e }
    ensures ok { IfOk result (λ fault. (told : E → Refusal) → EndsAs told ceiling e fault) }
    ensures err { IfErr result (λ u. e ≡ error.UserError u) }
{
    match e {
        Error::InvalidCodeSectionSize => Ok(ReencodingFault::CodeSectionSize),
        Error::UnexpectedNonCoreModuleSection => Ok(ReencodingFault::NonCoreModule),
        Error::UnexpectedNonComponentSection => Ok(ReencodingFault::NonComponent),
        Error::ParseError(ReadError { at }) => Ok(ReencodingFault::ParseError { at }),
        Error::UserError(refused) => Err(refused),
        Error::TooLarge { size } => Ok(ReencodingFault::TooLarge { size, ceiling }),
        Error::NoMemory => Ok(ReencodingFault::NoMemory),
        Error::CanonicalizedHeapTypeReference
        | Error::InvalidConstExpr
        | Error::UnsupportedCoreTypeInComponent => unreachable!(),
    }
}

/// The fault that an error of renamers under a ceiling is.
pub fn reencoding_fault<X: Refuses>(e: Error<X>, ceiling: u32) -> ReencodingFault
    requires { HasStatus e }
    ensures { EndsAs X.refusal ceiling e result }
{
    match fault_or_refusal(e, ceiling) {
        Ok(fault) => fault,
        Err(refused) => ReencodingFault::Refused(refused.refusal()),
    }
}
