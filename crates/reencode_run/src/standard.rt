//! The standard streams and files. What they give and take is not told.
ghost use Rattle.std.specs.Prelude.{◌≡◌, ◌≤◌, None};
ghost use Rattle.reencode_run.specs.Outside.{Rose};

use crate::input::{InputFault, read_all};
use crate::outside::{Failed, Shelf, ShelfFault, Sink, Source};
use std::alloc::Global;
use std::fs;
use std::io::{ErrorKind, Read, Write};
use std::rt::Files;

/// One failure more. A count at 2^64 - 1 stays.
fn one_more(faults: u64) -> u64
    ensures rises { faults ≤ result }
    ensures rose { Rose faults result }
{
    faults.saturating_add(1)
}

/// A source over a reader of std. It counts each error as a failure, goes on after one that was an
/// interruption, and does not tell its content.
#[derive(Drop)]
pub struct StdSource<R> {
    reader: R,
    faults: u64,
}

impl<R: Read> StdSource<R> {
    /// A source over a reader.
    pub fn new(reader: R) -> StdSource<R>
        ensures left { ⟦<StdSource<R> as Source>⟧.left result ≡ None }
        ensures faults { ⟦<StdSource<R> as Source>⟧.faults result ≡ 0 }
    {
        StdSource { reader, faults: 0 }
    }
}

impl<R: Read> Source for StdSource<R> {
    ghost left = { λ _. None };

    ghost faults = { λ s. s.faults };

    ghost can_read = { λ _. Unit {0} };

    fn read(&mut self, buf: &mut [u8]) -> Result<usize, Failed> {
        'tries: for _ in 0..u64::MAX {
            match self.reader.read(buf) {
                Ok(n) => return Ok(n),
                Err(e) => {
                    self.faults = one_more(self.faults);
                    if e.kind() != ErrorKind::Interrupted {
                        return Err(Failed);
                    }
                }
            }
        }
        Err(Failed)
    }
}

/// A sink over a writer of std. It counts each error as a failure, and a write that takes nothing; it
/// goes on after an interruption. It does not tell its content.
#[derive(Drop)]
pub struct StdSink<W> {
    writer: W,
    faults: u64,
}

impl<W: Write> StdSink<W> {
    /// A sink over a writer.
    pub fn new(writer: W) -> StdSink<W>
        ensures held { ⟦<StdSink<W> as Sink>⟧.held result ≡ None }
        ensures faults { ⟦<StdSink<W> as Sink>⟧.faults result ≡ 0 }
    {
        StdSink { writer, faults: 0 }
    }
}

impl<W: Write> Sink for StdSink<W> {
    ghost held = { λ _. None };

    ghost faults = { λ s. s.faults };

    fn write(&mut self, piece: &[u8]) -> Result<usize, Failed> {
        'tries: for _ in 0..u64::MAX {
            match self.writer.write(piece) {
                Ok(n) if n > 0 => return Ok(n),
                Ok(_) => {
                    self.faults = one_more(self.faults);
                    return Err(Failed);
                }
                Err(e) => {
                    self.faults = one_more(self.faults);
                    if e.kind() != ErrorKind::Interrupted {
                        return Err(Failed);
                    }
                }
            }
        }
        Err(Failed)
    }
}

/// The files of a folder: a relative name is that of a file of the folder that the program works in. It counts
/// each error as a failure, goes on after one that was an interruption, and does not tell its texts.
#[derive(Drop)]
pub struct FileShelf<'a, R> {
    files: &'a R,
    faults: u64,
}

impl<'a, R: Files> FileShelf<'a, R> {
    /// The files that the runtime reaches.
    pub fn new(files: &'a R) -> FileShelf<'a, R>
        ensures texts { ⟦<FileShelf<'a, R> as Shelf>⟧.texts result ≡ None }
        ensures faults { ⟦<FileShelf<'a, R> as Shelf>⟧.faults result ≡ 0 }
    {
        FileShelf { files, faults: 0 }
    }
}

impl<'a, R: Files> Shelf for FileShelf<'a, R> {
    ghost texts = { λ _. None };

    ghost faults = { λ s. s.faults };

    fn fetch(&mut self, alloc: Global, name: &str, most: u32) -> Result<Vec<u8>, ShelfFault> {
        let file = match fs::open(self.files, name) {
            Ok(file) => file,
            Err(_) => {
                self.faults = one_more(self.faults);
                return Err(ShelfFault::Failed);
            }
        };
        match read_all(alloc, &mut StdSource::new(file), most) {
            Ok(text) => Ok(text),
            Err(InputFault::TooLong) => Err(ShelfFault::TooLong),
            Err(InputFault::NoMemory) => Err(ShelfFault::NoMemory),
            Err(InputFault::Failed) => {
                self.faults = one_more(self.faults);
                Err(ShelfFault::Failed)
            }
        }
    }
}
