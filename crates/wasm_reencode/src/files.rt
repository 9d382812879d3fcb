//! Standard streams and files: where bytes come from, and where they go.
use crate::outline::outline;
use std::fs::{File, OpenOptions, Permissions};
use std::io::{ErrorKind, IsTerminal, Read, Stdin, Stdout, Write};
use std::os::unix::fs::PermissionsExt;
use std::{fs, io};

/// The name of a standard stream.
const STANDARD: &str = "-";

/// How many links are followed to a file that is not there yet.
const LINKS: u32 = 40;

/// How many names of a temporary file are tried.
const TRIES: u32 = 10_000;

/// Where bytes are read from.
#[derive(Drop)]
pub enum Input {
    /// The standard input.
    Standard(Stdin),
    /// A file.
    File(File),
    /// A file that could not be opened.
    Absent,
}

impl Input {
    /// The input of a name. One that cannot be opened cannot be read.
    pub fn of(rt: &HostRuntime, name: &str) -> Input {
        if name == STANDARD {
            return Input::Standard(rt.stdin());
        }
        match fs::open(rt, name) {
            Ok(file) => Input::File(file),
            Err(_) => Input::Absent,
        }
    }
}

impl Read for Input {
    fn read(&mut self, buf: &mut [u8]) -> io::Result<usize> {
        match self {
            Input::Standard(stdin) => stdin.read(buf),
            Input::File(file) => file.read(buf),
            Input::Absent => Err(io::Error::from(ErrorKind::NotFound)),
        }
    }
}

/// What bytes are written into.
#[derive(Drop)]
pub enum Target<'a> {
    /// The standard output.
    Standard(Stdout),
    /// A file.
    File(&'a File),
    /// A text in memory.
    Memory(Held<'a>),
}

/// Where bytes are written to.
#[derive(Drop)]
pub struct Output<'a> {
    target: Target<'a>,
    /// Why the last write failed.
    why: &'a mut Option<ErrorKind>,
}

impl<'a> Output<'a> {
    /// An output into a target, which notes why a write failed.
    pub fn new(target: Target<'a>, why: &'a mut Option<ErrorKind>) -> Output<'a> {
        Output { target, why }
    }
}

impl<'a> Write for Output<'a> {
    fn write(&mut self, buf: &[u8]) -> io::Result<usize> {
        let taken = match &mut self.target {
            Target::Standard(stdout) => stdout.write(buf),
            Target::File(file) => file.write(buf),
            Target::Memory(held) => held.write(buf),
        };
        match taken {
            Ok(n) => Ok(n),
            Err(e) => {
                *self.why = Some(e.kind());
                Err(e)
            }
        }
    }

    fn flush(&mut self) -> io::Result<()> {
        Ok(())
    }
}

/// A text in memory that is written to.
#[derive(Drop)]
pub struct Held<'a> {
    text: &'a mut Vec<u8>,
}

impl<'a> Held<'a> {
    /// Bytes are written behind those of this text.
    pub fn new(text: &'a mut Vec<u8>) -> Held<'a> {
        Held { text }
    }
}

impl<'a> Write for Held<'a> {
    fn write(&mut self, buf: &[u8]) -> io::Result<usize> {
        match self.text.extend_from_slice(buf) {
            Ok(()) => Ok(buf.len()),
            Err(_) => Err(io::Error::from(ErrorKind::OutOfMemory)),
        }
    }

    fn flush(&mut self) -> io::Result<()> {
        Ok(())
    }
}

/// A file that is written beside another, whose place it takes once it is whole.
#[derive(Drop)]
pub struct Staged {
    file: File,
    /// The name that the file has while it is written.
    beside: String,
    /// The name that it gets.
    target: String,
    /// The mode of the older file of that name.
    mode: Option<u32>,
}

impl Staged {
    /// The file.
    pub fn file(&self) -> &File {
        &self.file
    }

    /// All that was written.
    pub fn written(&self, rt: &HostRuntime) -> io::Result<Vec<u8>> {
        fs::read(rt, self.beside.as_str())
    }

    /// What was written, in outline, with its code or without.
    pub fn outline(&self, rt: &HostRuntime, with_code: bool) -> Option<Vec<u8>> {
        let file = fs::open(rt, self.beside.as_str()).ok()?;
        outline(rt.alloc(), &file, with_code)
    }

    /// Gives the file its name, with all that was written.
    fn named(&self, rt: &HostRuntime) -> io::Result<()> {
        if let Some(mode) = self.mode {
            self.file.set_permissions(Permissions::from_mode(mode))?;
        }
        self.file.sync_all()?;
        fs::rename(rt, self.beside.as_str(), self.target.as_str())
    }

    /// Gives the file its name, with all that was written. After an error there is no such file, and an older one is as it was.
    pub fn finish(self, rt: &HostRuntime) -> io::Result<()> {
        match self.named(rt) {
            Ok(()) => Ok(()),
            Err(e) => {
                self.give_up(rt);
                Err(e)
            }
        }
    }

    /// Takes the file away.
    pub fn give_up(self, rt: &HostRuntime) {
        let _ = fs::remove_file(rt, self.beside.as_str());
    }
}

/// Where an output goes.
#[derive(Drop)]
pub enum Place {
    /// To the standard output.
    Standard,
    /// Into a pipe or a device.
    Direct(File),
    /// To a file, which gets its name once it is whole.
    Staged(Staged),
}

/// The folder of a file, with its last `/`.
fn folder_of(name: &str) -> &str {
    match name.rfind('/') {
        Some(at) => &name[..at + 1],
        None => "",
    }
}

/// A new file in a folder, and its name.
fn new_file(rt: &HostRuntime, folder: &str) -> io::Result<(File, String)> {
    for n in 0..TRIES {
        let name = format!(in rt.alloc(); "{folder}.wasm-reencode-{n}")?;
        match fs::File::create_new(rt, name.as_str()) {
            Ok(file) => return Ok((file, name)),
            Err(e) if e.kind() == ErrorKind::AlreadyExists => {}
            Err(e) => return Err(e),
        }
    }
    Err(io::Error::from(ErrorKind::AlreadyExists))
}

/// A new file that is to get this name.
fn stage(rt: &HostRuntime, target: String, mode: Option<u32>) -> io::Result<Staged> {
    let (file, beside) = new_file(rt, folder_of(target.as_str()))?;
    Ok(Staged {
        file,
        beside,
        target,
        mode,
    })
}

/// The place of an older file. One that may not be written is not replaced.
fn place_of_old(rt: &HostRuntime, name: &str) -> io::Result<Place> {
    let old = OpenOptions::new().write(true).open(rt, name)?;
    let metadata = old.metadata()?;
    if !metadata.is_file() {
        return Ok(Place::Direct(old));
    }
    let target = fs::canonicalize(rt, name)?.into_string();
    let mode = metadata.permissions().mode();
    Ok(Place::Staged(stage(rt, target, Some(mode))?))
}

/// What a link leads to: a name that does not begin with `/` is told from the folder of the link. Of another name there is none.
fn behind_link(rt: &HostRuntime, name: &str) -> io::Result<Option<String>> {
    match fs::read_link(rt, name) {
        Ok(path) => {
            let path = path.into_string();
            if path.as_str().starts_with('/') {
                return Ok(Some(path));
            }
            let folder = folder_of(name);
            let target = path.as_str();
            Ok(Some(format!(in rt.alloc(); "{folder}{target}")?))
        }
        Err(e) if e.kind() == ErrorKind::OutOfMemory => Err(e),
        Err(_) => Ok(None),
    }
}

/// The place of a file that is not there yet. Through links it is where the last one leads.
fn place_of_new(rt: &HostRuntime, name: &str) -> io::Result<Place> {
    let mut target = String::from_str(rt.alloc(), name)?;
    for _ in 0..LINKS {
        match behind_link(rt, target.as_str())? {
            Some(next) => target = next,
            None => return Ok(Place::Staged(stage(rt, target, None)?)),
        }
    }
    Err(io::Error::from(ErrorKind::FilesystemLoop))
}

/// The place of a name.
pub fn place_of(rt: &HostRuntime, name: &str) -> io::Result<Place> {
    if name == STANDARD {
        return Ok(Place::Standard);
    }
    match place_of_old(rt, name) {
        Err(e) if e.kind() == ErrorKind::NotFound => place_of_new(rt, name),
        place => place,
    }
}

impl Place {
    /// Whether a terminal shows what is written there.
    pub fn is_terminal(&self, rt: &HostRuntime) -> bool {
        match self {
            Place::Standard => rt.stdout().is_terminal(),
            Place::Direct(file) => file.is_terminal(),
            Place::Staged(_) => false,
        }
    }
}

/// All bytes of a file, for a second look. Of a standard stream, and where it cannot be read, there are none.
pub fn looked_at(rt: &HostRuntime, name: &str) -> Option<Vec<u8>> {
    if name == STANDARD {
        return None;
    }
    fs::read(rt, name).ok()
}

/// The same, but for a core module its outline with its code.
pub fn code_looked_at(rt: &HostRuntime, name: &str) -> Option<Vec<u8>> {
    if name == STANDARD {
        return None;
    }
    let file = fs::open(rt, name).ok()?;
    match outline(rt.alloc(), &file, true) {
        Some(bytes) => Some(bytes),
        None => looked_at(rt, name),
    }
}

/// Writes a whole text to a place.
pub fn fill(rt: &HostRuntime, place: Place, text: &[u8]) -> io::Result<()> {
    match place {
        Place::Standard => rt.stdout().write_all(text),
        Place::Direct(mut file) => file.write_all(text),
        Place::Staged(staged) => match staged.file().write_all(text) {
            Ok(()) => staged.finish(rt),
            Err(e) => {
                staged.give_up(rt);
                Err(e)
            }
        },
    }
}

/// Writes a text to the place of a name, whole or not at all.
pub fn write_whole(rt: &HostRuntime, name: &str, text: &[u8]) -> io::Result<()> {
    fill(rt, place_of(rt, name)?, text)
}
