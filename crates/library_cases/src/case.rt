//! The lines of the input.
use crate::stop::Stop;
use std::alloc::Global;
use std::str::FromStr;

/// A call of the libraries with its words, what it is given, and what is to come of it.
#[derive(Clone, Copy)]
pub struct Case<'a> {
    pub call: &'a str,
    pub words: &'a str,
    pub input: &'a str,
    pub wanted: &'a str,
}

impl<'a> Case<'a> {
    /// The case of a line `CALL WORDS : INPUT -> WANTED`.
    pub fn of_line(line: &'a str) -> Option<Case<'a>> {
        let (call, rest) = line.split_once(" :")?;
        let (input, wanted) = rest.split_once("->")?;
        let call = call.trim();
        let (call, words) = call.split_once(' ').unwrap_or((call, ""));
        Some(Case {
            call,
            words,
            input: input.trim(),
            wanted: wanted.trim(),
        })
    }

    /// The bytes of the input.
    pub fn bytes(&self, alloc: Global) -> Result<Vec<u8>, Stop> {
        bytes_between(alloc, self.input)
    }

    /// The number of the one word `KEY=NUMBER`, and 0 where there is no word.
    fn number_of<T: FromStr>(&self, key: &str) -> Result<T, Stop>
    where
        T::Err: Drop,
    {
        if self.words.is_empty() {
            return number("0");
        }
        match self.words.split_once('=') {
            Some((word, value)) if word == key => number(value),
            _ => Err(Stop::Unread),
        }
    }

    /// The place of the word `at=PLACE`, and 0 where there is no word.
    pub fn place(&self) -> Result<usize, Stop> {
        self.number_of("at")
    }

    /// The number of the word `depth=SCOPES`, and 0 where there is no word.
    pub fn depth(&self) -> Result<u32, Stop> {
        self.number_of("depth")
    }
}

/// The bytes of hexadecimal digits with blanks between them.
pub fn bytes_between(alloc: Global, text: &str) -> Result<Vec<u8>, Stop> {
    let mut digits = String::new(alloc);
    for part in text.split_whitespace() {
        digits.push_str(part)?;
    }
    bytes_of(alloc, digits.as_str())
}

/// The bytes of hexadecimal digits.
pub fn bytes_of(alloc: Global, digits: &str) -> Result<Vec<u8>, Stop> {
    match hex::decode(alloc, digits) {
        Ok(bytes) => Ok(bytes),
        Err(hex::FromHexError::OutOfMemory) => Err(Stop::NoMemory),
        Err(_) => Err(Stop::Unread),
    }
}

/// The number of a word.
pub fn number<T: FromStr>(word: &str) -> Result<T, Stop>
where
    T::Err: Drop,
{
    match word.parse::<T>() {
        Ok(number) => Ok(number),
        Err(_) => Err(Stop::Unread),
    }
}
