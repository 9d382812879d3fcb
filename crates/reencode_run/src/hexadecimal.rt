//! Hexadecimal text.
ghost use Rattle.std.specs.Prelude.{◌≡◌, Some, None, IfOk, IsErrOf, false};
ghost use Rattle.reencode_run.specs.Hexadecimal.{binary, is_blank, without_blanks};

use hex::FromHexError;
use std::alloc::Global;

/// Why a text gives no bytes.
#[derive(Clone, Copy, Debug, PartialEq, Eq)]
pub enum TextFault {
    /// It is not pairs of hexadecimal digits.
    NotHexadecimal,
    /// Out of memory.
    NoMemory,
}

/// Whether a byte is one that is left out: space, tab, line feed or carriage return.
fn is_blank(byte: u8) -> bool
    ensures { result ≡ is_blank byte }
{
    byte <= b' ' && matches!(byte, b' ' | b'\t' | b'\n' | b'\r')
}

/// Whether a byte of a text may be one that is left out.
fn has_blank(text: &[u8]) -> bool
    ensures { result ≡ false → without_blanks text.now ≡ text.now }
{
    let mut low = false;
    'bytes: for i in 0..text.len() {
        low = low | (text[i] <= b' ');
    }
    low
}

/// Takes out what is left out of a text, in place.
fn remove_blanks(text: &mut Vec<u8>)
    ensures { text.new.items ≡ without_blanks text.old.items }
{
    if !has_blank(text) {
        return;
    }
    text.retain(|byte| !is_blank(*byte));
}

/// The bytes of a hexadecimal text. Space, tab, CR and LF are left out; then the text must be pairs
/// of digits of either case.
pub fn binary(alloc: Global, text: Vec<u8>) -> Result<Vec<u8>, TextFault>
    ensures ok { IfOk result (λ bytes. binary text.items ≡ Some bytes.items) }
    ensures refused { IsErrOf result TextFault.NotHexadecimal → binary text.items ≡ None }
{
    let mut digits = text;
    remove_blanks(&mut digits);
    match hex::decode(alloc, digits.as_slice()) {
        Ok(bytes) => Ok(bytes),
        Err(FromHexError::OutOfMemory) => Err(TextFault::NoMemory),
        Err(_) => Err(TextFault::NotHexadecimal),
    }
}
