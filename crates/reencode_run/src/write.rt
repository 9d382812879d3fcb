//! Writing whole texts to a sink.
ghost use Rattle.std.specs.Prelude.{◌≡◌, ◌*◌, ◌≤◌, ◌++◌, length, OnOk, OnErr};
ghost use Rattle.hex.specs.Hex.{encode_lower};
ghost use Rattle.reencode_run.specs.Outside.{Rose, WhereTold, followed, TookFront};

use crate::outside::{Failed, Sink};

/// Writes a text, in as many writes as the sink wants. After a failure a front of it was taken.
pub fn write_all<K: Sink>(out: &mut K, text: &[u8]) -> Result<(), Failed>
    ensures rises { K.faults out.old ≤ K.faults out.new }
    ensures ok { OnOk result (WhereTold (K.held out.new) (followed (K.held out.old) text.now)) }
    ensures failed { OnErr result (Rose (K.faults out.old) (K.faults out.new)) }
    ensures front { OnErr result (TookFront (K.held out.old) (K.held out.new) text.now) }
{
    let mut at = 0;
    'pieces: while at < text.len() {
        match out.write(&text[at..]) {
            Ok(n) => at += n,
            Err(Failed) => return Err(Failed),
        }
    }
    Ok(())
}

/// Writes a text and then another. After a failure a front of both was taken.
pub fn write_both<K: Sink>(out: &mut K, first: &[u8], second: &[u8]) -> Result<(), Failed>
    ensures rises { K.faults out.old ≤ K.faults out.new }
    ensures ok { OnOk result
        (WhereTold (K.held out.new) (followed (K.held out.old) (first.now ++ second.now))) }
    ensures failed { OnErr result (Rose (K.faults out.old) (K.faults out.new)) }
    ensures front { OnErr result
        (TookFront (K.held out.old) (K.held out.new) (first.now ++ second.now)) }
{
    match write_all(out, first) {
        Ok(()) => write_all(out, second),
        Err(Failed) => Err(Failed),
    }
}

/// Writes bytes as digits in lower case, through a buffer that has just room for them.
fn write_piece<K: Sink>(out: &mut K, bytes: &[u8], piece: &mut [u8]) -> Result<(), Failed>
    requires { length piece.old ≡ 2 * length bytes.now }
    ensures rises { K.faults out.old ≤ K.faults out.new }
    ensures ok { OnOk result
        (WhereTold (K.held out.new) (followed (K.held out.old) (encode_lower bytes.now))) }
    ensures failed { OnErr result (Rose (K.faults out.old) (K.faults out.new)) }
    ensures front { OnErr result
        (TookFront (K.held out.old) (K.held out.new) (encode_lower bytes.now)) }
{
    hex::encode_to_slice(bytes, &mut *piece).unwrap();
    write_all(out, piece)
}

/// Writes bytes as digits in lower case, in pieces through a buffer. After a failure a front of the
/// digits was taken.
pub fn write_digits<K: Sink>(out: &mut K, bytes: &[u8], buffer: &mut [u8]) -> Result<(), Failed>
    requires { 2 ≤ length buffer.old }
    ensures rises { K.faults out.old ≤ K.faults out.new }
    ensures ok { OnOk result
        (WhereTold (K.held out.new) (followed (K.held out.old) (encode_lower bytes.now))) }
    ensures failed { OnErr result (Rose (K.faults out.old) (K.faults out.new)) }
    ensures front { OnErr result
        (TookFront (K.held out.old) (K.held out.new) (encode_lower bytes.now)) }
{
    let most = buffer.len() / 2;
    let mut at = 0;
    'pieces: while at < bytes.len() {
        let rest = &bytes[at..];
        let n = most.min(rest.len());
        match write_piece(out, &rest[..n], &mut buffer[..2 * n]) {
            Ok(()) => at += n,
            Err(Failed) => return Err(Failed),
        }
    }
    Ok(())
}
