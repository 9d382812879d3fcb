//! Runs of operators that stay as they stand.
ghost use Rattle.std.specs.Prelude.{IfErr, IfOk, length};
ghost use Rattle.reencode_hooks.specs.Run.{NeverWants, ask};
ghost use Rattle.reencode_items.specs.Direct.{IsWithin, PassesRun, StopsRun};

use crate::direct::passing::{Next, pass_operator};
use crate::direct::skipping::skip_operator;
use reencode_hooks::{Error, ReencodeIndices};

/// Passes the operators at the front of some bytes that do not change: so many bytes of them. What is to be done with the
/// operator behind them stands in `next` then.
#[inline(always)]
pub fn pass_run<R: ReencodeIndices>(
    reencoder: &mut R,
    bytes: &[u8],
    next: &mut Next,
) -> Result<usize, Error<R::Error>>
    ensures ok { IfOk result (λ kept. PassesRun (ask R.reply R.next) reencoder.old bytes.now
        reencoder.new (record { kept = kept; next = next.new })) }
    ensures within { IfOk result (λ kept. IsWithin kept next.new (length bytes.now)) }
    ensures err { IfErr result
        (λ e. StopsRun (ask R.reply R.next) reencoder.old bytes.now e reencoder.new) }
    ensures sure { NeverWants R.sure result }
{
    let mut rest = bytes;
    'run: loop {
        'skip: while let Some(behind) = skip_operator(rest) {
            rest = behind;
        }
        match pass_operator(reencoder, rest, next) {
            Ok(Some(behind)) => rest = behind,
            Ok(None) => return Ok(bytes.len() - rest.len()),
            Err(e) => return Err(e),
        }
    }
}
