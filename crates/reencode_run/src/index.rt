//! Numbers below 2^32, as texts hold them.
ghost use Rattle.std.specs.Prelude.{◌≡◌};
ghost use Rattle.serde_json.specs.View.{view};
ghost use Rattle.reencode_run.specs.Numerals.{index_of};
ghost use Rattle.reencode_run.specs.Renamings.{whole_of};

use itoa::Buffer;
use serde_json::Value;

/// The number, below 2^32, whose decimal digits a text is: `0`, or digits that do not begin with `0`.
pub fn index_of(text: &str) -> Option<u32>
    ensures { result ≡ index_of text.now }
{
    match text.parse::<u32>() {
        Ok(n) => {
            let mut digits = Buffer::new();
            if digits.format(n) == text {
                Some(n)
            } else {
                None
            }
        }
        Err(_) => None,
    }
}

/// The number of a value, where it is a whole one below 2^32 that is held without a sign.
pub fn whole_of(value: &Value) -> Option<u32>
    ensures { result ≡ whole_of (view value.now) }
{
    match value.as_u64() {
        Some(n) => match u32::try_from(n) {
            Ok(n) => Some(n),
            Err(_) => None,
        },
        None => None,
    }
}
