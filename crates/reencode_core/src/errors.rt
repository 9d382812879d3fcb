//! Errors at their places.
ghost use Rattle.std.specs.Prelude.{◌≡◌};
ghost use Rattle.reencode_core.specs.Errors.{placed_at};

use reencode_hooks::Error;
use wasm_leb::ReadError;

/// An error inside a part that begins at a place: a fault of the bytes holds that place.
pub fn placed<E>(e: Error<E>, at: usize) -> Error<E>
    ensures { result ≡ placed_at e at }
{
    match e {
        Error::ParseError(_) => Error::ParseError(ReadError { at }),
        e => e,
    }
}
