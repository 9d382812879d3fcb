//! An output that is not yet in one place. What stands of it was spelled by hand from the grammar.
use reencode_core::{KeptOutput, reencode_kept, reencode_output};
use reencode_hooks::{Error, RoundtripReencoder};
use std::alloc::Global;
use std::convert::Infallible;

/// Two functions, of which the second spells its call with a byte too many, and the custom section `x`.
const BODIES: &[u8] =
    b"\0asm\x01\0\0\0\x01\x04\x01\x60\0\0\x03\x03\x02\0\0\x0a\x0a\x02\x02\0\x0b\x05\0\x10\x80\0\x0b\0\x04\x01x\xaa\xbb";

/// The same with that call in its normal spelling.
const NORMAL: &[u8] =
    b"\0asm\x01\0\0\0\x01\x04\x01\x60\0\0\x03\x03\x02\0\0\x0a\x09\x02\x02\0\x0b\x04\0\x10\0\x0b\0\x04\x01x\xaa\xbb";

fn kept(alloc: Global) -> Result<KeptOutput<'static>, Error<Infallible>> {
    reencode_kept(alloc, &mut RoundtripReencoder, BODIES, u32::MAX)
}

#[test]
fn bodies_are_told(rt: HostRuntime) -> Result<(), Error<Infallible>> {
    let output = kept(rt.alloc())?;
    assert_eq!(rt;
        (output.bodies(), output.kept_len(), output.len()),
        (1, 2, 36)
    );
    assert_eq!(rt; output.body(0), Some(23..25));
    assert_eq!(rt; output.body(1), None);
    let bytes = output.into_output().into_vec()?;
    assert!(rt; bytes.as_slice() == NORMAL);
    Ok(())
}

#[test]
fn outputs_are_copied(rt: HostRuntime) -> Result<(), Error<Infallible>> {
    let output = reencode_output(rt.alloc(), &mut RoundtripReencoder, BODIES, u32::MAX)?;
    let mut room = [0; 36];
    assert_eq!(rt; output.len(), 36);
    output.copy_to(&mut room);
    assert!(rt; room.as_slice() == NORMAL);
    Ok(())
}
