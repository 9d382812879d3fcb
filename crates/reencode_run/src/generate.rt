//! A module of any number of functions, which is made.
ghost use Rattle.std.specs.Prelude.{◌≡◌, ◌+◌, ◌<◌, ◌++◌, ◌%◌, replicate, IfOk, OnOk};
ghost use Rattle.reencode_run.specs.Generated.{bodies, body, code, five_bytes, generated, sized};
ghost use Rattle.wasm_leb.specs.Leb.{leb};

use std::alloc::Global;
use wasm_leb::{NoMemory, write_s64, write_u32, write_u64};

/// Adds bytes.
fn add(out: &mut Vec<u8>, bytes: &[u8]) -> Result<(), NoMemory>
    ensures { OnOk result (out.new.items ≡ out.old.items ++ bytes.now) }
{
    match out.extend_from_slice(bytes) {
        Ok(()) => Ok(()),
        Err(_) => Err(NoMemory),
    }
}

/// Adds bytes behind their number.
fn add_sized(out: &mut Vec<u8>, bytes: &[u8]) -> Result<(), NoMemory>
    ensures { OnOk result (out.new.items ≡ out.old.items ++ sized bytes.now) }
{
    match write_u64(out, bytes.len() as u64) {
        Ok(()) => add(out, bytes),
        Err(e) => Err(e),
    }
}

/// A number in five bytes.
fn five_bytes(n: u32) -> [u8; 5]
    ensures { result ≡ five_bytes n }
{
    [
        (n % 128) as u8 + 128,
        (n / 128 % 128) as u8 + 128,
        (n / 16_384 % 128) as u8 + 128,
        (n / 2_097_152 % 128) as u8 + 128,
        (n / 268_435_456) as u8,
    ]
}

/// Adds the body of a function, of so many functions.
fn add_body(out: &mut Vec<u8>, n: u32, i: u32) -> Result<(), NoMemory>
    requires { i < n }
    ensures { OnOk result (out.new.items ≡ out.old.items ++ body n i) }
{
    add(out, &[0x00, 0x41])?;
    write_s64(out, i64::from(i))?;
    add(out, &[0x1a, 0x10])?;
    add(out, &five_bytes((i + 1) % n))?;
    add(out, &[0x0b])
}

/// The code section's bytes.
fn code(alloc: Global, n: u32) -> Result<Vec<u8>, NoMemory>
    ensures { IfOk result (λ bytes. bytes.items ≡ code n) }
{
    let mut bytes = Vec::new(alloc);
    write_u32(&mut bytes, n)?;
    let mut one = Vec::new(alloc);
    'bodies: for i in 0..n {
        one.clear();
        add_body(&mut one, n, i)?;
        add_sized(&mut bytes, one.as_slice())?;
    }
    Ok(bytes)
}

/// The function section's bytes.
fn functions(alloc: Global, n: u32) -> Result<Vec<u8>, NoMemory>
    ensures { IfOk result (λ bytes. bytes.items ≡ leb n ++ replicate n 0) }
{
    let mut bytes = Vec::new(alloc);
    write_u32(&mut bytes, n)?;
    match bytes.resize(bytes.len() + n as usize, 0) {
        Ok(()) => Ok(bytes),
        Err(_) => Err(NoMemory),
    }
}

/// The module of so many functions. Each drops its own number and calls the next one.
pub fn generated(alloc: Global, n: u32) -> Result<Vec<u8>, NoMemory>
    ensures { IfOk result (λ bytes. bytes.items ≡ generated n) }
{
    let functions = functions(alloc, n)?;
    let code = code(alloc, n)?;
    let mut out = Vec::new(alloc);
    add(
        &mut out,
        &[
            0x00, 0x61, 0x73, 0x6d, 0x01, 0x00, 0x00, 0x00, 0x01, 0x04, 0x01, 0x60, 0x00, 0x00,
            0x03,
        ],
    )?;
    add_sized(&mut out, functions.as_slice())?;
    add(&mut out, &[0x0a])?;
    add_sized(&mut out, code.as_slice())?;
    Ok(out)
}
