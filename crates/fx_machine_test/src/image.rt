//! Images of two compartments, by the layout's fields.

ghost use Rattle.std.specs.Prelude.{IfOk, IfSome};
ghost use Rattle.fx_image.specs.Rules.{IsImage};

use crate::bytes::bytes_of;
use fx_image::{Image, read};
use std::alloc::{AllocError, Global};

/// Adds a page of code that begins with a program; the rest is F4.
fn put_page(bytes: &mut Vec<u8>, program: &[u8]) -> Result<(), AllocError> {
    bytes.extend_from_slice(program)?;
    for _ in program.len()..4096 {
        bytes.push(0xf4)?;
    }
    Ok(())
}

/// The three sections of two compartments: the private ones, and that of both.
fn put_sections(bytes: &mut Vec<u8>, keyed: bool) -> Result<(), AllocError> {
    let keys: [u8; 3] = if keyed { [2, 3, 4] } else { [0, 0, 0] };
    bytes.extend_from_slice(b"\x03\0\x01\0\x01\0")?;
    bytes.push(keys[0])?;
    bytes.extend_from_slice(b"\0\0\x01\0\x01\0\0\0\x02\0\x02\0")?;
    bytes.push(keys[1])?;
    bytes.extend_from_slice(b"\x02\0\x01\0\x01\0\0\0\x03\0\x03\0")?;
    bytes.push(keys[2])?;
    bytes.extend_from_slice(b"\x04\0\x01\0\x01\0\0\0")
}

/// The two compartments, each with a page of code.
fn put_compartments(bytes: &mut Vec<u8>, keyed: bool) -> Result<(), AllocError> {
    bytes.extend_from_slice(b"\x01a\0\0\0\0\0\x10\0\0")?;
    bytes.extend_from_slice(if keyed {
        b"\xc0\xfc\xff\xff"
    } else {
        b"\0\0\0\0"
    })?;
    bytes.extend_from_slice(b"\x01b\0\x10\0\0\0\x10\0\0")?;
    bytes.extend_from_slice(if keyed {
        b"\x38\xfc\xff\xff"
    } else {
        b"\0\0\0\0"
    })
}

/// Where the vCPUs start: the first at a's code, and where each compartment is a machine of its own the
/// second at b's.
fn put_starts(bytes: &mut Vec<u8>, mechanism: u8) -> Result<(), AllocError> {
    if mechanism == 3 {
        bytes.extend_from_slice(b"\x02\0\0\x40\0\xe0\x1f\0\x20\0\0\0\0")?;
        bytes.extend_from_slice(b"\0\x10\x40\0\xe0\x5f\0\x20\0\0\0\0")
    } else {
        bytes.extend_from_slice(b"\x01\0\0\x40\0\xe0\x1f\0\x20\0\0\0\0")
    }
}

/// The bytes of an image of version 2: compartments a and b, one page of runtime, one page a stack, eight
/// threads, a the scheduler, the home and the owner of all devices, no object, the abort stub at the
/// runtime's first byte.
fn spelled(alloc: Global, mechanism: u8, a: &[u8], b: &[u8]) -> Result<Vec<u8>, AllocError> {
    let keyed = mechanism == 1 || mechanism == 2;
    let mut bytes = Vec::new(alloc);
    bytes.extend_from_slice(b"FXIM\x02\0")?;
    bytes.push(mechanism)?;
    bytes.extend_from_slice(b"\x02\x01\x08\0\0")?;
    put_compartments(&mut bytes, keyed)?;
    put_sections(&mut bytes, keyed)?;
    bytes.extend_from_slice(b"\0\x30\0\0")?;
    put_page(&mut bytes, a)?;
    put_page(&mut bytes, b)?;
    put_page(&mut bytes, b"")?;
    bytes.extend_from_slice(b"\0\0\0\0\0\0\0\0\0\0\0\0\0\x20\0\0")?;
    bytes.extend_from_slice(b"\0\0\0\0\0\0\0\0\0\0\0\0\0\0\0\0")?;
    put_starts(&mut bytes, mechanism)?;
    Ok(bytes)
}

/// The image of a mechanism, whose compartments' code is in hexadecimal digits, None where it isn't read.
pub fn image_of(alloc: Global, mechanism: u8, a: &str, b: &str) -> Result<Option<Image>, AllocError>
    ensures { IfOk result (λ image. IfSome image IsImage) }
{
    let a = bytes_of(alloc, a)?;
    let b = bytes_of(alloc, b)?;
    let bytes = spelled(alloc, mechanism, &a, &b)?;
    match read(alloc, &bytes) {
        Ok(image) => Ok(Some(image)),
        Err(_) => Ok(None),
    }
}
