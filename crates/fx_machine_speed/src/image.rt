//! The image of the loop, written by hand.

ghost use Rattle.std.specs.Prelude.{IfOk, IfSome};
ghost use Rattle.fx_image.specs.Rules.{IsImage};

use fx_image::{Image, read};
use std::alloc::{AllocError, Global};

// Before the number of rounds: mov r8, 0x10000000; mov rbp, rsp; and the front of mov rbx, ROUNDS.
const BEFORE: &[u8] = b"\x49\xc7\xc0\0\0\0\x10\x48\x89\xe5\x48\xbb";

// After it the loop: mov rax, [rbp - 16]; add rax, 3; mov [rbp - 16], rax; mov rcx, [r8 + 8]; add rcx, rax;
// mov [r8 + 8], rcx; push rax; add rsp, 8; sub rbx, 1; jne to the loop's begin. Then mov rdi, rcx;
// mov rax, 0; hlt.
const AFTER: &[u8] =
    b"\x48\x8b\x85\xf0\xff\xff\xff\x48\x81\xc0\x03\0\0\0\x48\x89\x85\xf0\xff\xff\xff\x49\x8b\x88\x08\0\0\0\x48\x01\xc1\x49\x89\x88\x08\0\0\0\x50\x48\x81\xc4\x08\0\0\0\x48\x81\xeb\x01\0\0\0\x0f\x85\xc5\xff\xff\xff\x48\x89\xcf\x48\xc7\xc0\0\0\0\0\xf4";

/// Adds the page of the program's code.
fn put_program(bytes: &mut Vec<u8>, rounds: u64) -> Result<(), AllocError> {
    bytes.extend_from_slice(BEFORE)?;
    bytes.extend_from_slice(&rounds.to_le_bytes())?;
    bytes.extend_from_slice(AFTER)?;
    for _ in BEFORE.len() + 8 + AFTER.len()..4096 {
        bytes.push(0xf4)?;
    }
    Ok(())
}

/// The bytes of an image of version 2 with one compartment, one page of its code, one of the runtime's,
/// one page a stack and a section of one page.
fn spelled(alloc: Global, mechanism: u8, rounds: u64) -> Result<Vec<u8>, AllocError> {
    let keyed = mechanism == 1;
    let mut bytes = Vec::new(alloc);
    bytes.extend_from_slice(b"FXIM\x02\0")?;
    bytes.push(mechanism)?;
    bytes.extend_from_slice(b"\x01\x01\x10\0\0")?;
    bytes.extend_from_slice(b"\x01a\0\0\0\0\0\x10\0\0")?;
    bytes.extend_from_slice(if keyed {
        b"\xc0\xff\xff\xff"
    } else {
        b"\0\0\0\0"
    })?;
    bytes.extend_from_slice(b"\x01\0\x01\0\x01\0")?;
    bytes.push(if keyed { 2 } else { 0 })?;
    bytes.extend_from_slice(b"\0\0\x01\0\x01\0\0\0")?;
    bytes.extend_from_slice(b"\0\x20\0\0")?;
    put_program(&mut bytes, rounds)?;
    for _ in 0..4096 {
        bytes.push(0xf4)?;
    }
    bytes.extend_from_slice(b"\0\0\0\0\0\0\0\0\0\0\0\0\0\x10\0\0")?;
    bytes.extend_from_slice(b"\0\0\0\0\0\0\0\0\0\0\0\0\0\0\0\0")?;
    bytes.extend_from_slice(b"\x01\0\0\x40\0\xe0\x1f\0\x20\0\0\0\0")?;
    Ok(bytes)
}

/// The image, None where it isn't read.
pub fn image_of(alloc: Global, mechanism: u8, rounds: u64) -> Result<Option<Image>, AllocError>
    ensures { IfOk result (λ image. IfSome image IsImage) }
{
    let bytes = spelled(alloc, mechanism, rounds)?;
    match read(alloc, &bytes) {
        Ok(image) => Ok(Some(image)),
        Err(_) => Ok(None),
    }
}
