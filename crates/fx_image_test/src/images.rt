//! Images by hand, one for each mechanism: two compartments, each with a page of code, its table and
//! an entry, and a page of the runtime; under protection keys a stub from the first to the second.
//! Under `call` there is one compartment.

ghost use Rattle.std.specs.Prelude.{◌<◌};

use std::alloc::{AllocError, Global};

/// One compartment under `call`, up to the length of the code.
const CALL_FRONT: [u8; 45] = [
    70, 88, 73, 77, 2, 0, 0, 1, 4, 16, 0, 0, 1, 97, 0, 0, 0, 0, 0, 16, 0, 0, 0, 0, 0, 0, 1, 0, 1,
    0, 1, 0, 0, 0, 0, 1, 0, 1, 0, 0, 0, 0, 32, 0, 0,
];

/// The same in version 1.
const CALL_1_FRONT: [u8; 42] = [
    70, 88, 73, 77, 1, 0, 0, 1, 4, 0, 0, 1, 97, 0, 0, 0, 0, 0, 16, 0, 0, 0, 0, 0, 0, 1, 0, 1, 0, 0,
    0, 0, 1, 0, 1, 0, 0, 0, 0, 32, 0, 0,
];

/// What follows the code.
const CALL_BACK: [u8; 79] = [
    0, 0, 0, 0, 1, 0, 0, 0, 5, 46, 114, 116, 46, 97, 0, 0, 0, 0, 0, 16, 0, 0, 0, 0, 0, 16, 0, 0, 0,
    0, 0, 0, 1, 0, 4, 109, 97, 105, 110, 0, 0, 0, 0, 0, 0, 0, 0, 16, 0, 0, 0, 0, 0, 0, 0, 0, 0, 0,
    0, 0, 0, 0, 0, 0, 0, 0, 1, 0, 16, 64, 0, 224, 79, 0, 32, 0, 0, 0, 0,
];

/// Two compartments under `light`.
const LIGHT_FRONT: [u8; 85] = [
    70, 88, 73, 77, 2, 0, 1, 2, 4, 16, 0, 0, 1, 97, 0, 0, 0, 0, 0, 16, 0, 0, 192, 252, 255, 255, 1,
    98, 0, 16, 0, 0, 0, 16, 0, 0, 56, 252, 255, 255, 3, 0, 1, 0, 1, 0, 2, 0, 0, 1, 0, 1, 0, 0, 0,
    2, 0, 2, 0, 3, 2, 0, 1, 0, 1, 0, 0, 0, 3, 0, 3, 0, 4, 4, 0, 1, 0, 1, 0, 0, 0, 0, 48, 0, 0,
];

/// Two compartments under `full`.
const FULL_FRONT: [u8; 85] = [
    70, 88, 73, 77, 2, 0, 2, 2, 4, 16, 0, 0, 1, 97, 0, 0, 0, 0, 0, 16, 0, 0, 192, 252, 255, 255, 1,
    98, 0, 16, 0, 0, 0, 16, 0, 0, 56, 252, 255, 255, 3, 0, 1, 0, 1, 0, 2, 0, 0, 1, 0, 1, 0, 0, 0,
    2, 0, 2, 0, 3, 2, 0, 1, 0, 1, 0, 0, 0, 3, 0, 3, 0, 4, 4, 0, 1, 0, 1, 0, 0, 0, 0, 48, 0, 0,
];

/// What follows the code under `light` and `full`.
const KEYED_BACK: [u8; 129] = [
    0, 0, 0, 0, 2, 0, 0, 0, 5, 46, 114, 116, 46, 97, 0, 0, 0, 0, 0, 16, 0, 0, 0, 0, 0, 16, 0, 0, 0,
    0, 0, 0, 5, 46, 114, 116, 46, 98, 1, 0, 0, 32, 0, 16, 0, 0, 0, 0, 0, 16, 0, 0, 0, 0, 0, 0, 2,
    0, 4, 109, 97, 105, 110, 0, 0, 0, 0, 0, 4, 112, 105, 110, 103, 1, 0, 0, 1, 0, 1, 0, 0, 1, 0, 0,
    16, 32, 0, 0, 32, 32, 0, 0, 48, 32, 0, 0, 0, 32, 0, 0, 0, 0, 0, 0, 0, 0, 0, 0, 0, 0, 0, 0, 0,
    0, 0, 0, 1, 0, 32, 64, 0, 224, 79, 0, 32, 0, 0, 0, 0,
];

/// Two compartments under `ept`.
const EPT_FRONT: [u8; 85] = [
    70, 88, 73, 77, 2, 0, 3, 2, 4, 16, 0, 0, 1, 97, 0, 0, 0, 0, 0, 16, 0, 0, 0, 0, 0, 0, 1, 98, 0,
    16, 0, 0, 0, 16, 0, 0, 0, 0, 0, 0, 3, 0, 1, 0, 1, 0, 0, 0, 0, 1, 0, 1, 0, 0, 0, 2, 0, 2, 0, 0,
    2, 0, 1, 0, 1, 0, 0, 0, 3, 0, 3, 0, 0, 4, 0, 1, 0, 1, 0, 0, 0, 0, 48, 0, 0,
];

/// What follows the code under `ept`.
const EPT_BACK: [u8; 125] = [
    0, 0, 0, 0, 2, 0, 0, 0, 5, 46, 114, 116, 46, 97, 0, 0, 0, 0, 0, 16, 0, 0, 0, 0, 0, 16, 0, 0, 0,
    0, 0, 0, 5, 46, 114, 116, 46, 98, 1, 0, 0, 32, 0, 16, 0, 0, 0, 0, 0, 16, 0, 0, 0, 0, 0, 0, 2,
    0, 4, 109, 97, 105, 110, 0, 0, 0, 0, 0, 4, 112, 105, 110, 103, 1, 0, 0, 1, 0, 0, 0, 0, 32, 0,
    0, 0, 0, 0, 0, 0, 0, 0, 0, 0, 0, 0, 0, 0, 0, 0, 0, 2, 0, 32, 64, 0, 224, 79, 0, 32, 0, 0, 0, 0,
    0, 32, 64, 0, 224, 239, 0, 32, 0, 0, 0, 0,
];

/// The bytes of an image: what stands before the code, pages of it filled with HLT, and what follows.
fn image(alloc: Global, front: &[u8], pages: u8, back: &[u8]) -> Result<Vec<u8>, AllocError> {
    let code = vec![in alloc; 0xf4; 4096 * usize::from(pages)]?;
    let mut bytes = Vec::from_slice(alloc, front)?;
    bytes.extend_from_slice(&code)?;
    bytes.extend_from_slice(back)?;
    Ok(bytes)
}

/// Writes a byte at a place, if there is one.
pub fn put(bytes: &mut Vec<u8>, at: usize, value: u8) {
    if let Some(b) = bytes.get_mut(at) {
        *b = value;
    }
}

/// Writes the bytes of WRPKRU.
pub fn put_wrpkru(bytes: &mut Vec<u8>, at: usize)
    requires { at < 65536 }
{
    put(bytes, at, 0x0f);
    put(bytes, at + 1, 0x01);
    put(bytes, at + 2, 0xef);
}

/// The image of one compartment under `call`.
pub fn call(alloc: Global) -> Result<Vec<u8>, AllocError> {
    image(alloc, &CALL_FRONT, 2, &CALL_BACK)
}

/// The same in version 1.
pub fn call_1(alloc: Global) -> Result<Vec<u8>, AllocError> {
    image(alloc, &CALL_1_FRONT, 2, &CALL_BACK)
}

/// The image of two compartments under `light`.
pub fn light(alloc: Global) -> Result<Vec<u8>, AllocError> {
    keyed(alloc, &LIGHT_FRONT)
}

/// The image of two compartments under `full`.
pub fn full(alloc: Global) -> Result<Vec<u8>, AllocError> {
    keyed(alloc, &FULL_FRONT)
}

/// The image of two compartments under `ept`.
pub fn ept(alloc: Global) -> Result<Vec<u8>, AllocError> {
    image(alloc, &EPT_FRONT, 3, &EPT_BACK)
}

fn keyed(alloc: Global, front: &[u8; 85]) -> Result<Vec<u8>, AllocError> {
    let mut bytes = image(alloc, front, 3, &KEYED_BACK)?;
    put_wrpkru(&mut bytes, 85 + 0x2020);
    put_wrpkru(&mut bytes, 85 + 0x2030);
    Ok(bytes)
}
