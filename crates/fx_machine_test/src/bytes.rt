//! Bytes as the input writes them.

use std::alloc::{AllocError, Global};

/// The value of a hexadecimal digit.
fn digit(text: u8) -> u8 {
    match text {
        b'0'..=b'9' => text - b'0',
        b'a'..=b'f' => text - b'a' + 10,
        _ => 0,
    }
}

/// The bytes of words of hexadecimal digits, two for a byte.
pub fn bytes_of(alloc: Global, words: &str) -> Result<Vec<u8>, AllocError> {
    let mut bytes = Vec::new(alloc);
    for word in words.split_whitespace() {
        for pair in word.as_bytes().chunks_exact(2) {
            bytes.push((digit(pair[0]) << 4) | digit(pair[1]))?;
        }
    }
    Ok(bytes)
}
