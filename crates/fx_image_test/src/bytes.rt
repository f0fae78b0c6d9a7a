//! Bytes as the commands write them.

use std::alloc::{AllocError, Global};

/// The value of a hexadecimal digit.
fn digit(text: u8) -> u8 {
    match text {
        b'0'..=b'9' => text - b'0',
        b'a'..=b'f' => text - b'a' + 10,
        _ => 0,
    }
}

/// The bytes of a word of hexadecimal digits.
fn word_bytes(alloc: Global, digits: &[u8]) -> Result<Vec<u8>, AllocError> {
    let mut bytes = Vec::new(alloc);
    for pair in digits.chunks_exact(2) {
        bytes.push((digit(pair[0]) << 4) | digit(pair[1]))?;
    }
    Ok(bytes)
}

/// The bytes of words, each of which may say how many times its bytes stand there.
pub fn bytes_of(alloc: Global, words: &str) -> Result<Vec<u8>, AllocError> {
    let mut bytes = Vec::new(alloc);
    for word in words.split_whitespace() {
        let (digits, times) = word.split_once('*').unwrap_or((word, "1"));
        let part = word_bytes(alloc, digits.as_bytes())?;
        for _ in 0..times.parse::<u32>().unwrap_or(0) {
            bytes.extend_from_slice(&part)?;
        }
    }
    Ok(bytes)
}

/// The bytes of an image with those of a command in their place.
pub fn replaced(alloc: Global, image: &[u8], words: &str) -> Result<Vec<u8>, AllocError> {
    let (at, words) = words.split_once(' ').unwrap_or((words, ""));
    let at = at.parse::<u32>().unwrap_or(0) as usize;
    let mut bytes = Vec::from_slice(alloc, image)?;
    let part = bytes_of(alloc, words)?;
    for (place, byte) in part.iter().enumerate() {
        if let Some(old) = bytes.get_mut(at.saturating_add(place)) {
            *old = *byte;
        }
    }
    Ok(bytes)
}

/// An image's bytes and those of a command behind them.
pub fn joined(alloc: Global, image: &[u8], words: &str) -> Result<Vec<u8>, AllocError> {
    let mut bytes = Vec::from_slice(alloc, image)?;
    bytes.extend_from_slice(&bytes_of(alloc, words)?)?;
    Ok(bytes)
}

/// The first bytes of an image, as many as a command says.
pub fn prefix<'a>(image: &'a [u8], count: &str) -> &'a [u8] {
    let count = count.parse::<u32>().unwrap_or(0) as usize;
    image.get(..count).unwrap_or(image)
}
