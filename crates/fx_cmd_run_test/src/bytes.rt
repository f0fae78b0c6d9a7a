//! Bytes as the commands write them.

use std::alloc::{AllocError, Global};

/// The bytes of a word of hexadecimal digits; none where it is no such word.
fn word_bytes(alloc: Global, digits: &str) -> Vec<u8> {
    match hex::decode(alloc, digits) {
        Ok(bytes) => bytes,
        Err(_) => Vec::new(alloc),
    }
}

/// The bytes of words, each of which may say how many times its bytes stand there.
pub fn bytes_of(alloc: Global, words: &str) -> Result<Vec<u8>, AllocError> {
    let mut bytes = Vec::new(alloc);
    for word in words.split_whitespace() {
        let (digits, times) = word.split_once('*').unwrap_or((word, "1"));
        let part = word_bytes(alloc, digits);
        for _ in 0..times.parse::<u32>().unwrap_or(0) {
            bytes.extend_from_slice(&part)?;
        }
    }
    Ok(bytes)
}

/// The bytes with those of a command in place of their own.
pub fn replaced(alloc: Global, bytes: &[u8], words: &str) -> Result<Vec<u8>, AllocError> {
    let (at, words) = words.split_once(' ').unwrap_or((words, ""));
    let at = at.parse::<u32>().unwrap_or(0) as usize;
    let mut bytes = Vec::from_slice(alloc, bytes)?;
    let part = bytes_of(alloc, words)?;
    for (place, byte) in part.iter().enumerate() {
        if let Some(old) = bytes.get_mut(at.saturating_add(place)) {
            *old = *byte;
        }
    }
    Ok(bytes)
}
