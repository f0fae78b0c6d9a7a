//! What the reader answers, in words.

use fx_image::{Found, ImageError, migrate, object_of, print, read};
use std::alloc::{AllocError, Global};

/// The answer to bytes: `image`, or the refusal.
pub fn answer(alloc: Global, bytes: &[u8]) -> Result<String, AllocError> {
    match read(alloc, bytes) {
        Ok(image) => {
            let again = print(alloc, &image)?;
            if again.as_slice() == bytes {
                String::from_str(alloc, "image")
            } else {
                String::from_str(alloc, "image with other bytes")
            }
        }
        Err(ImageError::Field(number)) => format!(in alloc; "Field {number}"),
        Err(ImageError::KeySequence(at)) => format!(in alloc; "KeySequence {at}"),
        Err(error) => format!(in alloc; "{error:?}"),
    }
}

/// The answers to each proper prefix, each with how many prefixes in a row have it.
pub fn cut_answers(alloc: Global, image: &[u8]) -> Result<String, AllocError> {
    let mut text = String::new(alloc);
    let mut last = String::new(alloc);
    let mut count = 0u64;
    for n in 0..image.len() {
        let next = answer(alloc, &image[..n])?;
        if next.as_str() == last.as_str() {
            count = count.saturating_add(1);
        } else {
            append_run(alloc, &mut text, last.as_str(), count)?;
            last = next;
            count = 1;
        }
    }
    append_run(alloc, &mut text, last.as_str(), count)?;
    Ok(text)
}

fn append_run(
    alloc: Global,
    text: &mut String,
    answer: &str,
    count: u64,
) -> Result<(), AllocError> {
    if count > 0 {
        if !text.as_str().is_empty() {
            text.push_str(", ")?;
        }
        text.push_str(format!(in alloc; "{answer} {count} times")?.as_str())?;
    }
    Ok(())
}

/// What the image has at an address.
pub fn found_answer(alloc: Global, bytes: &[u8], address: &str) -> Result<String, AllocError> {
    let Ok(image) = read(alloc, bytes) else {
        return String::from_str(alloc, "no image");
    };
    let address = u64::from_str_radix(address, 16).unwrap_or(0);
    match object_of(&image, address) {
        Found::Object { object, offset } => format!(in alloc; "object {object}+{offset}"),
        Found::Stack {
            thread,
            compartment,
            offset,
        } => format!(in alloc; "stack {thread}/{compartment}+{offset}"),
        Found::Nothing => String::from_str(alloc, "nothing"),
    }
}

/// The bytes of the image in the version that is written today.
pub fn migrated(alloc: Global, bytes: &[u8]) -> Result<Vec<u8>, AllocError> {
    match read(alloc, bytes) {
        Ok(image) => print(alloc, &migrate(alloc, &image)?),
        Err(_) => Ok(Vec::new(alloc)),
    }
}
