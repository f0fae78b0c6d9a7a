//! Answers of the image's reader to images that the input describes.
//!
//! The input has one command a line; a line's rest from `#` on is left out. `image` names the image
//! that the commands after it change, each by itself:
//!
//! - `image BYTES` is these bytes,
//! - `put AT BYTES` is the image with these bytes in place of its own from the place AT on,
//! - `add BYTES` is the image with these bytes behind it,
//! - `cut N` is the image's first N bytes,
//! - `cuts` is each of its proper prefixes in turn,
//! - `object ADDRESS` is what the image has at an address,
//! - `migrate` makes the image one of the version that is written today.
//!
//! BYTES are words, each of hexadecimal digits, two for a byte, and then perhaps `*` and in decimal
//! digits how many times these bytes stand there. AT and N are in decimal digits, an ADDRESS in
//! hexadecimal ones.
//!
//! Each command has one line of output: `image` where the reader finds one and the writer gives the
//! same bytes again, else the refusal. For `cuts` that is each answer with how many prefixes in a row
//! have it.
#![tactic(auto)]

mod answers;
mod bytes;
#[cfg(test)]
mod images;
#[cfg(test)]
mod tests;

use crate::answers::{answer, cut_answers, found_answer, migrated};
use crate::bytes::{bytes_of, joined, prefix, replaced};
use std::alloc::{AllocError, Global};
use std::io::{self, BufRead, BufReader, BufWriter, Write};

/// A line's command without its comment, and what follows the command's name.
fn command_of(line: &str) -> (&str, &str) {
    let text = line.split_once('#').map_or(line, |parts| parts.0).trim();
    text.split_once(' ').unwrap_or((text, ""))
}

/// The answer to a command; `image` and `migrate` change the image that later commands speak of.
fn answer_to(
    alloc: Global,
    image: &mut Vec<u8>,
    name: &str,
    rest: &str,
) -> Result<String, AllocError> {
    match name {
        "image" => {
            *image = bytes_of(alloc, rest)?;
            answer(alloc, image)
        }
        "put" => answer(alloc, &replaced(alloc, image, rest)?),
        "add" => answer(alloc, &joined(alloc, image, rest)?),
        "cut" => answer(alloc, prefix(image, rest)),
        "cuts" => cut_answers(alloc, image),
        "object" => found_answer(alloc, image, rest),
        "migrate" => {
            *image = migrated(alloc, image)?;
            answer(alloc, image)
        }
        _ => String::from_str(alloc, "no command"),
    }
}

fn main(rt: HostRuntime) -> io::Result<()> {
    let alloc = rt.alloc();
    let mut image = Vec::new(alloc);
    let mut out = BufWriter::new(alloc, io::writer(&rt))?;
    for line in BufReader::new(alloc, rt.reader())?.lines(alloc) {
        let line = line?;
        let (name, rest) = command_of(line.as_str());
        if !name.is_empty() {
            let answer = answer_to(alloc, &mut image, name, rest)?;
            writeln!(out, "{answer}")?;
        }
    }
    out.flush()
}
