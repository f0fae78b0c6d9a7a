//! What the reader answers to the configuration documents of the input.
//!
//! A line that begins with `===` begins a document, of the lines up to the next such line. A number
//! behind the `===` asks for a comment of so many bytes before the document's own lines; all else
//! there says what the document is for.
//!
//! Each document has one line of output: what it means, field by field, or its refusal.
#![tactic(auto)]

mod answers;
#[cfg(test)]
mod tests;

use crate::answers::answer;
use std::alloc::{AllocError, Global};
use std::io::{self, BufRead, BufReader};

/// A document's first bytes: a comment of the length that its first line asks for.
fn begun(alloc: Global, first: &str) -> Result<String, AllocError> {
    let mut text = String::new(alloc);
    let length = first.trim().parse::<u32>().unwrap_or(0);
    if length > 0 {
        for _ in 0..length {
            text.push('#')?;
        }
        text.push('\n')?;
    }
    Ok(text)
}

fn main(rt: HostRuntime) -> io::Result<()> {
    let alloc = rt.alloc();
    let mut text = None;
    for line in BufReader::new(alloc, rt.reader())?.lines(alloc) {
        let line = line?;
        match line.as_str().strip_prefix("===") {
            Some(first) => {
                let next = begun(alloc, first)?;
                if let Some(document) = text.replace(next) {
                    println!(rt; "{}", answer(alloc, &document)?)?;
                }
            }
            None => {
                if let Some(document) = text.as_mut() {
                    document.push_str(line.as_str())?;
                    document.push('\n')?;
                }
            }
        }
    }
    match text {
        Some(document) => println!(rt; "{}", answer(alloc, &document)?),
        None => Ok(()),
    }
}
