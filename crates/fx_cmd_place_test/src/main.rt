//! What the command `place` does with the cases of the input.
//!
//! A line that begins with `===` begins a case, whose title stands behind it. In a case a line that begins
//! with `---` begins a file of the name behind it, of the lines up to the next such line; the configuration
//! is `place.toml`. A line that begins with `***` stands for so many lines: behind it stand their number and
//! the text to which each line's own number, from 0, and a semicolon are put. A line that begins with `!!!`
//! names a call of the files that fails, by its number from 1.
//!
//! The output of a case is its title, what the command put to the output and to the error stream, and its
//! status.
#![tactic(auto)]

mod case;

use crate::case::Case;
use fx_base::{MemFiles, MemSink};
use fx_cmd_place::place_command;
use std::alloc::Global;
use std::io::{self, BufRead, BufReader};
use std::str;

/// The most bytes that a sink takes.
const ROOM: u64 = 16_777_216;

/// Runs the command on a case, and prints what it did.
fn show(rt: &impl Print, alloc: Global, case: Case) -> io::Result<()> {
    let Case {
        title,
        files,
        failing,
    } = case;
    let mut held = MemFiles::new(alloc, failing);
    for file in &files {
        held.add(file.name.as_str(), file.text.as_bytes())?;
    }
    let mut out = MemSink::new(alloc, ROOM, ROOM, Vec::new(alloc))?;
    let mut err = MemSink::new(alloc, ROOM, ROOM, Vec::new(alloc))?;
    let status = place_command(alloc, "place.toml", &mut held, &mut out, &mut err);
    println!(rt; "==={title}")?;
    print!(rt; "{}", str::from_utf8(out.bytes()).unwrap_or("no text"))?;
    print!(rt; "{}", str::from_utf8(err.bytes()).unwrap_or("no text"))?;
    println!(rt; "status {status}")
}

fn main(rt: HostRuntime) -> io::Result<()> {
    let alloc = rt.alloc();
    let mut case = None;
    for line in BufReader::new(alloc, rt.reader())?.lines(alloc) {
        let line = line?;
        match line.as_str().strip_prefix("===") {
            Some(title) => {
                let next = Case::new(alloc, title)?;
                if let Some(done) = case.replace(next) {
                    show(&rt, alloc, done)?;
                }
            }
            None => {
                if let Some(begun) = case.as_mut() {
                    begun.add(alloc, line.as_str())?;
                }
            }
        }
    }
    match case {
        Some(done) => show(&rt, alloc, done),
        None => Ok(()),
    }
}
