//! What the command `run` comes to over files and streams in memory that the input describes.
//!
//! The input has one command a line; a line's rest from `#` on is left out.
//!
//! - `image BYTES` lets the file `a.img` hold these bytes,
//! - `put AT BYTES` lets it hold that image with these bytes in place of its own from the place AT on,
//! - `schedule BYTES` lets the file `s` hold these,
//! - `input BYTES` is what the console gives,
//! - `room N` is how many bytes the output takes in the next run,
//! - `fail WHAT N` lets call N of WHAT fail in the next run: of `files`, `input`, `err` or `counter`, which is
//!   device 2,
//! - `run WORDS` is that command.
//!
//! BYTES are words, each of hexadecimal digits, two for a byte, and then perhaps `*` and in decimal digits how
//! many times these bytes stand there. AT and N are in decimal digits. Device 1 is a store of 64 words.
//!
//! Each `run` has one line of output: the status, the line on the error stream, and behind a bar the bytes of
//! the output, if it took any.
#![tactic(auto)]

mod bytes;
mod run;
mod setting;

use crate::run::answer;
use crate::setting::Setting;
use std::io::{self, BufRead, BufReader, BufWriter, Write};

/// A line's command without its comment.
fn command_of(line: &str) -> &str {
    line.split_once('#').map_or(line, |parts| parts.0).trim()
}

fn main(rt: HostRuntime) -> io::Result<()> {
    let alloc = rt.alloc();
    let mut setting = Setting::new(alloc);
    let mut out = BufWriter::new(alloc, io::writer(&rt))?;
    for line in BufReader::new(alloc, rt.reader())?.lines(alloc) {
        let line = line?;
        let command = command_of(line.as_str());
        let (name, rest) = command.split_once(' ').unwrap_or((command, ""));
        if name == "run" {
            let answer = answer(alloc, &setting, command)?;
            writeln!(out, "{answer}")?;
            setting.rest();
        } else {
            setting.set(alloc, name, rest)?;
        }
    }
    out.flush()
}
