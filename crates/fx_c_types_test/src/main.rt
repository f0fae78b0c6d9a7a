//! What the lexer, the parser and the checker answer to the texts of the input.
//!
//! A line that begins with `===` begins a program; its first word says what is asked of it, and all
//! else there says what the program is for. It consists of the lines up to the next such line. A line
//! `---` within it begins its next file, which belongs to the library whose number stands behind the
//! dashes; the first file belongs to library 0. A line `*N TEXT` stands for N times TEXT, with no end
//! of a line.
//!
//! Each program has one line of output, what is answered:
//!
//! - `tokens`: the kinds of its tokens with their places, or where there is no token;
//! - `parse`: how many declarations there are, or why there are none;
//! - `again`: whether its tree, printed and parsed again, is the same tree;
//! - `same`: whether its two files have the same tree;
//! - `show`: what the checker accepted, and the bodies of its functions, a line for each statement
//!   that is not empty;
//! - another word: the checker's refusal, or what was accepted.
#![tactic(auto)]

mod answers;
mod printer;
mod program;
mod trees;

use crate::answers::answer;
use crate::program::Program;
use std::io::{self, BufRead, BufReader};

fn main(rt: HostRuntime) -> io::Result<()> {
    let alloc = rt.alloc();
    let mut program: Option<Program> = None;
    for line in BufReader::new(alloc, rt.reader())?.lines(alloc) {
        let line = line?;
        match line.as_str().strip_prefix("===") {
            Some(first) => {
                let next = Program::begun(alloc, first)?;
                if let Some(before) = program.replace(next) {
                    println!(rt; "{}", answer(alloc, &before)?)?;
                }
            }
            None => {
                if let Some(before) = program.as_mut() {
                    before.add(alloc, line.as_str())?;
                }
            }
        }
    }
    match program {
        Some(before) => println!(rt; "{}", answer(alloc, &before)?),
        None => Ok(()),
    }
}
