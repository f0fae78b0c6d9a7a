//! Spellings in text: those of a table that was written by hand, or of drawn instructions.
//!
//! Without an argument each line of the input is read as bytes in hexadecimal digits, and answered by
//! the instruction that they begin with and its spelling, or by `none`. A line's rest from `#` on is
//! left out, and so is a line that begins with it.
//!
//! With a number as its argument the program draws that many instructions and prints each with its
//! spelling, for comparison with other assemblers. A draw that is no row is left out. The draws are
//! the same in every run.
#![tactic(auto)]

mod draws;
mod instructions;
#[cfg(test)]
mod pages;
#[cfg(test)]
mod programs;
#[cfg(test)]
mod spellings;
mod text;
#[cfg(test)]
mod words;

use crate::draws::Draws;
use crate::instructions::instruction;
use crate::text::{bytes_of, spelling_text};
use fx_x64_code::decode::{decode, is_row};
use std::{env, io};

/// Answers each line of the input.
fn answer_lines(rt: HostRuntime) -> io::Result<()> {
    for line in rt.lines(rt.alloc()) {
        let line = line?;
        if line.as_str().starts_with('#') {
            continue;
        }
        let bytes = bytes_of(rt.alloc(), line.as_str())?;
        match decode(bytes.as_slice()) {
            Some((inst, _)) if is_row(&inst) => {
                let spelled = spelling_text(rt.alloc(), &inst)?;
                println!(rt; "{inst:?} ={spelled}")?;
            }
            _ => println!(rt; "none")?,
        }
    }
    Ok(())
}

/// Prints drawn instructions.
fn print_draws(rt: HostRuntime, count: u32) -> io::Result<()> {
    let mut draws = Draws::new();
    for _ in 0..count {
        let inst = instruction(&mut draws);
        if is_row(&inst) {
            let spelled = spelling_text(rt.alloc(), &inst)?;
            println!(rt; "{inst:?} ={spelled}")?;
        }
    }
    Ok(())
}

fn main(rt: HostRuntime) -> io::Result<()> {
    match env::args(&rt)?.nth(1) {
        Some(count) => print_draws(rt, count.as_str().parse::<u32>().unwrap_or(0)),
        None => answer_lines(rt),
    }
}
