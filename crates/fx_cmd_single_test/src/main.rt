//! What the command `single` does with the cases of the input.
//!
//! A line that begins with `===` begins a case, whose title stands behind it. The lines behind it are the source
//! `a.c`, whose library stands alone in the one compartment of the configuration `c.toml`. Other lines of a case
//! begin with a mark: `>>>` stands before the words of the command (`single c.toml` where there are none), `+++`
//! before a first line of the configuration, `<<<` before the bytes of its input, and `###` before the number of bytes
//! that the output takes. Before the number, from 1, of a call that fails stands `%%%` for the files, `???` for the
//! input, `$$$` for the error stream and `!!!` for device 2. A line that begins with `---` begins a file of the name behind it, of the lines up
//! to the next such line; a case may so have a configuration of its own.
//!
//! Device 1 is a store of 64 words and device 2 a counter from 0. The output of a case is its title, what the
//! command put to the output, with a line feed behind it where there was something, what it put to the error
//! stream, and its status.
//!
//! Comments in the sources count the steps: `start` is the call of `main`, one step and one more for each eighth
//! byte of its frame.
#![tactic(auto)]

mod case;
mod run;

use crate::case::Case;
use crate::run::answer;
use std::alloc::Global;
use std::io::{self, BufRead, BufReader};

/// Runs the command on a case, and prints what it did.
fn show(rt: &impl Print, alloc: Global, mut case: Case) -> io::Result<()> {
    case.complete(alloc)?;
    let answer = answer(alloc, &case)?;
    println!(rt; "==={}\n{answer}", case.title)
}

fn main(rt: HostRuntime) -> io::Result<()> {
    let alloc = rt.alloc();
    let mut case = None;
    for line in BufReader::new(alloc, rt.reader())?.lines(alloc) {
        let line = line?;
        match line.as_str().strip_prefix("===") {
            Some(title) => {
                let next = Case::new(alloc, title)?;
                if let Some(done) = case.replace(next) {
                    show(&rt, alloc, done)?;
                }
            }
            None => {
                if let Some(begun) = case.as_mut() {
                    begun.add(alloc, line.as_str())?;
                }
            }
        }
    }
    match case {
        Some(done) => show(&rt, alloc, done),
        None => Ok(()),
    }
}
