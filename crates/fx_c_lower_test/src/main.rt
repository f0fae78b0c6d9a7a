//! The code of the programs of the input.
//!
//! A line that begins with `===` begins a program, which consists of the lines up to the next such
//! line; what stands behind the signs says what it is for. The output has that line again, and then a
//! line for each step of each function: its position, its cost and its op.
#![tactic(auto)]

ghost use Rattle.std.specs.Prelude.{◌<◌, ◌^◌, ◌∷◌, [], length, IsTrue};
ghost use Rattle.fx_c_types.specs.ProgramView.{declarations};

use fx_c_lin::op::{Code, Steps};
use fx_c_lower::lower::lower;
use fx_c_parse::parse;
use fx_c_types::{SourceFile, check};
use std::alloc::{AllocError, Global};
use std::io::{self, BufRead, BufReader};
use std::slice;

/// A program of the input: what its first line says, and its text.
#[derive(Drop)]
struct Source {
    title: String,
    text: Vec<u8>,
}

/// Whether a file has as few declarations as a check asks for.
#[tactic(auto, using(crate::proofs::Counts::one_file))]
fn is_short(file: &SourceFile) -> bool
    ensures { IsTrue result → length (declarations (file.now ∷ [])) < 2 ^ 28 }
{
    file.unit.decls.len() < 268435456
}

/// Appends a line for each step.
fn append_steps(alloc: Global, shown: &mut String, steps: &Steps) -> Result<(), AllocError> {
    for (at, step) in steps.as_slice().iter().enumerate() {
        let cost = step.cost;
        let op = &step.op;
        shown.push_str(&format!(in alloc; "{at} {cost} {op:?}\n")?)?;
    }
    Ok(())
}

/// Appends the steps of each function.
fn append_code(alloc: Global, shown: &mut String, code: &Code) -> Result<(), AllocError> {
    for (f, steps) in code.functions.as_slice().iter().enumerate() {
        shown.push_str(&format!(in alloc; "function {f}\n")?)?;
        append_steps(alloc, shown, steps)?;
    }
    Ok(())
}

/// The lines of a program's code, or why there is none.
fn answer(alloc: Global, text: &[u8]) -> Result<String, AllocError> {
    if text.len() > 1048576 {
        return format!(in alloc; "too long\n");
    }
    let Ok(unit) = parse(alloc, text) else {
        return format!(in alloc; "no source text\n");
    };
    let file = SourceFile { library: 0, unit };
    if !is_short(&file) {
        return format!(in alloc; "too many declarations\n");
    }
    let Ok(program) = check(alloc, slice::from_ref(&file)) else {
        return format!(in alloc; "no program\n");
    };
    let code = lower(alloc, &program)?;
    let mut shown = String::new(alloc);
    append_code(alloc, &mut shown, &code)?;
    Ok(shown)
}

fn main(rt: HostRuntime) -> io::Result<()> {
    let alloc = rt.alloc();
    let mut source: Option<Source> = None;
    for line in BufReader::new(alloc, rt.reader())?.lines(alloc) {
        let line = line?;
        match line.as_str().strip_prefix("===") {
            Some(first) => {
                let mut title = String::new(alloc);
                title.push_str(first)?;
                let text = Vec::new(alloc);
                if let Some(before) = source.replace(Source { title, text }) {
                    println!(rt; "==={}\n{}", before.title, answer(alloc, &before.text)?)?;
                }
            }
            None => {
                if let Some(before) = source.as_mut() {
                    before.text.extend_from_slice(line.as_bytes())?;
                    before.text.push(b'\n')?;
                }
            }
        }
    }
    match source {
        Some(before) => println!(rt; "==={}\n{}", before.title, answer(alloc, &before.text)?),
        None => Ok(()),
    }
}
