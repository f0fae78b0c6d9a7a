//! The line that the command ends with, and its status.

ghost use Rattle.std.specs.Prelude.{◌≡◌, ◌++◌, ◌∷◌, [], IfOk, string_bytes};
ghost use Rattle.fx_cmd_single.specs.Lines.{verdict_words, came_status, came_words, came_line};

use crate::verdict::Verdict;
use fx_cmd_base::{program_status, program_words};
use fx_cmd_load::ProgramError;
use std::alloc::{AllocError, Global};

/// The words of the end of a run.
fn verdict_words(alloc: Global, verdict: Verdict) -> Result<String, AllocError>
    ensures { IfOk result (λ s. string_bytes s ≡ verdict_words verdict) }
{
    match verdict {
        Verdict::Exited { value, cost } => format!(in alloc; "exit {value} in {cost} steps"),
        Verdict::StackFull { thread } => {
            format!(in alloc; "stack full: thread {thread} stack common")
        }
        Verdict::Divide => String::from_str(alloc, "divide"),
        Verdict::BadThread => String::from_str(alloc, "bad thread"),
        Verdict::ThreadsFull => String::from_str(alloc, "threads full"),
        Verdict::Undefined => String::from_str(alloc, "broken: undefined"),
        Verdict::Spent { budget } => format!(in alloc; "steps spent: {budget}"),
        Verdict::DeviceFault(device) => format!(in alloc; "device fault: {device}"),
        Verdict::ReadFault => String::from_str(alloc, "read fault"),
        Verdict::WriteFault => String::from_str(alloc, "write fault"),
        Verdict::OutOfMemory => String::from_str(alloc, "out of memory"),
    }
}

/// The status that the command ends with.
pub fn status(came: &Result<Verdict, ProgramError>) -> u8
    ensures { result ≡ came_status came.now }
{
    match came {
        Ok(verdict) => verdict.status(),
        Err(error) => program_status(error),
    }
}

fn words(alloc: Global, came: &Result<Verdict, ProgramError>) -> Result<String, AllocError>
    ensures { IfOk result (λ s. string_bytes s ≡ came_words came.now) }
{
    match came {
        Ok(verdict) => verdict_words(alloc, *verdict),
        Err(error) => program_words(alloc, error),
    }
}

/// The line that the command ends with, ended by a line feed.
pub fn line(alloc: Global, came: &Result<Verdict, ProgramError>) -> Result<String, AllocError>
    ensures { IfOk result (λ s. string_bytes s ≡ came_line came.now) }
{
    let mut line = words(alloc, came)?;
    line.push_str("\n")?;
    Ok(line)
}
