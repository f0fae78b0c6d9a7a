//! Why a program's placement was not put, with the status and the line of that.

ghost use Rattle.std.specs.Prelude.{◌≡◌, ◌++◌, ◌∷◌, [], IfOk, string_bytes};
ghost use Rattle.fx_cmd_place.specs.Failures.{placing_status, failure_status, placing_words, failure_words};

use crate::Unplaced;
use fx_cmd_base::{grants_refusal, place_refusal, program_status, program_words};
use fx_cmd_load::ProgramError;
use std::alloc::{AllocError, Global};

/// Why a program's placement was not put.
#[derive(Drop)]
pub enum PlaceFailure {
    /// There is no checked program.
    Program(ProgramError),
    /// The program is not placed, or its table was not taken.
    Placing(Unplaced),
}

fn placing_status(error: Unplaced) -> u8
    ensures { result ≡ placing_status error }
{
    match error {
        Unplaced::Grants(_) | Unplaced::Place(_) => 3,
        Unplaced::WriteFault => 5,
        Unplaced::OutOfMemory => 6,
    }
}

fn placing_words(alloc: Global, error: Unplaced) -> Result<String, AllocError>
    ensures { IfOk result (λ s. string_bytes s ≡ placing_words error) }
{
    match error {
        Unplaced::Grants(error) => grants_refusal(alloc, error),
        Unplaced::Place(error) => place_refusal(alloc, error),
        Unplaced::WriteFault => String::from_str(alloc, "write fault"),
        Unplaced::OutOfMemory => String::from_str(alloc, "out of memory"),
    }
}

impl PlaceFailure {
    /// The status that the command ends with.
    pub fn status(&self) -> u8
        ensures { result ≡ failure_status self.now }
    {
        match self {
            PlaceFailure::Program(error) => program_status(error),
            PlaceFailure::Placing(error) => placing_status(*error),
        }
    }

    fn words(&self, alloc: Global) -> Result<String, AllocError>
        ensures { IfOk result (λ s. string_bytes s ≡ failure_words self.now) }
    {
        match self {
            PlaceFailure::Program(error) => program_words(alloc, error),
            PlaceFailure::Placing(error) => placing_words(alloc, *error),
        }
    }

    /// The line that the command ends with, ended by a line feed.
    pub fn line(&self, alloc: Global) -> Result<String, AllocError>
        ensures { IfOk result (λ s. string_bytes s ≡ failure_words self.now ++ 10 ∷ []) }
    {
        let mut line = self.words(alloc)?;
        line.push_str("\n")?;
        Ok(line)
    }
}
