//! Why no image was written, with the status and the line of that.

ghost use Rattle.std.specs.Prelude.{◌≡◌, ◌++◌, ◌∷◌, [], IfOk, string_bytes};
ghost use Rattle.fx_cmd_build.specs.Failures.{unbuilt_words, failure_status, failure_words};

use crate::building::Unbuilt;
use fx_base::FileError;
use fx_cmd_base::{file_fault, grants_refusal, place_refusal, program_status, program_words};
use fx_cmd_load::ProgramError;
use std::alloc::{AllocError, Global};

/// Why no image was written.
#[derive(Drop)]
pub enum BuildFailure {
    /// There is no checked program.
    Program(ProgramError),
    /// The configuration's mechanism isn't the one whose images are built.
    Mechanism,
    /// The program has no image.
    Image(Unbuilt),
    /// The files failed at writing the image.
    WriteFailed,
    /// Memory ran out.
    OutOfMemory,
}

fn unbuilt_words(alloc: Global, error: Unbuilt) -> Result<String, AllocError>
    ensures { IfOk result (λ s. string_bytes s ≡ unbuilt_words error) }
{
    match error {
        Unbuilt::Grants(error) => grants_refusal(alloc, error),
        Unbuilt::Place(error) => place_refusal(alloc, error),
        Unbuilt::CodeTooLong(bytes) => format!(in alloc; "refused: link CodeTooLong {bytes}"),
        Unbuilt::OutOfMemory => String::from_str(alloc, "out of memory"),
    }
}

impl BuildFailure {
    /// The status that the command ends with.
    pub fn status(&self) -> u8
        ensures { result ≡ failure_status self.now }
    {
        match self {
            BuildFailure::Program(error) => program_status(error),
            BuildFailure::Image(Unbuilt::OutOfMemory) | BuildFailure::OutOfMemory => 6,
            BuildFailure::Mechanism | BuildFailure::Image(_) => 3,
            BuildFailure::WriteFailed => 4,
        }
    }

    fn words(&self, alloc: Global, image: &str) -> Result<String, AllocError>
        ensures { IfOk result (λ s. string_bytes s ≡ failure_words image.now self.now) }
    {
        match self {
            BuildFailure::Program(error) => program_words(alloc, error),
            BuildFailure::Mechanism => String::from_str(alloc, "refused: early Config"),
            BuildFailure::Image(error) => unbuilt_words(alloc, *error),
            BuildFailure::WriteFailed => file_fault(alloc, image, FileError::Failed),
            BuildFailure::OutOfMemory => String::from_str(alloc, "out of memory"),
        }
    }

    /// The line that the command ends with, ended by a line feed.
    pub fn line(&self, alloc: Global, image: &str) -> Result<String, AllocError>
        ensures { IfOk result (λ s. string_bytes s ≡ failure_words image.now self.now
            ++ 10 ∷ []) }
    {
        let mut line = self.words(alloc, image)?;
        line.push_str("\n")?;
        Ok(line)
    }
}
