//! Why an image was not migrated, with the status and the line of that.

ghost use Rattle.std.specs.Prelude.{◌≡◌, ◌++◌, ◌∷◌, [], IfOk, string_bytes};
ghost use Rattle.fx_cmd_migrate.specs.Failures.{unmigrated_status, unmigrated_words};

use fx_base::FileError;
use fx_cmd_base::file_fault;
use fx_cmd_run::line::{no_image_words, unbegun_status};
use fx_cmd_run::load::Unbegun;
use std::alloc::{AllocError, Global};

/// Why an image was not migrated. The first step of the work that fails decides.
#[derive(Clone, Copy, Debug)]
pub enum Unmigrated {
    /// There is no image under the old name.
    NoImage(Unbegun),
    /// The files failed at writing the new one.
    WriteFailed,
    /// Memory ran out.
    OutOfMemory,
}

impl From<AllocError> for Unmigrated {
    ghost use Rattle.std.specs.Prelude.{◌≡◌};
    ghost use Rattle.fx_cmd_migrate.specs.declared.failure.Unmigrated.TheVariants.{OutOfMemory};

    ghost from_gives = { λ _ e. e ≡ OutOfMemory };

    fn from(_error: AllocError) -> Unmigrated {
        Unmigrated::OutOfMemory
    }
}

impl Unmigrated {
    /// The status that the command ends with.
    pub fn status(self) -> u8
        ensures { result ≡ unmigrated_status self }
    {
        match self {
            Unmigrated::NoImage(why) => unbegun_status(why),
            Unmigrated::WriteFailed => 4,
            Unmigrated::OutOfMemory => 6,
        }
    }

    fn words(self, alloc: Global, old: &str, new: &str) -> Result<String, AllocError>
        ensures { IfOk result (λ s. string_bytes s ≡ unmigrated_words old.now new.now self) }
    {
        match self {
            Unmigrated::NoImage(why) => no_image_words(alloc, old, why),
            Unmigrated::WriteFailed => file_fault(alloc, new, FileError::Failed),
            Unmigrated::OutOfMemory => String::from_str(alloc, "out of memory"),
        }
    }

    /// The line that the command ends with, ended by a line feed.
    pub fn line(self, alloc: Global, old: &str, new: &str) -> Result<String, AllocError>
        ensures { IfOk result (λ s. string_bytes s ≡ unmigrated_words old.now new.now self
            ++ 10 ∷ []) }
    {
        let mut line = self.words(alloc, old, new)?;
        line.push_str("\n")?;
        Ok(line)
    }
}
