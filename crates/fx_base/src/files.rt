//! Files under names.

ghost use Rattle.std.specs.Prelude.{◌≡◌, ◌≢◌, ℕ, ◌≤◌, List, length, Option, Some, None, IsSome, IsNone, IfSome, IfOk, IfErr, OnOk, MatchResult, IsErrOf};
ghost use Rattle.fx_base.specs.Faults.{Rose};
ghost use Rattle.fx_base.specs.Told.{Told};
ghost use Rattle.fx_base.specs.Files.{Held, SameFiles, SameElsewhere, RefusesReading, IsOfTheFile};

use std::alloc::{AllocError, Global};

/// Why a file wasn't read or written.
#[derive(Clone, Copy, Debug, PartialEq, Eq)]
pub enum FileError {
    /// The files failed.
    Failed,
    /// No file has the name.
    Missing,
    /// The file is longer than the limit.
    TooLong,
    /// Memory ran out.
    OutOfMemory,
}

impl From<AllocError> for FileError {
    ghost use Rattle.std.specs.Prelude.{◌≡◌};
    ghost use Rattle.fx_base.specs.declared.files.FileError.TheVariants.{OutOfMemory};

    ghost from_gives = { λ _ e. e ≡ OutOfMemory };

    fn from(_error: AllocError) -> FileError {
        FileError::OutOfMemory
    }
}

/// Files under names. What they hold may be untold, as on a disk that others write too.
pub trait Files {
    /// What stands under each name, where it is told.
    ghost held: { Self → Option Held };

    /// The count of faults.
    ghost faults: { Self → ℕ };

    /// The whole file of this name, if it has at most `limit` bytes.
    fn read(&mut self, alloc: Global, name: &str, limit: u64) -> Result<Vec<u8>, FileError>
        // Reading changes no file.
        ensures keeps { Told SameFiles (held self.old) (held self.new) }
        ensures within { IfOk result (λ v. length v.items ≤ limit) }
        // Where content is told, what is read is the file's bytes, and a refusal is true of the file.
        ensures content { IfSome (held self.old) (λ files.
            MatchResult result (λ v. files name.now ≡ Some v.items) (RefusesReading limit (files name.now))) }
        // The count never falls, and rises where the files failed.
        ensures later { faults self.old ≤ faults self.new }
        ensures failed { IsErrOf result FileError.Failed → Rose (faults self.old) (faults self.new) }
        // Where content is told, nothing else raises it; where it isn't, a refusal that speaks of the file does.
        ensures quiet { IsSome (held self.old) → (IsErrOf result FileError.Failed → ⊥) → faults self.new ≡ faults self.old }
        ensures untold { IsNone (held self.old) → IfErr result (λ e. IsOfTheFile e → Rose (faults self.old) (faults self.new)) };

    /// Puts a file of these bytes under the name, in place of the file that may stand there.
    fn write(&mut self, alloc: Global, name: &str, bytes: &[u8]) -> Result<(), FileError>
        ensures written { Told (λ old new. OnOk result (new name.now ≡ Some bytes.now)) (held self.old) (held self.new) }
        // Every other file is as it was, also after a refusal.
        ensures others { Told (SameElsewhere name.now) (held self.old) (held self.new) }
        ensures refusals { IfErr result (λ e. IsOfTheFile e → ⊥) }
        ensures later { faults self.old ≤ faults self.new }
        ensures failed { IsErrOf result FileError.Failed → Rose (faults self.old) (faults self.new) };
}
