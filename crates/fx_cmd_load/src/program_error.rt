//! Why there is no checked program.

ghost use Rattle.std.specs.Prelude.{◌≡◌};
ghost use Rattle.fx_cmd_load.specs.Errors.{unloaded};
ghost use Rattle.fx_cmd_load.specs.declared.program_error.ProgramError.TheVariants.{OutOfMemory};

use crate::LoadError;
use fx_base::FileError;
use fx_c_parse::ParseError;
use fx_c_types_rules::fault::TypeKind;
use fx_config::{ConfigError, FileName};
use std::alloc::AllocError;

/// Why a configuration and its sources have no checked program. The first step of the work that fails
/// decides.
#[derive(Drop)]
pub enum ProgramError {
    /// The file of this name was not read.
    File { name: FileName, error: FileError },
    /// The configuration is refused.
    Config(ConfigError),
    /// The source file of this number, from 0 in the configuration's order, has no tree.
    Parse { file: u32, error: ParseError },
    /// The declaration of this number, over all files from 0, violates a rule.
    Types { kind: TypeKind, declaration: u32 },
    /// Memory ran out.
    OutOfMemory,
}

impl From<AllocError> for ProgramError {
    ghost from_gives = { λ _ e. e ≡ OutOfMemory };

    fn from(_error: AllocError) -> ProgramError {
        ProgramError::OutOfMemory
    }
}

/// The same refusal of what was loaded.
pub fn unloaded(error: LoadError) -> ProgramError
    ensures { result ≡ unloaded error }
{
    match error {
        LoadError::File { name, error } => ProgramError::File { name, error },
        LoadError::Config(error) => ProgramError::Config(error),
        LoadError::Parse { file, error } => ProgramError::Parse { file, error },
        LoadError::OutOfMemory => ProgramError::OutOfMemory,
    }
}
