//! Why a configuration and its sources were not taken.

ghost use Rattle.std.specs.Prelude.{◌≡◌};
ghost use Rattle.fx_cmd_load.specs.declared.error.LoadError.TheVariants.{OutOfMemory};

use fx_base::FileError;
use fx_c_parse::ParseError;
use fx_config::{ConfigError, FileName};
use std::alloc::{AllocError, AllocFailed};

/// Why a configuration and its sources were not taken. The first step of the work that fails decides.
#[derive(Drop)]
pub enum LoadError {
    /// The file of this name was not read.
    File { name: FileName, error: FileError },
    /// The configuration is refused.
    Config(ConfigError),
    /// The source file of this number, from 0 in the configuration's order, has no tree.
    Parse { file: u32, error: ParseError },
    /// Memory ran out.
    OutOfMemory,
}

impl From<AllocError> for LoadError {
    ghost from_gives = { λ _ e. e ≡ OutOfMemory };

    fn from(_error: AllocError) -> LoadError {
        LoadError::OutOfMemory
    }
}

impl<T: Drop> From<AllocFailed<T>> for LoadError {
    ghost from_gives = { λ _ e. e ≡ OutOfMemory };

    fn from(_error: AllocFailed<T>) -> LoadError {
        LoadError::OutOfMemory
    }
}
