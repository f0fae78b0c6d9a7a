//! Why parts aren't linked.

ghost use Rattle.std.specs.Prelude.{◌≡◌};
ghost use Rattle.fx_linker.specs.declared.error.LinkError.TheVariants.{OutOfMemory};

use std::alloc::AllocError;
use thiserror::Error;

/// Why parts aren't linked.
#[derive(Clone, Copy, Debug, PartialEq, Eq, Error)]
pub enum LinkError {
    /// The code has so many bytes, more than 1,048,576.
    #[error("{0} bytes of code, more than 1048576")]
    CodeTooLong(u64),
    #[error("out of memory")]
    OutOfMemory,
}

impl From<AllocError> for LinkError {
    ghost from_gives = { λ _ e. e ≡ OutOfMemory };

    fn from(_error: AllocError) -> LinkError {
        LinkError::OutOfMemory
    }
}
