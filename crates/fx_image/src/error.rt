//! Why bytes are no image.

ghost use Rattle.std.specs.Prelude.{◌≡◌};
ghost use Rattle.fx_image.specs.declared.error.ImageError.TheVariants.{OutOfMemory};

use std::alloc::{AllocError, AllocFailed};
use thiserror::Error;

/// Why bytes are no image: the first fault in the order of the fields.
#[derive(Clone, Copy, Debug, PartialEq, Eq, Error)]
pub enum ImageError {
    /// The first four bytes aren't `FXIM`.
    #[error("no image")]
    Magic,
    /// The version is neither 1 nor 2.
    #[error("unknown version")]
    Version,
    /// The bytes end before the end of a field.
    #[error("the bytes end inside a field")]
    Short,
    /// Bytes follow the last field.
    #[error("bytes follow the last field")]
    Extra,
    /// The field of this number, from 1, breaks its rule.
    #[error("field {0} breaks its rule")]
    Field(u8),
    /// WRPKRU's bytes stand at this offset in the code, which no stub lists.
    #[error("an unlisted WRPKRU stands at {0}")]
    KeySequence(u32),
    #[error("out of memory")]
    OutOfMemory,
}

impl From<AllocError> for ImageError {
    ghost from_gives = { λ _ e. e ≡ OutOfMemory };

    fn from(_e: AllocError) -> ImageError {
        ImageError::OutOfMemory
    }
}

impl<T: Drop> From<AllocFailed<T>> for ImageError {
    ghost from_gives = { λ _ e. e ≡ OutOfMemory };

    fn from(_e: AllocFailed<T>) -> ImageError {
        ImageError::OutOfMemory
    }
}
