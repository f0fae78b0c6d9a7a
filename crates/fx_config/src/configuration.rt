//! What a configuration document means, and why one is refused.

ghost use Rattle.fx_config.specs.declared.configuration.ConfigError.TheVariants.{OutOfMemory};
ghost use Rattle.std.specs.Prelude.{◌≡◌};

use crate::lists::{Bytes, FileName, Name, Sequence};
use std::alloc::{AllocError, AllocFailed};
use thiserror::Error;

/// What separates the compartments of an image from one another.
#[derive(Clone, Copy, Debug, PartialEq, Eq)]
pub enum Mechanism {
    /// Nothing: a gate is a plain call.
    Call,
    /// Protection keys, with one stack per thread that every compartment may use.
    Light,
    /// Protection keys, with a stack per thread and compartment.
    Full,
    /// Virtual machines, one per compartment, that pass messages over shared memory.
    Ept,
}

/// Names in order.
pub type Names = Sequence<Name>;

/// File names in order.
pub type FileNames = Sequence<FileName>;

/// Libraries in the document's order.
pub type Libraries = Sequence<Library>;

/// Compartments in the document's order.
pub type Compartments = Sequence<Compartment>;

/// What a configuration document means.
#[derive(Drop)]
pub struct Config {
    pub mechanism: Mechanism,
    /// The pages of a stack, 1 to 64.
    pub stack_pages: u8,
    /// The number of the compartment that holds the scheduler, from 0 in the document's order.
    pub scheduler: u8,
    pub libraries: Libraries,
    pub compartments: Compartments,
}

/// A library: source files whose functions may call one another.
#[derive(Drop)]
pub struct Library {
    pub name: Name,
    pub files: FileNames,
}

/// A compartment: libraries that share their rights.
#[derive(Drop)]
pub struct Compartment {
    pub name: Name,
    /// The names of its libraries.
    pub libraries: Names,
    /// The entry functions that it may call, or None where it may call each.
    pub calls: Option<Names>,
    /// The numbers of the devices that it owns, each 0 to 15.
    pub devices: Bytes,
}

/// Why a configuration document is refused.
#[derive(Clone, Copy, Debug, PartialEq, Eq, Error)]
pub enum ConfigError {
    #[error("the configuration is no TOML document in UTF-8")]
    NotToml,
    #[error("a table of the configuration has a field that is not known")]
    UnknownField,
    #[error("a table of the configuration lacks a field")]
    Missing,
    #[error("a field of the configuration has another type")]
    WrongType,
    #[error("a field of the configuration is out of its range")]
    OutOfRange,
    #[error("the configuration names something in two places")]
    TwoPlaces,
    #[error("out of memory")]
    OutOfMemory,
}

impl From<AllocError> for ConfigError {
    ghost from_gives = { λ _ e. e ≡ OutOfMemory };

    fn from(_error: AllocError) -> ConfigError {
        ConfigError::OutOfMemory
    }
}

impl<T: Drop> From<AllocFailed<T>> for ConfigError {
    ghost from_gives = { λ _ e. e ≡ OutOfMemory };

    fn from(_error: AllocFailed<T>) -> ConfigError {
        ConfigError::OutOfMemory
    }
}
