//! Why a text or a part of it has no tree.

ghost use Rattle.std.specs.Prelude.{◌≡◌};
ghost use Rattle.fx_c_parse.specs.declared.fault.Fault.TheVariants.{OutOfMemory as no_memory};

use std::alloc::{AllocError, AllocFailed};

/// Why a text has no tree.
#[derive(Clone, Copy, Debug, PartialEq, Eq)]
pub enum ParseError {
    /// The first place where the text has no token.
    Byte(u32),

    /// How many declarations stand before the first that isn't one.
    Syntax(u32),

    /// Memory ran out.
    OutOfMemory,
}

/// Why tokens have no tree.
#[derive(Clone, Copy, Debug, PartialEq, Eq)]
pub enum Fault {
    /// No such phrase stands there, or it nests too deep.
    Syntax,

    /// Memory ran out.
    OutOfMemory,
}

impl From<AllocError> for Fault {
    ghost from_gives = { λ _ e. e ≡ no_memory };

    fn from(_e: AllocError) -> Fault {
        Fault::OutOfMemory
    }
}

impl<T: Drop> From<AllocFailed<T>> for Fault {
    ghost from_gives = { λ _ e. e ≡ no_memory };

    fn from(_e: AllocFailed<T>) -> Fault {
        Fault::OutOfMemory
    }
}
