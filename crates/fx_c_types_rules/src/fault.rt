//! What refuses a program.

ghost use Rattle.std.specs.Prelude.{◌≡◌};
ghost use Rattle.fx_c_types_rules.specs.declared.fault.Fault.TheVariants.{OutOfMemory};

use std::alloc::{AllocError, AllocFailed};

/// A type rule. The rules stand in the order in which they are tried at one node.
#[derive(Clone, Copy, Debug, PartialEq, Eq)]
pub enum TypeKind {
    Twice,
    UnknownType,
    TooLarge,
    TooManyParameters,
    Initialiser,
    UnknownName,
    NotInteger,
    NotPointer,
    NotLvalue,
    Mismatch,
    Arguments,
    ReturnType,
    CrossCall,
    NotEntry,
    BreakOutside,
    FrameTooLong,
    NoMain,
}

/// A violated rule, or want of memory.
#[derive(Clone, Copy, Debug, PartialEq, Eq)]
pub enum Fault {
    Rule(TypeKind),
    OutOfMemory,
}

impl From<AllocError> for Fault {
    ghost from_gives = { λ _ e. e ≡ OutOfMemory };

    fn from(_e: AllocError) -> Fault {
        Fault::OutOfMemory
    }
}

impl<T: Drop> From<AllocFailed<T>> for Fault {
    ghost from_gives = { λ _ e. e ≡ OutOfMemory };

    fn from(_e: AllocFailed<T>) -> Fault {
        Fault::OutOfMemory
    }
}
