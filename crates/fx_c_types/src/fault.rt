//! What refuses a program, and where.

ghost use Rattle.std.specs.Prelude.{◌≡◌};
ghost use Rattle.fx_c_types.specs.declared.fault.TypeError.TheVariants.{OutOfMemory};

use fx_c_types_rules::fault::TypeKind;
use std::alloc::AllocError;

/// A violated rule with the number of the declaration, over all files from 0, or want of memory.
#[derive(Clone, Copy, Debug, PartialEq, Eq)]
pub enum TypeError {
    Rule { kind: TypeKind, declaration: u32 },
    OutOfMemory,
}

impl From<AllocError> for TypeError {
    ghost from_gives = { λ _ e. e ≡ OutOfMemory };

    fn from(_e: AllocError) -> TypeError {
        TypeError::OutOfMemory
    }
}
