//! The parts of a program's image spell WRPKRU nowhere.
//!
//! The public functions have no work to do; their contracts are the laws.
#![tactic(auto)]

ghost use Rattle.fx_build_quiet_law.specs.Quiet.{CodeHasRegisters, PartsHaveNoKeys};
ghost use Rattle.fx_build_quiet_law.specs.Quiet.{LinkedAreShort};

use fx_templates_quiet_law::{
    beginnings_are_quiet, gates_are_quiet, ops_are_quiet, runtimes_are_quiet,
};

/// The ops of a lowered program that load from devices and store to them name registers that are
/// there.
pub fn code_has_registers()
    ensures { CodeHasRegisters }
{}

/// No piece of the parts of a program spells WRPKRU, alone or with what stands before it or behind
/// it, and the runtime leads to the jump to `main` in the code.
pub fn parts_have_no_keys()
    ensures { PartsHaveNoKeys }
{
    ops_are_quiet();
    beginnings_are_quiet();
    gates_are_quiet();
    runtimes_are_quiet();
}

/// Parts of which an image is linked have no more bytes of code than an image may have.
pub fn linked_are_short()
    ensures { LinkedAreShort }
{}
