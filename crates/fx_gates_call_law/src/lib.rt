//! What the code of plain gates, and of the runtime of images that have them, is made of.
//!
//! The public functions have empty bodies; their contracts are the laws.
#![tactic(auto)]

ghost use Rattle.fx_gates_call_law.specs.Rows.{GatesAreRows, RuntimesAreRows};

/// Each piece of a gate is an instruction of the subset, whatever its site.
pub fn gates_are_rows()
    ensures { GatesAreRows }
{}

/// Each piece of a runtime is an instruction of the subset, whatever the program and its placement.
pub fn runtimes_are_rows()
    ensures { RuntimesAreRows }
{}
