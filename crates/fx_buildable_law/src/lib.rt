//! What a build under plain calls may take from a program that is checked and placed.
//!
//! The public functions have empty bodies; their contracts are the laws.
#![tactic(auto)]

ghost use Rattle.fx_buildable_law.specs.Laws.{PlacedProgramsAreBuildable};
ghost use Rattle.fx_buildable_law.specs.Laws.{ConfiguredProgramsAreBuildable};

/// A program that the checker accepts and that is placed is buildable: its frames and its globals
/// have sizes, and each compartment has a section of its own.
pub fn placed_programs_are_buildable()
    ensures { PlacedProgramsAreBuildable }
{}

/// So is the program of a configuration's files once the configuration grants what it uses and it
/// is placed.
pub fn configured_programs_are_buildable()
    ensures { ConfiguredProgramsAreBuildable }
{}
