//! What the image of parts asks of them, and the parts of a program's image have.
//!
//! The public functions have empty bodies; their contracts are the laws.
#![tactic(auto)]

ghost use Rattle.fx_built_parts_law.specs.Whole.{PartsAreWhole, GrantsGiveHomes};

/// The parts of a program have a range for each compartment, `main` in one of them, entries that
/// are counted and have room for their jumps, tables of no more bytes than they may have, no stubs,
/// and a runtime that leads into the code.
pub fn parts_are_whole()
    ensures { PartsAreWhole }
{}

/// What a configuration grants in a program has each of its functions in a compartment.
pub fn grants_give_homes()
    ensures { GrantsGiveHomes }
{}
