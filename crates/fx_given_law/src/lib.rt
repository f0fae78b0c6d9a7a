//! What a configuration that was read, a checked program and its grants have that the image of them
//! asks for.
//!
//! The public functions have empty bodies; their contracts are the laws.
#![tactic(auto)]

ghost use Rattle.fx_given_law.specs.Laws.{GrantsArePairs, WrittenProgramsHaveNames};
ghost use Rattle.fx_given_law.specs.Laws.{ConfiguredProgramsAreGiven};

/// A configuration of a compartment at least grants each global to a set of writers that isn't
/// empty, inside its set of readers, who are compartments.
pub fn grants_are_pairs()
    ensures { GrantsArePairs }
{}

/// In a checked program whose files are the trees of texts, globals and functions have C names, and
/// no two globals have one name.
pub fn written_programs_have_names()
    ensures { WrittenProgramsHaveNames }
{}

/// The program of a configuration and its sources, with what the configuration grants in it, has
/// what its image asks of them (`IsGiven` of fx_linker_law); and its functions have C names.
pub fn configured_programs_are_given()
    ensures { ConfiguredProgramsAreGiven }
{}
