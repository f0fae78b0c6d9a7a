//! What grants mean, compartment by compartment.

ghost use Rattle.fx_grants.specs.Laws.{GrantSets};

/// A compartment may touch exactly the objects whose sets of readers or writers, by the rules, it
/// is in.
pub fn grant_sets_hold()
    ensures { GrantSets }
{}
