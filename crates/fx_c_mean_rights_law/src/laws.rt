//! Laws of rights.

ghost use Rattle.fx_c_mean_rights_law.specs.Laws.{RightsChangeLittle, RightsOnlyRefuse, MergedRightsAreMerged, RightsAreGrants};

/// Under any two rights a step makes the same operations and leads to the same state, but for which callers
/// wait for a gate between compartments, unless one of them refuses an access or a call.
pub fn rights_change_little()
    ensures { RightsChangeLittle }
{}

/// The operations of a run under any rights are a prefix of those that it makes at the same cost where all
/// functions are in one compartment under plain calls, and so is its end the same unless the rights refuse;
/// or the one compartment's stack is full.
pub fn rights_only_refuse()
    ensures { RightsOnlyRefuse }
{}

/// The rights where a configuration's libraries are merged are those of one compartment under plain calls.
pub fn merged_rights_are_merged()
    ensures { MergedRightsAreMerged }
{}

/// The rights of a resolved configuration permit what its grants permit: of each of its compartments, and
/// each object of the program.
pub fn rights_are_grants()
    ensures { RightsAreGrants }
{}
