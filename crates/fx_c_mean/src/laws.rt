//! The rights say of each access what the grants say.

ghost use Rattle.fx_c_mean.specs.Laws.{SameMerged};

/// Where all compartments are merged into one, the rights permit what the grants permit.
pub fn merged_rights_are_grants()
    ensures { SameMerged }
{}
