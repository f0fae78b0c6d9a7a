//! The pieces of ops and of beginnings are rows of the instruction subset, which is what a linker asks
//! of them.
#![tactic(auto)]

ghost use Rattle.fx_templates_law.specs.Rows.{OpsAreRows, BeginningsAreRows};

/// Each piece that an op becomes is a row: operators on 32 and 64 bits alone, extensions of narrower
/// widths, and no test by a constant.
pub fn ops_are_rows()
    ensures { OpsAreRows }
{}

/// Each piece of a function's beginning is a row.
pub fn beginnings_are_rows()
    ensures { BeginningsAreRows }
{}
