//! The law.

ghost use Rattle.fx_c_lower_stack_law.specs.Stacked.{LoweredCodeIsStacked};

/// The code of a program that may be lowered is well stacked.
pub fn lowered_code_is_stacked()
    ensures { LoweredCodeIsStacked }
{}
