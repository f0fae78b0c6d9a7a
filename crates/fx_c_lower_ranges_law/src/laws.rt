//! The law.

ghost use Rattle.fx_c_lower_ranges_law.specs.Ranges.{LoweredCodeIsInRange};

/// The numbers in the code of a program that may be lowered are in range.
pub fn lowered_code_is_in_range()
    ensures { LoweredCodeIsInRange }
{}
