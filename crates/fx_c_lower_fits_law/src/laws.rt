//! The law.

ghost use Rattle.fx_c_lower_fits_law.specs.Moves.{LowerableProgramsFit};

/// A program that may be lowered fits the law of lowering where it moves no pointer by an unsigned
/// long.
pub fn lowerable_programs_fit()
    ensures { LowerableProgramsFit }
{}
