//! The law of lowering.

ghost use Rattle.fx_c_lower_law.specs.Correct.{LoweringCorrect};

/// The code of a program does what the program does: for all rights and answers and at every cost
/// it has the program's operations and its end, up to a step that has no meaning.
pub fn lowering_is_correct()
    ensures { LoweringCorrect }
{}
