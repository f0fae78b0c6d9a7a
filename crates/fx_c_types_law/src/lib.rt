//! What a program that the check accepts has.
#![tactic(auto)]

ghost use Rattle.fx_c_types_law.specs.Laws.{CheckedProgramsHaveFrames, CheckedProgramsArePlaceable, CheckedProgramsAreFew, CheckedProgramsStart, CheckedProgramsJumpInLoops};

/// Structs, parameters and locals have sizes, and frames at most 65,536 bytes.
pub fn checked_programs_have_frames()
    ensures { CheckedProgramsHaveFrames }
{}

/// With a pair for each global, a checked program can be placed or is refused for its size.
pub fn checked_programs_are_placeable()
    ensures { CheckedProgramsArePlaceable }
{}

/// Globals and functions are no more than declarations.
pub fn checked_programs_are_few()
    ensures { CheckedProgramsAreFew }
{}

/// At most six parameters, and a function to begin with.
pub fn checked_programs_start()
    ensures { CheckedProgramsStart }
{}

/// Each `break` and `continue` stands in a loop.
pub fn checked_programs_jump_in_loops()
    ensures { CheckedProgramsJumpInLoops }
{}
