//! The trees of a program that the check accepts: their numbers are there, and their types are
//! those of C11 at each node.
#![tactic(auto)]

ghost use Rattle.fx_c_types_trees_law.specs.Laws.{CheckedProgramsNameTypes, CheckedFunctionsNameTypes, CheckedProgramsAreRight};

/// Each struct that a type of a global or of a struct's member names is there.
pub fn checked_programs_name_types()
    ensures { CheckedProgramsNameTypes }
{}

/// So is each that a type of a parameter or a local names, or a function's result, which is an
/// integer, a pointer or nothing. A function's parameters are the first of its locals.
pub fn checked_functions_name_types()
    ensures { CheckedFunctionsNameTypes }
{}

/// In each body every number of a struct, member, global, string, function, parameter or local is
/// there, where 32 bits hold the numbers of strings and members; each node carries a type of the
/// program; the operands of each operation, the values that are assigned, passed, returned and
/// tested, and the conversions that are written have the types that C11 asks for.
pub fn checked_programs_are_right()
    ensures { CheckedProgramsAreRight }
{}
