//! The type rules of C as judgements: which checked tree an expression, a statement, a declaration and a
//! whole program mean, said apart from the check, and that the check gives just that tree.
#![tactic(auto)]

ghost use Rattle.fx_c_types_rules_law.specs.Laws.{ExpressionsAreJudged, StatementsAreJudged, BodiesAreJudged, ExpressionsAreDetermined, StatementsAreDetermined};
ghost use Rattle.fx_c_types_rules_law.specs.ProgramLaws.{ProgramsAreJudged, ProgramsAreDetermined};

/// An expression has a type and a tree by the judgements exactly where the check's rules give them.
pub fn expressions_are_judged()
    ensures { ExpressionsAreJudged }
{}

/// A statement means a tree by the judgements exactly where the check's rules give it.
pub fn statements_are_judged()
    ensures { StatementsAreJudged }
{}

/// So do the statements of a function's body.
pub fn bodies_are_judged()
    ensures { BodiesAreJudged }
{}

/// An expression means at most one tree.
pub fn expressions_are_determined()
    ensures { ExpressionsAreDetermined }
{}

/// A statement means at most one tree.
pub fn statements_are_determined()
    ensures { StatementsAreDetermined }
{}

/// Files mean a checked program by the judgements exactly where the check gives that program.
pub fn programs_are_judged()
    ensures { ProgramsAreJudged }
{}

/// Files mean at most one program.
pub fn programs_are_determined()
    ensures { ProgramsAreDetermined }
{}
