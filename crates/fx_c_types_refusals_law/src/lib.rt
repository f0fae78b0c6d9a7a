//! What the checker refuses, and for which rule of the table of type rules.
#![tactic(auto)]

ghost use Rattle.fx_c_types_refusals_law.specs.Laws.{KindsAreListed, HeadsAreRefused, ProgramsAreRefused, RefusedWhereNoneIsMeant};
ghost use Rattle.fx_c_types_refusals_law.specs.NodeLaws.{ExpressionsAreTried, StatementsAreTried, NodesAreRefused, LocalsAreRefused, SingleRules};

/// Each kind of refusal stands once in the table, in whose order the rules are tried at one node.
pub fn kinds_are_listed()
    ensures { KindsAreListed }
{}

/// A head is refused for the first rule of the table that it breaks, and passes where it breaks
/// none (this project's own order; the rules are C11's of 6.7 and 6.9, as the profile has them).
pub fn heads_are_refused()
    ensures { HeadsAreRefused }
{}

/// The operands of an expression are tried before it, from left to right.
pub fn expressions_are_tried()
    ensures { ExpressionsAreTried }
{}

/// So are the parts of a statement, in their order.
pub fn statements_are_tried()
    ensures { StatementsAreTried }
{}

/// A node whose operands have their trees is refused for the first rule of the table that it
/// breaks, and passes where it breaks none; so is a value that is assigned, tested or returned
/// (the rules are C11's of 6.3 and 6.5, as the profile has them).
pub fn nodes_are_refused()
    ensures { NodesAreRefused }
{}

/// So is a local's declaration (C11 6.7), behind the expression of its value.
pub fn locals_are_refused()
    ensures { LocalsAreRefused }
{}

/// A string, `break`, `continue`, `return` without a value, and a frame behind its body have one
/// rule each.
pub fn single_rules_are_tried()
    ensures { SingleRules }
{}

/// Files break a rule first in the declaration with a number exactly where the heads before it keep
/// all rules and its own breaks that one; or all heads do, the bodies before it do, and its body is
/// refused for that one; or all do, and there is no function to begin with.
pub fn programs_are_refused()
    ensures { ProgramsAreRefused }
{}

/// Files break some rule exactly where they mean no program by the judgements.
pub fn refused_where_none_is_meant()
    ensures { RefusedWhereNoneIsMeant }
{}
