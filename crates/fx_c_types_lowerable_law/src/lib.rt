//! What lowering may take from a program that the checker accepts.
#![tactic(auto)]

ghost use Rattle.fx_c_types_lowerable_law.specs.Laws.{CheckedProgramsAreLowerable};

/// A checked program whose files are the trees of at most 64 MiB of texts is lowerable
/// (`IsLowerable` of fx_c_types_model): it is well typed, its structs, objects and frames have
/// sizes, its numbers fit their types (C11 6.4.4.1), conversions join types that differ (6.3), and
/// 32 bits count its nodes, strings, globals and functions.
pub fn checked_programs_are_lowerable()
    ensures { CheckedProgramsAreLowerable }
{}
