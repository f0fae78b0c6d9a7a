//! The trees of a configuration's program.
#![tactic(auto)]

ghost use Rattle.fx_cmd_load_law.specs.Laws.{ConfiguredProgramsAreRight, ConfiguredProgramsFit, ConfiguredProgramsAreLowerable};

/// In each body of a configuration's program every number is there, and every type is right.
pub fn configured_programs_are_right()
    ensures { ConfiguredProgramsAreRight }
{}

/// Each device in it is one of 16, each register one of its 512; and elements that are counted have
/// from 1 byte to 64 MiB each.
pub fn configured_programs_fit()
    ensures { ConfiguredProgramsFit }
{}

/// So it has all that its lowering takes (`IsLowerable` of fx_c_types_model).
pub fn configured_programs_are_lowerable()
    ensures { ConfiguredProgramsAreLowerable }
{}
