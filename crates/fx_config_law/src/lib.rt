//! What a configuration has that a document means.
//!
//! The public functions have empty bodies; their contracts are the laws.
#![tactic(auto)]

ghost use Rattle.fx_config_law.specs.Laws.{ReadConfigurationsAreSound};

/// A configuration that a text means has from 1 compartment to as many as its mechanism allows, of
/// different C names, the scheduler's among them, and stacks of 1 to 64 pages.
pub fn read_configurations_are_sound()
    ensures { ReadConfigurationsAreSound }
{}
