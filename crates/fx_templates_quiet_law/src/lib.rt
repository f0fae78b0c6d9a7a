//! No piece of emitted code spells WRPKRU.
//!
//! Code holds the bytes 0F 01 EF, which are a WRPKRU wherever they stand, only where a gate needs
//! one. These laws say that the pieces of ops, of beginnings of functions, of plain gates and of
//! the runtime under plain calls hold none, and that none begins with what would end one begun
//! before it. The public functions have empty bodies; their contracts are the laws.
#![tactic(auto)]

ghost use Rattle.fx_templates_quiet_law.specs.Quiet.{OpsAreQuiet, BeginningsAreQuiet};
ghost use Rattle.fx_templates_quiet_law.specs.Quiet.{GatesAreQuiet, RuntimesAreQuiet};

/// Each piece that an op becomes: constants that hold the bytes are built from parts, and slots are
/// near the frame pointer.
pub fn ops_are_quiet()
    ensures { OpsAreQuiet }
{}

/// Each piece of a function's beginning.
pub fn beginnings_are_quiet()
    ensures { BeginningsAreQuiet }
{}

/// Each piece of a plain gate.
pub fn gates_are_quiet()
    ensures { GatesAreQuiet }
{}

/// Each piece of the start, the thread switch and the abort stub.
pub fn runtimes_are_quiet()
    ensures { RuntimesAreQuiet }
{}
