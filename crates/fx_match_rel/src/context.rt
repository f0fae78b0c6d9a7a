//! What is told to code generation with each op.

use crate::addresses::Addresses;
use fx_c_ast::checked::TProgram;
use fx_config::Mechanism;

/// Where an op stands: in which function, with how many operands pending before it, and where a jump
/// leads to.
#[derive(Clone, Copy)]
pub struct Context<'a> {
    pub program: &'a TProgram,
    pub at: &'a Addresses,
    pub mechanism: Mechanism,
    /// The function's compartment.
    pub compartment: u8,
    pub function: u32,
    /// The operands that are pending before the op.
    pub depth: u16,
    /// The piece, in its list, at which the op begins that a jump names.
    pub label: u32,
}

/// A gate: from a compartment to an entry function of another one, or of its own.
#[derive(Clone, Copy, Debug, PartialEq, Eq)]
pub struct GateSite {
    pub from: u8,
    pub to: u8,
    pub function: u32,
    /// The number of the entry in its compartment.
    pub entry: u16,
}
