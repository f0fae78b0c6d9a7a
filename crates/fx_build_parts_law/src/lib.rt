//! What the parts of a program's image are made of.
//!
//! The public functions have no work to do; their contracts are the laws.
#![tactic(auto)]

ghost use Rattle.fx_build_parts_law.specs.Linkable.{PartsAreLinkable};

use fx_gates_call_law::{gates_are_rows, runtimes_are_rows};
use fx_templates_law::{beginnings_are_rows, ops_are_rows};

/// The parts of a program can be linked: each piece is an instruction of the subset, and the types
/// of the globals have sizes.
pub fn parts_are_linkable()
    ensures { PartsAreLinkable }
{
    ops_are_rows();
    beginnings_are_rows();
    gates_are_rows();
    runtimes_are_rows();
}
