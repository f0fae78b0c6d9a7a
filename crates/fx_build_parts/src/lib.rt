//! From a checked program to the parts of its image, under plain calls: the program is lowered, its
//! ops become pieces, compartment by compartment, and the runtime's pieces come behind.
//!
//! `parts_of` (in `specs/`) says which parts these are: it is the composition of what the crates
//! below define.
#![tactic(auto)]

mod functions;
mod making;
mod pending;
pub mod plan;
mod ranges;

pub use making::parts;
