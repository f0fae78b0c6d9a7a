//! Machine code of linear code, op by op, and of the beginnings of functions.
//!
//! The latest pending operand is in RAX, each other one in its slot of the frame. `pieces_of` (in
//! `specs/`) says which pieces an op becomes, `pieces_of_enter` how a function begins.
#![tactic(auto)]

pub mod beginnings;
mod emitting;
mod ops;
mod variables;

pub use emitting::{emit, emit_enter};
