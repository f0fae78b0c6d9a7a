//! The meaning of checked programs of the C profile, independent of any machine: a state, one step
//! with its cost, and the operations and the end of a run within a cost.
//!
//! The definitions stand in `specs/`.
#![tactic(auto)]

pub mod end;
pub mod laws;
pub mod rights;
