//! Runs of a source and of a machine of several processors, and what it is that the one keeps to
//! the other.
//!
//! A source is a step with a cost; its outcome within a budget is the operations and the end of the
//! steps whose summed cost is at most the budget. A machine is a turn of each processor; its outcome
//! by a schedule is the operations and the stop of the turns that the schedule names. `Keeps` ties
//! the two. The proofs show it once, for any source and machine, from premises about single turns.
//! This crate knows nothing of instructions or of programs; its definitions are this project's own.
#![tactic(auto)]

pub mod laws;
