//! The way from a state of a run to its next step, by what costs nothing: going down a tree, entering
//! a block, going on to the next statement.
//!
//! A thread has frames, what is to be done later, and stands at a `Now`: at a step, or on the way to
//! one. Each function here leaves it where the meaning of the source has it (`spot_of` in `specs/`).
#![tactic(auto)]

pub mod code;
pub mod control;
pub mod frames;
pub mod layouts;
pub mod stack;
