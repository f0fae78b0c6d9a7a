//! A run of a checked program by the meaning of the source, one step at a time.
//!
//! A step is that of `fx_c_mean_model`, made on a state that is changed in place; operations on devices go over
//! the bus, and those of the console's register 0 to the caller.
#![tactic(auto)]

pub mod laws;
pub mod rights;
pub mod runner;
mod start;

pub use runner::{Runner, Walk};
