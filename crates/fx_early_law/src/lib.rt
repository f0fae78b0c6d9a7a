//! The runs of an image that writes constants, on the whole machine.
#![tactic(auto)]

pub mod laws;
