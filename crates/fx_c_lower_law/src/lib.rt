//! What linear code does is what its program does: the law of lowering, for programs whose calls
//! have as many arguments as parameters, whose variables are there with the types that are named,
//! and which move no pointer by an unsigned long.
//!
//! The law and its premise stand in `specs/`.
#![tactic(auto)]

pub mod laws;
