//! What lowering looks up in a program: sizes of types, places of members, and the stack use of calls,
//! from tables that are made once.
#![tactic(auto)]

pub mod sizes;
pub mod tables;
