//! The typing rules of C at one node of a tree: what type an expression has, given its operands,
//! which implicit conversions are written, and which rule refuses it.
#![tactic(auto)]

pub mod calls;
pub mod category;
pub mod fault;
pub mod members;
pub mod operators;
pub mod types;
pub mod values;
