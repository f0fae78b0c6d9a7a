//! That the numbers in lowered code are in range: variables, globals, strings and functions are
//! there, elements have a size, and devices are the machine's.
//!
//! That each jump leads to a step of its function stands with the heights of the operands.
#![tactic(auto)]

pub mod laws;
