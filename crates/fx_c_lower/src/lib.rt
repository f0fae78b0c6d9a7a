//! From a checked program to linear code. Its functions are those of the definitions in
//! `fx_c_lower_model`, by the same names where they say the same.
//!
//! A cost, a position or a size of 2^32 or more is want of memory, here and below.
#![tactic(auto)]

pub mod direct;
pub mod expressions;
pub mod forms;
pub mod late;
pub mod lengths;
pub mod lower;
pub mod operands;
pub mod output;
pub mod pieces;
pub mod statements;
