//! That lowered code is well stacked: before each of its steps one number of operands is pending,
//! however the step is come to; what a step takes is there; and no more are pending than a
//! function's frame has room for beside the one in the register.
//!
//! The numbers and the law stand in `specs/`.
#![tactic(auto)]

pub mod laws;
