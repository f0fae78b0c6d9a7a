//! Linear code: what expressions and statements become before there are instructions. An op takes
//! its operands from a stack of values and leaves its result there.
//!
//! The definitions stand in `specs/`. The form is this project's own.
#![tactic(auto)]

pub mod op;
