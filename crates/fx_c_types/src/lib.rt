//! The type checker: all rules over all files of a program.
#![tactic(auto)]

pub mod fault;
pub mod frame;
pub mod program;

pub use fault::TypeError;
pub use program::{SourceFile, check};
