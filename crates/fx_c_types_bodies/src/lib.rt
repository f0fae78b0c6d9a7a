//! The type checker: names, expressions and statements of function bodies.
#![tactic(auto)]

pub mod expressions;
pub mod nodes;
pub mod scope;
pub mod statements;
