//! The parser of the C profile: the one syntax tree of a source text, or the first place where it
//! has none.
#![tactic(auto)]

pub mod build;
pub mod constant;
pub mod cursor;
pub mod declaration;
pub mod expression;
pub mod fault;
pub mod front;
pub mod head;
pub mod laws;
pub mod parser;
pub mod statement;
pub mod types;

pub use fault::ParseError;
pub use parser::parse;
