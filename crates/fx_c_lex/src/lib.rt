//! The tokens of a C source text.
//!
//! `tokens` cuts a text into the one list of tokens that the lexis of the C profile gives it, or says
//! the first place where there is no token. What a token is stands in `specs/Lexis.antt`.
#![tactic(auto)]

mod bytes;
pub mod keyword;
pub mod laws;
mod lexer;
mod numbers;
mod quoted;
pub mod sign;
pub mod token;
mod words;

pub use lexer::tokens;
pub use token::{LexError, TextBytes, Token, TokenKind, TokenList};
