//! Syntax trees of the C profile: as the parser makes them and as the type checker gives them on,
//! with the sizes of types and the stack use of functions.
#![tactic(auto)]

pub mod checked;
pub mod layout;
pub mod operator;
pub mod parsed;
pub mod sequence;
pub mod stack;
