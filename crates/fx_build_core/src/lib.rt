//! From a checked program to its image, under plain calls: its parts are made and linked.
//!
//! `built` (in `specs/`) says which image that is.
#![tactic(auto)]

mod building;

pub use building::build;
