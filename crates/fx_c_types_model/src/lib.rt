//! What a checked program has that later stages take from it: definitions over its trees, which laws of
//! the checker prove of every program that is accepted (this project's own).
//!
//! The definitions stand in `specs/`; `IsLowerable` of `specs/Lowerable.antt` is the whole of them.
#![tactic(auto)]
