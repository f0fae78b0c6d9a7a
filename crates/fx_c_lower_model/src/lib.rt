//! What linear code a checked program becomes: definitions over its trees (this project's own form).
//!
//! The definitions stand in `specs/`; `code_of` of `specs/Code.antt` is the whole of them.
#![tactic(auto)]
