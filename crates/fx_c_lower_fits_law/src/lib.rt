//! That a checked program is one of which the law of lowering is said, but for pointers that are
//! moved by unsigned longs.
#![tactic(auto)]

pub mod laws;
