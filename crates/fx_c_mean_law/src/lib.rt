//! Steps of a runner one after the other are the run that the meaning of the source gives its program:
//! its operations, its end and its cost, with the answers that its loads got.
#![tactic(auto)]

pub mod laws;
