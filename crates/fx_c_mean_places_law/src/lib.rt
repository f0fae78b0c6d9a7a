//! What the places of the source's objects mean: two objects never share a byte of the machine's memory, live
//! objects stand somewhere, and a place of an image stands for one offset of one object.
#![tactic(auto)]

pub mod laws;
