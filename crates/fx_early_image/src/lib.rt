//! The image of a program that writes constants to the console and returns.
//!
//! This is the early path's build: `main`'s constants in, the image out. Later the compiler takes
//! its place; the image's layout and the theorem stay.
#![tactic(auto)]

pub mod build;
mod code;
pub mod laws;
