//! The stack that a program's functions take: the sizes of frames, the places of parameters and
//! locals in them, and where the stacks of an image lie. Nothing here takes memory.
#![tactic(auto)]

pub mod frames;
pub mod laws;
pub mod stacks;
#[cfg(test)]
mod tests;

pub use frames::{FrameSize, SlotPlace, frame, slot};
pub use stacks::{Range, stack};
