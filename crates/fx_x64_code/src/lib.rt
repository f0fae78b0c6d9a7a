//! The instruction subset in bytes: an encoder and a decoder.
//!
//! Each instruction of the subset has one spelling (Intel 64 and IA-32 Architectures Software
//! Developer's Manual, volume 2, chapter 2 and appendix A), of 1 to 10 bytes, and no spelling begins
//! another. Of the processor's other spellings of the same instructions, as shorter displacements,
//! none is written and none is read.
#![tactic(auto)]

mod buffer;
mod codes;
pub mod decode;
pub mod encode;
mod guess;
pub mod laws;
mod spell;
