//! Arithmetic on words of 8, 16, 32 and 64 bits, with the flags CF, ZF, SF and OF.
//!
//! A word is the low bits of a `u64`; what stands above its width is ignored in operands and clear
//! in results. The operations follow the Intel SDM, volume 2, and where it leaves a flag undefined,
//! this project's own rule, which stands at the operation.
#![tactic(auto)]

pub mod flags;
pub mod products;
pub mod quotients;
pub mod shifts;
pub mod sums;
pub mod words;
