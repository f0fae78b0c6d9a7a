//! A processor that does one instruction of the subset.
//!
//! An instruction is two pure functions, `need` and `finish`: what it asks of memory, and the
//! registers after it. [`execute::execute`] does a decoded instruction and [`step::step`] fetches and
//! decodes it as well. Memory, devices and refusals are behind the trait [`port::Port`]. The table of
//! instructions follows the Intel SDM, volume 2.
#![tactic(auto)]

pub mod execute;
pub mod finish;
pub mod flat;
pub mod laws;
pub mod need;
pub mod port;
pub mod registers;
pub mod step;
pub mod trap;
