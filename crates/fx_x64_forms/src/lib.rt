//! Values of the x86-64 instruction subset that images are made of.
//!
//! The subset and the names follow the Intel 64 and IA-32 Architectures Software Developer's
//! Manual, volume 2. This crate has the values alone: what each instruction is spelled as stands in
//! `fx_x64_code`, what it does in `fx_cpu`.
#![tactic(auto)]

pub mod inst;
pub mod operand;
pub mod piece;
