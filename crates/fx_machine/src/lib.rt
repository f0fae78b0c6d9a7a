//! The machine that runs images, under every mechanism and with its devices.
//!
//! What it does is defined in `fx_machine_model`: `page_entry` says what each page of each address space is,
//! `boot_byte` what memory holds at boot, `move` what one instruction does. Every page's frame has the
//! page's own number, so one byte stands at an address, whichever space it is seen from. This crate
//! keeps the bytes that may change in four regions, the entries looked up last in a buffer, and the
//! instructions of the code decoded.
#![tactic(auto)]

pub mod act;
pub mod boot;
pub mod check;
pub mod code;
pub mod fetch;
pub mod filling;
pub mod laws;
pub mod layout;
pub mod machine;
pub mod memory;
pub mod operate;
pub mod pages;

pub use fx_machine_model::stop::{Stop, Turn};
pub use machine::Machine;
