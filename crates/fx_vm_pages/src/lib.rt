//! Pages: what each page of an address space is, and which accesses to it are permitted.
//!
//! An address space maps 4 KiB pages to entries. An entry has a frame, permission flags and a
//! protection key; the register PKRU says what each key permits (Intel SDM volume 3, sections 4.6
//! and 4.6.2). Until page tables stand in the machine, [`space::Space`] is the address space.
#![tactic(auto)]

pub mod access;
pub mod entry;
pub mod space;
