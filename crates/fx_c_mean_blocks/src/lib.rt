//! Memory and values of the source meaning: objects made of cells, values of the C profile's types,
//! and what operators, loads, stores and pointer arithmetic give.
//!
//! The definitions stand in `specs/`. After C11 in this project's profile, without addresses: an
//! object is known by its number, a pointer is an object and an offset.
#![tactic(auto)]

pub mod block;
pub mod cells;
pub mod fault;
pub mod integers;
pub mod memory;
pub mod operators;
pub mod value;
