//! Where the objects of a program stand in the machine's memory, and what code generation asks of a
//! program's functions: between linear code, which speaks of objects, and instructions, which speak
//! of addresses.
#![tactic(auto)]

pub mod addresses;
pub mod context;
pub mod frames;

pub use addresses::Addresses;
pub use context::{Context, GateSite};
pub use frames::{FrameTable, Scalar, Slot};
