//! Devices: what a load or a store of a register may answer, the bus that carries the operations of up to
//! fifteen devices and writes them down, and devices in memory.
#![tactic(auto)]

mod block_store;
mod bus;
mod bus_error;
mod counter;
mod device;
mod fail_at;
#[cfg(test)]
mod tests;

pub use block_store::BlockStore;
pub use bus::Bus;
pub use bus_error::BusError;
pub use counter::Counter;
pub use device::{Device, DeviceFailed};
pub use fail_at::FailAt;
