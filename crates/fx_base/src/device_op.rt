//! One operation of a device.

/// An operation of a device: the load or the store of one of its registers.
#[derive(Clone, Copy, Debug, PartialEq, Eq)]
pub struct DeviceOp {
    /// The device's number, from 0 to 15.
    pub device: u16,
    /// The register's number, from 0 to 511.
    pub reg: u16,
    /// Whether it is a store.
    pub write: bool,
    /// The value loaded or stored.
    pub value: u64,
}
