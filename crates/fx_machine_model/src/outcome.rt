//! How a run ends.

use crate::stop::Stop;

/// How a run ended.
#[derive(Clone, Copy, Debug, PartialEq, Eq)]
pub enum Outcome {
    /// The machine stopped.
    Stopped(Stop),
    /// The budget was spent.
    Spent,
    /// The next turn is an operation on this device, and the device failed.
    Device(u16),
    /// The next turn loads from the console, and the input failed.
    ReadFault,
    /// The output didn't take the byte of the last turn.
    WriteFault,
    OutOfMemory,
}
