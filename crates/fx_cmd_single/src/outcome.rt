//! How a run ends.

use fx_c_mean_model::end::End;

/// How a run ended.
#[derive(Clone, Copy, Debug, PartialEq, Eq)]
pub enum Outcome {
    /// The program came to this end.
    Ended(End),
    /// The budget was spent: the steps made cost so much or more, and the program has not ended.
    Spent,
    /// The next step is an operation on this device, and the device failed.
    Device(u16),
    /// The next step loads from the console, and the input failed.
    ReadFault,
    /// The output didn't take the byte of the last step.
    WriteFault,
    OutOfMemory,
}
