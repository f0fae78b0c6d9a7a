//! Why a request of the bus was not carried out.

ghost use Rattle.std.specs.Prelude.{◌≡◌};
ghost use Rattle.fx_device.specs.declared.bus_error.BusError.TheVariants.{OutOfMemory};

use std::alloc::AllocError;

/// Why a request of the bus was not carried out.
#[derive(Clone, Copy, Debug, PartialEq, Eq)]
pub enum BusError {
    /// The device of this number failed.
    Device(u16),
    /// No memory for another operation of the transcript: all is as it was.
    OutOfMemory,
}

impl From<AllocError> for BusError {
    ghost from_gives = { λ _ e. e ≡ OutOfMemory };

    fn from(_error: AllocError) -> BusError {
        BusError::OutOfMemory
    }
}
