//! What a device is.

ghost use Rattle.std.specs.Prelude.{◌≡◌, IfOk, OnOk, OnErr};
ghost use Rattle.fx_device.specs.Rules.{Meaning, Answered, Failed, left_in, load, store};

/// The device failed.
#[derive(Clone, Copy, Debug, PartialEq, Eq)]
pub struct DeviceFailed;

/// A device with registers of 64 bits.
///
/// Contracts know its state as a list of numbers, how often it failed, and two rules: what a load and a
/// store of a register may answer, and leave, in a state. No call changes the rules, a call that
/// succeeds leaves the count of faults, and one that fails leaves the state and raises the count.
pub trait Device: Drop {
    /// The state, the count of faults, and the rules.
    ghost meaning: { Self → Meaning };

    /// The value of a register.
    fn load(&mut self, reg: u16) -> Result<u64, DeviceFailed>
        ensures answered { IfOk result (λ value. Answered (meaning self.old) (load reg) value (meaning self.new).now) }
        ensures failed { OnErr result (Failed (meaning self.old) (load reg) (meaning self.new).now) }
        ensures rules { meaning self.new ≡ left_in (meaning self.old) (meaning self.new).now };

    /// Sets a register.
    fn store(&mut self, reg: u16, v: u64) -> Result<(), DeviceFailed>
        ensures answered { OnOk result (Answered (meaning self.old) (store reg v) v (meaning self.new).now) }
        ensures failed { OnErr result (Failed (meaning self.old) (store reg v) (meaning self.new).now) }
        ensures rules { meaning self.new ≡ left_in (meaning self.old) (meaning self.new).now };
}
