//! A device that fails at listed calls.

ghost use Rattle.std.specs.Prelude.{◌≡◌, ◌∷◌};
ghost use Rattle.fx_device.specs.Rules.{held, load, store};
ghost use Rattle.fx_device.specs.Stock.{NeverFails, fails_next, loads_failing, stores_failing};

use crate::device::{Device, DeviceFailed};

/// A device that fails at the calls whose numbers, from 1, are listed, and is else the inner device.
#[derive(Drop)]
pub struct FailAt<D: Device> {
    pub inner: D,
    pub failing: Vec<u64>,
    /// How many calls succeeded.
    pub successes: u64,
    /// How many calls failed.
    pub faults: u64,
    ghost never_fails: { NeverFails (D.meaning inner).loads (D.meaning inner).stores },
}

impl<D: Device> FailAt<D> {
    /// The inner device, which itself never fails, failing at the calls of these numbers.
    pub fn new(inner: D, failing: Vec<u64>) -> FailAt<D>
        requires { NeverFails (D.meaning inner).loads (D.meaning inner).stores }
        ensures inner { result.inner ≡ inner }
        ensures failing { result.failing ≡ failing }
        ensures successes { result.successes ≡ 0 }
        ensures faults { result.faults ≡ 0 }
    {
        FailAt {
            inner,
            failing,
            successes: 0,
            faults: 0,
        }
    }

    /// Whether the next call is one that fails.
    fn fails_next(&self) -> bool
        ensures { result ≡ fails_next self.now.failing.items (held (self.now.successes ∷ (D.meaning self.now.inner).now.state) self.now.faults) }
    {
        let number = u128::from(self.successes) + u128::from(self.faults) + 1;
        self.failing
            .iter()
            .any(|listed| u128::from(*listed) == number)
    }
}

impl<D: Device> Device for FailAt<D> {
    ghost meaning = { λ f. record { now = held (f.successes ∷ (D.meaning f.inner).now.state) f.faults; loads = loads_failing f.failing.items (D.meaning f.inner).now.faults (D.meaning f.inner).loads; stores = stores_failing f.failing.items (D.meaning f.inner).now.faults (D.meaning f.inner).stores } };

    fn load(&mut self, reg: u16) -> Result<u64, DeviceFailed> {
        if self.fails_next() {
            self.faults = self.faults.saturating_add(1);
            return Err(DeviceFailed);
        }
        match self.inner.load(reg) {
            Ok(value) => {
                self.successes = self.successes.saturating_add(1);
                Ok(value)
            }
            Err(_) => unreachable!(),
        }
    }

    fn store(&mut self, reg: u16, v: u64) -> Result<(), DeviceFailed> {
        if self.fails_next() {
            self.faults = self.faults.saturating_add(1);
            return Err(DeviceFailed);
        }
        match self.inner.store(reg, v) {
            Ok(()) => {
                self.successes = self.successes.saturating_add(1);
                Ok(())
            }
            Err(_) => unreachable!(),
        }
    }
}
