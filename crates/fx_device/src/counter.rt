//! A counter.

ghost use Rattle.std.specs.Prelude.{◌≡◌, ◌∷◌, []};
ghost use Rattle.fx_device.specs.Rules.{held};
ghost use Rattle.fx_device.specs.Stock.{loads_always, stores_always, count_value, count_next, count_stored};

use crate::device::{Device, DeviceFailed};
use std::marker::Model;

/// A number: a load of register 0 gives it and adds one, wrapping, and a store of register 0 sets it.
///
/// Every other register gives 0 and takes no value.
#[derive(Drop)]
pub struct Counter {
    number: u64,
}

impl Model for Counter {
    ghost use Rattle.std.specs.Prelude.{ℕ, List, [], ◌∷◌};

    ghost Value = { List ℕ };

    ghost view = { λ c. c.number ∷ [] };
}

impl Counter {
    /// A counter that starts at this number.
    pub fn new(start: u64) -> Counter
        ensures { result ≡ start ∷ [] }
    {
        Counter { number: start }
    }

    fn value(&self, reg: u16) -> u64
        ensures { result ≡ count_value self.now reg }
    {
        if reg == 0 { self.number } else { 0 }
    }

    fn advance(&mut self, reg: u16)
        ensures { self.new ≡ count_next self.old reg }
    {
        if reg == 0 {
            self.number = self.number.wrapping_add(1);
        }
    }

    fn set(&mut self, reg: u16, v: u64)
        ensures { self.new ≡ count_stored self.old reg v }
    {
        if reg == 0 {
            self.number = v;
        }
    }
}

impl Device for Counter {
    ghost meaning = { λ c. record { now = held c 0; loads = loads_always count_value count_next; stores = stores_always count_stored } };

    fn load(&mut self, reg: u16) -> Result<u64, DeviceFailed> {
        let value = self.value(reg);
        self.advance(reg);
        Ok(value)
    }

    fn store(&mut self, reg: u16, v: u64) -> Result<(), DeviceFailed> {
        self.set(reg, v);
        Ok(())
    }
}
