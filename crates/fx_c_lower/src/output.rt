//! The code of a function, as far as it is made.

ghost use Rattle.std.specs.Prelude.{◌≡◌, ◌+◌, ◌++◌, ◌∷◌, [], IfOk, OnOk};
ghost use Rattle.fx_c_lin.specs.Ops.{op_of};
ghost use Rattle.fx_c_lower_model.specs.Steps.{costing};
ghost use Rattle.fx_c_lower.specs.Views.{made};

use fx_c_lin::op::{Op, Step};
use std::alloc::AllocError;

/// A sum below 2^32.
pub fn sum(a: u32, b: u32) -> Result<u32, AllocError>
    ensures { IfOk result (λ n. n ≡ a + b) }
{
    match a.checked_add(b) {
        Some(n) => Ok(n),
        None => Err(AllocError),
    }
}

/// Steps, and the position of the next one.
#[derive(Drop)]
pub struct Output {
    pub steps: Vec<Step>,
    pub at: u32,
}

impl Output {
    /// Appends an op with its cost.
    pub fn put(&mut self, op: Op, cost: u32) -> Result<(), AllocError>
        ensures place { OnOk result (self.new.at ≡ self.old.at + 1) }
        ensures code { OnOk result (made self.new ≡ made self.old ++ costing cost (op_of op) ∷ []) }
    {
        self.at = sum(self.at, 1)?;
        self.steps.push(Step { op, cost })?;
        Ok(())
    }

    /// Appends an op of cost 1 and what is owed.
    pub fn put_owing(&mut self, op: Op, owed: u32) -> Result<(), AllocError>
        ensures place { OnOk result (self.new.at ≡ self.old.at + 1) }
        ensures code { OnOk result (made self.new ≡ made self.old
            ++ costing (1 + owed) (op_of op) ∷ []) }
    {
        let cost = sum(1, owed)?;
        self.put(op, cost)
    }
}
