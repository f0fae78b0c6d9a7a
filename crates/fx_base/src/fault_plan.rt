//! Which calls of an object in memory fail: the plan that a test hands in.

ghost use Rattle.std.specs.Prelude.{◌≡◌, ◌≤◌, IsTrue};
ghost use Rattle.fx_base.specs.Faults.{Rose};
ghost use Rattle.fx_base.specs.FaultPlan.{fails_next, behind};

use std::marker::Model;

/// The numbers of the calls that fail, with a count of the calls made and one of the faults.
#[derive(Drop)]
pub struct FaultPlan {
    failing: Vec<u64>,
    calls: u64,
    faults: u64,
}

impl Model for FaultPlan {
    ghost use Rattle.fx_base.specs.FaultPlan.{Plan};

    ghost Value = { Plan };

    ghost view = { λ a. record { failing = a.failing.items; calls = a.calls; faults = a.faults } };
}

impl FaultPlan {
    /// A plan by which the calls of these numbers fail, none made yet.
    pub fn new(failing: Vec<u64>) -> FaultPlan
        ensures { result ≡ record { failing = failing.items; calls = 0; faults = 0 } }
    {
        FaultPlan {
            failing,
            calls: 0,
            faults: 0,
        }
    }

    /// Whether the next call fails.
    pub fn fails_next(&self) -> bool
        ensures { result ≡ fails_next self.now }
    {
        self.failing.contains(&self.calls.saturating_add(1))
    }

    /// Counts a call, and a fault where one came.
    pub fn count(&mut self, fault: bool)
        ensures plan { self.new ≡ behind self.old fault }
        ensures later { self.old.faults ≤ self.new.faults }
        ensures rose { IsTrue fault → Rose self.old.faults self.new.faults }
    {
        self.calls = self.calls.saturating_add(1);
        if fault {
            self.faults = self.faults.saturating_add(1);
        }
    }
}
