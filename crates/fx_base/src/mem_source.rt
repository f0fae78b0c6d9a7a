//! A source in memory.

ghost use Rattle.std.specs.Prelude.{◌≡◌, ◌≤◌, IsErr, IsTrue, ◌↔◌, OnErr, Some};
ghost use Rattle.fx_base.specs.Faults.{Rose};
ghost use Rattle.fx_base.specs.Source.{GivesByte};
ghost use Rattle.fx_base.specs.FaultPlan.{fails_next, next_plan};

use crate::fault_plan::FaultPlan;
use crate::{Source, SourceFailed};
use std::marker::Model;

/// A source that gives bytes handed in, and fails at the calls that are listed.
#[derive(Drop)]
pub struct MemSource {
    bytes: Vec<u8>,
    next: usize,
    plan: FaultPlan,
}

impl Model for MemSource {
    ghost use Rattle.std.specs.Prelude.{drop, length, ◌≤◌};
    ghost use Rattle.fx_base.specs.MemSource.{SourceState};

    ghost Value = { SourceState };

    ghost view = { λ a. record { left = drop a.next a.bytes.items; plan = a.plan } };

    ghost invariant = { λ a. a.next ≤ length a.bytes.items };
}

impl MemSource {
    /// A source of these bytes, whose calls of the numbers in `failing`, from 1, fail.
    pub fn new(bytes: Vec<u8>, failing: Vec<u64>) -> MemSource
        ensures left { result.left ≡ bytes.items }
        ensures plan { result.plan ≡ record { failing = failing.items; calls = 0; faults = 0 } }
    {
        MemSource {
            bytes,
            next: 0,
            plan: FaultPlan::new(failing),
        }
    }
}

impl Source for MemSource {
    ghost left = { λ source. Some source.left };

    ghost faults = { λ source. source.plan.faults };

    fn byte(&mut self) -> Result<Option<u8>, SourceFailed>
        ensures bytes { GivesByte result self.old.left self.new.left }
        ensures later { self.old.plan.faults ≤ self.new.plan.faults }
        ensures failed { OnErr result (Rose self.old.plan.faults self.new.plan.faults) }
        // It fails exactly at the calls that are listed.
        ensures planned { IsErr result ↔ IsTrue (fails_next self.old.plan) }
        ensures plan { self.new.plan ≡ next_plan self.old.plan }
    {
        let fails = self.plan.fails_next();
        self.plan.count(fails);
        if fails {
            return Err(SourceFailed);
        }
        if self.next == self.bytes.len() {
            return Ok(None);
        }
        let byte = self.bytes[self.next];
        self.next += 1;
        Ok(Some(byte))
    }
}
