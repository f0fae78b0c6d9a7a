//! A sink in memory.

ghost use Rattle.std.specs.Prelude.{◌≡◌, ℕ, ◌≤◌, ◌<◌, length, IfOk, IsErr, IsTrue, ◌↔◌, OnErr, OnOk, Some, []};
ghost use Rattle.fx_base.specs.Faults.{Rose};
ghost use Rattle.fx_base.specs.Sink.{Gains, put_count};
ghost use Rattle.fx_base.specs.FaultPlan.{fails_next, behind};
ghost use Rattle.fx_base.specs.MemSink.{room_for, is_fault};

use crate::fault_plan::FaultPlan;
use crate::{Sink, SinkFailed};
use std::alloc::{AllocError, Global};
use std::marker::Model;

/// A sink that keeps what it takes, up to a capacity and in pieces of a greatest length, and fails at the
/// calls that are listed.
#[derive(Drop)]
pub struct MemSink {
    bytes: Vec<u8>,
    capacity: usize,
    piece: u64,
    plan: FaultPlan,
}

impl Model for MemSink {
    ghost use Rattle.std.specs.Prelude.{length, ◌≤◌, vec_capacity};
    ghost use Rattle.fx_base.specs.MemSink.{SinkState};

    ghost Value = { SinkState };

    ghost view = { λ a. record { taken = a.bytes.items; capacity = a.capacity; piece = a.piece; plan = a.plan } };

    ghost invariant = { λ a. (length a.bytes.items ≤ a.capacity) × (a.capacity ≤ vec_capacity a.bytes) };
}

impl MemSink {
    /// A sink that takes at most `capacity` bytes in all and `piece` in one call, and whose calls of the
    /// numbers in `failing`, from 1, fail. All its memory is taken here.
    pub fn new(
        alloc: Global,
        capacity: u64,
        piece: u64,
        failing: Vec<u64>,
    ) -> Result<MemSink, AllocError>
        ensures { IfOk result (λ sink. sink ≡ record {
          taken = [];
          capacity = capacity;
          piece = piece;
          plan = record { failing = failing.items; calls = 0; faults = 0 };
        }) }
    {
        let capacity = capacity as usize;
        Ok(MemSink {
            bytes: Vec::with_capacity(alloc, capacity)?,
            capacity,
            piece,
            plan: FaultPlan::new(failing),
        })
    }

    /// The bytes that were taken.
    pub fn bytes(&self) -> &[u8]
        ensures { result.now ≡ self.now.taken }
    {
        self.bytes.as_slice()
    }

    /// How many of so many bytes a call takes that doesn't fail.
    fn room_for(&self, count: usize) -> usize
        ensures { result ≡ room_for self.now count }
    {
        let room = self.capacity - self.bytes.len();
        let piece = self.piece as usize;
        count.min(piece.min(room))
    }
}

impl Sink for MemSink {
    ghost taken = { λ sink. Some sink.taken };

    ghost faults = { λ sink. sink.plan.faults };

    fn put(&mut self, bytes: &[u8]) -> Result<usize, SinkFailed>
        ensures count { put_count result ≤ length bytes.now }
        ensures taken { Gains bytes.now (put_count result) self.old.taken self.new.taken }
        ensures later { self.old.plan.faults ≤ self.new.plan.faults }
        ensures failed { OnErr result (Rose self.old.plan.faults self.new.plan.faults) }
        ensures stuck { 0 < length bytes.now → put_count result ≡ 0 → Rose self.old.plan.faults self.new.plan.faults }
        // It fails exactly at the calls that are listed, and else takes what there is room for.
        ensures planned { IsErr result ↔ IsTrue (fails_next self.old.plan) }
        ensures room { IfOk result (λ count. count ≡ room_for self.old (length bytes.now)) }
        ensures plan { self.new.plan ≡ behind self.old.plan (is_fault self.old (length bytes.now)) }
        ensures limits { (self.new.capacity ≡ self.old.capacity) × (self.new.piece ≡ self.old.piece) }
    {
        let fails = self.plan.fails_next();
        let count = self.room_for(bytes.len());
        let stuck = !bytes.is_empty() && count == 0;
        self.plan.count(fails || stuck);
        if fails {
            return Err(SinkFailed);
        }
        match self.bytes.extend_from_slice(&bytes[..count]) {
            Ok(()) => Ok(count),
            Err(_) => unreachable!(),
        }
    }
}
