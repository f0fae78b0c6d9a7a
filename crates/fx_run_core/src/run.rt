//! A run.

ghost use Rattle.std.specs.Prelude.{◌≡◌, ◌≤◌, ◌<◌, ◌+◌, ◌-◌, ◌^◌, [], length, map, option_map, ℕ};
ghost use Rattle.fx_device.specs.Bus.{bus_state, plugged};
ghost use Rattle.fx_base.specs.Told.{Told};
ghost use Rattle.fx_image.specs.Rules.{IsImage};
ghost use Rattle.fx_machine.specs.Turns.{running_of, booted};
ghost use Rattle.fx_run_core.specs.Ran.{RunsTo, HasCause, Output, Input, counted, no_memory};

use crate::Ended;
use crate::step::{named, turn_once};
use crate::watch::{begin, go_on};
use fx_base::{Sink, Source, Transcript};
use fx_device::{Bus, Device};
use fx_image::Image;
use fx_machine::machine::Machine;
use fx_machine_model::outcome::Outcome;
use std::alloc::Global;

/// The turns that count of a run that ended in the turn after so many.
fn counted(outcome: Outcome, turns: u64) -> u64
    requires { turns < 2 ^ 64 - 1 }
    ensures { result ≡ counted outcome turns }
{
    match outcome {
        Outcome::Stopped(_) | Outcome::WriteFault => turns + 1,
        Outcome::Spent | Outcome::Device(_) | Outcome::ReadFault | Outcome::OutOfMemory => turns,
    }
}

/// Runs a machine from its boot by the schedule.
pub fn run_on<I: Source, O: Sink>(
    machine: &mut Machine,
    schedule: &[u8],
    budget: u64,
    unplug: Option<(u16, u64)>,
    input: &mut I,
    out: &mut O,
) -> (Outcome, u64)
    requires { let before = running_of machine.old.image machine.old.memory machine.old.cpus.items
        (bus_state (λ d. (⟦<dyn Device as Device>⟧ d.vtable).meaning d.value)
        machine.old.bus.boxes machine.old.bus.transcript.items) machine.old.stop in
        (before ≡ booted before.image before.bus) × (before.bus.transcript ≡ []) }
    ensures ran { let before = running_of machine.old.image machine.old.memory
        machine.old.cpus.items
        (bus_state (λ d. (⟦<dyn Device as Device>⟧ d.vtable).meaning d.value)
        machine.old.bus.boxes machine.old.bus.transcript.items) machine.old.stop in
        let after = running_of machine.new.image machine.new.memory machine.new.cpus.items
        (bus_state (λ d. (⟦<dyn Device as Device>⟧ d.vtable).meaning d.value)
        machine.new.bus.boxes machine.new.bus.transcript.items) machine.new.stop in
        RunsTo before.image schedule.now budget unplug before.bus.boxes
        result.0 result.1 after.bus.transcript }
    ensures output { let after = running_of machine.new.image machine.new.memory
        machine.new.cpus.items
        (bus_state (λ d. (⟦<dyn Device as Device>⟧ d.vtable).meaning d.value)
        machine.new.bus.boxes machine.new.bus.transcript.items) machine.new.stop in
        Told (Output result.0 after.bus.transcript) (O.taken out.old) (O.taken out.new) }
    ensures input { let after = running_of machine.new.image machine.new.memory
        machine.new.cpus.items
        (bus_state (λ d. (⟦<dyn Device as Device>⟧ d.vtable).meaning d.value)
        machine.new.bus.boxes machine.new.bus.transcript.items) machine.new.stop in
        Told (Input result.0 after.bus.transcript) (I.left input.old) (I.left input.new) }
    ensures cause { let before = running_of machine.old.image machine.old.memory
        machine.old.cpus.items
        (bus_state (λ d. (⟦<dyn Device as Device>⟧ d.vtable).meaning d.value)
        machine.old.bus.boxes machine.old.bus.transcript.items) machine.old.stop in
        let after = running_of machine.new.image machine.new.memory machine.new.cpus.items
        (bus_state (λ d. (⟦<dyn Device as Device>⟧ d.vtable).meaning d.value)
        machine.new.bus.boxes machine.new.bus.transcript.items) machine.new.stop in
        HasCause before.image schedule.now unplug before.bus.boxes result.1 after.bus.transcript
        (I.faults input.old) (I.faults input.new) (O.faults out.old) (O.faults out.new) result.0 }
    ensures read { I.faults input.old ≤ I.faults input.new }
    ensures put { O.faults out.old ≤ O.faults out.new }
{
    let mut watch = begin(machine, unplug);
    let mut turns = 0;
    while turns < budget {
        let count = machine.transcript().len();
        match turn_once(machine, named(schedule, turns), input, out) {
            Some(outcome) => return (outcome, counted(outcome, turns)),
            None => watch = go_on(machine, watch, count),
        }
        turns += 1;
    }
    (Outcome::Spent, turns)
}

/// The end of a run that no memory was there for.
fn unstarted(alloc: Global) -> Ended
    ensures outcome { result.outcome ≡ no_memory }
    ensures turns { result.turns ≡ 0 }
    ensures transcript { result.transcript ≡ [] }
{
    Ended {
        outcome: Outcome::OutOfMemory,
        turns: 0,
        transcript: Transcript::new(alloc),
    }
}

/// Runs an image on a machine with these devices, at most fifteen: the i-th, from 0, is device i + 1.
///
/// Turn i, from 0, is the vCPU's that the i-th byte of the schedule names while there is one, and then that
/// of the number i less the schedule's length. A load of the console's register 0 reads one byte of `input`,
/// all ones at its end; a store to it puts one byte to `out`. With `unplug` (d, n) device d is unplugged as
/// soon as n operations of it were made. At most `budget` turns are made; the turn that stops counts.
pub fn run<I: Source, O: Sink>(
    alloc: Global,
    image: &Image,
    schedule: &[u8],
    budget: u64,
    unplug: Option<(u16, u64)>,
    input: &mut I,
    out: &mut O,
    devices: Vec<Box<dyn Device>>,
) -> Ended
    requires whole { IsImage image.now }
    requires few { length devices.items ≤ 15 }
    ensures ran { let boxes =
        map (option_map (λ d. (⟦<dyn Device as Device>⟧ d.vtable).meaning d.value))
        (plugged 15 devices.items) in
        RunsTo image.now schedule.now budget unplug boxes
        result.outcome result.turns result.transcript }
    ensures output { Told (Output result.outcome result.transcript) (O.taken out.old)
        (O.taken out.new) }
    ensures input { Told (Input result.outcome result.transcript) (I.left input.old)
        (I.left input.new) }
    ensures cause { let boxes =
        map (option_map (λ d. (⟦<dyn Device as Device>⟧ d.vtable).meaning d.value))
        (plugged 15 devices.items) in
        HasCause image.now schedule.now unplug boxes result.turns result.transcript
        (I.faults input.old) (I.faults input.new) (O.faults out.old) (O.faults out.new)
        result.outcome }
    ensures read { I.faults input.old ≤ I.faults input.new }
    ensures put { O.faults out.old ≤ O.faults out.new }
{
    let bus = Bus::new(alloc, devices);
    let mut machine = match Machine::boot(alloc, image, bus) {
        Ok(machine) => machine,
        Err(_) => return unstarted(alloc),
    };
    let ended = run_on(&mut machine, schedule, budget, unplug, input, out);
    Ended {
        outcome: ended.0,
        turns: ended.1,
        transcript: machine.finish().into_transcript(),
    }
}
