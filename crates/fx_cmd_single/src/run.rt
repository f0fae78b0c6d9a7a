//! A run.

ghost use Rattle.std.specs.Prelude.{⊤, ◌≡◌, ◌≤◌, ℕ, [], length, map, option_map};
ghost use Rattle.fx_base.specs.Told.{Told};
ghost use Rattle.fx_device.specs.Bus.{bus_state, plugged};
ghost use Rattle.fx_c_mean_model.specs.Programs.{program_of};
ghost use Rattle.fx_c_mean.specs.Walks.{run_of, first_run};
ghost use Rattle.fx_cmd_single.specs.Ran.{RunsTo, Output, Input, no_memory};

use crate::Ran;
use crate::outcome::Outcome;
use crate::step::step_once;
use fx_base::{Sink, Source, Transcript};
use fx_c_ast::checked::TProgram;
use fx_c_mean::runner::Runner;
use fx_c_mean_model::rights::Rights;
use fx_device::{Bus, Device};
use std::alloc::Global;

/// Runs a program from its start, as long as the cost of its steps is below a budget.
pub fn run_on<I: Source, O: Sink>(
    runner: &mut Runner<'_>,
    budget: u64,
    input: &mut I,
    out: &mut O,
) -> Outcome
    requires { let before = run_of runner.old.source runner.old.core
        (bus_state (λ d. (⟦<dyn Device as Device>⟧ d.vtable).meaning d.value)
        runner.old.bus.boxes runner.old.bus.transcript.items) runner.old.cost runner.old.end
        in
        (before ≡ first_run before.program before.rights before.bus)
        × (before.bus.transcript ≡ []) }
    ensures ran { let before = run_of runner.old.source runner.old.core
        (bus_state (λ d. (⟦<dyn Device as Device>⟧ d.vtable).meaning d.value)
        runner.old.bus.boxes runner.old.bus.transcript.items) runner.old.cost runner.old.end
        in
        let after = run_of runner.new.source runner.new.core
        (bus_state (λ d. (⟦<dyn Device as Device>⟧ d.vtable).meaning d.value)
        runner.new.bus.boxes runner.new.bus.transcript.items) runner.new.cost runner.new.end
        in
        RunsTo before.program before.rights budget before.bus.boxes (I.faults input.old)
        (I.faults input.new) (O.faults out.old) (O.faults out.new) result after.cost
        after.bus.transcript }
    ensures output { let after = run_of runner.new.source runner.new.core
        (bus_state (λ d. (⟦<dyn Device as Device>⟧ d.vtable).meaning d.value)
        runner.new.bus.boxes runner.new.bus.transcript.items) runner.new.cost runner.new.end
        in
        Told (Output result after.bus.transcript) (O.taken out.old) (O.taken out.new) }
    ensures input { let after = run_of runner.new.source runner.new.core
        (bus_state (λ d. (⟦<dyn Device as Device>⟧ d.vtable).meaning d.value)
        runner.new.bus.boxes runner.new.bus.transcript.items) runner.new.cost runner.new.end
        in
        Told (Input result after.bus.transcript) (I.left input.old) (I.left input.new) }
    ensures read { I.faults input.old ≤ I.faults input.new }
    ensures put { O.faults out.old ≤ O.faults out.new }
{
    while runner.cost() < budget {
        if let Some(outcome) = step_once(runner, input, out) {
            return outcome;
        }
    }
    Outcome::Spent
}

/// The end of a run that no memory was there for.
fn unstarted(alloc: Global) -> Ran
    ensures outcome { result.outcome ≡ no_memory }
    ensures cost { result.cost ≡ 0 }
    ensures transcript { result.transcript ≡ [] }
{
    Ran {
        outcome: Outcome::OutOfMemory,
        cost: 0,
        transcript: Transcript::new(alloc),
    }
}

/// Runs a checked program with these rights and these devices, at most fifteen: the i-th, from 0, is device
/// i + 1.
///
/// Steps are made while the cost so far is below the budget, so that a last step may pass it. A load of the
/// console's register 0 reads one byte of `input`, all ones at its end; a store to it puts one byte to `out`.
pub fn single_run<I: Source, O: Sink>(
    alloc: Global,
    program: &TProgram,
    rights: Rights,
    budget: u64,
    input: &mut I,
    out: &mut O,
    devices: Vec<Box<dyn Device>>,
) -> Ran
    requires { length devices.items ≤ 15 }
    ensures ran { let boxes =
        map (option_map (λ d. (⟦<dyn Device as Device>⟧ d.vtable).meaning d.value))
        (plugged 15 devices.items) in
        RunsTo (program_of program.now) rights budget boxes
        (I.faults input.old) (I.faults input.new) (O.faults out.old) (O.faults out.new)
        result.outcome result.cost result.transcript }
    ensures output { Told (Output result.outcome result.transcript) (O.taken out.old)
        (O.taken out.new) }
    ensures input { Told (Input result.outcome result.transcript) (I.left input.old)
        (I.left input.new) }
    ensures read { I.faults input.old ≤ I.faults input.new }
    ensures put { O.faults out.old ≤ O.faults out.new }
{
    let bus = Bus::new(alloc, devices);
    let mut runner = match Runner::of_rights(alloc, program, rights, bus) {
        Ok(runner) => runner,
        Err(_) => return unstarted(alloc),
    };
    let outcome = run_on(&mut runner, budget, input, out);
    let cost = runner.cost();
    Ran {
        outcome,
        cost,
        transcript: runner.finish().into_transcript(),
    }
}
