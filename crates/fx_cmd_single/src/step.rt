//! One step of a run, with its input and its output.

ghost use Rattle.std.specs.Prelude.{⊤, ◌≡◌, ◌≤◌, ℕ, List, [], ◌∷◌, Option, IfNone, IfSome, None, option_map};
ghost use Rattle.fx_base.specs.Faults.{Rose};
ghost use Rattle.fx_base.specs.Told.{Told};
ghost use Rattle.fx_device.specs.Bus.{bus_state};
ghost use Rattle.fx_c_mean.specs.Walks.{run_of, Waits};
ghost use Rattle.fx_cmd_single.specs.declared.outcome.Outcome.TheVariants.{Ended};
ghost use Rattle.fx_cmd_base.specs.Streams.{Gained};
ghost use Rattle.fx_cmd_single.specs.Streams.{Answers, Same};
ghost use Rattle.fx_cmd_single.specs.Stepping.{Taken, NotTaken, NotPut, WentOn, EndsBy};

use crate::outcome::Outcome;
use fx_base::{Sink, Source, put_all};
use fx_c_mean::runner::{Runner, Walk};
use fx_device::Device;

/// The answer to a load of the console: the next byte of input, and all ones at its end. None where the
/// input failed.
fn next_input<I: Source>(input: &mut I) -> Option<u64>
    ensures given { Told (Answers result) (I.left input.old) (I.left input.new) }
    ensures later { I.faults input.old ≤ I.faults input.new }
    ensures failed { result ≡ None → Rose (I.faults input.old) (I.faults input.new) }
{
    match input.byte() {
        Ok(Some(byte)) => Some(u64::from(byte)),
        Ok(None) => Some(u64::MAX),
        Err(_) => None,
    }
}

/// How a run ended, if it came to an end.
fn ended(runner: &Runner<'_>) -> Option<Outcome>
    ensures { result ≡ option_map Ended runner.now.end }
{
    runner.end().map(Outcome::Ended)
}

/// Makes the load of the console that waits, with the next byte of the input. None goes on.
fn take_input<I: Source>(runner: &mut Runner<'_>, input: &mut I) -> Option<Outcome>
    requires { let before = run_of runner.old.source runner.old.core
        (bus_state (λ d. (⟦<dyn Device as Device>⟧ d.vtable).meaning d.value)
        runner.old.bus.boxes runner.old.bus.transcript.items) runner.old.cost runner.old.end
        in
        Waits before }
    ensures read { I.faults input.old ≤ I.faults input.new }
    ensures goes { let before = run_of runner.old.source runner.old.core
        (bus_state (λ d. (⟦<dyn Device as Device>⟧ d.vtable).meaning d.value)
        runner.old.bus.boxes runner.old.bus.transcript.items) runner.old.cost runner.old.end
        in
        let after = run_of runner.new.source runner.new.core
        (bus_state (λ d. (⟦<dyn Device as Device>⟧ d.vtable).meaning d.value)
        runner.new.bus.boxes runner.new.bus.transcript.items) runner.new.cost runner.new.end
        in
        IfNone result (Taken before after (I.left input.old) (I.left input.new)) }
    ensures ends { let before = run_of runner.old.source runner.old.core
        (bus_state (λ d. (⟦<dyn Device as Device>⟧ d.vtable).meaning d.value)
        runner.old.bus.boxes runner.old.bus.transcript.items) runner.old.cost runner.old.end
        in
        let after = run_of runner.new.source runner.new.core
        (bus_state (λ d. (⟦<dyn Device as Device>⟧ d.vtable).meaning d.value)
        runner.new.bus.boxes runner.new.bus.transcript.items) runner.new.cost runner.new.end
        in
        IfSome result (NotTaken before after (I.left input.old) (I.left input.new)
        (I.faults input.old) (I.faults input.new)) }
{
    let answer = match next_input(input) {
        Some(answer) => answer,
        None => return Some(Outcome::ReadFault),
    };
    match runner.give(answer) {
        Walk::Went => None,
        Walk::OutOfMemory => Some(Outcome::OutOfMemory),
        Walk::Input
        | Walk::Output(_)
        | Walk::Exit(_)
        | Walk::Denied { .. }
        | Walk::StackFull { .. }
        | Walk::Divide
        | Walk::BadThread
        | Walk::ThreadsFull
        | Walk::Undefined
        | Walk::DeviceFault(_) => unreachable!(),
    }
}

/// Puts a byte. None goes on.
fn put_output<O: Sink>(out: &mut O, byte: u8) -> Option<Outcome>
    ensures put { O.faults out.old ≤ O.faults out.new }
    ensures goes { IfNone result (Told (Gained (byte ∷ [])) (O.taken out.old) (O.taken out.new)) }
    ensures ends { IfSome result (NotPut (O.taken out.old) (O.taken out.new) (O.faults out.old)
        (O.faults out.new)) }
{
    match put_all(out, &[byte]) {
        Ok(()) => None,
        Err(_) => Some(Outcome::WriteFault),
    }
}

/// Makes a step, and puts its output or takes its input. None goes on.
pub fn step_once<I: Source, O: Sink>(
    runner: &mut Runner<'_>,
    input: &mut I,
    out: &mut O,
) -> Option<Outcome>
    requires { let before = run_of runner.old.source runner.old.core
        (bus_state (λ d. (⟦<dyn Device as Device>⟧ d.vtable).meaning d.value)
        runner.old.bus.boxes runner.old.bus.transcript.items) runner.old.cost runner.old.end
        in
        before.finish ≡ None }
    ensures read { I.faults input.old ≤ I.faults input.new }
    ensures put { O.faults out.old ≤ O.faults out.new }
    ensures goes { let before = run_of runner.old.source runner.old.core
        (bus_state (λ d. (⟦<dyn Device as Device>⟧ d.vtable).meaning d.value)
        runner.old.bus.boxes runner.old.bus.transcript.items) runner.old.cost runner.old.end
        in
        let after = run_of runner.new.source runner.new.core
        (bus_state (λ d. (⟦<dyn Device as Device>⟧ d.vtable).meaning d.value)
        runner.new.bus.boxes runner.new.bus.transcript.items) runner.new.cost runner.new.end
        in
        IfNone result (WentOn before after (O.taken out.old) (O.taken out.new) (I.left input.old)
        (I.left input.new)) }
    ensures ends { let before = run_of runner.old.source runner.old.core
        (bus_state (λ d. (⟦<dyn Device as Device>⟧ d.vtable).meaning d.value)
        runner.old.bus.boxes runner.old.bus.transcript.items) runner.old.cost runner.old.end
        in
        let after = run_of runner.new.source runner.new.core
        (bus_state (λ d. (⟦<dyn Device as Device>⟧ d.vtable).meaning d.value)
        runner.new.bus.boxes runner.new.bus.transcript.items) runner.new.cost runner.new.end
        in
        IfSome result (λ outcome. EndsBy before after (O.taken out.old) (O.taken out.new)
        (I.left input.old) (I.left input.new) (I.faults input.old) (I.faults input.new)
        (O.faults out.old) (O.faults out.new) outcome) }
{
    match runner.step() {
        Walk::Went => None,
        Walk::Output(byte) => put_output(out, byte),
        Walk::Input => take_input(runner, input),
        Walk::DeviceFault(device) => Some(Outcome::Device(device)),
        Walk::OutOfMemory => Some(Outcome::OutOfMemory),
        Walk::Exit(_)
        | Walk::Denied { .. }
        | Walk::StackFull { .. }
        | Walk::Divide
        | Walk::BadThread
        | Walk::ThreadsFull
        | Walk::Undefined => ended(runner),
    }
}
