//! One turn of a run, with its input and its output.

ghost use Rattle.std.specs.Prelude.{◌≡◌, ◌≤◌, ◌<◌, ◌^◌, IfNone, IfSome, None, length};
ghost use Rattle.fx_device.specs.Bus.{bus_state};
ghost use Rattle.fx_machine.specs.Turns.{running_of};
ghost use Rattle.fx_base.specs.Faults.{Rose};
ghost use Rattle.fx_base.specs.Told.{Told};
ghost use Rattle.fx_run_core.specs.Ran.{named, Answers};
ghost use Rattle.fx_run_core.specs.Stepping.{WentOn, EndsBy};

use fx_base::{Sink, Source, put_all};
use fx_device::Device;
use fx_machine::machine::Machine;
use fx_machine_model::outcome::Outcome;
use fx_machine_model::stop::Turn;

/// The vCPU number that turn i names.
pub fn named(schedule: &[u8], i: u64) -> u64
    ensures { result ≡ named schedule.now i }
{
    let count = schedule.len() as u64;
    if i < count {
        u64::from(schedule[i as usize])
    } else {
        i - count
    }
}

/// The answer to a load of the console: the next byte of input, and all ones at its end. None where the
/// input failed.
fn next_input<I: Source>(input: &mut I) -> Option<u64>
    ensures given { Told (Answers result) (I.left input.old) (I.left input.new) }
    ensures later { I.faults input.old ≤ I.faults input.new }
    ensures failed { result ≡ None → Rose (I.faults input.old) (I.faults input.new) }
{
    match input.byte() {
        Ok(Some(byte)) => Some(u64::from(byte)),
        Ok(None) => Some(u64::MAX),
        Err(_) => None,
    }
}

/// Makes a turn, and puts its output or takes its input. None goes on.
pub fn turn_once<I: Source, O: Sink>(
    machine: &mut Machine,
    vcpu: u64,
    input: &mut I,
    out: &mut O,
) -> Option<Outcome>
    requires { let before = running_of machine.old.image machine.old.memory machine.old.cpus.items
        (bus_state (λ d. (⟦<dyn Device as Device>⟧ d.vtable).meaning d.value)
        machine.old.bus.boxes machine.old.bus.transcript.items) machine.old.stop in
        before.stop ≡ None }
    ensures read { I.faults input.old ≤ I.faults input.new }
    ensures put { O.faults out.old ≤ O.faults out.new }
    ensures goes { let before = running_of machine.old.image machine.old.memory
        machine.old.cpus.items
        (bus_state (λ d. (⟦<dyn Device as Device>⟧ d.vtable).meaning d.value)
        machine.old.bus.boxes machine.old.bus.transcript.items) machine.old.stop in
        let after = running_of machine.new.image machine.new.memory machine.new.cpus.items
        (bus_state (λ d. (⟦<dyn Device as Device>⟧ d.vtable).meaning d.value)
        machine.new.bus.boxes machine.new.bus.transcript.items) machine.new.stop in
        IfNone result (WentOn before vcpu after
        (O.taken out.old) (O.taken out.new) (I.left input.old) (I.left input.new)) }
    ensures ends { let before = running_of machine.old.image machine.old.memory
        machine.old.cpus.items
        (bus_state (λ d. (⟦<dyn Device as Device>⟧ d.vtable).meaning d.value)
        machine.old.bus.boxes machine.old.bus.transcript.items) machine.old.stop in
        let after = running_of machine.new.image machine.new.memory machine.new.cpus.items
        (bus_state (λ d. (⟦<dyn Device as Device>⟧ d.vtable).meaning d.value)
        machine.new.bus.boxes machine.new.bus.transcript.items) machine.new.stop in
        IfSome result (λ outcome. EndsBy before vcpu after
        (O.taken out.old) (O.taken out.new) (I.left input.old) (I.left input.new)
        (I.faults input.old) (I.faults input.new) (O.faults out.old) (O.faults out.new) outcome) }
{
    match machine.turn(vcpu) {
        Turn::Went => None,
        Turn::Output(byte) => match put_all(out, &[byte]) {
            Ok(()) => None,
            Err(_) => Some(Outcome::WriteFault),
        },
        Turn::Input => match next_input(input) {
            Some(answer) => match machine.give(vcpu, answer) {
                Turn::Went => None,
                Turn::OutOfMemory => Some(Outcome::OutOfMemory),
                Turn::Stopped(_) | Turn::DeviceFault(_) | Turn::Input | Turn::Output(_) => {
                    unreachable!()
                }
            },
            None => Some(Outcome::ReadFault),
        },
        Turn::Stopped(stop) => Some(Outcome::Stopped(stop)),
        Turn::DeviceFault(device) => Some(Outcome::Device(device)),
        Turn::OutOfMemory => Some(Outcome::OutOfMemory),
    }
}
