//! When a device is unplugged.

ghost use Rattle.std.specs.Prelude.{◌≡◌, []};
ghost use Rattle.fx_device.specs.Bus.{bus_state};
ghost use Rattle.fx_machine.specs.Turns.{running_of};
ghost use Rattle.fx_run_core.specs.Reached.{Devices, Watching, Watched, Rebox};

use fx_device::Device;
use fx_machine::machine::Machine;

/// A device that is to be unplugged after so many more of its operations, at least one.
#[derive(Clone, Copy, Debug, PartialEq, Eq)]
pub struct Watch {
    pub device: u16,
    pub left: u64,
}

/// Begins to watch a device; it is unplugged at once where no operation is to come before.
pub fn begin(machine: &mut Machine, unplug: Option<(u16, u64)>) -> Option<Watch>
    requires { let before = running_of machine.old.image machine.old.memory machine.old.cpus.items
        (bus_state (λ d. (⟦<dyn Device as Device>⟧ d.vtable).meaning d.value)
        machine.old.bus.boxes machine.old.bus.transcript.items) machine.old.stop in
        before.bus.transcript ≡ [] }
    ensures rebox { let before = running_of machine.old.image machine.old.memory
        machine.old.cpus.items
        (bus_state (λ d. (⟦<dyn Device as Device>⟧ d.vtable).meaning d.value)
        machine.old.bus.boxes machine.old.bus.transcript.items) machine.old.stop in
        let after = running_of machine.new.image machine.new.memory machine.new.cpus.items
        (bus_state (λ d. (⟦<dyn Device as Device>⟧ d.vtable).meaning d.value)
        machine.new.bus.boxes machine.new.bus.transcript.items) machine.new.stop in
        Rebox before after }
    ensures watching { Watching unplug result [] }
    ensures devices { let before = running_of machine.old.image machine.old.memory
        machine.old.cpus.items
        (bus_state (λ d. (⟦<dyn Device as Device>⟧ d.vtable).meaning d.value)
        machine.old.bus.boxes machine.old.bus.transcript.items) machine.old.stop in
        let after = running_of machine.new.image machine.new.memory machine.new.cpus.items
        (bus_state (λ d. (⟦<dyn Device as Device>⟧ d.vtable).meaning d.value)
        machine.new.bus.boxes machine.new.bus.transcript.items) machine.new.stop in
        Devices before.bus.boxes unplug after.bus }
{
    match unplug {
        None => None,
        Some((device, left)) => {
            if left == 0 {
                let _ = machine.unplug(device);
                return None;
            }
            Some(Watch { device, left })
        }
    }
}

/// Goes on watching after a turn, which made the operations from number `count` on, one at most.
pub fn go_on(machine: &mut Machine, watch: Option<Watch>, count: usize) -> Option<Watch>
    ensures rebox { let before = running_of machine.old.image machine.old.memory
        machine.old.cpus.items
        (bus_state (λ d. (⟦<dyn Device as Device>⟧ d.vtable).meaning d.value)
        machine.old.bus.boxes machine.old.bus.transcript.items) machine.old.stop in
        let after = running_of machine.new.image machine.new.memory machine.new.cpus.items
        (bus_state (λ d. (⟦<dyn Device as Device>⟧ d.vtable).meaning d.value)
        machine.new.bus.boxes machine.new.bus.transcript.items) machine.new.stop in
        Rebox before after }
    ensures watching { let before = running_of machine.old.image machine.old.memory
        machine.old.cpus.items
        (bus_state (λ d. (⟦<dyn Device as Device>⟧ d.vtable).meaning d.value)
        machine.old.bus.boxes machine.old.bus.transcript.items) machine.old.stop in
        let after = running_of machine.new.image machine.new.memory machine.new.cpus.items
        (bus_state (λ d. (⟦<dyn Device as Device>⟧ d.vtable).meaning d.value)
        machine.new.bus.boxes machine.new.bus.transcript.items) machine.new.stop in
        Watched count watch result before.bus after.bus }
{
    let Some(watch) = watch else {
        return None;
    };
    let made = match machine.transcript().get(count) {
        Some(op) => op.device,
        None => return Some(watch),
    };
    if made != watch.device {
        return Some(watch);
    }
    if watch.left > 1 {
        return Some(Watch {
            device: watch.device,
            left: watch.left - 1,
        });
    }
    let _ = machine.unplug(watch.device);
    None
}
