//! Operations on devices.

ghost use Rattle.std.specs.Prelude.{◌≡◌, [], ◌∷◌};
ghost use Rattle.fx_device.specs.Bus.{bus_state};
ghost use Rattle.fx_machine_model.specs.Turns.{answer_to};
ghost use Rattle.fx_machine.specs.Turns.{console_load};
ghost use Rattle.fx_machine.specs.Operations.{Operated};

use fx_base::DeviceOp;
use fx_device::{Bus, BusError, Device};
use fx_machine_model::stop::Turn;

/// What a turn answers that made an operation: an operation on the console's register 0 is output, or
/// waits for input.
pub fn answer_to(op: &DeviceOp) -> Turn
    ensures { result ≡ answer_to (op.now ∷ []) }
{
    if op.device != 0 || op.reg != 0 {
        Turn::Went
    } else if op.write {
        Turn::Output((op.value & 0xff) as u8)
    } else {
        Turn::Input
    }
}

/// A load of the console's register 0 that was answered.
pub fn console_load(answer: u64) -> DeviceOp
    ensures { result ≡ console_load answer }
{
    DeviceOp {
        device: 0,
        reg: 0,
        write: false,
        value: answer,
    }
}

/// Makes an operation, and gives the answer to a load, and 0 to a store; else what the turn answers. A load
/// of the console's register 0 waits for its answer.
pub fn operate(bus: &mut Bus, op: DeviceOp) -> Result<u64, Turn>
    ensures { Operated op result
        (bus_state (λ d. (⟦<dyn Device as Device>⟧ d.vtable).meaning d.value) bus.old.boxes
        bus.old.transcript.items)
        (bus_state (λ d. (⟦<dyn Device as Device>⟧ d.vtable).meaning d.value) bus.new.boxes
        bus.new.transcript.items) }
{
    if op.device == 0 && op.reg == 0 {
        if !op.write {
            return Err(Turn::Input);
        }
        return match bus.note(op) {
            Ok(()) => Ok(0),
            Err(_) => Err(Turn::OutOfMemory),
        };
    }
    if op.write {
        match bus.store(op.device, op.reg, op.value) {
            Ok(()) => Ok(0),
            Err(BusError::Device(device)) => Err(Turn::DeviceFault(device)),
            Err(BusError::OutOfMemory) => Err(Turn::OutOfMemory),
        }
    } else {
        match bus.load(op.device, op.reg) {
            Ok(value) => Ok(value),
            Err(BusError::Device(device)) => Err(Turn::DeviceFault(device)),
            Err(BusError::OutOfMemory) => Err(Turn::OutOfMemory),
        }
    }
}
