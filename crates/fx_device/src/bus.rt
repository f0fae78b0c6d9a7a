//! The bus: the boxes of devices 1 to 15, and the operations so far.

ghost use Rattle.std.specs.Prelude.{⊤, List, Option, if◌then◌else◌, is_ok, ◌≡◌, ◌≤◌, ◌∷◌, ◌++◌, [], None, IsSome, IsTrue, ◌↔◌, map, option_map, length};
ghost use Rattle.std.specs.Result.{result_map_both};
ghost use Rattle.fx_device.specs.Rules.{Meaning, load, store};
ghost use Rattle.fx_device.specs.Bus.{bus_state, box_of, with_box, plugged, Ends, Lands, Carries, BusLaw};

use crate::bus_error::BusError;
use crate::device::Device;
use fx_base::{DeviceOp, Transcript};
use std::alloc::{AllocError, Global};

/// The most boxes.
const BOXES: usize = 15;

/// The bus of up to fifteen devices, and the operations so far.
///
/// The i-th box that was handed in, from 0, is device i + 1. Device 0 is the console and has no box. A
/// contract reads a bus `b` as `bus_state (λ d. meaning d) b.boxes b.transcript.items`.
#[derive(Drop)]
pub struct Bus {
    boxes: [Option<Box<dyn Device>>; BOXES],
    transcript: Vec<DeviceOp>,
}

// A function that has a condition puts no device of its own into a box, so its callers in other crates
// know it: hence the conditions that always hold.
impl Bus {
    /// A bus of these devices, at most fifteen, and of no operation. It takes no memory.
    pub fn new(alloc: Global, devices: Vec<Box<dyn Device>>) -> Bus
        requires { length devices.items ≤ 15 }
        ensures boxes { result.boxes ≡ plugged 15 devices.items }
        ensures transcript { result.transcript.items ≡ [] }
        ensures law { BusLaw (map (option_map (λ d. meaning d)) result.boxes) (bus_state (λ d. meaning d) result.boxes result.transcript.items) }
    {
        let mut boxes = [
            None, None, None, None, None, None, None, None, None, None, None, None, None, None,
            None,
        ];
        let mut place = 0;
        for device in devices {
            boxes[place] = Some(device);
            place += 1;
        }
        Bus {
            boxes,
            transcript: Vec::new(alloc),
        }
    }

    /// The value of a device's register: all ones where the number has no box.
    ///
    /// Room in the transcript is taken before the device is called. The device may fail; without
    /// memory for the transcript all is as it was.
    pub fn load(&mut self, device: u16, reg: u16) -> Result<u64, BusError>
        requires { ⊤ }
        ensures carried { Carries device (load reg) result (bus_state (λ d. meaning d) self.old.boxes self.old.transcript.items) (bus_state (λ d. meaning d) self.new.boxes self.new.transcript.items) }
        ensures law { (first : List (Option Meaning))
            → BusLaw first
            (bus_state (λ d. meaning d) self.old.boxes self.old.transcript.items)
            → BusLaw first
            (bus_state (λ d. meaning d) self.new.boxes self.new.transcript.items) }
    {
        self.carry_load(device, reg)
    }

    fn carry_load(&mut self, device: u16, reg: u16) -> Result<u64, BusError>
        ensures { Carries device (load reg) result (bus_state (λ d. meaning d) self.old.boxes self.old.transcript.items) (bus_state (λ d. meaning d) self.new.boxes self.new.transcript.items) }
    {
        self.transcript.reserve(1)?;
        let value = load_at(&mut self.boxes, device, reg)?;
        let op = DeviceOp {
            device,
            reg,
            write: false,
            value,
        };
        self.transcript.push(op).unwrap();
        Ok(value)
    }

    /// Sets a device's register; a number without a box takes every value.
    ///
    /// Room in the transcript is taken before the device is called. The device may fail; without
    /// memory for the transcript all is as it was.
    pub fn store(&mut self, device: u16, reg: u16, v: u64) -> Result<(), BusError>
        requires { ⊤ }
        ensures carried { Carries device (store reg v) (result_map_both (λ _. v) (λ e. e) result)
            (bus_state (λ d. meaning d) self.old.boxes self.old.transcript.items)
            (bus_state (λ d. meaning d) self.new.boxes self.new.transcript.items) }
        ensures law { (first : List (Option Meaning))
            → BusLaw first
            (bus_state (λ d. meaning d) self.old.boxes self.old.transcript.items)
            → BusLaw first
            (bus_state (λ d. meaning d) self.new.boxes self.new.transcript.items) }
    {
        self.carry_store(device, reg, v)
    }

    fn carry_store(&mut self, device: u16, reg: u16, v: u64) -> Result<(), BusError>
        ensures { Carries device (store reg v) (result_map_both (λ _. v) (λ e. e) result)
            (bus_state (λ d. meaning d) self.old.boxes self.old.transcript.items)
            (bus_state (λ d. meaning d) self.new.boxes self.new.transcript.items) }
    {
        self.transcript.reserve(1)?;
        store_at(&mut self.boxes, device, reg, v)?;
        let op = DeviceOp {
            device,
            reg,
            write: true,
            value: v,
        };
        self.transcript.push(op).unwrap();
        Ok(())
    }

    /// Writes down an operation of the console, device 0.
    pub fn note(&mut self, op: DeviceOp) -> Result<(), AllocError>
        requires { op.device ≡ 0 }
        ensures transcript { self.new.transcript.items ≡ (if is_ok result then self.old.transcript.items ++ op ∷ [] else self.old.transcript.items) }
        ensures boxes { self.new.boxes ≡ self.old.boxes }
        ensures law { (first : List (Option Meaning))
            → BusLaw first
            (bus_state (λ d. meaning d) self.old.boxes self.old.transcript.items)
            → BusLaw first
            (bus_state (λ d. meaning d) self.new.boxes self.new.transcript.items) }
    {
        self.write_down(op)
    }

    fn write_down(&mut self, op: DeviceOp) -> Result<(), AllocError>
        ensures transcript { self.new.transcript.items ≡ (if is_ok result then self.old.transcript.items ++ op ∷ [] else self.old.transcript.items) }
        ensures boxes { self.new.boxes ≡ self.old.boxes }
    {
        self.transcript.push(op)?;
        Ok(())
    }

    /// Drops the box of a device, and answers whether it was there.
    pub fn unplug(&mut self, device: u16) -> bool
        requires { ⊤ }
        ensures there { IsTrue result ↔ IsSome (box_of device (map (option_map (λ d. meaning d)) self.old.boxes)) }
        ensures boxes { map (option_map (λ d. meaning d)) self.new.boxes ≡ with_box device None (map (option_map (λ d. meaning d)) self.old.boxes) }
        ensures transcript { self.new.transcript ≡ self.old.transcript }
        ensures law { (first : List (Option Meaning))
            → BusLaw first
            (bus_state (λ d. meaning d) self.old.boxes self.old.transcript.items)
            → BusLaw first
            (bus_state (λ d. meaning d) self.new.boxes self.new.transcript.items) }
    {
        self.take_out(device)
    }

    fn take_out(&mut self, device: u16) -> bool
        ensures there { IsTrue result ↔ IsSome (box_of device (map (option_map (λ d. meaning d)) self.old.boxes)) }
        ensures boxes { map (option_map (λ d. meaning d)) self.new.boxes ≡ with_box device None (map (option_map (λ d. meaning d)) self.old.boxes) }
        ensures transcript { self.new.transcript ≡ self.old.transcript }
    {
        if device == 0 {
            return false;
        }
        if self.boxes.len() < usize::from(device) {
            return false;
        }
        self.boxes[usize::from(device) - 1].take().is_some()
    }

    /// The operations so far.
    pub fn transcript(&self) -> &[DeviceOp]
        ensures { result.now ≡ self.now.transcript.items }
    {
        self.transcript.as_slice()
    }

    /// The operations; the boxes are dropped. It takes no memory.
    pub fn into_transcript(self) -> Transcript
        ensures { result ≡ self.transcript.items }
    {
        let Bus {
            boxes: _,
            transcript,
        } = self;
        Transcript::from_vec(transcript)
    }
}

/// The value of a register of the device at a number.
fn load_at(
    boxes: &mut [Option<Box<dyn Device>>; BOXES],
    device: u16,
    reg: u16,
) -> Result<u64, BusError>
    ensures { Lands device (load reg) result (map (option_map (λ d. meaning d)) boxes.old) (map (option_map (λ d. meaning d)) boxes.new) }
{
    if device == 0 {
        return Ok(u64::MAX);
    }
    if boxes.len() < usize::from(device) {
        return Ok(u64::MAX);
    }
    load_from(&mut boxes[usize::from(device) - 1], device, reg)
}

/// The value of a register of the device in a box.
fn load_from(content: &mut Option<Box<dyn Device>>, device: u16, reg: u16) -> Result<u64, BusError>
    ensures { Ends device (load reg) result (option_map (λ d. meaning d) content.old) (option_map (λ d. meaning d) content.new) }
{
    match content {
        Some(boxed) => match boxed.load(reg) {
            Ok(value) => Ok(value),
            Err(_) => Err(BusError::Device(device)),
        },
        None => Ok(u64::MAX),
    }
}

/// Sets a register of the device at a number.
fn store_at(
    boxes: &mut [Option<Box<dyn Device>>; BOXES],
    device: u16,
    reg: u16,
    v: u64,
) -> Result<(), BusError>
    ensures { Lands device (store reg v) (result_map_both (λ _. v) (λ e. e) result) (map (option_map (λ d. meaning d)) boxes.old) (map (option_map (λ d. meaning d)) boxes.new) }
{
    if device == 0 {
        return Ok(());
    }
    if boxes.len() < usize::from(device) {
        return Ok(());
    }
    store_to(&mut boxes[usize::from(device) - 1], device, reg, v)
}

/// Sets a register of the device in a box.
fn store_to(
    content: &mut Option<Box<dyn Device>>,
    device: u16,
    reg: u16,
    v: u64,
) -> Result<(), BusError>
    ensures { Ends device (store reg v) (result_map_both (λ _. v) (λ e. e) result) (option_map (λ d. meaning d) content.old) (option_map (λ d. meaning d) content.new) }
{
    match content {
        Some(boxed) => match boxed.store(reg, v) {
            Ok(()) => Ok(()),
            Err(_) => Err(BusError::Device(device)),
        },
        None => Ok(()),
    }
}
