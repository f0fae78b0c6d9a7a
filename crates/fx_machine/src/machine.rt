//! The machine.

ghost use Rattle.std.specs.Prelude.{⊤, ◌≡◌, ◌<◌, ◌%◌, ◌↔◌, false, None, IsTrue, IsSome, IfOk, length, map, option_map, slice_set};
ghost use Rattle.std.proofs.Props.{props};
ghost use Rattle.fx_device.specs.Bus.{bus_state, box_of, with_box};
ghost use Rattle.fx_image.specs.Rules.{IsImage};
ghost use Rattle.fx_machine_model.specs.Boot.{vcpus};
ghost use Rattle.fx_machine_model.specs.Moves.{move};
ghost use Rattle.fx_machine.specs.Acting.{world, ActsBy};
ghost use Rattle.fx_machine.specs.Agree.{Agrees};
ghost use Rattle.fx_machine.specs.Lines.{IsDecoded};
ghost use Rattle.fx_machine.specs.Memory.{memory_of, IsLaidOut};
ghost use Rattle.fx_machine.specs.Turns.{running_of, cpus_of, booted, Turned, Waits, Gave};

use crate::act::{Act, finish, instruct, instruct_whole};
use crate::boot::{boot_cpus, copy_image};
use crate::code::Code;
use crate::memory::Memory;
use crate::operate::{answer_to, console_load, operate};
use crate::pages::Pages;
use fx_base::DeviceOp;
use fx_cpu::registers::Regs;
use fx_device::{Bus, Device};
use fx_image::Image;
use fx_machine_model::stop::{Stop, Turn};
use std::alloc::{AllocError, Global};

/// A machine that runs an image, with its devices.
///
/// A contract reads a machine `m` as `running_of m.image m.memory m.cpus.items (bus_state (λ d. (⟦<dyn Device as Device>⟧ d.vtable).meaning d.value)
/// m.bus.boxes m.bus.transcript.items) m.stop`.
#[derive(Drop)]
pub struct Machine {
    image: Image,
    code: Code,
    pages: Pages,
    memory: Memory,
    cpus: Vec<Regs>,
    bus: Bus,
    stop: Option<Stop>,
    ghost whole: { IsImage image },
    ghost decoded: { IsDecoded image code } by { Prim.hlevel props },
    ghost agree: { Agrees image pages } by { Prim.hlevel props },
    ghost laid: { IsLaidOut image memory },
    ghost many: { length cpus.items ≡ vcpus image },
}

// A function that has a condition puts no device of its own into a box, so its callers in other crates
// know it: hence the conditions that always hold.
impl Machine {
    /// A machine at boot. It takes all its memory here, but for the transcript's.
    pub fn boot(alloc: Global, image: &Image, bus: Bus) -> Result<Machine, AllocError>
        requires { IsImage image.now }
        ensures { IfOk result
            (λ m. running_of m.image m.memory m.cpus.items
            (bus_state (λ d. (⟦<dyn Device as Device>⟧ d.vtable).meaning d.value)
            m.bus.boxes m.bus.transcript.items)
            m.stop
            ≡ booted image.now
            (bus_state (λ d. (⟦<dyn Device as Device>⟧ d.vtable).meaning d.value)
            bus.boxes bus.transcript.items)) }
    {
        let copy = copy_image(alloc, image)?;
        let code = Code::decode(alloc, image)?;
        let memory = Memory::boot(alloc, image)?;
        let cpus = boot_cpus(alloc, image)?;
        Ok(Machine {
            image: copy,
            code,
            pages: Pages::new(image),
            memory,
            cpus,
            bus,
            stop: None,
        })
    }

    /// The vCPU of a number, which is taken modulo the number of vCPUs.
    #[inline]
    fn vcpu(&self, v: u64) -> u8
        ensures value { result ≡ v % vcpus self.now.image }
        ensures there { result < length self.now.cpus.items }
        ensures few { result < 16 }
    {
        let count = self.cpus.len() as u64;
        if count == 1 { 0 } else { (v % count) as u8 }
    }

    /// Does one instruction of a vCPU, but for its operation.
    #[inline]
    fn step(&mut self, c: u8) -> Act
        requires there { c < length self.old.cpus.items }
        requires few { c < 16 }
        ensures acts { ActsBy
            (λ answers. move self.old.image c (cpus_of self.old.image self.old.cpus.items c)
            (world (memory_of self.old.image self.old.memory) answers))
            (cpus_of self.old.image self.old.cpus.items c)
            (memory_of self.old.image self.old.memory) result
            (cpus_of self.old.image self.new.cpus.items c)
            (memory_of self.old.image self.new.memory) }
        ensures cpus { self.new.cpus.items ≡ slice_set self.old.cpus.items c (cpus_of self.old.image self.new.cpus.items c) }
        ensures image { self.new.image ≡ self.old.image }
        ensures bus { self.new.bus ≡ self.old.bus }
        ensures stop { self.new.stop ≡ self.old.stop }
    {
        instruct(
            &self.image,
            &self.code,
            &mut self.pages,
            &mut self.memory,
            c,
            &mut self.cpus[usize::from(c)],
        )
    }

    /// Does one instruction of a vCPU, if it was decoded beforehand and touches nothing but memory in one
    /// page, and answers whether it is done. Where it isn't, nothing has changed.
    #[inline(always)]
    fn went(&mut self, c: u8) -> bool
        requires there { c < length self.old.cpus.items }
        requires few { c < 16 }
        ensures done { IsTrue result
            → ActsBy
            (λ answers. move self.old.image c (cpus_of self.old.image self.old.cpus.items c)
            (world (memory_of self.old.image self.old.memory) answers))
            (cpus_of self.old.image self.old.cpus.items c)
            (memory_of self.old.image self.old.memory) Act.Done
            (cpus_of self.old.image self.new.cpus.items c)
            (memory_of self.old.image self.new.memory) }
        ensures registers { result ≡ false → self.new.cpus.items ≡ self.old.cpus.items }
        ensures memory { result ≡ false → self.new.memory ≡ self.old.memory }
        ensures cpus { self.new.cpus.items ≡ slice_set self.old.cpus.items c (cpus_of self.old.image self.new.cpus.items c) }
        ensures image { self.new.image ≡ self.old.image }
        ensures bus { self.new.bus ≡ self.old.bus }
        ensures stop { self.new.stop ≡ self.old.stop }
    {
        instruct_whole(
            &self.image,
            &self.code,
            &mut self.pages,
            &mut self.memory,
            c,
            &mut self.cpus[usize::from(c)],
        )
    }

    /// A turn, whatever its instruction does.
    #[inline(never)]
    fn turn_any(&mut self, v: u64) -> Turn
        requires { ⊤ }
        ensures { Turned
            (running_of self.old.image self.old.memory self.old.cpus.items
            (bus_state (λ d. (⟦<dyn Device as Device>⟧ d.vtable).meaning d.value)
            self.old.bus.boxes self.old.bus.transcript.items)
            self.old.stop)
            v result
            (running_of self.new.image self.new.memory self.new.cpus.items
            (bus_state (λ d. (⟦<dyn Device as Device>⟧ d.vtable).meaning d.value)
            self.new.bus.boxes self.new.bus.transcript.items)
            self.new.stop) }
    {
        match self.stop {
            Some(stop) => Turn::Stopped(stop),
            None => {
                let c = self.vcpu(v);
                match self.step(c) {
                    Act::Done => Turn::Went,
                    Act::Operation { inst, length, op } => match operate(&mut self.bus, op) {
                        Ok(value) => {
                            finish(&inst, length, &mut self.cpus[usize::from(c)], value);
                            answer_to(&op)
                        }
                        Err(turn) => turn,
                    },
                    Act::Halts(stop) => {
                        self.stop = Some(stop);
                        Turn::Stopped(stop)
                    }
                }
            }
        }
    }

    /// Executes one whole instruction of a vCPU, whose number is taken modulo the number of vCPUs. It takes
    /// memory for an operation's place in the transcript alone.
    #[inline]
    pub fn turn(&mut self, v: u64) -> Turn
        requires { ⊤ }
        ensures { Turned
            (running_of self.old.image self.old.memory self.old.cpus.items
            (bus_state (λ d. (⟦<dyn Device as Device>⟧ d.vtable).meaning d.value)
            self.old.bus.boxes self.old.bus.transcript.items)
            self.old.stop)
            v result
            (running_of self.new.image self.new.memory self.new.cpus.items
            (bus_state (λ d. (⟦<dyn Device as Device>⟧ d.vtable).meaning d.value)
            self.new.bus.boxes self.new.bus.transcript.items)
            self.new.stop) }
    {
        match self.stop {
            Some(stop) => Turn::Stopped(stop),
            None => {
                let c = self.vcpu(v);
                if self.went(c) {
                    Turn::Went
                } else {
                    self.turn_any(v)
                }
            }
        }
    }

    /// Executes the load that waits, with this answer.
    pub fn give(&mut self, v: u64, answer: u64) -> Turn
        requires { Waits
            (running_of self.old.image self.old.memory self.old.cpus.items
            (bus_state (λ d. (⟦<dyn Device as Device>⟧ d.vtable).meaning d.value)
            self.old.bus.boxes self.old.bus.transcript.items)
            self.old.stop)
            v }
        ensures { Gave
            (running_of self.old.image self.old.memory self.old.cpus.items
            (bus_state (λ d. (⟦<dyn Device as Device>⟧ d.vtable).meaning d.value)
            self.old.bus.boxes self.old.bus.transcript.items)
            self.old.stop)
            v answer result
            (running_of self.new.image self.new.memory self.new.cpus.items
            (bus_state (λ d. (⟦<dyn Device as Device>⟧ d.vtable).meaning d.value)
            self.new.bus.boxes self.new.bus.transcript.items)
            self.new.stop) }
    {
        let c = self.vcpu(v);
        match self.step(c) {
            Act::Operation { inst, length, .. } => match self.bus.note(console_load(answer)) {
                Ok(()) => {
                    finish(&inst, length, &mut self.cpus[usize::from(c)], answer);
                    Turn::Went
                }
                Err(_) => Turn::OutOfMemory,
            },
            Act::Done | Act::Halts(_) => unreachable!(),
        }
    }

    /// Drops the box of a device, and answers whether it was there.
    pub fn unplug(&mut self, device: u16) -> bool
        requires { ⊤ }
        ensures there { IsTrue result ↔ IsSome (box_of device (map (option_map (λ d. (⟦<dyn Device as Device>⟧ d.vtable).meaning d.value)) self.old.bus.boxes)) }
        ensures boxes { map (option_map (λ d. (⟦<dyn Device as Device>⟧ d.vtable).meaning d.value))
            self.new.bus.boxes
            ≡ with_box device None
            (map (option_map (λ d. (⟦<dyn Device as Device>⟧ d.vtable).meaning d.value))
            self.old.bus.boxes) }
        ensures transcript { self.new.bus.transcript ≡ self.old.bus.transcript }
        ensures image { self.new.image ≡ self.old.image }
        ensures memory { self.new.memory ≡ self.old.memory }
        ensures cpus { self.new.cpus ≡ self.old.cpus }
        ensures stop { self.new.stop ≡ self.old.stop }
    {
        self.bus.unplug(device)
    }

    /// The operations made so far, in order.
    pub fn transcript(&self) -> &[DeviceOp]
        ensures { result.now ≡ self.now.bus.transcript.items }
    {
        self.bus.transcript()
    }

    /// The bus.
    pub fn finish(self) -> Bus
        requires { ⊤ }
        ensures { result ≡ self.bus }
    {
        let Machine { bus, .. } = self;
        bus
    }
}
