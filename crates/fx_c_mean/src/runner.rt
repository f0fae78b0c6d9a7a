//! The runner.

ghost use Rattle.std.specs.Prelude.{⊤, ◌≡◌, ◌↔◌, List, Option, None, IfOk, IsTrue, IsSome, map, option_map};
ghost use Rattle.fx_device.specs.Rules.{Meaning};
ghost use Rattle.fx_device.specs.Bus.{bus_state, box_of, with_box, BusLaw};
ghost use Rattle.fx_c_mean_model.specs.Programs.{program_of};
ghost use Rattle.fx_c_mean_blocks.specs.declared.value.Value.TheVariants.{Number};
ghost use Rattle.fx_c_mean_model.specs.States.{Does, Ask, Tell};
ghost use Rattle.fx_c_mean_control.specs.Views.{frames_of};
ghost use Rattle.fx_c_mean_acts.specs.Cores.{state_of};
ghost use Rattle.fx_c_mean_acts.specs.Uses.{IsKnownAt, IsKnownAt-prop};
ghost use Rattle.fx_c_mean.specs.Rights.{rights_of as rights_from};
ghost use Rattle.fx_c_mean.specs.Walks.{run_of, first_run, walk_of as walk_at, more_cost as cost_after, is_console, refusal, MakesStep, Walked, Waits, Gave};

use crate::rights::rights_of;
use crate::start::first_core;
use fx_base::DeviceOp;
use fx_c_ast::checked::TProgram;
use fx_c_mean_acts::source::{Source, source_of};
use fx_c_mean_acts::state::Core;
use fx_c_mean_acts::steps::Step;
use fx_c_mean_acts::uses::StackUse;
use fx_c_mean_blocks::block::Place;
use fx_c_mean_blocks::memory::Memory;
use fx_c_mean_blocks::value::Value;
use fx_c_mean_model::end::End;
use fx_c_mean_model::rights::Rights;
use fx_config::Config;
use fx_device::{Bus, BusError, Device};
use fx_grants::Grants;
use std::alloc::{AllocError, Global};

/// What a step came to.
#[derive(Clone, Copy, Debug, PartialEq, Eq)]
pub enum Walk {
    /// The run goes on.
    Went,
    /// The step is a load of the console, which `give` makes.
    Input,
    /// The run goes on, after a store of this byte to the console.
    Output(u8),
    /// `main` returned; its value extended to 64 bits, as a signed number.
    Exit(i64),
    /// The first access that its compartment is not granted. Of its object the declaration is told.
    Denied {
        compartment: u8,
        object: Place,
        offset: u64,
        write: bool,
    },
    /// A call whose frame does not fit the stack.
    StackFull {
        thread: u8,
        stack: u8,
    },
    /// A division by zero, or a quotient that does not fit its type.
    Divide,
    /// A switch to a number that is no live thread.
    BadThread,
    /// One more thread than a run can have.
    ThreadsFull,
    /// A step that the language gives no meaning.
    Undefined,
    /// The device of this number failed. The step was not made.
    DeviceFault(u16),
    /// Memory was wanting. The step was not made.
    OutOfMemory,
}

/// The answer that an end is: of the object of a denial its declaration, which stands in memory.
fn walk_of(memory: &Memory, end: End) -> Walk
    ensures { result ≡ walk_at memory.now end }
{
    match end {
        End::Exit(value) => Walk::Exit(value),
        End::Denied {
            compartment,
            object,
            offset,
            write,
        } => Walk::Denied {
            compartment,
            object: memory.declared_at(object),
            offset,
            write,
        },
        End::StackFull { thread, stack } => Walk::StackFull { thread, stack },
        End::Divide => Walk::Divide,
        End::BadThread => Walk::BadThread,
        End::ThreadsFull => Walk::ThreadsFull,
        End::Undefined => Walk::Undefined,
    }
}

/// A run of a program.
#[derive(Drop)]
pub struct Runner<'p> {
    source: Source<'p>,
    core: Core<'p>,
    bus: Bus,
    cost: u64,
    end: Option<End>,
    known: Option<StackUse>,
    ghost known_use: { IsKnownAt (program_of source.program.now) source.rights known (state_of core).spot } by { IsKnownAt-prop (program_of source.program.now) source.rights known (state_of core).spot },
}

// A function that has a condition puts no device of its own into a box, so its callers in other crates
// know it: hence the conditions that always hold.
impl<'p> Runner<'p> {
    /// A run of a program with what a configuration grants in it, before its first step.
    ///
    /// All that a run looks at stands in the grants: the compartment of each library, the readers and writers
    /// of each global, the mechanism and the pages of a stack. What the configuration has beyond them, the
    /// names, the entry functions that a compartment may call and its devices, was decided when the grants
    /// were made, so the configuration changes nothing here.
    pub fn new(
        alloc: Global,
        program: &'p TProgram,
        grants: Grants,
        _configuration: Config,
        bus: Bus,
    ) -> Result<Runner<'p>, AllocError>
        requires { ⊤ }
        ensures { IfOk result
            (λ r. run_of r.source r.core
            (bus_state (λ d. (⟦<dyn Device as Device>⟧ d.vtable).meaning d.value)
            r.bus.boxes r.bus.transcript.items)
            r.cost r.end
            ≡ first_run (program_of program.now) (rights_from grants)
            (bus_state (λ d. (⟦<dyn Device as Device>⟧ d.vtable).meaning d.value)
            bus.boxes bus.transcript.items)) }
    {
        let rights = rights_of(alloc, &grants)?;
        Runner::of_rights(alloc, program, rights, bus)
    }

    /// A run of a program with these rights, before its first step.
    pub fn of_rights(
        alloc: Global,
        program: &'p TProgram,
        rights: Rights,
        bus: Bus,
    ) -> Result<Runner<'p>, AllocError>
        requires { ⊤ }
        ensures { IfOk result
            (λ r. run_of r.source r.core
            (bus_state (λ d. (⟦<dyn Device as Device>⟧ d.vtable).meaning d.value)
            r.bus.boxes r.bus.transcript.items)
            r.cost r.end
            ≡ first_run (program_of program.now) rights
            (bus_state (λ d. (⟦<dyn Device as Device>⟧ d.vtable).meaning d.value)
            bus.boxes bus.transcript.items)) }
    {
        let source = source_of(alloc, program, rights)?;
        let core = first_core(alloc, &source)?;
        Ok(Runner {
            source,
            core,
            bus,
            cost: 0,
            end: None,
            known: None,
        })
    }

    /// Makes the next step. An end is answered again by each later call.
    pub fn step(&mut self) -> Walk
        requires { ⊤ }
        ensures walked { Walked
            (run_of self.old.source self.old.core
            (bus_state (λ d. (⟦<dyn Device as Device>⟧ d.vtable).meaning d.value)
            self.old.bus.boxes self.old.bus.transcript.items)
            self.old.cost self.old.end)
            result
            (run_of self.new.source self.new.core
            (bus_state (λ d. (⟦<dyn Device as Device>⟧ d.vtable).meaning d.value)
            self.new.bus.boxes self.new.bus.transcript.items)
            self.new.cost self.new.end) }
        ensures law { (first : List (Option Meaning))
            → BusLaw first
            (bus_state (λ d. (⟦<dyn Device as Device>⟧ d.vtable).meaning d.value)
            self.old.bus.boxes self.old.bus.transcript.items)
            → BusLaw first
            (bus_state (λ d. (⟦<dyn Device as Device>⟧ d.vtable).meaning d.value)
            self.new.bus.boxes self.new.bus.transcript.items) }
    {
        match self.end {
            Some(end) => walk_of(&self.core.memory, end),
            None => self.go_on(),
        }
    }

    /// Makes the next step of a run that has not ended.
    fn go_on(&mut self) -> Walk
        ensures made { MakesStep
            (run_of self.old.source self.old.core
            (bus_state (λ d. (⟦<dyn Device as Device>⟧ d.vtable).meaning d.value)
            self.old.bus.boxes self.old.bus.transcript.items)
            self.old.cost self.old.end)
            result
            (run_of self.new.source self.new.core
            (bus_state (λ d. (⟦<dyn Device as Device>⟧ d.vtable).meaning d.value)
            self.new.bus.boxes self.new.bus.transcript.items)
            self.new.cost self.new.end) }
        ensures law { (first : List (Option Meaning))
            → BusLaw first
            (bus_state (λ d. (⟦<dyn Device as Device>⟧ d.vtable).meaning d.value)
            self.old.bus.boxes self.old.bus.transcript.items)
            → BusLaw first
            (bus_state (λ d. (⟦<dyn Device as Device>⟧ d.vtable).meaning d.value)
            self.new.bus.boxes self.new.bus.transcript.items) }
    {
        match self.core.step(&self.source, &mut self.known) {
            Step::Went(extra) => {
                self.cost = more_cost(self.cost, extra);
                Walk::Went
            }
            Step::Stopped(end, extra) => {
                self.cost = more_cost(self.cost, extra);
                self.end = Some(end);
                walk_of(&self.core.memory, end)
            }
            Step::Loads { device, register } => self.load(device, register),
            Step::Stores {
                device,
                register,
                value,
            } => self.store(device, register, value),
            Step::OutOfMemory => Walk::OutOfMemory,
        }
    }

    /// Makes the load of a device's register that is the next step, or waits for the console's answer.
    fn load(&mut self, device: u16, register: u16) -> Walk
        requires { (state_of self.old.core).spot ≡ Does (Ask device register) (frames_of self.old.core.frames) }
        ensures made { MakesStep
            (run_of self.old.source self.old.core
            (bus_state (λ d. (⟦<dyn Device as Device>⟧ d.vtable).meaning d.value)
            self.old.bus.boxes self.old.bus.transcript.items)
            self.old.cost self.old.end)
            result
            (run_of self.new.source self.new.core
            (bus_state (λ d. (⟦<dyn Device as Device>⟧ d.vtable).meaning d.value)
            self.new.bus.boxes self.new.bus.transcript.items)
            self.new.cost self.new.end) }
        ensures law { (first : List (Option Meaning))
            → BusLaw first
            (bus_state (λ d. (⟦<dyn Device as Device>⟧ d.vtable).meaning d.value)
            self.old.bus.boxes self.old.bus.transcript.items)
            → BusLaw first
            (bus_state (λ d. (⟦<dyn Device as Device>⟧ d.vtable).meaning d.value)
            self.new.bus.boxes self.new.bus.transcript.items) }
    {
        if is_console(device, register) {
            return Walk::Input;
        }
        match self.bus.load(device, register) {
            Ok(value) => {
                let _ = self.core.give(Value::Number(value));
                self.cost = more_cost(self.cost, 0);
                Walk::Went
            }
            Err(error) => refused(error),
        }
    }

    /// Makes the store to a device's register that is the next step.
    fn store(&mut self, device: u16, register: u16, value: u64) -> Walk
        requires { (state_of self.old.core).spot ≡ Does (Tell device register (Number value)) (frames_of self.old.core.frames) }
        ensures made { MakesStep
            (run_of self.old.source self.old.core
            (bus_state (λ d. (⟦<dyn Device as Device>⟧ d.vtable).meaning d.value)
            self.old.bus.boxes self.old.bus.transcript.items)
            self.old.cost self.old.end)
            result
            (run_of self.new.source self.new.core
            (bus_state (λ d. (⟦<dyn Device as Device>⟧ d.vtable).meaning d.value)
            self.new.bus.boxes self.new.bus.transcript.items)
            self.new.cost self.new.end) }
        ensures law { (first : List (Option Meaning))
            → BusLaw first
            (bus_state (λ d. (⟦<dyn Device as Device>⟧ d.vtable).meaning d.value)
            self.old.bus.boxes self.old.bus.transcript.items)
            → BusLaw first
            (bus_state (λ d. (⟦<dyn Device as Device>⟧ d.vtable).meaning d.value)
            self.new.bus.boxes self.new.bus.transcript.items) }
    {
        if is_console(device, register) {
            return self.put(value);
        }
        match self.bus.store(device, register, value) {
            Ok(()) => {
                let _ = self.core.give(Value::Void);
                self.cost = more_cost(self.cost, 0);
                Walk::Went
            }
            Err(error) => refused(error),
        }
    }

    /// Makes the store to the console that is the next step.
    fn put(&mut self, value: u64) -> Walk
        requires { (state_of self.old.core).spot ≡ Does (Tell 0 0 (Number value)) (frames_of self.old.core.frames) }
        ensures made { MakesStep
            (run_of self.old.source self.old.core
            (bus_state (λ d. (⟦<dyn Device as Device>⟧ d.vtable).meaning d.value)
            self.old.bus.boxes self.old.bus.transcript.items)
            self.old.cost self.old.end)
            result
            (run_of self.new.source self.new.core
            (bus_state (λ d. (⟦<dyn Device as Device>⟧ d.vtable).meaning d.value)
            self.new.bus.boxes self.new.bus.transcript.items)
            self.new.cost self.new.end) }
        ensures law { (first : List (Option Meaning))
            → BusLaw first
            (bus_state (λ d. (⟦<dyn Device as Device>⟧ d.vtable).meaning d.value)
            self.old.bus.boxes self.old.bus.transcript.items)
            → BusLaw first
            (bus_state (λ d. (⟦<dyn Device as Device>⟧ d.vtable).meaning d.value)
            self.new.bus.boxes self.new.bus.transcript.items) }
    {
        let op = DeviceOp {
            device: 0,
            reg: 0,
            write: true,
            value,
        };
        match self.bus.note(op) {
            Ok(()) => {
                let _ = self.core.give(Value::Void);
                self.cost = more_cost(self.cost, 0);
                Walk::Output((value % 256) as u8)
            }
            Err(_) => Walk::OutOfMemory,
        }
    }

    /// Makes the step that waits for an answer of the console.
    pub fn give(&mut self, answer: u64) -> Walk
        requires { Waits
            (run_of self.old.source self.old.core
            (bus_state (λ d. (⟦<dyn Device as Device>⟧ d.vtable).meaning d.value)
            self.old.bus.boxes self.old.bus.transcript.items)
            self.old.cost self.old.end) }
        ensures gave { Gave
            (run_of self.old.source self.old.core
            (bus_state (λ d. (⟦<dyn Device as Device>⟧ d.vtable).meaning d.value)
            self.old.bus.boxes self.old.bus.transcript.items)
            self.old.cost self.old.end)
            answer result
            (run_of self.new.source self.new.core
            (bus_state (λ d. (⟦<dyn Device as Device>⟧ d.vtable).meaning d.value)
            self.new.bus.boxes self.new.bus.transcript.items)
            self.new.cost self.new.end) }
        ensures law { (first : List (Option Meaning))
            → BusLaw first
            (bus_state (λ d. (⟦<dyn Device as Device>⟧ d.vtable).meaning d.value)
            self.old.bus.boxes self.old.bus.transcript.items)
            → BusLaw first
            (bus_state (λ d. (⟦<dyn Device as Device>⟧ d.vtable).meaning d.value)
            self.new.bus.boxes self.new.bus.transcript.items) }
    {
        // The thread may stand on the way to the step still.
        match self.core.settle() {
            Some(_) => self.answer(answer),
            None => Walk::OutOfMemory,
        }
    }

    /// Makes the load of the console that is the next step.
    fn answer(&mut self, answer: u64) -> Walk
        requires { (state_of self.old.core).spot ≡ Does (Ask 0 0) (frames_of self.old.core.frames) }
        ensures gave { Gave
            (run_of self.old.source self.old.core
            (bus_state (λ d. (⟦<dyn Device as Device>⟧ d.vtable).meaning d.value)
            self.old.bus.boxes self.old.bus.transcript.items)
            self.old.cost self.old.end)
            answer result
            (run_of self.new.source self.new.core
            (bus_state (λ d. (⟦<dyn Device as Device>⟧ d.vtable).meaning d.value)
            self.new.bus.boxes self.new.bus.transcript.items)
            self.new.cost self.new.end) }
        ensures law { (first : List (Option Meaning))
            → BusLaw first
            (bus_state (λ d. (⟦<dyn Device as Device>⟧ d.vtable).meaning d.value)
            self.old.bus.boxes self.old.bus.transcript.items)
            → BusLaw first
            (bus_state (λ d. (⟦<dyn Device as Device>⟧ d.vtable).meaning d.value)
            self.new.bus.boxes self.new.bus.transcript.items) }
    {
        let op = DeviceOp {
            device: 0,
            reg: 0,
            write: false,
            value: answer,
        };
        match self.bus.note(op) {
            Ok(()) => {
                let _ = self.core.give(Value::Number(answer));
                self.cost = more_cost(self.cost, 0);
                Walk::Went
            }
            Err(_) => Walk::OutOfMemory,
        }
    }

    /// The cost of the steps made; it stays at 2^64 - 1 once it is there.
    pub fn cost(&self) -> u64
        ensures { result ≡ self.now.cost }
    {
        self.cost
    }

    /// How the run ended, if it has.
    pub fn end(&self) -> Option<End>
        ensures { result ≡ self.now.end }
    {
        self.end
    }

    /// Drops the box of a device, and answers whether it was there.
    pub fn unplug(&mut self, device: u16) -> bool
        requires { ⊤ }
        ensures there { IsTrue result ↔ IsSome (box_of device (map (option_map (λ d. (⟦<dyn Device as Device>⟧ d.vtable).meaning d.value)) self.old.bus.boxes)) }
        ensures boxes { map (option_map (λ d. (⟦<dyn Device as Device>⟧ d.vtable).meaning d.value))
            self.new.bus.boxes
            ≡ with_box device None
            (map (option_map (λ d. (⟦<dyn Device as Device>⟧ d.vtable).meaning d.value))
            self.old.bus.boxes) }
        ensures transcript { self.new.bus.transcript ≡ self.old.bus.transcript }
        ensures source { self.new.source ≡ self.old.source }
        ensures core { self.new.core ≡ self.old.core }
        ensures cost { self.new.cost ≡ self.old.cost }
        ensures end { self.new.end ≡ self.old.end }
        ensures law { (first : List (Option Meaning))
            → BusLaw first
            (bus_state (λ d. (⟦<dyn Device as Device>⟧ d.vtable).meaning d.value)
            self.old.bus.boxes self.old.bus.transcript.items)
            → BusLaw first
            (bus_state (λ d. (⟦<dyn Device as Device>⟧ d.vtable).meaning d.value)
            self.new.bus.boxes self.new.bus.transcript.items) }
    {
        self.bus.unplug(device)
    }

    /// The bus; all else is dropped.
    pub fn finish(self) -> Bus
        requires { ⊤ }
        ensures { result ≡ self.entry.bus }
    {
        let Runner { bus, .. } = self;
        bus
    }
}

/// Whether a register is the console's register 0, which has no device.
fn is_console(device: u16, register: u16) -> bool
    ensures { result ≡ is_console device register }
{
    (device == 0) & (register == 0)
}

/// A cost with that of one step more, which has so much beyond one unit.
fn more_cost(cost: u64, extra: u64) -> u64
    ensures { result ≡ cost_after cost extra }
{
    cost.saturating_add(extra).saturating_add(1)
}

/// What a step answers that the bus did not carry out.
fn refused(error: BusError) -> Walk
    ensures { result ≡ refusal error }
{
    match error {
        BusError::Device(device) => Walk::DeviceFault(device),
        BusError::OutOfMemory => Walk::OutOfMemory,
    }
}
