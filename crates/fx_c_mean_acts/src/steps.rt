//! The next step.

ghost use Rattle.std.specs.Prelude.{◌≡◌, IfSome};
ghost use Rattle.fx_c_mean_model.specs.Programs.{program_of};
ghost use Rattle.fx_c_mean_model.specs.States.{Does};
ghost use Rattle.fx_c_mean_model.specs.Steps.{act_extra};
ghost use Rattle.fx_c_mean_control.specs.Views.{act_of, frames_of};
ghost use Rattle.fx_c_mean_acts.specs.Cores.{state_of};
ghost use Rattle.fx_c_mean_acts.specs.Stepping.{Steps, Tells};
ghost use Rattle.fx_c_mean_acts.specs.Uses.{IsKnownAt};

use crate::source::Source;
use crate::state::{Core, Moved};
use crate::uses::StackUse;
use fx_c_mean_blocks::value::Value;
use fx_c_mean_control::control::settle;
use fx_c_mean_control::frames::{Act, Now};
use fx_c_mean_model::end::End;

/// What the next step is, or came to. A step that was made has what it costs beyond one unit.
#[derive(Clone, Copy)]
pub enum Step {
    /// It was made, and the run goes on.
    Went(u64),
    /// It was made, and ended the run.
    Stopped(End, u64),
    /// It is a load of a device's register, which the caller makes.
    Loads {
        device: u16,
        register: u16,
    },
    /// It is a store of a value to a device's register, which the caller makes.
    Stores {
        device: u16,
        register: u16,
        value: u64,
    },
    /// Memory was wanting.
    OutOfMemory,
}

impl<'p> Core<'p> {
    /// Makes the next step, unless it is an operation on a device. What is known of a stack is kept.
    pub fn step(&mut self, source: &Source<'p>, known: &mut Option<StackUse>) -> Step
        requires { IsKnownAt (program_of source.now.program.now) source.now.rights known.old (state_of self.old).spot }
        ensures steps { Steps (program_of source.now.program.now) source.now.rights (state_of self.old) (frames_of self.new.frames) result (state_of self.new) }
        ensures known { IsKnownAt (program_of source.now.program.now) source.now.rights known.new (state_of self.new).spot }
    {
        match self.settle() {
            Some(act) => {
                let (step, after) = self.step_at(source, act, *known);
                *known = after;
                step
            }
            None => {
                *known = None;
                Step::OutOfMemory
            }
        }
    }

    /// The next step. None for want of memory.
    pub fn settle(&mut self) -> Option<Act<'p>>
        ensures same { state_of self.new ≡ state_of self.old }
        ensures act { IfSome result (λ a. (state_of self.new).spot ≡ Does (act_of a) (frames_of self.new.frames)) }
    {
        self.here = settle(&mut self.frames, self.here);
        match self.here {
            Now::Does(act) => Some(act),
            _ => None,
        }
    }

    /// Makes a step that is the next one, unless it is an operation on a device, with what is known after it.
    fn step_at(
        &mut self,
        source: &Source<'p>,
        act: Act<'p>,
        known: Option<StackUse>,
    ) -> (Step, Option<StackUse>)
        requires spot { (state_of self.old).spot ≡ Does (act_of act) (frames_of self.old.frames) }
        requires known { IsKnownAt (program_of source.now.program.now) source.now.rights known (state_of self.old).spot }
        ensures steps { Steps (program_of source.now.program.now) source.now.rights (state_of self.old) (frames_of self.new.frames) result.0 (state_of self.new) }
        ensures known { IsKnownAt (program_of source.now.program.now) source.now.rights result.1 (state_of self.new).spot }
    {
        match act {
            Act::Ask(device, register) => (Step::Loads { device, register }, known),
            Act::Tell(device, register, v) => (tell(device, register, v), known),
            _ => {
                let here = self.known_at(source, act, known);
                let after = self.known_after(source, act, here);
                let extra = self.extra(source, act);
                match self.perform(source, act, here) {
                    Moved::Went => (Step::Went(extra), after),
                    Moved::Stopped(end) => (Step::Stopped(end, extra), None),
                    Moved::OutOfMemory => (Step::OutOfMemory, None),
                }
            }
        }
    }

    /// What a step costs beyond one unit.
    fn extra(&self, source: &Source<'p>, act: Act<'p>) -> u64
        ensures { result ≡ act_extra (program_of source.now.program.now) (Does (act_of act.entry) (frames_of self.now.frames)) }
    {
        match act {
            Act::Enter { function, .. } => u64::from(source.frame(function) / 8),
            Act::Leave(_) | Act::FallOff => self.return_extra(),
            _ => 0,
        }
    }
}

/// A store to a device's register, or the end where there is no number to store.
fn tell(device: u16, register: u16, v: Value) -> Step
    ensures { Tells device register v result }
{
    match v {
        Value::Number(value) => Step::Stores {
            device,
            register,
            value,
        },
        Value::Void | Value::Null | Value::Address(_) => Step::Stopped(End::Undefined, 0),
    }
}
