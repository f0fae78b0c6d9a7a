//! What the callers that wait take of a stack, as far as it is known from the steps before: so a call need not
//! look at each frame of its thread.

ghost use Rattle.std.specs.Prelude.{◌≡◌, ◌-◌, ◌^◌, min};
ghost use Rattle.fx_c_mean_model.specs.Programs.{program_of};
ghost use Rattle.fx_c_mean_model.specs.States.{Does};
ghost use Rattle.fx_c_mean_model.specs.Steps.{use_of, waiting_for};
ghost use Rattle.fx_c_mean_control.specs.Views.{act_of, call_of, frames_of, way_of};
ghost use Rattle.fx_c_mean_acts.specs.Cores.{state_of};
ghost use Rattle.fx_c_mean_acts.specs.Uses.{IsKnown, IsKnownAt, IsKnownBelow, IsKnownAfter};

use crate::calls::{caller_at, taken_by, used, waiting};
use crate::source::Source;
use crate::state::Core;
use fx_c_mean_control::code::stack_number;
use fx_c_mean_control::control::Frames;
use fx_c_mean_control::frames::{Act, Way};

/// What the callers that wait take of one of the current thread's stacks, in bytes.
#[derive(Clone, Copy)]
pub struct StackUse {
    pub stack: u8,
    pub bytes: u64,
}

/// The use of a stack by the callers that wait, at most 2^64 - 1: what is known, or the sum over them.
pub fn use_before(
    source: &Source<'_>,
    frames: &Frames<'_>,
    stack: u8,
    known: Option<StackUse>,
) -> u64
    requires { IsKnown (program_of source.now.program.now) source.now.rights known (frames_of frames.now) }
    ensures { result ≡ min (use_of (program_of source.now.program.now) source.now.rights stack (frames_of frames.now)) (2 ^ 64 - 1) }
{
    match known {
        Some(kept) => {
            if kept.stack == stack {
                kept.bytes
            } else {
                used(source, frames, stack)
            }
        }
        None => used(source, frames, stack),
    }
}

impl<'p> Core<'p> {
    /// What is known of the stack of a function that is to be called, summed where it was not.
    fn know(&self, source: &Source<'p>, f: u32, known: Option<StackUse>) -> Option<StackUse>
        requires { IsKnown (program_of source.now.program.now) source.now.rights known (frames_of self.now.frames) }
        ensures { IsKnown (program_of source.now.program.now) source.now.rights result (frames_of self.now.frames) }
    {
        let stack = stack_number(source.program, &source.rights, f);
        let bytes = use_before(source, &self.frames, stack, known);
        if bytes < u64::MAX {
            Some(StackUse { stack, bytes })
        } else {
            None
        }
    }

    /// What is known before a step is made.
    pub fn known_at(
        &self,
        source: &Source<'p>,
        act: Act<'p>,
        known: Option<StackUse>,
    ) -> Option<StackUse>
        requires spot { (state_of self.now).spot ≡ Does (act_of act) (frames_of self.now.frames) }
        requires known { IsKnownAt (program_of source.now.program.now) source.now.rights known (state_of self.now).spot }
        ensures { IsKnown (program_of source.now.program.now) source.now.rights result (frames_of self.now.frames) }
    {
        match act {
            Act::Stuck => None,
            Act::Enter { function, .. } => self.know(source, function, known),
            _ => known,
        }
    }

    /// What is known after a step, if the run goes on.
    pub fn known_after(
        &self,
        source: &Source<'p>,
        act: Act<'p>,
        known: Option<StackUse>,
    ) -> Option<StackUse>
        requires { IsKnown (program_of source.now.program.now) source.now.rights known (frames_of self.now.frames) }
        ensures { IsKnownAfter (program_of source.now.program.now) source.now.rights (call_of self.now.call) (act_of act.entry) (frames_of self.now.frames) result }
    {
        match act {
            Act::Enter { function, way, .. } => self.known_in_call(source, function, way, known),
            Act::Leave(_) | Act::FallOff => self.known_below(source, known),
            Act::Switch(_) => None,
            _ => known,
        }
    }

    /// What is known in a call, whose caller waits.
    fn known_in_call(
        &self,
        source: &Source<'p>,
        f: u32,
        way: Way,
        known: Option<StackUse>,
    ) -> Option<StackUse>
        requires { IsKnown (program_of source.now.program.now) source.now.rights known (frames_of self.now.frames) }
        ensures { IsKnown (program_of source.now.program.now) source.now.rights result
            (waiting_for (program_of source.now.program.now) source.now.rights (way_of way) f
            (call_of self.now.call) (frames_of self.now.frames)) }
    {
        let Some(crosses) = waiting(source, way, self.call.function, f) else {
            return known;
        };
        let before = known?;
        let bytes = before
            .bytes
            .checked_add(taken_by(source, before.stack, self.call, crosses))?;
        Some(StackUse {
            stack: before.stack,
            bytes,
        })
    }

    /// What is known once the nearest caller goes on.
    fn known_below(&self, source: &Source<'p>, known: Option<StackUse>) -> Option<StackUse>
        requires { IsKnown (program_of source.now.program.now) source.now.rights known (frames_of self.now.frames) }
        ensures { IsKnownBelow (program_of source.now.program.now) source.now.rights result (frames_of self.now.frames) }
    {
        let before = known?;
        for i in 0..self.frames.len() {
            if let Some((call, crosses)) = caller_at(&self.frames, i) {
                let bytes = before
                    .bytes
                    .checked_sub(taken_by(source, before.stack, call, crosses))?;
                return Some(StackUse {
                    stack: before.stack,
                    bytes,
                });
            }
        }
        None
    }
}
