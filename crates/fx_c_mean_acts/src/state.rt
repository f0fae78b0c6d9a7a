//! The state of a run, and steps that give a value.

ghost use Rattle.std.specs.Prelude.{◌≡◌};
ghost use Rattle.fx_c_mean_model.specs.Steps.{gives, gives_result, end_of as ends};
ghost use Rattle.fx_c_mean_control.specs.Views.{frames_of};
ghost use Rattle.fx_c_mean_acts.specs.Cores.{state_of, Comes};

use fx_c_mean_blocks::fault::Fault;
use fx_c_mean_blocks::memory::Memory;
use fx_c_mean_blocks::value::Value;
use fx_c_mean_control::control::Frames;
use fx_c_mean_control::frames::{Call, Now};
use fx_c_mean_model::end::End;
use std::alloc::Global;

/// A thread that was made: it runs now, it waits, or it has ended.
#[derive(Drop)]
pub enum Thread<'p> {
    Running,
    Waiting {
        now: Now<'p>,
        frames: Frames<'p>,
        call: Call,
    },
    Ended,
}

/// The state of a run. `here` and `frames` are those of the current thread.
#[derive(Drop)]
pub struct Core<'p> {
    pub alloc: Global,
    pub memory: Memory,
    pub threads: Vec<Thread<'p>>,
    pub current: u8,
    pub call: Call,
    pub here: Now<'p>,
    pub frames: Frames<'p>,
}

/// What a step came to.
#[derive(Clone, Copy)]
pub enum Moved {
    Went,
    Stopped(End),
    OutOfMemory,
}

/// The end that a fault is.
pub fn end_of(fault: Fault) -> End
    ensures { result ≡ ends fault }
{
    match fault {
        Fault::Divide => End::Divide,
        Fault::Undefined => End::Undefined,
    }
}

impl<'p> Core<'p> {
    /// The step gives a value.
    pub fn give(&mut self, v: Value) -> Moved
        ensures comes { Comes (gives (state_of self.old) (frames_of self.old.frames) v) result (state_of self.old) (state_of self.new) }
        ensures done { result ≡ Moved.Went }
    {
        self.here = Now::Gives(v);
        Moved::Went
    }

    /// The step gives a value, or ends the run.
    pub fn give_result(&mut self, result_of: Result<Value, Fault>) -> Moved
        ensures { Comes (gives_result (state_of self.old) (frames_of self.old.frames) result_of) result (state_of self.old) (state_of self.new) }
    {
        match result_of {
            Ok(v) => self.give(v),
            Err(fault) => Moved::Stopped(end_of(fault)),
        }
    }
}
