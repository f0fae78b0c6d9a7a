//! Steps of threads.

ghost use Rattle.std.specs.Prelude.{◌≡◌, ◌≢◌, ◌∷◌, ◌++◌, ◌<◌, [], Some, MatchResult, slice_get, slice_set, vec_len};
ghost use Rattle.fx_c_mean_model.specs.Steps.{spawn, switch, resume};
ghost use Rattle.fx_c_mean_control.specs.Views.{frames_of, values_of};
ghost use Rattle.fx_c_mean_acts.specs.Cores.{state_of, thread_of, Comes};

use crate::state::{Core, Moved, Thread};
use fx_c_mean_blocks::value::Value;
use fx_c_mean_control::frames::{ARGUMENTS, Act, Call, Now, Values, Way};
use fx_c_mean_control::stack::Stack;
use fx_c_mean_model::end::End;
use std::alloc::AllocError;
use std::mem;

/// The most threads of a run.
const THREADS: usize = 16;

/// One value.
fn one(v: Value) -> Values
    ensures { values_of result ≡ v ∷ [] }
{
    let mut items = [Value::Void; ARGUMENTS];
    items[0] = v;
    Values { items, len: 1 }
}

/// Adds a thread.
fn add<'p>(threads: &mut Vec<Thread<'p>>, thread: Thread<'p>) -> Result<(), AllocError>
    ensures { MatchResult result (λ _. threads.new.items ≡ threads.old.items ++ thread.entry ∷ []) (λ _. threads.new.items ≡ threads.old.items) }
{
    threads.push(thread)?;
    Ok(())
}

/// Puts a thread in place of another, where there is one.
fn put<'p>(threads: &mut Vec<Thread<'p>>, at: usize, thread: Thread<'p>)
    ensures { threads.new.items ≡ slice_set threads.old.items at thread.entry }
{
    if at < threads.len() {
        threads[at] = thread;
    }
}

/// The thread at a place, which runs from now on.
fn start<'p>(threads: &mut Vec<Thread<'p>>, at: usize) -> Thread<'p>
    requires { at < vec_len threads.old }
    ensures value { slice_get threads.old.items at ≡ Some result }
    ensures after { threads.new.items ≡ slice_set threads.old.items at Thread.Running }
{
    mem::replace(&mut threads[at], Thread::Running)
}

impl<'p> Core<'p> {
    /// Makes a thread of a function.
    pub fn spawn(&mut self, function: u32, v: Value) -> Moved
        ensures { Comes (spawn (state_of self.old) (frames_of self.old.frames) function v) result (state_of self.old) (state_of self.new) }
    {
        let number = self.threads.len();
        if number >= THREADS {
            return Moved::Stopped(End::ThreadsFull);
        }
        let fresh = Thread::Waiting {
            now: Now::Does(Act::Enter {
                function,
                way: Way::First,
                values: one(v),
            }),
            frames: Stack::new(self.alloc),
            call: Call { function, base: 0 },
        };
        match add(&mut self.threads, fresh) {
            Ok(()) => self.give(Value::Number(number as u64)),
            Err(_) => Moved::OutOfMemory,
        }
    }

    /// Passes control to a thread.
    pub fn switch(&mut self, v: Value) -> Moved
        ensures { Comes (switch (state_of self.old) (frames_of self.old.frames) v) result (state_of self.old) (state_of self.new) }
    {
        let Value::Number(t) = v else {
            return Moved::Stopped(End::Undefined);
        };
        if t == u64::from(self.current) {
            return self.give(Value::Void);
        }
        if t >= self.threads.len() as u64 {
            return Moved::Stopped(End::BadThread);
        }
        let Ok(t) = u8::try_from(t) else {
            return Moved::OutOfMemory;
        };
        let left = Thread::Waiting {
            now: Now::Gives(Value::Void),
            frames: mem::replace(&mut self.frames, Stack::new(self.alloc)),
            call: self.call,
        };
        self.wake(left, t)
    }

    /// Lets another thread go on; the running one is left as told.
    pub fn wake(&mut self, left: Thread<'p>, t: u8) -> Moved
        requires { t ≢ self.old.current }
        ensures comes { Comes (resume (state_of self.old) (thread_of left.entry) t (slice_get (state_of self.old).threads t)) result (state_of self.old) (state_of self.new) }
        ensures done { result ≢ Moved.OutOfMemory }
    {
        put(&mut self.threads, usize::from(self.current), left);
        let place = usize::from(t);
        if place >= self.threads.len() {
            return Moved::Stopped(End::BadThread);
        }
        match start(&mut self.threads, place) {
            Thread::Waiting { now, frames, call } => {
                let _gone = Thread::Waiting {
                    now: self.here,
                    frames: mem::replace(&mut self.frames, frames),
                    call: self.call,
                };
                self.current = t;
                self.here = now;
                self.call = call;
                Moved::Went
            }
            Thread::Running | Thread::Ended => Moved::Stopped(End::BadThread),
        }
    }
}
