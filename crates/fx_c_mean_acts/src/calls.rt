//! Calls and returns.

ghost use Rattle.std.specs.Prelude.{◌≡◌, ◌≢◌, ◌-◌, ◌^◌, ◌++◌, ◌∷◌, [], length, min, take, slice_get, MatchOption, MatchResult, IfOk};
ghost use Rattle.fx_c_ast.specs.CheckedTrees.{ty_tree};
ghost use Rattle.fx_c_mean_blocks.specs.Blocks.{cells_of};
ghost use Rattle.fx_c_mean_blocks.specs.declared.value.Value.TheVariants.{Void};
ghost use Rattle.fx_c_mean_model.specs.Programs.{program_of, function_at, call_objects};
ghost use Rattle.fx_c_mean_model.specs.States.{unwind, Caller};
ghost use Rattle.fx_c_mean_model.specs.Steps.{taken, use_of, has_room, waiting_for, enter, leave, ended, return_extra, value_at_end as end_value, exit_value};
ghost use Rattle.fx_c_mean_control.specs.Views.{call_of, frames_of, values_of, way_of};
ghost use Rattle.fx_c_mean_acts.specs.Cores.{state_of, waits_for, with_caller, caller_in, taken_of, cells_for, local_object, Comes};
ghost use Rattle.fx_c_mean_acts.specs.Uses.{IsKnown};

use crate::source::Source;
use crate::state::{Core, Moved, Thread};
use crate::uses::{StackUse, use_before};
use fx_c_ast::checked::{TLocal, Ty};
use fx_c_ast::operator::IntType;
use fx_c_mean_blocks::block::{Cells, Object, Place};
use fx_c_mean_blocks::integers::convert;
use fx_c_mean_blocks::memory::Memory;
use fx_c_mean_blocks::value::{Cell, Value};
use fx_c_mean_control::code::{home_of, stack_bytes, stack_number};
use fx_c_mean_control::control::Frames;
use fx_c_mean_control::frames::{Call, Frame, Now, Values, Way};
use fx_c_mean_model::end::End;
use std::alloc::{AllocError, Global};

/// What a waiting caller takes of a stack beside its frame, where a gate between compartments waits.
const GATE_BYTES: u64 = 16;

/// The bytes of a stack that stay free.
const SPARE_BYTES: u64 = 96;

/// The most bytes of a parameter.
const PARAMETER_BYTES: u32 = 8;

/// The cells of a parameter or local: the value's, or zeros.
fn first_cells(alloc: Global, bytes: u32, value: Option<Value>) -> Result<Cells, AllocError>
    ensures { IfOk result (λ c. c ≡ cells_for bytes value) }
{
    let Some(v) = value else {
        let cells = vec![in alloc; Cell::Byte(0); bytes as usize]?;
        return Ok(Cells::from_vec(cells));
    };
    match v {
        Value::Void => Ok(Cells::from_vec(Vec::new(alloc))),
        _ => value_cells(alloc, bytes, v),
    }
}

/// The cells of a value. A parameter of more than eight bytes, which no program has, is want of memory.
fn value_cells(alloc: Global, bytes: u32, v: Value) -> Result<Cells, AllocError>
    ensures { IfOk result (λ c. v ≢ Void → c ≡ cells_of bytes v) }
{
    if bytes > PARAMETER_BYTES {
        return Err(AllocError);
    }
    let mut cells = Cells::from_vec(vec![in alloc; Cell::Byte(0); bytes as usize]?);
    cells.set_value(0, bytes, v);
    Ok(cells)
}

/// What waits for a call to return, where somebody does: the caller, with whether a gate between
/// compartments was called.
pub fn waiting(source: &Source<'_>, way: Way, caller: u32, f: u32) -> Option<bool>
    ensures { result ≡ waits_for (program_of source.now.program.now) source.now.rights (way_of way) caller f }
{
    match way {
        Way::First => None,
        Way::Plainly => Some(false),
        Way::ByGate => {
            let from = home_of(source.program, &source.rights, caller);
            Some(from != home_of(source.program, &source.rights, f))
        }
    }
}

/// What a waiting caller takes of a stack.
pub fn taken_by(source: &Source<'_>, stack: u8, call: Call, crosses: bool) -> u64
    ensures { result ≡ taken (program_of source.now.program.now) source.now.rights stack (call_of call) crosses }
{
    if stack_number(source.program, &source.rights, call.function) != stack {
        return 0;
    }
    let gate = if crosses { GATE_BYTES } else { 0 };
    u64::from(source.frame(call.function)) + gate
}

/// The caller that a frame is, with whether it waits for a gate between compartments.
pub fn caller_at(frames: &Frames<'_>, place: usize) -> Option<(Call, bool)>
    ensures { result ≡ caller_in (slice_get frames.now place) }
{
    match frames.at(place) {
        Some(Frame::Caller(call, crosses)) => Some((call, crosses)),
        _ => None,
    }
}

/// What a frame takes of a stack: something where it is a caller that waits.
fn taken_at(source: &Source<'_>, frames: &Frames<'_>, place: usize, stack: u8) -> u64
    ensures { result ≡ taken_of (program_of source.now.program.now) source.now.rights stack (caller_in (slice_get frames.now place)) }
{
    match caller_at(frames, place) {
        Some((call, crosses)) => taken_by(source, stack, call, crosses),
        None => 0,
    }
}

/// The use of a stack by the callers that wait, at most 2^64 - 1.
pub fn used(source: &Source<'_>, frames: &Frames<'_>, stack: u8) -> u64
    ensures { result ≡ min (use_of (program_of source.now.program.now) source.now.rights stack (frames_of frames.now)) (2 ^ 64 - 1) }
{
    let mut sum: u64 = 0;
    for i in 0..frames.len() {
        sum = sum.saturating_add(taken_at(source, frames, i, stack));
    }
    sum
}

impl<'p> Core<'p> {
    /// Whether a function's frame fits its stack.
    fn has_room(
        &self,
        source: &Source<'p>,
        f: u32,
        waiting: Option<bool>,
        known: Option<StackUse>,
    ) -> bool
        requires { IsKnown (program_of source.now.program.now) source.now.rights known (frames_of self.now.frames) }
        ensures { result ≡ has_room (program_of source.now.program.now) source.now.rights f (with_caller waiting (call_of self.now.call) (frames_of self.now.frames)) }
    {
        let stack = stack_number(source.program, &source.rights, f);
        let caller = match waiting {
            Some(crosses) => taken_by(source, stack, self.call, crosses),
            None => 0,
        };
        let needed = use_before(source, &self.frames, stack, known)
            .saturating_add(caller)
            .saturating_add(u64::from(source.frame(f)))
            .saturating_add(SPARE_BYTES);
        needed <= u64::from(stack_bytes(&source.rights))
    }

    /// A call of a function.
    pub fn enter(
        &mut self,
        source: &Source<'p>,
        f: u32,
        way: Way,
        values: Values,
        known: Option<StackUse>,
    ) -> Moved
        requires { IsKnown (program_of source.now.program.now) source.now.rights known (frames_of self.old.frames) }
        ensures { Comes
            (enter (program_of source.now.program.now) source.now.rights (state_of self.old) f
            (values_of values)
            (waiting_for (program_of source.now.program.now) source.now.rights
            (way_of way) f (call_of self.old.call) (frames_of self.old.frames)))
            result (state_of self.old) (state_of self.new) }
    {
        let waiting = waiting(source, way, self.call.function, f);
        if !self.has_room(source, f, waiting, known) {
            return Moved::Stopped(End::StackFull {
                thread: self.current,
                stack: stack_number(source.program, &source.rights, f),
            });
        }
        let base = self.memory.len();
        if make_objects(&mut self.memory, self.alloc, source, f, &values).is_err() {
            return Moved::OutOfMemory;
        }
        if self.wait(waiting).is_err() {
            self.memory.truncate(base);
            return Moved::OutOfMemory;
        }
        self.call = Call { function: f, base };
        self.here = Now::BeginsAll(source.body(f));
        Moved::Went
    }

    /// The caller waits.
    fn wait(&mut self, waiting: Option<bool>) -> Result<(), AllocError>
        ensures frames { MatchResult result (λ _. frames_of self.new.frames ≡ with_caller waiting (call_of self.old.call) (frames_of self.old.frames)) (λ _. self.new.frames ≡ self.old.frames) }
        ensures memory { self.new.memory ≡ self.old.memory }
        ensures threads { self.new.threads ≡ self.old.threads }
        ensures current { self.new.current ≡ self.old.current }
        ensures call { self.new.call ≡ self.old.call }
        ensures here { self.new.here ≡ self.old.here }
    {
        match waiting {
            Some(crosses) => self.frames.push(Frame::Caller(self.call, crosses)),
            None => Ok(()),
        }
    }

    /// What a return costs beyond one unit: 2 where it ends a gate call between compartments.
    pub fn return_extra(&self) -> u64
        ensures { result ≡ return_extra (unwind (frames_of self.now.frames)) }
    {
        for i in 0..self.frames.len() {
            if let Some((_, crosses)) = caller_at(&self.frames, i) {
                return if crosses { 2 } else { 0 };
            }
        }
        0
    }

    /// A return with a value.
    pub fn leave(&mut self, source: &Source<'p>, v: Value) -> Moved
        ensures { Comes (leave (program_of source.now.program.now) (state_of self.old) v (frames_of self.old.frames)) result (state_of self.old) (state_of self.new) }
    {
        let count = source.variables(self.call.function).len();
        self.memory.kill(self.call.base, count);
        match take_caller(&mut self.frames) {
            Some((call, _)) => {
                self.call = call;
                self.give(v)
            }
            None => self.end(source, v),
        }
    }

    /// A thread's first function returned: the run ends, or thread 0 goes on.
    fn end(&mut self, source: &Source<'p>, v: Value) -> Moved
        ensures comes { Comes (ended (program_of source.now.program.now) (state_of self.old) v) result (state_of self.old) (state_of self.new) }
        ensures done { result ≢ Moved.OutOfMemory }
    {
        if self.current == 0 {
            return Moved::Stopped(End::Exit(exit_of(source, self.call.function, v)));
        }
        self.wake(Thread::Ended, 0)
    }
}

/// Takes the nearest caller that waits, and drops the frames above it.
fn take_caller(frames: &mut Frames<'_>) -> Option<(Call, bool)>
    ensures { MatchOption result (unwind (frames_of frames.old) ≡ []) (λ c. unwind (frames_of frames.old) ≡ Caller (call_of c.0) c.1 ∷ frames_of frames.new) }
{
    while let Some(frame) = frames.pop() {
        if let Frame::Caller(call, crosses) = frame {
            return Some((call, crosses));
        }
    }
    None
}

/// The objects of a call: a parameter has its argument's value, every other local is zero.
fn make_objects(
    memory: &mut Memory,
    alloc: Global,
    source: &Source<'_>,
    f: u32,
    values: &Values,
) -> Result<(), AllocError>
    ensures { MatchResult result
        (λ _. memory.new
        ≡ memory.old
        ++ call_objects (program_of source.now.program.now) f 0
        (function_at (program_of source.now.program.now) f).variables
        (values_of values.now))
        (λ _. memory.new ≡ memory.old) }
{
    let base = memory.len();
    let made = add_objects(memory, alloc, source, f, values);
    if made.is_err() {
        memory.truncate(base);
    }
    made
}

fn add_objects(
    memory: &mut Memory,
    alloc: Global,
    source: &Source<'_>,
    f: u32,
    values: &Values,
) -> Result<(), AllocError>
    ensures { MatchResult result
        (λ _. memory.new
        ≡ memory.old
        ++ call_objects (program_of source.now.program.now) f 0
        (function_at (program_of source.now.program.now) f).variables
        (values_of values.now))
        (λ _. take (length memory.old) memory.new ≡ memory.old) }
{
    let mut local: u16 = 0;
    for variable in source.variables(f) {
        let value = value_at(values, local);
        make_object(
            memory,
            alloc,
            source,
            Place::Local { function: f, local },
            variable,
            value,
        )?;
        local = local.checked_add(1).ok_or(AllocError)?;
    }
    Ok(())
}

/// The value of an argument, where there is one.
fn value_at(values: &Values, n: u16) -> Option<Value>
    ensures { result ≡ slice_get (values_of values.now) n }
{
    if usize::from(n) < values.len {
        values.items.get(usize::from(n)).copied()
    } else {
        None
    }
}

fn make_object(
    memory: &mut Memory,
    alloc: Global,
    source: &Source<'_>,
    place: Place,
    variable: &TLocal,
    value: Option<Value>,
) -> Result<(), AllocError>
    ensures { MatchResult result (λ _. memory.new ≡ memory.old ++ local_object (program_of source.now.program.now) place (ty_tree variable.now.ty) value ∷ []) (λ _. memory.new ≡ memory.old) }
{
    let size = source.size(&variable.ty)?;
    let cells = first_cells(alloc, size, value)?;
    memory.push(Object {
        place,
        size,
        live: true,
        cells,
    })
}

/// The value of a return that names none.
pub fn value_at_end(source: &Source<'_>, f: u32) -> Value
    ensures { result ≡ end_value (function_at (program_of source.now.program.now) f).gives }
{
    match source.result(f) {
        Some(Ty::Int(_)) => Value::Number(0),
        Some(Ty::Ptr(_)) => Value::Null,
        _ => Value::Void,
    }
}

/// The value of `main`, extended to 64 bits, as a signed number.
fn exit_of(source: &Source<'_>, f: u32, v: Value) -> i64
    ensures { result ≡ exit_value (function_at (program_of source.now.program.now) f).gives v }
{
    match (source.result(f), v) {
        (Some(Ty::Int(i)), Value::Number(w)) => convert(*i, IntType::Long, w).cast_signed(),
        _ => 0,
    }
}
