//! Steps that access memory.

ghost use Rattle.std.specs.Prelude.{◌≡◌, ◌∷◌, ◌+◌, [], List, IfSome};
ghost use Rattle.fx_c_ast.specs.CheckedTrees.{ty_tree};
ghost use Rattle.fx_c_mean_blocks.specs.Blocks.{cells_of, width};
ghost use Rattle.fx_c_mean_model.specs.Programs.{program_of};
ghost use Rattle.fx_c_mean_model.specs.States.{follow, Frame as MeantFrame};
ghost use Rattle.fx_c_mean_model.specs.Steps.{loads, stores, reads_byte, next_byte as follows_byte, further as goes_on};
ghost use Rattle.fx_c_mean_control.specs.Views.{frames_of, spot_of};
ghost use Rattle.fx_c_mean_acts.specs.Cores.{state_of, denied, Comes, KeepsWhereDenied};

use crate::source::Source;
use crate::state::{Core, Moved, end_of};
use fx_c_ast::checked::Ty;
use fx_c_mean_blocks::block::Place;
use fx_c_mean_blocks::cells::width_of_type;
use fx_c_mean_blocks::memory::{object_of, offset_of};
use fx_c_mean_blocks::value::{Cell, Pointer, Value};
use fx_c_mean_control::code::{home_of, is_granted};
use fx_c_mean_control::frames::{Act, Now};
use fx_c_mean_model::end::End;

impl<'p> Core<'p> {
    /// The end of the run where the compartment that acts is not granted an access.
    fn denial(&self, source: &Source<'p>, v: Value, write: bool, place: Place) -> Option<End>
        ensures { result ≡ denied (program_of source.now.program.now) source.now.rights (state_of self.now) v write place }
    {
        let compartment = home_of(source.program, &source.rights, self.call.function);
        if is_granted(source.program, &source.rights, compartment, place, write) {
            return None;
        }
        Some(End::Denied {
            compartment,
            object: object_of(v),
            offset: u64::from(offset_of(v)),
            write,
        })
    }

    /// A load of a type.
    pub fn load(&mut self, source: &Source<'p>, ty: &Ty, v: Value) -> Moved
        ensures comes { Comes
            (loads (program_of source.now.program.now) source.now.rights (state_of self.old)
            (frames_of self.old.frames) (ty_tree ty.now) v)
            result (state_of self.old) (state_of self.new) }
        ensures denied { KeepsWhereDenied result self.old.memory self.new.memory }
    {
        match self.memory.load(ty, v) {
            Ok((w, place)) => match self.denial(source, v, false, place) {
                Some(end) => Moved::Stopped(end),
                None => self.give(w),
            },
            Err(fault) => Moved::Stopped(end_of(fault)),
        }
    }

    /// A store of a value of a type.
    pub fn store(&mut self, source: &Source<'p>, ty: &Ty, to: Value, v: Value) -> Moved
        ensures comes { Comes
            (stores (program_of source.now.program.now) source.now.rights (state_of self.old)
            to (width (ty_tree ty.now)) (cells_of (width (ty_tree ty.now)) v)
            (follow (frames_of self.old.frames)))
            result (state_of self.old) (state_of self.new) }
        ensures denied { KeepsWhereDenied result self.old.memory self.new.memory }
    {
        let n = width_of_type(ty);
        match self.memory.writable(to, n) {
            Ok(place) => match self.denial(source, to, true, place) {
                Some(end) => Moved::Stopped(end),
                None => {
                    self.memory.store(to, n, v);
                    self.here = Now::Follows;
                    Moved::Went
                }
            },
            Err(fault) => Moved::Stopped(end_of(fault)),
        }
    }

    /// The read of a byte of a struct copy.
    pub fn read_byte(
        &mut self,
        source: &Source<'p>,
        ty: &'p Ty,
        to: Value,
        v: Value,
        done: u32,
    ) -> Moved
        ensures comes { Comes
            (reads_byte (program_of source.now.program.now) source.now.rights
            (state_of self.old) (frames_of self.old.frames) (ty_tree ty.now) to v done)
            result (state_of self.old) (state_of self.new) }
        ensures denied { KeepsWhereDenied result self.old.memory self.new.memory }
    {
        let Some(from) = further(v, done) else {
            return Moved::OutOfMemory;
        };
        match self.memory.read_byte(from) {
            Ok((cell, place)) => match self.denial(source, from, false, place) {
                Some(end) => Moved::Stopped(end),
                None => {
                    self.here = Now::Does(Act::WriteByte(ty, to, v, done, cell));
                    Moved::Went
                }
            },
            Err(fault) => Moved::Stopped(end_of(fault)),
        }
    }

    /// The write of a byte of a struct copy.
    pub fn write_byte(
        &mut self,
        source: &Source<'p>,
        ty: &'p Ty,
        to: Value,
        v: Value,
        done: u32,
        cell: Cell,
    ) -> Moved
        ensures comes { Comes
            (stores (program_of source.now.program.now) source.now.rights (state_of self.old)
            (goes_on to done) 1 (cell ∷ [])
            (follows_byte (program_of source.now.program.now) (frames_of self.old.frames)
            (ty_tree ty.now) to v (done + 1)))
            result (state_of self.old) (state_of self.new) }
        ensures denied { KeepsWhereDenied result self.old.memory self.new.memory }
    {
        let Some(target) = further(to, done) else {
            return Moved::OutOfMemory;
        };
        let Some(next) = next_byte(source, ty, to, v, done) else {
            return Moved::OutOfMemory;
        };
        match self.memory.writable(target, 1) {
            Ok(place) => match self.denial(source, target, true, place) {
                Some(end) => Moved::Stopped(end),
                None => {
                    self.memory.store_byte(target, cell);
                    self.here = next;
                    Moved::Went
                }
            },
            Err(fault) => Moved::Stopped(end_of(fault)),
        }
    }
}

/// The next byte of a struct copy, or what follows it; None for want of memory.
fn next_byte<'p>(source: &Source<'p>, ty: &'p Ty, to: Value, v: Value, done: u32) -> Option<Now<'p>>
    ensures { IfSome result (λ now. (rest : List MeantFrame) → spot_of now rest ≡ follows_byte (program_of source.now.program.now) rest (ty_tree ty.now) to v (done + 1)) }
{
    match source.size(ty) {
        Ok(size) => {
            let next = done.checked_add(1)?;
            if next < size {
                Some(Now::Does(Act::ReadByte(ty, to, v, next)))
            } else {
                Some(Now::Follows)
            }
        }
        Err(_) => None,
    }
}

/// So many bytes on in an object, where the offset is below 2^32.
fn further(v: Value, n: u32) -> Option<Value>
    ensures { IfSome result (λ w. w ≡ goes_on v n) }
{
    match v {
        Value::Address(p) => match p.offset.checked_add(n) {
            Some(offset) => Some(Value::Address(Pointer {
                object: p.object,
                offset,
            })),
            None => None,
        },
        Value::Void | Value::Number(_) | Value::Null => Some(v),
    }
}
