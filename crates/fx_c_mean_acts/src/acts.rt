//! The steps.

ghost use Rattle.std.specs.Prelude.{◌≡◌, ◌+◌, IfOk, length};
ghost use Rattle.fx_c_ast.specs.CheckedTrees.{ty_tree, struct_types};
ghost use Rattle.fx_c_mean_blocks.specs.Operators.{binary_result};
ghost use Rattle.fx_c_mean_blocks.specs.Blocks.{moved};
ghost use Rattle.fx_c_mean_blocks.specs.declared.value.Value.TheVariants.{Number};
ghost use Rattle.fx_c_mean_model.specs.Programs.{program_of, size_in};
ghost use Rattle.fx_c_mean_model.specs.States.{Does};
ghost use Rattle.fx_c_mean_model.specs.Steps.{perform, gives, gives_result, member_of, place_of};
ghost use Rattle.fx_c_mean_control.specs.Views.{act_of, frames_of};
ghost use Rattle.fx_c_mean_acts.specs.Cores.{state_of, Comes, NeedsNoDevice, KeepsByAccess};
ghost use Rattle.fx_c_mean_acts.specs.Uses.{IsKnown};

use crate::calls::value_at_end;
use crate::jumps::judged;
use crate::source::Source;
use crate::state::{Core, Moved};
use crate::uses::StackUse;
use fx_c_ast::checked::Ty;
use fx_c_ast::operator::Binop;
use fx_c_mean_blocks::fault::Fault;
use fx_c_mean_blocks::operators::{combine_integers, unary};
use fx_c_mean_blocks::value::{Pointer, Value};
use fx_c_mean_control::frames::Act;
use fx_c_mean_model::end::End;
use std::alloc::AllocError;

impl<'p> Core<'p> {
    /// Makes a step that needs no device.
    pub fn perform(&mut self, source: &Source<'p>, act: Act<'p>, known: Option<StackUse>) -> Moved
        requires act { NeedsNoDevice act }
        requires known { IsKnown (program_of source.now.program.now) source.now.rights known (frames_of self.old.frames) }
        ensures comes { Comes
            (perform (program_of source.now.program.now) source.now.rights 0
            (state_of self.old) (Does (act_of act.entry) (frames_of self.old.frames)))
            result (state_of self.old) (state_of self.new) }
        ensures denied { KeepsByAccess act.entry result self.old.memory self.new.memory }
    {
        match act {
            Act::Push(v) => self.give(v),
            Act::SizeOf(ty) => self.give_size(source, ty),
            Act::GlobalAddress(n) => self.give_place(u64::from(n)),
            Act::LiteralAddress(n) => self.give_literal(source, n),
            Act::LocalAddress(n) => self.give_local(n),
            Act::Load(ty, v) => self.load(source, ty, v),
            Act::Apply(op, ty, v) => self.give_result(unary(op, ty, v)),
            Act::Convert(from, to, v) => {
                let converted = self.memory.convert(from, to, v);
                self.give_result(converted)
            }
            Act::Step(ty, member, v) => self.step_to_member(source, ty, member, v),
            Act::Combine(op, first, second, v, w) => self.combine(source, op, first, second, v, w),
            Act::Decide(op, b, v) => self.decide(op, b, v),
            Act::Judge(v) => self.give(judged(v)),
            Act::Enter {
                function,
                way,
                values,
            } => self.enter(source, function, way, values, known),
            Act::Spawn(function, v) => self.spawn(function, v),
            Act::Switch(v) => self.switch(v),
            Act::Own => self.give(Value::Number(u64::from(self.current))),
            Act::Store(ty, to, v) => self.store(source, ty, to, v),
            Act::ReadByte(ty, to, v, done) => self.read_byte(source, ty, to, v, done),
            Act::WriteByte(ty, to, v, done, cell) => self.write_byte(source, ty, to, v, done, cell),
            Act::Branch(v, s) => self.branch(v, s),
            Act::Test(v, l) => self.test(v, l),
            Act::JumpBack(l) => self.jump_back(l),
            Act::Break => self.leave_loop(),
            Act::Continue => self.go_on_in_loop(),
            Act::Leave(v) => self.leave(source, v),
            Act::FallOff => {
                let v = value_at_end(source, self.call.function);
                self.leave(source, v)
            }
            Act::Ask(..) | Act::Tell(..) | Act::Stuck => Moved::Stopped(End::Undefined),
        }
    }

    /// The size of a type.
    fn give_size(&mut self, source: &Source<'p>, ty: &Ty) -> Moved
        ensures { Comes (gives (state_of self.old) (frames_of self.old.frames) (Number (size_in (program_of source.now.program.now) (ty_tree ty.now)))) result (state_of self.old) (state_of self.new) }
    {
        match source.size(ty) {
            Ok(size) => self.give(Value::Number(u64::from(size))),
            Err(_) => Moved::OutOfMemory,
        }
    }

    /// The place of an object.
    fn give_place(&mut self, object: u64) -> Moved
        ensures { Comes (gives (state_of self.old) (frames_of self.old.frames) (place_of object 0)) result (state_of self.old) (state_of self.new) }
    {
        match u32::try_from(object) {
            Ok(object) => self.give(Value::Address(Pointer { object, offset: 0 })),
            Err(_) => Moved::OutOfMemory,
        }
    }

    /// The place of a literal: literals stand behind the globals.
    fn give_literal(&mut self, source: &Source<'p>, n: u32) -> Moved
        ensures { Comes (gives (state_of self.old) (frames_of self.old.frames) (place_of (length (program_of source.now.program.now).globals + n) 0)) result (state_of self.old) (state_of self.new) }
    {
        match (source.program.globals.len() as u64).checked_add(u64::from(n)) {
            Some(object) => self.give_place(object),
            None => Moved::OutOfMemory,
        }
    }

    /// The place of a parameter or local of the current call.
    fn give_local(&mut self, n: u16) -> Moved
        ensures { Comes (gives (state_of self.old) (frames_of self.old.frames) (place_of (self.old.call.base + n) 0)) result (state_of self.old) (state_of self.new) }
    {
        match (self.call.base as u64).checked_add(u64::from(n)) {
            Some(object) => self.give_place(object),
            None => Moved::OutOfMemory,
        }
    }

    /// The place of a member of a struct.
    fn step_to_member(&mut self, source: &Source<'p>, ty: &Ty, member: u32, v: Value) -> Moved
        ensures { Comes
            (gives_result (state_of self.old) (frames_of self.old.frames)
            (moved self.old.memory v
            (member_of (program_of source.now.program.now) (ty_tree ty.now) member)))
            result (state_of self.old) (state_of self.new) }
    {
        match source.member(ty, member) {
            Ok(offset) => {
                let moved = self.memory.moved(v, i128::from(offset));
                self.give_result(moved)
            }
            Err(_) => Moved::OutOfMemory,
        }
    }

    /// A binary operator.
    fn combine(
        &mut self,
        source: &Source<'p>,
        op: Binop,
        first: &Ty,
        second: &Ty,
        v: Value,
        w: Value,
    ) -> Moved
        ensures { Comes
            (gives_result (state_of self.old) (frames_of self.old.frames)
            (binary_result (struct_types source.now.program.now.structs) self.old.memory
            op (ty_tree first.now) (ty_tree second.now) v w))
            result (state_of self.old) (state_of self.new) }
    {
        match self.combined(source, op, first, second, v, w) {
            Ok(result_of) => self.give_result(result_of),
            Err(_) => Moved::OutOfMemory,
        }
    }

    fn combined(
        &self,
        source: &Source<'p>,
        op: Binop,
        first: &Ty,
        second: &Ty,
        v: Value,
        w: Value,
    ) -> Result<Result<Value, Fault>, AllocError>
        ensures { IfOk result (λ x. x ≡ binary_result (struct_types source.now.program.now.structs) self.now.memory op (ty_tree first.now) (ty_tree second.now) v w) }
    {
        let memory = &self.memory;
        match (first, second) {
            (Ty::Int(i), Ty::Int(_)) => Ok(combine_integers(op, *i, v, w)),
            (Ty::Ptr(of), Ty::Int(i)) => {
                let bytes = source.size(of)?;
                Ok(memory.move_pointer(op, bytes, *i, v, w))
            }
            (Ty::Int(i), Ty::Ptr(of)) => {
                let bytes = source.size(of)?;
                Ok(memory.move_by(op, bytes, *i, v, w))
            }
            (Ty::Ptr(of), Ty::Ptr(_)) => {
                let bytes = source.size(of)?;
                Ok(memory.combine_pointers(op, bytes, v, w))
            }
            _ => Ok(Err(Fault::Undefined)),
        }
    }
}
