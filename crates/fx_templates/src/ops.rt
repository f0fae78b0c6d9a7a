//! The machine code of each op.

ghost use Rattle.std.specs.Prelude.{◌≡◌, ◌≤◌, ◌+◌, ◌-◌, ◌++◌, OnOk, length, slice_index};
ghost use Rattle.fx_match_rel.specs.Frames.{IsFrame};
ghost use Rattle.fx_c_lin.specs.Ops.{op_of};
ghost use Rattle.fx_templates_core.specs.Memory.{push_number, push_address};
ghost use Rattle.fx_templates_core.specs.Memory.{push_variable, store_variable};
ghost use Rattle.fx_templates.specs.Variables.{variable_at, operand_of};
ghost use Rattle.fx_templates.specs.Ops.{is_due, dropped, binary_with, pointers_with};
ghost use Rattle.fx_templates.specs.Ops.{compare_jump_with, index_with, code_of, IsNoGate};

use crate::variables::{operand_of, operator_width, variable_at, width_for};
use fx_c_ast::operator::{Binop, IntType};
use fx_c_lin::op::{Compared, Op, Right};
use fx_match_rel::frames::{is_signed, width_of};
use fx_match_rel::{Addresses, FrameTable, Scalar};
use fx_templates_core::calls::{put_return, put_spawn, put_switch};
use fx_templates_core::copying::put_copied;
use fx_templates_core::cores::{
    condition, put_binary, put_compare_jump, put_compared, put_converted, put_jump_zero, put_unary,
};
use fx_templates_core::functions::put_called;
use fx_templates_core::memory::{
    put_device_load, put_device_store, put_load_through, put_push_address, put_push_number,
    put_push_thread, put_push_variable, put_store_through, put_store_variable,
};
use fx_templates_core::operands::{Operand, below_left};
use fx_templates_core::pointers::{
    put_back, put_difference, put_index, put_index_left, put_offset,
};
use fx_templates_core::put::jump;
use fx_templates_core::slots::{nothing, reload};
use fx_x64_forms::operand::Width;
use fx_x64_forms::piece::{Piece, Target};
use std::alloc::AllocError;

/// Where an op stands.
#[derive(Clone, Copy)]
pub(crate) struct Site<'a> {
    pub at: &'a Addresses,
    /// The table of its function.
    pub table: &'a FrameTable,
    /// The operands that are pending before it.
    pub count: u16,
    /// The piece to which it leads, where it jumps.
    pub label: u32,
    /// The number of the first piece of what is written.
    pub first: u32,
}

fn is_due(gives: Option<Scalar>) -> bool
    ensures { result ≡ is_due gives }
{
    match gives {
        Some(_) => true,
        None => false,
    }
}

/// A value is dropped, and k operands stay.
fn put_dropped(out: &mut Vec<Piece>, locals: u32, k: u16) -> Result<(), AllocError>
    requires { locals ≤ 65536 }
    ensures { OnOk result (out.new.items ≡ out.old.items ++ dropped locals k) }
{
    if k > 0 {
        reload(out, locals, k)
    } else {
        nothing(out)
    }
}

fn put_local_addr(out: &mut Vec<Piece>, s: Site<'_>, n: u16) -> Result<(), AllocError>
    requires { IsFrame s.table.now }
    ensures { let t = s.entry.table.now in
        let v = variable_at s.entry.at.now t.slots n in
        OnOk result (out.new.items ≡ out.old.items ++ push_address t.locals s.entry.count v.mem) }
{
    let v = variable_at(s.at, s.table.slots.as_slice(), n);
    put_push_address(out, s.table.locals, s.count, v.mem)
}

fn put_load_local(out: &mut Vec<Piece>, s: Site<'_>, n: u16) -> Result<(), AllocError>
    requires { IsFrame s.table.now }
    ensures { let t = s.entry.table.now in
        let v = variable_at s.entry.at.now t.slots n in
        OnOk result (out.new.items ≡ out.old.items ++ push_variable t.locals s.entry.count v) }
{
    let v = variable_at(s.at, s.table.slots.as_slice(), n);
    put_push_variable(out, s.table.locals, s.count, v)
}

fn put_store_local(out: &mut Vec<Piece>, s: Site<'_>, n: u16) -> Result<(), AllocError>
    requires { IsFrame s.table.now }
    ensures { let t = s.entry.table.now in
        let v = variable_at s.entry.at.now t.slots n in
        let k = s.entry.count - 1 in
        OnOk result (out.new.items ≡ out.old.items ++ store_variable t.locals k v) }
{
    let v = variable_at(s.at, s.table.slots.as_slice(), n);
    put_store_variable(out, s.table.locals, s.count.saturating_sub(1), v)
}

/// The address of a global or a literal, by its number among addresses; 0 of one that isn't there.
fn put_place(out: &mut Vec<Piece>, s: Site<'_>, places: &[u64], n: u32) -> Result<(), AllocError>
    requires { IsFrame s.table.now }
    ensures { let locals = s.entry.table.now.locals in
        let place = slice_index places.now n in
        OnOk result (out.new.items ≡ out.old.items ++ push_number locals s.entry.count place) }
{
    let place = match places.get(n as usize) {
        Some(place) => *place,
        None => 0,
    };
    put_push_number(out, s.table.locals, s.count, place)
}

fn put_binary_op(
    out: &mut Vec<Piece>,
    s: Site<'_>,
    o: Binop,
    i: IntType,
    right: Right,
) -> Result<(), AllocError>
    requires { IsFrame s.table.now }
    ensures { let t = s.entry.table.now in
        let r = operand_of s.entry.at.now t.slots right in
        OnOk result (out.new.items ≡ out.old.items ++ binary_with o i t.locals s.entry.count r) }
{
    let right = operand_of(s.at, s.table.slots.as_slice(), right);
    let k = below_left(right, s.count);
    let w = operator_width(i);
    put_binary(out, o, is_signed(i), w, s.table.locals, k, right)
}

fn put_pointers(out: &mut Vec<Piece>, s: Site<'_>, o: Binop, right: Right) -> Result<(), AllocError>
    requires { IsFrame s.table.now }
    ensures { let t = s.entry.table.now in
        let r = operand_of s.entry.at.now t.slots right in
        OnOk result (out.new.items ≡ out.old.items ++ pointers_with o t.locals s.entry.count r) }
{
    let right = operand_of(s.at, s.table.slots.as_slice(), right);
    let k = below_left(right, s.count);
    put_compared(
        out,
        condition(false, o),
        Width::W64,
        s.table.locals,
        k,
        right,
    )
}

fn put_compare_jump_op(
    out: &mut Vec<Piece>,
    s: Site<'_>,
    o: Binop,
    of: Compared,
    right: Right,
) -> Result<(), AllocError>
    requires { IsFrame s.table.now }
    ensures { let t = s.entry.table.now in
        let r = operand_of s.entry.at.now t.slots right in
        let code = compare_jump_with o of t.locals s.entry.count r s.entry.label in
        OnOk result (out.new.items ≡ out.old.items ++ code) }
{
    let locals = s.table.locals;
    let right = operand_of(s.at, s.table.slots.as_slice(), right);
    let k = below_left(right, s.count);
    match of {
        Compared::Integers(i) => {
            let cond = condition(is_signed(i), o);
            put_compare_jump(out, cond, operator_width(i), locals, k, right, s.label)
        }
        Compared::Pointers => {
            let cond = condition(false, o);
            put_compare_jump(out, cond, Width::W64, locals, k, right, s.label)
        }
    }
}

fn put_index_op(
    out: &mut Vec<Piece>,
    s: Site<'_>,
    bytes: u32,
    right: Right,
) -> Result<(), AllocError>
    requires { IsFrame s.table.now }
    ensures { let t = s.entry.table.now in
        let r = operand_of s.entry.at.now t.slots right in
        OnOk result (out.new.items ≡ out.old.items ++ index_with bytes t.locals s.entry.count r) }
{
    let right = operand_of(s.at, s.table.slots.as_slice(), right);
    let k = below_left(right, s.count);
    put_index(out, bytes, s.table.locals, k, right)
}

/// The code of an op other than a gate.
pub(crate) fn put_op(out: &mut Vec<Piece>, s: Site<'_>, op: &Op) -> Result<(), AllocError>
    requires frame { IsFrame s.table.now }
    requires own { IsNoGate (op_of op.now) }
    ensures { let t = s.entry.table.now in
        let here = s.entry.first + length out.old.items in
        let code = code_of s.entry.at.now t here s.entry.label s.entry.count (op_of op.now) in
        OnOk result (out.new.items ≡ out.old.items ++ code) }
{
    let locals = s.table.locals;
    let one = s.count.saturating_sub(1);
    let two = s.count.saturating_sub(2);
    match op {
        Op::Number(w) => put_push_number(out, locals, s.count, *w),
        Op::LocalAddr(n) => put_local_addr(out, s, *n),
        Op::LoadLocal(n) => put_load_local(out, s, *n),
        Op::StoreLocal(n) => put_store_local(out, s, *n),
        Op::GlobalAddr(n) => put_place(out, s, s.at.globals.as_slice(), *n),
        Op::LiteralAddr(n) => put_place(out, s, s.at.literals.as_slice(), *n),
        Op::Load(ty) => put_load_through(out, width_for(ty)),
        Op::Store(ty) => put_store_through(out, width_for(ty), locals, two),
        Op::Copy(bytes) => put_copied(out, s.first, locals, two, *bytes),
        Op::Unary(o, i) => put_unary(out, *o, operator_width(*i)),
        Op::Binary(o, i, right) => put_binary_op(out, s, *o, *i, *right),
        Op::PtrCompare(o, right) => put_pointers(out, s, *o, *right),
        Op::CompareJump(o, of, right, _) => put_compare_jump_op(out, s, *o, *of, *right),
        Op::Convert(from, to) => put_converted(
            out,
            width_of(*from),
            is_signed(*from),
            width_of(*to),
        ),
        Op::Index(bytes, right) => put_index_op(out, s, *bytes, *right),
        Op::IndexLeft(bytes) => put_index_left(out, *bytes, locals, two),
        Op::Back(bytes) => put_back(out, *bytes, locals, two),
        Op::Difference(bytes) => put_difference(out, *bytes, locals, two),
        Op::Offset(bytes) => put_offset(out, *bytes),
        Op::Jump(_) => jump(out, Target::Label(s.label)),
        Op::JumpZero(_) => put_jump_zero(out, locals, one, s.label),
        Op::Call(f) => put_called(out, s.at, locals, s.count, *f),
        Op::Gate(_) => unreachable!(),
        Op::Spawn(f) => put_spawn(out, s.first, *f),
        Op::Switch => put_switch(out),
        Op::Me => put_push_thread(out, locals, s.count),
        Op::DevLoad(device, register) => put_device_load(out, locals, s.count, *device, *register),
        Op::DevStore(device, register) => put_device_store(out, *device, *register),
        Op::Getc => put_device_load(out, locals, s.count, 0, 0),
        Op::Putc => put_device_store(out, 0, 0),
        Op::Drop => put_dropped(out, locals, one),
        Op::Return => put_return(out, is_due(s.table.result), s.count),
    }
}
