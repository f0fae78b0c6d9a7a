//! Right operands: the left one comes to RAX, the right one to RCX.

ghost use Rattle.std.specs.Prelude.{◌≡◌, ◌≤◌, ◌++◌, OnOk};
ghost use Rattle.fx_templates_core.specs.Operands.{below_left, fetch, fetched, combined, load_signed, load_extended, fetch_count};

use crate::constants::{put_constant, put_with_number};
use crate::put::{copy, put};
use crate::slots::{load_of, load_slot};
use fx_x64_forms::inst::{AluOp, Inst};
use fx_x64_forms::operand::{Mem, Reg, Width};
use fx_x64_forms::piece::Piece;
use std::alloc::AllocError;

/// A parameter or a local of integer or pointer type.
#[derive(Clone, Copy, Debug, PartialEq, Eq)]
pub struct Variable {
    pub mem: Mem,
    pub width: Width,
    /// Whether its type has negative numbers.
    pub signed: bool,
}

/// Where the right operand of an op is.
#[derive(Clone, Copy, Debug, PartialEq, Eq)]
pub enum Operand {
    /// It is the latest of the pending operands.
    Pending,
    /// The word of a constant.
    Number(u64),
    Local(Variable),
}

/// How many operands stay below the left one, of so many that are pending.
pub fn below_left(right: Operand, count: u16) -> u16
    ensures { result ≡ below_left right count }
{
    match right {
        Operand::Pending => count.saturating_sub(2),
        Operand::Number(_) | Operand::Local(_) => count.saturating_sub(1),
    }
}

/// The right operand to RCX, the left one to RAX, with k operands below the left one.
pub fn fetch(out: &mut Vec<Piece>, locals: u32, k: u16, right: Operand) -> Result<(), AllocError>
    requires { locals ≤ 65536 }
    ensures { OnOk result (out.new.items ≡ out.old.items ++ fetch locals k right) }
{
    match right {
        Operand::Pending => {
            copy(out, Reg::Rcx, Reg::Rax)?;
            load_slot(out, Reg::Rax, locals, k)
        }
        Operand::Number(n) => put_constant(out, Reg::Rcx, n),
        Operand::Local(v) => put(out, load_of(v.width, Reg::Rcx, v.mem)),
    }
}

fn fetch_and_combine(
    out: &mut Vec<Piece>,
    op: AluOp,
    w: Width,
    locals: u32,
    k: u16,
    right: Operand,
) -> Result<(), AllocError>
    requires { locals ≤ 65536 }
    ensures { OnOk result (out.new.items ≡ out.old.items ++ fetched op w locals k right) }
{
    fetch(out, locals, k, right)?;
    let dst = Reg::Rax;
    let src = Reg::Rcx;
    put(out, Inst::Alu { op, w, dst, src })
}

/// An operation of both operands, whose result stands in RAX.
pub fn combine(
    out: &mut Vec<Piece>,
    op: AluOp,
    w: Width,
    locals: u32,
    k: u16,
    right: Operand,
) -> Result<(), AllocError>
    requires { locals ≤ 65536 }
    ensures { OnOk result (out.new.items ≡ out.old.items ++ combined op w locals k right) }
{
    match right {
        Operand::Number(n) => put_with_number(out, op, w, n),
        Operand::Pending | Operand::Local(_) => fetch_and_combine(out, op, w, locals, k, right),
    }
}

fn load_signed(w: Width, dst: Reg, mem: Mem) -> Inst
    ensures { result ≡ load_signed w dst mem }
{
    match w {
        Width::W64 => Inst::Load { w, dst, mem },
        Width::W32 | Width::W16 | Width::W8 => Inst::LoadSign { from: w, dst, mem },
    }
}

/// The load of the number that a variable stands for, in 64 bits.
fn load_extended(v: Variable, dst: Reg) -> Inst
    ensures { result ≡ load_extended v.signed v.width dst v.mem }
{
    if v.signed {
        load_signed(v.width, dst, v.mem)
    } else {
        load_of(v.width, dst, v.mem)
    }
}

/// The right operand, which counts elements, to RCX, and the left one to RAX.
pub fn fetch_count(
    out: &mut Vec<Piece>,
    locals: u32,
    k: u16,
    right: Operand,
) -> Result<(), AllocError>
    requires { locals ≤ 65536 }
    ensures { OnOk result (out.new.items ≡ out.old.items ++ fetch_count locals k right) }
{
    match right {
        Operand::Local(v) => put(out, load_extended(v, Reg::Rcx)),
        Operand::Pending | Operand::Number(_) => fetch(out, locals, k, right),
    }
}
