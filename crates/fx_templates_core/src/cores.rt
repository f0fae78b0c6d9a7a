//! Operators at words: the left operand in RAX, the right one in RCX or in the instruction, the result in
//! RAX. Operands have been promoted (C11 6.3.1.1), so they have 32 or 64 bits.

ghost use Rattle.std.specs.Prelude.{◌≡◌, ◌≤◌, ◌++◌, true, false, OnOk};
ghost use Rattle.fx_templates_core.specs.Cores.{condition, opposite, truth, compared, multiplied, shifted, right_shift, extended_dividend, division, divided, remainder, binary, unary_of, compare_jump, jump_zero, cut_to, widened, converted};

use crate::operands::{Operand, combine, fetch};
use crate::put::{alu, branch, put, set};
use crate::slots::{nothing, reload};
use fx_c_ast::operator::{Binop, Unop};
use fx_x64_forms::inst::{AluOp, Inst, ShiftOp, UnaryOp};
use fx_x64_forms::operand::{Cond, Reg, Width};
use fx_x64_forms::piece::Piece;
use std::alloc::AllocError;

fn signed_condition(op: Binop) -> Cond
    ensures { result ≡ condition true op }
{
    match op {
        Binop::Lt => Cond::L,
        Binop::Gt => Cond::G,
        Binop::Le => Cond::Le,
        Binop::Ge => Cond::Ge,
        Binop::Ne => Cond::Ne,
        _ => Cond::E,
    }
}

fn unsigned_condition(op: Binop) -> Cond
    ensures { result ≡ condition false op }
{
    match op {
        Binop::Lt => Cond::B,
        Binop::Gt => Cond::A,
        Binop::Le => Cond::Be,
        Binop::Ge => Cond::Ae,
        Binop::Ne => Cond::Ne,
        _ => Cond::E,
    }
}

/// The condition under which a comparison of signed or of unsigned words holds.
pub fn condition(signed: bool, op: Binop) -> Cond
    ensures { result ≡ condition signed op }
{
    if signed {
        signed_condition(op)
    } else {
        unsigned_condition(op)
    }
}

/// The condition that holds where another one doesn't.
pub fn opposite(cond: Cond) -> Cond
    ensures { result ≡ opposite cond }
{
    match cond {
        Cond::O => Cond::No,
        Cond::No => Cond::O,
        Cond::B => Cond::Ae,
        Cond::Ae => Cond::B,
        Cond::E => Cond::Ne,
        Cond::Ne => Cond::E,
        Cond::Be => Cond::A,
        Cond::A => Cond::Be,
        Cond::S => Cond::Ns,
        Cond::Ns => Cond::S,
        Cond::L => Cond::Ge,
        Cond::Ge => Cond::L,
        Cond::Le => Cond::G,
        Cond::G => Cond::Le,
    }
}

/// 1 to RAX where a condition holds, else 0.
pub fn put_truth(out: &mut Vec<Piece>, cond: Cond) -> Result<(), AllocError>
    ensures { OnOk result (out.new.items ≡ out.old.items ++ truth cond) }
{
    let dst = Reg::Rax;
    let src = Reg::Rax;
    let from = Width::W8;
    put(out, Inst::Setcc { cond, dst })?;
    put(out, Inst::Zero { from, dst, src })
}

/// 1 or 0 by a comparison.
pub fn put_compared(
    out: &mut Vec<Piece>,
    cond: Cond,
    w: Width,
    locals: u32,
    k: u16,
    right: Operand,
) -> Result<(), AllocError>
    requires { locals ≤ 65536 }
    ensures { OnOk result (out.new.items ≡ out.old.items ++ compared cond w locals k right) }
{
    combine(out, AluOp::Cmp, w, locals, k, right)?;
    put_truth(out, cond)
}

fn put_multiplied(
    out: &mut Vec<Piece>,
    w: Width,
    locals: u32,
    k: u16,
    right: Operand,
) -> Result<(), AllocError>
    requires { locals ≤ 65536 }
    ensures { OnOk result (out.new.items ≡ out.old.items ++ multiplied w locals k right) }
{
    let dst = Reg::Rax;
    let src = Reg::Rcx;
    fetch(out, locals, k, right)?;
    put(out, Inst::Imul { w, dst, src })
}

fn put_shifted(
    out: &mut Vec<Piece>,
    by: ShiftOp,
    w: Width,
    locals: u32,
    k: u16,
    right: Operand,
) -> Result<(), AllocError>
    requires { locals ≤ 65536 }
    ensures { OnOk result (out.new.items ≡ out.old.items ++ shifted by w locals k right) }
{
    let op = by;
    let dst = Reg::Rax;
    fetch(out, locals, k, right)?;
    put(out, Inst::Shift { op, w, dst })
}

fn right_shift(signed: bool) -> ShiftOp
    ensures { result ≡ right_shift signed }
{
    if signed { ShiftOp::Sar } else { ShiftOp::Shr }
}

/// An int is sign-extended, so that CQO gives EDX its sign.
fn put_extended_dividend(out: &mut Vec<Piece>, w: Width) -> Result<(), AllocError>
    ensures { OnOk result (out.new.items ≡ out.old.items ++ extended_dividend w) }
{
    let dst = Reg::Rax;
    let src = Reg::Rax;
    match w {
        Width::W32 => put(out, Inst::Sign { from: w, dst, src }),
        Width::W64 | Width::W16 | Width::W8 => Ok(()),
    }
}

fn put_signed_division(out: &mut Vec<Piece>, w: Width) -> Result<(), AllocError>
    ensures { OnOk result (out.new.items ≡ out.old.items ++ division true w) }
{
    let op = UnaryOp::Idiv;
    let reg = Reg::Rcx;
    put_extended_dividend(out, w)?;
    put(out, Inst::Cqo)?;
    put(out, Inst::Unary { op, w, reg })
}

fn put_unsigned_division(out: &mut Vec<Piece>, w: Width) -> Result<(), AllocError>
    ensures { OnOk result (out.new.items ≡ out.old.items ++ division false w) }
{
    let op = UnaryOp::Div;
    let reg = Reg::Rcx;
    set(out, Reg::Rdx, 0)?;
    put(out, Inst::Unary { op, w, reg })
}

/// RDX:RAX by RCX.
pub fn put_division(out: &mut Vec<Piece>, signed: bool, w: Width) -> Result<(), AllocError>
    ensures { OnOk result (out.new.items ≡ out.old.items ++ division signed w) }
{
    if signed {
        put_signed_division(out, w)
    } else {
        put_unsigned_division(out, w)
    }
}

fn put_divided(
    out: &mut Vec<Piece>,
    signed: bool,
    w: Width,
    locals: u32,
    k: u16,
    right: Operand,
) -> Result<(), AllocError>
    requires { locals ≤ 65536 }
    ensures { OnOk result (out.new.items ≡ out.old.items ++ divided signed w locals k right) }
{
    fetch(out, locals, k, right)?;
    put_division(out, signed, w)
}

fn put_remainder(
    out: &mut Vec<Piece>,
    signed: bool,
    w: Width,
    locals: u32,
    k: u16,
    right: Operand,
) -> Result<(), AllocError>
    requires { locals ≤ 65536 }
    ensures { OnOk result (out.new.items ≡ out.old.items ++ remainder signed w locals k right) }
{
    let dst = Reg::Rax;
    let src = Reg::Rdx;
    put_divided(out, signed, w, locals, k, right)?;
    put(out, Inst::Mov { w, dst, src })
}

/// An operator of two integers of a width, signed or not.
pub fn put_binary(
    out: &mut Vec<Piece>,
    op: Binop,
    signed: bool,
    w: Width,
    locals: u32,
    k: u16,
    right: Operand,
) -> Result<(), AllocError>
    requires { locals ≤ 65536 }
    ensures { OnOk result (out.new.items ≡ out.old.items ++ binary op signed w locals k right) }
{
    match op {
        Binop::Add => combine(out, AluOp::Add, w, locals, k, right),
        Binop::Sub => combine(out, AluOp::Sub, w, locals, k, right),
        Binop::And => combine(out, AluOp::And, w, locals, k, right),
        Binop::Xor => combine(out, AluOp::Xor, w, locals, k, right),
        Binop::Or => combine(out, AluOp::Or, w, locals, k, right),
        Binop::Mul => put_multiplied(out, w, locals, k, right),
        Binop::Div => put_divided(out, signed, w, locals, k, right),
        Binop::Rem => put_remainder(out, signed, w, locals, k, right),
        Binop::Shl => put_shifted(out, ShiftOp::Shl, w, locals, k, right),
        Binop::Shr => put_shifted(out, right_shift(signed), w, locals, k, right),
        Binop::Lt | Binop::Gt | Binop::Le | Binop::Ge | Binop::Eq | Binop::Ne => {
            put_compared(out, condition(signed, op), w, locals, k, right)
        }
        Binop::Land | Binop::Lor => nothing(out),
    }
}

fn put_not_zero(out: &mut Vec<Piece>) -> Result<(), AllocError>
    ensures { OnOk result (out.new.items ≡ out.old.items ++ unary_of Unop.Lnot Width.W64) }
{
    alu(out, AluOp::Test, Reg::Rax, Reg::Rax)?;
    put_truth(out, Cond::E)
}

/// An operator of one integer of a width. `!` takes a pointer too.
pub fn put_unary(out: &mut Vec<Piece>, op: Unop, w: Width) -> Result<(), AllocError>
    ensures { OnOk result (out.new.items ≡ out.old.items ++ unary_of op w) }
{
    let reg = Reg::Rax;
    match op {
        Unop::Neg => put(
            out,
            Inst::Unary {
                op: UnaryOp::Neg,
                w,
                reg,
            },
        ),
        Unop::Not => put(
            out,
            Inst::Unary {
                op: UnaryOp::Not,
                w,
                reg,
            },
        ),
        Unop::Lnot => put_not_zero(out),
        Unop::Deref | Unop::Addr => nothing(out),
    }
}

/// Goes to a piece where a comparison is false.
pub fn put_compare_jump(
    out: &mut Vec<Piece>,
    cond: Cond,
    w: Width,
    locals: u32,
    k: u16,
    right: Operand,
    to: u32,
) -> Result<(), AllocError>
    requires { locals ≤ 65536 }
    ensures { OnOk result (out.new.items ≡ out.old.items ++ compare_jump cond w locals k right to) }
{
    combine(out, AluOp::Cmp, w, locals, k, right)?;
    reload(out, locals, k)?;
    branch(out, opposite(cond), to)
}

/// Goes to a piece where the operand above k others is 0 or null.
pub fn put_jump_zero(out: &mut Vec<Piece>, locals: u32, k: u16, to: u32) -> Result<(), AllocError>
    requires { locals ≤ 65536 }
    ensures { OnOk result (out.new.items ≡ out.old.items ++ jump_zero locals k to) }
{
    alu(out, AluOp::Test, Reg::Rax, Reg::Rax)?;
    reload(out, locals, k)?;
    branch(out, Cond::E, to)
}

/// RAX cut to a width.
pub fn put_cut(out: &mut Vec<Piece>, w: Width) -> Result<(), AllocError>
    ensures { OnOk result (out.new.items ≡ out.old.items ++ cut_to w) }
{
    let dst = Reg::Rax;
    let src = Reg::Rax;
    match w {
        Width::W64 => Ok(()),
        Width::W32 => put(out, Inst::Mov { w, dst, src }),
        Width::W16 | Width::W8 => put(out, Inst::Zero { from: w, dst, src }),
    }
}

fn put_sign(out: &mut Vec<Piece>, from: Width, to: Width) -> Result<(), AllocError>
    ensures { OnOk result (out.new.items ≡ out.old.items ++ widened true from to) }
{
    let dst = Reg::Rax;
    let src = Reg::Rax;
    put(out, Inst::Sign { from, dst, src })?;
    put_cut(out, to)
}

fn put_widened(out: &mut Vec<Piece>, signed: bool, from: Width, to: Width) -> Result<(), AllocError>
    ensures { OnOk result (out.new.items ≡ out.old.items ++ widened signed from to) }
{
    if signed {
        put_sign(out, from, to)
    } else {
        nothing(out)
    }
}

/// From an integer type of a width, signed or not, to one of another width.
pub fn put_converted(
    out: &mut Vec<Piece>,
    from: Width,
    signed: bool,
    to: Width,
) -> Result<(), AllocError>
    ensures { OnOk result (out.new.items ≡ out.old.items ++ converted from signed to) }
{
    if from.bytes() < to.bytes() {
        put_widened(out, signed, from, to)
    } else if to.bytes() < from.bytes() {
        put_cut(out, to)
    } else {
        nothing(out)
    }
}
