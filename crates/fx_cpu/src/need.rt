//! What an instruction asks of memory.

ghost use Rattle.std.specs.Prelude.{◌≡◌};
ghost use Rattle.fx_cpu.specs.Registers.{quotient};
ghost use Rattle.fx_cpu.specs.Does.{need, unary_need, key_need, is_low_zero};

use crate::registers::{Regs, down};
use crate::trap::Trap;
use fx_word_ops::quotients::divide;
use fx_word_ops::words::zero_extend;
use fx_x64_forms::inst::{Inst, UnaryOp};
use fx_x64_forms::operand::{Reg, Width};

/// What an instruction asks of memory: at most one access.
#[derive(Clone, Copy, Debug, PartialEq, Eq)]
pub enum Need {
    /// Nothing.
    Quiet,
    Reads { w: Width, address: u64 },
    Writes { w: Width, address: u64, value: u64 },
    /// It isn't done, for this cause.
    Stops(Trap),
}

/// The quotient and the remainder of RDX:RAX by a register.
#[inline]
pub fn division(signed: bool, w: Width, by: Reg, r: &Regs) -> Option<(u64, u64)>
    ensures { result ≡ quotient signed w by r.now }
{
    divide(w, signed, r.gpr[2], r.gpr[0], r.get(by))
}

fn unary_need_of(op: UnaryOp, w: Width, q: Reg, r: &Regs) -> Need
    ensures { result ≡ unary_need op w q r.now }
{
    let signed = match op {
        UnaryOp::Not | UnaryOp::Neg => return Need::Quiet,
        UnaryOp::Div => false,
        UnaryOp::Idiv => true,
    };
    match division(signed, w, q, r) {
        None => Need::Stops(Trap::Divide),
        Some(_) => Need::Quiet,
    }
}

/// Whether a register's low half is 0.
fn is_low_zero(r: &Regs, q: Reg) -> bool
    ensures { result ≡ is_low_zero r.now q }
{
    zero_extend(Width::W32, r.get(q)) == 0
}

/// Nothing, or the protection trap.
fn key_need_of(is_good: bool) -> Need
    ensures { result ≡ key_need is_good }
{
    if is_good {
        Need::Quiet
    } else {
        Need::Stops(Trap::Protection)
    }
}

/// What an instruction asks of memory, where `next` is the address of the one behind it.
#[inline]
pub fn need_of(i: &Inst, next: u64, r: &Regs) -> Need
    ensures { result ≡ need i.now (record r.now { rip = next }) }
{
    match *i {
        Inst::Load { w, mem, .. } => Need::Reads {
            w,
            address: r.address(mem),
        },
        Inst::LoadZero { from, mem, .. } | Inst::LoadSign { from, mem, .. } => Need::Reads {
            w: from,
            address: r.address(mem),
        },
        Inst::Store { w, mem, src } => Need::Writes {
            w,
            address: r.address(mem),
            value: zero_extend(w, r.get(src)),
        },
        Inst::Push { reg } => Need::Writes {
            w: Width::W64,
            address: down(r.gpr[4]),
            value: r.get(reg),
        },
        Inst::Call { .. } => Need::Writes {
            w: Width::W64,
            address: down(r.gpr[4]),
            value: next,
        },
        Inst::Pop { .. } | Inst::Ret => Need::Reads {
            w: Width::W64,
            address: r.gpr[4],
        },
        Inst::Unary { op, w, reg } => unary_need_of(op, w, reg, r),
        Inst::Hlt => Need::Stops(Trap::Halt),
        Inst::Wrpkru => key_need_of(is_low_zero(r, Reg::Rcx) & is_low_zero(r, Reg::Rdx)),
        Inst::Rdpkru => key_need_of(is_low_zero(r, Reg::Rcx)),
        Inst::Mov { .. }
        | Inst::Zero { .. }
        | Inst::Sign { .. }
        | Inst::MovImm { .. }
        | Inst::MovImm64 { .. }
        | Inst::Lea { .. }
        | Inst::Alu { .. }
        | Inst::AluImm { .. }
        | Inst::Imul { .. }
        | Inst::Shift { .. }
        | Inst::Cqo
        | Inst::Setcc { .. }
        | Inst::Jcc { .. }
        | Inst::Jmp { .. }
        | Inst::Nop => Need::Quiet,
    }
}
