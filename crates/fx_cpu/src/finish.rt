//! The registers after an instruction.

ghost use Rattle.std.specs.Prelude.{◌≡◌, ◌+◌, ◌-◌, ◌*◌, ◌/◌, ◌^◌, if◌then◌else◌, nat_le};
ghost use Rattle.std.specs.Int.{w64, cast_unsigned};
ghost use Rattle.fx_word_ops.specs.Words.{half};
ghost use Rattle.fx_x64_forms.specs.declared.operand.Width.TheVariants.{W64};
ghost use Rattle.fx_x64_forms.specs.declared.operand.Reg.TheVariants.{Rax};
ghost use Rattle.fx_cpu.specs.Registers.{reg, with_reg};
ghost use Rattle.fx_cpu.specs.Does.{finish, alu, kept, with_result, with_quotient, unary_finish, shift_finish};

use crate::need::division;
use crate::registers::{Regs, down, is_held, up};
use fx_vm_pages::entry::Pkru;
use fx_word_ops::flags::{Flags, LogicOp};
use fx_word_ops::products::mul;
use fx_word_ops::shifts::shift;
use fx_word_ops::sums::{add, logic, sub};
use fx_word_ops::words::{mask, sign_extend, zero_extend};
use fx_x64_forms::inst::{AluOp, Inst, ShiftOp, UnaryOp};
use fx_x64_forms::operand::{Reg, Width};

#[inline]
fn alu_of(op: AluOp, w: Width, a: u64, b: u64) -> (u64, Flags)
    ensures { result ≡ alu op w a b }
{
    match op {
        AluOp::Add => add(w, a, b),
        AluOp::Sub | AluOp::Cmp => sub(w, a, b),
        AluOp::And | AluOp::Test => logic(w, LogicOp::And, a, b),
        AluOp::Or => logic(w, LogicOp::Or, a, b),
        AluOp::Xor => logic(w, LogicOp::Xor, a, b),
    }
}

/// Puts a result with its flags into a register.
#[inline]
fn put(r: &mut Regs, dst: Reg, x: (u64, Flags))
    ensures { r.new ≡ with_result r.old dst x }
{
    r.flags = x.1;
    r.set(dst, x.0);
}

/// Keeps the result of an operation: that of Cmp and of Test is dropped.
#[inline]
fn keep(op: AluOp, r: &mut Regs, dst: Reg, x: (u64, Flags))
    ensures { r.new ≡ kept op r.old dst x }
{
    match op {
        AluOp::Cmp | AluOp::Test => r.flags = x.1,
        AluOp::Add | AluOp::Sub | AluOp::And | AluOp::Or | AluOp::Xor => put(r, dst, x),
    }
}

#[inline]
fn complete_alu(op: AluOp, w: Width, dst: Reg, b: u64, r: &mut Regs)
    ensures { r.new ≡ kept op r.old dst (alu op w (reg r.old dst) b) }
{
    let x = alu_of(op, w, r.get(dst), b);
    keep(op, r, dst, x);
}

fn complete_shift(op: ShiftOp, w: Width, dst: Reg, r: &mut Regs)
    ensures { r.new ≡ shift_finish op w dst r.old }
{
    let count = zero_extend(Width::W8, r.gpr[1]) as u8;
    let a = r.get(dst);
    match w {
        Width::W32 => put(r, dst, shift(Width::W32, op, a, count, r.flags)),
        Width::W64 => put(r, dst, shift(Width::W64, op, a, count, r.flags)),
        Width::W8 | Width::W16 => {}
    }
}

fn keep_quotient(quotient: Option<(u64, u64)>, r: &mut Regs)
    ensures { r.new ≡ with_quotient quotient r.old }
{
    match quotient {
        None => {}
        Some((q, rest)) => {
            r.gpr[0] = q;
            r.gpr[2] = rest;
            r.flags = Flags {
                cf: false,
                zf: false,
                sf: false,
                of: false,
            };
        }
    }
}

fn complete_unary(op: UnaryOp, w: Width, q: Reg, r: &mut Regs)
    ensures { r.new ≡ unary_finish op w q r.old }
{
    match op {
        UnaryOp::Not => {
            let a = zero_extend(w, r.get(q));
            r.set(q, mask(w) - a);
        }
        UnaryOp::Neg => put(r, q, sub(w, 0, r.get(q))),
        UnaryOp::Div => keep_quotient(division(false, w, q, r), r),
        UnaryOp::Idiv => keep_quotient(division(true, w, q, r), r),
    }
}

/// Sets a register's low byte to 1 or 0.
#[inline]
fn set_flag(r: &mut Regs, dst: Reg, holds: bool)
    ensures { r.new ≡ with_reg r.old dst (reg r.old dst / 256 * 256 + (if holds then 1 else 0)) }
{
    let value = r.get(dst) / 256 * 256 + u64::from(holds);
    r.set(dst, value);
}

/// The number of 64 bits that a constant stands for.
#[inline]
fn extended(imm: i32) -> u64
    ensures { result ≡ cast_unsigned w64 imm }
{
    i64::from(imm).cast_unsigned()
}

/// The word whose bits are all the sign of RAX.
#[inline]
fn sign_of_rax(r: &Regs) -> u64
    ensures { result ≡ (if nat_le (half W64) (reg r.now Rax) then 2 ^ 64 - 1 else 0) }
{
    if r.gpr[0] >= 0x8000_0000_0000_0000 {
        u64::MAX
    } else {
        0
    }
}

/// The registers after an instruction, where `v` is what it read. RIP is the address of the next
/// instruction already.
#[inline]
pub fn complete(i: &Inst, r: &mut Regs, v: u64)
    ensures { r.new ≡ finish i.now r.old v }
{
    match *i {
        Inst::Mov { w, dst, src } => r.set(dst, zero_extend(w, r.get(src))),
        Inst::Load { dst, .. } | Inst::LoadZero { dst, .. } => r.set(dst, v),
        Inst::LoadSign { from, dst, .. } => r.set(dst, sign_extend(from, v)),
        Inst::Zero { from, dst, src } => r.set(dst, zero_extend(from, r.get(src))),
        Inst::Sign { from, dst, src } => r.set(dst, sign_extend(from, r.get(src))),
        Inst::MovImm { dst, imm } => r.set(dst, extended(imm)),
        Inst::MovImm64 { dst, imm } => r.set(dst, imm),
        Inst::Lea { dst, mem } => r.set(dst, r.address(mem)),
        Inst::Alu { op, w, dst, src } => complete_alu(op, w, dst, r.get(src), r),
        Inst::AluImm { op, w, dst, imm } => complete_alu(op, w, dst, extended(imm), r),
        Inst::Imul { w, dst, src } => put(r, dst, mul(w, r.get(dst), r.get(src))),
        Inst::Shift { op, w, dst } => complete_shift(op, w, dst, r),
        Inst::Unary { op, w, reg } => complete_unary(op, w, reg, r),
        Inst::Cqo => r.set(Reg::Rdx, sign_of_rax(r)),
        Inst::Setcc { cond, dst } => set_flag(r, dst, is_held(cond, r.flags)),
        Inst::Jcc { cond, rel } => {
            if is_held(cond, r.flags) {
                r.jump(rel);
            }
        }
        Inst::Jmp { rel } => r.jump(rel),
        Inst::Call { rel } => {
            r.gpr[4] = down(r.gpr[4]);
            r.jump(rel);
        }
        Inst::Ret => {
            r.gpr[4] = up(r.gpr[4]);
            r.rip = v;
        }
        Inst::Push { .. } => r.gpr[4] = down(r.gpr[4]),
        Inst::Pop { reg } => {
            r.gpr[4] = up(r.gpr[4]);
            r.set(reg, v);
        }
        Inst::Wrpkru => r.pkru = Pkru(zero_extend(Width::W32, r.gpr[0]) as u32),
        Inst::Rdpkru => {
            r.gpr[0] = u64::from(r.pkru.0);
            r.gpr[2] = 0;
        }
        Inst::Store { .. } | Inst::Hlt | Inst::Nop => {}
    }
}
