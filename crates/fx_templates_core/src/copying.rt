//! Copies of bytes, one by one.

ghost use Rattle.std.specs.Prelude.{◌≡◌, ◌≤◌, ◌+◌, ◌++◌, OnOk, length};
ghost use Rattle.fx_templates_core.specs.Copying.{copy_ends, move_byte, next_byte, copy_byte, copied};

use crate::constants::put_constant;
use crate::memory::at_reg;
use crate::put::{ahead, alu_number, branch, copy, put};
use crate::slots::{load_slot, reload};
use fx_x64_forms::inst::{AluOp, Inst};
use fx_x64_forms::operand::{Cond, Reg, Width};
use fx_x64_forms::piece::Piece;
use std::alloc::AllocError;

fn put_copy_ends(out: &mut Vec<Piece>, locals: u32, k: u16, bytes: u32) -> Result<(), AllocError>
    requires { locals ≤ 65536 }
    ensures { OnOk result (out.new.items ≡ out.old.items ++ copy_ends locals k bytes) }
{
    copy(out, Reg::Rcx, Reg::Rax)?;
    load_slot(out, Reg::Rdx, locals, k)?;
    put_constant(out, Reg::R11, u64::from(bytes))
}

fn put_move_byte(out: &mut Vec<Piece>) -> Result<(), AllocError>
    ensures { OnOk result (out.new.items ≡ out.old.items ++ move_byte) }
{
    let from = Width::W8;
    let dst = Reg::Rax;
    let mem = at_reg(Reg::Rcx);
    let to = at_reg(Reg::Rdx);
    put(out, Inst::LoadZero { from, dst, mem })?;
    put(
        out,
        Inst::Store {
            w: from,
            mem: to,
            src: dst,
        },
    )
}

fn put_next_byte(out: &mut Vec<Piece>, top: u32) -> Result<(), AllocError>
    ensures { OnOk result (out.new.items ≡ out.old.items ++ next_byte top) }
{
    alu_number(out, AluOp::Add, Reg::Rcx, 1)?;
    alu_number(out, AluOp::Add, Reg::Rdx, 1)?;
    alu_number(out, AluOp::Sub, Reg::R11, 1)?;
    branch(out, Cond::Ne, top)
}

/// One byte, and again from here where there are more.
fn put_copy_byte(out: &mut Vec<Piece>, first: u32) -> Result<(), AllocError>
    ensures { OnOk result (out.new.items ≡ out.old.items ++ copy_byte (first + length out.old.items)) }
{
    let top = ahead(out, first, 0)?;
    put_move_byte(out)?;
    put_next_byte(out, top)
}

/// Copies bytes from the latest operand to the one below it; k others stay. The first piece of `out` is
/// number `first` of its list.
pub fn put_copied(
    out: &mut Vec<Piece>,
    first: u32,
    locals: u32,
    k: u16,
    bytes: u32,
) -> Result<(), AllocError>
    requires { locals ≤ 65536 }
    ensures { OnOk result (out.new.items ≡ out.old.items ++ copied (first + length out.old.items) locals k bytes) }
{
    put_copy_ends(out, locals, k, bytes)?;
    put_copy_byte(out, first)?;
    reload(out, locals, k)
}
