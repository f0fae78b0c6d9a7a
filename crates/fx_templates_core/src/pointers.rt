//! Pointers moved by elements, and their differences.

ghost use Rattle.std.specs.Prelude.{◌≡◌, ◌≤◌, ◌++◌, OnOk};
ghost use Rattle.fx_templates_core.specs.Pointers.{scaled, index, index_left, back, in_elements, difference, offset};

use crate::constants::{put_constant, put_with_number};
use crate::operands::{Operand, fetch, fetch_count};
use crate::put::{alu, put};
use crate::slots::load_slot;
use fx_x64_forms::inst::{AluOp, Inst, UnaryOp};
use fx_x64_forms::operand::{Reg, Width};
use fx_x64_forms::piece::Piece;
use std::alloc::AllocError;

/// RCX in elements of so many bytes.
fn put_scaled(out: &mut Vec<Piece>, size: u32) -> Result<(), AllocError>
    ensures { OnOk result (out.new.items ≡ out.old.items ++ scaled size) }
{
    if size == 1 {
        Ok(())
    } else {
        let w = Width::W64;
        let dst = Reg::Rcx;
        let src = Reg::Rdx;
        put_constant(out, src, u64::from(size))?;
        put(out, Inst::Imul { w, dst, src })
    }
}

/// A pointer moved by a number of elements, with k operands below it.
pub fn put_index(
    out: &mut Vec<Piece>,
    size: u32,
    locals: u32,
    k: u16,
    right: Operand,
) -> Result<(), AllocError>
    requires { locals ≤ 65536 }
    ensures { OnOk result (out.new.items ≡ out.old.items ++ index size locals k right) }
{
    fetch_count(out, locals, k, right)?;
    put_scaled(out, size)?;
    alu(out, AluOp::Add, Reg::Rax, Reg::Rcx)
}

/// A pointer moved by a number of elements that is in slot k.
pub fn put_index_left(
    out: &mut Vec<Piece>,
    size: u32,
    locals: u32,
    k: u16,
) -> Result<(), AllocError>
    requires { locals ≤ 65536 }
    ensures { OnOk result (out.new.items ≡ out.old.items ++ index_left size locals k) }
{
    load_slot(out, Reg::Rcx, locals, k)?;
    put_scaled(out, size)?;
    alu(out, AluOp::Add, Reg::Rax, Reg::Rcx)
}

/// A pointer, in slot k, moved back by a number of elements.
pub fn put_back(out: &mut Vec<Piece>, size: u32, locals: u32, k: u16) -> Result<(), AllocError>
    requires { locals ≤ 65536 }
    ensures { OnOk result (out.new.items ≡ out.old.items ++ back size locals k) }
{
    fetch(out, locals, k, Operand::Pending)?;
    put_scaled(out, size)?;
    alu(out, AluOp::Sub, Reg::Rax, Reg::Rcx)
}

/// RAX, a number of bytes, in elements.
fn put_in_elements(out: &mut Vec<Piece>, size: u32) -> Result<(), AllocError>
    ensures { OnOk result (out.new.items ≡ out.old.items ++ in_elements size) }
{
    if size == 1 {
        Ok(())
    } else {
        let op = UnaryOp::Idiv;
        let w = Width::W64;
        let reg = Reg::Rcx;
        put(out, Inst::Cqo)?;
        put_constant(out, reg, u64::from(size))?;
        put(out, Inst::Unary { op, w, reg })
    }
}

/// The difference in elements of two pointers, of which one is in slot k.
pub fn put_difference(
    out: &mut Vec<Piece>,
    size: u32,
    locals: u32,
    k: u16,
) -> Result<(), AllocError>
    requires { locals ≤ 65536 }
    ensures { OnOk result (out.new.items ≡ out.old.items ++ difference size locals k) }
{
    fetch(out, locals, k, Operand::Pending)?;
    alu(out, AluOp::Sub, Reg::Rax, Reg::Rcx)?;
    put_in_elements(out, size)
}

/// A pointer so many bytes on.
pub fn put_offset(out: &mut Vec<Piece>, bytes: u32) -> Result<(), AllocError>
    ensures { OnOk result (out.new.items ≡ out.old.items ++ offset bytes) }
{
    put_with_number(out, AluOp::Add, Width::W64, u64::from(bytes))
}
