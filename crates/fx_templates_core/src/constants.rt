//! Constants.
//!
//! No code but that of key gates holds the bytes 0F 01 EF (WRPKRU, SDM volume 2): a constant whose bytes
//! hold them is built from parts.

ghost use Rattle.std.specs.Prelude.{◌≡◌, ◌<◌, ◌^◌, ◌/◌, ◌%◌, ◌++◌, [], ◌∷◌, OnOk};
ghost use Rattle.fx_templates_core.specs.Constants.{begins_with_key, has_key, next_part, first_part, next_parts, built, constant, immediate, is_immediate, with_number};

use crate::put::{alu_number, put, set};
use fx_x64_forms::inst::{AluOp, Inst};
use fx_x64_forms::operand::{Reg, Width};
use fx_x64_forms::piece::Piece;
use std::alloc::AllocError;

/// 0F 01 EF as a number, its lowest byte first.
const KEY: u64 = 0xef_010f;

fn begins_with_key(n: u64) -> bool
    ensures { result ≡ begins_with_key n }
{
    n % 0x100_0000 == KEY
}

/// Whether the eight bytes of a number hold 0F 01 EF.
pub fn has_key(n: u64) -> bool
    ensures { result ≡ has_key n }
{
    begins_with_key(n)
        || begins_with_key(n / 0x100)
        || begins_with_key(n / 0x1_0000)
        || begins_with_key(n / 0x100_0000)
        || begins_with_key(n / 0x1_0000_0000)
        || begins_with_key(n / 0x100_0000_0000)
}

/// Sixteen bits more, where R10 is 2^16.
fn put_next_part(out: &mut Vec<Piece>, dst: Reg, part: u16) -> Result<(), AllocError>
    ensures { OnOk result (out.new.items ≡ out.old.items ++ next_part dst part) }
{
    let w = Width::W64;
    let src = Reg::R10;
    put(out, Inst::Imul { w, dst, src })?;
    alu_number(out, AluOp::Or, dst, i32::from(part))
}

/// The highest part.
fn put_first_part(out: &mut Vec<Piece>, dst: Reg, part: u16) -> Result<(), AllocError>
    ensures { OnOk result (out.new.items ≡ out.old.items ++ first_part dst part) }
{
    set(out, dst, i32::from(part))?;
    set(out, Reg::R10, 0x1_0000)
}

/// The three parts below it.
fn put_next_parts(out: &mut Vec<Piece>, dst: Reg, n: u64) -> Result<(), AllocError>
    ensures { OnOk result (out.new.items ≡ out.old.items ++ next_parts dst n) }
{
    put_next_part(out, dst, (n / 0x1_0000_0000 % 0x1_0000) as u16)?;
    put_next_part(out, dst, (n / 0x1_0000 % 0x1_0000) as u16)?;
    put_next_part(out, dst, (n % 0x1_0000) as u16)
}

/// A constant from four parts.
fn put_built(out: &mut Vec<Piece>, dst: Reg, n: u64) -> Result<(), AllocError>
    ensures { OnOk result (out.new.items ≡ out.old.items ++ built dst n) }
{
    put_first_part(out, dst, (n / 0x1_0000_0000_0000 % 0x1_0000) as u16)?;
    put_next_parts(out, dst, n)
}

/// Sets a register, other than R10, to a constant. It may take R10.
pub fn put_constant(out: &mut Vec<Piece>, dst: Reg, n: u64) -> Result<(), AllocError>
    ensures { OnOk result (out.new.items ≡ out.old.items ++ constant dst n) }
{
    if has_key(n) {
        put_built(out, dst, n)
    } else {
        put(out, Inst::MovImm64 { dst, imm: n })
    }
}

/// The low 32 bits of a number, as an instruction has them.
fn immediate(n: u64) -> i32
    ensures { result ≡ immediate n }
{
    ((n % 0x1_0000_0000) as u32).cast_signed()
}

/// Whether an instruction of 32 or 64 bits has room for a number.
fn is_immediate(w: Width, n: u64) -> bool
    ensures { result ≡ is_immediate w n }
{
    match w {
        Width::W64 => i64::from(immediate(n)).cast_unsigned() == n && !has_key(n),
        Width::W32 => n < 0x1_0000_0000 && !has_key(n),
        Width::W16 | Width::W8 => false,
    }
}

/// An operation of RAX and a number.
pub fn put_with_number(out: &mut Vec<Piece>, op: AluOp, w: Width, n: u64) -> Result<(), AllocError>
    ensures { OnOk result (out.new.items ≡ out.old.items ++ with_number op w n) }
{
    let dst = Reg::Rax;
    let src = Reg::Rcx;
    if is_immediate(w, n) {
        let imm = immediate(n);
        put(out, Inst::AluImm { op, w, dst, imm })
    } else {
        put_constant(out, src, n)?;
        put(out, Inst::Alu { op, w, dst, src })
    }
}
