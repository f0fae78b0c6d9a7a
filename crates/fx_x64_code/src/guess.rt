//! Reads the one instruction whose spelling could begin some bytes.
//!
//! Nothing is verified here: bytes past the end read as 0, and needless bits are not looked at. The
//! decoder spells what was read again and compares.

ghost use Rattle.std.specs.Prelude.{◌≡◌, ◌<◌, length, slice_index, drop};
ghost use Rattle.fx_x64_forms.specs.Numbers.{register_at};
ghost use Rattle.fx_x64_code.specs.Guess.{guess, guess_behind, guess_opcode, guess_two, guess_operand, u32_at, i32_at, width_of, digit, field, operand, is_memory, mem_at, opcode_register, alu_of, zero_of, sign_of, mov_of};

use crate::codes::{alu_of_digit, condition_of_code, shift_of_digit, unary_of_digit};
use fx_x64_forms::inst::{AluOp, Inst};
use fx_x64_forms::operand::{Mem, Reg, Width};

/// The byte at an index, or 0 past the end.
fn byte(b: &[u8], i: usize) -> u8
    ensures { result ≡ slice_index b.now i }
{
    if i < b.len() { b[i] } else { 0 }
}

/// The number of 32 bits at an index.
fn number(b: &[u8], i: usize) -> u32
    requires { i < 16 }
    ensures { result ≡ u32_at b.now i }
{
    let low = byte(b, i) as u32 + 0x100 * byte(b, i + 1) as u32;
    let high = byte(b, i + 2) as u32 + 0x100 * byte(b, i + 3) as u32;
    low + 0x1_0000 * high
}

/// The signed number of 32 bits at an index.
fn signed(b: &[u8], i: usize) -> i32
    requires { i < 16 }
    ensures { result ≡ i32_at b.now i }
{
    number(b, i).cast_signed()
}

/// The width that REX.W says.
fn width(x: u8) -> Width
    ensures { result ≡ width_of x }
{
    if x / 8 % 2 == 1 {
        Width::W64
    } else {
        Width::W32
    }
}

/// The register of the reg field.
fn reg_field(x: u8, b: &[u8]) -> Reg
    ensures { result ≡ register_at (field x b.now) }
{
    Reg::of_number(byte(b, 1) / 8 % 8 + 8 * (x / 4 % 2))
}

/// The register of the r/m field.
fn rm_field(x: u8, b: &[u8]) -> Reg
    ensures { result ≡ register_at (operand x b.now) }
{
    Reg::of_number(byte(b, 1) % 8 + 8 * (x % 2))
}

/// The register of an opcode's low bits.
fn low_register(x: u8, op: u8) -> Reg
    ensures { result ≡ register_at (opcode_register x op) }
{
    Reg::of_number(op % 8 + 8 * (x % 2))
}

/// The digit of the reg field.
fn digit_field(b: &[u8]) -> u8
    ensures { result ≡ digit b.now }
{
    byte(b, 1) / 8 % 8
}

/// Whether ModRM names memory.
fn names_memory(b: &[u8]) -> bool
    ensures { result ≡ is_memory b.now }
{
    byte(b, 1) < 192
}

/// The memory operand.
fn memory_operand(x: u8, b: &[u8]) -> Mem
    ensures { result ≡ mem_at x b.now }
{
    let disp = if byte(b, 1) % 8 == 4 {
        signed(b, 3)
    } else {
        signed(b, 2)
    };
    Mem {
        base: rm_field(x, b),
        disp,
    }
}

/// An operation of two registers.
fn alu(op: AluOp, x: u8, b: &[u8]) -> Inst
    ensures { result ≡ alu_of op x b.now }
{
    Inst::Alu {
        op,
        w: width(x),
        dst: rm_field(x, b),
        src: reg_field(x, b),
    }
}

/// A zero extension of memory or of a register.
fn zero(from: Width, x: u8, b: &[u8]) -> Inst
    ensures { result ≡ zero_of from x b.now }
{
    let dst = reg_field(x, b);
    if names_memory(b) {
        Inst::LoadZero {
            from,
            dst,
            mem: memory_operand(x, b),
        }
    } else {
        Inst::Zero {
            from,
            dst,
            src: rm_field(x, b),
        }
    }
}

/// A sign extension of memory or of a register.
fn sign(from: Width, x: u8, b: &[u8]) -> Inst
    ensures { result ≡ sign_of from x b.now }
{
    let dst = reg_field(x, b);
    if names_memory(b) {
        Inst::LoadSign {
            from,
            dst,
            mem: memory_operand(x, b),
        }
    } else {
        Inst::Sign {
            from,
            dst,
            src: rm_field(x, b),
        }
    }
}

/// A store or a copy; `small` says that there was a prefix.
fn mov(small: bool, x: u8, b: &[u8]) -> Inst
    ensures { result ≡ mov_of small x b.now }
{
    let w = width(x);
    let src = reg_field(x, b);
    if names_memory(b) {
        Inst::Store {
            w: if small { Width::W16 } else { w },
            mem: memory_operand(x, b),
            src,
        }
    } else {
        Inst::Mov {
            w,
            dst: rm_field(x, b),
            src,
        }
    }
}

/// An opcode of one byte with a ModRM byte.
fn read_operand(small: bool, x: u8, op: u8, b: &[u8]) -> Option<Inst>
    ensures { result ≡ guess_operand small x op b.now }
{
    Some(match op {
        0x01 => alu(AluOp::Add, x, b),
        0x09 => alu(AluOp::Or, x, b),
        0x21 => alu(AluOp::And, x, b),
        0x29 => alu(AluOp::Sub, x, b),
        0x31 => alu(AluOp::Xor, x, b),
        0x39 => alu(AluOp::Cmp, x, b),
        0x63 => sign(Width::W32, x, b),
        0x81 => Inst::AluImm {
            op: alu_of_digit(digit_field(b)),
            w: width(x),
            dst: rm_field(x, b),
            imm: signed(b, 2),
        },
        0x85 => alu(AluOp::Test, x, b),
        0x88 => Inst::Store {
            w: Width::W8,
            mem: memory_operand(x, b),
            src: reg_field(x, b),
        },
        0x89 => mov(small, x, b),
        0x8b => Inst::Load {
            w: width(x),
            dst: reg_field(x, b),
            mem: memory_operand(x, b),
        },
        0x8d => Inst::Lea {
            dst: reg_field(x, b),
            mem: memory_operand(x, b),
        },
        0xc7 => Inst::MovImm {
            dst: rm_field(x, b),
            imm: signed(b, 2),
        },
        0xd3 => Inst::Shift {
            op: shift_of_digit(digit_field(b)),
            w: width(x),
            dst: rm_field(x, b),
        },
        0xf7 => Inst::Unary {
            op: unary_of_digit(digit_field(b)),
            w: width(x),
            reg: rm_field(x, b),
        },
        _ => return None,
    })
}

/// An opcode of two bytes, of which `op` is the second.
fn read_two(x: u8, op: u8, b: &[u8]) -> Option<Inst>
    ensures { result ≡ guess_two x op b.now }
{
    if op / 16 == 8 {
        return Some(Inst::Jcc {
            cond: condition_of_code(op % 16),
            rel: signed(b, 1),
        });
    }
    if op / 16 == 9 {
        return Some(Inst::Setcc {
            cond: condition_of_code(op % 16),
            dst: rm_field(x, b),
        });
    }
    Some(match op {
        0x01 if byte(b, 1) == 0xef => Inst::Wrpkru,
        0x01 => Inst::Rdpkru,
        0xaf => Inst::Imul {
            w: width(x),
            dst: reg_field(x, b),
            src: rm_field(x, b),
        },
        0xb6 => zero(Width::W8, x, b),
        0xb7 => zero(Width::W16, x, b),
        0xbe => sign(Width::W8, x, b),
        0xbf => sign(Width::W16, x, b),
        _ => return None,
    })
}

/// The bytes behind the first.
fn behind_first(b: &[u8]) -> &[u8]
    ensures { result.now ≡ drop 1 b.now }
{
    match b {
        [] => b,
        [_, rest @ ..] => rest,
    }
}

/// An opcode of one byte, or the escape 0F and one of two bytes.
fn read_opcode(small: bool, x: u8, op: u8, b: &[u8]) -> Option<Inst>
    ensures { result ≡ guess_opcode small x op b.now }
{
    match op / 8 {
        10 => {
            return Some(Inst::Push {
                reg: low_register(x, op),
            });
        }
        11 => {
            return Some(Inst::Pop {
                reg: low_register(x, op),
            });
        }
        23 => {
            let imm = number(b, 1) as u64 + 0x1_0000_0000 * number(b, 5) as u64;
            return Some(Inst::MovImm64 {
                dst: low_register(x, op),
                imm,
            });
        }
        _ => {}
    }
    match op {
        0x0f => read_two(x, byte(b, 1), behind_first(b)),
        0x90 => Some(Inst::Nop),
        0x99 => Some(Inst::Cqo),
        0xc3 => Some(Inst::Ret),
        0xe8 => Some(Inst::Call { rel: signed(b, 1) }),
        0xe9 => Some(Inst::Jmp { rel: signed(b, 1) }),
        0xf4 => Some(Inst::Hlt),
        _ => read_operand(small, x, op, b),
    }
}

/// What stands behind the prefix; `small` says that there was one.
fn read_behind(small: bool, b: &[u8]) -> Option<Inst>
    ensures { result ≡ guess_behind small b.now }
{
    let first = byte(b, 0);
    if first / 16 == 4 {
        read_opcode(small, first % 16, byte(b, 1), behind_first(b))
    } else {
        read_opcode(small, 0, first, b)
    }
}

/// The one instruction whose spelling could begin the bytes.
pub fn read(b: &[u8]) -> Option<Inst>
    ensures { result ≡ guess b.now }
{
    if byte(b, 0) == 0x66 {
        read_behind(true, behind_first(b))
    } else {
        read_behind(false, b)
    }
}
