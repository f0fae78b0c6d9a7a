//! Spells one instruction into a buffer.

ghost use Rattle.std.specs.Prelude.{◌≡◌, ◌+◌, ◌%◌, ◌<◌, ◌≤◌, ◌++◌, ◌∷◌, [], length, false, IsTrue};
ghost use Rattle.std.specs.Int.{to_le_bytes, w64};
ghost use Rattle.fx_x64_forms.specs.Numbers.{register_number};
ghost use Rattle.fx_x64_code.specs.Spelling.{spelling, has_row, rex, wide, needs_rex, memory, direct, on_register, on_memory, store_spelling, is_short, is_part, le32};
ghost use Rattle.fx_x64_code.specs.Codes.{zero_opcode, sign_opcode};

use crate::buffer::Buffer;
use crate::codes::{digit_of_alu, digit_of_shift, digit_of_unary, opcode_of_alu};
use fx_x64_forms::inst::Inst;
use fx_x64_forms::operand::{Mem, Reg, Width};

/// REX.W of a width.
fn wide_bit(w: Width) -> u8
    ensures value { result ≡ wide w }
    ensures small { result < 2 }
{
    match w {
        Width::W64 => 1,
        _ => 0,
    }
}

/// Whether an operand of this width in this register needs REX.
fn is_rex_needed(w: Width, register: u8) -> bool
    ensures { result ≡ needs_rex w register }
{
    match w {
        Width::W8 => register / 4 == 1,
        _ => false,
    }
}

/// Appends REX, where it stands.
fn push_rex(out: &mut Buffer, needed: bool, w: u8, field: u8, operand: u8)
    requires w { w < 2 }
    requires field { field < 16 }
    requires operand { operand < 16 }
    requires room { length out.old < 16 }
    ensures bytes { out.new ≡ out.old ++ rex needed w field operand }
    ensures len { length out.new ≤ length out.old + 1 }
{
    let bits = w * 8 + field / 8 * 4 + operand / 8;
    if bits == 0 && !needed {
        return;
    }
    out.push(64 + bits);
}

/// Appends ModRM of a register operand.
fn push_direct(out: &mut Buffer, field: u8, operand: u8)
    requires field { field < 16 }
    requires operand { operand < 16 }
    requires room { length out.old < 16 }
    ensures bytes { out.new ≡ out.old ++ direct field operand ∷ [] }
    ensures len { length out.new ≡ length out.old + 1 }
{
    out.push(192 + 8 * (field % 8) + operand % 8);
}

/// Appends ModRM, SIB and displacement of a memory operand.
fn push_memory(out: &mut Buffer, field: u8, mem: Mem)
    requires field { field < 16 }
    requires room { length out.old + 6 ≤ 16 }
    ensures { out.new ≡ out.old ++ memory field mem }
{
    let base = mem.base.number();
    out.push(128 + 8 * (field % 8) + base % 8);
    if base % 8 == 4 {
        out.push(0x24);
    }
    out.push_i32(mem.disp);
}

/// Appends an opcode of one byte and a register operand.
fn push_on_register(out: &mut Buffer, w: u8, opcode: u8, field: u8, operand: u8)
    requires w { w < 2 }
    requires field { field < 16 }
    requires operand { operand < 16 }
    requires room { length out.old + 3 ≤ 16 }
    ensures bytes { out.new ≡ out.old ++ on_register false w (opcode ∷ []) field operand }
    ensures len { length out.new ≤ length out.old + 3 }
{
    push_rex(out, false, w, field, operand);
    out.push(opcode);
    push_direct(out, field, operand);
}

/// Appends an opcode of two bytes and a register operand.
fn push_on_register_two(out: &mut Buffer, needed: bool, w: u8, opcode: u8, field: u8, operand: u8)
    requires w { w < 2 }
    requires field { field < 16 }
    requires operand { operand < 16 }
    requires room { length out.old + 4 ≤ 16 }
    ensures { out.new ≡ out.old ++ on_register needed w (0x0f ∷ opcode ∷ []) field operand }
{
    push_rex(out, needed, w, field, operand);
    out.push(0x0f);
    out.push(opcode);
    push_direct(out, field, operand);
}

/// Appends an opcode of one byte and a memory operand.
fn push_on_memory(out: &mut Buffer, needed: bool, w: u8, opcode: u8, field: u8, mem: Mem)
    requires w { w < 2 }
    requires field { field < 16 }
    requires room { length out.old + 8 ≤ 16 }
    ensures { out.new ≡ out.old ++ on_memory needed w (opcode ∷ []) field mem }
{
    push_rex(out, needed, w, field, mem.base.number());
    out.push(opcode);
    push_memory(out, field, mem);
}

/// Appends an opcode of two bytes and a memory operand.
fn push_on_memory_two(out: &mut Buffer, w: u8, opcode: u8, field: u8, mem: Mem)
    requires w { w < 2 }
    requires field { field < 16 }
    requires room { length out.old + 9 ≤ 16 }
    ensures { out.new ≡ out.old ++ on_memory false w (0x0f ∷ opcode ∷ []) field mem }
{
    push_rex(out, false, w, field, mem.base.number());
    out.push(0x0f);
    out.push(opcode);
    push_memory(out, field, mem);
}

/// The second opcode byte of a zero extension.
fn zero_extension(from: Width) -> u8
    requires { IsTrue (is_short from) }
    ensures { zero_opcode from ≡ 0x0f ∷ result ∷ [] }
{
    match from {
        Width::W8 => 0xb6,
        Width::W16 => 0xb7,
        Width::W32 | Width::W64 => unreachable!(),
    }
}

/// Appends a sign extension of a memory operand.
fn push_sign_memory(out: &mut Buffer, from: Width, field: u8, mem: Mem)
    requires row { IsTrue (is_part from) }
    requires field { field < 16 }
    requires room { length out.old + 9 ≤ 16 }
    ensures { out.new ≡ out.old ++ on_memory false 1 (sign_opcode from) field mem }
{
    match from {
        Width::W8 => push_on_memory_two(out, 1, 0xbe, field, mem),
        Width::W16 => push_on_memory_two(out, 1, 0xbf, field, mem),
        Width::W32 => push_on_memory(out, false, 1, 0x63, field, mem),
        Width::W64 => unreachable!(),
    }
}

/// Appends a sign extension of a register operand.
fn push_sign_register(out: &mut Buffer, from: Width, field: u8, operand: u8)
    requires row { IsTrue (is_part from) }
    requires field { field < 16 }
    requires operand { operand < 16 }
    requires room { length out.old + 4 ≤ 16 }
    ensures { out.new ≡ out.old ++ on_register false 1 (sign_opcode from) field operand }
{
    match from {
        Width::W8 => push_on_register_two(out, false, 1, 0xbe, field, operand),
        Width::W16 => push_on_register_two(out, false, 1, 0xbf, field, operand),
        Width::W32 => push_on_register(out, 1, 0x63, field, operand),
        Width::W64 => unreachable!(),
    }
}

/// Appends a store.
fn push_store(out: &mut Buffer, w: Width, src: u8, mem: Mem)
    requires src { src < 16 }
    requires room { length out.old + 9 ≤ 16 }
    ensures { out.new ≡ out.old ++ store_spelling w src mem }
{
    match w {
        Width::W8 => push_on_memory(out, is_rex_needed(w, src), 0, 0x88, src, mem),
        Width::W16 => {
            out.push(0x66);
            push_on_memory(out, false, 0, 0x89, src, mem);
        }
        Width::W32 => push_on_memory(out, false, 0, 0x89, src, mem),
        Width::W64 => push_on_memory(out, false, 1, 0x89, src, mem),
    }
}

/// Appends an opcode of one byte, a register operand and a constant.
fn push_on_register_constant(out: &mut Buffer, w: u8, opcode: u8, field: u8, operand: u8, imm: i32)
    requires w { w < 2 }
    requires field { field < 16 }
    requires operand { operand < 16 }
    requires room { length out.old + 7 ≤ 16 }
    ensures { out.new ≡ out.old ++ (on_register false w (opcode ∷ []) field operand ++ le32 imm) }
{
    push_on_register(out, w, opcode, field, operand);
    out.push_i32(imm);
}

/// Appends an opcode with a register in its low bits, which are 0 in `opcode`.
fn push_on_opcode(out: &mut Buffer, w: u8, opcode: u8, register: u8)
    requires w { w < 2 }
    requires register { register < 16 }
    requires opcode { opcode < 0xf8 }
    requires room { length out.old + 2 ≤ 16 }
    ensures bytes { out.new ≡ out.old ++ (rex false w 0 register ++ (opcode + register % 8) ∷ []) }
    ensures len { length out.new ≤ length out.old + 2 }
{
    push_rex(out, false, w, 0, register);
    out.push(opcode + register % 8);
}

/// Appends the load of a constant of 64 bits.
fn push_constant(out: &mut Buffer, register: u8, imm: u64)
    requires register { register < 16 }
    requires room { length out.old + 10 ≤ 16 }
    ensures { out.new ≡ out.old ++ (rex false 1 0 register ++ (0xb8 + register % 8) ∷ to_le_bytes w64 imm) }
{
    push_on_opcode(out, 1, 0xb8, register);
    out.push_u64(imm);
}

/// Appends a relative jump or call.
fn push_jump(out: &mut Buffer, opcode: u8, rel: i32)
    requires room { length out.old + 5 ≤ 16 }
    ensures { out.new ≡ out.old ++ opcode ∷ le32 rel }
{
    out.push(opcode);
    out.push_i32(rel);
}

/// Appends a relative jump on a condition.
fn push_jump_on(out: &mut Buffer, code: u8, rel: i32)
    requires code { code < 16 }
    requires room { length out.old + 6 ≤ 16 }
    ensures { out.new ≡ out.old ++ 0x0f ∷ (0x80 + code) ∷ le32 rel }
{
    out.push(0x0f);
    out.push(0x80 + code);
    out.push_i32(rel);
}

/// Appends two bytes, and three.
fn push_two(out: &mut Buffer, a: u8, b: u8)
    requires { length out.old + 2 ≤ 16 }
    ensures { out.new ≡ out.old ++ a ∷ b ∷ [] }
{
    out.push(a);
    out.push(b);
}

fn push_three(out: &mut Buffer, a: u8, b: u8, c: u8)
    requires { length out.old + 3 ≤ 16 }
    ensures { out.new ≡ out.old ++ a ∷ b ∷ c ∷ [] }
{
    push_two(out, a, b);
    out.push(c);
}

/// The one spelling of a row.
pub fn spell(i: &Inst) -> Buffer
    requires { IsTrue (has_row i.now) }
    ensures { result ≡ spelling i.now }
{
    let mut buffer = Buffer::new();
    let out = &mut buffer;
    match *i {
        Inst::Mov { w, dst, src } => {
            push_on_register(out, wide_bit(w), 0x89, src.number(), dst.number())
        }
        Inst::Load { w, dst, mem } => {
            push_on_memory(out, false, wide_bit(w), 0x8b, dst.number(), mem)
        }
        Inst::LoadZero { from, dst, mem } => {
            push_on_memory_two(out, 0, zero_extension(from), dst.number(), mem)
        }
        Inst::LoadSign { from, dst, mem } => push_sign_memory(out, from, dst.number(), mem),
        Inst::Zero { from, dst, src } => {
            let operand = src.number();
            let needed = is_rex_needed(from, operand);
            push_on_register_two(out, needed, 0, zero_extension(from), dst.number(), operand)
        }
        Inst::Sign { from, dst, src } => {
            push_sign_register(out, from, dst.number(), src.number())
        }
        Inst::Store { w, mem, src } => push_store(out, w, src.number(), mem),
        Inst::MovImm { dst, imm } => {
            push_on_register_constant(out, 1, 0xc7, 0, dst.number(), imm)
        }
        Inst::MovImm64 { dst, imm } => push_constant(out, dst.number(), imm),
        Inst::Lea { dst, mem } => push_on_memory(out, false, 1, 0x8d, dst.number(), mem),
        Inst::Alu { op, w, dst, src } => {
            push_on_register(
                out,
                wide_bit(w),
                opcode_of_alu(op),
                src.number(),
                dst.number(),
            )
        }
        Inst::AluImm { op, w, dst, imm } => {
            let digit = digit_of_alu(op);
            push_on_register_constant(out, wide_bit(w), 0x81, digit, dst.number(), imm)
        }
        Inst::Imul { w, dst, src } => {
            push_on_register_two(out, false, wide_bit(w), 0xaf, dst.number(), src.number())
        }
        Inst::Shift { op, w, dst } => {
            push_on_register(out, wide_bit(w), 0xd3, digit_of_shift(op), dst.number())
        }
        Inst::Unary { op, w, reg } => {
            push_on_register(out, wide_bit(w), 0xf7, digit_of_unary(op), reg.number())
        }
        Inst::Cqo => push_two(out, 0x48, 0x99),
        Inst::Setcc { cond, dst } => {
            let operand = dst.number();
            let needed = is_rex_needed(Width::W8, operand);
            push_on_register_two(out, needed, 0, 0x90 + cond.code(), 0, operand)
        }
        Inst::Jcc { cond, rel } => push_jump_on(out, cond.code(), rel),
        Inst::Jmp { rel } => push_jump(out, 0xe9, rel),
        Inst::Call { rel } => push_jump(out, 0xe8, rel),
        Inst::Ret => out.push(0xc3),
        Inst::Push { reg } => push_on_opcode(out, 0, 0x50, reg.number()),
        Inst::Pop { reg } => push_on_opcode(out, 0, 0x58, reg.number()),
        Inst::Hlt => out.push(0xf4),
        Inst::Nop => out.push(0x90),
        Inst::Wrpkru => push_three(out, 0x0f, 0x01, 0xef),
        Inst::Rdpkru => push_three(out, 0x0f, 0x01, 0xee),
    }
    buffer
}
