//! Opcodes and opcode extensions of operations, both ways (SDM volume 2, appendix A).

ghost use Rattle.std.specs.Prelude.{◌≡◌, ◌<◌};
ghost use Rattle.fx_x64_code.specs.Codes.{alu_opcode, alu_digit, alu_at, shift_digit, shift_at, unary_digit, unary_at, condition_at};

use fx_x64_forms::inst::{AluOp, ShiftOp, UnaryOp};
use fx_x64_forms::operand::Cond;

/// The opcode of an operation of two registers.
pub fn opcode_of_alu(op: AluOp) -> u8
    ensures { result ≡ alu_opcode op }
{
    match op {
        AluOp::Add => 0x01,
        AluOp::Or => 0x09,
        AluOp::And => 0x21,
        AluOp::Sub => 0x29,
        AluOp::Xor => 0x31,
        AluOp::Cmp => 0x39,
        AluOp::Test => 0x85,
    }
}

/// The digit of an operation with a constant.
pub fn digit_of_alu(op: AluOp) -> u8
    ensures value { result ≡ alu_digit op }
    ensures small { result < 8 }
{
    match op {
        AluOp::Add => 0,
        AluOp::Or => 1,
        AluOp::Test => 2,
        AluOp::And => 4,
        AluOp::Sub => 5,
        AluOp::Xor => 6,
        AluOp::Cmp => 7,
    }
}

/// The operation of a digit.
pub fn alu_of_digit(digit: u8) -> AluOp
    ensures { result ≡ alu_at digit }
{
    match digit {
        0 => AluOp::Add,
        1 => AluOp::Or,
        4 => AluOp::And,
        5 => AluOp::Sub,
        6 => AluOp::Xor,
        7 => AluOp::Cmp,
        _ => AluOp::Test,
    }
}

/// The digit of a shift.
pub fn digit_of_shift(op: ShiftOp) -> u8
    ensures value { result ≡ shift_digit op }
    ensures small { result < 8 }
{
    match op {
        ShiftOp::Shl => 4,
        ShiftOp::Shr => 5,
        ShiftOp::Sar => 7,
    }
}

/// The shift of a digit.
pub fn shift_of_digit(digit: u8) -> ShiftOp
    ensures { result ≡ shift_at digit }
{
    match digit {
        0..=4 => ShiftOp::Shl,
        5 | 6 => ShiftOp::Shr,
        _ => ShiftOp::Sar,
    }
}

/// The digit of an operation of one operand.
pub fn digit_of_unary(op: UnaryOp) -> u8
    ensures value { result ≡ unary_digit op }
    ensures small { result < 8 }
{
    match op {
        UnaryOp::Not => 2,
        UnaryOp::Neg => 3,
        UnaryOp::Div => 6,
        UnaryOp::Idiv => 7,
    }
}

/// The operation of a digit.
pub fn unary_of_digit(digit: u8) -> UnaryOp
    ensures { result ≡ unary_at digit }
{
    match digit {
        0..=2 => UnaryOp::Not,
        3..=5 => UnaryOp::Neg,
        6 => UnaryOp::Div,
        _ => UnaryOp::Idiv,
    }
}

/// The condition of a code.
pub fn condition_of_code(code: u8) -> Cond
    ensures { result ≡ condition_at code }
{
    match code {
        0 => Cond::O,
        1 => Cond::No,
        2 => Cond::B,
        3 => Cond::Ae,
        4 => Cond::E,
        5 => Cond::Ne,
        6 => Cond::Be,
        7 => Cond::A,
        8 => Cond::S,
        9..=11 => Cond::Ns,
        12 => Cond::L,
        13 => Cond::Ge,
        14 => Cond::Le,
        _ => Cond::G,
    }
}
