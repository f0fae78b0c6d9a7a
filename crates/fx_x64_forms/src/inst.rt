//! Instructions: one variant for each row of the instruction table.

use crate::operand::{Cond, Mem, Reg, Width};

/// The operation of an ALU instruction (SDM volume 2: ADD, SUB, AND, OR, XOR, CMP, TEST).
#[derive(Clone, Copy, Debug, PartialEq, Eq)]
pub enum AluOp {
    Add,
    Sub,
    And,
    Or,
    Xor,
    Cmp,
    Test,
}

/// The operation of a shift by CL (SDM volume 2: SAL/SAR/SHL/SHR).
#[derive(Clone, Copy, Debug, PartialEq, Eq)]
pub enum ShiftOp {
    Shl,
    Shr,
    Sar,
}

/// The operation of a one-operand instruction (SDM volume 2: NOT, NEG, DIV, IDIV).
#[derive(Clone, Copy, Debug, PartialEq, Eq)]
pub enum UnaryOp {
    Not,
    Neg,
    Div,
    Idiv,
}

/// An instruction of the subset. Which widths an instruction takes is said at its variant; a value
/// with another width is no row of the table and has no spelling.
#[derive(Clone, Copy, Debug, PartialEq, Eq)]
pub enum Inst {
    /// Copies a register; W32 or W64.
    Mov {
        w: Width,
        dst: Reg,
        src: Reg,
    },
    /// Loads a register; W32 or W64.
    Load {
        w: Width,
        dst: Reg,
        mem: Mem,
    },
    /// Loads and zero-extends; from W8 or W16.
    LoadZero {
        from: Width,
        dst: Reg,
        mem: Mem,
    },
    /// Loads and sign-extends to 64 bits; from W8, W16 or W32.
    LoadSign {
        from: Width,
        dst: Reg,
        mem: Mem,
    },
    /// Zero-extends a register's low part; from W8 or W16.
    Zero {
        from: Width,
        dst: Reg,
        src: Reg,
    },
    /// Sign-extends a register's low part to 64 bits; from W8, W16 or W32.
    Sign {
        from: Width,
        dst: Reg,
        src: Reg,
    },
    /// Stores a register's low part; any width.
    Store {
        w: Width,
        mem: Mem,
        src: Reg,
    },
    /// Sets a register to a constant, sign-extended to 64 bits.
    MovImm {
        dst: Reg,
        imm: i32,
    },
    /// Sets a register to a 64-bit constant.
    MovImm64 {
        dst: Reg,
        imm: u64,
    },
    /// Sets a register to the address of a memory operand.
    Lea {
        dst: Reg,
        mem: Mem,
    },
    /// An operation of two registers; W32 or W64.
    Alu {
        op: AluOp,
        w: Width,
        dst: Reg,
        src: Reg,
    },
    /// An operation of a register and a constant; any operation but Test; W32 or W64.
    AluImm {
        op: AluOp,
        w: Width,
        dst: Reg,
        imm: i32,
    },
    /// The low half of the signed product; W32 or W64.
    Imul {
        w: Width,
        dst: Reg,
        src: Reg,
    },
    /// Shifts by CL; W32 or W64.
    Shift {
        op: ShiftOp,
        w: Width,
        dst: Reg,
    },
    /// An operation of one operand; Div and Idiv divide RDX:RAX by it; W32 or W64.
    Unary {
        op: UnaryOp,
        w: Width,
        reg: Reg,
    },
    /// Fills RDX with the sign of RAX.
    Cqo,
    /// Sets a register's low byte to 1 where the condition holds, else to 0.
    Setcc {
        cond: Cond,
        dst: Reg,
    },
    /// Jumps where the condition holds; `rel` counts from the next instruction.
    Jcc {
        cond: Cond,
        rel: i32,
    },
    /// Jumps; `rel` counts from the next instruction.
    Jmp {
        rel: i32,
    },
    /// Pushes the next instruction's address and jumps.
    Call {
        rel: i32,
    },
    /// Pops RIP.
    Ret,
    /// Pushes a 64-bit register.
    Push {
        reg: Reg,
    },
    /// Pops a 64-bit register.
    Pop {
        reg: Reg,
    },
    /// Stops the machine.
    Hlt,
    /// Does nothing.
    Nop,
    /// Writes EAX to PKRU.
    Wrpkru,
    /// Reads PKRU into EAX.
    Rdpkru,
}
