//! Draws instructions, every variant as often as the others.

use crate::draws::Draws;
use fx_x64_forms::inst::Inst;

/// An instruction with a memory operand.
fn on_memory(variant: u32, draws: &mut Draws) -> Inst {
    let w = draws.width();
    let register = draws.register();
    let mem = draws.memory();
    match variant {
        0 => Inst::Load {
            w,
            dst: register,
            mem,
        },
        1 => Inst::LoadZero {
            from: w,
            dst: register,
            mem,
        },
        2 => Inst::LoadSign {
            from: w,
            dst: register,
            mem,
        },
        3 => Inst::Store {
            w,
            mem,
            src: register,
        },
        _ => Inst::Lea { dst: register, mem },
    }
}

/// An instruction with two registers.
fn on_registers(variant: u32, draws: &mut Draws) -> Inst {
    let w = draws.width();
    let dst = draws.register();
    let src = draws.register();
    match variant {
        0 => Inst::Mov { w, dst, src },
        1 => Inst::Zero { from: w, dst, src },
        2 => Inst::Sign { from: w, dst, src },
        3 => Inst::Imul { w, dst, src },
        _ => Inst::Alu {
            op: draws.alu(),
            w,
            dst,
            src,
        },
    }
}

/// An instruction with one register.
fn on_register(variant: u32, draws: &mut Draws) -> Inst {
    let w = draws.width();
    let register = draws.register();
    match variant {
        0 => Inst::MovImm {
            dst: register,
            imm: draws.signed(),
        },
        1 => Inst::MovImm64 {
            dst: register,
            imm: draws.unsigned(),
        },
        2 => Inst::AluImm {
            op: draws.alu(),
            w,
            dst: register,
            imm: draws.signed(),
        },
        3 => Inst::Shift {
            op: draws.shift(),
            w,
            dst: register,
        },
        4 => Inst::Unary {
            op: draws.unary(),
            w,
            reg: register,
        },
        5 => Inst::Setcc {
            cond: draws.condition(),
            dst: register,
        },
        6 => Inst::Push { reg: register },
        _ => Inst::Pop { reg: register },
    }
}

/// An instruction without a register operand.
fn on_nothing(variant: u32, draws: &mut Draws) -> Inst {
    match variant {
        0 => Inst::Jcc {
            cond: draws.condition(),
            rel: draws.signed(),
        },
        1 => Inst::Jmp {
            rel: draws.signed(),
        },
        2 => Inst::Call {
            rel: draws.signed(),
        },
        3 => Inst::Ret,
        4 => Inst::Cqo,
        5 => Inst::Hlt,
        6 => Inst::Nop,
        7 => Inst::Wrpkru,
        _ => Inst::Rdpkru,
    }
}

/// The next instruction.
pub fn instruction(draws: &mut Draws) -> Inst {
    let variant = draws.below(27);
    match variant {
        0..=4 => on_memory(variant, draws),
        5..=9 => on_registers(variant - 5, draws),
        10..=17 => on_register(variant - 10, draws),
        _ => on_nothing(variant - 18, draws),
    }
}
