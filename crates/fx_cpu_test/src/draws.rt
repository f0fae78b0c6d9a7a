//! A fixed sequence of draws: Knuth's linear congruential generator with MMIX's constants.

ghost use Rattle.std.specs.Prelude.{◌<◌};

use fx_x64_forms::inst::{AluOp, ShiftOp, UnaryOp};
use fx_x64_forms::operand::{Cond, Mem, Reg, Width};

const WIDTHS: [Width; 4] = [Width::W8, Width::W16, Width::W32, Width::W64];

const CONDS: [Cond; 14] = [
    Cond::O,
    Cond::No,
    Cond::B,
    Cond::Ae,
    Cond::E,
    Cond::Ne,
    Cond::Be,
    Cond::A,
    Cond::S,
    Cond::Ns,
    Cond::L,
    Cond::Ge,
    Cond::Le,
    Cond::G,
];

const ALU_OPS: [AluOp; 7] = [
    AluOp::Add,
    AluOp::Sub,
    AluOp::And,
    AluOp::Or,
    AluOp::Xor,
    AluOp::Cmp,
    AluOp::Test,
];

const SHIFT_OPS: [ShiftOp; 3] = [ShiftOp::Shl, ShiftOp::Shr, ShiftOp::Sar];

const UNARY_OPS: [UnaryOp; 4] = [UnaryOp::Not, UnaryOp::Neg, UnaryOp::Div, UnaryOp::Idiv];

/// Where the sequence stands.
#[derive(Drop)]
pub struct Draws {
    state: u64,
}

impl Draws {
    pub fn new() -> Draws {
        Draws { state: 1 }
    }

    /// The next number of 32 bits.
    fn bits(&mut self) -> u32 {
        self.state = self
            .state
            .wrapping_mul(6364136223846793005)
            .wrapping_add(1442695040888963407);
        (self.state >> 32) as u32
    }

    /// A number below a limit.
    pub fn below(&mut self, limit: u32) -> u32
        requires { 0 < limit }
        ensures { result < limit }
    {
        self.bits() % limit
    }

    /// A number of 32 bits, small ones as often as large ones.
    pub fn signed(&mut self) -> i32 {
        let count = self.below(32);
        self.bits().cast_signed() >> count
    }

    /// A number of 64 bits, small ones as often as large ones.
    pub fn unsigned(&mut self) -> u64 {
        let count = self.below(64);
        let low = u64::from(self.bits());
        (u64::from(self.bits()) << 32 | low) >> count
    }

    pub fn register(&mut self) -> Reg {
        Reg::of_number(self.below(16) as u8)
    }

    pub fn memory(&mut self) -> Mem {
        Mem {
            base: self.register(),
            disp: self.signed(),
        }
    }

    pub fn width(&mut self) -> Width {
        WIDTHS[self.below(4) as usize]
    }

    pub fn condition(&mut self) -> Cond {
        CONDS[self.below(14) as usize]
    }

    pub fn alu(&mut self) -> AluOp {
        ALU_OPS[self.below(7) as usize]
    }

    pub fn shift(&mut self) -> ShiftOp {
        SHIFT_OPS[self.below(3) as usize]
    }

    pub fn unary(&mut self) -> UnaryOp {
        UNARY_OPS[self.below(4) as usize]
    }
}
