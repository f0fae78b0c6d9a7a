//! Operands: widths, registers, condition codes and memory operands.

ghost use Rattle.std.specs.Prelude.{◌≡◌, ◌<◌, ◌*◌, ◌^◌, ◌-◌};
ghost use Rattle.fx_x64_forms.specs.Numbers.{register_number, register_at, condition_code, width_bytes};

/// An operand's width: 8, 16, 32 or 64 bits.
#[derive(Clone, Copy, Debug, PartialEq, Eq)]
pub enum Width {
    W8,
    W16,
    W32,
    W64,
}

impl Width {
    /// The bytes of an operand of this width: 1, 2, 4 or 8.
    pub fn bytes(self) -> u8
        ensures value { result ≡ width_bytes self }
        ensures small { result < 9 }
    {
        match self {
            Width::W8 => 1,
            Width::W16 => 2,
            Width::W32 => 4,
            Width::W64 => 8,
        }
    }
}

/// A general-purpose register, in the order of its number from 0 to 15 (SDM volume 2, table 3-1 and
/// the REX extensions of section 2.2.1.2).
#[derive(Clone, Copy, Debug, PartialEq, Eq)]
pub enum Reg {
    Rax,
    Rcx,
    Rdx,
    Rbx,
    Rsp,
    Rbp,
    Rsi,
    Rdi,
    R8,
    R9,
    R10,
    R11,
    R12,
    R13,
    R14,
    R15,
}

impl Reg {
    /// The register's number, 0 to 15.
    pub fn number(self) -> u8
        ensures value { result ≡ register_number self }
        ensures small { result < 16 }
    {
        match self {
            Reg::Rax => 0,
            Reg::Rcx => 1,
            Reg::Rdx => 2,
            Reg::Rbx => 3,
            Reg::Rsp => 4,
            Reg::Rbp => 5,
            Reg::Rsi => 6,
            Reg::Rdi => 7,
            Reg::R8 => 8,
            Reg::R9 => 9,
            Reg::R10 => 10,
            Reg::R11 => 11,
            Reg::R12 => 12,
            Reg::R13 => 13,
            Reg::R14 => 14,
            Reg::R15 => 15,
        }
    }

    /// The register of a number from 0 to 15.
    pub fn of_number(number: u8) -> Reg
        requires { number < 16 }
        ensures value { result ≡ register_at number }
    {
        match number {
            0 => Reg::Rax,
            1 => Reg::Rcx,
            2 => Reg::Rdx,
            3 => Reg::Rbx,
            4 => Reg::Rsp,
            5 => Reg::Rbp,
            6 => Reg::Rsi,
            7 => Reg::Rdi,
            8 => Reg::R8,
            9 => Reg::R9,
            10 => Reg::R10,
            11 => Reg::R11,
            12 => Reg::R12,
            13 => Reg::R13,
            14 => Reg::R14,
            _ => Reg::R15,
        }
    }
}

/// A condition of Jcc and SETcc (SDM volume 1, appendix B; parity is left out).
#[derive(Clone, Copy, Debug, PartialEq, Eq)]
pub enum Cond {
    /// Overflow.
    O,
    /// No overflow.
    No,
    /// Below (carry).
    B,
    /// Above or equal (no carry).
    Ae,
    /// Equal (zero).
    E,
    /// Not equal (not zero).
    Ne,
    /// Below or equal.
    Be,
    /// Above.
    A,
    /// Sign.
    S,
    /// No sign.
    Ns,
    /// Less, signed.
    L,
    /// Greater or equal, signed.
    Ge,
    /// Less or equal, signed.
    Le,
    /// Greater, signed.
    G,
}

impl Cond {
    /// The condition's four-bit code in Jcc and SETcc.
    pub fn code(self) -> u8
        ensures value { result ≡ condition_code self }
        ensures small { result < 16 }
    {
        match self {
            Cond::O => 0,
            Cond::No => 1,
            Cond::B => 2,
            Cond::Ae => 3,
            Cond::E => 4,
            Cond::Ne => 5,
            Cond::Be => 6,
            Cond::A => 7,
            Cond::S => 8,
            Cond::Ns => 9,
            Cond::L => 12,
            Cond::Ge => 13,
            Cond::Le => 14,
            Cond::G => 15,
        }
    }
}

/// A memory operand: the address is the base register plus the displacement, modulo 2^64.
#[derive(Clone, Copy, Debug, PartialEq, Eq)]
pub struct Mem {
    pub base: Reg,
    pub disp: i32,
}
