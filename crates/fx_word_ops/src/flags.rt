//! The flags of a result, and the bitwise operations.

/// The arithmetic flags (SDM volume 1, section 3.4.3.1).
#[derive(Clone, Copy, Debug, PartialEq, Eq)]
pub struct Flags {
    /// Carry: the unsigned result didn't fit.
    pub cf: bool,
    /// Zero: the result is 0.
    pub zf: bool,
    /// Sign: the result's top bit.
    pub sf: bool,
    /// Overflow: the signed result didn't fit.
    pub of: bool,
}

/// A bitwise operation.
#[derive(Clone, Copy, Debug, PartialEq, Eq)]
pub enum LogicOp {
    And,
    Or,
    Xor,
}
