//! The integer types and the operators.

/// An integer type.
#[derive(Clone, Copy, Debug, PartialEq, Eq)]
pub enum IntType {
    Char,
    Uchar,
    Short,
    Ushort,
    Int,
    Uint,
    Long,
    Ulong,
}

/// A unary operator: `-`, `~`, `!`, `*`, `&`.
#[derive(Clone, Copy, Debug, PartialEq, Eq)]
pub enum Unop {
    Neg,
    Not,
    Lnot,
    Deref,
    Addr,
}

/// A binary operator. `Land` and `Lor` are `&&` and `||`.
#[derive(Clone, Copy, Debug, PartialEq, Eq)]
pub enum Binop {
    Add,
    Sub,
    Mul,
    Div,
    Rem,
    Shl,
    Shr,
    Lt,
    Gt,
    Le,
    Ge,
    Eq,
    Ne,
    And,
    Xor,
    Or,
    Land,
    Lor,
}
