//! Values, and the cells that they are kept in.

/// A place in an object, or the place one past its end.
#[derive(Clone, Copy, Debug, PartialEq, Eq)]
pub struct Pointer {
    /// The object's number.
    pub object: u32,
    /// How many bytes from the object's first.
    pub offset: u32,
}

/// A value of an expression.
#[derive(Clone, Copy, Debug, PartialEq, Eq)]
pub enum Value {
    /// No value: the result of a `void` function and of the operations that give none.
    Void,
    /// A value of an integer type, as the word that stands for it in two's complement, below 2 ^ 8,
    /// 2 ^ 16, 2 ^ 32 or 2 ^ 64 by the type's size.
    Number(u64),
    /// The null pointer.
    Null,
    /// A pointer to an object. The address of an lvalue is one too.
    Address(Pointer),
}

/// What a byte of an object holds.
#[derive(Clone, Copy, Debug, PartialEq, Eq)]
pub enum Cell {
    Byte(u8),
    /// Part `part`, from 0 to 7, of a pointer.
    Part { part: u8, pointer: Pointer },
}
