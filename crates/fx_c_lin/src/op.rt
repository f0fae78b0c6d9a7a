//! Ops, each with its cost, and the code of a program.

use fx_c_ast::checked::Ty;
use fx_c_ast::operator::{Binop, IntType, Unop};
use fx_c_ast::sequence::Sequence;

/// Where the right operand of an op is: on top of the stack, in the op, or in a local variable of
/// integer or pointer type, which is given by its number among the variables of its function.
#[derive(Clone, Copy, Debug, PartialEq, Eq)]
pub enum Right {
    Pending,
    Number(u64),
    Local(u16),
}

/// What is compared: two integers of a type, or two pointers.
#[derive(Clone, Copy, Debug, PartialEq, Eq)]
pub enum Compared {
    Integers(IntType),
    Pointers,
}

/// An op. The operands that it takes are the latest ones of the stack, the right one on top; what
/// it leaves, if not said otherwise, is one value on top. A call of a function that returns nothing,
/// `Switch`, `DevStore` and `Putc` leave the value `Void`.
///
/// An op on a local variable and an op whose right operand isn't pending stand for several ops.
#[derive(Debug, Drop, PartialEq)]
pub enum Op {
    /// The word of an integer, or 0 for a null pointer.
    Number(u64),
    /// The address of a variable of the function.
    LocalAddr(u16),
    /// The value of a variable of the function, which is an integer or a pointer.
    LoadLocal(u16),
    /// Takes a value and stores it in a variable of the function; leaves nothing.
    StoreLocal(u16),
    /// The address of a global variable, by its number in the program.
    GlobalAddr(u32),
    /// The address of a string, by its number in the program.
    LiteralAddr(u32),
    /// The value of an integer or pointer type at an address.
    Load(Ty),
    /// Takes an address and a value of an integer or pointer type, and stores it; leaves nothing.
    Store(Ty),
    /// Takes two addresses and copies so many bytes from the second to the first, byte by byte;
    /// leaves nothing.
    Copy(u32),
    /// An integer under an operator, at its type.
    Unary(Unop, IntType),
    /// Two integers under an operator, at the type of the left one.
    Binary(Binop, IntType, Right),
    /// 1 or 0 by a comparison of two pointers.
    PtrCompare(Binop, Right),
    /// Compares two operands and goes to a position where the comparison is false; leaves nothing.
    CompareJump(Binop, Compared, Right, u32),
    /// An integer of the first type as one of the second.
    Convert(IntType, IntType),
    /// A pointer moved by so many elements of a size in bytes. A pending number is a `long`; a
    /// variable is read as its type says.
    Index(u32, Right),
    /// An integer, and a pointer above it: the pointer moved by so many elements of a size in bytes.
    /// The integer is a `long`.
    IndexLeft(u32),
    /// A pointer, and a `long` above it: the pointer moved back by so many elements of a size in
    /// bytes.
    Back(u32),
    /// The difference of two pointers in elements of a size in bytes.
    Difference(u32),
    /// A pointer so many bytes on.
    Offset(u32),
    /// Goes to a position; leaves nothing.
    Jump(u32),
    /// Takes an integer and goes to a position where it is 0; leaves nothing. A pointer is compared
    /// with null by `CompareJump` instead.
    JumpZero(u32),
    /// Calls a function by its number, with as many operands as it has parameters.
    Call(u32),
    /// Calls an entry function of a compartment by its number, as `Call`.
    Gate(u32),
    /// Makes a thread that calls a function with the operand; leaves the thread's number.
    Spawn(u32),
    /// Switches to the thread of the operand's number; leaves `Void`.
    Switch,
    /// The number of the running thread.
    Me,
    /// The word that a device gives in a register, by their numbers.
    DevLoad(u16, u16),
    /// Takes a word for a device's register, whose numbers these are; leaves `Void`.
    DevStore(u16, u16),
    /// The next byte from the console.
    Getc,
    /// Takes a byte for the console; leaves `Void`.
    Putc,
    /// Takes a value; leaves nothing.
    Drop,
    /// Returns with the value on top of the stack, or with none where the stack is empty.
    Return,
}

/// An op with its cost in the units of the meaning of C. A source step that has no op of its own is
/// in the cost of the op that follows it. An op of cost 0 is done together with the op before it.
#[derive(Debug, Drop, PartialEq)]
pub struct Step {
    pub op: Op,
    pub cost: u32,
}

/// The code of a function. A position is the number of a step; the function begins at 0.
pub type Steps = Sequence<Step>;

/// The code of a program: that of each of its functions, in program order.
#[derive(Debug, Drop, PartialEq)]
pub struct Code {
    pub functions: Sequence<Steps>,
}
