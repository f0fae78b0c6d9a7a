//! What is to be done after the current step, and the steps.

use fx_c_ast::checked::{TExpr, TStmt, Ty};
use fx_c_ast::operator::{Binop, Unop};
use fx_c_mean_blocks::value::{Cell, Value};

/// How a function comes to be called: by a call, by a gate, or as a thread's first.
#[derive(Clone, Copy)]
pub enum Way {
    Plainly,
    ByGate,
    First,
}

/// A call that goes on: the function, and the object of its first parameter or local.
#[derive(Clone, Copy)]
pub struct Call {
    pub function: u32,
    pub base: usize,
}

/// The most arguments of a call.
pub const ARGUMENTS: usize = 6;

/// Values of arguments, of which there are at most six.
#[derive(Clone, Copy)]
pub struct Values {
    pub items: [Value; ARGUMENTS],
    pub len: usize,
}

/// What is to be done with a value, or once a statement is done. A loop and a choice are named by their
/// statements.
#[derive(Clone, Copy)]
pub enum Frame<'p> {
    Loads(&'p Ty),
    Applies(Unop, &'p Ty),
    Converts(&'p Ty, &'p Ty),
    Steps(&'p Ty, u32),
    Second(Binop, &'p Ty, &'p TExpr),
    Combines(Binop, &'p Ty, &'p Ty, Value),
    Decides(Binop, &'p TExpr),
    Truth,
    Arguments {
        function: u32,
        way: Way,
        before: Values,
        more: &'p [TExpr],
    },
    Tells(u16, u16),
    Spawns(u32),
    Switches,
    Target(&'p Ty, &'p TExpr),
    Into(&'p Ty, Value),
    Discards,
    Forks(&'p TStmt),
    Tests(&'p TStmt),
    Answers,
    Then(&'p [TStmt]),
    Enters(&'p TStmt),
    Body(&'p TStmt),
    Third(&'p TStmt),
    Caller(Call, bool),
}

/// The next step that costs something.
#[derive(Clone, Copy)]
pub enum Act<'p> {
    Push(Value),
    SizeOf(&'p Ty),
    GlobalAddress(u32),
    LiteralAddress(u32),
    LocalAddress(u16),
    Load(&'p Ty, Value),
    Apply(Unop, &'p Ty, Value),
    Convert(&'p Ty, &'p Ty, Value),
    Step(&'p Ty, u32, Value),
    Combine(Binop, &'p Ty, &'p Ty, Value, Value),
    Decide(Binop, &'p TExpr, Value),
    Judge(Value),
    Enter {
        function: u32,
        way: Way,
        values: Values,
    },
    Ask(u16, u16),
    Tell(u16, u16, Value),
    Spawn(u32, Value),
    Switch(Value),
    Own,
    Store(&'p Ty, Value, Value),
    ReadByte(&'p Ty, Value, Value, u32),
    WriteByte(&'p Ty, Value, Value, u32, Cell),
    Branch(Value, &'p TStmt),
    Test(Value, &'p TStmt),
    JumpBack(&'p TStmt),
    Break,
    Continue,
    Leave(Value),
    FallOff,
    Stuck,
}

/// Where a thread stands: at a step, or on the way to one by what costs nothing.
#[derive(Clone, Copy)]
pub enum Now<'p> {
    /// The next step.
    Does(Act<'p>),
    /// An expression is to be evaluated.
    Starts(&'p TExpr),
    /// An expression is to be evaluated, up to an lvalue's address.
    Reaches(&'p TExpr),
    /// There is a value.
    Gives(Value),
    /// A statement is to be executed.
    Begins(&'p TStmt),
    /// Statements are to be executed.
    BeginsAll(&'p [TStmt]),
    /// A loop begins with its test.
    BeginsLoop(&'p TStmt),
    /// A loop's body is to be executed.
    BeginsBody(&'p TStmt),
    /// A loop's body is done.
    EndsBody(&'p TStmt),
    /// A statement is done.
    Follows,
}
