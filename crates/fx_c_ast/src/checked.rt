//! Trees as the type checker gives them on: a number stands for each name, each expression carries
//! its type, and each implicit conversion is written.

use crate::operator::{Binop, IntType, Unop};
use crate::parsed::{Bytes, Grant, Init, Name};
use crate::sequence::Sequence;

/// A type. A struct is given by its number in the program.
#[derive(Debug, Drop, PartialEq)]
pub enum Ty {
    Void,
    Int(IntType),
    Struct(u32),
    Ptr(Box<Ty>),
    Array(Box<Ty>, u32),
}

/// An expression with its type.
#[cycle(checked_expr)]
#[derive(Debug, Drop, PartialEq)]
pub struct TExpr {
    pub ty: Ty,
    pub kind: TKind,
}

/// What an expression is. `Convert` is an implicit conversion to the expression's type, `Member` and
/// `Arrow` name a member by its place in the struct.
#[cycle(checked_expr)]
#[derive(Debug, Drop, PartialEq)]
pub enum TKind {
    Number(u64),
    Literal(u32),
    Global(u32),
    Local(u16),
    Un(Unop, Box<TExpr>),
    Bin(Binop, Box<TExpr>, Box<TExpr>),
    Cast(Box<TExpr>),
    Convert(Box<TExpr>),
    Size(Ty),
    Index(Box<TExpr>, Box<TExpr>),
    Member(Box<TExpr>, u32),
    Arrow(Box<TExpr>, u32),
    Call(u32, Vec<TExpr>),
    Gate(u32, Vec<TExpr>),
    Getc,
    Putc(Box<TExpr>),
    DevLoad(u16, u16),
    DevStore(u16, u16, Box<TExpr>),
    Spawn(u32, Box<TExpr>),
    Switch(Box<TExpr>),
    Me,
}

/// A statement.
#[derive(Debug, Drop, PartialEq)]
pub enum TStmt {
    Empty,
    Block(Vec<TStmt>),
    Local { local: u16, init: Option<TExpr> },
    Eval(TExpr),
    Assign(TExpr, TExpr),
    If(TExpr, Box<TStmt>, Option<Box<TStmt>>),
    While(TExpr, Box<TStmt>),
    For(Option<Box<TStmt>>, Option<TExpr>, Option<Box<TStmt>>, Box<TStmt>),
    Break,
    Continue,
    Return(Option<TExpr>),
}

/// A member of a struct.
#[derive(Debug, Drop, PartialEq)]
pub struct TMember {
    pub ty: Ty,
    pub name: Name,
}

/// The members of a struct in order.
pub type TMembers = Sequence<TMember>;

/// A struct.
#[derive(Debug, Drop, PartialEq)]
pub struct TStruct {
    pub name: Name,
    pub members: TMembers,
}

/// A global variable with the number of its library.
#[derive(Debug, Drop, PartialEq)]
pub struct TGlobal {
    pub library: u8,
    pub grant: Grant,
    pub readers: Grant,
    pub ty: Ty,
    pub name: Name,
    pub init: Init,
}

/// A parameter or a local variable of a function.
#[derive(Debug, Drop, PartialEq)]
pub struct TLocal {
    pub shared: bool,
    pub ty: Ty,
}

/// The parameters and then the local variables of a function, in order of declaration.
pub type TLocals = Sequence<TLocal>;

/// A function with the number of its library. The first `params` of its locals are parameters.
#[derive(Debug, Drop, PartialEq)]
pub struct TFunction {
    pub library: u8,
    pub entry: bool,
    pub result: Ty,
    pub name: Name,
    pub params: u16,
    pub locals: TLocals,
    pub body: Vec<TStmt>,
}

/// The structs of a program.
pub type TStructs = Sequence<TStruct>;

/// The globals of a program.
pub type TGlobals = Sequence<TGlobal>;

/// The bytes of each string that stands in an expression, with the final zero.
pub type Literals = Sequence<Bytes>;

/// The functions of a program.
pub type TFunctions = Sequence<TFunction>;

/// A checked program; its lists are in program order, and `main` is the number of a function.
#[derive(Debug, Drop, PartialEq)]
pub struct TProgram {
    pub structs: TStructs,
    pub globals: TGlobals,
    pub literals: Literals,
    pub functions: TFunctions,
    pub main: u32,
}
