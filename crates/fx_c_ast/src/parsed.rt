//! Trees as the grammar gives them: names are names, and types are as they are written.

use crate::operator::{Binop, IntType, Unop};
use crate::sequence::Sequence;

/// An identifier's bytes.
pub type Name = Sequence<u8>;

/// A string's bytes with the escapes replaced and without the final zero.
pub type Bytes = Sequence<u8>;

/// A list of names.
pub type Names = Sequence<Name>;

/// A type as it is written.
#[derive(Debug, Drop, PartialEq)]
pub enum TypeName {
    Void,
    Int(IntType),
    Struct(Name),
    Ptr(Box<TypeName>),
    Array(Box<TypeName>, u32),
}

/// An expression. Parentheses leave no node.
#[derive(Debug, Drop, PartialEq)]
pub enum Expr {
    Number { value: u64, ty: IntType },
    Text(Bytes),
    Var(Name),
    Un(Unop, Box<Expr>),
    Bin(Binop, Box<Expr>, Box<Expr>),
    Cast(TypeName, Box<Expr>),
    Size(TypeName),
    Index(Box<Expr>, Box<Expr>),
    Member(Box<Expr>, Name),
    Arrow(Box<Expr>, Name),
    Call(Name, Vec<Expr>),
    Gate(Name, Vec<Expr>),
    Getc,
    Putc(Box<Expr>),
    DevLoad(u16, u16),
    DevStore(u16, u16, Box<Expr>),
    Spawn(Name, Box<Expr>),
    Switch(Box<Expr>),
    Me,
}

/// A statement.
#[derive(Debug, Drop, PartialEq)]
pub enum Stmt {
    Empty,
    Block(Vec<Stmt>),
    Local {
        shared: bool,
        ty: TypeName,
        name: Name,
        init: Option<Expr>,
    },
    Eval(Expr),
    Assign(Expr, Expr),
    If(Expr, Box<Stmt>, Option<Box<Stmt>>),
    While(Expr, Box<Stmt>),
    For(Option<Box<Stmt>>, Option<Expr>, Option<Box<Stmt>>, Box<Stmt>),
    Break,
    Continue,
    Return(Option<Expr>),
}

/// To whom an annotation grants a global: to nobody, to the libraries named, or to all.
#[derive(Debug, Drop, PartialEq)]
pub enum Grant {
    Private,
    Libraries(Names),
    All,
}

/// A global's initial value.
#[derive(Debug, Drop, PartialEq)]
pub enum Init {
    Zero,
    Number(u64),
    Text(Bytes),
}

/// A parameter of a function.
#[derive(Debug, Drop, PartialEq)]
pub struct Param {
    pub shared: bool,
    pub ty: TypeName,
    pub name: Name,
}

/// The members of a struct, each with its type.
pub type Fields = Sequence<(TypeName, Name)>;

/// The parameters of a function.
pub type Params = Sequence<Param>;

/// A declaration. The grant of a global is by `__shared`, its readers are by `__read`.
#[derive(Debug, Drop, PartialEq)]
pub enum Decl {
    Struct {
        name: Name,
        members: Fields,
    },
    Global {
        grant: Grant,
        readers: Grant,
        ty: TypeName,
        name: Name,
        init: Init,
    },
    Function {
        entry: bool,
        result: TypeName,
        name: Name,
        params: Params,
        body: Vec<Stmt>,
    },
}

/// Declarations in the order of the text.
pub type Decls = Sequence<Decl>;

/// A source file.
#[derive(Debug, Drop, PartialEq)]
pub struct Unit {
    pub decls: Decls,
}
