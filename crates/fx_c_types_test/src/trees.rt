//! Checked trees in words: each expression as its type, a colon, and what it is.

use fx_c_ast::checked::{TExpr, TFunction, TKind, TProgram, TStmt, Ty};
use fx_c_ast::operator::IntType;
use std::alloc::{AllocError, Global};

fn append_number(alloc: Global, text: &mut String, number: u64) -> Result<(), AllocError> {
    text.push_str(format!(in alloc; "{number}")?.as_str())
}

fn append_type(alloc: Global, text: &mut String, t: &Ty) -> Result<(), AllocError> {
    match t {
        Ty::Void => text.push_str("void"),
        Ty::Int(i) => text.push_str(match i {
            IntType::Char => "char",
            IntType::Uchar => "uchar",
            IntType::Short => "short",
            IntType::Ushort => "ushort",
            IntType::Int => "int",
            IntType::Uint => "uint",
            IntType::Long => "long",
            IntType::Ulong => "ulong",
        }),
        Ty::Struct(number) => {
            text.push_str("struct")?;
            append_number(alloc, text, *number as u64)
        }
        Ty::Ptr(to) => {
            append_type(alloc, text, to)?;
            text.push('*')
        }
        Ty::Array(of, count) => {
            append_type(alloc, text, of)?;
            text.push('[')?;
            append_number(alloc, text, *count as u64)?;
            text.push(']')
        }
    }
}

// A word and a number.
fn append_numbered(
    alloc: Global,
    text: &mut String,
    word: &str,
    number: u64,
) -> Result<(), AllocError> {
    text.push_str(word)?;
    append_number(alloc, text, number)
}

// What an expression without operands is.
fn append_leaf(alloc: Global, text: &mut String, kind: &TKind) -> Result<(), AllocError> {
    match kind {
        TKind::Number(value) => append_number(alloc, text, *value),
        TKind::Literal(n) => append_numbered(alloc, text, "string", *n as u64),
        TKind::Global(n) => append_numbered(alloc, text, "global", *n as u64),
        TKind::Local(n) => append_numbered(alloc, text, "local", *n as u64),
        TKind::Size(t) => {
            text.push_str("sizeof ")?;
            append_type(alloc, text, t)
        }
        TKind::Getc => text.push_str("getc"),
        TKind::DevLoad(device, register) => {
            append_numbered(alloc, text, "in ", *device as u64)?;
            append_numbered(alloc, text, " ", *register as u64)
        }
        TKind::Me => text.push_str("self"),
        _ => Ok(()),
    }
}

// A word and what stands in parentheses behind it.
#[cycle(shown)]
fn append_one(alloc: Global, text: &mut String, word: &str, e: &TExpr) -> Result<(), AllocError> {
    text.push_str(word)?;
    text.push('(')?;
    append_expression(alloc, text, e)?;
    text.push(')')
}

#[cycle(shown)]
fn append_all(
    alloc: Global,
    text: &mut String,
    word: &str,
    number: u32,
    all: &[TExpr],
) -> Result<(), AllocError> {
    append_numbered(alloc, text, word, number as u64)?;
    text.push('(')?;
    for (i, e) in all.iter().enumerate() {
        if i > 0 {
            text.push_str(", ")?;
        }
        append_expression(alloc, text, e)?;
    }
    text.push(')')
}

// What an expression with operands is.
#[cycle(shown)]
fn append_kind(alloc: Global, text: &mut String, kind: &TKind) -> Result<(), AllocError> {
    match kind {
        TKind::Un(op, e) => append_one(alloc, text, format!(in alloc; "{op:?}")?.as_str(), e),
        TKind::Bin(op, a, b) => {
            append_one(alloc, text, format!(in alloc; "{op:?}")?.as_str(), a)?;
            append_one(alloc, text, "", b)
        }
        TKind::Cast(e) => append_one(alloc, text, "cast", e),
        TKind::Convert(e) => append_one(alloc, text, "convert", e),
        TKind::Index(a, b) => {
            append_one(alloc, text, "index", a)?;
            append_one(alloc, text, "", b)
        }
        TKind::Member(e, n) => {
            append_one(alloc, text, "member", e)?;
            append_number(alloc, text, *n as u64)
        }
        TKind::Arrow(e, n) => {
            append_one(alloc, text, "arrow", e)?;
            append_number(alloc, text, *n as u64)
        }
        TKind::Call(f, all) => append_all(alloc, text, "call ", *f, all),
        TKind::Gate(f, all) => append_all(alloc, text, "gate ", *f, all),
        TKind::Putc(e) => append_one(alloc, text, "putc", e),
        TKind::DevStore(device, register, e) => {
            append_numbered(alloc, text, "out ", *device as u64)?;
            append_numbered(alloc, text, " ", *register as u64)?;
            append_one(alloc, text, "", e)
        }
        TKind::Spawn(f, e) => {
            append_numbered(alloc, text, "spawn ", *f as u64)?;
            append_one(alloc, text, "", e)
        }
        TKind::Switch(e) => append_one(alloc, text, "switch", e),
        leaf => append_leaf(alloc, text, leaf),
    }
}

/// Appends an expression.
#[cycle(shown)]
fn append_expression(alloc: Global, text: &mut String, e: &TExpr) -> Result<(), AllocError> {
    append_type(alloc, text, &e.ty)?;
    text.push(':')?;
    append_kind(alloc, text, &e.kind)
}

fn append_maybe(alloc: Global, text: &mut String, e: &Option<TExpr>) -> Result<(), AllocError> {
    match e {
        None => Ok(()),
        Some(e) => append_expression(alloc, text, e),
    }
}

#[cycle(shown_statement)]
fn append_held(alloc: Global, text: &mut String, s: &Option<Box<TStmt>>) -> Result<(), AllocError> {
    match s {
        None => Ok(()),
        Some(s) => append_statement(alloc, text, s),
    }
}

#[cycle(shown_statement)]
fn append_statements(alloc: Global, text: &mut String, all: &[TStmt]) -> Result<(), AllocError> {
    for s in all {
        append_statement(alloc, text, s)?;
    }
    Ok(())
}

// Each statement that has no parts of its own on a line.
#[cycle(shown_statement)]
fn append_statement(alloc: Global, text: &mut String, s: &TStmt) -> Result<(), AllocError> {
    match s {
        TStmt::Empty => Ok(()),
        TStmt::Block(all) => append_statements(alloc, text, all),
        TStmt::Local { local, init } => {
            append_numbered(alloc, text, "\n  local", *local as u64)?;
            if init.is_some() {
                text.push_str(" = ")?;
            }
            append_maybe(alloc, text, init)
        }
        TStmt::Eval(e) => {
            text.push_str("\n  ")?;
            append_expression(alloc, text, e)
        }
        TStmt::Assign(to, e) => {
            text.push_str("\n  ")?;
            append_expression(alloc, text, to)?;
            text.push_str(" = ")?;
            append_expression(alloc, text, e)
        }
        TStmt::If(test, s, other) => {
            text.push_str("\n  if ")?;
            append_expression(alloc, text, test)?;
            append_statement(alloc, text, s)?;
            if other.is_some() {
                text.push_str("\n  else")?;
            }
            append_held(alloc, text, other)?;
            text.push_str("\n  end of if")
        }
        TStmt::While(test, s) => {
            text.push_str("\n  while ")?;
            append_expression(alloc, text, test)?;
            append_statement(alloc, text, s)
        }
        TStmt::For(first, test, next, s) => {
            text.push_str("\n  for")?;
            append_held(alloc, text, first)?;
            text.push_str("\n  test ")?;
            append_maybe(alloc, text, test)?;
            append_held(alloc, text, next)?;
            append_statement(alloc, text, s)
        }
        TStmt::Break => text.push_str("\n  break"),
        TStmt::Continue => text.push_str("\n  continue"),
        TStmt::Return(e) => {
            text.push_str("\n  return ")?;
            append_maybe(alloc, text, e)
        }
    }
}

// A function's number and library, whether it is an entry, its result, and its locals' types.
fn append_head(
    alloc: Global,
    text: &mut String,
    number: usize,
    f: &TFunction,
) -> Result<(), AllocError> {
    let library = f.library;
    let params = f.params;
    let entry = if f.entry { " entry" } else { "" };
    text.push_str(format!(in alloc;
        "\n function {number} of library {library}{entry}: "
    )?.as_str())?;
    append_type(alloc, text, &f.result)?;
    append_numbered(alloc, text, ", parameters ", params as u64)?;
    text.push_str(", locals")?;
    for local in f.locals.as_slice() {
        text.push(' ')?;
        append_type(alloc, text, &local.ty)?;
        if local.shared {
            text.push_str(" shared")?;
        }
    }
    Ok(())
}

/// Appends the functions of a program with their bodies.
pub fn append_bodies(alloc: Global, text: &mut String, p: &TProgram) -> Result<(), AllocError> {
    for (number, f) in p.functions.as_slice().iter().enumerate() {
        append_head(alloc, text, number, f)?;
        append_statements(alloc, text, &f.body)?;
    }
    Ok(())
}
