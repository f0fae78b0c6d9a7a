//! Trees from their parts.

ghost use Rattle.std.specs.Prelude.{◌≡◌, IfErr, OnOk};
ghost use Rattle.fx_c_ast.specs.ParsedTrees.{UnTree, BinTree, CastTree, IndexTree, MemberTree, ArrowTree, CallTree, GateTree, BlockTree, IfTree, WhileTree, ForTree, Absent, Present, NoExprs, MoreExprs, type_tree, expr_tree, expr_trees, stmt_tree, stmt_trees, maybe_expr};
ghost use Rattle.fx_c_parse.specs.Making.{Makes, maybe_simple, with_last, with_last_stmt};
ghost use Rattle.fx_c_parse.specs.Expressions.{around_tree};

use crate::fault::Fault;
use crate::head::Around;
use fx_c_ast::operator::{Binop, Unop};
use fx_c_ast::parsed::{Expr, Name, Stmt, TypeName};
use std::alloc::Global;

pub fn unary(alloc: Global, op: Unop, e: Expr) -> Result<Expr, Fault>
    ensures { Makes expr_tree result (UnTree op (expr_tree e)) }
{
    Ok(Expr::Un(op, Box::new(alloc, e)?))
}

pub fn binary(alloc: Global, op: Binop, a: Expr, b: Expr) -> Result<Expr, Fault>
    ensures { Makes expr_tree result (BinTree op (expr_tree a) (expr_tree b)) }
{
    Ok(Expr::Bin(op, Box::new(alloc, a)?, Box::new(alloc, b)?))
}

pub fn cast(alloc: Global, ty: TypeName, e: Expr) -> Result<Expr, Fault>
    ensures { Makes expr_tree result (CastTree (type_tree ty) (expr_tree e)) }
{
    Ok(Expr::Cast(ty, Box::new(alloc, e)?))
}

pub fn index(alloc: Global, a: Expr, b: Expr) -> Result<Expr, Fault>
    ensures { Makes expr_tree result (IndexTree (expr_tree a) (expr_tree b)) }
{
    Ok(Expr::Index(Box::new(alloc, a)?, Box::new(alloc, b)?))
}

pub fn member(alloc: Global, e: Expr, name: Name) -> Result<Expr, Fault>
    ensures { Makes expr_tree result (MemberTree (expr_tree e) name) }
{
    Ok(Expr::Member(Box::new(alloc, e)?, name))
}

pub fn arrow(alloc: Global, e: Expr, name: Name) -> Result<Expr, Fault>
    ensures { Makes expr_tree result (ArrowTree (expr_tree e) name) }
{
    Ok(Expr::Arrow(Box::new(alloc, e)?, name))
}

/// A primary expression that ends with an expression.
pub fn around(alloc: Global, what: Around, e: Expr) -> Result<Expr, Fault>
    ensures { Makes expr_tree result (around_tree what (expr_tree e)) }
{
    match what {
        Around::Parentheses => Ok(e),
        Around::Putc => Ok(Expr::Putc(Box::new(alloc, e)?)),
        Around::Switch => Ok(Expr::Switch(Box::new(alloc, e)?)),
        Around::Spawn(name) => Ok(Expr::Spawn(name, Box::new(alloc, e)?)),
        Around::DevStore(device, register) => {
            Ok(Expr::DevStore(device, register, Box::new(alloc, e)?))
        }
    }
}

pub fn call(name: Name, args: Vec<Expr>) -> Expr
    ensures { expr_tree result ≡ CallTree name (expr_trees args.items) }
{
    Expr::Call(name, args)
}

pub fn gate(name: Name, args: Vec<Expr>) -> Expr
    ensures { expr_tree result ≡ GateTree name (expr_trees args.items) }
{
    Expr::Gate(name, args)
}

pub fn block(statements: Vec<Stmt>) -> Stmt
    ensures { stmt_tree result ≡ BlockTree (stmt_trees statements.items) }
{
    Stmt::Block(statements)
}

pub fn conditional(alloc: Global, test: Expr, body: Stmt) -> Result<Stmt, Fault>
    ensures { Makes stmt_tree result (IfTree (expr_tree test) (stmt_tree body) Absent) }
{
    Ok(Stmt::If(test, Box::new(alloc, body)?, None))
}

pub fn alternative(alloc: Global, test: Expr, body: Stmt, other: Stmt) -> Result<Stmt, Fault>
    ensures { Makes stmt_tree result (IfTree (expr_tree test) (stmt_tree body) (Present (stmt_tree other))) }
{
    let other = Box::new(alloc, other)?;
    Ok(Stmt::If(test, Box::new(alloc, body)?, Some(other)))
}

pub fn repetition(alloc: Global, test: Expr, body: Stmt) -> Result<Stmt, Fault>
    ensures { Makes stmt_tree result (WhileTree (expr_tree test) (stmt_tree body)) }
{
    Ok(Stmt::While(test, Box::new(alloc, body)?))
}

/// The head of a `for` statement.
#[derive(Debug, Drop)]
pub struct ForHead {
    pub first: Option<Box<Stmt>>,
    pub test: Option<Expr>,
    pub next: Option<Box<Stmt>>,
}

pub fn counted(alloc: Global, head: ForHead, body: Stmt) -> Result<Stmt, Fault>
    ensures { Makes stmt_tree result (ForTree (maybe_simple head.first) (maybe_expr head.test) (maybe_simple head.next) (stmt_tree body)) }
{
    Ok(Stmt::For(head.first, head.test, head.next, Box::new(alloc, body)?))
}

/// One more argument.
#[tactic(auto, using(crate::proofs::Lists::exprs_more))]
pub fn add_argument(args: &mut Vec<Expr>, arg: Expr) -> Result<(), Fault>
    ensures added { OnOk result (expr_trees args.new.items ≡ with_last (expr_trees args.old.items) (expr_tree arg)) }
    ensures fault { IfErr result (λ e. e ≡ Fault.OutOfMemory) }
{
    args.push(arg)?;
    Ok(())
}

/// One more statement.
#[tactic(auto, using(crate::proofs::Lists::stmts_more))]
pub fn add_statement(all: &mut Vec<Stmt>, one: Stmt) -> Result<(), Fault>
    ensures added { OnOk result (stmt_trees all.new.items ≡ with_last_stmt (stmt_trees all.old.items) (stmt_tree one)) }
    ensures fault { IfErr result (λ e. e ≡ Fault.OutOfMemory) }
{
    all.push(one)?;
    Ok(())
}

/// One argument.
pub fn one_argument(alloc: Global, arg: Expr) -> Result<Vec<Expr>, Fault>
    ensures { Makes (λ v. expr_trees v.items) result (MoreExprs (expr_tree arg) NoExprs) }
{
    let mut args = Vec::new(alloc);
    args.push(arg)?;
    Ok(args)
}
