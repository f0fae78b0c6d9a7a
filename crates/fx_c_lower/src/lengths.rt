//! How many steps the code of expressions and statements has.

ghost use Rattle.std.specs.Prelude.{◌≡◌, ◌+◌, IfOk};
ghost use Rattle.fx_c_ast.specs.Counts.{held};
ghost use Rattle.fx_c_ast.specs.CheckedTrees.{ty_tree, texpr_tree, texpr_trees, maybe_texpr};
ghost use Rattle.fx_c_ast.specs.CheckedTrees.{tstmt_tree, tstmt_trees};
ghost use Rattle.fx_c_mean_model.specs.States.{type_of as typed};
ghost use Rattle.fx_c_lower_model.specs.Steps.{fall_len};
ghost use Rattle.fx_c_lower_model.specs.Lengths.{binary_len, reach_len, jump_len, args_len};
ghost use Rattle.fx_c_lower_model.specs.Lengths.{value_len, condition_len, assign_len};
ghost use Rattle.fx_c_lower_model.specs.Lengths.{maybe_condition_len, local_len, return_len};
ghost use Rattle.fx_c_lower_model.specs.Lengths.{else_len, stmt_len, maybe_len, stmts_len};
ghost use Rattle.fx_c_lower_model.specs.Direct.{direct, right_len, right_of, whole_local};
ghost use Rattle.fx_c_lower_model.specs.Operands.{test_len};
ghost use Rattle.fx_c_lower.specs.Views.{source};

use crate::direct::{Simple, direct, right_of, whole_local};
use crate::forms::{
    cast_size, is_comparison, is_logical, is_scalar, load_size, stops, takes_value, tests_pointer,
    type_of, unary_size,
};
use crate::operands::{combine_size, left_size, right_size, test_size};
use crate::output::sum;
use fx_c_ast::checked::{TExpr, TKind, TStmt, Ty};
use fx_c_ast::operator::{Binop, Unop};
use fx_c_lower_tables::sizes::Sizes;
use std::alloc::AllocError;

// Of an operator at operands of so many steps.
fn combined_size(
    sizes: &Sizes<'_>,
    op: Binop,
    a: &TExpr,
    b: &TExpr,
    first: u32,
    second: u32,
) -> Result<u32, AllocError>
    ensures { IfOk result (λ n. n ≡ binary_len op (typed (texpr_tree a.now))
        (typed (texpr_tree b.now)) (right_of op (typed (texpr_tree a.now))
        (typed (texpr_tree b.now)) (direct (source sizes.now) (texpr_tree b.now))) first second) }
{
    let right = right_of(op, a, b, direct(sizes, b)?);
    let rest = sum(right_size(right, second), combine_size(right, op, a, b))?;
    let rest = sum(left_size(op, a, b), rest)?;
    sum(first, rest)
}

// Of a comparison that jumps, at operands of so many steps.
fn compared_size(
    sizes: &Sizes<'_>,
    op: Binop,
    a: &TExpr,
    b: &TExpr,
    first: u32,
    second: u32,
) -> Result<u32, AllocError>
    ensures { IfOk result (λ n. n ≡ first + (right_len
        (right_of op (typed (texpr_tree a.now)) (typed (texpr_tree b.now))
        (direct (source sizes.now) (texpr_tree b.now))) second + 1)) }
{
    let right = right_of(op, a, b, direct(sizes, b)?);
    let rest = sum(right_size(right, second), 1)?;
    sum(first, rest)
}

/// Of an expression's code up to an lvalue's address, or to any other value.
#[cycle(sizes)]
pub fn reach_size(sizes: &Sizes<'_>, e: &TExpr) -> Result<u32, AllocError>
    ensures { IfOk result (λ n. n ≡ reach_len (source sizes.now) (texpr_tree e.now)) }
{
    match &e.kind {
        TKind::Number(_) | TKind::Literal(_) | TKind::Global(_) | TKind::Local(_) => Ok(1),
        TKind::Size(_) | TKind::Getc | TKind::DevLoad(..) | TKind::Me => Ok(1),
        TKind::Un(op, inner) => {
            if takes_value(*op) {
                return sum(value_size(sizes, inner)?, unary_size(*op));
            }
            sum(reach_size(sizes, inner)?, unary_size(*op))
        }
        TKind::Bin(op, a, b) => {
            if is_logical(*op) {
                let first = jump_size(sizes, stops(*op), a)?;
                let second = jump_size(sizes, false, b)?;
                return sum(first, sum(second, 3)?);
            }
            combined_size(
                sizes,
                *op,
                a,
                b,
                value_size(sizes, a)?,
                value_size(sizes, b)?,
            )
        }
        TKind::Cast(inner) | TKind::Convert(inner) => {
            sum(value_size(sizes, inner)?, cast_size(inner, &e.ty))
        }
        TKind::Index(a, b) => combined_size(
            sizes,
            Binop::Add,
            a,
            b,
            value_size(sizes, a)?,
            value_size(sizes, b)?,
        ),
        TKind::Member(inner, _) => sum(reach_size(sizes, inner)?, 1),
        TKind::Arrow(inner, _) => sum(value_size(sizes, inner)?, 1),
        TKind::Call(_, all) => sum(args_size(sizes, all)?, 1),
        TKind::Gate(_, all) => sum(args_size(sizes, all)?, 1),
        TKind::Putc(inner) | TKind::Switch(inner) => sum(value_size(sizes, inner)?, 1),
        TKind::DevStore(_, _, inner) => sum(value_size(sizes, inner)?, 1),
        TKind::Spawn(_, inner) => sum(value_size(sizes, inner)?, 1),
    }
}

/// Of an expression's value.
#[cycle(sizes)]
pub fn value_size(sizes: &Sizes<'_>, e: &TExpr) -> Result<u32, AllocError>
    ensures { IfOk result (λ n. n ≡ value_len (source sizes.now) (texpr_tree e.now)) }
{
    match direct(sizes, e)? {
        Simple::Constant { .. } | Simple::Whole(_) => Ok(1),
        Simple::Other => sum(reach_size(sizes, e)?, load_size(e)),
    }
}

#[cycle(sizes)]
fn tested_size(sizes: &Sizes<'_>, sense: bool, e: &TExpr) -> Result<u32, AllocError>
    ensures { IfOk result (λ n. n ≡ value_len (source sizes.now) (texpr_tree e.now)
        + test_len sense) }
{
    sum(value_size(sizes, e)?, test_size(sense))
}

/// Of a condition that jumps where its truth is this.
#[cycle(sizes)]
pub fn jump_size(sizes: &Sizes<'_>, sense: bool, e: &TExpr) -> Result<u32, AllocError>
    ensures { IfOk result (λ n. n ≡ jump_len (source sizes.now) sense (texpr_tree e.now)
        (value_len (source sizes.now) (texpr_tree e.now))) }
{
    match &e.kind {
        TKind::Un(Unop::Lnot, inner) => jump_size(sizes, !sense, inner),
        TKind::Bin(op, a, b) => {
            if is_logical(*op) {
                let first = jump_size(sizes, !stops(*op), a)?;
                let second = jump_size(sizes, sense, b)?;
                return sum(first, sum(1, second)?);
            }
            if is_comparison(*op) {
                return compared_size(
                    sizes,
                    *op,
                    a,
                    b,
                    value_size(sizes, a)?,
                    value_size(sizes, b)?,
                );
            }
            tested_size(sizes, sense, e)
        }
        TKind::Convert(inner) => {
            if tests_pointer(inner, &e.ty) {
                return sum(value_size(sizes, inner)?, 1);
            }
            tested_size(sizes, sense, e)
        }
        _ => tested_size(sizes, sense, e),
    }
}

#[cycle(sizes)]
fn args_size(sizes: &Sizes<'_>, all: &[TExpr]) -> Result<u32, AllocError>
    ensures { IfOk result (λ n. n ≡ args_len (source sizes.now) (texpr_trees all.now)) }
{
    let mut size: u32 = 0;
    for e in all {
        size = sum(size, value_size(sizes, e)?)?;
    }
    Ok(size)
}

/// Of a condition that jumps where it is false.
pub fn condition_size(sizes: &Sizes<'_>, e: &TExpr) -> Result<u32, AllocError>
    ensures { IfOk result (λ n. n ≡ condition_len (source sizes.now) (texpr_tree e.now)) }
{
    jump_size(sizes, false, e)
}

// ---- statements

/// Of a loop's condition, if there is one.
pub fn maybe_condition_size(sizes: &Sizes<'_>, e: &Option<TExpr>) -> Result<u32, AllocError>
    ensures { IfOk result (λ n. n ≡ maybe_condition_len (source sizes.now) (maybe_texpr e.now)) }
{
    match e {
        None => Ok(0),
        Some(e) => condition_size(sizes, e),
    }
}

fn local_size(sizes: &Sizes<'_>, init: &Option<TExpr>) -> Result<u32, AllocError>
    ensures { IfOk result (λ n. n ≡ local_len (source sizes.now) (maybe_texpr init.now)) }
{
    match init {
        None => Ok(0),
        Some(e) => {
            let size = sum(value_size(sizes, e)?, 1)?;
            if is_scalar(type_of(e)) {
                return Ok(size);
            }
            sum(1, size)
        }
    }
}

fn assign_size(sizes: &Sizes<'_>, to: &TExpr, e: &TExpr) -> Result<u32, AllocError>
    ensures { IfOk result (λ n. n ≡ assign_len (whole_local (texpr_tree to.now))
        (reach_len (source sizes.now) (texpr_tree to.now))
        (value_len (source sizes.now) (texpr_tree e.now))) }
{
    let size = sum(value_size(sizes, e)?, 1)?;
    match whole_local(to) {
        Some(_) => Ok(size),
        None => sum(reach_size(sizes, to)?, size),
    }
}

/// Of a return that names no value.
pub fn fall_size(gives: &Ty) -> u32
    ensures { result ≡ fall_len (ty_tree gives.now) }
{
    match gives {
        Ty::Int(_) | Ty::Ptr(_) => 2,
        Ty::Void | Ty::Struct(_) | Ty::Array(..) => 1,
    }
}

fn return_size(sizes: &Sizes<'_>, gives: &Ty, e: &Option<TExpr>) -> Result<u32, AllocError>
    ensures { IfOk result (λ n. n ≡ return_len (source sizes.now) (ty_tree gives.now)
        (maybe_texpr e.now)) }
{
    match e {
        None => Ok(fall_size(gives)),
        Some(e) => sum(value_size(sizes, e)?, 1),
    }
}

/// Of a statement, in a function that gives a type.
#[cycle(statement_sizes)]
pub fn stmt_size(sizes: &Sizes<'_>, s: &TStmt, gives: &Ty) -> Result<u32, AllocError>
    ensures { IfOk result (λ n. n ≡ stmt_len (source sizes.now) (ty_tree gives.now)
        (tstmt_tree s.now)) }
{
    match s {
        TStmt::Empty => Ok(0),
        TStmt::Break | TStmt::Continue => Ok(1),
        TStmt::Block(all) => stmts_size(sizes, all, gives),
        TStmt::Local { local: _, init } => local_size(sizes, init),
        TStmt::Eval(e) => sum(value_size(sizes, e)?, 1),
        TStmt::Assign(to, e) => assign_size(sizes, to, e),
        TStmt::If(test, s, other) => {
            let first = stmt_size(sizes, s, gives)?;
            let second = other_size(sizes, other, gives)?;
            sum(condition_size(sizes, test)?, sum(first, second)?)
        }
        TStmt::While(test, s) => {
            let body = stmt_size(sizes, s, gives)?;
            sum(condition_size(sizes, test)?, sum(body, 1)?)
        }
        TStmt::For(first, test, next, s) => {
            let first = maybe_size(sizes, first, gives)?;
            let test = maybe_condition_size(sizes, test)?;
            let body = stmt_size(sizes, s, gives)?;
            let next = maybe_size(sizes, next, gives)?;
            sum(first, sum(test, sum(body, sum(next, 1)?)?)?)
        }
        TStmt::Return(e) => return_size(sizes, gives, e),
    }
}

/// Of a statement, if there is one.
#[cycle(statement_sizes)]
pub fn maybe_size(sizes: &Sizes<'_>, s: &Option<Box<TStmt>>, gives: &Ty) -> Result<u32, AllocError>
    ensures { IfOk result (λ n. n ≡ maybe_len (source sizes.now) (ty_tree gives.now) (held s.now)) }
{
    match s {
        None => Ok(0),
        Some(s) => stmt_size(sizes, s, gives),
    }
}

// Of a second branch with the jump before it, if there is one.
#[cycle(statement_sizes)]
fn other_size(sizes: &Sizes<'_>, s: &Option<Box<TStmt>>, gives: &Ty) -> Result<u32, AllocError>
    ensures { IfOk result (λ n. n ≡ else_len (held s.now)
        + maybe_len (source sizes.now) (ty_tree gives.now) (held s.now)) }
{
    match s {
        None => Ok(0),
        Some(s) => sum(1, stmt_size(sizes, s, gives)?),
    }
}

/// Of statements.
#[cycle(statement_sizes)]
pub fn stmts_size(sizes: &Sizes<'_>, all: &[TStmt], gives: &Ty) -> Result<u32, AllocError>
    ensures { IfOk result (λ n. n ≡ stmts_len (source sizes.now) (ty_tree gives.now)
        (tstmt_trees all.now)) }
{
    let mut size: u32 = 0;
    for s in all {
        size = sum(size, stmt_size(sizes, s, gives)?)?;
    }
    Ok(size)
}
