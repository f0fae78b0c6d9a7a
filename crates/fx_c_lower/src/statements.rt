//! The code of statements.

ghost use Rattle.std.specs.Prelude.{◌≡◌, ◌+◌, ◌++◌, ◌∷◌, [], Some, IfOk, OnOk};
ghost use Rattle.fx_c_ast.specs.Counts.{held};
ghost use Rattle.fx_c_ast.specs.CheckedTrees.{ty_tree, texpr_tree, maybe_texpr, tstmt_tree};
ghost use Rattle.fx_c_ast.specs.CheckedTrees.{tstmt_trees};
ghost use Rattle.fx_c_lower_model.specs.Late.{value_late as late_value};
ghost use Rattle.fx_c_lower_model.specs.Steps.{costing, fall_code, fall_len};
ghost use Rattle.fx_c_lower_model.specs.Steps.{assign_op as assigning};
ghost use Rattle.fx_c_lower_model.specs.Direct.{whole_local};
ghost use Rattle.fx_c_lower_model.specs.Lengths.{reach_len, value_len, condition_len, assign_len};
ghost use Rattle.fx_c_lower_model.specs.Lengths.{local_len, return_len, else_len};
ghost use Rattle.fx_c_lower_model.specs.Lengths.{maybe_condition_len, stmt_len, maybe_len};
ghost use Rattle.fx_c_lower_model.specs.Lengths.{stmts_len};
ghost use Rattle.fx_c_lower_model.specs.Code.{assign_code, local_code, return_code, else_at};
ghost use Rattle.fx_c_lower_model.specs.Code.{else_jump, exit_by, maybe_condition_code, value_code};
ghost use Rattle.fx_c_lower_model.specs.Code.{stmt_code, maybe_code, stmts_code};
ghost use Rattle.fx_c_lin.specs.Ops.{Drop, Jump, op_of};
ghost use Rattle.fx_c_lower.specs.Views.{made, source};

use crate::direct::whole_local;
use crate::expressions::{condition, reach, value};
use crate::forms::{copied, is_scalar, type_of};
use crate::late::late;
use crate::lengths::{condition_size, maybe_condition_size, maybe_size, stmt_size, stmts_size};
use crate::output::{Output, sum};
use fx_c_ast::checked::{TExpr, TStmt, Ty};
use fx_c_lin::op::Op;
use fx_c_lower_tables::sizes::Sizes;
use std::alloc::{AllocError, Global};

/// Positions to which a statement leads: where it is done, and by `break` and `continue`.
#[derive(Clone, Copy)]
pub struct Exits {
    pub exit: u32,
    pub leave: u32,
    pub again: u32,
}

fn assign_op(alloc: Global, sizes: &Sizes<'_>, ty: &Ty) -> Result<Op, AllocError>
    ensures { IfOk result (λ o. op_of o ≡ assigning (source sizes.now) (ty_tree ty.now)) }
{
    match ty {
        Ty::Int(_) | Ty::Ptr(_) => {
            let ty = copied(alloc, ty)?;
            Ok(Op::Store(ty))
        }
        Ty::Void | Ty::Struct(_) | Ty::Array(..) => {
            let bytes = sizes.size(ty)?;
            Ok(Op::Copy(bytes))
        }
    }
}

/// The assignment of a value to a variable of integer or pointer type.
fn store_local(
    alloc: Global,
    sizes: &Sizes<'_>,
    out: &mut Output,
    n: u16,
    e: &TExpr,
) -> Result<(), AllocError>
    ensures place { OnOk result (out.new.at ≡ out.old.at
        + (value_len (source sizes.now) (texpr_tree e.now) + 1)) }
    ensures code { OnOk result (made out.new ≡ made out.old
        ++ assign_code (source sizes.now) out.old.at (Some n) (texpr_tree e.now)
        (texpr_tree e.now)) }
{
    let owed = value(alloc, sizes, out, 1, e)?;
    out.put_owing(Op::StoreLocal(n), owed)
}

/// An assignment.
fn assign(
    alloc: Global,
    sizes: &Sizes<'_>,
    out: &mut Output,
    to: &TExpr,
    e: &TExpr,
) -> Result<(), AllocError>
    ensures place { OnOk result (out.new.at ≡ out.old.at
        + assign_len (whole_local (texpr_tree to.now))
        (reach_len (source sizes.now) (texpr_tree to.now))
        (value_len (source sizes.now) (texpr_tree e.now))) }
    ensures code { OnOk result (made out.new ≡ made out.old
        ++ assign_code (source sizes.now) out.old.at (whole_local (texpr_tree to.now))
        (texpr_tree to.now) (texpr_tree e.now)) }
{
    if let Some(n) = whole_local(to) {
        return store_local(alloc, sizes, out, n, e);
    }
    reach(alloc, sizes, out, 0, to)?;
    let owed = late(sizes, to)?;
    let owed = value(alloc, sizes, out, owed, e)?;
    let op = assign_op(alloc, sizes, type_of(to))?;
    out.put_owing(op, owed)
}

/// A declaration with its value, if it has one.
fn local(
    alloc: Global,
    sizes: &Sizes<'_>,
    out: &mut Output,
    n: u16,
    init: &Option<TExpr>,
) -> Result<(), AllocError>
    ensures place { OnOk result (out.new.at ≡ out.old.at
        + local_len (source sizes.now) (maybe_texpr init.now)) }
    ensures code { OnOk result (made out.new ≡ made out.old
        ++ local_code (source sizes.now) out.old.at n (maybe_texpr init.now)) }
{
    match init {
        None => Ok(()),
        Some(e) => {
            if is_scalar(type_of(e)) {
                return store_local(alloc, sizes, out, n, e);
            }
            out.put(Op::LocalAddr(n), 1)?;
            let owed = value(alloc, sizes, out, 0, e)?;
            let op = assign_op(alloc, sizes, type_of(e))?;
            out.put_owing(op, owed)
        }
    }
}

/// A return that names no value.
pub fn fall(out: &mut Output, gives: &Ty) -> Result<(), AllocError>
    ensures place { OnOk result (out.new.at ≡ out.old.at + fall_len (ty_tree gives.now)) }
    ensures code { OnOk result (made out.new ≡ made out.old ++ fall_code (ty_tree gives.now)) }
{
    match gives {
        Ty::Int(_) | Ty::Ptr(_) => {
            out.put(Op::Number(0), 0)?;
            out.put(Op::Return, 1)
        }
        Ty::Void | Ty::Struct(_) | Ty::Array(..) => out.put(Op::Return, 1),
    }
}

fn returns(
    alloc: Global,
    sizes: &Sizes<'_>,
    out: &mut Output,
    gives: &Ty,
    e: &Option<TExpr>,
) -> Result<(), AllocError>
    ensures place { OnOk result (out.new.at ≡ out.old.at
        + return_len (source sizes.now) (ty_tree gives.now) (maybe_texpr e.now)) }
    ensures code { OnOk result (made out.new ≡ made out.old
        ++ return_code (source sizes.now) (ty_tree gives.now) out.old.at (maybe_texpr e.now)) }
{
    match e {
        None => fall(out, gives),
        Some(e) => {
            let owed = value(alloc, sizes, out, 0, e)?;
            out.put_owing(Op::Return, owed)
        }
    }
}

/// An expression whose value is dropped.
fn eval(alloc: Global, sizes: &Sizes<'_>, out: &mut Output, e: &TExpr) -> Result<(), AllocError>
    ensures place { OnOk result (out.new.at ≡ out.old.at
        + (value_len (source sizes.now) (texpr_tree e.now) + 1)) }
    ensures code { OnOk result (made out.new ≡ made out.old
        ++ (value_code (source sizes.now) out.old.at 0 (texpr_tree e.now)
        ++ costing (late_value (source sizes.now) (texpr_tree e.now)) Drop ∷ [])) }
{
    let owed = value(alloc, sizes, out, 0, e)?;
    out.put(Op::Drop, owed)
}

/// A loop's condition, if there is one, which goes to a position where it is false.
fn maybe_condition(
    alloc: Global,
    sizes: &Sizes<'_>,
    out: &mut Output,
    exit: u32,
    e: &Option<TExpr>,
) -> Result<(), AllocError>
    ensures place { OnOk result (out.new.at ≡ out.old.at
        + maybe_condition_len (source sizes.now) (maybe_texpr e.now)) }
    ensures code { OnOk result (made out.new ≡ made out.old
        ++ maybe_condition_code (source sizes.now) out.old.at exit (maybe_texpr e.now)) }
{
    match e {
        None => Ok(()),
        Some(e) => condition(alloc, sizes, out, exit, e),
    }
}

/// A statement of a function that gives a type.
#[cycle(statements)]
pub fn stmt(
    alloc: Global,
    sizes: &Sizes<'_>,
    out: &mut Output,
    s: &TStmt,
    gives: &Ty,
    to: Exits,
) -> Result<(), AllocError>
    ensures place { OnOk result (out.new.at ≡ out.old.at
        + stmt_len (source sizes.now) (ty_tree gives.now) (tstmt_tree s.now)) }
    ensures code { OnOk result (made out.new ≡ made out.old
        ++ stmt_code (source sizes.now) (ty_tree gives.now) out.old.at to.exit to.leave to.again
        (tstmt_tree s.now)) }
{
    match s {
        TStmt::Empty => Ok(()),
        TStmt::Block(all) => stmts(alloc, sizes, out, all, gives, to),
        TStmt::Local { local: n, init } => local(alloc, sizes, out, *n, init),
        TStmt::Eval(e) => eval(alloc, sizes, out, e),
        TStmt::Assign(target, e) => assign(alloc, sizes, out, target, e),
        TStmt::If(test, s, other) => {
            let past = past_branch(sizes, out.at, to.exit, test, s, other, gives)?;
            condition(alloc, sizes, out, past, test)?;
            stmt(alloc, sizes, out, s, gives, to)?;
            second_branch(alloc, sizes, out, other, gives, to)
        }
        TStmt::While(test, s) => {
            let begin = out.at;
            condition(alloc, sizes, out, to.exit, test)?;
            while_body(alloc, sizes, out, s, gives, to, begin)
        }
        TStmt::For(first, test, next, s) => {
            let begin = for_first(alloc, sizes, out, first, gives, to)?;
            for_turn(alloc, sizes, out, s, test, gives, to)?;
            for_next(alloc, sizes, out, next, gives, to, begin)
        }
        TStmt::Break => out.put(Op::Jump(to.leave), 1),
        TStmt::Continue => out.put(Op::Jump(to.again), 1),
        TStmt::Return(e) => returns(alloc, sizes, out, gives, e),
    }
}

// Where the condition leads to if it is false, of a branch that begins at a position.
fn past_branch(
    sizes: &Sizes<'_>,
    at: u32,
    exit: u32,
    test: &TExpr,
    s: &TStmt,
    other: &Option<Box<TStmt>>,
    gives: &Ty,
) -> Result<u32, AllocError>
    ensures { IfOk result (λ n. n ≡ else_at (held other.now)
        (at + condition_len (source sizes.now) (texpr_tree test.now)
        + stmt_len (source sizes.now) (ty_tree gives.now) (tstmt_tree s.now)) exit) }
{
    match other {
        None => Ok(exit),
        Some(_) => {
            let first = sum(at, condition_size(sizes, test)?)?;
            let end = sum(first, stmt_size(sizes, s, gives)?)?;
            sum(end, 1)
        }
    }
}

/// The jump over a second branch, and that branch, if there is one.
#[cycle(statements)]
fn second_branch(
    alloc: Global,
    sizes: &Sizes<'_>,
    out: &mut Output,
    other: &Option<Box<TStmt>>,
    gives: &Ty,
    to: Exits,
) -> Result<(), AllocError>
    ensures place { OnOk result (out.new.at ≡ out.old.at
        + (else_len (held other.now) + maybe_len (source sizes.now) (ty_tree gives.now)
        (held other.now))) }
    ensures code { OnOk result (made out.new ≡ made out.old
        ++ (else_jump (held other.now) to.exit ++ maybe_code (source sizes.now) (ty_tree gives.now)
        (out.old.at + 1) to.exit to.leave to.again (held other.now))) }
{
    match other {
        None => Ok(()),
        Some(other) => {
            out.put(Op::Jump(to.exit), 0)?;
            stmt(alloc, sizes, out, other, gives, to)
        }
    }
}

/// The body of a `while` that begins at a position, and the way back.
#[cycle(statements)]
fn while_body(
    alloc: Global,
    sizes: &Sizes<'_>,
    out: &mut Output,
    s: &TStmt,
    gives: &Ty,
    to: Exits,
    begin: u32,
) -> Result<(), AllocError>
    ensures place { OnOk result (out.new.at ≡ out.old.at
        + (stmt_len (source sizes.now) (ty_tree gives.now) (tstmt_tree s.now) + 1)) }
    ensures code { OnOk result (made out.new ≡ made out.old
        ++ (stmt_code (source sizes.now) (ty_tree gives.now) out.old.at
        (out.old.at + stmt_len (source sizes.now) (ty_tree gives.now) (tstmt_tree s.now)) to.exit
        begin (tstmt_tree s.now) ++ costing 1 (Jump begin) ∷ [])) }
{
    let inner = Exits {
        exit: sum(out.at, stmt_size(sizes, s, gives)?)?,
        leave: to.exit,
        again: begin,
    };
    stmt(alloc, sizes, out, s, gives, inner)?;
    out.put(Op::Jump(begin), 1)
}

/// The first part of a `for`; where its condition begins.
#[cycle(statements)]
fn for_first(
    alloc: Global,
    sizes: &Sizes<'_>,
    out: &mut Output,
    first: &Option<Box<TStmt>>,
    gives: &Ty,
    to: Exits,
) -> Result<u32, AllocError>
    ensures place { OnOk result (out.new.at ≡ out.old.at
        + maybe_len (source sizes.now) (ty_tree gives.now) (held first.now)) }
    ensures code { OnOk result (made out.new ≡ made out.old
        ++ maybe_code (source sizes.now) (ty_tree gives.now) out.old.at
        (out.old.at + maybe_len (source sizes.now) (ty_tree gives.now) (held first.now)) to.leave
        to.again (held first.now)) }
    ensures begin { IfOk result (λ n. n ≡ out.old.at
        + maybe_len (source sizes.now) (ty_tree gives.now) (held first.now)) }
{
    let begin = sum(out.at, maybe_size(sizes, first, gives)?)?;
    let before = Exits {
        exit: begin,
        leave: to.leave,
        again: to.again,
    };
    maybe(alloc, sizes, out, first, gives, before)?;
    Ok(begin)
}

/// The condition of a `for`, and its body, which leads to the third part, as `continue` does.
#[cycle(statements)]
fn for_turn(
    alloc: Global,
    sizes: &Sizes<'_>,
    out: &mut Output,
    s: &TStmt,
    test: &Option<TExpr>,
    gives: &Ty,
    to: Exits,
) -> Result<(), AllocError>
    ensures place { OnOk result (out.new.at ≡ out.old.at
        + maybe_condition_len (source sizes.now) (maybe_texpr test.now)
        + stmt_len (source sizes.now) (ty_tree gives.now) (tstmt_tree s.now)) }
    ensures code { OnOk result (made out.new ≡ made out.old
        ++ (maybe_condition_code (source sizes.now) out.old.at to.exit (maybe_texpr test.now)
        ++ stmt_code (source sizes.now) (ty_tree gives.now)
        (out.old.at + maybe_condition_len (source sizes.now) (maybe_texpr test.now))
        (out.old.at + maybe_condition_len (source sizes.now) (maybe_texpr test.now)
        + stmt_len (source sizes.now) (ty_tree gives.now) (tstmt_tree s.now)) to.exit
        (out.old.at + maybe_condition_len (source sizes.now) (maybe_texpr test.now)
        + stmt_len (source sizes.now) (ty_tree gives.now) (tstmt_tree s.now)) (tstmt_tree s.now))) }
{
    maybe_condition(alloc, sizes, out, to.exit, test)?;
    let third = sum(out.at, stmt_size(sizes, s, gives)?)?;
    let inner = Exits {
        exit: third,
        leave: to.exit,
        again: third,
    };
    stmt(alloc, sizes, out, s, gives, inner)
}

/// The third part of a `for`, and the way back to its condition, which begins at a position.
#[cycle(statements)]
fn for_next(
    alloc: Global,
    sizes: &Sizes<'_>,
    out: &mut Output,
    next: &Option<Box<TStmt>>,
    gives: &Ty,
    to: Exits,
    begin: u32,
) -> Result<(), AllocError>
    ensures place { OnOk result (out.new.at ≡ out.old.at
        + (maybe_len (source sizes.now) (ty_tree gives.now) (held next.now) + 1)) }
    ensures code { OnOk result (made out.new ≡ made out.old
        ++ (maybe_code (source sizes.now) (ty_tree gives.now) out.old.at
        (out.old.at + maybe_len (source sizes.now) (ty_tree gives.now) (held next.now)) to.leave
        to.again (held next.now) ++ costing 1 (Jump begin) ∷ [])) }
{
    let after = Exits {
        exit: sum(out.at, maybe_size(sizes, next, gives)?)?,
        leave: to.leave,
        again: to.again,
    };
    maybe(alloc, sizes, out, next, gives, after)?;
    out.put(Op::Jump(begin), 1)
}

/// A statement, if there is one.
#[cycle(statements)]
fn maybe(
    alloc: Global,
    sizes: &Sizes<'_>,
    out: &mut Output,
    s: &Option<Box<TStmt>>,
    gives: &Ty,
    to: Exits,
) -> Result<(), AllocError>
    ensures place { OnOk result (out.new.at ≡ out.old.at
        + maybe_len (source sizes.now) (ty_tree gives.now) (held s.now)) }
    ensures code { OnOk result (made out.new ≡ made out.old
        ++ maybe_code (source sizes.now) (ty_tree gives.now) out.old.at to.exit to.leave to.again
        (held s.now)) }
{
    match s {
        None => Ok(()),
        Some(s) => stmt(alloc, sizes, out, s, gives, to),
    }
}

// Where a statement leads to that so many steps follow: to the next one, or out where none does.
fn exit_by(more: u32, exit: u32, next: u32) -> u32
    ensures { result ≡ exit_by more exit next }
{
    if more == 0 { exit } else { next }
}

/// Statements, one after another.
#[cycle(statements)]
pub fn stmts(
    alloc: Global,
    sizes: &Sizes<'_>,
    out: &mut Output,
    all: &[TStmt],
    gives: &Ty,
    to: Exits,
) -> Result<(), AllocError>
    ensures place { OnOk result (out.new.at ≡ out.old.at
        + stmts_len (source sizes.now) (ty_tree gives.now) (tstmt_trees all.now)) }
    ensures code { OnOk result (made out.new ≡ made out.old
        ++ stmts_code (source sizes.now) (ty_tree gives.now) out.old.at to.exit to.leave to.again
        (tstmt_trees all.now)) }
{
    let mut left = stmts_size(sizes, all, gives)?;
    for s in all {
        let len = stmt_size(sizes, s, gives)?;
        left -= len;
        let next = sum(out.at, len)?;
        let inner = Exits {
            exit: exit_by(left, to.exit, next),
            leave: to.leave,
            again: to.again,
        };
        stmt(alloc, sizes, out, s, gives, inner)?;
    }
    Ok(())
}
