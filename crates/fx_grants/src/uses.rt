//! What a function's body uses that a configuration may refuse.

ghost use Rattle.std.specs.Prelude.{◌≡◌, [], ◌∷◌, ◌++◌, OnOk};
ghost use Rattle.fx_c_ast.specs.CheckedTrees.{texpr_tree, texpr_trees, maybe_texpr, tstmt_tree, tstmt_trees};
ghost use Rattle.fx_grants.specs.Uses.{uses, uses_all, uses_maybe, stmt_uses, stmts_uses};

use fx_c_ast::checked::{TExpr, TKind, TStmt};
use std::alloc::AllocError;

/// One use: an operation of a device, a gate to a function, or an operation of the scheduler.
#[derive(Clone, Copy, Debug, PartialEq, Eq)]
pub enum Use {
    Device(u16),
    Gate(u32),
    Thread,
}

/// Appends the uses in statements, in the order of their text.
#[cycle(statements)]
pub fn statements_uses(out: &mut Vec<Use>, all: &[TStmt]) -> Result<(), AllocError>
    ensures { OnOk result (out.new.items ≡ out.old.items ++ stmts_uses (tstmt_trees all.now)) }
{
    for s in all {
        statement_uses(out, s)?;
    }
    Ok(())
}

#[cycle(statements)]
fn statement_uses(out: &mut Vec<Use>, s: &TStmt) -> Result<(), AllocError>
    ensures { OnOk result (out.new.items ≡ out.old.items ++ stmt_uses (tstmt_tree s.now)) }
{
    match s {
        TStmt::Empty | TStmt::Break | TStmt::Continue => Ok(()),
        TStmt::Block(all) => statements_uses(out, all),
        TStmt::Local { init, .. } => value_uses(out, init),
        TStmt::Eval(e) => expression_uses(out, e),
        TStmt::Assign(to, e) => {
            expression_uses(out, to)?;
            expression_uses(out, e)
        }
        TStmt::If(test, s, other) => {
            expression_uses(out, test)?;
            statement_uses(out, s)?;
            match other {
                Some(other) => statement_uses(out, other),
                None => Ok(()),
            }
        }
        TStmt::While(test, s) => {
            expression_uses(out, test)?;
            statement_uses(out, s)
        }
        TStmt::For(first, test, next, s) => {
            if let Some(first) = first {
                statement_uses(out, first)?;
            }
            value_uses(out, test)?;
            if let Some(next) = next {
                statement_uses(out, next)?;
            }
            statement_uses(out, s)
        }
        TStmt::Return(e) => value_uses(out, e),
    }
}

fn value_uses(out: &mut Vec<Use>, e: &Option<TExpr>) -> Result<(), AllocError>
    ensures { OnOk result (out.new.items ≡ out.old.items ++ uses_maybe (maybe_texpr e.now)) }
{
    match e {
        Some(e) => expression_uses(out, e),
        None => Ok(()),
    }
}

#[cycle(expressions)]
fn expression_uses(out: &mut Vec<Use>, e: &TExpr) -> Result<(), AllocError>
    ensures { OnOk result (out.new.items ≡ out.old.items ++ uses (texpr_tree e.now)) }
{
    match &e.kind {
        TKind::Number(_)
        | TKind::Literal(_)
        | TKind::Global(_)
        | TKind::Local(_)
        | TKind::Size(_)
        | TKind::Me => Ok(()),
        TKind::Un(_, e) => expression_uses(out, e),
        TKind::Cast(e) | TKind::Convert(e) => expression_uses(out, e),
        TKind::Member(e, _) | TKind::Arrow(e, _) => expression_uses(out, e),
        TKind::Bin(_, a, b) => {
            expression_uses(out, a)?;
            expression_uses(out, b)
        }
        TKind::Index(a, b) => {
            expression_uses(out, a)?;
            expression_uses(out, b)
        }
        TKind::Call(_, all) => arguments_uses(out, all),
        TKind::Gate(f, all) => {
            put(out, Use::Gate(*f))?;
            arguments_uses(out, all)
        }
        TKind::Getc => put(out, Use::Device(0)),
        TKind::Putc(e) => {
            put(out, Use::Device(0))?;
            expression_uses(out, e)
        }
        TKind::DevLoad(device, _) => put(out, Use::Device(*device)),
        TKind::DevStore(device, _, e) => {
            put(out, Use::Device(*device))?;
            expression_uses(out, e)
        }
        TKind::Spawn(_, e) => {
            put(out, Use::Thread)?;
            expression_uses(out, e)
        }
        TKind::Switch(e) => {
            put(out, Use::Thread)?;
            expression_uses(out, e)
        }
    }
}

#[cycle(expressions)]
fn arguments_uses(out: &mut Vec<Use>, all: &[TExpr]) -> Result<(), AllocError>
    ensures { OnOk result (out.new.items ≡ out.old.items ++ uses_all (texpr_trees all.now)) }
{
    for e in all {
        expression_uses(out, e)?;
    }
    Ok(())
}

// One more use.
fn put(out: &mut Vec<Use>, one: Use) -> Result<(), AllocError>
    ensures { OnOk result (out.new.items ≡ out.old.items ++ one ∷ []) }
{
    out.push(one)?;
    Ok(())
}
