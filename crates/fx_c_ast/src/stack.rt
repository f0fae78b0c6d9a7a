//! What a call of a function takes of its stack: the operands that are pending at once, if fewer than
//! 2^64, the slots of parameters and locals, and the frame (this project's own layout).

ghost use Rattle.std.specs.Prelude.{◌≡◌, ◌<◌, ◌≤◌, ◌+◌, ◌^◌, max, MatchOption};
ghost use Rattle.fx_c_ast.specs.CheckedTrees.{texpr_tree, texpr_trees, maybe_texpr, tstmt_tree, tstmt_trees};
ghost use Rattle.fx_c_ast.specs.StackUse.{need, need_two, need_all, need_maybe, need_start, need_stmt, need_maybe_stmt, need_stmts, slot_size, frame_bytes};
ghost use Rattle.fx_c_ast.specs.Counts.{held, IsCounted};

use crate::checked::{TExpr, TKind, TStmt};
use crate::operator::Binop;

// Two operands of which the second is evaluated while the first is pending.
fn one_behind(a: u64, b: u64) -> Option<u64>
    ensures { IsCounted result (max a (1 + b)) }
{
    Some(a.max(b.checked_add(1)?))
}

fn need_two(op: Binop, a: u64, b: u64) -> Option<u64>
    ensures { IsCounted result (need_two op a b) }
{
    match op {
        Binop::Land | Binop::Lor => Some(a.max(b)),
        _ => one_behind(a, b),
    }
}

/// The most operands that are pending at once while an expression is evaluated.
#[cycle(need)]
pub fn need(e: &TExpr) -> Option<u64>
    ensures { IsCounted result (need (texpr_tree e.now)) }
{
    match &e.kind {
        TKind::Number(_) | TKind::Literal(_) | TKind::Global(_) | TKind::Local(_) => Some(1),
        TKind::Size(_) | TKind::Getc | TKind::DevLoad(..) | TKind::Me => Some(1),
        TKind::Un(_, e) => need(e),
        TKind::Cast(e) | TKind::Convert(e) => need(e),
        TKind::Member(e, _) | TKind::Arrow(e, _) => need(e),
        TKind::Bin(op, a, b) => need_two(*op, need(a)?, need(b)?),
        TKind::Index(a, b) => one_behind(need(a)?, need(b)?),
        TKind::Call(_, all) => Some(need_all(all)?.max(1)),
        TKind::Gate(_, all) => Some(need_all(all)?.max(1)),
        TKind::Putc(e) | TKind::Switch(e) => Some(need(e)?.max(1)),
        TKind::DevStore(_, _, e) => Some(need(e)?.max(1)),
        TKind::Spawn(_, e) => Some(need(e)?.max(1)),
    }
}

// Of arguments, each of which stands behind those before it.
#[cycle(need)]
fn need_all(all: &[TExpr]) -> Option<u64>
    ensures { IsCounted result (need_all 0 (texpr_trees all.now)) }
{
    let mut greatest: u64 = 0;
    for (behind, e) in all.iter().enumerate() {
        greatest = greatest.max((behind as u64).checked_add(need(e)?)?);
    }
    Some(greatest)
}

fn need_maybe(e: &Option<TExpr>) -> Option<u64>
    ensures { IsCounted result (need_maybe (maybe_texpr e.now)) }
{
    match e {
        None => Some(0),
        Some(e) => need(e),
    }
}

fn need_start(e: &Option<TExpr>) -> Option<u64>
    ensures { IsCounted result (need_start (maybe_texpr e.now)) }
{
    match e {
        None => Some(0),
        Some(e) => one_behind(1, need(e)?),
    }
}

/// The greatest need in a statement.
#[cycle(need_stmt)]
pub fn need_stmt(s: &TStmt) -> Option<u64>
    ensures { IsCounted result (need_stmt (tstmt_tree s.now)) }
{
    match s {
        TStmt::Empty | TStmt::Break | TStmt::Continue => Some(0),
        TStmt::Block(all) => need_stmts(all),
        TStmt::Local { local: _, init } => need_start(init),
        TStmt::Eval(e) => need(e),
        TStmt::Assign(to, e) => one_behind(need(to)?, need(e)?),
        TStmt::If(test, s, other) => {
            let inner = need_stmt(s)?.max(need_inner(other)?);
            Some(need(test)?.max(inner))
        }
        TStmt::While(test, s) => Some(need(test)?.max(need_stmt(s)?)),
        TStmt::For(first, test, next, s) => {
            let begin = need_inner(first)?.max(need_maybe(test)?);
            let turn = need_inner(next)?.max(need_stmt(s)?);
            Some(begin.max(turn))
        }
        TStmt::Return(e) => need_maybe(e),
    }
}

#[cycle(need_stmt)]
fn need_inner(s: &Option<Box<TStmt>>) -> Option<u64>
    ensures { IsCounted result (need_maybe_stmt (held s.now)) }
{
    match s {
        None => Some(0),
        Some(s) => need_stmt(s),
    }
}

/// The greatest need in a function's body.
#[cycle(need_stmt)]
pub fn need_stmts(all: &[TStmt]) -> Option<u64>
    ensures { IsCounted result (need_stmts (tstmt_trees all.now)) }
{
    let mut greatest: u64 = 0;
    for s in all {
        greatest = greatest.max(need_stmt(s)?);
    }
    Some(greatest)
}

/// The bytes of a slot for a parameter or a local of so many bytes: a slot begins at a multiple of 16,
/// and 16 bytes lie between it and the slot before it.
pub fn slot_size(bytes: u64) -> u64
    requires { bytes < 2 ^ 63 }
    ensures { result ≡ slot_size bytes }
{
    (bytes + 15) / 16 * 16 + 16
}

/// The bytes of a frame with slots of so many bytes and so many pending operands: the return address
/// and the saved frame pointer, the slots, and an even number of words for the operands.
pub fn frame_bytes(slots: u64, pending: u64) -> u64
    requires slots { slots < 2 ^ 63 }
    requires pending { pending ≤ 2 ^ 32 }
    ensures { result ≡ frame_bytes slots pending }
{
    16 + slots + (pending + 1) / 2 * 16
}
