//! How many operands are pending before each op of a function.

ghost use Rattle.std.specs.Prelude.{◌≡◌, ◌+◌, ◌-◌, IfOk, map, slice_index_or, None};
ghost use Rattle.fx_c_lin.specs.Ops.{op_of, step_of};
ghost use Rattle.fx_templates_core.specs.Functions.{params_at};
ghost use Rattle.fx_build_parts.specs.Pending.{right_count, behind, leads_to, with_mark};
ghost use Rattle.fx_build_parts.specs.Pending.{pending_at, pending_before};

use fx_c_lin::op::{Op, Right, Step};
use fx_match_rel::Addresses;
use fx_templates_core::functions::params_at;
use std::alloc::{AllocError, Global};

/// Whether a right operand is pending, as a number.
fn right_count(right: Right) -> u16
    ensures { result ≡ right_count right }
{
    match right {
        Right::Pending => 1,
        Right::Number(_) | Right::Local(_) => 0,
    }
}

/// One more operand. So many no memory bears out.
fn one_more(count: u16) -> Result<u16, AllocError>
    ensures { IfOk result (λ n. n ≡ count + 1) }
{
    match count.checked_add(1) {
        Some(n) => Ok(n),
        None => Err(AllocError),
    }
}

/// What a call of a function leaves.
fn behind_call(a: &Addresses, count: u16, f: u32) -> Result<u16, AllocError>
    ensures { IfOk result (λ n. n ≡ count - params_at a.now f + 1) }
{
    one_more(count.saturating_sub(params_at(a, f)))
}

/// How many operands are pending behind an op before which so many are.
fn behind(a: &Addresses, count: u16, op: &Op) -> Result<u16, AllocError>
    ensures { IfOk result (λ n. n ≡ behind a.now count (op_of op.now)) }
{
    match op {
        Op::Number(_)
        | Op::LocalAddr(_)
        | Op::LoadLocal(_)
        | Op::GlobalAddr(_)
        | Op::LiteralAddr(_)
        | Op::Me
        | Op::DevLoad(..)
        | Op::Getc => one_more(count),
        Op::Load(_)
        | Op::Unary(..)
        | Op::Convert(..)
        | Op::Offset(_)
        | Op::Jump(_)
        | Op::Spawn(_)
        | Op::Switch
        | Op::DevStore(..)
        | Op::Putc => Ok(count),
        Op::StoreLocal(_)
        | Op::IndexLeft(_)
        | Op::Back(_)
        | Op::Difference(_)
        | Op::JumpZero(_)
        | Op::Drop => Ok(count.saturating_sub(1)),
        Op::Store(_) | Op::Copy(_) => Ok(count.saturating_sub(2)),
        Op::Binary(_, _, right) | Op::PtrCompare(_, right) | Op::Index(_, right) => {
            Ok(count.saturating_sub(right_count(*right)))
        }
        Op::CompareJump(_, _, right, _) => {
            Ok(count.saturating_sub(1).saturating_sub(right_count(*right)))
        }
        Op::Call(f) | Op::Gate(f) => behind_call(a, count, *f),
        Op::Return => Ok(0),
    }
}

/// The place to which an op may lead.
pub(crate) fn leads_to(op: &Op) -> Option<u32>
    ensures { result ≡ leads_to (op_of op.now) }
{
    match op {
        Op::CompareJump(_, _, _, to) | Op::Jump(to) | Op::JumpZero(to) => Some(*to),
        Op::Number(_)
        | Op::LocalAddr(_)
        | Op::LoadLocal(_)
        | Op::StoreLocal(_)
        | Op::GlobalAddr(_)
        | Op::LiteralAddr(_)
        | Op::Load(_)
        | Op::Store(_)
        | Op::Copy(_)
        | Op::Unary(..)
        | Op::Binary(..)
        | Op::PtrCompare(..)
        | Op::Convert(..)
        | Op::Index(..)
        | Op::IndexLeft(_)
        | Op::Back(_)
        | Op::Difference(_)
        | Op::Offset(_)
        | Op::Call(_)
        | Op::Gate(_)
        | Op::Spawn(_)
        | Op::Switch
        | Op::Me
        | Op::DevLoad(..)
        | Op::DevStore(..)
        | Op::Getc
        | Op::Putc
        | Op::Drop
        | Op::Return => None,
    }
}

/// What is pending at a place, where the op before it leaves so many.
fn pending_at(marks: &[Option<u16>], k: usize, count: u16) -> u16
    ensures { result ≡ pending_at marks.now k count }
{
    match marks.get(k) {
        Some(Some(brought)) => *brought,
        Some(None) | None => count,
    }
}

/// An op brings so many operands to the place to which it leads.
fn mark(marks: &mut [Option<u16>], count: u16, to: Option<u32>)
    ensures { marks.new ≡ with_mark marks.old count to }
{
    if let Some(to) = to {
        let place = to as usize;
        if place < marks.len() {
            marks[place] = Some(count);
        }
    }
}

/// How many operands are pending before each op of a function. So many as don't fit in 16 bits are
/// want of memory.
pub(crate) fn pending_before(
    alloc: Global,
    a: &Addresses,
    steps: &[Step],
) -> Result<Vec<u16>, AllocError>
    ensures { IfOk result (λ v. v.items ≡ pending_before a.now (map step_of steps.now)) }
{
    let mut marks = vec![in alloc; None; steps.len()]?;
    let mut counts = Vec::new(alloc);
    let mut count = 0;
    for (k, step) in steps.iter().enumerate() {
        let before = pending_at(&marks, k, count);
        counts.push(before)?;
        count = behind(a, before, &step.op)?;
        mark(&mut marks, count, leads_to(&step.op));
    }
    Ok(counts)
}
