//! Ops that combine two operands.

ghost use Rattle.std.specs.Prelude.{◌≡◌, ◌+◌, ◌++◌, IfOk, OnOk};
ghost use Rattle.fx_c_ast.specs.CheckedTrees.{ty_tree, texpr_tree};
ghost use Rattle.fx_c_mean_model.specs.States.{type_of as typed};
ghost use Rattle.fx_c_lower_model.specs.Steps.{widening, widening_len, widening_late};
ghost use Rattle.fx_c_lower_model.specs.Direct.{right_len, right_owed};
ghost use Rattle.fx_c_lower_model.specs.Operands.{left_code, left_len, left_late, move_code};
ghost use Rattle.fx_c_lower_model.specs.Operands.{move_len, pointers_code, combine_code};
ghost use Rattle.fx_c_lower_model.specs.Operands.{combine_len, truth_code, test_code, test_len};
ghost use Rattle.fx_c_lower.specs.Views.{made, source, direct_of};

use crate::direct::{Simple, direct_cost};
use crate::forms::type_of;
use crate::output::{Output, sum};
use fx_c_ast::checked::{TExpr, Ty};
use fx_c_ast::operator::{Binop, IntType};
use fx_c_lin::op::{Op, Right};
use fx_c_lower_tables::sizes::Sizes;
use std::alloc::AllocError;

fn widen(out: &mut Output, owed: u32, i: IntType) -> Result<(), AllocError>
    ensures place { OnOk result (out.new.at ≡ out.old.at + widening_len i) }
    ensures code { OnOk result (made out.new ≡ made out.old ++ widening owed i) }
{
    match i {
        IntType::Long | IntType::Ulong => Ok(()),
        _ => out.put(Op::Convert(i, IntType::Long), owed),
    }
}

fn widening_size(i: IntType) -> u32
    ensures { result ≡ widening_len i }
{
    match i {
        IntType::Long | IntType::Ulong => 0,
        _ => 1,
    }
}

fn widening_late(owed: u32, i: IntType) -> u32
    ensures { result ≡ widening_late owed i }
{
    match i {
        IntType::Long | IntType::Ulong => owed,
        _ => 0,
    }
}

/// Behind the left operand: an integer below a pointer becomes a `long`.
pub fn left(out: &mut Output, op: Binop, owed: u32, a: &TExpr, b: &TExpr) -> Result<(), AllocError>
    ensures place { OnOk result (out.new.at ≡ out.old.at
        + left_len op (typed (texpr_tree a.now)) (typed (texpr_tree b.now))) }
    ensures code { OnOk result (made out.new ≡ made out.old
        ++ left_code op owed (typed (texpr_tree a.now)) (typed (texpr_tree b.now))) }
{
    match (op, type_of(a), type_of(b)) {
        (Binop::Add, Ty::Int(i), Ty::Ptr(_)) => widen(out, owed, *i),
        _ => Ok(()),
    }
}

/// How many steps that has.
pub fn left_size(op: Binop, a: &TExpr, b: &TExpr) -> u32
    ensures { result ≡ left_len op (typed (texpr_tree a.now)) (typed (texpr_tree b.now)) }
{
    match (op, type_of(a), type_of(b)) {
        (Binop::Add, Ty::Int(i), Ty::Ptr(_)) => widening_size(*i),
        _ => 0,
    }
}

/// What is owed behind it.
pub fn left_late(op: Binop, owed: u32, a: &TExpr, b: &TExpr) -> u32
    ensures { result ≡ left_late op owed (typed (texpr_tree a.now)) (typed (texpr_tree b.now)) }
{
    match (op, type_of(a), type_of(b)) {
        (Binop::Add, Ty::Int(i), Ty::Ptr(_)) => widening_late(owed, *i),
        _ => owed,
    }
}

/// How many steps a right operand has whose value has so many.
pub fn right_size(right: Right, len: u32) -> u32
    ensures { result ≡ right_len right len }
{
    match right {
        Right::Pending => len,
        Right::Number(_) | Right::Local(_) => 0,
    }
}

/// What is owed before an op: behind a pending right operand, or behind the left one and for the
/// right one.
pub fn right_owed(right: Right, d: Simple, left: u32, after: u32) -> Result<u32, AllocError>
    ensures { IfOk result (λ n. n ≡ right_owed right (direct_of d) left after) }
{
    match right {
        Right::Pending => Ok(after),
        Right::Number(_) | Right::Local(_) => sum(left, direct_cost(d)),
    }
}

fn moved(
    out: &mut Output,
    owed: u32,
    right: Right,
    op: Binop,
    bytes: u32,
    i: IntType,
) -> Result<(), AllocError>
    ensures place { OnOk result (out.new.at ≡ out.old.at + move_len right op i) }
    ensures code { OnOk result (made out.new ≡ made out.old ++ move_code owed right op bytes i) }
{
    match (right, op) {
        (Right::Pending, Binop::Add) => {
            widen(out, owed, i)?;
            out.put_owing(Op::Index(bytes, Right::Pending), widening_late(owed, i))
        }
        (_, Binop::Add) => out.put_owing(Op::Index(bytes, right), owed),
        (_, Binop::Sub) => {
            widen(out, owed, i)?;
            out.put_owing(Op::Back(bytes), widening_late(owed, i))
        }
        _ => out.put_owing(Op::Drop, owed),
    }
}

fn pointers(
    out: &mut Output,
    owed: u32,
    right: Right,
    op: Binop,
    bytes: u32,
) -> Result<(), AllocError>
    ensures place { OnOk result (out.new.at ≡ out.old.at + 1) }
    ensures code { OnOk result (made out.new ≡ made out.old ++ pointers_code owed right op bytes) }
{
    match op {
        Binop::Sub => out.put_owing(Op::Difference(bytes), owed),
        _ => out.put_owing(Op::PtrCompare(op, right), owed),
    }
}

fn combine_types(
    sizes: &Sizes<'_>,
    out: &mut Output,
    owed: u32,
    right: Right,
    op: Binop,
    s: &Ty,
    t: &Ty,
) -> Result<(), AllocError>
    ensures place { OnOk result (out.new.at ≡ out.old.at
        + combine_len right op (ty_tree s.now) (ty_tree t.now)) }
    ensures code { OnOk result (made out.new ≡ made out.old
        ++ combine_code (source sizes.now) owed right op (ty_tree s.now) (ty_tree t.now)) }
{
    match (s, t) {
        (Ty::Int(i), Ty::Int(_)) => out.put_owing(Op::Binary(op, *i, right), owed),
        (Ty::Ptr(t), Ty::Int(i)) => {
            let bytes = sizes.size(t)?;
            moved(out, owed, right, op, bytes, *i)
        }
        (Ty::Int(_), Ty::Ptr(t)) => {
            let bytes = sizes.size(t)?;
            out.put_owing(Op::IndexLeft(bytes), owed)
        }
        (Ty::Ptr(s), Ty::Ptr(_)) => {
            let bytes = sizes.size(s)?;
            pointers(out, owed, right, op, bytes)
        }
        _ => out.put_owing(Op::Drop, owed),
    }
}

/// The op that combines two operands.
pub fn combine(
    sizes: &Sizes<'_>,
    out: &mut Output,
    owed: u32,
    right: Right,
    op: Binop,
    a: &TExpr,
    b: &TExpr,
) -> Result<(), AllocError>
    ensures place { OnOk result (out.new.at ≡ out.old.at
        + combine_len right op (typed (texpr_tree a.now)) (typed (texpr_tree b.now))) }
    ensures code { OnOk result (made out.new ≡ made out.old
        ++ combine_code (source sizes.now) owed right op (typed (texpr_tree a.now))
        (typed (texpr_tree b.now))) }
{
    combine_types(sizes, out, owed, right, op, type_of(a), type_of(b))
}

fn move_size(right: Right, op: Binop, i: IntType) -> u32
    ensures { result ≡ move_len right op i }
{
    match (right, op) {
        (Right::Pending, Binop::Add) => widening_size(i) + 1,
        (_, Binop::Sub) => widening_size(i) + 1,
        _ => 1,
    }
}

/// How many steps that has.
pub fn combine_size(right: Right, op: Binop, a: &TExpr, b: &TExpr) -> u32
    ensures { result ≡ combine_len right op (typed (texpr_tree a.now)) (typed (texpr_tree b.now)) }
{
    match (type_of(a), type_of(b)) {
        (Ty::Ptr(_), Ty::Int(i)) => move_size(right, op, *i),
        _ => 1,
    }
}

/// A 1, or a 0 for those who come to its last step.
pub fn truth(out: &mut Output) -> Result<(), AllocError>
    ensures place { OnOk result (out.new.at ≡ out.old.at + 3) }
    ensures code { OnOk result (made out.new ≡ made out.old ++ truth_code out.old.at) }
{
    let end = sum(out.at, 3)?;
    out.put(Op::Number(1), 0)?;
    out.put(Op::Jump(end), 0)?;
    out.put(Op::Number(0), 0)
}

/// Goes to a position where a word's truth is this.
pub fn test(out: &mut Output, cost: u32, sense: bool, to: u32) -> Result<(), AllocError>
    ensures place { OnOk result (out.new.at ≡ out.old.at + test_len sense) }
    ensures code { OnOk result (made out.new ≡ made out.old ++ test_code out.old.at cost sense to) }
{
    if sense {
        let end = sum(out.at, 2)?;
        out.put(Op::JumpZero(end), cost)?;
        return out.put(Op::Jump(to), 0);
    }
    out.put(Op::JumpZero(to), cost)
}

/// How many steps a test has.
pub fn test_size(sense: bool) -> u32
    ensures { result ≡ test_len sense }
{
    if sense { 2 } else { 1 }
}
