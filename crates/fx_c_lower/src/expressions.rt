//! The code of expressions.

ghost use Rattle.std.specs.Prelude.{◌≡◌, ◌+◌, ◌++◌, ◌∷◌, [], false, not, IfOk, OnOk};
ghost use mathlib.Core.Bool.{beq};
ghost use Rattle.fx_c_ast.specs.CheckedTrees.{VoidTy, EUn, ECast, EMember, ty_tree, texpr_tree};
ghost use Rattle.fx_c_ast.specs.CheckedTrees.{texpr_trees};
ghost use Rattle.fx_c_ast.specs.declared.operator.Binop.TheVariants.{Ne};
ghost use Rattle.fx_c_mean_model.specs.States.{type_of as typed};
ghost use Rattle.fx_c_lower_model.specs.Steps.{chosen, costing, stops as stopping};
ghost use Rattle.fx_c_lower_model.specs.Steps.{jumping as jumps, compared as comparing};
ghost use Rattle.fx_c_lower_model.specs.Late.{value_late};
ghost use Rattle.fx_c_lower_model.specs.Lengths.{reach_len, jump_len, args_len, value_len};
ghost use Rattle.fx_c_lower_model.specs.Lengths.{condition_len};
ghost use Rattle.fx_c_lower_model.specs.Operands.{left_code, combine_code, combine_len, truth_code};
ghost use Rattle.fx_c_lower_model.specs.Operands.{test_code, test_len};
ghost use Rattle.fx_c_lower_model.specs.Code.{reach_code, jump_code, args_code, value_code};
ghost use Rattle.fx_c_lower_model.specs.Code.{condition_code, right_operand as right_as};
ghost use Rattle.fx_c_lower_model.specs.Code.{second_owed, second_at, right_code};
ghost use Rattle.fx_c_lower_model.specs.Code.{decided_at as decided};
ghost use Rattle.fx_c_lower_model.specs.Direct.{direct as as_direct, right_len, right_owed};
ghost use Rattle.fx_c_lin.specs.Ops.{CompareJump, Jump as JumpOp, op_of};
ghost use Rattle.fx_c_lin.specs.declared.op.Right.TheVariants.{Number};
ghost use Rattle.fx_c_lin.specs.declared.op.Compared.TheVariants.{Pointers};
ghost use Rattle.fx_c_lower.specs.Views.{made, source, direct_of, way_of, number_of};

use crate::direct::{Simple, direct, right_of};
use crate::forms::{
    cast, is_comparison, is_logical, load, load_late, stops, takes_value, tests_pointer, unary,
};
use crate::late::late;
use crate::lengths::jump_size;
use crate::operands::{combine, left, left_late, right_owed as owed_by, truth};
use crate::output::{Output, sum};
use crate::pieces::{
    Callee, Target, arrow_op, ask_op, comparison_tested, constant, decided_at, enter, ones_at,
    pointer_tested, size, step, tell_op, tested, told_at, whole,
};
use fx_c_ast::checked::{TExpr, TKind, Ty};
use fx_c_ast::operator::{Binop, Unop};
use fx_c_lin::op::{Op, Right};
use fx_c_lower_tables::sizes::Sizes;
use std::alloc::{AllocError, Global};

/// The value of an expression, whose first op costs what is owed as well; what is owed behind it.
#[cycle(expressions)]
pub fn value(
    alloc: Global,
    sizes: &Sizes<'_>,
    out: &mut Output,
    owed: u32,
    e: &TExpr,
) -> Result<u32, AllocError>
    ensures place { OnOk result (out.new.at ≡ out.old.at
        + value_len (source sizes.now) (texpr_tree e.now)) }
    ensures code { OnOk result (made out.new ≡ made out.old
        ++ value_code (source sizes.now) out.old.at owed (texpr_tree e.now)) }
    ensures late { IfOk result (λ n. n ≡ value_late (source sizes.now) (texpr_tree e.now)) }
{
    match direct(sizes, e)? {
        Simple::Constant { word, cost } => {
            constant(out, owed, word, cost)?;
            Ok(0)
        }
        Simple::Whole(n) => {
            whole(out, owed, n)?;
            Ok(0)
        }
        Simple::Other => {
            reach(alloc, sizes, out, owed, e)?;
            let owed = late(sizes, e)?;
            load(alloc, out, owed, e)?;
            Ok(load_late(owed, e))
        }
    }
}

/// An expression up to an lvalue's address, or to any other value.
#[cycle(expressions)]
pub fn reach(
    alloc: Global,
    sizes: &Sizes<'_>,
    out: &mut Output,
    owed: u32,
    e: &TExpr,
) -> Result<(), AllocError>
    ensures place { OnOk result (out.new.at ≡ out.old.at
        + reach_len (source sizes.now) (texpr_tree e.now)) }
    ensures code { OnOk result (made out.new ≡ made out.old
        ++ reach_code (source sizes.now) out.old.at owed (texpr_tree e.now)) }
{
    match &e.kind {
        TKind::Number(word) => out.put_owing(Op::Number(*word), owed),
        TKind::Literal(n) => out.put_owing(Op::LiteralAddr(*n), owed),
        TKind::Global(n) => out.put_owing(Op::GlobalAddr(*n), owed),
        TKind::Local(n) => out.put_owing(Op::LocalAddr(*n), owed),
        TKind::Un(op, inner) => operated(alloc, sizes, out, owed, *op, inner),
        TKind::Bin(op, a, b) => {
            if is_logical(*op) {
                let ones = ones_at(sizes, out.at, stops(*op), a, b)?;
                deciding(alloc, sizes, out, owed, a, *op, ones)?;
                return judging(alloc, sizes, out, b, ones);
            }
            let owed = left_operand(alloc, sizes, out, owed, a, b, *op)?;
            right_operand(alloc, sizes, out, owed, b, a, *op)
        }
        TKind::Cast(inner) | TKind::Convert(inner) => {
            converted(alloc, sizes, out, owed, inner, &e.ty)
        }
        TKind::Size(of) => size(sizes, out, owed, of),
        TKind::Index(a, b) => {
            let owed = left_operand(alloc, sizes, out, owed, a, b, Binop::Add)?;
            right_operand(alloc, sizes, out, owed, b, a, Binop::Add)
        }
        TKind::Member(inner, n) => member(alloc, sizes, out, owed, inner, *n),
        TKind::Arrow(inner, n) => {
            let op = arrow_op(sizes, inner, *n)?;
            apply(alloc, sizes, out, owed, inner, op)
        }
        TKind::Call(f, all) => call(alloc, sizes, out, owed, Callee::Function(*f), all),
        TKind::Gate(f, all) => call(alloc, sizes, out, owed, Callee::Entry(*f), all),
        TKind::Getc => out.put_owing(Op::Getc, owed),
        TKind::Putc(inner) => apply(alloc, sizes, out, owed, inner, Op::Putc),
        TKind::DevLoad(device, register) => out.put_owing(ask_op(*device, *register), owed),
        TKind::DevStore(device, register, inner) => {
            apply(alloc, sizes, out, owed, inner, tell_op(*device, *register))
        }
        TKind::Spawn(f, inner) => apply(alloc, sizes, out, owed, inner, Op::Spawn(*f)),
        TKind::Switch(inner) => apply(alloc, sizes, out, owed, inner, Op::Switch),
        TKind::Me => out.put_owing(Op::Me, owed),
    }
}

/// An operator at an operand, whose value it takes or whose address.
#[cycle(expressions)]
fn operated(
    alloc: Global,
    sizes: &Sizes<'_>,
    out: &mut Output,
    owed: u32,
    op: Unop,
    e: &TExpr,
) -> Result<(), AllocError>
    ensures place { OnOk result (out.new.at ≡ out.old.at
        + reach_len (source sizes.now) (EUn VoidTy op (texpr_tree e.now))) }
    ensures code { OnOk result (made out.new ≡ made out.old
        ++ reach_code (source sizes.now) out.old.at owed (EUn VoidTy op (texpr_tree e.now))) }
{
    if takes_value(op) {
        let owed = value(alloc, sizes, out, owed, e)?;
        return unary(out, op, owed, e);
    }
    reach(alloc, sizes, out, owed, e)
}

/// A value that is converted to a type.
#[cycle(expressions)]
fn converted(
    alloc: Global,
    sizes: &Sizes<'_>,
    out: &mut Output,
    owed: u32,
    e: &TExpr,
    to: &Ty,
) -> Result<(), AllocError>
    ensures place { OnOk result (out.new.at ≡ out.old.at
        + reach_len (source sizes.now) (ECast (ty_tree to.now) (texpr_tree e.now))) }
    ensures code { OnOk result (made out.new ≡ made out.old
        ++ reach_code (source sizes.now) out.old.at owed
        (ECast (ty_tree to.now) (texpr_tree e.now))) }
{
    let owed = value(alloc, sizes, out, owed, e)?;
    cast(out, owed, e, to)
}

/// A member of a struct.
#[cycle(expressions)]
fn member(
    alloc: Global,
    sizes: &Sizes<'_>,
    out: &mut Output,
    owed: u32,
    e: &TExpr,
    n: u32,
) -> Result<(), AllocError>
    ensures place { OnOk result (out.new.at ≡ out.old.at
        + reach_len (source sizes.now) (EMember VoidTy (texpr_tree e.now) n)) }
    ensures code { OnOk result (made out.new ≡ made out.old
        ++ reach_code (source sizes.now) out.old.at owed (EMember VoidTy (texpr_tree e.now) n)) }
{
    reach(alloc, sizes, out, owed, e)?;
    let owed = late(sizes, e)?;
    step(sizes, out, owed, e, n)
}

/// A value, and an op that takes it.
#[cycle(expressions)]
fn apply(
    alloc: Global,
    sizes: &Sizes<'_>,
    out: &mut Output,
    owed: u32,
    e: &TExpr,
    op: Op,
) -> Result<(), AllocError>
    ensures place { OnOk result (out.new.at ≡ out.old.at
        + (value_len (source sizes.now) (texpr_tree e.now) + 1)) }
    ensures code { OnOk result (made out.new ≡ made out.old
        ++ (value_code (source sizes.now) out.old.at owed (texpr_tree e.now)
        ++ costing (1 + value_late (source sizes.now) (texpr_tree e.now)) (op_of op) ∷ [])) }
{
    let owed = value(alloc, sizes, out, owed, e)?;
    out.put_owing(op, owed)
}

/// The left operand of an operator at two values; what is owed behind it.
#[cycle(expressions)]
fn left_operand(
    alloc: Global,
    sizes: &Sizes<'_>,
    out: &mut Output,
    owed: u32,
    a: &TExpr,
    b: &TExpr,
    op: Binop,
) -> Result<u32, AllocError>
    ensures place { OnOk result (out.new.at ≡ second_at (source sizes.now) out.old.at op
        (texpr_tree a.now) (texpr_tree b.now)) }
    ensures code { OnOk result (made out.new ≡ made out.old
        ++ (value_code (source sizes.now) out.old.at owed (texpr_tree a.now)
        ++ left_code op (value_late (source sizes.now) (texpr_tree a.now))
        (typed (texpr_tree a.now)) (typed (texpr_tree b.now)))) }
    ensures late { IfOk result (λ n. n ≡ second_owed (source sizes.now) op (texpr_tree a.now)
        (texpr_tree b.now)) }
{
    let before = value(alloc, sizes, out, owed, a)?;
    left(out, op, before, a, b)?;
    Ok(left_late(op, before, a, b))
}

/// The right operand of an operator at two values, and the op that combines them.
#[cycle(expressions)]
fn right_operand(
    alloc: Global,
    sizes: &Sizes<'_>,
    out: &mut Output,
    owed: u32,
    b: &TExpr,
    a: &TExpr,
    op: Binop,
) -> Result<(), AllocError>
    ensures place { OnOk result (out.new.at ≡ out.old.at
        + (right_len (right_as (source sizes.now) op (texpr_tree a.now) (texpr_tree b.now))
        (value_len (source sizes.now) (texpr_tree b.now))
        + combine_len (right_as (source sizes.now) op (texpr_tree a.now) (texpr_tree b.now)) op
        (typed (texpr_tree a.now)) (typed (texpr_tree b.now)))) }
    ensures code { OnOk result (made out.new ≡ made out.old
        ++ (right_code (right_as (source sizes.now) op (texpr_tree a.now) (texpr_tree b.now))
        (value_code (source sizes.now) out.old.at owed (texpr_tree b.now))
        ++ combine_code (source sizes.now) (right_owed
        (right_as (source sizes.now) op (texpr_tree a.now) (texpr_tree b.now))
        (as_direct (source sizes.now) (texpr_tree b.now)) owed
        (value_late (source sizes.now) (texpr_tree b.now)))
        (right_as (source sizes.now) op (texpr_tree a.now) (texpr_tree b.now)) op
        (typed (texpr_tree a.now)) (typed (texpr_tree b.now)))) }
{
    let second = direct(sizes, b)?;
    let right = right_of(op, a, b, second);
    let owed = operand(alloc, sizes, out, owed, right, second, b)?;
    combine(sizes, out, owed, right, op, a, b)
}

/// A right operand, where it is taken from the stack; what is owed before the op that takes it.
#[cycle(expressions)]
fn operand(
    alloc: Global,
    sizes: &Sizes<'_>,
    out: &mut Output,
    owed: u32,
    right: Right,
    d: Simple,
    e: &TExpr,
) -> Result<u32, AllocError>
    ensures place { OnOk result (out.new.at ≡ out.old.at
        + right_len right (value_len (source sizes.now) (texpr_tree e.now))) }
    ensures code { OnOk result (made out.new ≡ made out.old
        ++ right_code right (value_code (source sizes.now) out.old.at owed (texpr_tree e.now))) }
    ensures late { IfOk result (λ n. n ≡ right_owed right (direct_of d) owed
        (value_late (source sizes.now) (texpr_tree e.now))) }
{
    match right {
        Right::Pending => value(alloc, sizes, out, owed, e),
        Right::Number(_) | Right::Local(_) => owed_by(right, d, owed, 0),
    }
}

/// The first operand of a `&&` or `||` whose 1 stands at a position.
#[cycle(expressions)]
fn deciding(
    alloc: Global,
    sizes: &Sizes<'_>,
    out: &mut Output,
    owed: u32,
    e: &TExpr,
    op: Binop,
    ones: u32,
) -> Result<(), AllocError>
    ensures place { OnOk result (out.new.at ≡ out.old.at
        + jump_len (source sizes.now) (stopping op) (texpr_tree e.now)
        (value_len (source sizes.now) (texpr_tree e.now))) }
    ensures code { OnOk result (made out.new ≡ made out.old
        ++ jump_code (source sizes.now) out.old.at owed 1 (stopping op) (decided (stopping op) ones)
        (texpr_tree e.now) (value_code (source sizes.now) out.old.at owed (texpr_tree e.now))) }
{
    let stop = stops(op);
    let first = Target {
        to: decided_at(stop, ones)?,
        sense: stop,
        more: 1,
    };
    jump(alloc, sizes, out, owed, first, e)
}

/// The second operand of a `&&` or `||` whose 1 stands at a position, and the whole's value.
#[cycle(expressions)]
fn judging(
    alloc: Global,
    sizes: &Sizes<'_>,
    out: &mut Output,
    e: &TExpr,
    ones: u32,
) -> Result<(), AllocError>
    ensures place { OnOk result (out.new.at ≡ out.old.at
        + (condition_len (source sizes.now) (texpr_tree e.now) + 3)) }
    ensures code { OnOk result (made out.new ≡ made out.old
        ++ (jump_code (source sizes.now) out.old.at 0 1 false (ones + 2) (texpr_tree e.now)
        (value_code (source sizes.now) out.old.at 0 (texpr_tree e.now))
        ++ truth_code (out.old.at + condition_len (source sizes.now) (texpr_tree e.now)))) }
{
    let second = Target {
        to: sum(ones, 2)?,
        sense: false,
        more: 1,
    };
    jump(alloc, sizes, out, 0, second, e)?;
    truth(out)
}

/// A condition, which goes to a position where its truth is told, and on otherwise.
#[cycle(expressions)]
pub fn jump(
    alloc: Global,
    sizes: &Sizes<'_>,
    out: &mut Output,
    owed: u32,
    j: Target,
    e: &TExpr,
) -> Result<(), AllocError>
    ensures place { OnOk result (out.new.at ≡ out.old.at
        + jump_len (source sizes.now) j.sense (texpr_tree e.now)
        (value_len (source sizes.now) (texpr_tree e.now))) }
    ensures code { OnOk result (made out.new ≡ made out.old
        ++ jump_code (source sizes.now) out.old.at owed j.more j.sense j.to (texpr_tree e.now)
        (value_code (source sizes.now) out.old.at owed (texpr_tree e.now))) }
{
    match &e.kind {
        TKind::Un(Unop::Lnot, inner) => {
            let inverse = Target {
                to: j.to,
                sense: !j.sense,
                more: sum(j.more, 1)?,
            };
            jump(alloc, sizes, out, owed, inverse, inner)
        }
        TKind::Bin(op, a, b) => {
            if is_logical(*op) {
                jump_first(alloc, sizes, out, owed, j, a, b, *op)?;
                return jump_second(alloc, sizes, out, j, b);
            }
            if is_comparison(*op) {
                let owed = value(alloc, sizes, out, owed, a)?;
                return jump_compared(alloc, sizes, out, owed, j, b, a, *op);
            }
            jump_tested(alloc, sizes, out, owed, j, e)
        }
        TKind::Convert(inner) => {
            if tests_pointer(inner, &e.ty) {
                return jump_pointer(alloc, sizes, out, owed, j, inner);
            }
            jump_tested(alloc, sizes, out, owed, j, e)
        }
        _ => jump_tested(alloc, sizes, out, owed, j, e),
    }
}

/// By a value's word.
#[cycle(expressions)]
fn jump_tested(
    alloc: Global,
    sizes: &Sizes<'_>,
    out: &mut Output,
    owed: u32,
    j: Target,
    e: &TExpr,
) -> Result<(), AllocError>
    ensures place { OnOk result (out.new.at ≡ out.old.at
        + (value_len (source sizes.now) (texpr_tree e.now) + test_len j.sense)) }
    ensures code { OnOk result (made out.new ≡ made out.old
        ++ (value_code (source sizes.now) out.old.at owed (texpr_tree e.now)
        ++ test_code (out.old.at + value_len (source sizes.now) (texpr_tree e.now))
        (j.more + value_late (source sizes.now) (texpr_tree e.now)) j.sense j.to)) }
{
    let owed = value(alloc, sizes, out, owed, e)?;
    tested(out, owed, j)
}

/// By a pointer, which is compared with null.
#[cycle(expressions)]
fn jump_pointer(
    alloc: Global,
    sizes: &Sizes<'_>,
    out: &mut Output,
    owed: u32,
    j: Target,
    e: &TExpr,
) -> Result<(), AllocError>
    ensures place { OnOk result (out.new.at ≡ out.old.at
        + (value_len (source sizes.now) (texpr_tree e.now) + 1)) }
    ensures code { OnOk result (made out.new ≡ made out.old
        ++ (value_code (source sizes.now) out.old.at owed (texpr_tree e.now)
        ++ costing (1 + j.more + value_late (source sizes.now) (texpr_tree e.now))
        (CompareJump (jumps j.sense Ne) Pointers (Number 0) j.to) ∷ [])) }
{
    let owed = value(alloc, sizes, out, owed, e)?;
    pointer_tested(out, owed, j)
}

/// By a comparison with this right operand.
#[cycle(expressions)]
fn jump_compared(
    alloc: Global,
    sizes: &Sizes<'_>,
    out: &mut Output,
    owed: u32,
    j: Target,
    b: &TExpr,
    a: &TExpr,
    op: Binop,
) -> Result<(), AllocError>
    ensures place { OnOk result (out.new.at ≡ out.old.at
        + (right_len (right_as (source sizes.now) op (texpr_tree a.now) (texpr_tree b.now))
        (value_len (source sizes.now) (texpr_tree b.now)) + 1)) }
    ensures code { OnOk result (made out.new ≡ made out.old
        ++ (right_code (right_as (source sizes.now) op (texpr_tree a.now) (texpr_tree b.now))
        (value_code (source sizes.now) out.old.at owed (texpr_tree b.now))
        ++ costing (1 + j.more + right_owed (right_as (source sizes.now) op (texpr_tree a.now)
        (texpr_tree b.now)) (as_direct (source sizes.now) (texpr_tree b.now)) owed
        (value_late (source sizes.now) (texpr_tree b.now)))
        (CompareJump (jumps j.sense op) (comparing (typed (texpr_tree a.now)))
        (right_as (source sizes.now) op (texpr_tree a.now) (texpr_tree b.now)) j.to) ∷ [])) }
{
    let second = direct(sizes, b)?;
    let right = right_of(op, a, b, second);
    let owed = operand(alloc, sizes, out, owed, right, second, b)?;
    comparison_tested(out, owed, j, op, a, right)
}

/// By the first operand of `&&` or `||`, behind which a step stands for where it decides.
#[cycle(expressions)]
fn jump_first(
    alloc: Global,
    sizes: &Sizes<'_>,
    out: &mut Output,
    owed: u32,
    j: Target,
    a: &TExpr,
    b: &TExpr,
    op: Binop,
) -> Result<(), AllocError>
    ensures place { OnOk result (out.new.at ≡ out.old.at
        + jump_len (source sizes.now) (not (stopping op)) (texpr_tree a.now)
        (value_len (source sizes.now) (texpr_tree a.now)) + 1) }
    ensures code { OnOk result (made out.new ≡ made out.old
        ++ (jump_code (source sizes.now) out.old.at owed 1 (not (stopping op))
        (out.old.at + jump_len (source sizes.now) (not (stopping op)) (texpr_tree a.now)
        (value_len (source sizes.now) (texpr_tree a.now)) + 1) (texpr_tree a.now)
        (value_code (source sizes.now) out.old.at owed (texpr_tree a.now))
        ++ costing j.more (JumpOp (chosen (beq j.sense (stopping op)) j.to
        (out.old.at + jump_len (source sizes.now) (not (stopping op)) (texpr_tree a.now)
        (value_len (source sizes.now) (texpr_tree a.now)) + 1
        + jump_len (source sizes.now) j.sense (texpr_tree b.now)
        (value_len (source sizes.now) (texpr_tree b.now))))) ∷ [])) }
{
    let on = !stops(op);
    let second = sum(sum(out.at, jump_size(sizes, on, a)?)?, 1)?;
    let end = sum(second, jump_size(sizes, j.sense, b)?)?;
    let first = Target {
        to: second,
        sense: on,
        more: 1,
    };
    jump(alloc, sizes, out, owed, first, a)?;
    out.put(Op::Jump(told_at(j, op, end)), j.more)
}

/// By the second operand of `&&` or `||`.
#[cycle(expressions)]
fn jump_second(
    alloc: Global,
    sizes: &Sizes<'_>,
    out: &mut Output,
    j: Target,
    e: &TExpr,
) -> Result<(), AllocError>
    ensures place { OnOk result (out.new.at ≡ out.old.at
        + jump_len (source sizes.now) j.sense (texpr_tree e.now)
        (value_len (source sizes.now) (texpr_tree e.now))) }
    ensures code { OnOk result (made out.new ≡ made out.old
        ++ jump_code (source sizes.now) out.old.at 0 (j.more + 1) j.sense j.to (texpr_tree e.now)
        (value_code (source sizes.now) out.old.at 0 (texpr_tree e.now))) }
{
    let rest = Target {
        to: j.to,
        sense: j.sense,
        more: sum(j.more, 1)?,
    };
    jump(alloc, sizes, out, 0, rest, e)
}

/// The arguments from left to right, and the call.
#[cycle(expressions)]
fn call(
    alloc: Global,
    sizes: &Sizes<'_>,
    out: &mut Output,
    owed: u32,
    callee: Callee,
    all: &[TExpr],
) -> Result<(), AllocError>
    ensures place { OnOk result (out.new.at ≡ out.old.at
        + (args_len (source sizes.now) (texpr_trees all.now) + 1)) }
    ensures code { OnOk result (made out.new ≡ made out.old
        ++ args_code (source sizes.now) out.old.at owed (way_of callee) (number_of callee)
        (texpr_trees all.now)) }
{
    let mut owing = owed;
    for e in all {
        owing = value(alloc, sizes, out, owing, e)?;
    }
    enter(sizes, out, owing, callee)
}

/// A condition, which goes to a position where it is false.
pub fn condition(
    alloc: Global,
    sizes: &Sizes<'_>,
    out: &mut Output,
    to: u32,
    e: &TExpr,
) -> Result<(), AllocError>
    ensures place { OnOk result (out.new.at ≡ out.old.at
        + condition_len (source sizes.now) (texpr_tree e.now)) }
    ensures code { OnOk result (made out.new ≡ made out.old
        ++ condition_code (source sizes.now) out.old.at to (texpr_tree e.now)) }
{
    let j = Target {
        to,
        sense: false,
        more: 1,
    };
    jump(alloc, sizes, out, 0, j, e)
}
