//! The ops of expressions by themselves, behind the code of their operands.

ghost use Rattle.std.specs.Prelude.{◌≡◌, ◌+◌, ◌++◌, ◌∷◌, [], IfOk, OnOk};
ghost use mathlib.Core.Bool.{beq};
ghost use Rattle.fx_c_ast.specs.declared.operator.Binop.TheVariants.{Ne};
ghost use Rattle.fx_c_ast.specs.CheckedTrees.{ty_tree, texpr_tree};
ghost use Rattle.fx_c_mean_model.specs.States.{type_of as typed, pointed};
ghost use Rattle.fx_c_mean_model.specs.Programs.{size_in};
ghost use Rattle.fx_c_lower_model.specs.Steps.{chosen, costing, jumping as jumps};
ghost use Rattle.fx_c_lower_model.specs.Steps.{compared as comparing, member_offset as offset_in};
ghost use Rattle.fx_c_lower_model.specs.Steps.{ask_op as asking, tell_op as telling};
ghost use Rattle.fx_c_lower_model.specs.Steps.{stops as stopping};
ghost use Rattle.fx_c_lower_model.specs.Lengths.{jump_len, value_len, condition_len};
ghost use Rattle.fx_c_lower_model.specs.Operands.{test_code, test_len};
ghost use Rattle.fx_c_lower_model.specs.Code.{call_op as calling, call_step, decided_at as decided};
ghost use Rattle.fx_c_lin.specs.Ops.{Number as NumberOp, LoadLocal, Offset, CompareJump, op_of};
ghost use Rattle.fx_c_lin.specs.declared.op.Right.TheVariants.{Number};
ghost use Rattle.fx_c_lin.specs.declared.op.Compared.TheVariants.{Pointers};
ghost use Rattle.fx_c_lower.specs.Views.{made, source, way_of, number_of};

use crate::forms::{compared, jumping, pointed_type, stops, type_of};
use crate::lengths::{condition_size, jump_size};
use crate::operands::test;
use crate::output::{Output, sum};
use fx_c_ast::checked::{TExpr, Ty};
use fx_c_ast::operator::Binop;
use fx_c_lin::op::{Compared, Op, Right};
use fx_c_lower_tables::sizes::Sizes;
use std::alloc::AllocError;

/// What is called: a function, or an entry function through a gate, by its number.
#[derive(Clone, Copy)]
pub enum Callee {
    Function(u32),
    Entry(u32),
}

/// A condition's jump: to which position, at which truth of the condition, and what the step costs
/// that tests it.
#[derive(Clone, Copy)]
pub struct Target {
    pub to: u32,
    pub sense: bool,
    pub more: u32,
}

// ---- ops

/// The read of a register of a device.
pub fn ask_op(device: u16, register: u16) -> Op
    ensures { op_of result ≡ asking device register }
{
    match (device, register) {
        (0, 0) => Op::Getc,
        _ => Op::DevLoad(device, register),
    }
}

/// The write of a register of a device.
pub fn tell_op(device: u16, register: u16) -> Op
    ensures { op_of result ≡ telling device register }
{
    match (device, register) {
        (0, 0) => Op::Putc,
        _ => Op::DevStore(device, register),
    }
}

fn call_op(callee: Callee) -> Op
    ensures { op_of result ≡ calling (way_of callee) (number_of callee) }
{
    match callee {
        Callee::Function(f) => Op::Call(f),
        Callee::Entry(f) => Op::Gate(f),
    }
}

fn number(callee: Callee) -> u32
    ensures { result ≡ number_of callee }
{
    match callee {
        Callee::Function(f) | Callee::Entry(f) => f,
    }
}

/// Where a member of a struct begins; what is no struct has none but at its first byte.
pub fn offset(sizes: &Sizes<'_>, ty: &Ty, member: u32) -> Result<u32, AllocError>
    ensures { IfOk result (λ n. n ≡ offset_in (source sizes.now) (ty_tree ty.now) member) }
{
    match ty {
        Ty::Struct(n) => sizes.offset(*n, member),
        _ => Ok(0),
    }
}

/// The step to a member of the struct that an expression points to.
pub fn arrow_op(sizes: &Sizes<'_>, e: &TExpr, member: u32) -> Result<Op, AllocError>
    ensures { IfOk result (λ o. op_of o ≡ Offset (offset_in (source sizes.now)
        (pointed (typed (texpr_tree e.now))) member)) }
{
    let bytes = offset(sizes, pointed_type(type_of(e)), member)?;
    Ok(Op::Offset(bytes))
}

// ---- steps

/// A number, at its cost and what is owed.
pub fn constant(out: &mut Output, owed: u32, word: u64, cost: u32) -> Result<(), AllocError>
    ensures place { OnOk result (out.new.at ≡ out.old.at + 1) }
    ensures code { OnOk result (made out.new ≡ made out.old
        ++ costing (cost + owed) (NumberOp word) ∷ []) }
{
    let cost = sum(cost, owed)?;
    out.put(Op::Number(word), cost)
}

/// The value of a variable of integer or pointer type.
pub fn whole(out: &mut Output, owed: u32, n: u16) -> Result<(), AllocError>
    ensures place { OnOk result (out.new.at ≡ out.old.at + 1) }
    ensures code { OnOk result (made out.new ≡ made out.old
        ++ costing (2 + owed) (LoadLocal n) ∷ []) }
{
    let cost = sum(2, owed)?;
    out.put(Op::LoadLocal(n), cost)
}

/// The size of a type.
pub fn size(sizes: &Sizes<'_>, out: &mut Output, owed: u32, of: &Ty) -> Result<(), AllocError>
    ensures place { OnOk result (out.new.at ≡ out.old.at + 1) }
    ensures code { OnOk result (made out.new ≡ made out.old
        ++ costing (1 + owed) (NumberOp (size_in (source sizes.now) (ty_tree of.now))) ∷ []) }
{
    let bytes = sizes.size(of)?;
    out.put_owing(Op::Number(u64::from(bytes)), owed)
}

/// The step from a struct to a member of it.
pub fn step(
    sizes: &Sizes<'_>,
    out: &mut Output,
    owed: u32,
    e: &TExpr,
    member: u32,
) -> Result<(), AllocError>
    ensures place { OnOk result (out.new.at ≡ out.old.at + 1) }
    ensures code { OnOk result (made out.new ≡ made out.old
        ++ costing (1 + owed) (Offset (offset_in (source sizes.now) (typed (texpr_tree e.now))
        member)) ∷ []) }
{
    let bytes = offset(sizes, type_of(e), member)?;
    out.put_owing(Op::Offset(bytes), owed)
}

/// The call, which costs its frame as well.
pub fn enter(
    sizes: &Sizes<'_>,
    out: &mut Output,
    owed: u32,
    callee: Callee,
) -> Result<(), AllocError>
    ensures place { OnOk result (out.new.at ≡ out.old.at + 1) }
    ensures code { OnOk result (made out.new ≡ made out.old
        ++ call_step (source sizes.now) owed (way_of callee) (number_of callee) ∷ []) }
{
    let frame = sizes.frame(number(callee)) / 8;
    let cost = sum(sum(1, owed)?, frame)?;
    out.put(call_op(callee), cost)
}

// ---- conditions

/// The jump by a value's word.
pub fn tested(out: &mut Output, owed: u32, j: Target) -> Result<(), AllocError>
    ensures place { OnOk result (out.new.at ≡ out.old.at + test_len j.sense) }
    ensures code { OnOk result (made out.new ≡ made out.old
        ++ test_code out.old.at (j.more + owed) j.sense j.to) }
{
    let cost = sum(j.more, owed)?;
    test(out, cost, j.sense, j.to)
}

/// The jump by a pointer, which is compared with null.
pub fn pointer_tested(out: &mut Output, owed: u32, j: Target) -> Result<(), AllocError>
    ensures place { OnOk result (out.new.at ≡ out.old.at + 1) }
    ensures code { OnOk result (made out.new ≡ made out.old
        ++ costing (1 + j.more + owed) (CompareJump (jumps j.sense Ne) Pointers (Number 0)
        j.to) ∷ []) }
{
    let cost = sum(sum(1, j.more)?, owed)?;
    let op = jumping(j.sense, Binop::Ne);
    out.put(
        Op::CompareJump(op, Compared::Pointers, Right::Number(0), j.to),
        cost,
    )
}

/// The jump by a comparison of an expression with an operand.
pub fn comparison_tested(
    out: &mut Output,
    owed: u32,
    j: Target,
    op: Binop,
    e: &TExpr,
    right: Right,
) -> Result<(), AllocError>
    ensures place { OnOk result (out.new.at ≡ out.old.at + 1) }
    ensures code { OnOk result (made out.new ≡ made out.old
        ++ costing (1 + j.more + owed) (CompareJump (jumps j.sense op)
        (comparing (typed (texpr_tree e.now))) right j.to) ∷ []) }
{
    let cost = sum(sum(1, j.more)?, owed)?;
    let op = jumping(j.sense, op);
    out.put(Op::CompareJump(op, compared(e), right, j.to), cost)
}

/// Where the 1 of `&&` or `||` stands, whose code begins at a position.
pub fn ones_at(
    sizes: &Sizes<'_>,
    at: u32,
    stop: bool,
    a: &TExpr,
    b: &TExpr,
) -> Result<u32, AllocError>
    ensures { IfOk result (λ n. n ≡ at + jump_len (source sizes.now) stop (texpr_tree a.now)
        (value_len (source sizes.now) (texpr_tree a.now))
        + condition_len (source sizes.now) (texpr_tree b.now)) }
{
    let second = sum(at, jump_size(sizes, stop, a)?)?;
    sum(second, condition_size(sizes, b)?)
}

/// Where the first operand leads to that decides: to the 1 or to the 0.
pub fn decided_at(stop: bool, ones: u32) -> Result<u32, AllocError>
    ensures { IfOk result (λ n. n ≡ decided stop ones) }
{
    if stop {
        return Ok(ones);
    }
    sum(ones, 2)
}

/// Where a condition's jump leads to whose first operand decides, by `&&` or `||`: to the jump's
/// position, or to the end of the condition.
pub fn told_at(j: Target, op: Binop, end: u32) -> u32
    ensures { result ≡ chosen (beq j.sense (stopping op)) j.to end }
{
    if j.sense == stops(op) { j.to } else { end }
}
