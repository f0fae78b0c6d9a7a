//! What is done for types, expressions and operators by themselves.

ghost use Rattle.std.specs.Prelude.{◌≡◌, ◌+◌, ◌++◌, IfOk, OnOk};
ghost use Rattle.fx_c_ast.specs.CheckedTrees.{ty_tree, texpr_tree};
ghost use Rattle.fx_c_mean_model.specs.States.{is_lvalue, is_scalar as scalar, same_integer};
ghost use Rattle.fx_c_mean_model.specs.States.{same_type, pointed, type_of as typed};
ghost use Rattle.fx_c_lower_model.specs.Steps.{is_loaded as loaded, load_code, load_len, load_late};
ghost use Rattle.fx_c_lower_model.specs.Steps.{integer_in, unary_code, unary_len, unary_late};
ghost use Rattle.fx_c_lower_model.specs.Steps.{takes_value, convert_code, convert_len};
ghost use Rattle.fx_c_lower_model.specs.Steps.{convert_late, cast_code, cast_len, cast_late};
ghost use Rattle.fx_c_lower_model.specs.Steps.{is_logical, stops, is_comparison, opposite, jumping};
ghost use Rattle.fx_c_lower_model.specs.Steps.{compared, tests_pointer};
ghost use Rattle.fx_c_lower.specs.Views.{made};

use crate::output::{Output, sum};
use fx_c_ast::checked::{TExpr, TKind, Ty};
use fx_c_ast::operator::{Binop, IntType, Unop};
use fx_c_lin::op::{Compared, Op, Right};
use fx_c_mean_blocks::integers::{has_sign, width};
use fx_word_ops::words::bits;
use std::alloc::{AllocError, Global};

/// The type of an expression.
pub fn type_of(e: &TExpr) -> &Ty
    ensures { ty_tree result.now ≡ typed (texpr_tree e.now) }
{
    &e.ty
}

/// Whether a type is an integer or a pointer.
pub fn is_scalar(ty: &Ty) -> bool
    ensures { result ≡ scalar (ty_tree ty.now) }
{
    match ty {
        Ty::Int(_) | Ty::Ptr(_) => true,
        Ty::Void | Ty::Struct(_) | Ty::Array(..) => false,
    }
}

fn is_same_integer(i: IntType, j: IntType) -> bool
    ensures { result ≡ same_integer i j }
{
    bits(width(i)) == bits(width(j)) && has_sign(i) == has_sign(j)
}

/// Whether two types are one.
pub fn is_same_type(s: &Ty, t: &Ty) -> bool
    ensures { result ≡ same_type (ty_tree s.now) (ty_tree t.now) }
{
    match (s, t) {
        (Ty::Void, Ty::Void) => true,
        (Ty::Int(i), Ty::Int(j)) => is_same_integer(*i, *j),
        (Ty::Struct(m), Ty::Struct(n)) => m == n,
        (Ty::Ptr(s), Ty::Ptr(t)) => is_same_type(s, t),
        (Ty::Array(s, m), Ty::Array(t, n)) => is_same_type(s, t) && m == n,
        _ => false,
    }
}

/// The type that a pointer type points to.
pub fn pointed_type(ty: &Ty) -> &Ty
    ensures { ty_tree result.now ≡ pointed (ty_tree ty.now) }
{
    match ty {
        Ty::Ptr(to) => to,
        _ => ty,
    }
}

/// A copy of a type.
pub fn copied(alloc: Global, t: &Ty) -> Result<Ty, AllocError>
    ensures { IfOk result (λ c. ty_tree c ≡ ty_tree t.now) }
{
    match t {
        Ty::Void => Ok(Ty::Void),
        Ty::Int(i) => Ok(Ty::Int(*i)),
        Ty::Struct(n) => Ok(Ty::Struct(*n)),
        Ty::Ptr(to) => {
            let to = copied(alloc, to)?;
            Ok(Ty::Ptr(Box::new(alloc, to)?))
        }
        Ty::Array(of, count) => {
            let of = copied(alloc, of)?;
            Ok(Ty::Array(Box::new(alloc, of)?, *count))
        }
    }
}

// ---- loads

fn is_place(e: &TExpr) -> bool
    ensures { result ≡ is_lvalue (texpr_tree e.now) }
{
    match &e.kind {
        TKind::Literal(_)
        | TKind::Global(_)
        | TKind::Local(_)
        | TKind::Un(Unop::Deref, _)
        | TKind::Index(..)
        | TKind::Member(..)
        | TKind::Arrow(..) => true,
        _ => false,
    }
}

/// Whether an expression's value is loaded from where its code leads.
pub fn is_loaded(e: &TExpr) -> bool
    ensures { result ≡ loaded (texpr_tree e.now) }
{
    is_place(e) && is_scalar(type_of(e))
}

/// Loads a value, where it is to be loaded.
pub fn load(alloc: Global, out: &mut Output, owed: u32, e: &TExpr) -> Result<(), AllocError>
    ensures place { OnOk result (out.new.at ≡ out.old.at + load_len (loaded (texpr_tree e.now))) }
    ensures code { OnOk result (made out.new ≡ made out.old
        ++ load_code (loaded (texpr_tree e.now)) owed (typed (texpr_tree e.now))) }
{
    if is_loaded(e) {
        let ty = copied(alloc, type_of(e))?;
        return out.put_owing(Op::Load(ty), owed);
    }
    Ok(())
}

/// What is owed behind the load.
pub fn load_late(owed: u32, e: &TExpr) -> u32
    ensures { result ≡ load_late (loaded (texpr_tree e.now)) owed }
{
    if is_loaded(e) { 0 } else { owed }
}

/// How many steps the load has.
pub fn load_size(e: &TExpr) -> u32
    ensures { result ≡ load_len (loaded (texpr_tree e.now)) }
{
    if is_loaded(e) { 1 } else { 0 }
}

// ---- operators of one operand

fn integer_of(ty: &Ty) -> IntType
    ensures { result ≡ integer_in (ty_tree ty.now) }
{
    match ty {
        Ty::Int(i) => *i,
        _ => IntType::Int,
    }
}

/// Whether an operator takes its operand's value.
pub fn takes_value(op: Unop) -> bool
    ensures { result ≡ takes_value op }
{
    match op {
        Unop::Addr => false,
        Unop::Neg | Unop::Not | Unop::Lnot | Unop::Deref => true,
    }
}

/// An operator at a value; `*` and `&` have no op.
pub fn unary(out: &mut Output, op: Unop, owed: u32, e: &TExpr) -> Result<(), AllocError>
    ensures place { OnOk result (out.new.at ≡ out.old.at + unary_len op) }
    ensures code { OnOk result (made out.new ≡ made out.old
        ++ unary_code op owed (typed (texpr_tree e.now))) }
{
    match op {
        Unop::Deref | Unop::Addr => Ok(()),
        Unop::Neg | Unop::Not | Unop::Lnot => {
            let i = integer_of(type_of(e));
            out.put_owing(Op::Unary(op, i), owed)
        }
    }
}

/// How many steps the operator has.
pub fn unary_size(op: Unop) -> u32
    ensures { result ≡ unary_len op }
{
    match op {
        Unop::Deref | Unop::Addr => 0,
        Unop::Neg | Unop::Not | Unop::Lnot => 1,
    }
}

/// What is owed behind an operator.
pub fn unary_late(op: Unop, owed: u32) -> Result<u32, AllocError>
    ensures { IfOk result (λ n. n ≡ unary_late op owed) }
{
    match op {
        Unop::Deref | Unop::Addr => sum(owed, 1),
        Unop::Neg | Unop::Not | Unop::Lnot => Ok(0),
    }
}

// ---- conversions

fn convert(out: &mut Output, owed: u32, from: &Ty, to: &Ty) -> Result<(), AllocError>
    ensures place { OnOk result (out.new.at ≡ out.old.at
        + convert_len (ty_tree from.now) (ty_tree to.now)) }
    ensures code { OnOk result (made out.new ≡ made out.old
        ++ convert_code owed (ty_tree from.now) (ty_tree to.now)) }
{
    match (from, to) {
        (Ty::Int(i), Ty::Int(j)) => out.put_owing(Op::Convert(*i, *j), owed),
        (Ty::Ptr(_), Ty::Int(_)) => {
            out.put_owing(Op::PtrCompare(Binop::Ne, Right::Number(0)), owed)
        }
        _ => Ok(()),
    }
}

fn convert_size(from: &Ty, to: &Ty) -> u32
    ensures { result ≡ convert_len (ty_tree from.now) (ty_tree to.now) }
{
    match (from, to) {
        (Ty::Int(_), Ty::Int(_)) | (Ty::Ptr(_), Ty::Int(_)) => 1,
        _ => 0,
    }
}

fn convert_late(owed: u32, from: &Ty, to: &Ty) -> Result<u32, AllocError>
    ensures { IfOk result (λ n. n ≡ convert_late owed (ty_tree from.now) (ty_tree to.now)) }
{
    match (from, to) {
        (Ty::Int(_), Ty::Int(_)) | (Ty::Ptr(_), Ty::Int(_)) => Ok(0),
        _ => sum(owed, 1),
    }
}

/// A conversion of an expression's value to a type, which is none where the types are one.
pub fn cast(out: &mut Output, owed: u32, e: &TExpr, to: &Ty) -> Result<(), AllocError>
    ensures place { OnOk result (out.new.at ≡ out.old.at
        + cast_len (typed (texpr_tree e.now)) (ty_tree to.now)) }
    ensures code { OnOk result (made out.new ≡ made out.old
        ++ cast_code owed (typed (texpr_tree e.now)) (ty_tree to.now)) }
{
    let from = type_of(e);
    if is_same_type(from, to) {
        return Ok(());
    }
    convert(out, owed, from, to)
}

/// How many steps the conversion has.
pub fn cast_size(e: &TExpr, to: &Ty) -> u32
    ensures { result ≡ cast_len (typed (texpr_tree e.now)) (ty_tree to.now) }
{
    let from = type_of(e);
    if is_same_type(from, to) {
        return 0;
    }
    convert_size(from, to)
}

/// What is owed behind the conversion.
pub fn cast_late(owed: u32, e: &TExpr, to: &Ty) -> Result<u32, AllocError>
    ensures { IfOk result (λ n. n ≡ cast_late owed (typed (texpr_tree e.now)) (ty_tree to.now)) }
{
    let from = type_of(e);
    if is_same_type(from, to) {
        return Ok(owed);
    }
    convert_late(owed, from, to)
}

/// Whether a conversion of an expression's value to a type makes a condition of a pointer.
pub fn tests_pointer(e: &TExpr, to: &Ty) -> bool
    ensures { result ≡ tests_pointer (typed (texpr_tree e.now)) (ty_tree to.now) }
{
    match (type_of(e), to) {
        (Ty::Ptr(_), Ty::Int(_)) => true,
        _ => false,
    }
}

// ---- operators of two operands

/// Whether an operator is `&&` or `||`.
pub fn is_logical(op: Binop) -> bool
    ensures { result ≡ is_logical op }
{
    match op {
        Binop::Land | Binop::Lor => true,
        _ => false,
    }
}

/// The truth of the first operand of `&&` or `||` that is the whole's.
pub fn stops(op: Binop) -> bool
    ensures { result ≡ stops op }
{
    match op {
        Binop::Lor => true,
        _ => false,
    }
}

/// Whether an operator compares.
pub fn is_comparison(op: Binop) -> bool
    ensures { result ≡ is_comparison op }
{
    match op {
        Binop::Lt | Binop::Gt | Binop::Le | Binop::Ge | Binop::Eq | Binop::Ne => true,
        _ => false,
    }
}

fn opposite(op: Binop) -> Binop
    ensures { result ≡ opposite op }
{
    match op {
        Binop::Lt => Binop::Ge,
        Binop::Gt => Binop::Le,
        Binop::Le => Binop::Gt,
        Binop::Ge => Binop::Lt,
        Binop::Eq => Binop::Ne,
        Binop::Ne => Binop::Eq,
        _ => op,
    }
}

/// The comparison whose falsehood is that a comparison has a truth.
pub fn jumping(sense: bool, op: Binop) -> Binop
    ensures { result ≡ jumping sense op }
{
    if sense { opposite(op) } else { op }
}

/// What a comparison of an expression compares.
pub fn compared(e: &TExpr) -> Compared
    ensures { result ≡ compared (typed (texpr_tree e.now)) }
{
    match type_of(e) {
        Ty::Int(i) => Compared::Integers(*i),
        _ => Compared::Pointers,
    }
}
