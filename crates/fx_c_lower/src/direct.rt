//! Operands that one op brings by itself: numbers with their conversions, whole local variables.

ghost use Rattle.std.specs.Prelude.{◌≡◌, ◌<◌, IfOk};
ghost use Rattle.fx_c_ast.specs.CheckedTrees.{ty_tree, texpr_tree};
ghost use Rattle.fx_c_mean_model.specs.States.{type_of as typed};
ghost use Rattle.fx_c_lower_model.specs.Direct.{converted_direct, cast_direct, direct, whole_local};
ghost use Rattle.fx_c_lower_model.specs.Direct.{key_at, holds_key, right_by, as_long, right_of};
ghost use Rattle.fx_c_lower_model.specs.Direct.{direct_cost};
ghost use Rattle.fx_c_lower.specs.Views.{source, direct_of};

use crate::forms::{is_same_type, is_scalar, type_of};
use crate::output::sum;
use fx_c_ast::checked::{TExpr, TKind, Ty};
use fx_c_ast::operator::{Binop, IntType};
use fx_c_lin::op::Right;
use fx_c_lower_tables::sizes::Sizes;
use fx_c_mean_blocks::integers::convert;
use std::alloc::AllocError;

/// A word with the cost of the steps that make it; a variable of integer or pointer type, by its
/// number in the function; any other expression.
#[derive(Clone, Copy)]
pub enum Simple {
    Constant { word: u64, cost: u32 },
    Whole(u16),
    Other,
}

fn converted(from: &Ty, to: &Ty, d: Simple) -> Result<Simple, AllocError>
    ensures { IfOk result (λ r. direct_of r ≡ converted_direct (ty_tree from.now) (ty_tree to.now)
        (direct_of d)) }
{
    let Simple::Constant { word, cost } = d else {
        return Ok(Simple::Other);
    };
    match (from, to) {
        (Ty::Int(i), Ty::Int(j)) => {
            let word = convert(*i, *j, word);
            let cost = sum(cost, 1)?;
            Ok(Simple::Constant { word, cost })
        }
        (Ty::Int(_), Ty::Ptr(_)) | (Ty::Ptr(_), Ty::Ptr(_)) => {
            let cost = sum(cost, 1)?;
            Ok(Simple::Constant { word, cost })
        }
        _ => Ok(Simple::Other),
    }
}

fn cast(e: &TExpr, to: &Ty, d: Simple) -> Result<Simple, AllocError>
    ensures { IfOk result (λ r. direct_of r ≡ cast_direct (typed (texpr_tree e.now))
        (ty_tree to.now) (direct_of d)) }
{
    let from = type_of(e);
    if is_same_type(from, to) {
        return Ok(d);
    }
    converted(from, to, d)
}

/// What an expression is as an operand.
pub fn direct(sizes: &Sizes<'_>, e: &TExpr) -> Result<Simple, AllocError>
    ensures { IfOk result (λ r. direct_of r ≡ direct (source sizes.now) (texpr_tree e.now)) }
{
    match &e.kind {
        TKind::Number(word) => Ok(Simple::Constant {
            word: *word,
            cost: 1,
        }),
        TKind::Size(of) => {
            let size = sizes.size(of)?;
            Ok(Simple::Constant {
                word: u64::from(size),
                cost: 1,
            })
        }
        TKind::Local(n) => {
            if is_scalar(&e.ty) {
                return Ok(Simple::Whole(*n));
            }
            Ok(Simple::Other)
        }
        TKind::Cast(inner) | TKind::Convert(inner) => {
            let d = direct(sizes, inner)?;
            cast(inner, &e.ty, d)
        }
        _ => Ok(Simple::Other),
    }
}

/// The variable of integer or pointer type that an expression is.
pub fn whole_local(e: &TExpr) -> Option<u16>
    ensures { result ≡ whole_local (texpr_tree e.now) }
{
    match &e.kind {
        TKind::Local(n) => {
            if is_scalar(&e.ty) {
                return Some(*n);
            }
            None
        }
        _ => None,
    }
}

// ---- right operands

fn key_at(w: u64, unit: u64) -> bool
    requires { 0 < unit }
    ensures { result ≡ key_at w unit }
{
    w / unit % 0x100_0000 == 0xEF_010F
}

/// Whether a word holds the bytes 0F 01 EF, which would be a WRPKRU in the instruction.
fn holds_key(w: u64) -> bool
    ensures { result ≡ holds_key w }
{
    key_at(w, 1)
        || key_at(w, 0x100)
        || key_at(w, 0x1_0000)
        || key_at(w, 0x100_0000)
        || key_at(w, 0x1_0000_0000)
        || key_at(w, 0x100_0000_0000)
}

fn right_by(d: Simple) -> Right
    ensures { result ≡ right_by (direct_of d) }
{
    match d {
        Simple::Constant { word, .. } => {
            if holds_key(word) {
                Right::Pending
            } else {
                Right::Number(word)
            }
        }
        Simple::Whole(n) => Right::Local(n),
        Simple::Other => Right::Pending,
    }
}

fn as_long(i: IntType, d: Simple) -> Simple
    ensures { direct_of result ≡ as_long i (direct_of d) }
{
    match d {
        Simple::Constant { word, cost } => {
            let word = convert(i, IntType::Long, word);
            Simple::Constant { word, cost }
        }
        _ => d,
    }
}

fn right_of_types(op: Binop, s: &Ty, t: &Ty, d: Simple) -> Right
    ensures { result ≡ right_of op (ty_tree s.now) (ty_tree t.now) (direct_of d) }
{
    match (op, s, t) {
        (_, Ty::Int(_), Ty::Int(_)) => right_by(d),
        (Binop::Add, Ty::Ptr(_), Ty::Int(i)) => right_by(as_long(*i, d)),
        (Binop::Sub, Ty::Ptr(_), Ty::Ptr(_)) => Right::Pending,
        (_, Ty::Ptr(_), Ty::Ptr(_)) => right_by(d),
        _ => Right::Pending,
    }
}

/// The right operand of an operator at two expressions, of which the second is this operand.
pub fn right_of(op: Binop, a: &TExpr, b: &TExpr, d: Simple) -> Right
    ensures { result ≡ right_of op (typed (texpr_tree a.now)) (typed (texpr_tree b.now))
        (direct_of d) }
{
    right_of_types(op, type_of(a), type_of(b), d)
}

/// What the steps of an operand cost that has no op of its own.
pub fn direct_cost(d: Simple) -> u32
    ensures { result ≡ direct_cost (direct_of d) }
{
    match d {
        Simple::Constant { cost, .. } => cost,
        Simple::Whole(_) => 2,
        Simple::Other => 0,
    }
}
