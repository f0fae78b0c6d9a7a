//! Expressions from tokens.

ghost use Rattle.std.specs.Prelude.{◌≡◌, ◌≤◌, ◌<◌, ◌-◌, length, IfOk};
ghost use Rattle.fx_c_ast.specs.ParsedTrees.{type_tree, expr_tree, expr_trees};
ghost use Rattle.fx_c_parse.specs.Words.{rest_of};
ghost use Rattle.fx_c_parse.specs.Reading.{Gives};
ghost use Rattle.fx_c_parse.specs.Expressions.{levels, deeper, cast_type_of, expression_of, binary_at, unary_by, postfix_by, suffixed_by, primary_by, arguments_by, more_by};

use crate::build;
use crate::cursor::Cursor;
use crate::fault::Fault;
use crate::front::{Suffix, UnaryFront};
use crate::head::{Head, primary_head, size};
use crate::types::{nesting, pointer_type};
use fx_c_ast::parsed::{Expr, TypeName};
use fx_c_lex::sign;
use std::alloc::Global;

/// How many levels of binary operators there are.
#[tactic(auto, unfolding(crate::specs::Expressions::levels))]
pub fn levels() -> u8
    ensures value { result ≡ levels }
    ensures bound { result ≤ 10 }
{
    10
}

/// An expression, how many nodes it nests, and what follows it.
pub fn expression(alloc: Global, at: Cursor) -> Result<(Expr, Cursor), Fault>
    ensures tree { Gives (λ x. (expr_tree x.0, rest_of x.1)) result (expression_of (rest_of at.entry)) }
    ensures shorter { IfOk result (λ x. length (rest_of x.1) < length (rest_of at.entry)) }
{
    let (e, _height, rest) = binary(alloc, nesting(), levels(), at)?;
    Ok((e, rest))
}

// The height of a node above two others, within a budget.
fn deeper(left: u32, right: u32, budget: u32) -> Result<u32, Fault>
    ensures { Gives (λ h. h) result (deeper left right budget) }
{
    if left.max(right) < budget {
        Ok(left.max(right) + 1)
    } else {
        Err(Fault::Syntax)
    }
}

/// Operands joined by operators of the levels below this one.
#[cycle(expressions)]
pub fn binary(
    alloc: Global,
    budget: u32,
    level: u8,
    at: Cursor,
) -> Result<(Expr, u32, Cursor), Fault>
    requires level { level ≤ 10 }
    ensures tree { Gives (λ x. (expr_tree x.0, x.1, rest_of x.2)) result (binary_at budget level (rest_of at.entry)) }
    ensures shorter { IfOk result (λ x. length (rest_of x.2) < length (rest_of at.entry)) }
{
    if budget == 0 {
        return Err(Fault::Syntax);
    }
    if level == 0 {
        return unary(alloc, budget, at);
    }
    let (mut left, mut height, mut rest) = binary(alloc, budget, level - 1, at)?;
    while let Some(op) = rest.operator(level - 1) {
        let (right, right_height, after) = binary(alloc, budget - 1, level - 1, rest.next())?;
        height = deeper(height, right_height, budget)?;
        left = build::binary(alloc, op, left, right)?;
        rest = after;
    }
    Ok((left, height, rest))
}

// `(`, a base, stars and `)`.
fn cast_type(alloc: Global, at: Cursor) -> Result<(TypeName, Cursor), Fault>
    ensures tree { Gives (λ x. (type_tree x.0, rest_of x.1)) result (cast_type_of (rest_of at.entry)) }
    ensures shorter { IfOk result (λ x. length (rest_of x.1) < length (rest_of at.entry)) }
{
    let (ty, _left, rest) = pointer_type(alloc, at.next())?;
    Ok((ty, rest.after_sign(sign::CLOSE_PAREN)?))
}

#[cycle(expressions)]
fn unary(alloc: Global, budget: u32, at: Cursor) -> Result<(Expr, u32, Cursor), Fault>
    requires positive { 0 < budget }
    ensures tree { Gives (λ x. (expr_tree x.0, x.1, rest_of x.2)) result (unary_by (binary_at (budget - 1)) budget (rest_of at.entry)) }
    ensures shorter { IfOk result (λ x. length (rest_of x.2) < length (rest_of at.entry)) }
{
    match at.unary_front() {
        UnaryFront::Sign(op) => {
            let (e, height, rest) = binary(alloc, budget - 1, 0, at.next())?;
            let height = deeper(height, 0, budget)?;
            Ok((build::unary(alloc, op, e)?, height, rest))
        }
        UnaryFront::Cast => {
            let (ty, rest) = cast_type(alloc, at)?;
            let (e, height, rest) = binary(alloc, budget - 1, 0, rest)?;
            let height = deeper(height, 0, budget)?;
            Ok((build::cast(alloc, ty, e)?, height, rest))
        }
        UnaryFront::Size => {
            let (e, rest) = size(alloc, at.next())?;
            Ok((e, 1, rest))
        }
        UnaryFront::Postfix => postfix(alloc, budget, at),
    }
}

#[cycle(expressions)]
fn postfix(alloc: Global, budget: u32, at: Cursor) -> Result<(Expr, u32, Cursor), Fault>
    requires positive { 0 < budget }
    ensures tree { Gives (λ x. (expr_tree x.0, x.1, rest_of x.2)) result (postfix_by (binary_at (budget - 1)) budget (rest_of at.entry)) }
    ensures shorter { IfOk result (λ x. length (rest_of x.2) < length (rest_of at.entry)) }
{
    let (mut e, mut height, mut rest) = primary(alloc, budget, at)?;
    while let Some(suffix) = rest.suffix() {
        let (longer, higher, after) = suffixed(alloc, budget, suffix, e, height, rest.next())?;
        e = longer;
        height = higher;
        rest = after;
    }
    Ok((e, height, rest))
}

#[cycle(expressions)]
fn suffixed(
    alloc: Global,
    budget: u32,
    suffix: Suffix,
    e: Expr,
    height: u32,
    at: Cursor,
) -> Result<(Expr, u32, Cursor), Fault>
    requires positive { 0 < budget }
    ensures tree { Gives (λ x. (expr_tree x.0, x.1, rest_of x.2)) result (suffixed_by (binary_at (budget - 1)) budget suffix (expr_tree e) height (rest_of at.entry)) }
    ensures shorter { IfOk result (λ x. length (rest_of x.2) < length (rest_of at.entry)) }
{
    match suffix {
        Suffix::Index => {
            let (index, index_height, rest) = binary(alloc, budget - 1, levels(), at)?;
            let rest = rest.after_sign(sign::CLOSE_BRACKET)?;
            let height = deeper(height, index_height, budget)?;
            Ok((build::index(alloc, e, index)?, height, rest))
        }
        Suffix::Member => {
            let name = at.name(alloc)?;
            let height = deeper(height, 0, budget)?;
            Ok((build::member(alloc, e, name)?, height, at.next()))
        }
        Suffix::Arrow => {
            let name = at.name(alloc)?;
            let height = deeper(height, 0, budget)?;
            Ok((build::arrow(alloc, e, name)?, height, at.next()))
        }
    }
}

#[cycle(expressions)]
fn primary(alloc: Global, budget: u32, at: Cursor) -> Result<(Expr, u32, Cursor), Fault>
    requires positive { 0 < budget }
    ensures tree { Gives (λ x. (expr_tree x.0, x.1, rest_of x.2)) result (primary_by (binary_at (budget - 1)) budget (rest_of at.entry)) }
    ensures shorter { IfOk result (λ x. length (rest_of x.2) < length (rest_of at.entry)) }
{
    let (begun, rest) = primary_head(alloc, at)?;
    match begun {
        Head::Whole(e) => Ok((e, 1, rest)),
        Head::Inside(around) => {
            let (e, height, rest) = binary(alloc, budget - 1, levels(), rest)?;
            let rest = rest.after_sign(sign::CLOSE_PAREN)?;
            let height = deeper(height, 0, budget)?;
            Ok((build::around(alloc, around, e)?, height, rest))
        }
        Head::Call(name) => {
            let (args, height, rest) = arguments(alloc, budget, rest)?;
            let height = deeper(height, 0, budget)?;
            Ok((build::call(name, args), height, rest))
        }
        Head::Gate(name) => {
            let (args, height, rest) = more_arguments(alloc, budget, Vec::new(alloc), 0, rest)?;
            let height = deeper(height, 0, budget)?;
            Ok((build::gate(name, args), height, rest))
        }
    }
}

// Arguments and `)`, with the height of the highest.
#[cycle(expressions)]
fn arguments(alloc: Global, budget: u32, at: Cursor) -> Result<(Vec<Expr>, u32, Cursor), Fault>
    requires positive { 0 < budget }
    ensures tree { Gives (λ x. (expr_trees x.0.items, x.1, rest_of x.2)) result (arguments_by (binary_at (budget - 1)) (rest_of at.entry)) }
    ensures shorter { IfOk result (λ x. length (rest_of x.2) < length (rest_of at.entry)) }
{
    if at.has_sign(sign::CLOSE_PAREN) {
        return Ok((Vec::new(alloc), 0, at.next()));
    }
    let (first, height, rest) = binary(alloc, budget - 1, levels(), at)?;
    let args = build::one_argument(alloc, first)?;
    more_arguments(alloc, budget, args, height, rest)
}

// More arguments, each behind a comma, and `)`.
#[cycle(expressions)]
fn more_arguments(
    alloc: Global,
    budget: u32,
    mut args: Vec<Expr>,
    mut height: u32,
    at: Cursor,
) -> Result<(Vec<Expr>, u32, Cursor), Fault>
    requires positive { 0 < budget }
    ensures tree { Gives (λ x. (expr_trees x.0.items, x.1, rest_of x.2)) result (more_by (binary_at (budget - 1)) (expr_trees args.items) height (rest_of at.entry)) }
    ensures shorter { IfOk result (λ x. length (rest_of x.2) < length (rest_of at.entry)) }
{
    let mut rest = at;
    while rest.has_sign(sign::COMMA) {
        let (arg, arg_height, after) = binary(alloc, budget - 1, levels(), rest.next())?;
        build::add_argument(&mut args, arg)?;
        height = height.max(arg_height);
        rest = after;
    }
    Ok((args, height, rest.after_sign(sign::CLOSE_PAREN)?))
}
