//! Expressions: their checked trees, or the first rule that is violated.

ghost use Rattle.std.specs.Prelude.{◌≡◌, Ok};
ghost use Rattle.fx_c_ast.specs.ParsedTrees.{expr_tree, expr_trees};
ghost use Rattle.fx_c_ast.specs.declared.operator.IntType.TheVariants.{Long};
ghost use Rattle.fx_c_ast.specs.declared.checked.Ty.{Int};
ghost use Rattle.fx_c_ast.specs.CheckedTrees.{NoTExprs, texpr_tree, texpr_trees};
ghost use Rattle.fx_c_types_rules.specs.Checks.{Gives};
ghost use Rattle.fx_c_types_bodies.specs.Bodies.{typed, typed_all};
ghost use Rattle.fx_c_types_bodies.specs.Views.{scope_tree, body_tree};

use crate::nodes::{
    call, callee, cast_node, gate, index, size_of_type, spawn, text, through, variable,
};
use crate::scope::{Body, Scope};
use fx_c_ast::checked::{TExpr, TKind, Ty};
use fx_c_ast::operator::IntType;
use fx_c_ast::parsed::Expr;
use fx_c_types_rules::calls::{device_store, putc, switch};
use fx_c_types_rules::fault::Fault;
use fx_c_types_rules::members::member;
use fx_c_types_rules::operators::{binary, unary};
use fx_c_types_rules::values::value;
use std::alloc::Global;

// An expression without operands, of type `long`.
fn long_node(kind: TKind) -> TExpr
    ensures { result ≡ record { ty = Int Long; kind = kind } }
{
    let ty = Ty::Int(IntType::Long);
    TExpr { ty, kind }
}

/// The checked tree of an expression.
#[cycle(expression)]
pub fn expression(
    alloc: Global,
    scope: &Scope<'_>,
    body: &mut Body,
    e: &Expr,
) -> Result<TExpr, Fault>
    ensures { Gives (λ x. (texpr_tree x, body_tree body.new)) result (typed (scope_tree scope.now) (body_tree body.old) (expr_tree e.now)) }
{
    match e {
        Expr::Number { value, ty } => {
            let ty = Ty::Int(*ty);
            let kind = TKind::Number(*value);
            Ok(TExpr { ty, kind })
        }
        Expr::Text(bytes) => text(alloc, body, bytes),
        Expr::Var(name) => variable(alloc, scope.heads, body, name.as_slice()),
        Expr::Un(op, e) => {
            let e = expression(alloc, scope, body, e)?;
            unary(alloc, scope.declared, *op, e)
        }
        Expr::Bin(op, a, b) => {
            let a = expression(alloc, scope, body, a)?;
            let b = expression(alloc, scope, body, b)?;
            binary(alloc, scope.declared, *op, a, b)
        }
        Expr::Cast(t, e) => {
            let e = expression(alloc, scope, body, e)?;
            cast_node(alloc, scope, t, e)
        }
        Expr::Size(t) => size_of_type(alloc, scope, t),
        Expr::Index(a, b) => {
            let a = expression(alloc, scope, body, a)?;
            let b = expression(alloc, scope, body, b)?;
            index(alloc, scope, a, b)
        }
        Expr::Member(e, name) => {
            let e = expression(alloc, scope, body, e)?;
            member(
                alloc,
                &scope.heads.structs,
                scope.declared,
                name.as_slice(),
                e,
            )
        }
        Expr::Arrow(e, name) => {
            let e = expression(alloc, scope, body, e)?;
            through(alloc, scope, name.as_slice(), e)
        }
        Expr::Call(name, args) => {
            let args = values(alloc, scope, body, args)?;
            call(
                alloc,
                scope.library,
                callee(scope.heads, body, name.as_slice()),
                args,
            )
        }
        Expr::Gate(name, args) => {
            let args = values(alloc, scope, body, args)?;
            gate(alloc, callee(scope.heads, body, name.as_slice()), args)
        }
        Expr::Getc => Ok(long_node(TKind::Getc)),
        Expr::Putc(e) => {
            let e = expression(alloc, scope, body, e)?;
            putc(alloc, e)
        }
        Expr::DevLoad(device, register) => Ok(long_node(TKind::DevLoad(*device, *register))),
        Expr::DevStore(device, register, e) => {
            let e = expression(alloc, scope, body, e)?;
            device_store(alloc, *device, *register, e)
        }
        Expr::Spawn(name, e) => {
            let e = expression(alloc, scope, body, e)?;
            let e = value(alloc, e)?;
            spawn(
                alloc,
                scope.library,
                callee(scope.heads, body, name.as_slice()),
                e,
            )
        }
        Expr::Switch(e) => {
            let e = expression(alloc, scope, body, e)?;
            switch(alloc, e)
        }
        Expr::Me => Ok(long_node(TKind::Me)),
    }
}

// Arguments, as values.
#[cycle(expression)]
fn values(
    alloc: Global,
    scope: &Scope<'_>,
    body: &mut Body,
    all: &[Expr],
) -> Result<Vec<TExpr>, Fault>
    ensures { Gives (λ v. (texpr_trees v.items, body_tree body.new)) result (typed_all (scope_tree scope.now) (body_tree body.old) NoTExprs (expr_trees all.now)) }
{
    let mut values = Vec::new(alloc);
    for e in all {
        let e = expression(alloc, scope, body, e)?;
        values.push(value(alloc, e)?)?;
    }
    Ok(values)
}
