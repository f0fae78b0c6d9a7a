//! Statements: their checked trees, or the first rule that is violated.

ghost use Rattle.std.specs.Prelude.{◌≡◌, ◌++◌, ◌∷◌, [], None, is_some, Ok};
ghost use Rattle.fx_c_ast.specs.ParsedTrees.{type_tree, stmt_tree, stmt_trees, maybe_expr};
ghost use Rattle.fx_c_ast.specs.CheckedTrees.{NoTStmts, ELocal, ty_tree, texpr_tree, maybe_texpr, tstmt_tree, tstmt_trees};
ghost use Rattle.fx_c_types_heads.specs.Names.{found};
ghost use Rattle.fx_c_types_rules.specs.declared.fault.TypeKind.TheVariants.{BreakOutside};
ghost use Rattle.fx_c_types_rules.specs.Checks.{Gives, demand};
ghost use Rattle.fx_c_types_rules.specs.Locals.{local_trees};
ghost use Rattle.fx_c_types_heads.specs.Written.{ty_of};
ghost use Rattle.fx_c_types_bodies.specs.Bodies.{returned, local, maybe_typed, maybe_condition, return_node, started, assigned_start, entered, left, with_local, with_name, innermost, checked, checked_maybe, checked_all};
ghost use Rattle.fx_c_types_bodies.specs.Views.{scope_tree, body_tree, held_stmt, held_tree};

use crate::expressions::expression;
use crate::nodes::place_16;
use crate::scope::{Body, Scope};
use fx_c_ast::checked::{TExpr, TKind, TLocal, TStmt, Ty};
use fx_c_ast::parsed::{Expr, Stmt, TypeName};
use fx_c_types_heads::names::Names;
use fx_c_types_heads::written::ty_of;
use fx_c_types_rules::category::Category;
use fx_c_types_rules::fault::{Fault, TypeKind};
use fx_c_types_rules::types::{copied, is_void};
use fx_c_types_rules::values::{agrees, assigned, category_of, condition, converted, value};
use std::alloc::Global;

// A value that is returned.
fn returned(alloc: Global, t: &Ty, e: TExpr) -> Result<TExpr, Fault>
    ensures { Gives texpr_tree result (returned (ty_tree t.now) (texpr_tree e)) }
{
    match category_of(&e) {
        Category::Integer(_) | Category::Pointer => {}
        _ => return Err(Fault::Rule(TypeKind::NotInteger)),
    }
    if !agrees(t, &e) {
        return Err(Fault::Rule(TypeKind::ReturnType));
    }
    converted(alloc, copied(alloc, t)?, e)
}

// A return, with a value or without.
fn return_node(
    alloc: Global,
    scope: &Scope<'_>,
    body: &mut Body,
    e: &Option<Expr>,
) -> Result<TStmt, Fault>
    ensures { Gives (λ x. (tstmt_tree x, body_tree body.new)) result (return_node (scope_tree scope.now) (body_tree body.old) (maybe_expr e.now)) }
{
    match e {
        None => {
            if !is_void(scope.answer) {
                return Err(Fault::Rule(TypeKind::ReturnType));
            }
            Ok(TStmt::Return(None))
        }
        Some(e) => {
            let e = expression(alloc, scope, body, e)?;
            let e = value(alloc, e)?;
            let e = returned(alloc, scope.answer, e)?;
            Ok(TStmt::Return(Some(e)))
        }
    }
}

fn maybe_expression(
    alloc: Global,
    scope: &Scope<'_>,
    body: &mut Body,
    e: &Option<Expr>,
) -> Result<Option<TExpr>, Fault>
    ensures { Gives (λ x. (maybe_texpr x, body_tree body.new)) result (maybe_typed (scope_tree scope.now) (body_tree body.old) (maybe_expr e.now)) }
{
    match e {
        None => Ok(None),
        Some(e) => {
            let e = expression(alloc, scope, body, e)?;
            Ok(Some(e))
        }
    }
}

fn maybe_condition(alloc: Global, e: Option<TExpr>) -> Result<Option<TExpr>, Fault>
    ensures { Gives maybe_texpr result (maybe_condition (maybe_texpr e)) }
{
    match e {
        None => Ok(None),
        Some(e) => {
            let e = value(alloc, e)?;
            let e = condition(alloc, e)?;
            Ok(Some(e))
        }
    }
}

// A block in which names are declared so far.
fn enter(body: &mut Body, names: Names) -> Result<(), Fault>
    ensures { Gives (λ x. body_tree body.new) result (Ok (entered (body_tree body.old) names)) }
{
    body.blocks.push(names)?;
    Ok(())
}

fn leave(body: &mut Body)
    ensures { body_tree body.new ≡ left (body_tree body.old) }
{
    body.blocks.pop();
}

// The value that a local begins with; the local is in reach there already.
fn started(
    alloc: Global,
    scope: &Scope<'_>,
    body: &mut Body,
    name: &[u8],
    number: u32,
    e: &Option<Expr>,
) -> Result<Option<TExpr>, Fault>
    ensures { Gives (λ x. (maybe_texpr x, body_tree body.new)) result (started (scope_tree scope.now) (body_tree body.old) name.now number (maybe_expr e.now)) }
{
    match e {
        None => Ok(None),
        Some(e) => {
            let mut names = Names::new(alloc);
            names.declare(alloc, name, number)?;
            enter(body, names)?;
            let e = expression(alloc, scope, body, e)?;
            leave(body);
            let e = value(alloc, e)?;
            Ok(Some(e))
        }
    }
}

fn assigned_start(alloc: Global, to: &TExpr, e: Option<TExpr>) -> Result<Option<TExpr>, Fault>
    ensures { Gives maybe_texpr result (assigned_start (texpr_tree to.now) (maybe_texpr e)) }
{
    match e {
        None => Ok(None),
        Some(e) => {
            let e = assigned(alloc, to, e)?;
            Ok(Some(e))
        }
    }
}

// Whether the innermost block declares a name.
fn is_innermost(body: &Body, name: &[u8]) -> bool
    ensures { result ≡ is_some (found name.now (innermost (body_tree body.now))) }
{
    match body.blocks.last() {
        Some(block) => block.find(name).is_some(),
        None => false,
    }
}

// A name in the innermost block, which doesn't declare it yet.
fn name_in_block(alloc: Global, body: &mut Body, name: &[u8], number: u32) -> Result<(), Fault>
    requires { found name.now (innermost (body_tree body.old)) ≡ None }
    ensures { Gives (λ x. body_tree body.new) result (Ok (with_name (body_tree body.old) name.now number)) }
{
    let count = body.blocks.len();
    if count > 0 {
        body.blocks[count - 1].declare(alloc, name, number)?;
    }
    Ok(())
}

// A local as an object, by its number.
fn local_object(ty: Ty, number: u16) -> TExpr
    ensures { texpr_tree result ≡ ELocal (ty_tree ty) number }
{
    let kind = TKind::Local(number);
    TExpr { ty, kind }
}

fn push_local(locals: &mut Vec<TLocal>, shared: bool, ty: Ty) -> Result<(), Fault>
    ensures { Gives (λ _. local_trees locals.new.items) result (Ok (local_trees locals.old.items ++ record { shared = shared; ty = ty_tree ty } ∷ [])) }
{
    locals.push(TLocal { shared, ty })?;
    Ok(())
}

// One more local.
fn add_local(
    alloc: Global,
    scope: &Scope<'_>,
    body: &mut Body,
    shared: bool,
    t: &TypeName,
) -> Result<(), Fault>
    ensures { Gives (λ x. body_tree body.new) result (Ok (with_local (body_tree body.old) shared (ty_of (scope_tree scope.now).heads.tags (type_tree t.now)))) }
{
    let ty = ty_of(alloc, &scope.heads.tags, t)?;
    push_local(&mut body.locals, shared, ty)?;
    Ok(())
}

// A declaration of a local.
fn local(
    alloc: Global,
    scope: &Scope<'_>,
    body: &mut Body,
    shared: bool,
    t: &TypeName,
    name: &[u8],
    init: &Option<Expr>,
) -> Result<TStmt, Fault>
    ensures { Gives (λ x. (tstmt_tree x, body_tree body.new)) result (local (scope_tree scope.now) (body_tree body.old) shared (type_tree t.now) name.now (maybe_expr init.now)) }
{
    let number = body.local_count();
    add_local(alloc, scope, body, shared, t)?;
    let init = started(alloc, scope, body, name, number, init)?;
    if is_innermost(body, name) {
        return Err(Fault::Rule(TypeKind::Twice));
    }
    let ty = scope.heads.object_type(alloc, scope.declared, t)?;
    let local = place_16(number as usize);
    let init = assigned_start(alloc, &local_object(ty, local), init)?;
    name_in_block(alloc, body, name, number)?;
    Ok(TStmt::Local { local, init })
}

/// The checked tree of a statement, which stands inside a loop or not.
#[cycle(statement)]
pub fn statement(
    alloc: Global,
    scope: &Scope<'_>,
    looped: bool,
    body: &mut Body,
    s: &Stmt,
) -> Result<TStmt, Fault>
    ensures { Gives (λ x. (tstmt_tree x, body_tree body.new)) result (checked (scope_tree scope.now) looped (body_tree body.old) (stmt_tree s.now)) }
{
    match s {
        Stmt::Empty => Ok(TStmt::Empty),
        Stmt::Block(all) => {
            enter(body, Names::new(alloc))?;
            let all = statements(alloc, scope, looped, body, all)?;
            leave(body);
            Ok(TStmt::Block(all))
        }
        Stmt::Local {
            shared,
            ty,
            name,
            init,
        } => local(alloc, scope, body, *shared, ty, name.as_slice(), init),
        Stmt::Eval(e) => {
            let e = expression(alloc, scope, body, e)?;
            let e = value(alloc, e)?;
            Ok(TStmt::Eval(e))
        }
        Stmt::Assign(to, e) => {
            let to = expression(alloc, scope, body, to)?;
            let e = expression(alloc, scope, body, e)?;
            let e = value(alloc, e)?;
            let e = assigned(alloc, &to, e)?;
            Ok(TStmt::Assign(to, e))
        }
        Stmt::If(test, one, other) => {
            let test = expression(alloc, scope, body, test)?;
            let one = statement(alloc, scope, looped, body, one)?;
            let other = maybe_statement(alloc, scope, looped, body, other)?;
            let test = value(alloc, test)?;
            let test = condition(alloc, test)?;
            let one = Box::new(alloc, one)?;
            Ok(TStmt::If(test, one, other))
        }
        Stmt::While(test, inner) => {
            let test = expression(alloc, scope, body, test)?;
            let inner = statement(alloc, scope, true, body, inner)?;
            let test = value(alloc, test)?;
            let test = condition(alloc, test)?;
            let inner = Box::new(alloc, inner)?;
            Ok(TStmt::While(test, inner))
        }
        Stmt::For(first, test, next, inner) => {
            let first = maybe_statement(alloc, scope, looped, body, first)?;
            let test = maybe_expression(alloc, scope, body, test)?;
            let next = maybe_statement(alloc, scope, looped, body, next)?;
            let inner = statement(alloc, scope, true, body, inner)?;
            let test = maybe_condition(alloc, test)?;
            let inner = Box::new(alloc, inner)?;
            Ok(TStmt::For(first, test, next, inner))
        }
        Stmt::Break => jump(looped, TStmt::Break),
        Stmt::Continue => jump(looped, TStmt::Continue),
        Stmt::Return(e) => return_node(alloc, scope, body, e),
    }
}

// A jump, which stands inside a loop.
fn jump(looped: bool, s: TStmt) -> Result<TStmt, Fault>
    ensures { Gives (λ x. x) result (demand looped BreakOutside (Ok s)) }
{
    if looped {
        Ok(s)
    } else {
        Err(Fault::Rule(TypeKind::BreakOutside))
    }
}

#[cycle(statement)]
fn maybe_statement(
    alloc: Global,
    scope: &Scope<'_>,
    looped: bool,
    body: &mut Body,
    s: &Option<Box<Stmt>>,
) -> Result<Option<Box<TStmt>>, Fault>
    ensures { Gives (λ x. (held_tree x, body_tree body.new)) result (checked_maybe (scope_tree scope.now) looped (body_tree body.old) (held_stmt s.now)) }
{
    match s {
        None => Ok(None),
        Some(s) => {
            let s = statement(alloc, scope, looped, body, s)?;
            let s = Box::new(alloc, s)?;
            Ok(Some(s))
        }
    }
}

/// The checked trees of statements.
#[cycle(statement)]
pub fn statements(
    alloc: Global,
    scope: &Scope<'_>,
    looped: bool,
    body: &mut Body,
    all: &[Stmt],
) -> Result<Vec<TStmt>, Fault>
    ensures { Gives (λ v. (tstmt_trees v.items, body_tree body.new)) result (checked_all (scope_tree scope.now) looped (body_tree body.old) NoTStmts (stmt_trees all.now)) }
{
    let mut checked = Vec::new(alloc);
    for s in all {
        let s = statement(alloc, scope, looped, body, s)?;
        checked.push(s)?;
    }
    Ok(checked)
}
