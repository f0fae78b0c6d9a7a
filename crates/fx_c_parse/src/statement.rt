//! Statements from tokens.

ghost use Rattle.std.specs.Prelude.{◌≡◌, ◌≤◌, ◌<◌, ◌-◌, length, IfOk};
ghost use Rattle.fx_c_ast.specs.ParsedTrees.{type_tree, expr_tree, stmt_tree, stmt_trees, maybe_expr};
ghost use Rattle.fx_c_lex.specs.declared.keyword.TheConstants.{SHARED};
ghost use Rattle.fx_c_parse.specs.Words.{rest_of, has_keyword};
ghost use Rattle.fx_c_parse.specs.Reading.{Gives};
ghost use Rattle.fx_c_parse.specs.Making.{maybe_simple};
ghost use Rattle.fx_c_parse.specs.Statements.{behind_shared, declarator_of, value_of, local_of, simple_of, simple_statement_of, optional_simple_of, optional_expression_of, condition_of, for_head_of, word_of, answer_of, leaf_of, statement_at, conditional_by, repetition_by, counted_by, statements_by};

use crate::build::{self, ForHead};
use crate::cursor::Cursor;
use crate::expression::expression;
use crate::fault::Fault;
use crate::front::StatementFront;
use crate::types::{dimensions, pointer_type};
use fx_c_ast::parsed::{Expr, Name, Stmt, TypeName};
use fx_c_lex::{keyword, sign};
use std::alloc::Global;

/// A type with a name: a base, stars, the name and dimensions.
pub fn declarator(alloc: Global, at: Cursor) -> Result<(TypeName, Name, Cursor), Fault>
    ensures tree { Gives (λ x. (type_tree x.0, x.1, rest_of x.2)) result (declarator_of (rest_of at.entry)) }
    ensures shorter { IfOk result (λ x. length (rest_of x.2) < length (rest_of at.entry)) }
{
    let (ty, left, rest) = pointer_type(alloc, at)?;
    let name = rest.name(alloc)?;
    let (ty, rest) = dimensions(alloc, left, ty, rest.next())?;
    Ok((ty, name, rest))
}

// `__shared`, if it stands there.
fn shared(at: Cursor) -> (bool, Cursor)
    ensures found { result.0 ≡ has_keyword SHARED (rest_of at.entry) }
    ensures rest { rest_of result.1 ≡ behind_shared (rest_of at.entry) }
    ensures shorter { length (rest_of result.1) ≤ length (rest_of at.entry) }
{
    if at.has_keyword(keyword::SHARED) {
        (true, at.next())
    } else {
        (false, at)
    }
}

// `=` and a value, if they stand there.
fn initial(alloc: Global, at: Cursor) -> Result<(Option<Expr>, Cursor), Fault>
    ensures tree { Gives (λ x. (maybe_expr x.0, rest_of x.1)) result (value_of (rest_of at.entry)) }
    ensures shorter { IfOk result (λ x. length (rest_of x.1) ≤ length (rest_of at.entry)) }
{
    if !at.has_sign(sign::ASSIGN) {
        return Ok((None, at));
    }
    let (e, rest) = expression(alloc, at.next())?;
    Ok((Some(e), rest))
}

// The declaration of a local variable.
fn local(alloc: Global, at: Cursor) -> Result<(Stmt, Cursor), Fault>
    ensures tree { Gives (λ x. (stmt_tree x.0, rest_of x.1)) result (local_of (rest_of at.entry)) }
    ensures shorter { IfOk result (λ x. length (rest_of x.1) < length (rest_of at.entry)) }
{
    let (shared, rest) = shared(at);
    let (ty, name, rest) = declarator(alloc, rest)?;
    let (init, rest) = initial(alloc, rest)?;
    let rest = rest.after_sign(sign::SEMICOLON)?;
    let local = Stmt::Local {
        shared,
        ty,
        name,
        init,
    };
    Ok((local, rest))
}

// An expression or an assignment.
fn simple(alloc: Global, at: Cursor) -> Result<(Stmt, Cursor), Fault>
    ensures tree { Gives (λ x. (stmt_tree x.0, rest_of x.1)) result (simple_of (rest_of at.entry)) }
    ensures shorter { IfOk result (λ x. length (rest_of x.1) < length (rest_of at.entry)) }
{
    let (to, rest) = expression(alloc, at)?;
    let (value, rest) = initial(alloc, rest)?;
    match value {
        None => Ok((Stmt::Eval(to), rest)),
        Some(e) => Ok((Stmt::Assign(to, e), rest)),
    }
}

// An expression or an assignment, and `;`.
fn simple_statement(alloc: Global, at: Cursor) -> Result<(Stmt, Cursor), Fault>
    ensures tree { Gives (λ x. (stmt_tree x.0, rest_of x.1)) result (simple_statement_of (rest_of at.entry)) }
    ensures shorter { IfOk result (λ x. length (rest_of x.1) < length (rest_of at.entry)) }
{
    let (statement, rest) = simple(alloc, at)?;
    Ok((statement, rest.after_sign(sign::SEMICOLON)?))
}

// An expression or an assignment, if not the sign that ends it, and that sign.
fn optional_simple(alloc: Global, end: u8, at: Cursor) -> Result<(Option<Box<Stmt>>, Cursor), Fault>
    ensures tree { Gives (λ x. (maybe_simple x.0, rest_of x.1)) result (optional_simple_of end (rest_of at.entry)) }
    ensures shorter { IfOk result (λ x. length (rest_of x.1) < length (rest_of at.entry)) }
{
    if at.has_sign(end) {
        return Ok((None, at.next()));
    }
    let (statement, rest) = simple(alloc, at)?;
    let statement = Box::new(alloc, statement)?;
    Ok((Some(statement), rest.after_sign(end)?))
}

// An expression, if not the `;` that ends it, and that sign.
fn optional_expression(alloc: Global, at: Cursor) -> Result<(Option<Expr>, Cursor), Fault>
    ensures tree { Gives (λ x. (maybe_expr x.0, rest_of x.1)) result (optional_expression_of (rest_of at.entry)) }
    ensures shorter { IfOk result (λ x. length (rest_of x.1) < length (rest_of at.entry)) }
{
    if at.has_sign(sign::SEMICOLON) {
        return Ok((None, at.next()));
    }
    let (e, rest) = expression(alloc, at)?;
    Ok((Some(e), rest.after_sign(sign::SEMICOLON)?))
}

// `(`, an expression and `)`.
fn condition(alloc: Global, at: Cursor) -> Result<(Expr, Cursor), Fault>
    ensures tree { Gives (λ x. (expr_tree x.0, rest_of x.1)) result (condition_of (rest_of at.entry)) }
    ensures shorter { IfOk result (λ x. length (rest_of x.1) < length (rest_of at.entry)) }
{
    let (e, rest) = expression(alloc, at.after_sign(sign::OPEN_PAREN)?)?;
    Ok((e, rest.after_sign(sign::CLOSE_PAREN)?))
}

// The head of a `for` statement, with its parentheses.
fn for_head(alloc: Global, at: Cursor) -> Result<(ForHead, Cursor), Fault>
    ensures tree { Gives (λ x. ((maybe_simple x.0.first, maybe_expr x.0.test, maybe_simple x.0.next), rest_of x.1)) result (for_head_of (rest_of at.entry)) }
    ensures shorter { IfOk result (λ x. length (rest_of x.1) < length (rest_of at.entry)) }
{
    let at = at.after_sign(sign::OPEN_PAREN)?;
    let (first, rest) = optional_simple(alloc, sign::SEMICOLON, at)?;
    let (test, rest) = optional_expression(alloc, rest)?;
    let (next, rest) = optional_simple(alloc, sign::CLOSE_PAREN, rest)?;
    Ok((ForHead { first, test, next }, rest))
}

// A statement of one keyword, with its `;`.
fn word_statement(word: Stmt, at: Cursor) -> Result<(Stmt, Cursor), Fault>
    ensures tree { Gives (λ x. (stmt_tree x.0, rest_of x.1)) result (word_of (stmt_tree word) (rest_of at.entry)) }
    ensures shorter { IfOk result (λ x. length (rest_of x.1) < length (rest_of at.entry)) }
{
    let rest = at.next().after_sign(sign::SEMICOLON)?;
    Ok((word, rest))
}

// Behind `return`.
fn answer(alloc: Global, at: Cursor) -> Result<(Stmt, Cursor), Fault>
    ensures tree { Gives (λ x. (stmt_tree x.0, rest_of x.1)) result (answer_of (rest_of at.entry)) }
    ensures shorter { IfOk result (λ x. length (rest_of x.1) < length (rest_of at.entry)) }
{
    let (e, rest) = optional_expression(alloc, at)?;
    Ok((Stmt::Return(e), rest))
}

// A statement without others in it, behind its first tokens.
fn leaf(alloc: Global, front: StatementFront, at: Cursor) -> Result<(Stmt, Cursor), Fault>
    ensures tree { Gives (λ x. (stmt_tree x.0, rest_of x.1)) result (leaf_of front (rest_of at.entry)) }
    ensures shorter { IfOk result (λ x. length (rest_of x.1) < length (rest_of at.entry)) }
{
    match front {
        StatementFront::Empty => Ok((Stmt::Empty, at.after_sign(sign::SEMICOLON)?)),
        StatementFront::Local => local(alloc, at),
        StatementFront::Break => word_statement(Stmt::Break, at),
        StatementFront::Continue => word_statement(Stmt::Continue, at),
        StatementFront::Return => answer(alloc, at.next()),
        StatementFront::Block
        | StatementFront::If
        | StatementFront::While
        | StatementFront::For
        | StatementFront::Simple => simple_statement(alloc, at),
    }
}

/// A statement.
#[cycle(statements)]
pub fn statement(alloc: Global, budget: u32, at: Cursor) -> Result<(Stmt, Cursor), Fault>
    ensures tree { Gives (λ x. (stmt_tree x.0, rest_of x.1)) result (statement_at budget (rest_of at.entry)) }
    ensures shorter { IfOk result (λ x. length (rest_of x.1) < length (rest_of at.entry)) }
{
    if budget == 0 {
        return Err(Fault::Syntax);
    }
    match at.statement_front() {
        StatementFront::Block => {
            let (all, rest) = statements(alloc, budget - 1, at.next())?;
            Ok((build::block(all), rest))
        }
        StatementFront::If => conditional(alloc, budget, at.next()),
        StatementFront::While => repetition(alloc, budget, at.next()),
        StatementFront::For => counted(alloc, budget, at.next()),
        front => leaf(alloc, front, at),
    }
}

// Behind `if`.
#[cycle(statements)]
fn conditional(alloc: Global, budget: u32, at: Cursor) -> Result<(Stmt, Cursor), Fault>
    requires positive { 0 < budget }
    ensures tree { Gives (λ x. (stmt_tree x.0, rest_of x.1)) result (conditional_by (statement_at (budget - 1)) (rest_of at.entry)) }
    ensures shorter { IfOk result (λ x. length (rest_of x.1) < length (rest_of at.entry)) }
{
    let (test, rest) = condition(alloc, at)?;
    let (body, rest) = statement(alloc, budget - 1, rest)?;
    if !rest.has_keyword(keyword::ELSE) {
        return Ok((build::conditional(alloc, test, body)?, rest));
    }
    let (other, rest) = statement(alloc, budget - 1, rest.next())?;
    Ok((build::alternative(alloc, test, body, other)?, rest))
}

// Behind `while`.
#[cycle(statements)]
fn repetition(alloc: Global, budget: u32, at: Cursor) -> Result<(Stmt, Cursor), Fault>
    requires positive { 0 < budget }
    ensures tree { Gives (λ x. (stmt_tree x.0, rest_of x.1)) result (repetition_by (statement_at (budget - 1)) (rest_of at.entry)) }
    ensures shorter { IfOk result (λ x. length (rest_of x.1) < length (rest_of at.entry)) }
{
    let (test, rest) = condition(alloc, at)?;
    let (body, rest) = statement(alloc, budget - 1, rest)?;
    Ok((build::repetition(alloc, test, body)?, rest))
}

// Behind `for`.
#[cycle(statements)]
fn counted(alloc: Global, budget: u32, at: Cursor) -> Result<(Stmt, Cursor), Fault>
    requires positive { 0 < budget }
    ensures tree { Gives (λ x. (stmt_tree x.0, rest_of x.1)) result (counted_by (statement_at (budget - 1)) (rest_of at.entry)) }
    ensures shorter { IfOk result (λ x. length (rest_of x.1) < length (rest_of at.entry)) }
{
    let (head, rest) = for_head(alloc, at)?;
    let (body, rest) = statement(alloc, budget - 1, rest)?;
    Ok((build::counted(alloc, head, body)?, rest))
}

/// Statements and `}`.
#[cycle(statements)]
pub fn statements(alloc: Global, budget: u32, at: Cursor) -> Result<(Vec<Stmt>, Cursor), Fault>
    ensures tree { Gives (λ x. (stmt_trees x.0.items, rest_of x.1)) result (statements_by (statement_at budget) (rest_of at.entry)) }
    ensures shorter { IfOk result (λ x. length (rest_of x.1) < length (rest_of at.entry)) }
{
    let mut all = Vec::new(alloc);
    let mut rest = at;
    while !rest.has_sign(sign::CLOSE_BRACE) {
        let (one, after) = statement(alloc, budget, rest)?;
        build::add_statement(&mut all, one)?;
        rest = after;
    }
    Ok((all, rest.next()))
}
