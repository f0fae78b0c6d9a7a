//! The beginning of a primary expression, up to the first expression in it.

ghost use Rattle.std.specs.Prelude.{◌≡◌, ◌<◌, length, IfOk};
ghost use Rattle.fx_c_ast.specs.ParsedTrees.{expr_tree};
ghost use Rattle.fx_c_parse.specs.Words.{rest_of};
ghost use Rattle.fx_c_parse.specs.Reading.{Gives};
ghost use Rattle.fx_c_parse.specs.Expressions.{head_of, named_of, size_of, head_tree};

use crate::constant::{constant, device, nothing};
use crate::cursor::Cursor;
use crate::fault::Fault;
use crate::front::PrimaryFront;
use crate::types::{dimensions, pointer_type};
use fx_c_ast::parsed::{Expr, Name};
use fx_c_lex::sign;
use std::alloc::Global;

/// What surrounds the one expression that a primary expression ends with.
#[derive(Debug, Drop)]
pub enum Around {
    Parentheses,
    Putc,
    Switch,
    Spawn(Name),
    DevStore(u16, u16),
}

/// What is still to be read of a primary expression.
#[derive(Debug, Drop)]
pub enum Head {
    /// Nothing.
    Whole(Expr),

    /// An expression and `)`.
    Inside(Around),

    /// Arguments and `)`.
    Call(Name),

    /// More arguments, each behind a comma, and `)`.
    Gate(Name),
}

/// The beginning of a primary expression.
pub fn primary_head(alloc: Global, at: Cursor) -> Result<(Head, Cursor), Fault>
    ensures tree { Gives (λ x. (head_tree x.0, rest_of x.1)) result (head_of (rest_of at.entry)) }
    ensures shorter { IfOk result (λ x. length (rest_of x.1) < length (rest_of at.entry)) }
{
    match at.primary_front() {
        PrimaryFront::Constant => {
            let (whole, rest) = constant(alloc, at)?;
            Ok((Head::Whole(whole), rest))
        }
        PrimaryFront::Variable => Ok((Head::Whole(Expr::Var(at.name(alloc)?)), at.next())),
        PrimaryFront::Call => Ok((Head::Call(at.name(alloc)?), at.next().next())),
        PrimaryFront::Parentheses => Ok((Head::Inside(Around::Parentheses), at.next())),
        PrimaryFront::Gate => {
            let (name, rest) = named(alloc, at.next())?;
            Ok((Head::Gate(name), rest))
        }
        PrimaryFront::Putc => {
            Ok((
                Head::Inside(Around::Putc),
                at.next().after_sign(sign::OPEN_PAREN)?,
            ))
        }
        PrimaryFront::Switch => {
            Ok((
                Head::Inside(Around::Switch),
                at.next().after_sign(sign::OPEN_PAREN)?,
            ))
        }
        PrimaryFront::Getc => Ok((Head::Whole(Expr::Getc), nothing(at.next())?)),
        PrimaryFront::Me => Ok((Head::Whole(Expr::Me), nothing(at.next())?)),
        PrimaryFront::In => {
            let (device, register, rest) = device(at.next())?;
            let rest = rest.after_sign(sign::CLOSE_PAREN)?;
            Ok((Head::Whole(Expr::DevLoad(device, register)), rest))
        }
        PrimaryFront::Out => {
            let (device, register, rest) = device(at.next())?;
            let rest = rest.after_sign(sign::COMMA)?;
            Ok((Head::Inside(Around::DevStore(device, register)), rest))
        }
        PrimaryFront::Spawn => {
            let (name, rest) = named(alloc, at.next())?;
            Ok((
                Head::Inside(Around::Spawn(name)),
                rest.after_sign(sign::COMMA)?,
            ))
        }
    }
}

// `(` and the name of a function.
fn named(alloc: Global, at: Cursor) -> Result<(Name, Cursor), Fault>
    ensures tree { Gives (λ x. (x.0, rest_of x.1)) result (named_of (rest_of at.entry)) }
    ensures shorter { IfOk result (λ x. length (rest_of x.1) < length (rest_of at.entry)) }
{
    let at = at.after_sign(sign::OPEN_PAREN)?;
    Ok((at.name(alloc)?, at.next()))
}

/// Behind `sizeof`: `(`, a type and `)`.
pub fn size(alloc: Global, at: Cursor) -> Result<(Expr, Cursor), Fault>
    ensures tree { Gives (λ x. (expr_tree x.0, rest_of x.1)) result (size_of (rest_of at.entry)) }
    ensures shorter { IfOk result (λ x. length (rest_of x.1) < length (rest_of at.entry)) }
{
    let at = at.after_sign(sign::OPEN_PAREN)?;
    let (ty, left, rest) = pointer_type(alloc, at)?;
    let (ty, rest) = dimensions(alloc, left, ty, rest)?;
    Ok((Expr::Size(ty), rest.after_sign(sign::CLOSE_PAREN)?))
}
