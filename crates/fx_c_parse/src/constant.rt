//! Constants and the parts of built-in operations that hold no expression.

ghost use Rattle.std.specs.Prelude.{◌≡◌, ◌<◌, length, IfOk};
ghost use Rattle.fx_c_ast.specs.ParsedTrees.{expr_tree};
ghost use Rattle.fx_c_parse.specs.Words.{rest_of};
ghost use Rattle.fx_c_parse.specs.Reading.{Gives};
ghost use Rattle.fx_c_parse.specs.Expressions.{constant_of, device_of, nothing_of};

use crate::cursor::{Cursor, copied, number_type};
use crate::fault::Fault;
use fx_c_ast::operator::IntType;
use fx_c_ast::parsed::Expr;
use fx_c_lex::{Token, TokenKind, sign};
use std::alloc::Global;

/// A number, a character or a string.
pub fn constant(alloc: Global, at: Cursor) -> Result<(Expr, Cursor), Fault>
    ensures tree { Gives (λ x. (expr_tree x.0, rest_of x.1)) result (constant_of (rest_of at.entry)) }
    ensures shorter { IfOk result (λ x. length (rest_of x.1) < length (rest_of at.entry)) }
{
    match at.tokens {
        [
            Token {
                kind: TokenKind::Number {
                    value,
                    unsigned,
                    long,
                },
                ..
            },
            ..
        ] => {
            let number = Expr::Number {
                value: *value,
                ty: number_type(*unsigned, *long),
            };
            Ok((number, at.next()))
        }
        [
            Token {
                kind: TokenKind::Char(byte),
                ..
            },
            ..
        ] => {
            let character = Expr::Number {
                value: *byte as u64,
                ty: IntType::Int,
            };
            Ok((character, at.next()))
        }
        [
            Token {
                kind: TokenKind::Text(bytes),
                ..
            },
            ..
        ] => { Ok((Expr::Text(copied(alloc, bytes.as_slice())?), at.next())) }
        _ => Err(Fault::Syntax),
    }
}

/// `(` and the numbers of a device from 0 to 15 and of a register from 0 to 511.
pub fn device(at: Cursor) -> Result<(u16, u16, Cursor), Fault>
    ensures tree { Gives (λ x. (x.0, x.1, rest_of x.2)) result (device_of (rest_of at.entry)) }
    ensures shorter { IfOk result (λ x. length (rest_of x.2) < length (rest_of at.entry)) }
{
    let at = at.after_sign(sign::OPEN_PAREN)?;
    let device = at.number()?;
    let at = at.next().after_sign(sign::COMMA)?;
    let register = at.number()?;
    if device < 16 && register < 512 {
        Ok((device as u16, register as u16, at.next()))
    } else {
        Err(Fault::Syntax)
    }
}

/// `(` and `)`.
pub fn nothing(at: Cursor) -> Result<Cursor, Fault>
    ensures rest { Gives rest_of result (nothing_of (rest_of at.entry)) }
    ensures shorter { IfOk result (λ x. length (rest_of x) < length (rest_of at.entry)) }
{
    at.after_sign(sign::OPEN_PAREN)?
        .after_sign(sign::CLOSE_PAREN)
}
