//! The one syntax tree of a source text.

ghost use Rattle.std.specs.Prelude.{◌≡◌, ℕ, ◌≤◌, ◌<◌, ◌^◌, List, [], length, vec_len};
ghost use Rattle.fx_c_ast.specs.ParsedTrees.{DeclTree, decl_trees};
ghost use Rattle.fx_c_lex.specs.Laws.{StopsAfter};
ghost use Rattle.fx_c_lex.specs.Lexis.{tokens_of};
ghost use Rattle.fx_c_lex.specs.declared.token.Token.{Token};
ghost use Rattle.fx_c_parse.specs.Words.{rest_of};
ghost use Rattle.fx_c_parse.specs.Declarations.{GivesOf, GivesUnit, Reads, unit_of};
ghost use Rattle.fx_c_parse.specs.Exact.{Answers, IfByte, IfSyntax, IfTree, IsTextOf, StopsText};

use crate::cursor::Cursor;
use crate::declaration::declaration;
use crate::fault::{Fault, ParseError};
use fx_c_ast::parsed::{Decl, Unit};
use fx_c_ast::sequence::Sequence;
use fx_c_lex::{LexError, tokens};
use std::alloc::Global;

/// The syntax tree of a source text of at most 1 MiB (this project's C profile). Expressions, statements
/// and types nest at most 64 nodes; the time is linear in the text's length.
pub fn parse(alloc: Global, text: &[u8]) -> Result<Unit, ParseError>
    requires { length text.now ≤ 1048576 }

    // The tree is the grammar's for the text's tokens.
    ensures found { IfTree result (IsTextOf text.now) }

    // A text that has a tree is answered with it.
    ensures only { (ds : List DeclTree) → IsTextOf text.now ds → Answers result ds }

    // So many declarations stand before a rest that isn't empty and that no declaration begins.
    ensures syntax { IfSyntax result (StopsText text.now) }

    // Behind the tokens before it, the place has no token.
    ensures byte { IfByte result (λ at. (ts : List Token) × StopsAfter text.now 0 ts at) }
{
    read(alloc, text)
}

// What reading the text from the left gives.
fn read(alloc: Global, text: &[u8]) -> Result<Unit, ParseError>
    requires { length text.now ≤ 1048576 }
    ensures { GivesOf text.now result (tokens_of text.now) }
{
    match tokens(alloc, text) {
        Ok(tokens) => {
            let at = Cursor {
                text,
                tokens: tokens.as_slice(),
            };
            unit(alloc, at)
        }
        Err(LexError::Byte(at)) => Err(ParseError::Byte(at)),
        Err(LexError::OutOfMemory) => Err(ParseError::OutOfMemory),
    }
}

fn unit(alloc: Global, at: Cursor) -> Result<Unit, ParseError>
    requires { length (rest_of at) < 2 ^ 32 }
    ensures { GivesUnit result (unit_of (rest_of at.entry)) }
{
    let mut decls = Vec::new(alloc);
    match declarations(alloc, at, &mut decls) {
        Ok(()) => Ok(Unit {
            decls: Sequence::from_vec(decls),
        }),
        Err(Fault::Syntax) => Err(ParseError::Syntax(decls.len() as u32)),
        Err(Fault::OutOfMemory) => Err(ParseError::OutOfMemory),
    }
}

// The declarations of the tokens, or those before the first that isn't one.
fn declarations(alloc: Global, at: Cursor, decls: &mut Vec<Decl>) -> Result<(), Fault>
    requires { decls.old.items ≡ [] }
    ensures read { Reads result (decl_trees decls.new.items) (vec_len decls.new) (unit_of (rest_of at.entry)) }
    ensures fewer { vec_len decls.new ≤ length (rest_of at.entry) }
{
    let mut rest = at;
    while !rest.tokens.is_empty() {
        let (decl, after) = declaration(alloc, rest)?;
        decls.push(decl)?;
        rest = after;
    }
    Ok(())
}
