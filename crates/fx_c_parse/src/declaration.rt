//! Declarations from tokens.

ghost use Rattle.std.specs.Prelude.{◌≡◌, ◌≤◌, ◌<◌, length, IfOk, OnOk};
ghost use Rattle.fx_c_ast.specs.ParsedTrees.{type_tree, member_trees, param_tree, param_trees, decl_tree};
ghost use Rattle.fx_c_parse.specs.Words.{rest_of};
ghost use Rattle.fx_c_parse.specs.Reading.{Gives};
ghost use Rattle.fx_c_parse.specs.Declarations.{declaration_of, structure_of, member_of, members_of, granted_of, annotation_of, names_of, global_of, initial_of, first_constant, entry_of, plain_of, function_of, parameters_of, some_parameters_of, parameter_of};

use crate::cursor::{Cursor, copied};
use crate::fault::Fault;
use crate::front::DeclarationFront;
use crate::statement::{declarator, statements};
use crate::types::{dimensions, nesting, pointer_type};
use fx_c_ast::parsed::{Decl, Fields, Grant, Init, Name, Names, Param, Params, TypeName};
use fx_c_ast::sequence::Sequence;
use fx_c_lex::{Token, TokenKind, keyword, sign};
use std::alloc::Global;

/// A declaration.
pub fn declaration(alloc: Global, at: Cursor) -> Result<(Decl, Cursor), Fault>
    ensures tree { Gives (λ x. (decl_tree x.0, rest_of x.1)) result (declaration_of (rest_of at.entry)) }
    ensures shorter { IfOk result (λ x. length (rest_of x.1) < length (rest_of at.entry)) }
{
    match at.declaration_front() {
        DeclarationFront::Struct => structure(alloc, at.next()),
        DeclarationFront::Granted => granted(alloc, at),
        DeclarationFront::Entry => entry(alloc, at.next()),
        DeclarationFront::Plain => plain(alloc, at),
    }
}

// Behind `struct`: the name and the members.
fn structure(alloc: Global, at: Cursor) -> Result<(Decl, Cursor), Fault>
    ensures tree { Gives (λ x. (decl_tree x.0, rest_of x.1)) result (structure_of (rest_of at.entry)) }
    ensures shorter { IfOk result (λ x. length (rest_of x.1) < length (rest_of at.entry)) }
{
    let name = at.name(alloc)?;
    let (members, rest) = members(alloc, at.next().next())?;
    let rest = rest.after_sign(sign::SEMICOLON)?;
    Ok((Decl::Struct { name, members }, rest))
}

// A member and `;`.
fn member(alloc: Global, at: Cursor) -> Result<((TypeName, Name), Cursor), Fault>
    ensures tree { Gives (λ x. ((type_tree x.0.0, x.0.1), rest_of x.1)) result (member_of (rest_of at.entry)) }
    ensures shorter { IfOk result (λ x. length (rest_of x.1) < length (rest_of at.entry)) }
{
    let (ty, name, rest) = declarator(alloc, at)?;
    Ok(((ty, name), rest.after_sign(sign::SEMICOLON)?))
}

// At least one member, and `}`.
#[tactic(auto, using(crate::proofs::Lists::members_more))]
fn members(alloc: Global, at: Cursor) -> Result<(Fields, Cursor), Fault>
    ensures tree { Gives (λ x. (member_trees x.0, rest_of x.1)) result (members_of (rest_of at.entry)) }
    ensures shorter { IfOk result (λ x. length (rest_of x.1) < length (rest_of at.entry)) }
{
    let (first, mut rest) = member(alloc, at)?;
    let mut all = Vec::new(alloc);
    all.push(first)?;
    while !rest.has_sign(sign::CLOSE_BRACE) {
        let (one, after) = member(alloc, rest)?;
        all.push(one)?;
        rest = after;
    }
    Ok((Sequence::from_vec(all), rest.next()))
}

// A global with annotations.
fn granted(alloc: Global, at: Cursor) -> Result<(Decl, Cursor), Fault>
    ensures tree { Gives (λ x. (decl_tree x.0, rest_of x.1)) result (granted_of (rest_of at.entry)) }
    ensures shorter { IfOk result (λ x. length (rest_of x.1) < length (rest_of at.entry)) }
{
    let (grant, rest) = annotation(alloc, keyword::SHARED, at)?;
    let (readers, rest) = annotation(alloc, keyword::READ, rest)?;
    let (ty, left, rest) = pointer_type(alloc, rest)?;
    let name = rest.name(alloc)?;
    global(alloc, grant, readers, ty, left, name, rest.next())
}

// An annotation, if it stands there.
fn annotation(alloc: Global, word: u8, at: Cursor) -> Result<(Grant, Cursor), Fault>
    ensures tree { Gives (λ x. (x.0, rest_of x.1)) result (annotation_of word (rest_of at.entry)) }
    ensures shorter { IfOk result (λ x. length (rest_of x.1) ≤ length (rest_of at.entry)) }
{
    if !at.has_keyword(word) {
        return Ok((Grant::Private, at));
    }
    let at = at.next().after_sign(sign::OPEN_PAREN)?;
    if at.has_sign(sign::STAR) {
        return Ok((Grant::All, at.next().after_sign(sign::CLOSE_PAREN)?));
    }
    let (names, rest) = names(alloc, at)?;
    Ok((Grant::Libraries(names), rest))
}

// At least one name, and `)`.
fn names(alloc: Global, at: Cursor) -> Result<(Names, Cursor), Fault>
    ensures tree { Gives (λ x. (x.0, rest_of x.1)) result (names_of (rest_of at.entry)) }
    ensures shorter { IfOk result (λ x. length (rest_of x.1) < length (rest_of at.entry)) }
{
    let mut all = Vec::new(alloc);
    all.push(at.name(alloc)?)?;
    let mut rest = at.next();
    while rest.has_sign(sign::COMMA) {
        let after = rest.next();
        all.push(after.name(alloc)?)?;
        rest = after.next();
    }
    Ok((Sequence::from_vec(all), rest.after_sign(sign::CLOSE_PAREN)?))
}

// Behind the name of a global.
fn global(
    alloc: Global,
    grant: Grant,
    readers: Grant,
    ty: TypeName,
    left: u32,
    name: Name,
    at: Cursor,
) -> Result<(Decl, Cursor), Fault>
    ensures tree { Gives (λ x. (decl_tree x.0, rest_of x.1)) result (global_of grant readers (type_tree ty) left name (rest_of at.entry)) }
    ensures shorter { IfOk result (λ x. length (rest_of x.1) < length (rest_of at.entry)) }
{
    let (ty, rest) = dimensions(alloc, left, ty, at)?;
    let (init, rest) = initial(alloc, rest)?;
    let rest = rest.after_sign(sign::SEMICOLON)?;
    let global = Decl::Global {
        grant,
        readers,
        ty,
        name,
        init,
    };
    Ok((global, rest))
}

// `=` and a constant, if they stand there.
fn initial(alloc: Global, at: Cursor) -> Result<(Init, Cursor), Fault>
    ensures tree { Gives (λ x. (x.0, rest_of x.1)) result (initial_of (rest_of at.entry)) }
    ensures shorter { IfOk result (λ x. length (rest_of x.1) ≤ length (rest_of at.entry)) }
{
    if !at.has_sign(sign::ASSIGN) {
        return Ok((Init::Zero, at));
    }
    let at = at.next();
    if at.has_sign(sign::MINUS) {
        let at = at.next();
        return Ok((Init::Number(0u64.wrapping_sub(at.number()?)), at.next()));
    }
    Ok((initial_constant(alloc, at)?, at.next()))
}

fn initial_constant(alloc: Global, at: Cursor) -> Result<Init, Fault>
    ensures value { Gives (λ i. i) result (first_constant (rest_of at.entry)) }
    ensures there { OnOk result (0 < length (rest_of at.entry)) }
{
    match at.tokens {
        [
            Token {
                kind: TokenKind::Number { value, .. },
                ..
            },
            ..
        ] => Ok(Init::Number(*value)),
        [
            Token {
                kind: TokenKind::Char(byte),
                ..
            },
            ..
        ] => Ok(Init::Number(*byte as u64)),
        [
            Token {
                kind: TokenKind::Text(bytes),
                ..
            },
            ..
        ] => { Ok(Init::Text(copied(alloc, bytes.as_slice())?)) }
        _ => Err(Fault::Syntax),
    }
}

// A function behind `__entry`.
fn entry(alloc: Global, at: Cursor) -> Result<(Decl, Cursor), Fault>
    ensures tree { Gives (λ x. (decl_tree x.0, rest_of x.1)) result (entry_of (rest_of at.entry)) }
    ensures shorter { IfOk result (λ x. length (rest_of x.1) < length (rest_of at.entry)) }
{
    let (ty, _left, rest) = pointer_type(alloc, at)?;
    let name = rest.name(alloc)?;
    function(
        alloc,
        true,
        ty,
        name,
        rest.next().after_sign(sign::OPEN_PAREN)?,
    )
}

// A global or a function without annotations.
fn plain(alloc: Global, at: Cursor) -> Result<(Decl, Cursor), Fault>
    ensures tree { Gives (λ x. (decl_tree x.0, rest_of x.1)) result (plain_of (rest_of at.entry)) }
    ensures shorter { IfOk result (λ x. length (rest_of x.1) < length (rest_of at.entry)) }
{
    let (ty, left, rest) = pointer_type(alloc, at)?;
    let name = rest.name(alloc)?;
    let rest = rest.next();
    if rest.has_sign(sign::OPEN_PAREN) {
        function(alloc, false, ty, name, rest.next())
    } else {
        global(alloc, Grant::Private, Grant::Private, ty, left, name, rest)
    }
}

// A function behind `(`.
fn function(
    alloc: Global,
    entry: bool,
    result_type: TypeName,
    name: Name,
    at: Cursor,
) -> Result<(Decl, Cursor), Fault>
    ensures tree { Gives (λ x. (decl_tree x.0, rest_of x.1)) result (function_of entry (type_tree result_type) name (rest_of at.entry)) }
    ensures shorter { IfOk result (λ x. length (rest_of x.1) < length (rest_of at.entry)) }
{
    let (params, rest) = parameters(alloc, at)?;
    let rest = rest.after_sign(sign::OPEN_BRACE)?;
    let (body, rest) = statements(alloc, nesting(), rest)?;
    let function = Decl::Function {
        entry,
        result: result_type,
        name,
        params,
        body,
    };
    Ok((function, rest))
}

// Parameters and `)`.
fn parameters(alloc: Global, at: Cursor) -> Result<(Params, Cursor), Fault>
    ensures tree { Gives (λ x. (param_trees x.0, rest_of x.1)) result (parameters_of (rest_of at.entry)) }
    ensures shorter { IfOk result (λ x. length (rest_of x.1) < length (rest_of at.entry)) }
{
    if at.has_sign(sign::CLOSE_PAREN) {
        return Ok((Sequence::new(alloc), at.next()));
    }
    if at.has_keyword(keyword::VOID) && at.next().has_sign(sign::CLOSE_PAREN) {
        return Ok((Sequence::new(alloc), at.next().next()));
    }
    some_parameters(alloc, at)
}

// At least one parameter, and `)`.
#[tactic(auto, using(crate::proofs::Lists::params_more))]
fn some_parameters(alloc: Global, at: Cursor) -> Result<(Params, Cursor), Fault>
    ensures tree { Gives (λ x. (param_trees x.0, rest_of x.1)) result (some_parameters_of (rest_of at.entry)) }
    ensures shorter { IfOk result (λ x. length (rest_of x.1) < length (rest_of at.entry)) }
{
    let (first, mut rest) = parameter(alloc, at)?;
    let mut all = Vec::new(alloc);
    all.push(first)?;
    while rest.has_sign(sign::COMMA) {
        let (one, after) = parameter(alloc, rest.next())?;
        all.push(one)?;
        rest = after;
    }
    Ok((Sequence::from_vec(all), rest.after_sign(sign::CLOSE_PAREN)?))
}

fn parameter(alloc: Global, at: Cursor) -> Result<(Param, Cursor), Fault>
    ensures tree { Gives (λ x. (param_tree x.0, rest_of x.1)) result (parameter_of (rest_of at.entry)) }
    ensures shorter { IfOk result (λ x. length (rest_of x.1) < length (rest_of at.entry)) }
{
    let shared = at.has_keyword(keyword::SHARED);
    let at = if shared { at.next() } else { at };
    let (ty, _left, rest) = pointer_type(alloc, at)?;
    let name = rest.name(alloc)?;
    Ok((Param { shared, ty, name }, rest.next()))
}
