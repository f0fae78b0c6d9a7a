//! What is answered to a program of the input.

ghost use Rattle.std.specs.Prelude.{◌<◌, ◌≤◌, ◌^◌, length, IsTrue};
ghost use Rattle.fx_c_types.specs.ProgramView.{declarations};

use crate::printer::Printer;
use crate::program::{Program, Question, Text};
use crate::trees::append_bodies;
use fx_c_ast::checked::TProgram;
use fx_c_ast::parsed::Unit;
use fx_c_lex::{LexError, Token, TokenKind, tokens};
use fx_c_parse::{ParseError, parse};
use fx_c_types::{SourceFile, TypeError, check};
use std::alloc::{AllocError, Global};

const LONGEST: usize = 1048576;

// How many tokens are shown each.
const SHOWN: usize = 64;

/// What is answered, in a line or, for shown bodies, in more.
pub fn answer(alloc: Global, program: &Program) -> Result<String, AllocError> {
    match program.question {
        Question::Tokens => match program.texts.first() {
            Some(text) => tokens_of(alloc, &text.bytes),
            None => Ok(String::new(alloc)),
        },
        Question::Parse => match program.texts.first() {
            Some(text) => parsed(alloc, &text.bytes),
            None => Ok(String::new(alloc)),
        },
        Question::Again => match program.texts.first() {
            Some(text) => again(alloc, &text.bytes),
            None => Ok(String::new(alloc)),
        },
        Question::Same => match (program.texts.first(), program.texts.get(1)) {
            (Some(one), Some(other)) => same(alloc, &one.bytes, &other.bytes),
            _ => format!(in alloc; "not two files"),
        },
        Question::Check { shown } => checked(alloc, &program.texts, shown),
    }
}

// A token's kind and its place.
fn append_token(alloc: Global, out: &mut String, token: &Token) -> Result<(), AllocError> {
    match &token.kind {
        TokenKind::Text(text) => {
            out.push_str(format!(in alloc; "text{:?}", text.as_slice())?.as_str())?;
        }
        kind => out.push_str(format!(in alloc; "{kind:?}")?.as_str())?,
    }
    out.push_str(format!(in alloc; " {}..{}; ", token.start, token.end)?.as_str())
}

fn tokens_of(alloc: Global, text: &[u8]) -> Result<String, AllocError> {
    if text.len() > LONGEST {
        return format!(in alloc; "too long");
    }
    let list = match tokens(alloc, text) {
        Ok(list) => list,
        Err(LexError::Byte(at)) => return format!(in alloc; "no token at {at}"),
        Err(LexError::OutOfMemory) => return Err(AllocError),
    };
    if list.as_slice().len() > SHOWN {
        return format!(in alloc; "{} tokens", list.as_slice().len());
    }
    let mut out = String::new(alloc);
    for token in list.as_slice() {
        append_token(alloc, &mut out, token)?;
    }
    Ok(out)
}

fn tree_of(alloc: Global, text: &[u8]) -> Result<Unit, ParseError> {
    if text.len() > LONGEST {
        return Err(ParseError::OutOfMemory);
    }
    parse(alloc, text)
}

fn parsed(alloc: Global, text: &[u8]) -> Result<String, AllocError> {
    match tree_of(alloc, text) {
        Ok(unit) => format!(in alloc; "declarations: {}", unit.decls.len()),
        Err(error) => format!(in alloc; "{error:?}"),
    }
}

fn again(alloc: Global, text: &[u8]) -> Result<String, AllocError> {
    let unit = match tree_of(alloc, text) {
        Ok(unit) => unit,
        Err(error) => return format!(in alloc; "{error:?}"),
    };
    let mut printer = Printer {
        alloc,
        text: Vec::new(alloc),
    };
    printer.unit(&unit)?;
    match tree_of(alloc, &printer.text) {
        Ok(other) => format!(in alloc; "the same: {}", other == unit),
        Err(error) => format!(in alloc; "printed: {error:?}"),
    }
}

fn same(alloc: Global, one: &[u8], other: &[u8]) -> Result<String, AllocError> {
    match (tree_of(alloc, one), tree_of(alloc, other)) {
        (Ok(a), Ok(b)) => format!(in alloc; "the same: {}", a == b),
        _ => format!(in alloc; "no two trees"),
    }
}

// The files' trees, or none where a file is no source text.
fn files(alloc: Global, texts: &[Text]) -> Result<Option<Vec<SourceFile>>, AllocError> {
    let mut all = Vec::new(alloc);
    for text in texts {
        let Ok(unit) = tree_of(alloc, &text.bytes) else {
            return Ok(None);
        };
        let library = text.library;
        all.push(SourceFile { library, unit })?;
    }
    Ok(Some(all))
}

// Whether the files have as few declarations as a check asks for.
fn are_few(files: &[SourceFile]) -> bool
    ensures { IsTrue result → length (declarations files.now) < 2 ^ 28 }
{
    let mut left: usize = 268435455;
    for file in files {
        let count = file.unit.decls.len();
        if count > left {
            return false;
        }
        left -= count;
    }
    true
}

fn accepted(alloc: Global, p: &TProgram, shown: bool) -> Result<String, AllocError> {
    let (structs, globals) = (p.structs.len(), p.globals.len());
    let (functions, literals) = (p.functions.len(), p.literals.len());
    let main = p.main;
    let mut text = format!(in alloc;
        "accepted: structs {structs}, globals {globals}, functions {functions}, strings {literals}, main {main}"
    )?;
    if shown {
        append_bodies(alloc, &mut text, p)?;
    }
    Ok(text)
}

fn checked(alloc: Global, texts: &[Text], shown: bool) -> Result<String, AllocError> {
    let Some(files) = files(alloc, texts)? else {
        return format!(in alloc; "no source text");
    };
    if !are_few(&files) {
        return format!(in alloc; "too many declarations");
    }
    match check(alloc, &files) {
        Ok(p) => accepted(alloc, &p, shown),
        Err(TypeError::Rule { kind, declaration }) => format!(in alloc; "{kind:?} {declaration}"),
        Err(TypeError::OutOfMemory) => Err(AllocError),
    }
}
