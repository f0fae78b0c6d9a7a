//! A place in the tokens of a text.

ghost use Rattle.std.specs.Prelude.{◌≡◌, ◌<◌, ◌-◌, length, IfOk, OnOk, OnSome};
ghost use Rattle.std.specs.Bool.{OnTrue};
ghost use Rattle.fx_c_parse.specs.Words.{rest_of, first_sign, first_keyword, first_name, first_number, tail, has_sign, has_keyword, after_sign, name_bytes, number_type};
ghost use Rattle.fx_c_parse.specs.Fronts.{is_some_name};
ghost use Rattle.fx_c_parse.specs.Reading.{Gives, Copies};

use crate::fault::Fault;
use fx_c_ast::operator::IntType;
use fx_c_ast::parsed::{Bytes, Name};
use fx_c_ast::sequence::Sequence;
use fx_c_lex::{Token, TokenKind};
use std::alloc::Global;

/// A text and the tokens of it that are still to be read.
#[derive(Clone, Copy, Debug)]
pub struct Cursor<'a> {
    pub text: &'a [u8],
    pub tokens: &'a [Token],
}

impl<'a> Cursor<'a> {
    /// The number of the sign at the front.
    pub fn sign(self) -> Option<u8>
        ensures value { result ≡ first_sign (rest_of self.entry) }
        ensures there { OnSome result (0 < length (rest_of self.entry)) }
    {
        match self.tokens {
            [
                Token {
                    kind: TokenKind::Sign(sign),
                    ..
                },
                ..
            ] => Some(*sign),
            _ => None,
        }
    }

    /// The number of the keyword at the front.
    pub fn keyword(self) -> Option<u8>
        ensures value { result ≡ first_keyword (rest_of self.entry) }
        ensures there { OnSome result (0 < length (rest_of self.entry)) }
    {
        match self.tokens {
            [
                Token {
                    kind: TokenKind::Keyword(keyword),
                    ..
                },
                ..
            ] => Some(*keyword),
            _ => None,
        }
    }

    /// Whether a name stands at the front.
    pub fn is_name(self) -> bool
        ensures { result ≡ is_some_name (first_name (rest_of self.entry)) }
    {
        matches!(
            self.tokens,
            [
                Token {
                    kind: TokenKind::Name,
                    ..
                },
                ..
            ]
        )
    }

    /// Behind the first token.
    pub fn next(self) -> Cursor<'a>
        ensures rest { rest_of result ≡ tail (rest_of self.entry) }
        ensures fewer { length (rest_of result) ≡ length (rest_of self.entry) - 1 }
    {
        Cursor {
            text: self.text,
            tokens: match self.tokens {
                [] => self.tokens,
                [_, rest @ ..] => rest,
            },
        }
    }

    /// Whether this sign stands at the front.
    pub fn has_sign(self, sign: u8) -> bool
        ensures value { result ≡ has_sign sign (rest_of self.entry) }
        ensures there { OnTrue result (0 < length (rest_of self.entry)) }
    {
        match self.sign() {
            Some(first) => first == sign,
            None => false,
        }
    }

    /// Whether this keyword stands at the front.
    pub fn has_keyword(self, keyword: u8) -> bool
        ensures value { result ≡ has_keyword keyword (rest_of self.entry) }
        ensures there { OnTrue result (0 < length (rest_of self.entry)) }
    {
        match self.keyword() {
            Some(first) => first == keyword,
            None => false,
        }
    }

    /// Behind a sign.
    pub fn after_sign(self, sign: u8) -> Result<Cursor<'a>, Fault>
        ensures rest { Gives rest_of result (after_sign sign (rest_of self.entry)) }
        ensures shorter { IfOk result (λ x. length (rest_of x) < length (rest_of self.entry)) }
    {
        if self.has_sign(sign) {
            Ok(self.next())
        } else {
            Err(Fault::Syntax)
        }
    }

    /// The value of the number at the front.
    pub fn number(self) -> Result<u64, Fault>
        ensures value { Gives (λ n. n) result (first_number (rest_of self.entry)) }
        ensures there { OnOk result (0 < length (rest_of self.entry)) }
    {
        match self.tokens {
            [
                Token {
                    kind: TokenKind::Number { value, .. },
                    ..
                },
                ..
            ] => Ok(*value),
            _ => Err(Fault::Syntax),
        }
    }

    /// The name at the front.
    pub fn name(self, alloc: Global) -> Result<Name, Fault>
        ensures value { Gives (λ n. n) result (first_name (rest_of self.entry)) }
        ensures there { OnOk result (0 < length (rest_of self.entry)) }
    {
        match self.tokens {
            [
                Token {
                    kind: TokenKind::Name,
                    start,
                    end,
                },
                ..
            ] => {
                let bytes = name_bytes(self.text, *start, *end);
                Ok(Sequence::from_vec(Vec::from_slice(alloc, bytes)?))
            }
            _ => Err(Fault::Syntax),
        }
    }
}

/// The bytes of a token.
fn name_bytes(text: &[u8], start: u32, end: u32) -> &[u8]
    ensures { result.now ≡ name_bytes text.now start end }
{
    if start <= end && end as usize <= text.len() {
        &text[start as usize..end as usize]
    } else {
        &[]
    }
}

/// The type of a number token.
pub fn number_type(unsigned: bool, long: bool) -> IntType
    ensures { result ≡ number_type unsigned long }
{
    match (unsigned, long) {
        (false, false) => IntType::Int,
        (true, false) => IntType::Uint,
        (false, true) => IntType::Long,
        (true, true) => IntType::Ulong,
    }
}

/// A string's bytes, copied.
pub fn copied(alloc: Global, bytes: &[u8]) -> Result<Bytes, Fault>
    ensures { Copies result bytes.now }
{
    Ok(Sequence::from_vec(Vec::from_slice(alloc, bytes)?))
}
