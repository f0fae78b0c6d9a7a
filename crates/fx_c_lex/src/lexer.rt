//! What stands at the front of a text, and the tokens of a text.

ghost use Rattle.std.specs.Prelude.{List, ◌≡◌, ◌≤◌, ◌<◌, ◌+◌, ◌^◌, ◌==◌, length, take, IfOk, IfSome, Some, None, true, nat_le, if◌then◌else◌};
ghost use Rattle.std.specs.List.{prefix_len, position_or_len};
ghost use Rattle.std.specs.Char.{is_ascii_digit};
ghost use Rattle.fx_c_lex.specs.Bytes.{is_word_byte, byte_at};
ghost use Rattle.fx_c_lex.specs.Words.{keywords, place_of, keyword_or_name, sign};
ghost use Rattle.fx_c_lex.specs.Numbers.{number};
ghost use Rattle.fx_c_lex.specs.Quoted.{character_by};
ghost use Rattle.fx_c_lex.specs.Lexis.{to_comment_end, block_comment, longest, longest_token, or_shorter, front, Gives, tokens_of};
ghost use Rattle.fx_c_lex.specs.Laws.{InOrder, StopsAfter, IfByte};
ghost use Rattle.fx_c_lex.specs.declared.token.Token.{Token};
ghost use Rattle.fx_c_lex.specs.Reading.{Advances, IsOther};

use crate::bytes::{is_white_space, is_word_byte};
use crate::numbers::number;
use crate::quoted::contents;
use crate::token::{LexError, TextBytes, Token, TokenKind, TokenList};
use crate::words::{keyword_or_name, sign_number};
use std::alloc::{AllocError, Global};

/// What stands at the front of a text.
#[derive(Debug, Drop)]
pub enum Front {
    /// No token.
    NoToken,

    /// White space or a comment, with its length.
    Blank(usize),

    /// A token, with its length.
    Lexeme(TokenKind, usize),
}

// How many letters, digits and `_` stand at the front.
#[tactic(auto, using(crate::proofs::Prefixes::prefix_steps))]
fn word_length(text: &[u8]) -> usize
    ensures count { result ≡ prefix_len is_word_byte text.now }
    ensures within { result ≤ length text.now }
{
    for (i, b) in text.iter().enumerate() {
        if !is_word_byte(*b) {
            return i;
        }
    }
    text.len()
}

// How many bytes stand before the first line feed.
#[tactic(auto, using(crate::proofs::Prefixes::prefix_steps))]
fn line_length(text: &[u8]) -> usize
    ensures { result ≡ position_or_len (λ b. b == 10) text.now }
{
    for (i, b) in text.iter().enumerate() {
        if *b == b'\n' {
            return i;
        }
    }
    text.len()
}

// How many bytes there are to the first `*/`, with it.
fn comment_length(text: &[u8]) -> Option<usize>
    ensures found { result ≡ to_comment_end text.now }
    ensures within { IfSome result (λ n. n ≤ length text.now) }
{
    let mut star = false;
    for (i, b) in text.iter().enumerate() {
        if star && *b == b'/' {
            return Some(i + 1);
        }
        star = *b == b'*';
    }
    None
}

// A comment whose `/*` stands before the text.
fn comment(text: &[u8]) -> Front
    requires { length text.now < 2 ^ 32 }
    ensures { result ≡ block_comment (to_comment_end text.now) }
{
    match comment_length(text) {
        Some(length) => Front::Blank(length + 2),
        None => Front::NoToken,
    }
}

// The name, keyword or number that the bytes of a word are.
fn word_kind(bytes: &[u8]) -> Option<TokenKind>
    requires { 0 < length bytes.now }
    ensures { result ≡ (if is_ascii_digit (byte_at bytes.now 0) then number bytes.now else keyword_or_name bytes.now (place_of keywords bytes.now)) }
{
    if bytes[0].is_ascii_digit() {
        number(bytes)
    } else {
        keyword_or_name(bytes)
    }
}

// A token of a kind and a length, or no token.
fn lexeme(kind: Option<TokenKind>, length: usize) -> Front
    ensures { result ≡ longest_token (or_shorter length kind None) }
{
    match kind {
        Some(kind) => Front::Lexeme(kind, length),
        None => Front::NoToken,
    }
}

// The name, keyword or number at the front.
fn word(text: &[u8]) -> Front
    requires some { 0 < length text.now }
    requires letter { is_word_byte (byte_at text.now 0) ≡ true }
    ensures { result ≡ longest_token (longest text.now (length text.now)) }
{
    let length = word_length(text);
    lexeme(word_kind(&text[..length]), length)
}

// The one byte of punctuation at the front.
fn short_sign(text: &[u8]) -> Front
    requires { 0 < length text.now }
    ensures { result ≡ longest_token (or_shorter 1 (sign (take 1 text.now)) None) }
{
    match sign_number(&text[..1]) {
        Some(number) => Front::Lexeme(TokenKind::Sign(number), 1),
        None => Front::NoToken,
    }
}

// The two bytes of punctuation at the front, or the one byte.
fn longest_sign(text: &[u8]) -> Front
    requires { 0 < length text.now }
    ensures { result ≡ longest_token (or_shorter 2 (if nat_le 2 (length text.now) then sign (take 2 text.now) else None) (or_shorter 1 (sign (take 1 text.now)) None)) }
{
    if text.len() < 2 {
        return short_sign(text);
    }
    match sign_number(&text[..2]) {
        Some(number) => Front::Lexeme(TokenKind::Sign(number), 2),
        None => short_sign(text),
    }
}

// The punctuation at the front.
fn sign(text: &[u8]) -> Front
    requires some { 0 < length text.now }
    requires other { IsOther (byte_at text.now 0) }
    ensures { result ≡ longest_token (longest text.now (length text.now)) }
{
    longest_sign(text)
}

// The character constant that stands for these bytes.
fn character_kind(bytes: &[u8]) -> Option<TokenKind>
    ensures { result ≡ character_by (Some bytes.now) }
{
    match bytes {
        [b] => Some(TokenKind::Char(*b)),
        _ => None,
    }
}

// The character constant at the front.
fn character(alloc: Global, text: &[u8]) -> Result<Front, AllocError>
    requires some { 0 < length text.now }
    requires length { length text.now < 2 ^ 32 }
    requires quote { byte_at text.now 0 ≡ 39 }
    ensures { IfOk result (λ f. f ≡ longest_token (longest text.now (length text.now))) }
{
    match contents(alloc, b'\'', &text[1..])? {
        Some((bytes, length)) => Ok(lexeme(character_kind(bytes.as_slice()), length + 1)),
        None => Ok(Front::NoToken),
    }
}

// The string literal at the front.
fn string(alloc: Global, text: &[u8]) -> Result<Front, AllocError>
    requires some { 0 < length text.now }
    requires length { length text.now < 2 ^ 32 }
    requires quote { byte_at text.now 0 ≡ 34 }
    ensures { IfOk result (λ f. f ≡ longest_token (longest text.now (length text.now))) }
{
    match contents(alloc, b'"', &text[1..])? {
        Some((bytes, length)) => {
            Ok(Front::Lexeme(TokenKind::Text(TextBytes::new(bytes)), length + 1))
        }
        None => Ok(Front::NoToken),
    }
}

// What stands at the front of a text that isn't empty.
fn at_front(alloc: Global, text: &[u8]) -> Result<Front, AllocError>
    requires some { 0 < length text.now }
    requires length { length text.now < 2 ^ 32 }
    ensures { IfOk result (λ f. f ≡ front text.now) }
{
    let first = text[0];
    if is_white_space(first) {
        Ok(Front::Blank(1))
    } else if text.starts_with(b"/*") {
        Ok(comment(&text[2..]))
    } else if text.starts_with(b"//") {
        Ok(Front::Blank(line_length(text)))
    } else if is_word_byte(first) {
        Ok(word(text))
    } else if first == b'\'' {
        character(alloc, text)
    } else if first == b'"' {
        string(alloc, text)
    } else {
        Ok(sign(text))
    }
}

// One step: what stands at the front of the text that is left, at a place; how many bytes it has.
#[tactic(auto, using(crate::proofs::Steps::token_steps))]
fn step(alloc: Global, tokens: &mut TokenList, at: u32, rest: &[u8]) -> Result<usize, LexError>
    requires some { 0 < length rest.now }
    requires length { at + length rest.now ≤ 1048576 }
    ensures { Advances at rest.now tokens.old tokens.new result }
{
    match at_front(alloc, rest)? {
        Front::NoToken => Err(LexError::Byte(at)),
        Front::Blank(length) => Ok(length),
        Front::Lexeme(kind, length) => {
            let end = at + length as u32;
            tokens.push(Token {
                kind,
                start: at,
                end,
            })?;
            Ok(length)
        }
    }
}

// The tokens of a text, one step after another.
#[tactic(auto, using(crate::proofs::Steps::token_steps), unfolding(crate::specs::Lexis::tokens_of))]
fn all_tokens(alloc: Global, text: &[u8]) -> Result<TokenList, LexError>
    requires { length text.now ≤ 1048576 }
    ensures { Gives result (tokens_of text.now) }
{
    let mut tokens = TokenList::new(alloc);
    let mut at = 0;
    while at < text.len() {
        match step(alloc, &mut tokens, at as u32, &text[at..]) {
            Ok(length) => at += length,
            Err(error) => return Err(error),
        }
    }
    Ok(tokens)
}

/// The tokens of a text, or the first place where there is no token (this project's C profile). The
/// text has at most 1 MiB; the time is linear in its length.
pub fn tokens(alloc: Global, text: &[u8]) -> Result<TokenList, LexError>
    requires { length text.now ≤ 1048576 }

    // The definition's answer.
    ensures exact { Gives result (tokens_of text.now) }

    // The tokens ascend, each means its slice, and white space and comments stand between them.
    ensures in_order { IfOk result (λ ts. InOrder text.now 0 ts) }

    // No other list of tokens does, and where there is one it is found.
    ensures only { (ts : List Token) → InOrder text.now 0 ts → Gives result (Ok ts) }

    // Behind the tokens before it, the place has no token.
    ensures first { IfByte result (λ at. (ts : List Token) × StopsAfter text.now 0 ts at) }
{
    all_tokens(alloc, text)
}
