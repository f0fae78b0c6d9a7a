//! Keywords, names and punctuation.

ghost use Rattle.std.specs.Prelude.{◌≡◌, ◌<◌, map, length};
ghost use Rattle.fx_c_lex.specs.Words.{place_of, keywords, signs, keyword_or_name};

use crate::token::TokenKind;

static KEYWORDS: [&[u8]; 26] = [
    b"char",
    b"short",
    b"int",
    b"long",
    b"unsigned",
    b"void",
    b"struct",
    b"if",
    b"else",
    b"while",
    b"for",
    b"break",
    b"continue",
    b"return",
    b"sizeof",
    b"__shared",
    b"__entry",
    b"__gate",
    b"__putc",
    b"__getc",
    b"__in",
    b"__out",
    b"__spawn",
    b"__switch",
    b"__self",
    b"__read",
];

static SIGNS: [&[u8]; 31] = [
    b"(", b")", b"{", b"}", b"[", b"]", b";", b",", b".", b"->", b"=", b"==", b"!=", b"<", b">",
    b"<=", b">=", b"<<", b">>", b"+", b"-", b"*", b"/", b"%", b"&", b"|", b"^", b"~", b"!", b"&&",
    b"||",
];

const MAX_NAME: usize = 63;

// The place of a spelling in a list of spellings.
#[tactic(auto, using(crate::proofs::Prefixes::prefix_steps))]
fn place_of(spellings: &[&[u8]], bytes: &[u8]) -> Option<u8>
    requires { length spellings.now < 256 }
    ensures { result ≡ place_of (map (λ s. s.now) spellings.now) bytes.now }
{
    for (i, spelling) in spellings.iter().enumerate() {
        if *spelling == bytes {
            return Some(i as u8);
        }
    }
    None
}

/// The keyword or name that a word is; none where a name is too long.
pub fn keyword_or_name(bytes: &[u8]) -> Option<TokenKind>
    ensures { result ≡ keyword_or_name bytes.now (place_of keywords bytes.now) }
{
    match place_of(&KEYWORDS, bytes) {
        Some(number) => Some(TokenKind::Keyword(number)),
        None if bytes.len() <= MAX_NAME => Some(TokenKind::Name),
        None => None,
    }
}

/// The number of the punctuation that these bytes, all of them, are.
pub fn sign_number(bytes: &[u8]) -> Option<u8>
    ensures { result ≡ place_of signs bytes.now }
{
    place_of(&SIGNS, bytes)
}
