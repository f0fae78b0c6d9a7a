//! Tokens, lists of them, and why a text has none.

ghost use Rattle.std.specs.Prelude.{◌≡◌, ◌++◌, ◌∷◌, [], OnErr, OnOk};
ghost use Rattle.fx_c_lex.specs.declared.token.LexError.TheVariants.{OutOfMemory as no_memory};

use std::alloc::{AllocError, AllocFailed, Global};
use std::marker::Model;

/// The bytes of a string, each escape replaced by its byte, without the final zero byte. A contract
/// sees the list of the bytes.
#[derive(Debug, Drop)]
pub struct TextBytes {
    bytes: Vec<u8>,
}

impl Model for TextBytes {
    ghost use Rattle.std.specs.Prelude.{List, ℕ};

    ghost Value = { List ℕ };

    ghost view = { λ t. t.bytes.items };
}

impl TextBytes {
    /// The text of these bytes.
    pub(crate) fn new(bytes: Vec<u8>) -> TextBytes
        ensures { result ≡ bytes.items }
    {
        TextBytes { bytes }
    }

    /// The bytes, in order.
    pub fn as_slice(&self) -> &[u8]
        ensures { result.now ≡ self.now }
    {
        self.bytes.as_slice()
    }
}

/// What a token is.
#[derive(Debug, Drop)]
pub enum TokenKind {
    /// A name that is no keyword; its bytes are the token's slice of the text.
    Name,

    /// A keyword, by its number in `keyword`.
    Keyword(u8),

    /// A number with its type: `int`, `unsigned int`, `long` or `unsigned long`.
    Number {
        value: u64,
        unsigned: bool,
        long: bool,
    },

    /// A character constant's byte, from 0 to 126.
    Char(u8),

    /// A string literal.
    Text(TextBytes),

    /// Punctuation, by its number in `sign`.
    Sign(u8),
}

/// A token, with the place of its first byte in the text and the place behind its last.
#[derive(Debug, Drop)]
pub struct Token {
    pub kind: TokenKind,
    pub start: u32,
    pub end: u32,
}

/// The tokens of a text, in order. A contract sees the list of the tokens.
#[derive(Debug, Drop)]
pub struct TokenList {
    tokens: Vec<Token>,
}

impl Model for TokenList {
    ghost use Rattle.std.specs.Prelude.{List};
    ghost use Rattle.fx_c_lex.specs.declared.token.Token.{Token};

    ghost Value = { List Token };

    ghost view = { λ t. t.tokens.items };
}

impl TokenList {
    /// No tokens.
    pub(crate) fn new(alloc: Global) -> TokenList
        ensures { result ≡ [] }
    {
        TokenList {
            tokens: Vec::new(alloc),
        }
    }

    /// Adds a token at the end. An `Err` changes nothing.
    pub(crate) fn push(&mut self, token: Token) -> Result<(), AllocError>
        ensures ok { OnOk result (self.new ≡ self.old ++ token ∷ []) }
        ensures err { OnErr result (self.new ≡ self.old) }
    {
        self.tokens.push(token)?;
        Ok(())
    }

    /// The tokens, in order.
    pub fn as_slice(&self) -> &[Token]
        ensures { result.now ≡ self.now }
    {
        self.tokens.as_slice()
    }
}

/// Why a text has no list of tokens.
#[derive(Clone, Copy, Debug, PartialEq, Eq)]
pub enum LexError {
    /// The first place where there is no token.
    Byte(u32),

    /// Memory ran out.
    OutOfMemory,
}

impl From<AllocError> for LexError {
    ghost from_gives = { λ _ e. e ≡ no_memory };

    fn from(_e: AllocError) -> LexError {
        LexError::OutOfMemory
    }
}

impl<T: Drop> From<AllocFailed<T>> for LexError {
    ghost from_gives = { λ _ e. e ≡ no_memory };

    fn from(_e: AllocFailed<T>) -> LexError {
        LexError::OutOfMemory
    }
}
