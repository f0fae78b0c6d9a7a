//! Character constants and string literals.

ghost use Rattle.std.specs.Prelude.{◌≡◌, ◌≤◌, IfOk, IfSome, false, option_map, length};
ghost use Rattle.fx_c_lex.specs.Quoted.{escape, piece};
ghost use Rattle.fx_c_lex.specs.Reading.{contents_at};

use std::alloc::{AllocError, Global};

/// What a byte is between quotes.
#[derive(Clone, Copy, Debug, PartialEq, Eq)]
pub enum Piece {
    /// The closing quote.
    Close,

    /// The backslash that begins an escape.
    Backslash,

    /// A byte of the text.
    Byte(u8),

    /// What may not stand there.
    Bad,
}

// The byte that an escape stands for.
fn escape(b: u8) -> Option<u8>
    ensures { result ≡ escape b }
{
    match b {
        b'n' => Some(b'\n'),
        b't' => Some(b'\t'),
        b'r' => Some(b'\r'),
        b'0' => Some(0),
        b'\\' => Some(b'\\'),
        b'\'' => Some(b'\''),
        b'"' => Some(b'"'),
        _ => None,
    }
}

// What a byte is between quotes, directly behind the backslash of an escape or not.
fn piece_of(quote: u8, escaped: bool, b: u8) -> Piece
    ensures { result ≡ piece quote escaped b }
{
    if escaped {
        return match escape(b) {
            Some(byte) => Piece::Byte(byte),
            None => Piece::Bad,
        };
    }
    if b == quote {
        Piece::Close
    } else if b == b'\\' {
        Piece::Backslash
    } else if 0x20 <= b && b <= 0x7E {
        Piece::Byte(b)
    } else {
        Piece::Bad
    }
}

/// What stands between quotes, where `text` begins behind the opening one: the bytes, and how many
/// bytes of the text they are, the closing quote included.
#[tactic(auto, using(crate::proofs::Contents::piece_steps))]
pub fn contents(
    alloc: Global,
    quote: u8,
    text: &[u8],
) -> Result<Option<(Vec<u8>, usize)>, AllocError>
    ensures found { IfOk result (λ found. option_map (λ f. (f.0.items, f.1)) found ≡ contents_at quote false text.now) }
    ensures within { IfOk result (λ found. IfSome found (λ f. f.1 ≤ length text.now)) }
{
    let mut bytes = Vec::new(alloc);
    let mut escaped = false;
    for (i, b) in text.iter().enumerate() {
        match piece_of(quote, escaped, *b) {
            Piece::Close => return Ok(Some((bytes, i + 1))),
            Piece::Backslash => escaped = true,
            Piece::Byte(byte) => {
                bytes.push(byte)?;
                escaped = false;
            }
            Piece::Bad => return Ok(None),
        }
    }
    Ok(None)
}
