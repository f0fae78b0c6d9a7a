//! Classes of bytes.

ghost use Rattle.std.specs.Prelude.{◌≡◌};
ghost use Rattle.fx_c_lex.specs.Bytes.{is_white_space, is_word_byte};

/// Whether a byte is a space, tab, carriage return or line feed.
pub fn is_white_space(b: u8) -> bool
    ensures { result ≡ is_white_space b }
{
    b == b' ' || b == b'\t' || b == b'\r' || b == b'\n'
}

/// Whether a byte is a letter, a digit or `_`.
pub fn is_word_byte(b: u8) -> bool
    ensures { result ≡ is_word_byte b }
{
    b.is_ascii_alphabetic() || b == b'_' || b.is_ascii_digit()
}
