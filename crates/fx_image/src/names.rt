//! Names in an image.

ghost use Rattle.std.specs.Prelude.{◌≡◌, ◌==◌, ◌||◌, length};
ghost use Rattle.std.specs.Char.{is_ascii_alphanumeric};
ghost use Rattle.std.specs.List.{list_all};
ghost use Rattle.fx_image.specs.Rules.{is_c_name, is_object_name};

/// Whether each is a letter, a digit or an underscore.
fn are_name_bytes(bytes: &[u8]) -> bool
    ensures { result ≡ list_all (λ d. is_ascii_alphanumeric d || d == 95) bytes.now }
{
    for b in bytes {
        if !(b.is_ascii_alphanumeric() || *b == b'_') {
            return false;
        }
    }
    true
}

/// Whether the bytes are a C name by their shape, of 63 bytes at most (C11 6.4.2.1; keywords too).
pub(crate) fn is_c_name(name: &[u8]) -> bool
    ensures { result ≡ is_c_name name.now }
{
    match name {
        [] => false,
        [first, rest @ ..] => {
            (first.is_ascii_alphabetic() || *first == b'_')
                && are_name_bytes(rest)
                && rest.len() <= 62
        }
    }
}

/// Whether the bytes are an object's name: a C name, or `.rt.` and a C name.
pub(crate) fn is_object_name(name: &[u8]) -> bool
    ensures { result ≡ is_object_name name.now }
{
    is_c_name(name) || (name.starts_with(b".rt.") && is_c_name(&name[4..]))
}
