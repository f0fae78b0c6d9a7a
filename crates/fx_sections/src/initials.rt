//! The initial bytes of globals as an image has them.

ghost use Rattle.std.specs.Prelude.{◌≡◌, length, take};
ghost use Rattle.std.specs.Int.{w64, to_le_bytes};
ghost use Rattle.fx_sections.specs.Initials.{used_bytes, initial_bytes};

use fx_c_ast::parsed::Init;

// How many bytes there are before the zeros at the end.
fn used_count(bytes: &[u8]) -> usize
    ensures { result ≡ length (used_bytes bytes.now) }
{
    let mut count = bytes.len();
    while count > 0 {
        if bytes[count - 1] != 0 {
            return count;
        }
        count -= 1;
    }
    0
}

/// How many initial bytes a global of so many bytes has: a number is cut to its type, and zeros at
/// the end are left out.
pub fn initial_count(size: u64, init: &Init) -> usize
    ensures { result ≡ length (initial_bytes size init.now) }
{
    match init {
        Init::Zero => 0,
        Init::Number(value) => number_count(size, *value),
        Init::Text(bytes) => used_count(bytes.as_slice()),
    }
}

fn number_count(size: u64, value: u64) -> usize
    ensures { result ≡ length (used_bytes (take size (to_le_bytes w64 value))) }
{
    let bytes = value.to_le_bytes();
    if size < 8 {
        used_count(&bytes[..size as usize])
    } else {
        used_count(&bytes)
    }
}
