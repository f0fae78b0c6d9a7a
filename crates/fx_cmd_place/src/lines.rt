//! One line of the table.

ghost use Rattle.std.specs.Prelude.{◌≡◌, ◌++◌, OnOk, IfOk, string_bytes};
ghost use Rattle.fx_cmd_place.specs.Table.{numbers_text, line};

use fx_cmd_base::put_hex;
use std::alloc::{AllocError, Global};

fn key_and_size(alloc: Global, key: u8, size: u64) -> Result<String, AllocError>
    ensures { IfOk result (λ t. string_bytes t ≡ numbers_text key size) }
{
    format!(in alloc; " {key} {size} ")
}

/// Appends a line: the address in 16 hexadecimal digits, the key, the size and the name.
pub fn put_line(
    alloc: Global,
    out: &mut Vec<u8>,
    address: u64,
    key: u8,
    size: u64,
    before: &[u8],
    name: &[u8],
) -> Result<(), AllocError>
    ensures { OnOk result (out.new.items ≡ out.old.items ++ line address key size
        (before.now ++ name.now)) }
{
    put_hex(out, address)?;
    let numbers = key_and_size(alloc, key, size)?;
    out.extend_from_slice(numbers.as_bytes())?;
    out.extend_from_slice(before)?;
    out.extend_from_slice(name)?;
    out.push(b'\n')?;
    Ok(())
}
