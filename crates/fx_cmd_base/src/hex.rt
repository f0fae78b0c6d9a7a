//! Numbers in hexadecimal.

ghost use Rattle.std.specs.Prelude.{◌≡◌, ◌<◌, ◌++◌, OnOk};
ghost use Rattle.fx_cmd_base.specs.Hex.{hex_digit, hex_digits, hex};

use std::alloc::AllocError;

/// The digit of a number below 16, in lower case.
fn hex_digit(digit: u64) -> u8
    requires { digit < 16 }
    ensures { result ≡ hex_digit digit }
{
    if digit < 10 {
        b'0' + digit as u8
    } else {
        b'a' - 10 + digit as u8
    }
}

/// Adds the last digits of a number, so many.
pub fn put_digits(line: &mut Vec<u8>, count: usize, number: u64) -> Result<(), AllocError>
    ensures { OnOk result (line.new.items ≡ line.old.items ++ hex_digits count number) }
{
    if count == 0 {
        return Ok(());
    }
    put_digits(line, count - 1, number / 16)?;
    line.push(hex_digit(number % 16))?;
    Ok(())
}

/// Adds sixteen digits.
#[tactic(auto, unfolding(crate::specs::Hex::hex))]
pub fn put_hex(line: &mut Vec<u8>, number: u64) -> Result<(), AllocError>
    ensures { OnOk result (line.new.items ≡ line.old.items ++ hex number) }
{
    put_digits(line, 16, number)
}
