//! Bytes as hexadecimal digits.

ghost use Rattle.std.specs.Prelude.{IsTrue};
ghost use Rattle.fx_x64_code.specs.Spelling.{has_row};

use fx_x64_code::encode::encode;
use fx_x64_forms::inst::Inst;
use std::alloc::{AllocError, Global};

/// The bytes of a line, up to the first word that is no byte.
pub fn bytes_of(alloc: Global, line: &str) -> Result<Vec<u8>, AllocError> {
    let mut bytes = Vec::new(alloc);
    for word in line.split_whitespace() {
        match u8::from_str_radix(word, 16) {
            Ok(byte) => bytes.push(byte)?,
            Err(_) => break,
        }
    }
    Ok(bytes)
}

/// The spelling of an instruction, a space before each byte.
pub fn spelling_text(alloc: Global, inst: &Inst) -> Result<String, AllocError>
    requires { IsTrue (has_row inst.now) }
{
    let mut bytes = Vec::new(alloc);
    encode(alloc, inst, &mut bytes)?;
    let mut text = String::new(alloc);
    for byte in &bytes {
        let digits = format!(in alloc; " {byte:02x}")?;
        text.push_str(digits.as_str())?;
    }
    Ok(text)
}
