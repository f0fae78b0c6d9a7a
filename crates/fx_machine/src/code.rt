//! The instructions of the code, decoded once. Code is never written, so they stay what its bytes spell.

ghost use Rattle.std.specs.Prelude.{◌≡◌, ◌<◌, ◌≤◌, ℕ, IfOk, length, drop, slice_index_or};
ghost use Rattle.fx_x64_code.specs.Decoded.{decoded};
ghost use Rattle.fx_machine.specs.Lines.{line_from};
ghost use Rattle.fx_machine.specs.declared.code.Line.{Line};

use fx_image::Image;
use fx_x64_code::decode::decode;
use fx_x64_forms::inst::Inst;
use std::alloc::{AllocError, Global};

/// The instruction that begins at a place of the code.
#[derive(Clone, Copy, Debug, PartialEq, Eq)]
pub enum Line {
    /// It has so many bytes.
    Spelled { inst: Inst, length: u8 },
    /// None begins there.
    Unspelled,
}

/// A line for each byte of the code.
#[derive(Drop)]
pub struct Code {
    pub lines: Vec<Line>,
}

/// Bytes from a place on.
fn from(bytes: &[u8], at: usize) -> &[u8]
    requires { at ≤ length bytes.now }
    ensures { result.now ≡ drop at bytes.now }
{
    &bytes[at..]
}

/// The instruction that begins some bytes.
fn line_of(text: &[u8]) -> Line
    ensures { result ≡ line_from (decoded text.now) }
{
    match decode(text) {
        Some((inst, length)) => Line::Spelled {
            inst,
            length: length as u8,
        },
        None => Line::Unspelled,
    }
}

/// The lines of some code.
fn lines_of(alloc: Global, code: &[u8]) -> Result<Vec<Line>, AllocError>
    ensures { IfOk result (λ lines. (k : ℕ) (d : Line) → k < length lines.items → slice_index_or lines.items k d ≡ line_from (decoded (drop k code.now))) }
{
    let mut lines = Vec::new(alloc);
    for at in 0..code.len() {
        lines.push(line_of(from(code, at)))?;
    }
    Ok(lines)
}

impl Code {
    ghost use Rattle.fx_machine.specs.Lines.{IsDecoded};

    /// The instructions of an image's code.
    pub fn decode(alloc: Global, image: &Image) -> Result<Code, AllocError>
        ensures { IfOk result (λ code. IsDecoded image.now code) }
    {
        let lines = lines_of(alloc, image.code.as_slice())?;
        Ok(Code { lines })
    }
}
