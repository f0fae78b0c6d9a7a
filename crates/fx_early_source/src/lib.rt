//! Reads a source of constant output: `void main ( ) { {__putc ( NUMBER ) ;} [return ;] }`, with white space
//! before, between and behind the tokens. The language is this project's own, a part of C.
#![tactic(auto)]

ghost use Rattle.std.specs.Prelude.{◌≡◌, ◌<◌, ℕ, ◌-◌, ◌+◌, ◌≤◌, List, Some, None, IfOk, IsErrOf, IsOk, length, take, drop, slice_index, EachIndex};
ghost use Rattle.std.specs.Option.{option_copied, option_map};
ghost use Rattle.fx_early_source.specs.Grammar.{IsProgram, is_space};
ghost use Rattle.fx_early_source.specs.Reading.{after, skip, digits, value, number, argument, puts, ending, opening, reading, is_spaced, is_digit, Reads};

use std::alloc::{AllocError, AllocFailed, Global};

/// The most constants that a program puts.
const MOST: usize = 1000;

/// Why a source wasn't read.
#[derive(Clone, Copy, Debug, PartialEq, Eq)]
pub enum SourceError {
    /// The text isn't of the form.
    Form,
    /// Memory ran out.
    OutOfMemory,
}

impl<T: Drop> From<AllocFailed<T>> for SourceError {
    ghost use Rattle.std.specs.Prelude.{◌≡◌};
    ghost use Rattle.fx_early_source.specs.declared.SourceError.TheVariants.{OutOfMemory};

    ghost from_gives = { λ _ e. e ≡ OutOfMemory };

    fn from(_error: AllocFailed<T>) -> SourceError {
        SourceError::OutOfMemory
    }
}

/// White space: space, tab, line feed and carriage return.
fn is_space(byte: u8) -> bool
    ensures { result ≡ is_space byte }
{
    byte == b' ' || byte == b'\t' || byte == b'\n' || byte == b'\r'
}

fn is_digit(byte: u8) -> bool
    ensures { result ≡ is_digit byte }
{
    b'0' <= byte && byte <= b'9'
}

/// The text from its first byte on that is no white space.
fn skip(text: &[u8]) -> &[u8]
    ensures { result.now ≡ skip text.now }
{
    let mut at = 0;
    while at < text.len() && is_space(text[at]) {
        at += 1;
    }
    &text[at..]
}

/// What stands behind a token, if the text begins with it.
fn after<'a>(text: &'a [u8], token: &[u8]) -> Option<&'a [u8]>
    ensures { option_copied result ≡ after token.now text.now }
{
    skip(text).strip_prefix(token)
}

/// How many digits stand at the front.
fn digit_count(text: &[u8]) -> usize
    ensures within { result ≤ length text.now }
    ensures digits { (take result text.now, drop result text.now) ≡ digits text.now }
{
    let mut count = 0;
    while count < text.len() && is_digit(text[count]) {
        count += 1;
    }
    count
}

/// The number of a byte that digits write in their one form.
#[tactic(auto, unfolding(crate::specs::Reading::value))]
fn value(digits: &[u8]) -> Option<u8>
    requires { EachIndex digits.now (λ i. (48 ≤ slice_index digits.now i) × (slice_index digits.now i < 58)) }
    ensures { result ≡ value digits.now }
{
    if digits.len() == 1 {
        return Some(digits[0] - b'0');
    }
    if digits.is_empty() || digits.len() > 3 || digits[0] == b'0' {
        return None;
    }
    if digits.len() == 2 {
        return Some((digits[0] - b'0') * 10 + (digits[1] - b'0'));
    }
    let hundreds = u16::from(digits[0] - b'0') * 100;
    let rest = (digits[1] - b'0') * 10 + (digits[2] - b'0');
    let number = hundreds + u16::from(rest);
    if number < 256 {
        Some(number as u8)
    } else {
        None
    }
}

/// The number at the front, and what stands behind it.
#[tactic(auto, unfolding(crate::specs::Reading::number))]
fn number(text: &[u8]) -> Option<(u8, &[u8])>
    ensures { option_map (λ found. (found.0, found.1.now)) result ≡ number text.now }
{
    let text = skip(text);
    let (digits, rest) = text.split_at(digit_count(text));
    let number = value(digits)?;
    Some((number, rest))
}

/// The constant of a statement behind its `__putc`, and what stands behind the statement.
#[tactic(auto, unfolding(crate::specs::Reading::argument))]
fn argument(text: &[u8]) -> Option<(u8, &[u8])>
    ensures { option_map (λ found. (found.0, found.1.now)) result ≡ argument text.now }
{
    let (constant, rest) = number(after(text, b"(")?)?;
    let rest = after(after(rest, b")")?, b";")?;
    Some((constant, rest))
}

/// The statements at the front, at most `MOST` of them: their constants, in order, and what stands behind.
fn puts(alloc: Global, text: &[u8]) -> Result<(Vec<u8>, &[u8]), SourceError>
    ensures { Reads (λ found. (found.0.items, found.1.now)) result (puts MOST text.now) }
{
    let mut constants = Vec::new(alloc);
    let mut rest = text;
    while constants.len() < MOST {
        let Some(inside) = after(rest, b"__putc") else {
            return Ok((constants, rest));
        };
        let Some((constant, behind)) = argument(inside) else {
            return Err(SourceError::Form);
        };
        constants.push(constant)?;
        rest = behind;
    }
    Ok((constants, rest))
}

/// What stands behind the end of `main`.
#[tactic(auto, unfolding(crate::specs::Reading::ending))]
fn ending(text: &[u8]) -> Option<&[u8]>
    ensures { option_copied result ≡ ending text.now }
{
    match after(text, b"return") {
        Some(rest) => after(after(rest, b";")?, b"}"),
        None => after(text, b"}"),
    }
}

/// Whether white space comes next.
fn is_spaced(text: &[u8]) -> bool
    ensures { result ≡ is_spaced text.now }
{
    !text.is_empty() && is_space(text[0])
}

/// What stands behind the brace that opens `main`.
#[tactic(auto, unfolding(crate::specs::Reading::opening))]
fn opening(text: &[u8]) -> Option<&[u8]>
    ensures { option_copied result ≡ opening text.now }
{
    let gap = after(text, b"void")?;
    if !is_spaced(gap) {
        return None;
    }
    after(after(after(after(gap, b"main")?, b"(")?, b")")?, b"{")
}

/// The constants of the program that the text is, read once from its front to its end.
#[tactic(auto, unfolding(crate::specs::Reading::reading))]
fn program(alloc: Global, text: &[u8]) -> Result<Vec<u8>, SourceError>
    ensures { Reads (λ v. v.items) result (reading MOST text.now) }
{
    let inside = opening(text).ok_or(SourceError::Form)?;
    let (constants, rest) = puts(alloc, inside)?;
    let behind = ending(rest).ok_or(SourceError::Form)?;
    if !skip(behind).is_empty() {
        return Err(SourceError::Form);
    }
    Ok(constants)
}

/// The constants that the program puts, in order, each a byte: those of
/// `void main ( ) { {__putc ( NUMBER ) ;} [return ;] }`. At most 1,000 statements may stand in it, NUMBER is
/// decimal, from 0 to 255, without suffix and without a leading zero. The time is linear in the text.
pub fn read(alloc: Global, text: &[u8]) -> Result<Vec<u8>, SourceError>
    ensures read { IfOk result (λ v. IsProgram text.now v.items) }
    // A text is refused only where it is no such program.
    ensures refused { IsErrOf result SourceError.Form → (constants : List ℕ) → IsProgram text.now constants → ⊥ }
{
    program(alloc, text)
}

/// A law: a text is a program of at most one list of constants.
pub fn one_reading()
    ensures { (text a b : List ℕ) → IsProgram text a → IsProgram text b → a ≡ b }
{}
