//! The line of a run's end.

ghost use Rattle.std.specs.Prelude.{◌≡◌, ◌++◌, ◌∷◌, [], IfOk, OnOk, slice_get, string_bytes, codes};
ghost use Rattle.std.specs.Fmt.{decimal, signed_decimal};
ghost use Rattle.fx_cmd_base.specs.Hex.{hex};
ghost use Rattle.fx_cmd_run.specs.VerdictLines.{name_in, place_words, stack_name, words_of, line_of};

use crate::verdict::Verdict;
use fx_cmd_base::put_hex;
use fx_image::{Found, Image};
use fx_machine_model::layout::has_halves;
use std::alloc::{AllocError, Global};

/// Adds bytes at the end.
fn put(line: &mut Vec<u8>, bytes: &[u8]) -> Result<(), AllocError>
    ensures { OnOk result (line.new.items ≡ line.old.items ++ bytes.now) }
{
    line.extend_from_slice(bytes)?;
    Ok(())
}

/// Adds a number's decimal digits.
fn put_decimal(line: &mut Vec<u8>, alloc: Global, number: u64) -> Result<(), AllocError>
    ensures { OnOk result (line.new.items ≡ line.old.items ++ decimal number) }
{
    let text = format!(in alloc; "{number}")?;
    put(line, text.as_bytes())
}

/// Adds a signed number's decimal digits.
fn put_signed(line: &mut Vec<u8>, alloc: Global, number: i64) -> Result<(), AllocError>
    ensures { OnOk result (line.new.items ≡ line.old.items ++ signed_decimal number) }
{
    let text = format!(in alloc; "{number}")?;
    put(line, text.as_bytes())
}

/// Adds the name of a compartment, or another word where there is none of that number.
fn put_name(
    line: &mut Vec<u8>,
    image: &Image,
    compartment: u64,
    other: &[u8],
) -> Result<(), AllocError>
    ensures { OnOk result (line.new.items ≡ line.old.items ++ name_in image.now compartment
        other.now) }
{
    match image.compartments.as_slice().get(compartment as usize) {
        Some(comp) => put(line, comp.name.as_slice()),
        None => put(line, other),
    }
}

/// Adds what was denied.
fn put_place(
    line: &mut Vec<u8>,
    alloc: Global,
    image: &Image,
    place: Found,
) -> Result<(), AllocError>
    ensures { OnOk result (line.new.items ≡ line.old.items ++ place_words image.now place) }
{
    match place {
        Found::Object { object, offset } => {
            match image.objects.as_slice().get(object as usize) {
                Some(found) => put(line, found.name.as_slice())?,
                None => put(line, b"none")?,
            }
            put(line, b"+")?;
            put_decimal(line, alloc, offset)
        }
        Found::Stack {
            thread,
            compartment,
            offset,
        } => {
            put(line, b"stack ")?;
            put_decimal(line, alloc, u64::from(thread))?;
            if has_halves(image) {
                put(line, b"/")?;
                put_name(line, image, u64::from(compartment), b"none")?;
            }
            put(line, b"+")?;
            put_decimal(line, alloc, offset)
        }
        Found::Nothing => put(line, b"none"),
    }
}

/// Adds the name of a stack.
fn put_stack(line: &mut Vec<u8>, alloc: Global, image: &Image, stack: u64) -> Result<(), AllocError>
    ensures { OnOk result (line.new.items ≡ line.old.items ++ stack_name image.now stack) }
{
    if !has_halves(image) {
        return put(line, b"common");
    }
    match image.compartments.as_slice().get(stack as usize) {
        Some(comp) => put(line, comp.name.as_slice()),
        None => put_decimal(line, alloc, stack),
    }
}

/// The line of a denied access.
fn denied_line(
    alloc: Global,
    image: &Image,
    domain: u8,
    place: Found,
    write: bool,
) -> Result<Vec<u8>, AllocError>
    ensures { IfOk result (λ v. v.items ≡ words_of image.now (Verdict.Denied domain place write)) }
{
    let mut line = Vec::from_slice(alloc, b"denied: compartment ")?;
    put_name(&mut line, image, u64::from(domain), b"none")?;
    put(&mut line, if write { b" write " } else { b" read " })?;
    put_place(&mut line, alloc, image, place)?;
    Ok(line)
}

/// The line of a full stack.
fn full_line(alloc: Global, image: &Image, thread: u64, stack: u64) -> Result<Vec<u8>, AllocError>
    ensures { IfOk result (λ v. v.items ≡ words_of image.now (Verdict.StackFull thread stack)) }
{
    let mut line = Vec::from_slice(alloc, b"stack full: thread ")?;
    put_decimal(&mut line, alloc, thread)?;
    put(&mut line, b" stack ")?;
    put_stack(&mut line, alloc, image, stack)?;
    Ok(line)
}

/// The line of an end by HLT with 0.
fn exit_line(alloc: Global, value: i64, turns: u64) -> Result<Vec<u8>, AllocError>
    ensures { IfOk result (λ v. v.items ≡
        codes "exit " ++ (signed_decimal value ++ (codes " in " ++
        (decimal turns ++ codes " turns")))) }
{
    let mut line = Vec::from_slice(alloc, b"exit ")?;
    put_signed(&mut line, alloc, value)?;
    put(&mut line, b" in ")?;
    put_decimal(&mut line, alloc, turns)?;
    put(&mut line, b" turns")?;
    Ok(line)
}

/// Some words, and a number behind them.
fn numbered(alloc: Global, words: &[u8], number: u64) -> Result<Vec<u8>, AllocError>
    ensures { IfOk result (λ v. v.items ≡ words.now ++ decimal number) }
{
    let mut line = Vec::from_slice(alloc, words)?;
    put_decimal(&mut line, alloc, number)?;
    Ok(line)
}

/// The line of a refused access that is no denial.
fn page_line(alloc: Global, address: u64) -> Result<Vec<u8>, AllocError>
    ensures { IfOk result (λ v. v.items ≡ codes "broken: page " ++ hex address) }
{
    let mut line = Vec::from_slice(alloc, b"broken: page ")?;
    put_hex(&mut line, address)?;
    Ok(line)
}

impl Verdict {
    /// The words of the line.
    fn words(self, alloc: Global, image: &Image) -> Result<Vec<u8>, AllocError>
        ensures { IfOk result (λ v. v.items ≡ words_of image.now self) }
    {
        match self {
            Verdict::Exited { value, turns } => exit_line(alloc, value, turns),
            Verdict::Denied {
                domain,
                place,
                write,
            } => denied_line(alloc, image, domain, place, write),
            Verdict::StackFull { thread, stack } => full_line(alloc, image, thread, stack),
            Verdict::Divide => Vec::from_slice(alloc, b"divide"),
            Verdict::BadThread => Vec::from_slice(alloc, b"bad thread"),
            Verdict::ThreadsFull => Vec::from_slice(alloc, b"threads full"),
            Verdict::Invalid => Vec::from_slice(alloc, b"broken: invalid"),
            Verdict::Protection => Vec::from_slice(alloc, b"broken: protection"),
            Verdict::Aborted => Vec::from_slice(alloc, b"broken: aborted"),
            Verdict::Page(address) => page_line(alloc, address),
            Verdict::Spent { turns } => numbered(alloc, b"steps spent: ", turns),
            Verdict::DeviceFault(device) => {
                numbered(alloc, b"device fault: ", u64::from(device))
            }
            Verdict::ReadFault => Vec::from_slice(alloc, b"read fault"),
            Verdict::WriteFault => Vec::from_slice(alloc, b"write fault"),
            Verdict::OutOfMemory => Vec::from_slice(alloc, b"out of memory"),
        }
    }

    /// The line of a run's end, ended by a line feed.
    pub fn line(self, alloc: Global, image: &Image) -> Result<Vec<u8>, AllocError>
        ensures { IfOk result (λ v. v.items ≡ line_of image.now self) }
    {
        let mut line = self.words(alloc, image)?;
        put(&mut line, b"\n")?;
        Ok(line)
    }
}
