//! WRPKRU's bytes in the code, and the places where stubs list them.

ghost use Rattle.std.specs.Prelude.{◌≡◌, ℕ, ◌<◌, ◌^◌, ◌==◌, ◌||◌, ◌&&◌, not, false, length, slice_index_or, IfOk};
ghost use Rattle.fx_image.specs.Rules.{is_key_sequence, is_listed, first_unlisted};

use crate::forms::Stub;
use crate::gates::is_key_sequence;
use std::alloc::{AllocError, Global};

/// Sets the mark of a place, if it is one.
fn mark(marks: &mut [bool], at: u32)
    ensures { (k : ℕ) → k < length marks.old → slice_index_or marks.new k false ≡ (slice_index_or marks.old k false || at == k) }
{
    if (at as usize) < marks.len() {
        marks[at as usize] = true;
    }
}

/// For each place in code of this length whether a stub lists it.
fn listed(alloc: Global, len: usize, stubs: &[Stub]) -> Result<Vec<bool>, AllocError>
    ensures len { IfOk result (λ v. length v.items ≡ len) }
    ensures marks { IfOk result (λ v. (k : ℕ) → k < len → slice_index_or v.items k false ≡ is_listed stubs.now k) }
{
    let mut marks = vec![in alloc; false; len]?;
    for s in stubs {
        mark(&mut marks, s.first);
        mark(&mut marks, s.second);
    }
    Ok(marks)
}

/// Whether WRPKRU stands at the place, which has no mark.
fn is_unlisted(code: &[u8], marks: &[bool], at: usize) -> bool
    requires { at < length marks.now }
    ensures { result ≡ (is_key_sequence code.now at && not (slice_index_or marks.now at false)) }
{
    is_key_sequence(code, at) && !marks[at]
}

/// The first place in the code where WRPKRU stands and no stub lists it. Takes memory in proportion
/// to the code.
pub fn first_unlisted(alloc: Global, stubs: &[Stub], code: &[u8]) -> Result<Option<u32>, AllocError>
    requires { length code.now < 2 ^ 32 }
    ensures { IfOk result (λ r. r ≡ first_unlisted stubs.now code.now) }
{
    let marks = listed(alloc, code.len(), stubs)?;
    for at in 0..code.len() {
        let here = is_unlisted(code, marks.as_slice(), at);
        if here {
            return Ok(Some(at as u32));
        }
    }
    Ok(None)
}
