//! The bytes at boot of the regions of memory: what stands at an address where several things would is
//! put last.

ghost use Rattle.std.specs.Prelude.{◌≡◌, ◌+◌, ◌-◌, ◌<◌, ◌≤◌, ◌^◌, ℕ, ◌&&◌, nat_le, nat_lt, if◌then◌else◌, IfOk, length, slice_index};
ghost use Rattle.fx_image.specs.Rules.{IsImage};
ghost use Rattle.fx_machine_model.specs.Boot.{boot_byte, byte_from, object_byte, idle_byte};
ghost use Rattle.fx_machine.specs.Filling.{over};

use fx_image::{Image, Obj};
use fx_machine_model::layout::{stack_count, stack_span};
use std::alloc::{AllocError, Global};

/// Where the code begins.
const CODE: u64 = 0x40_0000;

/// Where the literals begin.
const LITERALS: u64 = 0x60_0000;

/// Where the low half of the first stack begins.
const STACKS: u64 = 0x2000_1000;

/// Copies some bytes to a place, as far as there is room.
fn copy_to(bytes: &mut [u8], at: usize, text: &[u8])
    ensures { (k : ℕ) → k < length bytes.old → slice_index bytes.new k ≡ (if nat_le at k && nat_lt (k - at) (length text.now) then slice_index text.now (k - at) else slice_index bytes.old k) }
{
    let room = bytes.len().saturating_sub(at);
    for i in 0..text.len().min(room) {
        bytes[at + i] = text[i];
    }
}

/// Copies what a region that begins at `start` has of the bytes that begin at an address.
fn put(bytes: &mut [u8], start: u64, address: u64, text: &[u8])
    ensures { (k : ℕ) → k < length bytes.old → slice_index bytes.new k ≡ over (byte_from text.now address) start bytes.old k }
{
    if start <= address {
        copy_to(bytes, (address - start) as usize, text);
    } else if start - address < text.len() as u64 {
        copy_to(bytes, 0, &text[(start - address) as usize..]);
    }
}

/// Puts the objects' initial values into a region, the first one last.
fn put_objects(bytes: &mut [u8], start: u64, objects: &[Obj])
    ensures { (k : ℕ) → k < length bytes.old → slice_index bytes.new k ≡ over (object_byte objects.now) start bytes.old k }
{
    for i in (0..objects.len()).rev() {
        let object = &objects[i];
        put(bytes, start, object.address, object.initial.as_slice());
    }
}

/// Puts the words that idle stacks return to into a region.
fn put_idle_words(bytes: &mut [u8], start: u64, image: &Image)
    requires { IsImage image.now }
    ensures { (k : ℕ) → k < length bytes.old → slice_index bytes.new k ≡ over (idle_byte image.now) start bytes.old k }
{
    let pages = image.stack_pages;
    let abort = image.abort;
    let first = STACKS + (4096 * u64::from(pages) - 32);
    let word = (CODE + u64::from(abort)).to_le_bytes();
    for stack in 0..stack_count(image) {
        put(bytes, start, first + stack * stack_span(image), &word);
    }
}

/// Puts into the zeros of a region what it has at boot.
fn fill(bytes: &mut [u8], start: u64, image: &Image)
    requires image { IsImage image.now }
    requires zeros { (k : ℕ) → k < length bytes.old → slice_index bytes.old k ≡ 0 }
    ensures { (k : ℕ) → k < length bytes.old → slice_index bytes.new k ≡ boot_byte image.now (start + k) }
{
    put_idle_words(bytes, start, image);
    put_objects(bytes, start, image.objects.as_slice());
    put(bytes, start, LITERALS, image.literals.as_slice());
    put(bytes, start, CODE, image.code.as_slice());
}

/// The bytes at boot of a region.
pub fn region(alloc: Global, image: &Image, start: u64, size: u64) -> Result<Vec<u8>, AllocError>
    requires { IsImage image.now }
    ensures size { IfOk result (λ v. length v.items ≡ size) }
    ensures bytes { IfOk result (λ v. (k : ℕ) → k < size → slice_index v.items k ≡ boot_byte image.now (start + k)) }
{
    let mut bytes = vec![in alloc; 0; size as usize]?;
    fill(&mut bytes, start, image);
    Ok(bytes)
}
