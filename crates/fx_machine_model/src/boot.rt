//! What memory holds at boot.

ghost use Rattle.std.specs.Prelude.{◌≡◌, ◌<◌};
ghost use Rattle.fx_image.specs.Rules.{IsImage};
ghost use Rattle.fx_cpu.specs.Memory.{byte_of};
ghost use Rattle.fx_machine_model.specs.Boot.{byte_from, covers, object_byte, idle_byte, boot_byte};

use crate::layout::{stack_count, stack_span};
use fx_image::{Image, Obj};

/// The byte at an address, of bytes that begin at `start`.
#[inline]
pub fn byte_from(bytes: &[u8], start: u64, address: u64) -> Option<u8>
    ensures { result ≡ byte_from bytes.now start address }
{
    if address < start {
        return None;
    }
    bytes.get((address - start) as usize).copied()
}

/// Whether an object has an initial byte at an address.
#[inline]
fn covers(object: &Obj, address: u64) -> bool
    ensures { result ≡ covers object.now address }
{
    object.address <= address && address - object.address < object.initial.len() as u64
}

/// The byte of the first object that has an initial byte at an address.
fn object_byte(objects: &[Obj], address: u64) -> Option<u8>
    ensures { result ≡ object_byte objects.now address }
{
    for object in objects {
        if covers(object, address) {
            return byte_from(object.initial.as_slice(), object.address, address);
        }
    }
    None
}

/// Byte i of a number, from the lowest.
#[inline]
#[tactic(auto, using(crate::proofs::Bytes::low_byte))]
pub fn byte_of(value: u64, i: u64) -> u8
    requires { i < 8 }
    ensures { result ≡ byte_of value i }
{
    value.to_le_bytes()[i as usize]
}

/// The byte of an idle stack's word, which holds the abort stub's address.
fn idle_byte(image: &Image, address: u64) -> Option<u8>
    requires { IsImage image.now }
    ensures { result ≡ idle_byte image.now address }
{
    if address < 0x2000_1000 {
        return None;
    }
    let at = address - 0x2000_1000;
    let span = stack_span(image);
    let place = at % span;
    let pages = image.stack_pages;
    let idle = (4096 * u64::from(pages)).saturating_sub(32);
    if at / span < stack_count(image) && idle <= place && place < idle + 8 {
        let abort = image.abort;
        Some(byte_of(0x40_0000 + u64::from(abort), place - idle))
    } else {
        None
    }
}

/// The byte at an address at boot.
#[tactic(auto, unfolding(crate::specs::Boot::boot_byte))]
pub fn boot_byte(image: &Image, address: u64) -> u8
    requires { IsImage image.now }
    ensures { result ≡ boot_byte image.now address }
{
    if let Some(byte) = byte_from(image.code.as_slice(), 0x40_0000, address) {
        return byte;
    }
    if let Some(byte) = byte_from(image.literals.as_slice(), 0x60_0000, address) {
        return byte;
    }
    if let Some(byte) = object_byte(image.objects.as_slice(), address) {
        return byte;
    }
    idle_byte(image, address).unwrap_or(0)
}
