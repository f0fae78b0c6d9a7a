//! What lies at an address.

ghost use Rattle.std.specs.Prelude.{◌≡◌, ◌<◌, ◌^◌, length};
ghost use Rattle.fx_image.specs.Rules.{IsImage};
ghost use Rattle.fx_image.specs.Layout.{has_halves, stack_at, object_from, object_at};

use crate::forms::{Image, Obj};

/// Where the low half of stack 0 starts.
const FIRST_STACK: u64 = 0x2000_1000;

/// What has an address.
#[derive(Clone, Copy, Debug, PartialEq, Eq)]
pub enum Found {
    /// An object by its number, and the distance from its start.
    Object {
        object: u32,
        offset: u64,
    },
    /// A stack, and the distance from its low half's start. The compartment is 0 where a thread has
    /// one stack for all compartments.
    Stack {
        thread: u8,
        compartment: u8,
        offset: u64,
    },
    Nothing,
}

/// Whether each compartment has stacks of its own, with a high half: under `full` and `ept`.
fn has_halves(mechanism: u8) -> bool
    ensures { result ≡ has_halves mechanism }
{
    mechanism == 2 || mechanism == 3
}

/// The object whose range has the address, else `other`.
fn object_in(objects: &[Obj], address: u64, other: Found) -> Found
    requires { length objects.now < 2 ^ 32 }
    ensures { result ≡ object_from 0 address objects.now other }
{
    for (number, object) in objects.iter().enumerate() {
        if address >= object.address && address - object.address < u64::from(object.size) {
            return Found::Object {
                object: number as u32,
                offset: address - object.address,
            };
        }
    }
    other
}

/// The stack whose low or high half has the address.
pub(crate) fn stack_of(i: &Image, address: u64) -> Found
    requires { length i.now.compartments < 256 }
    ensures { result ≡ stack_at i.now address }
{
    let halves = has_halves(i.mechanism);
    let bytes = 4096 * u64::from(i.stack_pages);
    let mapped = if halves { 2 * bytes } else { bytes };
    let compartments = i.compartments.len() as u64;
    let stacks = if halves {
        u64::from(i.threads) * compartments
    } else {
        u64::from(i.threads)
    };
    if address < FIRST_STACK {
        return Found::Nothing;
    }
    let number = (address - FIRST_STACK) / (2 * bytes + 0x2000);
    let offset = (address - FIRST_STACK) % (2 * bytes + 0x2000);
    if number >= stacks || offset >= mapped {
        return Found::Nothing;
    }
    if !halves {
        return Found::Stack {
            thread: number as u8,
            compartment: 0,
            offset,
        };
    }
    Found::Stack {
        thread: (number / compartments) as u8,
        compartment: (number % compartments) as u8,
        offset,
    }
}

/// What lies at an address: the object whose range has it, else the stack whose low or high half has
/// it. Takes no memory.
#[tactic(auto, unfolding(crate::specs::Layout::object_at))]
pub fn object_of(i: &Image, address: u64) -> Found
    requires { IsImage i.now }
    ensures { result ≡ object_at i.now address }
{
    let stack = stack_of(i, address);
    object_in(i.objects.as_slice(), address, stack)
}
