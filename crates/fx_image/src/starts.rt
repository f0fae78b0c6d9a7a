//! The rules of the devices' owners and of the starts.

ghost use Rattle.std.specs.Prelude.{◌≡◌, ◌<◌, ◌≤◌, nat_lt, length};
ghost use Rattle.std.specs.List.{list_all};
ghost use Rattle.fx_image.specs.Layout.{is_in_stack};
ghost use Rattle.fx_image.specs.Rules.{are_owners, is_start, are_starts};

use crate::find::{Found, stack_of};
use crate::forms::{Image, Start};

/// Whether each device's owner is one of n compartments.
pub(crate) fn are_owners(n: usize, owners: &[u8]) -> bool
    ensures { result ≡ are_owners n owners.now }
{
    for c in owners {
        if usize::from(*c) >= n {
            return false;
        }
    }
    true
}

/// Whether the address is in a half of a stack that is mapped.
pub(crate) fn is_in_stack(i: &Image, address: u64) -> bool
    requires { length i.now.compartments < 256 }
    ensures { result ≡ is_in_stack i.now address }
{
    match stack_of(i, address) {
        Found::Stack { .. } => true,
        _ => false,
    }
}

/// Whether a start is in the code, on a stack.
fn is_start(i: &Image, s: &Start) -> bool
    requires { length i.now.compartments < 256 }
    ensures { result ≡ is_start i.now s.now }
{
    0x40_0000 <= s.rip
        && ((s.rip - 0x40_0000) as usize) < i.code.len()
        && s.rsp % 16 == 0
        && is_in_stack(i, s.rsp)
}

fn are_all_starts(i: &Image, starts: &[Start]) -> bool
    requires { length i.now.compartments < 256 }
    ensures { result ≡ list_all (is_start i.now) starts.now }
{
    for s in starts {
        if !is_start(i, s) {
            return false;
        }
    }
    true
}

/// Whether each vCPU has a start: a compartment's under `ept`, elsewhere the one.
pub(crate) fn are_starts(i: &Image) -> bool
    requires { length i.now.compartments < 256 }
    ensures { result ≡ are_starts i.now }
{
    let wanted = if i.mechanism == 3 {
        i.compartments.len()
    } else {
        1
    };
    i.starts.len() == wanted && are_all_starts(i, i.starts.as_slice())
}
