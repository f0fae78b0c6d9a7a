//! Sets of compartments as numbers.

ghost use Rattle.std.specs.Prelude.{◌≡◌, ◌<◌, ◌≤◌};
ghost use Rattle.fx_grants.specs.Sets.{has_member, with_member, only, all_of};

/// Whether a compartment is in the set.
pub fn has_member(set: u16, c: u8) -> bool
    requires { c < 16 }
    ensures { result ≡ has_member set c }
{
    (set >> c) & 1 == 1
}

/// The set with one more compartment.
pub fn with_member(set: u16, c: u8) -> u16
    requires { c < 16 }
    ensures { result ≡ with_member set c }
{
    set | (1 << c)
}

/// The set of one compartment.
pub fn only(c: u8) -> u16
    requires { c < 16 }
    ensures { result ≡ only c }
{
    with_member(0, c)
}

/// The set of all of so many compartments.
pub fn all_of(n: usize) -> u16
    requires { n ≤ 16 }
    ensures { result ≡ all_of n }
{
    ((1u32 << n) - 1) as u16
}
