//! Where the stacks of an image lie.

ghost use Rattle.std.specs.Prelude.{◌≡◌, ◌<◌, ◌≤◌, length};
ghost use Rattle.fx_shadow.specs.Stacks.{has_halves, stack_of};

use fx_config::{Config, Mechanism};

/// Bytes in a row.
#[derive(Clone, Copy, Debug, PartialEq, Eq)]
pub struct Range {
    /// The address of the first byte.
    pub low: u64,
    /// How many bytes.
    pub size: u64,
}

/// The low half of the stack on which a compartment runs in a thread, or the thread's one stack
/// where stacks have no halves. A high half lies directly above, of the same size (this project's
/// own layout).
pub fn stack(c: &Config, thread: u8, compartment: u8) -> Range
    requires thread { thread < 16 }
    requires compartment { compartment < length c.now.compartments }
    requires few { length c.now.compartments ≤ 16 }
    ensures { result ≡ stack_of c.now thread compartment }
{
    let size = 4096 * u64::from(c.stack_pages);
    let number = if has_halves(c.mechanism) {
        u64::from(thread) * c.compartments.as_slice().len() as u64 + u64::from(compartment)
    } else {
        u64::from(thread)
    };
    Range {
        low: 0x2000_1000 + number * (2 * size + 0x2000),
        size,
    }
}

/// Whether each compartment has stacks of its own, each with a high half that all may use.
pub fn has_halves(mechanism: Mechanism) -> bool
    ensures { result ≡ has_halves mechanism }
{
    match mechanism {
        Mechanism::Call | Mechanism::Light => false,
        Mechanism::Full | Mechanism::Ept => true,
    }
}
