//! The registers, and addresses made of them.

ghost use Rattle.std.specs.Prelude.{◌≡◌, ◌+◌, ◌%◌, ◌^◌};
ghost use Rattle.fx_cpu.specs.Registers.{reg, with_reg, plus, above, below, address, past, holds};

use fx_vm_pages::entry::Pkru;
use fx_word_ops::flags::Flags;
use fx_x64_forms::operand::{Cond, Mem, Reg};

/// A processor's registers. `gpr` has the general-purpose registers by number.
#[derive(Clone, Copy, Debug, PartialEq, Eq)]
pub struct Regs {
    pub gpr: [u64; 16],
    pub rip: u64,
    pub flags: Flags,
    pub pkru: Pkru,
}

/// The sum of an address and a displacement, which wraps.
#[inline]
#[tactic(auto, unfolding(crate::specs::Registers::plus))]
fn moved(a: u64, displacement: i32) -> u64
    ensures { result ≡ plus a displacement }
{
    a.wrapping_add(i64::from(displacement).cast_unsigned())
}

/// The address 8 bytes above.
#[inline]
#[tactic(auto, unfolding(crate::specs::Registers::above))]
pub fn up(a: u64) -> u64
    ensures { result ≡ above a }
{
    a.wrapping_add(8)
}

/// The address 8 bytes below.
#[inline]
#[tactic(auto, unfolding(crate::specs::Registers::below))]
pub fn down(a: u64) -> u64
    ensures { result ≡ below a }
{
    a.wrapping_sub(8)
}

impl Regs {
    /// A register's value.
    #[inline]
    pub fn get(&self, q: Reg) -> u64
        ensures { result ≡ reg self.now q }
    {
        self.gpr[usize::from(q.number())]
    }

    /// Sets a register.
    #[inline]
    pub fn set(&mut self, q: Reg, value: u64)
        ensures { self.new ≡ with_reg self.old q value }
    {
        self.gpr[usize::from(q.number())] = value;
    }

    /// The address of a memory operand.
    #[inline]
    pub fn address(&self, m: Mem) -> u64
        ensures { result ≡ address self.now m }
    {
        moved(self.get(m.base), m.disp)
    }

    /// Moves RIP by a displacement.
    #[inline]
    pub fn jump(&mut self, rel: i32)
        ensures { self.new ≡ record self.old { rip = plus self.old.rip rel } }
    {
        self.rip = moved(self.rip, rel);
    }
}

/// Whether a condition holds of the flags (SDM volume 1, appendix B).
#[inline]
pub fn is_held(cond: Cond, flags: Flags) -> bool
    ensures { result ≡ holds cond flags }
{
    match cond {
        Cond::O => flags.of,
        Cond::No => !flags.of,
        Cond::B => flags.cf,
        Cond::Ae => !flags.cf,
        Cond::E => flags.zf,
        Cond::Ne => !flags.zf,
        Cond::Be => flags.cf | flags.zf,
        Cond::A => !(flags.cf | flags.zf),
        Cond::S => flags.sf,
        Cond::Ns => !flags.sf,
        Cond::L => flags.sf != flags.of,
        Cond::Ge => flags.sf == flags.of,
        Cond::Le => flags.zf | (flags.sf != flags.of),
        Cond::G => !flags.zf & (flags.sf == flags.of),
    }
}
