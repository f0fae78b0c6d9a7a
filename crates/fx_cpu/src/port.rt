//! What a processor sees of memory and devices.

use crate::trap::PortStop;
use fx_vm_pages::access::Access;
use fx_vm_pages::entry::Pkru;
use fx_x64_forms::operand::Width;

/// An access: what is done, with how many bytes, and where.
#[derive(Clone, Copy, Debug, PartialEq, Eq)]
pub struct Place {
    pub access: Access,
    pub width: Width,
    pub address: u64,
}

/// Memory and devices, as a processor sees them. Its meaning is a `World`: which accesses it refuses,
/// which are operations on which device, which loads wait for an answer, its bytes, a count of faults
/// for each device, and the accesses that it carried out.
pub trait Port {
    ghost use Rattle.fx_cpu.specs.World.{World, Loaded, Stored, Fetched};

    /// What it holds.
    ghost world: { Self → World };

    /// Loads a word, its lowest byte first.
    fn load(&mut self, p: Pkru, address: u64, w: Width) -> Result<u64, PortStop>
        ensures loaded { Loaded (world self.old) p w address result (world self.new) };

    /// Stores a value's low bytes, the lowest first.
    fn store(&mut self, p: Pkru, address: u64, w: Width, value: u64) -> Result<(), PortStop>
        ensures stored { Stored (world self.old) p w address value result (world self.new) };

    /// Fetches a byte of an instruction. It never answers `Outside`.
    fn fetch(&mut self, address: u64) -> Result<u8, PortStop>
        ensures fetched { Fetched (world self.old) address result (world self.new) };
}
