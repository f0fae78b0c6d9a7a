//! The simplest port: memory from address 0 up, without pages, keys and devices.

ghost use Rattle.std.specs.Prelude.{◌≡◌, ℕ, ◌+◌, ◌<◌, ◌≤◌, ◌^◌, [], length, slice_index};
ghost use Rattle.fx_x64_forms.specs.Numbers.{width_bytes};
ghost use Rattle.fx_cpu.specs.Memory.{word_at, stored};
ghost use Rattle.fx_word_ops.specs.Words.{size};
ghost use Rattle.fx_cpu.specs.Flat.{bytes_of, written, checked};

use crate::port::{Place, Port};
use crate::trap::PortStop;
use fx_vm_pages::access::{Access, Refusal};
use fx_vm_pages::entry::Pkru;
use fx_x64_forms::operand::Width;
use http_server::Log;

/// Memory from address 0 up to its length, where every access is permitted. All above is unmapped.
#[derive(Drop)]
pub struct Flat {
    bytes: Vec<u8>,
    log: Log<Place, u64>,
}

/// The word at an index, its lowest byte first.
#[tactic(auto, unfolding(crate::specs::Memory::word_at))]
fn read(s: &[u8], w: Width, at: usize) -> u64
    requires { at + width_bytes w ≤ length s.now }
    ensures value { result ≡ word_at (bytes_of s.now) w at }
    ensures small { result < size w }
{
    match w {
        Width::W8 => u64::from(s[at]),
        Width::W16 => u64::from(u16::from_le_bytes([s[at], s[at + 1]])),
        Width::W32 => u64::from(u32::from_le_bytes([s[at], s[at + 1], s[at + 2], s[at + 3]])),
        Width::W64 => u64::from_le_bytes([
            s[at],
            s[at + 1],
            s[at + 2],
            s[at + 3],
            s[at + 4],
            s[at + 5],
            s[at + 6],
            s[at + 7],
        ]),
    }
}

/// Writes the low `n` bytes of a number at an index, the lowest first.
fn write(s: &mut [u8], n: usize, at: usize, v: u64)
    requires small { n < 9 }
    requires room { at + n ≤ length s.old }
    ensures { (k : ℕ) → slice_index s.new k ≡ written (bytes_of s.old) n at v k }
{
    let mut rest = v;
    for i in 0..n {
        s[at + i] = (rest & 0xff) as u8;
        rest >>= 8;
    }
}

fn put_bytes(bytes: &mut Vec<u8>, w: Width, at: usize, v: u64)
    requires { at + width_bytes w ≤ length bytes.old.items }
    ensures bytes { bytes_of bytes.new.items ≡ written (bytes_of bytes.old.items) (width_bytes w) at v }
    ensures len { length bytes.new.items ≡ length bytes.old.items }
{
    write(bytes, usize::from(w.bytes()), at, v);
}

/// Stores the low bytes of a number at an index.
fn put(bytes: &mut Vec<u8>, w: Width, at: usize, v: u64)
    requires room { at + width_bytes w ≤ length bytes.old.items }
    requires small { at + width_bytes w ≤ 2 ^ 64 }
    ensures bytes { bytes_of bytes.new.items ≡ stored (bytes_of bytes.old.items) w at v }
    ensures len { length bytes.new.items ≡ length bytes.old.items }
{
    put_bytes(bytes, w, at, v);
}

impl Flat {
    /// Memory that holds these bytes from address 0 up.
    pub fn new(bytes: Vec<u8>) -> Flat
        ensures bytes { result.bytes.items ≡ bytes.items }
        ensures log { result.log.items ≡ [] }
    {
        Flat {
            bytes,
            log: Log::new(),
        }
    }

    /// The bytes from address 0 up.
    pub fn bytes(&self) -> &[u8]
        ensures { result.now ≡ self.now.bytes.items }
    {
        self.bytes.as_slice()
    }

    /// Whether an access lies in memory; else the first byte beyond it is unmapped.
    #[inline]
    fn check(&self, address: u64, w: Width) -> Result<(), PortStop>
        ensures { result ≡ checked (length self.now.bytes.items) address w }
    {
        let size = self.bytes.len() as u64;
        let n = u64::from(w.bytes());
        if n <= size && address <= size - n {
            Ok(())
        } else {
            Err(PortStop::Refused {
                address: address.max(size),
                refusal: Refusal::Unmapped,
            })
        }
    }
}

impl Port for Flat {
    ghost use Rattle.fx_cpu.specs.Flat.{flat_world};

    ghost world = { λ f. flat_world f.bytes.items f.log.items };

    #[inline]
    fn load(&mut self, p: Pkru, address: u64, w: Width) -> Result<u64, PortStop> {
        self.check(address, w)?;
        let v = read(&self.bytes, w, address as usize);
        self.log = self.log.and(
            &Place {
                access: Access::Read,
                width: w,
                address,
            },
            &v,
        );
        Ok(v)
    }

    #[inline]
    fn store(&mut self, p: Pkru, address: u64, w: Width, value: u64) -> Result<(), PortStop> {
        self.check(address, w)?;
        put(&mut self.bytes, w, address as usize, value);
        self.log = self.log.and(
            &Place {
                access: Access::Write,
                width: w,
                address,
            },
            &value,
        );
        Ok(())
    }

    #[inline]
    fn fetch(&mut self, address: u64) -> Result<u8, PortStop> {
        self.check(address, Width::W8)?;
        let v = self.bytes[address as usize];
        self.log = self.log.and(
            &Place {
                access: Access::Fetch,
                width: Width::W8,
                address,
            },
            &u64::from(v),
        );
        Ok(v)
    }
}
