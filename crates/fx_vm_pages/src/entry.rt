//! Page entries and the protection-key register.

ghost use Rattle.std.specs.Prelude.{⊤, ◌≡◌, [], ◌∷◌, codes};
ghost use Rattle.fx_vm_pages.specs.Entries.{is_writable, is_executable, is_device};

use bitflags::{Flag, Flags, bitflag_items};

/// What a page may be used for, beside being read: a set of the constants of this type.
#[derive(Clone, Copy, Debug, PartialEq, Eq)]
pub struct PageFlags(u8);

bitflag_items! {
    impl PageFlags: u8 {
        /// The page may be written.
        const WRITE = 1;
        /// Instructions may be fetched from the page.
        const EXEC = 2;
        /// The page is a device's registers, and no memory.
        const DEVICE = 4;
    }
}

impl Flags for PageFlags {
    type Bits = u8;

    ghost exact = { ⊤ };

    ghost table = { (codes "WRITE", 1) ∷ (codes "EXEC", 2) ∷ (codes "DEVICE", 4) ∷ [] };

    ghost set_of = { λ flags. flags.0 };

    fn flags<'a>() -> &'a [Flag<PageFlags>] {
        PageFlags::FLAGS
    }

    fn bits(&self) -> u8 {
        self.0
    }

    fn from_bits_retain(bits: u8) -> PageFlags {
        PageFlags(bits)
    }
}

impl PageFlags {
    /// Whether the page may be written.
    #[inline]
    pub fn is_writable(self) -> bool
        ensures { result ≡ is_writable self }
    {
        self.contains(PageFlags::WRITE)
    }

    /// Whether instructions may be fetched from the page.
    #[inline]
    pub fn is_executable(self) -> bool
        ensures { result ≡ is_executable self }
    {
        self.contains(PageFlags::EXEC)
    }

    /// Whether the page is a device's registers.
    #[inline]
    pub fn is_device(self) -> bool
        ensures { result ≡ is_device self }
    {
        self.contains(PageFlags::DEVICE)
    }
}

/// What a page is: the number of its frame of 4,096 bytes, its flags, and its protection key from 0
/// to 15.
#[derive(Clone, Copy, Debug, PartialEq, Eq)]
pub struct Entry {
    pub frame: u32,
    pub flags: PageFlags,
    pub key: u8,
}

/// The protection-key rights register: for key i, bit 2i disables access and bit 2i + 1 disables
/// writes (SDM volume 3, section 4.6.2).
#[derive(Clone, Copy, Debug, PartialEq, Eq)]
pub struct Pkru(pub u32);
