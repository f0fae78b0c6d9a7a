//! What the PKRU value of a compartment says, bit by bit.
//!
//! An image gives each compartment a value of the PKRU register, `pkru_of` of its sections. Bit 2k of
//! the register disables accesses under key k, and bit 2k + 1 writes (Intel 64 and IA-32 Architectures
//! Software Developer's Manual, volume 3, section 4.6.2). The public functions have empty bodies; their
//! contracts are the laws.
#![tactic(auto)]

ghost use Rattle.fx_image_law.specs.Bits.{FirstKeysAreOpen, KeysHaveBits};

/// The two bits of a section's key are clear exactly where the compartment reads a section of that
/// key, and where it writes one. Keys 0 and 1 are no sections'.
pub fn keys_have_bits()
    ensures sections { KeysHaveBits }
    ensures first { FirstKeysAreOpen }
{}
