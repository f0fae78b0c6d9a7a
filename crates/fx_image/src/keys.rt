//! Protection keys: the PKRU value of a compartment.

ghost use Rattle.std.specs.Prelude.{◌≡◌, ◌==◌, if◌then◌else◌, ◌<◌};
ghost use Rattle.fx_image.specs.Keys.{is_keyed, has_member, key_read, key_written, key_bits, pkru_of};

use crate::forms::Section;

/// Whether a set of compartments has this one.
pub fn has_member(set: u16, compartment: u8) -> bool
    requires { compartment < 16 }
    ensures { result ≡ has_member set compartment }
{
    (set >> compartment) & 1 == 1
}

/// Whether some section of the key may be read by the compartment.
fn key_read(sections: &[Section], compartment: u8, key: u8) -> bool
    requires { compartment < 16 }
    ensures { result ≡ key_read sections.now compartment key }
{
    for section in sections {
        if section.key == key && has_member(section.readers, compartment) {
            return true;
        }
    }
    false
}

/// Whether some section of the key may be written by the compartment.
fn key_written(sections: &[Section], compartment: u8, key: u8) -> bool
    requires { compartment < 16 }
    ensures { result ≡ key_written sections.now compartment key }
{
    for section in sections {
        if section.key == key && has_member(section.writers, compartment) {
            return true;
        }
    }
    false
}

/// A key's two bits of the PKRU register for a compartment: access disable and write disable.
fn key_bits(sections: &[Section], compartment: u8, key: u8) -> u64
    requires { compartment < 16 }
    ensures value { result ≡ key_bits sections.now compartment key }
    ensures small { result < 4 }
{
    let reads = key_read(sections, compartment, key);
    let writes = key_written(sections, compartment, key);
    match (reads, writes) {
        (true, true) => 0,
        (true, false) => 2,
        (false, true) => 1,
        (false, false) => 3,
    }
}

/// The bits of key 1: write disable but for the scheduler's compartment.
fn thread_word_bits(scheduler: u8, compartment: u8) -> u64
    ensures value { result ≡ (if compartment == scheduler then 0 else 8) }
    ensures small { result < 16 }
{
    if compartment == scheduler { 0 } else { 8 }
}

/// The PKRU value of a compartment (SDM volume 3, protection keys): for each key from 2 to 15 access
/// disable unless the compartment reads a section of that key, and write disable unless it writes
/// one; for key 1, the current thread's word, write disable unless it is the scheduler's compartment;
/// for key 0 nothing.
pub fn pkru_of(sections: &[Section], scheduler: u8, compartment: u8) -> u32
    requires { compartment < 16 }
    ensures { result ≡ pkru_of sections.now scheduler compartment }
{
    let mut value = thread_word_bits(scheduler, compartment);
    let mut unit = 16;
    for key in 2..16u8 {
        value += unit * key_bits(sections, compartment, key);
        unit *= 4;
    }
    value as u32
}

/// Whether gates go by protection keys: under `light` and `full`.
pub fn is_keyed(mechanism: u8) -> bool
    ensures { result ≡ is_keyed mechanism }
{
    mechanism == 1 || mechanism == 2
}
