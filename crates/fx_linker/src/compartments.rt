//! The compartments, sections and owners of an image.

ghost use Rattle.std.specs.Prelude.{◌≡◌, ◌≤◌, ◌<◌, [], ◌∷◌, IfOk, length, map, slice_index};
ghost use Rattle.fx_sections.specs.Pairs.{is_keyed};
ghost use Rattle.fx_linker.specs.Data.{mechanism_number, section_of, rights, comps_from, lists, owner_from, owners_from};

use fx_config::{Compartment, Config, Mechanism};
use fx_image::{Comp, List, Name, Section, pkru_of};
use fx_sections::PlacedSection;
use std::alloc::{AllocError, Global};

/// A number that an image has in 32 bits. One that has more no memory bears out.
pub(crate) fn narrow(n: u64) -> Result<u32, AllocError>
    ensures { IfOk result (λ m. m ≡ n) }
{
    match u32::try_from(n) {
        Ok(m) => Ok(m),
        Err(_) => Err(AllocError),
    }
}

/// `call` 0, `light` 1, `full` 2, `ept` 3.
pub(crate) fn mechanism_number(mechanism: Mechanism) -> u8
    ensures { result ≡ mechanism_number mechanism }
{
    match mechanism {
        Mechanism::Call => 0,
        Mechanism::Light => 1,
        Mechanism::Full => 2,
        Mechanism::Ept => 3,
    }
}

/// Whether gates between compartments go by protection keys.
fn is_keyed(mechanism: Mechanism) -> bool
    ensures { result ≡ is_keyed mechanism }
{
    match mechanism {
        Mechanism::Light | Mechanism::Full => true,
        Mechanism::Call | Mechanism::Ept => false,
    }
}

fn section_of(s: &PlacedSection) -> Section
    ensures { result ≡ section_of s.now }
{
    Section {
        readers: s.readers,
        writers: s.writers,
        key: s.key,
        page: s.page,
        pages: s.pages,
    }
}

pub(crate) fn sections_of(
    alloc: Global,
    sections: &[PlacedSection],
) -> Result<List<Section>, AllocError>
    ensures { IfOk result (λ v. v ≡ map section_of sections.now) }
{
    let mut found = Vec::new(alloc);
    for s in sections {
        found.push(section_of(s))?;
    }
    Ok(List::from_vec(found))
}

/// The rights of a compartment: under protection keys those of its sections, else 0.
fn rights(mechanism: Mechanism, sections: &[Section], scheduler: u8, compartment: u8) -> u32
    requires { compartment < 16 }
    ensures { result ≡ rights mechanism sections.now scheduler compartment }
{
    if is_keyed(mechanism) {
        pkru_of(sections, scheduler, compartment)
    } else {
        0
    }
}

/// The start of range c; 0 where there is none.
fn start_of(starts: &[u64], c: usize) -> u64
    ensures { result ≡ slice_index starts.now c }
{
    match starts.get(c) {
        Some(start) => *start,
        None => 0,
    }
}

/// Compartment c of an image.
fn comp(
    alloc: Global,
    k: &Config,
    sections: &[Section],
    starts: &[u64],
    c: usize,
    compartment: &Compartment,
) -> Result<Comp, AllocError>
    requires { c < 16 }
    ensures { IfOk result (λ r. comps_from k.now sections.now starts.now c (compartment.now ∷ []) ≡ r ∷ []) }
{
    let start = start_of(starts, c);
    let len = start_of(starts, c + 1).saturating_sub(start);
    Ok(Comp {
        name: Name::from_vec(Vec::from_slice(alloc, compartment.name.as_bytes())?),
        start: narrow(start)?,
        len: narrow(len)?,
        pkru: rights(k.mechanism, sections, k.scheduler, c as u8),
    })
}

/// The compartments, whose ranges begin at these places.
pub(crate) fn comps(
    alloc: Global,
    k: &Config,
    sections: &[Section],
    starts: &[u64],
) -> Result<List<Comp>, AllocError>
    requires { length k.now.compartments ≤ 16 }
    ensures { IfOk result (λ v. v ≡ comps_from k.now sections.now starts.now 0 k.now.compartments) }
{
    let mut found = Vec::new(alloc);
    for (c, compartment) in k.compartments.as_slice().iter().enumerate() {
        found.push(comp(alloc, k, sections, starts, c, compartment)?)?;
    }
    Ok(List::from_vec(found))
}

/// Whether a compartment lists a device.
fn lists(device: u8, c: &Compartment) -> bool
    ensures { result ≡ lists device c.now }
{
    for d in c.devices.as_slice() {
        if *d == device {
            return true;
        }
    }
    false
}

/// The owner of a device: the first compartment that lists it, else compartment 0.
fn owner(device: u8, compartments: &[Compartment]) -> u8
    requires { length compartments.now ≤ 16 }
    ensures { result ≡ owner_from device 0 compartments.now }
{
    for (c, compartment) in compartments.iter().enumerate() {
        if lists(device, compartment) {
            return c as u8;
        }
    }
    0
}

/// The owners of the devices from 0 to 15.
pub(crate) fn owners(compartments: &[Compartment]) -> [u8; 16]
    requires { length compartments.now ≤ 16 }
    ensures { result ≡ owners_from compartments.now 0 16 }
{
    let c = compartments;
    [
        owner(0, c),
        owner(1, c),
        owner(2, c),
        owner(3, c),
        owner(4, c),
        owner(5, c),
        owner(6, c),
        owner(7, c),
        owner(8, c),
        owner(9, c),
        owner(10, c),
        owner(11, c),
        owner(12, c),
        owner(13, c),
        owner(14, c),
        owner(15, c),
    ]
}
