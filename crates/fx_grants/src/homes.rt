//! Which compartment has a library, and which owns a device.

ghost use Rattle.std.specs.Prelude.{◌≡◌, ◌<◌, ◌≤◌, length, All, IfOk, IfSome, is_some, position};
ghost use Rattle.fx_grants.specs.Homes.{holds_library, compartment_of, home_of, homes_of, home_at, lists_device, owner_of};

use fx_config::{Compartment, Config};
use std::alloc::{AllocError, Global};

fn holds_library(name: &[u8], compartment: &Compartment) -> bool
    ensures { result ≡ holds_library name.now compartment.now }
{
    compartment
        .libraries
        .as_slice()
        .iter()
        .any(|library| library.as_bytes() == name)
}

fn place_of_library(c: &Config, name: &[u8]) -> Option<usize>
    ensures place { result ≡ compartment_of c.now name.now }
    ensures within { IfSome result (λ i. i < length c.now.compartments) }
{
    c.compartments
        .as_slice()
        .iter()
        .position(|compartment| holds_library(name, compartment))
}

/// Whether a compartment has the library of this name.
pub fn is_placed(c: &Config, name: &[u8]) -> bool
    ensures { result ≡ is_some (compartment_of c.now name.now) }
{
    place_of_library(c, name).is_some()
}

/// The compartment of the library of this name, 0 where there is none.
pub fn home_of(c: &Config, name: &[u8]) -> u8
    requires { length c.now.compartments ≤ 16 }
    ensures home { result ≡ home_of c.now name.now }
    ensures small { result < 16 }
{
    match place_of_library(c, name) {
        Some(place) => place as u8,
        None => 0,
    }
}

/// The compartment of each library.
pub fn homes(alloc: Global, c: &Config) -> Result<Vec<u8>, AllocError>
    requires { length c.now.compartments ≤ 16 }
    ensures homes { IfOk result (λ v. v.items ≡ homes_of c.now) }
    ensures small { IfOk result (λ v. All (λ h. h < 16) v.items) }
{
    let mut found = Vec::new(alloc);
    for library in c.libraries.as_slice() {
        found.push(home_of(c, library.name.as_bytes()))?;
    }
    Ok(found)
}

/// The compartment of a library by its number, 0 where there is none.
pub fn home_at(homes: &[u8], library: u8) -> u8
    ensures { result ≡ home_at homes.now library }
{
    homes.get(library as usize).copied().unwrap_or(0)
}

/// The same where each library's compartment is one of at most sixteen.
pub fn home_within(homes: &[u8], library: u8) -> u8
    requires { All (λ h. h < 16) homes.now }
    ensures home { result ≡ home_at homes.now library }
    ensures small { result < 16 }
{
    home_at(homes, library)
}

fn lists_device(device: u16, compartment: &Compartment) -> bool
    ensures { result ≡ lists_device device compartment.now }
{
    compartment
        .devices
        .as_slice()
        .iter()
        .any(|d| u16::from(*d) == device)
}

fn place_of_device(c: &Config, device: u16) -> Option<usize>
    ensures place { result ≡ position (lists_device device) c.now.compartments }
    ensures within { IfSome result (λ i. i < length c.now.compartments) }
{
    c.compartments
        .as_slice()
        .iter()
        .position(|compartment| lists_device(device, compartment))
}

/// The owner of a device: the compartment that lists it, or the first.
pub fn owner_of(c: &Config, device: u16) -> u8
    requires { length c.now.compartments ≤ 16 }
    ensures { result ≡ owner_of c.now device }
{
    match place_of_device(c, device) {
        Some(place) => place as u8,
        None => 0,
    }
}
