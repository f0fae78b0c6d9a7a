//! What holds of all tables together: the number of the scheduler, and that nothing stands in two places.

ghost use Rattle.std.specs.Prelude.{◌≡◌, ◌≤◌, ◌<◌, ◌++◌, IfOk, OnOk, IfSome, map, option_map, length, position, bytes_eq};
ghost use Rattle.fx_config.specs.Reading.{scheduler_of, files_of, libraries_of, devices_of, stands_once};
ghost use Rattle.fx_config.specs.declared.configuration.Library.{Library};
ghost use Rattle.fx_config.specs.declared.configuration.Compartment.{Compartment};

use crate::configuration::{Compartment, Library};
use crate::lists::{FileName, Name};
use crate::names::{names_differ, numbers_differ};
use std::alloc::{AllocError, Global};

/// The number of the compartment of this name, or of the first where there is no name.
pub fn scheduler_number(name: Option<&str>, compartments: &[Compartment]) -> Option<u8>
    requires { length compartments.now ≤ 16 }
    ensures { result ≡ scheduler_of (option_map (λ s. s.now) name.entry) compartments.now }
{
    match name {
        Some(name) => number_of(name.as_bytes(), compartments),
        None => Some(0),
    }
}

/// The number of the first compartment of this name.
fn number_of(name: &[u8], compartments: &[Compartment]) -> Option<u8>
    requires { length compartments.now ≤ 16 }
    ensures { result ≡ position (λ (c : Compartment). bytes_eq c.name name.now) compartments.now }
{
    match place_of(name, compartments) {
        Some(place) => Some(place as u8),
        None => None,
    }
}

/// The place of the first compartment of this name.
fn place_of(name: &[u8], compartments: &[Compartment]) -> Option<usize>
    ensures first { result ≡ position (λ (c : Compartment). bytes_eq c.name name.now) compartments.now }
    ensures within { IfSome result (λ i. i < length compartments.now) }
{
    compartments
        .iter()
        .position(|compartment| compartment.name.as_bytes() == name)
}

fn library_names(alloc: Global, libraries: &[Library]) -> Result<Vec<&[u8]>, AllocError>
    ensures { IfOk result (λ v. map (λ s. s.now) v.items ≡ map (λ (l : Library). l.name) libraries.now) }
{
    let mut found = Vec::new(alloc);
    for library in libraries {
        found.push(library.name.as_bytes())?;
    }
    Ok(found)
}

fn compartment_names(alloc: Global, compartments: &[Compartment]) -> Result<Vec<&[u8]>, AllocError>
    ensures { IfOk result (λ v. map (λ s. s.now) v.items ≡ map (λ (c : Compartment). c.name) compartments.now) }
{
    let mut found = Vec::new(alloc);
    for compartment in compartments {
        found.push(compartment.name.as_bytes())?;
    }
    Ok(found)
}

fn append_files<'a>(found: &mut Vec<&'a [u8]>, files: &'a [FileName]) -> Result<(), AllocError>
    ensures { OnOk result (map (λ s. s.now) found.new.items ≡ map (λ s. s.now) found.old.items ++ files.now) }
{
    for file in files {
        found.push(file.as_str().as_bytes())?;
    }
    Ok(())
}

fn append_names<'a>(found: &mut Vec<&'a [u8]>, names: &'a [Name]) -> Result<(), AllocError>
    ensures { OnOk result (map (λ s. s.now) found.new.items ≡ map (λ s. s.now) found.old.items ++ names.now) }
{
    for name in names {
        found.push(name.as_bytes())?;
    }
    Ok(())
}

/// The files of all libraries.
pub fn file_names(alloc: Global, libraries: &[Library]) -> Result<Vec<&[u8]>, AllocError>
    ensures { IfOk result (λ v. map (λ s. s.now) v.items ≡ files_of libraries.now) }
{
    let mut found = Vec::new(alloc);
    for library in libraries {
        append_files(&mut found, library.files.as_slice())?;
    }
    Ok(found)
}

fn held_libraries(alloc: Global, compartments: &[Compartment]) -> Result<Vec<&[u8]>, AllocError>
    ensures { IfOk result (λ v. map (λ s. s.now) v.items ≡ libraries_of compartments.now) }
{
    let mut found = Vec::new(alloc);
    for compartment in compartments {
        append_names(&mut found, compartment.libraries.as_slice())?;
    }
    Ok(found)
}

fn held_devices(alloc: Global, compartments: &[Compartment]) -> Result<Vec<u8>, AllocError>
    ensures { IfOk result (λ v. v.items ≡ devices_of compartments.now) }
{
    let mut found = Vec::new(alloc);
    for compartment in compartments {
        found.extend_from_slice(compartment.devices.as_slice())?;
    }
    Ok(found)
}

/// Whether no two libraries and no two compartments have one name, and no library, file or device
/// stands in two places.
pub fn stand_once(
    alloc: Global,
    libraries: &[Library],
    compartments: &[Compartment],
) -> Result<bool, AllocError>
    ensures { IfOk result (λ b. b ≡ stands_once libraries.now compartments.now) }
{
    let libraries_differ = names_differ(alloc, &library_names(alloc, libraries)?)?;
    let compartments_differ = names_differ(alloc, &compartment_names(alloc, compartments)?)?;
    let held_differ = names_differ(alloc, &held_libraries(alloc, compartments)?)?;
    let files_differ = names_differ(alloc, &file_names(alloc, libraries)?)?;
    let devices_differ = numbers_differ(alloc, &held_devices(alloc, compartments)?)?;
    Ok(libraries_differ && compartments_differ && held_differ && files_differ && devices_differ)
}
