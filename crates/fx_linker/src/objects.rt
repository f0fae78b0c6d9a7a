//! The objects that have an address for good: the compartments' tables and the globals.

ghost use Rattle.std.specs.Prelude.{Some, ◌≡◌, ◌≤◌, ◌<◌, ◌^◌, ◌++◌, ◌*◌, OnOk, IfOk, All, length, take, slice_index, slice_index_or, slice_get, [], ◌∷◌};
ghost use Rattle.std.specs.Int.{w64, to_le_bytes};
ghost use Rattle.fx_c_ast.specs.CheckedTrees.{struct_types, ty_tree};
ghost use Rattle.fx_c_ast.specs.Layout.{known_layouts, IsSized, StructsAreSized};
ghost use Rattle.fx_c_ast.specs.declared.checked.TGlobal.{TGlobal as Declared};
ghost use Rattle.fx_sections.specs.Initials.{used_bytes, initial_bytes};
ghost use Rattle.fx_linker.specs.Data.{table_object, has_address, global_object, global_in, global_objects, section_objects, objects_from};

use fx_c_ast::checked::{TGlobal, TProgram};
use fx_c_ast::layout::size_of;
use fx_c_ast::parsed::Init;
use fx_config::Compartment;
use fx_image::{Bytes, List, Name, Obj};
use fx_sections::{PlacedSection, Placement};
use std::alloc::{AllocError, Global};

/// The bytes before the zeros at the end.
fn used(bytes: &[u8]) -> &[u8]
    ensures { result.now ≡ used_bytes bytes.now }
{
    let mut count = bytes.len();
    while count > 0 {
        if bytes[count - 1] != 0 {
            return &bytes[..count];
        }
        count -= 1;
    }
    &[]
}

fn copied(alloc: Global, bytes: &[u8]) -> Result<Bytes, AllocError>
    ensures { IfOk result (λ b. b ≡ bytes.now) }
{
    Ok(Bytes::from_vec(Vec::from_slice(alloc, bytes)?))
}

/// The initial bytes of a global that is a number.
fn number_bytes(alloc: Global, size: u64, value: u64) -> Result<Bytes, AllocError>
    ensures { IfOk result (λ b. b ≡ used_bytes (take size (to_le_bytes w64 value))) }
{
    let bytes = value.to_le_bytes();
    if size < 8 {
        copied(alloc, used(&bytes[..size as usize]))
    } else {
        copied(alloc, used(&bytes))
    }
}

/// The initial bytes of a global of so many bytes.
fn initial_bytes(alloc: Global, size: u64, init: &Init) -> Result<Bytes, AllocError>
    ensures { IfOk result (λ b. b ≡ initial_bytes size init.now) }
{
    match init {
        Init::Zero => copied(alloc, &[]),
        Init::Number(value) => number_bytes(alloc, size, *value),
        Init::Text(text) => copied(alloc, used(text.as_slice())),
    }
}

/// Where a section's pages begin.
fn section_start(section: &PlacedSection) -> u64
    ensures value { result ≡ 4096 * section.now.page }
    ensures small { result < 2 ^ 44 }
{
    4096 * u64::from(section.page)
}

/// Appends the table of a compartment, which begins its private section.
fn put_table(
    alloc: Global,
    objects: &mut Vec<Obj>,
    number: usize,
    section: &PlacedSection,
    initial: &[u8],
    compartment: &Compartment,
) -> Result<(), AllocError>
    requires { number < 2 ^ 16 }
    ensures { OnOk result (objects.new.items ≡ objects.old.items ++ table_object number section.now initial.now (Some compartment.now)) }
{
    let mut name = Vec::from_slice(alloc, b".rt.")?;
    name.extend_from_slice(compartment.name.as_bytes())?;
    objects.push(Obj {
        name: Name::from_vec(name),
        section: number as u16,
        address: section_start(section),
        size: 4096,
        initial: copied(alloc, used(initial))?,
    })?;
    Ok(())
}

/// Whether an address is in a section's pages.
fn has_address(section: &PlacedSection, address: u64) -> bool
    ensures { result ≡ has_address section.now address }
{
    let start = section_start(section);
    start <= address && address < start + 4096 * u64::from(section.pages)
}

fn global_object(
    alloc: Global,
    p: &TProgram,
    number: usize,
    address: u64,
    global: &TGlobal,
) -> Result<Obj, AllocError>
    requires structs { StructsAreSized (struct_types p.now.structs) }
    requires sized { IsSized (known_layouts (struct_types p.now.structs)) (length p.now.structs) (ty_tree global.now.ty) }
    requires small { number < 2 ^ 16 }
    ensures { IfOk result (λ o. o ≡ global_object (struct_types p.now.structs) number address global.now) }
{
    let size = size_of(p, &global.ty);
    Ok(Obj {
        name: Name::from_vec(Vec::from_slice(alloc, global.name.as_slice())?),
        section: number as u16,
        address,
        size: size as u32,
        initial: initial_bytes(alloc, size, &global.init)?,
    })
}

/// Appends a global where it lies in the section.
fn put_global(
    alloc: Global,
    objects: &mut Vec<Obj>,
    p: &TProgram,
    number: usize,
    section: &PlacedSection,
    address: u64,
    global: &TGlobal,
) -> Result<(), AllocError>
    requires structs { StructsAreSized (struct_types p.now.structs) }
    requires sized { IsSized (known_layouts (struct_types p.now.structs)) (length p.now.structs) (ty_tree global.now.ty) }
    requires small { number < 2 ^ 16 }
    ensures { OnOk result (objects.new.items ≡ objects.old.items ++ global_in (struct_types p.now.structs) number section.now address global.now) }
{
    if has_address(section, address) {
        objects.push(global_object(alloc, p, number, address, global)?)?;
    }
    Ok(())
}

/// The address of this number; 0 where there is none.
fn address_at(addresses: &[u64], i: usize) -> u64
    ensures { result ≡ slice_index addresses.now i }
{
    match addresses.get(i) {
        Some(address) => *address,
        None => 0,
    }
}

/// Appends the globals that lie in a section, in program order.
fn put_globals(
    alloc: Global,
    objects: &mut Vec<Obj>,
    p: &TProgram,
    number: usize,
    section: &PlacedSection,
    addresses: &[u64],
) -> Result<(), AllocError>
    requires structs { StructsAreSized (struct_types p.now.structs) }
    requires globals { All (λ (v : Declared). IsSized (known_layouts (struct_types p.now.structs)) (length p.now.structs) (ty_tree v.ty)) p.now.globals }
    requires small { number < 2 ^ 16 }
    ensures { OnOk result (objects.new.items ≡ objects.old.items ++ global_objects (struct_types p.now.structs) number section.now addresses.now 0 p.now.globals) }
{
    for (i, global) in p.globals.as_slice().iter().enumerate() {
        let address = address_at(addresses, i);
        put_global(alloc, objects, p, number, section, address, global)?;
    }
    Ok(())
}

/// The initial bytes of the table of this number; none where there is none.
fn initial_at(initials: &[Bytes], number: usize) -> &[u8]
    ensures { result.now ≡ slice_index_or initials.now number [] }
{
    match initials.get(number) {
        Some(initial) => initial.as_slice(),
        None => &[],
    }
}

/// The table of the compartment of this number, where there is one.
fn put_table_of(
    alloc: Global,
    objects: &mut Vec<Obj>,
    compartments: &[Compartment],
    initial: &[u8],
    number: usize,
    section: &PlacedSection,
) -> Result<(), AllocError>
    requires { number < 2 ^ 16 }
    ensures { OnOk result (objects.new.items ≡ objects.old.items ++ table_object number section.now initial.now (slice_get compartments.now number)) }
{
    match compartments.get(number) {
        Some(compartment) => put_table(alloc, objects, number, section, initial, compartment),
        None => Ok(()),
    }
}

/// Appends the objects of a section.
fn put_section(
    alloc: Global,
    objects: &mut Vec<Obj>,
    p: &TProgram,
    compartments: &[Compartment],
    initials: &[Bytes],
    addresses: &[u64],
    number: usize,
    section: &PlacedSection,
) -> Result<(), AllocError>
    requires structs { StructsAreSized (struct_types p.now.structs) }
    requires globals { All (λ (v : Declared). IsSized (known_layouts (struct_types p.now.structs)) (length p.now.structs) (ty_tree v.ty)) p.now.globals }
    requires small { number < 2 ^ 16 }
    ensures { OnOk result (objects.new.items ≡ objects.old.items ++ section_objects (struct_types p.now.structs) compartments.now initials.now p.now.globals addresses.now number section.now) }
{
    let initial = initial_at(initials, number);
    put_table_of(alloc, objects, compartments, initial, number, section)?;
    put_globals(alloc, objects, p, number, section, addresses)?;
    Ok(())
}

/// The objects of an image, section after section; in a section the compartment's table, where it is a
/// private one, and then its globals in program order.
pub(crate) fn objects(
    alloc: Global,
    p: &TProgram,
    compartments: &[Compartment],
    initials: &[Bytes],
    at: &Placement,
) -> Result<List<Obj>, AllocError>
    requires structs { StructsAreSized (struct_types p.now.structs) }
    requires globals { All (λ (v : Declared). IsSized (known_layouts (struct_types p.now.structs)) (length p.now.structs) (ty_tree v.ty)) p.now.globals }
    requires small { length at.now.sections ≤ 2 ^ 16 }
    ensures { IfOk result (λ v. v ≡ objects_from (struct_types p.now.structs) compartments.now initials.now p.now.globals at.now.globals 0 at.now.sections) }
{
    let addresses = at.globals.as_slice();
    let mut found = Vec::new(alloc);
    for (number, section) in at.sections.as_slice().iter().enumerate() {
        put_section(
            alloc,
            &mut found,
            p,
            compartments,
            initials,
            addresses,
            number,
            section,
        )?;
    }
    Ok(List::from_vec(found))
}
