//! The lines of compartments, sections, objects, entries, stubs, devices and starts.

ghost use Rattle.std.specs.Prelude.{◌≡◌, ◌<◌, ◌≤◌, ◌+◌, ◌*◌, ◌++◌, OnOk, length, slice_get};
ghost use Rattle.fx_image.specs.Layout.{code_start};
ghost use Rattle.fx_cmd_base.specs.Hex.{hex};
ghost use Rattle.fx_cmd_show.specs.Lists.{each_line, lines_of};
ghost use Rattle.fx_cmd_show.specs.Lines.{compartment_line, section_line, object_line, range_start, entry_address, entry_line, stub_line, device_line, start_line};

use crate::lines::{code_address, put_keyed_rights, put_members, put_name, put_place};
use crate::text::Text;
use fx_image::{Comp, EntryRec, Obj, Section, Start, Stub};
use std::alloc::AllocError;

fn put_compartment(
    text: &mut Text,
    mechanism: u8,
    number: usize,
    comp: &Comp,
) -> Result<(), AllocError>
    ensures { OnOk result (text.new ≡ text.old ++ compartment_line mechanism number comp.now) }
{
    text.put_words("compartment ")?;
    text.put_decimal(number as u64)?;
    text.put_words(" ")?;
    text.put_name(&comp.name)?;
    text.put_words(", code ")?;
    put_place(text, comp.start)?;
    text.put_words(" ")?;
    text.put_decimal(comp.len as u64)?;
    text.put_words(" bytes")?;
    put_keyed_rights(text, mechanism, comp.pkru)?;
    text.end_line()
}

/// Adds a line for each compartment.
pub fn put_compartments(text: &mut Text, mechanism: u8, comps: &[Comp]) -> Result<(), AllocError>
    ensures { OnOk result (text.new ≡ text.old
        ++ each_line (compartment_line mechanism) 0 comps.now) }
{
    for (number, comp) in comps.iter().enumerate() {
        put_compartment(text, mechanism, number, comp)?;
    }
    Ok(())
}

// The address of a page.
fn page_address(page: u32) -> u64
    ensures { result ≡ 4096 * page }
{
    4096 * u64::from(page)
}

fn put_page(text: &mut Text, page: u32) -> Result<(), AllocError>
    ensures { OnOk result (text.new ≡ text.old ++ hex (4096 * page)) }
{
    text.put_address(page_address(page))
}

fn put_section(
    text: &mut Text,
    comps: &[Comp],
    number: usize,
    section: &Section,
) -> Result<(), AllocError>
    requires { length comps.now ≤ 16 }
    ensures { OnOk result (text.new ≡ text.old ++ section_line comps.now number section.now) }
{
    text.put_words("section ")?;
    text.put_decimal(number as u64)?;
    text.put_words(" ")?;
    put_page(text, section.page)?;
    text.put_words(" ")?;
    text.put_decimal(section.pages as u64)?;
    text.put_words(" pages, key ")?;
    text.put_decimal(section.key as u64)?;
    text.put_words(", readers")?;
    put_members(text, comps, section.readers)?;
    text.put_words(", writers")?;
    put_members(text, comps, section.writers)?;
    text.end_line()
}

/// Adds a line for each section.
pub fn put_sections(text: &mut Text, comps: &[Comp], sections: &[Section]) -> Result<(), AllocError>
    requires { length comps.now ≤ 16 }
    ensures { OnOk result (text.new ≡ text.old
        ++ each_line (section_line comps.now) 0 sections.now) }
{
    for (number, section) in sections.iter().enumerate() {
        put_section(text, comps, number, section)?;
    }
    Ok(())
}

fn put_object(text: &mut Text, object: &Obj) -> Result<(), AllocError>
    ensures { OnOk result (text.new ≡ text.old ++ object_line object.now) }
{
    text.put_words("object ")?;
    text.put_address(object.address)?;
    text.put_words(" ")?;
    text.put_decimal(object.size as u64)?;
    text.put_words(" bytes in section ")?;
    text.put_decimal(object.section as u64)?;
    text.put_words(", ")?;
    text.put_name(&object.name)?;
    text.put_words(", initial ")?;
    text.put_length(&object.initial)?;
    text.put_words(" bytes")?;
    text.end_line()
}

/// Adds a line for each object.
pub fn put_objects(text: &mut Text, objects: &[Obj]) -> Result<(), AllocError>
    ensures { OnOk result (text.new ≡ text.old ++ lines_of object_line objects.now) }
{
    for object in objects {
        put_object(text, object)?;
    }
    Ok(())
}

// Where the range of the compartment of a number starts, if there is one.
fn range_start(comps: &[Comp], number: u8) -> u32
    ensures { result ≡ range_start (slice_get comps.now number) }
{
    match comps.get(usize::from(number)) {
        Some(comp) => comp.start,
        None => 0,
    }
}

fn entry_address(start: u32, number: u16) -> u64
    ensures { result ≡ entry_address start number }
{
    code_address(start) + 16 * u64::from(number)
}

// Adds the address at which an entry of a compartment is called.
fn put_entry_address(
    text: &mut Text,
    comps: &[Comp],
    compartment: u8,
    number: u16,
) -> Result<(), AllocError>
    ensures { OnOk result (text.new ≡ text.old
        ++ hex (entry_address (range_start (slice_get comps.now compartment)) number)) }
{
    let start = range_start(comps, compartment);
    text.put_address(entry_address(start, number))
}

fn put_entry(text: &mut Text, comps: &[Comp], entry: &EntryRec) -> Result<(), AllocError>
    requires { length comps.now ≤ 16 }
    ensures { OnOk result (text.new ≡ text.old ++ entry_line comps.now entry.now) }
{
    text.put_words("entry ")?;
    put_entry_address(text, comps, entry.compartment, entry.number)?;
    text.put_words(" ")?;
    text.put_decimal(entry.number as u64)?;
    text.put_words(" of ")?;
    put_name(text, comps, entry.compartment)?;
    text.put_words(", ")?;
    text.put_name(&entry.name)?;
    text.put_words(", callers")?;
    put_members(text, comps, entry.callers)?;
    text.end_line()
}

/// Adds a line for each entry.
pub fn put_entries(text: &mut Text, comps: &[Comp], entries: &[EntryRec]) -> Result<(), AllocError>
    requires { length comps.now ≤ 16 }
    ensures { OnOk result (text.new ≡ text.old ++ lines_of (entry_line comps.now) entries.now) }
{
    for entry in entries {
        put_entry(text, comps, entry)?;
    }
    Ok(())
}

fn put_stub(text: &mut Text, comps: &[Comp], stub: &Stub) -> Result<(), AllocError>
    ensures { OnOk result (text.new ≡ text.old ++ stub_line comps.now stub.now) }
{
    text.put_words("stub ")?;
    put_place(text, stub.offset)?;
    text.put_words(" from ")?;
    put_name(text, comps, stub.from)?;
    text.put_words(" to entry ")?;
    text.put_decimal(stub.entry as u64)?;
    text.put_words(" of ")?;
    put_name(text, comps, stub.to)?;
    text.put_words(", wrpkru ")?;
    put_place(text, stub.first)?;
    text.put_words(" and ")?;
    put_place(text, stub.second)?;
    text.end_line()
}

/// Adds a line for each stub.
pub fn put_stubs(text: &mut Text, comps: &[Comp], stubs: &[Stub]) -> Result<(), AllocError>
    ensures { OnOk result (text.new ≡ text.old ++ lines_of (stub_line comps.now) stubs.now) }
{
    for stub in stubs {
        put_stub(text, comps, stub)?;
    }
    Ok(())
}

fn put_device(text: &mut Text, comps: &[Comp], device: usize, owner: u8) -> Result<(), AllocError>
    ensures { OnOk result (text.new ≡ text.old ++ device_line comps.now device owner) }
{
    text.put_words("device ")?;
    text.put_decimal(device as u64)?;
    text.put_words(" of ")?;
    put_name(text, comps, owner)?;
    text.end_line()
}

/// Adds a line for each device, with the compartment that owns it.
pub fn put_devices(text: &mut Text, comps: &[Comp], owners: &[u8]) -> Result<(), AllocError>
    ensures { OnOk result (text.new ≡ text.old ++ each_line (device_line comps.now) 0 owners.now) }
{
    for (device, owner) in owners.iter().enumerate() {
        put_device(text, comps, device, *owner)?;
    }
    Ok(())
}

fn put_start(text: &mut Text, vcpu: usize, start: &Start) -> Result<(), AllocError>
    ensures { OnOk result (text.new ≡ text.old ++ start_line vcpu start.now) }
{
    text.put_words("start of vcpu ")?;
    text.put_decimal(vcpu as u64)?;
    text.put_words(", rip ")?;
    text.put_address(start.rip as u64)?;
    text.put_words(", rsp ")?;
    text.put_address(start.rsp)?;
    text.end_line()
}

/// Adds a line for each vCPU's start.
pub fn put_starts(text: &mut Text, starts: &[Start]) -> Result<(), AllocError>
    ensures { OnOk result (text.new ≡ text.old ++ each_line start_line 0 starts.now) }
{
    for (vcpu, start) in starts.iter().enumerate() {
        put_start(text, vcpu, start)?;
    }
    Ok(())
}
