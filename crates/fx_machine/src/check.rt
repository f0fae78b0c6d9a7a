//! Which accesses the machine refuses, and which are a device's.

ghost use Rattle.std.specs.Prelude.{◌≡◌, ◌≢◌, ◌+◌, ◌%◌, ◌<◌, ◌≤◌, ◌^◌, IsTrue, Option};
ghost use Rattle.fx_vm_pages.specs.Access.{HasKey, byte_refusal, refused_from, access_check, page_of, is_register_form};
ghost use Rattle.fx_image.specs.Rules.{IsImage};
ghost use Rattle.fx_machine_model.specs.Layout.{page_entry};
ghost use Rattle.fx_machine_model.specs.Moves.{device_at};
ghost use Rattle.fx_machine.specs.Agree.{Agrees};
ghost use Rattle.fx_machine.specs.Reaching.{reach_of, unless_device, IsPlain};

use crate::pages::Pages;
use fx_image::Image;
use fx_vm_pages::access::{Access, Refusal, permits};
use fx_vm_pages::entry::{Entry, Pkru};

/// What an access comes to.
#[derive(Clone, Copy, Debug, PartialEq, Eq)]
pub enum Reach {
    /// It is to memory.
    Memory,
    /// It is to a register of the device of this number.
    Device(u16),
    /// It is refused at this byte, the first one refused.
    Refused((u64, Refusal)),
}

/// Whether a device takes an access of this form.
#[inline]
fn is_register_form(address: u64, bytes: u8) -> bool
    ensures { result ≡ is_register_form address bytes }
{
    bytes == 8 && address % 8 == 0
}

/// Why a byte of a page is refused; `form` says whether a device takes accesses of this form.
#[inline]
fn byte_refusal(e: Option<Entry>, p: Pkru, access: Access, form: bool) -> Option<Refusal>
    requires { HasKey e }
    ensures { result ≡ byte_refusal e p access form }
{
    if let Some(entry) = e {
        if entry.flags.is_device() && !form {
            return Some(Refusal::Permission);
        }
    }
    permits(e, p, access).err()
}

/// The first refused byte of so many from an address on, with its refusal.
fn refused_from(
    pages: &mut Pages,
    image: &Image,
    space: u8,
    p: Pkru,
    access: Access,
    form: bool,
    address: u64,
    bytes: u8,
) -> Option<(u64, Refusal)>
    requires whole { IsImage image.now }
    requires few { space < 16 }
    requires agree { Agrees image.now pages.old }
    ensures value { result ≡ refused_from (page_entry image.now space) p access form address bytes }
    ensures agree { Agrees image.now pages.new }
{
    if bytes == 0 {
        return None;
    }
    let entry = pages.entry(image, space, address / 4096);
    match byte_refusal(entry, p, access, form) {
        Some(refusal) => Some((address, refusal)),
        None => refused_from(
            pages,
            image,
            space,
            p,
            access,
            form,
            address.wrapping_add(1),
            bytes - 1,
        ),
    }
}

/// The device whose register stands at an address of a page.
#[inline]
fn device_at(image: &Image, space: u8, entry: Option<Entry>, address: u64) -> Option<u16>
    requires whole { IsImage image.now }
    requires is { entry ≡ page_entry image.now space (page_of address) }
    ensures { result ≡ device_at entry address }
{
    match entry {
        Some(entry) if entry.flags.is_device() => Some((address / 4096 - 0xf100) as u16),
        _ => None,
    }
}

/// Whether a page has memory.
#[inline(always)]
fn is_plain(entry: Option<Entry>) -> bool
    ensures { IsTrue result → IsPlain entry }
{
    match entry {
        Some(entry) => !entry.flags.is_device(),
        None => false,
    }
}

/// What an access comes to that isn't refused.
#[inline]
fn unrefused(image: &Image, space: u8, entry: Option<Entry>, address: u64) -> Reach
    requires whole { IsImage image.now }
    requires is { entry ≡ page_entry image.now space (page_of address) }
    ensures { result ≡ unless_device (device_at entry address) }
{
    match device_at(image, space, entry, address) {
        None => Reach::Memory,
        Some(device) => Reach::Device(device),
    }
}

/// What an access of some bytes comes to, where they all lie in one page.
#[inline]
fn reach_in_page(
    pages: &mut Pages,
    image: &Image,
    space: u8,
    p: Pkru,
    access: Access,
    address: u64,
    bytes: u8,
) -> Reach
    requires whole { IsImage image.now }
    requires few { space < 16 }
    requires agree { Agrees image.now pages.old }
    requires some { 0 < bytes }
    requires inside { address % 4096 + bytes ≤ 4096 }
    ensures value { result ≡ reach_of (page_entry image.now space) p access address bytes }
    ensures agree { Agrees image.now pages.new }
{
    let entry = pages.entry(image, space, address / 4096);
    let form = is_register_form(address, bytes);
    match byte_refusal(entry, p, access, form) {
        Some(refusal) => Reach::Refused((address, refusal)),
        None => unrefused(image, space, entry, address),
    }
}

/// The same, wherever they lie.
fn reach_over_pages(
    pages: &mut Pages,
    image: &Image,
    space: u8,
    p: Pkru,
    access: Access,
    address: u64,
    bytes: u8,
) -> Reach
    requires whole { IsImage image.now }
    requires few { space < 16 }
    requires agree { Agrees image.now pages.old }
    ensures value { result ≡ reach_of (page_entry image.now space) p access address bytes }
    ensures agree { Agrees image.now pages.new }
{
    let form = is_register_form(address, bytes);
    match refused_from(pages, image, space, p, access, form, address, bytes) {
        Some(first) => Reach::Refused(first),
        None => {
            let entry = pages.entry(image, space, address / 4096);
            unrefused(image, space, entry, address)
        }
    }
}

/// What an access of some bytes at an address comes to.
#[inline]
pub fn look(
    pages: &mut Pages,
    image: &Image,
    space: u8,
    p: Pkru,
    access: Access,
    address: u64,
    bytes: u8,
) -> Reach
    requires whole { IsImage image.now }
    requires few { space < 16 }
    requires agree { Agrees image.now pages.old }
    requires some { 0 < bytes }
    ensures value { result ≡ reach_of (page_entry image.now space) p access address bytes }
    ensures agree { Agrees image.now pages.new }
{
    if address % 4096 + u64::from(bytes) <= 4096 {
        reach_in_page(pages, image, space, p, access, address, bytes)
    } else {
        reach_over_pages(pages, image, space, p, access, address, bytes)
    }
}

/// Whether an access of some bytes is permitted, is to memory, and lies in one page.
#[inline(always)]
pub fn is_memory(
    pages: &mut Pages,
    image: &Image,
    space: u8,
    p: Pkru,
    access: Access,
    address: u64,
    bytes: u8,
) -> bool
    requires whole { IsImage image.now }
    requires few { space < 16 }
    requires agree { Agrees image.now pages.old }
    ensures memory { IsTrue result → reach_of (page_entry image.now space) p access address bytes ≡ Reach.Memory }
    ensures agree { Agrees image.now pages.new }
{
    if address % 4096 + u64::from(bytes) > 4096 {
        return false;
    }
    let entry = pages.entry(image, space, address / 4096);
    is_plain(entry) && permits(entry, p, access).is_ok()
}

/// What refuses an access of one byte, if anything does.
pub fn check_byte(
    pages: &mut Pages,
    image: &Image,
    space: u8,
    p: Pkru,
    access: Access,
    address: u64,
) -> Option<(u64, Refusal)>
    requires whole { IsImage image.now }
    requires few { space < 16 }
    requires agree { Agrees image.now pages.old }
    ensures value { result ≡ access_check (page_entry image.now space) p access address 1 }
    ensures agree { Agrees image.now pages.new }
{
    let entry = pages.entry(image, space, address / 4096);
    match byte_refusal(entry, p, access, false) {
        Some(refusal) => Some((address, refusal)),
        None => None,
    }
}
