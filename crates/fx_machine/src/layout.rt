//! What each page of each address space is.

ghost use Rattle.std.specs.Prelude.{◌≡◌, ◌≢◌, ◌<◌, ◌^◌, Some, slice_get};
ghost use Rattle.fx_vm_pages.specs.Access.{HasKey};
ghost use Rattle.fx_image.specs.Rules.{IsImage};
ghost use Rattle.fx_machine_model.specs.Layout.{mapped, is_ept, is_in_range, maps_code, code_entry, literal_entry, is_mailbox, mailbox_entry, thread_entry, device_entry, section_page, section_entry, stack_entry, stack_page, low_half, high_half, key_of, common_key, page_entry};

use bitflags::Flags;
use fx_image::{Comp, Image, Section, has_member, ranges_end};
use fx_machine_model::layout::{has_halves, is_keyed, stack_count, stack_span};
use fx_vm_pages::entry::{Entry, PageFlags};

/// A page whose frame has its own number.
#[inline]
fn mapped(page: u64, flags: PageFlags, key: u8) -> Entry
    requires { page < 2 ^ 32 }
    ensures { Some result ≡ mapped page flags.0 key }
{
    Entry {
        frame: page as u32,
        flags,
        key,
    }
}

/// Whether each compartment has an address space of its own.
#[inline]
pub fn is_ept(image: &Image) -> bool
    ensures { result ≡ is_ept image.now }
{
    image.mechanism == 3
}

/// The key of a section, 0 where there is none.
fn key_at(image: &Image, section: usize) -> u8
    ensures { result ≡ key_of (slice_get image.now.sections section) }
{
    match image.sections.as_slice().get(section) {
        Some(section) => section.key,
        None => 0,
    }
}

/// Whether a place of the code is in a compartment's range.
fn has_place(comp: &Comp, offset: u64) -> bool
    ensures { result ≡ is_in_range (Some comp.now) offset }
{
    let start = comp.start;
    let len = comp.len;
    u64::from(start) <= offset && offset < u64::from(start) + u64::from(len)
}

/// Whether it is in the range of the compartment of a number.
fn is_in_range(image: &Image, compartment: u8, offset: u64) -> bool
    ensures { result ≡ is_in_range (slice_get image.now.compartments compartment) offset }
{
    match image.compartments.as_slice().get(usize::from(compartment)) {
        None => false,
        Some(comp) => has_place(comp, offset),
    }
}

/// Whether a space maps the code at a place.
fn maps_code(image: &Image, space: u8, offset: u64) -> bool
    requires { IsImage image.now }
    ensures { result ≡ maps_code image.now space offset }
{
    !is_ept(image)
        || is_in_range(image, space, offset)
        || ranges_end(image.compartments.as_slice()) <= offset
}

fn code_entry(image: &Image, space: u8, page: u64) -> Option<Entry>
    requires whole { IsImage image.now }
    requires small { page < 2 ^ 32 }
    ensures { result ≡ code_entry image.now space page }
{
    if page < 0x400 {
        return None;
    }
    let offset = (page - 0x400) * 4096;
    if offset < image.code.len() as u64 && maps_code(image, space, offset) {
        Some(mapped(page, PageFlags::EXEC, 0))
    } else {
        None
    }
}

fn literal_entry(image: &Image, page: u64) -> Option<Entry>
    requires small { page < 2 ^ 32 }
    ensures { result ≡ literal_entry image.now page }
{
    if page >= 0x600 && (page - 0x600) * 4096 < image.literals.len() as u64 {
        Some(mapped(page, PageFlags::empty(), 0))
    } else {
        None
    }
}

/// Whether a space maps the mailbox from one compartment to another.
fn is_mailbox(image: &Image, space: u8, from: u64, to: u64) -> bool
    ensures { result ≡ is_mailbox image.now space from to }
{
    let count = image.compartments.len() as u64;
    is_ept(image)
        && from != to
        && from < count
        && to < count
        && (u64::from(space) == from || u64::from(space) == to)
}

fn mailbox_entry(image: &Image, space: u8, page: u64) -> Option<Entry>
    requires small { page < 2 ^ 32 }
    ensures { result ≡ mailbox_entry image.now space page }
{
    if page < 0xe000 {
        return None;
    }
    if is_mailbox(image, space, (page - 0xe000) / 16, (page - 0xe000) % 16) {
        Some(mapped(page, PageFlags::WRITE, 0))
    } else {
        None
    }
}

/// The current thread's word.
fn thread_entry(image: &Image, space: u8, page: u64) -> Option<Entry>
    requires small { page < 2 ^ 32 }
    ensures { result ≡ thread_entry image.now space page }
{
    if page == 0xf000 {
        let flags = if is_ept(image) && space != image.scheduler {
            PageFlags::empty()
        } else {
            PageFlags::WRITE
        };
        let key = if is_keyed(image) { 1 } else { 0 };
        Some(mapped(page, flags, key))
    } else {
        None
    }
}

fn device_entry(image: &Image, space: u8, page: u64) -> Option<Entry>
    requires small { page < 2 ^ 32 }
    ensures { result ≡ device_entry image.now space page }
{
    if !(0xf100..0xf110).contains(&page) {
        return None;
    }
    let owner = image.owners[(page - 0xf100) as usize];
    if is_ept(image) && space != owner {
        return None;
    }
    let flags = PageFlags::WRITE.union(PageFlags::DEVICE);
    Some(mapped(page, flags, key_at(image, usize::from(owner))))
}

/// A page of a section.
fn section_page(ept: bool, space: u8, page: u64, section: &Section) -> Option<Entry>
    requires few { space < 16 }
    requires small { page < 2 ^ 32 }
    ensures { result ≡ section_page ept space page section.now }
{
    if !ept {
        return Some(mapped(page, PageFlags::WRITE, section.key));
    }
    if !has_member(section.readers, space) {
        return None;
    }
    let flags = if has_member(section.writers, space) {
        PageFlags::WRITE
    } else {
        PageFlags::empty()
    };
    Some(mapped(page, flags, section.key))
}

/// The page of the first section that has it.
fn section_entry(ept: bool, space: u8, page: u64, sections: &[Section]) -> Option<Entry>
    requires few { space < 16 }
    requires small { page < 2 ^ 32 }
    ensures { result ≡ section_entry ept space page sections.now }
{
    match sections {
        [] => None,
        [section, rest @ ..] => {
            let first = u64::from(section.page);
            let pages = u64::from(section.pages);
            if first <= page && page < first + pages {
                section_page(ept, space, page, section)
            } else {
                section_entry(ept, space, page, rest)
            }
        }
    }
}

fn common_key(image: &Image) -> u8
    ensures { result ≡ common_key image.now }
{
    let n = image.compartments.len();
    key_at(image, if n == 1 { 0 } else { n })
}

fn low_half(image: &Image, space: u8, k: u64, page: u64) -> Option<Entry>
    requires whole { IsImage image.now }
    requires small { page < 2 ^ 32 }
    ensures { result ≡ low_half image.now space k page }
{
    if !has_halves(image) {
        return Some(mapped(page, PageFlags::WRITE, common_key(image)));
    }
    let owner = k % image.compartments.len() as u64;
    if is_ept(image) && u64::from(space) != owner {
        return None;
    }
    Some(mapped(page, PageFlags::WRITE, key_at(image, owner as usize)))
}

/// The page of stack k that stands so many bytes behind the beginning of its low half.
fn stack_page(image: &Image, space: u8, k: u64, place: u64, page: u64) -> Option<Entry>
    requires whole { IsImage image.now }
    requires small { page < 2 ^ 32 }
    ensures { result ≡ stack_page image.now space k place page }
{
    let half = 4096 * u64::from(image.stack_pages);
    if place < half {
        low_half(image, space, k, page)
    } else if place < 2 * half && has_halves(image) {
        Some(mapped(page, PageFlags::WRITE, common_key(image)))
    } else {
        None
    }
}

fn stack_entry(image: &Image, space: u8, page: u64) -> Option<Entry>
    requires whole { IsImage image.now }
    requires small { page < 2 ^ 32 }
    ensures { result ≡ stack_entry image.now space page }
{
    if page * 4096 < 0x2000_1000 {
        return None;
    }
    let at = page * 4096 - 0x2000_1000;
    let span = stack_span(image);
    if at / span < stack_count(image) {
        stack_page(image, space, at / span, at % span, page)
    } else {
        None
    }
}

/// The entry of a page whose number is below 2^32.
#[tactic(auto, using(crate::proofs::Spaces::in_order))]
fn low_entry(image: &Image, space: u8, page: u64) -> Option<Entry>
    requires whole { IsImage image.now }
    requires few { space < 16 }
    requires small { page < 2 ^ 32 }
    ensures { result ≡ page_entry image.now space page }
{
    code_entry(image, space, page)
        .or(literal_entry(image, page))
        .or(mailbox_entry(image, space, page))
        .or(thread_entry(image, space, page))
        .or(device_entry(image, space, page))
        .or(section_entry(is_ept(image), space, page, image.sections.as_slice()))
        .or(stack_entry(image, space, page))
}

/// The entry of a page in the address space of this number.
#[tactic(auto, using(crate::proofs::Spaces::none_above, crate::proofs::Entries::entry_keyed))]
pub fn entry(image: &Image, space: u8, page: u64) -> Option<Entry>
    requires whole { IsImage image.now }
    requires few { space < 16 }
    ensures value { result ≡ page_entry image.now space page }
    ensures keyed { HasKey result }
{
    if page < 0x1_0000_0000 {
        low_entry(image, space, page)
    } else {
        None
    }
}
