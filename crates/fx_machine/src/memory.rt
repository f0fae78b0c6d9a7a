//! The memory that may be written: the regions of the stacks, of the sections, of the current thread's
//! word and of the mailboxes. All other bytes stay what they are at boot.

ghost use Rattle.std.specs.Prelude.{◌≡◌, ◌+◌, ◌-◌, ◌<◌, ◌≤◌, ◌^◌, ◌==◌, ℕ, IsTrue, IfOk, if◌then◌else◌, slice_index, slice_set, length};
ghost use Rattle.fx_x64_forms.specs.Numbers.{width_bytes};
ghost use Rattle.fx_cpu.specs.Memory.{on, word_at, stored};
ghost use Rattle.fx_cpu.specs.Flat.{bytes_of, written};
ghost use Rattle.fx_image.specs.Rules.{IsImage};
ghost use Rattle.fx_image.specs.declared.forms.Image.{Image};
ghost use Rattle.fx_machine_model.specs.Boot.{boot_byte};
ghost use Rattle.fx_machine_model.specs.Regions.{sections_end};
ghost use Rattle.fx_machine.specs.Memory.{memory_of, held, is_held, IsLaidOut, HasWord};

use crate::filling::region;
use crate::layout::is_ept;
use fx_image::{Image, Section};
use fx_machine_model::boot::{boot_byte, byte_of};
use fx_machine_model::layout::{stack_count, stack_span};
use fx_x64_forms::operand::Width;
use std::alloc::{AllocError, Global};

/// Where the mailboxes begin.
const MAIL: u64 = 0xe00_0000;

/// Where the current thread's word is.
const WORD: u64 = 0xf00_0000;

/// Where the sections begin.
const SECTIONS: u64 = 0x1000_0000;

/// Where the low half of the first stack begins.
const STACKS: u64 = 0x2000_1000;

/// The bytes of each region, from its first address on.
#[derive(Drop)]
pub struct Memory {
    pub stacks: Vec<u8>,
    pub sections: Vec<u8>,
    pub word: Vec<u8>,
    pub mail: Vec<u8>,
}

/// Sets one of some bytes.
#[inline]
fn set_byte(bytes: &mut Vec<u8>, at: u64, value: u8)
    requires { at < length bytes.old.items }
    ensures { bytes.new.items ≡ slice_set bytes.old.items at value }
{
    bytes[at as usize] = value;
}

/// The word at a place of some bytes, its lowest byte first.
#[inline(always)]
#[tactic(auto, unfolding(fx_cpu::specs::Memory::word_at))]
fn word_in(bytes: &[u8], width: Width, at: usize) -> u64
    requires { at + width_bytes width ≤ length bytes.now }
    ensures { result ≡ word_at (bytes_of bytes.now) width at }
{
    match width {
        Width::W8 => u64::from(bytes[at]),
        Width::W16 => u64::from(u16::from_le_bytes([bytes[at], bytes[at + 1]])),
        Width::W32 => u64::from(u32::from_le_bytes([
            bytes[at],
            bytes[at + 1],
            bytes[at + 2],
            bytes[at + 3],
        ])),
        Width::W64 => u64::from_le_bytes([
            bytes[at],
            bytes[at + 1],
            bytes[at + 2],
            bytes[at + 3],
            bytes[at + 4],
            bytes[at + 5],
            bytes[at + 6],
            bytes[at + 7],
        ]),
    }
}

/// Whether all bytes of a word at an address are a region's, of those from `start` up to `end`.
#[inline(always)]
fn has_word(bytes: &Vec<u8>, start: u64, end: u64, width: Width, address: u64) -> bool
    requires { 8 ≤ end }
    ensures { IsTrue result → HasWord start end (length bytes.now.items) width address }
{
    let n = u64::from(width.bytes());
    if address < start || address > end - n {
        return false;
    }
    let size = bytes.len() as u64;
    n <= size && address - start <= size - n
}

/// Writes the low bytes of a number at a place, the lowest first.
#[inline(always)]
fn write(bytes: &mut [u8], n: usize, at: usize, value: u64)
    requires small { n < 9 }
    requires room { at + n ≤ length bytes.old }
    ensures { (k : ℕ) → slice_index bytes.new k ≡ written (bytes_of bytes.old) n at value k }
{
    let mut rest = value;
    for i in 0..n {
        bytes[at + i] = (rest & 0xff) as u8;
        rest >>= 8;
    }
}

/// Writes them into a region.
#[inline(always)]
fn write_region(bytes: &mut Vec<u8>, n: usize, at: usize, value: u64)
    requires small { n < 9 }
    requires room { at + n ≤ length bytes.old.items }
    ensures bytes { bytes_of bytes.new.items ≡ written (bytes_of bytes.old.items) n at value }
    ensures size { length bytes.new.items ≡ length bytes.old.items }
{
    write(bytes, n, at, value);
}

/// Stores a word at a place of a region.
#[inline(always)]
fn put_word(bytes: &mut Vec<u8>, width: Width, at: u64, value: u64)
    requires { at + width_bytes width ≤ length bytes.old.items }
    ensures bytes { bytes_of bytes.new.items ≡ stored (bytes_of bytes.old.items) width at value }
    ensures size { length bytes.new.items ≡ length bytes.old.items }
{
    match width {
        Width::W8 => write_region(bytes, 1, at as usize, value),
        Width::W16 => write_region(bytes, 2, at as usize, value),
        Width::W32 => write_region(bytes, 4, at as usize, value),
        Width::W64 => write_region(bytes, 8, at as usize, value),
    }
}

/// The page behind a section.
fn section_end(section: &Section) -> u64
    ensures value { result ≡ section.now.page + section.now.pages }
    ensures small { result < 2 ^ 33 }
{
    let page = section.page;
    let pages = section.pages;
    u64::from(page) + u64::from(pages)
}

/// The page behind the last one of the sections.
fn sections_end(sections: &[Section]) -> u64
    ensures value { result ≡ sections_end sections.now }
    ensures low { 0x10000 ≤ result }
    ensures small { result < 2 ^ 33 }
{
    match sections {
        [] => 0x10000,
        [section, rest @ ..] => section_end(section).max(sections_end(rest)),
    }
}

impl Memory {
    /// The memory of an image at boot.
    pub fn boot(alloc: Global, image: &Image) -> Result<Memory, AllocError>
        requires { IsImage image.now }
        ensures laid { IfOk result (λ m. IsLaidOut image.now m) }
        ensures bytes { IfOk result (λ m. memory_of image.now m ≡ boot_byte image.now) }
    {
        let pages = sections_end(image.sections.as_slice()) - 0x10000;
        let mailboxes = if is_ept(image) { 0x10_0000 } else { 0 };
        let stacks = region(alloc, image, STACKS, stack_count(image) * stack_span(image))?;
        let sections = region(alloc, image, SECTIONS, 4096 * pages)?;
        let word = region(alloc, image, WORD, 4096)?;
        let mail = region(alloc, image, MAIL, mailboxes)?;
        Ok(Memory {
            stacks,
            sections,
            word,
            mail,
        })
    }

    /// The byte that a region has at an address.
    #[inline]
    fn held(&self, address: u64) -> Option<u8>
        ensures { result ≡ held self.now address }
    {
        if STACKS <= address {
            return self.stacks.get((address - STACKS) as usize).copied();
        }
        if SECTIONS <= address {
            return self.sections.get((address - SECTIONS) as usize).copied();
        }
        if WORD <= address {
            return self.word.get((address - WORD) as usize).copied();
        }
        if MAIL <= address {
            return self.mail.get((address - MAIL) as usize).copied();
        }
        None
    }

    /// The byte at an address.
    #[inline]
    pub fn byte(&self, image: &Image, address: u64) -> u8
        requires { IsImage image.now }
        ensures { result ≡ memory_of image.now self.now address }
    {
        match self.held(address) {
            Some(byte) => byte,
            None => boot_byte(image, address),
        }
    }

    /// The byte so many bytes behind an address.
    #[inline]
    fn next(&self, image: &Image, address: u64, i: u64) -> u8
        requires { IsImage image.now }
        ensures { result ≡ memory_of image.now self.now (on address i) }
    {
        self.byte(image, address.wrapping_add(i))
    }

    /// The word at an address, its lowest byte first.
    #[inline(always)]
    pub fn word_at(&self, image: &Image, width: Width, address: u64) -> u64
        requires { IsImage image.now }
        ensures { result ≡ word_at (memory_of image.now self.now) width address }
    {
        if has_word(&self.stacks, STACKS, u64::MAX, width, address) {
            word_in(&self.stacks, width, (address - STACKS) as usize)
        } else if has_word(&self.sections, SECTIONS, STACKS, width, address) {
            word_in(&self.sections, width, (address - SECTIONS) as usize)
        } else if has_word(&self.word, WORD, SECTIONS, width, address) {
            word_in(&self.word, width, (address - WORD) as usize)
        } else if has_word(&self.mail, MAIL, WORD, width, address) {
            word_in(&self.mail, width, (address - MAIL) as usize)
        } else {
            self.bytes_at(image, width, address)
        }
    }

    /// The same, byte by byte.
    #[inline(never)]
    #[tactic(auto, unfolding(fx_cpu::specs::Memory::word_at))]
    fn bytes_at(&self, image: &Image, width: Width, address: u64) -> u64
        requires { IsImage image.now }
        ensures { result ≡ word_at (memory_of image.now self.now) width address }
    {
        let first = self.byte(image, address);
        match width {
            Width::W8 => u64::from(first),
            Width::W16 => u64::from(u16::from_le_bytes([first, self.next(image, address, 1)])),
            Width::W32 => u64::from(u32::from_le_bytes([
                first,
                self.next(image, address, 1),
                self.next(image, address, 2),
                self.next(image, address, 3),
            ])),
            Width::W64 => u64::from_le_bytes([
                first,
                self.next(image, address, 1),
                self.next(image, address, 2),
                self.next(image, address, 3),
                self.next(image, address, 4),
                self.next(image, address, 5),
                self.next(image, address, 6),
                self.next(image, address, 7),
            ]),
        }
    }

    /// Sets a byte that a region has.
    #[inline]
    fn set(&mut self, address: u64, value: u8)
        requires { IsTrue (is_held self.old address) }
        ensures byte { (image : Image) (k : ℕ) → memory_of image self.new k ≡ (if k == address then value else memory_of image self.old k) }
        ensures held { (k : ℕ) → is_held self.new k ≡ is_held self.old k }
        ensures laid { (image : Image) → IsLaidOut image self.old → IsLaidOut image self.new }
    {
        if STACKS <= address {
            set_byte(&mut self.stacks, address - STACKS, value);
        } else if SECTIONS <= address {
            set_byte(&mut self.sections, address - SECTIONS, value);
        } else if WORD <= address {
            set_byte(&mut self.word, address - WORD, value);
        } else if MAIL <= address {
            set_byte(&mut self.mail, address - MAIL, value);
        }
    }

    /// Stores a value's low bytes at an address, the lowest first, where regions have all of them.
    #[inline(always)]
    pub fn store(&mut self, width: Width, address: u64, value: u64)
        requires { (i : ℕ) → i < width_bytes width → IsTrue (is_held self.old (on address i)) }
        ensures bytes { (image : Image) → memory_of image self.new ≡ stored (memory_of image self.old) width address value }
        ensures laid { (image : Image) → IsLaidOut image self.old → IsLaidOut image self.new }
    {
        if has_word(&self.stacks, STACKS, u64::MAX, width, address) {
            put_word(&mut self.stacks, width, address - STACKS, value);
        } else if has_word(&self.sections, SECTIONS, STACKS, width, address) {
            put_word(&mut self.sections, width, address - SECTIONS, value);
        } else if has_word(&self.word, WORD, SECTIONS, width, address) {
            put_word(&mut self.word, width, address - WORD, value);
        } else if has_word(&self.mail, MAIL, WORD, width, address) {
            put_word(&mut self.mail, width, address - MAIL, value);
        } else {
            self.store_bytes(width, address, value);
        }
    }

    /// The same, byte by byte.
    #[inline(never)]
    fn store_bytes(&mut self, width: Width, address: u64, value: u64)
        requires { (i : ℕ) → i < width_bytes width → IsTrue (is_held self.old (on address i)) }
        ensures bytes { (image : Image) → memory_of image self.new ≡ stored (memory_of image self.old) width address value }
        ensures laid { (image : Image) → IsLaidOut image self.old → IsLaidOut image self.new }
    {
        for i in 0..u64::from(width.bytes()) {
            self.set(address.wrapping_add(i), byte_of(value, i));
        }
    }
}
