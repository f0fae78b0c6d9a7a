//! The lines of the header, and what the lines of the tables are made of.

ghost use Rattle.std.specs.Prelude.{◌≡◌, ◌<◌, ◌≤◌, ◌+◌, ◌++◌, Bool, OnOk, length, slice_get, if◌then◌else◌};
ghost use Rattle.fx_image.specs.Layout.{code_start};
ghost use Rattle.fx_cmd_base.specs.Hex.{hex};
ghost use Rattle.fx_cmd_show.specs.Words.{mechanism_word, name_of, member_word, member_words, reads_key, writes_key, number_word, read_words, written_words};
ghost use Rattle.fx_cmd_show.specs.Lines.{literals_start, version_line, mechanism_line, roles_line, code_line, literals_line, header, rights_words, keyed_rights};

use crate::text::Text;
use fx_image::{Comp, Image, has_member, is_keyed};
use std::alloc::AllocError;

/// The address of the code's first byte.
const CODE_START: u64 = 0x40_0000;

/// The address of the literals' first byte.
const LITERALS_START: u64 = 0x60_0000;

/// The keys of pages.
const KEYS: u8 = 16;

fn put_mechanism_word(text: &mut Text, mechanism: u8) -> Result<(), AllocError>
    ensures { OnOk result (text.new ≡ text.old ++ mechanism_word mechanism) }
{
    match mechanism {
        0 => text.put_words("call"),
        1 => text.put_words("light"),
        2 => text.put_words("full"),
        _ => text.put_words("ept"),
    }
}

/// The address of a place in the code.
pub fn code_address(offset: u32) -> u64
    ensures { result ≡ code_start + offset }
{
    CODE_START + u64::from(offset)
}

/// Adds the address of a place in the code.
pub fn put_place(text: &mut Text, offset: u32) -> Result<(), AllocError>
    ensures { OnOk result (text.new ≡ text.old ++ hex (code_start + offset)) }
{
    text.put_address(code_address(offset))
}

/// Adds the name of the compartment of a number, if there is one.
pub fn put_name(text: &mut Text, comps: &[Comp], number: u8) -> Result<(), AllocError>
    ensures { OnOk result (text.new ≡ text.old ++ name_of (slice_get comps.now number)) }
{
    match comps.get(usize::from(number)) {
        Some(comp) => text.put(comp.name.as_slice()),
        None => text.put_words("none"),
    }
}

// Adds the name of a compartment, where the set has it.
fn put_member(text: &mut Text, set: u16, number: u8, comp: &Comp) -> Result<(), AllocError>
    requires { number < 16 }
    ensures { OnOk result (text.new ≡ text.old ++ member_word set number comp.now) }
{
    if !has_member(set, number) {
        return Ok(());
    }
    text.put_words(" ")?;
    text.put(comp.name.as_slice())
}

/// Adds the names of a set's compartments, of at most sixteen.
pub fn put_members(text: &mut Text, comps: &[Comp], set: u16) -> Result<(), AllocError>
    requires { length comps.now ≤ 16 }
    ensures { OnOk result (text.new ≡ text.old ++ member_words comps.now set) }
{
    for (number, comp) in comps.iter().enumerate() {
        put_member(text, set, number as u8, comp)?;
    }
    Ok(())
}

// Whether a PKRU value lets pages of a key be read.
fn reads_key(pkru: u32, key: u8) -> bool
    requires { key < 16 }
    ensures { result ≡ reads_key pkru key }
{
    (pkru >> (2 * key)) & 1 == 0
}

// Whether it lets them be written.
fn writes_key(pkru: u32, key: u8) -> bool
    requires { key < 16 }
    ensures { result ≡ writes_key pkru key }
{
    reads_key(pkru, key) && (pkru >> (2 * key + 1)) & 1 == 0
}

// Adds a key behind a space, where it is wanted.
fn put_key(text: &mut Text, wanted: bool, key: u8) -> Result<(), AllocError>
    ensures { OnOk result (text.new ≡ text.old ++ number_word wanted key) }
{
    if !wanted {
        return Ok(());
    }
    text.put_words(" ")?;
    text.put_decimal(u64::from(key))
}

#[tactic(auto, unfolding(crate::specs::Words::read_words))]
fn put_read_keys(text: &mut Text, pkru: u32) -> Result<(), AllocError>
    ensures { OnOk result (text.new ≡ text.old ++ read_words pkru) }
{
    for key in 0..KEYS {
        put_key(text, reads_key(pkru, key), key)?;
    }
    Ok(())
}

#[tactic(auto, unfolding(crate::specs::Words::written_words))]
fn put_written_keys(text: &mut Text, pkru: u32) -> Result<(), AllocError>
    ensures { OnOk result (text.new ≡ text.old ++ written_words pkru) }
{
    for key in 0..KEYS {
        put_key(text, writes_key(pkru, key), key)?;
    }
    Ok(())
}

// Adds the PKRU value of a compartment, with the keys of the pages that it lets read and write.
fn put_rights(text: &mut Text, pkru: u32) -> Result<(), AllocError>
    ensures { OnOk result (text.new ≡ text.old ++ rights_words pkru) }
{
    text.put_words(", pkru ")?;
    text.put_value(pkru)?;
    text.put_words(", reads keys")?;
    put_read_keys(text, pkru)?;
    text.put_words(", writes keys")?;
    put_written_keys(text, pkru)
}

/// Adds the PKRU value of a compartment with what it lets do, where the mechanism has keys.
pub fn put_keyed_rights(text: &mut Text, mechanism: u8, pkru: u32) -> Result<(), AllocError>
    ensures { OnOk result (text.new ≡ text.old ++ keyed_rights mechanism pkru) }
{
    if !is_keyed(mechanism) {
        return Ok(());
    }
    put_rights(text, pkru)
}

fn put_version(text: &mut Text, version: u16) -> Result<(), AllocError>
    ensures { OnOk result (text.new ≡ text.old ++ version_line version) }
{
    text.put_words("FlexOS image, version ")?;
    text.put_decimal(version as u64)?;
    text.end_line()
}

fn put_mechanism(text: &mut Text, image: &Image) -> Result<(), AllocError>
    ensures { OnOk result (text.new ≡ text.old ++ mechanism_line image.now) }
{
    text.put_words("mechanism ")?;
    put_mechanism_word(text, image.mechanism)?;
    text.put_words(", ")?;
    text.put_decimal(image.threads as u64)?;
    text.put_words(" threads, ")?;
    text.put_decimal(image.stack_pages as u64)?;
    text.put_words(" stack pages")?;
    text.end_line()
}

fn put_roles(text: &mut Text, image: &Image) -> Result<(), AllocError>
    ensures { OnOk result (text.new ≡ text.old ++ roles_line image.now) }
{
    let comps = image.compartments.as_slice();
    text.put_words("scheduler ")?;
    put_name(text, comps, image.scheduler)?;
    text.put_words(", home ")?;
    put_name(text, comps, image.home)?;
    text.end_line()
}

fn put_code(text: &mut Text, image: &Image) -> Result<(), AllocError>
    ensures { OnOk result (text.new ≡ text.old ++ code_line image.now) }
{
    text.put_words("code ")?;
    text.put_address(CODE_START)?;
    text.put_words(" ")?;
    text.put_length(&image.code)?;
    text.put_words(" bytes, abort stub ")?;
    put_place(text, image.abort)?;
    text.end_line()
}

fn put_literals(text: &mut Text, image: &Image) -> Result<(), AllocError>
    ensures { OnOk result (text.new ≡ text.old ++ literals_line image.now) }
{
    text.put_words("literals ")?;
    text.put_address(LITERALS_START)?;
    text.put_words(" ")?;
    text.put_length(&image.literals)?;
    text.put_words(" bytes")?;
    text.end_line()
}

/// Adds the lines of the image's header.
pub fn put_header(text: &mut Text, image: &Image) -> Result<(), AllocError>
    ensures { OnOk result (text.new ≡ text.old ++ header image.now) }
{
    put_version(text, image.version)?;
    put_mechanism(text, image)?;
    put_roles(text, image)?;
    put_code(text, image)?;
    put_literals(text, image)
}
