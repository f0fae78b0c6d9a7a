//! The rules of the sections, and of the PKRU values that follow from them.

ghost use Rattle.std.specs.Prelude.{◌≡◌, ◌+◌, ◌<◌, ◌≤◌, ◌^◌, ◌==◌, nat_le, sum_by, length, if◌then◌else◌};
ghost use Rattle.std.specs.List.{list_any, list_all};
ghost use Rattle.fx_image.specs.Keys.{is_keyed, pkru_of};
ghost use Rattle.fx_image.specs.Rules.{all_numbered, is_distinct_by, is_pair, has_set, leads, leading, same_pair, has_key};
ghost use Rattle.fx_image.specs.Rules.{are_spread, are_few, have_rights, are_sections};

use crate::forms::{Comp, Section};
use crate::keys::{is_keyed, pkru_of};

/// Whether the readers are among n compartments, and the writers some of the readers.
fn is_pair(version: u16, n: usize, s: &Section) -> bool
    requires { n ≤ 16 }
    ensures { result ≡ is_pair version n s.now }
{
    0 < s.writers
        && s.writers & s.readers == s.writers
        && u32::from(s.readers) < 1 << n
        && (version != 1 || s.readers == s.writers)
}

fn are_pairs(version: u16, n: usize, sections: &[Section]) -> bool
    requires { n ≤ 16 }
    ensures { result ≡ list_all (is_pair version n) sections.now }
{
    for s in sections {
        if !is_pair(version, n, s) {
            return false;
        }
    }
    true
}

fn has_set(set: u32, s: &Section) -> bool
    ensures { result ≡ has_set set s.now }
{
    u32::from(s.readers) == set && u32::from(s.writers) == set
}

/// Whether section k is the one that stands at its place, if only one may stand there.
fn leads(n: usize, k: usize, s: &Section) -> bool
    requires { n ≤ 16 }
    ensures { result ≡ leads n k s.now }
{
    if k < n {
        has_set(1 << k, s)
    } else if k == n && 1 < n {
        has_set((1 << n) - 1, s)
    } else {
        true
    }
}

fn all_lead(n: usize, sections: &[Section]) -> bool
    requires { n ≤ 16 }
    ensures { result ≡ all_numbered (leads n) 0 sections.now }
{
    for (k, s) in sections.iter().enumerate() {
        if !leads(n, k, s) {
            return false;
        }
    }
    true
}

fn have_keys(mechanism: u8, sections: &[Section]) -> bool
    ensures { result ≡ all_numbered (has_key mechanism) 0 sections.now }
{
    let keyed = is_keyed(mechanism);
    for (k, s) in sections.iter().enumerate() {
        if usize::from(s.key) != key_of(keyed, k) {
            return false;
        }
    }
    true
}

/// The key of section k.
fn key_of(keyed: bool, k: usize) -> usize
    requires { k < 2 ^ 63 }
    ensures { result ≡ (if keyed then 2 + k else 0) }
{
    if keyed { 2 + k } else { 0 }
}

/// Whether a section has this pair.
fn is_taken(sections: &[Section], pair: &Section) -> bool
    ensures { result ≡ list_any (same_pair pair.now) sections.now }
{
    for s in sections {
        if pair.readers == s.readers && pair.writers == s.writers {
            return true;
        }
    }
    false
}

fn have_distinct_pairs(sections: &[Section]) -> bool
    ensures { result ≡ is_distinct_by same_pair sections.now }
{
    for (k, s) in sections.iter().enumerate() {
        if is_taken(&sections[k + 1..], s) {
            return false;
        }
    }
    true
}

/// Whether each section has pages, from page 10000 hexadecimal on, with one page between two.
fn are_spread(sections: &[Section]) -> bool
    ensures { result ≡ are_spread 0x10000 sections.now }
{
    let mut page = 0x10000;
    for s in sections {
        if u64::from(s.page) != page || s.pages == 0 {
            return false;
        }
        page = u64::from(s.page) + u64::from(s.pages) + 1;
    }
    true
}

/// Whether all sections together have at most 16,384 pages.
fn have_few_pages(sections: &[Section]) -> bool
    ensures { result ≡ nat_le (sum_by (λ s. s.pages) sections.now) 16384 }
{
    let mut pages = 0;
    for s in sections {
        pages += u64::from(s.pages);
        if pages > 16384 {
            return false;
        }
    }
    true
}

/// Whether each compartment has the PKRU value that follows from the sections.
fn have_rights(mechanism: u8, sections: &[Section], scheduler: u8, comps: &[Comp]) -> bool
    requires { length comps.now ≤ 16 }
    ensures { result ≡ have_rights mechanism sections.now scheduler comps.now }
{
    for (c, comp) in comps.iter().enumerate() {
        if comp.pkru != rights(mechanism, sections, scheduler, c as u8) {
            return false;
        }
    }
    true
}

/// The PKRU value of a compartment: 0 without protection keys.
fn rights(mechanism: u8, sections: &[Section], scheduler: u8, compartment: u8) -> u32
    requires { compartment < 16 }
    ensures { result ≡ (if is_keyed mechanism then pkru_of sections.now scheduler compartment else 0) }
{
    if is_keyed(mechanism) {
        pkru_of(sections, scheduler, compartment)
    } else {
        0
    }
}

/// Whether the sections meet their rules, and the compartments' PKRU values are theirs.
pub(crate) fn are_sections(
    version: u16,
    mechanism: u8,
    scheduler: u8,
    comps: &[Comp],
    sections: &[Section],
) -> bool
    requires { length comps.now ≤ 16 }
    ensures { result ≡ are_sections version mechanism scheduler comps.now sections.now }
{
    let n = comps.len();
    let leading = if 1 < n { n + 1 } else { n };
    are_spread(sections)
        && have_few_pages(sections)
        && (!is_keyed(mechanism) || sections.len() <= 14)
        && leading <= sections.len()
        && are_pairs(version, n, sections)
        && all_lead(n, sections)
        && have_keys(mechanism, sections)
        && have_distinct_pairs(sections)
        && have_rights(mechanism, sections, scheduler, comps)
}
