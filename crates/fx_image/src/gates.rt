//! The rules of the entries and of the stubs.

ghost use Rattle.std.specs.Prelude.{◌≡◌, ℕ, ◌+◌, ◌<◌, ◌≤◌, ◌^◌, if◌then◌else◌, ◌==◌, ◌&&◌, ◌||◌, nat_lt, nat_le, IsTrue, length, slice_index};
ghost use Rattle.std.specs.Option.{option_copied};
ghost use Rattle.std.specs.List.{list_all};
ghost use Rattle.fx_image.specs.Rules.{has_room, is_entry, are_counted, are_entries, entry_count, is_key_sequence};
ghost use Rattle.fx_image.specs.Rules.{is_in_runtime, is_between, is_placed, is_stub, are_stubs};

use crate::compartments::ranges_end;
use crate::forms::{Comp, EntryRec, Stub};
use crate::keys::is_keyed;
use crate::names::is_c_name;

/// Whether entry `number` begins inside the compartment's range.
fn has_room(comp: Option<&Comp>, number: u16) -> bool
    ensures { result ≡ has_room (option_copied comp.entry) number }
{
    match comp {
        None => false,
        Some(c) => 16 * u32::from(number) < c.len,
    }
}

/// Whether a set has only some of the first n compartments.
fn is_among(set: u16, n: usize) -> bool
    requires { n ≤ 16 }
    ensures { result ≡ nat_lt set (2 ^ n) }
{
    u32::from(set) < 1 << n
}

fn is_entry(comps: &[Comp], e: &EntryRec) -> bool
    requires { length comps.now ≤ 16 }
    ensures { result ≡ is_entry comps.now e.now }
{
    is_c_name(e.name.as_slice())
        && has_room(comps.get(usize::from(e.compartment)), e.number)
        && is_among(e.callers, comps.len())
}

fn are_all_entries(comps: &[Comp], entries: &[EntryRec]) -> bool
    requires { length comps.now ≤ 16 }
    ensures { result ≡ list_all (is_entry comps.now) entries.now }
{
    for e in entries {
        if !is_entry(comps, e) {
            return false;
        }
    }
    true
}

/// Whether entry `e` stands right behind one of compartment `c` and the number before `number`.
fn follows(c: u8, number: u32, e: &EntryRec) -> bool
    ensures { result ≡ ((e.now.compartment == c && e.now.number == number) || (nat_lt c e.now.compartment && e.now.number == 0)) }
{
    (e.compartment == c && u32::from(e.number) == number) || (c < e.compartment && e.number == 0)
}

/// Whether the entries stand by compartment, and each compartment's numbers go from 0 without a gap.
fn are_counted(entries: &[EntryRec]) -> bool
    ensures { result ≡ are_counted 0 0 entries.now }
{
    let mut compartment = 0;
    let mut number = 0;
    for e in entries {
        if !follows(compartment, number, e) {
            return false;
        }
        compartment = e.compartment;
        number = u32::from(e.number) + 1;
    }
    true
}

pub(crate) fn are_entries(comps: &[Comp], entries: &[EntryRec]) -> bool
    requires { length comps.now ≤ 16 }
    ensures { result ≡ are_entries comps.now entries.now }
{
    entries.len() < 1 << 16 && are_all_entries(comps, entries) && are_counted(entries)
}

/// The bytes of WRPKRU (SDM volume 2).
const WRPKRU: [u8; 3] = [0x0f, 0x01, 0xef];

/// Whether WRPKRU stands at this place in the code.
pub fn is_key_sequence(code: &[u8], at: usize) -> bool
    ensures { result ≡ is_key_sequence code.now at }
{
    at <= code.len() && code[at..].starts_with(&WRPKRU)
}

/// Whether the offset is a place in the range of the runtime, which starts at `runtime`.
fn is_within(runtime: u64, code: &[u8], at: u32) -> bool
    ensures { result ≡ (nat_le runtime at && nat_lt at (length code.now)) }
{
    runtime <= u64::from(at) && (at as usize) < code.len()
}

/// Whether the offset is a place in the runtime's range.
pub(crate) fn is_in_runtime(comps: &[Comp], code: &[u8], at: u32) -> bool
    requires { length comps.now < 256 }
    ensures { result ≡ is_in_runtime comps.now code.now at }
{
    is_within(ranges_end(comps), code, at)
}

/// Counts an entry of this compartment.
fn count_entry(counts: &mut [u32; 16], compartment: u8)
    requires { (c : ℕ) → c < 16 → slice_index counts.old c < 2 ^ 16 }
    ensures { (c : ℕ) → c < 16 → slice_index counts.new c ≡ slice_index counts.old c + (if compartment == c then 1 else 0) }
{
    let c = usize::from(compartment);
    if c < 16 {
        counts[c] += 1;
    }
}

/// The number of entries of each compartment.
fn entry_counts(entries: &[EntryRec]) -> [u32; 16]
    requires { length entries.now < 2 ^ 16 }
    ensures { (c : ℕ) → c < 16 → slice_index result c ≡ entry_count entries.now c }
{
    let mut counts = [0; 16];
    for e in entries {
        count_entry(&mut counts, e.compartment);
    }
    counts
}

/// Whether a stub leads from one of n compartments to another.
fn is_between(n: usize, s: &Stub) -> bool
    requires { n ≤ 16 }
    ensures value { result ≡ is_between n s.now }
    ensures small { IsTrue result → s.now.to < 16 }
{
    s.from != s.to && usize::from(s.from) < n && usize::from(s.to) < n
}

/// Whether a stub lies in the runtime's range, with a WRPKRU at both of its places.
fn is_placed(comps: &[Comp], code: &[u8], s: &Stub) -> bool
    requires { length comps.now < 256 }
    ensures { result ≡ is_placed comps.now code.now s.now }
{
    is_in_runtime(comps, code, s.offset)
        && s.offset < s.first
        && s.first < s.second
        && is_in_runtime(comps, code, s.second)
        && is_key_sequence(code, s.first as usize)
        && is_key_sequence(code, s.second as usize)
}

/// Whether a stub's entry is one of so many, and the stub lies where it may.
fn is_good(count: u32, comps: &[Comp], code: &[u8], s: &Stub) -> bool
    requires { length comps.now < 256 }
    ensures { result ≡ (nat_lt s.now.entry count && is_placed comps.now code.now s.now) }
{
    u32::from(s.entry) < count && is_placed(comps, code, s)
}

/// Whether a stub meets its rule; `counts` has the number of each compartment's entries.
fn is_stub(comps: &[Comp], code: &[u8], entries: &[EntryRec], counts: &[u32; 16], s: &Stub) -> bool
    requires few { length comps.now ≤ 16 }
    requires counted { (c : ℕ) → c < 16 → slice_index counts.now c ≡ entry_count entries.now c }
    ensures { result ≡ is_stub comps.now code.now entries.now s.now }
{
    let _entries = entries;
    if !is_between(comps.len(), s) {
        return false;
    }
    is_good(counts[usize::from(s.to)], comps, code, s)
}

fn are_all_stubs(comps: &[Comp], code: &[u8], entries: &[EntryRec], stubs: &[Stub]) -> bool
    requires few { length comps.now ≤ 16 }
    requires counted { length entries.now < 2 ^ 16 }
    ensures { result ≡ list_all (is_stub comps.now code.now entries.now) stubs.now }
{
    let counts = entry_counts(entries);
    for s in stubs {
        if !is_stub(comps, code, entries, &counts, s) {
            return false;
        }
    }
    true
}

/// Whether the stubs meet their rules; without protection keys there are none.
pub(crate) fn are_stubs(
    mechanism: u8,
    comps: &[Comp],
    code: &[u8],
    entries: &[EntryRec],
    stubs: &[Stub],
) -> bool
    requires few { length comps.now ≤ 16 }
    requires counted { length entries.now < 2 ^ 16 }
    ensures { result ≡ are_stubs mechanism comps.now code.now entries.now stubs.now }
{
    if is_keyed(mechanism) {
        stubs.len() < 1 << 16 && are_all_stubs(comps, code, entries, stubs)
    } else {
        stubs.is_empty()
    }
}
