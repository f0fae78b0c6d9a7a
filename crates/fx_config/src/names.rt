//! Tests of names and numbers, and of lists in which nothing may stand twice.

ghost use Rattle.std.specs.Prelude.{◌≡◌, IfOk, map, nat_eq, bytes_eq, slice_index};
ghost use Rattle.std.specs.BTreeSet.{IsFromIterResult};
ghost use Rattle.std.specs.Cmp.Lexicographic.{slice_cmp};
ghost use Rattle.std.specs.HashSet.{IsFromIterResult as numbers_are_from};
ghost use Rattle.std.specs.Ordering.{nat_cmp};
ghost use Rattle.std.specs.List.{list_all};
ghost use Rattle.fx_config.specs.Names.{may_begin, may_follow, is_c_name, is_file_name, all_differ, number_in};

use crate::lists::{FileName, Name};
use std::alloc::{AllocError, Global};
use std::collections::{BTreeSet, HashSet};

fn may_begin(byte: u8) -> bool
    ensures { result ≡ may_begin byte }
{
    byte.is_ascii_alphabetic() || byte == b'_'
}

fn may_follow(byte: u8) -> bool
    ensures { result ≡ may_follow byte }
{
    byte.is_ascii_alphanumeric() || byte == b'_'
}

fn begins_as_c_name(text: &[u8]) -> bool
    ensures { result ≡ may_begin (slice_index text.now 0) }
{
    if text.is_empty() {
        false
    } else {
        may_begin(text[0])
    }
}

fn all_may_follow(text: &[u8]) -> bool
    ensures { result ≡ list_all may_follow text.now }
{
    text.iter().all(|byte| may_follow(*byte))
}

/// Whether the text has the shape of a C identifier of at most 63 bytes.
pub fn is_c_name(text: &[u8]) -> bool
    ensures { result ≡ is_c_name text.now }
{
    if !begins_as_c_name(text) {
        return false;
    }
    if text.len() > 63 {
        return false;
    }
    all_may_follow(text)
}

/// Whether each name has the shape of a C identifier of at most 63 bytes.
pub fn are_c_names(names: &[Name]) -> bool
    ensures { result ≡ list_all is_c_name names.now }
{
    names.iter().all(|name| is_c_name(name.as_bytes()))
}

/// Whether each text may be a file's name.
pub fn are_file_names(names: &[FileName]) -> bool
    ensures { result ≡ list_all is_file_name names.now }
{
    names.iter().all(|name| !name.as_str().is_empty())
}

/// The number, if it is from `low` to `high`.
pub fn number_in(low: u8, high: u8, number: i64) -> Option<u8>
    ensures { result ≡ number_in low high number }
{
    if number >= i64::from(low) && number <= i64::from(high) {
        Some(number as u8)
    } else {
        None
    }
}

/// Each name once.
fn distinct_names<'a>(alloc: Global, names: &[&'a [u8]]) -> Result<BTreeSet<&'a [u8]>, AllocError>
    ensures { IfOk result (IsFromIterResult (λ x y. slice_cmp nat_cmp x.now y.now) names.now) }
{
    names.iter().copied().collect(alloc)
}

/// Whether no name stands twice.
pub fn names_differ(alloc: Global, names: &[&[u8]]) -> Result<bool, AllocError>
    ensures { IfOk result (λ b. b ≡ all_differ bytes_eq (map (λ s. s.now) names.now)) }
{
    let distinct = distinct_names(alloc, names)?;
    Ok(distinct.len() == names.len())
}

/// Each number once.
fn distinct_numbers(alloc: Global, numbers: &[u8]) -> Result<HashSet<u8>, AllocError>
    ensures { IfOk result (numbers_are_from nat_eq numbers.now) }
{
    numbers.iter().copied().collect(alloc)
}

/// Whether no number stands twice.
pub fn numbers_differ(alloc: Global, numbers: &[u8]) -> Result<bool, AllocError>
    ensures { IfOk result (λ b. b ≡ all_differ nat_eq numbers.now) }
{
    let distinct = distinct_numbers(alloc, numbers)?;
    Ok(distinct.len() == numbers.len())
}
