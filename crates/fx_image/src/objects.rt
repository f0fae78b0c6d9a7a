//! The rules of the objects.

ghost use Rattle.std.specs.Prelude.{◌≡◌, IfOk, map};
ghost use Rattle.std.specs.BTreeSet.{IsFromIterResult};
ghost use Rattle.std.specs.Cmp.Lexicographic.{slice_cmp};
ghost use Rattle.std.specs.Ordering.{nat_cmp};
ghost use Rattle.std.specs.Option.{option_copied};
ghost use Rattle.std.specs.List.{list_all};
ghost use Rattle.std.specs.Str.{bytes_eq};
ghost use Rattle.fx_image.specs.declared.forms.Obj.{Obj};
ghost use Rattle.fx_image.specs.Rules.{is_distinct_by, is_inside, is_trimmed, is_object, are_apart, are_objects};

use crate::forms::{Obj, Section};
use crate::names::is_object_name;
use std::alloc::{AllocError, Global};
use std::collections::BTreeSet;

/// Whether the object lies in the section's pages.
fn is_inside(section: Option<&Section>, o: &Obj) -> bool
    ensures { result ≡ is_inside (option_copied section.entry) o.now }
{
    match section {
        None => false,
        Some(s) => {
            let start = 4096 * u64::from(s.page);
            let end = 4096 * (u64::from(s.page) + u64::from(s.pages));
            start <= o.address && o.address <= end && u64::from(o.size) <= end - o.address
        }
    }
}

/// Whether the last of the bytes, if there is one, isn't 0.
fn is_trimmed(bytes: &[u8]) -> bool
    ensures { result ≡ is_trimmed bytes.now }
{
    bytes.is_empty() || 0 < bytes[bytes.len() - 1]
}

fn is_object(sections: &[Section], o: &Obj) -> bool
    ensures { result ≡ is_object sections.now o.now }
{
    is_object_name(o.name.as_slice())
        && is_inside(sections.get(usize::from(o.section)), o)
        && o.initial.len() as u64 <= u64::from(o.size)
        && is_trimmed(o.initial.as_slice())
}

fn are_all_objects(sections: &[Section], objects: &[Obj]) -> bool
    ensures { result ≡ list_all (is_object sections.now) objects.now }
{
    for o in objects {
        if !is_object(sections, o) {
            return false;
        }
    }
    true
}

/// Whether each starts at least 16 bytes past the former's end.
fn are_apart(objects: &[Obj]) -> bool
    ensures { result ≡ are_apart 0 objects.now }
{
    let mut least = 0;
    for o in objects {
        if u128::from(o.address) < least {
            return false;
        }
        least = u128::from(o.address) + u128::from(o.size) + 16;
    }
    true
}

/// The objects' names, in order.
fn object_names(alloc: Global, objects: &[Obj]) -> Result<Vec<&[u8]>, AllocError>
    ensures { IfOk result (λ v. map (λ s. s.now) v.items ≡ map (λ (o : Obj). o.name) objects.now) }
{
    let mut found = Vec::with_capacity(alloc, objects.len())?;
    for o in objects {
        found.push(o.name.as_slice())?;
    }
    Ok(found)
}

/// Each name once.
fn distinct_names<'a>(alloc: Global, names: &[&'a [u8]]) -> Result<BTreeSet<&'a [u8]>, AllocError>
    ensures { IfOk result (IsFromIterResult (λ x y. slice_cmp nat_cmp x.now y.now) names.now) }
{
    names.iter().copied().collect(alloc)
}

/// Whether no two objects have one name: in time near linear, since a file may have 32,016 of them.
fn have_distinct_names(alloc: Global, objects: &[Obj]) -> Result<bool, AllocError>
    ensures { IfOk result (λ b. b ≡ is_distinct_by (λ (x y : Obj). bytes_eq x.name y.name) objects.now) }
{
    let names = object_names(alloc, objects)?;
    let distinct = distinct_names(alloc, &names)?;
    Ok(distinct.len() == names.len())
}

/// Whether the objects, 32,016 at most, lie in their sections, ascending and apart, under names of
/// their own.
pub(crate) fn are_objects(
    alloc: Global,
    sections: &[Section],
    objects: &[Obj],
) -> Result<bool, AllocError>
    ensures { IfOk result (λ b. b ≡ are_objects sections.now objects.now) }
{
    let placed = objects.len() <= 32016 && are_all_objects(sections, objects) && are_apart(objects);
    if !placed {
        return Ok(false);
    }
    have_distinct_names(alloc, objects)
}
