//! The entries of compartments.

ghost use Rattle.std.specs.Prelude.{◌≡◌, ◌+◌, ◌*◌, ◌==◌, if◌then◌else◌, IfOk, OnOk, slice_index};
ghost use Rattle.fx_linker.specs.Entries.{homes, counted, is_counted, numbers_from, first_numbers, entry_numbers_of, entry_places};

use crate::layout::{Layout, sum};
use crate::parts::PartSpot;
use fx_c_ast::checked::{TFunction, TProgram};
use fx_image::List;
use std::alloc::{AllocError, Global};

/// The compartment of a function; 0 of one that isn't there.
pub fn home(spots: &[PartSpot], function: usize) -> u8
    ensures { result ≡ slice_index (homes spots.now) function }
{
    match spots.get(function) {
        Some(spot) => spot.compartment,
        None => 0,
    }
}

/// One more entry of a compartment.
fn count(next: &mut [u32; 256], compartment: u8) -> Result<(), AllocError>
    ensures { OnOk result (next.new ≡ counted next.old compartment) }
{
    let c = usize::from(compartment);
    match next[c].checked_add(1) {
        Some(n) => {
            next[c] = n;
            Ok(())
        }
        None => Err(AllocError),
    }
}

/// Whether function i is an entry function that is counted behind `main`.
fn is_counted(main: u32, i: usize, f: &TFunction) -> bool
    ensures { result ≡ is_counted main i f.now }
{
    f.entry && i != main as usize
}

/// The number of function i, where `next` has the next number of each compartment.
fn number_of(main: u32, next: &[u32; 256], compartment: u8, i: usize) -> u32
    ensures { result ≡ (if i == main then 0 else slice_index next.now compartment) }
{
    if i == main as usize {
        0
    } else {
        next[usize::from(compartment)]
    }
}

/// The number of each function among the entries of its compartment: `main` is number 0, and the entry
/// functions follow in program order (this project's own layout). Of a function that is no entry it is the
/// number that the next one has.
pub fn entry_numbers(
    alloc: Global,
    p: &TProgram,
    spots: &[PartSpot],
) -> Result<List<u32>, AllocError>
    ensures { IfOk result (λ v. v ≡ entry_numbers_of p.now spots.now) }
{
    let mut next = [0u32; 256];
    next[usize::from(home(spots, p.main as usize))] = 1;
    let numbers = numbers(alloc, p.main, &mut next, p.functions.as_slice(), spots)?;
    Ok(numbers)
}

/// The numbers of functions, where `next` has the first number of each compartment.
fn numbers(
    alloc: Global,
    main: u32,
    next: &mut [u32; 256],
    functions: &[TFunction],
    spots: &[PartSpot],
) -> Result<List<u32>, AllocError>
    ensures { IfOk result (λ v. v ≡ numbers_from main next.old (homes spots.now) 0 functions.now) }
{
    let mut found = Vec::new(alloc);
    for (i, f) in functions.iter().enumerate() {
        let compartment = home(spots, i);
        found.push(number_of(main, next, compartment, i))?;
        if is_counted(main, i, f) {
            count(next, compartment)?;
        }
    }
    Ok(List::from_vec(found))
}

/// By function, where the jump to it stands in the entry table of its compartment.
pub(crate) fn entry_places(
    alloc: Global,
    at: &Layout,
    numbers: &[u32],
    spots: &[PartSpot],
) -> Result<List<u64>, AllocError>
    ensures { IfOk result (λ v. v ≡ entry_places at.now numbers.now 0 spots.now) }
{
    let mut places = Vec::new(alloc);
    for (i, spot) in spots.iter().enumerate() {
        places.push(entry_place(at, number_at(numbers, i), spot.compartment)?)?;
    }
    Ok(List::from_vec(places))
}

/// The number of this function; 0 where it isn't there.
pub(crate) fn number_at(numbers: &[u32], function: usize) -> u32
    ensures { result ≡ slice_index numbers.now function }
{
    match numbers.get(function) {
        Some(number) => *number,
        None => 0,
    }
}

fn entry_place(at: &Layout, number: u32, compartment: u8) -> Result<u64, AllocError>
    ensures { IfOk result (λ n. n ≡ slice_index at.now.starts compartment + 16 * number) }
{
    let start = match at.starts.as_slice().get(usize::from(compartment)) {
        Some(start) => *start,
        None => 0,
    };
    sum(start, 16 * u64::from(number))
}
