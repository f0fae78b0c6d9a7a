//! Where pieces and ranges stand.

ghost use Rattle.std.specs.Prelude.{◌≡◌, ◌++◌, ◌+◌, IfOk, OnOk, IsTrue, All, [], length, slice_index};
ghost use Rattle.fx_x64_code.specs.Spelling.{spelling, has_row};
ghost use Rattle.fx_linker.specs.Places.{piece_size, pieces_size, places_from, whole_pages, range_starts, range_places, ranges_size, layout_of, spot_place, function_places};
ghost use Rattle.fx_linker.specs.Linked.{AreRows};

use crate::parts::{PartSpot, Pieces};
use fx_image::List;
use fx_x64_code::encode::encode;
use fx_x64_forms::piece::Piece;
use std::alloc::{AllocError, Global};

/// Where the parts of an image's code stand, as offsets in it.
#[derive(Debug, Drop)]
pub struct Layout {
    /// Where each compartment's range begins, and behind them where the runtime's begins.
    pub starts: List<u64>,
    /// Where the pieces of each compartment stand, and where the last one ends.
    pub ranges: List<List<u64>>,
    /// The same of the runtime's pieces.
    pub runtime: List<u64>,
    /// The bytes of the whole code.
    pub size: u64,
}

/// A sum that no memory bears out is want of memory.
pub(crate) fn sum(a: u64, b: u64) -> Result<u64, AllocError>
    ensures { IfOk result (λ s. s ≡ a + b) }
{
    match a.checked_add(b) {
        Some(s) => Ok(s),
        None => Err(AllocError),
    }
}

/// So many bytes, filled up to whole pages.
fn whole_pages(bytes: u64) -> Result<u64, AllocError>
    ensures { IfOk result (λ s. s ≡ whole_pages bytes) }
{
    let up = sum(bytes, 4095)?;
    Ok(up / 4096 * 4096)
}

/// The bytes of a piece; `scratch` takes its spelling.
fn piece_size(alloc: Global, piece: &Piece, scratch: &mut Vec<u8>) -> Result<u64, AllocError>
    requires { IsTrue (has_row piece.now.inst) }
    ensures { IfOk result (λ n. n ≡ piece_size piece.now) }
{
    scratch.clear();
    encode(alloc, &piece.inst, scratch)?;
    Ok(scratch.len() as u64)
}

/// Where pieces stand, and how many bytes they have.
#[derive(Debug, Drop)]
struct Spread {
    places: List<u64>,
    size: u64,
}

/// Where pieces stand that follow one another from a place on.
fn place_pieces(alloc: Global, start: u64, pieces: &[Piece]) -> Result<Spread, AllocError>
    requires { AreRows pieces.now }
    ensures places { IfOk result (λ s. s.places ≡ places_from start pieces.now) }
    ensures size { IfOk result (λ s. s.size ≡ pieces_size pieces.now) }
{
    let mut scratch = Vec::new(alloc);
    let mut places = Vec::new(alloc);
    let mut at = start;
    let mut size = 0;
    for piece in pieces {
        places.push(at)?;
        let bytes = piece_size(alloc, piece, &mut scratch)?;
        at = sum(at, bytes)?;
        size = sum(size, bytes)?;
    }
    places.push(at)?;
    Ok(Spread {
        places: List::from_vec(places),
        size,
    })
}

/// Where ranges and their pieces stand.
#[derive(Debug, Drop)]
struct Ranges {
    starts: List<u64>,
    places: List<List<u64>>,
    size: u64,
}

/// Where ranges stand that follow one another from 0 on.
fn place_ranges(alloc: Global, ranges: &[Pieces]) -> Result<Ranges, AllocError>
    requires { All AreRows ranges.now }
    ensures starts { IfOk result (λ r. r.starts ≡ range_starts 0 ranges.now) }
    ensures places { IfOk result (λ r. r.places ≡ range_places 0 ranges.now) }
    ensures size { IfOk result (λ r. r.size ≡ ranges_size ranges.now) }
{
    let mut starts = Vec::new(alloc);
    let mut places = Vec::new(alloc);
    let mut at = 0;
    for range in ranges {
        starts.push(at)?;
        let one = place_pieces(alloc, at, range.as_slice())?;
        places.push(one.places)?;
        at = sum(at, whole_pages(one.size)?)?;
    }
    starts.push(at)?;
    Ok(Ranges {
        starts: List::from_vec(starts),
        places: List::from_vec(places),
        size: at,
    })
}

/// Where the compartments' ranges stand, and behind them the runtime's.
pub(crate) fn layout_of(
    alloc: Global,
    ranges: &[Pieces],
    runtime: &[Piece],
) -> Result<Layout, AllocError>
    requires ranges { All AreRows ranges.now }
    requires runtime { AreRows runtime.now }
    ensures { IfOk result (λ l. l ≡ layout_of ranges.now runtime.now) }
{
    let spaced = place_ranges(alloc, ranges)?;
    let behind = place_pieces(alloc, spaced.size, runtime)?;
    let size = sum(spaced.size, whole_pages(behind.size)?)?;
    Ok(Layout {
        starts: spaced.starts,
        ranges: spaced.places,
        runtime: behind.places,
        size,
    })
}

/// The place of a piece of a range.
fn spot_place(at: &Layout, spot: PartSpot) -> u64
    ensures { result ≡ spot_place at.now spot }
{
    match at.ranges.as_slice().get(usize::from(spot.compartment)) {
        Some(places) => place(places.as_slice(), spot.piece),
        None => 0,
    }
}

/// The place of this number; 0 where there is none.
pub(crate) fn place(places: &[u64], number: u32) -> u64
    ensures { result ≡ slice_index places.now number }
{
    match places.get(number as usize) {
        Some(at) => *at,
        None => 0,
    }
}

/// By function, where its first piece stands.
pub(crate) fn function_places(
    alloc: Global,
    at: &Layout,
    spots: &[PartSpot],
) -> Result<List<u64>, AllocError>
    ensures { IfOk result (λ v. v ≡ function_places at.now spots.now) }
{
    let mut places = Vec::new(alloc);
    for spot in spots {
        places.push(spot_place(at, *spot))?;
    }
    Ok(List::from_vec(places))
}
