//! The bytes of linked code.

ghost use Rattle.std.specs.Prelude.{◌≡◌, ◌+◌, ◌<◌, ◌^◌, ◌++◌, OnOk, IfOk, All, slice_index};
ghost use Rattle.fx_linker.specs.Code.{bytes_from, filled, range_code, ranges_code};
ghost use Rattle.fx_linker.specs.Linked.{AreRows};

use crate::parts::{Parts, Pieces};
use crate::reach::{Reach, linked};
use fx_image::List;
use fx_x64_code::encode::encode;
use fx_x64_forms::piece::Piece;
use std::alloc::{AllocError, Global};

/// HLT, which fills ranges up to whole pages.
const FILL: u8 = 0xf4;

/// Where the piece behind this one stands.
fn behind(own: &[u64], k: usize) -> u64
    requires { k + 1 < 2 ^ 64 }
    ensures { result ≡ slice_index own.now (k + 1) }
{
    match own.get(k + 1) {
        Some(at) => *at,
        None => 0,
    }
}

/// The bytes of pieces, which stand at the places `own`.
fn bytes(
    alloc: Global,
    parts: &Parts,
    to: &Reach,
    own: &[u64],
    pieces: &[Piece],
) -> Result<Vec<u8>, AllocError>
    requires { AreRows pieces.now }
    ensures { IfOk result (λ v. v.items ≡ bytes_from parts.now to.now own.now 0 pieces.now) }
{
    let mut out = Vec::new(alloc);
    for (k, piece) in pieces.iter().enumerate() {
        let inst = linked(parts, to, own, behind(own, k), piece);
        encode(alloc, &inst, &mut out)?;
    }
    Ok(out)
}

/// Fills up to whole pages.
fn fill(out: &mut Vec<u8>) -> Result<(), AllocError>
    ensures { OnOk result (out.new.items ≡ filled out.old.items) }
{
    let len = out.len();
    let missing = (4096 - len % 4096) % 4096;
    out.resize(len + missing, FILL)
}

/// Appends a range's code.
pub(crate) fn put_range(
    alloc: Global,
    parts: &Parts,
    to: &Reach,
    own: &[u64],
    pieces: &[Piece],
    out: &mut Vec<u8>,
) -> Result<(), AllocError>
    requires { AreRows pieces.now }
    ensures { OnOk result (out.new.items ≡ out.old.items ++ range_code parts.now to.now own.now pieces.now) }
{
    let mut code = bytes(alloc, parts, to, own, pieces)?;
    fill(&mut code)?;
    out.extend_from_slice(&code)
}

/// Appends the code of ranges, one behind the other.
pub(crate) fn put_ranges(
    alloc: Global,
    parts: &Parts,
    to: &Reach,
    places: &[List<u64>],
    ranges: &[Pieces],
    out: &mut Vec<u8>,
) -> Result<(), AllocError>
    requires { All AreRows ranges.now }
    ensures { OnOk result (out.new.items ≡ out.old.items ++ ranges_code parts.now to.now places.now 0 ranges.now) }
{
    for (c, range) in ranges.iter().enumerate() {
        let own = match places.get(c) {
            Some(own) => own.as_slice(),
            None => &[],
        };
        put_range(alloc, parts, to, own, range.as_slice(), out)?;
    }
    Ok(())
}
