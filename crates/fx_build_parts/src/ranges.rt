//! The code of the compartments: of each its entry table, and then its functions in program order.

ghost use Rattle.std.specs.Prelude.{◌≡◌, ◌≤◌, ◌<◌, ◌^◌, ◌++◌, OnOk, IfOk, All, List as Plain};
ghost use Rattle.std.specs.Prelude.{length, map};
ghost use Rattle.fx_c_lin.specs.Ops.{step_of};
ghost use Rattle.fx_c_lin.specs.declared.op.Step.{Step as Declared};
ghost use Rattle.fx_match_rel.specs.Frames.{IsFrame};
ghost use Rattle.fx_linker.specs.Tables.{entries_of};
ghost use Rattle.fx_build_parts.specs.Ranges.{own_pieces, range_of, begins_of, ranges_from};
ghost use Rattle.fx_build_parts.specs.Ranges.{all_begins_from, all_records_from, spot_in};
ghost use Rattle.fx_build_parts.specs.Ranges.{spots_from};

use crate::functions::{Subject, home_of, put_function};
use crate::plan::Plan;
use fx_c_ast::checked::TProgram;
use fx_c_lin::op::{Step, Steps};
use fx_config::Config;
use fx_image::{EntryRecs, List};
use fx_linker::{PartSpot, PartSpots, Pieces, RangeList, entries_of, put_records, put_table};
use fx_templates_core::put::ahead;
use fx_x64_forms::piece::Piece;
use std::alloc::{AllocError, Global};

/// Appends the code of a function, where the compartment has it.
fn put_own(
    alloc: Global,
    s: &Subject<'_>,
    steps: &[Step],
    out: &mut Vec<Piece>,
) -> Result<(), AllocError>
    requires { All IsFrame s.now.plan.now.at.frames }
    ensures { OnOk result (out.new.items ≡ out.old.items
        ++ own_pieces s.now.plan.now s.now.compartment s.now.function (length out.old.items)
        (map step_of steps.now)) }
{
    if home_of(s.plan.spots.as_slice(), s.function) == s.compartment {
        put_function(alloc, s, steps, out)
    } else {
        Ok(())
    }
}

/// The code of a compartment, and at which piece of it each function begins if it has that.
#[derive(Drop)]
struct Range {
    pieces: Pieces,
    begins: List<u32>,
}

/// The code of a compartment with these entries.
fn make_range(
    alloc: Global,
    p: &TProgram,
    plan: &Plan,
    code: &[Steps],
    entries: &[u32],
    compartment: u8,
) -> Result<Range, AllocError>
    requires frames { All IsFrame plan.now.at.frames }
    requires few { length code.now < 2 ^ 32 }
    requires entries { entries.now ≡ entries_of p.now plan.now.spots compartment }
    ensures pieces { IfOk result (λ (r : Range). r.pieces
        ≡ range_of p.now plan.now (map (λ (all : Plain Declared). map step_of all) code.now)
        compartment) }
    ensures begins { IfOk result (λ (r : Range). r.begins
        ≡ begins_of p.now plan.now (map (λ (all : Plain Declared). map step_of all) code.now)
        compartment) }
{
    let mut pieces = Vec::new(alloc);
    put_table(entries, &mut pieces)?;
    let mut begins = Vec::new(alloc);
    for (f, steps) in code.iter().enumerate() {
        begins.push(ahead(&pieces, 0, 0)?)?;
        let s = Subject {
            program: p,
            plan,
            compartment,
            function: f as u32,
        };
        put_own(alloc, &s, steps.as_slice(), &mut pieces)?;
    }
    Ok(Range {
        pieces: List::from_vec(pieces),
        begins: List::from_vec(begins),
    })
}

/// The code of all compartments, where the functions begin in each, and the records of their
/// entries.
#[derive(Drop)]
pub(crate) struct Ranges {
    pub ranges: RangeList,
    pub begins: List<List<u32>>,
    pub entries: EntryRecs,
}

/// The code of all compartments.
pub(crate) fn make_ranges(
    alloc: Global,
    p: &TProgram,
    plan: &Plan,
    code: &[Steps],
    k: &Config,
) -> Result<Ranges, AllocError>
    requires frames { All IsFrame plan.now.at.frames }
    requires few { length code.now < 2 ^ 32 }
    requires functions { length p.now.functions < 2 ^ 32 }
    requires compartments { length k.now.compartments ≤ 16 }
    ensures ranges { IfOk result (λ (r : Ranges). r.ranges
        ≡ ranges_from p.now plan.now (map (λ (all : Plain Declared). map step_of all) code.now) 0
        k.now.compartments) }
    ensures begins { IfOk result (λ (r : Ranges). r.begins
        ≡ all_begins_from p.now plan.now (map (λ (all : Plain Declared). map step_of all) code.now)
        0 k.now.compartments) }
    ensures entries { IfOk result (λ (r : Ranges). r.entries
        ≡ all_records_from p.now plan.now k.now 0 k.now.compartments) }
{
    let mut ranges = Vec::new(alloc);
    let mut begins = Vec::new(alloc);
    let mut records = Vec::new(alloc);
    for (c, _) in k.compartments.as_slice().iter().enumerate() {
        let compartment = c as u8;
        let entries = entries_of(alloc, p, plan.spots.as_slice(), compartment)?;
        put_records(alloc, p, k, compartment, &entries, &mut records)?;
        let one = make_range(alloc, p, plan, code, &entries, compartment)?;
        ranges.push(one.pieces)?;
        begins.push(one.begins)?;
    }
    Ok(Ranges {
        ranges: List::from_vec(ranges),
        begins: List::from_vec(begins),
        entries: List::from_vec(records),
    })
}

/// Where a function begins, by the beginnings of the functions in each compartment.
fn spot_in(begins: &[List<u32>], f: usize, spot: &PartSpot) -> PartSpot
    ensures { result ≡ spot_in begins.now f spot.now }
{
    let piece = match begins.get(usize::from(spot.compartment)) {
        Some(places) => match places.as_slice().get(f) {
            Some(piece) => *piece,
            None => 0,
        },
        None => 0,
    };
    PartSpot {
        compartment: spot.compartment,
        piece,
    }
}

/// Where the functions begin.
pub(crate) fn spots(
    alloc: Global,
    begins: &[List<u32>],
    unplaced: &[PartSpot],
) -> Result<PartSpots, AllocError>
    ensures { IfOk result (λ v. v ≡ spots_from begins.now 0 unplaced.now) }
{
    let mut spots = Vec::new(alloc);
    for (f, spot) in unplaced.iter().enumerate() {
        spots.push(spot_in(begins, f, spot))?;
    }
    Ok(List::from_vec(spots))
}
