//! The parts of a program's image.

ghost use Rattle.std.specs.Prelude.{◌≡◌, ◌<◌, ◌≤◌, ◌^◌, IfOk, All, List as Plain, length, map};
ghost use Rattle.fx_c_lin.specs.Ops.{step_of};
ghost use Rattle.fx_c_lin.specs.declared.op.Step.{Step};
ghost use Rattle.fx_match_rel.specs.Frames.{IsFrame};
ghost use Rattle.fx_gates_call.specs.Runtime.{runtime_pieces, runtime_map};
ghost use Rattle.fx_build_parts.specs.Parts.{first_spots, plan_of, parts_with, parts_of};
ghost use Rattle.fx_build_parts.specs.Parts.{IsBuildable};

use crate::plan::Plan;
use crate::ranges::{make_ranges, spots};
use fx_c_ast::checked::TProgram;
use fx_c_lin::op::Steps;
use fx_c_lower::lower::lower;
use fx_config::Config;
use fx_gates_call::emit_runtime;
use fx_grants::Grants;
use fx_image::List;
use fx_image_runtime::RuntimeMap;
use fx_linker::{PartSpot, Parts, Pieces, entry_numbers};
use fx_match_rel::Addresses;
use fx_sections::Placement;
use std::alloc::{AllocError, Global};

/// The functions in their compartments, none of which is placed yet.
fn first_spots(alloc: Global, g: &Grants) -> Result<Vec<PartSpot>, AllocError>
    ensures { IfOk result (λ v. v.items ≡ first_spots g.now) }
{
    let mut spots = Vec::new(alloc);
    for f in g.functions.as_slice() {
        spots.push(PartSpot {
            compartment: f.compartment,
            piece: 0,
        })?;
    }
    Ok(spots)
}

/// What the code of the program's functions is made with.
fn plan(
    alloc: Global,
    p: &TProgram,
    g: &Grants,
    at: &Placement,
    k: &Config,
) -> Result<Plan, AllocError>
    requires { IsBuildable p.now at.now k.now }
    ensures value { IfOk result (λ x. x ≡ plan_of p.now g.now at.now k.now) }
    ensures frames { IfOk result (λ (x : Plan). All IsFrame x.at.frames) }
{
    let spots = first_spots(alloc, g)?;
    let numbers = entry_numbers(alloc, p, &spots)?;
    Ok(Plan {
        at: Addresses::of(alloc, p, at, k)?,
        spots: List::from_vec(spots),
        numbers,
    })
}

/// The runtime's pieces, and where its parts stand among them.
#[derive(Drop)]
struct Runtime {
    pieces: Pieces,
    map: RuntimeMap,
}

fn make_runtime(
    alloc: Global,
    p: &TProgram,
    g: &Grants,
    at: &Placement,
    k: &Config,
) -> Result<Runtime, AllocError>
    ensures pieces { IfOk result (λ (r : Runtime). r.pieces ≡ runtime_pieces p.now at.now k.now 0) }
    ensures map { IfOk result (λ (r : Runtime). r.map ≡ runtime_map p.now at.now k.now 0) }
{
    let mut pieces = Vec::new(alloc);
    let map = emit_runtime(alloc, p, g, at, k, &mut pieces)?;
    Ok(Runtime {
        pieces: List::from_vec(pieces),
        map,
    })
}

/// The parts that functions with this code become.
fn parts_with(
    alloc: Global,
    p: &TProgram,
    g: &Grants,
    plan: &Plan,
    code: &[Steps],
    at: &Placement,
    k: &Config,
) -> Result<Parts, AllocError>
    requires frames { All IsFrame plan.now.at.frames }
    requires few { length code.now < 2 ^ 32 }
    requires functions { length p.now.functions < 2 ^ 32 }
    requires compartments { length k.now.compartments ≤ 16 }
    ensures { IfOk result (λ x. x ≡ parts_with p.now plan.now
        (map (λ (all : Plain Step). map step_of all) code.now) at.now k.now) }
{
    let made = make_ranges(alloc, p, plan, code, k)?;
    let spots = spots(alloc, made.begins.as_slice(), plan.spots.as_slice())?;
    let behind = make_runtime(alloc, p, g, at, k)?;
    Ok(Parts {
        ranges: made.ranges,
        spots,
        runtime: behind.pieces,
        map: behind.map,
        entries: made.entries,
    })
}

/// The parts of the image of a program: its functions are lowered, and their code is written
/// compartment by compartment, and then the runtime.
pub fn parts(
    alloc: Global,
    p: &TProgram,
    g: &Grants,
    at: &Placement,
    k: &Config,
) -> Result<Parts, AllocError>
    requires { IsBuildable p.now at.now k.now }
    ensures { IfOk result (λ x. x ≡ parts_of p.now g.now at.now k.now) }
{
    let code = lower(alloc, p)?;
    let plan = plan(alloc, p, g, at, k)?;
    parts_with(alloc, p, g, &plan, code.functions.as_slice(), at, k)
}
