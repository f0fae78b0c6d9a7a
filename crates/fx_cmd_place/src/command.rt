//! What the command does, in the order of work.

ghost use Rattle.std.specs.Prelude.{OnOk, IfErr, IfOk, MatchResult};
ghost use Rattle.fx_base.specs.Told.{Told};
ghost use Rattle.fx_base.specs.Files.{SameFiles};
ghost use Rattle.fx_cmd_place.specs.Placing.{IsReady, WasPut};
ghost use Rattle.fx_cmd_load.specs.Loading.{HasFewParts};
ghost use Rattle.fx_cmd_load.specs.Reading.{LeavesCount};
ghost use Rattle.fx_cmd_load.specs.Programs.{IsProgramOf};
ghost use Rattle.fx_cmd_place.specs.Comes.{IsUnloaded, IsUnput, FailureLeaves, CameLeaves, Comes};

use crate::failure::PlaceFailure;
use crate::put_placement;
use fx_base::{Files, Sink};
use fx_cmd_load::{Program, load_program};
use std::alloc::Global;

fn loaded<F: Files>(alloc: Global, files: &mut F, name: &str) -> Result<Program, PlaceFailure>
    ensures keeps { Told SameFiles (F.held files.old) (F.held files.new) }
    ensures counted { MatchResult result (λ _. LeavesCount (F.held files.old) (F.faults files.old)
        (F.faults files.new))
        (FailureLeaves (F.held files.old) (F.faults files.old) (F.faults files.new)) }
    ensures program { IfOk result (λ x.
        IsProgramOf name.now (F.held files.old) x.config x.program) }
    ensures few { IfOk result (λ x. HasFewParts x.config) }
    ensures cause { IfErr result (IsUnloaded name.now (F.held files.old) (F.faults files.old)
        (F.faults files.new)) }
{
    match load_program(alloc, files, name) {
        Ok(program) => Ok(program),
        Err(error) => Err(PlaceFailure::Program(error)),
    }
}

fn put<O: Sink>(alloc: Global, x: &Program, out: &mut O) -> Result<(), PlaceFailure>
    requires { IsReady x.now.program x.now.config }
    ensures put { OnOk result (WasPut x.now.program x.now.config (O.taken out.old)
        (O.taken out.new)) }
    ensures cause { IfErr result (IsUnput x.now.program x.now.config
        (O.taken out.old) (O.taken out.new) (O.faults out.old) (O.faults out.new)) }
{
    match put_placement(alloc, &x.program, &x.config, out) {
        Ok(()) => Ok(()),
        Err(error) => Err(PlaceFailure::Placing(error)),
    }
}

/// Loads the program of the configuration under a name, and puts its placement.
pub fn perform<F: Files, O: Sink>(
    alloc: Global,
    name: &str,
    files: &mut F,
    out: &mut O,
) -> Result<(), PlaceFailure>
    ensures keeps { Told SameFiles (F.held files.old) (F.held files.new) }
    ensures counted { CameLeaves
        (F.held files.old) (F.faults files.old) (F.faults files.new) result }
    ensures comes { Comes name.now (F.held files.old) (F.faults files.old) (F.faults files.new)
        (O.taken out.old) (O.taken out.new) (O.faults out.old) (O.faults out.new) result }
{
    let program = loaded(alloc, files, name)?;
    put(alloc, &program, out)?;
    Ok(())
}
