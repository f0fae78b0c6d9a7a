//! Grants, placement and table, in the order of work.

ghost use Rattle.std.specs.Prelude.{◌≡◌, ◌≤◌, OnOk, IfOk, IfErr, Ok};
ghost use Rattle.fx_grants.specs.Refusals.{resolved};
ghost use Rattle.fx_sections.specs.Placement.{IsPlaceable, placed};
ghost use Rattle.fx_cmd_place.specs.declared.placing.Unplaced.TheVariants.{OutOfMemory};
ghost use Rattle.fx_cmd_place.specs.Placing.{IsReady, HasTable, WasPut, GrantsCause, PlaceCause, TableCause, PlacingCause};

use crate::place_table;
use fx_base::{Sink, put_all};
use fx_c_ast::checked::TProgram;
use fx_config::Config;
use fx_grants::{GrantError, Grants, resolve};
use fx_sections::{PlaceError, Placement, place};
use std::alloc::{AllocError, Global};

/// Why a checked program is not placed, or its table was not put. The first step of the work that fails
/// decides.
#[derive(Clone, Copy, Debug, PartialEq, Eq)]
pub enum Unplaced {
    /// The configuration is refused for the program.
    Grants(GrantError),
    /// The program is refused for its number or size.
    Place(PlaceError),
    /// The output did not take the whole table.
    WriteFault,
    /// Memory ran out.
    OutOfMemory,
}

impl From<AllocError> for Unplaced {
    ghost from_gives = { λ _ e. e ≡ OutOfMemory };

    fn from(_error: AllocError) -> Unplaced {
        Unplaced::OutOfMemory
    }
}

// What the configuration grants in the program.
fn grants(alloc: Global, p: &TProgram, c: &Config) -> Result<Grants, Unplaced>
    requires { IsReady p.now c.now }
    ensures granted { IfOk result (λ g. resolved p.now c.now ≡ Ok g) }
    ensures cause { IfErr result (GrantsCause p.now c.now) }
{
    match resolve(alloc, p, c) {
        Ok(g) => Ok(g),
        Err(GrantError::OutOfMemory) => Err(Unplaced::OutOfMemory),
        Err(error) => Err(Unplaced::Grants(error)),
    }
}

// Where the program's sections, globals and literals lie.
fn placement(alloc: Global, p: &TProgram, g: &Grants, c: &Config) -> Result<Placement, Unplaced>
    requires { IsPlaceable p.now g.now c.now }
    ensures placed { IfOk result (λ at. placed p.now g.now c.now ≡ Ok at) }
    ensures cause { IfErr result (PlaceCause p.now g.now c.now) }
{
    match place(alloc, p, g, c) {
        Ok(at) => Ok(at),
        Err(PlaceError::OutOfMemory) => Err(Unplaced::OutOfMemory),
        Err(error) => Err(Unplaced::Place(error)),
    }
}

// The table of the program's placement.
fn table(alloc: Global, p: &TProgram, c: &Config) -> Result<Vec<u8>, Unplaced>
    requires { IsReady p.now c.now }
    ensures table { IfOk result (λ v. HasTable p.now c.now v.items) }
    ensures cause { IfErr result (TableCause p.now c.now) }
{
    let g = grants(alloc, p, c)?;
    let at = placement(alloc, p, &g, c)?;
    let text = place_table(alloc, p, &g, c, &at)?;
    Ok(text)
}

/// Resolves a checked program's grants, places it and puts the placement's table, a line for each object
/// of the image in order of address. The first that fails decides: the grants, the placement, the output.
pub fn put_placement<O: Sink>(
    alloc: Global,
    p: &TProgram,
    c: &Config,
    out: &mut O,
) -> Result<(), Unplaced>
    requires { IsReady p.now c.now }
    // The output gained exactly the lines of the placement.
    ensures put { OnOk result (WasPut p.now c.now (O.taken out.old) (O.taken out.new)) }
    // Each refusal has its cause, and a refused program puts nothing.
    ensures cause { IfErr result (PlacingCause p.now c.now (O.taken out.old) (O.taken out.new)
        (O.faults out.old) (O.faults out.new)) }
    ensures later { O.faults out.old ≤ O.faults out.new }
{
    let text = table(alloc, p, c)?;
    match put_all(out, &text) {
        Ok(()) => Ok(()),
        Err(_) => Err(Unplaced::WriteFault),
    }
}
