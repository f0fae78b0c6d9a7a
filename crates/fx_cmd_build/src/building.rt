//! From a checked program to its image, in the order of work.

ghost use Rattle.std.specs.Prelude.{◌≡◌, IfOk, IfErr, Ok};
ghost use Rattle.fx_grants.specs.Refusals.{resolved};
ghost use Rattle.fx_sections.specs.Placement.{IsPlaceable, placed};
ghost use Rattle.fx_build_parts.specs.Parts.{IsBuildable};
ghost use Rattle.fx_build_core.specs.Built.{built};
ghost use Rattle.fx_image.specs.Rules.{IsImage};
ghost use Rattle.fx_cmd_place.specs.Placing.{IsReady};
ghost use Rattle.fx_cmd_build.specs.Builds.{IsImageOf, GrantsCause, PlaceCause, LinkCause};
ghost use Rattle.fx_cmd_build.specs.Builds.{ImageCause, IsProgramReady};

use fx_build_core::build;
use fx_built_law::built_is_image;
use fx_c_ast::checked::TProgram;
use fx_config::Config;
use fx_grants::{GrantError, Grants, resolve};
use fx_image::Image;
use fx_linker::LinkError;
use fx_sections::{PlaceError, Placement, place};
use std::alloc::Global;

/// Why a checked program has no image. The first step of the work that fails decides.
#[derive(Clone, Copy, Debug, PartialEq, Eq)]
pub enum Unbuilt {
    /// The configuration is refused for the program.
    Grants(GrantError),
    /// The program is refused for its number or size.
    Place(PlaceError),
    /// The code has this many bytes, more than 1,048,576.
    CodeTooLong(u64),
    /// Memory ran out.
    OutOfMemory,
}

// What the configuration grants in the program.
fn grants(alloc: Global, p: &TProgram, k: &Config) -> Result<Grants, Unbuilt>
    requires { IsReady p.now k.now }
    ensures granted { IfOk result (λ g. resolved p.now k.now ≡ Ok g) }
    ensures cause { IfErr result (GrantsCause p.now k.now) }
{
    match resolve(alloc, p, k) {
        Ok(g) => Ok(g),
        Err(GrantError::OutOfMemory) => Err(Unbuilt::OutOfMemory),
        Err(error) => Err(Unbuilt::Grants(error)),
    }
}

// Where the program's sections, globals and literals lie.
fn placement(alloc: Global, p: &TProgram, g: &Grants, k: &Config) -> Result<Placement, Unbuilt>
    requires { IsPlaceable p.now g.now k.now }
    ensures placed { IfOk result (λ at. placed p.now g.now k.now ≡ Ok at) }
    ensures cause { IfErr result (PlaceCause p.now g.now k.now) }
{
    match place(alloc, p, g, k) {
        Ok(at) => Ok(at),
        Err(PlaceError::OutOfMemory) => Err(Unbuilt::OutOfMemory),
        Err(error) => Err(Unbuilt::Place(error)),
    }
}

// The image of a program that is granted and placed.
fn linked(
    alloc: Global,
    p: &TProgram,
    g: &Grants,
    at: &Placement,
    k: &Config,
) -> Result<Image, Unbuilt>
    requires { IsBuildable p.now at.now k.now }
    ensures built { IfOk result (λ i. built p.now g.now at.now k.now ≡ Ok i) }
    ensures cause { IfErr result (LinkCause p.now g.now at.now k.now) }
{
    match build(alloc, p, g, at, k) {
        Ok(image) => Ok(image),
        Err(LinkError::CodeTooLong(bytes)) => Err(Unbuilt::CodeTooLong(bytes)),
        Err(LinkError::OutOfMemory) => Err(Unbuilt::OutOfMemory),
    }
}

/// The image of a checked program whose gates are plain calls: it is granted, placed, and its code
/// is linked. The first of these that refuses decides.
pub fn image_of(alloc: Global, p: &TProgram, k: &Config) -> Result<Image, Unbuilt>
    requires { IsProgramReady p.now k.now }
    ensures image { IfOk result (IsImageOf p.now k.now) }
    ensures rules { IfOk result (λ i. IsImage i) }
    ensures cause { IfErr result (ImageCause p.now k.now) }
{
    built_is_image();
    let g = grants(alloc, p, k)?;
    let at = placement(alloc, p, &g, k)?;
    let image = linked(alloc, p, &g, &at, k)?;
    Ok(image)
}
