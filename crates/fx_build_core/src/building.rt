//! The image of a checked program.

ghost use Rattle.std.specs.Prelude.{◌≡◌, ◌≢◌, Ok, Err, MatchResult};
ghost use Rattle.fx_linker.specs.declared.error.LinkError.TheVariants.{OutOfMemory};
ghost use Rattle.fx_build_parts.specs.Parts.{IsBuildable};
ghost use Rattle.fx_build_core.specs.Built.{built};

use fx_build_parts::parts;
use fx_build_parts_law::parts_are_linkable;
use fx_c_ast::checked::TProgram;
use fx_config::Config;
use fx_grants::Grants;
use fx_image::Image;
use fx_linker::{LinkError, link};
use fx_sections::Placement;
use std::alloc::Global;

/// The image of a checked program with its grants and its placement, whose gates are plain calls.
///
/// Code that is longer than 1,048,576 bytes is refused, with its length.
pub fn build(
    alloc: Global,
    p: &TProgram,
    g: &Grants,
    at: &Placement,
    k: &Config,
) -> Result<Image, LinkError>
    requires { IsBuildable p.now at.now k.now }
    ensures { MatchResult result (λ i. built p.now g.now at.now k.now ≡ Ok i)
        (λ e. e ≢ OutOfMemory → built p.now g.now at.now k.now ≡ Err e) }
{
    parts_are_linkable();
    let parts = parts(alloc, p, g, at, k)?;
    link(alloc, &parts, p, at, k)
}
