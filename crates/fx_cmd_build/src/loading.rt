//! The checked program of a configuration whose images are built.

ghost use Rattle.std.specs.Prelude.{◌≡◌, ◌≤◌, IfErr, IfOk};
ghost use Rattle.fx_base.specs.Told.{Told};
ghost use Rattle.fx_base.specs.Files.{SameFiles};
ghost use Rattle.fx_config.specs.declared.configuration.Mechanism.TheVariants.{Call};
ghost use Rattle.fx_cmd_load.specs.Loading.{IsConfigured, HasFewParts};
ghost use Rattle.fx_cmd_load.specs.Programs.{IsProgramOf};
ghost use Rattle.fx_cmd_build.specs.Builds.{ConfigurationCause, LoadCause};

use crate::failure::BuildFailure;
use fx_base::Files;
use fx_cmd_load::{Program, check_sources, load_configuration};
use fx_config::{Config, Mechanism};
use std::alloc::Global;

// The configuration under a name, whose mechanism is plain calls.
fn plain_configuration<F: Files>(
    alloc: Global,
    files: &mut F,
    name: &str,
) -> Result<Config, BuildFailure>
    ensures keeps { Told SameFiles (F.held files.old) (F.held files.new) }
    ensures later { F.faults files.old ≤ F.faults files.new }
    ensures configured { IfOk result (IsConfigured name.now (F.held files.old)) }
    ensures few { IfOk result HasFewParts }
    ensures plain { IfOk result (λ k. k.mechanism ≡ Call) }
    ensures cause { IfErr result (ConfigurationCause name.now (F.held files.old)
        (F.faults files.old) (F.faults files.new)) }
{
    match load_configuration(alloc, files, name) {
        Ok(config) => match config.mechanism {
            Mechanism::Call => Ok(config),
            Mechanism::Light | Mechanism::Full | Mechanism::Ept => Err(BuildFailure::Mechanism),
        },
        Err(error) => Err(BuildFailure::Program(error)),
    }
}

/// The checked program of the configuration under a name. A mechanism whose images aren't built is
/// refused before any source is read.
pub fn load_plain<F: Files>(
    alloc: Global,
    files: &mut F,
    name: &str,
) -> Result<Program, BuildFailure>
    ensures keeps { Told SameFiles (F.held files.old) (F.held files.new) }
    ensures later { F.faults files.old ≤ F.faults files.new }
    ensures program { IfOk result (λ x.
        IsProgramOf name.now (F.held files.old) x.config x.program) }
    ensures few { IfOk result (λ x. HasFewParts x.config) }
    ensures plain { IfOk result (λ x. x.config.mechanism ≡ Call) }
    ensures cause { IfErr result (LoadCause name.now (F.held files.old) (F.faults files.old)
        (F.faults files.new)) }
{
    let config = plain_configuration(alloc, files, name)?;
    match check_sources(alloc, files, &config) {
        Ok(program) => Ok(Program { config, program }),
        Err(error) => Err(BuildFailure::Program(error)),
    }
}
