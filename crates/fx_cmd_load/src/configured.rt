//! Reading the configuration.

ghost use Rattle.std.specs.Prelude.{◌≡◌, ◌≤◌, IfOk, IfErr, MatchResult};
ghost use Rattle.fx_base.specs.Told.{Told};
ghost use Rattle.fx_base.specs.Files.{SameFiles};
ghost use Rattle.fx_cmd_load.specs.Reading.{LeavesCount, ErrorLeaves};
ghost use Rattle.fx_cmd_load.specs.Loading.{IsConfigured, ConfigurationCause, HasFewParts};
ghost use Rattle.fx_cmd_load.specs.Loading.{MeansConfiguration, RefusesConfiguration};

use crate::error::LoadError;
use crate::reading::read_file;
use fx_base::Files;
use fx_config::{Config, ConfigError};
use std::alloc::Global;

/// The most bytes of a configuration document.
const CONFIG_LIMIT: u64 = 16_777_216;

// What a configuration document means.
fn configuration(alloc: Global, text: &[u8]) -> Result<Config, LoadError>
    ensures means { IfOk result (MeansConfiguration text.now) }
    ensures cause { IfErr result (RefusesConfiguration text.now) }
{
    match fx_config::read(alloc, text) {
        Ok(config) => Ok(config),
        Err(ConfigError::OutOfMemory) => Err(LoadError::OutOfMemory),
        Err(error) => Err(LoadError::Config(error)),
    }
}

/// The configuration under a name.
pub fn read_configuration<F: Files>(
    alloc: Global,
    files: &mut F,
    name: &str,
) -> Result<Config, LoadError>
    ensures keeps { Told SameFiles (F.held files.old) (F.held files.new) }
    ensures later { F.faults files.old ≤ F.faults files.new }
    ensures counted { MatchResult result
        (λ _. LeavesCount (F.held files.old) (F.faults files.old) (F.faults files.new))
        (ErrorLeaves (F.held files.old) (F.faults files.old) (F.faults files.new)) }
    ensures configured { IfOk result (IsConfigured name.now (F.held files.old)) }
    ensures few { IfOk result HasFewParts }
    ensures cause { IfErr result (ConfigurationCause name.now (F.held files.old)
        (F.faults files.old) (F.faults files.new)) }
{
    let text = read_file(alloc, files, name, CONFIG_LIMIT)?;
    let config = configuration(alloc, &text)?;
    Ok(config)
}
