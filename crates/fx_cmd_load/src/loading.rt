//! The sources of a configuration, read and parsed in the order of work.

ghost use Rattle.std.specs.Prelude.{◌≡◌, ◌≤◌, IfOk, IfErr, MatchResult};
ghost use Rattle.fx_base.specs.Told.{Told};
ghost use Rattle.fx_base.specs.Files.{SameFiles};
ghost use Rattle.fx_cmd_load.specs.Named.{from_library};
ghost use Rattle.fx_cmd_load.specs.Reading.{LeavesCount, ErrorLeaves};
ghost use Rattle.fx_cmd_load.specs.Loading.{HasFewParts, SourcesGiven, SourcesCause};

use crate::error::LoadError;
use crate::named::source_names;
use crate::parsing::{ParsedFile, parse_sources};
use crate::reading::read_sources;
use fx_base::Files;
use fx_config::Config;
use std::alloc::Global;

/// The parsed files of a configuration's libraries, in order. Each file has at most 1,048,576
/// bytes; all are read before the first is parsed.
pub fn load_sources<F: Files>(
    alloc: Global,
    files: &mut F,
    config: &Config,
) -> Result<Vec<ParsedFile>, LoadError>
    requires { HasFewParts config.now }
    ensures keeps { Told SameFiles (F.held files.old) (F.held files.new) }
    ensures later { F.faults files.old ≤ F.faults files.new }
    ensures counted { MatchResult result
        (λ _. LeavesCount (F.held files.old) (F.faults files.old) (F.faults files.new))
        (ErrorLeaves (F.held files.old) (F.faults files.old) (F.faults files.new)) }
    ensures given { IfOk result (λ v. SourcesGiven (F.held files.old)
        (from_library 0 config.now.libraries) v.items) }
    ensures cause { IfErr result (SourcesCause (F.held files.old) (F.faults files.old)
        (F.faults files.new) (from_library 0 config.now.libraries)) }
{
    let names = source_names(alloc, config.libraries.as_slice())?;
    let texts = read_sources(alloc, files, &names)?;
    let parsed = parse_sources(alloc, &names, &texts)?;
    Ok(parsed)
}
