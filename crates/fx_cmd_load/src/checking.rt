//! Loading the sources and checking them, in the order of work.

ghost use Rattle.std.specs.Prelude.{◌≡◌, ◌<◌, ◌≤◌, ◌^◌, IfOk, IfErr, MatchResult, length};
ghost use Rattle.fx_base.specs.Told.{Told};
ghost use Rattle.fx_base.specs.Files.{SameFiles};
ghost use Rattle.fx_c_types.specs.ProgramView.{declarations};
ghost use Rattle.fx_cmd_load.specs.Named.{from_library};
ghost use Rattle.fx_cmd_load.specs.Loading.{IsConfigured, HasFewParts, SourcesGiven};
ghost use Rattle.fx_cmd_load.specs.Reading.{LeavesCount};
ghost use Rattle.fx_cmd_load.specs.Programs.{sources_of, IsProgramOf, IsSourcesProgram, IsChecked};
ghost use Rattle.fx_cmd_load.specs.Programs.{UnconfiguredCause, UnparsedCause, UncheckedCause};
ghost use Rattle.fx_cmd_load.specs.Programs.{ProgramCause, ProgramLeaves, BreaksRule};

use crate::ParsedFile;
use crate::configured::read_configuration;
use crate::loading::load_sources;
use crate::program_error::{ProgramError, unloaded};
use fx_base::Files;
use fx_c_ast::checked::TProgram;
use fx_c_types::{SourceFile, TypeError, check};
use fx_config::Config;
use std::alloc::{AllocError, Global};

/// A configuration and the checked program of its sources.
#[derive(Drop)]
pub struct Program {
    pub config: Config,
    pub program: TProgram,
}

/// The configuration under a name, of at most 16,777,216 bytes. That it isn't read comes before
/// that it is refused. No file is changed.
pub fn load_configuration<F: Files>(
    alloc: Global,
    files: &mut F,
    name: &str,
) -> Result<Config, ProgramError>
    ensures keeps { Told SameFiles (F.held files.old) (F.held files.new) }
    ensures later { F.faults files.old ≤ F.faults files.new }
    ensures counted { MatchResult result
        (λ _. LeavesCount (F.held files.old) (F.faults files.old) (F.faults files.new))
        (ProgramLeaves (F.held files.old) (F.faults files.old) (F.faults files.new)) }
    ensures configured { IfOk result (IsConfigured name.now (F.held files.old)) }
    ensures few { IfOk result HasFewParts }
    ensures cause { IfErr result (UnconfiguredCause name.now (F.held files.old)
        (F.faults files.old) (F.faults files.new)) }
{
    match read_configuration(alloc, files, name) {
        Ok(config) => Ok(config),
        Err(error) => Err(unloaded(error)),
    }
}

// The parsed files of a configuration's libraries.
fn parsed<F: Files>(
    alloc: Global,
    files: &mut F,
    config: &Config,
) -> Result<Vec<ParsedFile>, ProgramError>
    requires { HasFewParts config.now }
    ensures keeps { Told SameFiles (F.held files.old) (F.held files.new) }
    ensures later { F.faults files.old ≤ F.faults files.new }
    ensures counted { MatchResult result
        (λ _. LeavesCount (F.held files.old) (F.faults files.old) (F.faults files.new))
        (ProgramLeaves (F.held files.old) (F.faults files.old) (F.faults files.new)) }
    ensures given { IfOk result (λ v. SourcesGiven (F.held files.old)
        (from_library 0 config.now.libraries) v.items) }
    ensures cause { IfErr result (UnparsedCause (F.held files.old) (F.faults files.old)
        (F.faults files.new) (from_library 0 config.now.libraries)) }
{
    match load_sources(alloc, files, config) {
        Ok(parsed) => Ok(parsed),
        Err(error) => Err(unloaded(error)),
    }
}

fn sources_of(alloc: Global, files: Vec<ParsedFile>) -> Result<Vec<SourceFile>, AllocError>
    ensures { IfOk result (λ v. v.items ≡ sources_of files.items) }
{
    let mut all = Vec::new(alloc);
    for file in files {
        let ParsedFile { library, unit } = file;
        all.push(SourceFile { library, unit })?;
    }
    Ok(all)
}

// The program of parsed files.
fn checked(alloc: Global, files: Vec<ParsedFile>) -> Result<TProgram, ProgramError>
    requires { length (declarations (sources_of files.items)) < 2 ^ 28 }
    ensures checked { IfOk result (IsChecked files.items) }
    ensures cause { IfErr result (BreaksRule files.items) }
{
    let sources = sources_of(alloc, files)?;
    match check(alloc, &sources) {
        Ok(program) => Ok(program),
        Err(TypeError::Rule { kind, declaration }) => Err(ProgramError::Types {
            kind,
            declaration,
        }),
        Err(TypeError::OutOfMemory) => Err(ProgramError::OutOfMemory),
    }
}

/// Reads the source files that a configuration names, each of at most 1,048,576 bytes and in the
/// configuration's order, parses each of them and checks the program.
///
/// The first step that fails decides: a source file isn't read, a source file has no tree, the
/// program violates a rule. No file is changed.
pub fn check_sources<F: Files>(
    alloc: Global,
    files: &mut F,
    config: &Config,
) -> Result<TProgram, ProgramError>
    requires { HasFewParts config.now }
    ensures keeps { Told SameFiles (F.held files.old) (F.held files.new) }
    ensures later { F.faults files.old ≤ F.faults files.new }
    ensures counted { MatchResult result
        (λ _. LeavesCount (F.held files.old) (F.faults files.old) (F.faults files.new))
        (ProgramLeaves (F.held files.old) (F.faults files.old) (F.faults files.new)) }
    // What is given is the program of the texts of the configuration's files.
    ensures program { IfOk result (IsSourcesProgram (F.held files.old) config.now) }
    // Each refusal has its cause, and what comes before it in the order of work has none.
    ensures cause { IfErr result (UncheckedCause (F.held files.old) (F.faults files.old)
        (F.faults files.new) (from_library 0 config.now.libraries)) }
{
    let trees = parsed(alloc, files, config)?;
    let program = checked(alloc, trees)?;
    Ok(program)
}

/// Reads the configuration under a name and the source files that it names, parses each of them and
/// checks the program. The first step that fails decides: what [`load_configuration`] refuses, and
/// then what [`check_sources`] does. No file is changed.
pub fn load_program<F: Files>(
    alloc: Global,
    files: &mut F,
    name: &str,
) -> Result<Program, ProgramError>
    ensures keeps { Told SameFiles (F.held files.old) (F.held files.new) }
    ensures later { F.faults files.old ≤ F.faults files.new }
    ensures counted { MatchResult result
        (λ _. LeavesCount (F.held files.old) (F.faults files.old) (F.faults files.new))
        (ProgramLeaves (F.held files.old) (F.faults files.old) (F.faults files.new)) }
    // What is given is what the configuration's text means, and the program of the texts of its
    // files.
    ensures program { IfOk result (λ x.
        IsProgramOf name.now (F.held files.old) x.config x.program) }
    ensures few { IfOk result (λ x. HasFewParts x.config) }
    // Each refusal has its cause, and what comes before it in the order of work has none.
    ensures cause { IfErr result (ProgramCause name.now (F.held files.old) (F.faults files.old)
        (F.faults files.new)) }
{
    let config = load_configuration(alloc, files, name)?;
    let program = check_sources(alloc, files, &config)?;
    Ok(Program { config, program })
}
