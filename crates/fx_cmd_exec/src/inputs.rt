//! The files of a program of constant output: the configuration, and then the source.

ghost use Rattle.std.specs.Prelude.{◌≤◌, IfOk, IfErr, OnOk, MatchResult};
ghost use Rattle.fx_base.specs.Told.{Told};
ghost use Rattle.fx_base.specs.Files.{SameFiles};
ghost use Rattle.fx_cmd_load.specs.Reading.{HasContent, LeavesCount};
ghost use Rattle.fx_cmd_exec.specs.Causes.{HasProgram, ConfigCause, SourceCause, UnbuiltLeaves, early_document, IsOtherSource};
ghost use Rattle.fx_early_source.specs.Grammar.{IsProgram};

use crate::unbuilt::{Other, SOURCE, Unbuilt, Which};
use fx_base::{FileError, Files};
use fx_early_source::SourceError;
use std::alloc::Global;

/// The configuration of programs of constant output, byte for byte.
pub const EARLY_DOCUMENT: &str =
    "mechanism = \"call\"\n[[library]]\nname = \"a\"\nfiles = [\"a.c\"]\n[[compartment]]\nname = \"a\"\nlibraries = [\"a\"]\n";

/// The most bytes of a configuration.
const CONFIG_LIMIT: u64 = 16_777_216;

/// The most bytes of a source.
const SOURCE_LIMIT: u64 = 1_048_576;

/// Reads the configuration, and takes the one document of programs of constant output.
pub fn take_config<F: Files>(alloc: Global, files: &mut F, name: &str) -> Result<(), Unbuilt>
    ensures keeps { Told SameFiles (F.held files.old) (F.held files.new) }
    ensures later { F.faults files.old ≤ F.faults files.new }
    ensures counted { MatchResult result (λ _. LeavesCount (F.held files.old) (F.faults files.old)
        (F.faults files.new))
        (UnbuiltLeaves (F.held files.old) (F.faults files.old) (F.faults files.new)) }
    ensures ok { OnOk result (HasContent (F.held files.old) name.now early_document) }
    ensures cause { IfErr result (ConfigCause name.now (F.held files.old) (F.faults files.old)
        (F.faults files.new)) }
{
    match files.read(alloc, name, CONFIG_LIMIT) {
        Ok(text) if text.as_slice() == EARLY_DOCUMENT.as_bytes() => Ok(()),
        Ok(_) => Err(Unbuilt::Other(Other::Config)),
        Err(FileError::OutOfMemory) => Err(Unbuilt::OutOfMemory),
        Err(error) => Err(Unbuilt::FileFault {
            which: Which::Config,
            error,
        }),
    }
}

/// Reads the source, and gives its constants.
pub fn take_source<F: Files>(alloc: Global, files: &mut F) -> Result<Vec<u8>, Unbuilt>
    ensures keeps { Told SameFiles (F.held files.old) (F.held files.new) }
    ensures later { F.faults files.old ≤ F.faults files.new }
    ensures counted { MatchResult result (λ _. LeavesCount (F.held files.old) (F.faults files.old)
        (F.faults files.new))
        (UnbuiltLeaves (F.held files.old) (F.faults files.old) (F.faults files.new)) }
    ensures ok { IfOk result (λ v. HasProgram (F.held files.old) v.items) }
    ensures cause { IfErr result (SourceCause (F.held files.old) (F.faults files.old)
        (F.faults files.new)) }
{
    match files.read(alloc, SOURCE, SOURCE_LIMIT) {
        Ok(text) => constants_of(alloc, &text),
        Err(FileError::OutOfMemory) => Err(Unbuilt::OutOfMemory),
        Err(error) => Err(Unbuilt::FileFault {
            which: Which::Source,
            error,
        }),
    }
}

/// The constants of a source.
fn constants_of(alloc: Global, text: &[u8]) -> Result<Vec<u8>, Unbuilt>
    ensures ok { IfOk result (λ v. IsProgram text.now v.items) }
    ensures cause { IfErr result (IsOtherSource text.now) }
{
    match fx_early_source::read(alloc, text) {
        Ok(constants) => Ok(constants),
        Err(SourceError::Form) => Err(Unbuilt::Other(Other::Source)),
        Err(SourceError::OutOfMemory) => Err(Unbuilt::OutOfMemory),
    }
}
