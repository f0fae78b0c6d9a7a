//! Reading files, with the cause of each refusal.

ghost use Rattle.std.specs.Prelude.{◌≡◌, ◌≤◌, OnOk, IfOk, IfErr, MatchResult, length};
ghost use Rattle.fx_base.specs.Told.{Told};
ghost use Rattle.fx_base.specs.Files.{SameFiles};
ghost use Rattle.fx_cmd_load.specs.Named.{source_file, source_files};
ghost use Rattle.fx_cmd_load.specs.Reading.{HasContent, WasFileError, WasNotRead, LeavesCount, ErrorLeaves, texts_of, AreRead, OneWasNotRead, source_limit};

use crate::error::LoadError;
use crate::named::SourceName;
use fx_base::{FileError, Files};
use fx_config::FileName;
use std::alloc::{AllocError, Global};

/// The most bytes of a source file.
const SOURCE_LIMIT: u64 = 1_048_576;

/// A source text.
#[derive(Drop)]
pub struct SourceText {
    pub bytes: Vec<u8>,
}

fn named_copy(alloc: Global, name: &str) -> Result<FileName, AllocError>
    ensures { IfOk result (λ n. n ≡ name.now) }
{
    Ok(FileName::new(String::from_str(alloc, name)?))
}

// Why a file of this name was not read.
fn unread(alloc: Global, name: &str, error: FileError) -> LoadError
    ensures { WasFileError name.now error result }
{
    if let FileError::OutOfMemory = error {
        return LoadError::OutOfMemory;
    }
    match named_copy(alloc, name) {
        Ok(name) => LoadError::File { name, error },
        Err(_) => LoadError::OutOfMemory,
    }
}

/// The bytes of a file of at most so many.
pub fn read_file<F: Files>(
    alloc: Global,
    files: &mut F,
    name: &str,
    limit: u64,
) -> Result<Vec<u8>, LoadError>
    ensures keeps { Told SameFiles (F.held files.old) (F.held files.new) }
    ensures later { F.faults files.old ≤ F.faults files.new }
    ensures counted { MatchResult result
        (λ _. LeavesCount (F.held files.old) (F.faults files.old) (F.faults files.new))
        (ErrorLeaves (F.held files.old) (F.faults files.old) (F.faults files.new)) }
    ensures within { IfOk result (λ v. length v.items ≤ limit) }
    ensures content { IfOk result (λ v. HasContent (F.held files.old) name.now v.items) }
    ensures cause { IfErr result (WasNotRead limit name.now (F.held files.old) (F.faults files.old)
        (F.faults files.new)) }
{
    match files.read(alloc, name, limit) {
        Ok(bytes) => Ok(bytes),
        Err(error) => Err(unread(alloc, name, error)),
    }
}

/// The texts of source files, in order.
pub fn read_sources<F: Files>(
    alloc: Global,
    files: &mut F,
    names: &[SourceName<'_>],
) -> Result<Vec<SourceText>, LoadError>
    ensures keeps { Told SameFiles (F.held files.old) (F.held files.new) }
    ensures later { F.faults files.old ≤ F.faults files.new }
    ensures counted { MatchResult result
        (λ _. LeavesCount (F.held files.old) (F.faults files.old) (F.faults files.new))
        (ErrorLeaves (F.held files.old) (F.faults files.old) (F.faults files.new)) }
    ensures read { IfOk result (λ v. AreRead (F.held files.old) (source_files names.now)
        (texts_of v.items)) }
    ensures cause { IfErr result (OneWasNotRead (F.held files.old) (F.faults files.old)
        (F.faults files.new) (source_files names.now)) }
{
    let mut texts = Vec::new(alloc);
    for source in names {
        let bytes = read_file(alloc, files, source.name.as_str(), SOURCE_LIMIT)?;
        texts.push(SourceText { bytes })?;
    }
    Ok(texts)
}
