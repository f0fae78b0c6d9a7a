//! The real files, standard input and the standard streams. They tell nothing of content, and raise a count at
//! each fault.

ghost use Rattle.std.specs.Prelude.{None, ◌≤◌, length, IfOk, IfErr};
ghost use Rattle.fx_base.specs.Files.{IsOfTheFile};

use fx_base::{FileError, Files, Sink, SinkFailed, Source, SourceFailed};
use std::alloc::Global;
use std::fs::{self, File};
use std::io::{self, ErrorKind, Read, Write};
use std::rt;

#[cfg(test)]
mod tests;

/// The files of the system.
#[derive(Drop)]
pub struct RealFiles<'a, R> {
    rt: &'a R,
    faults: u64,
}

impl<'a, R> RealFiles<'a, R> {
    pub fn new(rt: &'a R) -> RealFiles<'a, R> {
        RealFiles { rt, faults: 0 }
    }
}

/// The error of a file's call.
fn file_error(error: &io::Error) -> FileError {
    match error.kind() {
        ErrorKind::NotFound => FileError::Missing,
        ErrorKind::OutOfMemory => FileError::OutOfMemory,
        _ => FileError::Failed,
    }
}

/// All bytes of a reader that gives at most so many. A longer one is read to one byte past the limit.
fn read_whole<R: Read + Drop>(reader: R, alloc: Global, limit: u64) -> Result<Vec<u8>, FileError>
    ensures { IfOk result (λ v. length v.items ≤ limit) }
{
    let mut bytes = Vec::new(alloc);
    match reader.take(limit.saturating_add(1)).read_to_end(&mut bytes) {
        Ok(_) if bytes.len() as u64 > limit => Err(FileError::TooLong),
        Ok(_) => Ok(bytes),
        Err(error) if error.kind() == ErrorKind::OutOfMemory => Err(FileError::OutOfMemory),
        Err(_) => Err(FileError::Failed),
    }
}

/// The bytes of a file that has at most so many.
fn read_file<R: rt::Files>(
    rt: &R,
    alloc: Global,
    name: &str,
    limit: u64,
) -> Result<Vec<u8>, FileError>
    ensures { IfOk result (λ v. length v.items ≤ limit) }
{
    match File::open(rt, name) {
        Ok(file) => read_whole(file, alloc, limit),
        Err(error) => Err(file_error(&error)),
    }
}

/// Writes a file of these bytes.
fn write_file<R: rt::Files>(rt: &R, name: &str, bytes: &[u8]) -> Result<(), FileError>
    ensures { IfErr result (λ e. IsOfTheFile e → ⊥) }
{
    match fs::write(rt, name, bytes) {
        Ok(()) => Ok(()),
        Err(error) if error.kind() == ErrorKind::OutOfMemory => Err(FileError::OutOfMemory),
        Err(_) => Err(FileError::Failed),
    }
}

impl<R: rt::Files> Files for RealFiles<'_, R> {
    ghost held = { λ _. None };

    ghost faults = { λ files. files.faults };

    fn read(&mut self, alloc: Global, name: &str, limit: u64) -> Result<Vec<u8>, FileError> {
        match read_file(self.rt, alloc, name, limit) {
            Ok(bytes) => Ok(bytes),
            Err(error) => {
                self.faults = self.faults.saturating_add(1);
                Err(error)
            }
        }
    }

    fn write(&mut self, _alloc: Global, name: &str, bytes: &[u8]) -> Result<(), FileError> {
        match write_file(self.rt, name, bytes) {
            Ok(()) => Ok(()),
            Err(error) => {
                self.faults = self.faults.saturating_add(1);
                Err(error)
            }
        }
    }
}

/// A source that reads from a reader, as from standard input.
#[derive(Drop)]
pub struct StdSource<R> {
    reader: R,
    faults: u64,
}

impl<R> StdSource<R> {
    pub fn new(reader: R) -> StdSource<R> {
        StdSource { reader, faults: 0 }
    }
}

impl<R: Read> Source for StdSource<R> {
    ghost left = { λ _. None };

    ghost faults = { λ source. source.faults };

    fn byte(&mut self) -> Result<Option<u8>, SourceFailed> {
        let mut byte = [0u8; 1];
        match self.reader.read(&mut byte) {
            Ok(0) => Ok(None),
            Ok(_) => Ok(Some(byte[0])),
            Err(_) => {
                self.faults = self.faults.saturating_add(1);
                Err(SourceFailed)
            }
        }
    }
}

/// A sink that writes to a writer, as to standard output.
#[derive(Drop)]
pub struct StdSink<W> {
    writer: W,
    faults: u64,
}

impl<W> StdSink<W> {
    pub fn new(writer: W) -> StdSink<W> {
        StdSink { writer, faults: 0 }
    }
}

impl<W: Write> Sink for StdSink<W> {
    ghost taken = { λ _. None };

    ghost faults = { λ sink. sink.faults };

    fn put(&mut self, bytes: &[u8]) -> Result<usize, SinkFailed> {
        match self.writer.write(bytes) {
            Ok(0) if !bytes.is_empty() => {
                self.faults = self.faults.saturating_add(1);
                Ok(0)
            }
            Ok(count) => Ok(count),
            Err(_) => {
                self.faults = self.faults.saturating_add(1);
                Err(SinkFailed)
            }
        }
    }
}
