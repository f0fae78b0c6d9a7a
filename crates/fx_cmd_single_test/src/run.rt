//! The run of a case.

use crate::case::{Case, ROOM, TextFile};
use fx_base::{MemFiles, MemSink, MemSource};
use fx_cmd_single::single_command;
use fx_cmd_single::words::{SingleWords, single_of};
use fx_device::{BlockStore, Counter, Device, FailAt};
use std::alloc::{AllocError, Global};

/// The words of the device that keeps blocks.
const STORE_WORDS: u32 = 64;

fn held_files(alloc: Global, files: &[TextFile], failing: &[u64]) -> Result<MemFiles, AllocError> {
    let mut held = MemFiles::new(alloc, Vec::from_slice(alloc, failing)?);
    for file in files {
        held.add(file.name.as_str(), file.text.as_bytes())?;
    }
    Ok(held)
}

/// What a run reads and writes.
#[derive(Drop)]
struct Streams {
    files: MemFiles,
    input: MemSource,
    out: MemSink,
    err: MemSink,
}

fn source_of(alloc: Global, case: &Case) -> Result<MemSource, AllocError> {
    let bytes = Vec::from_slice(alloc, case.input.as_bytes())?;
    let reads = Vec::from_slice(alloc, &case.failing_reads)?;
    Ok(MemSource::new(bytes, reads))
}

fn error_of(alloc: Global, case: &Case) -> Result<MemSink, AllocError> {
    let lines = Vec::from_slice(alloc, &case.failing_lines)?;
    MemSink::new(alloc, ROOM, ROOM, lines)
}

fn streams_of(alloc: Global, case: &Case) -> Result<Streams, AllocError> {
    let files = held_files(alloc, &case.files, &case.failing_files)?;
    let input = source_of(alloc, case)?;
    let out = MemSink::new(alloc, case.room, ROOM, Vec::new(alloc))?;
    let err = error_of(alloc, case)?;
    Ok(Streams {
        files,
        input,
        out,
        err,
    })
}

/// Makes a run, and gives its status.
fn status_of(
    alloc: Global,
    case: &Case,
    words: &SingleWords<'_>,
    streams: &mut Streams,
) -> Result<u8, AllocError> {
    let calls = Vec::from_slice(alloc, &case.failing_counts)?;
    let mut devices: Vec<Box<dyn Device>> = Vec::new(alloc);
    devices.push(Box::new(alloc, BlockStore::new(alloc, STORE_WORDS)?)?)?;
    devices.push(Box::new(alloc, FailAt::new(Counter::new(0), calls))?)?;
    Ok(single_command(
        alloc,
        words,
        &mut streams.files,
        &mut streams.input,
        &mut streams.out,
        &mut streams.err,
        devices,
    ))
}

/// The answer to a case: the output, if there is one, the line and the status, each on lines of its own.
pub fn answer(alloc: Global, case: &Case) -> Result<String, AllocError> {
    let Some(words) = single_of(&case.words) else {
        return String::from_str(alloc, "usage");
    };
    let mut streams = streams_of(alloc, case)?;
    let status = status_of(alloc, case, &words, &mut streams)?;
    let out = String::from_utf8_lossy(alloc, streams.out.bytes())?;
    let line = String::from_utf8_lossy(alloc, streams.err.bytes())?;
    let line = line.trim_end();
    if out.is_empty() {
        format!(in alloc; "{line}\nstatus {status}")
    } else {
        format!(in alloc; "{out}\n{line}\nstatus {status}")
    }
}
