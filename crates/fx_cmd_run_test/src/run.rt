//! One run.

use crate::setting::{Failing, Setting};
use fx_base::{MemFiles, MemSink, MemSource};
use fx_cmd_base::words::RunWords;
use fx_cmd_run::report::run_command;
use fx_device::{BlockStore, Counter, Device, FailAt};
use std::alloc::{AllocError, Global};

/// The words of the device that keeps blocks.
const STORE_WORDS: u32 = 64;

/// The words of a text, parted by spaces.
fn words(alloc: Global, text: &str) -> Result<Vec<String>, AllocError> {
    let mut words = Vec::new(alloc);
    for word in text.split_whitespace() {
        words.push(String::from_str(alloc, word)?)?;
    }
    Ok(words)
}

/// The files of a setting.
fn files(alloc: Global, setting: &Setting) -> Result<MemFiles, AllocError> {
    let mut files = MemFiles::new(alloc, vec![in alloc; setting.failing.files]?);
    files.add("a.img", &setting.file)?;
    files.add("s", &setting.schedule)?;
    Ok(files)
}

/// What a run wrote.
#[derive(Drop)]
struct Left {
    status: u8,
    out: MemSink,
    err: MemSink,
}

/// Makes a run.
fn left_by(alloc: Global, setting: &Setting, run: &RunWords<'_>) -> Result<Left, AllocError> {
    let Failing {
        input: input_call,
        err: err_call,
        counter: counter_call,
        ..
    } = setting.failing;
    let mut files = files(alloc, setting)?;
    let bytes = Vec::from_slice(alloc, &setting.input)?;
    let mut input = MemSource::new(bytes, vec![in alloc; input_call]?);
    let mut out = MemSink::new(alloc, setting.room, 3, Vec::new(alloc))?;
    let mut err = MemSink::new(alloc, 200, 200, vec![in alloc; err_call]?)?;
    let counter = FailAt::new(Counter::new(0), vec![in alloc; counter_call]?);
    let mut devices: Vec<Box<dyn Device>> = Vec::new(alloc);
    devices.push(Box::new(alloc, BlockStore::new(alloc, STORE_WORDS)?)?)?;
    devices.push(Box::new(alloc, counter)?)?;
    let status = run_command(
        alloc, run, &mut files, &mut input, &mut out, &mut err, devices,
    );
    Ok(Left { status, out, err })
}

/// The answer to a command: the status, the line, and the output if there is one.
pub fn answer(alloc: Global, setting: &Setting, command: &str) -> Result<String, AllocError> {
    let words = words(alloc, command)?;
    let Some(run) = RunWords::of(&words) else {
        return String::from_str(alloc, "usage");
    };
    let left = left_by(alloc, setting, &run)?;
    let line = String::from_utf8_lossy(alloc, left.err.bytes())?;
    let out = String::from_utf8_lossy(alloc, left.out.bytes())?;
    let line = line.trim_end();
    if out.is_empty() {
        format!(in alloc; "{} {line}", left.status)
    } else {
        format!(in alloc; "{} {line} | {out}", left.status)
    }
}
